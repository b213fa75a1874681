//! Lists that own their items.

ghost use Rattle.std.specs.Prelude.{◌≡◌, ◌∷◌, ◌++◌, [], OnOk, OnErr};

use serf_wire::Bytes;
use std::alloc::{AllocError, Global};
use std::marker::Model;

/// Items in order.
///
/// Contracts see it as the list of its items. It is made from a `Vec` and can be converted back without an allocation.
#[derive(Drop)]
pub struct List<T> {
    items: Vec<T>,
}

impl<T> Model for List<T> {
    ghost use Rattle.std.specs.Prelude.{List};

    ghost Value = { List T };

    ghost view = { λ l. l.items.items };
}

impl<T> List<T> {
    /// Makes an empty list. Allocates no memory.
    pub fn new(alloc: Global) -> List<T>
        ensures { result ≡ [] }
    {
        List::from_vec(Vec::new(alloc))
    }

    /// Makes a list of the items of a vector. Allocates no memory.
    pub fn from_vec(items: Vec<T>) -> List<T>
        ensures { result ≡ items.items }
    {
        List { items }
    }

    /// Borrows the items. Allocates no memory.
    pub fn as_slice(&self) -> &[T]
        ensures { result.now ≡ self.now }
    {
        self.items.as_slice()
    }

    /// Converts the list to a vector of its items. Allocates no memory.
    pub fn into_vec(self) -> Vec<T>
        ensures { result.items ≡ self }
    {
        let List { items } = self;
        items
    }
}

impl<T: Drop> List<T> {
    /// Appends `item`, or changes nothing if there is no memory for it.
    pub fn push(&mut self, item: T) -> Result<(), AllocError>
        ensures ok { OnOk result (self.new ≡ self.old ++ item ∷ []) }
        ensures err { OnErr result (self.new ≡ self.old) }
    {
        self.items.push(item)?;
        Ok(())
    }
}

/// Byte strings in order: the names of the nodes that acked a query, or a query's filters.
pub type BytesList = List<Bytes>;

/// A node's response to a query.
#[derive(Drop)]
pub struct Response {
    /// The responding node's name.
    pub from: Bytes,
    pub payload: Bytes,
}

/// Responses in order of arrival.
pub type Responses = List<Response>;
