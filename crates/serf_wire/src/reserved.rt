//! A list with spare room, so that items can be added later without allocating memory.

ghost use Rattle.std.specs.Prelude.{◌≡◌, ◌+◌, ◌-◌, ◌<◌, ◌≤◌, [], ◌∷◌, ◌++◌, OnOk, OnErr, length, vec_len, vec_capacity};

use std::alloc::{AllocError, Global};
use std::marker::Model;

/// A list of items in order, with room for more items.
///
/// Contracts see the items, and how many more items can be added without allocating memory.
#[derive(Debug, Drop)]
pub struct ReservedVec<T> {
    items: Vec<T>,
}

impl<T> Model for ReservedVec<T> {
    ghost use Rattle.std.specs.Prelude.{◌-◌};
    ghost use Rattle.std.specs.Vec.{vec_len, vec_capacity};
    ghost use Rattle.serf_wire.specs.Reserved.{Reserved};

    ghost Value = { Reserved T };

    ghost view = { λ l.
        record { items = l.items.items; room = vec_capacity l.items - vec_len l.items } };
}

impl<T> ReservedVec<T> {
    /// Returns a list that has no items and no room. Allocates no memory.
    pub fn new(alloc: Global) -> ReservedVec<T>
        ensures items { result.items ≡ [] }
        ensures room { result.room ≡ 0 }
    {
        ReservedVec {
            items: Vec::new(alloc),
        }
    }

    /// Turns a vector into a list of its items. Allocates no memory.
    pub fn from_vec(items: Vec<T>) -> ReservedVec<T>
        ensures items { result.items ≡ items.items }
        ensures room { result.room ≡ vec_capacity items - vec_len items }
    {
        ReservedVec { items }
    }

    /// Returns the items as a slice. Allocates no memory.
    pub fn as_slice(&self) -> &[T]
        ensures { result.now ≡ self.now.items }
    {
        self.items.as_slice()
    }

    /// Turns the list back into a vector, with the spare room. Allocates no memory.
    pub fn into_vec(self) -> Vec<T>
        ensures items { result.items ≡ self.items }
        ensures room { vec_capacity result - vec_len result ≡ self.room }
    {
        let ReservedVec { items } = self;
        items
    }

    /// Makes room for one more item. If there is no memory for the item, the call returns `AllocError` and
    /// changes nothing. Allocates memory only if there is no room yet.
    pub fn make_room(&mut self) -> Result<(), AllocError>
        ensures items { self.new.items ≡ self.old.items }
        ensures room { OnOk result (0 < self.new.room) }
        ensures kept { self.old.room ≤ self.new.room }
        ensures err { OnErr result (self.new ≡ self.old) }
        ensures full { OnErr result (self.old.room ≡ 0) }
    {
        self.items.reserve(1)
    }

    /// Adds an item. There must be room for it, and the item uses exactly one place of the room. Allocates no
    /// memory.
    pub fn add(&mut self, item: T)
        requires { 0 < self.old.room }
        ensures items { self.new.items ≡ self.old.items ++ item ∷ [] }
        ensures room { self.new.room + 1 ≡ self.old.room }
    {
        self.items.push_reserved(item);
    }
}

impl<T: Drop> ReservedVec<T> {
    /// Drops all items. Their places become room for new items. Allocates no memory.
    pub fn clear(&mut self)
        ensures items { self.new.items ≡ [] }
        ensures room { self.new.room ≡ self.old.room + length self.old.items }
    {
        self.items.clear();
    }
}
