//! A checked value, which is read in place. Nothing here allocates memory.

ghost use Rattle.std.specs.Prelude.{◌≡◌, ◌≤◌, ◌<◌, ◌^◌, IfSome, length, is_ok, true};
ghost use Rattle.serf_pack.specs.Reading.{value_at};

use crate::head::{Head, read_head};
use crate::walk::{Items, Pairs};

/// The kind of a value. Source: MessagePack specification, "Type system".
#[derive(Clone, Copy, Debug, PartialEq, Eq)]
pub enum Kind {
    /// Nil ("nil format").
    Nil,
    /// A truth value ("bool format family").
    Bool,
    /// An integer of any width, signed or not ("int format family").
    Int,
    /// A byte string, str or bin ("str format family", "bin format family").
    Raw,
    /// An array ("array format family").
    Array,
    /// A map ("map format family").
    Map,
}

/// A value of checked bytes, which are borrowed. [`check`](crate::check) makes views, and so do the iterators
/// over the parts of another view. Copying a view copies no bytes.
#[derive(Clone, Copy, Debug)]
pub struct View<'a> {
    pub(crate) bytes: &'a [u8],
    // The length of the whole input, of which `bytes` are the end.
    pub(crate) total: usize,
    // How deep arrays and maps may be nested in the value.
    pub(crate) depth_left: u64,
    pub ghost within: { length bytes.now ≤ total },
    pub ghost small: { total < 2 ^ 63 },
    pub ghost checked: { is_ok (value_at depth_left total bytes.now) ≡ true },
}

impl<'a> View<'a> {
    ghost use Rattle.serf_pack.specs.Table.{HasFormatInt, IsFormatInt};
    ghost use Rattle.serf_pack.specs.Reading.{place};
    ghost use Rattle.std.specs.Option.{option_copied};
    ghost use Rattle.serf_pack.specs.View.{tree_of, kind_of, int_of, flag_of, raw_of, place_of, items_of, pairs_of, tree_by, HasParts};
    ghost use Rattle.serf_pack.specs.Walk.{items_left, pairs_left};

    /// Returns the value's head, and the bytes after it.
    #[inline(always)]
    fn head(&self) -> (Head, &'a [u8])
        ensures tree { tree_of self.now ≡ tree_by self.now.depth_left self.now.total
            (place self.now.total self.now.bytes.now) result.0 result.1.now }
        ensures parts { HasParts self.now.depth_left self.now.total result.0 result.1.now }
        ensures within { length result.1.now ≤ self.now.total }
        ensures int { HasFormatInt result.0 }
    {
        match read_head(self.total, self.bytes) {
            Ok(head) => head,
            Err(_) => unreachable!(),
        }
    }

    /// Returns the kind of the value. Allocates no memory.
    #[inline]
    pub fn kind(&self) -> Kind
        ensures { result ≡ kind_of (tree_of self.now) }
    {
        match self.head().0 {
            Head::Nil => Kind::Nil,
            Head::Flag(_) => Kind::Bool,
            Head::Int(_) => Kind::Int,
            Head::Raw(_) => Kind::Raw,
            Head::Array(_) => Kind::Array,
            Head::Map(_) => Kind::Map,
        }
    }

    /// Returns the number if the value is an integer, from -2^63 to 2^64 - 1. Returns `None` if the value is
    /// of another kind. Allocates no memory.
    ///
    /// Source: MessagePack specification, "int format family".
    #[inline]
    pub fn int(&self) -> Option<i128>
        ensures value { result ≡ int_of (tree_of self.now) }
        ensures range { IfSome result IsFormatInt }
    {
        match self.head().0 {
            Head::Int(n) => Some(n),
            Head::Nil | Head::Flag(_) | Head::Raw(_) | Head::Array(_) | Head::Map(_) => None,
        }
    }

    /// Returns the truth value if the value is a boolean, or `None` if it is of another kind. Allocates no
    /// memory.
    ///
    /// Source: MessagePack specification, "bool format family".
    #[inline]
    pub fn flag(&self) -> Option<bool>
        ensures { result ≡ flag_of (tree_of self.now) }
    {
        match self.head().0 {
            Head::Flag(b) => Some(b),
            Head::Nil | Head::Int(_) | Head::Raw(_) | Head::Array(_) | Head::Map(_) => None,
        }
    }

    /// Returns the bytes of a byte string, str or bin, borrowed from the input. Returns `None` if the value
    /// is of another kind. Allocates no memory.
    ///
    /// Source: MessagePack specification, "str format family" and "bin format family".
    #[inline]
    pub fn raw(&self) -> Option<&'a [u8]>
        ensures { option_copied result ≡ raw_of (tree_of self.now) }
    {
        let (head, rest) = self.head();
        match head {
            Head::Raw(n) => Some(&rest[..n as usize]),
            _ => None,
        }
    }

    /// Returns the offset at which the value begins in the input that was checked, in bytes from the start of
    /// the input. Allocates no memory.
    #[inline]
    pub fn offset(&self) -> usize
        ensures place { result ≡ place_of (tree_of self.now) }
        ensures small { result < 2 ^ 63 }
    {
        self.total - self.bytes.len()
    }

    /// Returns the items of an array, in order. A value of another kind has no items. Allocates no memory.
    ///
    /// Source: MessagePack specification, "array format family".
    #[tactic(auto, unfolding(crate::specs::Reading::items_at))]
    #[inline(always)]
    pub fn items(&self) -> Items<'a>
        ensures left { items_left result ≡ items_of (tree_of self.now) }
        ensures few { length (items_of (tree_of self.now)) < 2 ^ 64 }
    {
        let (head, rest) = self.head();
        match head {
            Head::Array(n) => Items::new(rest, self.total, self.depth_left - 1, n),
            Head::Nil | Head::Flag(_) | Head::Int(_) | Head::Raw(_) | Head::Map(_) => {
                Items::new(rest, self.total, self.depth_left, 0)
            }
        }
    }

    /// Returns the pairs of a map, each a key and its value, in order. A value of another kind has no pairs.
    /// Allocates no memory.
    ///
    /// Source: MessagePack specification, "map format family".
    #[tactic(auto, unfolding(crate::specs::Reading::pairs_at))]
    #[inline(always)]
    pub fn pairs(&self) -> Pairs<'a>
        ensures left { pairs_left result ≡ pairs_of (tree_of self.now) }
        ensures few { length (pairs_of (tree_of self.now)) < 2 ^ 64 }
    {
        let (head, rest) = self.head();
        match head {
            Head::Map(n) => Pairs::new(rest, self.total, self.depth_left - 1, n),
            Head::Nil | Head::Flag(_) | Head::Int(_) | Head::Raw(_) | Head::Array(_) => {
                Pairs::new(rest, self.total, self.depth_left, 0)
            }
        }
    }
}
