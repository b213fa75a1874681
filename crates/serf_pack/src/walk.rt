//! Walks over the parts of a checked value, one after another. Nothing here allocates memory.

ghost use Rattle.std.specs.Prelude.{◌≡◌, ◌≤◌, ◌<◌, ◌^◌, length, drop, is_ok, true};
ghost use Rattle.serf_pack.specs.Reading.{value_at, items_at, pairs_at};

use crate::skip::skip;
use crate::view::View;

/// The items of an array that haven't been read yet, in order. [`View::items`] makes this iterator. Each step
/// reads one item once and allocates no memory. After the last item, every step returns `None`.
#[derive(Clone, Copy, Debug)]
pub struct Items<'a> {
    // The input from the next item to its end.
    pub(crate) rest: &'a [u8],
    // The length of the whole input, of which `rest` is the end.
    pub(crate) total: usize,
    // How deep arrays and maps may be nested in an item.
    pub(crate) depth_left: u64,
    // How many items haven't been read yet.
    pub(crate) left: u64,
    pub ghost within: { length rest.now ≤ total },
    pub ghost small: { total < 2 ^ 63 },
    pub ghost checked: { is_ok (items_at (value_at depth_left total) left rest.now) ≡ true },
}

/// The pairs of a map that haven't been read yet, in order, each a key and its value. [`View::pairs`] makes
/// this iterator. Each step reads one pair once and allocates no memory. After the last pair, every step
/// returns `None`.
#[derive(Clone, Copy, Debug)]
pub struct Pairs<'a> {
    // The input from the next key to its end.
    pub(crate) rest: &'a [u8],
    // The length of the whole input, of which `rest` is the end.
    pub(crate) total: usize,
    // How deep arrays and maps may be nested in a key or a value.
    pub(crate) depth_left: u64,
    // How many pairs haven't been read yet.
    pub(crate) left: u64,
    pub ghost within: { length rest.now ≤ total },
    pub ghost small: { total < 2 ^ 63 },
    pub ghost checked: { is_ok (pairs_at (value_at depth_left total) left rest.now) ≡ true },
}

/// Returns the part of `bytes` after the first `len` bytes.
#[inline(always)]
fn after(bytes: &[u8], len: usize) -> &[u8]
    requires { len ≤ length bytes.now }
    ensures { result.now ≡ drop len bytes.now }
{
    &bytes[len..]
}

impl<'a> Items<'a> {
    ghost use Rattle.std.specs.Prelude.{ℕ, [], ◌∷◌, take, IfSome, IfNone};
    ghost use Rattle.serf_pack.specs.Tree.{Tree};
    ghost use Rattle.serf_pack.specs.View.{item_list};
    ghost use Rattle.serf_pack.specs.Walk.{items_bytes, items_left, PacksAlone};
    ghost use Rattle.serf_pack.specs.Reading.{items_or_none};

    /// Returns the first `left` items of `rest`, which were checked. `rest` is the end of an input of `total`
    /// bytes.
    #[tactic(auto, unfolding(crate::specs::Walk::items_left))]
    #[inline]
    pub(crate) fn new(rest: &'a [u8], total: usize, depth_left: u64, left: u64) -> Items<'a>
        requires within { length rest.now ≤ total }
        requires small { total < 2 ^ 63 }
        requires checked { is_ok (items_at (value_at depth_left total) left rest.now) ≡ true }
        ensures left { items_left result
            ≡ item_list (items_or_none (items_at (value_at depth_left total) left rest.now)) }
        ensures count { length (items_left result) ≡ left }
    {
        Items {
            rest,
            total,
            depth_left,
            left,
        }
    }

    /// Returns an iterator without items. Allocates no memory.
    #[tactic(auto, unfolding(crate::specs::Reading::items_at))]
    #[inline(always)]
    pub fn none() -> Items<'a>
        ensures { items_left result ≡ [] }
    {
        Items::new(b"", 0, 0, 0)
    }

    /// Returns the input from the next item to its end. Allocates no memory.
    #[tactic(auto, unfolding(crate::specs::Walk::items_bytes))]
    #[inline]
    pub fn bytes(&self) -> &'a [u8]
        ensures { result.now ≡ items_bytes self.now }
    {
        self.rest
    }

    /// Returns how many items haven't been read yet. Allocates no memory.
    #[inline]
    pub fn left(&self) -> u64
        ensures { result ≡ length (items_left self.now) }
    {
        self.left
    }

    /// Returns the items after the next one, without reading the next item again. The caller must know that
    /// the next item is the first `len` bytes of [`Items::bytes`]. These bytes must pack a value by
    /// themselves, at every place in an input. The bytes after them are the [`Items::bytes`] of the result.
    /// Returns `None` after the last item. Allocates no memory.
    #[tactic(auto, unfolding(crate::specs::Walk::items_bytes))]
    #[inline]
    pub fn following(&self, len: usize) -> Option<Items<'a>>
        requires within { len ≤ length (items_bytes self.now) }
        requires packed { (tree : ℕ → Tree) × PacksAlone tree (take len (items_bytes self.now)) }
        ensures some { IfSome result (λ rest. (tree : ℕ → Tree)
            → PacksAlone tree (take len (items_bytes self.now))
            → (p : ℕ) × (items_left self.now ≡ tree p ∷ items_left rest)) }
        ensures bytes { IfSome result (λ rest. items_bytes rest ≡ drop len (items_bytes self.now)) }
        ensures none { IfNone result (items_left self.now ≡ []) }
    {
        if self.left == 0 {
            return None;
        }
        let rest = after(self.rest, len);
        Some(Items {
            rest,
            total: self.total,
            depth_left: self.depth_left,
            left: self.left - 1,
        })
    }
}

impl<'a> Pairs<'a> {
    ghost use Rattle.serf_pack.specs.View.{pair_list};
    ghost use Rattle.serf_pack.specs.Walk.{pairs_left};
    ghost use Rattle.serf_pack.specs.Reading.{pairs_or_none};

    /// Returns the first `left` pairs of `rest`, which were checked. `rest` is the end of an input of `total`
    /// bytes.
    #[tactic(auto, unfolding(crate::specs::Walk::pairs_left))]
    #[inline]
    pub(crate) fn new(rest: &'a [u8], total: usize, depth_left: u64, left: u64) -> Pairs<'a>
        requires within { length rest.now ≤ total }
        requires small { total < 2 ^ 63 }
        requires checked { is_ok (pairs_at (value_at depth_left total) left rest.now) ≡ true }
        ensures left { pairs_left result
            ≡ pair_list (pairs_or_none (pairs_at (value_at depth_left total) left rest.now)) }
        ensures count { length (pairs_left result) ≡ left }
    {
        Pairs {
            rest,
            total,
            depth_left,
            left,
        }
    }
}

impl<'a> Iterator for Items<'a> {
    ghost use Rattle.std.specs.Iterator.{YieldsFirstBy, item_count};
    ghost use Rattle.serf_pack.specs.View.{tree_of};
    ghost use Rattle.serf_pack.specs.Walk.{items_left};

    type Item = View<'a>;

    ghost next_gives = { YieldsFirstBy tree_of items_left };

    ghost remaining = { item_count items_left };

    #[inline]
    fn next(&mut self) -> Option<View<'a>> {
        if self.left == 0 {
            return None;
        }
        let Ok(rest) = skip(self.depth_left, self.total, self.rest) else {
            unreachable!()
        };
        let item = View {
            bytes: self.rest,
            total: self.total,
            depth_left: self.depth_left,
        };
        *self = Items {
            rest,
            total: self.total,
            depth_left: self.depth_left,
            left: self.left - 1,
        };
        Some(item)
    }
}

impl<'a> Iterator for Pairs<'a> {
    ghost use Rattle.std.specs.Iterator.{YieldsFirstBy, item_count};
    ghost use Rattle.serf_pack.specs.Walk.{pairs_left, trees_of};

    type Item = (View<'a>, View<'a>);

    ghost next_gives = { YieldsFirstBy trees_of pairs_left };

    ghost remaining = { item_count pairs_left };

    #[inline]
    fn next(&mut self) -> Option<(View<'a>, View<'a>)> {
        if self.left == 0 {
            return None;
        }
        let Ok(after_key) = skip(self.depth_left, self.total, self.rest) else {
            unreachable!()
        };
        let Ok(rest) = skip(self.depth_left, self.total, after_key) else {
            unreachable!()
        };
        let key = View {
            bytes: self.rest,
            total: self.total,
            depth_left: self.depth_left,
        };
        let value = View {
            bytes: after_key,
            total: self.total,
            depth_left: self.depth_left,
        };
        *self = Pairs {
            rest,
            total: self.total,
            depth_left: self.depth_left,
            left: self.left - 1,
        };
        Some((key, value))
    }
}
