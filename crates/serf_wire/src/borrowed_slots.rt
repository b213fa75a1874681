//! The slots of a buffer, which are borrowed and not copied.

ghost use Rattle.std.specs.Prelude.{◌≡◌, ◌++◌, ⊤, length, map, replicate, slice_get};
ghost use Rattle.std.specs.Option.{option_map};
ghost use Rattle.serf_wire.specs.Buffers.{borrowed_slot, slot_in_memory, slots_borrowed, unused_slot};

use crate::texts::{EventBody, TimeSlot};
use serf_lamport::Time;
use std::alloc::AllocError;

/// A borrowed slot of a buffer: a time, and the entries of this time that the slot holds, in order.
#[derive(Drop)]
pub struct BorrowedSlot<'a, T> {
    pub time: Time,
    pub held: &'a [T],
}

/// The slots of a buffer that haven't been read yet, borrowed and in order.
///
/// The slots that were never used come last and use no memory. Each of them has the time 0 and holds no
/// entries.
#[derive(Drop)]
pub struct BorrowedSlots<'a, T> {
    pub(crate) used: &'a [TimeSlot<T>],
    pub(crate) unused: u32,
}

/// The slots of a buffer of events.
pub type BorrowedEventSlots<'a> = BorrowedSlots<'a, EventBody>;

impl<'a, T> Copy for BorrowedSlots<'a, T> {}

impl<'a, T> Clone for BorrowedSlots<'a, T> {
    ghost is_clone = { λ x y. (y.used.now ≡ x.used.now) × (y.unused ≡ x.unused) };

    ghost is_infallible = { λ _. ⊤ };

    fn clone(&self) -> Result<Self, AllocError> {
        Ok(*self)
    }
}

/// Borrows the time of `slot` and the entries that it holds.
fn borrowed<'a, T>(slot: &'a TimeSlot<T>) -> BorrowedSlot<'a, T>
    ensures { borrowed_slot result ≡ slot_in_memory slot.now }
{
    BorrowedSlot {
        time: slot.time,
        held: slot.held.as_slice(),
    }
}

/// Returns a slot that was never used: its time is 0, and it holds no entries.
fn unused<'a, T>() -> BorrowedSlot<'a, T>
    ensures { borrowed_slot result ≡ slot_in_memory unused_slot }
{
    let Some(time) = Time::new(0) else {
        unreachable!()
    };
    BorrowedSlot { time, held: &[] }
}

impl<'a, T> BorrowedSlots<'a, T> {
    /// Returns the slots `used`, followed by `unused` slots that were never used. Allocates no memory.
    pub fn of(used: &'a [TimeSlot<T>], unused: u32) -> BorrowedSlots<'a, T>
        ensures { slots_borrowed result ≡ used.now ++ replicate unused unused_slot }
    {
        BorrowedSlots { used, unused }
    }

    /// Returns the number of slots. Allocates no memory.
    pub fn len(&self) -> usize
        ensures { result ≡ length (slots_borrowed self.now) }
    {
        self.used.len() + self.unused as usize
    }

    /// Returns the slot at `index`, if there is one. Allocates no memory.
    pub fn get(&self, index: usize) -> Option<BorrowedSlot<'a, T>>
        ensures { option_map borrowed_slot result
            ≡ slice_get (map slot_in_memory (slots_borrowed self.now)) index }
    {
        match self.used.get(index) {
            Some(slot) => Some(borrowed(slot)),
            None if index - self.used.len() < self.unused as usize => Some(unused()),
            None => None,
        }
    }
}

impl<'a, T> Iterator for BorrowedSlots<'a, T> {
    ghost use Rattle.std.specs.Iterator.{YieldsFirstBy, item_count};
    ghost use Rattle.serf_wire.specs.Buffers.{borrowed_slot, slots_to_come};

    type Item = BorrowedSlot<'a, T>;

    ghost next_gives = { YieldsFirstBy borrowed_slot slots_to_come };

    ghost remaining = { item_count slots_to_come };

    fn next(&mut self) -> Option<BorrowedSlot<'a, T>> {
        if let Some((first, used)) = self.used.split_first() {
            self.used = used;
            return Some(borrowed(first));
        }
        if self.unused == 0 {
            return None;
        }
        self.unused -= 1;
        Some(unused())
    }
}
