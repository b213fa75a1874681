//! Makes the slots of a window. Memory for a slot is allocated when a time first enters this slot or a slot
//! with a higher index.

ghost use Rattle.std.specs.Prelude.{◌≡◌, ◌+◌, ◌<◌, ◌≤◌, ◌++◌, replicate, OnOk, OnErr, vec_len, vec_capacity};
ghost use Rattle.serf_wire.specs.Buffers.{unused_slot};
ghost use Rattle.serf_window.specs.Slots.{all_slots};
ghost use Rattle.serf_window.specs.Window.{max_slot_count};

use crate::verdict::MAX_SLOTS;
use serf_lamport::Time;
use serf_wire::{ReservedVec, TimeSlot};
use std::alloc::{AllocError, Global};

/// Returns a slot that was never used. Allocates no memory.
fn unused<K>(alloc: Global) -> TimeSlot<K>
    ensures { result ≡ unused_slot }
{
    let Some(time) = Time::new(0) else {
        unreachable!()
    };
    TimeSlot {
        time,
        held: ReservedVec::from_vec(Vec::new(alloc)),
    }
}

/// Appends `count` slots that were never used to `slots`, which must have room for them.
fn add_unused<K>(slots: &mut Vec<TimeSlot<K>>, alloc: Global, count: usize)
    requires { vec_len slots.old + count ≤ vec_capacity slots.old }
    ensures { slots.new.items ≡ slots.old.items ++ replicate count unused_slot }
{
    for _ in 0..count {
        slots.push_reserved(unused(alloc));
    }
}

/// If the slot at `place` of a window of `n` slots isn't in memory yet, the call makes this slot and all
/// slots before it. Then `slots` becomes at least twice as long, but never longer than `n`. The entries in
/// the slots don't change.
pub(crate) fn reach<K>(
    slots: &mut Vec<TimeSlot<K>>,
    alloc: Global,
    place: usize,
    n: usize,
) -> Result<(), AllocError>
    requires within { place < n }
    requires maximum { n ≤ max_slot_count }
    requires size { vec_len slots.old ≤ n }
    ensures there { OnOk result (place < vec_len slots.new) }
    ensures size { vec_len slots.new ≤ n }
    ensures full { OnErr result (vec_len slots.old ≤ place) }
    ensures same { all_slots n slots.new.items ≡ all_slots n slots.old.items }
{
    let len = slots.len();
    if place < len {
        return Ok(());
    }
    let count = n.min((2 * len).max(place + 1)) - len;
    slots.reserve_exact(count)?;
    add_unused(slots, alloc, count);
    Ok(())
}
