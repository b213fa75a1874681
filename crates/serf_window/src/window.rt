//! A window holds the latest entries, in slots by time, and decides whether an entry that is offered may
//! enter.

ghost use Rattle.std.specs.Prelude.{◌≡◌, ◌≢◌, false, ℕ, ◌<◌, ◌≤◌, ◌*◌, ◌%◌, ◌^◌, ◌↔◌, ◌⊎◌, List, [], ◌∷◌, ◌++◌, map, length, sum_by, OnOk, OnErr, IfOk, IsErr, slice_index_or};
ghost use Rattle.std.specs.List.{list_any};
ghost use Rattle.serf_window.specs.OneSlot.{slot_verdict};
ghost use Rattle.serf_wire.specs.Buffers.{slots_borrowed, unused_slot};
ghost use Rattle.serf_window.specs.Slots.{slot_view};
ghost use Rattle.serf_window.specs.Window.{IsBadSize, IsWindow, TimesBelow, TimedEntry, count_in, max_per_time, max_slot_count, held_count, room_for, slot_after, slots_after, slots_of, time_in, verdict_of};

use crate::borrowed_key::BorrowedKey;
use crate::growth::reach;
use crate::place::place_of;
use crate::verdict::{MAX_PER_TIME, MAX_SLOTS, NewWindowError, Verdict};
use serf_lamport::Time;
use serf_wire::{BorrowedSlots, EventBody, ReservedVec, TimeSlot};
use std::alloc::{AllocError, Global};
use std::marker::Model;

/// A time and a copied key. The window that prepared this entry can insert it without allocating memory.
#[derive(Debug, Drop)]
pub struct Entry<K> {
    time: Time,
    key: K,
}

impl<K> Model for Entry<K> {
    ghost use Rattle.serf_window.specs.Window.{TimedEntry};

    ghost Value = { TimedEntry K };

    ghost view = { λ e. record { time = e.time; key = e.key } };
}

/// The keys of the latest times, in slots by time modulo the number of slots. The window holds at most
/// `per_time` keys of one time.
///
/// A slot is made when a time first enters this slot or a slot with a higher index, so an empty window uses
/// no memory. Contracts see all slots, the room in each, and `per_time`.
#[derive(Debug, Drop)]
pub struct Window<K> {
    /// The slots that are in memory. These are all slots up to the highest one that was ever used, and at
    /// most as many more.
    made: Vec<TimeSlot<K>>,
    slot_count: u64,
    per_time: u64,
}

impl<K> Model for Window<K> {
    ghost use Rattle.std.specs.Prelude.{◌≤◌, map};
    ghost use Rattle.std.specs.Vec.{vec_len};
    ghost use Rattle.serf_window.specs.Window.{IsWindow, WindowOf};

    ghost Value = { WindowOf K };

    ghost use Rattle.serf_window.specs.Slots.{all_slots, slot_view, room_in};

    ghost view = { λ w. record {
      slots = map slot_view (all_slots w.slot_count w.made.items);
      rooms = map room_in (all_slots w.slot_count w.made.items);
      per_time = w.per_time;
    } };

    ghost invariant = { λ w. IsWindow w.slot_count w.per_time
        (map slot_view (all_slots w.slot_count w.made.items)) × (vec_len w.made ≤ w.slot_count) };
}

/// The window of events. Two events are the same if their times, names and payloads are equal.
pub type EventWindow = Window<EventBody>;

/// The window of queries. Two queries are the same if their times and IDs are equal.
pub type QueryWindow = Window<u32>;

/// A list of queries' IDs, in order.
pub type Ids = ReservedVec<u32>;

/// A slot with the IDs of queries.
pub type IdSlot = TimeSlot<u32>;

/// Returns whether one of the keys in `held` is the same as `key`.
fn is_among<K, L: BorrowedKey<K>>(held: &[K], key: &L) -> bool
    ensures { result ≡ list_any (λ h. L.same h (L.key key.now)) held.now }
{
    held.iter().any(|other| key.is(other))
}

/// Decides on an entry with `time` and `key` from the entries in `slot`, which is the slot of `time`. The
/// time must not be below the minimum, and it must not be too old.
fn verdict_in<K, L: BorrowedKey<K>>(
    slot: &TimeSlot<K>,
    per_time: u64,
    time: Time,
    key: &L,
) -> Verdict
    ensures { result ≡ slot_verdict L.same per_time (slot_view slot.now) time (L.key key.now) }
{
    let slot_time = slot.time.get();
    let held = slot.held.as_slice();
    if time.get() < slot_time {
        Verdict::TooOld
    } else if slot_time < time.get() {
        Verdict::New
    } else if is_among(held, key) {
        Verdict::Seen
    } else if per_time <= held.len() as u64 {
        Verdict::TimeFull
    } else {
        Verdict::New
    }
}

/// Decides on an entry with `time` and `key` from the entries in the slot at `place`. If this slot was never
/// used, no entry has entered it.
#[inline(always)]
fn verdict_at<K, L: BorrowedKey<K>>(
    made: &[TimeSlot<K>],
    place: usize,
    per_time: u64,
    time: Time,
    key: &L,
) -> Verdict
    requires { 0 < per_time }
    ensures { result ≡ slot_verdict L.same per_time
        (slot_view (slice_index_or made.now place unused_slot)) time (L.key key.now) }
{
    match made.get(place) {
        Some(slot) => verdict_in(slot, per_time, time, key),
        None => Verdict::New,
    }
}

/// Inserts `key` into `slot`, which is the slot of `time`. If the slot holds entries of an older time, they
/// are removed first, but the slot keeps its memory.
fn accept<K: Drop>(slot: &mut TimeSlot<K>, time: Time, key: K)
    requires room { 0 < slot.old.held.room }
    requires not_later { slot.old.time ≤ time }
    ensures { slot_view slot.new
        ≡ slot_after (slot_view slot.old) (record { time = time; key = key }) }
{
    if slot.time.get() < time.get() {
        slot.held.clear();
        slot.time = time;
    }
    slot.held.add(key);
}

/// Returns the number of keys in `slots`.
fn count_held<K>(slots: &[TimeSlot<K>]) -> u64
    requires { sum_by (λ slot. length slot.held.items) slots.now < 2 ^ 64 }
    ensures { result ≡ sum_by (λ slot. length slot.held.items) slots.now }
{
    slots
        .iter()
        .map(|slot| slot.held.as_slice().len() as u64)
        .sum()
}

impl<K: Drop> Window<K> {
    /// Returns a window of `slot_count` slots that were never used. The window accepts at most `per_time`
    /// keys of one time. Returns `BadSize` if one of the two numbers is 0 or above 65,536. Allocates no
    /// memory.
    pub fn new(alloc: Global, slot_count: u64, per_time: u64) -> Result<Self, NewWindowError>
        ensures slots { IfOk result (λ window. window.slots ≡ slots_of slot_count []) }
        ensures size { IfOk result (λ window. length window.slots ≡ slot_count) }
        ensures below { IfOk result (λ window. (clock : ℕ) → 0 < clock
            → TimesBelow clock window.slots) }
        ensures per_time { IfOk result (λ window. window.per_time ≡ per_time) }
        ensures bad { IsErr result ↔ (IsBadSize max_slot_count slot_count
            ⊎ IsBadSize max_per_time per_time) }
    {
        if slot_count == 0 || slot_count > MAX_SLOTS || per_time == 0 || per_time > MAX_PER_TIME {
            return Err(NewWindowError::BadSize);
        }
        Ok(Window {
            made: Vec::new(alloc),
            slot_count,
            per_time,
        })
    }

    /// Returns the verdict on an entry with `time` and `key`. The verdict takes into account all entries that
    /// have ever entered, although the window holds only the latest ones. The caller's clock, `clock_after`,
    /// must be above `time` and above the times of all slots. `minimum` is the smallest time that the caller
    /// accepts. If the clock isn't above all these times, the verdict may be wrong, but it is `New` only if
    /// the entry may enter. Allocates no memory.
    #[inline]
    pub fn offer<L: BorrowedKey<K>>(
        &self,
        clock_after: u64,
        minimum: u64,
        time: Time,
        key: &L,
    ) -> Verdict
        ensures verdict { (entries : List (TimedEntry K))
            → self.now.slots ≡ slots_of (length self.now.slots) entries → time < clock_after
            → TimesBelow clock_after self.now.slots
            → result ≡ verdict_of L.same (length self.now.slots)
            self.now.per_time entries clock_after minimum time (L.key key.now) }

        // An entry with the verdict `New` may enter.
        ensures not_later { result ≡ Verdict.New → time_in self.now.slots time ≤ time }
        ensures not_full { result ≡ Verdict.New → count_in self.now.slots time < self.now.per_time }
    {
        if time.get() < minimum {
            return Verdict::BelowMinimum;
        }
        if time.get() < clock_after.saturating_sub(self.slot_count) {
            return Verdict::TooOld;
        }
        let place = place_of(time, self.slot_count as usize);
        verdict_at(self.made.as_slice(), place, self.per_time, time, key)
    }

    /// Copies `key` and makes room for it at `time`, so that it can enter without allocating memory. The
    /// entries in the window don't change. If there is no memory, the call returns `AllocError`, and the
    /// whole window is unchanged.
    pub fn prepare<L: BorrowedKey<K>>(
        &mut self,
        alloc: Global,
        time: Time,
        key: &L,
    ) -> Result<Entry<K>, AllocError>
        ensures entry { IfOk result (λ entry. entry ≡ record { time = time; key = L.key key.now }) }
        ensures room { OnOk result (0 < room_for self.new time) }
        ensures slots { self.new.slots ≡ self.old.slots }
        ensures per_time { self.new.per_time ≡ self.old.per_time }
        ensures others { (t : ℕ) → 0 < room_for self.old t → 0 < room_for self.new t }
        ensures err { OnErr result (self.new ≡ self.old) }

        // If copying the key allocates no memory, an error means that there was no room for its time.
        ensures full { OnErr result (L.takes_memory key.now ≡ false → room_for self.old time ≡ 0) }
    {
        let key = key.copy_of(alloc)?;
        let n = self.slot_count as usize;
        let place = place_of(time, n);
        reach(&mut self.made, alloc, place, n)?;
        let slot = &mut self.made[place];
        slot.held.make_room()?;
        Ok(Entry { time, key })
    }

    /// Inserts `entry`. There must be room for its time, its slot must not hold a later time, and the window
    /// must hold fewer than `per_time` keys of its time. `prepare` makes the room, and the verdict `New` of
    /// `offer` ensures the other two conditions. Allocates no memory.
    pub fn insert_new(&mut self, entry: Entry<K>)
        requires room { 0 < room_for self.old entry.time }
        requires not_later { time_in self.old.slots entry.time ≤ entry.time }
        requires not_full { count_in self.old.slots entry.time < self.old.per_time }

        ensures slots { (entries : List (TimedEntry K))
            → self.old.slots ≡ slots_of (length self.old.slots) entries
            → self.new.slots ≡ slots_of (length self.old.slots) (entries ++ entry ∷ []) }
        ensures after { self.new.slots ≡ slots_after self.old.slots entry }
        ensures below { (clock : ℕ) → entry.time < clock → TimesBelow clock self.old.slots
            → TimesBelow clock self.new.slots }
        ensures size { length self.new.slots ≡ length self.old.slots }
        ensures others { (t : ℕ) → t % length self.old.slots ≢ entry.time % length self.old.slots
            → room_for self.new t ≡ room_for self.old t }
        ensures per_time { self.new.per_time ≡ self.old.per_time }
    {
        let Entry { time, key } = entry;
        let place = place_of(time, self.slot_count as usize);
        accept(&mut self.made[place], time, key);
    }

    /// Returns all slots, in order. A slot that was never used is empty. Allocates no memory.
    pub fn slots(&self) -> BorrowedSlots<'_, K>
        ensures slots { map slot_view (slots_borrowed result) ≡ self.now.slots }
        ensures bounds { IsWindow (length self.now.slots) self.now.per_time self.now.slots }
    {
        let unused = self.slot_count - self.made.len() as u64;
        BorrowedSlots::of(self.made.as_slice(), unused as u32)
    }

    /// Returns the number of keys that the window holds. It is never more than the number of slots times
    /// `per_time`. Allocates no memory.
    pub fn held(&self) -> u64
        ensures count { result ≡ held_count self.now.slots }
        ensures bound { result ≤ length self.now.slots * self.now.per_time }
    {
        count_held(self.made.as_slice())
    }
}
