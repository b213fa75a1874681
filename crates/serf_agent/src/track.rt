//! The part of an agent that remembers events, or queries.

ghost use Rattle.std.specs.Prelude.{◌≡◌, ℕ, ◌<◌, ◌≤◌, ◌-◌, ◌+◌, ◌*◌, true, All, List, [], ◌∷◌, ◌++◌, max, map, length, OnOk, IfOk, SomeIff};
ghost use Rattle.serf_lamport.specs.Clock.{observed, max_clock};
ghost use Rattle.serf_wire.specs.Buffers.{slots_borrowed};
ghost use Rattle.serf_window.specs.Recall.{entries_offered};
ghost use Rattle.serf_window.specs.Slots.{slot_view};
ghost use Rattle.serf_window.specs.Window.{TimedEntry, count_in, max_per_time, max_slot_count, held_count, room_for, slots_of, time_in};
ghost use Rattle.serf_agent.specs.Events.{drawn};
ghost use Rattle.serf_agent.specs.Ideal as ideal;
ghost use Rattle.serf_agent.specs.Inside.{concrete_of, first_track, new_track};
ghost use Rattle.serf_agent.specs.Tracks.{IsTrackSound, track_reason, view_of_track};

use crate::outcome::Reason;
use crate::reason::reason_of;
use serf_lamport::{Clock, Time};
use serf_window::{BorrowedKey, Entry, MAX_PER_TIME, MAX_SLOTS, Offer, Window};
use serf_wire::{BorrowedSlots, EventBody};
use std::alloc::{AllocError, Global};
use std::marker::Model;

/// A clock, the minimum time that is accepted, and the window of the latest entries.
#[derive(Drop)]
pub(crate) struct Track<K> {
    clock: Clock,
    minimum: u64,
    window: Window<K>,
}

impl<K> Model for Track<K> {
    ghost use Rattle.serf_agent.specs.Inside.{TrackState};

    ghost Value = { TrackState K };

    ghost use Rattle.serf_window.specs.Window.{TimesBelow};

    ghost view = { λ t. record { clock = t.clock; minimum = t.minimum; window = t.window } };

    ghost use Rattle.std.specs.Prelude.{◌<◌};

    ghost invariant = { λ t. (0 < t.window.per_time) × TimesBelow t.clock t.window.slots };
}

/// The events that an agent remembers.
pub(crate) type EventTrack = Track<EventBody>;

/// The queries that an agent remembers.
pub(crate) type QueryTrack = Track<u32>;

impl<K: Drop> Track<K> {
    /// Makes a track that holds nothing. Its clock draws the time 1 first. Allocates no memory.
    fn new(alloc: Global, slot_count: u64, per_time: u64) -> Track<K>
        requires some_slot { 0 < slot_count }
        requires max_slots { slot_count ≤ max_slot_count }
        requires some_of_time { 0 < per_time }
        requires max_of_time { per_time ≤ max_per_time }
        ensures clock { result.clock ≡ 1 }
        ensures minimum { result.minimum ≡ 1 }
        ensures slots { result.window.slots ≡ slots_of slot_count [] }
        ensures size { length result.window.slots ≡ slot_count }
        ensures per_time { result.window.per_time ≡ per_time }
    {
        let Ok(window) = Window::new(alloc, slot_count, per_time) else {
            // (both sizes are within the bounds of a window)
            unreachable!()
        };
        Track {
            clock: Clock::new(),
            minimum: 1,
            window,
        }
    }

    /// Makes a track that holds nothing, and that accepts only times later than `last`, a snapshot's last clock.
    /// Allocates no memory.
    pub(crate) fn after(alloc: Global, slot_count: u64, per_time: u64, last: u64) -> Track<K>
        requires some_slot { 0 < slot_count }
        requires max_slots { slot_count ≤ max_slot_count }
        requires some_of_time { 0 < per_time }
        requires max_of_time { per_time ≤ max_per_time }
        requires small { last < max_clock }
        ensures concrete { concrete_of result ≡ new_track slot_count last }
        ensures size { length result.window.slots ≡ slot_count }
        ensures per_time { result.window.per_time ≡ per_time }
    {
        let mut track = Track::new(alloc, slot_count, per_time);
        track.raise(last + 1, last + 1);
        track
    }

    /// Restores the track that a text keeps, if the text has the last clock `last` and the minimum time `lowest`. Its
    /// clock is above `last`, and at least `lowest`. It accepts no time that is too old for its buffer.
    pub(crate) fn recalled<L: BorrowedKey<K>>(
        alloc: Global,
        slot_count: u64,
        per_time: u64,
        last: u64,
        lowest: u64,
        offers: &[Offer<L>],
    ) -> Result<Track<K>, AllocError>
        requires some_slot { 0 < slot_count }
        requires max_slots { slot_count ≤ max_slot_count }
        requires some_of_time { 0 < per_time }
        requires max_of_time { per_time ≤ max_per_time }
        requires small { last < max_clock }
        requires times { All (λ offer. offer.time < last + 1) offers.now }
        ensures concrete { IfOk result (λ track. concrete_of track ≡ first_track true L.same
            slot_count per_time last lowest (entries_offered L.key offers.now)) }
        ensures size { IfOk result (λ track. length track.window.slots ≡ slot_count) }
        ensures per_time { IfOk result (λ track. track.window.per_time ≡ per_time) }
    {
        let mut track = Track::new(alloc, slot_count, per_time);
        let clock = (last + 1).max(lowest);
        track.clock.observe_before(clock);
        let minimum = track.window.recall(alloc, clock, lowest, offers)?;
        track.minimum = minimum.max(clock.saturating_sub(slot_count));
        Ok(track)
    }

    /// The number of entries in the window.
    pub(crate) fn held(&self) -> u64
        ensures count { result ≡ held_count self.now.window.slots }
        ensures bound { result ≤ length self.now.window.slots * self.now.window.per_time }
    {
        self.window.held()
    }

    /// The time that the clock draws next. If the clock is exhausted, this is 2^64 - 1, which isn't a valid time.
    pub(crate) fn time(&self) -> u64
        ensures { result ≡ self.now.clock }
    {
        self.clock.time()
    }

    /// The minimum time that is accepted.
    pub(crate) fn minimum(&self) -> u64
        ensures { result ≡ self.now.minimum }
    {
        self.minimum
    }

    /// The slots of the window, in order.
    pub(crate) fn slots(&self) -> BorrowedSlots<'_, K>
        ensures { map slot_view (slots_borrowed result) ≡ self.now.window.slots }
    {
        self.window.slots()
    }

    /// The time that is used to compute the size of a packet: the next time of the clock, or 2^64 - 2 if the clock is
    /// exhausted.
    pub(crate) fn measured(&self) -> Time
        ensures { result ≡ drawn self.now.clock }
    {
        match Time::new(self.clock.time().min(u64::MAX - 1)) {
            Some(time) => time,
            // (it is below 2^64 - 1, so it is a valid time)
            None => unreachable!(),
        }
    }

    /// The time that the clock draws next, or `None` if the clock is exhausted. No slot holds this time yet.
    pub(crate) fn next_time(&self) -> Option<Time>
        ensures some { SomeIff result (self.now.clock < max_clock) self.now.clock }
        ensures not_later { time_in self.now.window.slots self.now.clock ≤ self.now.clock }
        ensures not_full { count_in self.now.window.slots self.now.clock
            < self.now.window.per_time }
    {
        Time::new(self.clock.time())
    }

    /// The reason to ignore an entry with this time and key that arrives now, or `None` if the entry is new.
    pub(crate) fn reason<L: BorrowedKey<K>>(&self, time: Time, key: &L) -> Option<Reason>
        ensures reason { (track : ideal.Track K) (n life last : ℕ) → IsTrackSound track life last
            → concrete_of self.now ≡ view_of_track n life track → result
            ≡ track_reason L.same n self.now.window.per_time life track time (L.key key.now) }
        ensures not_later { result ≡ None → time_in self.now.window.slots time ≤ time }
        ensures not_full { result ≡ None
            → count_in self.now.window.slots time < self.now.window.per_time }
        ensures small { time < max_clock }
    {
        let clock_after = self.clock.time().max(time.get() + 1);
        let verdict = self.window.offer(clock_after, self.minimum, time, key);
        reason_of(verdict)
    }

    /// Makes the clock later than `time`. The window stays as it is.
    pub(crate) fn observe(&mut self, time: Time)
        ensures clock { self.new.clock ≡ observed self.old.clock time }
        ensures minimum { self.new.minimum ≡ self.old.minimum }
        ensures window { self.new.window ≡ self.old.window }
    {
        self.clock.observe(time);
    }

    /// Raises the clock to at least `clock`, and the minimum time to at least `minimum`.
    pub(crate) fn raise(&mut self, clock: u64, minimum: u64)
        ensures clock { self.new.clock ≡ max self.old.clock clock }
        ensures minimum { self.new.minimum ≡ max self.old.minimum minimum }
        ensures window { self.new.window ≡ self.old.window }
    {
        self.clock.observe_before(clock);
        self.minimum = self.minimum.max(minimum);
    }

    /// Prepares an entry with this time and key for [`Track::insert_new`], and allocates all memory that the insertion
    /// needs.
    pub(crate) fn prepare<L: BorrowedKey<K>>(
        &mut self,
        alloc: Global,
        time: Time,
        key: &L,
    ) -> Result<Entry<K>, AllocError>
        ensures entry { IfOk result (λ entry. entry ≡ record { time = time; key = L.key key.now }) }
        ensures room { OnOk result (0 < room_for self.new.window time) }
        ensures concrete { concrete_of self.new ≡ concrete_of self.old }
        ensures per_time { self.new.window.per_time ≡ self.old.window.per_time }
    {
        self.window.prepare(alloc, time, key)
    }

    /// Inserts a prepared entry, and observes its time. Allocates no memory.
    pub(crate) fn insert_new(&mut self, time: Time, entry: Entry<K>)
        requires entry { entry.time ≡ time }
        requires room { 0 < room_for self.old.window time }
        requires not_later { time_in self.old.window.slots time ≤ time }
        requires not_full { count_in self.old.window.slots time < self.old.window.per_time }
        ensures slots { (entries : List (TimedEntry K))
            → self.old.window.slots ≡ slots_of (length self.old.window.slots) entries
            → self.new.window.slots ≡ slots_of (length self.old.window.slots) (entries
            ++ entry ∷ []) }
        ensures clock { self.new.clock ≡ observed self.old.clock time }
        ensures minimum { self.new.minimum ≡ self.old.minimum }
        ensures size { length self.new.window.slots ≡ length self.old.window.slots }
        ensures per_time { self.new.window.per_time ≡ self.old.window.per_time }
    {
        self.window.insert_new(entry);
        self.clock.observe(time);
    }
}
