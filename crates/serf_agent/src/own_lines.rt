//! Writes the snapshot lines of everything that an agent keeps over a restart.

ghost use Rattle.std.specs.Prelude.{◌≡◌, ◌≢◌, ℕ, ◌++◌, ◌<◌, List, None, IfOk, OnErr, OnOk};
ghost use Rattle.std.specs.List.{flat_map};
ghost use Rattle.serf_lamport.specs.Clock.{max_clock};
ghost use Rattle.serf_wire.specs.Buffers.{borrowed_slot, slots_to_come};
ghost use Rattle.serf_wire.specs.Message.{push_pull_said};
ghost use Rattle.serf_window.specs.Texts.{event_of};
ghost use Rattle.serf_snapshot.specs.Compaction.{counted};
ghost use Rattle.serf_snapshot.specs.EventLines.{query_line};
ghost use Rattle.serf_snapshot.specs.KeptAppends.{lines_given};
ghost use Rattle.serf_snapshot.specs.declared.kind.ClockKind.TheVariants as kinds;
ghost use Rattle.serf_agent.specs.Events.{written_event};
ghost use Rattle.serf_agent.specs.Inside.{concrete_of};
ghost use Rattle.serf_agent.specs.KeptLines.{kept_lines, min_written, lines_of_slot, stored_lines};
ghost use Rattle.serf_agent.specs.KeptTexts.{line_of_event};
ghost use Rattle.serf_agent.specs.Queries.{written_query};
ghost use Rattle.serf_agent.specs.States.{written_min_line, written_lines};

use crate::agent::Agent;
use crate::config::Config;
use crate::line_output::{ByteCount, LineOutput};
use crate::own_line::OwnLine;
use crate::track::Track;
use serf_lamport::Time;
use serf_snapshot::{ClockKind, Sink, write_event_line, write_min_line, write_query_line};
use serf_wire::{BorrowedSlot, BorrowedSlots, EventBody, PushPull, UserEvent};
use std::alloc::{AllocError, Global};

/// The event's own line, which is written in addition to its clock line, or no line if the settings don't keep events.
pub(crate) fn written_event(
    alloc: Global,
    config: &Config,
    event: &UserEvent,
) -> Result<OwnLine, AllocError>
    ensures { IfOk result (λ line. line
        ≡ written_event config.now event.now.time
        (event_of event.now.name.now event.now.payload.now)) }
{
    if !config.keep_events {
        return Ok(OwnLine::none(alloc));
    }
    let mut line = Vec::new(alloc);
    write_event_line(&mut line, event.time, event.name, event.payload)?;
    Ok(OwnLine::of(line))
}

/// The query's own line, which is written in addition to its clock line, or no line if the settings don't keep events.
pub(crate) fn written_query(
    alloc: Global,
    config: &Config,
    time: Time,
    id: u32,
) -> Result<OwnLine, AllocError>
    ensures { IfOk result (λ line. line ≡ written_query config.now time id) }
{
    if !config.keep_events {
        return Ok(OwnLine::none(alloc));
    }
    let mut line = Vec::new(alloc);
    write_query_line(&mut line, time, id)?;
    Ok(OwnLine::of(line))
}

/// The line of the minimum time of events that a join with `state` sets. There is no line unless the settings both
/// ignore old events and keep events. Memory is needed only if there is a line.
pub(crate) fn written_min_line(
    alloc: Global,
    config: &Config,
    state: &PushPull,
    is_join: bool,
) -> Result<OwnLine, AllocError>
    ensures line { IfOk result (λ line. line
        ≡ written_min_line config.now (push_pull_said state.now) is_join) }
    ensures needed { OnErr result (written_min_line config.now (push_pull_said state.now) is_join
        ≢ None) }
{
    if !(config.keep_events && is_join && config.ignore_old) {
        return Ok(OwnLine::none(alloc));
    }
    let mut line = Vec::new(alloc);
    write_min_line(&mut line, ClockKind::Event, state.event_clock)?;
    Ok(OwnLine::of(line))
}

/// The key of an entry that a snapshot keeps in a line: an event's name and payload, or a query's ID.
pub(crate) trait Written: Drop {
    ghost use Rattle.serf_snapshot.specs.declared.kind.ClockKind.{ClockKind};

    /// The kind of clock that draws the times of these entries.
    ghost KIND: { ClockKind };

    /// The line of the entry that has this key and this time.
    ghost line: { ℕ → Self → List ℕ };

    const KIND: ClockKind;

    /// Appends to `output` the line of the entry that has this key and the time `time`.
    fn write_line<O: LineOutput>(&self, output: &mut O, time: Time) -> Result<(), O::Error>
        ensures { (before : List ℕ) → O.has output.old before → OnOk result (O.has output.new
            (before ++ line time self.now)) };
}

impl Written for EventBody {
    ghost KIND = { kinds.Event };

    ghost line = { line_of_event };

    const KIND: ClockKind = ClockKind::Event;

    fn write_line<O: LineOutput>(&self, output: &mut O, time: Time) -> Result<(), O::Error> {
        output.append_event_line(time, self.name.as_slice(), self.payload.as_slice())
    }
}

impl Written for u32 {
    ghost KIND = { kinds.Query };

    ghost line = { query_line };

    const KIND: ClockKind = ClockKind::Query;

    fn write_line<O: LineOutput>(&self, output: &mut O, time: Time) -> Result<(), O::Error> {
        output.append_query_line(time, *self)
    }
}

/// Appends to `output` the lines of the entries `held`, all of which have the time `time`.
fn write_entries<K: Written, O: LineOutput>(
    output: &mut O,
    time: Time,
    held: &[K],
) -> Result<(), O::Error>
    ensures { (before : List ℕ) → O.has output.old before → OnOk result (O.has output.new
        (before ++ flat_map (K.line time) held.now)) }
{
    for key in held {
        key.write_line(output, time)?;
    }
    Ok(())
}

/// Appends to `output` the lines of the entries in `slot`, unless the slot's time is below `lowest`.
fn write_slot<K: Written, O: LineOutput>(
    output: &mut O,
    lowest: u64,
    slot: &BorrowedSlot<K>,
) -> Result<(), O::Error>
    ensures { (before : List ℕ) → O.has output.old before → OnOk result (O.has output.new
        (before ++ lines_of_slot K.line lowest (borrowed_slot slot.now))) }
{
    if slot.time.get() < lowest {
        return Ok(());
    }
    write_entries(output, slot.time, slot.held)
}

/// Appends to `output` the lines of the entries in `slots` whose time is `lowest` or later.
fn write_slots<K: Written, O: LineOutput>(
    output: &mut O,
    lowest: u64,
    slots: BorrowedSlots<K>,
) -> Result<(), O::Error>
    ensures { (before : List ℕ) → O.has output.old before → OnOk result (O.has output.new
        (before ++ flat_map (lines_of_slot K.line lowest) (slots_to_come slots.entry))) }
{
    for slot in slots {
        write_slot(output, lowest, &slot)?;
    }
    Ok(())
}

/// The minimum time that a compaction writes for a track whose buffer has `slot_count` slots and whose last clock line
/// has the time `last`.
fn min_written<K: Drop>(track: &Track<K>, slot_count: u64, last: u64) -> u64
    requires { last < max_clock }
    ensures { result ≡ min_written slot_count last track.now.minimum }
{
    track.minimum().max((last + 1).saturating_sub(slot_count))
}

/// Appends to `output` the lines that a compaction writes for `track`. The track's buffer has `slot_count` slots, and
/// its last clock line has the time `last`.
fn write_stored<K: Written, O: LineOutput>(
    output: &mut O,
    slot_count: u64,
    last: u64,
    track: &Track<K>,
) -> Result<(), O::Error>
    requires { last < max_clock }
    ensures { (before : List ℕ) → O.has output.old before → OnOk result (O.has output.new
        (before ++ stored_lines K.KIND K.line slot_count last (concrete_of track.now))) }
{
    let lowest = min_written(track, slot_count, last);
    output.append_min_line(K::KIND, lowest)?;
    write_slots(output, lowest, track.slots())
}

impl<S: Sink> Agent<S> {
    /// Appends to `output` the lines that a compaction writes in addition to the last clock lines, if the settings keep
    /// events. For events and for queries, these are the line of the minimum time that is still accepted, and the lines
    /// of the entries in the buffer from that time on.
    fn write_kept_lines<O: LineOutput>(&self, output: &mut O) -> Result<(), O::Error>
        ensures { (before : List ℕ) → O.has output.old before → OnOk result (O.has output.new
            (before ++ kept_lines self.now.concrete)) }
    {
        let last = self.snapshot.clocks();
        write_stored(
            output,
            self.config.event_buffer,
            last.event_clock,
            &self.events,
        )?;
        write_stored(
            output,
            self.config.query_buffer,
            last.query_clock,
            &self.queries,
        )
    }

    /// The lines that a compaction writes in addition to the last clock lines. There are none if the settings don't
    /// keep events.
    pub(crate) fn written_lines(&self, alloc: Global) -> Result<Vec<u8>, AllocError>
        ensures { IfOk result (λ lines. lines_given lines.items ≡ written_lines self.now.concrete) }
    {
        let mut text = Vec::new(alloc);
        if !self.config.keep_events {
            return Ok(text);
        }
        self.write_kept_lines(&mut text)?;
        Ok(text)
    }

    /// The length in bytes of the lines that a compaction writes in addition to the last clock lines, if the settings
    /// keep events. A length above 2^64 - 1 is returned as 2^64 - 1. Allocates no memory.
    pub(crate) fn kept_length(&self) -> u64
        ensures { result ≡ counted (kept_lines self.now.concrete) }
    {
        let mut count = ByteCount::new();
        match self.write_kept_lines(&mut count) {
            Ok(()) => count.total(),
            Err(never) => match never {},
        }
    }
}
