//! Reads a snapshot's text in two ways: for its times, and for the events and queries that it keeps.

ghost use Rattle.std.specs.Prelude.{◌≡◌, ◌<◌, ◌++◌, max, IfOk, OnOk};
ghost use Rattle.serf_lamport.specs.Clock.{max_clock};
ghost use Rattle.serf_snapshot.specs.Clocks.{last_clock, line_value};
ghost use Rattle.serf_snapshot.specs.EventLines.{event_of_line, events_in, if_event_wanted, if_query_wanted, min_in, min_of_line, queries_in, query_of_line};
ghost use Rattle.serf_snapshot.specs.declared.kind.ClockKind.TheVariants.{Event, Member, Query};

use crate::clocks::Clocks;
use crate::kept::{EntryFilter, KeptEntries, MinTimes, TextTimes};
use crate::kept_lines::{min_after, take_event, take_query};
use crate::kind::ClockKind;
use crate::parts::first_line;
use std::alloc::{AllocError, Global};

impl TextTimes {
    /// Returns these times, updated by one more line of the text. The line may raise some of the times, but never
    /// lowers one.
    fn after_line(self, line: &[u8]) -> TextTimes
        ensures member { result.clocks.member_clock
            ≡ max self.clocks.member_clock (line_value Member line.now) }
        ensures event { result.clocks.event_clock
            ≡ max self.clocks.event_clock (line_value Event line.now) }
        ensures query { result.clocks.query_clock
            ≡ max self.clocks.query_clock (line_value Query line.now) }
        ensures events { result.lowest.events
            ≡ max self.lowest.events (min_of_line Event line.now) }
        ensures queries { result.lowest.queries
            ≡ max self.lowest.queries (min_of_line Query line.now) }
    {
        let events = min_after(ClockKind::Event, line);
        let queries = min_after(ClockKind::Query, line);
        TextTimes {
            clocks: self.clocks.after_line(line),
            lowest: MinTimes {
                events: self.lowest.events.max(events),
                queries: self.lowest.queries.max(queries),
            },
        }
    }
}

/// Returns the times that the lines of a text contain: its clocks, as [`read_clocks`] returns them, and the minimum
/// times for events and queries. Allocates no memory.
///
/// The minimum of a kind is the largest that any line sets, and at least 1. A line `#least event-clock: N` or
/// `#least query-clock: N` sets the minimum to N, or to 2^64 - 1 if N is larger. A clock line whose number has no
/// leading zero sets the minimum to one above this number, because the agent that wrote this line kept no events.
/// Every other line is skipped.
pub fn read_times(text: &[u8]) -> TextTimes
    ensures member { result.clocks.member_clock ≡ last_clock Member text.now }
    ensures event { result.clocks.event_clock ≡ last_clock Event text.now }
    ensures query { result.clocks.query_clock ≡ last_clock Query text.now }
    ensures times { (result.clocks.member_clock < max_clock)
        × (result.clocks.event_clock < max_clock)
        × (result.clocks.query_clock < max_clock) }
    ensures events { result.lowest.events ≡ min_in Event text.now }
    ensures queries { result.lowest.queries ≡ min_in Query text.now }
{
    let mut times = TextTimes {
        clocks: Clocks {
            member_clock: 0,
            event_clock: 0,
            query_clock: 0,
        },
        lowest: MinTimes {
            events: 1,
            queries: 1,
        },
    };
    let mut left = text;
    'lines: loop {
        let Some((line, rest)) = first_line(left) else {
            return times;
        };
        times = times.after_line(line);
        left = rest;
    }
}

/// Returns the largest value of the clock lines of each kind in a text. Allocates no memory.
///
/// A text may consist of any bytes. A line ends with a newline, so any bytes after the last newline aren't a line. A
/// clock line is `clock: N`, `event-clock: N` or `query-clock: N`, where N has one or more digits and is below
/// 2^64 - 1. Every other line is skipped.
pub fn read_clocks(text: &[u8]) -> Clocks
    ensures member { result.member_clock ≡ last_clock Member text.now }
    ensures event { result.event_clock ≡ last_clock Event text.now }
    ensures query { result.query_clock ≡ last_clock Query text.now }
    ensures times { (result.member_clock < max_clock) × (result.event_clock < max_clock)
        × (result.query_clock < max_clock) }
{
    read_times(text).clocks
}

impl KeptEntries {
    /// Appends the event in `line` if `events` selects it, or the query in `line` if `queries` selects it.
    fn take(
        &mut self,
        alloc: Global,
        line: &[u8],
        events: EntryFilter,
        queries: EntryFilter,
    ) -> Result<(), AllocError>
        ensures events { OnOk result (self.new.events.items ≡ self.old.events.items
            ++ if_event_wanted events (event_of_line line.now)) }
        ensures queries { OnOk result (self.new.queries.items ≡ self.old.queries.items
            ++ if_query_wanted queries (query_of_line line.now)) }
    {
        take_event(&mut self.events, alloc, line, events)?;
        take_query(&mut self.queries, line, queries)
    }
}

/// Returns the events of `text` that `events` selects and the queries that `queries` selects, both in the order of
/// their lines. Returns an `AllocError` if memory runs out.
///
/// A text may consist of any bytes. A line ends with a newline, so any bytes after the last newline aren't a line.
/// The line of an event is `#event TIME NAME PAYLOAD`. The time has one or more digits and a value from 1 to
/// 2^64 - 2. The name and the payload are in hex, with two digits for each byte, and may be empty. Exactly one space
/// precedes each of the three. The line of a query is `#query TIME ID`, with the same kind of time and an ID below
/// 2^32. Every other line is skipped.
pub fn read_kept(
    alloc: Global,
    text: &[u8],
    events: EntryFilter,
    queries: EntryFilter,
) -> Result<KeptEntries, AllocError>
    ensures events { IfOk result (λ kept. kept.events.items ≡ events_in events text.now) }
    ensures queries { IfOk result (λ kept. kept.queries.items ≡ queries_in queries text.now) }
{
    let mut kept = KeptEntries {
        events: Vec::new(alloc),
        queries: Vec::new(alloc),
    };
    let mut left = text;
    'lines: loop {
        let Some((line, rest)) = first_line(left) else {
            return Ok(kept);
        };
        kept.take(alloc, line, events, queries)?;
        left = rest;
    }
}
