//! The lines about handlers record which events of a text are open, and for which of them the handler has begun.

ghost use Rattle.std.specs.Prelude.{◌≡◌, ◌++◌, [], false, true, IfOk, MatchOption, OnOk, not, nat_lt};
ghost use Rattle.serf_snapshot.specs.Clocks.{lines_of};
ghost use Rattle.serf_snapshot.specs.Handlers.{begun_line, begun_of_line, done_line, done_of_line, done_up_to_line, done_up_to_of_line, handed_of_line, handler_line, is_open, is_tracked, mark_begun, mark_done, mark_done_up_to, mark_handed, open_after, open_events, open_line, open_of_line, same_event, tracked_lines};

use crate::clocks::{is_all_digits, number_of};
use crate::event_lines::{write_hex_part, write_number};
use crate::kept::KeptEvent;
use crate::kept_lines::{event_in, event_of_text, strip_line_prefix};
use crate::parts::first_line;
use serf_lamport::Time;
use std::alloc::{AllocError, Global};

/// An event that was handed out and isn't done.
#[derive(Debug, Drop)]
pub struct OpenEvent {
    pub event: KeptEvent,
    /// Whether its handler has begun. If not, the event still waits for its handler.
    pub has_begun: bool,
}

/// What a line says about handlers.
#[derive(Debug, Drop)]
pub(crate) enum HandlerLine {
    /// The event was handed out, or is still open.
    Delivered(KeptEvent),
    /// The event's handler has begun.
    Begun(KeptEvent),
    /// The event is done.
    Done(KeptEvent),
    /// All events of earlier lines are done, up to this time.
    DoneUpTo(u64),
}

/// Appends the line that marks an event as open: `#open`, the event's time, and its name and its payload in hex, with
/// single spaces between them. A program that compacts a snapshot writes this line for each open event. If the
/// event's handler has begun, the program then also writes the line of [`write_begun_line`]. [`read_open_events`]
/// reads an `#open` line in the same way as the event's own line. But [`read_kept`](crate::read_kept) skips it, so an
/// agent doesn't retain an event because of its `#open` line. If memory runs out, the call returns an `AllocError`,
/// and `text` may then end in a part of the line.
pub fn write_open_line(
    text: &mut Vec<u8>,
    time: Time,
    name: &[u8],
    payload: &[u8],
) -> Result<(), AllocError>
    ensures { OnOk result (text.new.items ≡ text.old.items
        ++ open_line time name.now payload.now) }
{
    text.extend_from_slice(b"#open ")?;
    write_number(text, time.get())?;
    write_hex_part(text, name)?;
    write_hex_part(text, payload)?;
    text.extend_from_slice(b"\n")
}

/// Appends the line that records that an event's handler has begun: `#begun`, the event's time, and its name and its
/// payload in hex, with single spaces between them. Flush this line before the handler starts. If memory runs out,
/// the call returns an `AllocError`, and `text` may then end in a part of the line.
pub fn write_begun_line(
    text: &mut Vec<u8>,
    time: Time,
    name: &[u8],
    payload: &[u8],
) -> Result<(), AllocError>
    ensures { OnOk result (text.new.items ≡ text.old.items
        ++ begun_line time name.now payload.now) }
{
    text.extend_from_slice(b"#begun ")?;
    write_number(text, time.get())?;
    write_hex_part(text, name)?;
    write_hex_part(text, payload)?;
    text.extend_from_slice(b"\n")
}

/// Appends the line that records that an event is done: `#done`, the event's time, and its name and its payload in
/// hex, with single spaces between them. This line can be flushed together with the next one. If memory runs out, the
/// call returns an `AllocError`, and `text` may then end in a part of the line.
pub fn write_done_line(
    text: &mut Vec<u8>,
    time: Time,
    name: &[u8],
    payload: &[u8],
) -> Result<(), AllocError>
    ensures { OnOk result (text.new.items ≡ text.old.items
        ++ done_line time name.now payload.now) }
{
    text.extend_from_slice(b"#done ")?;
    write_number(text, time.get())?;
    write_hex_part(text, name)?;
    write_hex_part(text, payload)?;
    text.extend_from_slice(b"\n")
}

/// Appends the line that records that all events of earlier lines are done, up to `time`: `#done`, a space and the
/// time. Lines before the first line of this form say nothing about handlers. If memory runs out, the call returns an
/// `AllocError`, and `lines` may then end in a part of the line.
pub fn write_done_up_to_line(lines: &mut Vec<u8>, time: u64) -> Result<(), AllocError>
    ensures { OnOk result (lines.new.items ≡ lines.old.items ++ done_up_to_line time) }
{
    lines.extend_from_slice(b"#done ")?;
    write_number(lines, time)?;
    lines.extend_from_slice(b"\n")
}

/// Returns the event that `line` marks as open, or `None` if `line` isn't an `#open` line.
fn open_in(alloc: Global, line: &[u8]) -> Result<Option<KeptEvent>, AllocError>
    ensures { IfOk result (λ found. found ≡ open_of_line line.now) }
{
    match strip_line_prefix(b"#open ", line) {
        Some(text) => event_of_text(alloc, text),
        None => Ok(None),
    }
}

/// Returns the event that `line` hands out, either as the event's own line or as an `#open` line. Returns `None` for
/// any other line.
fn handed_in(alloc: Global, line: &[u8]) -> Result<Option<KeptEvent>, AllocError>
    ensures { IfOk result (λ found. found ≡ handed_of_line line.now) }
{
    match event_in(alloc, line)? {
        Some(event) => Ok(Some(event)),
        None => open_in(alloc, line),
    }
}

/// Returns the event whose handler has begun according to `line`, or `None` if `line` says no such thing.
fn begun_in(alloc: Global, line: &[u8]) -> Result<Option<KeptEvent>, AllocError>
    ensures { IfOk result (λ found. found ≡ begun_of_line line.now) }
{
    match strip_line_prefix(b"#begun ", line) {
        Some(text) => event_of_text(alloc, text),
        None => Ok(None),
    }
}

/// Returns the event that is done according to `line`, or `None` if `line` says no such thing.
fn done_in(alloc: Global, line: &[u8]) -> Result<Option<KeptEvent>, AllocError>
    ensures { IfOk result (λ found. found ≡ done_of_line line.now) }
{
    match strip_line_prefix(b"#done ", line) {
        Some(text) => event_of_text(alloc, text),
        None => Ok(None),
    }
}

/// Returns the time up to which all earlier events are done according to `line`, or `None` if `line` says no such
/// thing.
fn done_up_to_in(line: &[u8]) -> Option<u64>
    ensures { result ≡ done_up_to_of_line line.now }
{
    let Some(digits) = strip_line_prefix(b"#done ", line) else {
        return None;
    };
    if digits.is_empty() || !is_all_digits(digits) {
        return None;
    }
    let time = number_of(digits);
    if time == u64::MAX { None } else { Some(time) }
}

/// Returns what `line` says about handlers, or `None` if it says nothing about them.
fn handler_line(alloc: Global, line: &[u8]) -> Result<Option<HandlerLine>, AllocError>
    ensures { IfOk result (λ found. found ≡ handler_line line.now) }
{
    match handed_in(alloc, line)? {
        Some(event) => return Ok(Some(HandlerLine::Delivered(event))),
        None => {}
    }
    match begun_in(alloc, line)? {
        Some(event) => return Ok(Some(HandlerLine::Begun(event))),
        None => {}
    }
    match done_in(alloc, line)? {
        Some(event) => return Ok(Some(HandlerLine::Done(event))),
        None => {}
    }
    match done_up_to_in(line) {
        Some(time) => Ok(Some(HandlerLine::DoneUpTo(time))),
        None => Ok(None),
    }
}

/// Returns whether two events are the same: their times, names and payloads are equal.
fn is_same(a: &KeptEvent, b: &KeptEvent) -> bool
    ensures { result ≡ same_event a.now b.now }
{
    a.time() == b.time() && a.name() == b.name() && a.payload() == b.payload()
}

/// Returns whether `event` is among the open events.
fn is_open(event: &KeptEvent, events: &[OpenEvent]) -> bool
    ensures { result ≡ is_open event.now events.now }
{
    events.iter().any(|other| is_same(event, &other.event))
}

/// Appends an event that was handed out, unless it is already open.
fn mark_handed(events: &mut Vec<OpenEvent>, event: KeptEvent) -> Result<(), AllocError>
    ensures { OnOk result (events.new.items ≡ mark_handed event events.old.items) }
{
    if is_open(&event, events.as_slice()) {
        return Ok(());
    }
    events.push(OpenEvent {
        event,
        has_begun: false,
    })?;
    Ok(())
}

/// Marks `event` as begun, if it is open.
fn mark_begun(events: &mut [OpenEvent], event: &KeptEvent)
    ensures { events.new ≡ mark_begun event.now events.old }
{
    for other in events.iter_mut() {
        if is_same(event, &other.event) {
            other.has_begun = true;
        }
    }
}

/// Returns whether `other` is a different event from `event`.
fn is_other(event: &KeptEvent, other: &OpenEvent) -> bool
    ensures { result ≡ not (same_event event.now other.now.event) }
{
    !is_same(event, &other.event)
}

/// Removes `event`, which is done, from the open events.
fn mark_done(events: &mut Vec<OpenEvent>, event: &KeptEvent)
    ensures { events.new.items ≡ mark_done event.now events.old.items }
{
    events.retain(|other| is_other(event, other));
}

/// Returns whether the time of `other` is above `time`.
fn is_above(time: u64, other: &OpenEvent) -> bool
    ensures { result ≡ nat_lt time other.now.event.time }
{
    time < other.event.time().get()
}

/// Removes the events up to `time`, which are done, from the open events.
fn mark_done_up_to(events: &mut Vec<OpenEvent>, time: u64)
    ensures { events.new.items ≡ mark_done_up_to time events.old.items }
{
    events.retain(|other| is_above(time, other));
}

/// Updates the open events by one more line.
fn apply(events: &mut Vec<OpenEvent>, alloc: Global, line: &[u8]) -> Result<(), AllocError>
    ensures { OnOk result (events.new.items ≡ open_after events.old.items (handler_line line.now)) }
{
    match handler_line(alloc, line)? {
        Some(HandlerLine::Delivered(event)) => mark_handed(events, event)?,
        Some(HandlerLine::Begun(event)) => mark_begun(events.as_mut_slice(), &event),
        Some(HandlerLine::Done(event)) => mark_done(events, &event),
        Some(HandlerLine::DoneUpTo(time)) => mark_done_up_to(events, time),
        None => {}
    }
    Ok(())
}

/// Returns the rest of `text` after its first line `#done TIME`, or `None` if there is no such line.
fn tracked_part(text: &[u8]) -> Option<&[u8]>
    ensures { MatchOption result
        ((is_tracked text.now ≡ false) × (tracked_lines (lines_of text.now) ≡ []))
        (λ rest. (is_tracked text.now ≡ true)
        × (tracked_lines (lines_of text.now) ≡ lines_of rest.now)) }
{
    let mut left = text;
    'lines: loop {
        let Some((line, rest)) = first_line(left) else {
            return None;
        };
        if done_up_to_in(line).is_some() {
            return Some(rest);
        }
        left = rest;
    }
}

/// Returns whether `text` has a line `#done TIME`, so that its later lines record what happened to handlers.
/// Allocates no memory.
pub fn is_tracked(text: &[u8]) -> bool
    ensures { result ≡ is_tracked text.now }
{
    tracked_part(text).is_some()
}

/// Returns the open events of `text`, each of them once and in the order in which they were handed out, and for each
/// of them whether its handler has begun. Returns an `AllocError` if memory runs out.
///
/// A text may consist of any bytes. Before its first line `#done TIME`, a text says nothing about handlers, and no
/// event is open. The lines after it are read in order. `#event TIME NAME PAYLOAD` or `#open TIME NAME PAYLOAD` opens
/// an event, unless it is already open. `#begun TIME NAME PAYLOAD` means that the event's handler has begun.
/// `#done TIME NAME PAYLOAD` means that the event is done. `#done TIME` means that all events of earlier lines are
/// done, up to that time. A `#begun` or `#done` line has no effect on an event that isn't open. Every other line is
/// skipped.
pub fn read_open_events(alloc: Global, text: &[u8]) -> Result<Vec<OpenEvent>, AllocError>
    ensures { IfOk result (λ events. events.items ≡ open_events text.now) }
{
    let mut events = Vec::new(alloc);
    let Some(tracked) = tracked_part(text) else {
        return Ok(events);
    };
    let mut left = tracked;
    'lines: loop {
        let Some((line, rest)) = first_line(left) else {
            return Ok(events);
        };
        apply(&mut events, alloc, line)?;
        left = rest;
    }
}
