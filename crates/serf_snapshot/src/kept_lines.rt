//! Reads single lines of an agent that keeps its events: the line of an event, of a query, or of a minimum time.

ghost use Rattle.std.specs.Prelude.{false, ◌≡◌, ◌<◌, ◌++◌, ◌==◌, IfOk, MatchOption, OnOk, Some, None, max};
ghost use Rattle.std.specs.List.{slice_split};
ghost use Rattle.serf_snapshot.specs.Clocks.{following, time_text_value};
ghost use Rattle.serf_snapshot.specs.EventLines.{above_unkept, begins_with_zero, bytes_of_hex, event_from, event_from_parts, event_of_line, id_of, if_event_wanted, if_query_wanted, min_of_line, min_text_value, query_from, query_from_parts, query_of_line};

use crate::clocks::{is_all_digits, number_of, time_of};
use crate::event_lines::min_prefix_of;
use crate::kept::{EntryFilter, KeptEvent, KeptQuery};
use crate::kind::ClockKind;
use crate::parts::split_once;
use hex::FromHexError;
use serf_lamport::Time;
use std::alloc::{AllocError, Global};

/// Returns the time that `digits` spell, or `None` if they spell 0 or don't spell a time.
fn time_above_zero(digits: &[u8]) -> Option<Time>
    ensures { MatchOption result (time_text_value (Some digits.now) ≡ 0)
        (λ t. (time_text_value (Some digits.now) ≡ t) × ((t == 0) ≡ false)) }
{
    let time = time_of(digits);
    if time == 0 { None } else { Time::new(time) }
}

/// Returns the rest of `line` after `prefix`, or `None` if `line` doesn't begin with `prefix`.
pub(crate) fn strip_line_prefix<'a>(prefix: &[u8], line: &'a [u8]) -> Option<&'a [u8]>
    ensures { MatchOption result (following prefix.now line.now ≡ None)
        (λ rest. following prefix.now line.now ≡ Some rest.now) }
{
    match line.strip_prefix(prefix) {
        Some(rest) => Some(rest),
        None => None,
    }
}

/// Returns the bytes that `digits` spell in hex, or `None` if `digits` don't consist of pairs of hex digits.
fn hex_bytes(alloc: Global, digits: &[u8]) -> Result<Option<Vec<u8>>, AllocError>
    ensures { IfOk result (λ found. MatchOption found (bytes_of_hex digits.now ≡ None)
        (λ bytes. bytes_of_hex digits.now ≡ Some bytes.items)) }
{
    match hex::decode(alloc, digits) {
        Ok(found) => Ok(Some(found)),
        Err(FromHexError::OutOfMemory) => Err(AllocError),
        Err(_) => Ok(None),
    }
}

/// Returns the event with these parts of its line, or `None` if `time` isn't a time above 0, or if `name` or
/// `payload` isn't in hex.
fn event_of(
    alloc: Global,
    time: &[u8],
    name: &[u8],
    payload: &[u8],
) -> Result<Option<KeptEvent>, AllocError>
    ensures { IfOk result (λ found. found ≡ event_from (time_text_value (Some time.now))
        (bytes_of_hex name.now) (bytes_of_hex payload.now)) }
{
    let Some(name) = hex_bytes(alloc, name)? else {
        return Ok(None);
    };
    let Some(payload) = hex_bytes(alloc, payload)? else {
        return Ok(None);
    };
    match time_above_zero(time) {
        Some(time) => Ok(Some(KeptEvent::new(time, name, payload))),
        None => Ok(None),
    }
}

/// Returns the event in `text`, or `None` if `text` isn't a time, a name and a payload, separated by single spaces.
pub(crate) fn event_of_text(alloc: Global, text: &[u8]) -> Result<Option<KeptEvent>, AllocError>
    ensures { IfOk result (λ found. found
        ≡ event_from_parts (slice_split (λ b. b == 32) text.now)) }
{
    let (time, more) = split_once(text, b' ');
    let Some(rest) = more else {
        return Ok(None);
    };
    let (name, more) = split_once(rest, b' ');
    let Some(rest) = more else {
        return Ok(None);
    };
    let (payload, more) = split_once(rest, b' ');
    match more {
        Some(_) => Ok(None),
        None => event_of(alloc, time, name, payload),
    }
}

/// Returns the event in `line`, or `None` if `line` isn't the line of an event.
pub(crate) fn event_in(alloc: Global, line: &[u8]) -> Result<Option<KeptEvent>, AllocError>
    ensures { IfOk result (λ found. found ≡ event_of_line line.now) }
{
    match strip_line_prefix(b"#event ", line) {
        Some(text) => event_of_text(alloc, text),
        None => Ok(None),
    }
}

/// Appends the event in `line` to `events`, if there is one and `wanted` selects it.
pub(crate) fn take_event(
    events: &mut Vec<KeptEvent>,
    alloc: Global,
    line: &[u8],
    wanted: EntryFilter,
) -> Result<(), AllocError>
    ensures { OnOk result (events.new.items ≡ events.old.items
        ++ if_event_wanted wanted (event_of_line line.now)) }
{
    match event_in(alloc, line)? {
        Some(event) => {
            if wanted.has_event(&event) {
                events.push(event)?;
            }
            Ok(())
        }
        None => Ok(()),
    }
}

/// Returns the ID that `digits` spell, or `None` if they don't spell a number below 2^32.
fn id_in(digits: &[u8]) -> Option<u32>
    ensures { result ≡ id_of digits.now }
{
    if digits.is_empty() || !is_all_digits(digits) {
        return None;
    }
    let id = number_of(digits);
    if id <= u32::MAX as u64 {
        Some(id as u32)
    } else {
        None
    }
}

/// Returns the query with these parts of its line, or `None` if `time` isn't a time above 0, or if `id` isn't an ID.
fn query_of(time: &[u8], id: &[u8]) -> Option<KeptQuery>
    ensures { result ≡ query_from (time_text_value (Some time.now)) (id_of id.now) }
{
    let Some(id) = id_in(id) else {
        return None;
    };
    match time_above_zero(time) {
        Some(time) => Some(KeptQuery { time, id }),
        None => None,
    }
}

/// Returns the query in `text`, or `None` if `text` isn't a time and an ID, separated by a single space.
fn query_of_text(text: &[u8]) -> Option<KeptQuery>
    ensures { result ≡ query_from_parts (slice_split (λ b. b == 32) text.now) }
{
    let (time, more) = split_once(text, b' ');
    let Some(rest) = more else {
        return None;
    };
    let (id, more) = split_once(rest, b' ');
    match more {
        Some(_) => None,
        None => query_of(time, id),
    }
}

/// Returns the query in `line`, or `None` if `line` isn't the line of a query.
fn query_in(line: &[u8]) -> Option<KeptQuery>
    ensures { result ≡ query_of_line line.now }
{
    match strip_line_prefix(b"#query ", line) {
        Some(text) => query_of_text(text),
        None => None,
    }
}

/// Appends the query in `line` to `queries`, if there is one and `wanted` selects it.
pub(crate) fn take_query(
    queries: &mut Vec<KeptQuery>,
    line: &[u8],
    wanted: EntryFilter,
) -> Result<(), AllocError>
    ensures { OnOk result (queries.new.items ≡ queries.old.items
        ++ if_query_wanted wanted (query_of_line line.now)) }
{
    match query_in(line) {
        Some(query) => {
            if wanted.has_time(query.time) {
                queries.push(query)?;
            }
            Ok(())
        }
        None => Ok(()),
    }
}

/// Returns whether the first of the `digits` is 0.
fn has_zero_in_front(digits: &[u8]) -> bool
    ensures { result ≡ begins_with_zero digits.now }
{
    match digits.first() {
        Some(digit) => *digit == b'0',
        None => false,
    }
}

/// Returns one above the time that `digits` spell, if there is no leading zero. An agent that wrote no leading zero
/// kept no events. Returns 0 if there is a leading zero, or if the digits don't spell a time.
fn above_unkept(digits: &[u8]) -> u64
    ensures { result ≡ above_unkept (Some digits.now) }
{
    if has_zero_in_front(digits) || !is_all_digits(digits) {
        return 0;
    }
    let time = number_of(digits);
    if digits.is_empty() || time == u64::MAX {
        0
    } else {
        time + 1
    }
}

/// Returns the number of a `#least` line, which may be 2^64 - 1. Returns 0 if `digits` is empty or contains any other
/// character.
fn min_time_of(digits: &[u8]) -> u64
    ensures { result ≡ min_text_value (Some digits.now) }
{
    if digits.is_empty() || !is_all_digits(digits) {
        return 0;
    }
    number_of(digits)
}

/// Returns the minimum of `kind` that `line` sets, or 0 if it sets none.
pub(crate) fn min_after(kind: ClockKind, line: &[u8]) -> u64
    ensures { result ≡ min_of_line kind line.now }
{
    let lowest = match strip_line_prefix(min_prefix_of(kind), line) {
        Some(digits) => min_time_of(digits),
        None => 0,
    };
    let above = match strip_line_prefix(kind.prefix(), line) {
        Some(digits) => above_unkept(digits),
        None => 0,
    };
    lowest.max(above)
}
