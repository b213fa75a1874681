//! Checks whether each event was fired before it was handed out. In a single log, the event has to be fired on an
//! earlier line. If several logs were joined one after another, the event may also be fired on any line of another log,
//! because the lines of different logs have no common order. Logs are counted from 0.

ghost use Rattle.std.specs.Prelude.{◌≡◌, ◌++◌, ◌∷◌, ◌||◌, ℕ, [], IfOk, List, MatchOption, OnOk, nat_le, nat_lt, position};
ghost use Rattle.std.specs.HashMap.{get};
ghost use Rattle.serf_judge.specs.declared.entry.EventEntry.{EventEntry as Entry};
ghost use Rattle.serf_judge.specs.Fired.{AreAllFired, IsFirstUnfired, content_key_eq, content_of, key_content, log_at, was_fired};
ghost use Rattle.serf_judge.specs.Recorded.{AreRecorded, counts, says};

use crate::entry::EventEntry;
use std::alloc::{AllocError, Global};
use std::collections::HashMap;

/// The time, name and payload of an event, which together distinguish it from other events.
#[derive(Clone, Copy, PartialEq, Eq, Hash)]
pub(crate) struct ContentKey<'a> {
    pub(crate) time: u64,
    pub(crate) name: &'a [u8],
    pub(crate) payload: &'a [u8],
}

/// Returns the time, the name and the payload of the event in `entry`.
pub(crate) fn content_key(entry: &EventEntry) -> ContentKey<'_>
    ensures { key_content result ≡ content_of entry.now }
{
    ContentKey {
        time: entry.time,
        name: entry.name.as_slice(),
        payload: entry.payload.as_slice(),
    }
}

/// Two numbers about an event's firings, which decide whether the event was fired before it was handed out.
#[derive(Clone, Copy)]
pub(crate) struct Firings {
    /// The number of the first line on which the event was fired, counted from 1.
    first_line: u64,
    /// The number of the last log in which the event was fired, counted from 0.
    last_log: usize,
}

/// Returns the index of the first number in `starts` that is at least `line`, or `None` if all numbers are smaller. For
/// each log except the first, `starts` contains the number of lines before that log. So the index is the number of the
/// log that contains the line, and `None` means that the last log contains the line.
fn next_start(starts: &[u64], line: u64) -> Option<usize>
    ensures { result ≡ position (λ s. nat_le line s) starts.now }
{
    starts.iter().position(|start| line <= *start)
}

/// Returns the number, counted from 0, of the log that contains line `line`. For each log except the first, `starts`
/// contains the number of lines before that log.
fn log_of(starts: &[u64], line: u64) -> usize
    ensures { result ≡ log_at starts.now line }
{
    match next_start(starts, line) {
        Some(log) => log,
        None => starts.len(),
    }
}

/// Returns the firings of the event `key` that are recorded in `table`, and adds one more firing, on line `line` of log
/// number `log`.
fn firings_with(
    table: &HashMap<ContentKey, Firings>,
    key: &ContentKey,
    line: u64,
    log: usize,
) -> Firings
    ensures { (at : ℕ × ℕ) → counts result at
        ≡ (says counts (get content_key_eq table.now key.now) at
        || (nat_lt line at.0 || nat_lt at.1 log)) }
{
    match table.get(key) {
        Some(recorded) => Firings {
            first_line: recorded.first_line.min(line),
            last_log: recorded.last_log.max(log),
        },
        None => Firings {
            first_line: line,
            last_log: log,
        },
    }
}

/// Records in `table` that the event in `entry` was fired. For each log except the first, `starts` contains the number
/// of lines before that log.
fn record_entry<'a>(
    table: &mut HashMap<ContentKey<'a>, Firings>,
    starts: &[u64],
    entry: &'a EventEntry,
) -> Result<(), AllocError>
    ensures { (fired : List Entry) → AreRecorded starts.now fired table.old
        → OnOk result (AreRecorded starts.now (fired ++ entry.entry.now ∷ []) table.new) }
{
    let key = content_key(entry);
    let firings = firings_with(table, &key, entry.line, log_of(starts, entry.line));
    let _ = table.insert(key, firings)?;
    Ok(())
}

/// Returns whether one of the firings in `recorded` is on a line before line number `line`, or in a log after log
/// number `log`, which contains that line.
fn is_before(recorded: Firings, line: u64, log: usize) -> bool
    ensures { result ≡ counts recorded (line, log) }
{
    recorded.first_line < line || log < recorded.last_log
}

/// Returns whether `event` was fired on a line before the line on which it was handed out, or in a later log. `table`
/// contains the firings.
fn is_fired(table: &HashMap<ContentKey, Firings>, starts: &[u64], event: &EventEntry) -> bool
    ensures { (fired : List Entry) → AreRecorded starts.now fired table.now
        → result ≡ was_fired starts.now fired event.now }
{
    let key = content_key(event);
    match table.get(&key) {
        Some(recorded) => is_before(*recorded, event.line, log_of(starts, event.line)),
        None => false,
    }
}

/// Returns the index of the first event in `events` that wasn't fired before according to `table`. Returns `None` if
/// each event was fired before.
fn unfired_by(
    table: &HashMap<ContentKey, Firings>,
    starts: &[u64],
    events: &[EventEntry],
) -> Option<usize>
    ensures { (fired : List Entry) → AreRecorded starts.now fired table.now
        → MatchOption result (AreAllFired starts.now fired events.now)
        (IsFirstUnfired starts.now fired events.now) }
{
    for (place, event) in events.iter().enumerate() {
        if !is_fired(table, starts, event) {
            return Some(place);
        }
    }
    None
}

/// Returns the index, counted from 0, of the first event in `events` for which `fired` contains no firing on an earlier
/// line. Returns `None` if each event was fired before. If several logs were joined, a firing on any line of another
/// log is also accepted. In this case, `starts` contains the number of lines before each log except the first. For a
/// single log, `starts` is empty.
///
/// The function looks up each entry once, by its hash, and goes through `starts` to find the entry's log. Returns an
/// `AllocError` only if memory runs out.
pub fn first_unfired(
    alloc: Global,
    starts: &[u64],
    fired: &[EventEntry],
    events: &[EventEntry],
) -> Result<Option<usize>, AllocError>
    ensures { IfOk result (λ place. MatchOption place
        (AreAllFired starts.now fired.now events.now)
        (IsFirstUnfired starts.now fired.now events.now)) }
{
    let mut table = HashMap::new(alloc);
    for entry in fired {
        record_entry(&mut table, starts, entry)?;
    }
    Ok(unfired_by(&table, starts, events))
}
