//! Checks whether each node fired events only at later times than those of all events that the node was handed on
//! earlier lines.

ghost use Rattle.std.specs.Prelude.{◌≡◌, ◌↔◌, ◌≤◌, ◌<◌, ◌++◌, ◌∷◌, ◌||◌, [], ℕ, Err, IfOk, IsTrue, List, MatchOption, OnOk, Some, length, nat_le, position, slice_get, take};
ghost use Rattle.std.specs.HashMap.{get};
ghost use Rattle.serf_judge.specs.declared.entry.EventEntry.{EventEntry as Entry};
ghost use Rattle.serf_judge.specs.Later.{AreAllLater, IsFirstNotLater, IsInOrder, IsLater, IsNotLater};
ghost use Rattle.serf_judge.specs.Nodes.{is_same_text};
ghost use Rattle.serf_judge.specs.Recorded.{AreLargest, IsCut, is_handed_at, says};

use crate::entry::EventEntry;
use std::alloc::{AllocError, Global};
use std::collections::HashMap;
use thiserror::Error;

/// The reason why the events could not be judged.
#[derive(Clone, Copy, Debug, PartialEq, Eq, Error)]
pub enum LaterError {
    /// An entry follows an entry that is on a later line. This error never occurs with the entries of a log that was
    /// read.
    #[error("the entries are not in the order of their lines")]
    OutOfOrder,
    #[error("out of memory")]
    OutOfMemory,
}

/// Returns the larger of `time` and the time of `node` in the table `largest`. Returns `time` if the table doesn't
/// contain the node.
fn largest_with(largest: &HashMap<&[u8], u64>, node: &&[u8], time: u64) -> u64
    ensures { (lowest : ℕ) → nat_le lowest result
        ≡ (says (λ recorded t. nat_le t recorded) (get is_same_text largest.now node.now) lowest
        || nat_le lowest time) }
{
    match largest.get(node) {
        Some(recorded) => time.max(*recorded),
        None => time,
    }
}

/// Makes sure that the time in `largest` for the node of `event` is at least the time of `event`.
fn record_entry<'a>(
    largest: &mut HashMap<&'a [u8], u64>,
    event: &'a EventEntry,
) -> Result<(), AllocError>
    ensures { (events : List Entry) → AreLargest events largest.old
        → OnOk result (AreLargest (events ++ event.entry.now ∷ []) largest.new) }
{
    let node = event.node.as_slice();
    let time = largest_with(largest, &node, event.time);
    let _ = largest.insert(node, time)?;
    Ok(())
}

/// Records in `largest` the times of the events that are on lines before `line`. The first `recorded` events in
/// `events` are already in the table. Returns the number of events that are in the table afterwards.
fn record_before<'a>(
    largest: &mut HashMap<&'a [u8], u64>,
    events: &'a [EventEntry],
    recorded: usize,
    line: u64,
) -> Result<usize, AllocError>
    ensures { recorded ≤ length events.entry.now
        → AreLargest (take recorded events.entry.now) largest.old
        → IsInOrder events.entry.now
        → ((i : ℕ) (e : Entry) → i < recorded → slice_get events.entry.now i ≡ Some e
        → e.line < line)
        → IfOk result (λ n. (n ≤ length events.entry.now)
        × AreLargest (take n events.entry.now) largest.new
        × IsCut events.entry.now n line) }
{
    let mut place = recorded;
    'events: while place < events.len() && events[place].line < line {
        record_entry(largest, &events[place])?;
        place += 1;
    }
    Ok(place)
}

/// Returns the index, counted from 0, of the first event in `events` that the node of `firing` was handed on an earlier
/// line and whose time is at least `time`. Returns `None` if there is no such event.
fn first_at_or_after(events: &[EventEntry], firing: &EventEntry, time: u64) -> Option<usize>
    ensures { result ≡ position (is_handed_at firing.now time) events.now }
{
    events.iter().position(|event| firing.node == event.node
        && event.line < firing.line
        && time <= event.time)
}

/// Returns the index, counted from 0, of an event that the node of `firing` was handed on an earlier line and whose
/// time is not below that of `firing`. Returns `None` if there is no such event. For each node, `largest` contains the
/// maximum time of the node's events on earlier lines.
fn event_not_before(
    largest: &HashMap<&[u8], u64>,
    events: &[EventEntry],
    firing: &EventEntry,
) -> Option<usize>
    ensures { (n : ℕ) → AreLargest (take n events.now) largest.now
        → IsCut events.now n firing.now.line
        → MatchOption result (IsLater events.now firing.now) (IsNotLater events.now firing.now) }
{
    match largest.get(&firing.node.as_slice()) {
        Some(recorded) => {
            let time = *recorded;
            if time < firing.time {
                return None;
            }
            first_at_or_after(events, firing, time)
        }
        None => None,
    }
}

/// Returns whether `entries` are in the order of their lines. Allocates no memory.
fn is_in_order(entries: &[EventEntry]) -> bool
    ensures { IsTrue result ↔ IsInOrder entries.now }
{
    entries.is_sorted_by(|one, next| one.line <= next.line)
}

/// Finds the first firing in `fired` whose node was handed, on an earlier line, an event with the same or a later time.
/// Returns the index of the firing in `fired` and the index of such an event in `events`, both counted from 0. Returns
/// `None` if each node fired only at later times than those of all events that the node was handed before.
///
/// The function looks up each entry once, by its hash. If the function finds a pair, it goes through `events` once
/// more. Both lists have to be in the order of their lines, as [`crate::read_log`] returns them. The error is
/// `OutOfOrder` if and only if one of the two lists is not in the order of its lines, and `OutOfMemory` if there isn't
/// enough memory for the table.
pub fn first_not_later(
    alloc: Global,
    fired: &[EventEntry],
    events: &[EventEntry],
) -> Result<Option<(usize, usize)>, LaterError>
    ensures verdict { IfOk result (λ found. MatchOption found (AreAllLater fired.now events.now)
        (λ places. IsFirstNotLater fired.now events.now places.0 places.1)) }
    ensures order { result ≡ Err LaterError.OutOfOrder → IsInOrder fired.now
        → IsInOrder events.now → ⊥ }
{
    if !is_in_order(fired) || !is_in_order(events) {
        return Err(LaterError::OutOfOrder);
    }
    let mut largest = HashMap::new(alloc);
    let mut recorded: usize = 0;
    for (place, firing) in fired.iter().enumerate() {
        recorded = match record_before(&mut largest, events, recorded, firing.line) {
            Ok(recorded) => recorded,
            Err(_) => return Err(LaterError::OutOfMemory),
        };
        if let Some(event) = event_not_before(&largest, events, firing) {
            return Ok(Some((place, event)));
        }
    }
    Ok(None)
}
