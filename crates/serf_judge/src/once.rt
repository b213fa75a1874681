//! Checks whether an event or a query was handed to a node twice, that is, whether two keys are equal. Keys are looked
//! up by their hashes.

ghost use Rattle.std.specs.Prelude.{◌≡◌, ◌↔◌, IfOk, List, MatchOption, None, map};
ghost use Rattle.serf_model.specs.Promises.{Once, QueryHandedOnce};
ghost use Rattle.serf_model.specs.Trace.{Turn};
ghost use Rattle.serf_judge.specs.Identity.{event_identity, query_identity};
ghost use Rattle.serf_judge.specs.Pairs.{HasNoPair, IsFirstPair};
ghost use Rattle.serf_judge.specs.Stands.{AreEventsOf, AreQueriesOf};
ghost use Rattle.serf_judge.specs.Twice.{AreFirstTwo, HasNoTwo};

use crate::entry::{EventEntry, QueryEntry};
use crate::key::Delivered;
use std::alloc::{AllocError, Global};
use std::collections::HashMap;
use std::hash::Hash;

/// Returns the indexes of the first two equal keys, the smaller index first. Returns `None` if no two keys are equal.
/// If there are several pairs of equal keys, returns the pair with the smallest later index, and among the pairs with
/// that later index, the pair with the smallest earlier index. Indexes are counted from 0.
///
/// The function looks up each key once, by its hash. Returns an `AllocError` only if there isn't enough memory for the
/// keys.
pub fn first_pair<K: Eq + Hash + Copy>(
    alloc: Global,
    keys: &[K],
) -> Result<Option<(usize, usize)>, AllocError>
    ensures { IfOk result (λ pair. MatchOption pair (HasNoPair K.eq keys.now)
        (λ places. IsFirstPair K.eq keys.now places.0 places.1)) }
{
    let mut places = HashMap::new(alloc);
    for (place, key) in keys.iter().enumerate() {
        match places.insert(*key, place) {
            Ok(None) => {}
            Ok(Some(earlier)) => return Ok(Some((earlier, place))),
            Err(_) => return Err(AllocError),
        }
    }
    Ok(None)
}

/// Returns the indexes of the first two entries in `entries` that hand the same event or query to the same node. The
/// pair is chosen as in [`first_pair`].
fn first_twice<E: Delivered>(
    alloc: Global,
    entries: &[E],
) -> Result<Option<(usize, usize)>, AllocError>
    ensures { IfOk result (λ pair. MatchOption pair
        (HasNoTwo (map (λ e. (E.seen e).1) entries.now))
        (λ places. AreFirstTwo (map (λ e. (E.seen e).1) entries.now) places.0 places.1)) }
{
    let mut keys = Vec::new(alloc);
    for entry in entries {
        keys.push(entry.handed().key)?;
    }
    first_pair(alloc, keys.as_slice())
}

/// Returns the indexes, counted from 0, of the first two entries in `entries` that hand the same event to the same
/// node, the smaller index first. Returns `None` if there is no such pair. Two events are the same if their times,
/// names and payloads are equal. If there are several pairs, returns the pair with the smallest later index, and among
/// the pairs with that later index, the pair with the smallest earlier index.
///
/// If the log records exactly what the agents of a run were handed, the result is `None` if and only if the run keeps
/// the promise `Once`.
///
/// The function looks up each entry once, by its hash. Returns an `AllocError` only if memory runs out.
pub fn first_event_twice(
    alloc: Global,
    entries: &[EventEntry],
) -> Result<Option<(usize, usize)>, AllocError>
    ensures first { IfOk result (λ pair. MatchOption pair
        (HasNoTwo (map event_identity entries.now))
        (λ places. AreFirstTwo (map event_identity entries.now) places.0 places.1)) }
    ensures once { (turns : List Turn) → AreEventsOf turns entries.now
        → IfOk result (λ pair. (pair ≡ None) ↔ Once turns) }
{
    first_twice(alloc, entries)
}

/// Returns the indexes, counted from 0, of the first two entries in `entries` that hand the same query to the same
/// node. Returns `None` if there is no such pair. Two queries are the same if their times are equal, and their IDs are
/// equal or both missing. The pair is chosen as in [`first_event_twice`], and the errors are the same.
///
/// If the log records exactly what the agents of a run were handed, the result is `None` if and only if no agent was
/// handed a query twice.
pub fn first_query_twice(
    alloc: Global,
    entries: &[QueryEntry],
) -> Result<Option<(usize, usize)>, AllocError>
    ensures first { IfOk result (λ pair. MatchOption pair
        (HasNoTwo (map query_identity entries.now))
        (λ places. AreFirstTwo (map query_identity entries.now) places.0 places.1)) }
    ensures once { (turns : List Turn) → AreQueriesOf turns entries.now
        → IfOk result (λ pair. (pair ≡ None) ↔ QueryHandedOnce turns) }
{
    first_twice(alloc, entries)
}
