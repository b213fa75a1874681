//! Finds the lines in a log that break promises.

ghost use Rattle.std.specs.Prelude.{◌≡◌, IfOk, map, drop};
ghost use Rattle.serf_judge_json.specs.Judgement.{AreFound, IsNotLater, IsUnfired, starts_of};

use crate::places::LogPlaces;
use crate::verdicts::has_both;
use serf_judge::{Log, first_event_twice, first_not_later, first_query_twice, first_unfired};
use std::alloc::{AllocError, Global};

/// The indexes, counted from 0, of the entries in a log that break promises. A field is `None` if its promise is kept.
#[derive(Clone, Copy)]
pub(crate) struct Findings {
    /// The first two entries that hand the same event to the same node, the earlier entry first.
    pub(crate) event_twice: Option<(usize, usize)>,
    /// The first two entries that hand the same query to the same node, the earlier entry first.
    pub(crate) query_twice: Option<(usize, usize)>,
    /// The first event that was handed out without an earlier firing. The field is also `None` if this promise isn't
    /// judged.
    pub(crate) unfired: Option<usize>,
    /// The first firing whose time isn't later than that of an event that the same node was handed before, and the
    /// index of that event. The field is also `None` if this promise isn't judged.
    pub(crate) not_later: Option<(usize, usize)>,
}

/// For each log except the first, returns the number of lines before that log.
fn starts(alloc: Global, places: &LogPlaces) -> Result<Vec<u64>, AllocError>
    ensures { IfOk result (λ starts. starts.items ≡ starts_of places.now) }
{
    places
        .logs
        .iter()
        .skip(1)
        .map(|log| log.before)
        .collect(alloc)
}

/// Returns the index of the first event that was handed out without an earlier firing.
fn find_unfired(alloc: Global, places: &LogPlaces, log: &Log) -> Result<Option<usize>, AllocError>
    ensures { IfOk result (IsUnfired places.now log.now) }
{
    if !has_both(log) {
        return Ok(None);
    }
    let starts = starts(alloc, places)?;
    first_unfired(alloc, &starts, log.fired.as_slice(), log.events.as_slice())
}

/// Returns the index of the first firing whose time isn't later than that of an event that the same node was handed
/// before, and the index of that event.
fn find_not_later(alloc: Global, log: &Log) -> Result<Option<(usize, usize)>, AllocError>
    ensures { IfOk result (IsNotLater log.now) }
{
    if !has_both(log) {
        return Ok(None);
    }
    // The entries in a log are in the order of their lines, so the only possible error is that memory runs out.
    match first_not_later(alloc, log.fired.as_slice(), log.events.as_slice()) {
        Ok(found) => Ok(found),
        Err(_) => Err(AllocError),
    }
}

/// Finds the entries in a log that break promises.
pub(crate) fn find_broken(
    alloc: Global,
    places: &LogPlaces,
    log: &Log,
) -> Result<Findings, AllocError>
    ensures { IfOk result (AreFound places.now log.now) }
{
    Ok(Findings {
        event_twice: first_event_twice(alloc, log.events.as_slice())?,
        query_twice: first_query_twice(alloc, log.queries.as_slice())?,
        unfired: find_unfired(alloc, places, log)?,
        not_later: find_not_later(alloc, log)?,
    })
}
