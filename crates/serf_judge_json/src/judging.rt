//! Writes the results of judging a log: the contents of the log's lines, the verdict on each promise, the events that
//! were handed out again or missed, and the handlers that never ended.

ghost use Rattle.std.specs.Prelude.{◌≡◌, ◌++◌, ◌||◌, nat_lt, IfOk, OnOk, IfSome, ◌<◌, length, codes, map};
ghost use Rattle.std.specs.List.{flat_map};
ghost use Rattle.std.specs.Option.{is_some};
ghost use Rattle.serf_judge.specs.Identity.{event_seen, query_seen};
ghost use Rattle.serf_judge_json.specs.declared.findings.Findings.{Findings as Found};
ghost use Rattle.serf_judge_json.specs.declared.kind.Kind.TheVariants.{Event, Query};
ghost use Rattle.serf_judge_json.specs.Entries.{bad_text, entries_text};
ghost use Rattle.serf_judge_json.specs.Judgement.{AreFound, is_broken, judgement_text, lines_text, verdicts_text};
ghost use Rattle.serf_judge_json.specs.Members.{status_text};

use crate::entries::{write_bad, write_entries, write_read};
use crate::findings::{Findings, find_broken};
use crate::kind::Kind;
use crate::missing::write_missed;
use crate::places::{LineFinder, LogPlaces};
use crate::runs::write_runs;
use crate::verdicts::{write_firings, write_once};
use serf_json::Member::Number;
use serf_json::write_object;
use serf_judge::Log;
use std::alloc::{AllocError, Global};

/// Appends an object for each firing, event, query and bad line in the log.
fn write_lines(
    alloc: Global,
    out: &mut Vec<u8>,
    finder: &LineFinder,
    log: &Log,
) -> Result<(), AllocError>
    ensures { OnOk result (out.new.items ≡ out.old.items
        ++ lines_text finder.now.places log.now) }
{
    let (fired, events, queries) = (
        log.fired.as_slice(),
        log.events.as_slice(),
        log.queries.as_slice(),
    );
    write_entries(alloc, out, finder, b"fired", Kind::Event, fired)?;
    write_entries(alloc, out, finder, b"event", Kind::Event, events)?;
    write_entries(alloc, out, finder, b"query", Kind::Query, queries)?;
    write_bad(alloc, out, finder, log.bad.as_slice())
}

/// Appends the verdict on each promise. `found` contains the entries that break promises.
fn write_verdicts(
    alloc: Global,
    out: &mut Vec<u8>,
    finder: &LineFinder,
    log: &Log,
    found: &Findings,
) -> Result<(), AllocError>
    requires { AreFound finder.now.places log.now found.now }
    ensures { OnOk result (out.new.items ≡ out.old.items
        ++ verdicts_text finder.now.places log.now found.now) }
{
    let (events, queries) = (log.events.as_slice(), log.queries.as_slice());
    write_once(alloc, out, finder, Kind::Event, events, found.event_twice)?;
    write_once(alloc, out, finder, Kind::Query, queries, found.query_twice)?;
    write_firings(alloc, out, finder, log, found.unfired, found.not_later)
}

/// Returns whether a promise is broken or a line is bad.
fn is_broken(log: &Log, found: &Findings) -> bool
    ensures { result ≡ is_broken log.now found.now }
{
    found.event_twice.is_some()
        || found.query_twice.is_some()
        || found.unfired.is_some()
        || found.not_later.is_some()
        || !log.bad.as_slice().is_empty()
}

/// Appends the contents of a log, the verdict on each promise, the events and queries that were handed out again, the
/// events that some nodes missed, and the lines about handlers. Returns whether a promise is broken or a line is bad.
/// If memory runs out (`AllocError`), only a prefix of the text may have been appended to `out`.
///
/// The function judges the promises by [`serf_judge::first_event_twice`], [`serf_judge::first_query_twice`],
/// [`serf_judge::first_unfired`] and [`serf_judge::first_not_later`]. The function judges the promises about firings
/// only if the log contains both firings and events.
pub fn judgement_objects(
    alloc: Global,
    out: &mut Vec<u8>,
    places: &LogPlaces,
    log: &Log,
) -> Result<bool, AllocError>
    ensures { IfOk result (λ broken. (found : Found) × AreFound places.now log.now found
        × (broken ≡ is_broken log.now found)
        × (out.new.items ≡ out.old.items ++ judgement_text places.now log.now found)) }
{
    let found = find_broken(alloc, places, log)?;
    let finder = LineFinder::new(places);
    write_read(alloc, out, log)?;
    write_lines(alloc, out, &finder, log)?;
    write_verdicts(alloc, out, &finder, log, &found)?;
    write_missed(alloc, out, log.events.as_slice())?;
    write_runs(alloc, out, &finder, log.runs.as_slice())?;
    Ok(is_broken(log, &found))
}

/// Appends the last object about a log, which contains the exit status. If memory runs out (`AllocError`), only a
/// prefix of the object may have been appended to `out`.
#[tactic(auto, unfolding(serf_json::specs::Object::members_text))]
pub fn status_object(out: &mut Vec<u8>, status: u64) -> Result<(), AllocError>
    ensures { OnOk result (out.new.items ≡ out.old.items ++ status_text status) }
{
    write_object(out, b"status", &[Number(b"status", status)])
}
