//! Appends JSON objects about the handlers of events: the lines on which they began and ended, and the handlers that
//! never ended.

ghost use Rattle.std.specs.Prelude.{◌≡◌, ◌++◌, OnOk, map};
ghost use Rattle.std.specs.List.{flat_map};
ghost use Rattle.std.specs.Option.{option_map};
ghost use Rattle.serf_json.specs.Object.{member_text};
ghost use Rattle.serf_judge.specs.Runs.{run_seen};
ghost use Rattle.serf_judge_json.specs.Runs.{cut_off_text, run_text, run_word, runs_text, status_member};

use crate::entries::{write_about, write_entry};
use crate::kind::Kind;
use crate::places::LineFinder;
use serf_json::Member::{self, Absent, Bytes, Number, Text};
use serf_judge::{Delivered, RunEntry, cut_off};
use std::alloc::{AllocError, Global};

/// Returns the kind of the object about a line: `ended` if a handler ended with the status `status`, and `begun` if a
/// handler began.
fn word_for(status: &Option<Vec<u8>>) -> &'static [u8]
    ensures { result.now ≡ run_word (option_map (λ word. word.items) status.now) }
{
    match status {
        Some(_) => b"ended",
        None => b"begun",
    }
}

/// Returns the member `status`, which contains the status of a handler that ended. If the handler began, the member is
/// absent.
fn status_in(status: &Option<Vec<u8>>) -> Member<'_>
    ensures { member_text result ≡ status_member (option_map (λ word. word.items) status.now) }
{
    match status {
        Some(word) => Bytes(b"status", word.as_slice()),
        None => Absent,
    }
}

/// Appends an object about a line that reports that a handler began or ended.
#[tactic(auto, unfolding(serf_json::specs::Object::members_text, crate::specs::Runs::run_text))]
fn write_run<'a>(
    alloc: Global,
    out: &mut Vec<u8>,
    finder: &LineFinder<'a>,
    run: &'a RunEntry,
) -> Result<(), AllocError>
    ensures { OnOk result (out.new.items ≡ out.old.items
        ++ run_text finder.now.places (run_seen run.entry.now)) }
{
    let found = run.event.handed();
    let place = finder.place(found.line);
    let front = [
        status_in(&run.status),
        Text(b"log", place.log),
        Number(b"line", place.line),
        place.date_member(b"date"),
    ];
    write_about(
        alloc,
        out,
        word_for(&run.status),
        &front,
        Kind::Event,
        &found.key,
    )
}

/// Appends an object for each line in `runs`.
fn write_run_lines<'a>(
    alloc: Global,
    out: &mut Vec<u8>,
    finder: &LineFinder<'a>,
    runs: &'a [RunEntry],
) -> Result<(), AllocError>
    ensures { OnOk result (out.new.items ≡ out.old.items
        ++ flat_map (λ run. run_text finder.now.places (run_seen run)) runs.entry.now) }
{
    for run in runs {
        write_run(alloc, out, finder, run)?;
    }
    Ok(())
}

/// Appends an object for each line on which a handler began that never ended.
fn write_cut_off(
    alloc: Global,
    out: &mut Vec<u8>,
    finder: &LineFinder,
    runs: &[RunEntry],
) -> Result<(), AllocError>
    ensures { OnOk result (out.new.items ≡ out.old.items
        ++ cut_off_text finder.now.places (map run_seen runs.now)) }
{
    let found = cut_off(alloc, runs)?;
    for line in found.as_slice() {
        write_entry(alloc, out, finder, b"cut-off", Kind::Event, line)?;
    }
    Ok(())
}

/// Appends an object for each line that reports that a handler began or ended. Then appends an object for each handler
/// that began and never ended.
pub(crate) fn write_runs<'a>(
    alloc: Global,
    out: &mut Vec<u8>,
    finder: &LineFinder<'a>,
    runs: &'a [RunEntry],
) -> Result<(), AllocError>
    ensures { OnOk result (out.new.items ≡ out.old.items
        ++ runs_text finder.now.places runs.entry.now) }
{
    write_run_lines(alloc, out, finder, runs)?;
    write_cut_off(alloc, out, finder, runs)
}
