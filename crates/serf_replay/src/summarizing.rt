//! Summarizes the run of a schedule that either has already been parsed or is read line by line.

ghost use Rattle.std.specs.Prelude.{◌≡◌, IfErr, IfOk, List, length, map, ℕ};
ghost use Rattle.std.specs.Io.KnownBytes.{Consumes, IsAtEnd};
ghost use Rattle.serf_model.specs.Cluster.{run_of};
ghost use Rattle.serf_replay.specs.Stopped.{IsHaltedAt};
ghost use Rattle.serf_replay.specs.Summaries.{IsSummary};
ghost use Rattle.serf_replay.specs.Summarized.{IsSummaryOf};

use crate::summary::Summary;
use serf_schedule::{Run, Schedule, Watch, Watched, report_schedule};
use serf_text::{Cause, StreamError, report_lines};
use std::alloc::{AllocError, Global};
use std::io::{self, Read};
use std::mem;

/// Runs `schedule` and returns the summary of the run. The function runs the actions one after another, counts each
/// line of the trace, and then drops the line. The function calls `watch` after each action.
///
/// Returns `AllocError` only if there isn't enough memory for the cluster or the summary.
pub fn summarize<T: Watch>(
    alloc: Global,
    schedule: Schedule,
    watch: &mut T,
) -> Result<Summary, AllocError>
    // The summary contains exactly the counts of the lines in the schedule's trace.
    ensures run { IfOk result (λ summary. IsSummary summary
        (map (λ t. t.line) (run_of schedule.agents schedule.actions.items).turns)) }
    ensures size { IfOk result (λ summary. summary.size ≡ length schedule.agents) }
{
    let size = schedule.agents.as_slice().len() as u64;
    let all = schedule.actions.len() as u64;
    let reporter = Summary::new(alloc);
    let mut watched = Watched {
        reporter,
        watch,
        all,
    };
    report_schedule(alloc, schedule, &mut watched)?;
    let Watched { mut reporter, .. } = watched;
    reporter.size = size;
    Ok(reporter)
}

/// Runs a schedule that is read line by line, and returns the summary of the run. The function runs each line, counts
/// the trace of the line, and then drops the line.
///
/// A schedule may have any length, and a line may have up to 16,777,216 bytes. In memory, the function keeps only the
/// current line, the summary, and the cluster with all packets that were sent. If the function refuses a line, this
/// line is the first one that [`crate::replay`] refuses, and the cause is the same. If a line is refused, the function
/// returns no summary of the earlier lines.
pub fn summarize_lines<R: Read>(
    alloc: Global,
    reader: &mut R,
) -> Result<Summary, StreamError<Cause>>
    // On success, the whole input is a schedule, and the summary contains exactly the counts of the lines in the
    // schedule's trace.
    ensures done { IfOk result (λ summary. (bytes : List ℕ)
        × Consumes (R.remaining reader.old) (R.remaining reader.new) bytes
        × IsAtEnd (R.remaining reader.new) × IsSummaryOf bytes summary) }
    // After an error, the function has run some of the lines that it read.
    ensures stopped { IfErr result (λ error. (bytes : List ℕ)
        × Consumes (R.remaining reader.old) (R.remaining reader.new) bytes
        × IsHaltedAt error bytes) }
{
    let mut run = Run::new(alloc, Summary::new(alloc));
    match report_lines(alloc, reader, &mut io::sink(), &mut run) {
        Ok(()) => {
            let size = run.agents();
            let mut summary = mem::replace(&mut run.reporter, Summary::new(alloc));
            summary.size = size;
            Ok(summary)
        }
        Err(error) => Err(error),
    }
}
