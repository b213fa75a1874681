//! Reads a whole schedule, and writes the objects of its run, either after the whole run or line by line.

ghost use Rattle.std.specs.Prelude.{◌≡◌, ◌<◌, ◌≤◌, ◌+◌, List, ℕ, Err, length, true, false, IfOk, IfErr, IfSome, IsErrOf};
ghost use Rattle.std.specs.Io.KnownBytes.{Appends, Consumes, IsAtEnd};
ghost use Rattle.serf_text.specs.Io.{AppendsFront};
ghost use Rattle.serf_schedule.specs.Output.{output_of};
ghost use Rattle.serf_explain.specs.Range.{all_actions};
ghost use Rattle.serf_run_json.specs.Objects.{ReportsObjects};
ghost use Rattle.serf_run_json.specs.Streamed.{IsObjectsHalted};

use crate::streaming::{PlainObjects, ReasonedObjects};
use crate::teller::RunObjects;
use serf_explain::Range;
use serf_schedule::{ReplayError, Run, Watch, report_input};
use serf_text::{Cause, MAX_SCHEDULE_BYTES, StreamError, report_lines};
use std::alloc::Global;
use std::io::{Read, Write};

/// Reads a schedule to its end, and writes the objects of its run. The objects begin with the agents' settings, which
/// are followed by the results of each action in `range`. If `explains` is true, the results of each action are
/// followed by the action's reasons, and then by the state of the agent that acted. Returns the number of actions in
/// the schedule.
///
/// If `explains` is false, the clauses define exactly the bytes that are written. If `explains` is true, the clauses
/// allow objects of the kinds `reason` and `state` after the results of each action in the range. The contents of these
/// two kinds of objects are checked by tests, but no clause covers them.
///
/// The function writes nothing before the whole schedule has been read, parsed and run. The function returns the same
/// errors as `serf_replay::replay`, under the same conditions. The function calls `watch` after each action of the run.
pub fn run_objects<R: Read, W: Write, T: Watch>(
    alloc: Global,
    reader: &mut R,
    writer: &mut W,
    range: &Range,
    explains: bool,
    watch: &mut T,
) -> Result<u64, ReplayError>
    ensures done { IfOk result (λ count. IfSome (R.remaining reader.old) (λ input. (text : List ℕ)
        × ReportsObjects range.now explains input text count
        × (length input ≤ MAX_SCHEDULE_BYTES)
        × Appends (W.contents writer.old) (W.contents writer.new) text)) }
    ensures too_long { IsErrOf result ReplayError.ReadTooLong
        → IfSome (R.remaining reader.old) (λ input. MAX_SCHEDULE_BYTES < length input) }
    ensures bad_line { (line : ℕ) (cause : Cause) → IsErrOf result (ReplayError.BadLine line cause)
        → IfSome (R.remaining reader.old) (λ input. (length input ≤ MAX_SCHEDULE_BYTES)
        × (output_of input ≡ Err (record { line = line; cause = cause }))) }
    // If the write failed, only a prefix of the text of the objects was written. After any other error, nothing was
    // written.
    ensures front { IsErrOf result ReplayError.WriteError
        → IfSome (R.remaining reader.old) (λ input. (text : List ℕ) × (count : ℕ)
        × ReportsObjects range.now explains input text count
        × (length input ≤ MAX_SCHEDULE_BYTES)
        × AppendsFront (W.contents writer.old) (W.contents writer.new) text) }
    ensures nothing { IfErr result (λ error. (error ≡ ReplayError.WriteError → ⊥)
        → writer.new ≡ writer.old) }
    // The function reads at most one byte more than the maximum length of a schedule.
    ensures bounded { (bytes : List ℕ)
        × Consumes (R.remaining reader.old) (R.remaining reader.new) bytes
        × (length bytes ≤ MAX_SCHEDULE_BYTES + 1) }
{
    report_input(
        alloc,
        reader,
        writer,
        RunObjects::new(alloc, *range, explains),
        watch,
    )
}

/// Writes the objects of a schedule line by line, without reasons.
fn stream_plain<R: Read, W: Write>(
    alloc: Global,
    reader: &mut R,
    writer: &mut W,
) -> Result<u64, StreamError<Cause>>
    ensures done { IfOk result (λ count. (bytes text : List ℕ)
        × Consumes (R.remaining reader.old) (R.remaining reader.new) bytes
        × IsAtEnd (R.remaining reader.new) × ReportsObjects all_actions false bytes text count
        × Appends (W.contents writer.old) (W.contents writer.new) text) }
    ensures stopped { IfErr result (λ error. (bytes : List ℕ)
        × Consumes (R.remaining reader.old) (R.remaining reader.new) bytes
        × IsObjectsHalted false error bytes (W.contents writer.old) (W.contents writer.new)) }
{
    let mut run = Run::new(alloc, PlainObjects::new(alloc));
    match report_lines(alloc, reader, writer, &mut run) {
        Ok(()) => Ok(run.turns()),
        Err(error) => Err(error),
    }
}

/// Writes the objects of a schedule line by line, with reasons and states.
fn stream_reasoned<R: Read, W: Write>(
    alloc: Global,
    reader: &mut R,
    writer: &mut W,
) -> Result<u64, StreamError<Cause>>
    ensures done { IfOk result (λ count. (bytes text : List ℕ)
        × Consumes (R.remaining reader.old) (R.remaining reader.new) bytes
        × IsAtEnd (R.remaining reader.new) × ReportsObjects all_actions true bytes text count
        × Appends (W.contents writer.old) (W.contents writer.new) text) }
    ensures stopped { IfErr result (λ error. (bytes : List ℕ)
        × Consumes (R.remaining reader.old) (R.remaining reader.new) bytes
        × IsObjectsHalted true error bytes (W.contents writer.old) (W.contents writer.new)) }
{
    let mut run = Run::new(alloc, ReasonedObjects::new(alloc));
    match report_lines(alloc, reader, writer, &mut run) {
        Ok(()) => Ok(run.turns()),
        Err(error) => Err(error),
    }
}

/// Reads a schedule line by line, and writes the objects of each action before it reads the next line. The objects are
/// those that [`run_objects`] writes for the range of all actions. Returns the number of actions in the schedule.
///
/// If a line isn't valid, the function refuses it, but only after it has written the objects of all lines before it.
/// The schedule may have any length, but each of its lines may have at most 16,777,216 bytes.
pub fn stream_objects<R: Read, W: Write>(
    alloc: Global,
    reader: &mut R,
    writer: &mut W,
    explains: bool,
) -> Result<u64, StreamError<Cause>>
    // Exactly the objects of the whole schedule were written.
    ensures done { IfOk result (λ count. (bytes text : List ℕ)
        × Consumes (R.remaining reader.old) (R.remaining reader.new) bytes
        × IsAtEnd (R.remaining reader.new) × ReportsObjects all_actions explains bytes text count
        × Appends (W.contents writer.old) (W.contents writer.new) text) }
    // The function ran some of the lines that it had read, and wrote the objects of those lines. If the write failed,
    // only a prefix of the objects was written.
    ensures stopped { IfErr result (λ error. (bytes : List ℕ)
        × Consumes (R.remaining reader.old) (R.remaining reader.new) bytes
        × IsObjectsHalted explains error bytes (W.contents writer.old) (W.contents writer.new)) }
{
    if explains {
        stream_reasoned(alloc, reader, writer)
    } else {
        stream_plain(alloc, reader, writer)
    }
}
