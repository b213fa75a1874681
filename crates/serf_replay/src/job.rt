//! Replays a whole schedule: reads the schedule to the end, runs it, and then writes the trace of the cluster.

ghost use Rattle.std.specs.Prelude.{◌≡◌, ◌<◌, ◌≤◌, ◌+◌, List, ℕ, length, OnOk, IfOk, IfErr, IfSome, IsErrOf, Ok, Err};
ghost use Rattle.std.specs.Io.KnownBytes.{Appends, Consumes};
ghost use Rattle.serf_text.specs.Io.{AppendsFront};
ghost use Rattle.serf_schedule.specs.Output.{output_of};
ghost use Rattle.serf_replay.specs.Output.{GivesText, TracesRun, longest_schedule};

use crate::laws::traced_schedules;
use crate::progress::count_watched;
use serf_schedule::{ReplayError, Run, ScheduleError, TraceText, Watch, Watched};
use serf_text::{Cause, StreamLineError, read_input, report_text, write_output};
use std::alloc::Global;
use std::io::{Read, Write};

/// Returns the trace of the schedule `input` as a text. The function reads and runs the lines of the schedule one by
/// one, and calls `watch` after each action.
fn output_text<T: Watch>(
    alloc: Global,
    input: &[u8],
    watch: &mut T,
) -> Result<Vec<u8>, ScheduleError>
    ensures text { GivesText result (output_of input.now) }
    ensures run { IfOk result (λ text. TracesRun input.now text.items) }
{
    // The prover needs the law that the text written for a schedule is the trace of a run that keeps all promises.
    traced_schedules();
    let all = count_watched(input, watch);
    let reporter = TraceText;
    let mut run = Run::new(
        alloc,
        Watched {
            reporter,
            watch,
            all,
        },
    );
    match report_text(alloc, input, &mut run) {
        Ok(text) => Ok(text),
        Err((line, StreamLineError::Bad(cause))) => Err(ScheduleError::BadLine { line, cause }),
        Err((_, StreamLineError::OutOfMemory)) => Err(ScheduleError::OutOfMemory),
    }
}

/// Reads a schedule to the end, and writes the trace of the cluster.
///
/// The function reads at most 16,777,217 bytes, and writes nothing until the whole schedule has been read, parsed and
/// run. If the result is `Ok`, the function has written exactly the text of the trace, and the run that the trace shows
/// keeps all promises ([`serf_model::run_promises`]). The function calls `watch` after each action of the run
/// ([`crate::Unwatched`] is a watch that does nothing).
pub fn replay<R: Read, W: Write, T: Watch>(
    alloc: Global,
    reader: &mut R,
    writer: &mut W,
    watch: &mut T,
) -> Result<(), ReplayError>
    // On success, the function has written exactly the trace of the input, which is the trace of a run that keeps all
    // promises.
    ensures done { OnOk result (IfSome (R.remaining reader.old) (λ input. (text : List ℕ)
        × (output_of input ≡ Ok text) × (length input ≤ longest_schedule)
        × TracesRun input text × Appends (W.contents writer.old) (W.contents writer.new) text)) }
    ensures too_long { IsErrOf result ReplayError.ReadTooLong
        → IfSome (R.remaining reader.old) (λ input. longest_schedule < length input) }
    ensures bad_line { (line : ℕ) (cause : Cause) → IsErrOf result (ReplayError.BadLine line cause)
        → IfSome (R.remaining reader.old) (λ input. (length input ≤ longest_schedule)
        × (output_of input ≡ Err (record { line = line; cause = cause }))) }
    // If writing the trace failed, only a prefix of the trace was written. After any other error, nothing was written.
    ensures front { IsErrOf result ReplayError.WriteError
        → IfSome (R.remaining reader.old) (λ input. (text : List ℕ) × (output_of input ≡ Ok text)
        × (length input ≤ longest_schedule) × TracesRun input text
        × AppendsFront (W.contents writer.old) (W.contents writer.new) text) }
    ensures nothing { IfErr result (λ error. (error ≡ ReplayError.WriteError → ⊥)
        → writer.new ≡ writer.old) }
    // The function reads at most one byte more than the maximum length of a schedule.
    ensures bounded { (bytes : List ℕ)
        × Consumes (R.remaining reader.old) (R.remaining reader.new) bytes
        × (length bytes ≤ longest_schedule + 1) }
{
    let input = read_input(alloc, reader)?;
    let text = output_text(alloc, &input, watch)?;
    match write_output(writer, &text) {
        Ok(()) => Ok(()),
        Err(_) => Err(ReplayError::WriteError),
    }
}
