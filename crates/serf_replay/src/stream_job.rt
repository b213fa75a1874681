//! Replays a schedule line by line. The trace of a line is written before more of the schedule is read.

ghost use Rattle.std.specs.Prelude.{◌≡◌, Ok, List, ℕ, IfErr, OnOk};
ghost use Rattle.std.specs.Io.KnownBytes.{Appends, Consumes, IsAtEnd};
ghost use Rattle.serf_replay.specs.Output.{TracesRun};
ghost use Rattle.serf_schedule.specs.Output.{output_of};
ghost use Rattle.serf_replay.specs.Stopped.{IsHalted};

use crate::laws::traced_schedules;
use serf_schedule::{Run, TraceText};
use serf_text::{Cause, StreamError, report_lines};
use std::alloc::Global;
use std::io::{Read, Write};

/// Reads a schedule line by line, and writes the trace of the cluster. The function runs each line, writes the trace of
/// the line, and then drops the line.
///
/// The function writes exactly the text that [`crate::replay`] writes. `replay_lines` also refuses each line that
/// [`crate::replay`] refuses, but only after it has written the text of the earlier turns. A schedule may have any
/// length, and a line may have up to 16,777,216 bytes. Before the function reads more bytes, it writes the turns of all
/// complete lines that it has read so far. In memory, the function keeps only the current line and the cluster, with
/// all packets that were sent.
pub fn replay_lines<R: Read, W: Write>(
    alloc: Global,
    reader: &mut R,
    writer: &mut W,
) -> Result<(), StreamError<Cause>>
    // On success, the function has written exactly the text of the whole trace, which is the trace of a run that keeps
    // all promises.
    ensures done { OnOk result ((bytes text : List ℕ)
        × Consumes (R.remaining reader.old) (R.remaining reader.new) bytes
        × IsAtEnd (R.remaining reader.new) × (output_of bytes ≡ Ok text) × TracesRun bytes text
        × Appends (W.contents writer.old) (W.contents writer.new) text) }
    // After an error, the function has run some of the lines that it read, and has written the text of their trace.
    ensures stopped { IfErr result (λ error. (bytes : List ℕ)
        × Consumes (R.remaining reader.old) (R.remaining reader.new) bytes
        × IsHalted error bytes (W.contents writer.old) (W.contents writer.new)) }
{
    // The prover needs the law that the text written for a schedule is the trace of a run that keeps all promises.
    traced_schedules();
    report_lines(alloc, reader, writer, &mut Run::new(alloc, TraceText))
}
