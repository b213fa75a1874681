//! Reads a schedule and writes its trace with the reasons, either after the whole schedule was read or line by line.

ghost use Rattle.std.specs.Prelude.{◌≡◌, ◌<◌, ◌≤◌, ◌+◌, List, ℕ, Err, length, IfOk, IfErr, IfSome, IsErrOf};
ghost use Rattle.std.specs.Io.KnownBytes.{Appends, Consumes, IsAtEnd};
ghost use Rattle.serf_text.specs.Io.{AppendsFront};
ghost use Rattle.serf_schedule.specs.Output.{output_of};
ghost use Rattle.serf_explain.specs.Explained.{Explains};
ghost use Rattle.serf_explain.specs.Range.{all_actions};
ghost use Rattle.serf_explain.specs.Streamed.{IsHalted};

use crate::range::Range;
use crate::reasoning::Reasoning;
use serf_schedule::{ReplayError, Run, Watch, report_input};
use serf_text::{Cause, MAX_SCHEDULE_BYTES, StreamError, report_lines};
use std::alloc::Global;
use std::io::{Read, Write};

/// Reads a schedule to the end, and writes the trace of the cluster with the reasons. For each action in the range, the
/// function writes the lines that [`serf_replay::replay`] writes, followed by one line `N because ..` for each reason,
/// and there is always at least one reason. Returns the number of actions in the schedule.
///
/// The function reads at most 16,777,217 bytes. The function writes nothing until it has read, parsed and run the whole
/// schedule.
///
/// If a merge raises the minimum for events, one of the reasons for the merge states the new minimum. Each of the other
/// reasons for a merge is about one event, and names the event's slot and the verdict on the event. If an agent has
/// already seen a delivered event, the reason names the agent, and an earlier action that handed the event to this
/// agent. If a merged or delivered event is ignored for any other cause, the reason shows the limit that applied:
/// either the agent's minimum and the action that set this minimum, or the agent's clock and buffer. Everything else
/// that a reason states is covered by tests, but not by a clause of this function. Reasons consist of printable ASCII
/// characters only.
///
/// The function returns the same errors as `replay`, under the same conditions. The function calls `watch` after each
/// action of the run.
pub fn explain<R: Read, W: Write, T: Watch>(
    alloc: Global,
    reader: &mut R,
    writer: &mut W,
    range: &Range,
    watch: &mut T,
) -> Result<u64, ReplayError>
    ensures done { IfOk result (λ count. IfSome (R.remaining reader.old) (λ input. (text : List ℕ)
        × Explains range.now input text count × (length input ≤ MAX_SCHEDULE_BYTES)
        × Appends (W.contents writer.old) (W.contents writer.new) text)) }
    ensures too_long { IsErrOf result ReplayError.ReadTooLong
        → IfSome (R.remaining reader.old) (λ input. MAX_SCHEDULE_BYTES < length input) }
    ensures bad_line { (line : ℕ) (cause : Cause) → IsErrOf result (ReplayError.BadLine line cause)
        → IfSome (R.remaining reader.old) (λ input. (length input ≤ MAX_SCHEDULE_BYTES)
        × (output_of input ≡ Err (record { line = line; cause = cause }))) }
    // If writing the text failed, only a prefix of this text was written. After any other error, nothing was written.
    ensures front { IsErrOf result ReplayError.WriteError
        → IfSome (R.remaining reader.old) (λ input. (text : List ℕ) × (count : ℕ)
        × Explains range.now input text count × (length input ≤ MAX_SCHEDULE_BYTES)
        × AppendsFront (W.contents writer.old) (W.contents writer.new) text) }
    ensures nothing { IfErr result (λ error. (error ≡ ReplayError.WriteError → ⊥)
        → writer.new ≡ writer.old) }
    // The function reads at most one byte more than the longest allowed schedule contains.
    ensures bounded { (bytes : List ℕ)
        × Consumes (R.remaining reader.old) (R.remaining reader.new) bytes
        × (length bytes ≤ MAX_SCHEDULE_BYTES + 1) }
{
    report_input(alloc, reader, writer, Reasoning::new(alloc, *range), watch)
}

/// The range that contains every action.
const ALL: Range = Range {
    agent: None,
    from: 1,
    to: u64::MAX,
};

/// Reads a schedule line by line, and writes the trace of the cluster with the reasons. The function reads each line,
/// executes it, writes the resulting text, and drops the line before it reads the next one. Returns the number of
/// actions in the schedule.
///
/// The function writes exactly the text that [`explain`] writes for the range of all actions. `explain_lines` also
/// refuses each line that `explain` refuses, but only after it has written the text for the earlier lines. There is no
/// limit on the length of the whole schedule, but a line may have at most 16,777,216 bytes. Before the function reads
/// more bytes, it writes the text for all complete lines that it has read so far.
///
/// The function keeps in memory the line that is being read, the cluster with all packets that were sent, and the facts
/// to which reasons refer. These facts are a few numbers for each agent, each event that was handed out, and each query
/// that an agent accepted or fired. The memory in use therefore grows with the packets and the facts, but not with the
/// number of actions.
pub fn explain_lines<R: Read, W: Write>(
    alloc: Global,
    reader: &mut R,
    writer: &mut W,
) -> Result<u64, StreamError<Cause>>
    // On success, the function has written exactly the text for the whole schedule.
    ensures done { IfOk result (λ count. (bytes text : List ℕ)
        × Consumes (R.remaining reader.old) (R.remaining reader.new) bytes
        × IsAtEnd (R.remaining reader.new) × Explains all_actions bytes text count
        × Appends (W.contents writer.old) (W.contents writer.new) text) }
    // After an error, the function has executed some of the lines that it read, and has written the text for these
    // lines. If writing the text for these lines failed, only a prefix of the text was written.
    ensures stopped { IfErr result (λ error. (bytes : List ℕ)
        × Consumes (R.remaining reader.old) (R.remaining reader.new) bytes
        × IsHalted error bytes (W.contents writer.old) (W.contents writer.new)) }
{
    let mut run = Run::new(alloc, Reasoning::new(alloc, ALL));
    match report_lines(alloc, reader, writer, &mut run) {
        Ok(()) => Ok(run.turns()),
        Err(error) => Err(error),
    }
}
