//! Reads a whole schedule, runs it, and then writes a reporter's text about the run.

ghost use Rattle.std.specs.Prelude.{◌≡◌, ◌<◌, ◌≤◌, ◌+◌, [], List, ℕ, Err, length, IfOk, IfErr, IfSome, IsErrOf};
ghost use Rattle.std.specs.Io.KnownBytes.{Appends, Consumes};
ghost use Rattle.serf_agent.specs.declared.config.Config.{Config};
ghost use Rattle.serf_text.specs.Io.{AppendsFront};
ghost use Rattle.serf_schedule.specs.Output.{output_of};
ghost use Rattle.serf_schedule.specs.ReportedInput.{ReportsInput};

use crate::parse::{ReplayError, ScheduleError, parse_schedule};
use crate::run::{Watch, Watched, report_schedule};
use serf_text::{Cause, MAX_SCHEDULE_BYTES, read_input, write_output};
use serf_world::Turns;
use std::alloc::Global;
use std::io::{Read, Write};

/// Runs the schedule in `input`. Returns the text of `reporter` about the run, and the number of the schedule's
/// actions.
fn run_text<T: Turns + Drop, V: Watch>(
    alloc: Global,
    input: Vec<u8>,
    reporter: T,
    watch: &mut V,
) -> Result<(Vec<u8>, u64), ScheduleError>
    ensures text { (options : T.Options)
        → ((configs : List Config) → T.told options reporter configs [] [])
        → IfOk result (λ made. ReportsInput (T.told options) input.items made.0.items made.1) }
    ensures bad_line { (line : ℕ) (cause : Cause)
        → IsErrOf result (ScheduleError.BadLine line cause)
        → output_of input.items ≡ Err (record { line = line; cause = cause }) }
{
    let schedule = parse_schedule(alloc, &input)?;
    drop(input);
    let all = schedule.actions.len() as u64;
    match report_schedule(
        alloc,
        schedule,
        &mut Watched {
            reporter,
            watch,
            all,
        },
    ) {
        Ok(text) => Ok((text, all)),
        Err(_) => Err(ScheduleError::OutOfMemory),
    }
}

/// Reads a schedule to its end, runs it, and writes the text of `reporter` about the run. Returns the number of actions
/// in the schedule. `watch` is called after each action of the run.
///
/// The function reads at most 16,777,217 bytes. It writes nothing before it has read, parsed and run the whole
/// schedule.
///
/// The result is `ReadTooLong` only if there are more than 16,777,216 bytes. It is `BadLine` only if a line isn't
/// valid, and it names the first of these lines. After `WriteError`, a prefix of the text was written. After any other
/// error, nothing was written.
pub fn report_input<R: Read, W: Write, T: Turns + Drop, V: Watch>(
    alloc: Global,
    reader: &mut R,
    writer: &mut W,
    reporter: T,
    watch: &mut V,
) -> Result<u64, ReplayError>
    // After a success, exactly the text about the run of the input's schedule was written.
    ensures done { (options : T.Options)
        → ((configs : List Config) → T.told options reporter configs [] [])
        → IfOk result (λ count. IfSome (R.remaining reader.old) (λ input. (text : List ℕ)
        × ReportsInput (T.told options) input text count × (length input ≤ MAX_SCHEDULE_BYTES)
        × Appends (W.contents writer.old) (W.contents writer.new) text)) }
    ensures too_long { IsErrOf result ReplayError.ReadTooLong
        → IfSome (R.remaining reader.old) (λ input. MAX_SCHEDULE_BYTES < length input) }
    ensures bad_line { (line : ℕ) (cause : Cause) → IsErrOf result (ReplayError.BadLine line cause)
        → IfSome (R.remaining reader.old) (λ input. (length input ≤ MAX_SCHEDULE_BYTES)
        × (output_of input ≡ Err (record { line = line; cause = cause }))) }
    // If the write failed, a prefix of this text was written. After any other error, nothing was written.
    ensures front { (options : T.Options)
        → ((configs : List Config) → T.told options reporter configs [] [])
        → IsErrOf result ReplayError.WriteError → IfSome (R.remaining reader.old) (λ input.
        (text : List ℕ) × (count : ℕ) × ReportsInput (T.told options) input text count
        × (length input ≤ MAX_SCHEDULE_BYTES)
        × AppendsFront (W.contents writer.old) (W.contents writer.new) text) }
    ensures nothing { IfErr result (λ error. (error ≡ ReplayError.WriteError → ⊥)
        → writer.new ≡ writer.old) }
    // The function reads at most one byte more than the longest allowed schedule has.
    ensures bounded { (bytes : List ℕ)
        × Consumes (R.remaining reader.old) (R.remaining reader.new) bytes
        × (length bytes ≤ MAX_SCHEDULE_BYTES + 1) }
{
    let input = read_input(alloc, reader)?;
    let (text, count) = run_text(alloc, input, reporter, watch)?;
    match write_output(writer, &text) {
        Ok(()) => Ok(count),
        Err(_) => Err(ReplayError::WriteError),
    }
}
