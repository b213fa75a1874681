//! Reads lines from a reader, and writes the answers to a writer. Each line is answered when its newline is read. The
//! answers are kept until everything that was read is answered, or until there are many of them. In clauses, `before`
//! are the bytes that were read earlier, `lines` are the lines that were processed, and `first` is the text that the
//! writer contained at first.

ghost use Rattle.std.specs.Prelude.{◌≡◌, ◌++◌, ◌∷◌, [], List, ℕ, Option, Ok, IfErr, OnErr, OnOk};
ghost use Rattle.std.specs.Io.KnownBytes.{Appends, Consumes, IsAtEnd};
ghost use Rattle.serf_text.specs.Io.{AppendsFront};
ghost use Rattle.serf_text.specs.Lines.{lines_of, text_after};
ghost use Rattle.serf_text.specs.Streams.{HasRead, IsDone, IsLeft, IsStopped, Reached, StopsAt, TellsAll};

use crate::kept::{Kept, end_line, hold};
use crate::line_job::{LineJob, LineReporter};
use crate::put::write_output;
use crate::stream_error::StreamError;
use crate::words::split_once;
use std::alloc::Global;
use std::io::{Read, Write};

/// How many bytes are requested from the reader at once.
const READ_BYTES: usize = 8192;

/// When the kept answers have this many bytes, they are written before any further line is answered.
const MANY_WAITING_BYTES: usize = 65536;

/// Writes the answers in `waiting` to `writer`. Afterwards `waiting` is empty, even after an error.
fn write_waiting<W: Write, F>(writer: &mut W, waiting: &mut Vec<u8>) -> Result<(), StreamError<F>>
    ensures done { OnOk result
        (Appends (W.contents writer.old) (W.contents writer.new) waiting.old.items) }
    ensures empty { waiting.new.items ≡ [] }
    ensures front { OnErr result
        (AppendsFront (W.contents writer.old) (W.contents writer.new) waiting.old.items) }
    ensures error { IfErr result (λ error. error ≡ StreamError.WriteError) }
{
    let written = write_output(writer, waiting);
    waiting.clear();
    match written {
        Ok(()) => Ok(()),
        Err(_) => Err(StreamError::WriteError),
    }
}

/// Answers the line that begins in `kept` and ends with `line`. Writes the kept answers if there are many.
fn answer_line_and_write<W: Write, J: LineReporter>(
    alloc: Global,
    job: &mut J,
    kept: &mut Kept,
    line: &[u8],
    writer: &mut W,
) -> Result<(), StreamError<J::OwnError>>
    ensures done { (lines : List (List ℕ)) (first : Option (List ℕ)) → Reached J.told
        job.old kept.old.number kept.old.waiting.items lines first (W.contents writer.old)
        → OnOk result (Reached J.told job.new kept.new.number kept.new.waiting.items
        (lines ++ (kept.old.held.items ++ line.now) ∷ []) first (W.contents writer.new)) }
    ensures empty { OnOk result (kept.new.held.items ≡ []) }
    ensures stopped { (all lines more : List (List ℕ)) (first : Option (List ℕ))
        → all ≡ lines ++ (kept.old.held.items ++ line.now) ∷ more → Reached J.told
        job.old kept.old.number kept.old.waiting.items lines first (W.contents writer.old)
        → IfErr result (λ error. IsLeft J.told J.refuses error all kept.new.waiting.items first
        (W.contents writer.new)) }
{
    match end_line(alloc, job, kept, line) {
        Ok(()) => {}
        Err(error) => return Err(error),
    }
    if kept.waiting.len() < MANY_WAITING_BYTES {
        return Ok(());
    }
    write_waiting(writer, &mut kept.waiting)
}

/// Answers the lines that end within `bytes`, which were read. The bytes after the last newline are kept in `kept`.
fn answer_lines_in<W: Write, J: LineReporter>(
    alloc: Global,
    job: &mut J,
    kept: &mut Kept,
    bytes: &[u8],
    writer: &mut W,
) -> Result<(), StreamError<J::OwnError>>
    ensures done { (before : List ℕ) (first : Option (List ℕ)) → HasRead J.told job.old
        kept.old.held.items kept.old.number kept.old.waiting.items before first
        (W.contents writer.old)
        → OnOk result (HasRead J.told job.new kept.new.held.items kept.new.number
        kept.new.waiting.items (before ++ bytes.now) first (W.contents writer.new)) }
    ensures stopped { (before : List ℕ) (first : Option (List ℕ)) → HasRead J.told job.old
        kept.old.held.items kept.old.number kept.old.waiting.items before first
        (W.contents writer.old)
        → IfErr result (λ error. IsLeft J.told J.refuses error (lines_of (before ++ bytes.now))
        kept.new.waiting.items first (W.contents writer.new)) }
{
    let mut rest = bytes;
    'lines: loop {
        let (line, more) = split_once(rest, b'\n');
        match more {
            Some(next) => match answer_line_and_write(alloc, job, kept, line, writer) {
                Ok(()) => rest = next,
                Err(error) => return Err(error),
            },
            None => return hold(kept.number, &mut kept.held, line),
        }
    }
}

/// Answers the lines that end within `bytes`, which were read, and writes all kept answers. They are written even
/// after an error.
fn step<W: Write, J: LineReporter>(
    alloc: Global,
    job: &mut J,
    kept: &mut Kept,
    bytes: &[u8],
    writer: &mut W,
) -> Result<(), StreamError<J::OwnError>>
    ensures done { (before : List ℕ) (first : Option (List ℕ))
        → HasRead J.told job.old kept.old.held.items kept.old.number
        kept.old.waiting.items before first (W.contents writer.old)
        → OnOk result (HasRead J.told job.new kept.new.held.items kept.new.number
        kept.new.waiting.items (before ++ bytes.now) first (W.contents writer.new)) }
    ensures empty { kept.new.waiting.items ≡ [] }
    ensures stopped { (before : List ℕ) (first : Option (List ℕ))
        → HasRead J.told job.old kept.old.held.items kept.old.number
        kept.old.waiting.items before first (W.contents writer.old)
        → IfErr result (λ error.
        StopsAt J.told J.refuses error (lines_of (before ++ bytes.now)) first
        (W.contents writer.new)) }
{
    let taken = answer_lines_in(alloc, job, kept, bytes, writer); // an error is returned after the answers are written
    match write_waiting(writer, &mut kept.waiting) {
        Ok(()) => taken,
        Err(error) => Err(error),
    }
}

/// Answers the last line of the stream, which has no newline, and writes all kept answers. They are written even
/// after an error.
fn finish<W: Write, J: LineReporter>(
    alloc: Global,
    job: &mut J,
    kept: &mut Kept,
    writer: &mut W,
) -> Result<(), StreamError<J::OwnError>>
    ensures done { (before : List ℕ) (first : Option (List ℕ))
        → HasRead J.told job.old kept.old.held.items kept.old.number
        kept.old.waiting.items before first (W.contents writer.old)
        → OnOk result (TellsAll J.told job.new (lines_of before) first
        (W.contents writer.new)) }
    ensures stopped { (before : List ℕ) (first : Option (List ℕ))
        → HasRead J.told job.old kept.old.held.items kept.old.number
        kept.old.waiting.items before first (W.contents writer.old)
        → IfErr result (λ error.
        StopsAt J.told J.refuses error (lines_of before) first (W.contents writer.new)) }
{
    let ended = end_line(alloc, job, kept, &[]); // an error is returned after the answers are written
    match write_waiting(writer, &mut kept.waiting) {
        Ok(()) => ended,
        Err(error) => Err(error),
    }
}

/// Lets `job` process the lines of `reader`, one after another, until the input ends. The texts that the job reports
/// for these lines are written to `writer`.
///
/// Each line ends with a newline, except for the last line, which has none and may be empty. A line is dropped as
/// soon as it is processed. The texts for the complete lines are written before more is read. So if a read fails, the
/// output shows everything that was done until then. The memory in use is limited by the longest line, by the text
/// for one line plus 65,536 bytes, and by the memory of the job itself. A line may have at most 16,777,216 bytes.
pub fn report_lines<R: Read, W: Write, J: LineReporter>(
    alloc: Global,
    reader: &mut R,
    writer: &mut W,
    job: &mut J,
) -> Result<(), StreamError<J::OwnError>>
    // Exactly the text for all lines was written.
    ensures done { J.told job.old [] []
        → OnOk result ((bytes : List ℕ)
        × Consumes (R.remaining reader.old) (R.remaining reader.new) bytes
        × IsAtEnd (R.remaining reader.new)
        × TellsAll J.told job.new (lines_of bytes) (W.contents writer.old)
        (W.contents writer.new)) }
    // Some of the lines that were read were processed. The error determines what else is known about these lines.
    ensures stopped { J.told job.old [] []
        → IfErr result (λ error. (bytes : List ℕ)
        × Consumes (R.remaining reader.old) (R.remaining reader.new) bytes
        × StopsAt J.told J.refuses error (lines_of bytes) (W.contents writer.old)
        (W.contents writer.new)) }
{
    let mut kept = Kept::new(alloc);
    let mut chunk = [0u8; READ_BYTES];
    for _turn in 0..u64::MAX {
        match reader.read(&mut chunk) {
            Err(_) => return Err(StreamError::ReadError),
            Ok(0) => return finish(alloc, job, &mut kept, writer),
            Ok(n) => match step(alloc, job, &mut kept, &chunk[..n], writer) {
                Ok(()) => {}
                Err(error) => return Err(error),
            },
        }
    }
    // (the loop ends only after 2^64 - 1 reads)
    Err(StreamError::ReadError)
}

/// Lets `job` answer the lines of `reader`, one after another, until the input ends, as [`report_lines`] does.
pub fn answer_lines<R: Read, W: Write, J: LineJob>(
    alloc: Global,
    reader: &mut R,
    writer: &mut W,
    job: &mut J,
) -> Result<(), StreamError<J::OwnError>>
    // Exactly the answers to all lines were written.
    ensures done { J.follows job.old []
        → OnOk result ((bytes : List ℕ)
        × Consumes (R.remaining reader.old) (R.remaining reader.new) bytes
        × IsAtEnd (R.remaining reader.new)
        × IsDone J.follows J.answer job.new (lines_of bytes) (W.contents writer.old)
        (W.contents writer.new)) }
    // Some of the lines that were read were answered. The error determines what else is known about these lines.
    ensures stopped { J.follows job.old []
        → IfErr result (λ error. (bytes : List ℕ)
        × Consumes (R.remaining reader.old) (R.remaining reader.new) bytes
        × IsStopped J.answer error (lines_of bytes) (W.contents writer.old)
        (W.contents writer.new)) }
{
    report_lines(alloc, reader, writer, job)
}
