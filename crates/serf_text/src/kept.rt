//! Keeps the state of a stream between two reads, and answers a line when its newline has been read. In clauses,
//! `lines` are the lines that were processed, `first` is the text that the writer contained at first, and `now` is
//! the text that it contains now.

ghost use Rattle.std.specs.Prelude.{◌≡◌, ◌++◌, ◌∷◌, ◌≤◌, [], List, ℕ, Option, Result, Ok, length, IfErr, OnErr, OnOk};
ghost use Rattle.serf_text.specs.Lines.{number_after};
ghost use Rattle.serf_text.specs.Streams.{IsHoldError, IsLineError, IsRefused, Reached};

use crate::line_job::LineReporter;
use crate::stream_error::{StreamError, StreamLineError};
use std::alloc::Global;

/// The maximum length of a line, in bytes.
pub const MAX_LINE_BYTES: usize = 16_777_216;

/// The state of a stream that is kept between two reads.
#[derive(Drop)]
pub(crate) struct Kept {
    /// The bytes of the current line that were read so far. The newline of this line hasn't been read yet.
    pub(crate) held: Vec<u8>,
    /// The number of the line in `held`, counted from 1. It stays at 2^64 - 1 once it has reached it.
    pub(crate) number: u64,
    /// The answers to earlier lines that haven't been written yet.
    pub(crate) waiting: Vec<u8>,
    /// A buffer for the answer to one line. It is reused for each line.
    pub(crate) text: Vec<u8>,
}

/// Lets `job` answer `line`, and appends the answer to `waiting`. `text` is a buffer for the answer. After an error,
/// `waiting` is unchanged.
fn read_one<J: LineReporter>(
    alloc: Global,
    job: &mut J,
    line: &[u8],
    text: &mut Vec<u8>,
    waiting: &mut Vec<u8>,
) -> Result<(), StreamLineError<J::OwnError>>
    ensures done { (lines : List (List ℕ)) (before : List ℕ) → J.told job.old lines before
        → OnOk result ((told : List ℕ) × (waiting.new.items ≡ waiting.old.items ++ told)
        × J.told job.new (lines ++ line.now ∷ []) (before ++ told)) }
    ensures refused { (lines : List (List ℕ)) (before : List ℕ) → J.told job.old lines before
        → IfErr result (IsRefused J.refuses lines line.now) }
    ensures same { OnErr result (waiting.new.items ≡ waiting.old.items) }
{
    text.clear();
    match job.report_line(alloc, line, text) {
        Ok(()) => match waiting.extend_from_slice(text) {
            Ok(()) => Ok(()),
            Err(_) => Err(StreamLineError::OutOfMemory),
        },
        Err(error) => Err(error),
    }
}

/// Lets `job` answer `line`, which is line number `number` of the stream. Appends the answer to `waiting`, and adds
/// one to `number`. `text` is a buffer for the answer. After an error, `waiting` is unchanged.
fn answer_line<J: LineReporter>(
    alloc: Global,
    job: &mut J,
    line: &[u8],
    number: &mut u64,
    text: &mut Vec<u8>,
    waiting: &mut Vec<u8>,
) -> Result<(), StreamError<J::OwnError>>
    ensures done { (lines : List (List ℕ)) (first now : Option (List ℕ))
        → Reached J.told job.old number.old waiting.old.items lines first now
        → OnOk result (Reached J.told job.new number.new waiting.new.items
        (lines ++ line.now ∷ []) first now) }
    ensures stopped { (lines : List (List ℕ)) (first now : Option (List ℕ))
        → Reached J.told job.old number.old waiting.old.items lines first now
        → IfErr result (λ error. IsLineError J.refuses error lines line.now) }
    ensures same { OnErr result (waiting.new.items ≡ waiting.old.items) }
{
    if line.len() > MAX_LINE_BYTES {
        return Err(StreamError::LineTooLong { line: *number });
    }
    match read_one(alloc, job, line, text, waiting) {
        Ok(()) => {
            *number = number.saturating_add(1);
            Ok(())
        }
        Err(StreamLineError::Bad(error)) => Err(StreamError::BadLine {
            line: *number,
            error,
        }),
        Err(StreamLineError::OutOfMemory) => Err(StreamError::OutOfMemory),
    }
}

/// Appends `piece` to `held`, which is the beginning of line number `number`. Returns `LineTooLong` if this makes the
/// line too long.
pub(crate) fn hold<F>(number: u64, held: &mut Vec<u8>, piece: &[u8]) -> Result<(), StreamError<F>>
    ensures done { OnOk result (held.new.items ≡ held.old.items ++ piece.now) }
    ensures stopped { (lines : List (List ℕ))
        → number ≡ number_after lines
        → IfErr result (λ error. IsHoldError error lines (held.old.items ++ piece.now)) }
{
    if held.len() > MAX_LINE_BYTES || piece.len() > MAX_LINE_BYTES - held.len() {
        return Err(StreamError::LineTooLong { line: number });
    }
    match held.extend_from_slice(piece) {
        Ok(()) => Ok(()),
        Err(_) => Err(StreamError::OutOfMemory),
    }
}

impl Kept {
    /// Returns the state before anything is read, at the beginning of line 1. Allocates no memory.
    pub(crate) fn new(alloc: Global) -> Kept
        ensures held { result.held.items ≡ [] }
        ensures waiting { result.waiting.items ≡ [] }
        ensures number { result.number ≡ 1 }
    {
        Kept {
            held: Vec::new(alloc),
            number: 1,
            waiting: Vec::new(alloc),
            text: Vec::new(alloc),
        }
    }
}

/// Answers the line that begins in `kept` and ends with `piece`. The answer is kept until it is written.
pub(crate) fn end_line<J: LineReporter>(
    alloc: Global,
    job: &mut J,
    kept: &mut Kept,
    piece: &[u8],
) -> Result<(), StreamError<J::OwnError>>
    ensures done { (lines : List (List ℕ)) (first now : Option (List ℕ))
        → Reached J.told job.old kept.old.number kept.old.waiting.items lines first now
        → OnOk result (Reached J.told job.new kept.new.number kept.new.waiting.items
        (lines ++ (kept.old.held.items ++ piece.now) ∷ []) first now) }
    ensures empty { OnOk result (kept.new.held.items ≡ []) }
    ensures stopped { (lines : List (List ℕ)) (first now : Option (List ℕ))
        → Reached J.told job.old kept.old.number kept.old.waiting.items lines first now
        → IfErr result (λ error.
        IsLineError J.refuses error lines (kept.old.held.items ++ piece.now)) }
    ensures same { OnErr result (kept.new.waiting.items ≡ kept.old.waiting.items) }
{
    if kept.held.is_empty() {
        return answer_line(
            alloc,
            job,
            piece,
            &mut kept.number,
            &mut kept.text,
            &mut kept.waiting,
        );
    }
    match hold(kept.number, &mut kept.held, piece) {
        Ok(()) => {}
        Err(error) => return Err(error),
    }
    let answered = answer_line(
        alloc,
        job,
        kept.held.as_slice(),
        &mut kept.number,
        &mut kept.text,
        &mut kept.waiting,
    );
    kept.held.clear();
    answered
}
