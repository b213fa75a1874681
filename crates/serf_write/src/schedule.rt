//! Converts a whole written schedule to the text of a schedule.

ghost use Rattle.std.specs.Prelude.{◌≡◌};
ghost use Rattle.serf_write.specs.declared.word_error.WordError.{WordError};
ghost use Rattle.serf_write.specs.Whole.{Reads, Writes};
ghost use Rattle.serf_write.specs.Written.{after_mark, written_of};

use crate::word_error::{LineError, WordError};
use crate::writing::Writing;
use serf_schedule::{Watch, write_schedule};
use serf_text::split_once;
use std::alloc::Global;
use thiserror::Error;

/// The reason why a text is not a valid written schedule.
#[derive(Clone, Copy, Debug, Drop, Error, PartialEq, Eq)]
pub enum WriteError {
    /// The number (counted from 1) of the first line that isn't valid, and the error in this line.
    #[error("line {line} is bad")]
    BadLine { line: u64, error: WordError },
    /// Memory ran out.
    #[error("out of memory")]
    OutOfMemory,
}

/// Converts `error`, an error in a line, to the error of the whole text. `line` is the number of the line, counted from
/// 1.
fn at_line(line: u64, error: LineError) -> WriteError
    ensures bad { (wrong : WordError) → error ≡ LineError.Bad wrong
        → result ≡ WriteError.BadLine line wrong }
    ensures memory { error ≡ LineError.OutOfMemory → result ≡ WriteError.OutOfMemory }
{
    match error {
        LineError::Bad(error) => WriteError::BadLine { line, error },
        LineError::OutOfMemory => WriteError::OutOfMemory,
    }
}

/// If `text` begins with the byte order mark of UTF-8, returns the text without this mark, and otherwise returns the
/// whole text.
fn without_mark(text: &[u8]) -> &[u8]
    ensures { result.now ≡ after_mark text.entry.now }
{
    text.strip_prefix(&[0xef, 0xbb, 0xbf]).unwrap_or(text)
}

/// Reads all lines of `text`, and reports to `watch` how many bytes have been read.
fn read_lines<T: Watch>(alloc: Global, text: &[u8], watch: &mut T) -> Result<Writing, WriteError>
    ensures { Reads result (written_of text.now) }
{
    let mut writing = Writing::new(alloc);
    let mut number: u64 = 1;
    let mut rest = without_mark(text);
    'lines: loop {
        let (line, more) = split_once(rest, b'\n');
        if let Err(error) = writing.add_line(alloc, line) {
            return Err(at_line(number, error));
        }
        match more {
            Some(next) => {
                rest = next;
                number += 1;
                let all = text.len() as u64;
                watch.acted(all.saturating_sub(rest.len() as u64), all);
            }
            None => return Ok(writing),
        }
    }
}

/// Returns the text of the schedule that the written schedule in `text` describes.
///
/// The function splits the written schedule at newlines. Within a line, spaces separate words, and quotes enclose
/// texts. A word whose first byte is `#` starts a comment. `docs/SPEC.md` describes the lines of a written schedule.
///
/// [`serf_schedule::parse_schedule`] reads exactly the intended agents and actions from the returned text. The function
/// returns `BadLine` if and only if a line isn't valid, and the error names the first invalid line. If memory runs out
/// before an invalid line is found, the function returns `OutOfMemory` instead. The function reports to `watch` how
/// many bytes it has read.
pub fn write<T: Watch>(alloc: Global, text: &[u8], watch: &mut T) -> Result<Vec<u8>, WriteError>
    ensures exact { Writes result text.now }
{
    let writing = read_lines(alloc, text, watch)?;
    let schedule = writing.into_schedule();
    let mut out = Vec::new(alloc);
    match write_schedule(&mut out, &schedule) {
        Ok(()) => Ok(out),
        Err(_) => Err(WriteError::OutOfMemory),
    }
}
