//! Reads a complete reply from its text.

ghost use Rattle.std.specs.Prelude.{◌≡◌, ◌==◌, []};
ghost use Rattle.std.specs.List.{slice_split};
ghost use Rattle.serf_text.specs.Gives.{Gives};
ghost use Rattle.serf_conform.specs.Reply.{Reads, ReadsLines, after_line, after_lines, reply_of};

use crate::reply_line::{ReplyLine, read_reply_line};
use serf_text::{Cause, LineError, split_once};
use serf_wire::Bytes;
use std::alloc::Global;
use thiserror::Error;

/// An agent's reply to a call, either received or expected.
#[derive(Drop)]
pub struct Reply {
    /// The first line of the reply, unchanged but without its newline.
    pub answer: Bytes,
    /// The contents of the lines after the first, in order.
    pub lines: Vec<ReplyLine>,
}

/// The reason why a reply can't be read.
#[derive(Clone, Copy, Debug, Drop, Error, PartialEq, Eq)]
pub enum ReplyError {
    /// A line can't be read. The values are the number of the first line that can't be read, counted from 1, and the
    /// cause of the error.
    #[error("line {line} of the reply can't be read: {cause}")]
    BadLine { line: u64, cause: Cause },
    #[error("out of memory")]
    OutOfMemory,
}

/// Reads `line` and adds its contents to `lines`. An empty line is skipped.
#[tactic(auto, unfolding(crate::specs::Reply::after_line))]
fn add_line(alloc: Global, lines: &mut Vec<ReplyLine>, line: &[u8]) -> Result<(), LineError>
    ensures { Gives (λ _. lines.new.items) result (after_line lines.old.items line.now) }
{
    if line.is_empty() {
        return Ok(());
    }
    let said = read_reply_line(alloc, line)?;
    lines.push(said).map_err(|_| LineError::OutOfMemory)
}

/// Reads the lines of `text`, the part of a reply that follows the answer. The first line of `text` is line 2 of the
/// reply.
fn read_lines(alloc: Global, text: &[u8]) -> Result<Vec<ReplyLine>, ReplyError>
    ensures { ReadsLines result (after_lines 2 [] (slice_split (λ b. b == 10) text.now)) }
{
    let mut lines = Vec::new(alloc);
    let mut line: u64 = 2;
    let mut rest = text;
    'lines: loop {
        let (words, more) = split_once(rest, b'\n');
        match add_line(alloc, &mut lines, words) {
            Ok(()) => {}
            Err(LineError::Bad(cause)) => return Err(ReplyError::BadLine { line, cause }),
            Err(LineError::OutOfMemory) => return Err(ReplyError::OutOfMemory),
        }
        match more {
            Some(next) => {
                rest = next;
                line += 1;
            }
            None => return Ok(lines),
        }
    }
}

/// Reads the reply in `text`. The error `BadLine` contains the number of the first line that can't be read.
///
/// The function splits the text at newlines. The first line is the answer, which may contain any bytes but must not be
/// empty. Empty lines after the answer are skipped. In a text from [`crate::read_reply_text`], only the last line is
/// empty. If memory runs out before the function reaches a bad line, the error is `OutOfMemory`.
pub fn read_reply(alloc: Global, text: &[u8]) -> Result<Reply, ReplyError>
    ensures { Reads result (reply_of text.now) }
{
    let (answer, more) = split_once(text, b'\n');
    if answer.is_empty() {
        let (line, cause) = (1, Cause::UnknownWord);
        return Err(ReplyError::BadLine { line, cause });
    }
    let lines = match more {
        Some(rest) => read_lines(alloc, rest)?,
        None => Vec::new(alloc),
    };
    match Bytes::copy_of(alloc, answer) {
        Ok(answer) => Ok(Reply { answer, lines }),
        Err(_) => Err(ReplyError::OutOfMemory),
    }
}
