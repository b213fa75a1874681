//! Reads the text of one reply from an agent's output.

ghost use Rattle.std.specs.Prelude.{◌≡◌, ◌<◌, ◌≤◌, IfOk, IfSome, IsErrOf, None, length};
ghost use Rattle.serf_conform.specs.Input.{ReadsReply, first_reply, longest_reply};

use std::alloc::Global;
use std::io::Read;
use thiserror::Error;

/// The maximum length of a reply in bytes, counting all its lines and their newlines.
pub const MAX_REPLY_BYTES: usize = 67_108_864;

/// The reason why a reply was not read to its end.
#[derive(Clone, Copy, Debug, Drop, Error, PartialEq, Eq)]
pub enum ReadError {
    /// A read failed.
    #[error("a read failed")]
    ReadError,
    /// The input ended before the empty line that ends a reply.
    #[error("the agent has ended")]
    Ended,
    /// The reply is longer than 67,108,864 bytes.
    #[error("the reply is too long")]
    TooLong,
    #[error("out of memory")]
    OutOfMemory,
}

/// Reads the next reply, and returns its lines, each with its newline. The function reads up to the end of the empty
/// line that ends the reply, and no further.
///
/// A line that contains only a carriage return also ends a reply. In this case, the carriage return is the last byte of
/// the text. Without this rule, if an agent ended its lines with a carriage return and a newline, its replies would
/// never end, because none of their lines would be empty.
///
/// If a read returns no bytes, the input has ended. If the function returns an error, it may have read part of a reply.
pub fn read_reply_text<R: Read>(alloc: Global, reader: &mut R) -> Result<Vec<u8>, ReadError>
    ensures text { IfOk result (λ text.
        ReadsReply (R.remaining reader.old) (R.remaining reader.new) text.items) }
    ensures ended { IsErrOf result ReadError.Ended
        → IfSome (R.remaining reader.old) (λ input. first_reply input ≡ None) }
    ensures too_long { IsErrOf result ReadError.TooLong
        → IfSome (R.remaining reader.old) (λ input. longest_reply < length input) }
    ensures short { IfOk result (λ text. length text.items ≤ longest_reply) }
{
    let mut text = Vec::new(alloc);
    // `begins` is true if the next byte begins a line. `is_return` is true if the line so far is only a carriage
    // return.
    let mut begins = true;
    let mut is_return = false;
    let mut byte = [0u8; 1];
    for _turn in 0..MAX_REPLY_BYTES + 1 {
        match reader.read(&mut byte) {
            Err(_) => return Err(ReadError::ReadError),
            Ok(0) => return Err(ReadError::Ended),
            Ok(_) => {}
        }
        let read = byte[0];
        if (begins || is_return) && read == b'\n' {
            return Ok(text);
        }
        if text.push(read).is_err() {
            return Err(ReadError::OutOfMemory);
        }
        is_return = begins && read == b'\r';
        begins = read == b'\n';
    }
    Err(ReadError::TooLong)
}
