//! Reads a whole input of limited length.

ghost use Rattle.std.specs.Prelude.{◌≡◌, ◌+◌, ◌<◌, ◌≤◌, length, IfOk, IfSome, OnErr, IsErrOf, List, ℕ};
ghost use Rattle.std.specs.Io.KnownBytes.{Consumes};

use std::alloc::Global;
use std::io::Read;
use thiserror::Error;

/// The maximum length of a schedule's text, in bytes.
pub const MAX_SCHEDULE_BYTES: usize = 16_777_216;

/// How many bytes are requested from the reader at once.
const READ_BYTES: usize = 65536;

/// Why an input was not read to its end.
#[derive(Clone, Copy, Debug, PartialEq, Eq, Error)]
pub enum InputError {
    /// A read failed.
    #[error("a read failed")]
    ReadError,
    /// The reader has more than 16,777,216 bytes. Exactly 16,777,217 of them were read.
    #[error("the input is too long")]
    ReadTooLong,
    #[error("out of memory")]
    OutOfMemory,
}

/// Reads everything that `reader` has left, at most 16,777,216 bytes. If a read returns no bytes, the input has
/// ended.
pub fn read_input<R: Read>(alloc: Global, reader: &mut R) -> Result<Vec<u8>, InputError>
    ensures short { IfOk result (λ v. length v.items ≤ MAX_SCHEDULE_BYTES) }
    ensures all { IfOk result (λ v. IfSome (R.remaining reader.old) (λ bytes. v.items ≡ bytes)) }
    ensures too_long { IsErrOf result InputError.ReadTooLong
        → IfSome (R.remaining reader.old) (λ bytes. MAX_SCHEDULE_BYTES < length bytes) }
    // At most one byte more than the maximum length is read.
    ensures bounded { (bytes : List ℕ)
        × Consumes (R.remaining reader.old) (R.remaining reader.new) bytes
        × (length bytes ≤ MAX_SCHEDULE_BYTES + 1) }
{
    let mut input = Vec::new(alloc);
    let mut chunk = [0u8; READ_BYTES];
    for _turn in 0..MAX_SCHEDULE_BYTES + 1 {
        // (one byte more than the maximum shows that the input is too long)
        let room = (MAX_SCHEDULE_BYTES + 1 - input.len()).min(READ_BYTES);
        match reader.read(&mut chunk[..room]) {
            Err(_) => return Err(InputError::ReadError),
            Ok(0) => return Ok(input),
            Ok(n) => {
                if input.extend_from_slice(&chunk[..n]).is_err() {
                    return Err(InputError::OutOfMemory);
                }
            }
        }
        if input.len() > MAX_SCHEDULE_BYTES {
            return Err(InputError::ReadTooLong);
        }
    }
    // (each turn reads a byte or returns, so an earlier turn has already found that the input is too long)
    unreachable!()
}
