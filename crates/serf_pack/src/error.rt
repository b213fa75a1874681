//! Why bytes are not a valid value.

use thiserror::Error;

/// Why bytes are not a valid value: the first error in reading order. The offset of an error is in bytes from
/// the start of the input, and is at most the input's length.
#[derive(Clone, Copy, Debug, PartialEq, Eq, Error)]
pub enum PackError {
    /// The input ends inside the value that begins at this offset: at the value's first byte, in its number,
    /// in its length or count, or in its raw bytes.
    #[error("the input ends inside the value at byte {0}")]
    Truncated(usize),
    /// The byte at this offset doesn't begin a value of the profile. The byte is c1, or the first byte of a
    /// float or an ext format.
    #[error("byte {0:#04x} at {1} doesn't begin a supported value")]
    Unsupported(u8, usize),
    /// The array or map that begins at this offset is nested inside eight others.
    #[error("the array or map at byte {0} is nested inside eight others")]
    TooDeep(usize),
    /// The value ends before this offset, and more bytes follow.
    #[error("the value ends before byte {0}, and more bytes follow")]
    Trailing(usize),
}
