//! Why a packet is not a message.

use serf_pack::PackError;
use thiserror::Error;

/// Why a packet is not a message: the first error in reading order. Offsets count from the packet's first
/// byte, which is its type.
#[derive(Clone, Copy, Debug, PartialEq, Eq, Error)]
pub enum WireError {
    /// The packet is empty.
    #[error("the packet is empty")]
    Empty,
    /// No message has this type byte.
    #[error("no message has the type {0}")]
    UnknownType(u8),
    /// The bytes after the type byte are not a MessagePack value.
    #[error("the bytes after the type are not a MessagePack value")]
    Pack(PackError),
    /// The value after the type byte is not a map.
    #[error("the value is not a map")]
    NotAMap,
    /// The key at this offset is not raw.
    #[error("the key at {0} is not raw")]
    BadKey(usize),
    /// The known key at this offset appears in its map for the second time.
    #[error("the key at {0} appears for the second time")]
    Twice(usize),
    /// The value at this offset has a kind that its field doesn't allow.
    #[error("the value at {0} has the wrong type")]
    WrongKind(usize),
    /// The integer at this offset is outside its field's range.
    #[error("the integer at {0} is out of range")]
    OutOfRange(usize),
    /// The number at this offset is 2^64 - 1, which isn't a valid time.
    #[error("the number at {0} is not a valid time")]
    MaxTime(usize),
}
