//! Reads, for C, the first error of a packet that is not a message.

ghost use Rattle.std.specs.Prelude.{◌≡◌};
ghost use Rattle.serf_wire.specs.Decoded.{decoded};
ghost use Rattle.serf_agent_c.specs.Errors.{ReadsError, error_byte, error_head, error_kind, error_offset};

use crate::code::Code;
use crate::heads::ErrorHead;
use serf_pack::PackError;
use serf_wire::{WireError, decode};

/// The number of `error` in `enum serf_agent_error` of `include/serf_agent.h`.
fn error_kind(error: WireError) -> u32
    ensures { result ≡ error_kind error }
{
    match error {
        WireError::Empty => 1,
        WireError::UnknownType(_) => 2,
        WireError::Pack(PackError::Truncated(_)) => 3,
        WireError::Pack(PackError::Unsupported(_, _)) => 4,
        WireError::Pack(PackError::TooDeep(_)) => 5,
        WireError::Pack(PackError::Trailing(_)) => 6,
        WireError::NotAMap => 7,
        WireError::BadKey(_) => 8,
        WireError::Twice(_) => 9,
        WireError::WrongKind(_) => 10,
        WireError::OutOfRange(_) => 11,
        WireError::MaxTime(_) => 12,
    }
}

/// The offset of `error`, in bytes from the beginning of the packet; 0 if the error concerns the whole packet.
fn error_offset(error: WireError) -> usize
    ensures { result ≡ error_offset error }
{
    match error {
        WireError::Pack(PackError::Truncated(offset)) => offset,
        WireError::Pack(PackError::Unsupported(_, offset)) => offset,
        WireError::Pack(PackError::TooDeep(offset)) => offset,
        WireError::Pack(PackError::Trailing(offset)) => offset,
        WireError::BadKey(offset) => offset,
        WireError::Twice(offset) => offset,
        WireError::WrongKind(offset) => offset,
        WireError::OutOfRange(offset) => offset,
        WireError::MaxTime(offset) => offset,
        _ => 0,
    }
}

/// The byte of the packet that `error` names; 0 if it names none.
fn error_byte(error: WireError) -> u8
    ensures { result ≡ error_byte error }
{
    match error {
        WireError::UnknownType(byte) => byte,
        WireError::Pack(PackError::Unsupported(byte, _)) => byte,
        _ => 0,
    }
}

/// Makes the struct that C reads for `error`.
pub(crate) fn head_of_error(error: WireError) -> ErrorHead
    ensures { result ≡ error_head error }
{
    ErrorHead {
        offset: error_offset(error),
        kind: error_kind(error),
        byte: error_byte(error),
    }
}

/// Fills `error` with the first error of `packet`. If the packet is a message, the code is `Nothing`, and `error` stays
/// as it was.
pub(crate) fn read_error(packet: &[u8], error: &mut ErrorHead) -> Code
    ensures { ReadsError (decoded packet.now) error.old error.new result }
{
    let Err(found) = decode(packet) else {
        return Code::Nothing;
    };
    *error = head_of_error(found);
    Code::Done
}
