//! The words that the command `decode` and a trace print for a packet's error.
ghost use Rattle.std.specs.Prelude.{◌≡◌, ◌++◌, OnOk, Some};
ghost use Rattle.serf_text.specs.WireText.{pack_text, wire_text};

use crate::put::{write_with_number, write_with_numbers};
use serf_pack::PackError;
use serf_wire::WireError;
use std::alloc::AllocError;
use std::fmt;

/// A packet's error. It prints as its name, followed by its byte and its offset in decimal, if it has them: `Empty`,
/// `UnknownType 10`, `Unsupported 193 4`, `Truncated 7`.
#[derive(Clone, Copy, Debug, PartialEq, Eq)]
pub struct WireWords {
    error: WireError,
}

impl WireWords {
    /// Returns the words for `error`. Allocates no memory.
    pub fn new(error: WireError) -> WireWords
        ensures { result.error ≡ error }
    {
        WireWords { error }
    }

    /// Returns the error that these words print. Allocates no memory.
    pub fn error(self) -> WireError
        ensures { result ≡ self.error }
    {
        self.error
    }
}

/// A MessagePack error. It prints as its name, followed by its byte, if it has one, and by its offset, both in
/// decimal.
#[derive(Clone, Copy)]
struct PackWords(PackError);

impl fmt::Display for PackWords {
    ghost output = { λ words. Some (pack_text words.0) };

    #[tactic(auto, unfolding(crate::specs::TextParts::with_number))]
    fn fmt<W: fmt::Write>(&self, f: &mut fmt::Formatter<W>) -> fmt::Result {
        match self.0 {
            PackError::Truncated(offset) => write!(f, "Truncated {offset}"),
            PackError::Unsupported(byte, offset) => write!(f, "Unsupported {byte} {offset}"),
            PackError::TooDeep(offset) => write!(f, "TooDeep {offset}"),
            PackError::Trailing(offset) => write!(f, "Trailing {offset}"),
        }
    }
}

impl fmt::Display for WireWords {
    ghost output = { λ words. Some (wire_text words.error) };

    #[tactic(auto, unfolding(crate::specs::TextParts::with_number))]
    fn fmt<W: fmt::Write>(&self, f: &mut fmt::Formatter<W>) -> fmt::Result {
        match self.error {
            WireError::Empty => write!(f, "Empty"),
            WireError::UnknownType(byte) => write!(f, "UnknownType {byte}"),
            WireError::Pack(error) => {
                let words = PackWords(error);
                write!(f, "{words}")
            }
            WireError::NotAMap => write!(f, "NotAMap"),
            WireError::BadKey(offset) => write!(f, "BadKey {offset}"),
            WireError::Twice(offset) => write!(f, "Twice {offset}"),
            WireError::WrongKind(offset) => write!(f, "WrongKind {offset}"),
            WireError::OutOfRange(offset) => write!(f, "OutOfRange {offset}"),
            WireError::MaxTime(offset) => write!(f, "GreatestTime {offset}"),
        }
    }
}

/// Appends the words for the MessagePack error `error`: its name, its byte if it has one, and its offset, in decimal.
fn write_pack_error(out: &mut Vec<u8>, error: PackError) -> Result<(), AllocError>
    ensures { OnOk result (out.new.items ≡ out.old.items ++ pack_text error) }
{
    match error {
        PackError::Truncated(offset) => write_with_number(out, b"Truncated", offset as u64),
        PackError::Unsupported(byte, offset) => {
            write_with_numbers(out, b"Unsupported", u64::from(byte), offset as u64)
        }
        PackError::TooDeep(offset) => write_with_number(out, b"TooDeep", offset as u64),
        PackError::Trailing(offset) => write_with_number(out, b"Trailing", offset as u64),
    }
}

/// Appends the words for `error`, which is a packet's error. If memory runs out, the call returns an `AllocError`,
/// and `out` may then end in a prefix of the words.
pub fn write_wire_error(out: &mut Vec<u8>, error: WireError) -> Result<(), AllocError>
    ensures { OnOk result (out.new.items ≡ out.old.items ++ wire_text error) }
{
    match error {
        WireError::Empty => out.extend_from_slice(b"Empty"),
        WireError::UnknownType(byte) => write_with_number(out, b"UnknownType", u64::from(byte)),
        WireError::Pack(error) => write_pack_error(out, error),
        WireError::NotAMap => out.extend_from_slice(b"NotAMap"),
        WireError::BadKey(offset) => write_with_number(out, b"BadKey", offset as u64),
        WireError::Twice(offset) => write_with_number(out, b"Twice", offset as u64),
        WireError::WrongKind(offset) => write_with_number(out, b"WrongKind", offset as u64),
        WireError::OutOfRange(offset) => write_with_number(out, b"OutOfRange", offset as u64),
        WireError::MaxTime(offset) => write_with_number(out, b"GreatestTime", offset as u64),
    }
}
