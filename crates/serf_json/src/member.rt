//! The members of an object.

/// A member of an object, which has a name and a value. A name consists of letters and underscores.
#[derive(Clone, Copy)]
pub enum Member<'a> {
    /// A number, in decimal.
    Number(&'a [u8], u64),
    /// A list of numbers, in decimal.
    Numbers(&'a [u8], &'a [u64]),
    /// `true` or `false`.
    Flag(&'a [u8], bool),
    /// A text. A byte above 127 is written as the character with this number.
    Text(&'a [u8], &'a [u8]),
    /// Bytes, which become two members. The first one is a text, and the object has it only if all bytes are ASCII.
    /// The second one has the bytes in hex, under the same name followed by `_hex`.
    Bytes(&'a [u8], &'a [u8]),
    /// Bytes in hex, under this name followed by `_hex`.
    Hex(&'a [u8], &'a [u8]),
    /// `null`.
    Null(&'a [u8]),
    /// The object doesn't have this member.
    Absent,
}
