//! The values of a packet, in all forms that MessagePack has for them. The first byte of a form is its head, and a
//! number, a length or a count follows the head.

use serf_pack::{
    write_array, write_bool, write_integer, write_map, write_nil, write_raw, write_unsigned,
};
use serf_wire::Bytes;
use std::alloc::AllocError;

/// The heads of numbers with 8, 16, 32 and 64 bits: first those of unsigned numbers, and then those of signed numbers.
const NUMBERS: [u8; 8] = [0xcc, 0xcd, 0xce, 0xcf, 0xd0, 0xd1, 0xd2, 0xd3];

/// The heads of signed numbers with 8, 16, 32 and 64 bits.
const SIGNED: [u8; 4] = [0xd0, 0xd1, 0xd2, 0xd3];

/// The heads of texts and of byte strings (the bin forms) whose lengths have 8, 16 or 32 bits.
const TEXTS: [u8; 6] = [0xd9, 0xda, 0xdb, 0xc4, 0xc5, 0xc6];

/// The heads of arrays whose counts have 16 or 32 bits.
const ARRAYS: [u8; 2] = [0xdc, 0xdd];

/// The heads of maps whose counts have 16 or 32 bits.
const MAPS: [u8; 2] = [0xde, 0xdf];

/// The heads of texts, byte strings, arrays and maps that are followed by a length or a count.
pub(crate) const LENGTHS: [u8; 10] = [0xc4, 0xc5, 0xc6, 0xd9, 0xda, 0xdb, 0xdc, 0xdd, 0xde, 0xdf];

/// The first bytes of values that don't occur in any message: the byte that MessagePack never uses, and the first bytes
/// of extensions and floating-point numbers.
pub(crate) const UNSUPPORTED: [u8; 11] = [
    0xc1, 0xc7, 0xc8, 0xc9, 0xca, 0xcb, 0xd4, 0xd5, 0xd6, 0xd7, 0xd8,
];

/// Returns the size, in bytes, of the number, length or count that follows `head`.
pub(crate) fn width_of(head: u8) -> usize {
    match head {
        0xc4 | 0xcc | 0xd0 | 0xd9 => 1,
        0xc5 | 0xcd | 0xd1 | 0xda | 0xdc | 0xde => 2,
        0xc6 | 0xce | 0xd2 | 0xdb | 0xdd | 0xdf => 4,
        _ => 8,
    }
}

/// Returns the largest number, length or count that may follow `head`.
pub(crate) fn max_of(head: u8) -> u64 {
    match head {
        0xd0 => 0x7f,
        0xd1 => 0x7fff,
        0xd2 => 0x7fff_ffff,
        0xd3 => 0x7fff_ffff_ffff_ffff,
        _ => match width_of(head) {
            1 => 0xff,
            2 => 0xffff,
            4 => 0xffff_ffff,
            _ => u64::MAX,
        },
    }
}

/// A value to write, or the beginning of a value whose parts are written after it.
#[derive(Clone, Copy)]
pub(crate) enum Value<'a> {
    Nil,
    Truth(bool),
    Number(u64),
    Signed(i64),
    Text(&'a [u8]),
    /// A text that is a key in a map, and that is never written as nil.
    Key(&'a [u8]),
    /// The beginning of an array with this many items.
    Items(u64),
    /// The beginning of an array of these texts.
    Texts(&'a [Bytes]),
    /// The beginning of a map with this many pairs.
    Pairs(u64),
}

/// A field of a message: its key and its value.
pub(crate) type Field<'a> = (&'static [u8], Value<'a>);

impl Value<'_> {
    /// Whether the value is 0, false or empty, so that a message may contain nil in its place.
    pub(crate) fn may_be_nil(self) -> bool {
        match self {
            Value::Number(number) => number == 0,
            Value::Signed(number) => number == 0,
            Value::Truth(truth) => !truth,
            Value::Text(text) => text.is_empty(),
            _ => false,
        }
    }

    /// Returns three facts about the value's wide forms, or `None` if the value has no wide form. The first fact is the
    /// list of the heads of these forms. The second fact is a size: a head has room for the value if [`max_of`] returns
    /// at least this size for the head. (The size of a negative number is its absolute value minus one.) The third fact
    /// is a number of 64 bits, whose last bytes follow the head.
    pub(crate) fn wide_forms(self) -> Option<(&'static [u8], u64, u64)> {
        let (heads, size): (&'static [u8], u64) = match self {
            Value::Nil | Value::Truth(_) => return None,
            Value::Number(number) => (&NUMBERS, number),
            Value::Signed(number) => {
                if number < 0 {
                    let below = (-(number + 1)) as u64;
                    return Some((&SIGNED, below, u64::MAX.saturating_sub(below)));
                }
                (&NUMBERS, number as u64)
            }
            Value::Text(text) | Value::Key(text) => (&TEXTS, text.len() as u64),
            Value::Items(count) => (&ARRAYS, count),
            Value::Texts(texts) => (&ARRAYS, texts.len() as u64),
            Value::Pairs(count) => (&MAPS, count),
        };
        Some((heads, size, size))
    }
}

/// Returns `text` as a value. This is a function so that an array can contain both constants and the texts of a
/// message, which have shorter lifetimes.
pub(crate) fn text(text: &[u8]) -> Value<'_> {
    Value::Text(text)
}

/// Appends `text` to `out` in its canonical form. A text of 4 GiB or more is left out, but no caller passes a text of
/// this size.
fn write_text(out: &mut Vec<u8>, text: &[u8]) -> Result<(), AllocError> {
    if text.len() as u64 > u64::from(u32::MAX) {
        return Ok(());
    }
    write_raw(out, text)
}

/// Appends `value`, or its beginning, to `out` in its canonical form. No caller passes a count above 255.
pub(crate) fn write_canonical(out: &mut Vec<u8>, value: Value) -> Result<(), AllocError> {
    match value {
        Value::Nil => write_nil(out),
        Value::Truth(truth) => write_bool(out, truth),
        Value::Number(number) => write_unsigned(out, number),
        Value::Signed(number) => write_integer(out, number),
        Value::Text(text) | Value::Key(text) => write_text(out, text),
        Value::Items(count) => write_array(out, count.min(255) as u32),
        Value::Texts(texts) => write_array(out, texts.len().min(255) as u32),
        Value::Pairs(count) => write_map(out, count.min(255) as u32),
    }
}
