//! Reads the head of a value, which is its first byte and the number after this byte. Source: MessagePack
//! specification, "Formats".

ghost use Rattle.std.specs.Prelude.{◌≡◌, ◌≤◌, ◌+◌, ◌<◌, ◌^◌, length, IfOk};
ghost use Rattle.byteorder.specs.Endian.{big_number, twos_complement};
ghost use Rattle.serf_pack.specs.Table.{row_of, meaning_of, HasFormatInt, RowHasFormatInt};
ghost use Rattle.serf_pack.specs.Reading.{Gives, head_at, HasWidth};

use crate::error::PackError;
use byteorder::{BigEndian, ByteOrder};

/// The meaning of the head of a value.
#[derive(Clone, Copy)]
pub enum Head {
    /// Nil ("nil format").
    Nil,
    /// A truth value ("bool format family").
    Flag(bool),
    /// An integer, signed or unsigned ("int format family").
    Int(i128),
    /// A byte string, of which this many bytes follow ("str format family" or "bin format family").
    Raw(u64),
    /// An array, of which this many values follow ("array format family").
    Array(u64),
    /// A map, of which this many pairs of values follow ("map format family").
    Map(u64),
}

/// The meaning of the number that follows a first byte.
#[derive(Clone, Copy)]
pub enum Field {
    /// The number is the value.
    Unsigned,
    /// The number is the value, in two's complement.
    Signed,
    /// The number is the length of a byte string.
    Raw,
    /// The number is the count of an array's items.
    Array,
    /// The number is the count of a map's pairs.
    Map,
}

/// A row of the table of first bytes.
#[derive(Clone, Copy)]
pub enum Row {
    /// The first byte is the whole head.
    Whole(Head),
    /// A number of this many bytes follows, the most significant byte first.
    Number(Field, usize),
    /// No value of the profile begins with this byte.
    Unsupported,
}

/// Returns the row of the table for the first byte `byte`.
#[inline(always)]
pub fn row_for(byte: u8) -> Row
    ensures row { result ≡ row_of byte }
    ensures width { HasWidth result }
    ensures int { RowHasFormatInt result }
{
    match byte {
        0..=0x7f => Row::Whole(Head::Int(i128::from(byte))),
        0x80..=0x8f => Row::Whole(Head::Map(u64::from(byte - 0x80))),
        0x90..=0x9f => Row::Whole(Head::Array(u64::from(byte - 0x90))),
        0xa0..=0xbf => Row::Whole(Head::Raw(u64::from(byte - 0xa0))),
        0xc0 => Row::Whole(Head::Nil),
        0xc2 => Row::Whole(Head::Flag(false)),
        0xc3 => Row::Whole(Head::Flag(true)),
        0xc4 => Row::Number(Field::Raw, 1),
        0xc5 => Row::Number(Field::Raw, 2),
        0xc6 => Row::Number(Field::Raw, 4),
        0xcc => Row::Number(Field::Unsigned, 1),
        0xcd => Row::Number(Field::Unsigned, 2),
        0xce => Row::Number(Field::Unsigned, 4),
        0xcf => Row::Number(Field::Unsigned, 8),
        0xd0 => Row::Number(Field::Signed, 1),
        0xd1 => Row::Number(Field::Signed, 2),
        0xd2 => Row::Number(Field::Signed, 4),
        0xd3 => Row::Number(Field::Signed, 8),
        0xd9 => Row::Number(Field::Raw, 1),
        0xda => Row::Number(Field::Raw, 2),
        0xdb => Row::Number(Field::Raw, 4),
        0xdc => Row::Number(Field::Array, 2),
        0xdd => Row::Number(Field::Array, 4),
        0xde => Row::Number(Field::Map, 2),
        0xdf => Row::Number(Field::Map, 4),
        0xe0..=0xff => Row::Whole(Head::Int(i128::from(byte) - 256)),
        _ => Row::Unsupported,
    }
}

/// Reads a number in the first `width` bytes of `bytes`, the most significant byte first.
#[inline(always)]
fn number(width: usize, bytes: &[u8]) -> u64
    requires low { 1 ≤ width }
    requires high { width ≤ 8 }
    requires room { width ≤ length bytes.now }
    ensures { result ≡ big_number width bytes.now }
{
    match width {
        1 => u64::from(bytes[0]),
        2 => u64::from(BigEndian::read_u16(bytes)),
        4 => u64::from(BigEndian::read_u32(bytes)),
        8 => BigEndian::read_u64(bytes),
        _ => BigEndian::read_uint(bytes, width),
    }
}

/// Returns the head whose number is in the first `width` bytes of `bytes`. `field` says what this number
/// means.
#[inline(always)]
fn meaning(field: Field, width: usize, bytes: &[u8]) -> Head
    requires low { 1 ≤ width }
    requires high { width ≤ 8 }
    requires room { width ≤ length bytes.now }
    ensures head { result ≡ meaning_of field width (big_number width bytes.now) }
    ensures int { HasFormatInt result }
{
    match field {
        Field::Unsigned => Head::Int(i128::from(number(width, bytes))),
        Field::Signed => Head::Int(i128::from(BigEndian::read_int(bytes, width))),
        Field::Raw => Head::Raw(number(width, bytes)),
        Field::Array => Head::Array(number(width, bytes)),
        Field::Map => Head::Map(number(width, bytes)),
    }
}

/// Reads the head at the start of `bytes`. Returns the head and the bytes after it. `bytes` are the end of an
/// input of `total` bytes. The error is `Truncated` if the bytes end before the head does, and `Unsupported`
/// if no format begins with the first byte. Both errors contain the offset of the first byte. Allocates no
/// memory.
#[tactic(auto, unfolding(crate::specs::Reading::head_at))]
#[inline(always)]
pub fn read_head(total: usize, bytes: &[u8]) -> Result<(Head, &[u8]), PackError>
    requires { length bytes.now ≤ total }
    ensures head { Gives (λ x. (x.0, x.1.now)) result (head_at total bytes.now) }
    ensures within { IfOk result (λ x. length x.1.now ≤ length bytes.now) }
    ensures int { IfOk result (λ x. HasFormatInt x.0) }
{
    let place = total - bytes.len();
    let [byte, rest @ ..] = bytes else {
        return Err(PackError::Truncated(place));
    };
    match row_for(*byte) {
        Row::Whole(head) => Ok((head, rest)),
        Row::Number(field, width) => {
            if rest.len() < width {
                return Err(PackError::Truncated(place));
            }
            Ok((meaning(field, width, rest), &rest[width..]))
        }
        Row::Unsupported => Err(PackError::Unsupported(*byte, place)),
    }
}
