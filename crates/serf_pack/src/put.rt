//! Appends canonical spellings to a vector, `out`: the shortest format of each number, length and count. Byte
//! strings are written as str, but never as str 8. Each function returns `AllocError` only if the vector's
//! capacity is too small and the vector can't grow. The vector's contents are then unchanged. The capacity
//! never falls. Source: MessagePack specification, "Formats" and "Serialization: type to format conversion".

ghost use Rattle.std.specs.Prelude.{◌≡◌, ◌≤◌, ◌<◌, ◌+◌, ◌^◌, ◌++◌, ◌∷◌, [], length, is_ok, OnOk, OnErr, vec_len, vec_capacity, if◌then◌else◌};
ghost use Rattle.byteorder.specs.Endian.{big_bytes, low_bytes};
ghost use Rattle.std.specs.Int.{w64};
ghost use Rattle.serf_pack.specs.Canonical.{map_head, array_head, raw_head, raw_bytes, uint_bytes, int_bytes, flag_bytes, nil_bytes};

use byteorder::{BigEndian, ByteOrder};
use std::alloc::AllocError;

/// Appends the first byte `format`, and then `number` in `width` bytes, the most significant byte first.
fn write_number(out: &mut Vec<u8>, format: u8, number: u64, width: usize) -> Result<(), AllocError>
    requires low { 1 ≤ width }
    requires high { width ≤ 8 }
    requires fits { number < 256 ^ width }
    ensures ok { OnOk result (out.new.items ≡ out.old.items ++ format ∷ big_bytes width number) }
    ensures err { OnErr result (out.new.items ≡ out.old.items) }
    ensures full { OnErr result (vec_capacity out.old < vec_len out.old + (1 + width)) }
    ensures grows { vec_capacity out.old ≤ vec_capacity out.new }
{
    let mut bytes = [0u8; 9];
    bytes[0] = format;
    BigEndian::write_uint(&mut bytes[1..], number, width);
    out.extend_from_slice(&bytes[..1 + width])
}

/// Appends `byte`, a first byte that is the whole head of a value.
fn write_byte(out: &mut Vec<u8>, byte: u8) -> Result<(), AllocError>
    ensures ok { OnOk result (out.new.items ≡ out.old.items ++ byte ∷ []) }
    ensures err { OnErr result (out.new.items ≡ out.old.items) }
    ensures full { OnErr result (vec_capacity out.old < vec_len out.old + 1) }
    ensures grows { vec_capacity out.old ≤ vec_capacity out.new }
{
    out.extend_from_slice(&[byte])
}

/// Appends the header of a map of `count` pairs, in 1, 3 or 5 bytes. The caller then appends the pairs, each
/// of them as a key and its value. On `AllocError` the vector's contents are unchanged.
///
/// Source: MessagePack specification, "map format family": fixmap, map 16, map 32.
pub fn write_map(out: &mut Vec<u8>, count: u32) -> Result<(), AllocError>
    ensures ok { OnOk result (out.new.items ≡ out.old.items ++ map_head count) }
    ensures err { OnErr result (out.new.items ≡ out.old.items) }
    ensures full { OnErr result (vec_capacity out.old < vec_len out.old + length (map_head count)) }
    ensures grows { vec_capacity out.old ≤ vec_capacity out.new }
{
    if count < 16 {
        write_byte(out, 0x80 + count as u8)
    } else if count < 65536 {
        write_number(out, 0xde, u64::from(count), 2)
    } else {
        write_number(out, 0xdf, u64::from(count), 4)
    }
}

/// Appends the header of an array of `count` items, in 1, 3 or 5 bytes. The caller then appends the items. On
/// `AllocError` the vector's contents are unchanged.
///
/// Source: MessagePack specification, "array format family": fixarray, array 16, array 32.
pub fn write_array(out: &mut Vec<u8>, count: u32) -> Result<(), AllocError>
    ensures ok { OnOk result (out.new.items ≡ out.old.items ++ array_head count) }
    ensures err { OnErr result (out.new.items ≡ out.old.items) }
    ensures full { OnErr result (vec_capacity out.old
        < vec_len out.old + length (array_head count)) }
    ensures grows { vec_capacity out.old ≤ vec_capacity out.new }
{
    if count < 16 {
        write_byte(out, 0x90 + count as u8)
    } else if count < 65536 {
        write_number(out, 0xdc, u64::from(count), 2)
    } else {
        write_number(out, 0xdd, u64::from(count), 4)
    }
}

/// Appends the header of a byte string of `len` bytes.
fn write_raw_head(out: &mut Vec<u8>, len: u32) -> Result<(), AllocError>
    ensures ok { OnOk result (out.new.items ≡ out.old.items ++ raw_head len) }
    ensures err { OnErr result (out.new.items ≡ out.old.items) }
    ensures full { OnErr result (vec_capacity out.old < vec_len out.old + length (raw_head len)) }
    ensures grows { vec_capacity out.old ≤ vec_capacity out.new }
{
    if len < 32 {
        write_byte(out, 0xa0 + len as u8)
    } else if len < 65536 {
        write_number(out, 0xda, u64::from(len), 2)
    } else {
        write_number(out, 0xdb, u64::from(len), 4)
    }
}

/// Appends a byte string of at most 4,294,967,295 bytes, with its header of 1, 3 or 5 bytes. On `AllocError`
/// the vector's contents are unchanged.
///
/// Source: MessagePack specification, "str format family": fixstr up to 31 bytes, str 16 up to 65,535 bytes,
/// and str 32 for longer strings. Str 8 is not used, because readers of the older raw family don't know it.
pub fn write_raw(out: &mut Vec<u8>, bytes: &[u8]) -> Result<(), AllocError>
    requires { length bytes.now < 2 ^ 32 }
    ensures ok { OnOk result (out.new.items ≡ out.old.items ++ raw_bytes bytes.now) }
    ensures err { OnErr result (out.new.items ≡ out.old.items) }
    ensures full { OnErr result (vec_capacity out.old
        < vec_len out.old + length (raw_bytes bytes.now)) }
    ensures grows { vec_capacity out.old ≤ vec_capacity out.new }
{
    let len = out.len();
    write_raw_head(out, bytes.len() as u32)?;
    if out.extend_from_slice(bytes).is_err() {
        out.truncate(len);
        return Err(AllocError);
    }
    Ok(())
}

/// Appends an integer of 0 or above, in 1, 2, 3, 5 or 9 bytes. On `AllocError` the vector's contents are
/// unchanged.
///
/// Source: MessagePack specification, "int format family": positive fixint, uint 8 to uint 64.
pub fn write_unsigned(out: &mut Vec<u8>, n: u64) -> Result<(), AllocError>
    ensures ok { OnOk result (out.new.items ≡ out.old.items ++ uint_bytes n) }
    ensures err { OnErr result (out.new.items ≡ out.old.items) }
    ensures full { OnErr result (vec_capacity out.old < vec_len out.old + length (uint_bytes n)) }
    ensures grows { vec_capacity out.old ≤ vec_capacity out.new }
{
    if n < 128 {
        write_byte(out, n as u8)
    } else if n < 256 {
        write_number(out, 0xcc, n, 1)
    } else if n < 65536 {
        write_number(out, 0xcd, n, 2)
    } else if n < 4294967296 {
        write_number(out, 0xce, n, 4)
    } else {
        write_number(out, 0xcf, n, 8)
    }
}

/// Appends a truth value, in 1 byte. On `AllocError` the vector's contents are unchanged.
///
/// Source: MessagePack specification, "bool format family".
pub fn write_bool(out: &mut Vec<u8>, value: bool) -> Result<(), AllocError>
    ensures ok { OnOk result (out.new.items ≡ out.old.items ++ flag_bytes value) }
    ensures err { OnErr result (out.new.items ≡ out.old.items) }
    ensures full { OnErr result (vec_capacity out.old < vec_len out.old + 1) }
    ensures grows { vec_capacity out.old ≤ vec_capacity out.new }
{
    write_byte(out, if value { 0xc3 } else { 0xc2 })
}

/// Appends nil, in 1 byte. On `AllocError` the vector's contents are unchanged.
///
/// Source: MessagePack specification, "nil format".
pub fn write_nil(out: &mut Vec<u8>) -> Result<(), AllocError>
    ensures ok { OnOk result (out.new.items ≡ out.old.items ++ nil_bytes) }
    ensures err { OnErr result (out.new.items ≡ out.old.items) }
    ensures full { OnErr result (vec_capacity out.old < vec_len out.old + 1) }
    ensures grows { vec_capacity out.old ≤ vec_capacity out.new }
{
    write_byte(out, 0xc0)
}

/// Appends the first byte `format`, and then `number` in `width` bytes in two's complement, the most
/// significant byte first.
fn write_signed(out: &mut Vec<u8>, format: u8, number: i64, width: usize) -> Result<(), AllocError>
    requires low { 1 ≤ width }
    requires high { width ≤ 8 }
    ensures ok { OnOk result (out.new.items ≡ out.old.items
        ++ format ∷ big_bytes width (low_bytes w64 width number)) }
    ensures err { OnErr result (out.new.items ≡ out.old.items) }
    ensures full { OnErr result (vec_capacity out.old < vec_len out.old + (1 + width)) }
    ensures grows { vec_capacity out.old ≤ vec_capacity out.new }
{
    let mut bytes = [0u8; 9];
    bytes[0] = format;
    BigEndian::write_int(&mut bytes[1..], number, width);
    out.extend_from_slice(&bytes[..1 + width])
}

/// Appends a signed integer, in 1, 2, 3, 5 or 9 bytes. An integer of 0 or above is written in the same way as
/// by `write_unsigned`. On `AllocError` the vector's contents are unchanged.
///
/// Source: MessagePack specification, "int format family": the fixints, uint 8 to uint 64, int 8 to int 64.
pub fn write_integer(out: &mut Vec<u8>, n: i64) -> Result<(), AllocError>
    ensures ok { OnOk result (out.new.items ≡ out.old.items ++ int_bytes n) }
    ensures err { OnErr result (out.new.items ≡ out.old.items) }
    ensures full { OnErr result (vec_capacity out.old < vec_len out.old + length (int_bytes n)) }
    ensures grows { vec_capacity out.old ≤ vec_capacity out.new }
{
    if n >= 0 {
        write_unsigned(out, n as u64)
    } else if n >= -32 {
        write_byte(out, (256 + n) as u8)
    } else if n >= -128 {
        write_signed(out, 0xd0, n, 1)
    } else if n >= -32768 {
        write_signed(out, 0xd1, n, 2)
    } else if n >= -2147483648 {
        write_signed(out, 0xd2, n, 4)
    } else {
        write_signed(out, 0xd3, n, 8)
    }
}
