//! Appends the values of members.

ghost use Rattle.std.specs.Prelude.{◌≡◌, ◌++◌, ◌<◌, OnOk, decimal};
ghost use Rattle.std.specs.List.{flat_map, list_all};
ghost use Rattle.hex.specs.Hex.{encode_lower};
ghost use Rattle.serf_json.specs.Json.{flag_text, hex_digit as hex_digit_of, hex_string, is_ascii, is_escaped, json_byte, json_string, more_numbers, numbers_text};

use itoa::Buffer;
use std::alloc::AllocError;

/// Appends `n` in decimal.
pub(crate) fn write_number(out: &mut Vec<u8>, n: u64) -> Result<(), AllocError>
    ensures { OnOk result (out.new.items ≡ out.old.items ++ decimal n) }
{
    let mut buffer = Buffer::new();
    out.extend_from_slice(buffer.format(n).as_bytes())
}

/// Returns the word for `flag`.
pub(crate) fn flag_text(flag: bool) -> &'static [u8]
    ensures { result.now ≡ flag_text flag }
{
    if flag { b"true" } else { b"false" }
}

/// Returns the ASCII byte of the hex digit `digit`, in lower case.
fn hex_digit(digit: u8) -> u8
    requires { digit < 16 }
    ensures { result ≡ hex_digit_of digit }
{
    if digit < 10 { 48 + digit } else { 87 + digit }
}

/// Returns whether a byte of a text is escaped as a number. This is so if it isn't printable ASCII, or if it can
/// begin or end a tag or begin an entity in an HTML page.
fn is_escaped(byte: u8) -> bool
    ensures { result ≡ is_escaped byte }
{
    byte < 32 || 126 < byte || byte == b'<' || byte == b'>' || byte == b'&'
}

/// Appends `byte` as it is written in a text. A quote or a backslash gets a backslash in front of it. A byte that is
/// escaped is written as `\u00` with two hex digits.
fn write_byte(out: &mut Vec<u8>, byte: u8) -> Result<(), AllocError>
    ensures { OnOk result (out.new.items ≡ out.old.items ++ json_byte byte) }
{
    if byte == b'"' || byte == b'\\' {
        out.extend_from_slice(&[b'\\', byte])
    } else if is_escaped(byte) {
        let (high, low) = (hex_digit(byte / 16), hex_digit(byte % 16));
        out.extend_from_slice(&[b'\\', b'u', b'0', b'0', high, low])
    } else {
        out.push(byte)?;
        Ok(())
    }
}

/// Appends `text` in quotes.
pub(crate) fn write_text(out: &mut Vec<u8>, text: &[u8]) -> Result<(), AllocError>
    ensures { OnOk result (out.new.items ≡ out.old.items ++ json_string text.now) }
{
    out.extend_from_slice(b"\"")?;
    for byte in text {
        write_byte(out, *byte)?;
    }
    out.extend_from_slice(b"\"")
}

/// Appends `bytes` in lower-case hex.
fn write_hex(out: &mut Vec<u8>, bytes: &[u8]) -> Result<(), AllocError>
    ensures { OnOk result (out.new.items ≡ out.old.items ++ encode_lower bytes.now) }
{
    let from = out.len(); // the index at which the hex begins
    out.resize(from.saturating_add(bytes.len().saturating_mul(2)), 0)?;
    match hex::encode_to_slice(bytes, &mut out[from..]) {
        Ok(()) => Ok(()),
        // (the hex needs two bytes for each of `bytes`, and `out` has exactly as many after `from`)
        Err(_) => unreachable!(),
    }
}

/// Appends `bytes` in lower-case hex, in quotes.
pub(crate) fn write_hex_text(out: &mut Vec<u8>, bytes: &[u8]) -> Result<(), AllocError>
    ensures { OnOk result (out.new.items ≡ out.old.items ++ hex_string bytes.now) }
{
    out.extend_from_slice(b"\"")?;
    write_hex(out, bytes)?;
    out.extend_from_slice(b"\"")
}

/// Returns whether all of `bytes` are ASCII.
pub(crate) fn is_ascii(bytes: &[u8]) -> bool
    ensures { result ≡ is_ascii bytes.now }
{
    bytes.iter().all(|byte| *byte < 128)
}

/// Appends each of `numbers` in decimal, after a comma.
fn write_more_numbers(out: &mut Vec<u8>, numbers: &[u64]) -> Result<(), AllocError>
    ensures { OnOk result (out.new.items ≡ out.old.items ++ more_numbers numbers.now) }
{
    for number in numbers {
        out.extend_from_slice(b",")?;
        write_number(out, *number)?;
    }
    Ok(())
}

/// Appends a list of numbers.
pub(crate) fn write_numbers(out: &mut Vec<u8>, numbers: &[u64]) -> Result<(), AllocError>
    ensures { OnOk result (out.new.items ≡ out.old.items ++ numbers_text numbers.now) }
{
    let Some((first, rest)) = numbers.split_first() else {
        return out.extend_from_slice(b"[]");
    };
    out.extend_from_slice(b"[")?;
    write_number(out, *first)?;
    write_more_numbers(out, rest)?;
    out.extend_from_slice(b"]")
}
