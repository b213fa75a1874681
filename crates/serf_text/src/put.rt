//! Appends parts of printed lines to `out`, and writes whole texts.

ghost use Rattle.std.specs.Prelude.{◌≡◌, ◌++◌, OnErr, OnOk, decimal};
ghost use Rattle.std.specs.Fmt.{signed_decimal};
ghost use Rattle.std.specs.Io.KnownBytes.{Appends};
ghost use Rattle.serf_text.specs.Io.{AppendsFront};
ghost use Rattle.serf_text.specs.TextParts.{flag_line, flag_text, hex_line, hex_text, number_line, signed_line, with_hex, with_number};

use itoa::Buffer;
use std::alloc::AllocError;
use std::io::Write;
use thiserror::Error;

/// Appends `n` in decimal. Returns an `AllocError` if memory runs out.
pub fn write_number(out: &mut Vec<u8>, n: u64) -> Result<(), AllocError>
    ensures { OnOk result (out.new.items ≡ out.old.items ++ decimal n) }
{
    let mut buffer = Buffer::new();
    out.extend_from_slice(buffer.format(n).as_bytes())
}

/// Appends the signed number `n` in decimal. Returns an `AllocError` if memory runs out.
pub fn write_signed(out: &mut Vec<u8>, n: i64) -> Result<(), AllocError>
    ensures { OnOk result (out.new.items ≡ out.old.items ++ signed_decimal n) }
{
    let mut buffer = Buffer::new();
    out.extend_from_slice(buffer.format(n).as_bytes())
}

/// Appends `bytes` in lower-case hex, or a dash if there are none. Returns an `AllocError` only if memory runs out.
#[tactic(auto, unfolding(crate::specs::TextParts::hex_text))]
pub fn write_hex(out: &mut Vec<u8>, bytes: &[u8]) -> Result<(), AllocError>
    ensures { OnOk result (out.new.items ≡ out.old.items ++ hex_text bytes.now) }
{
    if bytes.is_empty() {
        return out.extend_from_slice(b"-");
    }
    let from = out.len(); // the index at which the hex begins
    out.resize(from.saturating_add(bytes.len().saturating_mul(2)), 0)?;
    match hex::encode_to_slice(bytes, &mut out[from..]) {
        Ok(()) => Ok(()),
        // (the hex needs two bytes for each of `bytes`, and `out` has exactly as many after `from`)
        Err(_) => unreachable!(),
    }
}

/// Returns the text of `flag`: `1` for true and `0` for false. Allocates no memory.
pub fn flag(flag: bool) -> &'static [u8]
    ensures { result.now ≡ flag_text flag }
{
    if flag { b"1" } else { b"0" }
}

/// Appends `text`, a space and `n` in decimal. If memory runs out, the call returns an `AllocError`, and `out` may
/// then end in a part of this text.
#[tactic(auto, unfolding(crate::specs::TextParts::with_number))]
pub fn write_with_number(out: &mut Vec<u8>, text: &[u8], n: u64) -> Result<(), AllocError>
    ensures { OnOk result (out.new.items ≡ out.old.items ++ with_number text.now n) }
{
    out.extend_from_slice(text)?;
    out.extend_from_slice(b" ")?;
    write_number(out, n)
}

/// Appends `text` and two numbers, `m` and then `n`, in decimal, with a space before each.
#[tactic(auto, unfolding(crate::specs::TextParts::with_number))]
pub(crate) fn write_with_numbers(
    out: &mut Vec<u8>,
    text: &[u8],
    m: u64,
    n: u64,
) -> Result<(), AllocError>
    ensures { OnOk result (out.new.items ≡ out.old.items
        ++ with_number (with_number text.now m) n) }
{
    write_with_number(out, text, m)?;
    out.extend_from_slice(b" ")?;
    write_number(out, n)
}

/// Appends `text`, a space and `bytes` in hex. If memory runs out, the call returns an `AllocError`, and `out` may
/// then end in a part of this text.
#[tactic(auto, unfolding(crate::specs::TextParts::with_hex))]
pub fn write_with_hex(out: &mut Vec<u8>, text: &[u8], bytes: &[u8]) -> Result<(), AllocError>
    ensures { OnOk result (out.new.items ≡ out.old.items ++ with_hex text.now bytes.now) }
{
    out.extend_from_slice(text)?;
    out.extend_from_slice(b" ")?;
    write_hex(out, bytes)
}

/// Appends a line: `name`, a space and `n` in decimal. If memory runs out, the call returns an `AllocError`, and
/// `out` may then end in a part of the line.
#[tactic(auto, unfolding(crate::specs::TextParts::number_line))]
pub fn write_number_line(out: &mut Vec<u8>, name: &[u8], n: u64) -> Result<(), AllocError>
    ensures { OnOk result (out.new.items ≡ out.old.items ++ number_line name.now n) }
{
    write_with_number(out, name, n)?;
    out.extend_from_slice(b"\n")
}

/// Appends a line: `name`, a space and the signed number `n` in decimal.
#[tactic(auto, unfolding(crate::specs::TextParts::signed_line))]
pub(crate) fn write_signed_line(out: &mut Vec<u8>, name: &[u8], n: i64) -> Result<(), AllocError>
    ensures { OnOk result (out.new.items ≡ out.old.items ++ signed_line name.now n) }
{
    out.extend_from_slice(name)?;
    out.extend_from_slice(b" ")?;
    write_signed(out, n)?;
    out.extend_from_slice(b"\n")
}

/// Appends a line: `name`, a space and `bytes` in hex.
#[tactic(auto, unfolding(crate::specs::TextParts::hex_line))]
pub(crate) fn write_hex_line(out: &mut Vec<u8>, name: &[u8], bytes: &[u8]) -> Result<(), AllocError>
    ensures { OnOk result (out.new.items ≡ out.old.items ++ hex_line name.now bytes.now) }
{
    write_with_hex(out, name, bytes)?;
    out.extend_from_slice(b"\n")
}

/// Appends a line: `name`, a space, and `1` if `value` is true or `0` if it is false.
#[tactic(auto, unfolding(crate::specs::TextParts::flag_line))]
pub(crate) fn write_flag_line(out: &mut Vec<u8>, name: &[u8], value: bool) -> Result<(), AllocError>
    ensures { OnOk result (out.new.items ≡ out.old.items ++ flag_line name.now value) }
{
    out.extend_from_slice(name)?;
    out.extend_from_slice(b" ")?;
    out.extend_from_slice(flag(value))?;
    out.extend_from_slice(b"\n")
}

/// A text was not written completely, because a write failed or wrote no bytes, or because a flush failed.
#[derive(Clone, Copy, Debug, PartialEq, Eq, Error)]
#[error("a write failed")]
pub struct WriteError;

/// Writes all of `text` to `writer`, and flushes `writer`. After a `WriteError`, a prefix of `text` has been written,
/// which may be empty or all of it. Allocates no memory.
pub fn write_output<W: Write>(writer: &mut W, text: &[u8]) -> Result<(), WriteError>
    ensures done { OnOk result (Appends (W.contents writer.old) (W.contents writer.new) text.now) }
    ensures front { OnErr result
        (AppendsFront (W.contents writer.old) (W.contents writer.new) text.now) }
{
    let mut at = 0; // how many bytes of `text` have been written
    while at < text.len() {
        match writer.write(&text[at..]) {
            Err(_) => return Err(WriteError),
            Ok(0) => return Err(WriteError),
            Ok(n) => at += n,
        }
    }
    if writer.flush().is_err() {
        return Err(WriteError);
    }
    Ok(())
}
