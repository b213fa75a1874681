//! Writes texts between quotes, and texts in which each byte that isn't printable ASCII is shown in another way.

ghost use Rattle.std.specs.Prelude.{◌≡◌, ◌<◌, ◌++◌, length, OnOk};
ghost use Rattle.std.specs.List.{flat_map, list_all};
ghost use Rattle.serf_text.specs.Quoted.{byte_text, front_quoted, is_plain, is_printable, masked, masked_byte, quoted, quoted_byte, stands, whole_quoted};

use crate::put::{write_hex, write_number};
use std::alloc::AllocError;

/// The maximum length, in bytes, of a text that is shown in full.
const WHOLE: usize = 64;

/// The number of bytes that are shown of a text that is too long to be shown in full.
const FRONT: usize = 32;

/// Returns whether a byte is printable ASCII.
fn is_printable(byte: u8) -> bool
    ensures { result ≡ is_printable byte }
{
    32 <= byte && byte <= 126
}

/// Appends a byte if it is printable. Otherwise appends `\x` and the byte's two hex digits.
#[tactic(auto, unfolding(crate::specs::Quoted::byte_text))]
fn write_byte(out: &mut Vec<u8>, byte: u8) -> Result<(), AllocError>
    ensures { OnOk result (out.new.items ≡ out.old.items ++ byte_text byte) }
{
    if is_printable(byte) {
        return out.extend_from_slice(&[byte]);
    }
    out.extend_from_slice(b"\\x")?;
    write_hex(out, &[byte])
}

/// Returns whether all bytes are printable.
fn are_printable(bytes: &[u8]) -> bool
    ensures { result ≡ list_all is_printable bytes.now }
{
    bytes.iter().all(|byte| is_printable(*byte))
}

/// Appends `text`, with each byte that isn't printable escaped. A text that needs no escaping is appended in one
/// step.
pub fn write_printable(out: &mut Vec<u8>, text: &[u8]) -> Result<(), AllocError>
    ensures { OnOk result (out.new.items ≡ out.old.items ++ flat_map byte_text text.now) }
{
    if are_printable(text) {
        return out.extend_from_slice(text);
    }
    for byte in text {
        write_byte(out, *byte)?;
    }
    Ok(())
}

/// Appends a byte of a quoted text. A quote, a backslash or a byte that isn't printable is written as `\xNN`.
#[tactic(auto, unfolding(crate::specs::Quoted::quoted_byte))]
fn write_quoted_byte(out: &mut Vec<u8>, byte: u8) -> Result<(), AllocError>
    ensures { OnOk result (out.new.items ≡ out.old.items ++ quoted_byte byte) }
{
    if byte == b'"' || byte == b'\\' {
        out.extend_from_slice(b"\\x")?;
        write_hex(out, &[byte])
    } else {
        write_byte(out, byte)
    }
}

/// Returns whether a byte is left unchanged in a quoted text.
fn is_plain(byte: u8) -> bool
    ensures { result ≡ is_plain byte }
{
    is_printable(byte) && byte != b'"' && byte != b'\\'
}

/// Returns whether each of `bytes` is left unchanged in a quoted text: it is printable, and neither a quote nor a
/// backslash.
fn are_plain(bytes: &[u8]) -> bool
    ensures { result ≡ list_all is_plain bytes.now }
{
    bytes.iter().all(|byte| is_plain(*byte))
}

/// Appends the bytes of a quoted text, escaped if necessary. Bytes that need no escaping are appended in one step.
fn write_quoted_bytes(out: &mut Vec<u8>, bytes: &[u8]) -> Result<(), AllocError>
    ensures { OnOk result (out.new.items ≡ out.old.items ++ flat_map quoted_byte bytes.now) }
{
    if are_plain(bytes) {
        return out.extend_from_slice(bytes);
    }
    for byte in bytes {
        write_quoted_byte(out, *byte)?;
    }
    Ok(())
}

/// Appends the whole of `text` between quotes.
#[tactic(auto, unfolding(crate::specs::Quoted::whole_quoted))]
pub(crate) fn write_whole_quoted(out: &mut Vec<u8>, text: &[u8]) -> Result<(), AllocError>
    ensures { OnOk result (out.new.items ≡ out.old.items ++ whole_quoted text.now) }
{
    out.extend_from_slice(b"\"")?;
    write_quoted_bytes(out, text)?;
    out.extend_from_slice(b"\"")
}

/// Appends the first bytes of `text` between quotes, followed by the length of the text. The text is too long to be
/// shown in full.
#[tactic(auto, unfolding(crate::specs::Quoted::front_quoted))]
fn write_front(out: &mut Vec<u8>, text: &[u8]) -> Result<(), AllocError>
    requires { 64 < length text.now }
    ensures { OnOk result (out.new.items ≡ out.old.items ++ front_quoted text.now) }
{
    let (front, _rest) = text.split_at(FRONT);
    out.extend_from_slice(b"\"")?;
    write_quoted_bytes(out, front)?;
    out.extend_from_slice(b"..\" (")?;
    write_number(out, text.len() as u64)?;
    out.extend_from_slice(b" bytes)")
}

/// Appends a text between quotes. If it is long, only its beginning and its length are shown.
pub fn write_quoted(out: &mut Vec<u8>, text: &[u8]) -> Result<(), AllocError>
    ensures { OnOk result (out.new.items ≡ out.old.items ++ quoted text.now) }
{
    if text.len() <= WHOLE {
        write_whole_quoted(out, text)
    } else {
        write_front(out, text)
    }
}

/// Returns whether `text` is shown in full between quotes, with every byte unchanged.
pub fn stands(text: &[u8]) -> bool
    ensures { result ≡ stands text.now }
{
    text.len() <= WHOLE && are_plain(text)
}

/// Returns a byte if it is printable, and `?` otherwise.
fn masked_byte(byte: u8) -> u8
    ensures { result ≡ masked_byte byte }
{
    if is_printable(byte) { byte } else { b'?' }
}

/// Appends `text`, with a `?` for each byte that isn't printable.
pub(crate) fn write_masked(out: &mut Vec<u8>, text: &[u8]) -> Result<(), AllocError>
    ensures { OnOk result (out.new.items ≡ out.old.items ++ masked text.now) }
{
    for byte in text {
        out.push(masked_byte(*byte))?;
    }
    Ok(())
}
