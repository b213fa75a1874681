//! Escapes arbitrary bytes for each kind of place in an HTML page.

ghost use Rattle.std.specs.Prelude.{◌≡◌, ◌++◌, ◌<◌, ℕ, List, OnOk, decimal, true};
ghost use Rattle.std.specs.List.{flat_map, list_all};
ghost use Rattle.serf_timeline.specs.Escape.{address, address_byte, data_byte, data_text, hex_digit as digit_of, html, html_byte, is_data, is_plain as is_plain_byte, is_text};

use itoa::Buffer;
use std::alloc::AllocError;
use std::slice;

/// Appends the number `n` in decimal.
pub(crate) fn write_number(out: &mut Vec<u8>, n: u64) -> Result<(), AllocError>
    ensures { OnOk result (out.new.items ≡ out.old.items ++ decimal n) }
{
    let mut buffer = Buffer::new();
    out.extend_from_slice(buffer.format(n).as_bytes())
}

/// Returns the escaped form of a byte in a text. For `&`, `<`, `>` and both quotes, the escaped form is an entity, and
/// any other byte is returned unchanged.
fn escaped(byte: &u8) -> &[u8]
    ensures { result.now ≡ html_byte byte.now }
{
    if *byte == b'&' {
        b"&amp;"
    } else if *byte == b'<' {
        b"&lt;"
    } else if *byte == b'>' {
        b"&gt;"
    } else if *byte == b'"' {
        b"&quot;"
    } else if *byte == b'\'' {
        b"&#39;"
    } else {
        slice::from_ref(byte)
    }
}

/// Appends `text`, escaped for use as text in the page or in an attribute.
pub(crate) fn write_html(out: &mut Vec<u8>, text: &[u8]) -> Result<(), AllocError>
    ensures { OnOk result (out.new.items ≡ out.old.items ++ html text.now) }
{
    for byte in text {
        out.extend_from_slice(escaped(byte))?;
    }
    Ok(())
}

/// Appends a byte of JSON data. The function writes a `<` as `\u003c`, because a `<` in JSON data is always inside a
/// JSON text.
fn write_data_byte(out: &mut Vec<u8>, byte: u8) -> Result<(), AllocError>
    ensures { OnOk result (out.new.items ≡ out.old.items ++ data_byte byte) }
{
    if byte == b'<' {
        return out.extend_from_slice(b"\\u003c");
    }
    out.push(byte)?;
    Ok(())
}

/// Appends JSON objects as data in the page.
pub(crate) fn write_data(out: &mut Vec<u8>, objects: &[u8]) -> Result<(), AllocError>
    ensures { OnOk result (out.new.items ≡ out.old.items ++ data_text objects.now) }
{
    for byte in objects {
        write_data_byte(out, *byte)?;
    }
    Ok(())
}

/// Returns the ASCII character, in upper case, of the hex digit `digit`.
fn hex_digit(digit: u8) -> u8
    requires { digit < 16 }
    ensures { result ≡ digit_of digit }
{
    if digit < 10 { 48 + digit } else { 55 + digit }
}

/// Returns whether a byte in an address is written unchanged. A byte is written unchanged if it is printable ASCII, and
/// is neither a space nor one of the characters `"#%&<>`.
fn is_plain(byte: u8) -> bool
    ensures { result ≡ is_plain_byte byte }
{
    32 < byte
        && byte < 127
        && byte != b'"'
        && byte != b'#'
        && byte != b'%'
        && byte != b'&'
        && byte != b'<'
        && byte != b'>'
}

/// Appends `byte` to an address. A plain byte is appended unchanged, and any other byte is appended as `%` and two hex
/// digits.
fn write_address_byte(out: &mut Vec<u8>, byte: u8) -> Result<(), AllocError>
    ensures { OnOk result (out.new.items ≡ out.old.items ++ address_byte byte) }
{
    if !is_plain(byte) {
        let (high, low) = (hex_digit(byte / 16), hex_digit(byte % 16));
        return out.extend_from_slice(&[b'%', high, low]);
    }
    out.push(byte)?;
    Ok(())
}

/// Appends the bytes of a file to the end of an address, so that the address contains the whole file.
pub(crate) fn write_address(out: &mut Vec<u8>, file: &[u8]) -> Result<(), AllocError>
    ensures { OnOk result (out.new.items ≡ out.old.items ++ address file.now) }
{
    for byte in file {
        write_address_byte(out, *byte)?;
    }
    Ok(())
}

/// States that no text in a page can begin or end an element or a quoted value, because an escaped text contains no
/// `<`, no `>` and no quote. Data in a page contains no `<`, so the data can't end the element that contains it. This
/// function does nothing; its contract is the law.
#[tactic(auto, using(crate::proofs::EscapeLemmas::all_text, crate::proofs::EscapeLemmas::all_data))]
pub fn escape_laws()
    ensures text { (text : List ℕ) → list_all is_text (html text) ≡ true }
    ensures objects { (objects : List ℕ) → list_all is_data (data_text objects) ≡ true }
{}
