//! Escapes arbitrary bytes for the text of an SVG file.

ghost use Rattle.std.specs.Prelude.{◌≡◌, ◌++◌, ℕ, List, OnOk, true};
ghost use Rattle.serf_draw.specs.Escape.{escape, escaped_byte, is_safe};
ghost use Rattle.std.specs.List.{list_all};

use crate::filled::write_each;
use std::alloc::AllocError;
use std::slice;

/// Returns the escaped form of a byte. For `&`, `<`, `>` and both quotes, the escaped form is an entity. For a byte
/// that isn't printable ASCII, the escaped form is the entity of the replacement character. Any other byte is returned
/// unchanged.
fn escaped(byte: &u8) -> &[u8]
    ensures { result.now ≡ escaped_byte byte.now }
{
    if *byte == b'&' {
        b"&amp;"
    } else if *byte == b'<' {
        b"&lt;"
    } else if *byte == b'>' {
        b"&gt;"
    } else if *byte == b'"' {
        b"&quot;"
    } else if *byte == b'\'' {
        b"&#39;"
    } else if *byte < 32 || 126 < *byte {
        b"&#65533;"
    } else {
        slice::from_ref(byte)
    }
}

/// Appends the escaped form of a byte.
fn write_escaped_byte(out: &mut Vec<u8>, byte: &u8) -> Result<(), AllocError>
    ensures { OnOk result (out.new.items ≡ out.old.items ++ escaped_byte byte.now) }
{
    out.extend_from_slice(escaped(byte))
}

/// Appends arbitrary bytes, escaped so that no byte can end the text that contains it. Each byte becomes one character
/// in the picture. If memory runs out (`AllocError`), only a prefix of the escaped text may have been appended to
/// `out`.
pub fn write_escaped(out: &mut Vec<u8>, text: &[u8]) -> Result<(), AllocError>
    ensures { OnOk result (out.new.items ≡ out.old.items ++ escape text.now) }
{
    write_each(out, text, write_escaped_byte)
}

/// States that escaped text can't begin or end a tag or a quoted value, because the text consists of printable ASCII
/// and contains no `<`, no `>` and no quote. By definition, each `&` in an escaped text begins one of six entities.
/// This function does nothing; its contract is the law.
#[tactic(auto, using(crate::proofs::EscapeLemmas::all_safe))]
pub fn escape_laws()
    ensures safe { (text : List ℕ) → list_all is_safe (escape text) ≡ true }
{}
