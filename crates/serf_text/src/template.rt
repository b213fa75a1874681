//! Templates are texts with blanks (`~`), which are filled with parts.

ghost use Rattle.std.specs.Prelude.{◌≡◌, ◌++◌, ◌∷◌, List, IfOk, OnOk};
ghost use Rattle.serf_text.specs.Template.{filled};

use crate::part::Part;
use crate::put::{write_hex, write_number};
use crate::quoted::{write_masked, write_quoted, write_whole_quoted};
use crate::words::place_of;
use std::alloc::AllocError;

/// A part that fills a blank of a template. [`Part`] has the parts that most templates need, and a crate can have its
/// own types.
///
/// In contracts, `text part` is the text with which `part` fills a blank.
pub trait TemplatePart {
    ghost use Rattle.std.specs.Prelude.{◌≡◌, ◌++◌, List, ℕ, OnOk};

    ghost text: { Self → List ℕ };

    /// Appends the text of this part. If memory runs out, the call returns an `AllocError`, and `out` may then end in
    /// a prefix of the text.
    fn write_to(&self, out: &mut Vec<u8>) -> Result<(), AllocError>
        ensures { OnOk result (out.new.items ≡ out.old.items ++ text self.now) };
}

impl TemplatePart for Part<'_> {
    ghost use Rattle.serf_text.specs.Template.{part_text};

    ghost text = { part_text };

    fn write_to(&self, out: &mut Vec<u8>) -> Result<(), AllocError> {
        match *self {
            Part::Text(text) => out.extend_from_slice(text),
            Part::Number(number) => write_number(out, number),
            Part::Hex(bytes) => write_hex(out, bytes),
            Part::Quoted(text) => write_quoted(out, text),
            Part::WholeQuoted(text) => write_whole_quoted(out, text),
            Part::Masked(text) => write_masked(out, text),
        }
    }
}

/// Appends the part of `text` before its first blank, and then `part` in place of the blank. Returns the rest of
/// `text` after the blank, or no bytes if `text` has no blank.
#[inline(always)]
fn write_next<'a, P: TemplatePart>(
    out: &mut Vec<u8>,
    text: &'a [u8],
    part: &P,
) -> Result<&'a [u8], AllocError>
    ensures { IfOk result (λ rest. (parts : List P)
        → out.new.items ++ filled P.text rest.now parts
        ≡ out.old.items ++ filled P.text text.entry.now (part.now ∷ parts)) }
{
    match place_of(text, b'~') {
        Some(at) => {
            out.extend_from_slice(&text[..at])?;
            part.write_to(out)?;
            Ok(&text[at + 1..])
        }
        None => {
            out.extend_from_slice(text)?;
            Ok(&[])
        }
    }
}

/// Appends `template` with its blanks (`~`) filled by `parts`, one after another. If there are more parts than
/// blanks, the other parts are dropped. If there are more blanks than parts, the other blanks stay as they are. If
/// memory runs out, the call returns an `AllocError`, and `out` may then end in a prefix of the text.
pub fn write_template<P: TemplatePart>(
    out: &mut Vec<u8>,
    template: &[u8],
    parts: &[P],
) -> Result<(), AllocError>
    ensures { OnOk result (out.new.items
        ≡ out.old.items ++ filled P.text template.entry.now parts.now) }
{
    let mut rest = template;
    for part in parts {
        rest = write_next(out, rest, part)?;
    }
    out.extend_from_slice(rest)
}
