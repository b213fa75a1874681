//! The tokens of a line, and the texts in quotes.

ghost use Rattle.std.specs.Prelude.{◌≡◌, IfOk, List, None, Option, ℕ, if◌then◌else◌};
ghost use Rattle.serf_write.specs.Texts.{escaped_of, text_within, with_escaped};

use hex::FromHexError;
use serf_text::split_once;
use serf_wire::Bytes;
use std::alloc::{AllocError, Global};

/// A token of a line, which is either a word between spaces, or a text in quotes.
///
/// If a quote directly follows a word that contains `=`, the quoted text is part of this word. A word of this kind
/// contains the text exactly as it is written in the line, including the quotes.
#[derive(Drop)]
pub enum Token {
    Word(Bytes),
    Text(Bytes),
}

/// Decodes `rest`, which contains the bytes after a backslash, and appends the decoded byte to `text`. `rest` has to
/// begin with an `x` and two hex digits. Returns whether `rest` begins in this way. If `rest` begins in any other way,
/// the function appends nothing.
fn read_escape(alloc: Global, rest: &[u8], text: &mut Vec<u8>) -> Result<bool, AllocError>
    ensures { IfOk result (λ is_put. (next : List ℕ → Option (List ℕ))
        → with_escaped text.old.items (escaped_of rest.now) next
        ≡ (if is_put then next text.new.items else None)) }
{
    if rest.len() < 3 || rest[0] != b'x' {
        return Ok(false);
    }
    match hex::decode(alloc, &rest[1..3]) {
        Ok(mut found) => {
            found.extend_from_slice(&rest[3..])?;
            text.extend_from_slice(&found)?;
            Ok(true)
        }
        Err(FromHexError::OutOfMemory) => Err(AllocError),
        Err(_) => Ok(false),
    }
}

/// Decodes `quoted`, the bytes between two quotes, and returns the resulting text. Returns `None` if a backslash in
/// `quoted` isn't followed by `x` and two hex digits.
#[tactic(auto, unfolding(crate::specs::Texts::text_within))]
pub(crate) fn text(alloc: Global, quoted: &[u8]) -> Result<Option<Bytes>, AllocError>
    ensures { IfOk result (λ found. found ≡ text_within quoted.now) }
{
    let (first, more) = split_once(quoted, b'\\');
    let mut text = Vec::from_slice(alloc, first)?;
    let Some(mut rest) = more else {
        return Ok(Some(Bytes::from_vec(text)));
    };
    'parts: loop {
        let (part, more) = split_once(rest, b'\\');
        if !read_escape(alloc, part, &mut text)? {
            return Ok(None);
        }
        match more {
            Some(next) => rest = next,
            None => return Ok(Some(Bytes::from_vec(text))),
        }
    }
}
