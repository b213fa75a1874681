//! Decodes the words in a log.

ghost use Rattle.std.specs.Prelude.{◌≡◌, IfOk};
ghost use Rattle.serf_judge.specs.HandedAgain.{unescaped};

use percent_encoding::percent_decode;
use std::alloc::{AllocError, Global};

/// Returns the text that a word in a handler's log encodes: `%` and two hex digits encode one byte, and a single `-`
/// encodes the empty text.
pub(crate) fn unescaped(alloc: Global, word: &[u8]) -> Result<Vec<u8>, AllocError>
    ensures { IfOk result (λ text. text.items ≡ unescaped word.now) }
{
    let mut text = Vec::new(alloc);
    if word == b"-".as_slice() {
        return Ok(text);
    }
    percent_decode(word).append_to(&mut text)?;
    Ok(text)
}
