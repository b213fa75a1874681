//! Appends the words of calls and replies, each with a space before it.
ghost use Rattle.std.specs.Prelude.{◌≡◌, ◌++◌, OnOk};
ghost use Rattle.serf_conform.specs.CallText.{flag_word, hex_word, moment_words, number_word, texts_words};

use serf_text::{flag, write_hex, write_number};
use std::alloc::AllocError;

/// Appends a space and `n` in decimal.
#[tactic(auto, unfolding(crate::specs::CallText::number_word))]
pub(crate) fn write_number_word(out: &mut Vec<u8>, n: u64) -> Result<(), AllocError>
    ensures { OnOk result (out.new.items ≡ out.old.items ++ number_word n) }
{
    out.extend_from_slice(b" ")?;
    write_number(out, n)
}

/// Appends a space and `bytes` in hex, or `-` if `bytes` is empty.
#[tactic(auto, unfolding(crate::specs::CallText::hex_word))]
pub(crate) fn write_hex_word(out: &mut Vec<u8>, bytes: &[u8]) -> Result<(), AllocError>
    ensures { OnOk result (out.new.items ≡ out.old.items ++ hex_word bytes.now) }
{
    out.extend_from_slice(b" ")?;
    write_hex(out, bytes)
}

/// Appends a space, and then `1` if `value` is true or `0` if `value` is false.
#[tactic(auto, unfolding(crate::specs::CallText::flag_word))]
pub(crate) fn write_flag_word(out: &mut Vec<u8>, value: bool) -> Result<(), AllocError>
    ensures { OnOk result (out.new.items ≡ out.old.items ++ flag_word value) }
{
    out.extend_from_slice(b" ")?;
    out.extend_from_slice(flag(value))
}

/// Appends `name` and `payload` in hex, each with a space before it.
#[tactic(auto, unfolding(crate::specs::CallText::texts_words))]
pub(crate) fn write_texts_words(
    out: &mut Vec<u8>,
    name: &[u8],
    payload: &[u8],
) -> Result<(), AllocError>
    ensures { OnOk result (out.new.items ≡ out.old.items ++ texts_words name.now payload.now) }
{
    write_hex_word(out, name)?;
    write_hex_word(out, payload)
}

/// Appends a query's Lamport time `time` and its ID `id`, each with a space before it.
#[tactic(auto, unfolding(crate::specs::CallText::moment_words))]
pub(crate) fn write_moment_words(out: &mut Vec<u8>, time: u64, id: u64) -> Result<(), AllocError>
    ensures { OnOk result (out.new.items ≡ out.old.items ++ moment_words time id) }
{
    write_number_word(out, time)?;
    write_number_word(out, id)
}
