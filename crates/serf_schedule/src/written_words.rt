//! Writes the words of a line.

ghost use Rattle.std.specs.Prelude.{◌≡◌, ◌++◌, ◌∷◌, OnOk, map};
ghost use Rattle.serf_text.specs.TextParts.{hex_text};
ghost use Rattle.serf_schedule.specs.ScheduleText.{flags_of, join_word, line_text, sink_call_word, spaced};
ghost use Rattle.serf_schedule.specs.Words.{word_after, word_text};

use serf_agent::QueryParams;
use serf_model::SinkCall;
use serf_text::{write_hex, write_number, write_signed};
use serf_wire::Bytes;
use std::alloc::AllocError;

/// A word of a line, after its command.
#[derive(Clone, Copy)]
pub enum Word<'a> {
    /// A number in decimal.
    Number(u64),
    /// A signed number in decimal.
    Signed(i64),
    /// Bytes in lower case hex, or a dash for none.
    Hex(&'a [u8]),
    /// This text, unchanged.
    Plain(&'a [u8]),
}

/// Appends a space and `word`.
fn write_word(out: &mut Vec<u8>, word: Word) -> Result<(), AllocError>
    ensures { OnOk result (out.new.items ≡ out.old.items ++ word_after word.entry) }
{
    out.extend_from_slice(b" ")?;
    match word {
        Word::Number(n) => write_number(out, n),
        Word::Signed(n) => write_signed(out, n),
        Word::Hex(bytes) => write_hex(out, bytes),
        Word::Plain(text) => out.extend_from_slice(text),
    }
}

/// Appends `words`, with a space before each word.
pub(crate) fn write_words(out: &mut Vec<u8>, words: &[Word]) -> Result<(), AllocError>
    ensures { OnOk result (out.new.items ≡ out.old.items ++ spaced (map word_text words.now)) }
{
    for word in words {
        write_word(out, *word)?;
    }
    Ok(())
}

/// Appends a line: `command`, and then `words` with a space before each word.
pub fn write_line(out: &mut Vec<u8>, command: &[u8], words: &[Word]) -> Result<(), AllocError>
    ensures { OnOk result (out.new.items ≡ out.old.items
        ++ line_text (command.now ∷ map word_text words.now)) }
{
    out.extend_from_slice(command)?;
    write_words(out, words)?;
    out.extend_from_slice(b"\n")
}

/// Appends each of `lists` as a word in hex, with a space before it.
pub(crate) fn write_hex_words(out: &mut Vec<u8>, lists: &[Bytes]) -> Result<(), AllocError>
    ensures { OnOk result (out.new.items ≡ out.old.items ++ spaced (map hex_text lists.now)) }
{
    for list in lists {
        write_word(out, Word::Hex(list.as_slice()))?;
    }
    Ok(())
}

/// Returns the word that says whether a merge is a join.
pub(crate) fn join(join: bool) -> &'static [u8]
    ensures { result.now ≡ join_word join }
{
    if join { b"join" } else { b"sync" }
}

/// Returns the word that names the sink call `call`.
pub(crate) fn sink_call(call: SinkCall) -> &'static [u8]
    ensures { result.now ≡ sink_call_word call }
{
    match call {
        SinkCall::Append => b"append",
        SinkCall::Flush => b"flush",
        SinkCall::ReplaceOld => b"replace-old",
        SinkCall::ReplaceNew => b"replace-new",
    }
}

/// Returns the number that stands for a query's flags in its line: 1 requests acks, 2 means no broadcast, and 3 means
/// both.
pub(crate) fn flags(params: &QueryParams) -> u64
    ensures { result ≡ flags_of params.now }
{
    let ack = if params.want_ack { 1 } else { 0 };
    let no_broadcast = if params.no_broadcast { 2 } else { 0 };
    ack + no_broadcast // (each bit is one of the flags)
}
