//! Writes the lines that follow the answer in a reply.
ghost use Rattle.std.specs.Prelude.{◌≡◌, ◌++◌, OnOk, codes, if◌then◌else◌};
ghost use Rattle.serf_conform.specs.CallText.{flag_word, moment_words, number_word, texts_words};
ghost use Rattle.serf_conform.specs.ReplyText.{counted_ack_name, counted_response_name, line_text};

use crate::put::{
    write_flag_word, write_hex_word, write_moment_words, write_number_word, write_texts_words,
};
use crate::reply_line::ReplyLine;
use std::alloc::AllocError;

/// Returns the first two words of a `counted` line: `counted ack` if `is_ack` is true, and `counted response`
/// otherwise.
#[tactic(auto, unfolding(crate::specs::ReplyText::counted_ack_name, crate::specs::ReplyText::counted_response_name))]
fn counted_name(is_ack: bool) -> &'static [u8]
    ensures { result.now ≡ (if is_ack then counted_ack_name else counted_response_name) }
{
    if is_ack {
        b"counted ack"
    } else {
        b"counted response"
    }
}

/// Appends the first two words of a `counted` line ([`counted_name`]), followed by the query's `time` and `id`.
fn write_counted(out: &mut Vec<u8>, is_ack: bool, time: u64, id: u64) -> Result<(), AllocError>
    ensures { OnOk result (out.new.items ≡ out.old.items
        ++ (if is_ack then counted_ack_name else counted_response_name) ++ moment_words time id) }
{
    out.extend_from_slice(counted_name(is_ack))?;
    write_moment_words(out, time, id)
}

/// Appends the word `handed`, and then a query's `index`, `time` and `id`.
fn write_handed(out: &mut Vec<u8>, index: u64, time: u64, id: u64) -> Result<(), AllocError>
    ensures { OnOk result (out.new.items ≡ out.old.items ++ codes "handed" ++ number_word index
        ++ moment_words time id) }
{
    out.extend_from_slice(b"handed")?;
    write_number_word(out, index)?;
    write_moment_words(out, time, id)
}

/// Appends the line of an event that was handed out: the word `event`, the event's `time`, its `name` and `payload` in
/// hex, and `coalesce` as `1` or `0`.
fn write_event(
    out: &mut Vec<u8>,
    time: u64,
    name: &[u8],
    payload: &[u8],
    coalesce: bool,
) -> Result<(), AllocError>
    ensures { OnOk result (out.new.items ≡ out.old.items ++ codes "event" ++ number_word time
        ++ texts_words name.now payload.now ++ flag_word coalesce) }
{
    out.extend_from_slice(b"event")?;
    write_number_word(out, time)?;
    write_texts_words(out, name, payload)?;
    write_flag_word(out, coalesce)
}

/// Appends the text of `line`, without a newline.
///
/// If memory runs out, which is the only reason for an `AllocError`, only a part of the text may have been appended to
/// `out`.
pub fn write_reply_line(out: &mut Vec<u8>, line: &ReplyLine) -> Result<(), AllocError>
    ensures { OnOk result (out.new.items ≡ out.old.items ++ line_text line.now) }
{
    match line {
        ReplyLine::Sent(packet) => {
            out.extend_from_slice(b"sent")?;
            write_hex_word(out, packet.as_slice())
        }
        ReplyLine::Event {
            time,
            name,
            payload,
            coalesce,
        } => write_event(out, *time, name.as_slice(), payload.as_slice(), *coalesce),
        ReplyLine::DeliveredQuery {
            index,
            time,
            id,
            name,
            payload,
        } => {
            write_handed(out, *index, *time, *id)?;
            write_texts_words(out, name.as_slice(), payload.as_slice())
        }
        ReplyLine::CountedAck { time, id, from } => {
            write_counted(out, true, *time, *id)?;
            write_hex_word(out, from.as_slice())
        }
        ReplyLine::CountedResponse {
            time,
            id,
            from,
            payload,
        } => {
            write_counted(out, false, *time, *id)?;
            write_texts_words(out, from.as_slice(), payload.as_slice())
        }
        ReplyLine::Kept(text) => {
            out.extend_from_slice(b"kept")?;
            write_hex_word(out, text.as_slice())
        }
    }
}
