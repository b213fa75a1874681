//! Checks whether a reply means the same as the expected reply. Packets are compared by the messages that they spell,
//! and everything else is compared byte by byte.

ghost use Rattle.std.specs.Prelude.{◌≡◌, ◌++◌, IfOk, OnOk};
ghost use Rattle.std.specs.List.{flat_map};
ghost use Rattle.std.specs.Option.{option_map};
ghost use Rattle.std.specs.Str.{bytes_eq};
ghost use Rattle.serf_wire.specs.Decoded.{decoded};
ghost use Rattle.serf_wire.specs.Lists.{slot_of_view, slots_left, status_left, texts_left};
ghost use Rattle.serf_wire.specs.Message.{message_of};
ghost use Rattle.serf_conform.specs.Reply.{said_in};
ghost use Rattle.serf_conform.specs.ReplyText.{line_text as text_of};
ghost use Rattle.serf_conform.specs.Meaning.{are_same, held_lines, line_means as means, lines_mean, meaning_of, meaning_text, packet_means, reply_means as replies_mean, spell_same, state_lines};

use crate::reply::Reply;
use crate::reply_line::ReplyLine;
use crate::reply_text::write_reply_line;
use serf_text::{write_members, write_message, write_number_line, write_slot};
use serf_wire::{Message, PushPull, SlotView, SlotViews, decode};
use std::alloc::{AllocError, Global};

/// Appends the lines of `slot`, a slot of a state, with 0 in place of the slot's number. If the slot is empty, appends
/// nothing.
fn write_full_slot(out: &mut Vec<u8>, slot: &SlotView) -> Result<(), AllocError>
    ensures { OnOk result (out.new.items ≡ out.old.items ++ held_lines (slot_of_view slot.now)) }
{
    match slot {
        SlotView::Empty => Ok(()),
        _ => write_slot(out, 0, slot),
    }
}

/// Appends the lines of each slot in `slots` that isn't empty, with 0 in place of the slot's number.
fn write_full_slots(out: &mut Vec<u8>, slots: SlotViews) -> Result<(), AllocError>
    ensures { OnOk result (out.new.items ≡ out.old.items
        ++ flat_map held_lines (slots_left slots.entry)) }
{
    for slot in slots {
        write_full_slot(out, &slot)?;
    }
    Ok(())
}

/// Appends the text of `state`, but leaves out the empty slots, and writes 0 in place of the number of every other
/// slot.
#[tactic(auto, unfolding(crate::specs::Meaning::state_lines))]
fn write_state(out: &mut Vec<u8>, state: &PushPull) -> Result<(), AllocError>
    ensures { OnOk result (out.new.items ≡ out.old.items ++ state_lines state.now.member_clock
        (status_left state.now.status) (texts_left state.now.left)
        state.now.event_clock (slots_left state.now.slots) state.now.query_clock) }
{
    write_members(out, state)?;
    write_number_line(out, b"EventLTime", state.event_clock)?;
    write_full_slots(out, state.slots)?;
    write_number_line(out, b"QueryLTime", state.query_clock)
}

/// Appends the meaning of `message`, which is the text of its fields. If the message is a state, the text leaves out
/// the empty slots.
fn write_meaning(out: &mut Vec<u8>, message: &Message) -> Result<(), AllocError>
    ensures { OnOk result (out.new.items ≡ out.old.items ++ meaning_text (message_of message.now)) }
{
    match message {
        Message::PushPull(state) => write_state(out, state),
        _ => write_message(out, message),
    }
}

/// Returns the meaning of the message that `packet` spells ([`write_meaning`]), or `None` if the packet doesn't spell a
/// message.
fn meaning(alloc: Global, packet: &[u8]) -> Result<Option<Vec<u8>>, AllocError>
    ensures { IfOk result (λ found. option_map (λ v. v.items) found
        ≡ meaning_of (decoded packet.now)) }
{
    match decode(packet) {
        Ok(message) => {
            let mut out = Vec::new(alloc);
            write_meaning(&mut out, &message)?;
            Ok(Some(out))
        }
        Err(_) => Ok(None),
    }
}

/// Returns whether `one` and `other` contain the same bytes.
fn is_equal(one: &[u8], other: &[u8]) -> bool
    ensures { result ≡ bytes_eq one.now other.now }
{
    one == other
}

/// Returns whether the packets `one` and `other` spell messages with the same meaning.
fn have_same_meaning(alloc: Global, one: &[u8], other: &[u8]) -> Result<bool, AllocError>
    ensures { IfOk result (λ b. b ≡ spell_same one.now other.now) }
{
    let Some(wanted) = meaning(alloc, one)? else {
        return Ok(false);
    };
    let Some(got) = meaning(alloc, other)? else {
        return Ok(false);
    };
    Ok(is_equal(&wanted, &got))
}

/// Returns whether the packet `got` agrees with the expected packet `wanted`. If `wanted` equals `given`, then `got`
/// has to equal `wanted` byte for byte. Otherwise, the messages in `wanted` and `got` have to mean the same.
fn is_wanted_packet(
    alloc: Global,
    given: &[u8],
    wanted: &[u8],
    got: &[u8],
) -> Result<bool, AllocError>
    ensures { IfOk result (λ b. b ≡ packet_means given.now wanted.now got.now) }
{
    if is_equal(wanted, given) {
        return Ok(is_equal(wanted, got));
    }
    have_same_meaning(alloc, wanted, got)
}

/// Returns the text of `line`, without a newline.
fn line_text(alloc: Global, line: &ReplyLine) -> Result<Vec<u8>, AllocError>
    ensures { IfOk result (λ text. text.items ≡ text_of line.now) }
{
    let mut out = Vec::new(alloc);
    write_reply_line(&mut out, line)?;
    Ok(out)
}

/// Returns whether `got`, a line of a reply, means the same as the expected line `wanted`. `given` is the packet that
/// the call carried, and is empty if the call carried none.
///
/// If the packet in `wanted` is `given`, the agent passed this packet on, so `got` has to contain exactly the same
/// bytes. If `wanted` contains any other packet, the packet in `got` has to spell a message with equal fields, apart
/// from the empty slots of a state. In a line without a packet, all values have to be equal. Returns an `AllocError`
/// only if there isn't enough memory for the texts that are compared.
pub fn line_means(
    alloc: Global,
    given: &[u8],
    wanted: &ReplyLine,
    got: &ReplyLine,
) -> Result<bool, AllocError>
    ensures { IfOk result (λ b. b ≡ means given.now wanted.now got.now) }
{
    match wanted {
        ReplyLine::Sent(packet) => match got {
            ReplyLine::Sent(other) => {
                is_wanted_packet(alloc, given, packet.as_slice(), other.as_slice())
            }
            _ => Ok(false),
        },
        _ => {
            let wanted = line_text(alloc, wanted)?;
            let got = line_text(alloc, got)?;
            Ok(is_equal(&wanted, &got))
        }
    }
}

/// Returns whether `got` has as many lines as `wanted`, and each line in `got` means the same as the line in the same
/// position in `wanted` ([`line_means`]).
fn lines_agree(
    alloc: Global,
    given: &[u8],
    wanted: &[ReplyLine],
    got: &[ReplyLine],
) -> Result<bool, AllocError>
    ensures { IfOk result (λ b. b ≡ lines_mean given.now wanted.now got.now) }
{
    let mut wanted = wanted;
    let mut got = got;
    'lines: loop {
        match wanted {
            [] => return Ok(got.is_empty()),
            [wanted_line, wanted_left @ ..] => match got {
                [] => return Ok(false),
                [got_line, got_left @ ..] => {
                    if !line_means(alloc, given, wanted_line, got_line)? {
                        return Ok(false);
                    }
                    wanted = wanted_left;
                    got = got_left;
                }
            },
        }
    }
}

/// Returns whether the reply `got` means the same as the expected reply `wanted`. The two replies have to have equal
/// answers and the same number of lines, and the lines in each position have to mean the same ([`line_means`]). `given`
/// is the packet that the call carried, and is empty if the call carried none.
///
/// Returns an `AllocError` only if there isn't enough memory for the texts that are compared.
pub fn reply_means(
    alloc: Global,
    given: &[u8],
    wanted: &Reply,
    got: &Reply,
) -> Result<bool, AllocError>
    ensures { IfOk result (λ b. b ≡ replies_mean given.now (said_in wanted.now) (said_in got.now)) }
{
    if !is_equal(wanted.answer.as_slice(), got.answer.as_slice()) {
        return Ok(false);
    }
    lines_agree(alloc, given, wanted.lines.as_slice(), got.lines.as_slice())
}
