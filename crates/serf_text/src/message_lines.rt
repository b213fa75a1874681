//! Writes the text of a packet's message: a line for its type and one line for each field, with Serf's names. Each
//! `write_..` function appends lines to `out`. If memory runs out, it returns an `AllocError`, and `out` may then
//! contain a part of the lines.
ghost use Rattle.std.specs.Prelude.{◌≡◌, ◌++◌, OnOk, IfOk, Ok, Err};
ghost use Rattle.std.specs.List.{flat_map};
ghost use Rattle.serf_wire.specs.declared.error.WireError.{WireError as DeclaredError};
ghost use Rattle.serf_wire.specs.Lists.{events_left, event_of_view, slot_of_view, slots_left, status_left, status_of, texts_left};
ghost use Rattle.serf_wire.specs.Message.{Message as Meaning, event_said, message_of, push_pull, push_pull_said, query, query_response, query_said, response_said, user_event};
ghost use Rattle.serf_wire.specs.Spells.{IsFirstError, Spells};
ghost use Rattle.serf_wire.specs.Decoded.{decoded};
ghost use Rattle.serf_text.specs.declared.wire_words.WireWords.{WireWords as Words};
ghost use Rattle.serf_text.specs.declared.message_lines.DecodeTextError.TheVariants.{Refused};
ghost use Rattle.serf_text.specs.TextParts.{hex_line};
ghost use Rattle.serf_text.specs.MessageText.{identity_lines, asker_lines, relay_line, limit_lines, response_name, handling_lines, answer_lines, content_lines, status_line, member_lines, event_line, slot_lines, slots_lines, buffer_lines, push_pull_head, query_head, message_text, text_or_error};

use crate::put::{
    write_flag_line, write_hex_line, write_number_line, write_signed_line, write_with_hex,
    write_with_number, write_with_numbers,
};
use crate::wire_words::WireWords;
use serf_wire::{
    EventView, EventViews, Message, PushPull, Query, QueryResponse, SlotView, SlotViews,
    StatusTime, StatusTimes, Texts, UserEvent, decode,
};
use std::alloc::{AllocError, Global};
use thiserror::Error;

/// Why a packet couldn't be turned into a text.
#[derive(Clone, Copy, Debug, PartialEq, Eq, Error)]
pub enum DecodeTextError {
    /// The packet isn't a message. This is the packet's first error.
    #[error("the packet is not a Serf message: {0}")]
    Refused(WireWords),
    /// Memory ran out for the text.
    #[error("out of memory")]
    OutOfMemory,
}

/// Appends the lines `LTime` and `ID`. They contain the time and the ID of a query, or of the query that a response
/// answers.
#[tactic(auto, unfolding(crate::specs::MessageText::identity_lines))]
fn write_identity(out: &mut Vec<u8>, time: u64, id: u32) -> Result<(), AllocError>
    ensures { OnOk result (out.new.items ≡ out.old.items ++ identity_lines time id) }
{
    write_number_line(out, b"LTime", time)?;
    write_number_line(out, b"ID", u64::from(id))
}

/// Appends the lines `Addr`, `Port` and `SourceNode` of the query `asked`. They contain the address for its answers,
/// and the node that fired it.
#[tactic(auto, unfolding(crate::specs::MessageText::asker_lines))]
fn write_origin(out: &mut Vec<u8>, asked: &Query) -> Result<(), AllocError>
    ensures { OnOk result (out.new.items ≡ out.old.items
        ++ asker_lines asked.now.addr.now asked.now.port asked.now.source.now) }
{
    write_hex_line(out, b"Addr", asked.addr)?;
    write_number_line(out, b"Port", u64::from(asked.port))?;
    write_hex_line(out, b"SourceNode", asked.source)
}

/// Appends the line `RelayFactor`, which contains the number of nodes that should relay an answer.
#[tactic(auto, unfolding(crate::specs::MessageText::relay_line))]
fn write_relay(out: &mut Vec<u8>, relay_factor: u8) -> Result<(), AllocError>
    ensures { OnOk result (out.new.items ≡ out.old.items ++ relay_line relay_factor) }
{
    write_number_line(out, b"RelayFactor", u64::from(relay_factor))
}

/// Appends the lines `RelayFactor` and `Timeout` of the query `asked`.
#[tactic(auto, unfolding(crate::specs::MessageText::limit_lines))]
fn write_limits(out: &mut Vec<u8>, asked: &Query) -> Result<(), AllocError>
    ensures { OnOk result (out.new.items ≡ out.old.items
        ++ limit_lines asked.now.relay_factor asked.now.timeout) }
{
    write_relay(out, asked.relay_factor)?;
    write_signed_line(out, b"Timeout", asked.timeout)
}

/// Appends the lines `Flags`, `RelayFactor` and `Timeout` of the query `asked`.
#[tactic(auto, unfolding(crate::specs::MessageText::handling_lines))]
fn write_handling(out: &mut Vec<u8>, asked: &Query) -> Result<(), AllocError>
    ensures { OnOk result (out.new.items ≡ out.old.items
        ++ handling_lines asked.now.flags asked.now.relay_factor asked.now.timeout) }
{
    write_number_line(out, b"Flags", u64::from(asked.flags))?;
    write_limits(out, asked)
}

/// Appends the lines `From`, `Flags` and `Payload` of `response`, which may be an ack.
#[tactic(auto, unfolding(crate::specs::MessageText::answer_lines))]
fn write_answer(out: &mut Vec<u8>, response: &QueryResponse) -> Result<(), AllocError>
    ensures { OnOk result (out.new.items ≡ out.old.items
        ++ answer_lines response.now.from.now response.now.flags response.now.payload.now) }
{
    write_hex_line(out, b"From", response.from)?;
    write_number_line(out, b"Flags", u64::from(response.flags))?;
    write_hex_line(out, b"Payload", response.payload)
}

/// Appends the lines `Name` and `Payload`, in hex.
#[tactic(auto, unfolding(crate::specs::MessageText::content_lines))]
fn write_content(out: &mut Vec<u8>, name: &[u8], payload: &[u8]) -> Result<(), AllocError>
    ensures { OnOk result (out.new.items ≡ out.old.items ++ content_lines name.now payload.now) }
{
    write_hex_line(out, b"Name", name)?;
    write_hex_line(out, b"Payload", payload)
}

/// Appends a line for each of `texts`. Each line contains the word `name` and the text in hex.
fn write_hex_lines(out: &mut Vec<u8>, name: &[u8], texts: Texts) -> Result<(), AllocError>
    ensures { OnOk result (out.new.items ≡ out.old.items
        ++ flat_map (hex_line name.now) (texts_left texts.entry)) }
{
    for text in texts {
        write_hex_line(out, name, text)?;
    }
    Ok(())
}

/// Appends the line `status`, which contains a member's name in hex and the time of the member's status.
#[tactic(auto, unfolding(crate::specs::MessageText::status_line, crate::specs::TextParts::with_number))]
fn write_status_line(out: &mut Vec<u8>, status: StatusTime) -> Result<(), AllocError>
    ensures { OnOk result (out.new.items ≡ out.old.items ++ status_line (status_of status.entry)) }
{
    write_with_hex(out, b"status", status.name)?;
    write_with_number(out, b"", status.time)?;
    out.extend_from_slice(b"\n")
}

/// Appends a line `status` for each member in `status`. It contains the member's name in hex and the time of the
/// member's status.
fn write_status_lines(out: &mut Vec<u8>, status: StatusTimes) -> Result<(), AllocError>
    ensures { OnOk result (out.new.items ≡ out.old.items
        ++ flat_map status_line (status_left status.entry)) }
{
    for entry in status {
        write_status_line(out, entry)?;
    }
    Ok(())
}

/// Appends those lines of the push/pull `state` that precede its event clock: the member clock (`LTime`), the status
/// time of each member (`status`), and each member that left (`left`). If memory runs out, the call returns an
/// `AllocError`, and `out` may then end in a part of these lines.
#[tactic(auto, unfolding(crate::specs::MessageText::member_lines))]
pub fn write_members(out: &mut Vec<u8>, state: &PushPull) -> Result<(), AllocError>
    ensures { OnOk result (out.new.items ≡ out.old.items ++ member_lines state.now.member_clock
        (status_left state.now.status) (texts_left state.now.left)) }
{
    write_number_line(out, b"LTime", state.member_clock)?;
    write_status_lines(out, state.status)?;
    write_hex_lines(out, b"left", state.left)
}

/// Appends the line `event`, which contains the name and the payload of an event in a slot, both in hex.
#[tactic(auto, unfolding(crate::specs::MessageText::event_line, crate::specs::TextParts::with_hex))]
fn write_event_line(out: &mut Vec<u8>, event: EventView) -> Result<(), AllocError>
    ensures { OnOk result (out.new.items ≡ out.old.items
        ++ event_line (event_of_view event.entry)) }
{
    write_with_hex(out, b"event", event.name)?;
    write_with_hex(out, b"", event.payload)?;
    out.extend_from_slice(b"\n")
}

/// Appends a line `event` for each of the `events` of a slot.
fn write_event_lines(out: &mut Vec<u8>, events: EventViews) -> Result<(), AllocError>
    ensures { OnOk result (out.new.items ≡ out.old.items
        ++ flat_map event_line (events_left events.entry)) }
{
    for event in events {
        write_event_line(out, event)?;
    }
    Ok(())
}

/// Appends the lines of `slot`. The first line contains `number`, the slot's number in the push/pull, and then `nil`
/// or the slot's time. A line for each event follows. If memory runs out, the call returns an `AllocError`, and `out`
/// may then end in a part of these lines.
#[tactic(auto, unfolding(crate::specs::MessageText::slot_lines))]
pub fn write_slot(out: &mut Vec<u8>, number: u64, slot: &SlotView) -> Result<(), AllocError>
    ensures { OnOk result (out.new.items ≡ out.old.items
        ++ slot_lines number (slot_of_view slot.now)) }
{
    match slot {
        SlotView::Empty => {
            write_with_number(out, b"slot", number)?;
            out.extend_from_slice(b" nil\n")
        }
        SlotView::Single(time, event) => {
            write_with_numbers(out, b"slot", number, time.get())?;
            out.extend_from_slice(b"\n")?;
            write_event_line(out, *event)
        }
        SlotView::Held(time, events) => {
            write_with_numbers(out, b"slot", number, time.get())?;
            out.extend_from_slice(b"\n")?;
            write_event_lines(out, *events)
        }
    }
}

/// Appends the lines of `slots`. The slots are numbered from 0.
fn write_slots(out: &mut Vec<u8>, slots: SlotViews) -> Result<(), AllocError>
    ensures { OnOk result (out.new.items ≡ out.old.items
        ++ slots_lines 0 (slots_left slots.entry)) }
{
    let mut number: u64 = 0; // the number of the slot
    for slot in slots {
        write_slot(out, number, &slot)?;
        number += 1;
    }
    Ok(())
}

/// Appends the line `EventLTime`, which contains the value `time` of the event clock, and then the lines of the event
/// buffer's `slots`.
#[tactic(auto, unfolding(crate::specs::MessageText::buffer_lines))]
fn write_buffer(out: &mut Vec<u8>, time: u64, slots: SlotViews) -> Result<(), AllocError>
    ensures { OnOk result (out.new.items ≡ out.old.items
        ++ buffer_lines time (slots_left slots.entry)) }
{
    write_number_line(out, b"EventLTime", time)?;
    write_slots(out, slots)
}

/// Appends `queryResponse`, the first line of a response or an ack.
#[tactic(auto, unfolding(crate::specs::MessageText::response_name))]
fn write_response_name(out: &mut Vec<u8>) -> Result<(), AllocError>
    ensures { OnOk result (out.new.items ≡ out.old.items ++ response_name) }
{
    out.extend_from_slice(b"queryResponse\n")
}

/// Appends all lines of the user event `event`.
fn write_user_event(out: &mut Vec<u8>, event: &UserEvent) -> Result<(), AllocError>
    ensures { OnOk result (out.new.items ≡ out.old.items
        ++ message_text (user_event (event_said event.now))) }
{
    out.extend_from_slice(b"userEvent\n")?;
    write_number_line(out, b"LTime", event.time.get())?;
    write_content(out, event.name, event.payload)?;
    write_flag_line(out, b"CC", event.coalesce)
}

/// Appends those lines of the query `asked` that precede its filters.
#[tactic(auto, unfolding(crate::specs::MessageText::query_head))]
fn write_query_head(out: &mut Vec<u8>, asked: &Query) -> Result<(), AllocError>
    ensures { OnOk result (out.new.items ≡ out.old.items ++ query_head asked.now.time asked.now.id
        asked.now.addr.now asked.now.port asked.now.source.now) }
{
    out.extend_from_slice(b"query\n")?;
    write_identity(out, asked.time.get(), asked.id)?;
    write_origin(out, asked)
}

/// Appends all lines of the query `asked`.
fn write_query(out: &mut Vec<u8>, asked: &Query) -> Result<(), AllocError>
    ensures { OnOk result (out.new.items ≡ out.old.items
        ++ message_text (query (query_said asked.now))) }
{
    write_query_head(out, asked)?;
    write_hex_lines(out, b"filter", asked.filters)?;
    write_handling(out, asked)?;
    write_content(out, asked.name, asked.payload)
}

/// Appends all lines of `response`, which may be an ack.
fn write_response(out: &mut Vec<u8>, response: &QueryResponse) -> Result<(), AllocError>
    ensures { OnOk result (out.new.items ≡ out.old.items
        ++ message_text (query_response (response_said response.now))) }
{
    write_response_name(out)?;
    write_identity(out, response.time, response.id)?;
    write_answer(out, response)
}

/// Appends those lines of the push/pull `state` that precede its query clock.
#[tactic(auto, unfolding(crate::specs::MessageText::push_pull_head))]
fn write_push_pull_head(out: &mut Vec<u8>, state: &PushPull) -> Result<(), AllocError>
    ensures { OnOk result (out.new.items ≡ out.old.items ++ push_pull_head state.now.member_clock
        (status_left state.now.status) (texts_left state.now.left)
        state.now.event_clock (slots_left state.now.slots)) }
{
    out.extend_from_slice(b"pushPull\n")?;
    write_members(out, state)?;
    write_buffer(out, state.event_clock, state.slots)
}

/// Appends all lines of the push/pull `state`.
fn write_push_pull(out: &mut Vec<u8>, state: &PushPull) -> Result<(), AllocError>
    ensures { OnOk result (out.new.items ≡ out.old.items
        ++ message_text (push_pull (push_pull_said state.now))) }
{
    write_push_pull_head(out, state)?;
    write_number_line(out, b"QueryLTime", state.query_clock)
}

/// Appends all lines of `message`. If memory runs out, the call returns an `AllocError`, and `out` may then end in a
/// part of these lines.
pub fn write_message(out: &mut Vec<u8>, message: &Message) -> Result<(), AllocError>
    ensures { OnOk result (out.new.items ≡ out.old.items ++ message_text (message_of message.now)) }
{
    match message {
        Message::UserEvent(event) => write_user_event(out, event),
        Message::Query(asked) => write_query(out, asked),
        Message::QueryResponse(answer) => write_response(out, answer),
        Message::PushPull(state) => write_push_pull(out, state),
        Message::Foreign(kind) => write_number_line(out, b"foreign", u64::from(*kind)),
    }
}

/// Returns the text of `message`, which consists of all lines of the message.
fn message_text_of(alloc: Global, message: &Message) -> Result<Vec<u8>, AllocError>
    ensures { IfOk result (λ text. text.items ≡ message_text (message_of message.now)) }
{
    let mut out = Vec::new(alloc);
    write_message(&mut out, message)?;
    Ok(out)
}

/// Returns the text of the message in `packet`: Serf's name for its type, and then a line for each field, with Serf's
/// names.
///
/// Texts and bytes are in lower-case hex, or `-` if they are empty. Numbers are in decimal, and a timeout has its
/// sign. Each filter has a separate line. The slots of a push/pull are numbered from 0, and the lines of a slot's
/// events follow the slot's own line. If `decode` doesn't read messages of this type, the text is `foreign` and the
/// number of the type.
///
/// Returns `Refused` with the packet's first error if and only if the packet doesn't spell a message. This allocates
/// no memory. Returns `OutOfMemory` only if the packet spells a message.
pub fn decode_text(alloc: Global, packet: &[u8]) -> Result<Vec<u8>, DecodeTextError>
    // If a packet spells a message, the result is the text of this message.
    ensures text { (m : Meaning) → Spells m packet.now
        → IfOk result (λ text. text.items ≡ message_text m) }
    // If a packet doesn't spell a message, it is refused with its first error.
    ensures refused { (f : DeclaredError) → IsFirstError packet.now f
        → result ≡ Err (Refused (record { error = f })) }
    // No other packet is refused.
    ensures only_refused { (w : Words) → result ≡ Err (Refused w)
        → IsFirstError packet.now w.error }
    // The same clauses, in terms of the result of decoding the packet.
    ensures exact { IfOk result (λ text. text_or_error (decoded packet.now) ≡ Ok text.items) }
    ensures exact_refused { (f : DeclaredError) → decoded packet.now ≡ Err f
        → result ≡ Err (Refused (record { error = f })) }
    ensures exact_only { (w : Words) → result ≡ Err (Refused w) → decoded packet.now ≡ Err w.error }
{
    match decode(packet) {
        Ok(message) => {
            message_text_of(alloc, &message).map_err(|_| DecodeTextError::OutOfMemory)
        }
        Err(error) => Err(DecodeTextError::Refused(WireWords::new(error))),
    }
}
