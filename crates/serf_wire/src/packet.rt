//! Decodes a packet: returns its message or its first error.

ghost use Rattle.std.specs.Prelude.{◌≡◌, ◌<◌, ◌^◌, List, Ok, Err, IfOk, IfErr, IfSome, IsOkAnd};
ghost use Rattle.std.specs.Option.{option_map};
ghost use Rattle.serf_pack.specs.Breaks.{error_place};
ghost use Rattle.serf_pack.specs.Reading.{Gives, whole_at};
ghost use Rattle.serf_pack.specs.Tree.{Tree};
ghost use Rattle.serf_pack.specs.View.{tree_of};
ghost use Rattle.serf_wire.specs.Found.{Finds};
ghost use Rattle.serf_wire.specs.Layout.{layout_of};
ghost use Rattle.serf_wire.specs.Message.{Message as Meaning, event_said, message_of};
ghost use Rattle.serf_wire.specs.declared.error.WireError.{WireError as DeclaredError};
ghost use Rattle.serf_wire.specs.Reading.{message_in, read_tree};
ghost use Rattle.serf_wire.specs.Spells.{Spells, SpellsMap, IsFirstError, shifted};
ghost use Rattle.serf_wire.specs.Decoded.{GivesEvent, event_in, read_value, decoded};

use crate::checked::find_checked;
use crate::error::WireError;
use crate::fast::{read_push_pull, read_user_event};
use crate::fields::{flag_or_false, natural_or_zero, signed_or_zero, text_or_empty, time_or_zero};
use crate::found::FoundFields;
use crate::laws::laws_below;
use crate::layout::{Class, MessageType, class_for, layout_for};
use crate::lists::{SlotViews, StatusTimes, Texts};
use crate::message::{Message, PushPull, Query, QueryResponse, UserEvent};

/// Builds the message from the fields `found` of a map without errors. Each field is at its place in the
/// layout (`layout.rt`).
fn message_of_fields<'a>(message: MessageType, found: &FoundFields<'a>) -> Message<'a>
    ensures { (ps : List (Tree × Tree)) → Finds (layout_of message) found.now ps
        → message_of result ≡ message_in message ps }
{
    match message {
        MessageType::UserEvent => Message::UserEvent(UserEvent {
            time: time_or_zero(found.at(0)),
            name: text_or_empty(found.at(1)),
            payload: text_or_empty(found.at(2)),
            coalesce: flag_or_false(found.at(3)),
        }),
        MessageType::Query => Message::Query(Query {
            time: time_or_zero(found.at(0)),
            id: natural_or_zero(found.at(1), 0xffff_ffff) as u32,
            addr: text_or_empty(found.at(2)),
            port: natural_or_zero(found.at(3), 0xffff) as u16,
            source: text_or_empty(found.at(4)),
            filters: Texts::of(found.at(5)),
            flags: natural_or_zero(found.at(6), 0xffff_ffff) as u32,
            relay_factor: natural_or_zero(found.at(7), 0xff) as u8,
            timeout: signed_or_zero(found.at(8)),
            name: text_or_empty(found.at(9)),
            payload: text_or_empty(found.at(10)),
        }),
        MessageType::QueryResponse => Message::QueryResponse(QueryResponse {
            time: natural_or_zero(found.at(0), u64::MAX),
            id: natural_or_zero(found.at(1), 0xffff_ffff) as u32,
            from: text_or_empty(found.at(2)),
            flags: natural_or_zero(found.at(3), 0xffff_ffff) as u32,
            payload: text_or_empty(found.at(4)),
        }),
        MessageType::PushPull => Message::PushPull(PushPull {
            member_clock: natural_or_zero(found.at(0), u64::MAX),
            status: StatusTimes::of(found.at(1)),
            left: Texts::of(found.at(2)),
            event_clock: natural_or_zero(found.at(3), u64::MAX),
            slots: SlotViews::of(found.at(4)),
            query_clock: natural_or_zero(found.at(5), u64::MAX),
        }),
    }
}

/// Reads the message whose map `bytes` spell after the type byte, in any spelling. Returns the message or the
/// packet's first error.
#[inline(never)]
fn read_checked(message: MessageType, bytes: &[u8]) -> Result<Message<'_>, WireError>
    ensures { Gives message_of result (read_value message (whole_at 8 bytes.now)) }
{
    match find_checked(layout_for(message), bytes) {
        Ok(found) => Ok(message_of_fields(message, &found)),
        Err(error) => Err(error),
    }
}

/// Reads the user event whose map `bytes` spell. Returns the event or the packet's first error. A map in a
/// compact spelling is read in one pass.
#[inline(always)]
fn read_event_map(bytes: &[u8]) -> Result<Message<'_>, WireError>
    ensures { Gives message_of result (read_value MessageType.UserEvent (whole_at 8 bytes.now)) }
{
    laws_below();
    match read_user_event(bytes) {
        Some(event) => Ok(Message::UserEvent(event)),
        None => read_checked(MessageType::UserEvent, bytes),
    }
}

/// Returns the user event whose map `bytes` spell, in any spelling, or `None` if they spell no user event.
#[inline(never)]
fn event_checked(bytes: &[u8]) -> Option<UserEvent<'_>>
    ensures { GivesEvent result (read_value MessageType.UserEvent (whole_at 8 bytes.now)) }
{
    match read_checked(MessageType::UserEvent, bytes) {
        Ok(Message::UserEvent(event)) => Some(event),
        _ => None,
    }
}

/// Returns the user event whose map `bytes` spell, or `None` if they spell no user event. A map in a compact
/// spelling is read in one pass.
#[inline(always)]
fn event_in_map(bytes: &[u8]) -> Option<UserEvent<'_>>
    ensures { GivesEvent result (read_value MessageType.UserEvent (whole_at 8 bytes.now)) }
{
    laws_below();
    match read_user_event(bytes) {
        Some(event) => Some(event),
        None => event_checked(bytes),
    }
}

/// Reads the push/pull whose map `bytes` spell. Returns the push/pull or the packet's first error. A map in a
/// compact spelling is read in one pass.
fn read_state_map(bytes: &[u8]) -> Result<Message<'_>, WireError>
    ensures { Gives message_of result (read_value MessageType.PushPull (whole_at 8 bytes.now)) }
{
    laws_below();
    match read_push_pull(bytes) {
        Some(state) => Ok(Message::PushPull(state)),
        None => read_checked(MessageType::PushPull, bytes),
    }
}

/// Reads the message whose map `bytes` spell after the type byte of `message`. Returns the message or
/// the packet's first error.
#[inline(always)]
fn read_map(message: MessageType, bytes: &[u8]) -> Result<Message<'_>, WireError>
    ensures { Gives message_of result (read_value message (whole_at 8 bytes.now)) }
{
    match message {
        MessageType::UserEvent => read_event_map(bytes),
        MessageType::PushPull => read_state_map(bytes),
        MessageType::Query | MessageType::QueryResponse => read_checked(message, bytes),
    }
}

/// Returns the message that `packet` spells, or the packet's first error, as `decode` does.
#[inline(always)]
#[tactic(auto, unfolding(crate::specs::Decoded::decoded))]
fn read_packet(packet: &[u8]) -> Result<Message<'_>, WireError>
    ensures { Gives message_of result (decoded packet.now) }
{
    let [kind, body @ ..] = packet else {
        return Err(WireError::Empty);
    };
    match class_for(*kind) {
        Class::Read(message) => read_map(message, body),
        Class::Foreign => Ok(Message::Foreign(*kind)),
        Class::Unknown => Err(WireError::UnknownType(*kind)),
    }
}

/// Returns the message that a packet spells, with its keys in any order and its values in any spelling. If
/// the packet spells no message, the call returns the packet's first error in reading order.
///
/// The error is `Empty` if the packet is empty, and `UnknownType` if no message has the packet's type.
/// Otherwise, it is `Pack` if the bytes after the type are not a MessagePack value, `NotAMap` if this value
/// isn't a map, and in all other cases the map's first error. For the types 0, 1 and 6 to 9 the result is
/// `Foreign`, no matter what follows the type. Allocates no memory.
#[inline(always)]
pub fn decode(packet: &[u8]) -> Result<Message<'_>, WireError>
    // The packet spells the message that is returned.
    ensures spells { IfOk result (λ m. Spells (message_of m) packet.now) }
    // If the packet spells a message, this message is returned.
    ensures only { (m : Meaning) → Spells m packet.now → IsOkAnd result (λ r. message_of r ≡ m) }
    // If the result is an error, it is the packet's first one.
    ensures error { IfErr result (IsFirstError packet.now) }
    ensures only_error { (f : DeclaredError) → IsFirstError packet.now f → result ≡ Err f }
    // The result agrees with the definition `decoded`.
    ensures exact { Gives message_of result (decoded packet.now) }
{
    laws_below();
    read_packet(packet)
}

/// Returns the user event that a packet spells, with its keys in any order and its values in any spelling, or
/// `None` if the packet spells no user event.
///
/// If `decode` returns another message or an error, the result is `None`. To get the error, call `decode`.
/// Allocates no memory.
#[inline(always)]
#[tactic(auto, unfolding(crate::specs::Decoded::decoded))]
pub fn decode_user_event(packet: &[u8]) -> Option<UserEvent<'_>>
    ensures { GivesEvent result (decoded packet.now) }
{
    let [kind, body @ ..] = packet else {
        return None;
    };
    match class_for(*kind) {
        Class::Read(MessageType::UserEvent) => event_in_map(body),
        _ => None,
    }
}
