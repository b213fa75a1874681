//! Encodes each message as its one canonical packet, in a new vector.

ghost use Rattle.std.specs.Prelude.{◌≡◌, ◌<◌, ◌^◌, ◌++◌, ◌↔◌, IsTrue, false, true, length, map, codes, nat_lt, IfOk, OnOk, Some};
ghost use Rattle.std.specs.List.{list_any, list_all};
ghost use Rattle.serf_lamport.specs.Clock.{max_clock};
ghost use Rattle.serf_pack.specs.Canonical.{raw_bytes, uint_bytes, int_bytes};
ghost use Rattle.serf_wire.specs.Message.{event_said, push_pull, query, query_of, query_response, response_said, user_event};
ghost use Rattle.serf_wire.specs.Lists.{status_of};
ghost use Rattle.serf_wire.specs.Parts.{push_pull_of, parts_bytes};
ghost use Rattle.serf_wire.specs.Canonical.{entry, list_bytes, canonical, without_empty_slots, is_long, is_long_slot, has_long};
ghost use Rattle.serf_wire.specs.Spells.{Spells};
ghost use Rattle.serf_wire.specs.Fields.{fits};
ghost use Rattle.serf_wire.specs.Ranges.{IsRangedPushPull, IsRangedQuery, IsRangedResponse};

use crate::laws::laws_below;
use crate::length::user_event_len;
use crate::long::{is_long_push_pull, is_long_query, is_long_text};
use crate::message::{PushPullParts, Query, QueryResponse, UserEvent};
use crate::put::{
    write_filters_field, write_number_field, write_slots_field, write_status_field,
    write_text_field, write_texts_field, write_timeout_field,
};
use crate::texts::Bytes;
use serf_pack::{write_bool, write_map, write_raw, write_unsigned};
use std::alloc::{AllocError, Global};
use thiserror::Error;

/// Why a message can't be encoded as a packet.
#[derive(Clone, Copy, Debug, PartialEq, Eq, Error)]
pub enum EncodeError {
    /// A text has more than 4,294,967,295 bytes, or a list has more items than that.
    #[error("a text or a list is longer than 4,294,967,295")]
    TooLong,
    /// There is no memory for the packet.
    #[error("out of memory")]
    OutOfMemory,
}

impl From<AllocError> for EncodeError {
    ghost use Rattle.std.specs.Prelude.{◌≡◌};
    ghost use Rattle.serf_wire.specs.declared.encode.EncodeError.TheVariants.{OutOfMemory};

    ghost from_gives = { λ _ e. e ≡ OutOfMemory };

    fn from(_: AllocError) -> EncodeError {
        EncodeError::OutOfMemory
    }
}

/// Returns the canonical packet of a user event (type 3) in a new vector. The vector is allocated with
/// exactly the packet's length. The event's texts must fit in a packet.
#[tactic(auto, unfolding(crate::specs::Canonical::canonical))]
fn write_user_event(alloc: Global, event: &UserEvent) -> Result<Vec<u8>, AllocError>
    requires name { length event.now.name.now < 2 ^ 32 }
    requires payload { length event.now.payload.now < 2 ^ 32 }
    ensures bytes { IfOk result (λ packet. packet.items
        ≡ canonical (user_event (event_said event.now))) }
    ensures time { OnOk result (event.now.time < max_clock) }
{
    let len = user_event_len(event);
    let mut out = Vec::with_capacity(alloc, len as usize)?;
    // Each key is a constant together with its head, because events are fired often. The first constant also
    // contains the type and the map's head.
    out.extend_from_slice(b"\x03\x84\xa5LTime")?;
    write_unsigned(&mut out, event.time.get())?;
    out.extend_from_slice(b"\xa4Name")?;
    write_raw(&mut out, event.name)?;
    out.extend_from_slice(b"\xa7Payload")?;
    write_raw(&mut out, event.payload)?;
    out.extend_from_slice(b"\xa2CC")?;
    write_bool(&mut out, event.coalesce)?;
    Ok(out)
}

/// Appends the fields for the node that fired the query, and for the nodes that should answer the query.
fn write_query_route(out: &mut Vec<u8>, parts: &Query<&[Bytes]>) -> Result<(), AllocError>
    requires addr { length parts.now.addr.now < 2 ^ 32 }
    requires source { length parts.now.source.now < 2 ^ 32 }
    requires filters { length parts.now.filters.now < 2 ^ 32 }
    requires each { list_any is_long parts.now.filters.now ≡ false }
    ensures port { OnOk result (parts.now.port < 2 ^ 16) }
    ensures bytes { OnOk result (out.new.items ≡ out.old.items
        ++ entry (codes "Addr") (raw_bytes parts.now.addr.now)
        ++ entry (codes "Port") (uint_bytes parts.now.port)
        ++ entry (codes "SourceNode") (raw_bytes parts.now.source.now)
        ++ entry (codes "Filters") (list_bytes raw_bytes parts.now.filters.now)) }
{
    write_text_field(out, b"Addr", parts.addr)?;
    write_number_field(out, b"Port", parts.port as u64)?;
    write_text_field(out, b"SourceNode", parts.source)?;
    write_filters_field(out, b"Filters", parts.filters)
}

/// Appends the fields that control how the query should be answered: its flags, relay factor and timeout.
fn write_query_terms(out: &mut Vec<u8>, parts: &Query<&[Bytes]>) -> Result<(), AllocError>
    ensures flags { OnOk result (parts.now.flags < 2 ^ 32) }
    ensures relay_factor { OnOk result (parts.now.relay_factor < 2 ^ 8) }
    ensures timeout { OnOk result (fits parts.now.timeout ≡ Some parts.now.timeout) }
    ensures bytes { OnOk result (out.new.items ≡ out.old.items
        ++ entry (codes "Flags") (uint_bytes parts.now.flags)
        ++ entry (codes "RelayFactor") (uint_bytes parts.now.relay_factor)
        ++ entry (codes "Timeout") (int_bytes parts.now.timeout)) }
{
    write_number_field(out, b"Flags", parts.flags as u64)?;
    write_number_field(out, b"RelayFactor", parts.relay_factor as u64)?;
    write_timeout_field(out, parts)
}

/// Appends the fields with the query's content: its name and its payload.
fn write_question(out: &mut Vec<u8>, parts: &Query<&[Bytes]>) -> Result<(), AllocError>
    requires name { length parts.now.name.now < 2 ^ 32 }
    requires payload { length parts.now.payload.now < 2 ^ 32 }
    ensures { OnOk result (out.new.items ≡ out.old.items
        ++ entry (codes "Name") (raw_bytes parts.now.name.now)
        ++ entry (codes "Payload") (raw_bytes parts.now.payload.now)) }
{
    write_text_field(out, b"Name", parts.name)?;
    write_text_field(out, b"Payload", parts.payload)
}

/// Returns the canonical packet of a query (type 4) in a new vector. The query's texts and filters must fit
/// in a packet.
#[tactic(auto, unfolding(crate::specs::Canonical::canonical, crate::specs::Canonical::has_long))]
fn write_query(alloc: Global, parts: &Query<&[Bytes]>) -> Result<Vec<u8>, AllocError>
    requires { has_long (query (query_of parts.now)) ≡ false }
    ensures bytes { IfOk result (λ packet. packet.items ≡ canonical (query (query_of parts.now))) }
    ensures ranged { OnOk result (IsRangedQuery (query_of parts.now)) }
{
    let mut out = Vec::new(alloc);
    out.extend_from_slice(&[4])?;
    write_map(&mut out, 11)?;
    write_number_field(&mut out, b"LTime", parts.time.get())?;
    write_number_field(&mut out, b"ID", parts.id as u64)?;
    write_query_route(&mut out, parts)?;
    write_query_terms(&mut out, parts)?;
    write_question(&mut out, parts)?;
    Ok(out)
}

/// Returns the canonical packet of a response (type 5) in a new vector. The response's texts must fit in a
/// packet.
#[tactic(auto, unfolding(crate::specs::Canonical::canonical))]
fn write_response(alloc: Global, response: &QueryResponse) -> Result<Vec<u8>, AllocError>
    requires from { length response.now.from.now < 2 ^ 32 }
    requires payload { length response.now.payload.now < 2 ^ 32 }
    ensures bytes { IfOk result (λ packet. packet.items
        ≡ canonical (query_response (response_said response.now))) }
    ensures ranged { OnOk result (IsRangedResponse (response_said response.now)) }
{
    let mut out = Vec::new(alloc);
    out.extend_from_slice(&[5])?;
    write_map(&mut out, 5)?;
    write_number_field(&mut out, b"LTime", response.time)?;
    write_number_field(&mut out, b"ID", u64::from(response.id))?;
    write_text_field(&mut out, b"From", response.from)?;
    write_number_field(&mut out, b"Flags", u64::from(response.flags))?;
    write_text_field(&mut out, b"Payload", response.payload)?;
    Ok(out)
}

/// Returns the canonical packet of a push/pull (type 2) in a new vector. Its texts and lists must fit in a
/// packet.
fn write_push_pull(alloc: Global, parts: &PushPullParts) -> Result<Vec<u8>, AllocError>
    requires { has_long (push_pull (push_pull_of parts.now)) ≡ false }
    ensures bytes { IfOk result (λ packet. packet.items ≡ parts_bytes parts.now) }
    ensures ranged { OnOk result (IsRangedPushPull (push_pull_of parts.now)) }
{
    let mut out = Vec::new(alloc);
    out.extend_from_slice(&[2])?;
    write_map(&mut out, 6)?;
    write_number_field(&mut out, b"LTime", parts.member_clock)?;
    write_status_field(&mut out, b"StatusLTimes", parts.status)?;
    write_texts_field(&mut out, b"LeftMembers", parts.left)?;
    write_number_field(&mut out, b"EventLTime", parts.event_clock)?;
    write_slots_field(&mut out, b"Events", &parts.slots)?;
    write_number_field(&mut out, b"QueryLTime", parts.query_clock)?;
    Ok(out)
}

/// Returns the canonical packet of a user event. Returns `TooLong` if the name or the payload is longer than
/// 4,294,967,295 bytes. Otherwise, the call returns `OutOfMemory` if there is no memory for the packet.
#[tactic(auto, unfolding(crate::specs::Canonical::has_long))]
pub fn encode_user_event(alloc: Global, event: &UserEvent) -> Result<Vec<u8>, EncodeError>
    ensures canonical { IfOk result (λ packet. packet.items
        ≡ canonical (user_event (event_said event.now))) }
    ensures spells { IfOk result (λ packet.
        Spells (user_event (event_said event.now)) packet.items) }
    ensures too_long { (result ≡ Err EncodeError.TooLong)
        ↔ IsTrue (has_long (user_event (event_said event.now))) }
{
    laws_below();
    if is_long_text(event.name) || is_long_text(event.payload) {
        return Err(EncodeError::TooLong);
    }
    Ok(write_user_event(alloc, event)?)
}

/// Returns the canonical packet of a query. Returns `TooLong` if a text has more than 4,294,967,295 bytes or
/// the list of filters has more items than that. Otherwise, the call returns `OutOfMemory` if there is no
/// memory for the packet.
pub fn encode_query(alloc: Global, parts: &Query<&[Bytes]>) -> Result<Vec<u8>, EncodeError>
    ensures canonical { IfOk result (λ packet. packet.items
        ≡ canonical (query (query_of parts.now))) }
    ensures spells { IfOk result (λ packet. Spells (query (query_of parts.now)) packet.items) }
    ensures too_long { (result ≡ Err EncodeError.TooLong)
        ↔ IsTrue (has_long (query (query_of parts.now))) }
{
    laws_below();
    if is_long_query(parts) {
        return Err(EncodeError::TooLong);
    }
    Ok(write_query(alloc, parts)?)
}

/// Returns the canonical packet of a query's response. Returns `TooLong` if the name or the payload is longer
/// than 4,294,967,295 bytes. Otherwise, the call returns `OutOfMemory` if there is no memory for the packet.
#[tactic(auto, unfolding(crate::specs::Canonical::has_long))]
pub fn encode_response(alloc: Global, response: &QueryResponse) -> Result<Vec<u8>, EncodeError>
    ensures canonical { IfOk result (λ packet. packet.items
        ≡ canonical (query_response (response_said response.now))) }
    ensures spells { IfOk result (λ packet.
        Spells (query_response (response_said response.now)) packet.items) }
    ensures too_long { (result ≡ Err EncodeError.TooLong)
        ↔ IsTrue (has_long (query_response (response_said response.now))) }
{
    laws_below();
    if is_long_text(response.from) || is_long_text(response.payload) {
        return Err(EncodeError::TooLong);
    }
    Ok(write_response(alloc, response)?)
}

/// Returns the canonical packet of a push/pull, in which a slot without events is nil. Returns `TooLong` if a
/// text has more than 4,294,967,295 bytes or a list has more items than that. Otherwise, the call returns
/// `OutOfMemory` if there is no memory for the packet.
pub fn encode_push_pull(alloc: Global, parts: &PushPullParts) -> Result<Vec<u8>, EncodeError>
    ensures canonical { IfOk result (λ packet. packet.items
        ≡ canonical (push_pull (push_pull_of parts.now))) }
    ensures spells { IfOk result (λ packet.
        Spells (without_empty_slots (push_pull (push_pull_of parts.now))) packet.items) }
    ensures too_long { (result ≡ Err EncodeError.TooLong)
        ↔ IsTrue (has_long (push_pull (push_pull_of parts.now))) }
{
    laws_below();
    if is_long_push_pull(parts) {
        return Err(EncodeError::TooLong);
    }
    Ok(write_push_pull(alloc, parts)?)
}
