//! Builds, from the rows of a text, the canonical packet of the message that the text describes.

ghost use Rattle.std.specs.Prelude.{◌≡◌, ◌∷◌, [], IfOk, MatchOption, Some, None, codes, map};
ghost use Rattle.std.specs.Option.{option_map};
ghost use Rattle.serf_wire.specs.Message.{Message, foreign, query, query_of};
ghost use Rattle.serf_packets.specs.Rows.{row_seen};
ghost use Rattle.serf_packets.specs.Meant.{event_meant, meant_by, number_at, query_meant, response_meant};
ghost use Rattle.serf_packets.specs.Encoded.{packet_meant};
ghost use Rattle.serf_packets.specs.States.{IsPacketOf};

use crate::meant::{bytes_field, number_field, signed_in, texts_field, time_in};
use crate::row::{Row, rows_of_text, value};
use crate::slots::push_pull_packet;
use serf_wire::{
    Bytes, EncodeError, Query, QueryResponse, UserEvent, encode_query, encode_response,
    encode_user_event,
};
use std::alloc::{AllocError, Global};

/// Returns the canonical packet of the user event that `rows` describe. A missing or bad field is read as 0 or as
/// empty.
#[tactic(auto, unfolding(crate::specs::Meant::event_meant))]
fn event_packet(alloc: Global, rows: &[Row]) -> Result<Vec<u8>, EncodeError>
    ensures { IsPacketOf (λ p. p.items) result (event_meant (map row_seen rows.now)) }
{
    let name = bytes_field(alloc, rows, b"Name")?;
    let payload = bytes_field(alloc, rows, b"Payload")?;
    let event = UserEvent {
        time: time_in(value(rows, b"LTime")),
        name: name.as_slice(),
        payload: payload.as_slice(),
        coalesce: value(rows, b"CC") == b"1".as_slice(),
    };
    encode_user_event(alloc, &event)
}

/// Returns the canonical packet of the query `parts`. The function is separate because its clause is needed to prove
/// [`query_packet`].
fn write_query(alloc: Global, parts: &Query<&[Bytes]>) -> Result<Vec<u8>, EncodeError>
    ensures { IsPacketOf (λ p. p.items) result (query (query_of parts.now)) }
{
    encode_query(alloc, parts)
}

/// Returns the canonical packet of the query that `rows` describe. A missing or bad field is read as 0 or as empty.
#[tactic(auto, unfolding(crate::specs::Meant::query_meant))]
fn query_packet(alloc: Global, rows: &[Row]) -> Result<Vec<u8>, EncodeError>
    ensures { IsPacketOf (λ p. p.items) result (query (query_meant (map row_seen rows.now))) }
{
    let addr = bytes_field(alloc, rows, b"Addr")?;
    let source = bytes_field(alloc, rows, b"SourceNode")?;
    let filters = texts_field(alloc, rows, b"filter")?;
    let name = bytes_field(alloc, rows, b"Name")?;
    let payload = bytes_field(alloc, rows, b"Payload")?;
    let parts = Query {
        time: time_in(value(rows, b"LTime")),
        id: number_field(rows, b"ID", 4_294_967_295) as u32,
        addr: addr.as_slice(),
        port: number_field(rows, b"Port", 65_535) as u16,
        source: source.as_slice(),
        filters: filters.as_slice(),
        flags: number_field(rows, b"Flags", 4_294_967_295) as u32,
        relay_factor: number_field(rows, b"RelayFactor", 255) as u8,
        timeout: signed_in(value(rows, b"Timeout")),
        name: name.as_slice(),
        payload: payload.as_slice(),
    };
    write_query(alloc, &parts)
}

/// Returns the canonical packet of the ack or the response that `rows` describe. A missing or bad field is read as 0 or
/// as empty.
#[tactic(auto, unfolding(crate::specs::Meant::response_meant))]
fn response_packet(alloc: Global, rows: &[Row]) -> Result<Vec<u8>, EncodeError>
    ensures { IsPacketOf (λ p. p.items) result (response_meant (map row_seen rows.now)) }
{
    let from = bytes_field(alloc, rows, b"From")?;
    let payload = bytes_field(alloc, rows, b"Payload")?;
    let response = QueryResponse {
        time: number_field(rows, b"LTime", u64::MAX),
        id: number_field(rows, b"ID", 4_294_967_295) as u32,
        from: from.as_slice(),
        flags: number_field(rows, b"Flags", 4_294_967_295) as u32,
        payload: payload.as_slice(),
    };
    encode_response(alloc, &response)
}

/// Returns the packet of a foreign message. The packet consists of one byte, the type of the message, which the row
/// `foreign` in `rows` contains.
#[tactic(auto, unfolding(serf_wire::specs::Canonical::canonical, serf_wire::specs::Canonical::has_long))]
fn foreign_packet(alloc: Global, rows: &[Row]) -> Result<Vec<u8>, EncodeError>
    ensures { IsPacketOf (λ p. p.items) result
        (foreign (number_at 255 (codes "foreign") (map row_seen rows.now))) }
{
    let kind = number_field(rows, b"foreign", 255) as u8;
    Ok(Vec::from_slice(alloc, &[kind])?)
}

/// Returns the canonical packet of the message that `rows` describe. Returns `None` if `kind`, the name in the first
/// row, isn't the name of a message.
#[tactic(auto, unfolding(crate::specs::Meant::meant_by))]
fn packet_of_kind(alloc: Global, kind: &[u8], rows: &[Row]) -> Option<Result<Vec<u8>, EncodeError>>
    ensures { MatchOption result (meant_by kind.now (map row_seen rows.now) ≡ None)
        (λ packet. (m : Message) × (meant_by kind.now (map row_seen rows.now) ≡ Some m)
        × IsPacketOf (λ p. p.items) packet m) }
{
    if kind == b"userEvent".as_slice() {
        Some(event_packet(alloc, rows))
    } else if kind == b"query".as_slice() {
        Some(query_packet(alloc, rows))
    } else if kind == b"queryResponse".as_slice() {
        Some(response_packet(alloc, rows))
    } else if kind == b"pushPull".as_slice() {
        Some(push_pull_packet(alloc, rows))
    } else if kind == b"foreign".as_slice() {
        Some(foreign_packet(alloc, rows))
    } else {
        None
    }
}

/// Returns the canonical packet of the message that `text` describes. Returns `None` if `text` describes no message, or
/// if the message is too long for a packet.
pub(crate) fn packet_of_text(alloc: Global, text: &[u8]) -> Result<Option<Vec<u8>>, AllocError>
    ensures { IfOk result (λ packet. option_map (λ p. p.items) packet ≡ packet_meant text.now) }
{
    let rows = rows_of_text(alloc, text)?;
    let kind = match rows.first() {
        Some(row) => row.name,
        None => &[],
    };
    match packet_of_kind(alloc, kind, rows.as_slice()) {
        Some(Ok(packet)) => Ok(Some(packet)),
        Some(Err(EncodeError::TooLong)) | None => Ok(None),
        Some(Err(EncodeError::OutOfMemory)) => Err(AllocError),
    }
}
