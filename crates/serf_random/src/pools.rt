//! Small pools of names, payloads, tails and filters, which make values repeat. This module also makes texts with which
//! a packet reaches its maximum length.

use crate::generator::{Generator, LastHanded};
use crate::kind::Kind;
use crate::rng::Rng;
use serf_agent::{BytesList, DEFAULT_QUERY_LIMIT, DEFAULT_RESPONSE_LIMIT, QueryParams};
use serf_lamport::Time;
use serf_text::write_number;
use serf_wire::{Bytes, Query, QueryResponse, UserEvent, query_len, response_len, user_event_len};
use serf_world::World;
use std::alloc::{AllocError, Global};

/// Names of events and of queries.
const NAMES: [&[u8]; 5] = [b"a", b"b", b"deploy", b"", b"load"];

/// Payloads of events, queries and responses.
const PAYLOADS: [&[u8]; 5] = [b"", b"v1", b"v2", b"a", b"\x00\xff"];

/// Lengths near the size limits, and near the lengths for which MessagePack needs a wider form.
const EDGES: [u64; 9] = [31, 255, 470, 512, 970, 1_024, 9_100, 9_216, 65_535];

/// Returns the name of a node: one letter from `a` to `f`.
pub(crate) fn letter(rng: &mut Rng) -> u8 {
    b'a'.saturating_add(rng.below(6) as u8)
}

/// Returns one of the [`NAMES`] for an event or a query.
pub(crate) fn name(generator: &mut Generator) -> Result<Vec<u8>, AllocError> {
    Vec::from_slice(generator.alloc, generator.rng.pick(&NAMES, b"a"))
}

/// Returns one of the [`PAYLOADS`].
pub(crate) fn payload(generator: &mut Generator) -> Result<Vec<u8>, AllocError> {
    Vec::from_slice(generator.alloc, generator.rng.pick(&PAYLOADS, b""))
}

/// Returns a text of `len` bytes.
fn text_of(alloc: Global, len: u64) -> Result<Vec<u8>, AllocError> {
    let mut text = Vec::new(alloc);
    text.resize(len as usize, b'x')?;
    Ok(text)
}

/// Returns a text of about `limit` bytes. One time in three, and whenever `limit` is 0, the length of the text is
/// instead near one of the [`EDGES`].
pub(crate) fn long_text(generator: &mut Generator, limit: u64) -> Result<Vec<u8>, AllocError> {
    let rng = &mut generator.rng;
    let edge = if limit == 0 || rng.one_in(3) {
        rng.pick(&EDGES, 31)
    } else {
        limit
    };
    let len = rng.near(edge).saturating_sub(rng.below(60));
    text_of(generator.alloc, len)
}

/// The beginnings of a snapshot's clock lines, one for each kind of clock.
const CLOCK_LINES: [&[u8]; 3] = [b"clock: ", b"event-clock: ", b"query-clock: "];

/// Tails that may follow a snapshot's text after a crash. Each of these tails consists of complete or torn lines.
const TAILS: [&[u8]; 10] = [
    b"event-cl",
    b"\n",
    b"#",
    b"event-clock:  9\n",
    b"event-clock: 9\r\n",
    b"event-clock: 18446744073709551614\n",
    b"event-clock: 18446744073709551615\n",
    b"query-clock: 007\n",
    b"alive: node 127.0.0.1:7946\n",
    b"clock: 4\nevent-clock: 3\nquery-clock: 2\n",
];

/// Returns a tail that may follow a snapshot's text after a crash. The tail is empty, it is one of the [`TAILS`], or it
/// is a clock line with a time near `time`, either complete or cut off.
pub(crate) fn tail(generator: &mut Generator, time: u64) -> Result<Vec<u8>, AllocError> {
    let rng = &mut generator.rng;
    match rng.below(6) {
        0 | 1 => Ok(Vec::new(generator.alloc)),
        2 | 3 => Vec::from_slice(generator.alloc, rng.pick(&TAILS, b"")),
        cut_off => {
            let mut text = Vec::from_slice(generator.alloc, rng.pick(&CLOCK_LINES, b""))?;
            write_number(&mut text, rng.near(time))?;
            if cut_off == 4 {
                text.extend_from_slice(b"\n")?;
            }
            Ok(text)
        }
    }
}

/// Filters of queries. Some of these filters let nodes with certain names pass, and the others let no node pass.
const FILTERS: [&[u8]; 8] = [
    b"\x00\x91\xa1a",
    b"\x00\x92\xa1a\xa1b",
    b"\x00\x92\xc4\x01b\xc0",
    b"\x00\x90",
    b"\x00\xc0",
    b"\x01\x82\xa3Tag\xa1x\xa4Expr\xa1y",
    b"\x00\x92\xa1a\x05",
    b"",
];

/// Filters of names in other forms. Some of these filters are followed by another byte, are cut off, are nested too
/// deeply, or have another type. Other filters contain names that differ a little from those of agents.
const SPELLED: [&[u8]; 24] = [
    b"\x00\x91\xa1a\x00",
    b"\x00\x91\xa1b\x90",
    b"\x00\x92\xa1a\xa1b\x01",
    b"\x00\x92\xa1a\xa1b\xc1",
    b"\x00\x91\xa1a\x00",
    b"\x00\x91\xa1b\xc0",
    b"\x00\x93\xa1a\xa1b\xa1c",
    b"\x00\xdc\x00\x02\xa1a\xa1b",
    b"\x00\xdd\x00\x00\x00\x01\xd9\x01b",
    b"\x00\x91\xda\x00\x01a",
    b"\x00\x91\xdb\x00\x00\x00\x01b",
    b"\x00\x91\xc5\x00\x01a",
    b"\x00\x91\xc6\x00\x00\x00\x01b",
    b"\x00\x92\xc0\xa1a",
    b"\x00\x92\xa1a\x91\xa1b",
    b"\x00\x92\xa1a",
    b"\x00",
    b"\x00\xa1a",
    b"\x00\x81\xa1a\xa1b",
    b"\x00\x91\xa2aa",
    b"\x00\x92\xa0\xa1A",
    b"\x02\x91\xa1a",
    b"\x00\x91\xc1",
    b"\x00\xdf\x00\x00\x00\x00",
];

/// Returns one of the [`FILTERS`] for a query. In schedules of the kinds `spellings` and `mixed`, the result is one of
/// the [`SPELLED`] filters one time in two.
fn one_filter(generator: &mut Generator) -> &'static [u8] {
    let is_spelled = match generator.kind {
        Kind::Spellings | Kind::Mixed => generator.rng.one_in(2),
        _ => false,
    };
    if is_spelled {
        generator.rng.pick(&SPELLED, b"")
    } else {
        generator.rng.pick(&FILTERS, b"")
    }
}

/// Returns the filters for a query: in most cases none, and in the other cases up to two ([`one_filter`]).
pub(crate) fn filters(generator: &mut Generator) -> Result<BytesList, AllocError> {
    let mut list = BytesList::new(generator.alloc);
    if !generator.rng.one_in(4) {
        return Ok(list);
    }
    for _filter in 0..generator.rng.below(3) {
        let filter = one_filter(generator);
        list.push(Bytes::copy_of(generator.alloc, filter)?)?;
    }
    Ok(list)
}

/// The maximum total length, in bytes, of the name and the payload of a received event.
const MAX_EVENT: u64 = 9_216;

/// The length of a packet with an empty payload, and the maximum length of the packet, both in bytes.
pub(crate) type Room = (u128, u64);

/// Returns a payload that makes a packet exactly as long as its limit allows, or one byte shorter or longer.
pub(crate) fn filling(
    generator: &mut Generator,
    (empty_length, limit): Room,
) -> Result<Vec<u8>, AllocError> {
    let room = u128::from(limit).saturating_sub(empty_length).min(70_000) as u64;
    // The head of a payload of 32 bytes or more is two bytes longer than the head of an empty payload.
    let len = if room < 32 {
        room
    } else {
        room.saturating_sub(2)
    };
    text_of(generator.alloc, generator.rng.near(len))
}

/// Returns a payload for an event named `name`. One time in `bound`, the name and the payload together have the maximum
/// length, or are one byte shorter or longer.
pub(crate) fn payload_or_full(
    generator: &mut Generator,
    name: &[u8],
    bound: u64,
) -> Result<Vec<u8>, AllocError> {
    if !generator.rng.one_in(bound) {
        return payload(generator);
    }
    let room = MAX_EVENT.saturating_sub(name.len() as u64);
    text_of(generator.alloc, generator.rng.near(room))
}

/// Returns the room for a payload in the packet of an event named `name` that agent number `agent_number` in `world`
/// may fire next.
pub(crate) fn event_room(world: &World, agent_number: u64, name: &[u8]) -> Room {
    let (time, limit) = match world.agent(agent_number) {
        Some(agent) => (agent.event_time(), agent.config().event_limit),
        None => (1, 0),
    };
    let Some(time) = Time::new(time) else {
        return (0, limit);
    };
    let event = UserEvent {
        time,
        name,
        payload: b"",
        coalesce: false,
    };
    (user_event_len(&event), limit)
}

/// Returns the room for a payload in the packet of a query that agent number `agent_number` in `world` may fire next,
/// with the given ID, name and parameters.
pub(crate) fn query_room(
    world: &World,
    agent_number: u64,
    id: u32,
    name: &[u8],
    params: &QueryParams,
) -> Room {
    let Some(agent) = world.agent(agent_number) else {
        return (0, DEFAULT_QUERY_LIMIT);
    };
    let limit = agent.config().query_limit;
    let Some(time) = Time::new(agent.query_time()) else {
        return (0, limit);
    };
    let query = Query {
        time,
        id,
        addr: params.addr.as_slice(),
        port: params.port,
        source: agent.config().name.as_slice(),
        filters: params.filters.as_slice(),
        flags: 0,
        relay_factor: params.relay_factor,
        timeout: params.timeout,
        name,
        payload: b"",
    };
    (query_len(&query), limit)
}

/// Returns the room for a payload in the packet of a response to `last`, the query that was handed out last. The agent
/// that handed out this query sends the response.
pub(crate) fn response_room(world: &World, last: &LastHanded) -> Room {
    let Some(agent) = world.agent(last.agent) else {
        return (0, DEFAULT_RESPONSE_LIMIT);
    };
    let response = QueryResponse {
        time: last.time,
        id: last.id,
        from: agent.config().name.as_slice(),
        flags: 0,
        payload: b"",
    };
    (response_len(&response), agent.config().response_limit)
}
