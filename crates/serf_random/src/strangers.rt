//! Makes the packets that are injected from outside the cluster. These packets exercise edge cases of an agent's
//! decisions. Each packet is written in canonical form, in any spelling that the grammar allows, or in a spelling that
//! is only just invalid.

use crate::generator::Generator;
use crate::kind::Kind;
use crate::packet_builder::PacketBuilder;
use crate::pools::{filters, letter, long_text, name, payload, payload_or_full};
use crate::rng::Rng;
use crate::value::{Field, Value, text};
use crate::verb::Verb;
use serf_wire::Bytes;
use std::alloc::{AllocError, Global};

/// Returns the type byte (Serf's `messageType`) of the message that `verb` names. If `verb` names no message, returns
/// the type byte of an event.
fn message_type(verb: Verb) -> u8 {
    match verb {
        Verb::State => 2,
        Verb::Query => 4,
        Verb::Answer => 5,
        _ => 3,
    }
}

/// Returns the fields of an event.
fn event_fields<'a>(
    time: u64,
    name: &'a [u8],
    payload: &'a [u8],
    coalesce: bool,
) -> [Field<'a>; 4] {
    [
        (b"LTime", Value::Number(time)),
        (b"Name", Value::Text(name)),
        (b"Payload", Value::Text(payload)),
        (b"CC", Value::Truth(coalesce)),
    ]
}

/// Returns the fields of an ack or a response to the query that has the time `time` and the ID `id`.
fn answer_fields<'a>(
    (time, id): (u64, u64),
    from: &'a [u8],
    flags: u64,
    payload: &'a [u8],
) -> [Field<'a>; 5] {
    [
        (b"LTime", Value::Number(time)),
        (b"ID", Value::Number(id)),
        (b"From", Value::Text(from)),
        (b"Flags", Value::Number(flags)),
        (b"Payload", Value::Text(payload)),
    ]
}

/// Returns `number` or, from time to time, a number that is one less or one more.
fn or_near(rng: &mut Rng, number: u64) -> u64 {
    if rng.one_in(5) {
        rng.near(number)
    } else {
        number
    }
}

/// Returns the time and the ID of the query to which an ack or a response belongs. Both numbers are equal or close to
/// those of the last query.
fn answer_names(generator: &mut Generator) -> (u64, u64) {
    let last = generator.query;
    let time = or_near(&mut generator.rng, last.time);
    (time, or_near(&mut generator.rng, last.id))
}

/// Appends the field that contains the events of a slot in a state. The slot has `count` events.
fn write_events(
    generator: &mut Generator,
    packet_builder: &mut PacketBuilder,
    count: u64,
) -> Result<(), AllocError> {
    packet_builder.write_field(b"Events", Value::Items(count))?;
    for _event in 0..count {
        let name = [letter(&mut generator.rng)];
        let texts = [
            (b"Name".as_slice(), Value::Text(&name)),
            (b"Payload", Value::Text(b"")),
        ];
        packet_builder.write_map(&texts, 5)?;
    }
    Ok(())
}

/// Returns a packet of the kind `verb` from outside the cluster. The times in this packet are at the edges of the
/// generator's `tracks`.
pub(crate) fn stranger(
    generator: &mut Generator,
    sent: &[Bytes],
    verb: Verb,
) -> Result<Vec<u8>, AllocError> {
    match verb {
        Verb::Spoil => spoil(generator, sent),
        verb => canonical(generator, verb),
    }
}

/// Returns a packet from outside the cluster with a message of the kind that `verb` names, written in canonical form.
fn canonical(generator: &mut Generator, verb: Verb) -> Result<Vec<u8>, AllocError> {
    let mut packet_builder = PacketBuilder::canonical(generator.alloc, message_type(verb))?;
    match verb {
        Verb::Query => write_query(generator, &mut packet_builder)?,
        Verb::Answer => write_answer(generator, &mut packet_builder)?,
        Verb::State => write_state(generator, &mut packet_builder)?,
        _ => write_event(generator, &mut packet_builder)?,
    }
    packet_builder.finish()
}

/// Appends the map of an event. From time to time, the event has a long payload.
fn write_event(
    generator: &mut Generator,
    packet_builder: &mut PacketBuilder,
) -> Result<(), AllocError> {
    let time = generator.event_edge();
    let name = name(generator)?;
    let payload = if generator.kind == Kind::Limits || generator.rng.one_in(60) {
        long_text(generator, 9_216)?
    } else {
        payload(generator)?
    };
    let coalesce = generator.rng.one_in(2);
    packet_builder.write_map(&event_fields(time, &name, &payload, coalesce), 1)
}

/// Returns the fields of a query that has the given time, name and filters. The query's ID, flags and timeout are
/// chosen with `rng`.
fn query_fields<'a>(
    rng: &mut Rng,
    time: u64,
    name: &'a [u8],
    filters: &'a [Bytes],
) -> [Field<'a>; 7] {
    let id = rng.pick(&[0, 1, 2, 0xffff_ffff, 0x1_0000_0000], 0);
    let flags = rng.pick(&[0, 1, 2, 3, 4, 7], 0);
    let timeout = rng.pick(&[0, 1, 10, 1_000, -1, i64::MIN, i64::MAX], 10);
    [
        (b"LTime", Value::Number(time)),
        (b"ID", Value::Number(id)),
        (b"Flags", Value::Number(flags)),
        (b"Timeout", Value::Signed(timeout)),
        (b"Name", Value::Text(name)),
        (b"SourceNode", text(b"z")),
        (b"Filters", Value::Texts(filters)),
    ]
}

/// Appends the map of a query.
fn write_query(
    generator: &mut Generator,
    packet_builder: &mut PacketBuilder,
) -> Result<(), AllocError> {
    let time = generator.query_edge();
    let name = name(generator)?;
    let filters = filters(generator)?;
    let fields = query_fields(&mut generator.rng, time, &name, filters.as_slice());
    packet_builder.write_map(&fields, 1)
}

/// Appends the map of an ack or a response to a query whose time and ID are equal or close to those of the last query.
fn write_answer(
    generator: &mut Generator,
    packet_builder: &mut PacketBuilder,
) -> Result<(), AllocError> {
    let names = answer_names(generator);
    let from = [letter(&mut generator.rng)];
    let flags = generator.rng.pick(&[0, 0, 1, 1, 2, 3], 0);
    let payload = payload(generator)?;
    packet_builder.write_map(&answer_fields(names, &from, flags, &payload), 1)
}

/// Returns the slots of a state, with the time and the number of events of each slot.
fn slots(generator: &mut Generator) -> Result<Vec<(u64, u64)>, AllocError> {
    let mut slots = Vec::new(generator.alloc);
    for _slot in 0..generator.rng.below(5) {
        slots.push((generator.event_edge(), generator.rng.below(4)))?;
    }
    Ok(slots)
}

/// Appends the map of a state.
fn write_state(
    generator: &mut Generator,
    packet_builder: &mut PacketBuilder,
) -> Result<(), AllocError> {
    let slots = slots(generator)?;
    let clock = generator.rng.below(20);
    let event_clock = generator.event_edge();
    let query_clock = generator.query_edge();
    packet_builder.put(Value::Pairs(4))?;
    packet_builder.write_field(b"LTime", Value::Number(clock))?;
    packet_builder.write_field(b"EventLTime", Value::Number(event_clock))?;
    packet_builder.write_field(b"Events", Value::Items(slots.len() as u64))?;
    for (time, count) in &slots {
        packet_builder.put(Value::Pairs(2))?;
        packet_builder.write_field(b"LTime", Value::Number(*time))?;
        write_events(generator, packet_builder, *count)?;
    }
    packet_builder.write_field(b"QueryLTime", Value::Number(query_clock))
}

/// Returns a damaged packet, made from one of the last packets in `sent` or from an event from outside the cluster. The
/// damaged packet is cut off, or it contains an additional or a changed byte.
fn spoil(generator: &mut Generator, sent: &[Bytes]) -> Result<Vec<u8>, AllocError> {
    let number = (sent.len() as u64).saturating_sub(generator.rng.below(8));
    let mut packet = match sent.get(number as usize) {
        Some(packet) => Vec::from_slice(generator.alloc, packet.as_slice())?,
        None => canonical(generator, Verb::Event)?,
    };
    let at = generator.rng.below(packet.len() as u64) as usize;
    match generator.rng.below(4) {
        0 => packet.truncate(at),
        1 => packet.push(generator.rng.below(256) as u8)?,
        _ => {
            let byte = generator.rng.below(256) as u8;
            if let Some(place) = packet.get_mut(at) {
                *place = byte;
            }
        }
    }
    Ok(packet)
}

/// Returns a packet from outside the cluster with a message of the kind that `verb` names, written in any spelling. One
/// time in three, the packet also contains an error.
pub(crate) fn spelled(generator: &mut Generator, verb: Verb) -> Result<Vec<u8>, AllocError> {
    let seed = generator.rng.roll();
    let parts_before_error = if generator.rng.one_in(3) {
        let parts = generator.rng.pick(&[4, 10, 24, 48], 10);
        Some(generator.rng.below(parts))
    } else {
        None
    };
    let mut packet_builder = PacketBuilder::free(
        generator.alloc,
        message_type(verb),
        seed,
        parts_before_error,
    )?;
    match verb {
        Verb::State => spell_state(generator, &mut packet_builder)?,
        Verb::Query => spell_query(generator, &mut packet_builder)?,
        Verb::Answer => spell_answer(generator, &mut packet_builder)?,
        _ => spell_event(generator, &mut packet_builder)?,
    }
    packet_builder.finish()
}

/// Returns a packet that consists of a type byte and up to three bytes after it. The type byte is that of one of Serf's
/// messages, or it belongs to no message. From time to time, the packet is empty.
pub(crate) fn foreign(alloc: Global, rng: &mut Rng) -> Result<Vec<u8>, AllocError> {
    let kind = rng.pick(&[0, 1, 6, 7, 8, 9, 2, 3, 4, 5, 10, 127, 128, 255], 0);
    let mut packet = Vec::from_slice(alloc, &[kind])?;
    for _byte in 0..rng.below(4) {
        packet.push(rng.below(256) as u8)?;
    }
    if rng.one_in(20) {
        packet.truncate(0);
    }
    Ok(packet)
}

/// Appends the map of an event. From time to time, the event's name and payload together have the maximum length, or
/// nearly the maximum.
fn spell_event(
    generator: &mut Generator,
    packet_builder: &mut PacketBuilder,
) -> Result<(), AllocError> {
    let name = name(generator)?;
    let payload = payload_or_full(generator, &name, 6)?;
    let time = generator.event_edge();
    let coalesce = generator.rng.one_in(2);
    packet_builder.write_map(&event_fields(time, &name, &payload, coalesce), 1)
}

/// Timeouts, including some at the ends of the ranges of MessagePack's signed numbers.
const TIMEOUTS: [i64; 11] = [
    0,
    1,
    10,
    1_000,
    -1,
    -32,
    -33,
    -129,
    -32_769,
    i64::MIN,
    i64::MAX,
];

/// Returns all fields of a query that has the given name, payload and filters. Many of the query's numbers are at the
/// ends of their ranges.
fn spelled_fields<'a>(
    generator: &mut Generator,
    name: &'a [u8],
    payload: &'a [u8],
    filters: &'a [Bytes],
) -> [Field<'a>; 11] {
    let time = generator.query_edge();
    let rng = &mut generator.rng;
    let id = rng.pick(&[0, 1, 2, 7, 0xffff_ffff, 0x1_0000_0000], 0);
    let port = rng.pick(&[0, 0, 0, 7_946, 0xffff, 0x1_0000], 0);
    let flags = rng.pick(&[0, 1, 1, 2, 3, 4, 7, 0xffff_ffff], 0);
    let relay_factor = rng.pick(&[0, 0, 0, 1, 0xff, 0x100], 0);
    let timeout = rng.pick(&TIMEOUTS, 10);
    [
        (b"LTime", Value::Number(time)),
        (b"ID", Value::Number(id)),
        (b"Addr", text(b"\x7f\x00\x00\x01")),
        (b"Port", Value::Number(port)),
        (b"SourceNode", text(b"z")),
        (b"Filters", Value::Texts(filters)),
        (b"Flags", Value::Number(flags)),
        (b"RelayFactor", Value::Number(relay_factor)),
        (b"Timeout", Value::Signed(timeout)),
        (b"Name", Value::Text(name)),
        (b"Payload", Value::Text(payload)),
    ]
}

/// Appends the map of a query, with all the fields that a query may have.
fn spell_query(
    generator: &mut Generator,
    packet_builder: &mut PacketBuilder,
) -> Result<(), AllocError> {
    let name = name(generator)?;
    let payload = payload(generator)?;
    let filters = filters(generator)?;
    let fields = spelled_fields(generator, &name, &payload, filters.as_slice());
    packet_builder.write_map(&fields, 1)
}

/// Appends the map of an ack or a response to the last query. From time to time, the map contains a slightly different
/// time or ID, or a time that no query has.
fn spell_answer(
    generator: &mut Generator,
    packet_builder: &mut PacketBuilder,
) -> Result<(), AllocError> {
    let (last, id) = answer_names(generator);
    let time = generator
        .rng
        .pick(&[last, last, last, last, last, last, u64::MAX], last);
    let from = [letter(&mut generator.rng)];
    let payload = payload(generator)?;
    let flags = generator.rng.pick(&[0, 0, 1, 1, 2, 3, 0xffff_ffff], 0);
    packet_builder.write_map(&answer_fields((time, id), &from, flags, &payload), 1)
}

/// Appends a slot of a state. The time and the events of the slot are in any order, and keys that don't belong in a
/// slot may be among them.
fn spell_slot(
    generator: &mut Generator,
    packet_builder: &mut PacketBuilder,
) -> Result<(), AllocError> {
    let order = packet_builder.write_head(2)?;
    for at in &order {
        match *at {
            0 => packet_builder.write_field(b"LTime", Value::Number(generator.event_edge()))?,
            1 => {
                let count = generator.rng.below(3);
                write_events(generator, packet_builder, count)?;
            }
            _ => packet_builder.write_unknown(3)?,
        }
    }
    Ok(())
}

/// Appends the field that contains the slots of a state. Some of these slots are nil.
fn spell_slots(
    generator: &mut Generator,
    packet_builder: &mut PacketBuilder,
) -> Result<(), AllocError> {
    let count = generator.rng.below(4);
    packet_builder.write_field(b"Events", Value::Items(count))?;
    for _slot in 0..count {
        if generator.rng.one_in(6) {
            packet_builder.put(Value::Nil)?;
        } else {
            spell_slot(generator, packet_builder)?;
        }
    }
    Ok(())
}

/// Appends the field in which a state lists the status times of some nodes. A time of 0 may be written as nil.
fn write_statuses(rng: &mut Rng, packet_builder: &mut PacketBuilder) -> Result<(), AllocError> {
    let count = rng.below(4);
    packet_builder.write_field(b"StatusLTimes", Value::Pairs(count))?;
    for _node in 0..count {
        let node = [letter(rng)];
        let time = rng.pick(&[0, 0, 1, 300, u64::MAX], 0);
        packet_builder.write_field(&node, Value::Number(time))?;
    }
    Ok(())
}

/// Appends the field in which a state lists the nodes that have left the cluster.
fn write_left(rng: &mut Rng, packet_builder: &mut PacketBuilder) -> Result<(), AllocError> {
    let count = rng.below(3);
    packet_builder.write_field(b"LeftMembers", Value::Items(count))?;
    for _node in 0..count {
        let node: &[u8] = rng.pick(&[b"a".as_slice(), b"", b"node"], b"");
        packet_builder.put(Value::Text(node))?;
    }
    Ok(())
}

/// Appends the map of a state. The six fields of the state are in any order, and keys that don't belong in a state may
/// be among them.
fn spell_state(
    generator: &mut Generator,
    packet_builder: &mut PacketBuilder,
) -> Result<(), AllocError> {
    let order = packet_builder.write_head(6)?;
    for at in &order {
        match *at {
            0 => packet_builder.write_field(b"LTime", Value::Number(generator.rng.below(20)))?,
            1 => write_statuses(&mut generator.rng, packet_builder)?,
            2 => write_left(&mut generator.rng, packet_builder)?,
            3 => packet_builder.write_field(b"EventLTime", Value::Number(generator.event_edge()))?,
            4 => spell_slots(generator, packet_builder)?,
            5 => packet_builder.write_field(b"QueryLTime", Value::Number(generator.query_edge()))?,
            _ => packet_builder.write_unknown(1)?,
        }
    }
    Ok(())
}
