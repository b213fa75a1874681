//! Writes the reasons of an action: each sentence of the plain text, together with a code and with the numbers that
//! belong to the sentence.

ghost use Rattle.std.specs.Prelude.{OnOk, codes};
ghost use Rattle.serf_run_json.specs.Objects.{AddsObjects};

use crate::acts::actor_members;
use crate::carried::{CarriedEvent, carried_events};
use crate::messages::packet_members;
use crate::results::{answer_and_code, code_of};
use serf_agent::Agent;
use serf_json::Member::{self, Absent, Bytes, Number, Text};
use serf_json::write_joined;
use serf_model::{Act, Action, Answer};
use serf_snapshot::MemorySink;
use serf_text::{number, split_once};
use serf_wire::{Message, decode};
use serf_world::World;
use std::alloc::{AllocError, Global};

/// Returns the reason in a line of the plain text, without the action's number and the word `because`. If the line
/// contains no reason, returns `None`.
fn reason_in(line: &[u8]) -> Option<&[u8]> {
    let (_number, rest) = split_once(line, b' ');
    rest?.strip_prefix(b"because ")
}

/// Returns the part of `text` that follows the first text in quotes. A text in quotes never contains a quote itself.
fn after_quoted(text: &[u8]) -> &[u8] {
    let (_front, rest) = split_once(text, b'"');
    let (_quoted, rest) = split_once(rest.unwrap_or(&[]), b'"');
    rest.unwrap_or(&[])
}

/// Returns the verdict in a reason that begins with the word `slot`. In such a reason, the verdict follows the name and
/// the payload of an event.
fn verdict_in(reason: &[u8]) -> &[u8] {
    let rest = after_quoted(after_quoted(reason));
    let (_length, verdict) = split_once(rest, b':');
    verdict.unwrap_or(&[])
}

/// The first words of each verdict on an event in a state, and the code of this verdict.
const VERDICTS: [(&[u8], &[u8]); 7] = [
    (b" new, and handed out", b"new"),
    (b" new, but ", b"SinkFault"),
    (b" too large: ", b"Oversize"),
    (b" below the minimum time ", b"BelowMinimum"),
    (b" too old: ", b"TooOld"),
    (b" seen: ", b"Seen"),
    (b" too many of its time: ", b"TimeFull"),
];

/// Returns the code of a reason that begins with the word `slot`.
fn verdict_code(reason: &[u8]) -> &'static [u8] {
    let verdict = verdict_in(reason);
    for (words, code) in VERDICTS.iter() {
        if verdict.starts_with(words) {
            return code;
        }
    }
    b"merged"
}

/// Returns the code of a reason that names no event, when the action is a merge.
fn merge_code(reason: &[u8], answer: &Answer) -> &'static [u8] {
    if reason.starts_with(b"the join ignores old events") {
        b"raised"
    } else if reason == b"the state carries no event".as_slice() {
        b"carries-nothing"
    } else {
        code_of(answer)
    }
}

/// If a reason ends in an action's number, as in `at action 3`, returns the JSON member `earlier` with this number. For
/// any other reason, returns an absent member.
fn earlier_action<'a>(reason: &[u8]) -> Member<'a> {
    let mut words = reason.rsplit(|byte| *byte == b' ');
    let (Some(last), Some(before)) = (words.next(), words.next()) else {
        return Absent;
    };
    match number(last) {
        Some(action) if before == b"action".as_slice() => Number(b"earlier", action),
        _ => Absent,
    }
}

/// Returns the JSON members that contain an agent's limits for events.
fn event_limits<'a>(agent: &Agent<MemorySink>) -> [Member<'a>; 3] {
    [
        Number(b"minimum", agent.event_minimum()),
        Number(b"clock", agent.event_time()),
        Number(b"buffer", agent.config().event_buffer),
    ]
}

/// Returns the JSON members that contain an agent's limits for queries.
fn query_limits<'a>(agent: &Agent<MemorySink>) -> [Member<'a>; 3] {
    [
        Number(b"minimum", agent.query_minimum()),
        Number(b"clock", agent.query_time()),
        Number(b"buffer", agent.config().query_buffer),
    ]
}

/// Returns the JSON members that describe an event in a state.
fn carried_members<'a>(event: &CarriedEvent<'a>) -> [Member<'a>; 4] {
    [
        Number(b"time", event.time),
        Absent,
        Bytes(b"name", event.name),
        Bytes(b"payload", event.payload),
    ]
}

/// Returns the JSON members that contain an agent's limits for messages of the same kind as `message`.
fn message_limits<'a>(agent: &Agent<MemorySink>, message: &Message) -> [Member<'a>; 3] {
    match message {
        Message::UserEvent(_) | Message::PushPull(_) => event_limits(agent),
        Message::Query(_) => query_limits(agent),
        _ => [Absent, Absent, Absent],
    }
}

/// Returns the JSON members that contain the acting agent's limits for messages of the same kind as the message in
/// `packet`.
fn limits_of<'a>(world: &World, action: &Action, packet: &[u8]) -> [Member<'a>; 3] {
    let none = [Absent, Absent, Absent];
    let Some(actor) = action.actor() else {
        return none;
    };
    let Some(agent) = world.agent(actor) else {
        return none;
    };
    match decode(packet) {
        Ok(message) => message_limits(agent, &message),
        Err(_) => none,
    }
}

/// The JSON members that all reasons of an action have in common.
#[derive(Clone, Copy)]
struct Reasons<'a> {
    number: u64,
    agent: (Member<'a>, Member<'a>),
    /// The first word of the action's answer.
    answer: &'static [u8],
    /// The JSON member that contains the number of the packet that the action passes to its agent.
    packet: Member<'a>,
    about: [Member<'a>; 4],
    limits: [Member<'a>; 3],
}

/// Returns the JSON member that contains the number of the packet that an action passes to its agent.
fn packet_member<'a>(action: &Action) -> Member<'a> {
    match action {
        Action::Of {
            act: Act::Deliver { packet, .. } | Act::Merge { packet, .. },
            ..
        } => Number(b"packet", *packet),
        _ => Absent,
    }
}

/// Appends the object of a reason. The argument `about` contains the JSON members that describe the event or the
/// message to which the reason applies.
fn write_reason<'a>(
    out: &mut Vec<u8>,
    reasons: &Reasons<'a>,
    code: &'a [u8],
    text: &'a [u8],
    slot: Member<'a>,
    about: &[Member<'a>; 4],
) -> Result<(), AllocError>
    ensures { OnOk result (AddsObjects (codes "reason") out.old.items out.new.items) }
{
    let (agent, name) = reasons.agent;
    let earlier = if code == b"Seen".as_slice() {
        earlier_action(text)
    } else {
        Absent
    };
    let front = [
        Number(b"action", reasons.number),
        agent,
        name,
        Text(b"answer", reasons.answer),
        Text(b"code", code),
        Text(b"text", text),
        reasons.packet,
        earlier,
    ];
    let [time, id, name, payload] = *about;
    let [minimum, clock, buffer] = reasons.limits;
    let rest = [slot, time, id, name, payload, minimum, clock, buffer];
    write_joined(out, b"reason", &front, &rest)
}

/// Appends the object of the reason in `reason`. The argument `carried` contains the events that the merged state
/// carries, and `next` is the index of the first event that no earlier reason covers. Returns the index of the first
/// event that is still not covered after the new reason.
fn write_next<'a>(
    out: &mut Vec<u8>,
    reasons: &Reasons<'a>,
    reason: &'a [u8],
    answer: &Answer,
    carried: &[CarriedEvent<'a>],
    next: usize,
) -> Result<usize, AllocError>
    ensures { OnOk result (AddsObjects (codes "reason") out.old.items out.new.items) }
{
    if !reason.starts_with(b"slot ") {
        write_reason(
            out,
            reasons,
            merge_code(reason, answer),
            reason,
            Absent,
            &reasons.about,
        )?;
        return Ok(next);
    }
    let Some(event) = carried.get(next) else {
        write_reason(
            out,
            reasons,
            merge_code(reason, answer),
            reason,
            Absent,
            &reasons.about,
        )?;
        return Ok(next);
    };
    let (slot, about) = (Number(b"slot", event.slot), carried_members(event));
    write_reason(out, reasons, verdict_code(reason), reason, slot, &about)?;
    Ok(next.saturating_add(1))
}

/// Appends an object for each reason in `text`. In `text`, which is the plain text of an action, the reasons follow the
/// action's lines.
pub(crate) fn write_reasons<'a>(
    alloc: Global,
    out: &mut Vec<u8>,
    world: &'a World,
    number: u64,
    action: &'a Action,
    answer: &Answer,
    text: &'a [u8],
) -> Result<(), AllocError>
    ensures { OnOk result (AddsObjects (codes "reason") out.old.items out.new.items) }
{
    let packet = action.given(world.sent()).unwrap_or(&[]);
    let carried = carried_events(alloc, packet)?;
    let mut next = 0;
    let reasons = Reasons {
        number,
        agent: actor_members(world, action),
        answer: answer_and_code(answer).0,
        packet: packet_member(action),
        about: packet_members(packet),
        limits: limits_of(world, action, packet),
    };
    for line in text.split(|byte| *byte == b'\n') {
        if let Some(reason) = reason_in(line) {
            next = write_next(out, &reasons, reason, answer, carried.as_slice(), next)?;
        }
    }
    Ok(())
}
