//! Explains why an action is refused.

use crate::marks::Plan;
use crate::quoted::say;
use crate::turn_context::{
    Actor, TurnContext, message_of, moment_of, named, number_in, packet_len,
};
use serf_lamport::Time;
use serf_model::{Act, Refusal};
use serf_text::{Part, write_template};
use serf_wire::{Message, UserEvent, user_event_len};
use std::alloc::AllocError;

/// Appends `call`, the words for the disk call that failed. If `plan` contains a planned failure, the function also
/// appends the number of the action that planned the failure, and the number of the call that was to fail.
fn write_plan(out: &mut Vec<u8>, call: &[u8], plan: Plan) -> Result<(), AllocError> {
    out.extend_from_slice(call)?;
    if plan.count == 0 {
        return Ok(());
    }
    say(out, b", as action ", plan.action)?;
    say(out, b" had planned of number ", plan.count)?;
    out.extend_from_slice(b" from then on")
}

/// Appends an explanation of a disk error, which names the disk call that failed and states that the agent is stopped.
pub(crate) fn write_sink_error(out: &mut Vec<u8>, actor: &Actor) -> Result<(), AllocError> {
    let before = actor.before;
    write_template(out, b"the disk of ~", &[named(actor.agent)])?;
    match actor.act {
        Act::Compact => write_plan(out, b" failed at a replace", before.replace)?,
        _ if before.flush.count == 0 => write_plan(out, b" failed at an append", before.append)?,
        _ if before.append.count == 0 => write_plan(out, b" failed at a flush", before.flush)?,
        _ => {
            write_plan(out, b" failed at an append", before.append)?;
            write_plan(out, b" or a flush", before.flush)?;
        }
    }
    out.extend_from_slice(b"; it is stopped until it is opened again")
}

/// Appends the statement that the agent has already counted the maximum number of answers, and the name of the node
/// that sent another answer.
fn write_responders(
    out: &mut Vec<u8>,
    context: &TurnContext,
    counted: u64,
) -> Result<(), AllocError> {
    match message_of(context) {
        Some(Message::QueryResponse(answer)) => {
            let (time, id) = (
                Part::Number(answer.time),
                Part::Number(u64::from(answer.id)),
            );
            let words =
                b"query ~ with ID ~ has answers of ~ nodes, as many as are counted; ~ is one more";
            let (counted, from) = (Part::Number(counted), Part::Quoted(answer.from));
            write_template(out, words, &[time, id, counted, from])
        }
        _ => say(out, b"as many are counted as may be: ", counted),
    }
}

/// Returns the length in bytes of the packet that the agent would send if it fired this event. Returns `None` if the
/// value of the event clock can't be converted to a valid time.
fn fired_len(actor: &Actor, name: &[u8], payload: &[u8], coalesce: bool) -> Option<u64> {
    let time = Time::new(actor.agent.event_time().min(u64::MAX - 1))?;
    let event = UserEvent {
        time,
        name,
        payload,
        coalesce,
    };
    Some(user_event_len(&event).min(u64::MAX as u128) as u64)
}

/// Appends an explanation of why an event is too large to be fired.
fn write_large_event(
    out: &mut Vec<u8>,
    actor: &Actor,
    name: &[u8],
    payload: &[u8],
    coalesce: bool,
) -> Result<(), AllocError> {
    let texts = (name.len() as u64).saturating_add(payload.len() as u64);
    say(out, b"name and payload have ", texts)?;
    if let Some(packet) = fired_len(actor, name, payload, coalesce) {
        say(out, b" bytes together, and the packet ", packet)?;
    }
    say(out, b"; at most ", actor.agent.config().event_limit)?;
    out.extend_from_slice(b" may be fired")
}

/// Appends an explanation of why an event or a query is too large to be fired, or why a response is too large to be
/// sent.
fn write_too_large(out: &mut Vec<u8>, actor: &Actor) -> Result<(), AllocError> {
    let config = actor.agent.config();
    match actor.act {
        Act::Fire {
            name,
            payload,
            coalesce,
        } => write_large_event(out, actor, name.as_slice(), payload.as_slice(), *coalesce),
        Act::Query(query) => {
            let query = query.get();
            let name = query.name.as_slice().len() as u64;
            let texts = name.saturating_add(query.payload.as_slice().len() as u64);
            write_template(
                out,
                b"the query's packet, whose name and payload have ~ bytes together, is longer than ~ bytes",
                &[Part::Number(texts), Part::Number(config.query_limit)],
            )
        }
        Act::Respond { payload, .. } => {
            let bytes = payload.as_slice().len() as u64;
            write_template(
                out,
                b"the answer's packet, whose payload has ~ bytes, is longer than ~ bytes",
                &[Part::Number(bytes), Part::Number(config.response_limit)],
            )
        }
        _ => out.extend_from_slice(b"the packet is too long"),
    }
}

/// Appends the statement that packet number `number` doesn't exist, together with the number of packets that were sent.
fn write_no_message(
    out: &mut Vec<u8>,
    context: &TurnContext,
    number: u64,
) -> Result<(), AllocError> {
    let sent = Part::Number(context.world.sent().len() as u64);
    let words = b"there is no packet ~: packets are counted from 0, and ~ were sent";
    write_template(out, words, &[Part::Number(number), sent])
}

/// Appends the statement that only a whole state can be merged, and names the kind of message that the packet contains.
fn write_not_push_pull(out: &mut Vec<u8>, context: &TurnContext) -> Result<(), AllocError> {
    let kind: &[u8] = match message_of(context) {
        Some(Message::UserEvent(_)) => b"a user event",
        Some(Message::Query(_)) => b"a query",
        Some(Message::QueryResponse(_)) => b"an answer to a query",
        _ => b"a message of another part of Serf",
    };
    let words = b"the packet is ~, and only a whole state is merged";
    write_template(out, words, &[Part::Text(kind)])
}

/// Appends an explanation of why an agent refuses an action.
pub(crate) fn write_refusal(
    out: &mut Vec<u8>,
    context: &TurnContext,
    actor: &Actor,
    refusal: Refusal,
) -> Result<(), AllocError> {
    let number = number_in(actor.act);
    match refusal {
        Refusal::NoAgent => out.extend_from_slice(b"no agent has this number"),
        Refusal::NoMessage => write_no_message(out, context, number),
        Refusal::NoQuery => write_template(
            out,
            b"no query of number ~ was handed to ~ in this life, or it is answered",
            &[Part::Number(number), named(actor.agent)],
        ),
        Refusal::Stopped => write_template(
            out,
            b"the disk of ~ failed at action ~, and it was not opened again since",
            &[named(actor.agent), Part::Number(actor.before.stopped)],
        ),
        Refusal::TooLarge => write_too_large(out, actor),
        Refusal::TooLong => { out.extend_from_slice(b"a text or a list is longer than 4294967295") }
        Refusal::Exhausted => {
            out.extend_from_slice(b"the clock is at 18446744073709551615, which isn't a time")
        }
        Refusal::ZeroTimeout => {
            out.extend_from_slice(b"a query with a timeout of 0 accepts no answer")
        }
        Refusal::PastDeadline => {
            let now = moment_of(actor.act);
            say(out, b"the query's deadline is before ", now)
        }
        Refusal::NotPushPull => write_not_push_pull(out, context),
        Refusal::RespondersFull => write_responders(out, context, actor.agent.config().responders),
        Refusal::SinkError => write_sink_error(out, actor),
        Refusal::Wire(_) => write_template(
            out,
            b"its ~ bytes aren't a message: the line above has the error and its position",
            &[Part::Number(packet_len(context))],
        ),
    }
}
