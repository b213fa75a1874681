//! Explains why a delivered event is ignored.

ghost use Rattle.std.specs.Prelude.{◌≡◌, ◌++◌, ◌∷◌, [], ℕ, List, Ok, OnOk};
ghost use Rattle.std.specs.Option.{option_map};
ghost use Rattle.serf_wire.specs.Decoded.{decoded};
ghost use Rattle.serf_wire.specs.Message.{message_of};
ghost use Rattle.serf_window.specs.Texts.{event_of};
ghost use Rattle.serf_explain.specs.Because.{AddsSuch, GrowsBy};
ghost use Rattle.serf_explain.specs.Explained.{IsIgnored, OfIgnored};
ghost use Rattle.serf_explain.specs.Deliveries.{NamesSeen, handed_words, name_at, records_in};
ghost use Rattle.serf_explain.specs.Leaving.{ignored_words, numbers_of, takes_events};
ghost use Rattle.serf_explain.specs.Recorded.{delivered_as, event_as};
ghost use Rattle.serf_explain.specs.Seen.{event_delivered, event_read};

use crate::deliveries::Event;
use crate::left::{Takes, first_words, write_ignored_detail};
use crate::quoted::{say, write_because, write_event};
use crate::reasons::{USUAL_BYTES, write_lone};
use crate::turn_context::TurnContext;
use serf_agent::{Agent, Reason};
use serf_model::{Act, Action, packet_at};
use serf_snapshot::MemorySink;
use serf_text::write_quoted;
use serf_wire::{Message, decode};
use std::alloc::{AllocError, Global};

/// An event that is delivered to agent number `to`.
#[derive(Clone, Copy)]
pub(crate) struct Delivered<'a> {
    pub(crate) to: u64,
    pub(crate) event: Event<'a>,
}

/// Returns the event if `message` is a user event, and `None` otherwise.
fn event_read<'a>(message: &Message<'a>) -> Option<Event<'a>>
    ensures { option_map event_as result ≡ event_read (Ok (message_of message.now)) }
{
    match message {
        Message::UserEvent(event) => Some(Event::of(event)),
        Message::Query(_)
        | Message::QueryResponse(_)
        | Message::PushPull(_)
        | Message::Foreign(_) => None,
    }
}

/// Returns the user event in `packet`, or `None` if the packet doesn't contain a user event.
fn event_in(packet: &[u8]) -> Option<Event<'_>>
    ensures { option_map event_as result ≡ event_read (decoded packet.now) }
{
    match decode(packet) {
        Ok(message) => event_read(&message),
        Err(_) => None,
    }
}

/// Returns the event that the action of this turn delivers, or `None` if the action delivers no event.
fn seen_event<'a>(context: &TurnContext<'a>) -> Option<Delivered<'a>>
    ensures { option_map delivered_as result
        ≡ event_delivered context.now.world.now.sent context.now.action.now }
{
    let Action::Of {
        agent,
        act: Act::Deliver { packet, .. },
    } = context.action
    else {
        return None;
    };
    let event = event_in(packet_at(context.world.sent(), *packet)?)?;
    Some(Delivered { to: *agent, event })
}

/// Appends the statement that action number `handed` handed `event` to the agent called `name`. If `handed` is `None`,
/// the statement is instead that the agent was opened on a text that contains the event's line.
#[tactic(auto, unfolding(crate::specs::Deliveries::handed_words, crate::specs::Seen::tailed_words))]
pub(crate) fn write_handed(
    out: &mut Vec<u8>,
    name: &[u8],
    event: &Event,
    handed: Option<u64>,
) -> Result<(), AllocError>
    ensures { OnOk result (out.new.items ≡ out.old.items ++ handed_words name.now event.now.time
        (event_of event.now.name.now event.now.payload.now) handed) }
{
    write_quoted(out, name)?;
    match handed {
        Some(number) => {
            out.extend_from_slice(b" was handed ")?;
            write_event(out, event.time, event.name, event.payload)?;
            say(out, b" at action ", number)
        }
        None => {
            out.extend_from_slice(b" was opened on a text with the line of ")?;
            write_event(out, event.time, event.name, event.payload)
        }
    }
}

/// Returns the name of agent number `agent`, or an empty name if no agent has this number.
fn name_of<'a>(context: &TurnContext<'a>, agent: u64) -> &'a [u8]
    ensures { result.now ≡ name_at context.now.world.now agent }
{
    match context.world.agent(agent) {
        Some(agent) => agent.config().name.as_slice(),
        None => b"",
    }
}

/// Appends the statement that an earlier action handed the delivered event to its agent, with the number of that
/// action. If no earlier action did so, the statement is instead that the agent was opened on a text that contains the
/// event's line.
fn write_seen(out: &mut Vec<u8>, context: &TurnContext, of: &Delivered) -> Result<(), AllocError>
    ensures { OnOk result (GrowsBy (λ text. NamesSeen
        (records_in context.now.past.now.deliveries.outs.items)
        (name_at context.now.world.now of.now.to)
        of.now.to of.now.event.time (event_as of.now.event).key text) out.old.items out.new.items) }
{
    let handed = context.past.deliveries.action_of(of.to, &of.event);
    write_handed(out, name_of(context, of.to), &of.event, handed)
}

/// Appends an explanation of why `agent` ignores a delivered event: the cause, `reason`, is the agent's minimum, its
/// clock or one of its limits.
fn write_left_event(
    out: &mut Vec<u8>,
    context: &TurnContext,
    agent: &Agent<MemorySink>,
    of: &Delivered,
    reason: Reason,
) -> Result<(), AllocError>
    ensures { OnOk result (out.new.items ≡ out.old.items ++ ignored_words (takes_events
        (numbers_of context.now.past.now.marks of.now.to).event_minimum agent.now.concrete
        context.now.number) of.now.event.time (event_as of.now.event).key reason) }
{
    let event = &of.event;
    let before = context.past.marks.of(of.to).numbers.event_minimum;
    let takes = Takes::events(agent, &before, context.number);
    write_event(out, event.time, event.name, event.payload)?;
    out.extend_from_slice(b": ")?;
    out.extend_from_slice(first_words(reason))?;
    write_ignored_detail(out, &takes, b"event", event.time, event.bytes(), reason)
}

/// Appends an explanation of `reason`, the reason why a delivered event is ignored. Either the agent has already seen
/// the event, or the agent's limits exclude the event.
#[tactic(auto, using(crate::proofs::LeftLaws::ignored_seen, crate::proofs::LeftLaws::ignored_left, crate::proofs::LeftLaws::ignored_nobody))]
fn write_ignored_event(
    out: &mut Vec<u8>,
    context: &TurnContext,
    of: &Delivered,
    reason: Reason,
) -> Result<(), AllocError>
    ensures { OnOk result (GrowsBy (IsIgnored reason context.now.past.now context.now.number
        context.now.world.now of.now.to (event_as of.now.event)) out.old.items out.new.items) }
{
    match reason {
        Reason::Seen => write_seen(out, context, of),
        _ => match context.world.agent(of.to) {
            Some(agent) => write_left_event(out, context, agent, of, reason),
            None => Ok(()),
        },
    }
}

/// Appends the line that explains `reason`, the reason why a delivered event is ignored.
fn write_delivered(
    alloc: Global,
    out: &mut Vec<u8>,
    context: &TurnContext,
    of: &Delivered,
    reason: Reason,
) -> Result<(), AllocError>
    ensures { OnOk result (AddsSuch (λ reasons. (text : List ℕ) × (reasons ≡ text ∷ [])
        × IsIgnored reason context.now.past.now context.now.number context.now.world.now of.now.to
        (event_as of.now.event) text) context.now.number out.old.items out.new.items) }
{
    let mut text = Vec::with_capacity(alloc, USUAL_BYTES)?;
    write_ignored_event(&mut text, context, of, reason)?;
    write_because(out, context.number, &text)
}

/// Appends the line that explains `reason`, the reason why the agent ignores the delivered message (an event, a query,
/// or an answer to a query).
pub(crate) fn write_delivery_ignored(
    alloc: Global,
    out: &mut Vec<u8>,
    context: &TurnContext,
    reason: Reason,
) -> Result<(), AllocError>
    ensures { OnOk result (AddsSuch (OfIgnored reason context.now.past.now context.now.number
        context.now.world.now context.now.action.now) context.now.number out.old.items
        out.new.items) }
{
    match seen_event(context) {
        Some(of) => write_delivered(alloc, out, context, &of, reason),
        None => write_lone(alloc, out, context),
    }
}
