//! Describes an action that was carried out: its line in the trace, and the facts to which the action's reasons may
//! refer.

ghost use Rattle.std.specs.Prelude.{◌≡◌};
ghost use Rattle.std.specs.Option.{option_map};
ghost use Rattle.serf_model.specs.Trace.{packet_given};
ghost use Rattle.serf_wire.specs.Message.{message_of};
ghost use Rattle.serf_explain.specs.Recorded.{message_given};

use crate::history::History;
use crate::marks::Marks;
use serf_agent::Agent;
use serf_model::{Act, Action, Line};
use serf_snapshot::MemorySink;
use serf_text::Part;
use serf_wire::{Bytes, Message, decode};
use serf_world::World;

/// A turn that is to be explained: an action and its line in the trace, the cluster after the action, and the history
/// of the earlier actions.
#[derive(Clone, Copy)]
pub(crate) struct TurnContext<'a> {
    /// The action's number, counted from 1.
    pub(crate) number: u64,
    pub(crate) world: &'a World,
    pub(crate) past: &'a History,
    pub(crate) action: &'a Action,
    pub(crate) line: &'a Line,
    /// The agent's new minimum for events if the action is a merge that raises this minimum, and `None` otherwise.
    pub(crate) raised: Option<u64>,
    /// If the action merges a state, one line for each event in that state, with the verdict that the event gets if the
    /// disk works. For any other action, `carried` is empty.
    pub(crate) carried: &'a [u8],
}

/// Returns the template part that shows the name of `agent` in quotes.
pub(crate) fn named(agent: &Agent<MemorySink>) -> Part<'_> {
    Part::Quoted(agent.config().name.as_slice())
}

/// Returns the message in the packet that `action` passes to its agent, or `None` if there is no such message. The list
/// `sent` contains the packets that were sent.
pub(crate) fn message_given<'a>(action: &Action, sent: &'a [Bytes]) -> Option<Message<'a>>
    ensures { option_map message_of result ≡ message_given (packet_given sent.now action.now) }
{
    match decode(action.given(sent)?) {
        Ok(message) => Some(message),
        Err(_) => None,
    }
}

/// Returns the message in the packet that the action of this turn passes to its agent, or `None` if there is no such
/// message.
pub(crate) fn message_of<'a>(context: &TurnContext<'a>) -> Option<Message<'a>>
    ensures { option_map message_of result ≡ message_given
        (packet_given context.now.world.now.sent context.now.action.now) }
{
    message_given(context.action, context.world.sent())
}

/// Returns the length in bytes of the packet that the action of this turn passes to its agent, or 0 if there is no such
/// packet.
pub(crate) fn packet_len(context: &TurnContext) -> u64 {
    match context.action.given(context.world.sent()) {
        Some(bytes) => bytes.len() as u64,
        None => 0,
    }
}

/// The agent that acts: its number, the act, the agent's state after the act, and the agent's marks before the act.
#[derive(Clone, Copy)]
pub(crate) struct Actor<'a> {
    pub(crate) number: u64,
    pub(crate) act: &'a Act,
    pub(crate) agent: &'a Agent<MemorySink>,
    pub(crate) before: Marks,
}

/// Returns agent number `number` as the actor that performs `act`, or `None` if no agent has this number.
pub(crate) fn actor_at<'a>(
    context: &TurnContext<'a>,
    number: u64,
    act: &'a Act,
) -> Option<Actor<'a>> {
    Some(Actor {
        number,
        act,
        agent: context.world.agent(number)?,
        before: context.past.marks.of(number),
    })
}

/// Returns the moment, in nanoseconds, at which `act` is performed, or 0 if the act doesn't name a moment.
pub(crate) fn moment_of(act: &Act) -> u64 {
    match act {
        Act::Deliver { now, .. } | Act::Respond { now, .. } | Act::Close { now } => *now,
        _ => 0,
    }
}

/// Returns the number of the packet that `act` passes to its agent, or the number of the query to which `act` responds.
/// If the act names neither a packet nor a query, the function returns 0.
pub(crate) fn number_in(act: &Act) -> u64 {
    match act {
        Act::Deliver { packet, .. } | Act::Merge { packet, .. } => *packet,
        Act::Respond { handed, .. } => *handed,
        _ => 0,
    }
}
