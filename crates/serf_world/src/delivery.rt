//! Passes a packet to an agent, which receives the message in it or merges the state in it.

ghost use Rattle.std.specs.Prelude.{◌≡◌, ◌≢◌, ◌∷◌, ◌++◌, [], IfOk, OnErr, Err, Some, slice_get, if◌then◌else◌};
ghost use Rattle.std.specs.Option.{option_to_list};
ghost use Rattle.serf_agent.specs.States.{error_in};
ghost use Rattle.serf_model.specs.Cluster.{IdealNode, delivers, merge_refusal_of, merges_given};
ghost use Rattle.serf_model.specs.Ready.{IsRepresentable};
ghost use Rattle.serf_world.specs.Turns.{TakesTurn, merge_answer};
ghost use Rattle.serf_world.specs.View.{node_of};

use crate::known_sizes::know_packet;
use crate::line::{
    line_only, line_with_event, line_with_events, line_with_query, query_packets, refused,
};
use crate::refusal::receive_refusal;
use crate::world::Node;
use serf_agent::{EventOut, MergeError, Outcome};
use serf_model::{Answer, Line, Refusal, merged_agents, packet_at};
use serf_wire::{Bytes, PushPull};
use std::alloc::{AllocError, Global};

/// Copies `packet` if it is to be sent on (`rebroadcast`). Otherwise returns `None`.
fn sent_on(alloc: Global, packet: &[u8], rebroadcast: bool) -> Result<Option<Bytes>, AllocError>
    ensures { IfOk result (λ copy. option_to_list copy
        ≡ (if rebroadcast then packet.now ∷ [] else [])) }
{
    if !rebroadcast {
        return Ok(None);
    }
    Ok(Some(Bytes::copy_of(alloc, packet)?))
}

/// Agent number `number`, in `node`, receives packet number `packet` of `sent` at the moment `now`, in nanoseconds. The
/// packet of a new event, and of a new query that is to be rebroadcast, is appended to `sent` unchanged.
#[inline(always)]
pub(crate) fn deliver_at(
    alloc: Global,
    number: u64,
    node: &mut Node,
    sent: &mut Vec<Bytes>,
    packet: u64,
    now: u64,
) -> Result<Line, AllocError>
    ensures turn { (m : IdealNode) → IsRepresentable m.agent → node.old ≡ node_of m
        → IfOk result (TakesTurn number sent.old.items sent.new.items
        (delivers m now (slice_get sent.old.items packet)) node.new) }
    ensures err { OnErr result (sent.new.items ≡ sent.old.items) }
{
    let Some(bytes) = packet_at(sent.as_slice(), packet) else {
        return Ok(refused(alloc, Refusal::NoMessage));
    };
    let received = node.agent.receive(alloc, now, bytes, false);
    match received {
        Ok(Outcome::Event(event)) => {
            let copy = Bytes::copy_of(alloc, bytes)?;
            let line = line_with_event(alloc, number, sent, Answer::New, copy, event)?;
            Ok(line)
        }
        Ok(
            Outcome::Query {
                handed: query,
                ack,
                rebroadcast,
            },
        ) => {
            let copy = sent_on(alloc, bytes, rebroadcast)?;
            let packets = query_packets(alloc, copy, ack)?;
            let handed = &mut node.handed;
            let line = line_with_query(alloc, number, sent, handed, Answer::Query, packets, query)?;
            Ok(line)
        }
        Ok(Outcome::Ack) => Ok(line_only(alloc, Answer::Ack)),
        Ok(Outcome::Response) => Ok(line_only(alloc, Answer::Response)),
        Ok(Outcome::Ignored(reason)) => Ok(line_only(alloc, Answer::Ignored(reason))),
        Ok(Outcome::Foreign(kind)) => Ok(line_only(alloc, Answer::Foreign(kind))),
        Ok(Outcome::PushPull) => Ok(line_only(alloc, Answer::PushPull)),
        Err(error) => Ok(refused(alloc, receive_refusal(error)?)),
    }
}

/// Returns the answer that the trace shows for a merge that ended with `merged`. Returns an `AllocError` if the merge
/// ran out of memory.
fn merge_answer(merged: &Result<PushPull, MergeError>) -> Result<Answer, AllocError>
    ensures { IfOk result (λ answer. (answer ≡ merge_answer (error_in merged.now))
        × (error_in merged.now ≢ Some MergeError.OutOfMemory)) }
{
    match merged {
        Ok(_) => Ok(Answer::Merged),
        Err(MergeError::OutOfMemory) => Err(AllocError),
        Err(MergeError::Stopped) => Ok(Answer::Refused(Refusal::Stopped)),
        Err(MergeError::Wire(error)) => Ok(Answer::Refused(Refusal::Wire(*error))),
        Err(MergeError::NotPushPull) => Ok(Answer::Refused(Refusal::NotPushPull)),
        Err(MergeError::SinkError) => Ok(Answer::Refused(Refusal::SinkError)),
    }
}

/// Agent number `number`, in `node`, merges the state in packet number `packet` of `sent`. `join` is true if the merge
/// is part of a join. If the agent's sink fails at an event of the state, the line has the events that were handed out
/// before.
pub(crate) fn merge_at(
    alloc: Global,
    number: u64,
    node: &mut Node,
    sent: &[Bytes],
    packet: u64,
    join: bool,
) -> Result<Line, AllocError>
    ensures { (m : IdealNode) → IsRepresentable m.agent → node.old ≡ node_of m
        → IfOk result (TakesTurn number sent.now sent.now
        (merges_given m join (slice_get sent.now packet)) node.new) }
{
    merged_agents(); // for the prover: a merge leaves its agent representable after each event
    let Some(bytes) = packet_at(sent, packet) else {
        return Ok(refused(alloc, Refusal::NoMessage));
    };
    know_packet(bytes); // for the prover: the texts of the events in the packet are bytes
    let mut events: Vec<EventOut> = Vec::new(alloc);
    let merged = node
        .agent
        .merge_remote_state(alloc, bytes, join, &mut events);
    let answer = merge_answer(&merged)?;
    let line = line_with_events(alloc, number, answer, events)?;
    Ok(line)
}
