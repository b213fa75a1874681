//! Answers a query that was handed to an agent in its present life.

ghost use Rattle.std.specs.Prelude.{◌≡◌, ℕ, List, Option, IfOk, OnErr, OnOk, slice_get};
ghost use Rattle.serf_agent.specs.DeliveredQuery.{DeliveredQuery};
ghost use Rattle.serf_model.specs.Cluster.{IdealNode, responds};
ghost use Rattle.serf_world.specs.Turns.{Shows, TakesTurn, slot_after, slot_gives};
ghost use Rattle.serf_world.specs.View.{node_of};

use crate::line::{line_with_packet, refused};
use crate::world::Node;
use serf_agent::{PendingQuery, RespondError};
use serf_model::{Answer, Line, Refusal};
use serf_wire::Bytes;
use std::alloc::{AllocError, Global};

/// Answers the query in `slot`, if there is one, at the moment `now`. The response is appended to `sent`, and the slot
/// is emptied. If the answer is refused, the query stays in the slot.
fn respond_in(
    alloc: Global,
    sent: &mut Vec<Bytes>,
    slot: &mut Option<PendingQuery>,
    now: u64,
    payload: &[u8],
) -> Result<Line, AllocError>
    ensures shows { (number : ℕ) (handed : List (Option DeliveredQuery)) → IfOk result (Shows number
        sent.old.items sent.new.items handed handed (slot_gives slot.old now payload.now)) }
    ensures slot { OnOk result (slot.new ≡ slot_after slot.old now payload.now) }
    ensures err { OnErr result (sent.new.items ≡ sent.old.items) }
{
    let Some(query) = slot.take() else {
        return Ok(refused(alloc, Refusal::NoQuery));
    };
    match query.respond(alloc, now, payload) {
        Ok(reply) => {
            let line = line_with_packet(alloc, sent, Answer::Replied, reply.packet)?;
            Ok(line)
        }
        Err((query, error)) => {
            *slot = Some(query);
            match error {
                RespondError::OutOfMemory => Err(AllocError),
                RespondError::PastDeadline => Ok(refused(alloc, Refusal::PastDeadline)),
                RespondError::TooLarge => Ok(refused(alloc, Refusal::TooLarge)),
            }
        }
    }
}

/// Answers query number `handed` with `payload` at the moment `now`, in nanoseconds, and appends the response to
/// `sent`. The number counts the queries that were handed to the agent of `node` in this life, from 0.
pub(crate) fn respond_at(
    alloc: Global,
    number: u64,
    node: &mut Node,
    sent: &mut Vec<Bytes>,
    handed: u64,
    now: u64,
    payload: &[u8],
) -> Result<Line, AllocError>
    ensures turn { (m : IdealNode) → node.old ≡ node_of m
        → IfOk result (TakesTurn number sent.old.items sent.new.items
        (responds m handed (slice_get m.handed handed) now payload.now) node.new) }
    ensures err { OnErr result (sent.new.items ≡ sent.old.items) }
{
    let slot = handed as usize; // a query's number is the index of its slot
    if slot >= node.handed.len() {
        return Ok(refused(alloc, Refusal::NoQuery));
    }
    let line = respond_in(alloc, sent, &mut node.handed[slot], now, payload)?;
    Ok(line)
}
