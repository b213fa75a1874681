//! The actions that an agent can perform without an injected packet.

use crate::draft::done_by;
use crate::generator::{Generator, LastQuery, Next};
use crate::kind::Kind;
use crate::pools::{
    event_room, filling, filters, long_text, name, payload, query_room, response_room, tail,
};
use crate::tails::kept_tail;
use crate::tracks::tracks_of;
use serf_agent::QueryParams;
use serf_model::{Act, Action, Answer, Boxed, Line, NewQuery, SinkCall};
use serf_wire::Bytes;
use serf_world::World;
use std::alloc::AllocError;

/// Decides at random whether a text will be about as long as the limit allows.
fn roll_long(generator: &mut Generator) -> bool {
    match generator.kind {
        Kind::Limits => !generator.rng.one_in(3),
        Kind::Gossip => false,
        _ => generator.rng.one_in(40),
    }
}

/// Decides at random whether a packet will be exactly or nearly as long as the limit allows.
fn roll_filled(generator: &mut Generator) -> bool {
    match generator.kind {
        Kind::Spellings => generator.rng.one_in(4),
        Kind::Mixed => generator.rng.one_in(12),
        _ => false,
    }
}

/// Returns a payload, which from time to time is about `limit` bytes long.
fn payload_up_to(generator: &mut Generator, limit: u64) -> Result<Vec<u8>, AllocError> {
    if roll_long(generator) {
        long_text(generator, limit)
    } else {
        payload(generator)
    }
}

/// Returns a name and a payload for an event that agent number `agent` in `world` fires.
fn event_texts(
    generator: &mut Generator,
    world: &World,
    agent: u64,
) -> Result<(Vec<u8>, Vec<u8>), AllocError> {
    if roll_filled(generator) {
        let name = name(generator)?;
        let payload = filling(generator, event_room(world, agent, &name))?;
        return Ok((name, payload));
    }
    let limit = match world.agent(agent) {
        Some(firing_agent) => firing_agent.config().event_limit,
        None => 0,
    };
    let payload = payload_up_to(generator, limit)?;
    Ok((name(generator)?, payload))
}

/// Lets an agent fire an event.
pub(crate) fn fire(generator: &mut Generator, world: &World) -> Result<Action, AllocError> {
    let agent = generator.agent();
    let (name, payload) = event_texts(generator, world, agent)?;
    let act = Act::Fire {
        name: Bytes::from_vec(name),
        payload: Bytes::from_vec(payload),
        coalesce: generator.rng.one_in(3),
    };
    Ok(done_by(agent, act))
}

/// Returns the parameters of a query: filters, flags and a timeout in nanoseconds, but no address and no relays.
fn query_params(generator: &mut Generator) -> Result<QueryParams, AllocError> {
    let timeout = generator
        .rng
        .pick(&[0, 1, 10, 100, 1_000, 1_000, 1_000, i64::MAX], 10);
    Ok(QueryParams {
        filters: filters(generator)?,
        want_ack: generator.rng.one_in(2),
        no_broadcast: generator.rng.one_in(4),
        tags_pass: false,
        timeout,
        addr: Bytes::from_vec(Vec::new(generator.alloc)),
        port: 0,
        relay_factor: 0,
    })
}

/// The length, in bytes, of a payload that makes the packet of a query or a response about as long as the limit allows.
const LONG_PAYLOAD: u64 = 970;

/// Lets an agent fire a query.
pub(crate) fn ask(generator: &mut Generator, world: &World) -> Result<Action, AllocError> {
    let agent = generator.agent();
    let moment = generator.moment();
    let mut payload = payload_up_to(generator, LONG_PAYLOAD)?;
    let params = query_params(generator)?;
    let id = generator.rng.pick(&[0, 1, 2, 3, u32::MAX], 0);
    let name = name(generator)?;
    if roll_filled(generator) {
        payload = filling(generator, query_room(world, agent, id, &name, &params))?;
    }
    let query = NewQuery {
        moment,
        id,
        name: Bytes::from_vec(name),
        payload: Bytes::from_vec(payload),
        params,
    };
    Ok(done_by(agent, Act::Query(Boxed::new(generator.alloc, query)?)))
}

/// Lets an agent respond to one of the queries that were handed out to it. From time to time, the response is instead
/// to the query that was handed out last, and its packet is exactly or nearly as long as the limit allows.
pub(crate) fn respond(generator: &mut Generator, world: &World) -> Result<Action, AllocError> {
    if roll_filled(generator) {
        let last = generator.last_handed;
        let payload = filling(generator, response_room(world, &last))?;
        let act = Act::Respond {
            handed: last.index,
            now: generator.now,
            payload: Bytes::from_vec(payload),
        };
        return Ok(done_by(last.agent, act));
    }
    let payload = payload_up_to(generator, LONG_PAYLOAD)?;
    let agent = generator.agent();
    let act = Act::Respond {
        handed: generator.rng.below(generator.handed.saturating_add(1)),
        now: generator.moment(),
        payload: Bytes::from_vec(payload),
    };
    Ok(done_by(agent, act))
}

/// Restarts an agent whose snapshot is followed by a tail, as after a crash. In schedules of the kind `kept`, the
/// restarted agent receives older packets next.
pub(crate) fn restart(generator: &mut Generator, world: &World) -> Result<Action, AllocError> {
    let agent = generator.agent();
    generator.tracks = tracks_of(world, agent);
    let tail = if generator.kind == Kind::Kept {
        let tail = kept_tail(generator, world.sent())?;
        let more = generator.rng.below(4);
        generator.next = Some(Next::Again { to: agent, more });
        tail
    } else {
        tail(generator, generator.tracks.events.clock)?
    };
    let tail = Bytes::from_vec(tail);
    Ok(done_by(agent, Act::Restart { tail }))
}

/// Makes one of the next calls to an agent's disk fail. In schedules of the kind `kept`, the agent with the failing
/// disk joins next, one time in three.
pub(crate) fn fail(generator: &mut Generator) -> Action {
    let calls = [
        SinkCall::Append,
        SinkCall::Flush,
        SinkCall::ReplaceOld,
        SinkCall::ReplaceNew,
    ];
    let agent = generator.agent();
    if generator.kind == Kind::Kept && generator.rng.one_in(3) {
        generator.next = Some(Next::Join { to: agent });
    }
    let call = generator.rng.pick(&calls, SinkCall::Flush);
    let count = generator.rng.below(3).saturating_add(1);
    done_by(agent, Act::Break { call, count })
}

/// Lets an agent close all its open queries whose deadlines have passed.
pub(crate) fn close(generator: &mut Generator) -> Action {
    let agent = generator.agent();
    let now = generator.moment();
    done_by(agent, Act::Close { now })
}

/// If `line`, the line of `action` in the trace, shows that a query was fired, remembers this query.
pub(crate) fn record_query(generator: &mut Generator, action: &Action, line: &Line) {
    let Answer::Queried(time) = line.answer else {
        return;
    };
    if let Action::Of {
        agent,
        act: Act::Query(query),
    } = action
    {
        let query = query.get();
        let timeout = query.params.timeout.max(0) as u64;
        generator.query = LastQuery {
            agent: *agent,
            time: time.get(),
            id: u64::from(query.id),
            deadline: query.moment.saturating_add(timeout),
        };
    }
}
