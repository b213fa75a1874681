//! Writes the settings of agents, and their states: clocks, minimum times, open queries, and the text of the snapshot.

ghost use Rattle.std.specs.Prelude.{◌≡◌, ◌++◌, OnOk, codes};
ghost use Rattle.serf_run_json.specs.Members.{settings_of};
ghost use Rattle.serf_run_json.specs.Objects.{AddsObjects};
ghost use Rattle.serf_run_json.specs.Settings.{agents_text, settings_object};

use crate::acts::agent_members;
use serf_agent::{Agent, Config};
use serf_json::Member::{Bytes, Flag, Number, Numbers};
use serf_json::{write_joined, write_object};
use serf_lamport::Time;
use serf_model::{Act, Action};
use serf_snapshot::MemorySink;
use serf_world::World;
use std::alloc::{AllocError, Global};

/// The numbers in an agent's state.
#[derive(Clone, Copy)]
pub struct StateNumbers {
    clock: u64,
    event_clock: u64,
    query_clock: u64,
    event_minimum: u64,
    query_minimum: u64,
    /// The length of the text on the disk, in bytes.
    bytes: usize,
}

/// Returns the numbers in the state of `agent`.
fn numbers_of(agent: &Agent<MemorySink>) -> StateNumbers {
    StateNumbers {
        clock: agent.member_time(),
        event_clock: agent.event_time(),
        query_clock: agent.query_time(),
        event_minimum: agent.event_minimum(),
        query_minimum: agent.query_minimum(),
        bytes: agent.sink().durable().len(),
    }
}

/// Returns the numbers in the state of the agent that is about to act, or `None` if no agent acts.
pub(crate) fn numbers_before(world: &World, action: &Action) -> Option<StateNumbers> {
    Some(numbers_of(world.agent(action.actor()?)?))
}

/// A query that an agent fired, identified by its time.
#[derive(Clone, Copy)]
pub(crate) struct FiredQuery {
    pub(crate) agent: u64,
    pub(crate) time: Time,
}

/// Returns the times of those queries in `fired_queries` that agent number `number` fired and that are still open.
fn open_times(
    alloc: Global,
    agent: &Agent<MemorySink>,
    number: u64,
    fired_queries: &[FiredQuery],
) -> Result<Vec<u64>, AllocError> {
    let mut times = Vec::new(alloc);
    for query in fired_queries {
        if query.agent == number && agent.open_query(query.time).is_some() {
            times.push(query.time.get())?;
        }
    }
    Ok(times)
}

/// Appends the object that shows the state of agent number `number` after action number `action`. The argument `before`
/// contains the numbers in the agent's state before the action, and `times` contains the times of the agent's open
/// queries. The object contains the text on the agent's disk, but without the first `from` bytes of this text.
fn write_numbers<'a>(
    out: &mut Vec<u8>,
    world: &'a World,
    action: u64,
    number: u64,
    agent: &'a Agent<MemorySink>,
    before: &StateNumbers,
    from: usize,
    times: &'a [u64],
) -> Result<(), AllocError>
    ensures { OnOk result (AddsObjects (codes "state") out.old.items out.new.items) }
{
    let now = numbers_of(agent);
    let (of, name) = agent_members(world, number);
    let clocks = [
        Number(b"action", action),
        of,
        name,
        Number(b"clock_before", before.clock),
        Number(b"clock", now.clock),
        Number(b"event_clock_before", before.event_clock),
        Number(b"event_clock", now.event_clock),
        Number(b"query_clock_before", before.query_clock),
        Number(b"query_clock", now.query_clock),
    ];
    let rest = [
        Number(b"event_minimum_before", before.event_minimum),
        Number(b"event_minimum", now.event_minimum),
        Number(b"query_minimum_before", before.query_minimum),
        Number(b"query_minimum", now.query_minimum),
        Number(b"held_events", agent.held_events()),
        Flag(b"stopped", agent.is_stopped()),
        Numbers(b"open_queries", times),
        Number(b"snapshot_from", from as u64),
        Bytes(
            b"snapshot",
            agent.sink().durable().get(from..).unwrap_or(&[]),
        ),
    ];
    write_joined(out, b"state", &clocks, &rest)
}

/// Returns how many bytes at the beginning of the text on the disk were left unchanged by an action. If the action may
/// have replaced the whole text, the result is 0.
fn kept_bytes(action: &Action, before: usize, now: usize) -> usize {
    match action {
        Action::Of {
            act: Act::Restart { .. } | Act::Compact,
            ..
        } => 0,
        _ if now < before => 0,
        _ => before,
    }
}

/// Appends the object that shows the state of the agent that acted, or nothing if no agent acted. The argument `before`
/// contains the numbers in the state that the agent had before the action.
pub(crate) fn write_state(
    alloc: Global,
    out: &mut Vec<u8>,
    world: &World,
    number: u64,
    action: &Action,
    before: &Option<StateNumbers>,
    fired_queries: &[FiredQuery],
) -> Result<(), AllocError>
    ensures { OnOk result (AddsObjects (codes "state") out.old.items out.new.items) }
{
    let Some(actor) = action.actor() else {
        return Ok(());
    };
    let Some(agent) = world.agent(actor) else {
        return Ok(());
    };
    let Some(before) = before else {
        return Ok(());
    };
    let from = kept_bytes(action, before.bytes, agent.sink().durable().len());
    let times = open_times(alloc, agent, actor, fired_queries)?;
    write_numbers(
        out,
        world,
        number,
        actor,
        agent,
        before,
        from,
        times.as_slice(),
    )
}

/// Appends the object that contains the settings of agent number `number`.
#[tactic(auto, unfolding(serf_json::specs::Object::members_text, crate::specs::Members::flag_member, crate::specs::Members::number_member, crate::specs::Settings::settings_members))]
fn write_settings(out: &mut Vec<u8>, number: u64, config: &Config) -> Result<(), AllocError>
    ensures { OnOk result (out.new.items ≡ out.old.items ++ settings_object number config.now) }
{
    let members = [
        Number(b"agent", number),
        Bytes(b"agent_name", config.name.as_slice()),
        Number(b"event_buffer", config.event_buffer),
        Number(b"query_buffer", config.query_buffer),
        Number(b"event_limit", config.event_limit),
        Number(b"query_limit", config.query_limit),
        Number(b"response_limit", config.response_limit),
        Number(b"responders", config.responders),
        Number(b"per_time", config.per_time),
        Flag(b"ignore_old", config.ignore_old),
        Flag(b"keep_events", config.keep_events),
    ];
    write_object(out, b"agent", &members)
}

/// Appends an object with the settings of each agent. If memory runs out (`AllocError`), only a prefix of these objects
/// may have been appended to `out`.
pub(crate) fn write_agents(out: &mut Vec<u8>, world: &World) -> Result<(), AllocError>
    ensures { OnOk result (out.new.items ≡ out.old.items ++ agents_text 0 (settings_of world.now)) }
{
    for number in 0..u64::MAX {
        let Some(agent) = world.agent(number) else {
            return Ok(());
        };
        write_settings(out, number, agent.config())?;
    }
    Err(AllocError) // (there is no memory for this many agents)
}
