//! Runs the reference as the only agent in a world. The reference, agent 0 of that world, gets exactly the same calls
//! as the agent under test, so the two agents should always have the same state.

ghost use Rattle.std.specs.Prelude.{◌≡◌, ◌++◌, ◌∷◌, List, [], true, IfErr, IfOk, OnOk, Some, slice_get};
ghost use Rattle.serf_agent.specs.declared.config.Config.{Config};
ghost use Rattle.serf_agent.specs.Config.{is_sound};
ghost use Rattle.serf_model.specs.Alone.{AgentCall};
ghost use Rattle.serf_conform.specs.Solo.{DoesAs, IsSolo, IsSoloError};
ghost use Rattle.serf_conform.specs.StateDump.{is_dumped_after as dumped_after, dump_after};
ghost use Rattle.serf_conform.specs.Session.{due_if, due_of, made_after, turn_at};

use crate::asking::{given_packet, is_of};
use crate::dump::{StateDump, is_dumped_after};
use crate::subject::TurnView;
use crate::verdict::ConformError;
use serf_agent::Config;
use serf_model::{Act, Action, Answer};
use serf_wire::Bytes;
use serf_world::{Roster, World};
use std::alloc::Global;

/// Returns a roster that contains a single agent, with the settings `config`. Returns `NoAgent` if and only if the
/// settings are out of bounds. Returns `OutOfMemory` only if the settings are within bounds and there isn't enough
/// memory for the roster. The function returns no other errors.
pub(crate) fn solo_roster(alloc: Global, config: &Config) -> Result<Roster, ConformError>
    ensures alone { IfOk result (λ roster. roster ≡ config.now ∷ []) }
    ensures sound { OnOk result (is_sound config.now ≡ true) }
    ensures error { IfErr result (IsSoloError config.now) }
{
    if !config.is_sound() {
        return Err(ConformError::NoAgent);
    }
    let Ok(copy) = config.try_clone(alloc) else {
        return Err(ConformError::OutOfMemory);
    };
    let mut roster = Roster::new(alloc);
    match roster.add(alloc, copy) {
        Ok(()) => Ok(roster),
        Err(_) => Err(ConformError::OutOfMemory),
    }
}

/// Opens a world with a single agent, which has the settings `config` and an empty snapshot. Returns `NoAgent` if the
/// settings are out of bounds.
pub(crate) fn open_solo(alloc: Global, config: &Config) -> Result<World, ConformError>
    ensures { IfOk result (λ world. IsSolo config.now [] world) }
{
    Ok(World::new(alloc, solo_roster(alloc, config)?)?)
}

/// Makes the only agent in `world` perform `act`.
fn act_solo(alloc: Global, world: &mut World, act: Act) -> Result<(), ConformError>
    ensures { (config : Config) (made : List AgentCall) (call : AgentCall)
        → IsSolo config made world.old → DoesAs world.old.sent act call
        → OnOk result (IsSolo config (made ++ call ∷ []) world.new) }
{
    world.step(alloc, &Action::Of { agent: 0, act })?;
    Ok(())
}

/// Injects the packet `given` into `world`, and returns the packet's number. The packets that were sent are numbered
/// from 0.
fn send_solo(alloc: Global, world: &mut World, given: &[u8]) -> Result<u64, ConformError>
    ensures solo { (config : Config) (made : List AgentCall) → IsSolo config made world.old
        → OnOk result (IsSolo config made world.new) }
    ensures sent { (config : Config) (made : List AgentCall) → IsSolo config made world.old
        → IfOk result (λ number. slice_get world.new.sent number ≡ Some given.now) }
{
    let number = world.sent().len() as u64;
    let bytes = Bytes::copy_of(alloc, given)?;
    world.step(alloc, &Action::Inject { bytes })?;
    Ok(number)
}

/// Makes the only agent in `world` perform `act`. If `act` is a delivery or a merge, it carries the packet `given`.
fn call_solo(alloc: Global, world: &mut World, act: &Act, given: &[u8]) -> Result<(), ConformError>
    ensures { (config : Config) (made : List AgentCall) → IsSolo config made world.old
        → OnOk result (IsSolo config
        (made ++ record { act = act.now; given = Some given.now } ∷ []) world.new) }
{
    match act {
        Act::Deliver { now, .. } => {
            let packet = send_solo(alloc, world, given)?;
            act_solo(alloc, world, Act::Deliver { packet, now: *now })
        }
        Act::Merge { join, .. } => {
            let packet = send_solo(alloc, world, given)?;
            let join = *join;
            act_solo(alloc, world, Act::Merge { packet, join })
        }
        _ => act_solo(alloc, world, act.try_clone(alloc)?),
    }
}

/// Returns the state of the only agent in `world`. Returns `NoAgent` if the world has no agent.
pub(crate) fn dump_at(alloc: Global, world: &World) -> Result<StateDump, ConformError>
    ensures { (config : Config) (made : List AgentCall) → IsSolo config made world.now
        → IfOk result (λ dump. dump ≡ dump_after config made) }
{
    let Some(agent) = world.agent(0) else {
        return Err(ConformError::NoAgent);
    };
    let kept = Bytes::copy_of(alloc, agent.sink().durable())?;
    Ok(StateDump {
        member_clock: agent.member_time(),
        event_clock: agent.event_time(),
        query_clock: agent.query_time(),
        event_minimum: agent.event_minimum(),
        query_minimum: agent.query_minimum(),
        kept,
    })
}

/// If a `look` is due after a call that was answered with `answer`, returns the state of the only agent in `world`.
fn due_dump(alloc: Global, world: &World, answer: Answer) -> Result<Option<StateDump>, ConformError>
    ensures { (config : Config) (made : List AgentCall) → IsSolo config made world.now
        → IfOk result (λ due. due ≡ due_if (dumped_after answer) (dump_after config made)) }
{
    if !is_dumped_after(answer) {
        return Ok(None);
    }
    Ok(Some(dump_at(alloc, world)?))
}

/// If `turn` is a turn of agent number `agent`, makes the only agent in `world` perform the call of the turn. If a
/// `look` is due after the turn, returns the new state of the only agent. Returns `OtherTrace` if the run has fewer
/// packets than were sent before the turn.
pub(crate) fn follow_turn(
    alloc: Global,
    world: &mut World,
    agent: u64,
    turn: &TurnView,
) -> Result<Option<StateDump>, ConformError>
    ensures solo { (config : Config) (made : List AgentCall) → IsSolo config made world.old
        → OnOk result (IsSolo config (made_after agent (turn_at turn.now.count turn.now.sent.now
        turn.now.action.now turn.now.line.now) made) world.new) }
    ensures due { (config : Config) (made : List AgentCall) → IsSolo config made world.old
        → IfOk result (λ due. due ≡ due_of agent config
        (made_after agent (turn_at turn.now.count turn.now.sent.now turn.now.action.now
        turn.now.line.now) made) (turn_at turn.now.count turn.now.sent.now turn.now.action.now
        turn.now.line.now)) }
{
    let (action, sent, count) = (turn.action, turn.sent, turn.count);
    if count > sent.len() {
        return Err(ConformError::OtherTrace);
    }
    if !is_of(action, agent) {
        return Ok(None);
    }
    let Some(given) = given_packet(action, &sent[..count]) else {
        return Ok(None);
    };
    let Action::Of { act, .. } = action else {
        return Ok(None);
    };
    call_solo(alloc, world, act, given)?;
    due_dump(alloc, world, turn.line.answer)
}
