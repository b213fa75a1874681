//! Extracts the calls that one agent got in a run, and makes a schedule that contains only those calls.

ghost use Rattle.std.specs.Prelude.{◌≡◌, ◌≤◌, ◌++◌, ◌∷◌, [], ℕ, List, length, IfOk, OnOk};
ghost use Rattle.std.specs.List.{flat_map};
ghost use Rattle.serf_model.specs.Trace.{outcome_of, turns_from, turns_of};
ghost use Rattle.serf_schedule.specs.Line.{Parsed};
ghost use Rattle.serf_schedule.specs.Schedule.{parsed_of};
ghost use Rattle.serf_conform.specs.Session.{turn_at};
ghost use Rattle.serf_conform.specs.Case.{IsRunOf, turns_in};
ghost use Rattle.serf_conform.specs.AgentCalls.{alone, calls_by, injections_of, packets_in, placed, placed_from};

use crate::asking::{given_packet, is_of};
use crate::solo::solo_roster;
use crate::sweep::Case;
use crate::verdict::ConformError;
use serf_agent::Config;
use serf_model::{Act, Action, Line};
use serf_schedule::Schedule;
use serf_wire::Bytes;
use std::alloc::{AllocError, Global};

/// A call to an agent. The call contains the bytes of its packet instead of the packet's number, so the call means the
/// same in every run.
#[derive(Drop)]
pub struct Call {
    pub act: Act,
    /// The bytes of the packet if the call is a delivery or a merge, and empty otherwise.
    pub given: Bytes,
}

/// Returns a copy of the call of `act` with the packet `given`.
pub(crate) fn copy_of_call(alloc: Global, act: &Act, given: &[u8]) -> Result<Call, AllocError>
    ensures { IfOk result (λ call. call ≡ record { act = act.now; given = given.now }) }
{
    let act = act.try_clone(alloc)?;
    let given = Bytes::copy_of(alloc, given)?;
    Ok(Call { act, given })
}

/// Copies `calls`, and appends the copies to the list `to`.
pub(crate) fn add_calls(alloc: Global, to: &mut Vec<Call>, calls: &[Call]) -> Result<(), AllocError>
    ensures { OnOk result (to.new.items ≡ to.old.items ++ calls.now) }
{
    for call in calls {
        to.push(copy_of_call(alloc, &call.act, call.given.as_slice())?)?;
    }
    Ok(())
}

/// If `action` is a call to agent number `agent`, adds the call to `calls`. `line` is the action's line in the trace.
/// `sent` contains all packets of the run, and the first `count` packets in `sent` were sent before the action.
fn add_call(
    alloc: Global,
    calls: &mut Vec<Call>,
    agent: u64,
    action: &Action,
    line: &Line,
    sent: &[Bytes],
    count: usize,
) -> Result<(), AllocError>
    requires { count ≤ length sent.now }
    ensures { OnOk result (calls.new.items ≡ calls.old.items
        ++ calls_by agent (turn_at count sent.now action.now line.now ∷ [])) }
{
    if !is_of(action, agent) {
        return Ok(());
    }
    let Some(given) = given_packet(action, &sent[..count]) else {
        return Ok(());
    };
    let Action::Of { act, .. } = action else {
        return Ok(());
    };
    calls.push(copy_of_call(alloc, act, given)?)?;
    Ok(())
}

/// Returns the calls that agent number `agent` got in the run of `actions`. `lines` are the lines of the run's trace,
/// and `sent` are the run's packets. Returns `OtherTrace` if `sent` contains fewer packets than the lines say were
/// sent.
fn calls_in(
    alloc: Global,
    agent: u64,
    actions: &[Action],
    lines: &[Line],
    sent: &[Bytes],
) -> Result<Vec<Call>, ConformError>
    ensures { IfOk result (λ calls. calls.items
        ≡ calls_by agent (turns_from 0 sent.now actions.now lines.now)) }
{
    let mut calls = Vec::new(alloc);
    let mut actions = actions;
    let mut lines = lines;
    let mut count: usize = 0;
    'turns: loop {
        match actions {
            [] => return Ok(calls),
            [action, actions_left @ ..] => match lines {
                [] => return Ok(calls),
                [line, lines_left @ ..] => {
                    let own = line.sent.as_slice().len();
                    if own > sent.len() - count {
                        return Err(ConformError::OtherTrace);
                    }
                    add_call(alloc, &mut calls, agent, action, line, sent, count)?;
                    count += own;
                    actions = actions_left;
                    lines = lines_left;
                }
            },
        }
    }
}

/// Returns the calls that agent number `agent` got in the run of `case`, in order, each with the bytes of its packet.
/// The returned calls are the calls that [`crate::hold`] makes. Returns `OtherTrace` if the trace doesn't belong to the
/// actions.
pub fn calls_of(alloc: Global, case: &Case, agent: u64) -> Result<Vec<Call>, ConformError>
    ensures { (p : Parsed) → IsRunOf p case.now
        → IfOk result (λ calls. calls.items ≡ calls_by agent (turns_in p)) }
{
    calls_in(
        alloc,
        agent,
        &case.actions,
        case.trace.lines.as_slice(),
        case.trace.sent.as_slice(),
    )
}

/// If `call` carries a packet, adds an injection of the packet to `actions`.
pub(crate) fn add_packet(
    alloc: Global,
    actions: &mut Vec<Action>,
    call: &Call,
) -> Result<(), AllocError>
    ensures { OnOk result (actions.new.items ≡ actions.old.items ++ injections_of call.now) }
{
    match call.act {
        Act::Deliver { .. } | Act::Merge { .. } => {
            let bytes = Bytes::copy_of(alloc, call.given.as_slice())?;
            actions.push(Action::Inject { bytes })?;
            Ok(())
        }
        _ => Ok(()),
    }
}

/// Returns the number of packets that the call of `act` carries, which is 0 or 1.
pub(crate) fn packets_of(act: &Act) -> u64
    ensures count { (given : List ℕ) → result ≡ length (packets_in act.now given) }
    ensures few { result ≤ 1 }
{
    match act {
        Act::Deliver { .. } | Act::Merge { .. } => 1,
        _ => 0,
    }
}

/// Copies `act`, and replaces the packet number in the copy (if there is one) with `packet`.
pub(crate) fn copy_with_packet_number(
    alloc: Global,
    packet: u64,
    act: &Act,
) -> Result<Act, AllocError>
    ensures { IfOk result (λ copy. copy ≡ placed packet act.now) }
{
    match *act {
        Act::Deliver { now, .. } => Ok(Act::Deliver { packet, now }),
        Act::Merge { join, .. } => Ok(Act::Merge { packet, join }),
        _ => act.try_clone(alloc),
    }
}

/// Adds an injection to `actions` for each packet that `calls` carry.
fn add_packets(alloc: Global, actions: &mut Vec<Action>, calls: &[Call]) -> Result<(), AllocError>
    ensures { OnOk result (actions.new.items ≡ actions.old.items
        ++ flat_map injections_of calls.now) }
{
    for call in calls {
        add_packet(alloc, actions, call)?;
    }
    Ok(())
}

/// Adds `calls` to `actions` as actions of agent 0. The packets that the calls carry are numbered from 0, in the order
/// of the calls.
fn add_numbered(alloc: Global, actions: &mut Vec<Action>, calls: &[Call]) -> Result<(), AllocError>
    ensures { OnOk result (actions.new.items ≡ actions.old.items ++ placed_from 0 calls.now) }
{
    let mut packet: u64 = 0;
    for call in calls {
        let act = copy_with_packet_number(alloc, packet, &call.act)?;
        actions.push(Action::Of { agent: 0, act })?;
        packet += packets_of(&call.act);
    }
    Ok(())
}

/// Returns the actions of a schedule that makes only `calls`: first the injections of the packets that the calls carry,
/// and then the calls themselves.
fn solo_actions(alloc: Global, calls: &[Call]) -> Result<Vec<Action>, AllocError>
    ensures { IfOk result (λ actions. actions.items ≡ flat_map injections_of calls.now
        ++ placed_from 0 calls.now) }
{
    let mut actions = Vec::new(alloc);
    add_packets(alloc, &mut actions, calls)?;
    add_numbered(alloc, &mut actions, calls)?;
    Ok(actions)
}

/// Returns a schedule in which a single agent gets `calls` and no other calls. The schedule first injects the packets
/// that the calls carry, and then makes the calls as actions of agent 0. Returns `NoAgent` if the settings are out of
/// bounds.
///
/// A response is copied unchanged, so the query number in the copy refers to the queries that the new schedule hands
/// out. If the new schedule hands out no query with this number, the agent refuses the response in the run.
pub fn alone_schedule(
    alloc: Global,
    config: &Config,
    calls: &[Call],
) -> Result<Schedule, ConformError>
    ensures { IfOk result (λ schedule. parsed_of schedule ≡ alone config.now calls.now) }
{
    let agents = solo_roster(alloc, config)?;
    let actions = solo_actions(alloc, calls)?;
    Ok(Schedule { agents, actions })
}
