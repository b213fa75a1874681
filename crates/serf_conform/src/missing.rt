//! Leaves out the calls that an agent doesn't support, together with the calls that depend on them.

ghost use Rattle.std.specs.Prelude.{◌≡◌, ◌≤◌, ◌++◌, ◌∷◌, [], ℕ, List, length, IfOk, OnOk};
ghost use Rattle.std.specs.List.{flat_map};
ghost use Rattle.serf_model.specs.Trace.{turns_from};
ghost use Rattle.serf_schedule.specs.Line.{Parsed};
ghost use Rattle.serf_schedule.specs.Schedule.{parsed_of};
ghost use Rattle.serf_conform.specs.Session.{turn_at};
ghost use Rattle.serf_conform.specs.Case.{IsRunOf, turns_in};
ghost use Rattle.serf_conform.specs.AgentCalls.{injections_of};
ghost use Rattle.serf_conform.specs.Without.{actions_of, depends as depends_on, is_remaining as is_left_of, is_missing as is_missing_of, left_in, own_from, packet_depends as packet_depends_on, without as without_of};

use crate::agent_calls::{Call, add_packet, copy_of_call, copy_with_packet_number, packets_of};
use crate::asking::given_packet;
use crate::sweep::{Case, case_of};
use crate::verdict::ConformError;
use serf_model::{Act, Action, Line};
use serf_schedule::Schedule;
use serf_wire::Bytes;
use std::alloc::{AllocError, Global};

/// The calls that an agent doesn't support. If a field is true, the agent doesn't support the call for which the field
/// is named.
#[derive(Clone, Copy)]
pub struct MissingCalls {
    pub fire: bool,
    pub deliver: bool,
    pub state: bool,
    pub merge: bool,
    pub query: bool,
    pub respond: bool,
    pub close: bool,
    pub save: bool,
    pub compact: bool,
    pub restart: bool,
    /// Whether the call `break` is missing.
    pub breaks: bool,
}

/// Returns whether the call of `act` is one of the calls in `missing`.
fn is_missing(missing: MissingCalls, act: &Act) -> bool
    ensures { result ≡ is_missing_of missing act.now }
{
    match act {
        Act::Fire { .. } => missing.fire,
        Act::Deliver { .. } => missing.deliver,
        Act::State => missing.state,
        Act::Merge { .. } => missing.merge,
        Act::Query(_) => missing.query,
        Act::Respond { .. } => missing.respond,
        Act::Restart { .. } => missing.restart,
        Act::Break { .. } => missing.breaks,
        Act::Close { .. } => missing.close,
        Act::Save => missing.save,
        Act::Compact => missing.compact,
    }
}

/// Returns whether a call that carries the packet `given` depends on a call in `missing`. A packet with a query depends
/// on the call `respond`, and a packet with an ack or a response depends on the call `query`. The first byte of a
/// packet is the type of the message that the packet contains.
fn packet_depends(missing: MissingCalls, given: &[u8]) -> bool
    ensures { result ≡ packet_depends_on missing given.now }
{
    let [kind, ..] = given else {
        return false;
    };
    if *kind == 4 {
        missing.respond
    } else if *kind == 5 {
        missing.query
    } else {
        false
    }
}

/// Returns whether the call of `act` with the packet `given` depends on a call in `missing`.
fn depends(missing: MissingCalls, act: &Act, given: &[u8]) -> bool
    ensures { result ≡ depends_on missing act.now given.now }
{
    match act {
        Act::Close { .. } => missing.query,
        _ => packet_depends(missing, given),
    }
}

/// Returns whether the call of `act` with the packet `given` remains: the call is not in `missing`, and doesn't depend
/// on a call in `missing`.
fn is_remaining(missing: MissingCalls, act: &Act, given: &[u8]) -> bool
    ensures { result ≡ is_left_of missing act.now given.now }
{
    !(is_missing(missing, act) || depends(missing, act, given))
}

/// A call, and the number of the agent that gets the call.
#[derive(Drop)]
struct OwnCall {
    agent: u64,
    call: Call,
}

/// Adds the call of `action` to `calls`, unless the call has to be left out. `line` is the action's line in the trace.
/// `sent` contains all packets of the run, and the first `count` packets in `sent` were sent before the action.
fn add_remaining(
    alloc: Global,
    calls: &mut Vec<OwnCall>,
    missing: MissingCalls,
    action: &Action,
    line: &Line,
    sent: &[Bytes],
    count: usize,
) -> Result<(), AllocError>
    requires { count ≤ length sent.now }
    ensures { OnOk result (calls.new.items ≡ calls.old.items
        ++ left_in missing (turn_at count sent.now action.now line.now ∷ [])) }
{
    let Action::Of { agent, act } = action else {
        return Ok(());
    };
    let Some(given) = given_packet(action, &sent[..count]) else {
        return Ok(());
    };
    if !is_remaining(missing, act, given) {
        return Ok(());
    }
    let call = copy_of_call(alloc, act, given)?;
    calls.push(OwnCall {
        agent: *agent,
        call,
    })?;
    Ok(())
}

/// Returns those calls in the run of `actions` that don't have to be left out. `lines` are the lines of the run's
/// trace, and `sent` are the run's packets. Returns `OtherTrace` if `sent` contains fewer packets than the lines say
/// were sent.
fn remaining_calls(
    alloc: Global,
    missing: MissingCalls,
    actions: &[Action],
    lines: &[Line],
    sent: &[Bytes],
) -> Result<Vec<OwnCall>, ConformError>
    ensures { IfOk result (λ calls. calls.items
        ≡ left_in missing (turns_from 0 sent.now actions.now lines.now)) }
{
    let mut calls = Vec::new(alloc);
    let mut actions = actions;
    let mut lines = lines;
    let mut count: usize = 0;
    'turns: loop {
        match actions {
            [] => return Ok(calls),
            [action, actions_left @ ..] => match lines {
                [] => return Ok(calls),
                [line, lines_left @ ..] => {
                    let own = line.sent.as_slice().len();
                    if own > sent.len() - count {
                        return Err(ConformError::OtherTrace);
                    }
                    add_remaining(alloc, &mut calls, missing, action, line, sent, count)?;
                    count += own;
                    actions = actions_left;
                    lines = lines_left;
                }
            },
        }
    }
}

/// Returns those calls in the run of `case` that don't have to be left out.
fn left_in_case(
    alloc: Global,
    missing: MissingCalls,
    case: &Case,
) -> Result<Vec<OwnCall>, ConformError>
    ensures { (p : Parsed) → IsRunOf p case.now
        → IfOk result (λ calls. calls.items ≡ left_in missing (turns_in p)) }
{
    remaining_calls(
        alloc,
        missing,
        &case.actions,
        case.trace.lines.as_slice(),
        case.trace.sent.as_slice(),
    )
}

/// Adds an injection to `actions` for each packet that `calls` carry.
fn add_injections(
    alloc: Global,
    actions: &mut Vec<Action>,
    calls: &[OwnCall],
) -> Result<(), AllocError>
    ensures { OnOk result (actions.new.items ≡ actions.old.items
        ++ flat_map (λ c. injections_of c.call) calls.now) }
{
    for own in calls {
        add_packet(alloc, actions, &own.call)?;
    }
    Ok(())
}

/// Adds `calls` to `actions`, each as an action of the agent that gets the call. The packets that the calls carry are
/// numbered from 0, in the order of the calls.
fn add_calls_of_agents(
    alloc: Global,
    actions: &mut Vec<Action>,
    calls: &[OwnCall],
) -> Result<(), AllocError>
    ensures { OnOk result (actions.new.items ≡ actions.old.items ++ own_from 0 calls.now) }
{
    let mut packet: u64 = 0;
    for own in calls {
        let act = copy_with_packet_number(alloc, packet, &own.call.act)?;
        let agent = own.agent;
        actions.push(Action::Of { agent, act })?;
        packet += packets_of(&own.call.act);
    }
    Ok(())
}

/// Returns the actions of a schedule that makes `calls`: first the injections of the packets that the calls carry, and
/// then the calls themselves.
fn actions_of_calls(alloc: Global, calls: &[OwnCall]) -> Result<Vec<Action>, AllocError>
    ensures { IfOk result (λ actions. actions.items ≡ actions_of calls.now) }
{
    let mut actions = Vec::new(alloc);
    add_injections(alloc, &mut actions, calls)?;
    add_calls_of_agents(alloc, &mut actions, calls)?;
    Ok(actions)
}

/// Returns `schedule` without the calls in `missing`, and without the calls that depend on a missing call. The calls
/// that depend on `respond` are the deliveries and merges of each packet that begins like a query. The calls that
/// depend on `query` are the deliveries and merges of each packet that begins like an ack or a response, and each
/// `close`.
///
/// The new schedule has the same agents as the old one. The new schedule first injects the packets of the remaining
/// calls, with the same bytes as in the run of the whole schedule, and then makes the remaining calls in their original
/// order. A response is copied unchanged, so the query number in the copy refers to the queries that the new schedule
/// hands out.
pub fn without(
    alloc: Global,
    schedule: Schedule,
    missing: MissingCalls,
) -> Result<Schedule, ConformError>
    ensures { IfOk result (λ left. parsed_of left ≡ without_of missing (parsed_of schedule)) }
{
    let agents = schedule.agents.try_clone(alloc)?;
    let case = case_of(alloc, schedule)?;
    let calls = left_in_case(alloc, missing, &case)?;
    let actions = actions_of_calls(alloc, &calls)?;
    Ok(Schedule { agents, actions })
}
