//! Runs a schedule, and compares all its agents with the reference, one after another.

ghost use Rattle.std.specs.Prelude.{◌≡◌, [], IfOk, IfSome};
ghost use Rattle.serf_model.specs.Trace.{outcome_of, turns_of};
ghost use Rattle.serf_schedule.specs.Line.{Parsed};
ghost use Rattle.serf_schedule.specs.Schedule.{parsed_of};
ghost use Rattle.serf_conform.specs.Rules.{is_serf};
ghost use Rattle.serf_conform.specs.Case.{IsRunOf};
ghost use Rattle.serf_conform.specs.Sweep.{Sweeps, ends_unsupported as ends_unsupported_of, is_differing as is_other_end, no_counts, sum_of, sweep, sweep_from, with_verdict};

use crate::session::hold;
use crate::subject::{Pipe, Subject};
use crate::verdict::{ConformError, End, Rules, Verdict};
use serf_agent::Config;
use serf_model::{Action, Trace};
use serf_schedule::Schedule;
use serf_world::run;
use std::alloc::{AllocError, Global};
use std::io::{Read, Write};

/// A schedule and the trace of its run.
#[derive(Drop)]
pub struct Case {
    pub configs: Vec<Config>,
    pub actions: Vec<Action>,
    pub trace: Trace,
}

/// Runs `schedule`, and returns it together with the trace of the run.
pub fn case_of(alloc: Global, schedule: Schedule) -> Result<Case, AllocError>
    ensures { IfOk result (IsRunOf (parsed_of schedule)) }
{
    let Schedule { agents, actions } = schedule;
    let configs = agents.try_clone(alloc)?.into_vec();
    match run(alloc, agents.into_vec(), &actions) {
        Ok(trace) => Ok(Case {
            configs,
            actions,
            trace,
        }),
        Err(_) => Err(AllocError),
    }
}

/// Sums over the agents that were compared. Each sum saturates at 2^64 - 1.
#[derive(Clone, Copy, PartialEq, Eq)]
pub struct Counts {
    /// The number of agents that were compared.
    pub agents: u64,
    /// The number of calls whose replies agree, including the opening of each agent.
    pub calls: u64,
    /// The number of agents whose reply to the opening agrees.
    pub openings: u64,
    /// The number of agents whose comparison ended at an unsupported call.
    pub unsupported_agents: u64,
    /// The number of replies to `look` that are `unsupported`.
    pub unsupported_dumps: u64,
}

/// Returns the sums before any agent has been compared, which are all 0. Allocates no memory.
pub fn no_counts() -> Counts
    ensures { result ≡ no_counts }
{
    Counts {
        agents: 0,
        calls: 0,
        openings: 0,
        unsupported_agents: 0,
        unsupported_dumps: 0,
    }
}

/// Returns 1 if the comparison ended at an unsupported call, and 0 otherwise.
fn ends_unsupported(end: &End) -> u64
    ensures { result ≡ ends_unsupported_of end.now }
{
    match end {
        End::Unsupported => 1,
        _ => 0,
    }
}

/// Adds `counts` and `more` field by field, and returns the result. Each sum saturates at 2^64 - 1. Allocates no
/// memory.
pub fn sum_of(counts: Counts, more: Counts) -> Counts
    ensures { result ≡ sum_of counts more }
{
    Counts {
        agents: counts.agents.saturating_add(more.agents),
        calls: counts.calls.saturating_add(more.calls),
        openings: counts.openings.saturating_add(more.openings),
        unsupported_agents: counts
            .unsupported_agents
            .saturating_add(more.unsupported_agents),
        unsupported_dumps: counts
            .unsupported_dumps
            .saturating_add(more.unsupported_dumps),
    }
}

/// Adds the verdict on one more agent to `counts`, and returns the result. Each sum saturates at 2^64 - 1. Allocates no
/// memory.
pub fn with_verdict(counts: Counts, verdict: &Verdict) -> Counts
    ensures { result ≡ with_verdict counts verdict.now }
{
    let unsupported_agents = ends_unsupported(&verdict.end);
    let more = Counts {
        agents: 1,
        calls: verdict.calls,
        openings: verdict.calls.min(1),
        unsupported_agents,
        unsupported_dumps: verdict.unsupported_dumps,
    };
    sum_of(counts, more)
}

/// An agent that differs from the reference or that ended.
#[derive(Drop)]
pub struct Other {
    /// The agent's number.
    pub agent: u64,
    /// The verdict on the agent, with `Differs` or `Ended` as its `end`.
    pub verdict: Verdict,
}

/// The sums over those agents of a schedule that were compared, and the first agent that differs, if there is one.
#[derive(Drop)]
pub struct Held {
    pub counts: Counts,
    /// The first agent that differs from the reference or that ended, or `None` if there is no such agent.
    pub other: Option<Other>,
}

/// Returns whether the comparison ended because the agent's reply differed, or because the agent itself ended.
fn is_differing(end: &End) -> bool
    ensures { result ≡ is_other_end end.now }
{
    matches!(end, End::Differs(_) | End::Ended)
}

/// Compares the agents whose settings are `configs` with the reference, one after another, up to the first agent that
/// differs or ends. `trace` is the trace of `actions`.
fn hold_configs<R: Read, W: Write>(
    alloc: Global,
    pipe: &mut Pipe<R, W>,
    rules: Rules,
    configs: &[Config],
    actions: &[Action],
    trace: &Trace,
) -> Result<Held, ConformError>
    ensures { IfOk result (λ held. IfSome (R.remaining pipe.old.reader) (λ input. Sweeps (sweep_from
        (is_serf rules) (turns_of actions.now (outcome_of trace.now)) 0 no_counts [] configs.now
        input) held (R.remaining pipe.new.reader) (W.contents pipe.old.writer)
        (W.contents pipe.new.writer))) }
{
    let mut left = configs;
    let mut agent: u64 = 0;
    let mut counts = no_counts();
    'agents: loop {
        match left {
            [] => return Ok(Held {
                counts,
                other: None,
            }),
            [config, following @ ..] => {
                let subject = Subject {
                    rules,
                    agent,
                    config,
                };
                let verdict = hold(alloc, pipe, &subject, actions, trace)?;
                counts = with_verdict(counts, &verdict);
                if is_differing(&verdict.end) {
                    let other = Some(Other { agent, verdict });
                    return Ok(Held { counts, other });
                }
                agent += 1;
                left = following;
            }
        }
    }
}

/// Compares the agents of a schedule with the reference ([`hold`]), one after another, up to the first agent that
/// differs or ends.
///
/// An agent that doesn't support a call isn't counted as differing, and the function continues with the next agent.
/// Under Serf's rules, the function also continues with the next agent if one of an agent's turns rests on one of this
/// project's own rules.
pub fn hold_each<R: Read, W: Write>(
    alloc: Global,
    pipe: &mut Pipe<R, W>,
    rules: Rules,
    case: &Case,
) -> Result<Held, ConformError>
    ensures { (p : Parsed) → IsRunOf p case.now
        → IfOk result (λ held.
        IfSome (R.remaining pipe.old.reader) (λ input. Sweeps (sweep (is_serf rules) p input)
        held (R.remaining pipe.new.reader) (W.contents pipe.old.writer)
        (W.contents pipe.new.writer))) }
{
    hold_configs(
        alloc,
        pipe,
        rules,
        &case.configs,
        &case.actions,
        &case.trace,
    )
}
