//! Decides which turns are common. A turn is common if it depends on none of this project's own rules.

ghost use Rattle.std.specs.Prelude.{◌≡◌, ◌&&◌, None, Some};
ghost use Rattle.serf_model.specs.Common.{acts_commonly, enters_query, is_common_answer, is_common_line, is_common_reason, is_common_refusal, settings_of};
ghost use Rattle.serf_model.specs.Trace.{actor_of};

use crate::action::{Act, Action};
use crate::line::{Answer, Line, Refusal};
use serf_agent::{Config, DEFAULT_PER_TIME, Reason};

/// Whether Serf also ignores a packet for `reason`.
fn is_common_reason(reason: Reason) -> bool
    ensures { result ≡ is_common_reason reason }
{
    !matches!(reason, Reason::Oversize | Reason::TimeFull)
}

/// Whether Serf also refuses an action with `refusal`.
fn is_common_refusal(refusal: Refusal) -> bool
    ensures { result ≡ is_common_refusal refusal }
{
    match refusal {
        Refusal::Stopped => false,
        Refusal::Exhausted => false,
        Refusal::RespondersFull => false,
        Refusal::SinkError => false,
        Refusal::Wire(_) => false,
        _ => true,
    }
}

/// Whether `answer` depends on none of this project's own rules.
fn is_common_answer(answer: Answer) -> bool
    ensures { result ≡ is_common_answer answer }
{
    match answer {
        Answer::Ignored(reason) => is_common_reason(reason),
        Answer::Refused(refusal) => is_common_refusal(refusal),
        Answer::Broken => false,
        Answer::Compacted => false,
        _ => true,
    }
}

/// Whether `answer` means that a query entered the buffer, as a delivered query or as a fired one.
fn enters_query(answer: Answer) -> bool
    ensures { result ≡ enters_query answer }
{
    matches!(answer, Answer::Query | Answer::Queried(_))
}

/// Whether `line` depends on none of this project's own rules: its answer is common, and its query, if it has one,
/// wasn't held back by filters.
fn is_common_line(line: &Line) -> bool
    ensures { result ≡ is_common_line line.now }
{
    let is_held_back = enters_query(line.answer) && line.handed.is_none();
    is_common_answer(line.answer) && !is_held_back
}

/// Whether `action` depends on none of this project's own rules, if an agent with the settings `config` does it. A
/// restart is common if the agent doesn't keep its events and the tail is empty. A merge is common if the agent accepts
/// at least as many events of one time as by default.
fn acts_commonly(config: &Config, action: &Action) -> bool
    ensures { result ≡ acts_commonly (Some config.now) action.now }
{
    match action {
        Action::Of {
            act: Act::Restart { tail },
            ..
        } => !config.keep_events && tail.as_slice().is_empty(),
        Action::Of {
            act: Act::Merge { .. },
            ..
        } => config.per_time >= DEFAULT_PER_TIME,
        _ => true,
    }
}

/// Whether `action` depends on none of this project's own rules, if no agent of the cluster does it. A restart is
/// common if its tail is empty.
fn is_common_without_agent(action: &Action) -> bool
    ensures { result ≡ acts_commonly None action.now }
{
    match action {
        Action::Of {
            act: Act::Restart { tail },
            ..
        } => tail.as_slice().is_empty(),
        _ => true,
    }
}

/// Whether the turn of `action` and `line` depends on none of this project's own rules, provided that the same is true
/// of all earlier turns. `config` has the settings of the agent that acts. Allocates no memory.
pub fn is_common_turn_of(config: &Config, action: &Action, line: &Line) -> bool
    ensures { result ≡ (is_common_line line.now && acts_commonly (Some config.now) action.now) }
{
    is_common_line(line) && acts_commonly(config, action)
}

/// Whether the turn of `action` and `line` depends on none of this project's own rules, provided that the same is true
/// of all earlier turns. `configs` are the settings of all agents. Allocates no memory.
pub fn is_common_turn(configs: &[Config], action: &Action, line: &Line) -> bool
    ensures { result ≡ (is_common_line line.now
        && acts_commonly (settings_of configs.now (actor_of action.now)) action.now) }
{
    is_common_line(line) && is_done_commonly(configs, action)
}

/// Whether `action` depends on none of this project's own rules in a cluster of agents with the settings `configs`.
fn is_done_commonly(configs: &[Config], action: &Action) -> bool
    ensures { result ≡ acts_commonly (settings_of configs.now (actor_of action.now)) action.now }
{
    match action.actor() {
        Some(agent) => match configs.get(agent as usize) {
            Some(config) => acts_commonly(config, action),
            None => is_common_without_agent(action),
        },
        None => is_common_without_agent(action),
    }
}
