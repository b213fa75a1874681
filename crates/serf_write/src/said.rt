//! Reads a line of actions. The first word of the line decides how the rest is read.

ghost use Rattle.std.specs.Prelude.{◌≡◌};
ghost use Rattle.serf_write.specs.Gives.{Gives};
ghost use Rattle.serf_write.specs.Lines.{actions_of, by_agent};
ghost use Rattle.serf_write.specs.Queries.{query_of};
ghost use Rattle.serf_write.specs.Verbs.{verb_of};
ghost use Rattle.serf_write.specs.Written.{act_of, acts_of, acts_said};

use crate::actions::{
    Operation, answer, breaking, closing, delivery, ending, firing, giving, injection, merging,
    restarting, taking,
};
use crate::labels::Label;
use crate::query_spec::query;
use crate::token::Token;
use crate::values::{agent_at, word};
use crate::word_error::{Expected, LineError, or_bad};
use serf_agent::Config;
use serf_model::{Act, Action};
use serf_schedule::{Command, Verb as ReplayVerb, command_in};
use serf_text::is_word;
use std::alloc::Global;

/// The verb of a line of actions.
#[derive(Clone, Copy)]
pub(crate) enum Verb {
    /// An agent performs the act that this verb of schedules names.
    Act(ReplayVerb),
    /// Bytes are injected.
    Inject,
    Query,
    /// Bytes are injected as a packet, and an agent receives this packet.
    Give,
    /// Bytes are injected as a packet, and an agent merges this packet.
    Take,
}

/// Returns the verb that `word` names, or `None` for any other word.
#[tactic(auto, unfolding(crate::specs::Verbs::verb_of))]
fn verb_in(word: &[u8]) -> Option<Verb>
    ensures { result ≡ verb_of word.now }
{
    match command_in(word) {
        Some(Command::Act(verb)) => Some(Verb::Act(verb)),
        Some(Command::Inject) => Some(Verb::Inject),
        Some(Command::Query) => Some(Verb::Query),
        Some(Command::Agent) => None,
        None if is_word(word, b"give") => Some(Verb::Give),
        None if is_word(word, b"take") => Some(Verb::Take),
        None => None,
    }
}

/// Reads an agent's act from a line with the verb `verb`, which schedules use as well.
#[tactic(auto, unfolding(crate::specs::Lines::bare_of))]
fn act(
    alloc: Global,
    verb: ReplayVerb,
    labels: &[Label],
    tokens: &[Token],
) -> Result<Act, LineError>
    ensures { Gives (λ a. a) result (act_of verb labels.now tokens.now) }
{
    match verb {
        ReplayVerb::Deliver => delivery(labels, tokens),
        ReplayVerb::Fire => firing(alloc, tokens),
        ReplayVerb::Merge => merging(labels, tokens),
        ReplayVerb::Respond => answer(alloc, tokens),
        ReplayVerb::Restart => restarting(alloc, tokens),
        ReplayVerb::Break => breaking(tokens),
        ReplayVerb::Close => closing(tokens),
        ReplayVerb::Bare(verb) => ending(tokens, 2, verb.act()),
    }
}

/// Reads the action from a line with the verb `verb`, which schedules use as well. The action consists of an agent and
/// the agent's act.
fn acting(
    alloc: Global,
    verb: ReplayVerb,
    agents: &[Config],
    labels: &[Label],
    tokens: &[Token],
) -> Result<Operation, LineError>
    ensures { Gives actions_of result
        (by_agent agents.now tokens.now (act_of verb labels.now tokens.now)) }
{
    let agent = agent_at(agents, tokens, 2)?;
    let act = act(alloc, verb, labels, tokens)?;
    Ok(Operation::One(Action::Of { agent, act }))
}

/// Reads the action from a line in which an agent fires a query.
fn asking(alloc: Global, agents: &[Config], tokens: &[Token]) -> Result<Operation, LineError>
    ensures { Gives actions_of result (by_agent agents.now tokens.now (query_of tokens.now)) }
{
    let agent = agent_at(agents, tokens, 2)?;
    let act = query(alloc, tokens)?;
    Ok(Operation::One(Action::Of { agent, act }))
}

/// Reads the actions from a line with the verb `verb`. `sent` is the number of packets that the earlier lines sent.
fn operation(
    alloc: Global,
    verb: Verb,
    agents: &[Config],
    labels: &[Label],
    sent: u64,
    tokens: &[Token],
) -> Result<Operation, LineError>
    ensures { Gives actions_of result (acts_of verb agents.now labels.now sent tokens.now) }
{
    match verb {
        Verb::Act(verb) => acting(alloc, verb, agents, labels, tokens),
        Verb::Inject => injection(alloc, tokens),
        Verb::Query => asking(alloc, agents, tokens),
        Verb::Give => giving(alloc, agents, sent, tokens),
        Verb::Take => taking(alloc, agents, sent, tokens),
    }
}

/// Reads the actions from a line. `sent` is the number of packets that the earlier lines sent.
#[tactic(auto, unfolding(crate::specs::Written::acts_said))]
pub(crate) fn read_operation(
    alloc: Global,
    agents: &[Config],
    labels: &[Label],
    sent: u64,
    tokens: &[Token],
) -> Result<Operation, LineError>
    ensures { Gives actions_of result (acts_said agents.now labels.now sent tokens.now) }
{
    let verb = or_bad(verb_in(word(tokens, 1)), 1, Expected::Command)?;
    operation(alloc, verb, agents, labels, sent, tokens)
}
