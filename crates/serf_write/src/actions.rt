//! Reads the actions that a line describes from the line's tokens. The place of a token is its number in the line, and
//! tokens are counted from 1.

ghost use Rattle.std.specs.Prelude.{◌<◌, Ok};
ghost use Rattle.serf_write.specs.Gives.{◌>>=◌ as and_then, Gives};
ghost use Rattle.serf_write.specs.Lines.{actions_of, answer_of, break_of, closing_of, coalesce_in, count_in, delivery_of, firing_of, firing_with_payload, firing_without_payload, giving_of, injection_of, merging_of, restart_of, tail_in, taking_of};
ghost use Rattle.serf_write.specs.Values.{ends_after};

use crate::labels::Label;
use crate::token::Token;
use crate::values::{
    agent_at, between, bytes_at, end_after, mode_at, moment_at, number_at, packet_at, payload_at,
    sink_call_at, word,
};
use crate::word_error::{Expected, LineError, bad, or_bad};
use serf_agent::Config;
use serf_model::{Act, Action};
use serf_text::{is_word, number};
use serf_wire::Bytes;
use std::alloc::Global;

/// The one or two actions that a line describes.
#[derive(Drop)]
pub(crate) enum Operation {
    One(Action),
    Two(Action, Action),
}

/// Returns whether the token at `place` is the word `coalesce`. If the line ends before `place`, the function returns
/// false. If the token at `place` is anything else, the function returns an error.
#[tactic(auto, unfolding(crate::specs::Lines::coalesce_in))]
fn coalesce_at(tokens: &[Token], place: usize) -> Result<bool, LineError>
    ensures { Gives (λ b. b) result (coalesce_in place tokens.now) }
{
    if tokens.len() < place {
        Ok(false)
    } else if is_word(word(tokens, place), b"coalesce") {
        Ok(true)
    } else {
        Err(bad(place, Expected::Coalesce))
    }
}

/// Reads the bytes that follow the word `tail`, which has to be token number `place` (counted from 1). If the line ends
/// before `place`, the function returns no bytes.
#[tactic(auto, unfolding(crate::specs::Lines::tail_in))]
fn tail_at(alloc: Global, tokens: &[Token], place: usize) -> Result<Bytes, LineError>
    requires { place < 100 }
    ensures { Gives (λ b. b) result (tail_in place tokens.now) }
{
    if tokens.len() < place {
        Ok(Bytes::from_vec(Vec::new(alloc)))
    } else if is_word(word(tokens, place), b"tail") {
        bytes_at(alloc, tokens, place + 1)
    } else {
        Err(bad(place, Expected::Tail))
    }
}

/// Reads the number of the sink call that is to fail from the token at `place`. Sink calls are counted from 1. If the
/// line ends before `place`, the number is 1.
#[tactic(auto, unfolding(crate::specs::Lines::count_in))]
fn count_at(tokens: &[Token], place: usize) -> Result<u64, LineError>
    ensures { Gives (λ n. n) result (count_in place tokens.now) }
{
    if tokens.len() < place {
        return Ok(1);
    }
    let count = between(number(word(tokens, place)), 1, u64::MAX);
    or_bad(count, place, Expected::Count)
}

/// If the line has at most `count` tokens, returns `said`, which was read from the line. If the line has more tokens,
/// the function returns an error stating that the line should end before the first extra token.
pub(crate) fn ending<T: Drop>(tokens: &[Token], count: usize, said: T) -> Result<T, LineError>
    requires { count < 100 }
    ensures { Gives (λ a. a) result (and_then (ends_after count tokens.now) (λ _. Ok said)) }
{
    end_after(tokens, count)?;
    Ok(said)
}

/// Reads the rest of a `fire` line for an event called `name`. The line may contain a payload at place 4, and may then
/// contain the word `coalesce`.
fn firing_with_payload(alloc: Global, name: Bytes, tokens: &[Token]) -> Result<Act, LineError>
    ensures { Gives (λ a. a) result (firing_with_payload name tokens.now) }
{
    let payload = payload_at(alloc, tokens, 4)?;
    let coalesce = coalesce_at(tokens, 5)?;
    let act = Act::Fire {
        name,
        payload,
        coalesce,
    };
    ending(tokens, 5, act)
}

/// Reads the rest of a `fire` line for an event that is called `name` and has no payload. The line ends with the word
/// `coalesce` at place 4.
fn firing_without_payload(alloc: Global, name: Bytes, tokens: &[Token]) -> Result<Act, LineError>
    ensures { Gives (λ a. a) result (firing_without_payload name tokens.now) }
{
    let act = Act::Fire {
        name,
        payload: Bytes::from_vec(Vec::new(alloc)),
        coalesce: true,
    };
    ending(tokens, 4, act)
}

/// Reads a `fire` line. From place 3 on, the line contains the name of the event, and may also contain its payload and
/// the word `coalesce`.
#[tactic(auto, unfolding(crate::specs::Lines::firing_of))]
pub(crate) fn firing(alloc: Global, tokens: &[Token]) -> Result<Act, LineError>
    ensures { Gives (λ a. a) result (firing_of tokens.now) }
{
    let name = bytes_at(alloc, tokens, 3)?;
    if is_word(word(tokens, 4), b"coalesce") {
        firing_without_payload(alloc, name, tokens)
    } else {
        firing_with_payload(alloc, name, tokens)
    }
}

/// Reads a `deliver` line. From place 3 on, the line contains the packet, and may also contain the moment.
#[tactic(auto, unfolding(crate::specs::Lines::delivery_of))]
pub(crate) fn delivery(labels: &[Label], tokens: &[Token]) -> Result<Act, LineError>
    ensures { Gives (λ a. a) result (delivery_of labels.now tokens.now) }
{
    let packet = packet_at(labels, tokens, 3)?;
    let now = moment_at(tokens, 4)?;
    ending(tokens, 5, Act::Deliver { packet, now })
}

/// Reads a `merge` line. From place 3 on, the line contains the packet with the state, and the word `sync` or `join`.
#[tactic(auto, unfolding(crate::specs::Lines::merging_of))]
pub(crate) fn merging(labels: &[Label], tokens: &[Token]) -> Result<Act, LineError>
    ensures { Gives (λ a. a) result (merging_of labels.now tokens.now) }
{
    let packet = packet_at(labels, tokens, 3)?;
    let join = mode_at(tokens, 4)?;
    ending(tokens, 4, Act::Merge { packet, join })
}

/// Reads a `respond` line. From place 3 on, the line contains the number of the query and the payload, and may also
/// contain the moment.
#[tactic(auto, unfolding(crate::specs::Lines::answer_of))]
pub(crate) fn answer(alloc: Global, tokens: &[Token]) -> Result<Act, LineError>
    ensures { Gives (λ a. a) result (answer_of tokens.now) }
{
    let handed = number_at(tokens, 3)?;
    let payload = bytes_at(alloc, tokens, 4)?;
    let now = moment_at(tokens, 5)?;
    let act = Act::Respond {
        handed,
        now,
        payload,
    };
    ending(tokens, 6, act)
}

/// Reads a `restart` line. From place 3 on, the line may contain a tail.
#[tactic(auto, unfolding(crate::specs::Lines::restart_of))]
pub(crate) fn restarting(alloc: Global, tokens: &[Token]) -> Result<Act, LineError>
    ensures { Gives (λ a. a) result (restart_of tokens.now) }
{
    let tail = tail_at(alloc, tokens, 3)?;
    ending(tokens, 4, Act::Restart { tail })
}

/// Reads a `break` line. From place 3 on, the line contains the kind of sink call that is to fail, and may also contain
/// the number of this call.
#[tactic(auto, unfolding(crate::specs::Lines::break_of))]
pub(crate) fn breaking(tokens: &[Token]) -> Result<Act, LineError>
    ensures { Gives (λ a. a) result (break_of tokens.now) }
{
    let call = sink_call_at(tokens, 3)?;
    let count = count_at(tokens, 4)?;
    ending(tokens, 4, Act::Break { call, count })
}

/// Reads a `close` line, which closes an agent's queries. From place 3 on, the line may contain the moment.
#[tactic(auto, unfolding(crate::specs::Lines::closing_of))]
pub(crate) fn closing(tokens: &[Token]) -> Result<Act, LineError>
    ensures { Gives (λ a. a) result (closing_of tokens.now) }
{
    let now = moment_at(tokens, 3)?;
    ending(tokens, 4, Act::Close { now })
}

/// Reads an `inject` line, which contains the bytes at place 2.
#[tactic(auto, unfolding(crate::specs::Lines::injection_of))]
pub(crate) fn injection(alloc: Global, tokens: &[Token]) -> Result<Operation, LineError>
    ensures { Gives actions_of result (injection_of tokens.now) }
{
    let bytes = bytes_at(alloc, tokens, 2)?;
    ending(tokens, 2, Operation::One(Action::Inject { bytes }))
}

/// Reads a `give` line. The bytes in the line are injected as packet number `sent`, and the agent that the line names
/// receives this packet.
#[tactic(auto, unfolding(crate::specs::Lines::giving_of))]
pub(crate) fn giving(
    alloc: Global,
    agents: &[Config],
    sent: u64,
    tokens: &[Token],
) -> Result<Operation, LineError>
    ensures { Gives actions_of result (giving_of agents.now sent tokens.now) }
{
    let agent = agent_at(agents, tokens, 2)?;
    let bytes = bytes_at(alloc, tokens, 3)?;
    let now = moment_at(tokens, 4)?;
    let act = Act::Deliver { packet: sent, now };
    let operation = Operation::Two(Action::Inject { bytes }, Action::Of { agent, act });
    ending(tokens, 5, operation)
}

/// Reads a `take` line. The bytes in the line are injected as packet number `sent`, and the agent that the line names
/// merges this packet.
#[tactic(auto, unfolding(crate::specs::Lines::taking_of))]
pub(crate) fn taking(
    alloc: Global,
    agents: &[Config],
    sent: u64,
    tokens: &[Token],
) -> Result<Operation, LineError>
    ensures { Gives actions_of result (taking_of agents.now sent tokens.now) }
{
    let agent = agent_at(agents, tokens, 2)?;
    let bytes = bytes_at(alloc, tokens, 3)?;
    let join = mode_at(tokens, 4)?;
    let act = Act::Merge { packet: sent, join };
    let operation = Operation::Two(Action::Inject { bytes }, Action::Of { agent, act });
    ending(tokens, 4, operation)
}
