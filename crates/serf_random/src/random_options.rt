//! The options of a random schedule, and the comment that lists these options at the beginning of the schedule.

ghost use Rattle.std.specs.Prelude.{◌≡◌, ◌++◌, [], ◌∷◌, OnOk, decimal};
ghost use Rattle.serf_random.specs.Comment.{settings_words, comment_text, rules_words, seed_words, spread_words};
ghost use Rattle.serf_random.specs.Draft.{HasNumbers};
ghost use Rattle.serf_schedule.specs.ScheduleText.{spaced};

use crate::kind::Kind;
use serf_text::write_with_number;
use std::alloc::AllocError;

/// The version of the generator. A different version may make different schedules from the same seed.
pub const VERSION: u64 = 5;

/// The maximum number of agents in a random schedule of any kind other than [`Kind::Rounds`].
pub const MAX_AGENTS: u64 = 64;

/// The maximum number of agents in a schedule of rounds.
pub const MAX_ROUNDS_AGENTS: u64 = 10_000;

/// The maximum fanout of a schedule of rounds.
pub const MAX_FANOUT: u64 = 16;

/// The maximum number of rounds in a schedule.
pub const MAX_ROUNDS: u64 = 10_000;

/// The options of a random schedule.
///
/// The fields `fanout`, `loss` and `rounds` affect only schedules of rounds ([`Kind::Rounds`]).
#[derive(Clone, Copy, PartialEq, Eq)]
pub struct RandomOptions {
    /// The seed of the random numbers from which the schedule is made.
    pub seed: u64,
    pub kind: Kind,
    /// The number of agents, or 0 if the seed and the kind are to determine this number. A number above the maximum,
    /// which is [`MAX_ROUNDS_AGENTS`] for schedules of rounds and [`MAX_AGENTS`] for all others, has the same effect as
    /// the maximum.
    pub agents: u64,
    /// The maximum number of actions.
    pub actions: u64,
    /// The number of other agents to which an agent sends a packet in a round. A number above [`MAX_FANOUT`] has the
    /// same effect as [`MAX_FANOUT`] itself.
    pub fanout: u64,
    /// How many of every hundred packets are lost.
    pub loss: u64,
    /// The number of rounds. A number above [`MAX_ROUNDS`] has the same effect as [`MAX_ROUNDS`] itself.
    pub rounds: u64,
}

/// Lets the prover know that the numbers in `ask` have 64 bits. The function itself does nothing.
pub(crate) fn know_numbers(ask: &RandomOptions)
    ensures { HasNumbers ask.now }
{
    let _seed = ask.seed;
    let _agents = ask.agents;
    let _actions = ask.actions;
    let _fanout = ask.fanout;
    let _loss = ask.loss;
    let _rounds = ask.rounds;
}

/// Appends `word` and `number` to `out`, each preceded by a space.
#[tactic(auto, unfolding(serf_text::specs::TextParts::with_number))]
fn write_pair(out: &mut Vec<u8>, word: &[u8], number: u64) -> Result<(), AllocError>
    ensures { OnOk result (out.new.items ≡ out.old.items
        ++ spaced (word.now ∷ decimal number ∷ [])) }
{
    out.extend_from_slice(b" ")?;
    write_with_number(out, word, number)
}

/// Appends the seed and the kind in `ask` to `out`, as words.
#[tactic(auto, unfolding(crate::specs::Comment::seed_words))]
fn write_seed(out: &mut Vec<u8>, ask: &RandomOptions) -> Result<(), AllocError>
    ensures { OnOk result (out.new.items ≡ out.old.items ++ spaced (seed_words ask.now)) }
{
    write_pair(out, b"random", ask.seed)?;
    out.extend_from_slice(b" --kind ")?;
    out.extend_from_slice(ask.kind.name())
}

/// If `ask` describes a schedule of rounds, appends its fanout, its losses and its number of rounds to `out`, as words.
#[tactic(auto, unfolding(crate::specs::Comment::spread_words))]
fn write_spread(out: &mut Vec<u8>, ask: &RandomOptions) -> Result<(), AllocError>
    ensures { OnOk result (out.new.items ≡ out.old.items ++ spaced (spread_words ask.now)) }
{
    if !ask.kind.is_rounds() {
        return Ok(());
    }
    write_pair(out, b"--fanout", ask.fanout)?;
    write_pair(out, b"--loss", ask.loss)?;
    write_pair(out, b"--rounds", ask.rounds)
}

/// Appends all options in `ask` to `out`, as words.
#[tactic(auto, unfolding(crate::specs::Comment::settings_words, crate::specs::Comment::size_words))]
fn write_settings(out: &mut Vec<u8>, ask: &RandomOptions) -> Result<(), AllocError>
    ensures { OnOk result (out.new.items ≡ out.old.items ++ spaced (settings_words ask.now)) }
{
    write_seed(out, ask)?;
    write_pair(out, b"--agents", ask.agents)?;
    write_pair(out, b"--actions", ask.actions)?;
    write_spread(out, ask)
}

/// If `is_common` is true, appends to `out` the words which state that the schedule keeps to Serf's own rules.
fn write_rules(out: &mut Vec<u8>, is_common: bool) -> Result<(), AllocError>
    ensures { OnOk result (out.new.items ≡ out.old.items ++ spaced (rules_words is_common)) }
{
    if is_common {
        out.extend_from_slice(b" --rules serf")
    } else {
        Ok(())
    }
}

/// Appends to `out` a comment that lists the options in `ask` and the generator's version. If `is_common` is true, the
/// comment also states that the schedule keeps to Serf's own rules.
#[tactic(auto, unfolding(crate::specs::Comment::comment_text))]
pub(crate) fn write_comment(
    out: &mut Vec<u8>,
    ask: &RandomOptions,
    is_common: bool,
) -> Result<(), AllocError>
    ensures { OnOk result (out.new.items ≡ out.old.items ++ comment_text is_common ask.now) }
{
    out.extend_from_slice(b"#")?;
    write_settings(out, ask)?;
    write_rules(out, is_common)?;
    out.extend_from_slice(b" version 5\n")
}
