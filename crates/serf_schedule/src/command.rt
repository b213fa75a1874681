//! Reads and writes the first word of a schedule's line, which names the line's command.

ghost use Rattle.std.specs.Prelude.{◌≡◌};
ghost use Rattle.serf_schedule.specs.Command.{bare_of, bare_act, command_of, count_of, verb_word};

use serf_model::Act;
use serf_text::is_word;

/// The command of a schedule's line, which is the first word of the line.
#[derive(Clone, Copy, PartialEq, Eq)]
pub enum Command {
    /// The line adds an agent with its settings to the cluster.
    Agent,
    /// The line injects bytes, which are sent as a packet although no agent created them.
    Inject,
    /// An agent fires a query. The line may have any number of filters.
    Query,
    /// An agent does anything else. The line has as many words as [`Verb::count`] returns.
    Act(Verb),
}

/// What an agent does, other than firing a query. Each variant stands for the [`Act`] of the same name.
#[derive(Clone, Copy, PartialEq, Eq)]
pub enum Verb {
    Deliver,
    Fire,
    Merge,
    Respond,
    Restart,
    Break,
    Close,
    /// An act whose line has only the command and the agent.
    Bare(Bare),
}

/// An act without arguments: its line has only the command and the agent.
#[derive(Clone, Copy, PartialEq, Eq)]
pub enum Bare {
    State,
    Save,
    Compact,
}

/// Returns the act without arguments that `word` names, or `None` for any other word.
fn bare_in(word: &[u8]) -> Option<Bare>
    ensures { result ≡ bare_of word.now }
{
    if is_word(word, b"state") {
        Some(Bare::State)
    } else if is_word(word, b"save") {
        Some(Bare::Save)
    } else if is_word(word, b"compact") {
        Some(Bare::Compact)
    } else {
        None
    }
}

/// Returns the command that `word` names, or `None` for any other word. Allocates no memory.
#[tactic(auto, unfolding(crate::specs::Command::command_of))]
pub fn command_in(word: &[u8]) -> Option<Command>
    ensures { result ≡ command_of word.now }
{
    if word == b"agent".as_slice() {
        Some(Command::Agent)
    } else if word == b"query".as_slice() {
        Some(Command::Query)
    } else if word == b"inject".as_slice() {
        Some(Command::Inject)
    } else if word == b"deliver".as_slice() {
        Some(Command::Act(Verb::Deliver))
    } else if word == b"fire".as_slice() {
        Some(Command::Act(Verb::Fire))
    } else if word == b"merge".as_slice() {
        Some(Command::Act(Verb::Merge))
    } else if word == b"respond".as_slice() {
        Some(Command::Act(Verb::Respond))
    } else if word == b"restart".as_slice() {
        Some(Command::Act(Verb::Restart))
    } else if word == b"break".as_slice() {
        Some(Command::Act(Verb::Break))
    } else if word == b"close".as_slice() {
        Some(Command::Act(Verb::Close))
    } else {
        match bare_in(word) {
            Some(bare) => Some(Command::Act(Verb::Bare(bare))),
            None => None,
        }
    }
}

impl Verb {
    /// Returns how many words a line with this verb has, including the command and the agent.
    pub(crate) fn count(self) -> usize
        ensures { result ≡ count_of self }
    {
        match self {
            Verb::Bare(_) => 2,
            Verb::Restart | Verb::Close => 3,
            Verb::Deliver | Verb::Merge | Verb::Break => 4,
            Verb::Fire | Verb::Respond => 5,
        }
    }
}

impl Bare {
    /// Returns the act that this word stands for. Allocates no memory.
    pub fn act(self) -> Act
        ensures { result ≡ bare_act self }
    {
        match self {
            Bare::State => Act::State,
            Bare::Save => Act::Save,
            Bare::Compact => Act::Compact,
        }
    }
}

/// Returns the first word of a line in which an agent does `act`. Allocates no memory.
pub fn verb_word(act: &Act) -> &'static [u8]
    ensures { result.now ≡ verb_word act.now }
{
    match act {
        Act::Fire { .. } => b"fire",
        Act::Deliver { .. } => b"deliver",
        Act::State => b"state",
        Act::Merge { .. } => b"merge",
        Act::Query(_) => b"query",
        Act::Respond { .. } => b"respond",
        Act::Restart { .. } => b"restart",
        Act::Break { .. } => b"break",
        Act::Close { .. } => b"close",
        Act::Save => b"save",
        Act::Compact => b"compact",
    }
}
