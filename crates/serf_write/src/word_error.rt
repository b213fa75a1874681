//! The errors that a line of a written schedule can contain.

use std::alloc::AllocError;
use std::error::Error;
use std::fmt;

/// What the reader expected in place of a wrong word. Each value is printed as a sentence.
#[derive(Clone, Copy, Debug, Drop, PartialEq, Eq)]
pub enum Expected {
    ClosingQuote,
    Escape,
    Label,
    Command,
    AgentsFirst,
    NewName,
    NameInQuotes,
    Setting,
    Bounds,
    Agent,
    Packet,
    Bytes,
    Number,
    Count,
    Mode,
    SinkCall,
    Payload,
    Coalesce,
    Tail,
    At,
    Time,
    Option,
    Filter,
    End,
}

impl fmt::Display for Expected {
    fn fmt<W: fmt::Write>(&self, f: &mut fmt::Formatter<W>) -> fmt::Result {
        let sentence = match self {
            Expected::ClosingQuote =>
                "the text that begins here needs a closing quote; a quote within a text is written \\x22",
            Expected::Escape =>
                "in a text, a backslash has to be followed by x and two hex digits, as in \\x0a",
            Expected::Label =>
                "expected a label: a new word that is not a number and has no slash, followed by a colon",
            Expected::Command =>
                "expected agent, fire, deliver, state, merge, query, respond, restart, break, inject, close, save, compact, give or take",
            Expected::AgentsFirst => "all agents have to be before the first action",
            Expected::NewName => "expected the agent's name, which no agent above has",
            Expected::NameInQuotes =>
                "expected the agent's name; a word of digits is an agent's number, so a name of digits is written in quotes",
            Expected::Setting =>
                "expected events=N, queries=N, limit=N, querylimit=N, responselimit=N, responders=N, pertime=N, keep, ignore or keep-events",
            Expected::Bounds =>
                "a name has 1 to 128 bytes, each limit is at most 9216, and the other numbers of an agent are 1 to 65536",
            Expected::Agent => "expected the name of an agent above, or an agent's number",
            Expected::Packet =>
                "expected the label of a line above that sent a packet, as in d2, or in d2/1 for its second packet; or a packet's number",
            Expected::Bytes => "expected a text in quotes, bytes in hex digits, or - for none",
            Expected::Number => "expected a number",
            Expected::Count => "expected a number of at least 1",
            Expected::Mode => "expected join or sync",
            Expected::SinkCall => "expected append, flush, replace-old or replace-new",
            Expected::Payload =>
                "expected a text in quotes, bytes in hex digits, or - for none; or coalesce, or the end of the line",
            Expected::Coalesce => "expected coalesce or the end of the line",
            Expected::Tail => "expected tail with its bytes, or the end of the line",
            Expected::At => "expected at with a moment, or the end of the line",
            Expected::Time => "expected a time, as in 10ms: a number followed by ns, us, ms or s",
            Expected::Option =>
                "expected id=N, timeout=TIME, ack, quiet or filter=FILTER, or the end of the line",
            Expected::Filter =>
                "expected filter=node:NAME,NAME, filter=tag:NAME=EXPRESSION or filter=HEX; a name or an expression may be a text in quotes",
            Expected::End => "expected the end of the line before this word",
        };
        f.write_str(sentence)
    }
}

impl Error for Expected {}

/// The place of the first wrong word in a line, and what was expected at this place. Places are counted from 1. If a
/// word is missing, the place is one more than the number of words in the line.
#[derive(Clone, Copy, Debug, Drop, PartialEq, Eq)]
pub struct WordError {
    pub place: u64,
    pub expected: Expected,
}

/// The reason why a line is refused.
#[derive(Clone, Copy, Drop)]
pub(crate) enum LineError {
    /// A word in the line is wrong.
    Bad(WordError),
    /// Memory ran out.
    OutOfMemory,
}

impl From<AllocError> for LineError {
    ghost use Rattle.std.specs.Prelude.{◌≡◌};
    ghost use Rattle.serf_write.specs.declared.word_error.LineError.TheVariants.{OutOfMemory};

    ghost from_gives = { λ _ e. e ≡ OutOfMemory };

    fn from(_error: AllocError) -> LineError {
        LineError::OutOfMemory
    }
}

ghost use Rattle.std.specs.Prelude.{◌≡◌};
ghost use Rattle.serf_write.specs.Gives.{Gives, or_wrong};

/// Returns the error for a line in which the word at `place` (counted from 1) is wrong. `expected` states what was
/// expected instead of this word.
pub(crate) fn bad(place: usize, expected: Expected) -> LineError
    ensures { result ≡ LineError.Bad (record { place = place; expected = expected }) }
{
    LineError::Bad(WordError {
        place: place as u64,
        expected,
    })
}

/// Returns the value in `found`, which was read from the word at `place`. If `found` is `None`, the function returns an
/// error stating that the word at `place` is wrong.
pub(crate) fn or_bad<T>(found: Option<T>, place: usize, expected: Expected) -> Result<T, LineError>
    ensures { Gives (λ x. x) result (or_wrong place expected found) }
{
    match found {
        Some(found) => Ok(found),
        None => Err(bad(place, expected)),
    }
}
