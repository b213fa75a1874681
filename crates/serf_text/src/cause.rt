//! The reasons why a line of a schedule is wrong, and how they are printed.

ghost use Rattle.std.specs.Prelude.{Some};
ghost use Rattle.serf_text.specs.CauseText.{cause_text};

use std::alloc::AllocError;
use std::fmt;

/// The reason why a line is wrong. The causes are checked in this order. A cause is printed as its name, and
/// `BadWord` also with the place of the word.
#[derive(Clone, Copy, Debug, PartialEq, Eq)]
pub enum Cause {
    /// The first word of the line isn't a command.
    UnknownWord,
    /// An agent line follows an action line.
    LateAgent,
    /// The line has more or fewer words than its command allows.
    WordCount,
    /// The word at this place isn't allowed there, and all words before it are allowed at their places. The command
    /// is at place 1.
    BadWord(u64),
    /// The name or a number of an agent is out of range.
    BadConfig,
    /// An earlier agent has the same name.
    NameTwice,
}

impl fmt::Display for Cause {
    ghost output = { λ cause. Some (cause_text cause) };

    fn fmt<W: fmt::Write>(&self, f: &mut fmt::Formatter<W>) -> fmt::Result {
        match *self {
            Cause::UnknownWord => write!(f, "UnknownWord"),
            Cause::LateAgent => write!(f, "LateAgent"),
            Cause::WordCount => write!(f, "WordCount"),
            Cause::BadWord(place) => write!(f, "BadWord {place}"),
            Cause::BadConfig => write!(f, "BadConfig"),
            Cause::NameTwice => write!(f, "NameTwice"),
        }
    }
}

/// Why a line was not read.
#[derive(Clone, Copy, Debug, PartialEq, Eq)]
pub enum LineError {
    /// The line is wrong for this reason.
    Bad(Cause),
    /// Memory ran out for the content of the line.
    OutOfMemory,
}

impl From<AllocError> for LineError {
    ghost use Rattle.std.specs.Prelude.{◌≡◌};
    ghost use Rattle.serf_text.specs.declared.cause.LineError.TheVariants.{OutOfMemory};

    ghost from_gives = { λ _ e. e ≡ OutOfMemory };

    fn from(_error: AllocError) -> LineError {
        LineError::OutOfMemory
    }
}
