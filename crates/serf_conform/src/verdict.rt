//! The verdict on an agent that was compared with the reference, and the errors that prevent a verdict.

use crate::dump::StateDump;
use serf_wire::Bytes;
use std::alloc::AllocError;
use thiserror::Error;

/// The rules under which an agent is compared with the reference.
#[derive(Clone, Copy, PartialEq, Eq)]
pub enum Rules {
    /// Under Serf's rules, a comparison ends before the first turn that rests on one of this project's own rules.
    Serf,
    /// All rules apply, including this project's own rules.
    Own,
}

impl Rules {
    ghost use Rattle.std.specs.Prelude.{◌≡◌};
    ghost use Rattle.serf_conform.specs.Rules.{is_serf};

    /// Returns whether the rules are Serf's rules alone. Allocates no memory.
    pub fn is_serf(self) -> bool
        ensures { result ≡ is_serf self }
    {
        matches!(self, Rules::Serf)
    }
}

/// The reason why a comparison ended.
#[derive(Drop)]
pub enum End {
    /// Every call was made, and every reply agrees, except that some replies to `look` may be `unsupported`.
    AllAgree,
    /// The action rests on one of this project's own rules, so its call was not made.
    OwnRule,
    /// The reply is `unsupported`, which means that the agent doesn't support the call.
    Unsupported,
    /// The reply can't be read, or doesn't mean the same as the expected reply. The value is the text of the reply.
    Differs(Bytes),
    /// The agent ended before its reply was complete.
    Ended,
}

/// The verdict on an agent that was compared with the reference.
#[derive(Drop)]
pub struct Verdict {
    /// The number of calls whose replies agree, including the opening.
    pub calls: u64,
    /// The number of replies to `look` that agree with the expected state.
    pub dumps: u64,
    /// The number of replies to `look` that are `unsupported`.
    pub unsupported_dumps: u64,
    /// The number of the action at which the comparison ended, counted from 1. The number is 0 if the comparison ended
    /// at the opening, and the number of actions plus one if it ended after the last action.
    pub action: u64,
    /// The state that the agent should have had after the action if the comparison ended at a `look`, and `None`
    /// otherwise. If the comparison ended at a `look`, the reply to the action itself agrees.
    pub dump: Option<StateDump>,
    /// The reason why the comparison ended.
    pub end: End,
}

/// The reason why there is no verdict.
#[derive(Clone, Copy, Debug, Drop, Error, PartialEq, Eq)]
pub enum ConformError {
    /// There is no agent, because the settings are out of bounds or because a world contains no agent.
    #[error("there is no such agent")]
    NoAgent,
    /// The trace doesn't belong to the actions: it has too few lines or too few packets.
    #[error("the trace doesn't belong to these actions")]
    OtherTrace,
    /// A read failed.
    #[error("a read failed")]
    ReadError,
    /// A write failed, or accepted no bytes.
    #[error("a write failed")]
    WriteError,
    /// A reply is longer than 67,108,864 bytes.
    #[error("the reply is too long")]
    ReplyTooLong,
    #[error("out of memory")]
    OutOfMemory,
}

impl From<AllocError> for ConformError {
    ghost use Rattle.std.specs.Prelude.{◌≡◌};
    ghost use Rattle.serf_conform.specs.declared.verdict.ConformError.TheVariants.{OutOfMemory};

    ghost from_gives = { λ _ e. e ≡ OutOfMemory };

    fn from(_error: AllocError) -> ConformError {
        ConformError::OutOfMemory
    }
}
