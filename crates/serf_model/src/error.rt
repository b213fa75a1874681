//! The errors of a cluster that can't be made, and of a run that ends early.

use crate::trace::Trace;
use thiserror::Error;

/// The reason why a cluster can't be made. If the agents' names and settings are both wrong, the error is `NameTwice`.
#[derive(Clone, Copy, Debug, PartialEq, Eq, Error)]
pub enum NewError {
    /// An agent has the same name as an earlier agent. The number, counted from 0, refers to the first agent with this
    /// error.
    #[error("agent {0} has the name of an earlier agent")]
    NameTwice(u64),
    /// An agent's settings are out of bounds. The number, counted from 0, refers to the first agent with this error.
    #[error("the settings of agent {0} are out of bounds")]
    BadConfig(u64),
    #[error("out of memory")]
    OutOfMemory,
}

/// The reason why a run ended early. If the agents' names and settings are both wrong, the error is `NameTwice`.
#[derive(Drop)]
pub enum RunError {
    /// An agent has the same name as an earlier agent. The number, counted from 0, refers to the first agent with this
    /// error. No action was done.
    NameTwice(u64),
    /// An agent's settings are out of bounds. The number, counted from 0, refers to the first agent with this error. No
    /// action was done.
    BadConfig(u64),
    /// Memory ran out. The trace has the actions that were done before.
    OutOfMemory(Trace),
}
