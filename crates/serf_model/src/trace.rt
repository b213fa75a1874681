//! The trace of a run.

use crate::lists::Lines;
use serf_agent::BytesList;

/// The result of a run: a line for each action, in order, and all packets that were sent, numbered from 0.
#[derive(Drop)]
pub struct Trace {
    pub lines: Lines,
    pub sent: BytesList,
}
