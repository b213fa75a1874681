//! The subject of a comparison, its rules, and the pipe to the agent under test.

use crate::verdict::Rules;
use serf_agent::Config;
use serf_model::{Action, Line};
use serf_wire::Bytes;

/// The pipe to the agent under test.
#[derive(Drop)]
pub struct Pipe<R, W> {
    /// The stream from which the agent's replies are read.
    pub reader: R,
    /// The stream to which the calls are written.
    pub writer: W,
}

/// One agent of a run, with which the agent under test is compared, and the rules of the comparison.
#[derive(Clone, Copy)]
pub struct Subject<'a> {
    pub rules: Rules,
    /// The number of the agent in the run.
    pub agent: u64,
    /// The settings with which the agent is opened.
    pub config: &'a Config,
}

/// A run: its actions, the actions' lines in the trace, and all packets that were sent.
#[derive(Clone, Copy)]
pub(crate) struct RunView<'a> {
    pub(crate) actions: &'a [Action],
    pub(crate) lines: &'a [Line],
    pub(crate) sent: &'a [Bytes],
}

/// A turn of a run.
#[derive(Clone, Copy)]
pub(crate) struct TurnView<'a> {
    pub(crate) action: &'a Action,
    /// The action's line in the trace.
    pub(crate) line: &'a Line,
    /// All packets of the run.
    pub(crate) sent: &'a [Bytes],
    /// The number of packets that were sent before the turn.
    pub(crate) count: usize,
}
