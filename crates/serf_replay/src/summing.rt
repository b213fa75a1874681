//! Updates a summary during a run, turn by turn.

use crate::summary::Summary;
use serf_model::{Action, Line};
use serf_world::{Turns, World};
use std::alloc::{AllocError, Global};

/// Counts the line of each turn, and writes no text about the turn. [`Turns::begin`] and [`Turns::inspect`] do nothing.
impl Turns for Summary {
    ghost use Rattle.serf_replay.specs.Summing.{sums_up};

    type Options = ();

    type Seen = ();

    // The summary contains the counts of the lines of all turns. A summary has no options, and records nothing before
    // an action.
    ghost told = { λ options s configs actions text. sums_up s configs actions text };

    ghost saw = { λ options s seen configs actions action text. sums_up s configs actions text };

    ghost streams = { λ options. Unit {0} };

    fn begin(&mut self, _alloc: Global, _world: &World, _agents: u64) -> Result<(), AllocError> {
        Ok(())
    }

    fn inspect(
        &mut self,
        _alloc: Global,
        _world: &World,
        _number: u64,
        _action: &Action,
    ) -> Result<(), AllocError> {
        Ok(())
    }

    fn tell(
        &mut self,
        alloc: Global,
        _world: &World,
        _number: u64,
        _action: &Action,
        line: Line,
        _seen: (),
        _out: &mut Vec<u8>,
    ) -> Result<(), AllocError> {
        self.add(alloc, &line)
    }
}
