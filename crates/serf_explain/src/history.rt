//! Keeps the history of a run, so that reasons can refer to earlier actions.

ghost use Rattle.std.specs.Prelude.{◌≡◌, ◌++◌, ◌+◌, ◌∷◌, [], List, ℕ, length, map, OnOk};
ghost use Rattle.serf_model.specs.Cluster.{Cluster, step};
ghost use Rattle.serf_world.specs.View.{IsViewed};
ghost use Rattle.serf_explain.specs.Deliveries.{record_of, records_in};
ghost use Rattle.serf_explain.specs.Leaving.{HoldMarks, first_numbers, numbers_of};
ghost use Rattle.serf_explain.specs.Remembered.{Remembers, RemembersNothing};

use crate::deliveries::Deliveries;
use crate::marks::AllMarks;
use crate::memory::Memory;
use serf_model::{Action, Line};
use serf_world::World;
use std::alloc::{AllocError, Global};

/// The history of a run, which allows later reasons to name earlier actions. The history doesn't keep an action's whole
/// line in the trace, but only the events that the action handed out.
#[derive(Drop)]
pub(crate) struct History {
    pub(crate) deliveries: Deliveries,
    pub(crate) marks: AllMarks,
    pub(crate) memory: Memory,
}

impl History {
    /// Starts the history of a run in which no action has been carried out yet. Allocates no memory.
    pub(crate) fn new(alloc: Global) -> History
        ensures records { records_in result.deliveries.outs.items ≡ [] }
        ensures marks { (a : ℕ) → numbers_of result.marks a ≡ first_numbers }
        ensures memory { RemembersNothing result.memory }
    {
        History {
            deliveries: Deliveries::new(alloc),
            marks: AllMarks::new(alloc),
            memory: Memory::new(alloc),
        }
    }

    /// Records action number `number` together with `line`, the action's line in the trace. `world` is the cluster
    /// after the action.
    pub(crate) fn record_turn(
        &mut self,
        alloc: Global,
        world: &World,
        number: u64,
        action: &Action,
        line: &Line,
    ) -> Result<(), AllocError>
        ensures records { OnOk result (records_in self.new.deliveries.outs.items
            ≡ records_in self.old.deliveries.outs.items ++ map (record_of number) line.now.events) }
        ensures marks { (before : List Cluster) (c : Cluster) → HoldMarks before c self.old.marks
            → IsViewed (step c action.now).cluster world.now → number ≡ length before + 1
            → OnOk result
            (HoldMarks (before ++ c ∷ []) (step c action.now).cluster self.new.marks) }
        ensures memory { OnOk result (Remembers world.now number action.now line.now.answer
            self.old.memory self.new.memory) }
    {
        self.memory.record_turn(alloc, world, number, action, line)?;
        self.marks.record_turn(world, number, action)?;
        self.deliveries.record_all(alloc, number, line)
    }
}
