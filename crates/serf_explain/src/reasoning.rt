//! Writes the reasons for the actions of a run, turn by turn.

ghost use Rattle.std.specs.Prelude.{◌≡◌, [], List, ℕ, OnOk};
ghost use Rattle.std.specs.List.{flat_map};
ghost use Rattle.serf_agent.specs.declared.config.Config.{Config};
ghost use Rattle.serf_explain.specs.Because.{because_line};
ghost use Rattle.serf_explain.specs.Explained.{AddsTurn, TellsAll};
ghost use Rattle.serf_explain.specs.Reasoned.{Reasoned};

use crate::history::History;
use crate::merge_reasons::MergeLines;
use crate::range::Range;
use crate::reasons::{lines_before, write_reasons};
use crate::turn_context::TurnContext;
use serf_model::{Action, Line, run_promises};
use serf_schedule::{lines_stay, write_action};
use serf_world::{Turns, World};
use std::alloc::{AllocError, Global};

/// If `is_shown` is true, appends the trace lines of an action and the lines with the action's reasons. If `is_shown`
/// is false, the function appends nothing.
fn write_turn(
    alloc: Global,
    out: &mut Vec<u8>,
    is_shown: bool,
    context: &TurnContext,
) -> Result<(), AllocError>
    ensures { (carried : List (List ℕ))
        → context.now.carried.now ≡ flat_map (because_line context.now.number) carried
        → OnOk result (AddsTurn (TellsAll is_shown context.now.raised carried context.now.past.now
        context.now.number context.now.world.now context.now.action.now context.now.line.now)
        is_shown
        context.now.world.now.sent context.now.number context.now.line.now
        out.old.items out.new.items) }
{
    if !is_shown {
        return Ok(());
    }
    write_action(out, context.world.sent(), context.number, context.line)?;
    write_reasons(alloc, out, context)
}

/// Writes the trace of a run together with the reasons. To be able to name earlier actions, a `Reasoning` remembers a
/// few numbers for each agent, each event that was handed out, and each query that an agent accepted or fired.
#[derive(Drop)]
pub struct Reasoning {
    history: History,
    /// The lines with the reasons for a merge, which are put together before the merge is carried out. Each merge
    /// reuses the same buffers.
    lines: MergeLines,
    /// The actions that are shown and explained.
    range: Range,
}

impl Reasoning {
    /// Starts the reasoning for a run in which no action has been carried out yet. The actions in `range` will be
    /// explained. Allocates no memory.
    pub fn new(alloc: Global, range: Range) -> Reasoning
        ensures { (configs : List Config) → Reasoned range result configs [] [] }
    {
        Reasoning {
            history: History::new(alloc),
            lines: MergeLines::new(alloc),
            range,
        }
    }
}

impl Turns for Reasoning {
    ghost use Rattle.std.specs.Prelude.{◌≡◌};
    ghost use Rattle.serf_explain.specs.Range.{all_actions};
    ghost use Rattle.serf_explain.specs.Reasoned.{FoundMerge, Reasoned};

    type Options = Range;

    type Seen = ();

    ghost told = { Reasoned };

    ghost saw = { λ range r seen configs done action text.
        FoundMerge range r configs done action text };

    ghost streams = { λ range. range ≡ all_actions };

    fn begin(&mut self, _alloc: Global, _world: &World, _agents: u64) -> Result<(), AllocError> {
        Ok(())
    }

    fn inspect(
        &mut self,
        alloc: Global,
        world: &World,
        number: u64,
        action: &Action,
    ) -> Result<(), AllocError> {
        lines_before(alloc, world, &self.history, number, action, &mut self.lines)?;
        Ok(())
    }

    fn tell(
        &mut self,
        alloc: Global,
        world: &World,
        number: u64,
        action: &Action,
        line: Line,
        _seen: (),
        out: &mut Vec<u8>,
    ) -> Result<(), AllocError> {
        // The prover needs the laws that a line stays the same when more packets are sent, and that every run keeps its
        // promises.
        lines_stay();
        run_promises();
        let context = TurnContext {
            number,
            world,
            past: &self.history,
            action,
            line: &line,
            raised: self.lines.raised,
            carried: &self.lines.text,
        };
        write_turn(
            alloc,
            out,
            self.range.shows(number, action.actor()),
            &context,
        )?;
        self.history
            .record_turn(alloc, world, number, action, &line)
    }
}
