//! Reporters: each of them receives the turns of a run, and writes a text about them.

ghost use Rattle.std.specs.Prelude.{◌≡◌, ◌++◌, ◌∷◌, ◌+◌, [], List, ℕ, OnOk, length};
ghost use Rattle.serf_agent.specs.declared.config.Config.{Config};
ghost use Rattle.serf_model.specs.declared.action.Action.{Action};
ghost use Rattle.serf_model.specs.declared.line.Line.{Line as Shown};
ghost use Rattle.serf_world.specs.Acts.{Acts};
ghost use Rattle.serf_world.specs.View.{HasDone};

use crate::world::World;
use serf_model::{Action, Line};
use std::alloc::{AllocError, Global};

/// A reporter receives the turns of a run, one after another, and appends its text about each of them to an output.
///
/// The contracts use three predicates. `told options reporter configs actions text` means that the reporter has the
/// options `options`, and wrote `text` about agents with the settings `configs` that did `actions`. `saw` means that
/// the reporter also recorded `seen` before one more action. `streams options` means that these options are for a
/// schedule whose lines are done one by one.
pub trait Turns {
    ghost use Rattle.std.specs.Prelude.{◌≡◌, ◌++◌, ◌∷◌, ◌+◌, [], List, ℕ, IfOk, OnOk, length};
    ghost use Rattle.serf_agent.specs.declared.config.Config.{Config};
    ghost use Rattle.serf_model.specs.declared.action.Action.{Action};
    ghost use Rattle.serf_model.specs.declared.line.Line.{Line as Shown};
    ghost use Rattle.serf_model.specs.Cluster.{run_of, step};
    ghost use Rattle.serf_world.specs.View.{HasDone, TakesStep};

    /// The options determine what the reporter writes, for example which lines. They don't change during a run.
    type Options;

    /// The data that the reporter records about the cluster before an action, so that it can write about the action
    /// afterwards.
    type Seen: Drop;

    ghost told: { Self.Options → Self → List Config → List Action → List ℕ → Type 0 };

    ghost saw: { Self.Options → Self → Self.Seen → List Config → List Action → Action → List ℕ
        → Type 0 };

    ghost streams: { Self.Options → Type 0 };

    /// Begins a run in `world`, which has `agents` agents and has done nothing yet.
    fn begin(&mut self, alloc: Global, world: &World, agents: u64) -> Result<(), AllocError>
        ensures { (options : Self.Options) (configs : List Config) (text : List ℕ)
            → told options self.old configs [] text → HasDone configs [] [] world.now
            → agents ≡ length configs → OnOk result (told options self.new configs [] text) };

    /// Inspects `world` before action number `number`, counted from 1, is done in it. Returns the data that
    /// [`Turns::tell`] needs about the cluster before the action.
    fn inspect(
        &mut self,
        alloc: Global,
        world: &World,
        number: u64,
        action: &Action,
    ) -> Result<Self::Seen, AllocError>
        ensures { (options : Self.Options) (configs : List Config) (done : List Action)
            (lines : List Shown) (text : List ℕ) → told options self.old configs done text
            → HasDone configs done lines world.now → number ≡ length done + 1
            → IfOk result (λ seen. saw options self.new seen configs done action.now text) };

    /// Appends the text about action number `number` to `out`. `line` is the action's line, `world` is the cluster
    /// after the action, and `seen` was recorded before the action.
    fn tell(
        &mut self,
        alloc: Global,
        world: &World,
        number: u64,
        action: &Action,
        line: Line,
        seen: Self::Seen,
        out: &mut Vec<u8>,
    ) -> Result<(), AllocError>
        ensures { (options : Self.Options) (configs : List Config) (done : List Action)
            (lines : List Shown) (front : List ℕ)
            → saw options self.old seen configs done action.now (front ++ out.old.items)
            → HasDone configs (done ++ action.now ∷ []) lines world.now
            → TakesStep (step (run_of configs done).cluster action.now) world.now line
            → number ≡ length done + 1
            → OnOk result (told options self.new configs (done ++ action.now ∷ [])
            (front ++ out.new.items)) };
}

/// Does `action` in `world`, and appends the text of `reporter` about it to `out`. `number` is the action's number in
/// the run, counted from 1.
pub fn act<T: Turns>(
    alloc: Global,
    world: &mut World,
    reporter: &mut T,
    number: u64,
    action: &Action,
    out: &mut Vec<u8>,
) -> Result<(), AllocError>
    ensures { (options : T.Options) (configs : List Config) (done : List Action)
        (lines : List Shown) (front : List ℕ) → HasDone configs done lines world.old
        → T.told options reporter.old configs done (front ++ out.old.items)
        → number ≡ length done + 1
        → OnOk result (Acts (T.told options) configs (done
        ++ action.now ∷ []) world.new reporter.new
        (front ++ out.new.items)) }
{
    let seen = reporter.inspect(alloc, world, number, action)?;
    let line = world.step(alloc, action)?;
    reporter.tell(alloc, world, number, action, line, seen, out)
}
