//! Does a whole run: makes a cluster from the agents' settings, does all actions, and returns the trace.

ghost use Rattle.std.specs.Prelude.{◌≡◌, ◌<◌, ◌++◌, ◌∷◌, ℕ, [], IfErr, IfOk, OnErr, OnOk, length, take};
ghost use Rattle.std.specs.List.{fold};
ghost use Rattle.serf_model.specs.Cluster.{Cluster, Run, after, run_of, step, trace_of};
ghost use Rattle.serf_model.specs.Ready.{AreRepresentable};
ghost use Rattle.serf_model.specs.Runs.{IsRun, ShowsKept};
ghost use Rattle.serf_model.specs.Trace.{outcome_of};
ghost use Rattle.serf_world.specs.View.{AddsLine, IsViewed};

use crate::known_sizes::{inspect_all, read_all_numbers};
use crate::roster::Roster;
use crate::world::World;
use serf_agent::{BytesList, Config};
use serf_model::{Action, Line, Lines, NewError, RunError, Trace, run_promises, turns_shown};
use std::alloc::{AllocError, Global};

/// Does `action` in `world`, and appends its line to `lines`. After an `AllocError`, no packet was sent and no line was
/// added.
fn step_to(
    alloc: Global,
    world: &mut World,
    lines: &mut Vec<Line>,
    action: &Action,
) -> Result<(), AllocError>
    ensures step { (c : Cluster) → IsViewed c world.old → AreRepresentable c
        → OnOk result (AddsLine (step c action.now) world.new lines.old.items lines.new.items) }
    ensures err_lines { OnErr result (lines.new.items ≡ lines.old.items) }
    ensures err_sent { OnErr result (world.new.sent ≡ world.old.sent) }
{
    lines.reserve(1)?;
    let line = world.step(alloc, action)?;
    match lines.push(line) {
        Ok(()) => Ok(()),
        // (room for it was reserved above)
        Err(_) => unreachable!(),
    }
}

/// Does all `actions` in `world`. If memory runs out, the error is the trace of the actions that were done before.
fn run_in(alloc: Global, world: World, actions: &[Action]) -> Result<Trace, Trace>
    ensures done { (r : Run) → IsViewed r.cluster world → AreRepresentable r.cluster → r.turns ≡ []
        → IfOk result (λ trace. outcome_of trace ≡ trace_of (fold after r actions.now)) }
    ensures memory { (r : Run) → IsViewed r.cluster world
        → AreRepresentable r.cluster → r.turns ≡ []
        → IfErr result (λ trace. (n : ℕ) × (n < length actions.now)
        × (outcome_of trace ≡ trace_of (fold after r (take n actions.now)))) }
{
    let mut world = world;
    let mut lines = Vec::new(alloc);
    for action in actions {
        if step_to(alloc, &mut world, &mut lines, action).is_err() {
            return Err(Trace {
                lines: Lines::from_vec(lines),
                sent: world.into_sent(),
            });
        }
    }
    Ok(Trace {
        lines: Lines::from_vec(lines),
        sent: world.into_sent(),
    })
}

/// Makes the trace of a run without actions: it has no lines and no packets.
fn empty_trace(alloc: Global) -> Trace
    ensures { outcome_of result ≡ record { lines = []; sent = [] } }
{
    Trace {
        lines: Lines::from_vec(Vec::new(alloc)),
        sent: BytesList::new(alloc),
    }
}

/// Does what [`run`] does. It is a separate function, so that its clause is proved without the promises.
fn run_exactly(alloc: Global, configs: Vec<Config>, actions: &[Action]) -> Result<Trace, RunError>
    ensures { IsRun configs.items actions.now result }
{
    let roster = match Roster::from_vec(alloc, configs) {
        Ok(roster) => roster,
        Err(NewError::NameTwice(number)) => return Err(RunError::NameTwice(number)),
        Err(NewError::BadConfig(number)) => return Err(RunError::BadConfig(number)),
        Err(NewError::OutOfMemory) => return Err(RunError::OutOfMemory(empty_trace(alloc))),
    };
    let Ok(world) = World::new(alloc, roster) else {
        return Err(RunError::OutOfMemory(empty_trace(alloc)));
    };
    match run_in(alloc, world, actions) {
        Ok(trace) => Ok(trace),
        Err(trace) => Err(RunError::OutOfMemory(trace)),
    }
}

/// Does all `actions`, one after another, in a cluster of agents with the settings `configs`.
///
/// A refused action has a line in the trace, and the run continues. `NameTwice` is checked first, then `BadConfig`;
/// after either of them, no action was done. `OutOfMemory` has the trace of the actions that were done before. Every
/// run of the model keeps all promises ([`serf_model::run_promises`]), and this is a run of the model.
pub fn run(alloc: Global, configs: Vec<Config>, actions: &[Action]) -> Result<Trace, RunError>
    // The trace is the same as that of the ideal cluster.
    ensures exactly { IsRun configs.items actions.now result }

    // The trace shows a run that keeps all promises.
    ensures promises { ShowsKept configs.items actions.now result }
{
    run_promises(); // for the prover: every run of the model keeps the promises
    turns_shown(); // the turns of a run are exactly those that its trace shows
    read_all_numbers(actions); // the actions' numbers fit into their types
    inspect_all(actions); // the actions' texts are bytes, and their query IDs have 32 bits
    run_exactly(alloc, configs, actions)
}
