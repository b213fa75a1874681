//! States the law that allows agents to be compared one at a time. The law is stated as the clause of a function that
//! does nothing. Calling the function states the clause for the prover.

ghost use Rattle.std.specs.Prelude.{◌≡◌, ℕ, List, Some, slice_get};
ghost use Rattle.serf_agent.specs.declared.config.Config.{Config};
ghost use Rattle.serf_model.specs.declared.action.Action.{Action};
ghost use Rattle.serf_model.specs.Alone.{IsAlone};
ghost use Rattle.serf_model.specs.Cluster.{IdealNode, run_of, trace_of};
ghost use Rattle.serf_model.specs.Runs.{AreConfigs};
ghost use Rattle.serf_model.specs.Trace.{turns_by, turns_of};

use serf_model::{agents_alone, turns_shown};

/// States that nothing is lost when agents are compared one at a time. In the trace of a run, each agent takes exactly
/// the turns that it would take if it were alone and got the same calls, with the bytes of each packet in place of the
/// packet's number. The function itself does nothing.
pub fn projection()
    ensures { (configs : List Config) (actions : List Action) (a : ℕ) (config : Config)
        (m : IdealNode) → AreConfigs configs → slice_get configs a ≡ Some config
        → slice_get (run_of configs actions).cluster.nodes a ≡ Some m
        → IsAlone config a (turns_by a (turns_of actions (trace_of (run_of configs actions)))) m }
{
    // In a run, each agent takes exactly the turns that it would take alone, and the trace shows the turns of the run.
    agents_alone();
    turns_shown();
}
