//! Contains a law about every schedule. The law is the clause of a function that does nothing, and a call to this
//! function states the clause for the prover.

ghost use Rattle.serf_replay.specs.Laws.{SchedulesTraceRuns};

use serf_model::{run_promises, turns_shown};
use serf_schedule::{sized_schedules, told_schedules};

/// States, for the prover, that the text written for a whole schedule is the trace of a run that keeps all promises.
/// The function does nothing else.
pub fn traced_schedules()
    ensures traces { SchedulesTraceRuns }
{
    // The actions of a schedule meet the preconditions of `run_promises`, so the run of the schedule keeps all
    // promises. The trace of a schedule shows the turns of its run.
    sized_schedules();
    told_schedules();
    run_promises();
    turns_shown();
}
