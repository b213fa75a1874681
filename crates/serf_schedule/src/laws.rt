//! Laws about every schedule that is read line by line, about its text, and about the text of every step. Each law is
//! the contract of a function that does nothing. Code that needs the law calls this function.

ghost use Rattle.std.specs.Prelude.{◌≡◌, All, Ok};
ghost use Rattle.serf_model.specs.Runs.{AreConfigs};
ghost use Rattle.serf_schedule.specs.Laws.{LateLinesAddSame, LinesFollow, LinesGrow, LinesStay, SchedulesAreSized, SchedulesAreTold, SendsAfter};
ghost use Rattle.serf_schedule.specs.Line.{Parsed};
ghost use Rattle.serf_schedule.specs.Schedule.{schedule_of};
ghost use Rattle.serf_schedule.specs.Comments.{CommentsAreSkipped, NumbersAreWords};
ghost use Rattle.serf_schedule.specs.Sayable.{HasByteName, IsSayable};
ghost use Rattle.serf_schedule.specs.ScheduleText.{schedule_text};

use serf_model::{sound_settings, told_packets};

/// States that a step appends its packets to those that were sent before, and that later packets don't change the lines
/// of the step. If a run does one more action, the lines of this action follow all others. Does nothing.
pub fn lines_stay()
    ensures sent { SendsAfter }
    ensures lines { LinesStay }
    ensures follow { LinesFollow }
{}

/// States that a line adds at most one action to the schedule before it, and that it adds an agent only if there is no
/// action yet. After the first action, a line adds the same to every schedule, or is refused for the same cause. Does
/// nothing.
pub fn lines_grow()
    ensures grow { LinesGrow }
    ensures late { LateLinesAddSame }
{}

/// States that the numbers in the actions of a parsed schedule fit into their types. Does nothing.
pub fn sized_schedules()
    ensures { SchedulesAreSized }
{}

/// States that snapshot lines can hold every event and every query that the actions of a parsed schedule fire or
/// inject: their names and payloads are bytes, and the ID of a query has 32 bits. Does nothing.
pub fn told_schedules()
    ensures { SchedulesAreTold }
{
    told_packets(); // for the prover: if a packet is bytes, the texts of its events are bytes
}

/// States that the text of a schedule stands for exactly this schedule, and is never refused, if a line can express
/// each of the actions. Does nothing.
#[tactic(auto, using(crate::proofs::RoundTrip::reads_back))]
pub fn text_reads_back()
    ensures { (p : Parsed) → AreConfigs p.configs → All HasByteName p.configs
        → All IsSayable p.actions → schedule_of (schedule_text p) ≡ Ok p }
{
    sound_settings(); // for the prover: if no settings are bad, all of them are sound
}

/// States that a comment before the text of a schedule doesn't change what the text stands for. This comment is a line
/// of words that begins with `#`, and each word consists of bytes above the space. A number in decimal is a word of
/// this kind. Does nothing.
pub fn comments_skipped()
    ensures skipped { CommentsAreSkipped }
    ensures numbers { NumbersAreWords }
{}
