//! Contains the summary of a run. In clauses, `records` is a list of trace lines (`Shown`, or `Event` for the lines of
//! events), each with the number of its action.

ghost use Rattle.std.specs.Prelude.{◌≡◌, ◌+◌, ◌++◌, ◌∷◌, [], ℕ, List, OnOk};
ghost use Rattle.serf_model.specs.declared.line.EventLine.{EventLine as Event};
ghost use Rattle.serf_model.specs.declared.line.Line.{Line as Shown};
ghost use Rattle.serf_replay.specs.Records.{events_at};
ghost use Rattle.serf_replay.specs.Summaries.{AreAnswers, AreHandOuts, IsSummary};

use crate::keys::{EventKey, key_of};
use crate::tally::{Frequency, count_one};
use indexmap::IndexMap;
use serf_model::{EventLine, Line};
use serf_schedule::answer_words;
use std::alloc::{AllocError, Global};

/// The counts of a run. The tables contain no entry for anything that didn't occur.
#[derive(Drop)]
pub struct Summary {
    /// The number of agents in the cluster.
    pub size: u64,
    /// The number of actions that were run.
    pub actions: u64,
    /// How often each answer occurred, and the number of the action at which the answer last occurred. The key is the
    /// answer in the words of the trace, but without numbers.
    pub answers: IndexMap<&'static [u8], Frequency>,
    /// How many events were handed to each agent, and the number of the action at which an event was last handed to the
    /// agent. The key is the agent's number, counted from 0.
    pub agents: IndexMap<u64, Frequency>,
    /// How often each event was handed out, and the number of the action at which the event was handed to the last
    /// agent.
    pub events: IndexMap<EventKey, Frequency>,
}

/// Counts `event`, which was handed out at action number `action`, in two tables: in `agents` under the event's agent,
/// and in `events` under the event itself.
fn record_event(
    alloc: Global,
    agents: &mut IndexMap<u64, Frequency>,
    events: &mut IndexMap<EventKey, Frequency>,
    event: &EventLine,
    action: u64,
) -> Result<(), AllocError>
    ensures { (records : List (Event × ℕ)) → AreHandOuts agents.old events.old records
        → OnOk result (AreHandOuts agents.new events.new (records ++ (event.now, action) ∷ [])) }
{
    let key = key_of(alloc, event)?;
    count_one(agents, event.agent, action)?;
    count_one(events, key, action)
}

/// Counts the events in `lines` in the tables `agents` and `events`. The list `lines` contains all events that were
/// handed out at action number `action`.
fn record_events(
    alloc: Global,
    agents: &mut IndexMap<u64, Frequency>,
    events: &mut IndexMap<EventKey, Frequency>,
    lines: &[EventLine],
    action: u64,
) -> Result<(), AllocError>
    ensures { (records : List (Event × ℕ)) → AreHandOuts agents.old events.old records
        → OnOk result (AreHandOuts agents.new events.new (records ++ events_at action lines.now)) }
{
    for line in lines {
        record_event(alloc, agents, events, line, action)?;
    }
    Ok(())
}

/// Counts the answer in `line`, the result of action number `action`, in the table `answers`.
fn record_answer(
    answers: &mut IndexMap<&'static [u8], Frequency>,
    line: &Line,
    action: u64,
) -> Result<(), AllocError>
    ensures { (records : List (Shown × ℕ)) → AreAnswers answers.old records
        → OnOk result (AreAnswers answers.new (records ++ (line.now, action) ∷ [])) }
{
    count_one(answers, answer_words(&line.answer), action)
}

impl Summary {
    /// Creates the summary of a run without actions, in which `size` is 0. Allocates no memory.
    pub(crate) fn new(alloc: Global) -> Summary
        ensures { IsSummary result [] }
    {
        Summary {
            size: 0,
            actions: 0,
            answers: IndexMap::new(alloc),
            agents: IndexMap::new(alloc),
            events: IndexMap::new(alloc),
        }
    }

    /// Counts the answer and the events in `line`, the result of the next action. If memory runs out (`AllocError`),
    /// only a part of the answer and the events may have been counted.
    pub(crate) fn add(&mut self, alloc: Global, line: &Line) -> Result<(), AllocError>
        ensures { (lines : List Shown) → IsSummary self.old lines
            → OnOk result (IsSummary self.new (lines ++ line.now ∷ [])) }
    {
        let Some(action) = self.actions.checked_add(1) else {
            return Err(AllocError);
        };
        record_answer(&mut self.answers, line, action)?;
        let events = line.events.as_slice();
        record_events(alloc, &mut self.agents, &mut self.events, events, action)?;
        self.actions = action;
        Ok(())
    }
}
