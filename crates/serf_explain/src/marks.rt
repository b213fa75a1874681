//! Keeps the marks of each agent. A mark is the present value of a clock or a minimum, together with the number of the
//! action that set this value. The module also keeps facts about each agent's disk.

ghost use Rattle.std.specs.Prelude.{◌≡◌, ◌++◌, ◌+◌, ◌∷◌, [], List, ℕ, OnOk, length};
ghost use Rattle.std.specs.Option.{option_copied};
ghost use Rattle.serf_model.specs.Cluster.{Cluster, step};
ghost use Rattle.serf_world.specs.View.{IsViewed};
ghost use Rattle.serf_explain.specs.Leaving.{HoldMarks, IsLooked, bytes_kept, first_mark, first_numbers, mark_after, marks_or_first, numbers_after, numbers_of};

use crate::memory::set;
use indexmap::IndexMap;
use serf_agent::Agent;
use serf_model::{Act, Action, SinkCall};
use serf_snapshot::MemorySink;
use serf_world::World;
use std::alloc::{AllocError, Global};

/// The value of a clock or a minimum, and the number of the action that set this value. The action number is 0 if the
/// value dates from the start of the run.
#[derive(Clone, Copy)]
pub(crate) struct Mark {
    pub(crate) value: u64,
    pub(crate) since: u64,
}

impl Mark {
    /// Returns the mark that every clock and every minimum has at the beginning of an agent's first life. In this mark,
    /// the value is 1 and dates from the start of the run.
    fn first() -> Mark
        ensures { result ≡ first_mark }
    {
        Mark { value: 1, since: 0 }
    }

    /// Returns the mark after action number `action`. The value after this action is `value`.
    pub(crate) fn following(&self, value: u64, action: u64) -> Mark
        ensures { result ≡ mark_after self.now value action }
    {
        if self.value == value {
            *self
        } else {
            Mark {
                value,
                since: action,
            }
        }
    }
}

/// The marks of an agent's clocks and minimums after the most recent action.
#[derive(Clone, Copy)]
pub(crate) struct Numbers {
    pub(crate) event_clock: Mark,
    pub(crate) query_clock: Mark,
    pub(crate) event_minimum: Mark,
    pub(crate) query_minimum: Mark,
}

impl Numbers {
    /// Returns the marks of an agent that has done nothing yet.
    fn first() -> Numbers
        ensures { result ≡ first_numbers }
    {
        let mark = Mark::first();
        Numbers {
            event_clock: mark,
            query_clock: mark,
            event_minimum: mark,
            query_minimum: mark,
        }
    }

    /// Returns the marks after action number `action`. `agent` is the agent as it is after this action.
    fn following(&self, agent: &Agent<MemorySink>, action: u64) -> Numbers
        ensures { result ≡ numbers_after self.now agent.now.concrete action }
    {
        Numbers {
            event_clock: self.event_clock.following(agent.event_time(), action),
            query_clock: self.query_clock.following(agent.query_time(), action),
            event_minimum: self.event_minimum.following(agent.event_minimum(), action),
            query_minimum: self.query_minimum.following(agent.query_minimum(), action),
        }
    }
}

/// A failure of the disk, planned by action number `action`. The call that fails has the number `count`, and calls are
/// counted from 1 after the action that planned the failure. If no failure is planned, `count` is 0.
#[derive(Clone, Copy)]
pub(crate) struct Plan {
    pub(crate) count: u64,
    pub(crate) action: u64,
}

/// The plan of a disk for which no failure is planned.
const NO_PLAN: Plan = Plan {
    count: 0,
    action: 0,
};

/// The marks of an agent after the most recent action, together with facts about the agent's disk.
#[derive(Clone, Copy)]
pub(crate) struct Marks {
    pub(crate) numbers: Numbers,
    /// The number of durable bytes on the agent's disk.
    pub(crate) durable: usize,
    /// The number of the action at which the agent was stopped, or 0 if the agent is running.
    pub(crate) stopped: u64,
    /// The failures that are planned for the disk, with one plan for each kind of disk call.
    pub(crate) append: Plan,
    pub(crate) flush: Plan,
    pub(crate) replace: Plan,
}

/// Returns the number of durable bytes on an agent's disk.
pub(crate) fn bytes_kept(agent: &Agent<MemorySink>) -> usize
    ensures { result ≡ bytes_kept agent.now.concrete }
{
    agent.sink().durable().len()
}

impl Marks {
    /// Returns the marks of an agent that has done nothing yet.
    fn first() -> Marks
        ensures { result.numbers ≡ first_numbers }
    {
        Marks {
            numbers: Numbers::first(),
            durable: 0,
            stopped: 0,
            append: NO_PLAN,
            flush: NO_PLAN,
            replace: NO_PLAN,
        }
    }

    /// Returns the number of the action at which `agent` was stopped, or 0 if the agent is running. `action` is the
    /// number of the agent's last action.
    fn stopped_after(&self, agent: &Agent<MemorySink>, action: u64) -> u64 {
        if !agent.is_stopped() {
            0
        } else if self.stopped == 0 {
            action
        } else {
            self.stopped
        }
    }

    /// Returns the marks after action number `action`. `agent` is the agent as it is after this action.
    fn following(&self, agent: &Agent<MemorySink>, action: u64) -> Marks
        ensures { result.numbers ≡ numbers_after self.now.numbers agent.now.concrete action }
    {
        Marks {
            numbers: self.numbers.following(agent, action),
            durable: bytes_kept(agent),
            stopped: self.stopped_after(agent, action),
            append: self.append,
            flush: self.flush,
            replace: self.replace,
        }
    }

    /// Records the disk failure that `act`, which is action number `number`, plans. A restart cancels all planned
    /// failures.
    fn plan(&mut self, act: &Act, number: u64)
        ensures { self.new.numbers ≡ self.old.numbers }
    {
        match act {
            Act::Break { call, count } => {
                let plan = Plan {
                    count: *count,
                    action: number,
                };
                match call {
                    SinkCall::Append => self.append = plan,
                    SinkCall::Flush => self.flush = plan,
                    SinkCall::ReplaceOld | SinkCall::ReplaceNew => self.replace = plan,
                }
            }
            Act::Restart { .. } => {
                self.append = NO_PLAN;
                self.flush = NO_PLAN;
                self.replace = NO_PLAN;
            }
            _ => {}
        }
    }
}

/// Returns the marks in `found`, or the marks of an agent that has done nothing yet if `found` is `None`.
fn found_or_first(found: Option<&Marks>) -> Marks
    ensures { result.numbers ≡ marks_or_first (option_copied found.entry) }
{
    match found {
        Some(marks) => *marks,
        None => Marks::first(),
    }
}

/// The marks of each agent after the most recent action, by the agent's number. An agent that has done nothing yet has
/// no entry.
#[derive(Drop)]
pub(crate) struct AllMarks {
    agents: IndexMap<u64, Marks>,
}

impl AllMarks {
    /// Creates the marks for a run in which no agent has done anything yet. Allocates no memory.
    pub(crate) fn new(alloc: Global) -> AllMarks
        ensures { (a : ℕ) → numbers_of result a ≡ first_numbers }
    {
        AllMarks {
            agents: IndexMap::new(alloc),
        }
    }

    /// Returns the marks of agent number `agent`.
    pub(crate) fn of(&self, agent: u64) -> Marks
        ensures { result.numbers ≡ numbers_of self.now agent }
    {
        found_or_first(self.agents.get(&agent))
    }

    /// Updates the marks of agent number `actor` after `act`, which is action number `number`. `agent` is the agent as
    /// it is after this action.
    #[tactic(auto, using(crate::proofs::MarkLaws::looked))]
    fn inspect(
        &mut self,
        actor: u64,
        agent: &Agent<MemorySink>,
        act: &Act,
        number: u64,
    ) -> Result<(), AllocError>
        ensures { OnOk result (IsLooked self.old self.new actor agent.now.concrete number) }
    {
        let mut marks = self.of(actor).following(agent, number);
        marks.plan(act, number);
        set(&mut self.agents, actor, marks)
    }

    /// Updates the marks of the agent that performed `action`, which is action number `number`. `world` is the cluster
    /// after the action.
    pub(crate) fn record_turn(
        &mut self,
        world: &World,
        number: u64,
        action: &Action,
    ) -> Result<(), AllocError>
        ensures { (before : List Cluster) (c : Cluster) → HoldMarks before c self.old
            → IsViewed (step c action.now).cluster world.now → number ≡ length before + 1
            → OnOk result
            (HoldMarks (before ++ c ∷ []) (step c action.now).cluster self.new) }
    {
        match action {
            Action::Inject { .. } => Ok(()),
            Action::Of { agent: actor, act } => match world.agent(*actor) {
                Some(agent) => self.inspect(*actor, agent, act, number),
                None => Ok(()),
            },
        }
    }
}
