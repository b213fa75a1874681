//! Runs schedules: each line as soon as it is read, or a whole schedule. A reporter ([`Turns`]) writes a text about
//! each action, and a watch can follow the progress of the run. In clauses, `options` are the reporter's options,
//! `said` is the schedule of the lines so far, and `front` is the text that was written before `text`.

ghost use Rattle.std.specs.Prelude.{◌≡◌, ◌++◌, ◌∷◌, [], List, ℕ, IfErr, IfOk, OnOk, length};
ghost use Rattle.serf_agent.specs.declared.config.Config.{Config};
ghost use Rattle.serf_schedule.specs.Line.{Parsed, with_action};
ghost use Rattle.serf_schedule.specs.Running.{HasActed, HasRun, IsLineRefused, IsStage, TellsMore};

use crate::parse::say_line;
use crate::schedule::Schedule;
use serf_model::{Action, Line};
use serf_text::{Cause, LineError, LineReporter, StreamLineError};
use serf_world::{Roster, Turns, World, act};
use std::alloc::{AllocError, Global};
use std::mem;

/// A cluster that has done at least one action, with the number of its agents (`agents`) and the number of the actions
/// that it has done (`turns`).
#[derive(Drop)]
pub(crate) struct Acting {
    pub(crate) world: World,
    pub(crate) agents: u64,
    pub(crate) turns: u64,
}

/// Creates the cluster of the agents in `roster`, and does its first action, `action`. Appends the reporter's text
/// about this action to `text`.
fn begin<T: Turns>(
    alloc: Global,
    roster: Roster,
    reporter: &mut T,
    action: &Action,
    text: &mut Vec<u8>,
) -> Result<Acting, AllocError>
    ensures { (options : T.Options) (front : List ℕ)
        → T.told options reporter.old roster [] (front ++ text.old.items)
        → IfOk result (λ acting. HasActed (T.told options)
        (record { configs = roster; actions = action.now ∷ [] }) acting reporter.new
        (front ++ text.new.items)) }
{
    let agents = roster.as_slice().len() as u64; // the number of agents
    let mut world = World::new(alloc, roster)?;
    reporter.begin(alloc, &world, agents)?;
    let turns = 1; // the number of actions that are done, including this one
    act(alloc, &mut world, reporter, turns, action, text)?;
    Ok(Acting {
        world,
        agents,
        turns,
    })
}

/// Does `action`. If it is the first action, the function also creates the cluster `acting` from the agents in
/// `agents`. The function appends the reporter's text about the action to `text`. Returns `AllocError` if memory runs
/// out, or if 2^64 - 1 actions were done already.
fn do_action<T: Turns>(
    alloc: Global,
    agents: &mut Roster,
    acting: &mut Option<Acting>,
    reporter: &mut T,
    action: &Action,
    text: &mut Vec<u8>,
) -> Result<(), AllocError>
    ensures { (options : T.Options) (said : Parsed) (front : List ℕ)
        → IsStage (T.told options) agents.old acting.old reporter.old said (front ++ text.old.items)
        → OnOk result (IsStage (T.told options) agents.new acting.new reporter.new
        (with_action said action.now) (front ++ text.new.items)) }
{
    match acting {
        Some(acting) => {
            let Some(number) = acting.turns.checked_add(1) else {
                return Err(AllocError);
            };
            act(alloc, &mut acting.world, reporter, number, action, text)?;
            acting.turns = number;
            Ok(())
        }
        None => {
            let roster = mem::replace(agents, Roster::new(alloc)); // from now on, the cluster has the agents
            let begun = begin(alloc, roster, reporter, action, text)?;
            *acting = Some(begun);
            Ok(())
        }
    }
}

/// The run of a schedule whose lines are done one by one, each as soon as it is read. The run keeps the cluster with
/// all packets that were sent, and the reporter with its own state.
pub struct Run<T> {
    /// The agents, until the first action.
    pub(crate) agents: Roster,
    /// The cluster, from the first action on.
    pub(crate) acting: Option<Acting>,
    /// The reporter, which writes a text about each action.
    pub reporter: T,
}

/// This code is written out so that the crates above don't have to prove again that each part can be dropped.
impl<T: Drop> Drop for Run<T> {
    fn drop(self) {
        let Run {
            agents: _,
            acting: _,
            reporter: _,
        } = self;
    }
}

impl<T: Turns> Run<T> {
    /// Creates a run that has not read a line of its schedule yet. Allocates no memory.
    pub fn new(alloc: Global, reporter: T) -> Run<T>
        ensures { (options : T.Options)
            → ((configs : List Config) → T.told options reporter configs [] [])
            → HasRun (T.told options) result [] [] }
    {
        Run {
            agents: Roster::new(alloc),
            acting: None,
            reporter,
        }
    }

    /// Returns how many agents the schedule has so far. Allocates no memory.
    pub fn agents(&self) -> u64
        ensures { (options : T.Options) (lines : List (List ℕ)) (told : List ℕ)
            (h : HasRun (T.told options) self.now lines told) → result ≡ length h.said.configs }
    {
        match &self.acting {
            Some(acting) => acting.agents,
            None => self.agents.as_slice().len() as u64,
        }
    }

    /// Returns how many actions were done so far. Allocates no memory.
    pub fn turns(&self) -> u64
        ensures { (options : T.Options) (lines : List (List ℕ)) (told : List ℕ)
            (h : HasRun (T.told options) self.now lines told) → result ≡ length h.said.actions }
    {
        match &self.acting {
            Some(acting) => acting.turns,
            None => 0,
        }
    }

    /// Runs `line`, the next line of the schedule. If the line has an action, the function appends the reporter's text
    /// about this action to `text`.
    ///
    /// Returns `Bad` if the line isn't valid, and `OutOfMemory` if memory runs out. After either error, the run no
    /// longer stands for a schedule.
    pub fn take_line(
        &mut self,
        alloc: Global,
        line: &[u8],
        text: &mut Vec<u8>,
    ) -> Result<(), LineError>
        ensures done { (options : T.Options) (lines : List (List ℕ)) (told : List ℕ)
            → HasRun (T.told options) self.old lines told
            → OnOk result (TellsMore (HasRun (T.told options) self.new (lines ++ line.now ∷ []))
            told text.old.items text.new.items) }
        ensures refused { (options : T.Options) (lines : List (List ℕ)) (told : List ℕ)
            → HasRun (T.told options) self.old lines told
            → IfErr result (λ error. IsLineRefused error lines line.now) }
    {
        let mut more = Vec::new(alloc); // the text about this line only
        if let Err(error) = self.do_line(alloc, line, &mut more) {
            return Err(error);
        }
        match text.append(&mut more) {
            Ok(()) => Ok(()),
            Err(_) => Err(LineError::OutOfMemory),
        }
    }

    /// Runs `line`, the next line, and appends the reporter's text about it to `text`. `text` may already have the text
    /// about earlier lines.
    fn do_line(&mut self, alloc: Global, line: &[u8], text: &mut Vec<u8>) -> Result<(), LineError>
        ensures done { (options : T.Options) (lines : List (List ℕ)) (front : List ℕ)
            → HasRun (T.told options) self.old lines (front ++ text.old.items)
            → OnOk result (HasRun (T.told options) self.new
            (lines ++ line.now ∷ []) (front ++ text.new.items)) }
        ensures refused { (options : T.Options) (lines : List (List ℕ)) (told : List ℕ)
            → HasRun (T.told options) self.old lines told
            → IfErr result (λ error. IsLineRefused error lines line.now) }
    {
        let is_late = self.acting.is_some();
        match say_line(alloc, &mut self.agents, is_late, line) {
            Ok(Some(action)) => {
                let (agents, acting, reporter) = (
                    &mut self.agents,
                    &mut self.acting,
                    &mut self.reporter,
                );
                match do_action(alloc, agents, acting, reporter, &action, text) {
                    Ok(()) => Ok(()),
                    Err(_) => Err(LineError::OutOfMemory),
                }
            }
            Ok(None) => Ok(()),
            Err(error) => Err(error),
        }
    }
}

/// Runs the lines of a stream as the lines of a schedule.
impl<T: Turns> LineReporter for Run<T> {
    ghost use Rattle.serf_schedule.specs.Running.{HasStreamed, is_refused_by};

    type OwnError = Cause;

    ghost told = { HasStreamed T.streams T.told };

    ghost refuses = { is_refused_by };

    fn report_line(
        &mut self,
        alloc: Global,
        line: &[u8],
        text: &mut Vec<u8>,
    ) -> Result<(), StreamLineError<Cause>> {
        match self.do_line(alloc, line, text) {
            Ok(()) => Ok(()),
            Err(LineError::Bad(cause)) => Err(StreamLineError::Bad(cause)),
            Err(LineError::OutOfMemory) => Err(StreamLineError::OutOfMemory),
        }
    }
}

/// Does the actions of `schedule` in order, and returns the text that `reporter` writes about them. Each action is
/// dropped as soon as it is done.
pub fn report_schedule<T: Turns>(
    alloc: Global,
    schedule: Schedule,
    reporter: &mut T,
) -> Result<Vec<u8>, AllocError>
    ensures { (options : T.Options) → T.told options reporter.old schedule.agents [] []
        → IfOk result (λ text.
        T.told options reporter.new schedule.agents schedule.actions.items text.items) }
{
    let Schedule { agents, actions } = schedule;
    let count = agents.as_slice().len() as u64; // the number of agents
    let mut world = World::new(alloc, agents)?;
    reporter.begin(alloc, &world, count)?;
    let mut text = Vec::new(alloc);
    let mut number: u64 = 0; // the number of the action, counted from 1
    for action in actions {
        number += 1;
        act(alloc, &mut world, reporter, number, &action, &mut text)?;
    }
    Ok(text)
}

/// A watch follows the progress of a run: it is called after each action. It can't change the run.
pub trait Watch {
    /// Whether the watch uses the numbers that [`Watch::acted`] reports. If it doesn't, the caller may pass 0 as `all`.
    fn is_watching(&self) -> bool;

    /// Reports to the watch that `done` of the run's `all` actions are done.
    fn acted(&mut self, done: u64, all: u64);
}

/// A watch that does nothing.
#[derive(Clone, Copy)]
pub struct Unwatched;

impl Watch for Unwatched {
    fn is_watching(&self) -> bool {
        false
    }

    fn acted(&mut self, _done: u64, _all: u64) {}
}

/// A reporter that writes the same text as `reporter`, and also reports each turn to `watch`.
#[derive(Drop)]
pub struct Watched<'a, T, W> {
    pub reporter: T,
    pub watch: &'a mut W,
    /// How many turns the run will have.
    pub all: u64,
}

impl<T: Turns, W: Watch> Turns for Watched<'_, T, W> {
    type Options = T::Options;

    type Seen = T::Seen;

    ghost told = { λ options w configs actions text.
        T.told options w.reporter configs actions text };

    ghost saw = { λ options w seen configs actions action text.
        T.saw options w.reporter seen configs actions action text };

    ghost streams = { T.streams };

    fn begin(&mut self, alloc: Global, world: &World, agents: u64) -> Result<(), AllocError> {
        self.reporter.begin(alloc, world, agents)
    }

    fn inspect(
        &mut self,
        alloc: Global,
        world: &World,
        number: u64,
        action: &Action,
    ) -> Result<T::Seen, AllocError> {
        self.reporter.inspect(alloc, world, number, action)
    }

    fn tell(
        &mut self,
        alloc: Global,
        world: &World,
        number: u64,
        action: &Action,
        line: Line,
        seen: T::Seen,
        out: &mut Vec<u8>,
    ) -> Result<(), AllocError> {
        self.reporter
            .tell(alloc, world, number, action, line, seen, out)?;
        self.watch.acted(number, self.all);
        Ok(())
    }
}
