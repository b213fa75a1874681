//! Takes one seed after another, and runs the schedule of each seed, up to the first schedule in which an agent differs
//! from the reference.

ghost use Rattle.std.specs.Prelude.{◌≡◌, ◌-◌, [], IfOk, IfSome};
ghost use Rattle.serf_schedule.specs.Schedule.{parsed_of};
ghost use Rattle.serf_conform.specs.Rules.{is_serf};
ghost use Rattle.serf_conform.specs.Hunt.{HoldsSeed, Hunts, IsHunt};
ghost use Rattle.serf_conform.specs.Sweep.{no_counts};
ghost use Rattle.serf_conform.specs.Without.{without_any as without_any_of};

use crate::missing::{MissingCalls, without};
use crate::subject::Pipe;
use crate::sweep::{Counts, Held, Other, case_of, hold_each, sum_of};
use crate::verdict::{ConformError, Rules};
use serf_random::{RandomOptions, random_schedule};
use serf_schedule::{Schedule, Unwatched, Watch};
use std::alloc::{AllocError, Global};
use std::io::{Read, Write};
use thiserror::Error;

/// A source that makes a schedule from a seed. The definition `makes` determines which schedules may be made from each
/// seed.
pub trait ScheduleSource {
    ghost use Rattle.std.specs.Prelude.{ℕ, IfOk};
    ghost use Rattle.serf_schedule.specs.Line.{Parsed};
    ghost use Rattle.serf_schedule.specs.Schedule.{parsed_of};

    ghost makes: { Self → ℕ → Parsed → Type 0 };

    /// Makes the schedule of `seed`. Returns an `AllocError` if there isn't enough memory for the schedule.
    fn make(&self, alloc: Global, seed: u64) -> Result<Schedule, AllocError>
        ensures { IfOk result (λ schedule. makes self.now seed (parsed_of schedule)) };
}

/// Makes random schedules with `options`, except that the requested seed replaces the seed in the options.
#[derive(Clone, Copy)]
pub struct RandomSchedules {
    pub options: RandomOptions,
    /// The calls that are left out of each schedule ([`without`]), or `None` if nothing is left out.
    pub missing: Option<MissingCalls>,
}

/// If `missing` isn't `None`, leaves the calls in `missing` out of the schedule ([`without`]).
fn without_any(
    alloc: Global,
    schedule: Schedule,
    missing: Option<MissingCalls>,
) -> Result<Schedule, AllocError>
    ensures { IfOk result (λ left. parsed_of left ≡ without_any_of missing (parsed_of schedule)) }
{
    match missing {
        None => Ok(schedule),
        Some(missing) => match without(alloc, schedule, missing) {
            Ok(left) => Ok(left),
            Err(_) => Err(AllocError),
        },
    }
}

impl ScheduleSource for RandomSchedules {
    ghost use Rattle.std.specs.Prelude.{◌≡◌};
    ghost use Rattle.serf_conform.specs.Random.{IsRandomWithout};

    ghost makes = { λ m seed p. IsRandomWithout m.missing (record m.options { seed = seed }) p };

    fn make(&self, alloc: Global, seed: u64) -> Result<Schedule, AllocError> {
        let ask = RandomOptions {
            seed,
            ..self.options
        };
        let made = random_schedule(alloc, &ask, &mut Unwatched)?;
        without_any(alloc, made.schedule, self.missing)
    }
}

/// The first agent that differs from the reference.
#[derive(Drop)]
pub struct Found {
    /// The seed of the agent's schedule.
    pub seed: u64,
    pub other: Other,
}

/// The result of a hunt: the sums over the agents that were compared, and the first agent that differs.
#[derive(Drop)]
pub struct Hunted {
    pub counts: Counts,
    /// The first agent that differs, or `None` if no agent of any seed differs.
    pub found: Option<Found>,
}

/// The error that stopped a hunt early.
#[derive(Clone, Copy, Debug, Drop, Error, PartialEq, Eq)]
#[error("seed {seed}: {error}")]
pub struct HuntError {
    /// The seed at which the hunt stopped.
    pub seed: u64,
    pub error: ConformError,
}

/// Makes the schedule of `seed`, and compares the schedule's agents with the reference ([`hold_each`]).
fn hold_seed<M: ScheduleSource, R: Read, W: Write>(
    alloc: Global,
    schedule_source: &M,
    pipe: &mut Pipe<R, W>,
    rules: Rules,
    seed: u64,
) -> Result<Held, ConformError>
    ensures { IfOk result (λ held.
        IfSome (R.remaining pipe.old.reader)
        (λ input. HoldsSeed (M.makes schedule_source.now seed) (is_serf rules)
        input held (R.remaining pipe.new.reader) (W.contents pipe.old.writer)
        (W.contents pipe.new.writer))) }
{
    let schedule = schedule_source.make(alloc, seed)?;
    let case = case_of(alloc, schedule)?;
    hold_each(alloc, pipe, rules, &case)
}

/// For each seed from `first` to `end` - 1 in turn, makes the schedule of the seed, and compares the schedule's agents
/// with the reference ([`hold_each`]). The hunt stops at the first agent that differs or ends.
///
/// The agent under test is opened again for each agent of each schedule, so one agent under test serves for all seeds.
/// If the function returns an error, the agent under test may have received only part of a call.
///
/// Before each seed, the hunt calls `watch` with the number of seeds that are finished and the total number of seeds.
/// Tests check that the hunt calls `watch` in this way, but this isn't proved.
pub fn hunt<M: ScheduleSource, R: Read, W: Write, H: Watch>(
    alloc: Global,
    schedule_source: &M,
    pipe: &mut Pipe<R, W>,
    rules: Rules,
    first: u64,
    end: u64,
    watch: &mut H,
) -> Result<Hunted, HuntError>
    ensures { IfOk result (λ hunted. IfSome (R.remaining pipe.old.reader) (λ input. IsHunt
        (λ h. Hunts (M.makes schedule_source.now) (is_serf rules)
        (end - first) first no_counts [] input h)
        hunted (W.contents pipe.old.writer) (W.contents pipe.new.writer))) }
{
    let mut counts = Counts {
        agents: 0,
        calls: 0,
        openings: 0,
        unsupported_agents: 0,
        unsupported_dumps: 0,
    };
    for seed in first..end {
        watch.acted(seed.saturating_sub(first), end.saturating_sub(first));
        let held = match hold_seed(alloc, schedule_source, pipe, rules, seed) {
            Ok(held) => held,
            Err(error) => return Err(HuntError { seed, error }),
        };
        let Held {
            counts: more,
            other,
        } = held;
        counts = sum_of(counts, more);
        if let Some(other) = other {
            let found = Some(Found { seed, other });
            return Ok(Hunted { counts, found });
        }
    }
    let found = None;
    Ok(Hunted { counts, found })
}
