//! Shortens the list of calls on which an agent fails, until no single call can be left out.

ghost use Rattle.std.specs.Prelude.{◌≡◌, ◌≤◌, ◌++◌, ℕ, List, Option, [], true, false, length, take, drop, IfOk, IfSome};
ghost use Rattle.serf_conform.specs.Rules.{is_serf};
ghost use Rattle.serf_conform.specs.Trials.{IsNarrowing, IsFewer, IsShrunk, IsTried, NarrowsTo, ShrinksTo, trial};

use crate::agent_calls::{Call, add_calls};
use crate::subject::Pipe;
use crate::trying::{Outcome, try_calls};
use crate::verdict::{ConformError, Rules};
use serf_agent::Config;
use serf_schedule::Watch;
use std::alloc::{AllocError, Global};
use std::io::{Read, Write};

/// The calls that are left after shortening, on which the agent still fails.
#[derive(Drop)]
pub struct Shrunk {
    pub calls: Vec<Call>,
    /// Whether no single call can be left out. If the agent ended during a trial, the value is false, which is tested
    /// but not proved.
    pub is_smallest: bool,
}

/// The result of a series of trials with fewer calls.
#[derive(Drop)]
pub(crate) enum Narrowed {
    /// The agent also fails on this shorter list of calls.
    Shorter(Vec<Call>),
    /// The agent failed on none of the shorter lists.
    Stays,
    /// The agent ended during a trial.
    Ended,
}

/// Returns a copy of `calls` that leaves out each call whose position, counted from 0, is at least `from` and less than
/// `to`.
fn without(alloc: Global, calls: &[Call], from: usize, to: usize) -> Result<Vec<Call>, AllocError>
    requires ordered { from ≤ to }
    requires within { to ≤ length calls.now }
    ensures { IfOk result (λ left. left.items ≡ take from calls.now ++ drop to calls.now) }
{
    let mut left = Vec::new(alloc);
    add_calls(alloc, &mut left, &calls[..from])?;
    add_calls(alloc, &mut left, &calls[to..])?;
    Ok(left)
}

/// Leaves out each call whose position, counted from 0, is at least `from` and less than `to`, and tries the remaining
/// calls. Returns the calls that were tried, and the outcome of the trial.
fn try_without<R: Read, W: Write>(
    alloc: Global,
    pipe: &mut Pipe<R, W>,
    rules: Rules,
    config: &Config,
    calls: &[Call],
    from: usize,
    to: usize,
) -> Result<(Vec<Call>, Outcome), ConformError>
    requires ordered { from ≤ to }
    requires within { to ≤ length calls.now }
    ensures left { IfOk result (λ t. t.0.items ≡ take from calls.now ++ drop to calls.now) }
    ensures tried { IfOk result (λ t. IfSome (R.remaining pipe.old.reader) (λ input.
        IsTried (trial (is_serf rules) config.now t.0.items input) t.1 (R.remaining pipe.new.reader)
        (W.contents pipe.old.writer) (W.contents pipe.new.writer))) }
{
    let left = without(alloc, calls, from, to)?;
    let outcome = try_calls(alloc, pipe, rules, config, &left)?;
    Ok((left, outcome))
}

/// Tries to leave out each single call in turn, until the agent fails on a shorter list.
fn narrow_by_one<R: Read, W: Write>(
    alloc: Global,
    pipe: &mut Pipe<R, W>,
    rules: Rules,
    config: &Config,
    calls: &[Call],
) -> Result<Narrowed, ConformError>
    ensures fewer { IfOk result (λ n. IsFewer n (length calls.now)) }
    ensures narrows { (whole : List Call) (input : List ℕ) (from : Option (List ℕ))
        → IsNarrowing (is_serf rules) config.now whole calls.now [] input
        (R.remaining pipe.old.reader) from (W.contents pipe.old.writer)
        → IfOk result (λ n. NarrowsTo (is_serf rules) config.now whole calls.now true n input
        (R.remaining pipe.new.reader) from (W.contents pipe.new.writer)) }
{
    for at in 0..calls.len() {
        let (fewer, outcome) = try_without(alloc, pipe, rules, config, calls, at, at + 1)?;
        match outcome {
            Outcome::Fails => return Ok(Narrowed::Shorter(fewer)),
            Outcome::Ended => return Ok(Narrowed::Ended),
            Outcome::Agrees => {}
        }
    }
    Ok(Narrowed::Stays)
}

/// Tries to leave out `size` calls in a row, beginning at each multiple of `size` in turn, until the agent fails on a
/// shorter list.
fn narrow_by_many<R: Read, W: Write>(
    alloc: Global,
    pipe: &mut Pipe<R, W>,
    rules: Rules,
    config: &Config,
    calls: &[Call],
    size: usize,
) -> Result<Narrowed, ConformError>
    requires { 1 ≤ size }
    ensures fewer { IfOk result (λ n. IsFewer n (length calls.now)) }
    ensures narrows { (whole : List Call) (input : List ℕ) (from : Option (List ℕ))
        → IsNarrowing (is_serf rules) config.now whole calls.now [] input
        (R.remaining pipe.old.reader) from (W.contents pipe.old.writer)
        → IfOk result (λ n. NarrowsTo (is_serf rules) config.now whole calls.now false n input
        (R.remaining pipe.new.reader) from (W.contents pipe.new.writer)) }
{
    let mut at: usize = 0;
    'chunks: while at < calls.len() {
        let end = at + size.min(calls.len() - at);
        let (shorter, outcome) = try_without(alloc, pipe, rules, config, calls, at, end)?;
        match outcome {
            Outcome::Fails => return Ok(Narrowed::Shorter(shorter)),
            Outcome::Ended => return Ok(Narrowed::Ended),
            Outcome::Agrees => at = end,
        }
    }
    Ok(Narrowed::Stays)
}

/// If `singles` is true, tries to leave out each single call in turn. Otherwise, tries to leave out `size` calls in a
/// row.
fn narrow<R: Read, W: Write>(
    alloc: Global,
    pipe: &mut Pipe<R, W>,
    rules: Rules,
    config: &Config,
    calls: &[Call],
    singles: bool,
    size: usize,
) -> Result<Narrowed, ConformError>
    ensures fewer { IfOk result (λ n. IsFewer n (length calls.now)) }
    ensures narrows { (whole : List Call) (input : List ℕ) (from : Option (List ℕ))
        → IsNarrowing (is_serf rules) config.now whole calls.now [] input
        (R.remaining pipe.old.reader) from (W.contents pipe.old.writer)
        → IfOk result (λ n. NarrowsTo (is_serf rules) config.now whole calls.now singles n input
        (R.remaining pipe.new.reader) from (W.contents pipe.new.writer)) }
{
    if singles {
        narrow_by_one(alloc, pipe, rules, config, calls)
    } else {
        narrow_by_many(alloc, pipe, rules, config, calls, size.max(1))
    }
}

/// Leaves out calls for as long as the agent still fails on the remaining calls. The function first tries to leave out
/// half of the calls at once, and halves that number whenever nothing can be left out.
fn settle<R: Read, W: Write, H: Watch>(
    alloc: Global,
    pipe: &mut Pipe<R, W>,
    rules: Rules,
    config: &Config,
    calls: Vec<Call>,
    watch: &mut H,
) -> Result<Shrunk, ConformError>
    ensures { (whole : List Call) (input : List ℕ) (from : Option (List ℕ))
        → IsNarrowing (is_serf rules) config.now whole calls.items [] input
        (R.remaining pipe.old.reader) from (W.contents pipe.old.writer)
        → IfOk result (λ shrunk.
        IsShrunk (is_serf rules) config.now whole shrunk input from (W.contents pipe.new.writer)) }
{
    let all = calls.len();
    let mut calls = calls;
    let mut size = calls.len() / 2;
    'steps: loop {
        watch.acted(all.saturating_sub(calls.len()) as u64, all as u64);
        let singles = size <= 1;
        match narrow(alloc, pipe, rules, config, &calls, singles, size)? {
            Narrowed::Shorter(shorter) => calls = shorter,
            Narrowed::Stays if singles => {
                let is_smallest = true;
                return Ok(Shrunk { calls, is_smallest });
            }
            Narrowed::Stays => size /= 2,
            Narrowed::Ended => {
                let is_smallest = false;
                return Ok(Shrunk { calls, is_smallest });
            }
        }
    }
}

/// Shortens the list of calls on which an agent fails, until no single call can be left out. The function tries
/// sublists ([`try_calls`]), and opens the agent again for each sublist.
///
/// The function first tries the whole list, and returns `None` if the agent doesn't fail on it. The agent failed on the
/// remaining calls when they were last tried, and didn't fail in any trial after that. If the agent ends during a
/// trial, the function makes no further trials, and returns the calls that are left at that point. Returns `NoAgent` if
/// the settings are out of bounds. If the function returns an error, the agent may have received only part of a call.
///
/// From time to time, the function calls `watch` with the number of calls left out so far and the total number of
/// calls. Tests check that the function calls `watch` in this way, but this isn't proved.
pub fn shrink<R: Read, W: Write, H: Watch>(
    alloc: Global,
    pipe: &mut Pipe<R, W>,
    rules: Rules,
    config: &Config,
    calls: Vec<Call>,
    watch: &mut H,
) -> Result<Option<Shrunk>, ConformError>
    ensures { IfOk result (λ shrunk.
        IfSome (R.remaining pipe.old.reader) (λ input. ShrinksTo (is_serf rules)
        config.now calls.items shrunk input (W.contents pipe.old.writer)
        (W.contents pipe.new.writer))) }
{
    match try_calls(alloc, pipe, rules, config, &calls)? {
        Outcome::Fails => match settle(alloc, pipe, rules, config, calls, watch) {
            Ok(shrunk) => Ok(Some(shrunk)),
            Err(error) => Err(error),
        },
        Outcome::Agrees => Ok(None),
        Outcome::Ended => Ok(None),
    }
}
