//! Explains why an agent ignored an event or a query, in terms of its minimum, its clock and its buffer.

ghost use Rattle.std.specs.Prelude.{◌≡◌, ◌++◌, OnOk};
ghost use Rattle.serf_explain.specs.Left.{below_words, first_words, full_words, mark_words, oversize_words, since_words, too_old_words};
ghost use Rattle.serf_explain.specs.Leaving.{left_words, takes_events, takes_queries};

use crate::marks::Mark;
use crate::quoted::say;
use serf_agent::{Agent, Reason};
use serf_snapshot::MemorySink;
use serf_text::write_number;
use std::alloc::AllocError;

/// The limits by which an agent decides whether it accepts an event or a query.
#[derive(Clone, Copy)]
pub(crate) struct Takes {
    /// The minimum, and the action that set this minimum.
    pub(crate) lowest: Mark,
    pub(crate) clock: u64,
    /// The number of slots in the buffer. Each slot holds the entries of one time.
    pub(crate) slots: u64,
    /// The maximum number of events (or queries) with the same time that the agent accepts.
    pub(crate) per_time: u64,
}

impl Takes {
    /// Returns the limits for events that apply to `agent` after action number `action`. `before` is the mark of the
    /// agent's minimum before this action.
    pub(crate) fn events(agent: &Agent<MemorySink>, before: &Mark, action: u64) -> Takes
        ensures { result ≡ takes_events before.now agent.now.concrete action }
    {
        let config = agent.config();
        Takes {
            lowest: before.following(agent.event_minimum(), action),
            clock: agent.event_time(),
            slots: config.event_buffer,
            per_time: config.per_time,
        }
    }

    /// Returns the limits for queries that apply to `agent` after action number `action`. `before` is the mark of the
    /// agent's minimum before this action.
    pub(crate) fn queries(agent: &Agent<MemorySink>, before: &Mark, action: u64) -> Takes
        ensures { result ≡ takes_queries before.now agent.now.concrete action }
    {
        let config = agent.config();
        Takes {
            lowest: before.following(agent.query_minimum(), action),
            clock: agent.query_time(),
            slots: config.query_buffer,
            per_time: config.per_time,
        }
    }
}

/// Appends the statement that an event's name and payload together have `bytes` bytes, which is too many.
#[tactic(auto, unfolding(crate::specs::Left::oversize_words))]
fn write_oversize(out: &mut Vec<u8>, bytes: u64) -> Result<(), AllocError>
    ensures { OnOk result (out.new.items ≡ out.old.items ++ oversize_words bytes) }
{
    say(out, b"its name and payload have ", bytes)?;
    out.extend_from_slice(b" bytes together, more than 9216")
}

/// Appends the statement that a value has been the same since action number `since`, or since the start of the run if
/// `since` is 0.
#[tactic(auto, unfolding(crate::specs::Left::since_words))]
fn write_since(out: &mut Vec<u8>, since: u64) -> Result<(), AllocError>
    ensures { OnOk result (out.new.items ≡ out.old.items ++ since_words since) }
{
    if since == 0 {
        out.extend_from_slice(b", unchanged since the start")
    } else {
        say(out, b", unchanged since action ", since)
    }
}

/// Appends the value in `mark`, and the number of the action that set this value.
#[tactic(auto, unfolding(crate::specs::Left::mark_words))]
pub(crate) fn write_mark(out: &mut Vec<u8>, mark: &Mark) -> Result<(), AllocError>
    ensures { OnOk result (out.new.items
        ≡ out.old.items ++ mark_words mark.now.value mark.now.since) }
{
    write_number(out, mark.value)?;
    write_since(out, mark.since)
}

/// Appends the statement that `time` is below a clock by more than `slots`. The name and the value of this clock are to
/// follow.
fn write_below(out: &mut Vec<u8>, time: u64, slots: u64) -> Result<(), AllocError>
    ensures { OnOk result (out.new.items ≡ out.old.items ++ below_words time slots) }
{
    say(out, b"time ", time)?;
    say(out, b" is more than ", slots)?;
    out.extend_from_slice(b" times below the ")?;
    Ok(())
}

/// Appends the statement that `time` is too old because it is below `clock` by more than `slots`. The clock is called
/// `name` (`event` or `query`).
#[tactic(auto, unfolding(crate::specs::Left::too_old_words))]
fn write_too_old(
    out: &mut Vec<u8>,
    time: u64,
    slots: u64,
    name: &[u8],
    clock: u64,
) -> Result<(), AllocError>
    ensures { OnOk result
        (out.new.items ≡ out.old.items ++ too_old_words time slots name.now clock) }
{
    write_below(out, time, slots)?;
    out.extend_from_slice(name)?;
    say(out, b" clock ", clock)
}

/// Appends the statement that `per_time` events or queries with the time `time` were already accepted, which is the
/// maximum for one time.
#[tactic(auto, unfolding(crate::specs::Left::full_words))]
fn write_full(out: &mut Vec<u8>, per_time: u64, time: u64) -> Result<(), AllocError>
    ensures { OnOk result (out.new.items ≡ out.old.items ++ full_words per_time time) }
{
    write_number(out, per_time)?;
    say(
        out,
        b", as many as are taken of one time, were taken of time ",
        time,
    )
}

/// Returns the first words for `reason`, the reason why a delivered event or query is ignored.
pub(crate) fn first_words(reason: Reason) -> &'static [u8]
    ensures { result.now ≡ first_words reason }
{
    match reason {
        Reason::BelowMinimum => b"below the minimum time ",
        _ => b"",
    }
}

/// Appends the detail that follows the first words for `reason`. The agent ignored an event or a query with the time
/// `time`, and `name` states which of the two it was. `bytes` is the total length of the name and the payload that it
/// carried, and `takes` contains the limits of the agent.
pub(crate) fn write_ignored_detail(
    out: &mut Vec<u8>,
    takes: &Takes,
    name: &[u8],
    time: u64,
    bytes: u64,
    reason: Reason,
) -> Result<(), AllocError>
    ensures { OnOk result (out.new.items
        ≡ out.old.items ++ left_words takes.now name.now time bytes reason) }
{
    match reason {
        Reason::BelowMinimum => write_mark(out, &takes.lowest),
        Reason::TooOld => write_too_old(out, time, takes.slots, name, takes.clock),
        Reason::TimeFull => write_full(out, takes.per_time, time),
        Reason::Oversize => write_oversize(out, bytes),
        _ => Ok(()),
    }
}
