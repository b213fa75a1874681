//! Reads schedules, line by line or as a whole. `agents` holds the agents of the earlier lines. A line is late
//! (`is_late`) if an earlier line has an action. A late line can't add an agent. In clauses, `before` is the schedule
//! of the earlier lines, and `following ..` is this schedule after the agent or the action of the line was added.

ghost use Rattle.std.specs.Prelude.{None, true, ◌≡◌, ◌<◌, ◌≤◌, ◌==◌, ◌++◌, slice_index, length, map, All, IfOk, Ok, Err};
ghost use Rattle.serf_model.specs.Runs.{AreConfigs};
ghost use Rattle.serf_model.specs.Sizes.{HasSizes};
ghost use Rattle.serf_schedule.specs.Command.{command_of};
ghost use Rattle.serf_text.specs.Words.{words_of, word_at};
ghost use Rattle.serf_schedule.specs.Line.{after_line, agent_line, is_agent_count};
ghost use Rattle.serf_schedule.specs.Parts.{agent_words_in, parts_said};
ghost use Rattle.serf_schedule.specs.Schedule.{parsed_of, schedule_error, schedule_of, Reads};
ghost use Rattle.serf_text.specs.Gives.{Gives};
ghost use Rattle.serf_schedule.specs.Line.{Parsed};
ghost use Rattle.serf_schedule.specs.Said.{IsHeld, following};

use crate::command::{Command, command_in};
use crate::line::{action, agent, injection, query};
use crate::schedule::Schedule;
use serf_model::Action;
use serf_text::{Cause, InputError, LineError, split_once, split_words, split_words_into};
use serf_world::{Roster, RosterError};
use std::alloc::Global;
use thiserror::Error;

/// Why a text is not a valid schedule.
#[derive(Clone, Copy, Debug, Drop, Error, PartialEq, Eq)]
pub enum ScheduleError {
    /// The number of the first line that isn't valid, counted from 1, and the cause.
    #[error("line {line} of the schedule is bad: {cause}")]
    BadLine { line: u64, cause: Cause },
    /// Memory ran out.
    #[error("out of memory")]
    OutOfMemory,
}

/// Why a schedule was not replayed.
#[derive(Clone, Copy, Debug, Drop, Error, PartialEq, Eq)]
pub enum ReplayError {
    /// A read failed. Nothing was written.
    #[error("a read failed")]
    ReadError,
    /// There are more than 16,777,216 bytes to read. Nothing was written.
    #[error("the schedule is too long")]
    ReadTooLong,
    /// The number of the first line that isn't valid, counted from 1, and the cause. Nothing was written.
    #[error("line {line} of the schedule is bad: {cause}")]
    BadLine { line: u64, cause: Cause },
    /// Memory ran out. Nothing was written.
    #[error("out of memory")]
    OutOfMemory,
    /// A write failed, or accepted no byte. The bytes that were written are a prefix of the trace's text.
    #[error("a write failed")]
    WriteError,
}

impl From<InputError> for ReplayError {
    ghost use Rattle.std.specs.Prelude.{◌≡◌};
    ghost use Rattle.serf_schedule.specs.Errors.{error_of_input};

    ghost from_gives = { λ from error. error ≡ error_of_input from };

    fn from(error: InputError) -> ReplayError {
        match error {
            InputError::ReadError => ReplayError::ReadError,
            InputError::ReadTooLong => ReplayError::ReadTooLong,
            InputError::OutOfMemory => ReplayError::OutOfMemory,
        }
    }
}

impl From<ScheduleError> for ReplayError {
    ghost use Rattle.std.specs.Prelude.{◌≡◌};
    ghost use Rattle.serf_schedule.specs.Errors.{error_of_schedule};

    ghost from_gives = { λ from error. error ≡ error_of_schedule from };

    fn from(error: ScheduleError) -> ReplayError {
        match error {
            ScheduleError::BadLine { line, cause } => ReplayError::BadLine { line, cause },
            ScheduleError::OutOfMemory => ReplayError::OutOfMemory,
        }
    }
}

/// Converts the error of one line to the error of the schedule. `line` is the number of the line, counted from 1.
/// Allocates no memory.
pub fn error_at(line: u64, error: LineError) -> ScheduleError
    ensures { result ≡ schedule_error line error }
{
    match error {
        LineError::Bad(cause) => ScheduleError::BadLine { line, cause },
        LineError::OutOfMemory => ScheduleError::OutOfMemory,
    }
}

/// Whether an agent's line may have `count` words. The line may omit the two limits on packets, or these limits and
/// PERTIME.
fn is_agent_count(count: usize) -> bool
    ensures { result ≡ is_agent_count count }
{
    count == 7 || count == 8 || count == 10
}

/// Returns all words of an agent's line. `words` are its first words, at most eight, and `rest` is the remainder of the
/// line. Returns `WordCount` if an agent's line can't have this number of words.
fn agent_words<'a>(
    alloc: Global,
    words: &[&'a [u8]],
    rest: &'a [u8],
) -> Result<Vec<&'a [u8]>, LineError>
    requires { 0 < length rest.now → length words.now ≡ 8 }
    ensures { Gives (λ all. map (λ w. w.now) all.items) result
        (agent_words_in (map (λ w. w.now) words.now ++ words_of rest.now)) }
{
    let mut all = Vec::from_slice(alloc, words)?;
    let mut more = Vec::new(alloc);
    let left = split_words_into(rest, &mut more)?; // the part of `rest` after its first eight words
    all.append(&mut more)?;
    if left.is_empty() && is_agent_count(all.len()) {
        Ok(all)
    } else {
        Err(LineError::Bad(Cause::WordCount))
    }
}

/// Adds the agent of a line to `agents`. `words` are the first words of the line, at most eight, and `rest` is the
/// remainder of the line. Returns `LateAgent` if the line is late.
fn read_agent(
    alloc: Global,
    agents: &mut Roster,
    is_late: bool,
    words: &[&[u8]],
    rest: &[u8],
) -> Result<(), LineError>
    requires { 0 < length rest.now → length words.now ≡ 8 }
    ensures same { is_late ≡ true → agents.new ≡ agents.old }
    ensures agents { AreConfigs agents.old → AreConfigs agents.new }
    ensures said { (before : Parsed) → IsHeld is_late agents.old before
        → Gives (λ _. following is_late before agents.new None) result
        (agent_line before (map (λ w. w.now) words.now ++ words_of rest.now)) }
{
    if is_late {
        return Err(LineError::Bad(Cause::LateAgent));
    }
    let words = agent_words(alloc, words, rest)?;
    let config = agent(alloc, &words)?;
    match agents.add(alloc, config) {
        Ok(()) => Ok(()),
        Err(RosterError::BadConfig) => Err(LineError::Bad(Cause::BadConfig)),
        Err(RosterError::NameTwice) => Err(LineError::Bad(Cause::NameTwice)),
        Err(RosterError::OutOfMemory) => Err(LineError::OutOfMemory),
    }
}

/// Reads a line that has at least one word, and returns its action. If the line has an agent, the function adds this
/// agent to `agents` and returns `None`. `words` are the first words of the line, at most eight, and `rest` is the
/// remainder of the line.
fn read_words(
    alloc: Global,
    agents: &mut Roster,
    is_late: bool,
    words: &[&[u8]],
    rest: &[u8],
) -> Result<Option<Action>, LineError>
    requires some { 0 < length words.now }
    requires few { length words.now ≤ 8 }
    requires full { 0 < length rest.now → length words.now ≡ 8 }
    ensures same { is_late ≡ true → agents.new ≡ agents.old }
    ensures agents { AreConfigs agents.old → AreConfigs agents.new }
    ensures said { (before : Parsed) → IsHeld is_late agents.old before
        → Gives (following is_late before agents.new) result
        (parts_said (command_of (word_at 1 (map (λ w. w.now) words.now))) before
        (map (λ w. w.now) words.now) rest.now) }
{
    match command_in(words[0]) {
        Some(Command::Agent) => match read_agent(alloc, agents, is_late, words, rest) {
            Ok(()) => Ok(None),
            Err(error) => Err(error),
        },
        Some(Command::Inject) => match injection(alloc, words) {
            Ok(action) => Ok(Some(action)),
            Err(error) => Err(error),
        },
        Some(Command::Query) => match query(alloc, words, rest) {
            Ok(action) => Ok(Some(action)),
            Err(error) => Err(error),
        },
        Some(Command::Act(verb)) => match action(alloc, verb, words) {
            Ok(action) => Ok(Some(action)),
            Err(error) => Err(error),
        },
        None => Err(LineError::Bad(Cause::UnknownWord)),
    }
}

/// Reads `line`, the next line of a schedule, and returns its action. If the line has an agent, the function adds this
/// agent to `agents` and returns `None`. It also returns `None` if the line has no words or is a comment.
#[tactic(auto, unfolding(crate::specs::Line::after_line))]
#[inline(always)]
pub(crate) fn say_line(
    alloc: Global,
    agents: &mut Roster,
    is_late: bool,
    line: &[u8],
) -> Result<Option<Action>, LineError>
    ensures said { (before : Parsed) → IsHeld is_late agents.old before
        → Gives (following is_late before agents.new) result (after_line before line.entry.now) }
    ensures same { is_late ≡ true → agents.new ≡ agents.old }
    ensures agents { AreConfigs agents.old → AreConfigs agents.new }
{
    if let [b'#', ..] = line {
        return Ok(None);
    }
    let (first, count, rest) = split_words(line); // at most eight words, their number, and the remainder
    if count == 0 {
        return Ok(None);
    }
    read_words(alloc, agents, is_late, &first[..count], rest)
}

/// Reads `line`, the next line of `schedule`, and adds its agent or its action to `schedule`, after the others.
///
/// Words are separated by spaces. A line without words adds nothing, and neither does a line whose first byte is `#`.
/// After an error, no contract says what `schedule` holds.
#[inline(always)]
pub fn read_schedule_line(
    alloc: Global,
    schedule: &mut Schedule,
    line: &[u8],
) -> Result<(), LineError>
    ensures exact { Gives (λ _. parsed_of schedule.new) result
        (after_line (parsed_of schedule.old) line.entry.now) }
    // The agents can form a cluster.
    ensures agents { AreConfigs schedule.new.agents }
{
    let is_late = !schedule.actions.is_empty();
    match say_line(alloc, &mut schedule.agents, is_late, line) {
        Ok(Some(action)) => match schedule.actions.push(action) {
            Ok(()) => Ok(()),
            Err(_) => Err(LineError::OutOfMemory),
        },
        Ok(None) => Ok(()),
        Err(error) => Err(error),
    }
}

/// Returns the schedule that `text` stands for, or its first bad line.
///
/// The text is split at newlines, and the last line needs no newline. Words are separated by spaces. Lines without
/// words are skipped, and so are lines whose first byte is `#`. The lines of the agents have to be before the lines of
/// the actions.
///
/// The result is `BadLine` exactly if a line isn't valid, and it names the first of these lines. But if memory runs out
/// first, the result is `OutOfMemory`.
pub fn parse_schedule(alloc: Global, text: &[u8]) -> Result<Schedule, ScheduleError>
    ensures exact { Reads result (schedule_of text.now) }
    // The agents can form a cluster.
    ensures agents { IfOk result (λ schedule. AreConfigs schedule.agents) }
    // The numbers in the actions fit into their types.
    ensures sizes { IfOk result (λ schedule. All HasSizes schedule.actions.items) }
{
    let mut parsed = Schedule {
        agents: Roster::new(alloc),
        actions: Vec::new(alloc),
    };
    let mut number: u64 = 1;
    let mut rest = text;
    'lines: loop {
        let (line, more) = split_once(rest, b'\n');
        if let Err(error) = read_schedule_line(alloc, &mut parsed, line) {
            return Err(error_at(number, error));
        }
        match more {
            Some(next) => {
                rest = next;
                number += 1;
            }
            None => {
                return Ok(parsed);
            }
        }
    }
}
