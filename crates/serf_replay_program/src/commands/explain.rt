//! The command `explain` prints the trace of a schedule together with the reasons, either after the whole run or line
//! by line.

use crate::command_error::{CommandError, CommandResult, Status, command_line};
use crate::io::Io;
use crate::options::OptionKind::{Flag, Number, Place, Word};
use crate::options::{CommandKind, CommandRow, SCHEDULE, agents_of, is_json, rows};
use crate::progress::{ACTIONS, Progress};
use clap::ArgMatches;
use serf_explain::{Range, explain, explain_lines};
use serf_run_json::{run_objects, stream_objects};
use std::io;

/// The command's options and arguments.
pub(crate) const COMMAND: CommandRow = CommandRow {
    kind: CommandKind::Explain,
    name: "explain",
    about: "Writes a schedule's trace, with the reason for each answer",
    example: "Example: serf-replay explain examples/deploy_gossiped_twice.schedule",
    rows: rows! {
        "FILE" Place => SCHEDULE;
        "stream" Flag => "Runs and explains line by line: the schedule may have any length, and all its actions are explained";
        "agent" Word("AGENT") => "Explains only this agent, given by its number, from 0 on, or its name; all agents if it is left out";
        "from" Number("ACTION", 1, u64::MAX) => "The first action to explain, counted from 1";
        "format" Word("FORM") => "`text` (the default), or `json`: one object a line, with the state of the agent after each action";
        "to" Number("ACTION", 1, u64::MAX) => "The last action to explain";
    },
};

/// If `range` contains none of the `actions` actions in a schedule, reports this on standard error.
fn tell_empty(io: Io, range: Range, actions: u64) {
    let Range { from, to, .. } = range;
    if from > actions {
        let _ = eprintln!(io.rt; "nothing to explain: the schedule has {actions} actions");
    } else if to < from {
        let _ = eprintln!(io.rt; "nothing to explain: action {to} is before action {from}");
    }
}

/// Writes the part of the trace that the command line selects, together with the reasons. The function reads the whole
/// schedule first, and returns the number of actions in it.
fn explain_part<'a>(
    io: Io,
    matches: &ArgMatches<'a>,
    range: Range,
) -> Result<u64, CommandError<'a>> {
    let text = io.schedule(matches)?.text()?;
    let agent = agents_of(io.alloc(), matches, &text)?.first().copied();
    let (range, mut reader) = (Range { agent, ..range }, text.as_slice());
    let (mut output, mut progress) = (io::writer(&io), Progress::of(io, ACTIONS));
    if is_json(matches)? {
        let alloc = io.alloc();
        return Ok(run_objects(alloc, &mut reader, &mut output, &range, true, &mut progress)?);
    }
    Ok(explain(io.alloc(), &mut reader, &mut output, &range, &mut progress)?)
}

/// Writes the trace of a schedule line by line, together with the reasons. Returns the number of actions in the
/// schedule.
fn explain_stream<'a>(io: Io, matches: &ArgMatches<'a>) -> Result<u64, CommandError<'a>> {
    let (mut source, mut output) = (io.schedule(matches)?, io::writer(&io));
    if is_json(matches)? {
        return Ok(stream_objects(io.alloc(), &mut source, &mut output, true)?);
    }
    Ok(explain_lines(io.alloc(), &mut source, &mut output)?)
}

/// Writes the trace of the schedule in a file, or on standard input, together with the reasons. If the command line
/// requests it, the function works line by line. In that mode, the function writes the text of all lines before a bad
/// line, and then stops.
pub(super) fn run<'a>(io: Io, matches: &ArgMatches<'a>) -> CommandResult<'a> {
    let (from, to) = (matches.get_one::<u64>("from"), matches.get_one::<u64>("to"));
    let is_part = from.is_some() || to.is_some() || matches.get_str("agent").is_some();
    let range = Range {
        agent: None,
        from: from.unwrap_or(1),
        to: to.unwrap_or(u64::MAX),
    };
    let actions = if !matches.get_flag("stream") {
        explain_part(io, matches, range)?
    } else if is_part {
        let why = "--stream explains all actions: leave out --agent, --from and --to";
        return Err(command_line(why));
    } else {
        explain_stream(io, matches)?
    };
    tell_empty(io, range, actions);
    Ok(Status::Done)
}
