//! The command `judge` uses the log of any Serf to check whether the promises about events and queries were kept.

pub(super) mod starts;
pub(super) mod verdicts;

use super::clocks::check_snapshot;
use crate::command_error::{CommandError, CommandResult, Status};
use crate::io::{Io, name_of};
use crate::options::OptionKind::{Flag, Places, Word, Words};
use crate::options::{CommandKind, CommandRow, is_json, rows};
use clap::ArgMatches;
use serf_judge::{Log, has_node, join_logs, read_log};
use serf_judge_json::{LogName, LogPlaces, judgement_objects, kept_objects, status_object};
use serf_text::StreamError;
use starts::{Start, StartedProgram, starts_of};
use std::alloc::{AllocError, Global};
use verdicts::{LogFile, Verdicts};

/// The command's options and arguments.
pub(crate) const COMMAND: CommandRow = CommandRow {
    kind: CommandKind::Judge,
    name: "judge",
    about: "Checks a log of handlers from any Serf against the promises about events and queries",
    example: "Example: serf-replay judge examples/incident/handlers.log --kept beta=examples/incident/beta.snapshot",
    rows: rows! {
        "LOG" Places => "One or more logs; standard input if none is given, or for `-`";
        "missed" Flag => "Also reports which nodes were never handed an event that others were";
        "format" Word("FORM") => "`text` (the default), or `json`: one object a line, with all that the log says and each repeat";
        "own" Flag => "Assumes that an agent of this project is started on the snapshots, whoever wrote them";
        "serf" Flag => "Assumes that stock Serf is started on the snapshots, whoever wrote them; overrides --own";
        "kept" Words("NODE=SNAPSHOT") => "Also checks what this node can be handed again after a restart from its snapshot; can be repeated";
    },
};

/// Reads the log in the file `file`, or on standard input if `file` is `-`. If there is only one log, it has no name.
fn log_of<'a>(io: Io, file: &'a str, is_alone: bool) -> Result<Log, CommandError<'a>> {
    let name = (!is_alone).then_some(file);
    let mut source = io.source(Some(file))?;
    match read_log(io.alloc(), &mut source) {
        Ok(log) => Ok(log),
        Err(StreamError::ReadError) => Err(CommandError::ReadError(Some(file))),
        Err(StreamError::LineTooLong { line }) => Err(CommandError::LongLogLine(name, line)),
        Err(error) => Err(error.into()),
    }
}

/// Appends the log `name` to `places`. The argument `before` is the total number of lines in all earlier logs.
fn add<'a>(places: &mut Vec<LogFile<'a>>, name: &'a str, before: u64) -> Result<(), AllocError> {
    places.push(LogFile { name, before })?;
    Ok(())
}

/// Reads the logs in the files `names`, one after another. The function adds the name of each log, and the number of
/// lines in all earlier logs, to `places`.
pub(super) fn logs_of<'a>(
    io: Io,
    names: &[&'a str],
    places: &mut Vec<LogFile<'a>>,
) -> Result<Log, CommandError<'a>> {
    let Some((first, others)) = names.split_first() else {
        return log_of(io, "-", true);
    };
    let mut log = log_of(io, first, others.is_empty())?;
    add(places, *first, 0)?;
    for name in others {
        add(places, *name, log.lines)?;
        let more = log_of(io, name, false)?;
        log = join_logs(log, more)?;
    }
    Ok(log)
}

/// Reads the snapshot in the file `path`. If the text in the file isn't a snapshot, the function refuses it.
fn snapshot_of<'a>(io: Io, path: &'a str) -> Result<Vec<u8>, CommandError<'a>> {
    let snapshot = match io.file(path)?.text() {
        Ok(snapshot) => snapshot,
        Err(CommandError::ReadError(_)) => return Err(CommandError::ReadError(Some(path))),
        Err(error) => return Err(error),
    };
    check_snapshot(path, &snapshot)?;
    Ok(snapshot)
}

/// Reads `word`, which has the form `NODE=SNAPSHOT`, and returns the node and the text of the snapshot.
fn node_and_snapshot_of<'a>(
    io: Io,
    log: &Log,
    word: &'a str,
) -> Result<(&'a [u8], Vec<u8>), CommandError<'a>> {
    let Some((node, path)) = word.split_once('=') else {
        let wants = "--kept needs NODE=SNAPSHOT, not '";
        return Err(CommandError::CommandLine(wants, word, "'", "", ""));
    };
    if !has_node(log, node.as_bytes()) {
        let why = ": the log has no event and no query of node '";
        return Err(CommandError::CommandLine("--kept ", word, why, node, "'"));
    }
    Ok((node.as_bytes(), snapshot_of(io, path)?))
}

/// A node, and the text of its snapshot.
#[derive(Drop)]
pub(super) struct NodeSnapshot<'a> {
    node: &'a [u8],
    text: Vec<u8>,
}

/// Returns the snapshots that `words` name. Each word has the form `NODE=SNAPSHOT`.
pub(super) fn snapshots_of<'a>(
    io: Io,
    log: &Log,
    words: &[&'a str],
) -> Result<Vec<NodeSnapshot<'a>>, CommandError<'a>> {
    let mut snapshots = Vec::new(io.alloc());
    for word in words {
        let (node, text) = node_and_snapshot_of(io, log, word)?;
        if snapshots.push(NodeSnapshot { node, text }).is_err() {
            return Err(CommandError::NoMemory);
        }
    }
    Ok(snapshots)
}

/// Returns the program that, according to the command line, is started on the snapshots. The option `--serf` overrides
/// `--own`.
fn program_of(matches: &ArgMatches) -> StartedProgram {
    if matches.get_flag("serf") {
        StartedProgram::Serf
    } else if matches.get_flag("own") {
        StartedProgram::Own
    } else {
        StartedProgram::Writer
    }
}

/// Returns the verdicts on a log, which consists of `files`, one after another. The verdicts also cover which events
/// and queries can be handed out again after a program is started on one of `snapshots`.
pub(super) fn verdicts_of<'a>(
    alloc: Global,
    log: &'a Log,
    files: &'a [LogFile<'a>],
    snapshots: &[NodeSnapshot],
    reads: StartedProgram,
    tells_missed: bool,
) -> Result<Verdicts<'a>, AllocError> {
    let mut verdicts = Verdicts {
        text: Vec::new(alloc),
        is_broken: false,
        logs: files,
        dates: &log.dates,
    };
    verdicts.judge(alloc, log, tells_missed)?;
    for kept in snapshots {
        verdicts.judge_kept(alloc, log, kept.node, &kept.text, reads)?;
    }
    Ok(verdicts)
}

/// Appends objects about the events and queries that can be handed out again after a program is started on a snapshot.
/// Returns whether any event or query can be handed out again.
fn write_kept(
    alloc: Global,
    out: &mut Vec<u8>,
    log: &Log,
    places: &LogPlaces,
    kept: &NodeSnapshot,
    reads: StartedProgram,
) -> Result<bool, AllocError> {
    let NodeSnapshot { node, text } = kept;
    let (first, second) = starts_of(text, reads);
    let has_left = second.is_some();
    let Start { reader, .. } = first;
    let is_open = kept_objects(alloc, out, places, log, node, text, reader, has_left)?;
    let Some(Start { reader, .. }) = second else {
        return Ok(is_open);
    };
    let again = kept_objects(alloc, out, places, log, node, text, reader, has_left)?;
    Ok(is_open || again)
}

/// Returns the name of each log in `files`, and the number of lines in all logs before it.
fn names_of(alloc: Global, files: &[LogFile]) -> Result<Vec<LogName>, AllocError> {
    let mut names = Vec::new(alloc);
    for file in files {
        let mut name = Vec::new(alloc);
        name.extend_from_slice(file.name.as_bytes())?;
        names.push(LogName {
            name,
            before: file.before,
        })?;
    }
    Ok(names)
}

/// Judges a log, and returns the results as objects, together with the exit status. The status is `Refused` if a
/// promise is broken or if a line is bad.
pub(super) fn objects_of(
    alloc: Global,
    log: &Log,
    files: &[LogFile],
    snapshots: &[NodeSnapshot],
    reads: StartedProgram,
) -> Result<(Vec<u8>, Status), AllocError> {
    let mut out = Vec::new(alloc);
    let logs = names_of(alloc, files)?;
    let places = LogPlaces {
        logs: &logs,
        dates: &log.dates,
    };
    let mut is_broken = judgement_objects(alloc, &mut out, &places, log)?;
    for kept in snapshots {
        let is_open = write_kept(alloc, &mut out, log, &places, kept, reads)?;
        is_broken = is_broken || is_open;
    }
    let status = Status::refused_if(is_broken);
    status_object(&mut out, status as u64)?;
    Ok((out, status))
}

/// Refuses a log as empty if it contains nothing to judge, no bad line, and at most one line for each of the files
/// `names`.
pub(super) fn check_log<'a>(log: &Log, names: &[&'a str]) -> Result<(), CommandError<'a>> {
    let is_silent = log.events.is_empty() && log.queries.is_empty() && log.fired.is_empty();
    let is_silent = is_silent && log.runs.is_empty();
    let files = names.len().max(1) as u64;
    if !is_silent || !log.bad.is_empty() || log.lines > files {
        return Ok(());
    }
    let (name, what) = (name_of(names.first().copied()), "no line of a log");
    Err(CommandError::File(name, what, Status::Refused))
}

/// Writes the verdicts on the logs that the command line names.
pub(super) fn run<'a>(io: Io, matches: &ArgMatches<'a>) -> CommandResult<'a> {
    let mut places = Vec::new(io.alloc());
    let names = matches.get_strs("LOG").unwrap_or(&[]);
    let log = logs_of(io, names, &mut places)?;
    check_log(&log, names)?;
    let is_json = is_json(matches)?;
    let snapshots = snapshots_of(io, &log, matches.get_strs("kept").unwrap_or(&[]))?;
    let (alloc, reads) = (io.alloc(), program_of(matches));
    let (text, status) = if is_json {
        objects_of(alloc, &log, &places, &snapshots, reads)?
    } else {
        let tells_missed = matches.get_flag("missed");
        let verdicts = verdicts_of(alloc, &log, &places, &snapshots, reads, tells_missed)?;
        let Verdicts {
            text,
            is_broken,
            ..
        } = verdicts;
        (text, Status::refused_if(is_broken))
    };
    io.finish(&text)?;
    Ok(status)
}
