//! The command `timeline` writes a page about an incident, which shows the logs of handlers, the run of a schedule, or
//! both.

mod table;

use super::judge::starts::StartedProgram;
use super::judge::verdicts::{LogFile, Verdicts};
use super::judge::{NodeSnapshot, check_log, logs_of, objects_of, snapshots_of, verdicts_of};
use super::write::schedule_of;
use crate::command_error::{CommandError, CommandResult, command_line};
use crate::io::Io;
use crate::options::OptionKind::{Place, Word, Words};
use crate::options::{CommandKind, CommandRow, rows};
use crate::progress::{ACTIONS, Progress};
use clap::ArgMatches;
use serf_draw::{DrawOptions, draw_picture, svg_text};
use serf_explain::Range;
use serf_judge::Log;
use serf_run_json::{readable_run, run_objects};
use serf_schedule::ReplayError;
use serf_text::Part::{Number, Text};
use serf_text::write_template;
use serf_timeline::{Logs, Page, Run, write_page};
use std::alloc::{AllocError, Global};
use table::{MAX_LINES, Table};

/// The command's options and arguments.
pub(crate) const COMMAND: CommandRow = CommandRow {
    kind: CommandKind::Timeline,
    name: "timeline",
    about: "Makes an HTML page of an incident, from logs of handlers, a schedule, or both",
    example: "Example: serf-replay timeline --log examples/incident/handlers.log --kept beta=examples/incident/beta.snapshot > incident.html",
    rows: rows! {
        "FILE" Place => "The schedule, or, with the ending .written, its text with names; standard input for `-`, and no schedule if it is left out";
        "log" Words("LOG") => "A log of handlers; standard input for `-`; can be repeated";
        "kept" Words("NODE=SNAPSHOT") => "Also checks what this node can be handed again after a restart from its snapshot; can be repeated";
        "title" Word("TEXT") => "The page's title; the names of the files if it is left out";
    },
};

/// The page contains a picture that needs no script only if the run has at most this number of actions.
const MAX_DRAWN: u64 = 400;

/// The parts of a page about a schedule.
#[derive(Drop)]
struct ShownRun {
    actions: u64,
    picture: Vec<u8>,
    text: Vec<u8>,
    objects: Vec<u8>,
}

impl ShownRun {
    fn part(&self) -> Run<'_> {
        Run {
            picture: &self.picture,
            text: &self.text,
            objects: &self.objects,
        }
    }
}

/// Converts the error of a run whose output is kept in memory, so that a failed write means that memory ran out.
fn error_in_memory<'a>(error: ReplayError) -> CommandError<'a> {
    match error {
        ReplayError::WriteError => CommandError::NoMemory,
        other => other.into(),
    }
}

/// Returns the objects of a schedule's run, and the number of actions in the run.
fn run_objects_of<'a>(io: Io, schedule: &[u8]) -> Result<(Vec<u8>, u64), CommandError<'a>> {
    let (mut reader, mut objects) = (schedule, Vec::new(io.alloc()));
    let (range, mut progress) = (
        Range {
            agent: None,
            from: 1,
            to: u64::MAX,
        },
        Progress::of(io, ACTIONS),
    );
    let ran = run_objects(
        io.alloc(),
        &mut reader,
        &mut objects,
        &range,
        true,
        &mut progress,
    );
    match ran {
        Ok(actions) => Ok((objects, actions)),
        Err(error) => Err(error_in_memory(error)),
    }
}

/// Returns the text of a run that has the given number of actions. If there are too many actions, the text is instead a
/// sentence with the command that prints the run.
fn run_text_of<'a>(io: Io, schedule: &[u8], actions: u64) -> Result<Vec<u8>, CommandError<'a>> {
    let (mut reader, mut text) = (schedule, Vec::new(io.alloc()));
    if actions > MAX_LINES as u64 {
        let told =
            b"The run has ~ actions. The page's script shows them, and serf-replay replay --format text prints them.\n";
        write_template(&mut text, told, &[Number(actions)])?;
        return Ok(text);
    }
    let mut progress = Progress::of(io, ACTIONS);
    match readable_run(io.alloc(), &mut reader, &mut text, &mut progress) {
        Ok(()) => Ok(text),
        Err(error) => Err(error_in_memory(error)),
    }
}

/// Returns the picture of a run that has the given number of actions. If there are too many actions, the picture is
/// empty.
fn picture_of<'a>(io: Io, schedule: &[u8], actions: u64) -> Result<Vec<u8>, CommandError<'a>> {
    let alloc = io.alloc();
    if actions > MAX_DRAWN {
        return Ok(Vec::new(alloc));
    }
    let all = DrawOptions {
        agents: Vec::new(alloc),
        from: 1,
        to: u64::MAX,
        taken: false,
        event: None,
    };
    let picture = draw_picture(alloc, schedule, &all, &mut Progress::of(io, ACTIONS))?;
    Ok(svg_text(alloc, &picture)?)
}

/// Returns the parts of a page about the schedule in a file. If the name of the file ends in `.written`, a person wrote
/// the schedule, so the function converts it first.
fn run_of<'a>(io: Io, path: &'a str) -> Result<ShownRun, CommandError<'a>> {
    let schedule = if path.as_bytes().ends_with(b".written") {
        schedule_of(io, Some(path))?
    } else {
        io.source(Some(path))?.of_schedule().text()?
    };
    let (objects, actions) = run_objects_of(io, &schedule)?;
    Ok(ShownRun {
        actions,
        picture: picture_of(io, &schedule, actions)?,
        text: run_text_of(io, &schedule, actions)?,
        objects,
    })
}

/// Returns the page's title, which is `title` or, if no title is given, the names of the files.
fn title_of(
    alloc: Global,
    title: Option<&str>,
    file: Option<&str>,
    logs: &[&str],
) -> Result<Vec<u8>, AllocError> {
    let mut out = Vec::new(alloc);
    if let Some(title) = title {
        out.extend_from_slice(title.as_bytes())?;
        return Ok(out);
    }
    out.extend_from_slice(b"Timeline of")?;
    for name in logs {
        write_template(&mut out, b" ~", &[Text(name.as_bytes())])?;
    }
    if let Some(name) = file {
        write_template(&mut out, b" ~", &[Text(name.as_bytes())])?;
    }
    Ok(out)
}

/// The value that is used for a page without logs.
fn no_logs<'a>() -> Option<Logs<'a>> {
    None
}

/// Returns a page that shows a schedule without logs.
fn page_of_run(alloc: Global, title: Vec<u8>, run: ShownRun) -> Result<Vec<u8>, AllocError> {
    let (mut out, mut verdict) = (Vec::new(alloc), Vec::new(alloc));
    let told = b"a run of agents of this project, actions: ~\n";
    write_template(&mut verdict, told, &[Number(run.actions)])?;
    let shown = Some(run.part());
    let page = Page {
        title: &title,
        is_broken: false,
        verdict: &verdict,
        logs: no_logs(),
        run: shown,
    };
    write_page(&mut out, &page)?;
    Ok(out)
}

/// The parts of a page about logs.
#[derive(Drop)]
struct ShownLogs<'x> {
    verdict: Vec<u8>,
    is_broken: bool,
    table: Table<'x>,
    objects: Vec<u8>,
}

/// Returns the parts of a page about a log, which consists of `files`, one after another.
fn shown_logs<'x>(
    alloc: Global,
    log: &'x Log,
    files: &'x [LogFile<'x>],
    snapshots: &[NodeSnapshot],
) -> Result<ShownLogs<'x>, AllocError> {
    let (objects, _) = objects_of(alloc, log, files, snapshots, StartedProgram::Writer)?;
    let verdicts = verdicts_of(alloc, log, files, snapshots, StartedProgram::Writer, true)?;
    let table = Table::of(alloc, log, &verdicts)?;
    let Verdicts {
        text,
        is_broken,
        ..
    } = verdicts;
    Ok(ShownLogs {
        verdict: text,
        is_broken,
        table,
        objects,
    })
}

/// Returns a page that shows the given logs and, if there is a schedule, its run.
fn page_with_logs(
    alloc: Global,
    title: Vec<u8>,
    shown: ShownLogs<'_>,
    run: Option<ShownRun>,
) -> Result<Vec<u8>, AllocError> {
    let mut out = Vec::new(alloc);
    let columns = shown.table.columns(alloc)?;
    let lines = shown.table.lines(alloc)?;
    let page = Page {
        title: &title,
        is_broken: shown.is_broken,
        verdict: &shown.verdict,
        logs: Some(Logs {
            columns: &columns,
            lines: &lines,
            more: shown.table.more(),
            objects: &shown.objects,
        }),
        run: run.as_ref().map(|run| run.part()),
    };
    write_page(&mut out, &page)?;
    Ok(out)
}

/// Returns a page that shows the logs in the files `names` and, if there is a schedule, its run.
fn page_of_logs<'a>(
    io: Io,
    title: Vec<u8>,
    names: &[&'a str],
    kept: &[&'a str],
    run: Option<ShownRun>,
) -> Result<Vec<u8>, CommandError<'a>> {
    let mut files = Vec::new(io.alloc());
    let log = logs_of(io, names, &mut files)?;
    check_log(&log, names)?;
    let snapshots = snapshots_of(io, &log, kept)?;
    let shown = shown_logs(io.alloc(), &log, &files, &snapshots)?;
    Ok(page_with_logs(io.alloc(), title, shown, run)?)
}

/// Writes a page about the logs and the schedule that the command line names.
pub(super) fn run<'a>(io: Io, matches: &ArgMatches<'a>) -> CommandResult<'a> {
    let (file, logs) = (
        matches.get_str("FILE"),
        matches.get_strs("log").unwrap_or(&[]),
    );
    let kept = matches.get_strs("kept").unwrap_or(&[]);
    let title = title_of(io.alloc(), matches.get_str("title"), file, logs)?;
    let run = match file {
        Some(path) => Some(run_of(io, path)?),
        None => None,
    };
    let page = match run {
        Some(run) if logs.is_empty() => page_of_run(io.alloc(), title, run)?,
        None if logs.is_empty() => {
            return Err(command_line("timeline needs a schedule, or a log after --log"));
        }
        run => page_of_logs(io, title, logs, kept, run)?,
    };
    io.finish(&page)
}
