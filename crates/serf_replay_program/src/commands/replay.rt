//! The command `replay` prints the trace of a schedule, either after the whole run or line by line, or it prints a
//! summary of the run.

use crate::agent_source::AgentSource;
use crate::command_error::{CommandError, CommandResult, Status};
use crate::io::Io;
use crate::options::OptionKind::{Flag, Place, Word};
use crate::options::{CommandKind, CommandRow, SCHEDULE, chosen, rows};
use crate::progress::{ACTIONS, Progress};
use clap::ArgMatches;
use serf_agent::Config;
use serf_explain::Range;
use serf_json::{Member, write_object};
use serf_replay::{Summary, replay, replay_lines, summarize, summarize_lines};
use serf_run_json::{readable_run, run_objects, stream_objects, stream_readable};
use serf_schedule::parse_schedule;
use serf_text::Part::{self, Hex, Number};
use serf_text::{split_once, write_template};
use serf_wire::Bytes;
use std::alloc::{AllocError, Global};
use std::io;

/// The command's options and arguments.
pub(crate) const COMMAND: CommandRow = CommandRow {
    kind: CommandKind::Replay,
    name: "replay",
    about: "Runs a schedule and writes its trace",
    example: "Example: serf-replay replay examples/deploy_gossiped_twice.schedule",
    rows: rows! {
        "FILE" Place => SCHEDULE;
        "stream" Flag => "Runs and writes line by line: the schedule may have any length";
        "summary" Flag => "Writes a summary in place of the trace: how often each answer occurred, and which agent was handed what by when";
        "format" Word("FORM") => "`trace` (the default), `text` for people, or `json`: one object a line; for a summary `text` (the default), `csv` or `json`";
    },
};

/// The form of a summary. In each line, the placeholders `~` are replaced with the item, its count, and the last action
/// at which the item occurred.
#[derive(Clone, Copy)]
struct SummaryForm {
    actions: &'static [u8],
    answer: &'static [u8],
    agent: &'static [u8],
    event: &'static [u8],
    /// The line for an agent that was handed nothing, or `None` if these agents have no line. If idle agents have no
    /// line, the other agents are in the order in which they were first handed an event. If idle agents have a line,
    /// all agents are in the order of their numbers.
    idle_agent: Option<&'static [u8]>,
}

/// The form of a summary for people.
const TEXT: SummaryForm = SummaryForm {
    actions: b"actions ~\n",
    answer: b"answered ~: ~, last at action ~\n",
    agent: b"agent ~ was handed: ~, last at action ~\n",
    event: b"event ~ ~ ~ was handed out: ~, last at action ~\n",
    idle_agent: None,
};

/// The form of a summary as a table (CSV).
const CSV: SummaryForm = SummaryForm {
    actions: b"what,answer,agent,time,name,payload,times,last\nactions,,,,,,~,\n",
    answer: b"answer,~,,,,,~,~\n",
    agent: b"agent,,~,,,,~,~\n",
    event: b"event,,,~,~,~,~,~\n",
    idle_agent: Some(b"agent,,~,,,,0,\n"),
};

/// Appends a line for each agent. If `form` has no line for idle agents, the function appends lines only for agents
/// that were handed an event.
fn write_agents(
    out: &mut Vec<u8>,
    form: &SummaryForm,
    summary: &Summary,
) -> Result<(), AllocError> {
    let Some(idle) = form.idle_agent else {
        for (agent, frequency) in summary.agents.iter() {
            let (times, last) = (Number(frequency.times), Number(frequency.last));
            write_template(out, form.agent, &[Number(*agent), times, last])?;
        }
        return Ok(());
    };
    for agent in 0..summary.size {
        match summary.agents.get(&agent) {
            Some(frequency) => {
                let (times, last) = (Number(frequency.times), Number(frequency.last));
                write_template(out, form.agent, &[Number(agent), times, last])?;
            }
            None => write_template(out, idle, &[Number(agent)])?,
        }
    }
    Ok(())
}

/// Returns the text of a summary in the given form.
fn summary_text(
    alloc: Global,
    form: &SummaryForm,
    summary: &Summary,
) -> Result<Vec<u8>, AllocError> {
    let mut out = Vec::new(alloc);
    write_template(&mut out, form.actions, &[Number(summary.actions)])?;
    for (label, frequency) in summary.answers.iter() {
        let (times, last) = (Number(frequency.times), Number(frequency.last));
        write_template(&mut out, form.answer, &[Part::Text(label), times, last])?;
    }
    write_agents(&mut out, form, summary)?;
    for (event, frequency) in summary.events.iter() {
        let (name, payload) = (Hex(event.name.as_slice()), Hex(event.payload.as_slice()));
        let (times, last) = (Number(frequency.times), Number(frequency.last));
        let parts = [Number(event.time), name, payload, times, last];
        write_template(&mut out, form.event, &parts)?;
    }
    Ok(out)
}

/// Returns the JSON member that contains the name of agent number `agent`, or an absent member if the name isn't known.
fn name_member(names: &[Bytes], agent: u64) -> Member<'_> {
    match names.get(agent as usize) {
        Some(name) => Member::Bytes(b"agent_name", name.as_slice()),
        None => Member::Absent,
    }
}

/// Appends an object for each agent, in the order of their numbers.
fn write_agent_objects(
    out: &mut Vec<u8>,
    summary: &Summary,
    names: &[Bytes],
) -> Result<(), AllocError> {
    for agent in 0..summary.size {
        let (times, last) = match summary.agents.get(&agent) {
            Some(frequency) => (frequency.times, Member::Number(b"last", frequency.last)),
            None => (0, Member::Absent),
        };
        let members = [
            Member::Number(b"agent", agent),
            name_member(names, agent),
            Member::Number(b"times", times),
            last,
        ];
        write_object(out, b"agent-total", &members)?;
    }
    Ok(())
}

/// Returns the JSON member that contains the code of an answer, or an absent member if the answer has no code.
fn code_member(code: Option<&[u8]>) -> Member<'_> {
    match code {
        Some(code) => Member::Text(b"code", code),
        None => Member::Absent,
    }
}

/// Appends an object for each answer, in which the answer is split into its word and its code.
fn write_answer_objects(out: &mut Vec<u8>, summary: &Summary) -> Result<(), AllocError> {
    for (label, frequency) in summary.answers.iter() {
        let (word, code) = split_once(label, b' ');
        let members = [
            Member::Text(b"answer", word),
            code_member(code),
            Member::Number(b"times", frequency.times),
            Member::Number(b"last", frequency.last),
        ];
        write_object(out, b"answer-total", &members)?;
    }
    Ok(())
}

/// Returns the objects of a summary. The argument `names` contains the names of the agents.
fn summary_objects(
    alloc: Global,
    summary: &Summary,
    names: &[Bytes],
) -> Result<Vec<u8>, AllocError> {
    let mut out = Vec::new(alloc);
    let times = Member::Number(b"times", summary.actions);
    write_object(&mut out, b"action-total", &[times])?;
    write_answer_objects(&mut out, summary)?;
    write_agent_objects(&mut out, summary, names)?;
    for (event, frequency) in summary.events.iter() {
        let members = [
            Member::Number(b"time", event.time),
            Member::Bytes(b"name", event.name.as_slice()),
            Member::Bytes(b"payload", event.payload.as_slice()),
            Member::Number(b"times", frequency.times),
            Member::Number(b"last", frequency.last),
        ];
        write_object(&mut out, b"event-total", &members)?;
    }
    Ok(out)
}

/// The form in which the result of a run is written.
#[derive(Clone, Copy)]
enum RunForm {
    Trace,
    Text,
    Json,
}

/// The form in which a summary is written: lines of text, or JSON objects.
#[derive(Clone, Copy)]
enum TotalForm {
    Lines(SummaryForm),
    Json,
}

/// Returns the names of the agents in `agents`.
fn names_of(alloc: Global, agents: &[Config]) -> Result<Vec<Bytes>, AllocError> {
    let mut names = Vec::new(alloc);
    for agent in agents {
        names.push(Bytes::copy_of(alloc, agent.name.as_slice())?)?;
    }
    Ok(names)
}

/// Runs the schedule in a file, or on standard input. Returns the summary of the run and the names of the agents.
fn summary_of<'a>(
    io: Io,
    matches: &ArgMatches<'a>,
) -> Result<(Summary, Vec<Bytes>), CommandError<'a>> {
    let source = io.schedule(matches)?;
    if matches.get_flag("stream") {
        let mut source = AgentSource::of(io.alloc(), source)?;
        let summary = summarize_lines(io.alloc(), &mut source)?;
        let names = names_of(io.alloc(), source.agents()?)?;
        return Ok((summary, names));
    }
    let schedule = parse_schedule(io.alloc(), &source.text()?)?;
    let names = names_of(io.alloc(), schedule.agents.as_slice())?;
    let summary = summarize(io.alloc(), schedule, &mut Progress::of(io, ACTIONS))?;
    Ok((summary, names))
}

/// The range of all actions, which is used when the result of a whole run is written.
const ALL: Range = Range {
    agent: None,
    from: 1,
    to: u64::MAX,
};

/// Runs the schedule in a file, or on standard input, and writes the run line by line. If a line is bad, the function
/// writes the text of all lines before it, and then stops.
fn stream_run<'a>(io: Io, matches: &ArgMatches<'a>, form: RunForm) -> CommandResult<'a> {
    let (mut source, mut output) = (io.schedule(matches)?, io::writer(&io));
    match form {
        RunForm::Trace => replay_lines(io.alloc(), &mut source, &mut output)?,
        RunForm::Text => stream_readable(io.alloc(), &mut source, &mut output)?,
        RunForm::Json => {
            let _actions = stream_objects(io.alloc(), &mut source, &mut output, false)?;
        }
    }
    Ok(Status::Done)
}

/// Reads the whole schedule in a file, or on standard input, and then runs it and writes the run.
fn write_run<'a>(io: Io, matches: &ArgMatches<'a>, form: RunForm) -> CommandResult<'a> {
    let (mut source, mut output) = (io.schedule(matches)?, io::writer(&io));
    let (alloc, mut progress) = (io.alloc(), Progress::of(io, ACTIONS));
    match form {
        RunForm::Trace => replay(alloc, &mut source, &mut output, &mut progress)?,
        RunForm::Text => readable_run(alloc, &mut source, &mut output, &mut progress)?,
        RunForm::Json => {
            let (range, explains) = (&ALL, false);
            let _actions = run_objects(
                alloc,
                &mut source,
                &mut output,
                range,
                explains,
                &mut progress,
            )?;
        }
    }
    Ok(Status::Done)
}

/// Runs the schedule in a file, or on standard input, and writes a summary of the run.
fn write_summary<'a>(io: Io, matches: &ArgMatches<'a>) -> CommandResult<'a> {
    let forms = [
        ("text", TotalForm::Lines(TEXT)),
        ("csv", TotalForm::Lines(CSV)),
        ("json", TotalForm::Json),
    ];
    let form = chosen(
        matches,
        "format",
        &forms,
        "text, csv or json with --summary",
    )?;
    let text = {
        let (summary, names) = summary_of(io, matches)?;
        match form {
            TotalForm::Lines(form) => summary_text(io.alloc(), &form, &summary),
            TotalForm::Json => summary_objects(io.alloc(), &summary, &names),
        }
    };
    io.finish(&text?)
}

/// Runs the schedule in a file, or on standard input, and writes the result in the form that the command line selects.
pub(super) fn run<'a>(io: Io, matches: &ArgMatches<'a>) -> CommandResult<'a> {
    if matches.get_flag("summary") {
        return write_summary(io, matches);
    }
    let forms = [
        ("trace", RunForm::Trace),
        ("text", RunForm::Text),
        ("json", RunForm::Json),
    ];
    let form = chosen(
        matches,
        "format",
        &forms,
        "trace, text or json without --summary",
    )?;
    if matches.get_flag("stream") {
        stream_run(io, matches, form)
    } else {
        write_run(io, matches, form)
    }
}
