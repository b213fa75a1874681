//! The command `draw` draws a picture of a schedule's run.

use crate::command_error::{CommandError, CommandResult};
use crate::io::Io;
use crate::options::OptionKind::{Flag, Number, Place, Word, Words};
use crate::options::{CommandKind, CommandRow, SCHEDULE, agents_of, chosen, rows};
use crate::progress::{ACTIONS, Progress};
use clap::ArgMatches;
use serf_draw::{DrawOptions, Picture, draw_picture, mermaid_text, svg_text};
use serf_wire::Bytes;
use std::alloc::Global;

/// The command's options and arguments.
pub(crate) const COMMAND: CommandRow = CommandRow {
    kind: CommandKind::Draw,
    name: "draw",
    about: "Draws a schedule's run as an SVG file, or as a sequence diagram",
    example: "Example: serf-replay draw examples/deploy_gossiped_twice.schedule > run.svg",
    rows: rows! {
        "FILE" Place => SCHEDULE;
        "as" Word("FORM") => "`svg` (the default), or `mermaid`: the text of a sequence diagram";
        "agent" Words("AGENT") => "Draws only the lane of this agent, given by its number, from 0 on, or its name; can be repeated; all agents if it is left out";
        "from" Number("ACTION", 1, u64::MAX) => "The first action to draw, counted from 1";
        "to" Number("ACTION", 1, u64::MAX) => "The last action to draw";
        "taken" Flag => "Leaves out what was ignored, refused, injected or passed over";
        "event" Word("NAME") => "Draws only what fires, injects, delivers or hands out an event of this name, which is given as it is; all actions if it is left out";
    },
};

/// The format of a picture.
#[derive(Clone, Copy)]
enum PictureForm {
    Svg,
    Mermaid,
}

/// Returns which part of a run the command line selects. The argument `text` is the text of the schedule.
fn asked_of<'a>(
    alloc: Global,
    matches: &ArgMatches<'a>,
    text: &[u8],
) -> Result<DrawOptions, CommandError<'a>> {
    let event = match matches.get_str("event") {
        Some(name) => Some(Bytes::copy_of(alloc, name.as_bytes())?),
        None => None,
    };
    Ok(DrawOptions {
        agents: agents_of(alloc, matches, text)?,
        from: matches.get_one::<u64>("from").unwrap_or(1),
        to: matches.get_one::<u64>("to").unwrap_or(u64::MAX),
        taken: matches.get_flag("taken"),
        event,
    })
}

/// Writes a picture. If the picture shows no agent or no action, the function reports this on standard error.
fn write_picture<'a>(io: Io, picture: &Picture, form: PictureForm) -> CommandResult<'a> {
    if picture.lanes.is_empty() {
        let _ = eprintln!(io.rt; "the schedule has no agents: the picture is empty");
    } else if picture.rows.is_empty() {
        let _ = eprintln!(io.rt; "no action is drawn");
    }
    let text = match form {
        PictureForm::Svg => svg_text(io.alloc(), picture),
        PictureForm::Mermaid => mermaid_text(io.alloc(), picture),
    };
    io.finish(&text?)
}

/// Runs the schedule in a file, or on standard input, and returns a picture of the run. The picture shows the part of
/// the run that the command line selects.
fn picture_of<'a>(io: Io, matches: &ArgMatches<'a>) -> Result<Picture, CommandError<'a>> {
    let text = io.schedule(matches)?.text()?;
    let asked = asked_of(io.alloc(), matches, &text)?;
    Ok(draw_picture(io.alloc(), &text, &asked, &mut Progress::of(io, ACTIONS))?)
}

/// Draws the run of the schedule in a file, or on standard input. The command line selects the format of the picture
/// and the part of the run.
pub(super) fn run<'a>(io: Io, matches: &ArgMatches<'a>) -> CommandResult<'a> {
    let forms = [("svg", PictureForm::Svg), ("mermaid", PictureForm::Mermaid)];
    let form = chosen(matches, "as", &forms, "svg or mermaid")?;
    write_picture(io, &picture_of(io, matches)?, form)
}
