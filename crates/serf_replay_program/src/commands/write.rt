//! The command `write` converts a schedule that a person wrote into the form that `replay` reads.

use crate::command_error::{CommandError, CommandResult};
use crate::io::Io;
use crate::options::OptionKind::Place;
use crate::options::{CommandKind, CommandRow, rows};
use crate::progress::{BYTES, Progress};
use clap::ArgMatches;
use serf_write::{WriteError, write};

/// The command's options and arguments.
pub(crate) const COMMAND: CommandRow = CommandRow {
    kind: CommandKind::Write,
    name: "write",
    about: "Makes a schedule from a text with names, quoted texts, labels and units",
    example: "Example: serf-replay write examples/deploy_gossiped_twice.written | serf-replay replay",
    rows: rows! {
        "FILE" Place => "The text; standard input if it is left out or `-`";
    },
};

/// Converts the text in a file, or on standard input, to a schedule, and returns the schedule. If a line is bad, the
/// function reports which word is wrong, and which words are allowed in its place.
pub(super) fn schedule_of<'a>(io: Io, file: Option<&'a str>) -> Result<Vec<u8>, CommandError<'a>> {
    let text = io.source(file)?.text()?;
    match write(io.alloc(), &text, &mut Progress::of(io, BYTES)) {
        Ok(schedule) => Ok(schedule),
        Err(WriteError::BadLine { line, error }) => Err(CommandError::BadWord(line, error)),
        Err(WriteError::OutOfMemory) => Err(CommandError::NoMemory),
    }
}

/// Converts the text in a file, or on standard input, to a schedule, and writes the schedule to standard output.
pub(super) fn run<'a>(io: Io, matches: &ArgMatches<'a>) -> CommandResult<'a> {
    let schedule = schedule_of(io, matches.get_str("FILE"))?;
    io.finish(&schedule)
}
