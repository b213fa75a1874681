//! The command `clocks` prints the clocks that a program restores from a snapshot.

use crate::command_error::{CommandError, CommandResult, Status};
use crate::io::{Io, name_of};
use crate::options::OptionKind::{Flag, Needed, Word};
use crate::options::{CommandKind, CommandRow, is_json, rows};
use clap::ArgMatches;
use serf_json::Member::{self, Absent, Number};
use serf_json::write_object;
use serf_judge::{after_leave, is_own_snapshot, is_snapshot, serf_clocks};
use serf_snapshot::{Clocks, read_clocks};
use serf_text::Part::Text;
use serf_text::{clocks_text, write_template};
use std::alloc::{AllocError, Global};

/// The command's options and arguments.
pub(crate) const COMMAND: CommandRow = CommandRow {
    kind: CommandKind::Clocks,
    name: "clocks",
    about: "Prints the clocks that are restored from a snapshot",
    example: "Example: serf-replay clocks local.snapshot",
    rows: rows! {
        "FILE" Needed => "The snapshot; standard input if it is `-`";
        "format" Word("FORM") => "`text` (the default), or `json`";
        "own" Flag => "Prints the clocks that an agent of this project restores, whoever wrote the snapshot";
    },
};

/// Appends the lines that show `clocks`, each of which begins with `word`.
fn write_clocks(
    out: &mut Vec<u8>,
    alloc: Global,
    word: &str,
    clocks: Clocks,
) -> Result<(), AllocError> {
    let clocks = clocks_text(alloc, clocks)?;
    for line in clocks.split_inclusive(|byte| *byte == b'\n') {
        write_template(out, b"~~", &[Text(word.as_bytes()), Text(line)])?;
    }
    Ok(())
}

/// Returns text with the clocks that programs restore from a snapshot. If `is_own` is true, these are the clocks that
/// an agent of this project restores. If `is_own` is false, these are the clocks that stock Serf restores with
/// `-rejoin` and, if the snapshot contains a line `leave`, also those that it restores without `-rejoin`.
fn all_clocks(alloc: Global, snapshot: &[u8], is_own: bool) -> Result<Vec<u8>, AllocError> {
    let mut out = Vec::new(alloc);
    if is_own {
        write_clocks(&mut out, alloc, "", read_clocks(snapshot))?;
        return Ok(out);
    }
    write_clocks(&mut out, alloc, "", serf_clocks(snapshot, true))?;
    if after_leave(snapshot).len() < snapshot.len() {
        let clocks = serf_clocks(snapshot, false);
        write_clocks(&mut out, alloc, "without -rejoin: ", clocks)?;
    }
    Ok(out)
}

/// Appends an object with the clocks that `reader` restores.
fn write_object_of<'a>(
    out: &mut Vec<u8>,
    reader: &'a str,
    rejoins: Member<'a>,
    clocks: Clocks,
) -> Result<(), AllocError> {
    let members = [
        Member::Text(b"reader", reader.as_bytes()),
        rejoins,
        Number(b"clock", clocks.member_clock),
        Number(b"event_clock", clocks.event_clock),
        Number(b"query_clock", clocks.query_clock),
    ];
    write_object(out, b"clocks", &members)
}

/// Returns objects with the clocks that programs restore from a snapshot, for the same programs as in [`all_clocks`].
fn clock_objects(alloc: Global, snapshot: &[u8], is_own: bool) -> Result<Vec<u8>, AllocError> {
    let mut out = Vec::new(alloc);
    if is_own {
        write_object_of(&mut out, "own", Absent, read_clocks(snapshot))?;
    } else if after_leave(snapshot).len() == snapshot.len() {
        write_object_of(&mut out, "serf", Absent, serf_clocks(snapshot, true))?;
    } else {
        let (rejoined, started) = (serf_clocks(snapshot, true), serf_clocks(snapshot, false));
        write_object_of(&mut out, "serf", Member::Flag(b"rejoin", true), rejoined)?;
        write_object_of(&mut out, "serf", Member::Flag(b"rejoin", false), started)?;
    }
    Ok(out)
}

/// If `text`, which was read from `path` or from standard input, contains no line of a snapshot, refuses this text.
pub(super) fn check_snapshot<'a>(path: &'a str, text: &[u8]) -> Result<(), CommandError<'a>> {
    if is_snapshot(text) {
        return Ok(());
    }
    let (name, what) = (name_of(Some(path)), "no line of a snapshot");
    Err(CommandError::File(name, what, Status::Refused))
}

/// Prints the clocks that programs restore from the snapshot in a file, or on standard input.
pub(super) fn run<'a>(io: Io, matches: &ArgMatches<'a>) -> CommandResult<'a> {
    let is_json = is_json(matches)?;
    let file = matches.get_str("FILE").unwrap_or("-");
    let text = {
        let snapshot = io.source(Some(file))?.text()?;
        check_snapshot(file, &snapshot)?;
        let is_own = matches.get_flag("own") || is_own_snapshot(&snapshot);
        if is_json {
            clock_objects(io.alloc(), &snapshot, is_own)
        } else {
            all_clocks(io.alloc(), &snapshot, is_own)
        }
    };
    io.finish(&text?)
}
