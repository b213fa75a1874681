//! Lists the commands. The options and arguments of each command are in a separate file, together with the code that
//! runs the command.

mod clocks;
mod conform;
mod draw;
mod explain;
mod judge;
mod packets;
mod random;
mod replay;
mod timeline;
mod write;

use crate::command_error::{CommandError, CommandResult, Status};
use crate::io::Io;
use crate::options::{CommandKind, CommandRow, with_commands};
use clap::error::ErrorKind;
use clap::{ArgMatches, Command, Error};
use std::alloc::{AllocError, Global};

/// The text that follows the list of commands in the program's help.
const HELP: &str =
    "Example: serf-replay replay examples/deploy_gossiped_twice.schedule\nActions count from 1, agents from 0. For more, see man serf-replay and docs/COMMANDS.md.";

/// All commands, in the order of the help text.
const COMMANDS: [CommandRow; 11] = [
    replay::COMMAND,
    explain::COMMAND,
    draw::COMMAND,
    write::COMMAND,
    judge::COMMAND,
    timeline::COMMAND,
    conform::COMMAND,
    random::COMMAND,
    packets::DECODE,
    packets::ENCODE,
    clocks::COMMAND,
];

/// Returns the description of the whole program that clap needs.
fn program<'a>(alloc: Global) -> Result<Command<'a>, AllocError> {
    let program = Command::new(alloc, "serf-replay")
        .about(
            "Runs and explains schedules of Serf user events and queries, and checks agents and logs",
        )
        .after_help(HELP)
        .version("0.2.0")
        .subcommand_required(true)
        .bin_name("serf-replay")?;
    with_commands(alloc, program, &COMMANDS)
}

/// Returns the matches that clap finds in `words`, the first of which is the program's name.
fn found_in<'a>(alloc: Global, words: &'a [String]) -> Result<ArgMatches<'a>, Error> {
    program(alloc)?.try_get_matches_from(words)
}

/// Prints clap's text about a command line that doesn't lead to a command. The help and the version are printed to
/// standard output.
fn refuse_command_line<'a>(io: Io, error: &Error) -> CommandResult<'a> {
    if error.kind() == ErrorKind::OutOfMemory {
        return Err(CommandError::NoMemory);
    }
    match io.noted(error.print(io.rt)) {
        Err(_) => Err(CommandError::WriteError),
        Ok(()) if error.use_stderr() => Ok(Status::CommandLine),
        Ok(()) => Ok(Status::Done),
    }
}

/// Returns the command that is named `name`. If a command line names no command, clap refuses it before this function
/// is called.
fn kind_of(name: &str) -> Option<CommandKind> {
    let mut rows = COMMANDS.iter();
    rows.find(|row| row.name == name).map(|row| row.kind)
}

/// Runs the command `kind` with the options and arguments in `matches`.
fn run_command<'a>(io: Io, kind: CommandKind, matches: &ArgMatches<'a>) -> CommandResult<'a> {
    match kind {
        CommandKind::Replay => replay::run(io, matches),
        CommandKind::Decode => packets::decode(io, matches),
        CommandKind::Encode => packets::encode(io, matches),
        CommandKind::Clocks => clocks::run(io, matches),
        CommandKind::Random => random::run(io, matches),
        CommandKind::Judge => judge::run(io, matches),
        CommandKind::Timeline => timeline::run(io, matches),
        CommandKind::Explain => explain::run(io, matches),
        CommandKind::Draw => draw::run(io, matches),
        CommandKind::Write => write::run(io, matches),
        CommandKind::Conform => conform::run(io, matches),
    }
}

/// Runs the command line `words`, and returns the exit status. If standard error is a terminal, a long run shows its
/// progress on it.
pub(crate) fn run(io: Io, words: &[String]) -> Status {
    let (ended, file) = match found_in(io.alloc(), words) {
        Ok(found) => {
            let Some((name, matches)) = found.subcommand() else {
                return Status::CommandLine;
            };
            let Some(kind) = kind_of(name) else {
                return Status::CommandLine;
            };
            (run_command(io, kind, matches), matches.get_str("FILE"))
        }
        Err(error) => (refuse_command_line(io, &error), None),
    };
    match ended {
        Ok(status) => status,
        Err(failure) => failure.tell(io, file),
    }
}
