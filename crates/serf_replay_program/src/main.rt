//! The program `serf-replay` runs the schedule of a whole cluster and prints the trace of the run. Its other commands
//! explain schedules, and check agents and logs.
#![tactic(auto)]

mod agent_source;
mod command_error;
mod commands;
mod io;
mod options;
mod progress;

use command_error::{CommandError, command_line};
use commands::run;
use io::Io;
use std::cell::Cell;
use std::io::{ErrorKind, IsTerminal};
use std::process::ExitCode;

/// Returns the words of the command line. The first of these words is the program's name.
fn words_of(io: Io) -> Result<Vec<String>, CommandError<'static>> {
    match std::env::args(io.rt) {
        Ok(args) => Ok(args.collect::<Vec<String>>(io.alloc())?),
        Err(error) if error.kind() == ErrorKind::OutOfMemory => Err(CommandError::NoMemory),
        Err(_) => Err(command_line("an argument is not valid UTF-8")),
    }
}

fn main(rt: HostRuntime) -> ExitCode {
    let last_error = Cell::new(None);
    let io = Io {
        rt: &rt,
        is_terminal: rt.stderr().is_terminal(),
        has_agent: false,
        last_error: &last_error,
    };
    let status = match words_of(io) {
        Ok(words) => run(io, &words),
        Err(failure) => failure.tell(io, None),
    };
    ExitCode::from(status as u8)
}
