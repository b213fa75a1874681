//! Defines how a command ends: its exit status and, if it ends with an error, the line on standard error.

use crate::io::{Io, name_of};
use serf_conform::ConformError;
use serf_draw::DrawError;
use serf_schedule::{ReplayError, ScheduleError};
use serf_text::{Cause, InputError, StreamError};
use serf_write::WordError as BadWord;
use std::alloc::AllocError;
use std::io;

/// The exit status of the program. The variants have the values 0 to 3, in the order in which they are listed.
#[derive(Clone, Copy, PartialEq, Eq, PartialOrd, Ord)]
pub(crate) enum Status {
    /// The command was carried out, or help was requested.
    Done,
    /// The input was refused, a promise is broken, or an agent disagrees.
    Refused,
    /// The command line was refused.
    CommandLine,
    /// A device failed, or memory ran out.
    Device,
}

impl Status {
    /// Returns the status of a command that read its input: `Refused` if it refused a part of the input, and otherwise
    /// `Done`.
    pub(crate) fn refused_if(is_refused: bool) -> Status {
        if is_refused {
            Status::Refused
        } else {
            Status::Done
        }
    }
}

/// The reason why a command failed. The input of a command is the file that its argument `FILE` names, or standard
/// input.
#[derive(Clone, Copy)]
pub(crate) enum CommandError<'a> {
    NoMemory,
    /// The file with the given name could not be read or, if no name is given, the command's input could not be read.
    ReadError(Option<&'a str>),
    /// The input is too long.
    TooLong,
    /// The command could not write to standard output or to a file.
    WriteError,
    /// A line of a schedule is bad. The values are the number of the bad line, counted from 1, and the cause.
    BadLine(u64, Cause),
    /// A line of a stream is bad. The values are the number of the bad line, counted from 1, and a word for the cause.
    BadStreamLine(u64, &'static str),
    /// A line of a written schedule contains a word at a place where it isn't allowed. The values are the number of the
    /// line, counted from 1, and the bad word.
    BadWord(u64, BadWord),
    /// A line of a log has too many bytes. The values are the log's name, which is `None` if there is only one log, and
    /// the number of the line, counted from 1.
    LongLogLine(Option<&'a str>, u64),
    /// A file is refused. The values are the name of the file, the reason, and the exit status.
    File(&'a str, &'static str, Status),
    /// The command line is refused. The reason consists of the five texts, joined together.
    CommandLine(&'a str, &'a str, &'a str, &'a str, &'a str),
    /// A number on the command line isn't the number of any agent in the schedule. The values are the word with this
    /// number, and how many agents the schedule has.
    NoAgent(&'a str, u64),
    /// The comparison on a schedule failed before the end of the schedule. The values are the word `seed` or `agent`,
    /// the number of this seed or agent, and the reason.
    NotHeld(&'static str, u64, ConformError),
    /// The calls at which an agent fails could not be shortened.
    NotShrunk(ConformError),
    /// The command has already reported everything, and ends with the given status.
    Reported(Status),
}

/// The result of a command.
pub(crate) type CommandResult<'a> = Result<Status, CommandError<'a>>;

/// Returns the error for a command line that is refused for the reason `why`.
pub(crate) fn command_line<'a>(why: &'a str) -> CommandError<'a> {
    CommandError::CommandLine(why, "", "", "", "")
}

/// Returns the error of a command that reads a stream. The argument `word` is the word for the error in a bad line of
/// the stream.
pub(crate) fn stream_error<'a, F: Copy>(
    error: StreamError<F>,
    word: &'static str,
) -> CommandError<'a> {
    match error {
        StreamError::ReadError => CommandError::ReadError(None),
        StreamError::BadLine { line, .. } => CommandError::BadStreamLine(line, word),
        StreamError::LineTooLong { line } => CommandError::BadStreamLine(line, "TooLong"),
        StreamError::OutOfMemory => CommandError::NoMemory,
        StreamError::WriteError => CommandError::WriteError,
    }
}

impl From<AllocError> for CommandError<'_> {
    fn from(_: AllocError) -> Self {
        CommandError::NoMemory
    }
}

impl From<InputError> for CommandError<'_> {
    fn from(error: InputError) -> Self {
        match error {
            InputError::ReadError => CommandError::ReadError(None),
            InputError::ReadTooLong => CommandError::TooLong,
            InputError::OutOfMemory => CommandError::NoMemory,
        }
    }
}

impl From<ScheduleError> for CommandError<'_> {
    fn from(error: ScheduleError) -> Self {
        match error {
            ScheduleError::BadLine { line, cause } => CommandError::BadLine(line, cause),
            ScheduleError::OutOfMemory => CommandError::NoMemory,
        }
    }
}

impl From<ReplayError> for CommandError<'_> {
    fn from(error: ReplayError) -> Self {
        match error {
            ReplayError::BadLine { line, cause } => CommandError::BadLine(line, cause),
            ReplayError::ReadTooLong => CommandError::TooLong,
            ReplayError::ReadError => CommandError::ReadError(None),
            ReplayError::WriteError => CommandError::WriteError,
            ReplayError::OutOfMemory => CommandError::NoMemory,
        }
    }
}

impl From<StreamError<Cause>> for CommandError<'_> {
    fn from(error: StreamError<Cause>) -> Self {
        match error {
            StreamError::BadLine { line, error } => CommandError::BadLine(line, error),
            other => stream_error(other, ""),
        }
    }
}

impl From<DrawError> for CommandError<'_> {
    fn from(error: DrawError) -> Self {
        match error {
            DrawError::BadLine { line, cause } => CommandError::BadLine(line, cause),
            DrawError::NoAgent { .. } => command_line("--agent: no agent of the schedule"),
            DrawError::OutOfMemory => CommandError::NoMemory,
        }
    }
}

/// Explains why a line of a schedule is bad.
fn meaning_of(cause: Cause) -> &'static str {
    match cause {
        Cause::UnknownWord => {
            "a line begins with agent, fire, deliver, state, merge, query, respond, restart, break, inject, close, save or compact; if the text has labels, convert it with serf-replay write first"
        }
        Cause::LateAgent => "the lines of all agents must be before the first action",
        Cause::WordCount => {
            "the line has more or fewer words than its command accepts; if the text has names, convert it with serf-replay write first"
        }
        Cause::BadWord(_) => {
            "the command doesn't accept this word, counted with the command as word 1 (docs/SPEC.md, Schedules); if the text has names, convert it with serf-replay write first"
        }
        Cause::BadConfig => {
            "a name must have 1 to 128 bytes, the limit can be at most 9216, and the other numbers of an agent must be 1 to 65536"
        }
        Cause::NameTwice => "an agent on an earlier line has this name",
    }
}

/// Writes the line that reports a failed device. If the system reported a cause, the line contains it.
fn write_device_error(io: Io, name: &str, what: &str) -> io::Result<()> {
    match io.last_error.get() {
        Some(cause) => eprintln!(io.rt; "{name}{what}: {cause}"),
        None => eprintln!(io.rt; "{name}{what}"),
    }
}

impl CommandError<'_> {
    /// Returns the exit status of a command that ends with this error.
    fn status(self) -> Status {
        match self {
            // If a reply is too long, the agent disagrees with the reference.
            CommandError::NotHeld(_, _, ConformError::ReplyTooLong)
            | CommandError::NotShrunk(ConformError::ReplyTooLong) => Status::Refused,
            CommandError::NoMemory
            | CommandError::ReadError(_)
            | CommandError::WriteError
            | CommandError::NotHeld(..)
            | CommandError::NotShrunk(_) => Status::Device,
            CommandError::CommandLine(..) | CommandError::NoAgent(..) => Status::CommandLine,
            CommandError::File(_, _, status) | CommandError::Reported(status) => status,
            _ => Status::Refused,
        }
    }

    /// Writes the line that reports this error to standard error. The argument `file` is the name of the command's
    /// input.
    fn write_line(self, io: Io, file: Option<&str>) {
        let rt = io.rt;
        let _ = match self {
            CommandError::NoMemory => eprintln!(rt; "out of memory"),
            CommandError::ReadError(path) => {
                write_device_error(io, name_of(path.or(file)), ": read failed")
            }
            CommandError::TooLong => eprintln!(rt;
                "the input is too long: it has more than 16777216 bytes"
            ),
            CommandError::WriteError if io.has_no_reader() => Ok(()),
            CommandError::WriteError => write_device_error(io, "", "write failed"),
            CommandError::BadLine(line, cause) => eprintln!(rt; "bad line {line} {cause}"),
            CommandError::BadStreamLine(line, word) => eprintln!(rt; "bad line {line} {word}"),
            CommandError::BadWord(line, BadWord { place, expected }) => {
                eprintln!(rt; "bad line {line} word {place}: {expected}")
            }
            CommandError::LongLogLine(None, line) => eprintln!(rt; "bad line {line} TooLong"),
            CommandError::LongLogLine(Some(log), line) => eprintln!(rt;
                "{log}: bad line {line} TooLong"
            ),
            CommandError::File(path, what, _) => eprintln!(rt; "{path}: {what}"),
            CommandError::CommandLine(a, b, c, d, e) => eprintln!(rt; "error: {a}{b}{c}{d}{e}"),
            CommandError::NoAgent(agent, count) => eprintln!(rt;
                "error: --agent {agent}: the schedule has {count} agents, counted from 0"
            ),
            CommandError::NotHeld(what, number, error) => eprintln!(rt; "{what} {number}: {error}"),
            CommandError::NotShrunk(error) => eprintln!(rt;
                "the schedule can't be shortened: {error}"
            ),
            CommandError::Reported(_) => Ok(()),
        };
    }

    /// Reports on standard error why a command ended, and returns the exit status. If standard output is a pipe from
    /// which nobody reads any more, for example because `head` has ended, the function reports nothing. On a terminal,
    /// a second line explains what is wrong with a bad line. If the file seems to be a written schedule, the last line
    /// shows the command that reads written schedules.
    pub(crate) fn tell(self, io: Io, file: Option<&str>) -> Status {
        self.write_line(io, file);
        let meaning = match self {
            CommandError::BadLine(_, cause) => meaning_of(cause),
            CommandError::BadStreamLine(_, "BadHex") =>
                "a packet must be in hex digits, two for each byte",
            CommandError::BadStreamLine(..) => "a line can have at most 16777216 bytes",
            _ => "",
        };
        if io.is_terminal && !meaning.is_empty() {
            let _ = eprintln!(io.rt; "{meaning}");
        }
        if let CommandError::BadLine(..) = self
            && let Some(path) = file
            && path.as_bytes().ends_with(b".written")
        {
            let _ = eprintln!(io.rt;
                "if this is a written schedule, run: serf-replay write {path} | serf-replay replay"
            );
        }
        self.status()
    }
}
