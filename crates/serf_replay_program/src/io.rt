//! Provides the commands with access to files, to the standard streams, and to memory.

ghost use Rattle.std.specs.Prelude.{◌≡◌, ◌≤◌, IfOk, length};

use crate::command_error::{CommandError, CommandResult, Status};
use crate::progress::{BYTES, Progress};
use clap::ArgMatches;
use serf_schedule::Watch;
use serf_text::{Part, read_input, write_output, write_template};
use std::alloc::Global;
use std::cell::Cell;
use std::fmt::Display;
use std::fs::{self, File};
use std::io::{self, ErrorKind, IsTerminal, Read, StdinLock};

/// Access to files, the standard streams and memory.
#[derive(Clone, Copy)]
pub(crate) struct Io<'a> {
    pub(crate) rt: &'a HostRuntime,
    /// Whether standard error is a terminal.
    pub(crate) is_terminal: bool,
    /// Whether an agent reads standard output. If the agent has ended, writing bytes that it no longer reads is not an
    /// error, because the program notices the agent's end when it reads the replies.
    pub(crate) has_agent: bool,
    /// The error of the last device call that failed, or `None` if none has failed.
    pub(crate) last_error: &'a Cell<Option<io::Error>>,
}

/// The byte order mark of UTF-8.
const MARK: &[u8] = b"\xef\xbb\xbf";

/// The place from which a command reads its input.
#[derive(Drop)]
enum Input {
    Standard(StdinLock<'static>),
    Opened(File),
}

impl Read for Input {
    fn read(&mut self, buf: &mut [u8]) -> io::Result<usize> {
        match self {
            Input::Standard(input) => input.read(buf),
            Input::Opened(file) => file.read(buf),
        }
    }
}

/// The opened input of a command. If the input is a schedule, a byte order mark is skipped, and each carriage return is
/// replaced with a space.
#[derive(Drop)]
pub(crate) struct Source<'a> {
    io: Io<'a>,
    input: Input,
    is_schedule: bool,
    /// The number of bytes that have been read so far.
    count: u64,
    progress: Progress<'a>,
}

impl Read for Source<'_> {
    fn read(&mut self, buf: &mut [u8]) -> io::Result<usize> {
        let read = self.read_more(buf)?;
        self.count = self.count.saturating_add(read as u64);
        self.progress.acted(self.count, u64::MAX);
        if self.is_schedule && buf[..read].contains(&b'\r') {
            blank_returns(&mut buf[..read]);
        }
        Ok(read)
    }
}

/// Replaces each carriage return with a space.
fn blank_returns(text: &mut [u8]) {
    for byte in text.iter_mut() {
        if *byte == b'\r' {
            *byte = b' ';
        }
    }
}

impl<'a> Source<'a> {
    /// Turns this source into the source of a schedule, which skips a byte order mark and returns spaces in place of
    /// carriage returns.
    pub(crate) fn of_schedule(mut self) -> Source<'a> {
        self.is_schedule = true;
        self
    }

    /// Reads more bytes. The function skips a byte order mark at the beginning of a schedule, even if the mark arrives
    /// in several reads.
    fn read_more(&mut self, buf: &mut [u8]) -> io::Result<usize>
        ensures { IfOk result (λ n. n ≤ length buf.old) }
    {
        let read = self.io.noted(self.input.read(buf))?;
        if !self.is_schedule || self.count > 0 {
            return Ok(read);
        }
        let read = self.read_mark(buf, read)?;
        let read = self.read_mark(buf, read)?;
        if read < MARK.len() || !buf[..read].starts_with(MARK) {
            return Ok(read);
        }
        if read == MARK.len() {
            return self.io.noted(self.input.read(buf));
        }
        buf.copy_within(MARK.len()..read, 0);
        Ok(read - MARK.len())
    }

    /// If the first `read` bytes of `buf` are only a part of a byte order mark, reads more bytes. Returns the total
    /// number of bytes in `buf` that have been read.
    fn read_mark(&mut self, buf: &mut [u8], read: usize) -> io::Result<usize>
        requires { read ≤ length buf.old }
        ensures { IfOk result (λ n. n ≤ length buf.old) }
    {
        if read == 0 || read >= MARK.len() || !MARK.starts_with(&buf[..read]) {
            return Ok(read);
        }
        let more = self.io.noted(self.input.read(&mut buf[read..]))?;
        Ok(read + more)
    }

    /// Reads the source to its end, and returns all bytes that were read.
    pub(crate) fn text<'b>(mut self) -> Result<Vec<u8>, CommandError<'b>> {
        Ok(read_input(self.io.alloc(), &mut self)?)
    }
}

/// Prints to standard output.
impl Print for Io<'_> {
    fn print<D: Display + Drop>(&self, value: D) -> io::Result<()> {
        self.noted(self.rt.print(value))
    }

    fn println<D: Display + Drop>(&self, value: D) -> io::Result<()> {
        self.noted(self.rt.println(value))
    }

    fn write_all(&self, bytes: &[u8]) -> io::Result<()> {
        self.noted(self.rt.write_all(bytes))
    }

    fn write_some(&self, bytes: &[u8]) -> io::Result<usize> {
        let outcome = self.noted(self.rt.write_some(bytes));
        if outcome.is_err() && self.has_agent && self.has_no_reader() {
            return Ok(bytes.len());
        }
        outcome
    }
}

/// Returns the name by which messages refer to a file, or `standard input` if there is no file.
pub(crate) fn name_of(file: Option<&str>) -> &str {
    match file {
        None | Some("-") => "standard input",
        Some(path) => path,
    }
}

impl<'a> Io<'a> {
    /// Returns the allocator of the program.
    pub(crate) fn alloc(self) -> Global {
        self.rt.alloc()
    }

    /// Returns the outcome of a device call unchanged, and records the error if the call failed.
    pub(crate) fn noted<T>(self, outcome: io::Result<T>) -> io::Result<T>
        ensures { result ≡ outcome }
    {
        if let Err(error) = &outcome {
            self.last_error.set(Some(*error));
        }
        outcome
    }

    /// Returns whether the last error came from a write to a pipe from which nobody reads any more.
    pub(crate) fn has_no_reader(self) -> bool {
        matches!(self.last_error.get(), Some(error) if error.kind() == ErrorKind::BrokenPipe)
    }

    /// Returns a source that reads from `input`, and shows on a terminal how many bytes it has read.
    fn source_of(self, input: Input) -> Source<'a> {
        Source {
            io: self,
            input,
            is_schedule: false,
            count: 0,
            progress: Progress::of(self, BYTES),
        }
    }

    /// Opens a file for reading.
    pub(crate) fn file<'b>(self, path: &'b str) -> Result<Source<'a>, CommandError<'b>> {
        let outcome = self.noted(fs::open(self.rt, path));
        let file = outcome.map_err(|error| match error.kind() {
            ErrorKind::NotFound => CommandError::File(path, "no such file", Status::Device),
            ErrorKind::PermissionDenied => CommandError::File(
                path,
                "permission denied",
                Status::Device,
            ),
            _ => CommandError::ReadError(Some(path)),
        })?;
        Ok(self.source_of(Input::Opened(file)))
    }

    /// Opens a file for reading. If there is no file, or if its name is `-`, opens standard input instead.
    pub(crate) fn source<'b>(self, file: Option<&'b str>) -> Result<Source<'a>, CommandError<'b>> {
        match file {
            None | Some("-") => {
                let reader = self.rt.reader();
                // No progress is shown when a person types the input, because that person knows how long it is.
                let is_terminal = self.is_terminal && !reader.is_terminal();
                let io = Io {
                    is_terminal,
                    ..self
                };
                Ok(io.source_of(Input::Standard(reader)))
            }
            Some(path) => self.file(path),
        }
    }

    /// Opens a schedule for reading, either in the file that the command line names or on standard input.
    pub(crate) fn schedule<'b>(
        self,
        matches: &ArgMatches<'b>,
    ) -> Result<Source<'a>, CommandError<'b>> {
        Ok(self.source(matches.get_str("FILE"))?.of_schedule())
    }

    /// Writes `text` to standard error.
    pub(crate) fn say(self, text: &[u8]) {
        if let Ok(text) = str::from_utf8(text) {
            let _ = eprint!(self.rt; "{text}");
        }
    }

    /// Writes `text` to standard error, with `parts` in place of its placeholders. If there is no memory for the
    /// complete text, the function reports that memory ran out instead.
    pub(crate) fn report(self, text: &[u8], parts: &[Part]) {
        let mut out = Vec::new(self.alloc());
        match write_template(&mut out, text, parts) {
            Ok(()) => self.say(&out),
            Err(_) => self.say(b"out of memory\n"),
        }
    }

    /// Writes `text` to standard output.
    pub(crate) fn finish<'b>(self, text: &[u8]) -> CommandResult<'b> {
        match write_output(&mut io::writer(&self), text) {
            Ok(()) => Ok(Status::Done),
            Err(_) => Err(CommandError::WriteError),
        }
    }

    /// Writes `text` to the file `path`, and returns `status` if the write succeeds.
    pub(crate) fn save<'b>(self, path: &str, text: &[u8], status: Status) -> CommandResult<'b> {
        match self.noted(fs::write(self.rt, path, text)) {
            Ok(()) => Ok(status),
            Err(_) => Err(CommandError::WriteError),
        }
    }
}
