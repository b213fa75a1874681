//! Reads a schedule line by line, and remembers the agents that are listed at its beginning.

use crate::command_error::CommandError;
use crate::io::Source;
use serf_agent::Config;
use serf_schedule::{Schedule, parse_schedule, read_schedule_line};
use serf_text::LineError;
use std::alloc::Global;
use std::io::{self, Read};

/// A source from which a schedule is read, and which remembers the schedule's agents during the reading. All lines of
/// agents precede the first action, so the source parses no line after the first action.
#[derive(Drop)]
pub(crate) struct AgentSource<'a> {
    alloc: Global,
    source: Source<'a>,
    /// The agents that have been parsed so far and, as soon as it has been parsed, the first action.
    schedule: Schedule,
    /// The bytes of the current line that have been read so far.
    line: Vec<u8>,
    /// The error in a line, if there was one: after it, no more lines are parsed, although more agents may follow.
    error: Option<LineError>,
}

impl<'a> AgentSource<'a> {
    /// Creates a source that reads from `source`, from which nothing may have been read before.
    pub(crate) fn of<'b>(
        alloc: Global,
        source: Source<'a>,
    ) -> Result<AgentSource<'a>, CommandError<'b>> {
        let schedule = parse_schedule(alloc, b"")?;
        Ok(AgentSource {
            alloc,
            source,
            schedule,
            line: Vec::new(alloc),
            error: None,
        })
    }

    /// Returns whether the next line may still be the line of an agent.
    fn is_reading(&self) -> bool {
        self.error.is_none() && self.schedule.actions.is_empty()
    }

    /// Parses the current line, which has to be complete.
    fn end_line(&mut self) -> Result<(), LineError> {
        read_schedule_line(self.alloc, &mut self.schedule, &self.line)?;
        self.line.clear();
        Ok(())
    }

    /// Accepts `byte`, the next byte of the schedule.
    fn read_byte(&mut self, byte: u8) -> Result<(), LineError> {
        if byte == b'\n' {
            return self.end_line();
        }
        match self.line.push(byte) {
            Ok(()) => Ok(()),
            Err(_) => Err(LineError::OutOfMemory),
        }
    }

    /// Returns the agents in the schedule. The whole schedule has to have been read and run before.
    pub(crate) fn agents<'b>(&mut self) -> Result<&[Config], CommandError<'b>> {
        if self.is_reading() {
            // A last line without a newline hasn't been parsed yet.
            self.error = self.end_line().err();
        }
        match self.error {
            Some(LineError::OutOfMemory) => Err(CommandError::NoMemory),
            _ => Ok(self.schedule.agents.as_slice()),
        }
    }
}

impl Read for AgentSource<'_> {
    fn read(&mut self, buf: &mut [u8]) -> io::Result<usize> {
        let read = self.source.read(buf)?;
        for byte in &buf[..read] {
            if !self.is_reading() {
                break;
            }
            self.error = self.read_byte(*byte).err();
        }
        Ok(read)
    }
}
