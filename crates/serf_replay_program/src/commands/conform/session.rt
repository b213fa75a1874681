//! Compares the agent on standard input and output with the reference, and shortens the list of calls at which the
//! agent fails (`--shrink`).

use super::HoldOptions;
use super::hunting::Seeds;
use super::missing::left_of;
use super::report::{HeldAgent, Report, tell_verdict};
use crate::command_error::{CommandError, CommandResult, Status};
use crate::io::Io;
use crate::options::agents_of;
use crate::progress::{CALLS, Progress};
use clap::ArgMatches;
use serf_agent::Config;
use serf_conform::{
    Case, ConformError, Pipe, Shrunk, Subject, alone_schedule, calls_of, case_of, hold, shrink,
    with_verdict,
};
use serf_schedule::{parse_schedule, write_schedule};
use serf_text::Part::Number;
use std::alloc::{AllocError, Global};
use std::io::{self, BufReader, Printer, StdinLock};

/// A comparison: the agent that is being compared, the options, and the results so far.
#[derive(Drop)]
pub(super) struct Session<'a> {
    pub(super) io: Io<'a>,
    pub(super) asked: HoldOptions<'a>,
    pub(super) report: Report<'a>,
    pub(super) pipe: Pipe<BufReader<StdinLock<'static>>, Printer<'a, Io<'a>>>,
}

/// Returns the text of the schedule with the remaining calls.
fn text_of_left(alloc: Global, config: &Config, shrunk: &Shrunk) -> Result<Vec<u8>, AllocError> {
    let schedule = alone_schedule(alloc, config, &shrunk.calls).map_err(|_| AllocError)?;
    let mut text = Vec::new(alloc);
    write_schedule(&mut text, &schedule)?;
    Ok(text)
}

impl<'a> Session<'a> {
    /// Shortens the list of an agent's calls. The last call in this list is the call that fails or the call whose
    /// `look` differs. Returns the number of calls in the original list, and the remaining calls. Neither the number
    /// nor the remaining calls include the opening.
    fn shrunk_calls(
        &mut self,
        held: &HeldAgent,
        config: &Config,
    ) -> Result<(usize, Option<Shrunk>), ConformError> {
        let (alloc, rules) = (self.io.alloc(), self.asked.rules);
        let mut progress = Progress::of(self.io, CALLS);
        let mut calls = calls_of(alloc, held.case, held.agent)?;
        let looks = held.verdict.dump.is_some() as usize;
        calls.truncate((held.verdict.calls as usize).saturating_sub(looks));
        let count = calls.len();
        let shrunk = shrink(alloc, &mut self.pipe, rules, config, calls, &mut progress)?;
        Ok((count, shrunk))
    }

    /// Prints how many calls remain, and writes the schedule with these calls to the requested file or to standard
    /// error.
    fn report_shrunk<'b>(
        &self,
        config: &Config,
        count: usize,
        shrunk: &Shrunk,
    ) -> CommandResult<'b> {
        let (left, count) = (Number(shrunk.calls.len() as u64), Number(count as u64));
        let text: &[u8] = if shrunk.is_smallest {
            b"shrunk to ~ of ~ calls\n"
        } else {
            b"shrunk to ~ of ~ calls; then the agent ended\n"
        };
        self.io.report(text, &[left, count]);
        let text = text_of_left(self.io.alloc(), config, shrunk)?;
        if let Some(path) = self.asked.save {
            return self.io.save(path, &text, Status::Refused);
        }
        self.io.say(&text);
        Ok(Status::Refused)
    }

    /// Shortens the list of calls at which an agent fails. If the agent doesn't fail when it gets only these calls, the
    /// function prints a message. Shortening the list doesn't change the exit status.
    fn shrink_failing_calls<'b>(&mut self, held: &HeldAgent) -> CommandResult<'b> {
        let Some(config) = held.case.configs.get(held.agent as usize) else {
            return Ok(Status::Refused);
        };
        match self.shrunk_calls(held, config) {
            Ok((count, Some(shrunk))) => self.report_shrunk(config, count, &shrunk),
            Ok((count, None)) => {
                let _ = eprintln!(self.io.rt; "the {count} calls don't fail by themselves");
                Ok(Status::Refused)
            }
            Err(error) => Err(CommandError::NotShrunk(error)),
        }
    }

    /// Prints a verdict, and returns the status with which the command continues. If the agent ended, or if the list of
    /// its calls was shortened, the result is an error with the final status.
    pub(super) fn conclude<'b>(&mut self, held: &HeldAgent) -> CommandResult<'b> {
        let came = tell_verdict(self.io, &mut self.report, held);
        match came {
            Ok(Status::Refused) if self.asked.shrinks => {
                Err(CommandError::Reported(self.shrink_failing_calls(held)?))
            }
            Ok(Status::Device) => Err(CommandError::Reported(Status::Device)),
            _ => came,
        }
    }

    /// Compares agent number `agent` with the reference.
    fn hold_agent<'b>(
        &mut self,
        text: &[u8],
        case: &Case,
        agent: u64,
        config: &Config,
    ) -> CommandResult<'b> {
        let subject = Subject {
            rules: self.asked.rules,
            agent,
            config,
        };
        let (actions, trace) = (case.actions.as_slice(), &case.trace);
        let outcome = hold(self.io.alloc(), &mut self.pipe, &subject, actions, trace);
        let verdict = outcome.map_err(|error| CommandError::NotHeld("agent", agent, error))?;
        self.report.counts = with_verdict(self.report.counts, &verdict);
        self.conclude(&HeldAgent {
            seed: None,
            text,
            case,
            agent,
            verdict: &verdict,
        })
    }

    /// Compares agent number `only` or, if `only` is `None`, all agents. Returns the largest of the compared agents'
    /// statuses.
    fn hold_agents<'b>(
        &mut self,
        text: &[u8],
        case: &Case,
        only: Option<u64>,
    ) -> CommandResult<'b> {
        let mut status = Status::Done;
        self.report.schedules = 1;
        for (place, config) in case.configs.iter().enumerate() {
            let number = place as u64;
            if only.is_none() || only == Some(number) {
                status = status.max(self.hold_agent(text, case, number, config)?);
            }
        }
        Ok(status)
    }

    /// Prints the results for all agents, and returns the exit status. If `ended` is an error, the function reports
    /// this error first.
    pub(super) fn finish<'b>(&mut self, ended: CommandResult) -> CommandResult<'b> {
        let status = match ended {
            Ok(status) => status,
            Err(error) => error.tell(self.io, None),
        };
        self.report.finish(self.io, status)
    }
}

/// The schedules on which agents are compared.
#[derive(Clone, Copy)]
pub(super) enum Against<'a> {
    /// A schedule with its text and its run. If a number is given, only the agent with this number is compared.
    Schedule(&'a [u8], &'a Case, Option<u64>),
    Seeds(&'a Seeds),
}

/// Compares an agent on standard input and output, and reports the results.
pub(super) fn hold_against<'b>(io: Io, asked: HoldOptions, against: Against) -> CommandResult<'b> {
    let reader = BufReader::new(io.alloc(), io.rt.reader()).map_err(|_| CommandError::NoMemory)?;
    let mut session = Session {
        io,
        asked,
        report: Report::new(io.alloc(), asked.report),
        pipe: Pipe {
            reader,
            writer: io::writer(&io),
        },
    };
    let ended = match against {
        Against::Schedule(text, case, only) => session.hold_agents(text, case, only),
        Against::Seeds(seeds) => session.hold_kinds(seeds),
    };
    session.finish(ended)
}

/// Runs the schedule in `text`, and returns the run.
fn case_in<'a>(io: Io, text: &[u8]) -> Result<Case, CommandError<'a>> {
    let schedule = parse_schedule(io.alloc(), text)?;
    let case = case_of(io.alloc(), schedule)?;
    if case.configs.is_empty() {
        let _ = eprintln!(io.rt; "the schedule has no agents");
    }
    Ok(case)
}

/// Returns the text of the schedule on which agents are compared, which is the schedule in the file `path` without the
/// calls that the agents don't support. If the command line requests it, the function also writes this text to a file.
fn text_in<'a>(io: Io, path: &'a str, asked: HoldOptions<'a>) -> Result<Vec<u8>, CommandError<'a>> {
    let text = io.file(path)?.of_schedule().text()?;
    let text = left_of(io.alloc(), text, asked.missing)?;
    if let Some(save) = asked.save
        && !asked.shrinks
    {
        io.save(save, &text, Status::Done)?;
    }
    Ok(text)
}

/// Compares the agents of the schedule in a file with the reference. If the schedule contains a bad line, the function
/// refuses it before it writes any call.
pub(super) fn hold_file<'a>(
    io: Io,
    matches: &ArgMatches<'a>,
    path: &'a str,
    asked: HoldOptions<'a>,
) -> CommandResult<'a> {
    let text = text_in(io, path, asked)?;
    let case = case_in(io, &text)?;
    let only = agents_of(io.alloc(), matches, &text)?.first().copied();
    hold_against(io, asked, Against::Schedule(&text, &case, only))
}
