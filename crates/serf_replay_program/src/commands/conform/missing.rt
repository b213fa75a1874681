//! Implements `conform --without`, which leaves out the calls that an agent doesn't support.

use crate::command_error::CommandError;
use crate::options::bad_word;
use clap::ArgMatches;
use serf_conform::{MissingCalls, without};
use serf_schedule::{Bare, Command, Verb, command_in, parse_schedule, write_schedule};
use std::alloc::Global;

/// The value that is used when no calls are missing.
const NONE: MissingCalls = MissingCalls {
    fire: false,
    deliver: false,
    state: false,
    merge: false,
    query: false,
    respond: false,
    close: false,
    save: false,
    compact: false,
    restart: false,
    breaks: false,
};

/// Adds the call that `command` names to `missing`. If `command` is a line without a call, returns `None`.
fn with_call(missing: MissingCalls, command: Command) -> Option<MissingCalls> {
    let mut more = missing;
    match command {
        Command::Agent | Command::Inject => return None,
        Command::Query => more.query = true,
        Command::Act(Verb::Fire) => more.fire = true,
        Command::Act(Verb::Deliver) => more.deliver = true,
        Command::Act(Verb::Merge) => more.merge = true,
        Command::Act(Verb::Respond) => more.respond = true,
        Command::Act(Verb::Restart) => more.restart = true,
        Command::Act(Verb::Break) => more.breaks = true,
        Command::Act(Verb::Close) => more.close = true,
        Command::Act(Verb::Bare(Bare::State)) => more.state = true,
        Command::Act(Verb::Bare(Bare::Save)) => more.save = true,
        Command::Act(Verb::Bare(Bare::Compact)) => more.compact = true,
    }
    Some(more)
}

/// Returns the calls in `word`, which are separated by commas. If a part of `word` isn't a call, returns `None`.
fn calls_in(word: &str) -> Option<MissingCalls> {
    let mut missing = NONE;
    for name in word.split(',') {
        missing = with_call(missing, command_in(name.as_bytes())?)?;
    }
    Some(missing)
}

/// Returns the calls that, according to the command line, the agent doesn't support. If the command line names no
/// calls, returns `None`.
pub(super) fn missing_of<'a>(
    matches: &ArgMatches,
) -> Result<Option<MissingCalls>, CommandError<'a>> {
    let Some(word) = matches.get_str("without") else {
        return Ok(None);
    };
    let words = "calls with commas between them, such as query,respond,close";
    match calls_in(word) {
        Some(missing) => Ok(Some(missing)),
        None => Err(bad_word("without", words)),
    }
}

/// Returns the text of the schedule `text` without the calls that an agent doesn't support. If the agent supports all
/// calls, the result is `text` itself.
pub(super) fn left_of<'a>(
    alloc: Global,
    text: Vec<u8>,
    missing: Option<MissingCalls>,
) -> Result<Vec<u8>, CommandError<'a>> {
    let Some(missing) = missing else {
        return Ok(text);
    };
    let schedule = parse_schedule(alloc, &text)?;
    let Ok(left) = without(alloc, schedule, missing) else {
        return Err(CommandError::NoMemory);
    };
    let mut text = Vec::new(alloc);
    write_schedule(&mut text, &left)?;
    Ok(text)
}
