//! Describes command lines: the options and arguments of each command, in the form of rows, and the meanings of the
//! words that options accept.

use crate::command_error::CommandError;
use clap::builder::ValueParser;
use clap::{Arg, ArgAction, ArgMatches, Command};
use hex::FromHexError;
use serf_agent::Config;
use serf_schedule::parse_schedule;
use std::alloc::{AllocError, Global};

/// An option or an argument of a command.
#[derive(Clone, Copy)]
pub(crate) struct OptionRow {
    /// The name of the option without its hyphens, or the name of the argument in the help text.
    pub(crate) name: &'static str,
    pub(crate) takes: OptionKind,
    pub(crate) help: &'static str,
}

/// The kind of an option or argument, which determines what words are accepted and what the help text shows after the
/// name.
#[derive(Clone, Copy)]
pub(crate) enum OptionKind {
    /// An argument of one word, which may be left out.
    Place,
    /// An argument of one word, which is required.
    Needed,
    /// An argument that is a number, which is required.
    NeededNumber,
    /// An argument of any number of words.
    Places,
    /// An option without a value.
    Flag,
    /// An option with one word as its value.
    Word(&'static str),
    /// An option with one word as its value, which may be repeated.
    Words(&'static str),
    /// An option with a number as its value, within these bounds.
    Number(&'static str, u64, u64),
}

/// The kinds of commands. The function `run_command` matches all of these kinds, so it can't forget any of them.
#[derive(Clone, Copy)]
pub(crate) enum CommandKind {
    Replay,
    Explain,
    Draw,
    Write,
    Judge,
    Timeline,
    Conform,
    Random,
    Decode,
    Encode,
    Clocks,
}

/// A command with its options and arguments, in the order of its help text.
#[derive(Clone, Copy)]
pub(crate) struct CommandRow {
    pub(crate) kind: CommandKind,
    pub(crate) name: &'static str,
    pub(crate) about: &'static str,
    pub(crate) example: &'static str,
    pub(crate) rows: &'static [OptionRow],
}

/// Makes the rows of a command. Each row is given as one line, with a name, a kind and a help text.
macro_rules! rows {
    ($($name:literal $takes:expr => $help:expr;)*) => {
        &[$($crate::options::OptionRow { name: $name, takes: $takes, help: $help }),*]
    };
}

pub(crate) use rows;

/// The help text of the argument that names a schedule.
pub(crate) const SCHEDULE: &str = "The schedule; standard input if it is left out or `-`";

/// Expands to the names of the kinds of random schedules, followed by the words `$last`.
macro_rules! kinds {
    ($last:literal) => {
        concat!(
            "mixed (the default), tiny, merges, restarts, devices, injections, queries, limits, exhaustion, per-time, compactions, gossip, spellings, kept",
            $last
        )
    };
}

/// The names of the kinds of random schedules.
pub(crate) const KINDS: &str = kinds!(" or rounds");

/// The names of the kinds of random schedules, followed by the word `all`.
pub(crate) const KINDS_OR_ALL: &str = kinds!(", rounds or all");

/// Returns the argument that clap needs for `row`.
fn arg_of<'a>(alloc: Global, row: &OptionRow) -> Arg<'a> {
    let OptionRow { name, takes, help } = *row;
    let action = match takes {
        OptionKind::Flag => ArgAction::SetTrue,
        OptionKind::Places | OptionKind::Words(_) => ArgAction::Append,
        _ => ArgAction::Set,
    };
    let arg = Arg::new(alloc, name).help(help).action(action);
    match takes {
        OptionKind::Place | OptionKind::Places => arg,
        OptionKind::Needed => arg.required(true),
        OptionKind::NeededNumber => arg
            .required(true)
            .value_parser(ValueParser::Unsigned(0, u64::MAX)),
        OptionKind::Flag => arg.long(name),
        OptionKind::Word(value) | OptionKind::Words(value) => arg.long(name).value_name(value),
        OptionKind::Number(value, lowest, maximum) => arg
            .long(name)
            .value_name(value)
            .value_parser(ValueParser::Unsigned(lowest, maximum)),
    }
}

/// Returns the command that clap needs for `row`.
fn command_of<'a>(alloc: Global, row: &CommandRow) -> Result<Command<'a>, AllocError> {
    let mut command = Command::new(alloc, row.name)
        .about(row.about)
        .after_help(row.example);
    for option in row.rows {
        command = command.arg(arg_of(alloc, option))?;
    }
    Ok(command)
}

/// Adds the commands in `rows` to a program. The help text shows these commands in the order of `rows`.
pub(crate) fn with_commands<'a>(
    alloc: Global,
    program: Command<'a>,
    rows: &[CommandRow],
) -> Result<Command<'a>, AllocError> {
    let mut program = program;
    for row in rows {
        program = program.subcommand(command_of(alloc, row)?)?;
    }
    Ok(program)
}

/// Returns the error for a command line on which the option `name` has a value that it doesn't accept. The argument
/// `words` lists the values that the option accepts.
pub(crate) fn bad_word<'a>(name: &'a str, words: &'a str) -> CommandError<'a> {
    CommandError::CommandLine("--", name, " accepts ", words, "")
}

/// Returns what the value of the option `name` means, according to `choices`. If the option is left out, the first
/// choice is used. The argument `words` lists the accepted values for the error message.
pub(crate) fn chosen<'a, T: Copy>(
    matches: &ArgMatches,
    name: &'a str,
    choices: &[(&str, T)],
    words: &'a str,
) -> Result<T, CommandError<'a>> {
    let word = matches.get_str(name);
    for (choice, meaning) in choices {
        if word.is_none() || word == Some(*choice) {
            return Ok(*meaning);
        }
    }
    Err(bad_word(name, words))
}

/// Returns whether the command line selects the format `json` rather than `text`.
pub(crate) fn is_json<'a>(matches: &ArgMatches) -> Result<bool, CommandError<'a>> {
    let forms = [("text", false), ("json", true)];
    chosen(matches, "format", &forms, "text or json")
}

/// Returns the position in `agents` of the agent that is named `name`.
fn place_named(agents: &[Config], name: &[u8]) -> Option<usize> {
    agents
        .iter()
        .position(|agent| agent.name.as_slice() == name)
}

/// Returns the position in `agents` of the agent whose name is `word`. If no agent has this name, the function reads
/// `word` as a name in hex.
fn place_of_word(
    alloc: Global,
    agents: &[Config],
    word: &str,
) -> Result<Option<usize>, AllocError> {
    let plain = place_named(agents, word.as_bytes());
    if plain.is_some() {
        return Ok(plain);
    }
    match hex::decode(alloc, word) {
        Ok(name) => Ok(place_named(agents, &name)),
        Err(FromHexError::OutOfMemory) => Err(AllocError),
        Err(_) => Ok(None),
    }
}

/// Returns the number of the agent to which `word` refers. If `word` is the number of an agent, the function never
/// reads it as a name.
fn found<'a>(alloc: Global, agents: &[Config], word: &'a str) -> Result<u64, CommandError<'a>> {
    let count = agents.len() as u64;
    let number = word.parse::<u64>();
    if let Ok(number) = number
        && number < count
    {
        return Ok(number);
    }
    match place_of_word(alloc, agents, word)? {
        Some(place) => Ok(place as u64),
        None if number.is_ok() => Err(CommandError::NoAgent(word, count)),
        None => {
            let why = ": no agent of the schedule has this name, as it is or in hex";
            Err(CommandError::CommandLine("--agent ", word, why, "", ""))
        }
    }
}

/// Returns the numbers of those agents in the schedule `text` that the command line names. If the command line names no
/// agents, the result is empty.
pub(crate) fn agents_of<'a>(
    alloc: Global,
    matches: &ArgMatches<'a>,
    text: &[u8],
) -> Result<Vec<u64>, CommandError<'a>> {
    let Some(words) = matches.get_strs("agent") else {
        return Ok(Vec::new(alloc));
    };
    let schedule = parse_schedule(alloc, text)?;
    let agents = schedule.agents.as_slice();
    let numbers = words.iter().map(|word| found(alloc, agents, word));
    numbers.try_collect(alloc)
}
