//! The command `conform` compares any agent with the reference. The command writes the agent's calls to standard
//! output, and reads the agent's replies from standard input.

mod hunting;
mod missing;
mod report;
mod session;

use super::random::{ACTIONS, AGENTS, rules_of};
use crate::command_error::{CommandError, CommandResult, command_line};
use crate::io::Io;
use crate::options::OptionKind::{Flag, Number, Place, Word};
use crate::options::{CommandKind, CommandRow, KINDS_OR_ALL, bad_word, rows};
use clap::ArgMatches;
use hunting::seeds_of;
use missing::missing_of;
use serf_conform::{MissingCalls, Rules};
use serf_random::MAX_ROUNDS_AGENTS;
use session::{Against, hold_against, hold_file};

/// The command's options and arguments.
pub(crate) const COMMAND: CommandRow = CommandRow {
    kind: CommandKind::Conform,
    name: "conform",
    about: "Compares an agent on stdin and stdout with the reference (docs/CONFORMANCE.md)",
    example: "Example: mkfifo f; ./my-agent <f | serf-replay conform examples/what_is_refused.schedule >f",
    rows: rows! {
        "FILE" Place => "The schedule whose calls the agent gets; leave it out with --random";
        "agent" Word("AGENT") => "Compares only this agent of the schedule, given by its number, from 0 on, or its name; all agents if it is left out";
        "rules" Word("RULES") => "`serf` ends before the first turn that rests on a rule of this project's own; `own` (the default) compares all turns";
        "without" Word("CALLS") => "Leaves out these calls, with commas between them, and those that depend on them (docs/CONFORMANCE.md): query,respond,close leaves out queries";
        "random" Word("A-B") => "Makes the random schedules of seeds A to B, and uses these in place of a file";
        "kind" Word("KIND") => KINDS_OR_ALL;
        "agents" Number("N", 0, MAX_ROUNDS_AGENTS) => AGENTS;
        "actions" Number("N", 0, u64::MAX) => ACTIONS;
        "go-on" Number("N", 1, u64::MAX) => "With --random: continues after a disagreement, until N of them were reported";
        "shrink" Flag => "If an agent disagrees: leaves out calls, until no single one of the rest can be left out";
        "save" Word("FILE") => "The file to which --shrink, or --without with a schedule, writes the remaining calls, as a schedule; --shrink writes to standard error if it is left out";
        "report" Word("FILE") => "The file to which a line of JSON is written for each disagreement, and one at the end";
    },
};

/// The options that determine how agents are compared with the reference.
#[derive(Clone, Copy)]
struct HoldOptions<'a> {
    rules: Rules,
    /// The calls that are left out because the agents don't support them, or `None` if no calls are left out.
    missing: Option<MissingCalls>,
    /// Whether the command shortens the list of calls at which an agent fails.
    shrinks: bool,
    /// The file to which the schedule with the remaining calls is written, or `None` for standard error.
    save: Option<&'a str>,
    /// The file to which the report in JSON is written, or `None` if no report is requested.
    report: Option<&'a str>,
    /// The number of disagreements, over all seeds together, after which the command ends. If this number is `None`,
    /// the command ends after the first disagreement.
    go_on: Option<u64>,
}

/// Refuses `--save` if no schedule with fewer calls will be made, and `--go-on` if the command ends after the first
/// disagreement anyway.
fn check<'a>(asked: &HoldOptions, is_random: bool) -> Result<(), CommandError<'a>> {
    let leaves_out = asked.shrinks || (asked.missing.is_some() && !is_random);
    if asked.save.is_some() && !leaves_out {
        let words = "a file, and only with --shrink, or with a schedule and --without";
        return Err(bad_word("save", words));
    }
    if asked.go_on.is_some() && (asked.shrinks || !is_random) {
        let words = "a number, and only with --random and without --shrink";
        return Err(bad_word("go-on", words));
    }
    Ok(())
}

/// Returns the options that the command line selects.
fn asked_of<'a>(matches: &ArgMatches<'a>) -> Result<HoldOptions<'a>, CommandError<'a>> {
    let asked = HoldOptions {
        rules: rules_of(matches)?,
        missing: missing_of(matches)?,
        shrinks: matches.get_flag("shrink"),
        save: matches.get_str("save"),
        report: matches.get_str("report"),
        go_on: matches.get_one::<u64>("go-on"),
    };
    check(&asked, matches.contains_id("random"))?;
    Ok(asked)
}

/// Compares agents with the reference on the schedule in a file, or compares one agent on the random schedules of many
/// seeds.
pub(super) fn run<'a>(io: Io, matches: &ArgMatches<'a>) -> CommandResult<'a> {
    let asked = asked_of(matches)?;
    let io = Io {
        has_agent: true,
        ..io
    };
    match (matches.get_str("FILE"), matches.get_str("random")) {
        (Some(file), None) => hold_file(io, matches, file, asked),
        (None, Some(_)) if matches.get_str("agent").is_some() => {
            Err(bad_word(
                "agent",
                "an agent of a schedule in a file, and not with --random",
            ))
        }
        (None, Some(word)) => hold_against(io, asked, Against::Seeds(&seeds_of(word, matches)?)),
        (Some(_), Some(_)) => Err(command_line(
            "both a schedule and --random are given: give only one of them",
        )),
        (None, None) => Err(command_line("no schedule: give a file, or seeds as --random A-B")),
    }
}
