//! The command `random` prints the schedule of a seed.

use crate::command_error::{CommandError, CommandResult};
use crate::io::Io;
use crate::options::OptionKind::{NeededNumber, Number, Word};
use crate::options::{CommandKind, CommandRow, KINDS, bad_word, chosen, rows};
use crate::progress::{self, Progress};
use clap::ArgMatches;
use serf_conform::Rules;
use serf_random::{
    Kind, MAX_AGENTS, MAX_FANOUT, MAX_ROUNDS, MAX_ROUNDS_AGENTS, RandomOptions, common_schedule,
    random_schedule,
};
use serf_text::MAX_SCHEDULE_BYTES;

/// The help text of the option for the number of agents.
pub(super) const AGENTS: &str =
    "The number of agents: at most 64, or 10,000 in rounds; if it is left out or 0, the seed decides";

/// The help text of the option for the number of actions.
pub(super) const ACTIONS: &str =
    "The maximum number of actions: 200 if it is left out, and no limit in rounds";

/// The command's options and arguments.
pub(crate) const COMMAND: CommandRow = CommandRow {
    kind: CommandKind::Random,
    name: "random",
    about: "Generates a schedule from a seed that exercises edge cases",
    example: "Example: serf-replay random 7 --kind restarts | serf-replay replay",
    rows: rows! {
        "SEED" NeededNumber => "The seed, a number below 2^64";
        "kind" Word("KIND") => KINDS;
        "agents" Number("N", 0, MAX_ROUNDS_AGENTS) => AGENTS;
        "actions" Number("N", 0, u64::MAX) => ACTIONS;
        "fanout" Number("N", 1, MAX_FANOUT) => "In rounds: to how many others an agent sends a packet in a round, 1 to 16; 3 if it is left out";
        "loss" Number("N", 0, 99) => "In rounds: how many packets in a hundred are lost, 0 to 99; 20 if it is left out";
        "rounds" Number("N", 1, MAX_ROUNDS) => "In rounds: how many rounds there are, 1 to 10,000; 10 if it is left out";
        "rules" Word("RULES") => "`serf` leaves out what rests on a rule of this project's own; `own` (the default) leaves nothing out";
    },
};

/// The values that are used for options that the command line leaves out. If the number of agents is left out, the seed
/// determines it. If the number of actions is left out, schedules of rounds have no limit on actions.
const LEFT_OUT: RandomOptions = RandomOptions {
    seed: 0,
    kind: Kind::Mixed,
    agents: 0,
    actions: 200,
    fanout: 3,
    loss: 20,
    rounds: 10,
};

/// Returns the kind that the command line names, or `None` if there is no kind with that name.
pub(super) fn kind_of(matches: &ArgMatches) -> Option<Kind> {
    match matches.get_str("kind") {
        Some(name) => Kind::of_name(name.as_bytes()),
        None => Some(Kind::Mixed),
    }
}

/// Returns the options that the command line selects, with the given seed and kind. The fanout, the losses and the
/// number of rounds have their default values.
pub(super) fn options_with<'a>(
    matches: &ArgMatches,
    seed: u64,
    kind: Kind,
) -> Result<RandomOptions, CommandError<'a>> {
    let agents = matches.get_one::<u64>("agents").unwrap_or(0);
    if agents > MAX_AGENTS && !kind.is_rounds() {
        return Err(bad_word("agents", "at most 64, or 10,000 if --kind is rounds"));
    }
    let left_out = if kind.is_rounds() {
        u64::MAX
    } else {
        LEFT_OUT.actions
    };
    Ok(RandomOptions {
        seed,
        kind,
        agents,
        actions: matches.get_one::<u64>("actions").unwrap_or(left_out),
        ..LEFT_OUT
    })
}

/// If the schedule isn't of the kind `rounds`, refuses the options for rounds.
fn check_rounds<'a>(matches: &ArgMatches, kind: Kind) -> Result<(), CommandError<'a>> {
    for name in ["fanout", "loss", "rounds"] {
        if !kind.is_rounds() && matches.contains_id(name) {
            return Err(bad_word(name, "a number, and only if --kind is rounds"));
        }
    }
    Ok(())
}

/// Returns the options that the command line selects, with the given seed.
fn options_of<'a>(matches: &ArgMatches, seed: u64) -> Result<RandomOptions, CommandError<'a>> {
    let kind = kind_of(matches).ok_or(bad_word("kind", KINDS))?;
    let ask = options_with(matches, seed, kind)?;
    check_rounds(matches, kind)?;
    Ok(RandomOptions {
        fanout: matches.get_one::<u64>("fanout").unwrap_or(ask.fanout),
        loss: matches.get_one::<u64>("loss").unwrap_or(ask.loss),
        rounds: matches.get_one::<u64>("rounds").unwrap_or(ask.rounds),
        ..ask
    })
}

/// Returns the rules that the command line selects.
pub(super) fn rules_of<'a>(matches: &ArgMatches) -> Result<Rules, CommandError<'a>> {
    let rules = [("own", Rules::Own), ("serf", Rules::Serf)];
    chosen(matches, "rules", &rules, "serf or own")
}

/// A number of bytes that is larger than the length of any line in a schedule of rounds. If the text of a schedule of
/// rounds has less room left than this number of bytes, the schedule may have ended before its last round.
const ROOM: usize = 4096;

/// Returns the text of the random schedule that has the options `ask` and whose turns keep to `rules`.
fn text_of<'a>(io: Io, ask: &RandomOptions, rules: Rules) -> Result<Vec<u8>, CommandError<'a>> {
    let mut progress = Progress::of(io, progress::ACTIONS);
    let made = match rules {
        Rules::Own => random_schedule(io.alloc(), ask, &mut progress),
        Rules::Serf => common_schedule(io.alloc(), ask, &mut progress),
    };
    Ok(made?.text)
}

/// Writes the random schedule that the command line describes. The turns of this schedule keep to the rules that the
/// command line selects.
pub(super) fn run<'a>(io: Io, matches: &ArgMatches<'a>) -> CommandResult<'a> {
    let seed = matches.get_one::<u64>("SEED");
    let ask = options_of(matches, seed.ok_or(bad_word("SEED", "a number"))?)?;
    let text = text_of(io, &ask, rules_of(matches)?)?;
    if ask.kind.is_rounds() && MAX_SCHEDULE_BYTES.saturating_sub(text.len()) < ROOM {
        let _ = eprintln!(io.rt;
            "random: a schedule has at most 16777216 bytes, so the last rounds may be missing"
        );
    }
    io.finish(&text)
}
