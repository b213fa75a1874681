//! Makes a complete random schedule that keeps to Serf's own rules, together with its text.

ghost use Rattle.std.specs.Prelude.{◌≡◌, ◌≤◌, ◌+◌, ◌++◌, [], true, ℕ, IfOk, List, Ok, OnOk, length};
ghost use Rattle.serf_schedule.specs.Schedule.{parsed_of, schedule_of};
ghost use Rattle.serf_schedule.specs.ScheduleText.{schedule_text};
ghost use Rattle.serf_random.specs.Comment.{comment_text};
ghost use Rattle.serf_random.specs.Common.{AreCommon};
ghost use Rattle.serf_random.specs.Cut.{AreKept, GoesOn, IsAlong, MayAdd};
ghost use Rattle.serf_random.specs.Draft.{AddsAgents};

use crate::draft::add_agent;
use crate::make::{Made, random_schedule};
use crate::random_options::{RandomOptions, know_numbers, write_comment};
use serf_agent::{Config, DEFAULT_PER_TIME};
use serf_model::{Action, is_common_turn};
use serf_schedule::{
    Schedule, Watch, comments_skipped, is_sayable, know_read_back, write_action_line,
};
use serf_text::MAX_SCHEDULE_BYTES;
use serf_world::{Roster, World};
use std::alloc::{AllocError, Global};

/// The maximum number of rounds in which actions are left out. One round may not be enough, because the remaining
/// actions may run differently without the others. After a round, other turns than before may therefore rest on one of
/// this project's own rules. (These rounds have nothing to do with rounds of gossip.)
const ROUNDS: u64 = 8;

/// Performs `action` in `world`, whose agents have the settings `configs`. If the action's turn is common, appends the
/// action to `kept`.
fn keep_common(
    alloc: Global,
    configs: &[Config],
    world: &mut World,
    kept: &mut Vec<Action>,
    action: Action,
) -> Result<(), AllocError>
    ensures few { OnOk result (length kept.new.items ≤ length kept.old.items + 1) }
{
    let line = world.step(alloc, &action)?;
    if is_common_turn(configs, &action, &line) {
        kept.push(action)?;
    }
    Ok(())
}

/// Lets `agents` perform all of `actions`, and returns the actions whose turns were common.
fn round(alloc: Global, agents: &Roster, actions: Vec<Action>) -> Result<Vec<Action>, AllocError>
    ensures few { IfOk result (λ kept. length kept.items ≤ length actions.items) }
{
    let mut world = World::new(alloc, agents.try_clone(alloc)?)?;
    let mut kept = Vec::new(alloc);
    for action in actions {
        keep_common(alloc, agents.as_slice(), &mut world, &mut kept, action)?;
    }
    Ok(kept)
}

/// Returns the actions that remain after several rounds. Each round removes the actions whose turns aren't common.
fn leave_out_in_rounds(
    alloc: Global,
    agents: &Roster,
    actions: Vec<Action>,
) -> Result<Vec<Action>, AllocError>
    ensures few { IfOk result (λ kept. length kept.items ≤ length actions.items) }
{
    let mut kept = actions;
    for _round in 0..ROUNDS {
        let before = kept.len();
        kept = round(alloc, agents, kept)?;
        if kept.len() == before {
            return Ok(kept);
        }
    }
    Ok(kept)
}

/// Appends `action` to `kept`, and the action's line to `text`. If the line would make the text too long, the function
/// appends nothing and returns false.
fn add_line(text: &mut Vec<u8>, kept: &mut Vec<Action>, action: Action) -> Result<bool, AllocError>
    ensures { IfOk result (λ added.
        MayAdd added action text.old.items text.new.items kept.old.items kept.new.items) }
{
    let before = text.len();
    write_action_line(text, &action)?;
    if text.len() > MAX_SCHEDULE_BYTES {
        text.truncate(before);
        return Ok(false);
    }
    kept.push(action)?;
    Ok(true)
}

/// Performs `action` in `world`, whose agents have the settings `configs`. If the action's turn is common, appends the
/// action to `kept`, and its line to `text`. Returns whether the action was appended. If the action wasn't appended, no
/// other action may follow.
fn add_turn(
    alloc: Global,
    configs: &[Config],
    world: &mut World,
    text: &mut Vec<u8>,
    kept: &mut Vec<Action>,
    action: Action,
) -> Result<bool, AllocError>
    ensures along { (first : List ℕ)
        → IsAlong configs.now first text.old.items kept.old.items world.old
        → IfOk result (λ more.
        GoesOn more configs.now first text.new.items kept.new.items world.new) }
    ensures few { OnOk result (length kept.new.items ≤ length kept.old.items + 1) }
{
    if !is_sayable(&action) {
        return Ok(false);
    }
    let line = world.step(alloc, &action)?;
    if !is_common_turn(configs, &action, &line) {
        return Ok(false);
    }
    add_line(text, kept, action)
}

/// Lets `agents` perform `actions`, up to the first action whose turn isn't common or whose line would make the text
/// too long. Returns all actions before the one at which it stopped, and appends their lines to `text`.
fn add_common(
    alloc: Global,
    agents: &Roster,
    actions: Vec<Action>,
    text: &mut Vec<u8>,
) -> Result<Vec<Action>, AllocError>
    ensures kept { IfOk result
        (λ kept. AreKept agents.now text.old.items text.new.items kept.items) }
    ensures few { IfOk result (λ kept. length kept.items ≤ length actions.items) }
{
    let mut world = World::new(alloc, agents.try_clone(alloc)?)?;
    let mut kept = Vec::new(alloc);
    for action in actions {
        if !add_turn(
            alloc,
            agents.as_slice(),
            &mut world,
            text,
            &mut kept,
            action,
        )? {
            return Ok(kept);
        }
    }
    Ok(kept)
}

/// Returns `agents` with settings that Serf also has: no agent keeps its events across a restart, and each agent
/// accepts at least the default number of events with the same time. Appends the lines of the returned agents to
/// `text`.
fn add_serfs_agents(alloc: Global, text: &mut Vec<u8>, agents: Roster) -> Result<Roster, AllocError>
    ensures { IfOk result (λ roster. AddsAgents text.old.items text.new.items [] roster) }
{
    let mut roster = Roster::new(alloc);
    for config in agents.into_vec() {
        let config = Config {
            keep_events: false,
            per_time: config.per_time.max(DEFAULT_PER_TIME),
            ..config
        };
        add_agent(alloc, text, &mut roster, config)?;
    }
    Ok(roster)
}

/// Makes a random schedule from the options `ask`, together with its text. No turn of the schedule's run rests on one
/// of this project's own rules.
///
/// No agent keeps its events across a restart, and each agent accepts at least the default number of events with the
/// same time. The actions are those of [`random_schedule`], except for the actions whose turns aren't common
/// ([`serf_model::is_common_turn`]). The function removes these actions in several rounds. If some turn still isn't
/// common after the last round, the function also removes its action and all later ones.
///
/// The text begins with a comment that lists the options and states which rules the schedule keeps to. The text parses
/// to exactly this schedule, so the parser never refuses it. The schedule has at most `ask.actions` actions, and its
/// text is at most 16,777,216 bytes long. The function reports each action of [`random_schedule`] to `watch`, and
/// returns an `AllocError` if memory runs out.
pub fn common_schedule<T: Watch>(
    alloc: Global,
    ask: &RandomOptions,
    watch: &mut T,
) -> Result<Made, AllocError>
    // Each turn of the schedule's run is common.
    ensures common { IfOk result (λ made. AreCommon (parsed_of made.schedule)) }
    ensures reads_back { IfOk result (λ made. schedule_of made.text.items
        ≡ Ok (parsed_of made.schedule)) }
    ensures text { IfOk result (λ made. made.text.items ≡ comment_text true ask.now
        ++ schedule_text (parsed_of made.schedule)) }
    ensures few { IfOk result (λ made. length made.schedule.actions.items ≤ ask.now.actions) }
    ensures short { IfOk result (λ made. length made.text.items ≤ MAX_SCHEDULE_BYTES) }
{
    let made = random_schedule(alloc, ask, watch)?;
    let Made { schedule, .. } = made;
    let Schedule { agents, actions } = schedule;
    let mut text = Vec::new(alloc);
    write_comment(&mut text, ask, true)?;
    let agents = add_serfs_agents(alloc, &mut text, agents)?;
    let left = leave_out_in_rounds(alloc, &agents, actions)?;
    let kept = add_common(alloc, &agents, left, &mut text)?;
    let schedule = Schedule {
        agents,
        actions: kept,
    };
    // For the prover: the parser skips the comment, and parses the rest of the text to the schedule.
    comments_skipped();
    know_numbers(ask);
    know_read_back(&schedule);
    Ok(Made { schedule, text })
}
