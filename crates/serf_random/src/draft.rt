//! Adds agents and actions to a schedule, and appends their lines to its text. This module also defines the trait of
//! the sources that choose the actions.

ghost use Rattle.std.specs.Prelude.{◌≡◌, [], IfOk, OnOk};
ghost use Rattle.serf_random.specs.Draft.{AddsActions, AddsAgents};

use serf_agent::Config;
use serf_model::{Act, Action, Line};
use serf_schedule::{Watch, is_sayable, write_action_line, write_agent_line};
use serf_text::MAX_SCHEDULE_BYTES;
use serf_world::{Roster, RosterError, World};
use std::alloc::{AllocError, Global};

/// Adds an agent with the settings `config` to `roster`, and appends the agent's line to `text`. If the roster refuses
/// the agent, or if the line would make the text too long, the function adds neither the agent nor its line.
pub(crate) fn add_agent(
    alloc: Global,
    text: &mut Vec<u8>,
    roster: &mut Roster,
    config: Config,
) -> Result<(), AllocError>
    ensures { OnOk result (AddsAgents text.old.items text.new.items roster.old roster.new) }
{
    let before = text.len();
    write_agent_line(text, &config)?;
    if text.len() > MAX_SCHEDULE_BYTES {
        text.truncate(before);
        return Ok(());
    }
    match roster.add(alloc, config) {
        Ok(()) => Ok(()),
        Err(RosterError::OutOfMemory) => Err(AllocError),
        Err(_) => {
            text.truncate(before);
            Ok(())
        }
    }
}

/// Appends `action` to `actions`, and the action's line to `text`. If the line would make the text too long, the
/// function appends nothing and returns false, and no more actions may follow. If no line can express the action, the
/// function appends nothing and returns true.
pub(crate) fn add_action(
    text: &mut Vec<u8>,
    actions: &mut Vec<Action>,
    action: Action,
) -> Result<bool, AllocError>
    ensures { OnOk result
        (AddsActions 1 text.old.items text.new.items actions.old.items actions.new.items) }
{
    if !is_sayable(&action) {
        return Ok(true);
    }
    let before = text.len();
    write_action_line(text, &action)?;
    if text.len() > MAX_SCHEDULE_BYTES {
        text.truncate(before);
        return Ok(false);
    }
    actions.push(action)?;
    Ok(true)
}

/// Returns the action in which agent number `agent` performs `act`.
pub(crate) fn done_by(agent: u64, act: Act) -> Action {
    Action::Of { agent, act }
}

/// A source that chooses the actions of a schedule, one after another.
pub(crate) trait ActionSource {
    /// Returns the next action in the cluster `world`, or `None` if there are no more actions.
    fn next_action(&mut self, world: &World) -> Result<Option<Action>, AllocError>;

    /// Records, for later choices, that `action` was performed and that the trace contains `line` for it.
    fn observe_turn(&mut self, action: &Action, line: &Line) -> Result<(), AllocError>;
}

/// Performs the next action of `action_source` in `world`, and appends the action to `actions` and its line to `text`
/// ([`add_action`]). Returns whether more actions may follow.
fn add_next<C: ActionSource>(
    alloc: Global,
    action_source: &mut C,
    world: &mut World,
    text: &mut Vec<u8>,
    actions: &mut Vec<Action>,
) -> Result<bool, AllocError>
    ensures { OnOk result
        (AddsActions 1 text.old.items text.new.items actions.old.items actions.new.items) }
{
    let Some(action) = action_source.next_action(world)? else {
        return Ok(false);
    };
    let line = world.step(alloc, &action)?;
    action_source.observe_turn(&action, &line)?;
    add_action(text, actions, action)
}

/// Performs the actions of `action_source` in a cluster of `agents`, and returns the actions that were added to the
/// schedule. The function performs at most `maximum` actions, and stops earlier if the source has no more actions or if
/// a line would make the text too long. It also appends the lines of the actions to `text`, and reports each action to
/// `watch`.
pub(crate) fn add_from_source<C: ActionSource, T: Watch>(
    alloc: Global,
    action_source: &mut C,
    agents: Roster,
    maximum: u64,
    text: &mut Vec<u8>,
    watch: &mut T,
) -> Result<Vec<Action>, AllocError>
    ensures { IfOk result (λ actions.
        AddsActions maximum text.old.items text.new.items [] actions.items) }
{
    let mut world = World::new(alloc, agents)?;
    let mut actions = Vec::new(alloc);
    for done in 0..maximum {
        if !add_next(alloc, action_source, &mut world, text, &mut actions)? {
            return Ok(actions);
        }
        watch.acted(done + 1, maximum);
    }
    Ok(actions)
}
