//! Makes a complete random schedule and its text: a comment, the agents, and their actions.

ghost use Rattle.std.specs.Prelude.{◌≡◌, ◌≤◌, ◌++◌, [], All, IfOk, Ok, false, length};
ghost use Rattle.std.specs.List.{flat_map};
ghost use Rattle.serf_schedule.specs.Schedule.{parsed_of, schedule_of};
ghost use Rattle.serf_random.specs.Comment.{comment_text};
ghost use Rattle.serf_random.specs.Draft.{AddsActions};
ghost use Rattle.serf_schedule.specs.ScheduleText.{schedule_text};

use crate::draft::add_from_source;
use crate::generator::Generator;
use crate::random_options::{RandomOptions, know_numbers, write_comment};
use crate::settings::add_agents;
use crate::walk::Walk;
use serf_model::Action;
use serf_schedule::{Schedule, Watch, comments_skipped, know_read_back};
use serf_text::MAX_SCHEDULE_BYTES;
use serf_world::Roster;
use std::alloc::{AllocError, Global};

/// A random schedule and its text.
#[derive(Drop)]
pub struct Made {
    pub schedule: Schedule,
    pub text: Vec<u8>,
}

/// Makes the actions of a schedule from the options `ask`, for a cluster that consists of `agents`. Appends the lines
/// of the actions to `text`, and reports each action to `watch`.
fn add_actions<T: Watch>(
    alloc: Global,
    ask: &RandomOptions,
    agents: Roster,
    text: &mut Vec<u8>,
    watch: &mut T,
) -> Result<Vec<Action>, AllocError>
    ensures { IfOk result (λ actions.
        AddsActions ask.now.actions text.old.items text.new.items [] actions.items) }
{
    let agent_count = agents.as_slice().len() as u64;
    if ask.kind.is_rounds() {
        let mut walk = Walk::new(alloc, ask, agent_count);
        add_from_source(alloc, &mut walk, agents, ask.actions, text, watch)
    } else {
        let mut generator = Generator::new(alloc, ask, agent_count);
        add_from_source(alloc, &mut generator, agents, ask.actions, text, watch)
    }
}

/// Makes a random schedule from the options `ask`, together with its text.
///
/// The text begins with a comment that lists the options. The text parses to exactly the settings and the actions that
/// were made, so the parser never refuses it. The schedule has at most `ask.actions` actions. Its text is at most
/// 16,777,216 bytes long, because the schedule ends before the first action whose line would make the text longer. A
/// schedule of rounds also ends after its last round. The function reports each action to `watch`, and returns an
/// `AllocError` if memory runs out.
pub fn random_schedule<T: Watch>(
    alloc: Global,
    ask: &RandomOptions,
    watch: &mut T,
) -> Result<Made, AllocError>
    ensures reads_back { IfOk result (λ made. schedule_of made.text.items
        ≡ Ok (parsed_of made.schedule)) }
    ensures text { IfOk result (λ made. made.text.items ≡ comment_text false ask.now
        ++ schedule_text (parsed_of made.schedule)) }
    ensures few { IfOk result (λ made. length made.schedule.actions.items ≤ ask.now.actions) }
    ensures short { IfOk result (λ made. length made.text.items ≤ MAX_SCHEDULE_BYTES) }
{
    let mut text = Vec::new(alloc);
    write_comment(&mut text, ask, false)?;
    let agents = add_agents(alloc, ask, &mut text)?;
    let actions = add_actions(alloc, ask, agents.try_clone(alloc)?, &mut text, watch)?;
    let schedule = Schedule { agents, actions };
    // For the prover: the parser skips the comment, and parses the rest of the text to the schedule.
    comments_skipped();
    know_numbers(ask);
    know_read_back(&schedule);
    Ok(Made { schedule, text })
}
