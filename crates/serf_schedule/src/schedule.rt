//! Schedules: the agents of a cluster, and the actions that are done in it.

ghost use Rattle.serf_model.specs.Runs.{AreConfigs};

use serf_model::Action;
use serf_world::Roster;

/// The agents and the actions of a schedule, in order. Both are numbered from 0. (The ghost field `configs` states that
/// the agents can form a cluster.)
#[derive(Drop)]
pub struct Schedule {
    pub agents: Roster,
    pub actions: Vec<Action>,
    ghost configs: { AreConfigs agents },
}
