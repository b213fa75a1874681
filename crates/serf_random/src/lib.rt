//! Makes random schedules from seeds. These schedules exercise the edge cases of an agent's decisions: the edges of
//! windows, times with the maximum number of events, deadlines, size limits, the largest times, torn tails and failing
//! disks.
//!
//! The options ([`RandomOptions`]) and the generator's version ([`VERSION`]) determine every byte of a schedule.
//!
//! A schedule of the kind [`Kind::Rounds`] is gossip in the usual sense of the word: round by round, each agent spreads
//! the packets that are new to it among a few other agents.
//!
//! [`common_schedule`] makes a schedule that keeps to Serf's own rules. To do so, the function makes a random schedule
//! and removes every action whose turn rests on one of this project's own rules. As a result, every turn in the run of
//! the schedule is common.
#![tactic(auto)]

mod common;
mod draft;
mod generator;
mod kind;
mod make;
mod own;
mod packet_builder;
mod pools;
mod random_options;
mod rng;
mod settings;
mod strangers;
mod tails;
mod tracks;
mod value;
mod verb;
mod walk;

pub use common::common_schedule;
pub use kind::Kind;
pub use make::{Made, random_schedule};
pub use random_options::{
    MAX_AGENTS, MAX_FANOUT, MAX_ROUNDS, MAX_ROUNDS_AGENTS, RandomOptions, VERSION,
};
pub use rng::Rng;
