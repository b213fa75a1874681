//! The model of a cluster: agents that forget nothing, a network that loses, repeats and reorders packets, and the
//! promises that every run of the model keeps.
//!
//! This crate has the types that the model's definitions use: the actions of a run ([`Action`]), the result of an
//! action ([`Line`]), and the result of a whole run ([`Trace`]). The model itself is in `specs/`. Its laws are the
//! contracts of functions that do nothing ([`run_promises`], [`turns_shown`], [`representable_agents`]).
#![tactic(auto)]

mod action;
mod boxed;
mod common;
mod error;
mod laws;
mod line;
mod lists;
mod query;
mod trace;

pub use action::{Act, Action, SinkCall, packet_at};
pub use boxed::Boxed;
pub use common::{is_common_turn, is_common_turn_of};
pub use error::{NewError, RunError};
pub use laws::{
    agents_alone, exchanges_spread, handed_queries, merged_agents, representable_agents,
    run_promises, sound_settings, told_packets, turns_shown,
};
pub use line::{Answer, EventLine, Line, QueryLine, Refusal};
pub use lists::{EventLines, Lines, Numbers};
pub use query::NewQuery;
pub use trace::Trace;
