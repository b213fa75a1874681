//! A cluster of real agents on a network that loses, repeats and reorders packets. The cluster does one action after
//! another, and is an exact reference for the behaviour of Serf's user events and queries.
#![tactic(auto)]

mod calls;
mod delivery;
mod known_sizes;
mod line;
mod refusal;
mod respond;
mod roster;
mod running;
mod turns;
mod world;

pub use known_sizes::inspect_action;
pub use roster::{Roster, RosterError};
pub use running::run;
pub use turns::{Turns, act};
pub use world::World;
