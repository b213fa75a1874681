//! Lamport clocks: the times of user events and queries, and the counters that draw these times.
//!
//! A clock is a number. It observes the times that other nodes send, and stays later than each of them. It
//! also draws the times of the events and queries that this node fires (Serf's internals page, "Lamport
//! Clocks"; `lamport.go`).
#![tactic(auto)]

mod clock;
mod time;

pub use clock::{Clock, Exhausted};
pub use time::Time;
