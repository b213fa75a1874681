//! Checks a log against the promises about Serf's events and queries: no event or query was handed to a node twice,
//! each event was fired before it was handed out, and each node fired an event only at a later time than those of all
//! events that the node was handed before. The crate also counts how often each node was handed an event or a query
//! again. For each event, the crate lists the nodes that were never handed the event. The crate also lists the handlers
//! that began and never ended. If a log records exactly what the agents in a run were handed, the crate finds no event
//! twice if and only if the run keeps the promise Once. An entry is the content of one line. Lines are counted from 1,
//! and the entries in a list are counted from 0.
#![tactic(auto)]

mod again;
mod dated;
mod entry;
mod fired;
mod handed_again;
mod joined;
mod kept;
mod key;
mod later;
mod log;
mod log_record;
mod missed;
mod nodes;
mod once;
mod reader;
mod runs;
mod stock_serf;
mod tally;

pub use entry::{BadLine, DatedLine, EventEntry, QueryEntry, RunEntry};
pub use fired::first_unfired;
pub use handed_again::{Offered, first_again};
pub use joined::join_logs;
pub use kept::{after_leave, has_node, is_own_snapshot, is_snapshot};
pub use key::{Delivered, Delivery, Key};
pub use later::{LaterError, first_not_later};
pub use log::{Log, read_log};
pub use missed::{Missed, MissedEvent, missed_events};
pub use nodes::{log_nodes, receivers};
pub use once::{first_event_twice, first_pair, first_query_twice};
pub use reader::Reader;
pub use runs::cut_off;
pub use stock_serf::serf_clocks;
pub use tally::{NodeTally, Tally, tally_repeats};
