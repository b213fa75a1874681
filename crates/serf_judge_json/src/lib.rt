//! Writes results as data for other programs, with one JSON object per line. The names and payloads of events appear
//! both as text and in hex.
#![tactic(auto)]

mod entries;
mod findings;
mod judging;
mod kept;
mod kind;
mod missing;
mod places;
mod repeats;
mod runs;
mod verdicts;
mod words;

pub use judging::{judgement_objects, status_object};
pub use kept::kept_objects;
pub use places::{LogName, LogPlaces};
