//! Writes the run of a schedule as data for other programs: JSON objects, one per line. The run has an object for each
//! agent, for each action with its answer, for each packet that was sent, and for each event and each query that was
//! handed out. If the caller requests reasons, each action also has an object for each of its reasons, and one for the
//! state of the agent that acted.
#![tactic(auto)]

mod acts;
mod carried;
mod job;
mod messages;
mod readable;
mod reasons;
mod results;
mod states;
mod streaming;
mod teller;

pub use job::{run_objects, stream_objects};
pub use messages::{decode_objects, packet_object};
pub use readable::{RunText, readable_run, stream_readable};
pub use teller::RunObjects;
