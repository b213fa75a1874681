//! Writes the trace of a schedule with reasons: after the lines of each action, further lines explain in plain words
//! why the action got its answer.
#![tactic(auto)]

mod answers;
mod deliveries;
mod history;
mod ignored;
mod job;
mod left;
mod marks;
mod memory;
mod merge_line;
mod merge_reasons;
mod quoted;
mod range;
mod reasoning;
mod reasons;
mod refusals;
mod seen;
mod turn_context;
mod verdict_reason;

pub use job::{explain, explain_lines};
pub use range::Range;
pub use reasoning::Reasoning;
