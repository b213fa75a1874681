//! Compares any agent with the reference: makes calls to the agent, compares each reply with the reference's reply, and
//! returns a verdict. Calls and replies pass through the pipe as lines of text (docs/SPEC.md, "The pipe").
//!
//! The crate also searches for calls on which an agent differs from the reference: it takes one seed after another,
//! makes the schedule of that seed, and compares the schedule's agents with the reference. To shorten the list of calls
//! on which an agent fails, the crate tries sublists until no single call can be left out.
#![tactic(auto)]

mod agent_calls;
mod asking;
mod call_text;
mod dump;
mod input;
mod judging;
mod laws;
mod meaning;
mod missing;
mod put;
mod replies;
mod reply;
mod reply_line;
mod reply_text;
mod report;
mod seeds;
mod session;
mod shrinking;
mod solo;
mod subject;
mod sweep;
mod trying;
mod verdict;

pub use agent_calls::{Call, alone_schedule, calls_of};
pub use asking::given_packet;
pub use call_text::{write_call, write_open};
pub use dump::{StateDump, dump_line, dump_reply, is_dumped_after, judge_dump};
pub use input::{MAX_REPLY_BYTES, ReadError, read_reply_text};
pub use judging::{Judgement, judge};
pub use laws::projection;
pub use meaning::{line_means, reply_means};
pub use missing::{MissingCalls, without};
pub use replies::{opening, wanted};
pub use reply::{Reply, ReplyError, read_reply};
pub use reply_line::{ReplyLine, read_reply_line};
pub use reply_text::write_reply_line;
pub use report::{Disagreement, Sums, write_disagreement, write_sums};
pub use seeds::{Found, HuntError, Hunted, RandomSchedules, ScheduleSource, hunt};
pub use session::hold;
pub use shrinking::{Shrunk, shrink};
pub use subject::{Pipe, Subject};
pub use sweep::{Case, Counts, Held, Other, case_of, hold_each, no_counts, sum_of, with_verdict};
pub use trying::{Outcome, try_calls};
pub use verdict::{ConformError, End, Rules, Verdict};
