//! Runs schedules from any reader, and writes the results to any writer. A run reads a schedule and writes the trace of
//! the schedule's cluster, either after the whole schedule or line by line. A summary describes a run in a few lines:
//! how often each answer occurred, how many events were handed to each agent, and at which action each event was handed
//! to the last agent.
//!
//! [`serf_schedule`] and [`serf_text`] define what a run reads and writes. This crate also exports the parts of these
//! two crates that callers need.
#![tactic(auto)]

mod job;
mod keys;
mod laws;
mod progress;
mod stream_job;
mod summarizing;
mod summary;
mod summing;
mod tally;

pub use job::replay;
pub use keys::EventKey;
pub use laws::traced_schedules;
pub use serf_schedule::{
    Bare, Command, ReplayError, Run, Schedule, ScheduleError, TraceText, Unwatched, Verb, Watch,
    answer_words, command_in, lines_stay, parse_schedule, read_schedule_line, show_trace,
    sink_call, sized_schedules, told_schedules, write_action, write_answer,
};
pub use serf_text::{
    Cause, DecodeTextError, InputError, LineError, MAX_SCHEDULE_BYTES, WireWords, WriteError,
    bytes_at, choice, choice_at, clocks_text, decode_text, flag, hex_bytes, is_word, number,
    number_at, number_from_to, read_input, split_once, split_words_into, word_at, write_hex,
    write_members, write_message, write_number, write_number_line, write_output, write_signed,
    write_slot, write_with_hex, write_with_number,
};
pub use stream_job::replay_lines;
pub use summarizing::{summarize, summarize_lines};
pub use summary::Summary;
pub use tally::Frequency;
