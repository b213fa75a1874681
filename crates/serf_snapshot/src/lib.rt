//! Writes and reads the clock lines of an agent's snapshot, on a device that may fail.
//!
//! An agent writes the time of each event and query to its snapshot before it hands the event or query out. After a
//! restart, the agent fires nothing at or below a time that was written. It also hands out nothing at or below such a
//! time, unless it keeps its events (see below). Serf's `snapshot.go` also writes these times. But Serf flushes at
//! intervals, uses the last line of each kind, appends after a torn line, and continues after a failed append. This
//! crate differs from Serf in these points:
//!
//! - [`Snapshot::append_line`] writes a line with one append and one flush. If it returns Ok, the line is durable.
//! - [`read_clocks`] uses the line with the largest time of each kind, so appended bytes can never lower a clock.
//! - [`Snapshot::open`] ends a torn last line with `#` and a newline before anything is written after it.
//! - After its sink has failed, a snapshot is stopped, and refuses every further line and compaction.
//! - [`Snapshot::compact`] replaces the whole text in one step.
//!
//! An agent can also keep the events and queries that it accepted. Each of them then has its own line, which begins
//! with `#` ([`write_event_line`], [`Snapshot::append_line`], [`read_kept`]). Serf skips these lines, and so does
//! [`read_clocks`].
//!
//! The clauses of [`Sink`] and [`ReplaceSink`] define what a sink does to the bytes that it exposes. [`MemorySink`]
//! exposes all of its bytes, and fails only as planned. For a sink on a file, use `FileStore` of `serf_store`.
#![tactic(auto)]

mod clock_lines;
mod clocks;
mod event_lines;
mod handlers;
mod kept;
mod kept_lines;
mod kind;
mod laws;
mod lengths;
mod memory;
mod parts;
mod reading;
mod sink;
mod snapshot;
mod wanted;

pub use clocks::Clocks;
pub use event_lines::{write_event_line, write_kept_clock_line, write_min_line, write_query_line};
pub use handlers::{
    OpenEvent, is_tracked, read_open_events, write_begun_line, write_done_line,
    write_done_up_to_line, write_open_line,
};
pub use kept::{EntryFilter, KeptEntries, KeptEvent, KeptQuery, MinTimes, TextTimes};
pub use kind::ClockKind;
pub use laws::{
    event_line_laws, file_step_laws, handler_laws, kept_append_line_laws, min_time_laws,
    other_line_laws, other_lines_laws, plan_laws, query_line_laws, read_laws, said_laws,
    said_query_laws, snapshot_laws, text_laws, untracked_laws,
};
pub use lengths::{event_line_length, min_line_length, query_line_length};
pub use memory::MemorySink;
pub use reading::{read_clocks, read_kept, read_times};
pub use sink::{ReplaceError, ReplaceSink, Sink, SinkError};
pub use snapshot::{AppendLineError, SealError, Snapshot};
