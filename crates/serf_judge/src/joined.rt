//! Joins two logs into one. The line numbers of the second log continue those of the first.

ghost use Rattle.std.specs.Prelude.{◌≡◌, ◌++◌, IfOk, map};
ghost use Rattle.serf_judge.specs.Joined.{joined_logs, moved_on};
ghost use Rattle.serf_judge.specs.Said.{log_view};

use crate::entry::{BadLine, DatedLine, EventEntry, QueryEntry, RunEntry};
use crate::log::Log;
use std::alloc::AllocError;

/// The content of one line, with the line's number: an entry, a bad line or a date.
trait Numbered: Sized {
    ghost use Rattle.std.specs.Prelude.{◌≡◌, ℕ};
    ghost use Rattle.serf_judge.specs.Joined.{moved};

    ghost Said: { Type 0 };

    ghost seen: { Self → ℕ × Said };

    /// Returns the same content, with its line number raised by `lines`. The line number saturates at 2^64 - 1.
    fn with_line_raised(self, lines: u64) -> Self
        ensures { seen result ≡ moved lines (seen self) };
}

impl Numbered for EventEntry {
    ghost use Rattle.serf_judge.specs.Identity.{Identity, event_seen};

    ghost Said = { Identity };

    ghost seen = { event_seen };

    fn with_line_raised(mut self, lines: u64) -> EventEntry {
        self.line = self.line.saturating_add(lines);
        self
    }
}

impl Numbered for QueryEntry {
    ghost use Rattle.serf_judge.specs.Identity.{Identity, query_seen};

    ghost Said = { Identity };

    ghost seen = { query_seen };

    fn with_line_raised(mut self, lines: u64) -> QueryEntry {
        self.line = self.line.saturating_add(lines);
        self
    }
}

impl Numbered for RunEntry {
    ghost use Rattle.serf_judge.specs.Runs.{Run, run_seen};

    ghost Said = { Run };

    ghost seen = { run_seen };

    fn with_line_raised(mut self, lines: u64) -> RunEntry {
        self.event.line = self.event.line.saturating_add(lines);
        self
    }
}

impl Numbered for BadLine {
    ghost use Rattle.serf_text.specs.declared.cause.Cause.{Cause};
    ghost use Rattle.serf_judge.specs.Said.{bad_seen};

    ghost Said = { Cause };

    ghost seen = { bad_seen };

    fn with_line_raised(self, lines: u64) -> BadLine {
        BadLine {
            line: self.line.saturating_add(lines),
            cause: self.cause,
        }
    }
}

impl Numbered for DatedLine {
    ghost use Rattle.std.specs.Prelude.{List, ℕ};
    ghost use Rattle.serf_judge.specs.Said.{date_seen};

    ghost Said = { List ℕ };

    ghost seen = { date_seen };

    fn with_line_raised(mut self, lines: u64) -> DatedLine {
        self.line = self.line.saturating_add(lines);
        self
    }
}

/// Returns the items in `first`, followed by the items in `more`. The line numbers of the items in `more` are raised by
/// `lines`.
fn joined<T: Numbered + Drop>(first: Vec<T>, more: Vec<T>, lines: u64) -> Result<Vec<T>, AllocError>
    ensures { IfOk result (λ all. map T.seen all.items
        ≡ map T.seen first.items ++ moved_on lines (map T.seen more.items)) }
{
    let mut all = first;
    for one in more {
        all.push(one.with_line_raised(lines))?;
    }
    Ok(all)
}

/// Returns a log that contains the entries of `first`, followed by the entries of `more`. The line numbers of `more`
/// continue those of `first`. Returns an `AllocError` only if memory runs out.
pub fn join_logs(first: Log, more: Log) -> Result<Log, AllocError>
    ensures { IfOk result (λ log. log_view log ≡ joined_logs (log_view first) (log_view more)) }
{
    let lines = first.lines;
    Ok(Log {
        fired: joined(first.fired, more.fired, lines)?,
        events: joined(first.events, more.events, lines)?,
        queries: joined(first.queries, more.queries, lines)?,
        runs: joined(first.runs, more.runs, lines)?,
        bad: joined(first.bad, more.bad, lines)?,
        dates: joined(first.dates, more.dates, lines)?,
        lines: lines.saturating_add(more.lines),
    })
}
