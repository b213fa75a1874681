//! Shows the progress of a long run on a terminal.

use crate::io::Io;
use serf_schedule::Watch;
use serf_text::Part::{self, Number, Text};
use std::io;
use std::time::{Duration, Instant};

/// The number of seconds between two progress lines. A run that takes less time than this shows no progress line.
const PERIOD_SECONDS: u64 = 1;

/// How the progress of a run is counted: the name of the counted items in progress lines, and the number of items after
/// which the clock is read again.
#[derive(Clone, Copy)]
pub(crate) struct Counted<'a>(&'a str, u64);

pub(crate) const ACTIONS: Counted<'static> = Counted("actions", 1024);

pub(crate) const BYTES: Counted<'static> = Counted("bytes read", 1);

pub(crate) const CALLS: Counted<'static> = Counted("calls left out", 1);

pub(crate) const SEEDS: Counted<'static> = Counted("seeds", 1);

/// If a kind of schedules is given, writes this kind before a progress line.
pub(crate) fn say_kind(io: Io, kind: Option<&str>) -> io::Result<()> {
    match kind {
        Some(kind) => eprint!(io.rt; "kind {kind}: "),
        None => Ok(()),
    }
}

/// If standard error is a terminal, shows the progress of a run there once a second.
///
/// If the clock can't be read, or if the terminal refuses a line, the run continues without any more progress lines.
#[derive(Drop)]
pub(crate) struct Progress<'a> {
    io: Io<'a>,
    /// The time when the last progress line was shown or, before the first line, when the run began. The value is
    /// `None` if no line will be shown.
    since: Option<Instant>,
    counted: Counted<'a>,
    /// The kind of the schedules that are made, or `None` if progress lines show no kind.
    kind: Option<&'a str>,
    /// The number of items that earlier runs completed before the current run began.
    before: u64,
}

impl<'a> Progress<'a> {
    /// Makes all following progress lines show `kind`, if it is given, and add `before` to their counts.
    pub(crate) fn resume(&mut self, kind: Option<&'static str>, before: u64) {
        self.kind = kind;
        self.before = before;
    }

    /// Creates the progress display of a run that begins now.
    pub(crate) fn of(io: Io<'a>, counted: Counted<'static>) -> Progress<'a> {
        let since = if io.is_terminal {
            Instant::now(io.rt).ok()
        } else {
            None
        };
        Progress {
            io,
            since,
            counted,
            kind: None,
            before: 0,
        }
    }

    /// If the previous progress line is at least a second old, shows the next line. If the total `all` is unknown, the
    /// line contains no total. Returns the time of the last line that was shown, or `None` if no more lines will be
    /// shown.
    fn show(&self, since: Instant, done: u64, all: u64) -> Option<Instant> {
        let now = Instant::now(self.io.rt).ok()?;
        if now.duration_since(since) < Duration::from_secs(PERIOD_SECONDS) {
            return Some(since);
        }
        say_kind(self.io, self.kind).ok()?;
        let things = Text(self.counted.0.as_bytes());
        let (text, second): (&[u8], Part) = match all {
            u64::MAX => (b"~ ~\n", things),
            _ => (b"~ of ~ ~\n", Number(all)),
        };
        self.io.report(text, &[Number(done), second, things]);
        Some(now)
    }
}

impl Watch for Progress<'_> {
    fn is_watching(&self) -> bool {
        self.since.is_some()
    }

    fn acted(&mut self, done: u64, all: u64) {
        if let Some(since) = self.since
            && done.is_multiple_of(self.counted.1)
        {
            let done = done.saturating_add(self.before);
            let all = all.saturating_add(self.before);
            self.since = self.show(since, done, all);
        }
    }
}
