//! The lines that an agent appends for a Lamport time: a clock line, and next to it the line of an event, a query or a
//! minimum time, if there is one.

ghost use Rattle.std.specs.Prelude.{◌≡◌, false, true, MatchOption, None};
ghost use Rattle.serf_snapshot.specs.KeptAppends.{lines_given};
ghost use Rattle.serf_agent.specs.Steps.{WritesLine};

use serf_lamport::Time;
use serf_snapshot::{AppendLineError, ClockKind, Sink, Snapshot};
use std::alloc::Global;
use std::marker::Model;

/// The line written together with a clock line, for an event, a query or a minimum time. It is empty if the settings
/// don't keep events.
#[derive(Drop)]
pub(crate) struct OwnLine {
    bytes: Vec<u8>,
}

impl Model for OwnLine {
    ghost use Rattle.std.specs.Prelude.{ℕ, List, Option};
    ghost use Rattle.serf_snapshot.specs.KeptAppends.{lines_given};

    ghost Value = { Option (List ℕ) };

    ghost view = { λ l. lines_given l.bytes.items };
}

impl OwnLine {
    /// Makes the line with these bytes.
    pub(crate) fn of(bytes: Vec<u8>) -> OwnLine
        ensures { result ≡ lines_given bytes.items }
    {
        OwnLine { bytes }
    }

    /// The empty line. Allocates no memory.
    pub(crate) fn none(alloc: Global) -> OwnLine
        ensures { result ≡ None }
    {
        OwnLine::of(Vec::new(alloc))
    }

    /// Whether there is no line.
    pub(crate) fn is_none(&self) -> bool
        ensures { MatchOption self.now (result ≡ true) (λ line. result ≡ false) }
    {
        self.bytes.is_empty()
    }

    /// The line's bytes; they are empty if there is no line.
    fn as_slice(&self) -> &[u8]
        ensures { lines_given result.now ≡ self.now }
    {
        self.bytes.as_slice()
    }
}

/// Appends the clock line of `kind` and `time`, and also `line` if there is one. The sink gets everything in one append
/// and one flush.
pub(crate) fn append_lines<S: Sink>(
    snapshot: &mut Snapshot<S>,
    alloc: Global,
    kind: ClockKind,
    time: Time,
    line: &OwnLine,
) -> Result<(), AppendLineError>
    requires { snapshot.old.snapshot.stopped ≡ false }
    ensures { WritesLine kind time line.now snapshot.old snapshot.new result }
{
    snapshot.append_line(alloc, kind, time, line.as_slice())
}
