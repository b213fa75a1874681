//! The kinds of clock lines.

ghost use Rattle.std.specs.Prelude.{◌≡◌};
ghost use Rattle.serf_snapshot.specs.Clocks.{prefix_of};

/// The three kinds of clock lines.
#[derive(Clone, Copy, Debug, PartialEq, Eq)]
pub enum ClockKind {
    /// The member clock, whose lines begin with `clock: `.
    Member,
    /// The event clock, whose lines begin with `event-clock: `.
    Event,
    /// The query clock, whose lines begin with `query-clock: `.
    Query,
}

impl ClockKind {
    /// Returns the prefix with which a clock line of this kind begins.
    pub(crate) fn prefix(self) -> &'static [u8]
        ensures { result.now ≡ prefix_of self }
    {
        match self {
            ClockKind::Member => b"clock: ",
            ClockKind::Event => b"event-clock: ",
            ClockKind::Query => b"query-clock: ",
        }
    }
}
