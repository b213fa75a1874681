//! The clocks of a snapshot, and how they are read from its clock lines (`snapshot.go`, `replay`).

ghost use Rattle.std.specs.Prelude.{◌≡◌, ◌-◌, ◌^◌, Some, max, min};
ghost use Rattle.std.specs.Str.{all_ascii_digits};
ghost use Rattle.serf_snapshot.specs.Clocks.{following, is_whole, line_value, of_kind, once_set, read_on, time_text_value};
ghost use Rattle.serf_snapshot.specs.declared.kind.ClockKind.TheVariants.{Member, Event, Query};

use crate::kind::ClockKind;

/// The values of the three clocks. A clock has the value 0 if there is no line of its kind.
#[derive(Clone, Copy, Debug, PartialEq, Eq)]
pub struct Clocks {
    /// The value of the member clock.
    pub member_clock: u64,
    /// The value of the event clock.
    pub event_clock: u64,
    /// The value of the query clock.
    pub query_clock: u64,
}

/// Returns whether all bytes of `text` are decimal digits.
pub(crate) fn is_all_digits(text: &[u8]) -> bool
    ensures { result ≡ all_ascii_digits text.now }
{
    for b in text {
        if !b.is_ascii_digit() {
            return false;
        }
    }
    true
}

/// Returns the number that `digits` spell in decimal, or 2^64 - 1 if this number is larger. The digit 0 is the byte
/// 48.
pub(crate) fn number_of(digits: &[u8]) -> u64
    ensures { result ≡ min (read_on 0 digits.now) (2 ^ 64 - 1) }
{
    let mut n: u64 = 0;
    for d in digits {
        n = n
            .saturating_mul(10)
            .saturating_add(d.saturating_sub(48) as u64);
    }
    n
}

/// Returns the time that the digits of a clock line spell, or 0 if they don't spell a time.
pub(crate) fn time_of(digits: &[u8]) -> u64
    ensures { result ≡ time_text_value (Some digits.now) }
{
    if digits.is_empty() || !is_all_digits(digits) {
        return 0;
    }
    let n = number_of(digits);
    if n == u64::MAX { 0 } else { n }
}

/// Returns the time in the clock line `line`, or 0 if the line doesn't begin with `prefix` or if no time follows the
/// prefix.
fn time_after(prefix: &[u8], line: &[u8]) -> u64
    ensures { result ≡ time_text_value (following prefix.now line.now) }
{
    match line.strip_prefix(prefix) {
        Some(digits) => time_of(digits),
        None => 0,
    }
}

impl Clocks {
    /// Returns these clocks, updated by one more line. The line may raise a clock, but never lowers one.
    pub(crate) fn after_line(self, line: &[u8]) -> Clocks
        ensures member { result.member_clock ≡ max self.member_clock (line_value Member line.now) }
        ensures event { result.event_clock ≡ max self.event_clock (line_value Event line.now) }
        ensures query { result.query_clock ≡ max self.query_clock (line_value Query line.now) }
    {
        Clocks {
            member_clock: self
                .member_clock
                .max(time_after(ClockKind::Member.prefix(), line)),
            event_clock: self
                .event_clock
                .max(time_after(ClockKind::Event.prefix(), line)),
            query_clock: self
                .query_clock
                .max(time_after(ClockKind::Query.prefix(), line)),
        }
    }
}

/// Returns whether `text` is empty or ends in a newline, so that its last line isn't torn.
pub(crate) fn ends_whole(text: &[u8]) -> bool
    ensures { result ≡ is_whole text.now }
{
    match text.last() {
        Some(b) => *b == b'\n',
        None => true,
    }
}

impl Clocks {
    /// Returns the value of the clock of this `kind`.
    pub(crate) fn of(self, kind: ClockKind) -> u64
        ensures { result ≡ of_kind kind self.member_clock self.event_clock self.query_clock }
    {
        match kind {
            ClockKind::Member => self.member_clock,
            ClockKind::Event => self.event_clock,
            ClockKind::Query => self.query_clock,
        }
    }

    /// Returns these clocks with the clock of this `kind` set to `time`.
    pub(crate) fn with(self, kind: ClockKind, time: u64) -> Clocks
        ensures member { result.member_clock ≡ once_set Member kind time self.member_clock }
        ensures event { result.event_clock ≡ once_set Event kind time self.event_clock }
        ensures query { result.query_clock ≡ once_set Query kind time self.query_clock }
    {
        match kind {
            ClockKind::Member => Clocks {
                member_clock: time,
                event_clock: self.event_clock,
                query_clock: self.query_clock,
            },
            ClockKind::Event => Clocks {
                member_clock: self.member_clock,
                event_clock: time,
                query_clock: self.query_clock,
            },
            ClockKind::Query => Clocks {
                member_clock: self.member_clock,
                event_clock: self.event_clock,
                query_clock: time,
            },
        }
    }
}
