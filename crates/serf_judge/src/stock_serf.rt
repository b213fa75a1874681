//! Computes the clocks that stock Serf restores from a snapshot.

ghost use Rattle.std.specs.Prelude.{◌≡◌};
ghost use Rattle.serf_snapshot.specs.Clocks.{prefix_of};
ghost use Rattle.serf_snapshot.specs.declared.kind.ClockKind.TheVariants.{Event, Member, Query};
ghost use Rattle.serf_judge.specs.SerfClocks.{clock_after, number_after, serf_clock};

use crate::kept::is_leave_line;
use serf_snapshot::Clocks;
use serf_text::{number, split_once};

/// Returns the number below 2^64 that follows `prefix` in `line`. Returns `None` unless `line` consists of `prefix` and
/// such a number.
fn number_after(prefix: &[u8], line: &[u8]) -> Option<u64>
    ensures { result ≡ number_after prefix.now line.now }
{
    if line.starts_with(prefix) {
        number(&line[prefix.len()..])
    } else {
        None
    }
}

/// Returns the value of a clock after one more line of the snapshot. A clock line that begins with `prefix` sets the
/// clock. A line `leave` resets the clock to 0 unless Serf rejoins. Any other line leaves the clock at the value
/// `clock`.
fn clock_after(rejoins: bool, prefix: &[u8], clock: u64, line: &[u8]) -> u64
    ensures { result ≡ clock_after rejoins prefix.now clock line.now }
{
    if !rejoins && is_leave_line(line) {
        return 0;
    }
    match number_after(prefix, line) {
        Some(value) => value,
        None => clock,
    }
}

/// Returns the clocks that stock Serf 0.9.4 restores from the snapshot `text`. If `rejoins` is true, Serf is started
/// with `-rejoin`. Allocates no memory.
///
/// For each kind of clock, the last line of that kind determines the value, even if an earlier line has a larger value.
/// A clock for which there is no line is 0. Without `-rejoin`, a line `leave` resets all clocks to 0. A line with a
/// number of 2^64 or more is not a clock line, and neither is the text after the last newline. If a value is 2^64 - 1,
/// Serf accepts every time, because the minimum time that it accepts wraps to 0.
pub fn serf_clocks(text: &[u8], rejoins: bool) -> Clocks
    ensures member { result.member_clock ≡ serf_clock rejoins Member text.now }
    ensures event { result.event_clock ≡ serf_clock rejoins Event text.now }
    ensures query { result.query_clock ≡ serf_clock rejoins Query text.now }
{
    let mut clocks = Clocks {
        member_clock: 0,
        event_clock: 0,
        query_clock: 0,
    };
    let mut rest = text;
    'lines: loop {
        let (line, more) = split_once(rest, b'\n');
        match more {
            Some(next) => {
                clocks = after_line(clocks, line, rejoins);
                rest = next;
            }
            None => return clocks,
        }
    }
}

/// Returns the clocks after one more line of the snapshot.
fn after_line(clocks: Clocks, line: &[u8], rejoins: bool) -> Clocks
    ensures member { result.member_clock
        ≡ clock_after rejoins (prefix_of Member) clocks.member_clock line.now }
    ensures event { result.event_clock
        ≡ clock_after rejoins (prefix_of Event) clocks.event_clock line.now }
    ensures query { result.query_clock
        ≡ clock_after rejoins (prefix_of Query) clocks.query_clock line.now }
{
    Clocks {
        member_clock: clock_after(rejoins, b"clock: ", clocks.member_clock, line),
        event_clock: clock_after(rejoins, b"event-clock: ", clocks.event_clock, line),
        query_clock: clock_after(rejoins, b"query-clock: ", clocks.query_clock, line),
    }
}
