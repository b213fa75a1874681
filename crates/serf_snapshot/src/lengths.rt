//! Computes the lengths, in bytes, of a snapshot's text and of its lines for kept events and queries. None of these
//! functions allocates memory.

ghost use Rattle.std.specs.Prelude.{◌≡◌, ◌-◌, ◌*◌, ◌^◌, ◌<◌, ◌≤◌, ◌&&◌, List, ℕ, decimal, false, length, min, nat_le, nat_lt};
ghost use Rattle.serf_snapshot.specs.Clocks.{line_above_zero, sealed};
ghost use Rattle.serf_snapshot.specs.Compaction.{counted, is_worth_replacing};
ghost use Rattle.serf_snapshot.specs.EventLines.{event_line, min_line, query_line};
ghost use Rattle.serf_snapshot.specs.KeptAppends.{compaction_bytes, kept_line_above_zero, time_above_zero};

use crate::clocks::{Clocks, ends_whole};
use crate::event_lines::min_prefix_of;
use crate::kind::ClockKind;
use itoa::Buffer;
use serf_lamport::Time;

/// Returns the length that `text` has once a torn last line is sealed, in bytes. The seal of a torn line adds two
/// bytes. The result is at most 2^64 - 1.
pub(crate) fn sealed_length(text: &[u8]) -> u64
    ensures { result ≡ min (length (sealed text.now)) (2 ^ 64 - 1) }
{
    let length = text.len() as u64;
    if ends_whole(text) {
        length
    } else {
        length.saturating_add(2)
    }
}

/// Returns the number of decimal digits of `n`.
fn digits_of(n: u64) -> u64
    ensures exact { result ≡ length (decimal n) }
    ensures short { result ≤ 20 }
{
    let mut buffer = Buffer::new();
    buffer.format(n).len() as u64
}

/// Returns how many hex digits spell `bytes`. The result is at most 2^64 - 1.
fn hex_length(bytes: &[u8]) -> u64
    ensures { result ≡ min (2 * length bytes.now) (2 ^ 64 - 1) }
{
    (bytes.len() as u64).saturating_mul(2)
}

/// Returns the length, in bytes, of the line that `write_event_line` writes for an event. The result is at most
/// 2^64 - 1. Allocates no memory.
pub fn event_line_length(time: Time, name: &[u8], payload: &[u8]) -> u64
    ensures { result ≡ counted (event_line time name.now payload.now) }
{
    let texts = hex_length(name).saturating_add(hex_length(payload));
    // These 10 bytes are `#event `, a space before each text, and the newline.
    texts.saturating_add(digits_of(time.get()) + 10)
}

/// Returns the length, in bytes, of the line that `write_query_line` writes for a query. Allocates no memory.
pub fn query_line_length(time: Time, id: u32) -> u64
    ensures { result ≡ length (query_line time id) }
{
    // These 9 bytes are `#query `, the space before the ID, and the newline.
    digits_of(time.get()) + digits_of(id as u64) + 9
}

/// Returns the length, in bytes, of the `#least` line that `write_min_line` writes. Allocates no memory.
pub fn min_line_length(kind: ClockKind, time: u64) -> u64
    ensures { result ≡ length (min_line kind time) }
{
    min_prefix_of(kind).len() as u64 + digits_of(time) + 1
}

/// Returns the length, in bytes, of the clock line of `time` with its newline. The time 0 has no line, so its length
/// is 0.
fn line_length(kind: ClockKind, time: u64) -> u64
    ensures exact { result ≡ length (line_above_zero kind time) }
    ensures short { result ≤ 34 }
{
    if time == 0 {
        return 0;
    }
    kind.prefix().len() as u64 + digits_of(time) + 1
}

/// Returns the length, in bytes, of the clock line of `time` with a leading zero in its number and with its newline.
/// The time 0 has no line, so its length is 0.
fn kept_line_length(kind: ClockKind, time: u64) -> u64
    ensures exact { result ≡ length (kept_line_above_zero kind time) }
    ensures short { result ≤ 35 }
{
    if time == 0 {
        return 0;
    }
    kind.prefix().len() as u64 + digits_of(time) + 2
}

/// Returns the length, in bytes, of the clock line of `time` in a compaction. If `kept` is true, lines of kept
/// events, of queries or of minimums precede the clock line, and its number has a leading zero.
fn length_after(kept: bool, kind: ClockKind, time: u64) -> u64
    ensures exact { result ≡ length (time_above_zero kept kind time) }
    ensures short { result ≤ 35 }
    ensures plain { kept ≡ false → result ≤ 34 }
{
    if kept {
        return kept_line_length(kind, time);
    }
    line_length(kind, time)
}

/// Returns the length of a compaction's text in bytes. This is `lines_length`, the length of the other lines (0 if
/// there are none), plus the length of the clock lines of `last`. The result is at most 2^64 - 1.
pub(crate) fn compaction_length(lines_length: u64, last: Clocks) -> u64
    ensures exact { (lines : List ℕ) → lines_length ≡ counted lines → result ≡ counted
        (compaction_bytes lines last.member_clock last.event_clock last.query_clock) }
    ensures short { lines_length ≡ 0 → result ≤ 102 }
{
    let kept = 0 < lines_length;
    let clocks_length = line_length(ClockKind::Member, last.member_clock)
        + length_after(kept, ClockKind::Event, last.event_clock)
        + length_after(kept, ClockKind::Query, last.query_clock);
    lines_length.saturating_add(clocks_length)
}

/// Returns whether it is worth replacing a text of `kept` bytes with a text of `new_length` bytes. It is if the old
/// text has more than `limit` bytes, and if the replacement removes at least half of them. A length above 2^64 - 1
/// counts as 2^64 - 1.
pub(crate) fn is_worth_replacing(limit: u64, kept: u64, new_length: u64) -> bool
    ensures exact { (new text : List ℕ) → new_length ≡ counted new → kept ≡ counted text
        → result ≡ is_worth_replacing limit new text }
    ensures short { (new text : List ℕ) → new_length ≡ counted new → new_length ≤ 102
        → limit < 2 ^ 64 - 1 → kept ≡ counted text → result
        ≡ (nat_lt limit (length text) && nat_le (2 * length new) (length text)) }
    ensures never { limit ≡ 2 ^ 64 - 1 → result ≡ false }
{
    limit < kept && new_length <= kept / 2
}
