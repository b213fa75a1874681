//! Writes clock lines, and the text of a compaction.

ghost use Rattle.std.specs.Prelude.{◌≡◌, ◌++◌, if◌then◌else◌, IfOk, OnOk};
ghost use Rattle.serf_snapshot.specs.Clocks.{clock_line};
ghost use Rattle.serf_snapshot.specs.EventLines.{kept_clock_line};
ghost use Rattle.serf_snapshot.specs.KeptAppends.{compaction_bytes, append_line_bytes, time_above_zero};

use crate::clocks::Clocks;
use crate::kind::ClockKind;
use itoa::Buffer;
use smallvec::SmallVec;
use std::alloc::{AllocError, Global};

/// The bytes of one or more lines. Up to 40 bytes, enough for a clock line, are stored without an allocation.
pub(crate) type LineBytes = SmallVec<u8, 40>;

/// The length of the longest clock line in bytes: a prefix of 13, a zero, 20 digits and a newline.
pub(crate) const LONGEST_LINE: usize = 35;

/// Appends the clock line of `kind` and `time` to `text`. If `kept` is true, the text also has lines of kept events,
/// of queries or of minimums, and the number gets a leading zero. If memory runs out, `text` may end in a part of the
/// line.
pub(crate) fn write_line(
    text: &mut LineBytes,
    kept: bool,
    kind: ClockKind,
    time: u64,
) -> Result<(), AllocError>
    ensures { OnOk result (text.new.items ≡ text.old.items
        ++ (if kept then kept_clock_line kind time else clock_line kind time)) }
{
    let mut buffer = Buffer::new();
    let zero: &[u8] = if kept { b"0" } else { b"" };
    text.extend_from_slice(kind.prefix())?;
    text.extend_from_slice(zero)?;
    text.extend_from_slice(buffer.format(time).as_bytes())?;
    text.extend_from_slice(b"\n")
}

/// Returns the bytes to append for `time`, if the last line of its kind has the time `last`. These are the clock line
/// of `time`, if `time` is above `last`, and then `own`.
pub(crate) fn bytes_of(
    alloc: Global,
    kind: ClockKind,
    time: u64,
    own: &[u8],
    last: u64,
) -> Result<LineBytes, AllocError>
    ensures { IfOk result (λ bytes. bytes.items ≡ append_line_bytes kind time own.now last) }
{
    let mut bytes = LineBytes::with_capacity(alloc, own.len().saturating_add(LONGEST_LINE))?;
    if last < time {
        write_line(&mut bytes, !own.is_empty(), kind, time)?;
    }
    bytes.extend_from_slice(own)?;
    Ok(bytes)
}

/// Appends the clock line of `time`, as [`write_line`] does, or nothing if `time` is 0.
fn write_above_zero(
    text: &mut LineBytes,
    kept: bool,
    kind: ClockKind,
    time: u64,
) -> Result<(), AllocError>
    ensures { OnOk result (text.new.items ≡ text.old.items ++ time_above_zero kept kind time) }
{
    if time == 0 {
        return Ok(());
    }
    write_line(text, kept, kind, time)
}

/// Returns the text of a compaction: `lines`, followed by the clock lines of `last`.
pub(crate) fn text_of(alloc: Global, lines: &[u8], last: Clocks) -> Result<LineBytes, AllocError>
    ensures { IfOk result (λ text. text.items
        ≡ compaction_bytes lines.now last.member_clock last.event_clock last.query_clock) }
{
    let kept = !lines.is_empty();
    let mut text = LineBytes::new(alloc);
    text.extend_from_slice(lines)?;
    write_above_zero(&mut text, false, ClockKind::Member, last.member_clock)?;
    write_above_zero(&mut text, kept, ClockKind::Event, last.event_clock)?;
    write_above_zero(&mut text, kept, ClockKind::Query, last.query_clock)?;
    Ok(text)
}
