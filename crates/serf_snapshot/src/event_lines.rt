//! Writes the lines of an agent that keeps its events. Each public function appends one line to `text`.

ghost use Rattle.std.specs.Prelude.{◌≡◌, ◌+◌, ◌*◌, ◌++◌, ◌∷◌, OnOk, decimal, take, vec_len};
ghost use Rattle.hex.specs.Hex.{encode_lower};
ghost use Rattle.serf_snapshot.specs.EventLines.{event_line, kept_clock_line, min_line, min_prefix, query_line};

use crate::clock_lines::{LineBytes, write_line};
use crate::kind::ClockKind;
use itoa::Buffer;
use serf_lamport::Time;
use std::alloc::AllocError;

/// Appends `n` in decimal.
pub(crate) fn write_number(text: &mut Vec<u8>, n: u64) -> Result<(), AllocError>
    ensures { OnOk result (text.new.items ≡ text.old.items ++ decimal n) }
{
    let mut buffer = Buffer::new();
    text.extend_from_slice(buffer.format(n).as_bytes())
}

/// Appends two zero bytes for each of `bytes` bytes. The caller then overwrites the zero bytes with hex digits.
fn grow(text: &mut Vec<u8>, bytes: usize) -> Result<(), AllocError>
    ensures front { OnOk result (take (vec_len text.old) text.new.items ≡ text.old.items) }
    ensures len { OnOk result (vec_len text.new ≡ vec_len text.old + 2 * bytes) }
{
    let len = text.len();
    text.resize(len.saturating_add(bytes.saturating_mul(2)), 0)
}

/// Appends `bytes` in hex.
fn write_hex(text: &mut Vec<u8>, bytes: &[u8]) -> Result<(), AllocError>
    ensures { OnOk result (text.new.items ≡ text.old.items ++ encode_lower bytes.now) }
{
    let from = text.len();
    grow(text, bytes.len())?;
    match hex::encode_to_slice(bytes, &mut text[from..]) {
        Ok(()) => Ok(()),
        Err(_) => unreachable!(),
    }
}

/// Appends a space, and then `bytes` in hex.
pub(crate) fn write_hex_part(text: &mut Vec<u8>, bytes: &[u8]) -> Result<(), AllocError>
    ensures { OnOk result (text.new.items ≡ text.old.items ++ 32 ∷ encode_lower bytes.now) }
{
    text.extend_from_slice(b" ")?;
    write_hex(text, bytes)
}

/// Appends the line of an event: `#event`, the event's time, and its name and its payload in hex, with single spaces
/// between them. The line has two bytes for each byte of the name and the payload, and at most 30 more. If memory
/// runs out, the call returns an `AllocError`, and `text` may then end in a part of the line.
pub fn write_event_line(
    text: &mut Vec<u8>,
    time: Time,
    name: &[u8],
    payload: &[u8],
) -> Result<(), AllocError>
    ensures { OnOk result (text.new.items ≡ text.old.items
        ++ event_line time name.now payload.now) }
{
    text.extend_from_slice(b"#event ")?;
    write_number(text, time.get())?;
    write_hex_part(text, name)?;
    write_hex_part(text, payload)?;
    text.extend_from_slice(b"\n")
}

/// Appends the line of a query, which has at most 39 bytes: `#query`, the query's time and its ID, with single spaces
/// between them. If memory runs out, the call returns an `AllocError`, and `text` may then end in a part of the line.
pub fn write_query_line(text: &mut Vec<u8>, time: Time, id: u32) -> Result<(), AllocError>
    ensures { OnOk result (text.new.items ≡ text.old.items ++ query_line time id) }
{
    text.extend_from_slice(b"#query ")?;
    write_number(text, time.get())?;
    text.extend_from_slice(b" ")?;
    write_number(text, id as u64)?;
    text.extend_from_slice(b"\n")
}

/// Returns the beginning of a `#least` line of this `kind`.
pub(crate) fn min_prefix_of(kind: ClockKind) -> &'static [u8]
    ensures { result.now ≡ min_prefix kind }
{
    match kind {
        ClockKind::Member => b"#least clock: ",
        ClockKind::Event => b"#least event-clock: ",
        ClockKind::Query => b"#least query-clock: ",
    }
}

/// Appends the line of a minimum time, which has at most 41 bytes: `#least`, a space and a clock line. If memory runs
/// out, the call returns an `AllocError`, and `text` may then end in a part of the line.
pub fn write_min_line(text: &mut Vec<u8>, kind: ClockKind, time: u64) -> Result<(), AllocError>
    ensures { OnOk result (text.new.items ≡ text.old.items ++ min_line kind time) }
{
    text.extend_from_slice(min_prefix_of(kind))?;
    write_number(text, time)?;
    text.extend_from_slice(b"\n")
}

/// Appends the clock line of a time whose events or queries have their own lines. Its number has one leading zero,
/// and the line has at most 35 bytes. If memory runs out, the call returns an `AllocError`, and `text` may then end
/// in a part of the line.
pub fn write_kept_clock_line(
    text: &mut Vec<u8>,
    kind: ClockKind,
    time: u64,
) -> Result<(), AllocError>
    ensures { OnOk result (text.new.items ≡ text.old.items ++ kept_clock_line kind time) }
{
    let mut line = LineBytes::new(*text.allocator());
    write_line(&mut line, true, kind, time)?;
    text.extend_from_slice(line.as_slice())
}
