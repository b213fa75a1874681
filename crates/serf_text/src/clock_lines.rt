//! Writes the text of a snapshot's clocks, which has one line for each kind of clock.
ghost use Rattle.std.specs.Prelude.{◌≡◌, ◌++◌, OnOk, IfOk};
ghost use Rattle.serf_text.specs.ClocksText.{clock_entries, clock_entry, clock_word};

use crate::put::write_number_line;
use serf_snapshot::{ClockKind, Clocks};
use std::alloc::{AllocError, Global};

/// Returns the word with which the line of the clock `kind` begins.
fn word(kind: ClockKind) -> &'static [u8]
    ensures { result.now ≡ clock_word kind }
{
    match kind {
        ClockKind::Member => b"clock",
        ClockKind::Event => b"event-clock",
        ClockKind::Query => b"query-clock",
    }
}

/// Appends the line of the clock `kind`, which has the value `time`.
#[tactic(auto, unfolding(crate::specs::ClocksText::clock_entry))]
fn write_clock(out: &mut Vec<u8>, kind: ClockKind, time: u64) -> Result<(), AllocError>
    ensures { OnOk result (out.new.items ≡ out.old.items ++ clock_entry kind time) }
{
    write_number_line(out, word(kind), time)
}

/// Returns the text of a snapshot's clocks. It has one line for each clock: `clock N`, `event-clock N` and
/// `query-clock N`.
///
/// Returns an `AllocError` only if memory runs out for the lines.
pub fn clocks_text(alloc: Global, clocks: Clocks) -> Result<Vec<u8>, AllocError>
    ensures { IfOk result (λ lines. lines.items ≡ clock_entries clocks) }
{
    let mut out = Vec::new(alloc);
    write_clock(&mut out, ClockKind::Member, clocks.member_clock)?;
    write_clock(&mut out, ClockKind::Event, clocks.event_clock)?;
    write_clock(&mut out, ClockKind::Query, clocks.query_clock)?;
    Ok(out)
}
