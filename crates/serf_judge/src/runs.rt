//! Finds the handlers of events that began and never ended. Lines are read in reverse order, and events are looked up
//! by their hashes.

ghost use Rattle.std.specs.Prelude.{◌≡◌, ℕ, ◌+◌, ◌-◌, ◌^◌, ◌==◌, ◌&&◌, ◌∷◌, min, not, if◌then◌else◌, IfOk, List, map};
ghost use Rattle.serf_judge.specs.Identity.{handed_seen, key_identity};
ghost use Rattle.serf_judge.specs.Runs.{AreCounted, Run, cut_off_of, ends_of, is_cut_off, run_seen};

use crate::entry::RunEntry;
use crate::key::{Delivered, Delivery, Key};
use std::alloc::{AllocError, Global};
use std::collections::HashMap;

/// Returns the count of `key` in `counts`, or 0 if the table doesn't contain the key.
fn ends_at(counts: &HashMap<Key, u64>, key: &Key) -> u64
    ensures { (later : List (ℕ × Run)) → AreCounted later counts.now
        → result ≡ ends_of (key_identity key.now) later }
{
    match counts.get(key) {
        Some(ends) => *ends,
        None => 0,
    }
}

/// Returns how many handlers of an event have ended on lines that were already read, but began on lines that weren't
/// read yet. Lines are read backwards, and `ends` is the result for the lines that were read before the current line.
/// If `has_ended` is true, one more handler ended on the line. Otherwise, a handler began on the line, and one of the
/// ends belongs to that handler.
fn ends_with(ends: u64, has_ended: bool) -> u64
    ensures { result ≡ (if has_ended then min (ends + 1) (2 ^ 64 - 1) else ends - 1) }
{
    if has_ended {
        ends.saturating_add(1)
    } else {
        ends.saturating_sub(1)
    }
}

/// Returns whether a handler began on a line and ended on no later line. `ends` is the count for the later lines. If
/// `has_ended` is true, a handler ended on the line instead, and the result is false.
fn is_unended(ends: u64, has_ended: bool) -> bool
    ensures { result ≡ (not has_ended && ends == 0) }
{
    !has_ended && ends == 0
}

/// Counts the line `run`, which precedes the lines that are already in `counts`. Returns whether a handler began on the
/// line and ended on none of the later lines.
fn count_line<'a>(counts: &mut HashMap<Key<'a>, u64>, run: &'a RunEntry) -> Result<bool, AllocError>
    ensures { (later : List (ℕ × Run)) → AreCounted later counts.old
        → IfOk result (λ cut. (cut ≡ is_cut_off (run_seen run.entry.now).1 later)
        × AreCounted (run_seen run.entry.now ∷ later) counts.new) }
{
    let key = run.event.handed().key;
    let ends = ends_at(counts, &key);
    let has_ended = run.status.is_some();
    let _ = counts.insert(key, ends_with(ends, has_ended))?;
    Ok(is_unended(ends, has_ended))
}

/// Returns, in order, the lines in `runs` on which a handler began that never ended. If several handlers of the same
/// event are running, a line that reports an end belongs to the handler that began last.
///
/// The function looks up each line once, by the hash of its event. Returns an `AllocError` only if memory runs out.
pub fn cut_off<'a>(alloc: Global, runs: &'a [RunEntry]) -> Result<Vec<Delivery<'a>>, AllocError>
    ensures { IfOk result (λ found. map handed_seen found.items
        ≡ cut_off_of (map run_seen runs.entry.now)) }
{
    let mut counts = HashMap::new(alloc);
    let mut found = Vec::new(alloc);
    let mut rest = runs;
    'runs: while let Some((run, before)) = rest.split_last() {
        if count_line(&mut counts, run)? {
            found.push(run.event.handed())?;
        }
        rest = before;
    }
    found.reverse();
    Ok(found)
}
