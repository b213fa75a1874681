//! Appends JSON objects about events and queries that nodes were handed again.

ghost use Rattle.std.specs.Prelude.{◌≡◌, ◌++◌, ◌∷◌, [], ℕ, List, OnOk, map};
ghost use Rattle.std.specs.List.{flat_map};
ghost use Rattle.serf_judge.specs.Identity.{Identity, handed_seen};
ghost use Rattle.serf_judge_json.specs.Repeats.{AreFirsts, again_text, repeat_text, repeats_text, tallies_text, tally_text};

use crate::entries::write_about;
use crate::kind::Kind;
use crate::places::LineFinder;
use indexmap::IndexMap;
use serf_json::Member::{Bytes, Number, Text};
use serf_json::write_joined;
use serf_judge::{Delivered, Delivery, Key, Tally, tally_repeats};
use std::alloc::{AllocError, Global};

/// Appends an object about the line `late`, which hands a node the same event or query as the earlier line `first`.
#[tactic(auto, unfolding(serf_json::specs::Object::members_text, crate::specs::Repeats::repeat_text))]
fn write_repeat(
    alloc: Global,
    out: &mut Vec<u8>,
    finder: &LineFinder,
    kind: Kind,
    late: &Delivery,
    first: u64,
) -> Result<(), AllocError>
    ensures { OnOk result (out.new.items ≡ out.old.items
        ++ repeat_text finder.now.places kind (handed_seen late.now) first) }
{
    let (place, early) = (finder.place(late.line), finder.place(first));
    let front = [
        Text(b"of", kind.word()),
        Text(b"log", place.log),
        Number(b"line", place.line),
        place.date_member(b"date"),
        Text(b"earlier_log", early.log),
        Number(b"earlier_line", early.line),
        early.date_member(b"earlier_date"),
    ];
    write_about(alloc, out, b"repeat", &front, kind, &late.key)
}

/// If `firsts` contains an earlier line that handed the same event or query to the same node, appends an object about
/// `late`. Otherwise, records the line of `late` in `firsts`, and appends nothing.
fn write_if_again<'a>(
    alloc: Global,
    out: &mut Vec<u8>,
    finder: &LineFinder,
    kind: Kind,
    firsts: &mut IndexMap<Key<'a>, u64>,
    late: Delivery<'a>,
) -> Result<(), AllocError>
    ensures { (lines : List (ℕ × Identity)) → AreFirsts lines firsts.old
        → OnOk result (AreFirsts (lines ++ handed_seen late.entry ∷ []) firsts.new
        × (out.new.items ≡ out.old.items
        ++ again_text finder.now.places kind lines (handed_seen late.entry))) }
{
    let first = firsts.get(&late.key).copied();
    match first {
        Some(first) => write_repeat(alloc, out, finder, kind, &late, first),
        None => match firsts.insert(late.key, late.line) {
            Ok(_) => Ok(()),
            Err(_) => Err(AllocError),
        },
    }
}

/// Appends an object for each entry in `entries` that repeats an earlier entry, that is, hands the same event or query
/// to the same node. The object also contains the first line that handed the event or query to the node.
pub(crate) fn write_repeats<E: Delivered>(
    alloc: Global,
    out: &mut Vec<u8>,
    finder: &LineFinder,
    kind: Kind,
    entries: &[E],
) -> Result<(), AllocError>
    ensures { OnOk result (out.new.items ≡ out.old.items
        ++ repeats_text finder.now.places kind (map E.seen entries.now)) }
{
    let mut firsts: IndexMap<Key, u64> = IndexMap::new(alloc);
    for entry in entries {
        write_if_again(alloc, out, finder, kind, &mut firsts, entry.handed())?;
    }
    Ok(())
}

/// Appends an object that contains the number, the times and the lines of the events or queries that a node was handed
/// again.
#[tactic(auto, unfolding(serf_json::specs::Object::members_text, crate::specs::Repeats::tally_text))]
fn write_tally<'a>(
    out: &mut Vec<u8>,
    finder: &LineFinder<'a>,
    kind: Kind,
    node: &'a [u8],
    tally: Tally,
) -> Result<(), AllocError>
    ensures { OnOk result (out.new.items ≡ out.old.items
        ++ tally_text finder.now.places kind (node.entry.now, tally)) }
{
    let (first, last) = (
        finder.place(tally.first_line),
        finder.place(tally.last_line),
    );
    let about = [
        Text(b"of", kind.word()),
        Bytes(b"node", node),
        Number(b"count", tally.count),
        Number(b"min_time", tally.min_time),
        Number(b"max_time", tally.largest_time),
    ];
    let lines = [
        Text(b"first_log", first.log),
        Number(b"first_line", first.line),
        first.date_member(b"first_date"),
        Text(b"last_log", last.log),
        Number(b"last_line", last.line),
        last.date_member(b"last_date"),
    ];
    write_joined(out, b"tally", &about, &lines)
}

/// Appends an object for each node that was handed an event or a query again.
pub(crate) fn write_tallies<E: Delivered>(
    alloc: Global,
    out: &mut Vec<u8>,
    finder: &LineFinder,
    kind: Kind,
    entries: &[E],
) -> Result<(), AllocError>
    ensures { OnOk result (out.new.items ≡ out.old.items
        ++ tallies_text finder.now.places kind (map E.seen entries.now)) }
{
    let tallies = tally_repeats(alloc, entries)?;
    for told in tallies.as_slice() {
        write_tally(out, &*finder, kind, told.node, told.tally)?;
    }
    Ok(())
}
