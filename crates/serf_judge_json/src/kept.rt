//! Writes the events and queries that a node can be handed again after a program was started on its snapshot.

ghost use Rattle.std.specs.Prelude.{◌≡◌, ◌++◌, IfOk, OnOk, codes};
ghost use Rattle.std.specs.Option.{is_some, option_map};
ghost use Rattle.serf_json.specs.Object.{member_text, members_text, object_text};
ghost use Rattle.serf_snapshot.specs.declared.kind.ClockKind.TheVariants.{Event, Query};
ghost use Rattle.serf_judge.specs.HandedAgain.{is_again};
ghost use Rattle.serf_judge.specs.Identity.{handed_seen};
ghost use Rattle.serf_judge_json.specs.Members.{joined};
ghost use Rattle.serf_judge_json.specs.Kept.{again_members, can_repeat, first_again as first_again_of, kept_events_text, kept_queries_text, kept_text, kept_text_of, reader_word, rejoin_member, restored_clock};

use crate::kind::Kind;
use crate::places::{LineFinder, LogPlaces};
use serf_json::Member::{self, Absent, Bytes, Flag, Number, Text};
use serf_json::write_joined;
use serf_judge::{Delivery, Log, Offered, Reader, first_again, serf_clocks};
use serf_snapshot::{Clocks, read_clocks};
use std::alloc::{AllocError, Global};

/// A node's snapshot, and the program that is started on it.
#[derive(Clone, Copy)]
struct Kept<'a> {
    node: &'a [u8],
    snapshot: &'a [u8],
    reader: Reader,
    /// Whether the snapshot contains a line `leave`. If the snapshot contains no line `leave`, it makes no difference
    /// whether Serf is started with `-rejoin`.
    has_left: bool,
}

/// Returns the clocks that `reader` restores from a snapshot.
fn restored_clocks(reader: Reader, snapshot: &[u8]) -> Clocks
    ensures event { result.event_clock ≡ restored_clock Event reader snapshot.now }
    ensures query { result.query_clock ≡ restored_clock Query reader snapshot.now }
{
    match reader {
        Reader::Serf { rejoins } => serf_clocks(snapshot, rejoins),
        Reader::Agent { .. } => read_clocks(snapshot),
    }
}

/// Returns the word for the program that is started on a snapshot.
fn reader_word(reader: Reader) -> &'static [u8]
    ensures { result.now ≡ reader_word reader }
{
    match reader {
        Reader::Serf { .. } => b"serf",
        Reader::Agent { keeps: false } => b"own",
        Reader::Agent { keeps: true } => b"own-kept",
    }
}

/// Returns the member `rejoin`, which is true if Serf is started with `-rejoin`. The member is absent if `-rejoin`
/// makes no difference.
fn rejoin_in<'a>(reader: Reader, has_left: bool) -> Member<'a>
    ensures { member_text result ≡ rejoin_member reader has_left }
{
    match reader {
        Reader::Serf { rejoins } if has_left => Flag(b"rejoin", rejoins),
        _ => Absent,
    }
}

/// Returns the first entry in `entries` that can be handed to the node again.
fn find_again<'a, E: Offered>(
    alloc: Global,
    kept: &Kept,
    entries: &'a [E],
) -> Result<Option<Delivery<'a>>, AllocError>
    ensures { IfOk result (λ found. option_map handed_seen found
        ≡ first_again_of (is_again E.kind E.seen E.is_new kept.now.reader kept.now.snapshot.now
        kept.now.node.now) E.seen entries.entry.now) }
{
    match first_again(alloc, kept.reader, kept.snapshot, entries, kept.node)? {
        Some(place) => match entries.get(place) {
            Some(entry) => Ok(Some(entry.handed())),
            None => Ok(None),
        },
        None => Ok(None),
    }
}

/// Appends an object that contains the members in `front`, and reports that `found` can be handed out again.
#[tactic(auto, unfolding(serf_json::specs::Object::members_text))]
fn write_again(
    out: &mut Vec<u8>,
    finder: &LineFinder,
    front: &[Member],
    found: &Delivery,
) -> Result<(), AllocError>
    ensures { OnOk result (out.new.items ≡ out.old.items ++ object_text (codes "kept")
        (members_text front.now
        ++ joined (again_members finder.now.places (Some (handed_seen found.now))))) }
{
    let place = finder.place(found.line);
    let about = [
        Flag(b"again", true),
        Text(b"log", place.log),
        Number(b"line", place.line),
        place.date_member(b"date"),
        Number(b"time", found.key.time),
    ];
    write_joined(out, b"kept", front, &about)
}

/// Appends an object that reports whether an entry of the kind `kind` can be handed to the node again. If there are
/// entries that can be handed to the node again, `found` is the line of the first one. `clock` is the clock that is
/// restored.
#[tactic(auto, unfolding(serf_json::specs::Object::members_text, crate::specs::Kept::kept_text))]
fn write_kept(
    out: &mut Vec<u8>,
    finder: &LineFinder,
    kept: &Kept,
    kind: Kind,
    clock: u64,
    found: &Option<Delivery>,
) -> Result<(), AllocError>
    ensures { OnOk result (out.new.items ≡ out.old.items ++ kept_text finder.now.places kind
        kept.now.node.now kept.now.reader kept.now.has_left clock
        (option_map handed_seen found.now)) }
{
    let front = [
        Bytes(b"node", kept.node),
        Text(b"of", kind.word()),
        Text(b"reader", reader_word(kept.reader)),
        rejoin_in(kept.reader, kept.has_left),
        Number(b"clock", clock),
    ];
    match found {
        Some(found) => write_again(out, finder, &front, found),
        None => write_joined(out, b"kept", &front, &[Flag(b"again", false)]),
    }
}

/// Appends an object that reports whether an entry in `entries` can be handed to the node again. If several entries can
/// be handed to the node again, the object describes the first one. `clock` is the clock that is restored. Returns
/// whether an entry can be handed to the node again. If `entries` is empty, appends nothing.
fn write_kind<E: Offered>(
    alloc: Global,
    out: &mut Vec<u8>,
    finder: &LineFinder,
    kept: &Kept,
    kind: Kind,
    clock: u64,
    entries: &[E],
) -> Result<bool, AllocError>
    ensures again { IfOk result (λ again. again ≡ is_some (first_again_of (is_again E.kind E.seen
        E.is_new kept.now.reader kept.now.snapshot.now kept.now.node.now) E.seen entries.now)) }
    ensures text { OnOk result (out.new.items ≡ out.old.items ++ kept_text_of entries.now
        (kept_text finder.now.places kind kept.now.node.now kept.now.reader kept.now.has_left clock
        (first_again_of (is_again E.kind E.seen E.is_new kept.now.reader kept.now.snapshot.now
        kept.now.node.now) E.seen entries.now))) }
{
    if entries.is_empty() {
        return Ok(false);
    }
    let found = find_again(alloc, kept, entries)?;
    write_kept(out, finder, kept, kind, clock, &found)?;
    Ok(found.is_some())
}

/// Appends an object about the events that `reader` can hand to `node` again after `reader` was started on `snapshot`,
/// and an object about the queries. If the log contains no entries of a kind, the object of that kind is left out. If
/// `has_left` is true, the snapshot contains a line `leave`. Returns whether an event or a query can be handed out
/// again. If memory runs out (`AllocError`), only a prefix of the objects may have been appended to `out`.
pub fn kept_objects(
    alloc: Global,
    out: &mut Vec<u8>,
    places: &LogPlaces,
    log: &Log,
    node: &[u8],
    snapshot: &[u8],
    reader: Reader,
    has_left: bool,
) -> Result<bool, AllocError>
    ensures again { IfOk result (λ again. again
        ≡ can_repeat reader snapshot.now node.now log.now) }
    ensures text { OnOk result (out.new.items ≡ out.old.items
        ++ (kept_events_text places.now log.now node.now snapshot.now reader has_left
        ++ kept_queries_text places.now log.now node.now snapshot.now reader has_left)) }
{
    let clocks = restored_clocks(reader, snapshot);
    let finder = LineFinder::new(places);
    let kept = Kept {
        node,
        snapshot,
        reader,
        has_left,
    };
    let (events, queries) = (log.events.as_slice(), log.queries.as_slice());
    let (event_clock, query_clock) = (clocks.event_clock, clocks.query_clock);
    let is_event = write_kind(alloc, out, &finder, &kept, Kind::Event, event_clock, events)?;
    let is_query = write_kind(
        alloc,
        out,
        &finder,
        &kept,
        Kind::Query,
        query_clock,
        queries,
    )?;
    Ok(is_event || is_query)
}
