//! Appends JSON objects with the verdicts on the promises.

ghost use Rattle.std.specs.Prelude.{◌≡◌, ◌++◌, ◌<◌, OnOk, IfSome, codes, length, map};
ghost use Rattle.serf_json.specs.Object.{member_text, members_text};
ghost use Rattle.serf_judge.specs.Identity.{event_seen, handed_seen};
ghost use Rattle.serf_judge_json.specs.Verdicts.{broken_text, broken_with_text, fired_text, firings_text, has_both, lacking, later_text, line_at, once_text, unasked_text, verdict_text};

use crate::entries::write_about;
use crate::kind::Kind;
use crate::places::LineFinder;
use crate::repeats::{write_repeats, write_tallies};
use serf_json::Member::{self, Absent, Number, Text};
use serf_json::write_object;
use serf_judge::{Delivered, Delivery, EventEntry, Log};
use std::alloc::{AllocError, Global};

/// Appends the verdict on a promise that the log keeps, or that can't be judged from this log. The last member of the
/// object is `member`.
#[tactic(auto, unfolding(serf_json::specs::Object::members_text, crate::specs::Verdicts::verdict_text))]
fn write_verdict(
    out: &mut Vec<u8>,
    promise: &[u8],
    verdict: &[u8],
    member: Member,
) -> Result<(), AllocError>
    ensures { OnOk result (out.new.items ≡ out.old.items
        ++ verdict_text promise.now verdict.now (member_text member.entry)) }
{
    let (promise, verdict) = (Text(b"promise", promise), Text(b"verdict", verdict));
    write_object(out, b"verdict", &[promise, verdict, member])
}

/// Appends an object which reports that the line `late` breaks a promise.
#[tactic(auto, unfolding(serf_json::specs::Object::members_text, crate::specs::Verdicts::broken_text))]
fn write_broken<'a>(
    alloc: Global,
    out: &mut Vec<u8>,
    finder: &LineFinder<'a>,
    promise: &'a [u8],
    kind: Kind,
    late: &Delivery,
) -> Result<(), AllocError>
    ensures { OnOk result (out.new.items ≡ out.old.items
        ++ broken_text finder.now.places promise.entry.now kind (handed_seen late.now)) }
{
    let place = finder.place(late.line);
    let front = [
        Text(b"promise", promise),
        Text(b"verdict", b"broken"),
        Text(b"log", place.log),
        Number(b"line", place.line),
        place.date_member(b"date"),
    ];
    write_about(alloc, out, b"verdict", &front, kind, &late.key)
}

/// Appends an object which reports that the line `late`, together with the earlier line `early`, breaks a promise.
#[tactic(auto, unfolding(serf_json::specs::Object::members_text, crate::specs::Verdicts::broken_with_text))]
fn write_broken_with<'a>(
    alloc: Global,
    out: &mut Vec<u8>,
    finder: &LineFinder<'a>,
    promise: &'a [u8],
    kind: Kind,
    late: &Delivery,
    early: &Delivery,
) -> Result<(), AllocError>
    ensures { OnOk result (out.new.items ≡ out.old.items ++ broken_with_text finder.now.places
        promise.entry.now kind (handed_seen late.now) (handed_seen early.now)) }
{
    let (place, before) = (finder.place(late.line), finder.place(early.line));
    let front = [
        Text(b"promise", promise),
        Text(b"verdict", b"broken"),
        Text(b"log", place.log),
        Number(b"line", place.line),
        place.date_member(b"date"),
        Text(b"earlier_log", before.log),
        Number(b"earlier_line", before.line),
        before.date_member(b"earlier_date"),
        Number(b"earlier_time", early.key.time),
    ];
    write_about(alloc, out, b"verdict", &front, kind, &late.key)
}

/// Returns the line and the key of the entry at the index `place`, counted from 0.
fn delivery_at<E: Delivered>(entries: &[E], place: usize) -> Delivery<'_>
    requires { place < length entries.now }
    ensures { handed_seen result ≡ line_at (map E.seen entries.now) place }
{
    entries[place].handed()
}

/// Appends the verdict on the promise that no event or query is handed to a node twice. If the promise is broken, also
/// appends the entries that were handed out again. `twice` contains the indexes of the first two entries that are the
/// same.
pub(crate) fn write_once<E: Delivered>(
    alloc: Global,
    out: &mut Vec<u8>,
    finder: &LineFinder,
    kind: Kind,
    entries: &[E],
    twice: Option<(usize, usize)>,
) -> Result<(), AllocError>
    requires { IfSome twice (λ places. (places.0 < length entries.now)
        × (places.1 < length entries.now)) }
    ensures { OnOk result (out.new.items ≡ out.old.items
        ++ once_text finder.now.places kind (map E.seen entries.now) twice) }
{
    match twice {
        Some((early, late)) => {
            let (late, early) = (delivery_at(entries, late), delivery_at(entries, early));
            write_broken_with(alloc, out, finder, kind.promise(), kind, &late, &early)?;
            write_repeats(alloc, out, finder, kind, entries)?;
            write_tallies(alloc, out, finder, kind, entries)
        }
        None if entries.is_empty() => write_verdict(
            out,
            kind.promise(),
            b"not-asked",
            Text(b"lines", kind.word()),
        ),
        None => write_verdict(out, kind.promise(), b"holds", Absent),
    }
}

/// Appends the verdict on the promise that each event was fired before it was handed out. `unfired` is the index of the
/// first event without an earlier firing.
fn write_fired(
    alloc: Global,
    out: &mut Vec<u8>,
    finder: &LineFinder,
    events: &[EventEntry],
    unfired: Option<usize>,
) -> Result<(), AllocError>
    requires { IfSome unfired (λ place. place < length events.now) }
    ensures { OnOk result (out.new.items ≡ out.old.items
        ++ fired_text finder.now.places (map event_seen events.now) unfired) }
{
    match unfired {
        Some(place) => {
            let late = delivery_at(events, place);
            write_broken(alloc, out, finder, b"Fired", Kind::Event, &late)
        }
        None => write_verdict(out, b"Fired", b"holds", Absent),
    }
}

/// Appends the verdict on the promise that each node fires only at later times than those of the events that the node
/// was handed before. `not_later` contains the index of the first firing that breaks the promise, and the index of an
/// event whose time that firing doesn't exceed.
fn write_later(
    alloc: Global,
    out: &mut Vec<u8>,
    finder: &LineFinder,
    fired: &[EventEntry],
    events: &[EventEntry],
    not_later: Option<(usize, usize)>,
) -> Result<(), AllocError>
    requires { IfSome not_later (λ places. (places.0 < length fired.now)
        × (places.1 < length events.now)) }
    ensures { OnOk result (out.new.items ≡ out.old.items ++ later_text finder.now.places
        (map event_seen fired.now) (map event_seen events.now) not_later) }
{
    match not_later {
        Some((place, earlier)) => {
            let (late, early) = (delivery_at(fired, place), delivery_at(events, earlier));
            write_broken_with(alloc, out, finder, b"Later", Kind::Event, &late, &early)
        }
        None => write_verdict(out, b"Later", b"holds", Absent),
    }
}

/// Returns whether a log contains both firings and events. If a log lacks firings or events, the promises about firings
/// can't be judged.
pub(crate) fn has_both(log: &Log) -> bool
    ensures { result ≡ has_both log.now }
{
    !log.fired.as_slice().is_empty() && !log.events.as_slice().is_empty()
}

/// If a log doesn't contain both firings and events, returns the kind of line that is missing.
fn lacking(log: &Log) -> &'static [u8]
    ensures { result.now ≡ lacking log.now }
{
    if log.fired.as_slice().is_empty() {
        b"fired"
    } else {
        b"event"
    }
}

/// Appends objects which report that the promises about firings were not judged.
fn write_not_judged(out: &mut Vec<u8>, log: &Log) -> Result<(), AllocError>
    ensures { OnOk result (out.new.items ≡ out.old.items
        ++ (unasked_text (codes "Fired") (lacking log.now)
        ++ unasked_text (codes "Later") (lacking log.now))) }
{
    let lines = Text(b"lines", lacking(log));
    write_verdict(out, b"Fired", b"not-asked", lines)?;
    write_verdict(out, b"Later", b"not-asked", lines)
}

/// Appends the verdicts on the promises about firings. `unfired` and `not_later` contain the indexes of the entries
/// that break the promises.
pub(crate) fn write_firings(
    alloc: Global,
    out: &mut Vec<u8>,
    finder: &LineFinder,
    log: &Log,
    unfired: Option<usize>,
    not_later: Option<(usize, usize)>,
) -> Result<(), AllocError>
    requires unfired { IfSome unfired (λ place. place < length log.now.events.items) }
    requires not_later { IfSome not_later (λ places. (places.0 < length log.now.fired.items)
        × (places.1 < length log.now.events.items)) }
    ensures { OnOk result (out.new.items ≡ out.old.items
        ++ firings_text finder.now.places log.now unfired not_later) }
{
    if !has_both(log) {
        return write_not_judged(out, log);
    }
    let (fired, events) = (log.fired.as_slice(), log.events.as_slice());
    write_fired(alloc, out, finder, events, unfired)?;
    write_later(alloc, out, finder, fired, events, not_later)
}
