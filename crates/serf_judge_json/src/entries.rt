//! Appends JSON objects about the lines of a log.

ghost use Rattle.std.specs.Prelude.{◌≡◌, ◌++◌, ◌∷◌, [], OnOk, codes};
ghost use Rattle.std.specs.List.{flat_map};
ghost use Rattle.serf_json.specs.Object.{member_text, members_text, object_text};
ghost use Rattle.serf_judge.specs.Identity.{handed_seen, key_identity};
ghost use Rattle.serf_judge_json.specs.Entries.{about_text, bad_text, counts_text, entries_text, entry_text, event_members, id_member, node_text, read_text};
ghost use Rattle.serf_judge_json.specs.Members.{joined, text_member};

use crate::kind::Kind;
use crate::places::LineFinder;
use crate::words::unescaped;
use serf_json::Member::{self, Absent, Bytes, Number, Text};
use serf_json::{write_joined, write_object};
use serf_judge::{BadLine, Delivered, Delivery, Key, Log, log_nodes};
use std::alloc::{AllocError, Global};

/// Appends an object of the kind `object` about an event: the members in `front`, followed by the node, and the event's
/// time, name and payload.
#[tactic(auto, unfolding(serf_json::specs::Object::members_text))]
fn write_event<'a>(
    out: &mut Vec<u8>,
    object: &[u8],
    front: &[Member],
    node: &'a [u8],
    time: u64,
    name: &'a [u8],
    payload: &'a [u8],
) -> Result<(), AllocError>
    ensures { OnOk result (out.new.items ≡ out.old.items ++ object_text object.now
        (members_text front.now
        ++ joined (event_members node.entry.now time name.entry.now payload.entry.now))) }
{
    let about = [
        Bytes(b"node", node),
        Number(b"time", time),
        Bytes(b"name", name),
        Bytes(b"payload", payload),
    ];
    write_joined(out, object, front, &about)
}

/// Returns the member `id`, which contains a query's ID. If the query has no ID, the member is absent.
fn id_in<'a>(id: Option<u64>) -> Member<'a>
    ensures { member_text result ≡ id_member id }
{
    match id {
        Some(id) => Number(b"id", id),
        None => Absent,
    }
}

/// Appends an object of the kind `object` about the event or query of `key`. The object contains the members in
/// `front`, the node and the time. An object about an event also contains the event's name and payload, and an object
/// about a query also contains the query's ID.
#[tactic(auto, unfolding(serf_json::specs::Object::members_text, crate::specs::Entries::about_text))]
pub(crate) fn write_about(
    alloc: Global,
    out: &mut Vec<u8>,
    object: &[u8],
    front: &[Member],
    kind: Kind,
    key: &Key,
) -> Result<(), AllocError>
    ensures { OnOk result (out.new.items ≡ out.old.items
        ++ about_text object.now (members_text front.now) kind (key_identity key.now)) }
{
    match kind {
        Kind::Event => {
            let (name, payload) = (unescaped(alloc, key.name)?, unescaped(alloc, key.payload)?);
            write_event(out, object, front, key.node, key.time, &name, &payload)
        }
        Kind::Query => {
            let about = [
                Bytes(b"node", key.node),
                Number(b"time", key.time),
                id_in(key.id),
            ];
            write_joined(out, object, front, &about)
        }
    }
}

/// Appends an object of the kind `object` about a line on which an event was fired, or an event or a query was handed
/// out.
#[tactic(auto, unfolding(serf_json::specs::Object::members_text, crate::specs::Entries::entry_text))]
pub(crate) fn write_entry(
    alloc: Global,
    out: &mut Vec<u8>,
    finder: &LineFinder,
    object: &[u8],
    kind: Kind,
    found: &Delivery,
) -> Result<(), AllocError>
    ensures { OnOk result (out.new.items ≡ out.old.items
        ++ entry_text finder.now.places object.now kind (handed_seen found.now)) }
{
    let place = finder.place(found.line);
    let front = [
        Text(b"log", place.log),
        Number(b"line", place.line),
        place.date_member(b"date"),
    ];
    write_about(alloc, out, object, &front, kind, &found.key)
}

/// Appends an object of the kind `object` for each entry in `entries`. Each entry is an event or a query that was fired
/// or handed out.
pub(crate) fn write_entries<E: Delivered>(
    alloc: Global,
    out: &mut Vec<u8>,
    finder: &LineFinder,
    object: &[u8],
    kind: Kind,
    entries: &[E],
) -> Result<(), AllocError>
    ensures { OnOk result (out.new.items ≡ out.old.items
        ++ entries_text finder.now.places object.now kind E.seen entries.now) }
{
    for entry in entries {
        write_entry(alloc, out, finder, object, kind, &entry.handed())?;
    }
    Ok(())
}

/// Appends an object about a bad line: the members in `front`, followed by the reason why the line can't be read.
#[tactic(auto, unfolding(serf_json::specs::Object::members_text))]
fn write_cause(out: &mut Vec<u8>, front: &[Member], cause: &[u8]) -> Result<(), AllocError>
    ensures { OnOk result (out.new.items ≡ out.old.items ++ object_text (codes "bad")
        (members_text front.now ++ joined (text_member (codes "cause") cause.now ∷ []))) }
{
    write_joined(out, b"bad", front, &[Text(b"cause", cause)])
}

/// Appends an object about the bad line `bad`.
#[tactic(auto, unfolding(serf_json::specs::Object::members_text, crate::specs::Entries::bad_text))]
fn write_bad_line(
    alloc: Global,
    out: &mut Vec<u8>,
    finder: &LineFinder,
    bad: BadLine,
) -> Result<(), AllocError>
    ensures { OnOk result (out.new.items ≡ out.old.items ++ bad_text finder.now.places bad) }
{
    let cause = bad.cause;
    let text = format!(in alloc; "{cause}")?;
    let place = finder.place(bad.line);
    let front = [
        Text(b"log", place.log),
        Number(b"line", place.line),
        place.date_member(b"date"),
    ];
    write_cause(out, &front, text.as_bytes())
}

/// Appends an object for each bad line in `bad`.
pub(crate) fn write_bad(
    alloc: Global,
    out: &mut Vec<u8>,
    finder: &LineFinder,
    bad: &[BadLine],
) -> Result<(), AllocError>
    ensures { OnOk result (out.new.items ≡ out.old.items
        ++ flat_map (bad_text finder.now.places) bad.now) }
{
    for line in bad {
        write_bad_line(alloc, out, finder, *line)?;
    }
    Ok(())
}

/// Appends an object that contains the name of a node.
#[tactic(auto, unfolding(serf_json::specs::Object::members_text, crate::specs::Entries::node_text))]
fn write_node(out: &mut Vec<u8>, node: &[u8]) -> Result<(), AllocError>
    ensures { OnOk result (out.new.items ≡ out.old.items ++ node_text node.now) }
{
    write_object(out, b"node", &[Bytes(b"node", node)])
}

/// Appends an object that contains the numbers of events, queries, firings and bad lines that were read. The object
/// also contains `nodes`, the number of nodes that the log names.
#[tactic(auto, unfolding(serf_json::specs::Object::members_text, crate::specs::Entries::counts_text))]
fn write_counts(out: &mut Vec<u8>, log: &Log, nodes: usize) -> Result<(), AllocError>
    ensures { OnOk result (out.new.items ≡ out.old.items ++ counts_text log.now nodes) }
{
    let members = [
        Number(b"events", log.events.as_slice().len() as u64),
        Number(b"queries", log.queries.as_slice().len() as u64),
        Number(b"fired", log.fired.as_slice().len() as u64),
        Number(b"nodes", nodes as u64),
        Number(b"bad", log.bad.as_slice().len() as u64),
    ];
    write_object(out, b"read", &members)
}

/// Appends an object for each node in `nodes`.
fn write_nodes(out: &mut Vec<u8>, nodes: &[&[u8]]) -> Result<(), AllocError>
    ensures { OnOk result (out.new.items ≡ out.old.items
        ++ flat_map (λ node. node_text node.now) nodes.now) }
{
    for node in nodes {
        write_node(out, node)?;
    }
    Ok(())
}

/// Appends an object that contains the number of entries of each kind that were read, followed by an object for each
/// node.
pub(crate) fn write_read(alloc: Global, out: &mut Vec<u8>, log: &Log) -> Result<(), AllocError>
    ensures { OnOk result (out.new.items ≡ out.old.items ++ read_text log.now) }
{
    let nodes = log_nodes(alloc, log)?;
    write_counts(out, log, nodes.as_slice().len())?;
    write_nodes(out, nodes.as_slice())
}
