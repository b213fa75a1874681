//! Finds the events that some node was never handed. Only nodes that were handed at least one event are considered.

ghost use Rattle.std.specs.Prelude.{◌≡◌, ◌++◌, ◌∷◌, [], IfOk, OnOk, filter, length, map, take};
ghost use Rattle.serf_judge.specs.Fired.{content_of, key_content};
ghost use Rattle.serf_judge.specs.Recorded.{HasHanded, lacks};
ghost use Rattle.serf_judge.specs.Missed.{contents_of, has_nodes, missed_of, missing_at, missing_view};
ghost use Rattle.serf_judge.specs.Nodes.{texts_of};

use crate::again::firsts;
use crate::entry::EventEntry;
use crate::fired::{ContentKey, content_key};
use crate::key::{Delivered, Key};
use crate::nodes::receivers;
use std::alloc::{AllocError, Global};
use std::collections::HashSet;

/// An event that some node was never handed.
#[derive(Drop)]
pub struct MissedEvent<'a> {
    pub time: u64,
    pub name: &'a [u8],
    pub payload: &'a [u8],
    /// The nodes that were never handed the event, up to the maximum that the caller requested.
    pub nodes: Vec<&'a [u8]>,
}

/// The result of searching a log for events that some node was never handed.
#[derive(Drop)]
pub struct Missed<'a> {
    /// The number of events that were handed out. An event that was handed out several times is counted only once.
    pub events: usize,
    /// The events that some node was never handed, in the order in which they first appear in the log.
    pub missed: Vec<MissedEvent<'a>>,
}

/// Returns the time, name and payload of each event in `entries` once, in the order in which the events first appear.
fn contents<'a>(alloc: Global, entries: &'a [EventEntry]) -> Result<Vec<ContentKey<'a>>, AllocError>
    ensures { IfOk result (λ events. map key_content events.items
        ≡ contents_of entries.entry.now) }
{
    let mut keys = Vec::new(alloc);
    for entry in entries {
        keys.push(content_key(entry))?;
    }
    firsts(alloc, keys.as_slice())
}

/// Returns the key of each entry in `entries`: the node, and the event that the node was handed.
fn handed_to<'a>(alloc: Global, entries: &'a [EventEntry]) -> Result<HashSet<Key<'a>>, AllocError>
    ensures { IfOk result (HasHanded entries.entry.now) }
{
    let mut handed = HashSet::new(alloc);
    for entry in entries {
        let _ = handed.insert(entry.handed().key)?;
    }
    Ok(handed)
}

/// Returns whether `node` was never handed `event`. `handed` contains the keys of all events that were handed out.
fn is_missing<'a>(handed: &HashSet<Key<'a>>, event: ContentKey<'a>, node: &'a [u8]) -> bool
    ensures { result ≡ lacks handed.now event.entry node.entry }
{
    let key = Key {
        node,
        time: event.time,
        id: None,
        name: event.name,
        payload: event.payload,
    };
    !handed.contains(&key)
}

/// Returns at most `maximum` nodes that were never handed `event`, in the order of `nodes`. `handed` contains the keys
/// of all events that were handed out.
fn missing_nodes<'a>(
    alloc: Global,
    handed: &HashSet<Key<'a>>,
    nodes: &[&'a [u8]],
    event: ContentKey<'a>,
    maximum: usize,
) -> Result<Vec<&'a [u8]>, AllocError>
    ensures { IfOk result (λ missing. missing.items
        ≡ take maximum (filter (lacks handed.entry.now event.entry) nodes.entry.now)) }
{
    nodes
        .iter()
        .copied()
        .filter(|node| is_missing(handed, event, *node))
        .take(maximum)
        .collect(alloc)
}

/// Appends `event` to `missed`, together with `nodes`, the nodes that were never handed the event. If `nodes` is empty,
/// appends nothing.
fn write_missed<'a>(
    missed: &mut Vec<MissedEvent<'a>>,
    event: ContentKey<'a>,
    nodes: Vec<&'a [u8]>,
) -> Result<(), AllocError>
    ensures { OnOk result (map missing_view missed.new.items
        ≡ map missing_view missed.old.items ++ filter has_nodes
        (missing_at (key_content event.entry) (texts_of nodes.entry.items) ∷ [])) }
{
    let no_node_missed = nodes.as_slice().is_empty();
    if no_node_missed {
        return Ok(());
    }
    missed.push(MissedEvent {
        time: event.time,
        name: event.name,
        payload: event.payload,
        nodes,
    })?;
    Ok(())
}

/// Returns each event that some node was never handed, in the order in which the events first appear in `entries`. With
/// each event, returns the list of nodes that were never handed the event, in the order in which the nodes first
/// appear. Only nodes that were handed at least one event are listed. At most `maximum` nodes are listed for each
/// event, and no event is returned if `maximum` is 0.
///
/// The function looks up each entry once, by its hash. The function looks up each event once for each node, until
/// enough nodes are listed. Returns an `AllocError` only if memory runs out.
pub fn missed_events<'a>(
    alloc: Global,
    entries: &'a [EventEntry],
    maximum: usize,
) -> Result<Missed<'a>, AllocError>
    ensures events { IfOk result (λ said. said.events
        ≡ length (contents_of entries.entry.now)) }
    ensures missed { IfOk result (λ said. map missing_view said.missed.items
        ≡ missed_of maximum entries.entry.now) }
{
    let events = contents(alloc, entries)?;
    let nodes = receivers(alloc, entries)?;
    let handed = handed_to(alloc, entries)?;
    let receivers = nodes.as_slice();
    let all = events.as_slice();
    let mut missed = Vec::new(alloc);
    for event in all {
        let missing = missing_nodes(alloc, &handed, receivers, *event, maximum)?;
        write_missed(&mut missed, *event, missing)?;
    }
    Ok(Missed {
        events: all.len(),
        missed,
    })
}
