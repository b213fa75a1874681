//! Appends JSON objects about events that some node was never handed.

ghost use Rattle.std.specs.Prelude.{◌≡◌, ◌++◌, OnOk};
ghost use Rattle.serf_judge.specs.Missed.{missing_view};
ghost use Rattle.serf_judge_json.specs.Missing.{missed_text, missing_nodes_text, missing_text};

use crate::entries::write_about;
use crate::kind::Kind;
use serf_judge::{EventEntry, Key, MissedEvent, missed_events, receivers};
use std::alloc::{AllocError, Global};

/// Appends an object which reports that a node was never handed an event.
#[tactic(auto, unfolding(serf_json::specs::Object::members_text))]
fn write_missing(
    alloc: Global,
    out: &mut Vec<u8>,
    event: &MissedEvent,
    node: &[u8],
) -> Result<(), AllocError>
    ensures { OnOk result (out.new.items ≡ out.old.items
        ++ missing_text (missing_view event.now).event node.now) }
{
    let key = Key {
        node,
        time: event.time,
        id: None,
        name: event.name,
        payload: event.payload,
    };
    write_about(alloc, out, b"missed", &[], Kind::Event, &key)
}

/// For one event, appends an object for each node that was never handed the event.
fn write_missing_nodes(
    alloc: Global,
    out: &mut Vec<u8>,
    event: &MissedEvent,
) -> Result<(), AllocError>
    ensures { OnOk result (out.new.items ≡ out.old.items
        ++ missing_nodes_text (missing_view event.now)) }
{
    for node in event.nodes.as_slice() {
        write_missing(alloc, out, event, node)?;
    }
    Ok(())
}

/// Appends an object for each pair of an event and a node that was never handed the event. Only nodes that were handed
/// at least one event are listed.
pub(crate) fn write_missed(
    alloc: Global,
    out: &mut Vec<u8>,
    events: &[EventEntry],
) -> Result<(), AllocError>
    ensures { OnOk result (out.new.items ≡ out.old.items ++ missed_text events.now) }
{
    let nodes = receivers(alloc, events)?;
    let report = missed_events(alloc, events, nodes.as_slice().len())?;
    for event in report.missed.iter() {
        write_missing_nodes(alloc, out, event)?;
    }
    Ok(())
}
