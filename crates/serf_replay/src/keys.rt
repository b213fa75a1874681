//! The key by which a summary counts an event. The key consists of the event's time, name and payload.

ghost use Rattle.std.specs.Prelude.{◌≡◌, IfOk};

use serf_model::EventLine;
use std::alloc::{AllocError, Global};

/// The key of an event: its Lamport time, its name and its payload. Two events are the same event if their times, their
/// names and their payloads are equal.
#[derive(Drop, PartialEq, Eq, Hash)]
pub struct EventKey {
    pub time: u64,
    pub name: Vec<u8>,
    pub payload: Vec<u8>,
}

/// Returns the key of the event that the trace line `event` shows, with copies of its name and its payload.
pub(crate) fn key_of(alloc: Global, event: &EventLine) -> Result<EventKey, AllocError>
    ensures { IfOk result (λ key. (key.time ≡ event.now.time) × (key.name.items ≡ event.now.name)
        × (key.payload.items ≡ event.now.payload)) }
{
    let name = Vec::from_slice(alloc, event.name.as_slice())?;
    let payload = Vec::from_slice(alloc, event.payload.as_slice())?;
    Ok(EventKey {
        time: event.time.get(),
        name,
        payload,
    })
}
