//! The values that are read from the lines of an agent that keeps its events: the kept events and queries, and the
//! minimum times.

ghost use Rattle.std.specs.Prelude.{◌≡◌};

use crate::clocks::Clocks;
use serf_lamport::Time;
use std::marker::Model;

/// A kept event: its time, its name and its payload.
#[derive(Debug, Drop)]
pub struct KeptEvent {
    time: Time,
    name: Vec<u8>,
    payload: Vec<u8>,
}

impl Model for KeptEvent {
    ghost use Rattle.serf_snapshot.specs.TimedEvent.{TimedEvent};

    ghost Value = { TimedEvent };

    ghost view = { λ e. record { time = e.time; name = e.name.items; payload = e.payload.items } };
}

impl KeptEvent {
    /// Returns the event with this time, name and payload. Allocates no memory.
    pub(crate) fn new(time: Time, name: Vec<u8>, payload: Vec<u8>) -> KeptEvent
        ensures { result ≡ record { time = time; name = name.items; payload = payload.items } }
    {
        KeptEvent {
            time,
            name,
            payload,
        }
    }

    /// Returns the event's time. Allocates no memory.
    pub fn time(&self) -> Time
        ensures { result ≡ self.now.time }
    {
        self.time
    }

    /// Returns the event's name. Allocates no memory.
    pub fn name(&self) -> &[u8]
        ensures { result.now ≡ self.now.name }
    {
        self.name.as_slice()
    }

    /// Returns the event's payload. Allocates no memory.
    pub fn payload(&self) -> &[u8]
        ensures { result.now ≡ self.now.payload }
    {
        self.payload.as_slice()
    }
}

/// A kept query: its time and its ID.
#[derive(Clone, Copy, Debug, PartialEq, Eq)]
pub struct KeptQuery {
    pub time: Time,
    pub id: u32,
}

/// Selects the events or queries that are read from a text.
#[derive(Clone, Copy, Debug, PartialEq, Eq)]
pub struct EntryFilter {
    /// The smallest time that the filter selects.
    pub from: u64,
    /// The filter selects only times below this one.
    pub below: u64,
    /// The maximum length of an event's name and payload together, in bytes.
    pub longest: u64,
}

/// The minimum times that an agent accepts: one for events, and one for queries.
#[derive(Clone, Copy, Debug, PartialEq, Eq)]
pub struct MinTimes {
    pub events: u64,
    pub queries: u64,
}

/// The times that the lines of a text contain: its clocks, and the minimum times for events and queries.
#[derive(Clone, Copy, Debug, PartialEq, Eq)]
pub struct TextTimes {
    pub clocks: Clocks,
    pub lowest: MinTimes,
}

/// The events and the queries that a text keeps.
#[derive(Debug, Drop)]
pub struct KeptEntries {
    pub events: Vec<KeptEvent>,
    pub queries: Vec<KeptQuery>,
}
