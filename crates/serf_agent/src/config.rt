//! An agent's settings.

ghost use Rattle.std.specs.Prelude.{◌≡◌, IfOk};
ghost use Rattle.serf_agent.specs.Config.{is_sound};

use serf_window::{MAX_PER_TIME, MAX_SLOTS};
use serf_wire::Bytes;
use std::alloc::{AllocError, Global};

/// The maximum length of a node's name, in bytes.
pub const MAX_NAME_BYTES: usize = 128;

/// The maximum length of an event's name and payload together, in bytes, whichever way the event arrives (Serf's
/// `serf.go`: `UserEventSizeLimit`).
pub const MAX_TEXT_BYTES: usize = 9216;

/// The largest limit, in bytes, that the settings allow for the packet of a fired query or of a response.
pub const MAX_PACKET_LIMIT: u64 = 9216;

/// The largest limit that the settings allow for the nodes whose acks to a query are counted, and for its responses.
pub const MAX_RESPONDERS: u64 = 65536;

/// An agent's settings (Serf's `config.go`). The bounds are this project's own. Opening an agent with settings that are
/// out of bounds is an error.
#[derive(Drop)]
pub struct Config {
    /// The node's name: 1 to 128 bytes.
    pub name: Bytes,
    /// The number of slots for events: 1 to 65,536. Serf has 512.
    pub event_buffer: u64,
    /// The number of slots for queries: 1 to 65,536. Serf has 512.
    pub query_buffer: u64,
    /// The maximum length of a fired event's packet, and of its name and payload together, in bytes: at most 9,216.
    /// Serf has 512.
    pub event_limit: u64,
    /// The maximum length of a fired query's packet, in bytes: at most 9,216. Serf has 1,024.
    pub query_limit: u64,
    /// The maximum length of a response's packet, in bytes: at most 9,216. Serf has 1,024.
    pub response_limit: u64,
    /// The maximum number of nodes whose acks to a query are counted, and the same for responses: 1 to 65,536.
    pub responders: u64,
    /// The maximum number of events, or of queries, that are accepted with the same time: 1 to 65,536.
    pub per_time: u64,
    /// Whether a join raises the minimum time of events to the other agent's event clock.
    pub ignore_old: bool,
    /// Whether the snapshot keeps each event and each query in a separate line, and a restart restores them. Serf's
    /// snapshots keep none of them.
    pub keep_events: bool,
}

impl Config {
    /// Whether all settings are within their bounds. Allocates no memory.
    pub fn is_sound(&self) -> bool
        ensures { result ≡ is_sound self.now }
    {
        let name = self.name.as_slice().len();
        name >= 1
            && name <= MAX_NAME_BYTES
            && self.event_buffer >= 1
            && self.event_buffer <= MAX_SLOTS
            && self.query_buffer >= 1
            && self.query_buffer <= MAX_SLOTS
            && self.event_limit <= MAX_TEXT_BYTES as u64
            && self.query_limit <= MAX_PACKET_LIMIT
            && self.response_limit <= MAX_PACKET_LIMIT
            && self.responders >= 1
            && self.responders <= MAX_RESPONDERS
            && self.per_time >= 1
            && self.per_time <= MAX_PER_TIME
    }

    /// Copies the settings. The only error is `AllocError`, if there is no memory for the copy.
    pub fn try_clone(&self, alloc: Global) -> Result<Config, AllocError>
        ensures { IfOk result (λ copy. copy ≡ self.now) }
    {
        Ok(Config {
            name: Bytes::copy_of(alloc, self.name.as_slice())?,
            event_buffer: self.event_buffer,
            query_buffer: self.query_buffer,
            event_limit: self.event_limit,
            query_limit: self.query_limit,
            response_limit: self.response_limit,
            responders: self.responders,
            per_time: self.per_time,
            ignore_old: self.ignore_old,
            keep_events: self.keep_events,
        })
    }
}
