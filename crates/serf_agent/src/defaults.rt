//! The default settings of an agent.

ghost use Rattle.std.specs.Prelude.{◌≡◌, length, IfOk};
ghost use Rattle.serf_agent.specs.Config.{is_between, is_sound, max_name_bytes};
ghost use Rattle.serf_agent.specs.Defaults.{default_config};

use crate::config::Config;
use serf_wire::Bytes;
use std::alloc::{AllocError, Global};

/// The number of slots for events, and for queries (Serf's `config.go`, `DefaultConfig`: `EventBuffer`, `QueryBuffer`).
pub const DEFAULT_SLOTS: u64 = 512;

/// The maximum size of a fired event, in bytes (`DefaultConfig`: `UserEventSizeLimit`).
pub const DEFAULT_EVENT_LIMIT: u64 = 512;

/// The maximum length of a fired query's packet, in bytes (`DefaultConfig`: `QuerySizeLimit`).
pub const DEFAULT_QUERY_LIMIT: u64 = 1024;

/// The maximum length of a response's packet, in bytes (`DefaultConfig`: `QueryResponseSizeLimit`).
pub const DEFAULT_RESPONSE_LIMIT: u64 = 1024;

/// The maximum number of nodes whose acks to a query are counted, and the same for responses. This setting is this
/// project's own.
pub const DEFAULT_RESPONDERS: u64 = 1024;

/// The maximum number of events, or of queries, that are accepted with the same time. This setting is this project's
/// own.
pub const DEFAULT_PER_TIME: u64 = 1024;

/// The number of bytes that a snapshot may have before a compaction is worth doing (`serf.go`: `snapshotSizeLimit`).
/// Pass it to [`Agent::should_compact`](crate::Agent::should_compact).
pub const DEFAULT_SNAPSHOT_LIMIT: u64 = 128 * 1024;

impl Config {
    /// Makes the default settings for a node of this name. They are Serf's defaults, or this project's if Serf has
    /// none. By default, a join doesn't raise the minimum time of events, and no event is kept over a restart. Returns
    /// `AllocError` if there is no memory for the name.
    pub fn new(alloc: Global, name: &[u8]) -> Result<Config, AllocError>
        ensures config { IfOk result (λ config. config ≡ default_config name.now) }
        ensures sound { IfOk result (λ config. is_sound config
            ≡ is_between 1 max_name_bytes (length name.now)) }
    {
        Ok(Config {
            name: Bytes::copy_of(alloc, name)?,
            event_buffer: DEFAULT_SLOTS,
            query_buffer: DEFAULT_SLOTS,
            event_limit: DEFAULT_EVENT_LIMIT,
            query_limit: DEFAULT_QUERY_LIMIT,
            response_limit: DEFAULT_RESPONSE_LIMIT,
            responders: DEFAULT_RESPONDERS,
            per_time: DEFAULT_PER_TIME,
            ignore_old: false,
            keep_events: false,
        })
    }
}
