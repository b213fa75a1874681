//! Opens a session: an agent over the text of the host's file, with the settings that C passes.

ghost use Rattle.std.specs.Prelude.{◌≡◌, ◌≢◌, [], length, false, true, IfOk, IfErr, OnOk};
ghost use Rattle.serf_snapshot.specs.Device.{fresh_device};
ghost use Rattle.serf_snapshot.specs.AppendsLine.{opened, opened_device};
ghost use Rattle.serf_agent.specs.Config.{is_sound};
ghost use Rattle.serf_agent.specs.Ideal.{IdealAgent};
ghost use Rattle.serf_agent.specs.Restart.{HasPast, restarted, unopened};
ghost use Rattle.serf_agent.specs.Sound.{IsSound};
ghost use Rattle.serf_agent.specs.View.{view_of};
ghost use Rattle.serf_agent_c.specs.Opening.{GoesOn, IsFirst, IsFresh, config_of, limit_or};

use crate::call_result::CallResult;
use crate::heads::Settings;
use crate::session::Session;
use crate::waiting::Waiting;
use serf_agent::{
    Agent, BytesList, Config, DEFAULT_QUERY_LIMIT, DEFAULT_RESPONSE_LIMIT, OpenError,
};
use serf_snapshot::MemorySink;
use serf_wire::Bytes;
use std::alloc::{AllocError, Global};
use std::collections::VecDeque;

/// The limit of a packet in bytes: `limit`, or Serf's own limit `serfs` if `limit` is 0. It is 0 if a host in C leaves
/// the field out.
fn limit_or(serfs: u64, limit: u64) -> u64
    ensures { result ≡ limit_or serfs limit }
{
    if limit == 0 { serfs } else { limit }
}

/// Makes the settings of the agent `name` from the `settings` that C passes.
fn config_of(alloc: Global, name: &[u8], settings: &Settings) -> Result<Config, AllocError>
    ensures { IfOk result (λ config. config ≡ config_of name.now settings.now) }
{
    Ok(Config {
        name: Bytes::copy_of(alloc, name)?,
        event_buffer: settings.event_buffer,
        query_buffer: settings.query_buffer,
        event_limit: settings.event_limit,
        query_limit: limit_or(DEFAULT_QUERY_LIMIT, settings.query_limit),
        response_limit: limit_or(DEFAULT_RESPONSE_LIMIT, settings.response_limit),
        responders: settings.responders,
        per_time: settings.per_time,
        ignore_old: settings.ignore_old,
        keep_events: settings.keep_events,
    })
}

impl Session {
    /// Opens the agent `name` over `text`, the bytes of the host's file. The sink can't fail here (clause `memory`).
    pub(crate) fn open(
        alloc: Global,
        name: &[u8],
        settings: &Settings,
        text: &[u8],
    ) -> Result<Session, OpenError>
        ensures goes_on { IfOk result (λ s. GoesOn name.now settings.now text.now s) }
        ensures first { IfOk result (λ s. IsFirst name.now settings.now text.now s) }
        ensures fresh { IfOk result (λ s. IsFresh text.now s) }
        ensures ok { OnOk result (is_sound (config_of name.now settings.now) ≡ true) }
        ensures bad { IfErr result (λ error. error ≡ OpenError.BadConfig
            → is_sound (config_of name.now settings.now) ≡ false) }
        ensures memory { IfErr result (λ error. error ≢ OpenError.SinkError) }
    {
        let Ok(config) = config_of(alloc, name, settings) else {
            return Err(OpenError::OutOfMemory);
        };
        let Ok(sink) = MemorySink::with(alloc, text) else {
            return Err(OpenError::OutOfMemory);
        };
        match Agent::open(alloc, config, text, sink) {
            Ok(agent) => Ok(Session {
                agent,
                call_result: CallResult::Nothing,
                written: text.len(),
                replaces: false,
                waiting: Waiting::new(alloc),
                filters: BytesList::new(alloc),
                status: Vec::new(alloc),
                left: BytesList::new(alloc),
                burst: VecDeque::new(alloc),
            }),
            Err(refused) => Err(refused.error),
        }
    }
}
