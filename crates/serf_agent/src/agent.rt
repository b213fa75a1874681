//! An agent of a Serf node, and how to open it.

ghost use Rattle.std.specs.Prelude.{◌≡◌, ◌≢◌, ◌↔◌, ◌<◌, ◌≤◌, ◌+◌, ◌-◌, ◌^◌, false, true, List, [], ◌∷◌, ◌++◌, map, length, OnOk, OnErr, IfOk, IfErr, IfSome, IsErrOf, IsOk};
ghost use Rattle.std.specs.Option.{option_map};
ghost use Rattle.serf_snapshot.specs.Device.{HasText, Fails};
ghost use Rattle.serf_snapshot.specs.Clocks.{is_whole, seal_line};
ghost use Rattle.serf_snapshot.specs.AppendsLine.{HasTriedAppendLine, append_line_decremented, append_line_fails, opened, opened_device};
ghost use Rattle.serf_agent.specs.Config.{is_sound};
ghost use Rattle.serf_agent.specs.Ideal.{IdealAgent, with_config};
ghost use Rattle.serf_agent.specs.Inside.{concrete_of};
ghost use Rattle.serf_agent.specs.Restart.{HasPast, restarted, unopened};
ghost use Rattle.serf_agent.specs.Sound.{IsSound};
ghost use Rattle.serf_agent.specs.View.{view_of};

use crate::config::Config;
use crate::laws::{kept_restart_laws, sound_snapshots};
use crate::open_queries::OpenQueries;
use crate::outcome::{NotOpened, OpenError};
use crate::reopening::{OpeningTracks, read_opening_tracks};
use crate::track::{EventTrack, QueryTrack};
use serf_lamport::Clock;
use serf_snapshot::{Sink, Snapshot};
use std::alloc::Global;
use std::marker::Model;

/// An agent: its clocks, its memory of events and queries, and its snapshot on a sink.
pub struct Agent<S: Sink> {
    pub(crate) config: Config,
    pub(crate) member_clock: Clock,
    pub(crate) events: EventTrack,
    pub(crate) queries: QueryTrack,
    pub(crate) fired_queries: OpenQueries,
    pub(crate) snapshot: Snapshot<S>,
}

/// `Drop` is implemented by hand, so that dependent crates need not prove again that the fields can be dropped.
impl<S: Sink + Drop> Drop for Agent<S> {
    fn drop(self) {
        let Agent {
            config: _,
            member_clock: _,
            events: _,
            queries: _,
            fired_queries: _,
            snapshot: _,
        } = self;
    }
}

impl<S: Sink> Model for Agent<S> {
    ghost use Rattle.serf_agent.specs.View.{AgentState};

    ghost Value = { AgentState };

    ghost use Rattle.serf_agent.specs.Inside.{IsBuilt, concrete_of};

    ghost view = { λ a. record {
      concrete = record {
        config = a.config;
        member_clock = a.member_clock;
        events = concrete_of a.events;
        queries = concrete_of a.queries;
        snapshot = a.snapshot.snapshot;
        fired_queries = a.fired_queries;
      };
      device = a.snapshot.device;
    } };

    ghost invariant = { λ a. IsBuilt a.config a.events a.queries a.fired_queries };
}

impl<S: Sink> Agent<S> {
    /// Opens an agent over a sink that holds `text`. If the text is empty, this is the node's first agent. Otherwise it
    /// is the node's agent in a new life, and its settings may differ from those of earlier lives.
    ///
    /// The new agent continues like the agent that wrote the text's lines: its clocks and its minimum times are above
    /// everything that was handed out before. If the settings keep events, the minimum times are those of the text
    /// instead, and the buffers restore the events and the queries that the text keeps. The agent then knows that each
    /// of these was handed out.
    ///
    /// The errors are:
    /// - `BadConfig` if the settings are out of bounds;
    /// - `OutOfMemory`, which can occur only if the last line of the text is torn or the settings keep events;
    /// - `SinkError` if the last line is torn and the sink failed to end this line.
    ///
    /// Each error returns the settings and the sink. The first two leave the sink untouched. If the text is empty or
    /// ends in a newline, the sink isn't called. If in addition the settings keep no events, no memory is allocated,
    /// because a slot allocates memory only when an entry is inserted into it.
    pub fn open(alloc: Global, config: Config, text: &[u8], sink: S) -> Result<Self, NotOpened<S>>
        requires { HasText text.now (S.device sink) }

        // Take any agent whose times are in the text, and, if the settings keep events, everything that it entered as
        // well. Whatever its settings were, the new agent is this agent in its next life.
        ensures restarted { (i : IdealAgent) → IsSound i → HasPast config i text.now
            → IfOk result (λ a. let next = with_config config i in
            (a.concrete ≡ view_of (restarted text.now (opened text.now (S.device sink)) next))
            × IsSound (restarted text.now (opened text.now (S.device sink)) next)) }
        ensures device { IfOk result (λ a. a.device ≡ opened_device text.now (S.device sink)) }
        ensures ok { OnOk result (is_sound config ≡ true) }
        ensures opens { is_sound config ≡ true → is_whole text.now ≡ true
            → config.keep_events ≡ false → IsOk result }

        // On any text, the new agent is also the next life of a sound agent that has entered nothing.
        ensures first { IfOk result (λ a. let o = opened text.now (S.device sink) in
            (a.concrete ≡ view_of (restarted text.now o (unopened config o)))
            × IsSound (restarted text.now o (unopened config o))) }

        // If the text is whole, the sink isn't called. If the sink has a plan, it fails exactly as planned.
        ensures whole { IfErr result (λ e. is_whole text.now ≡ true
            → e.error ≢ OpenError.SinkError) }
        ensures ok_planned { OnOk result (is_whole text.now ≡ false
            → IfSome (S.device sink).plan (λ p. append_line_fails p ≡ false)) }
        ensures planned { IfErr result (λ e. e.error ≡ OpenError.SinkError
            → IfSome (S.device sink).plan (λ p. append_line_fails p ≡ true)) }

        // The contents of an error.
        ensures config { IfErr result (λ e. e.config ≡ config) }
        ensures bad { IfErr result (λ e. (e.error ≡ OpenError.BadConfig)
            ↔ (is_sound config ≡ false)) }
        ensures untouched { IfErr result (λ e. e.error ≢ OpenError.SinkError
            → S.device e.sink ≡ S.device sink) }
        ensures cause { IfErr result (λ e. e.error ≡ OpenError.SinkError
            → Fails (S.device sink) (S.device e.sink) seal_line) }
        ensures called { IfErr result (λ e. e.error ≡ OpenError.SinkError
            → HasTriedAppendLine (S.device sink).calls (S.device e.sink).calls) }
        ensures decremented { IfErr result (λ e. e.error ≡ OpenError.SinkError
            → (S.device e.sink).plan ≡ option_map append_line_decremented (S.device sink).plan) }
    {
        // (for the proof: the last lines that the snapshot records are those that its sink holds)
        sound_snapshots();
        kept_restart_laws();
        if !config.is_sound() {
            let error = OpenError::BadConfig;
            return Err(NotOpened {
                config,
                sink,
                error,
            });
        }
        let Ok(first) = read_opening_tracks(alloc, &config, text) else {
            return Err(NotOpened {
                config,
                sink,
                error: OpenError::OutOfMemory,
            });
        };
        let snapshot = match Snapshot::open_read(alloc, text, first.clocks, sink) {
            Ok(snapshot) => snapshot,
            Err((sink, sealed)) => {
                let error = OpenError::from(sealed);
                return Err(NotOpened {
                    config,
                    sink,
                    error,
                });
            }
        };
        let OpeningTracks {
            events,
            queries,
            ..
        } = first;
        Ok(Agent::following(alloc, config, events, queries, snapshot))
    }

    /// Builds the agent of an opening from its tracks and from a snapshot that has read the last clock lines of the
    /// text.
    fn following(
        alloc: Global,
        config: Config,
        events: EventTrack,
        queries: QueryTrack,
        snapshot: Snapshot<S>,
    ) -> Self
        requires config_sound { is_sound config ≡ true }
        requires event_size { length events.window.slots ≡ config.event_buffer }
        requires event_per_time { events.window.per_time ≡ config.per_time }
        requires query_size { length queries.window.slots ≡ config.query_buffer }
        requires query_per_time { queries.window.per_time ≡ config.per_time }

        ensures concrete { result.concrete ≡ record {
          config = config;
          member_clock = snapshot.snapshot.member_clock + 1;
          events = concrete_of events;
          queries = concrete_of queries;
          snapshot = snapshot.snapshot;
          fired_queries = [];
        } }
        ensures device { result.device ≡ snapshot.device }
    {
        let last = snapshot.clocks();
        let mut member_clock = Clock::new();
        member_clock.observe_before(last.member_clock + 1);
        Agent {
            config,
            member_clock,
            events,
            queries,
            fired_queries: OpenQueries::new(alloc),
            snapshot,
        }
    }
}
