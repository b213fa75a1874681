//! Actions: the steps of a run, which are done one after another.

ghost use Rattle.std.specs.Prelude.{◌≡◌, IfOk, slice_get};
ghost use Rattle.std.specs.Option.{option_copied};
ghost use Rattle.serf_model.specs.Trace.{actor_of, given_by, packet_given};

use crate::boxed::Boxed;
use crate::query::NewQuery;
use serf_wire::Bytes;
use std::alloc::{AllocError, Global};

/// A kind of call to an agent's sink that can be made to fail.
#[derive(Clone, Copy, PartialEq, Eq)]
pub enum SinkCall {
    /// The call that appends a line.
    Append,
    /// The call that flushes what was appended.
    Flush,
    /// The call that replaces the text. If it fails, the old text is durable.
    ReplaceOld,
    /// The call that replaces the text. If it fails, the new text is durable.
    ReplaceNew,
}

/// One step of a run. Agents are numbered from 0 in the order of their settings.
pub enum Action {
    /// Sends the packet `bytes`, which no agent made.
    Inject { bytes: Bytes },
    /// Agent number `agent` does `act`.
    Of { agent: u64, act: Act },
}

/// Implemented by hand, so that dependent crates need not prove again that the fields can be dropped.
impl Drop for Action {
    fn drop(self) {
        match self {
            Action::Inject { bytes: _ } => {}
            Action::Of { agent: _, act: _ } => {}
        }
    }
}

/// An action of one agent. Packets are numbered from 0 in the order in which they were sent. The queries that are
/// handed to an agent are numbered from 0 in each of its lives. Moments are in nanoseconds.
pub enum Act {
    /// The agent fires a user event.
    Fire {
        name: Bytes,
        payload: Bytes,
        /// Whether the event may be coalesced with others of its name.
        coalesce: bool,
    },
    /// The agent receives packet number `packet` at the moment `now`. Any agent can receive any packet, any number of
    /// times. A packet that no agent receives is lost.
    Deliver {
        packet: u64,
        now: u64,
    },
    /// The agent sends its whole state as a push/pull message.
    State,
    /// The agent merges the state in packet number `packet`. If `join` is true, the merge is part of a join. Depending
    /// on its settings, the agent may then ignore events that were fired earlier.
    Merge {
        packet: u64,
        join: bool,
    },
    /// The agent fires a query.
    Query(Boxed<NewQuery>),
    /// The agent answers query number `handed` with `payload`, at the moment `now`. The number counts the queries that
    /// were handed to the agent in this life, from 0.
    Respond {
        handed: u64,
        now: u64,
        payload: Bytes,
    },
    /// The agent is opened again, on the text that its sink kept, followed by `tail`: bytes that an interrupted call
    /// had appended.
    Restart {
        tail: Bytes,
    },
    /// A failure of the agent's sink is planned: of the sink's next calls of the kind `call`, call number `count`,
    /// counted from 1, will fail. If `count` is 0, none of them will.
    Break {
        call: SinkCall,
        count: u64,
    },
    /// The agent closes its open queries whose deadlines are past at the moment `now`.
    Close {
        now: u64,
    },
    /// The agent writes the line of its member clock to its snapshot.
    Save,
    /// The agent compacts its snapshot, so that the text has only the lines that are still needed.
    Compact,
}

/// Implemented by hand, so that dependent crates need not prove again that the fields can be dropped.
impl Drop for Act {
    fn drop(self) {
        match self {
            Act::Fire {
                name: _,
                payload: _,
                coalesce: _,
            } => {}
            Act::Deliver { packet: _, now: _ } => {}
            Act::State | Act::Save | Act::Compact => {}
            Act::Merge { packet: _, join: _ } => {}
            Act::Query(_) => {}
            Act::Respond {
                handed: _,
                now: _,
                payload: _,
            } => {}
            Act::Restart { tail: _ } => {}
            Act::Break { call: _, count: _ } => {}
            Act::Close { now: _ } => {}
        }
    }
}

impl Action {
    /// Returns the number of the agent that acts, or `None` if the action injects a packet. Allocates no memory.
    pub fn actor(&self) -> Option<u64>
        ensures { result ≡ actor_of self.now }
    {
        match self {
            Action::Inject { .. } => None,
            Action::Of { agent, .. } => Some(*agent),
        }
    }

    /// Returns the packet of `sent` that the action passes to its agent, if there is one. Allocates no memory.
    pub fn given<'a>(&self, sent: &'a [Bytes]) -> Option<&'a [u8]>
        ensures { option_copied result ≡ packet_given sent.now self.now }
    {
        let Action::Of { act, .. } = self else {
            return None;
        };
        act.given(sent)
    }

    /// Copies the action. Returns `AllocError` if there is no memory for the copy.
    pub fn try_clone(&self, alloc: Global) -> Result<Action, AllocError>
        ensures { IfOk result (λ copy. copy ≡ self.now) }
    {
        match self {
            Action::Inject { bytes } => Ok(Action::Inject {
                bytes: Bytes::copy_of(alloc, bytes.as_slice())?,
            }),
            Action::Of { agent, act } => Ok(Action::Of {
                agent: *agent,
                act: act.try_clone(alloc)?,
            }),
        }
    }
}

impl Act {
    /// Returns the packet of `sent` that the act passes to its agent, if there is one. Allocates no memory.
    pub fn given<'a>(&self, sent: &'a [Bytes]) -> Option<&'a [u8]>
        ensures { option_copied result ≡ given_by sent.now self.now }
    {
        match self {
            Act::Deliver { packet, .. } | Act::Merge { packet, .. } => packet_at(sent, *packet),
            _ => None,
        }
    }

    /// Copies the act. Returns `AllocError` if there is no memory for the copy.
    pub fn try_clone(&self, alloc: Global) -> Result<Act, AllocError>
        ensures { IfOk result (λ copy. copy ≡ self.now) }
    {
        Ok(match self {
            Act::Fire {
                name,
                payload,
                coalesce,
            } => Act::Fire {
                name: Bytes::copy_of(alloc, name.as_slice())?,
                payload: Bytes::copy_of(alloc, payload.as_slice())?,
                coalesce: *coalesce,
            },
            Act::Deliver { packet, now } => Act::Deliver {
                packet: *packet,
                now: *now,
            },
            Act::State => Act::State,
            Act::Merge { packet, join } => Act::Merge {
                packet: *packet,
                join: *join,
            },
            Act::Query(query) => Act::Query(Boxed::new(alloc, query.get().try_clone(alloc)?)?),
            Act::Respond {
                handed,
                now,
                payload,
            } => Act::Respond {
                handed: *handed,
                now: *now,
                payload: Bytes::copy_of(alloc, payload.as_slice())?,
            },
            Act::Restart { tail } => Act::Restart {
                tail: Bytes::copy_of(alloc, tail.as_slice())?,
            },
            Act::Break { call, count } => Act::Break {
                call: *call,
                count: *count,
            },
            Act::Close { now } => Act::Close { now: *now },
            Act::Save => Act::Save,
            Act::Compact => Act::Compact,
        })
    }
}

/// Returns packet number `number` of `sent`, counted from 0, if there is one. Allocates no memory.
pub fn packet_at(sent: &[Bytes], number: u64) -> Option<&[u8]>
    ensures { option_copied result ≡ slice_get sent.now number }
{
    match sent.get(number as usize) {
        Some(packet) => Some(packet.as_slice()),
        None => None,
    }
}
