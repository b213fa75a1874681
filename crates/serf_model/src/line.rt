//! The lines of a trace: one for each action, with the result of the action.

ghost use Rattle.std.specs.Prelude.{◌≡◌};

use crate::boxed::Boxed;
use crate::lists::{EventLines, Numbers};
use serf_agent::Reason;
use serf_lamport::Time;
use serf_wire::{Bytes, WireError};

/// The reason why an action is refused. If several reasons apply, the refusal is the one that is found first.
/// `NoAgent`, `NoMessage` and `NoQuery` are checked first, in this order.
#[derive(Clone, Copy, PartialEq, Eq)]
pub enum Refusal {
    /// No agent has this number.
    NoAgent,
    /// There is no packet with this number.
    NoMessage,
    /// No query with this number was handed to the agent in this life, or the query was answered already.
    NoQuery,
    /// The agent's sink failed earlier, and the agent hasn't been opened again since.
    Stopped,
    /// The event, the query or the response is longer than its limit.
    TooLarge,
    /// A text or a list has a length of more than 4,294,967,295.
    TooLong,
    /// The clock is at 2^64 - 1, which isn't a valid time.
    Exhausted,
    /// The query's timeout is 0 or negative.
    ZeroTimeout,
    /// The query's deadline is past.
    PastDeadline,
    /// The packet contains a message, but not a push/pull.
    NotPushPull,
    /// The query already counts as many answers as the agent's settings allow.
    RespondersFull,
    /// The agent's sink failed during this action, and the agent is stopped.
    SinkError,
    /// The packet doesn't spell a message.
    Wire(WireError),
}

/// The answer to an action.
#[derive(Clone, Copy, PartialEq, Eq)]
pub enum Answer {
    /// The agent fired an event at this time.
    Fired(Time),
    /// A delivered event was new. It was handed out and sent on.
    New,
    /// A delivered query was new, and the agent accepted it.
    Query,
    /// A delivered ack was counted for its open query.
    Ack,
    /// A delivered response was counted for its open query.
    Response,
    /// A delivered packet was ignored for this reason.
    Ignored(Reason),
    /// The delivered message is of this type, and the agent doesn't read messages of this type.
    Foreign(u8),
    /// The delivered packet contains a push/pull, which an agent reads only in a merge.
    PushPull,
    /// The agent's state was sent.
    State,
    /// The state in a packet was merged.
    Merged,
    /// The agent fired a query at this time.
    Queried(Time),
    /// A query was answered.
    Replied,
    /// A failure of the agent's sink was planned.
    Broken,
    /// The injected bytes were sent.
    Injected,
    /// The line of the member clock was written.
    Saved,
    /// The snapshot was compacted: its text has only the lines that are still needed.
    Compacted,
    /// The agent was opened again. The fields are the values of its three clocks after that.
    Restarted {
        member_clock: u64,
        event_clock: u64,
        query_clock: u64,
    },
    /// This many open queries were closed.
    Closed(u64),
    /// The action was refused: it wasn't done, or only a part of it was.
    Refused(Refusal),
}

/// An event that was handed out to agent number `agent`.
#[derive(Drop)]
pub struct EventLine {
    pub agent: u64,
    pub time: Time,
    pub name: Bytes,
    pub payload: Bytes,
    pub coalesce: bool,
}

/// A query that was handed out to agent number `agent`.
#[derive(Drop)]
pub struct QueryLine {
    pub agent: u64,
    /// The number of queries that were handed to this agent earlier in this life.
    pub index: u64,
    pub time: Time,
    pub id: u32,
    pub name: Bytes,
    pub payload: Bytes,
}

/// One line of a trace: the result of one action.
pub struct Line {
    pub answer: Answer,
    /// The numbers of the packets that were sent, in order.
    pub sent: Numbers,
    /// The events that were handed out, in order.
    pub events: EventLines,
    /// The query that was handed out, if there is one. It is in a separate block of memory, so that a line without a
    /// query is small.
    pub handed: Option<Boxed<QueryLine>>,
}

/// Implemented by hand, so that dependent crates need not prove again that the fields can be dropped.
impl Drop for Line {
    fn drop(self) {
        let Line {
            answer: _,
            sent: _,
            events: _,
            handed: _,
        } = self;
    }
}

impl Line {
    /// Consumes the line and returns the events that were handed out, in order. Allocates no memory.
    pub fn into_events(self) -> EventLines
        ensures { result ≡ self.events }
    {
        let Line {
            answer: _,
            sent: _,
            events,
            handed: _,
        } = self;
        events
    }
}
