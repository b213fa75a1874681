//! The results and the errors of an agent's calls.

use crate::config::Config;
use crate::lists::BytesList;
use crate::pending_query::PendingQuery;
use serf_lamport::Time;
use serf_wire::{Bytes, WireError};
use thiserror::Error;

/// An event that is handed out to the agent's user.
#[derive(Drop)]
pub struct EventOut {
    pub time: Time,
    pub name: Bytes,
    pub payload: Bytes,
    /// Whether the event may be coalesced with others of its name. It is always false for an event that arrived in a
    /// push/pull.
    pub coalesce: bool,
}

/// An event that was fired: the packet to send, and the event as it is handed out here.
#[derive(Drop)]
pub struct Fired {
    pub packet: Bytes,
    pub handed: EventOut,
}

/// The reason why a packet is ignored. If several reasons apply, this is the first of them in this order.
#[derive(Clone, Copy, Debug, PartialEq, Eq)]
pub enum Reason {
    /// The event's name and payload together have more than 9,216 bytes.
    Oversize,
    /// The time is below the minimum time that the agent accepts.
    BelowMinimum,
    /// The time is too far below the clock.
    TooOld,
    /// The same event or query was already accepted at this time.
    Seen,
    /// The buffer already holds as many events, or queries, with this time as the settings allow.
    TimeFull,
    /// The packet is an ack or a response to a query that isn't open here.
    NotOpen,
    /// The packet is an ack or a response to another query of the same time.
    OtherId,
    /// The packet is an ack or a response that arrived after the deadline.
    Closed,
    /// The packet is an ack, although the query requested none.
    AckNotRequested,
    /// The node already acked this query.
    AckTwice,
    /// The node already responded to this query.
    ResponseTwice,
}

/// What the agent did with a packet.
#[derive(Drop)]
pub enum Outcome {
    /// The event is new. It is handed out, and the packet is to be sent on unchanged.
    Event(EventOut),
    /// The query is new.
    Query {
        /// The query, if every filter lets this node pass.
        handed: Option<PendingQuery>,
        /// The ack to send, if the query is handed out and requests acks.
        ack: Option<Bytes>,
        /// Whether the packet is to be sent on unchanged.
        rebroadcast: bool,
    },
    /// An ack was counted. To see which query and which node it belongs to, call [`answer_in`](crate::answer_in).
    Ack,
    /// A response was counted. To see its query, its node and its payload, call [`answer_in`](crate::answer_in).
    Response,
    /// The agent ignored the packet for this reason.
    Ignored(Reason),
    /// The message is of this type, which the agent doesn't read.
    Foreign(u8),
    /// The packet is a push/pull. Pass it to `merge_remote_state`.
    PushPull,
}

/// The reason why an agent couldn't be opened.
#[derive(Clone, Copy, Debug, PartialEq, Eq, Error)]
pub enum OpenError {
    #[error("the settings are out of bounds")]
    BadConfig,
    #[error("out of memory")]
    OutOfMemory,
    #[error("the sink failed")]
    SinkError,
}

/// The error of an opening that failed, together with the settings and the sink.
#[derive(Drop)]
pub struct NotOpened<S> {
    pub config: Config,
    pub sink: S,
    pub error: OpenError,
}

/// The reason why an event wasn't fired. If several errors apply, this is the first of them in this order.
#[derive(Clone, Copy, Debug, PartialEq, Eq, Error)]
pub enum FireError {
    #[error("the agent is stopped")]
    Stopped,
    /// The name and the payload together, or the packet, are longer than the event limit.
    #[error("the event is too large")]
    TooLarge,
    /// The event clock is at 2^64 - 1, which isn't a valid time.
    #[error("the event clock is exhausted")]
    Exhausted,
    #[error("out of memory")]
    OutOfMemory,
    #[error("the sink failed")]
    SinkError,
}

/// The reason why a packet was refused. If several errors apply, this is the first of them in this order.
#[derive(Clone, Copy, Debug, PartialEq, Eq, Error)]
pub enum ReceiveError {
    #[error("the agent is stopped")]
    Stopped,
    #[error("the packet is not a Serf message")]
    Wire(WireError),
    /// The answer is from a new node, but the limit of counted nodes is reached.
    #[error("the query has as many answers as it accepts")]
    RespondersFull,
    #[error("out of memory")]
    OutOfMemory,
    #[error("the sink failed")]
    SinkError,
}

/// The reason why a state wasn't encoded. If several errors apply, this is the first of them in this order.
#[derive(Clone, Copy, Debug, PartialEq, Eq, Error)]
pub enum PushPullError {
    #[error("the agent is stopped")]
    Stopped,
    /// A byte string is longer than 4,294,967,295 bytes, or a list has more than 4,294,967,295 elements.
    #[error("a text or a list is too long")]
    TooLong,
    #[error("out of memory")]
    OutOfMemory,
}

/// The reason why a packet wasn't merged, or only in part. If several errors apply, this is the first in this
/// order.
#[derive(Clone, Copy, Debug, PartialEq, Eq, Error)]
pub enum MergeError {
    #[error("the agent is stopped")]
    Stopped,
    #[error("the packet is not a Serf message")]
    Wire(WireError),
    /// The packet is a message of another kind.
    #[error("the packet is not a push/pull")]
    NotPushPull,
    #[error("out of memory")]
    OutOfMemory,
    #[error("the sink failed")]
    SinkError,
}

/// The parameters of a query that is fired.
#[derive(Drop)]
pub struct QueryParams {
    /// The query is for the nodes that every filter lets pass.
    pub filters: BytesList,
    /// Whether each of these nodes is to send an ack.
    pub want_ack: bool,
    /// Whether nodes are forbidden to rebroadcast the query.
    pub no_broadcast: bool,
    /// Whether this node's tags pass each tag filter among the filters, so that the query may be handed out here. Set
    /// this to true only if you could read each tag filter, and this node's tags pass all of them.
    pub tags_pass: bool,
    /// How long answers are accepted, in nanoseconds.
    pub timeout: i64,
    /// The address to which answers are sent.
    pub addr: Bytes,
    pub port: u16,
    pub relay_factor: u8,
}

/// A query that was fired: the packet to send, and, if the filters let this node pass, the query to hand out here and
/// this node's own ack.
#[derive(Drop)]
pub struct FiredQuery {
    pub time: Time,
    pub packet: Bytes,
    /// The query, if every filter lets this node pass.
    pub handed: Option<PendingQuery>,
    /// The ack to send, if the query is handed out and requests acks.
    pub ack: Option<Bytes>,
}

/// The reason why a query wasn't fired. If several errors apply, this is the first of them in this order.
#[derive(Clone, Copy, Debug, PartialEq, Eq, Error)]
pub enum QueryError {
    #[error("the agent is stopped")]
    Stopped,
    /// The packet is longer than the query limit.
    #[error("the query is too large")]
    TooLarge,
    /// The timeout is 0 or negative.
    #[error("the query has no timeout")]
    ZeroTimeout,
    /// The query clock is at 2^64 - 1, which isn't a valid time.
    #[error("the query clock is exhausted")]
    Exhausted,
    #[error("out of memory")]
    OutOfMemory,
    #[error("the sink failed")]
    SinkError,
}

/// A response, and the address and the port to which to send it.
#[derive(Drop)]
pub struct Reply {
    pub addr: Bytes,
    pub port: u16,
    pub packet: Bytes,
}

/// The reason why a query wasn't answered. If several errors apply, this is the first of them in this order.
#[derive(Clone, Copy, Debug, PartialEq, Eq, Error)]
pub enum RespondError {
    /// The moment is after the query's deadline.
    #[error("the deadline of the query has passed")]
    PastDeadline,
    /// The packet is longer than the response limit of the agent that handed the query out.
    #[error("the response is too large")]
    TooLarge,
    #[error("out of memory")]
    OutOfMemory,
}
