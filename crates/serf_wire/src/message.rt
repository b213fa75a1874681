//! Messages that were read from a packet, and messages that are going to be written.

use crate::borrowed_slots::BorrowedEventSlots;
use crate::lists::{SlotViews, StatusTime, StatusTimes, Texts};
use serf_lamport::Time;

/// A user event, as it was fired.
#[derive(Clone, Copy)]
pub struct UserEvent<'a> {
    pub time: Time,
    pub name: &'a [u8],
    pub payload: &'a [u8],
    /// Whether agents may coalesce this event with others of the same name.
    pub coalesce: bool,
}

/// A query, as it was fired.
///
/// If the query was read from a packet, its filters are [`Texts`] of this packet. If the query is going to be
/// written, its filters are a slice of [`Bytes`](crate::Bytes).
#[derive(Clone, Copy)]
pub struct Query<'a, F = Texts<'a>> {
    pub time: Time,
    pub id: u32,
    /// The address of the node that fired the query.
    pub addr: &'a [u8],
    pub port: u16,
    /// The name of the node that fired the query.
    pub source: &'a [u8],
    /// The filters. Every node that all filters let pass should answer.
    pub filters: F,
    /// A set of flags: the flag 1 requests acks, and the flag 2 forbids rebroadcasting.
    pub flags: u32,
    /// How many nodes should relay each response.
    pub relay_factor: u8,
    /// How long the node that fired the query accepts answers, in nanoseconds.
    pub timeout: i64,
    pub name: &'a [u8],
    pub payload: &'a [u8],
}

/// A node's answer to a query: a response or an ack.
#[derive(Clone, Copy)]
pub struct QueryResponse<'a> {
    /// The query's time. Any number of 64 bits is allowed.
    pub time: u64,
    pub id: u32,
    /// The name of the node that answers.
    pub from: &'a [u8],
    /// A set of flags: the flag 1 marks an ack.
    pub flags: u32,
    pub payload: &'a [u8],
}

/// The whole state of a node, as read from a packet. The lists are read in place.
#[derive(Clone, Copy)]
pub struct PushPull<'a> {
    /// The value of the member clock.
    pub member_clock: u64,
    /// The members' status times.
    pub status: StatusTimes<'a>,
    /// The names of the members that have left.
    pub left: Texts<'a>,
    /// The value of the event clock.
    pub event_clock: u64,
    /// The slots of the event buffer.
    pub slots: SlotViews<'a>,
    /// The value of the query clock.
    pub query_clock: u64,
}

/// The whole state of a node, as it is going to be written. The caller passes the lists in.
#[derive(Clone, Copy)]
pub struct PushPullParts<'a> {
    /// The value of the member clock.
    pub member_clock: u64,
    /// The members' status times.
    pub status: &'a [StatusTime<'a>],
    /// The names of the members that have left.
    pub left: &'a [&'a [u8]],
    /// The value of the event clock.
    pub event_clock: u64,
    /// The slots of the event buffer.
    pub slots: BorrowedEventSlots<'a>,
    /// The value of the query clock.
    pub query_clock: u64,
}

/// A message (Serf's `messages.go`). Its texts are borrowed from the packet, and its lists are read in place.
#[derive(Clone, Copy)]
pub enum Message<'a> {
    UserEvent(UserEvent<'a>),
    Query(Query<'a>),
    QueryResponse(QueryResponse<'a>),
    PushPull(PushPull<'a>),
    /// A message of this type, which `decode` doesn't read.
    Foreign(u8),
}
