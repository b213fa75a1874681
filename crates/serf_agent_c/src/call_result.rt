//! The result of an agent's last call, as the agent returned it. The getters read it until the next call.

ghost use Rattle.std.specs.Prelude.{◌≡◌, option_copied, slice_get};
ghost use Rattle.serf_agent_c.specs.ResultParts.{ack_in, closed_in, events_in, handed_in, packet_in, unsettled_in};

use serf_agent::{
    EventOut, FireError, Fired, FiredQuery, MergeError, OpenQuery, Outcome, PendingQuery,
    PushPullError, QueryError, ReceiveError, Reply, RespondError,
};
use serf_snapshot::AppendLineError;
use serf_wire::Bytes;

/// The result of the last call: the agent's result, or the error with which the agent refused the call.
#[derive(Drop)]
pub enum CallResult {
    /// No result: no call was made yet, or the last call has nothing to read.
    Nothing,
    /// The last call has no result. If this contains a query, an earlier call handed it out, and there was no memory to
    /// add it to those that wait.
    Kept(Option<PendingQuery>),
    /// The outcome of a packet, or the error with which the agent refused it.
    Received(Result<Outcome, ReceiveError>),
    /// An event that was fired, or the error.
    Fired(Result<Fired, FireError>),
    /// A query that was fired, or the error.
    QueryFired(Result<FiredQuery, QueryError>),
    /// The events that a push/pull handed out, and the error if not all of it was merged.
    Merged(Vec<EventOut>, Option<MergeError>),
    /// The packet with the agent's whole state, or the error.
    State(Result<Bytes, PushPullError>),
    /// The response to a query that was handed out, or the error.
    Replied(Result<Reply, RespondError>),
    /// The result of writing a line with the member clock, or of a compaction.
    LineAppended(Result<(), AppendLineError>),
    /// The queries that were closed, with their times, in the order in which they were fired.
    Closed(Vec<(u64, OpenQuery)>),
}

impl CallResult {
    /// The event at `index`, counted from 0, among those that the call handed out.
    pub(crate) fn event(&self, index: usize) -> Option<&EventOut>
        ensures { option_copied result ≡ slice_get (events_in self.now) index }
    {
        match self {
            CallResult::Received(Ok(Outcome::Event(event))) if index == 0 => Some(event),
            CallResult::Fired(Ok(fired)) if index == 0 => Some(&fired.handed),
            CallResult::Merged(events, _) => events.as_slice().get(index),
            _ => None,
        }
    }

    /// The outgoing packet that the call made, if it made one. An ack isn't returned here.
    pub(crate) fn packet(&self) -> Option<&Bytes>
        ensures { option_copied result ≡ packet_in self.now }
    {
        match self {
            CallResult::Fired(Ok(fired)) => Some(&fired.packet),
            CallResult::QueryFired(Ok(fired)) => Some(&fired.packet),
            CallResult::State(Ok(packet)) => Some(packet),
            CallResult::Replied(Ok(reply)) => Some(&reply.packet),
            _ => None,
        }
    }

    /// The ack to send for the query that the call handed out, if the query requests acks.
    pub(crate) fn ack(&self) -> Option<&Bytes>
        ensures { option_copied result ≡ ack_in self.now }
    {
        match self {
            CallResult::Received(Ok(Outcome::Query { ack, .. })) => ack.as_ref(),
            CallResult::QueryFired(Ok(fired)) => fired.ack.as_ref(),
            _ => None,
        }
    }

    /// The query that the call handed out, if it handed one out.
    pub(crate) fn handed(&self) -> Option<&PendingQuery>
        ensures { option_copied result ≡ handed_in self.now }
    {
        match self {
            CallResult::Received(Ok(Outcome::Query { handed, .. })) => handed.as_ref(),
            CallResult::QueryFired(Ok(fired)) => fired.handed.as_ref(),
            _ => None,
        }
    }

    /// One of the queries that the call closed, with its time. `index` counts from 0, in the order in which the queries
    /// were fired.
    pub(crate) fn closed(&self, index: usize) -> Option<&(u64, OpenQuery)>
        ensures { option_copied result ≡ slice_get (closed_in self.now) index }
    {
        match self {
            CallResult::Closed(queries) => queries.as_slice().get(index),
            _ => None,
        }
    }

    /// The query that was handed out last, as long as it isn't yet among the queries that wait for an answer.
    pub(crate) fn unsettled(&self) -> Option<&PendingQuery>
        ensures { option_copied result ≡ unsettled_in self.now }
    {
        match self {
            CallResult::Kept(query) => query.as_ref(),
            _ => self.handed(),
        }
    }

    /// Moves out the query that `unsettled` borrows.
    pub(crate) fn into_unsettled(self) -> Option<PendingQuery>
        ensures { result ≡ unsettled_in self }
    {
        match self {
            CallResult::Kept(query) => query,
            CallResult::Received(Ok(Outcome::Query { handed, .. })) => handed,
            CallResult::QueryFired(Ok(fired)) => fired.handed,
            _ => None,
        }
    }
}
