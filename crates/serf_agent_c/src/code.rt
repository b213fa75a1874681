//! The codes that the exports return to C, and the code for each of the agent's errors.

ghost use Rattle.std.specs.Prelude.{◌≡◌};
ghost use Rattle.serf_agent_c.specs.Codes.{fire_code, merge_code, append_line_code, number_of, open_code, query_code, receive_code, respond_code, state_code};

use serf_agent::{
    FireError, MergeError, OpenError, PushPullError, QueryError, ReceiveError, RespondError,
};
use serf_snapshot::AppendLineError;

/// The code that an export returns, as in `enum serf_agent_code` of `include/serf_agent.h`.
#[derive(Clone, Copy)]
pub enum Code {
    /// The call was done.
    Done,
    /// The handle has no agent: it is empty.
    Empty,
    /// The handle already has an agent.
    InUse,
    /// Bytes are pending for the host's file, and the host has to write them first.
    Pending,
    /// There is nothing of the requested kind: the last call has no result of this kind, or the packet is of another
    /// kind.
    Nothing,
    /// There was no memory for the call.
    OutOfMemory,
    /// A setting, or the length of the agent's name, is out of its bounds.
    BadConfig,
    /// The agent's sink failed.
    SinkError,
    /// The agent's sink failed in an earlier call.
    Stopped,
    /// The event, the query or the response is too large.
    TooLarge,
    /// The clock is at 2^64 - 1, or the given time is 2^64 - 1, which is not a valid time.
    Exhausted,
    /// The packet is not a message.
    NoMessage,
    /// The answer is from a new node, but the limit of nodes whose answers are counted for the query is reached.
    RespondersFull,
    /// The message to merge is not a push/pull.
    NotPushPull,
    /// A text has more than 4,294,967,295 bytes, or a list has more items than that.
    TooLong,
    /// The query's timeout is 0 or negative.
    NoTime,
    /// The moment of the response is after the query's deadline.
    PastDeadline,
    /// No query with the given number waits for an answer.
    NotPending,
}

impl Code {
    /// The number of the code, which C reads.
    pub fn number(self) -> u32
        ensures { result ≡ number_of self }
    {
        match self {
            Code::Done => 0,
            Code::Empty => 1,
            Code::InUse => 2,
            Code::Pending => 3,
            Code::Nothing => 4,
            Code::OutOfMemory => 5,
            Code::BadConfig => 6,
            Code::SinkError => 7,
            Code::Stopped => 8,
            Code::TooLarge => 9,
            Code::Exhausted => 10,
            Code::NoMessage => 11,
            Code::RespondersFull => 12,
            Code::NotPushPull => 13,
            Code::TooLong => 14,
            Code::NoTime => 15,
            Code::PastDeadline => 16,
            Code::NotPending => 17,
        }
    }

    /// The code for the error of an opening that was refused.
    pub(crate) fn of_open(error: OpenError) -> Code
        ensures { result ≡ open_code error }
    {
        match error {
            OpenError::BadConfig => Code::BadConfig,
            OpenError::OutOfMemory => Code::OutOfMemory,
            OpenError::SinkError => Code::SinkError,
        }
    }

    /// The code for an event that was not fired.
    pub(crate) fn of_fire(error: FireError) -> Code
        ensures { result ≡ fire_code error }
    {
        match error {
            FireError::Stopped => Code::Stopped,
            FireError::TooLarge => Code::TooLarge,
            FireError::Exhausted => Code::Exhausted,
            FireError::OutOfMemory => Code::OutOfMemory,
            FireError::SinkError => Code::SinkError,
        }
    }

    /// The code for a packet that was refused.
    pub(crate) fn of_receive(error: ReceiveError) -> Code
        ensures { result ≡ receive_code error }
    {
        match error {
            ReceiveError::Stopped => Code::Stopped,
            ReceiveError::Wire(_) => Code::NoMessage,
            ReceiveError::RespondersFull => Code::RespondersFull,
            ReceiveError::OutOfMemory => Code::OutOfMemory,
            ReceiveError::SinkError => Code::SinkError,
        }
    }

    /// The code for a query that was not fired.
    pub(crate) fn of_query(error: QueryError) -> Code
        ensures { result ≡ query_code error }
    {
        match error {
            QueryError::Stopped => Code::Stopped,
            QueryError::TooLarge => Code::TooLarge,
            QueryError::ZeroTimeout => Code::NoTime,
            QueryError::Exhausted => Code::Exhausted,
            QueryError::OutOfMemory => Code::OutOfMemory,
            QueryError::SinkError => Code::SinkError,
        }
    }

    /// The code for a state that was not merged, or not completely.
    pub(crate) fn of_merge(error: MergeError) -> Code
        ensures { result ≡ merge_code error }
    {
        match error {
            MergeError::Stopped => Code::Stopped,
            MergeError::Wire(_) => Code::NoMessage,
            MergeError::NotPushPull => Code::NotPushPull,
            MergeError::OutOfMemory => Code::OutOfMemory,
            MergeError::SinkError => Code::SinkError,
        }
    }

    /// The code for a state that could not be encoded.
    pub(crate) fn of_state(error: PushPullError) -> Code
        ensures { result ≡ state_code error }
    {
        match error {
            PushPullError::Stopped => Code::Stopped,
            PushPullError::TooLong => Code::TooLong,
            PushPullError::OutOfMemory => Code::OutOfMemory,
        }
    }

    /// The code for a response that was not made.
    pub(crate) fn of_respond(error: RespondError) -> Code
        ensures { result ≡ respond_code error }
    {
        match error {
            RespondError::PastDeadline => Code::PastDeadline,
            RespondError::TooLarge => Code::TooLarge,
            RespondError::OutOfMemory => Code::OutOfMemory,
        }
    }

    /// The code for a line that was not written.
    pub(crate) fn of_append_line(error: AppendLineError) -> Code
        ensures { result ≡ append_line_code error }
    {
        match error {
            AppendLineError::Stopped => Code::Stopped,
            AppendLineError::OutOfMemory => Code::OutOfMemory,
            AppendLineError::SinkError => Code::SinkError,
        }
    }
}
