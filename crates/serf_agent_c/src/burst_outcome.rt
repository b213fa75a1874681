//! The outcome of a call in a burst. When the host moves on to this outcome, it becomes the result that the getters
//! read (`CallResult`).

ghost use Rattle.std.specs.Prelude.{◌≡◌};
ghost use Rattle.serf_agent_c.specs.Bursts.{code_of, call_result_of};

use crate::asking::query_fired_code;
use crate::call_result::CallResult;
use crate::calls::{fired_code, received_code};
use crate::code::Code;
use serf_agent::{FireError, Fired, FiredQuery, Outcome, QueryError, ReceiveError};

/// The agent's result of a call in a burst. The call received a packet, fired an event, or fired a query.
#[derive(Drop)]
pub enum BurstOutcome {
    Received(Result<Outcome, ReceiveError>),
    Fired(Result<Fired, FireError>),
    QueryFired(Result<FiredQuery, QueryError>),
}

impl BurstOutcome {
    /// The code that the call returned.
    pub(crate) fn code(&self) -> Code
        ensures { result ≡ code_of self.now }
    {
        match self {
            BurstOutcome::Received(answer) => received_code(answer),
            BurstOutcome::Fired(answer) => fired_code(answer),
            BurstOutcome::QueryFired(answer) => query_fired_code(answer),
        }
    }

    /// The call's result, for the getters to read.
    pub(crate) fn call_result(self) -> CallResult
        ensures { result ≡ call_result_of self }
    {
        match self {
            BurstOutcome::Received(answer) => CallResult::Received(answer),
            BurstOutcome::Fired(answer) => CallResult::Fired(answer),
            BurstOutcome::QueryFired(answer) => CallResult::QueryFired(answer),
        }
    }
}
