//! The refusals that a trace shows for the errors of an agent's calls. `OutOfMemory` becomes an `AllocError`, which
//! ends the run.

ghost use Rattle.std.specs.Prelude.{◌≡◌, ◌≢◌, IfOk};
ghost use Rattle.serf_model.specs.Cluster.{fire_refusal, append_line_refusal, query_refusal, receive_refusal, state_refusal};

use serf_agent::{FireError, PushPullError, QueryError, ReceiveError};
use serf_model::Refusal;
use serf_snapshot::AppendLineError;
use std::alloc::AllocError;

/// Returns the refusal of a user event that couldn't be fired because of `error`.
pub(crate) fn fire_refusal(error: FireError) -> Result<Refusal, AllocError>
    ensures { IfOk result (λ refusal. (refusal ≡ fire_refusal error)
        × (error ≢ FireError.OutOfMemory)) }
{
    match error {
        FireError::OutOfMemory => Err(AllocError),
        FireError::Stopped => Ok(Refusal::Stopped),
        FireError::TooLarge => Ok(Refusal::TooLarge),
        FireError::Exhausted => Ok(Refusal::Exhausted),
        FireError::SinkError => Ok(Refusal::SinkError),
    }
}

/// Returns the refusal of a delivery whose packet couldn't be received because of `error`.
pub(crate) fn receive_refusal(error: ReceiveError) -> Result<Refusal, AllocError>
    ensures { IfOk result (λ refusal. (refusal ≡ receive_refusal error)
        × (error ≢ ReceiveError.OutOfMemory)) }
{
    match error {
        ReceiveError::OutOfMemory => Err(AllocError),
        ReceiveError::Stopped => Ok(Refusal::Stopped),
        ReceiveError::Wire(error) => Ok(Refusal::Wire(error)),
        ReceiveError::RespondersFull => Ok(Refusal::RespondersFull),
        ReceiveError::SinkError => Ok(Refusal::SinkError),
    }
}

/// Returns the refusal of an agent's state that couldn't be made because of `error`.
pub(crate) fn state_refusal(error: PushPullError) -> Result<Refusal, AllocError>
    ensures { IfOk result (λ refusal. (refusal ≡ state_refusal error)
        × (error ≢ PushPullError.OutOfMemory)) }
{
    match error {
        PushPullError::OutOfMemory => Err(AllocError),
        PushPullError::Stopped => Ok(Refusal::Stopped),
        PushPullError::TooLong => Ok(Refusal::TooLong),
    }
}

/// Returns the refusal of a query that couldn't be fired because of `error`.
pub(crate) fn query_refusal(error: QueryError) -> Result<Refusal, AllocError>
    ensures { IfOk result (λ refusal. (refusal ≡ query_refusal error)
        × (error ≢ QueryError.OutOfMemory)) }
{
    match error {
        QueryError::OutOfMemory => Err(AllocError),
        QueryError::Stopped => Ok(Refusal::Stopped),
        QueryError::TooLarge => Ok(Refusal::TooLarge),
        QueryError::ZeroTimeout => Ok(Refusal::ZeroTimeout),
        QueryError::Exhausted => Ok(Refusal::Exhausted),
        QueryError::SinkError => Ok(Refusal::SinkError),
    }
}

/// Returns the refusal of a save or a compaction that failed because of `error`.
pub(crate) fn append_line_refusal(error: AppendLineError) -> Result<Refusal, AllocError>
    ensures { IfOk result (λ refusal. (refusal ≡ append_line_refusal error)
        × (error ≢ AppendLineError.OutOfMemory)) }
{
    match error {
        AppendLineError::OutOfMemory => Err(AllocError),
        AppendLineError::Stopped => Ok(Refusal::Stopped),
        AppendLineError::SinkError => Ok(Refusal::SinkError),
    }
}
