//! Converts the errors of the crates below to the errors of an agent's calls.

use crate::outcome::{FireError, MergeError, OpenError, QueryError, ReceiveError};
use serf_snapshot::{AppendLineError, SealError};
use std::alloc::AllocError;

impl From<AllocError> for FireError {
    ghost use Rattle.std.specs.Prelude.{◌≡◌};
    ghost use Rattle.serf_agent.specs.declared.outcome.FireError.TheVariants.{OutOfMemory};

    ghost from_gives = { λ _ error. error ≡ OutOfMemory };

    fn from(_error: AllocError) -> FireError {
        FireError::OutOfMemory
    }
}

impl From<AllocError> for ReceiveError {
    ghost use Rattle.std.specs.Prelude.{◌≡◌};
    ghost use Rattle.serf_agent.specs.declared.outcome.ReceiveError.TheVariants.{OutOfMemory};

    ghost from_gives = { λ _ error. error ≡ OutOfMemory };

    fn from(_error: AllocError) -> ReceiveError {
        ReceiveError::OutOfMemory
    }
}

impl From<AllocError> for MergeError {
    ghost use Rattle.std.specs.Prelude.{◌≡◌};
    ghost use Rattle.serf_agent.specs.declared.outcome.MergeError.TheVariants.{OutOfMemory};

    ghost from_gives = { λ _ error. error ≡ OutOfMemory };

    fn from(_error: AllocError) -> MergeError {
        MergeError::OutOfMemory
    }
}

impl From<AppendLineError> for FireError {
    ghost use Rattle.std.specs.Prelude.{◌≡◌};
    ghost use Rattle.serf_agent.specs.Errors.{fire_error_of};

    ghost from_gives = { λ noted error. error ≡ fire_error_of noted };

    fn from(noted: AppendLineError) -> FireError {
        match noted {
            AppendLineError::Stopped => FireError::Stopped,
            AppendLineError::OutOfMemory => FireError::OutOfMemory,
            AppendLineError::SinkError => FireError::SinkError,
        }
    }
}

impl From<AppendLineError> for QueryError {
    ghost use Rattle.std.specs.Prelude.{◌≡◌};
    ghost use Rattle.serf_agent.specs.Errors.{query_error_of};

    ghost from_gives = { λ noted error. error ≡ query_error_of noted };

    fn from(noted: AppendLineError) -> QueryError {
        match noted {
            AppendLineError::Stopped => QueryError::Stopped,
            AppendLineError::OutOfMemory => QueryError::OutOfMemory,
            AppendLineError::SinkError => QueryError::SinkError,
        }
    }
}

impl From<AppendLineError> for ReceiveError {
    ghost use Rattle.std.specs.Prelude.{◌≡◌};
    ghost use Rattle.serf_agent.specs.Errors.{receive_error_of};

    ghost from_gives = { λ noted error. error ≡ receive_error_of noted };

    fn from(noted: AppendLineError) -> ReceiveError {
        match noted {
            AppendLineError::Stopped => ReceiveError::Stopped,
            AppendLineError::OutOfMemory => ReceiveError::OutOfMemory,
            AppendLineError::SinkError => ReceiveError::SinkError,
        }
    }
}

impl From<AppendLineError> for MergeError {
    ghost use Rattle.std.specs.Prelude.{◌≡◌};
    ghost use Rattle.serf_agent.specs.Errors.{merge_error_of};

    ghost from_gives = { λ noted error. error ≡ merge_error_of noted };

    fn from(noted: AppendLineError) -> MergeError {
        match noted {
            AppendLineError::Stopped => MergeError::Stopped,
            AppendLineError::OutOfMemory => MergeError::OutOfMemory,
            AppendLineError::SinkError => MergeError::SinkError,
        }
    }
}

impl From<SealError> for OpenError {
    ghost use Rattle.std.specs.Prelude.{◌≡◌};
    ghost use Rattle.serf_agent.specs.Errors.{open_error_of};

    ghost from_gives = { λ sealed error. error ≡ open_error_of sealed };

    fn from(sealed: SealError) -> OpenError {
        match sealed {
            SealError::OutOfMemory => OpenError::OutOfMemory,
            SealError::SinkError => OpenError::SinkError,
        }
    }
}
