//! Defines the traits of a sink, which is a device that keeps the lines of a snapshot, and the errors of a sink.

ghost use Rattle.std.specs.Prelude.{◌≡◌, ◌==◌, ◌+◌, ◌≤◌, ℕ, [], false, true, length, not, is_ok, OnOk, OnErr, IfSome, IsErrOf};
ghost use Rattle.std.specs.Option.{option_map};
ghost use Rattle.serf_snapshot.specs.Device.{Device, Fails, FailsReplace, IsClean, append_called, append_decremented, appended, flush_called, flush_decremented, flushed, replace_called, replace_decremented, replaced, unreplaced};

use std::alloc::{AllocError, Global};
use thiserror::Error;

/// The sink failed in an append or a flush.
///
/// The sink still keeps everything that it kept before, and perhaps a part of the bytes that it should have written.
#[derive(Clone, Copy, Debug, PartialEq, Eq, Error)]
#[error("the sink failed")]
pub struct SinkError;

/// Why a sink didn't replace its text.
#[derive(Clone, Copy, Debug, PartialEq, Eq, Error)]
pub enum ReplaceError {
    /// Memory ran out. The durable bytes are unchanged.
    #[error("out of memory")]
    OutOfMemory,
    /// The sink failed. Either the old text or the new one is durable, as a whole, and nothing is buffered.
    #[error("the sink failed")]
    SinkError,
}

/// A device that keeps lines and may fail.
///
/// Bytes that were appended are buffered until a flush makes them durable. Clauses about bytes apply to a sink that
/// exposes its bytes, and clauses about a plan to a sink that has one.
pub trait Sink {
    /// The buffered and the durable bytes if the sink exposes them, its plan if it has one, how often it has failed,
    /// and how often it was called. The counts stay at 2^64 - 1 once they have reached it.
    ghost device: { Self → Device };

    /// How many bytes the sink accepts without allocating memory.
    ghost room: { Self → ℕ };

    /// Makes room for `n` bytes. If memory runs out, the sink still keeps the same bytes, and may have gained some
    /// room.
    fn reserve(&mut self, alloc: Global, n: usize) -> Result<(), AllocError>
        ensures room { OnOk result (n ≤ room self.new) }
        ensures device { device self.new ≡ device self.old };

    /// Appends `bytes` to the sink's buffer, which must have room for them. Allocates no memory.
    ///
    /// After [`SinkError`], the sink has counted one more failure, unless its count is already at its maximum. The
    /// sink still keeps everything that it kept before, and perhaps a part of its buffer and of `bytes`. A sink with
    /// a plan fails exactly when the plan says so. It then keeps exactly what it kept before, and its buffer is
    /// empty.
    fn append(&mut self, bytes: &[u8]) -> Result<(), SinkError>
        requires { length bytes.now ≤ room self.old }
        ensures room { room self.old ≤ room self.new + length bytes.now }
        ensures ok { OnOk result (device self.new ≡ appended bytes.now (device self.old)) }
        ensures error { OnErr result (Fails (device self.old) (device self.new) bytes.now) }
        ensures decremented { (device self.new).plan
            ≡ option_map append_decremented (device self.old).plan }
        ensures planned { IfSome (device self.old).plan (λ p. is_ok result ≡ not (p.appends == 1)) }
        ensures called { (device self.new).calls ≡ append_called (device self.old).calls };

    /// Makes the buffered bytes durable. Allocates no memory. A failed flush leaves the same bytes in the sink as a
    /// failed append of no bytes.
    fn flush(&mut self) -> Result<(), SinkError>
        ensures ok { OnOk result (device self.new ≡ flushed (device self.old)) }
        ensures error { OnErr result (Fails (device self.old) (device self.new) []) }
        ensures decremented { (device self.new).plan
            ≡ option_map flush_decremented (device self.old).plan }
        ensures planned { IfSome (device self.old).plan (λ p. is_ok result ≡ not (p.flushes == 1)) }
        ensures called { (device self.new).calls ≡ flush_called (device self.old).calls };
}

/// A sink whose text can be replaced in one step, so that a crash during the step leaves either the old text or the new
/// one.
pub trait ReplaceSink: Sink {
    /// Replaces the text that the sink keeps with `text`, which is durable afterwards. The sink's buffer must be
    /// empty before the call.
    ///
    /// A sink with a plan fails exactly when the plan says so, and then keeps the text that the plan names.
    fn replace(&mut self, alloc: Global, text: &[u8]) -> Result<(), ReplaceError>
        requires { IsClean (Self.device self.old) }
        ensures ok { OnOk result (Self.device self.new ≡ replaced text.now (Self.device self.old)) }
        ensures ok_planned { OnOk result (IfSome (Self.device self.old).plan (λ p.
            (p.replaces == 1) ≡ false)) }
        ensures error { IsErrOf result ReplaceError.SinkError
            → FailsReplace (Self.device self.old) (Self.device self.new) text.now }
        ensures error_planned { IsErrOf result ReplaceError.SinkError
            → IfSome (Self.device self.old).plan (λ p. (p.replaces == 1) ≡ true) }
        ensures error_decremented { IsErrOf result ReplaceError.SinkError
            → (Self.device self.new).plan
            ≡ option_map replace_decremented (Self.device self.old).plan }
        ensures error_called { IsErrOf result ReplaceError.SinkError
            → (Self.device self.new).calls ≡ replace_called (Self.device self.old).calls }
        ensures memory { IsErrOf result ReplaceError.OutOfMemory
            → Self.device self.new ≡ unreplaced (Self.device self.old) };
}
