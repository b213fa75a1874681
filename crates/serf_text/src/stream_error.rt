//! Why a stream of lines was not answered to its end.

use std::alloc::AllocError;
use thiserror::Error;

/// Why a line has no answer.
#[derive(Clone, Copy, Debug, PartialEq, Eq)]
pub enum StreamLineError<F> {
    /// The line is refused with this error.
    Bad(F),
    /// Memory ran out for the answer.
    OutOfMemory,
}

/// Why a stream was not answered to its end.
///
/// The answers to all earlier lines were written, in order. After a `WriteError`, only a prefix of these answers was
/// written.
#[derive(Clone, Copy, Debug, PartialEq, Eq)]
pub enum StreamError<F> {
    /// A read failed, or there were 2^64 - 1 reads. Each line whose newline was read has been answered.
    ReadError,
    /// Line number `line`, counted from 1, is refused with `error`.
    BadLine { line: u64, error: F },
    /// Line number `line`, counted from 1, has more than 16,777,216 bytes.
    LineTooLong { line: u64 },
    /// Memory ran out for a line or for its answer.
    OutOfMemory,
    /// A write failed, or wrote no bytes.
    WriteError,
}
