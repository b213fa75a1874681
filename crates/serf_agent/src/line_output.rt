//! Outputs for the lines that an agent keeps: a text collects the lines, and a counter only counts their bytes. So the
//! same functions write the lines of a compaction and compute their length.

ghost use Rattle.std.specs.Prelude.{◌≡◌, ◌-◌, ◌+◌, ◌^◌, min};

use serf_lamport::Time;
use serf_snapshot::{
    ClockKind, event_line_length, min_line_length, query_line_length, write_event_line,
    write_min_line, write_query_line,
};
use std::alloc::AllocError;
use std::convert::Infallible;

/// Accepts lines, one after another.
///
/// In contracts, `has output bytes` means that `output` has accepted exactly these bytes.
pub(crate) trait LineOutput {
    ghost use Rattle.std.specs.Prelude.{◌++◌, List, ℕ, OnOk};
    ghost use Rattle.serf_snapshot.specs.EventLines.{event_line, min_line, query_line};

    /// The reason why an output may refuse a line. After an error, the output may contain a prefix of the line.
    type Error: Drop;

    ghost has: { Self → List ℕ → Type 0 };

    /// Appends the line of the event of `time` with this name and payload.
    fn append_event_line(
        &mut self,
        time: Time,
        name: &[u8],
        payload: &[u8],
    ) -> Result<(), Self::Error>
        ensures { (before : List ℕ) → has self.old before → OnOk result (has self.new
            (before ++ event_line time name.now payload.now)) };

    /// Appends the line of the query of `time` with this ID.
    fn append_query_line(&mut self, time: Time, id: u32) -> Result<(), Self::Error>
        ensures { (before : List ℕ) → has self.old before → OnOk result (has self.new
            (before ++ query_line time id)) };

    /// Appends the line of the minimum `time` of `kind`.
    fn append_min_line(&mut self, kind: ClockKind, time: u64) -> Result<(), Self::Error>
        ensures { (before : List ℕ) → has self.old before → OnOk result (has self.new
            (before ++ min_line kind time)) };
}

/// A vector of bytes collects the lines themselves.
impl LineOutput for Vec<u8> {
    ghost use Rattle.std.specs.Prelude.{◌≡◌};

    type Error = AllocError;

    ghost has = { λ text bytes. text.items ≡ bytes };

    fn append_event_line(
        &mut self,
        time: Time,
        name: &[u8],
        payload: &[u8],
    ) -> Result<(), AllocError> {
        write_event_line(self, time, name, payload)
    }

    fn append_query_line(&mut self, time: Time, id: u32) -> Result<(), AllocError> {
        write_query_line(self, time, id)
    }

    fn append_min_line(&mut self, kind: ClockKind, time: u64) -> Result<(), AllocError> {
        write_min_line(self, kind, time)
    }
}

/// Counts the bytes of lines without writing them. The count never exceeds 2^64 - 1. None of the calls allocates
/// memory.
#[derive(Drop)]
pub(crate) struct ByteCount {
    total: u64,
}

impl ByteCount {
    /// Makes a count of 0 bytes.
    pub(crate) fn new() -> ByteCount
        ensures { result.total ≡ 0 }
    {
        ByteCount { total: 0 }
    }

    /// The number of bytes that were counted so far.
    pub(crate) fn total(&self) -> u64
        ensures { result ≡ self.now.total }
    {
        self.total
    }

    /// Counts `length` more bytes.
    fn add(&mut self, length: u64)
        ensures { self.new.total ≡ min (self.old.total + length) (2 ^ 64 - 1) }
    {
        self.total = self.total.saturating_add(length);
    }
}

/// A count keeps only the number of the bytes, and accepts every line.
impl LineOutput for ByteCount {
    ghost use Rattle.std.specs.Prelude.{◌≡◌};
    ghost use Rattle.serf_snapshot.specs.Compaction.{counted};

    type Error = Infallible;

    ghost has = { λ count bytes. count.total ≡ counted bytes };

    fn append_event_line(
        &mut self,
        time: Time,
        name: &[u8],
        payload: &[u8],
    ) -> Result<(), Infallible> {
        self.add(event_line_length(time, name, payload));
        Ok(())
    }

    fn append_query_line(&mut self, time: Time, id: u32) -> Result<(), Infallible> {
        self.add(query_line_length(time, id));
        Ok(())
    }

    fn append_min_line(&mut self, kind: ClockKind, time: u64) -> Result<(), Infallible> {
        self.add(min_line_length(kind, time));
        Ok(())
    }
}
