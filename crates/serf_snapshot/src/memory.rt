//! A sink in memory, for tests and for clusters that run in memory.

ghost use Rattle.std.specs.Prelude.{◌≡◌, [], IfOk, IsSome, Some, false};
ghost use Rattle.std.specs.Option.{option_map};
ghost use Rattle.serf_snapshot.specs.Device.{Observable, append_failing, flush_failing, fresh_device, durable_of, with_plan, replace_failing};

use crate::sink::{ReplaceError, ReplaceSink, Sink, SinkError};
use std::alloc::{AllocError, Global};
use std::marker::Model;

/// A sink in memory, which exposes its bytes and fails only in the calls that the caller chose.
///
/// If an append or a flush fails, the sink keeps the durable bytes and drops the buffered ones.
#[derive(Drop)]
pub struct MemorySink {
    bytes: Vec<u8>,
    /// The number of durable bytes. They come before the buffered bytes.
    durable: usize,
    /// If this is `n`, the `n`-th append from now on fails; if it is 0, none fails. The next two fields are the same
    /// for flushes and replaces.
    failing_append: u64,
    failing_flush: u64,
    failing_replace: u64,
    /// Whether a replace that fails leaves the new text in the sink.
    keeps_new: bool,
    failures: u64,
    append_calls: u64,
    flush_calls: u64,
    replace_calls: u64,
}

impl Model for MemorySink {
    ghost use Rattle.std.specs.Prelude.{◌-◌, ◌≤◌};
    ghost use Rattle.std.specs.Vec.{vec_len, vec_capacity};
    ghost use Rattle.serf_snapshot.specs.Device.{SinkState, FailurePlan, Calls, memory_device};

    ghost Value = { SinkState };

    ghost view = { λ a. record {
      device = memory_device a.bytes.items a.durable
          record {
            appends = a.failing_append;
            flushes = a.failing_flush;
            replaces = a.failing_replace;
            keeps_new = a.keeps_new;
          }
          a.failures
          record { appends = a.append_calls; flushes = a.flush_calls; replaces = a.replace_calls };
      room = vec_capacity a.bytes - vec_len a.bytes;
    } };

    ghost invariant = { λ a. a.durable ≤ vec_len a.bytes };
}

impl MemorySink {
    /// Returns a sink that keeps no bytes and has no planned failure. Allocates no memory.
    pub fn new(alloc: Global) -> Self
        ensures { result.device ≡ fresh_device [] }
    {
        MemorySink::keeping(Vec::new(alloc))
    }

    /// Returns a sink that keeps a copy of `text` and has no planned failure. Returns `AllocError` if memory runs
    /// out.
    pub fn with(alloc: Global, text: &[u8]) -> Result<Self, AllocError>
        ensures { IfOk result (λ m. m.device ≡ fresh_device text.now) }
    {
        Ok(MemorySink::keeping(Vec::from_slice(alloc, text)?))
    }

    /// Returns a sink that keeps `bytes`, all of them durable, and has no planned failure.
    fn keeping(bytes: Vec<u8>) -> Self
        ensures { result.device ≡ fresh_device bytes.items }
    {
        let durable = bytes.len();
        MemorySink {
            bytes,
            durable,
            failing_append: 0,
            failing_flush: 0,
            failing_replace: 0,
            keeps_new: false,
            failures: 0,
            append_calls: 0,
            flush_calls: 0,
            replace_calls: 0,
        }
    }

    /// Makes only the `n`-th append from now on fail, or none if `n` is 0. This overrides an earlier call. Allocates
    /// no memory.
    pub fn fail_append(&mut self, n: u64)
        ensures device { self.new.device ≡ with_plan (append_failing n) self.old.device }
        ensures room { self.new.room ≡ self.old.room }
    {
        self.failing_append = n;
    }

    /// Makes only the `n`-th flush from now on fail, or none if `n` is 0. This overrides an earlier call. Allocates
    /// no memory.
    pub fn fail_flush(&mut self, n: u64)
        ensures device { self.new.device ≡ with_plan (flush_failing n) self.old.device }
        ensures room { self.new.room ≡ self.old.room }
    {
        self.failing_flush = n;
    }

    /// Makes only the `n`-th replace from now on fail, or none if `n` is 0. The failing replace keeps the new text if
    /// `keeps_new` is true, and the old one otherwise. This overrides an earlier call. Allocates no memory.
    pub fn fail_replace(&mut self, n: u64, keeps_new: bool)
        ensures device { self.new.device ≡ with_plan (replace_failing n keeps_new) self.old.device }
        ensures room { self.new.room ≡ self.old.room }
    {
        self.failing_replace = n;
        self.keeps_new = keeps_new;
    }

    /// Returns the durable bytes, which are the bytes that were flushed. Allocates no memory.
    pub fn durable(&self) -> &[u8]
        ensures durable { durable_of self.now.device ≡ Some result.now }
        ensures plan { IsSome self.now.device.plan }
    {
        &self.bytes[..self.durable]
    }

    /// Returns the bytes that were appended since the last flush. Allocates no memory.
    pub fn buffered(&self) -> &[u8]
        ensures { option_map (λ (t : Observable). t.buffered) self.now.device.observed_bytes
            ≡ Some result.now }
    {
        &self.bytes[self.durable..]
    }
}

impl Sink for MemorySink {
    ghost device = { λ m. m.device };

    ghost room = { λ m. m.room };

    fn reserve(&mut self, _alloc: Global, n: usize) -> Result<(), AllocError> {
        self.bytes.reserve(n)
    }

    fn append(&mut self, bytes: &[u8]) -> Result<(), SinkError> {
        self.append_calls = self.append_calls.saturating_add(1);
        let fails = self.failing_append == 1;
        self.failing_append = self.failing_append.saturating_sub(1);
        if fails {
            self.bytes.truncate(self.durable);
            self.failures = self.failures.saturating_add(1);
            return Err(SinkError);
        }
        match self.bytes.extend_from_slice(bytes) {
            Ok(()) => Ok(()),
            Err(_) => unreachable!(),
        }
    }

    fn flush(&mut self) -> Result<(), SinkError> {
        self.flush_calls = self.flush_calls.saturating_add(1);
        let fails = self.failing_flush == 1;
        self.failing_flush = self.failing_flush.saturating_sub(1);
        if fails {
            self.bytes.truncate(self.durable);
            self.failures = self.failures.saturating_add(1);
            return Err(SinkError);
        }
        self.durable = self.bytes.len();
        Ok(())
    }
}

impl ReplaceSink for MemorySink {
    /// Makes room for the text first, so that running out of memory changes nothing except the number of calls.
    fn replace(&mut self, _alloc: Global, text: &[u8]) -> Result<(), ReplaceError> {
        self.replace_calls = self.replace_calls.saturating_add(1);
        let more = text.len().saturating_sub(self.bytes.len());
        if self.bytes.reserve(more).is_err() {
            return Err(ReplaceError::OutOfMemory);
        }
        let fails = self.failing_replace == 1;
        self.failing_replace = self.failing_replace.saturating_sub(1);
        if fails {
            self.failures = self.failures.saturating_add(1);
        }
        if !fails || self.keeps_new {
            self.bytes.clear();
            match self.bytes.extend_from_slice(text) {
                Ok(()) => {}
                Err(_) => unreachable!(),
            }
            self.durable = self.bytes.len();
        }
        if fails {
            Err(ReplaceError::SinkError)
        } else {
            Ok(())
        }
    }
}
