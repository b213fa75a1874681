//! A snapshot writes the clock lines of an agent, and the lines of the events that it keeps, to a sink and flushes
//! them (`snapshot.go`).

ghost use Rattle.std.specs.Prelude.{◌≡◌, ◌<◌, ◌≤◌, ◌-◌, ◌^◌, true, if◌then◌else◌, false, not, is_ok, length, List, ℕ, IfOk, IfErr, IsOk, OnOk, OnErr, IfSome, IsErrOf};
ghost use Rattle.std.specs.Option.{option_map};
ghost use Rattle.serf_lamport.specs.Clock.{max_clock};
ghost use Rattle.serf_snapshot.specs.Clocks.{is_whole, last_clock, seal_line, sealed};
ghost use Rattle.serf_snapshot.specs.Compaction.{counted, is_worth_compacting, is_worth_replacing};
ghost use Rattle.serf_snapshot.specs.Device.{Observable, HasText, IsClean, append_failing, appended, flush_failing, flushed, durable_of, replace_failing};
ghost use Rattle.serf_snapshot.specs.Ends.{FailsLine, AppendsTime, ReplacesText, WritesBytes};
ghost use Rattle.serf_snapshot.specs.KeptAppends.{lines_given, text_with};
ghost use Rattle.serf_snapshot.specs.declared.kind.ClockKind.TheVariants.{Event, Member, Query};
ghost use Rattle.serf_snapshot.specs.AppendsLine.{AreTimes, append_line_decremented, append_line_fails, opened, opened_device, with_new_plan};

use crate::clock_lines::{LONGEST_LINE, bytes_of, text_of};
use crate::clocks::{Clocks, ends_whole};
use crate::kind::ClockKind;
use crate::lengths::{compaction_length, is_worth_replacing, sealed_length};
use crate::memory::MemorySink;
use crate::reading::read_clocks;
use crate::sink::{ReplaceError, ReplaceSink, Sink, SinkError};
use serf_lamport::Time;
use std::alloc::{AllocError, Global};
use std::marker::Model;
use thiserror::Error;

/// Why the snapshot refused a line or a compaction.
#[derive(Clone, Copy, Debug, PartialEq, Eq, Error)]
pub enum AppendLineError {
    /// The sink failed in an earlier call, so the snapshot is stopped. This call has changed nothing.
    #[error("the snapshot is stopped")]
    Stopped,
    /// Memory ran out. The durable bytes and the last lines are unchanged.
    #[error("out of memory")]
    OutOfMemory,
    /// The sink failed. The snapshot is stopped, and its last lines are unchanged.
    #[error("the sink failed")]
    SinkError,
}

impl From<AllocError> for AppendLineError {
    ghost use Rattle.std.specs.Prelude.{◌≡◌};
    ghost use Rattle.serf_snapshot.specs.declared.snapshot.AppendLineError.TheVariants.{OutOfMemory};

    ghost from_gives = { λ _ error. error ≡ OutOfMemory };

    fn from(_error: AllocError) -> AppendLineError {
        AppendLineError::OutOfMemory
    }
}

/// Why a snapshot couldn't be opened: the torn last line of its text couldn't be ended.
#[derive(Clone, Copy, Debug, PartialEq, Eq, Error)]
pub enum SealError {
    /// Memory ran out before the torn last line was ended. The sink still keeps the same bytes.
    #[error("out of memory")]
    OutOfMemory,
    /// The sink failed when the torn last line was ended. The sink still keeps the text, and perhaps a part of the
    /// bytes that end the line.
    #[error("the sink failed")]
    SinkError,
}

impl From<AllocError> for SealError {
    ghost use Rattle.std.specs.Prelude.{◌≡◌};
    ghost use Rattle.serf_snapshot.specs.declared.snapshot.SealError.TheVariants.{OutOfMemory};

    ghost from_gives = { λ _ error. error ≡ OutOfMemory };

    fn from(_error: AllocError) -> SealError {
        SealError::OutOfMemory
    }
}

impl From<SinkError> for SealError {
    ghost use Rattle.std.specs.Prelude.{◌≡◌};
    ghost use Rattle.serf_snapshot.specs.declared.snapshot.SealError.TheVariants.{SinkError};

    ghost from_gives = { λ _ error. error ≡ SinkError };

    fn from(_error: SinkError) -> SealError {
        SealError::SinkError
    }
}

/// The clock lines of an agent, on a sink. A snapshot knows the last line of each kind, and whether the sink has
/// failed.
///
/// As long as the snapshot isn't stopped, the sink's buffer is empty between two calls.
#[derive(Drop)]
pub struct Snapshot<S: Sink> {
    last: Clocks,
    stopped: bool,
    /// The length of the whole durable text in bytes, with the clock lines and the lines of kept events; at most
    /// 2^64 - 1. The value is valid as long as the snapshot isn't stopped.
    kept: u64,
    sink: S,
}

impl<S: Sink> Model for Snapshot<S> {
    ghost use Rattle.std.specs.Prelude.{◌≡◌, ◌<◌, ◌-◌, ◌^◌, false};
    ghost use Rattle.serf_snapshot.specs.AppendsLine.{SnapshotState};
    ghost use Rattle.serf_snapshot.specs.Compaction.{IsLengthOf};
    ghost use Rattle.serf_lamport.specs.Clock.{max_clock};
    ghost use Rattle.serf_snapshot.specs.Device.{IsClean, durable_of};

    ghost Value = { SnapshotState };

    ghost view = { λ a. record {
      snapshot = record {
        member_clock = a.last.member_clock;
        event_clock = a.last.event_clock;
        query_clock = a.last.query_clock;
        stopped = a.stopped;
        durable = durable_of (S.device a.sink);
        plan = (S.device a.sink).plan;
      };
      device = S.device a.sink;
    } };

    ghost invariant = { λ a.
        (a.stopped ≡ false → IsClean (S.device a.sink))
        × (a.last.member_clock < max_clock) × (a.last.event_clock < max_clock)
        × (a.last.query_clock < max_clock)
        × (a.stopped ≡ false → IsLengthOf (durable_of (S.device a.sink)) a.kept) };
}

/// Appends `line` to `sink` and flushes it, so that the line is durable.
fn keep<S: Sink>(sink: &mut S, line: &[u8]) -> Result<(), SinkError>
    requires { length line.now ≤ S.room sink.old }
    ensures ok { OnOk result (S.device sink.new ≡ flushed (appended line.now (S.device sink.old))) }
    ensures clean { OnOk result (IsClean (S.device sink.new)) }
    ensures error { OnErr result (FailsLine (S.device sink.old) (S.device sink.new) line.now) }
    ensures planned { IfSome (S.device sink.old).plan (λ p. is_ok result
        ≡ not (append_line_fails p)) }
{
    sink.append(line)?;
    sink.flush()
}

/// If the last line of `text` is torn, the call appends `#` and a newline to `sink` and flushes them, so that the
/// torn line never becomes a clock line.
fn seal<S: Sink>(alloc: Global, text: &[u8], sink: &mut S) -> Result<(), SealError>
    requires { HasText text.now (S.device sink.old) }
    ensures ok { OnOk result (S.device sink.new ≡ opened_device text.now (S.device sink.old)) }
    ensures durable { OnOk result (durable_of (S.device sink.new)
        ≡ option_map (λ (t : Observable). sealed text.now) (S.device sink.old).observed_bytes) }
    ensures plan { OnOk result ((S.device sink.new).plan ≡ (if is_whole text.now
        then (S.device sink.old).plan else option_map append_line_decremented
        (S.device sink.old).plan)) }
    ensures clean { OnOk result (IsClean (S.device sink.new)) }
    ensures ok_planned { OnOk result (is_whole text.now ≡ false
        → IfSome (S.device sink.old).plan (λ p. append_line_fails p ≡ false)) }
    ensures whole { is_whole text.now ≡ true → IsOk result }
    ensures error { IsErrOf result SealError.SinkError
        → FailsLine (S.device sink.old) (S.device sink.new) seal_line }
    ensures error_planned { IsErrOf result SealError.SinkError
        → IfSome (S.device sink.old).plan (λ p. append_line_fails p ≡ true) }
    ensures memory { IsErrOf result SealError.OutOfMemory → S.device sink.new ≡ S.device sink.old }
{
    if ends_whole(text) {
        return Ok(());
    }
    sink.reserve(alloc, 2)?;
    keep(sink, b"#\n")?;
    Ok(())
}

impl<S: Sink> Snapshot<S> {
    /// Opens a snapshot on `text`, which is the text that `sink` keeps. If the sink exposes its bytes, they must be
    /// exactly this text, and its buffer must be empty.
    ///
    /// The snapshot's last lines are the clocks of the text. If the last line of the text is torn, which means that
    /// it has no newline, the call appends `#` and a newline and flushes them. So the torn line never becomes a clock
    /// line. If the call fails, it returns the sink together with the error. If the text is empty or ends in a
    /// newline, the call succeeds and allocates no memory.
    ///
    /// A sink with a plan fails exactly when the plan makes this append or this flush fail. The sink that is returned
    /// with an error has the rest of the plan.
    pub fn open(alloc: Global, text: &[u8], sink: S) -> Result<Self, (S, SealError)>
        requires { HasText text.now (S.device sink) }
        ensures ok { IfOk result (λ s. s.snapshot ≡ opened text.now (S.device sink)) }
        ensures device { IfOk result (λ s. s.device ≡ opened_device text.now (S.device sink)) }
        ensures times { IfOk result (λ s. AreTimes s.snapshot) }
        ensures ok_planned { OnOk result (is_whole text.now ≡ false
            → IfSome (S.device sink).plan (λ p. append_line_fails p ≡ false)) }
        ensures whole { is_whole text.now ≡ true → IsOk result }
        ensures error { IfErr result (λ e. e.1 ≡ SealError.SinkError
            → FailsLine (S.device sink) (S.device e.0) seal_line) }
        ensures error_planned { IfErr result (λ e. e.1 ≡ SealError.SinkError
            → IfSome (S.device sink).plan (λ p. append_line_fails p ≡ true)) }
        ensures memory { IfErr result (λ e. e.1 ≡ SealError.OutOfMemory
            → S.device e.0 ≡ S.device sink) }
    {
        Snapshot::open_read(alloc, text, read_clocks(text), sink)
    }

    /// Opens a snapshot as `open` does, for a caller that has already read `clocks` from `text` with [`read_clocks`].
    pub fn open_read(
        alloc: Global,
        text: &[u8],
        clocks: Clocks,
        sink: S,
    ) -> Result<Self, (S, SealError)>
        requires text { HasText text.now (S.device sink) }
        requires member { clocks.member_clock ≡ last_clock Member text.now }
        requires event { clocks.event_clock ≡ last_clock Event text.now }
        requires query { clocks.query_clock ≡ last_clock Query text.now }
        requires times { (clocks.member_clock < max_clock)
            × (clocks.event_clock < max_clock) × (clocks.query_clock < max_clock) }
        ensures ok { IfOk result (λ s. s.snapshot ≡ opened text.now (S.device sink)) }
        ensures device { IfOk result (λ s. s.device ≡ opened_device text.now (S.device sink)) }
        ensures times { IfOk result (λ s. AreTimes s.snapshot) }
        ensures ok_planned { OnOk result (is_whole text.now ≡ false
            → IfSome (S.device sink).plan (λ p. append_line_fails p ≡ false)) }
        ensures whole { is_whole text.now ≡ true → IsOk result }
        ensures error { IfErr result (λ e. e.1 ≡ SealError.SinkError
            → FailsLine (S.device sink) (S.device e.0) seal_line) }
        ensures error_planned { IfErr result (λ e. e.1 ≡ SealError.SinkError
            → IfSome (S.device sink).plan (λ p. append_line_fails p ≡ true)) }
        ensures memory { IfErr result (λ e. e.1 ≡ SealError.OutOfMemory
            → S.device e.0 ≡ S.device sink) }
    {
        let mut sink = sink;
        if let Err(error) = seal(alloc, text, &mut sink) {
            return Err((sink, error));
        }
        Ok(Snapshot {
            last: clocks,
            stopped: false,
            kept: sealed_length(text),
            sink,
        })
    }

    /// Writes up to two lines in one append and one flush, so that both are durable afterwards: the clock line of
    /// `time`, if `time` is above the time of the last line of its kind, and then `own`. `own` is the line for the
    /// event, the query or the minimum itself, as `write_event_line`, `write_query_line` or `write_min_line` makes
    /// it, or it is empty. If `own` isn't empty, the number of the clock line has a leading zero. (Serf does this in
    /// `processUserEvent`, which leaves the flush for later, `processQuery` and `updateClock` of `snapshot.go`.)
    ///
    /// If there is nothing to write, the call returns Ok, allocates no memory, and doesn't call the sink. Otherwise
    /// it allocates memory before it calls the sink. After [`AppendLineError::SinkError`], a part of the bytes may be
    /// durable, and each later call returns [`AppendLineError::Stopped`].
    pub fn append_line(
        &mut self,
        alloc: Global,
        kind: ClockKind,
        time: Time,
        own: &[u8],
    ) -> Result<(), AppendLineError>
        // The bytes are durable, or the sink has failed. A sink with a plan fails exactly when its plan says so.
        ensures { AppendsTime kind time (lines_given own.now) self.old self.new result }
    {
        if self.stopped {
            return Err(AppendLineError::Stopped);
        }
        let value = time.get();
        let last = self.last.of(kind);
        if value <= last && own.is_empty() {
            return Ok(());
        }
        let bytes = bytes_of(alloc, kind, value, own, last)?;
        self.write(alloc, kind, last.max(value), bytes.as_slice())
    }

    /// Makes room for `bytes` in the sink, appends them and flushes them. Afterwards the last line of `kind` is
    /// `value`.
    fn write(
        &mut self,
        alloc: Global,
        kind: ClockKind,
        value: u64,
        bytes: &[u8],
    ) -> Result<(), AppendLineError>
        requires time { value < max_clock }
        requires runs { self.old.snapshot.stopped ≡ false }
        ensures { WritesBytes kind value bytes.now self.old self.new result }
    {
        self.sink.reserve(alloc, bytes.len().max(LONGEST_LINE))?;
        match keep(&mut self.sink, bytes) {
            Ok(()) => {
                self.last = self.last.with(kind, value);
                self.kept = self.kept.saturating_add(bytes.len() as u64);
                Ok(())
            }
            Err(SinkError) => {
                self.stopped = true;
                Err(AppendLineError::SinkError)
            }
        }
    }

    /// Returns the time of the last line of each kind that was written or read, or 0 for a kind without a line.
    /// Allocates no memory.
    pub fn clocks(&self) -> Clocks
        ensures member { result.member_clock ≡ self.now.snapshot.member_clock }
        ensures event { result.event_clock ≡ self.now.snapshot.event_clock }
        ensures query { result.query_clock ≡ self.now.snapshot.query_clock }
        ensures times { AreTimes self.now.snapshot }
    {
        self.last
    }

    /// Returns whether the sink has failed. If it has, the snapshot refuses every further line and every compaction.
    /// Allocates no memory.
    pub fn is_stopped(&self) -> bool
        ensures { result ≡ self.now.snapshot.stopped }
    {
        self.stopped
    }

    /// Returns whether a compaction is worth doing: the text has more than `limit` bytes, and a compaction would
    /// remove at least half of them. `lines_length` is the number of bytes of the lines that the compaction would
    /// keep in addition to the clock lines, or 0 if it would keep none. The result is false if the snapshot is
    /// stopped, because a stopped snapshot can't be compacted. It is also false if `limit` is 2^64 - 1. A length
    /// above 2^64 - 1 counts as 2^64 - 1.
    ///
    /// The snapshot itself counts the bytes of the text that it was opened on, of the seal of a torn last line, and
    /// of all lines and compactions since then. So the result is also right if the sink doesn't expose its bytes.
    /// Allocates no memory, and takes the same time for a text of any length. (Serf's `appendLine` in `snapshot.go`
    /// compacts if the file is longer than 128 KiB and also longer than twice the estimated size for its nodes.)
    pub fn should_compact(&self, limit: u64, lines_length: u64) -> bool
        ensures exact { (lines : List ℕ) → self.now.snapshot.stopped ≡ false
            → lines_length ≡ counted lines → IfSome self.now.snapshot.durable (λ text. result
            ≡ is_worth_replacing limit (text_with (lines_given lines) self.now.snapshot) text) }
        ensures plain { lines_length ≡ 0 → self.now.snapshot.stopped ≡ false → limit < 2 ^ 64 - 1
            → IfSome self.now.snapshot.durable (λ text. result
            ≡ is_worth_compacting limit self.now.snapshot text) }
        ensures stopped { self.now.snapshot.stopped ≡ true → result ≡ false }
        ensures never { limit ≡ 2 ^ 64 - 1 → result ≡ false }
    {
        let new_length = compaction_length(lines_length, self.last);
        !self.stopped && is_worth_replacing(limit, self.kept, new_length)
    }

    /// Returns the sink, for reading only. Allocates no memory.
    pub fn sink(&self) -> &S
        ensures device { S.device result.now ≡ self.now.device }
        ensures durable { durable_of self.now.device ≡ self.now.snapshot.durable }
        ensures plan { self.now.device.plan ≡ self.now.snapshot.plan }
        ensures clean { self.now.snapshot.stopped ≡ false → IsClean self.now.device }
    {
        &self.sink
    }
}

impl<S: ReplaceSink> Snapshot<S> {
    /// Replaces the sink's text with `lines`, followed by the last lines of the member clock, the event clock and the
    /// query clock, in this order. A kind without a line is left out. `lines` are the `#least` lines and the lines of
    /// the kept events and queries, or nothing. If `lines` isn't empty, the clock lines of events and queries have a
    /// leading zero in their numbers. The call makes one replace, and never an append or a flush.
    ///
    /// If the snapshot is stopped, the sink isn't called. After [`AppendLineError::SinkError`], either the old text
    /// or the new one is durable, and the snapshot is stopped. (Serf's `compact` in `snapshot.go` also writes the
    /// alive members.)
    pub fn compact(&mut self, alloc: Global, lines: &[u8]) -> Result<(), AppendLineError>
        // The text is replaced, or the sink has failed. A sink with a plan fails exactly when its plan says so.
        ensures { ReplacesText (text_with (lines_given lines.now) self.old.snapshot)
            self.old self.new result }
    {
        if self.is_stopped() {
            return Err(AppendLineError::Stopped);
        }
        let text = text_of(alloc, lines, self.clocks())?;
        self.replace_text(alloc, text.as_slice())
    }

    /// Replaces the sink's text with `text` in one step. Both texts have the same last clock lines.
    fn replace_text(&mut self, alloc: Global, text: &[u8]) -> Result<(), AppendLineError>
        requires runs { self.old.snapshot.stopped ≡ false }
        ensures { ReplacesText text.now self.old self.new result }
    {
        match self.sink.replace(alloc, text) {
            Ok(()) => {
                self.kept = text.len() as u64;
                Ok(())
            }
            Err(ReplaceError::OutOfMemory) => Err(AppendLineError::OutOfMemory),
            Err(ReplaceError::SinkError) => {
                self.stopped = true;
                Err(AppendLineError::SinkError)
            }
        }
    }
}

impl Snapshot<MemorySink> {
    /// Makes the sink's `n`-th append from now on fail, or none if `n` is 0. Allocates no memory.
    pub fn fail_append(&mut self, n: u64)
        ensures { self.new ≡ with_new_plan (append_failing n) self.old }
    {
        self.sink.fail_append(n);
    }

    /// Makes the sink's `n`-th flush from now on fail, or none if `n` is 0. Allocates no memory.
    pub fn fail_flush(&mut self, n: u64)
        ensures { self.new ≡ with_new_plan (flush_failing n) self.old }
    {
        self.sink.fail_flush(n);
    }

    /// Makes the sink's `n`-th replace from now on fail, or none if `n` is 0. The sink then keeps the new text if
    /// `keeps_new` is true, and the old one otherwise. Allocates no memory.
    pub fn fail_replace(&mut self, n: u64, keeps_new: bool)
        ensures { self.new ≡ with_new_plan (replace_failing n keeps_new) self.old }
    {
        self.sink.fail_replace(n, keeps_new);
    }
}
