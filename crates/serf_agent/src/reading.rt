//! Reading an agent: its settings, clocks, windows, open queries and sink. None of these calls allocates memory.

ghost use Rattle.std.specs.Prelude.{◌≡◌, ◌<◌, ◌≤◌, ◌*◌, ◌-◌, ◌^◌, false, true, map, option_copied, IfSome};
ghost use Rattle.serf_wire.specs.Buffers.{slots_borrowed};
ghost use Rattle.serf_window.specs.Slots.{slot_view};
ghost use Rattle.serf_window.specs.Window.{held_count};
ghost use Rattle.serf_snapshot.specs.Compaction.{is_worth_compacting, is_worth_replacing};
ghost use Rattle.serf_snapshot.specs.Device.{IsClean, append_failing, flush_failing, durable_of, with_plan, replace_failing};
ghost use Rattle.serf_agent.specs.Config.{is_sound};
ghost use Rattle.serf_agent.specs.Queries.{fired_query_at};
ghost use Rattle.serf_agent.specs.States.{written_lines};
ghost use Rattle.serf_agent.specs.Written.{text_with};
ghost use Rattle.serf_agent.specs.View.{with_new_plan};

use crate::agent::Agent;
use crate::config::Config;
use crate::open_query::OpenQuery;
use serf_lamport::Time;
use serf_snapshot::{MemorySink, Sink};
use serf_wire::BorrowedEventSlots;

impl<S: Sink> Agent<S> {
    /// The agent's settings, which are within their bounds.
    pub fn config(&self) -> &Config
        ensures config { result.now ≡ self.now.concrete.config }
        ensures sound { is_sound result.now ≡ true }
    {
        &self.config
    }

    /// The event clock: the time of the next event that is fired, or 2^64 - 1 if none can be fired.
    pub fn event_time(&self) -> u64
        ensures { result ≡ self.now.concrete.events.clock }
    {
        self.events.time()
    }

    /// The query clock: the time of the next query that is fired, or 2^64 - 1 if none can be fired.
    pub fn query_time(&self) -> u64
        ensures { result ≡ self.now.concrete.queries.clock }
    {
        self.queries.time()
    }

    /// The member clock.
    pub fn member_time(&self) -> u64
        ensures { result ≡ self.now.concrete.member_clock }
    {
        self.member_clock.time()
    }

    /// The minimum time of an event that the agent accepts.
    pub fn event_minimum(&self) -> u64
        ensures { result ≡ self.now.concrete.events.minimum }
    {
        self.events.minimum()
    }

    /// The number of events in the buffer, including those that were restored when the agent was opened.
    pub fn held_events(&self) -> u64
        ensures count { result ≡ held_count self.now.concrete.events.slots }
        ensures bound { result
            ≤ self.now.concrete.config.event_buffer * self.now.concrete.config.per_time }
    {
        self.events.held()
    }

    /// The minimum time of a query that the agent accepts.
    pub fn query_minimum(&self) -> u64
        ensures { result ≡ self.now.concrete.queries.minimum }
    {
        self.queries.minimum()
    }

    /// Whether the sink has failed. After that the agent accepts and fires nothing.
    pub fn is_stopped(&self) -> bool
        ensures { result ≡ self.now.concrete.snapshot.stopped }
    {
        self.snapshot.is_stopped()
    }

    /// Whether it is worth compacting the snapshot: it has more than `limit` bytes, and a compaction would remove at
    /// least half of them. If the settings keep events, a compaction also writes the lines of the entries in the
    /// buffers. The result is always false for a stopped agent, which can't compact, and for a limit of 2^64 - 1.
    /// Serf's own limit is [`DEFAULT_SNAPSHOT_LIMIT`](crate::DEFAULT_SNAPSHOT_LIMIT).
    ///
    /// The call takes the same time for a long text as for a short one. It goes through the slots of both buffers only
    /// if the settings keep events and the text is longer than the limit.
    pub fn should_compact(&self, limit: u64) -> bool
        ensures exact { self.now.concrete.snapshot.stopped ≡ false
            → IfSome self.now.concrete.snapshot.durable (λ text. result
            ≡ is_worth_replacing limit (text_with (written_lines self.now.concrete)
            self.now.concrete.snapshot) text) }
        ensures plain { self.now.concrete.config.keep_events ≡ false
            → self.now.concrete.snapshot.stopped ≡ false → limit < 2 ^ 64 - 1
            → IfSome self.now.concrete.snapshot.durable (λ text. result
            ≡ is_worth_compacting limit self.now.concrete.snapshot text) }
        ensures stopped { self.now.concrete.snapshot.stopped ≡ true → result ≡ false }
        ensures never { limit ≡ 2 ^ 64 - 1 → result ≡ false }
    {
        if !self.config.keep_events {
            return self.snapshot.should_compact(limit, 0);
        }
        // A compaction without the lines of the buffers is shorter. If even that isn't worth it, there is no need to
        // measure the buffers.
        self.snapshot.should_compact(limit, 0)
            && self.snapshot.should_compact(limit, self.kept_length())
    }

    /// The slots of the event buffer, in order. A slot that was never used has the time 0 and holds no events.
    pub fn slots(&self) -> BorrowedEventSlots<'_>
        ensures { map slot_view (slots_borrowed result) ≡ self.now.concrete.events.slots }
    {
        self.events.slots()
    }

    /// The query that this agent fired at `time`, if it is still open.
    pub fn open_query(&self, time: Time) -> Option<&OpenQuery>
        ensures { option_copied result ≡ fired_query_at time self.now.concrete.fired_queries }
    {
        self.fired_queries.get(time.get())
    }

    /// Borrows the sink for reading. Unless the agent is stopped, the sink has flushed everything that was appended to
    /// it.
    pub fn sink(&self) -> &S
        ensures device { S.device result.now ≡ self.now.device }
        ensures durable { durable_of self.now.device ≡ self.now.concrete.snapshot.durable }
        ensures plan { self.now.device.plan ≡ self.now.concrete.snapshot.plan }
        ensures clean { self.now.concrete.snapshot.stopped ≡ false → IsClean self.now.device }
    {
        self.snapshot.sink()
    }
}

impl Agent<MemorySink> {
    /// Makes the sink's n-th append from now on fail. If `n` is 0, no append fails. Allocates no memory.
    pub fn fail_append(&mut self, n: u64)
        ensures { self.new ≡ with_new_plan (append_failing n) self.old }
    {
        self.snapshot.fail_append(n);
    }

    /// Makes the sink's n-th flush from now on fail. If `n` is 0, no flush fails. Allocates no memory.
    pub fn fail_flush(&mut self, n: u64)
        ensures { self.new ≡ with_new_plan (flush_failing n) self.old }
    {
        self.snapshot.fail_flush(n);
    }

    /// Makes the n-th replacement of the sink's text from now on fail. The sink then keeps the new text if `keeps_new`
    /// is true, and the old text otherwise. If `n` is 0, no replacement fails. Allocates no memory.
    pub fn fail_replace(&mut self, n: u64, keeps_new: bool)
        ensures { self.new ≡ with_new_plan (replace_failing n keeps_new) self.old }
    {
        self.snapshot.fail_replace(n, keeps_new);
    }
}
