//! A burst is a series of calls whose lines the host flushes together. Until then, the outcomes of the calls wait in a
//! list.

ghost use Rattle.std.specs.Prelude.{◌≡◌, ◌≢◌, ◌+◌, ◌++◌, ◌<◌, ◌∷◌, ◌^◌, [], false, length, min, None, OnErr, OnOk, true, ◌≤◌};
ghost use Rattle.std.specs.VecDeque.{deque_capacity, deque_len};
ghost use Rattle.serf_agent_c.specs.Asking.{AddsFilter, params_of};
ghost use Rattle.serf_agent_c.specs.Bursts.{Extends, Fires, GoesToNext, Leaves, LeavesAgent, Queues, Receives, Asks, SpendsFilters, Stands};
ghost use Rattle.serf_agent_c.specs.Calls.{Waits};
ghost use Rattle.serf_agent_c.specs.ResultParts.{unsettled_in};
ghost use Rattle.serf_agent_c.specs.Sessions.{Appends, KeepsBurst, KeepsFilters, KeepsMembers, Numbers, is_ready};
ghost use Rattle.serf_agent_c.specs.Texts.{pending_bytes, text_of};

use crate::asking::{params_with, query_fired_code};
use crate::burst_outcome::BurstOutcome;
use crate::calls::{fired_code, received_code};
use crate::code::Code;
use crate::heads::Params;
use crate::session::Session;
use serf_agent::BytesList;
use serf_wire::Bytes;
use std::alloc::{AllocError, Global};

impl Session {
    /// Prepares for a call of a burst: reserves space for its outcome, and limits `written` to the length of the text.
    fn prepare(&mut self) -> Result<(), AllocError>
        ensures stands { Stands self.old self.new }
        ensures agent { self.new.agent ≡ self.old.agent }
        ensures keeps { KeepsBurst self.old self.new × KeepsFilters self.old self.new }
        ensures room { OnOk result (deque_len self.new.burst < deque_capacity self.new.burst) }
        ensures full { OnErr result (deque_capacity self.old.burst ≤ deque_len self.old.burst) }
    {
        self.written = self.written.min(self.agent.sink().durable().len());
        self.burst.reserve(1)
    }

    /// Appends `burst_outcome`, the outcome of a call, to the waiting outcomes, unless memory ran out (`code`).
    fn wait(&mut self, burst_outcome: BurstOutcome, code: Code)
        requires { deque_len self.old.burst < deque_capacity self.old.burst }
        ensures waits { code ≢ Code.OutOfMemory
            → self.new.burst.items ≡ self.old.burst.items ++ burst_outcome ∷ [] }
        ensures none { code ≡ Code.OutOfMemory → KeepsBurst self.old self.new }
        ensures rest { (self.new.agent ≡ self.old.agent)
            × (self.new.call_result ≡ self.old.call_result)
            × (self.new.written ≡ self.old.written) × (self.new.replaces ≡ self.old.replaces)
            × (self.new.waiting ≡ self.old.waiting) × KeepsFilters self.old self.new
            × KeepsMembers self.old self.new }
    {
        match code {
            Code::OutOfMemory => {}
            _ => self.burst.push_back_reserved(burst_outcome),
        }
    }

    /// Handles a packet that arrived at the moment `now`, in nanoseconds, and queues the outcome. `tags_pass` is true
    /// if this node's tags pass the query's tag filters.
    pub(crate) fn burst_receive(
        &mut self,
        alloc: Global,
        now: u64,
        packet: &[u8],
        tags_pass: bool,
    ) -> Code
        ensures stands { Stands self.old self.new }
        ensures filters { KeepsFilters self.old self.new }
        ensures memory { Leaves self.old self.new result }
        ensures queues { Queues (λ r. BurstOutcome.Received r) self.old self.new result }
        ensures extends { Extends (Receives tags_pass now packet.now) self.old self.new result }
    {
        if self.prepare().is_err() {
            return Code::OutOfMemory;
        }
        let answer = self.agent.receive(alloc, now, packet, tags_pass);
        let code = received_code(&answer);
        self.wait(BurstOutcome::Received(answer), code);
        code
    }

    /// Fires the event with this `name` and `payload`, and queues the outcome. `coalesce` is Serf's flag of the event.
    pub(crate) fn burst_fire(
        &mut self,
        alloc: Global,
        name: &[u8],
        payload: &[u8],
        coalesce: bool,
    ) -> Code
        ensures stands { Stands self.old self.new }
        ensures filters { KeepsFilters self.old self.new }
        ensures memory { Leaves self.old self.new result }
        ensures queues { Queues (λ r. BurstOutcome.Fired r) self.old self.new result }
        ensures extends { Extends (Fires name.now payload.now coalesce) self.old self.new result }
    {
        if self.prepare().is_err() {
            return Code::OutOfMemory;
        }
        let answer = self.agent.fire(alloc, name, payload, coalesce);
        let code = fired_code(&answer);
        self.wait(BurstOutcome::Fired(answer), code);
        code
    }

    /// Fires the query `id` at the moment `now`, in nanoseconds, with the filters that were added, and queues the
    /// outcome.
    pub(crate) fn burst_query(
        &mut self,
        alloc: Global,
        now: u64,
        id: u32,
        name: &[u8],
        payload: &[u8],
        addr: &[u8],
        params: &Params,
    ) -> Code
        ensures stands { Stands self.old self.new }
        ensures filters { SpendsFilters self.old self.new result }
        ensures memory { Leaves self.old self.new result }
        ensures queues { Queues (λ r. BurstOutcome.QueryFired r) self.old self.new result }
        ensures extends { Extends (Asks now id name.now payload.now
            (params_of self.old.filters addr.now params.now)) self.old self.new result }
    {
        if self.prepare().is_err() {
            return Code::OutOfMemory;
        }
        let Ok(addr) = Bytes::copy_of(alloc, addr) else {
            return Code::OutOfMemory;
        };
        let filters = std::mem::replace(&mut self.filters, BytesList::new(alloc));
        let params = params_with(filters, addr, params);
        let answer = self.agent.query(alloc, now, id, name, payload, &params);
        let code = query_fired_code(&answer);
        self.wait(BurstOutcome::QueryFired(answer), code);
        self.take_back(params.filters, code);
        code
    }

    /// Moves on to the next outcome, so that the getters read it, and sets `burst_outcome` to the code of this
    /// outcome's call. Returns `Nothing` if no outcome waits.
    pub(crate) fn next(&mut self, burst_outcome: &mut u32) -> Code
        ensures waits { Waits self.old self.new result }
        ensures same { result ≢ Code.Done → burst_outcome.new ≡ burst_outcome.old }
        ensures text { is_ready self.old ≡ true → Appends self.old self.new }
        ensures numbers { is_ready self.old ≡ true → Numbers self.old self.new }
        ensures agent { LeavesAgent self.old self.new }
        ensures next { GoesToNext burst_outcome.old burst_outcome.new self.old self.new result }
        ensures none { is_ready self.old ≡ true → unsettled_in self.old.call_result ≡ None
            → result ≢ Code.OutOfMemory }
    {
        match self.begin() {
            Ok(()) => {}
            Err(code) => return code,
        }
        let Some(first) = self.burst.pop_front() else {
            return Code::Nothing;
        };
        *burst_outcome = first.code().number();
        self.give(first.call_result());
        Code::Done
    }

    /// Sets `total` to the number of outcomes of a burst that are still to be read.
    pub(crate) fn read_outcomes(&self, total: &mut usize)
        ensures { total.new ≡ length self.now.burst.items }
    {
        *total = self.burst.len();
    }
}
