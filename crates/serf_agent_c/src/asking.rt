//! A session's queries: firing them, answering those that were handed out, and closing those whose deadline has passed.

ghost use Rattle.std.specs.Prelude.{◌≡◌, ◌≢◌, Err};
ghost use Rattle.serf_agent.specs.Queries.{fire_query};
ghost use Rattle.serf_agent_c.specs.Asking.{AddsFilter, Closes, Declines, Forgets, ForgetsFilters, ForgetsLate, IsBounded, IsSpared, Responds, Spares, params_of};
ghost use Rattle.serf_agent_c.specs.Calls.{Forgoes, Gives, Takes, Tells, Waits, answer_code};
ghost use Rattle.serf_agent_c.specs.Codes.{query_code, respond_code};
ghost use Rattle.serf_agent_c.specs.Sessions.{KeepsBurst, KeepsFilters, KeepsMembers};

use crate::call_result::CallResult;
use crate::code::Code;
use crate::heads::Params;
use crate::session::Session;
use serf_agent::{BytesList, FiredQuery, QueryError, QueryParams, Reply, RespondError};
use serf_wire::Bytes;
use std::alloc::Global;

/// The code that C gets for `answer`, the agent's result of firing a query.
pub(crate) fn query_fired_code(answer: &Result<FiredQuery, QueryError>) -> Code
    ensures code { result ≡ answer_code query_code answer.now }
    ensures memory { answer.now ≡ Err QueryError.OutOfMemory → result ≡ Code.OutOfMemory }
{
    match answer {
        Ok(_) => Code::Done,
        Err(error) => Code::of_query(*error),
    }
}

/// The code that C gets for `answer`, the agent's result of responding to a query: the response to send, or the error.
fn replied_code(answer: &Result<Reply, RespondError>) -> Code
    ensures code { result ≡ answer_code respond_code answer.now }
    ensures memory { answer.now ≡ Err RespondError.OutOfMemory → result ≡ Code.OutOfMemory }
{
    match answer {
        Ok(_) => Code::Done,
        Err(error) => Code::of_respond(*error),
    }
}

/// Makes a query's parameters from the host's `params`, the `filters` that were added, and `addr`, the address to which
/// answers are sent.
pub(crate) fn params_with(filters: BytesList, addr: Bytes, params: &Params) -> QueryParams
    ensures { result ≡ params_of filters addr params.now }
{
    QueryParams {
        filters,
        want_ack: params.want_ack,
        no_broadcast: params.no_broadcast,
        tags_pass: params.tags_pass,
        timeout: params.timeout,
        addr,
        port: params.port,
        relay_factor: params.relay_factor,
    }
}

impl Session {
    /// Adds a copy of `filter` to the filters of the next query. This also works while bytes are pending for the host's
    /// file.
    pub(crate) fn add_filter(&mut self, alloc: Global, filter: &[u8]) -> Code
        ensures adds { AddsFilter filter.now self.old self.new result }
        ensures refused { result ≢ Code.Done → result ≡ Code.OutOfMemory }
    {
        let Ok(filter) = Bytes::copy_of(alloc, filter) else {
            return Code::OutOfMemory;
        };
        match self.filters.push(filter) {
            Ok(()) => Code::Done,
            Err(_) => Code::OutOfMemory,
        }
    }

    /// Keeps `filters` for the next query if memory ran out (`code`). Otherwise drops them, because a query used them.
    pub(crate) fn take_back(&mut self, filters: BytesList, code: Code)
        ensures kept { code ≡ Code.OutOfMemory → self.new.filters ≡ filters }
        ensures forgotten { code ≢ Code.OutOfMemory → KeepsFilters self.old self.new }
        ensures rest { (self.new.agent ≡ self.old.agent)
            × (self.new.call_result ≡ self.old.call_result)
            × (self.new.written ≡ self.old.written) × (self.new.replaces ≡ self.old.replaces)
            × (self.new.waiting ≡ self.old.waiting) × KeepsMembers self.old self.new
            × KeepsBurst self.old self.new }
    {
        match code {
            Code::OutOfMemory => self.filters = filters,
            _ => {}
        }
    }

    /// Fires the query `id` at the moment `now`, in nanoseconds, with the filters that were added, and keeps the result
    /// for the getters.
    pub(crate) fn query(
        &mut self,
        alloc: Global,
        now: u64,
        id: u32,
        name: &[u8],
        payload: &[u8],
        addr: &[u8],
        params: &Params,
    ) -> Code
        ensures waits { Waits self.old self.new result }
        ensures forgets { ForgetsFilters self.old self.new result }
        ensures memory { Forgoes self.old self.new result }
        ensures gives { Gives (λ r. CallResult.QueryFired r) query_code self.old self.new result }
        ensures takes { Takes (λ r. CallResult.QueryFired r)
            (λ i. fire_query i now id name.now payload.now
            (params_of self.old.filters addr.now params.now)) self.old self.new result }
    {
        match self.begin() {
            Ok(()) => {}
            Err(code) => return code,
        }
        let Ok(addr) = Bytes::copy_of(alloc, addr) else {
            return Code::OutOfMemory;
        };
        let filters = std::mem::replace(&mut self.filters, BytesList::new(alloc));
        let params = params_with(filters, addr, params);
        let answer = self.agent.query(alloc, now, id, name, payload, &params);
        let code = query_fired_code(&answer);
        self.give(CallResult::QueryFired(answer));
        self.take_back(params.filters, code);
        code
    }

    /// Answers query number `number` with `payload`, at the moment `now` in nanoseconds, and keeps the packet to send.
    pub(crate) fn respond(&mut self, alloc: Global, now: u64, number: u64, payload: &[u8]) -> Code
        ensures waits { Waits self.old self.new result }
        ensures agent { self.new.agent ≡ self.old.agent }
        ensures declines { Declines number self.old self.new result }
        ensures responds { Responds number now payload.now self.old self.new result }
    {
        match self.begin() {
            Ok(()) => {}
            Err(code) => return code,
        }
        let Some(answer) = self.waiting.respond(alloc, number, now, payload) else {
            return Code::NotPending;
        };
        let code = replied_code(&answer);
        self.give(CallResult::Replied(answer));
        code
    }

    /// Forgets query number `number`. The code is `NotPending` if no waiting query has this number.
    pub(crate) fn forget(&mut self, number: u64) -> Code
        ensures waits { Waits self.old self.new result }
        ensures agent { self.new.agent ≡ self.old.agent }
        ensures declines { Declines number self.old self.new result }
        ensures forgets { Forgets number self.old self.new result }
        ensures spares { IsSpared self.old result }
    {
        match self.begin() {
            Ok(()) => {}
            Err(code) => return code,
        }
        if self.waiting.forget(number) {
            Code::Done
        } else {
            Code::NotPending
        }
    }

    /// Closes the agent's own queries whose deadline is before the moment `now`, in nanoseconds. Keeps them for the
    /// getters, and sets `closed` to their number. Also forgets the queries that wait for an answer and whose deadline
    /// is before `now`.
    pub(crate) fn close_due(&mut self, alloc: Global, now: u64, closed: &mut usize) -> Code
        ensures waits { Waits self.old self.new result }
        ensures late { ForgetsLate now self.old self.new result }
        ensures bounded { IsBounded now self.new result }
        ensures memory { Forgoes self.old self.new result }
        ensures closes { Closes now closed.new self.old self.new result }
        ensures refused { result ≢ Code.Done → closed.new ≡ closed.old }
        ensures spares { Spares now self.old result }
    {
        match self.begin() {
            Ok(()) => {}
            Err(code) => return code,
        }
        let Ok(queries) = self.agent.take_due(alloc, now) else {
            return Code::OutOfMemory;
        };
        self.waiting.forget_late(now);
        *closed = queries.len();
        self.give(CallResult::Closed(queries));
        Code::Done
    }
}
