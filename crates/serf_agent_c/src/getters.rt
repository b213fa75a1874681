//! The getters, with which C reads the session of a handle without changing it. They fill the caller's memory, and copy
//! as many of the first bytes of each text as fit. In the clauses, `s` is the session, and `code` is the code that C
//! gets.

ghost use Rattle.std.specs.Prelude.{◌≢◌, ◌-◌, ◌^◌, min, true, ◌≡◌, ◌+◌, if◌then◌else◌, Some, false, length, slice_get};
ghost use Rattle.std.specs.Option.{is_some};
ghost use Rattle.serf_wire.specs.Decoded.{decoded};
ghost use Rattle.serf_agent.specs.Answers.{answer_in};
ghost use Rattle.serf_agent_c.specs.Answers.{ReadsAnswer, answer_head};
ghost use Rattle.serf_agent_c.specs.Closings.{TellsCompaction, ack_of, closed_head, response_head, response_of};
ghost use Rattle.serf_agent_c.specs.Codes.{number_of};
ghost use Rattle.serf_agent_c.specs.Exports.{FillsIfDone, Shows};
ghost use Rattle.serf_agent_c.specs.Errors.{ReadsError};
ghost use Rattle.serf_agent_c.specs.ResultParts.{ack_in, closed_in, events_in, handed_in, packet_in};
ghost use Rattle.serf_agent_c.specs.Numbered.{waiting_at};
ghost use Rattle.serf_agent_c.specs.Reads.{ReadsAs, ReadsQuery, TellsDeadline, clocks_head, event_head, foreign_of, pending_query_head, kind_of, reason_of, rebroadcast_of};
ghost use Rattle.serf_agent_c.specs.Sessions.{is_ready, settled};
ghost use Rattle.serf_agent_c.specs.Texts.{copied};

use crate::answers::read_answer;
use crate::code::Code;
use crate::errors::read_error;
use crate::handle::Handle;
use crate::heads::{
    AnswerHead, ClocksHead, ClosedHead, ErrorHead, EventHead, PendingQueryHead, ResponseHead,
    ResultHead,
};
use std::alloc::Global;

/// Fills `call_result` with the result of the last call.
#[unsafe(no_mangle)]
pub extern "C" fn serf_agent_result(
    alloc: Global,
    handle: &mut Handle,
    call_result: &mut ResultHead,
) -> u32
    ensures reads { Shows (λ s code. (code ≡ Code.Done) × (call_result.new
        ≡ record {
          kind = kind_of s.call_result;
          reason = reason_of s.call_result;
          handed = if is_some (handed_in s.call_result) then s.waiting.handed + 1 else 0;
          events = length (events_in s.call_result);
          foreign = foreign_of s.call_result;
          rebroadcast = rebroadcast_of s.call_result;
        }))
        handle.old handle.new result }
    ensures same { FillsIfDone (call_result.new ≡ call_result.old) result }
{
    let Some(session) = handle.take(alloc) else {
        return Code::Empty.number();
    };
    session.read_call_result(call_result);
    *handle = Handle::of(session);
    Code::Done.number()
}

/// Fills `event`, `name` and `payload` with the event at `index`, counted from 0, that the last call handed out.
#[unsafe(no_mangle)]
pub extern "C" fn serf_agent_event(
    alloc: Global,
    handle: &mut Handle,
    index: usize,
    event: &mut EventHead,
    name: &mut [u8],
    payload: &mut [u8],
) -> u32
    ensures reads { Shows
        (λ s code. ReadsAs (is_ready s) (slice_get (events_in s.call_result) index)
        (λ o. (event.new ≡ event_head o) × (name.new ≡ copied o.name name.old)
        × (payload.new ≡ copied o.payload payload.old)) code)
        handle.old handle.new result }
    ensures same { FillsIfDone ((event.new ≡ event.old)
        × (name.new ≡ name.old) × (payload.new ≡ payload.old)) result }
{
    let Some(session) = handle.take(alloc) else {
        return Code::Empty.number();
    };
    let code = session.read_event(index, event, name, payload);
    *handle = Handle::of(session);
    code.number()
}

/// If `packet` is an ack or a response, fills `answer`, `from` and `payload` with its contents. If it is neither, the
/// code is `NOTHING`.
#[unsafe(no_mangle)]
pub extern "C" fn serf_agent_answer(
    packet: &[u8],
    answer: &mut AnswerHead,
    from: &mut [u8],
    payload: &mut [u8],
) -> u32
    ensures { (code : Code) × (result ≡ number_of code)
        × ReadsAnswer (answer_in packet.now) (λ r. (answer.new ≡ answer_head r)
        × (from.new ≡ copied r.from from.old) × (payload.new ≡ copied r.payload payload.old)) code
        × (code ≢ Code.Done
        → (answer.new ≡ answer.old) × (from.new ≡ from.old) × (payload.new ≡ payload.old)) }
{
    read_answer(packet, answer, from, payload).number()
}

/// Fills `error` with the first error of `packet`, if the packet is not a message and `serf_agent_receive` and
/// `serf_agent_merge` therefore return `NO_MESSAGE`. If the packet is a message, the code is `NOTHING`, and `error`
/// stays as it was.
#[unsafe(no_mangle)]
pub extern "C" fn serf_agent_packet_error(packet: &[u8], error: &mut ErrorHead) -> u32
    ensures { (code : Code) × (result ≡ number_of code)
        × ReadsError (decoded packet.now) error.old error.new code }
{
    read_error(packet, error).number()
}

/// Sets `len` to the length of the outgoing packet that the last call made, and fills `to` with as much of it as fits.
#[unsafe(no_mangle)]
pub extern "C" fn serf_agent_packet(
    alloc: Global,
    handle: &mut Handle,
    len: &mut usize,
    to: &mut [u8],
) -> u32
    ensures reads { Shows (λ s code. ReadsAs (is_ready s) (packet_in s.call_result)
        (λ p. (len.new ≡ length p) × (to.new ≡ copied p to.old)) code)
        handle.old handle.new result }
    ensures same { FillsIfDone ((len.new ≡ len.old) × (to.new ≡ to.old)) result }
{
    let Some(session) = handle.take(alloc) else {
        return Code::Empty.number();
    };
    let code = session.read_packet(len, to);
    *handle = Handle::of(session);
    code.number()
}

/// Sets `len` to the length of the ack to send for the query that the last call handed out, and fills `to` with as much
/// of the ack as fits.
#[unsafe(no_mangle)]
pub extern "C" fn serf_agent_ack(
    alloc: Global,
    handle: &mut Handle,
    len: &mut usize,
    to: &mut [u8],
) -> u32
    ensures reads { Shows (λ s code. ReadsAs (is_ready s) (ack_in s.call_result)
        (λ p. (len.new ≡ length p) × (to.new ≡ copied p to.old)) code)
        handle.old handle.new result }
    ensures same { FillsIfDone ((len.new ≡ len.old) × (to.new ≡ to.old)) result }
{
    let Some(session) = handle.take(alloc) else {
        return Code::Empty.number();
    };
    let code = session.read_ack(len, to);
    *handle = Handle::of(session);
    code.number()
}

/// Fills `handed` and the texts with query number `number`. `source` gets the name of the node that fired the query.
#[unsafe(no_mangle)]
pub extern "C" fn serf_agent_pending_query(
    alloc: Global,
    handle: &mut Handle,
    number: u64,
    handed: &mut PendingQueryHead,
    name: &mut [u8],
    payload: &mut [u8],
    source: &mut [u8],
    addr: &mut [u8],
) -> u32
    ensures reads { Shows (λ s code. ReadsQuery (is_ready s) (waiting_at number (settled s).waiting)
        (λ q. (handed.new ≡ pending_query_head q) × (name.new ≡ copied q.name name.old)
        × (payload.new ≡ copied q.payload payload.old) × (source.new ≡ copied q.source source.old)
        × (addr.new ≡ copied q.addr addr.old)) code)
        handle.old handle.new result }
    ensures same { FillsIfDone ((handed.new ≡ handed.old)
        × (name.new ≡ name.old) × (payload.new ≡ payload.old) × (source.new ≡ source.old)
        × (addr.new ≡ addr.old)) result }
{
    let Some(session) = handle.take(alloc) else {
        return Code::Empty.number();
    };
    let code = session.read_pending_query(number, handed, name, payload, source, addr);
    *handle = Handle::of(session);
    code.number()
}

/// Fills `clocks` with the agent's clocks, and with the minimum times of events and of queries.
#[unsafe(no_mangle)]
pub extern "C" fn serf_agent_clocks(
    alloc: Global,
    handle: &mut Handle,
    clocks: &mut ClocksHead,
) -> u32
    ensures reads { Shows (λ s code. ReadsAs (is_ready s) (Some (clocks_head s.agent.concrete))
        (λ head. clocks.new ≡ head) code) handle.old handle.new result }
    ensures same { FillsIfDone (clocks.new ≡ clocks.old) result }
{
    let Some(session) = handle.take(alloc) else {
        return Code::Empty.number();
    };
    let code = session.read_clocks(clocks);
    *handle = Handle::of(session);
    code.number()
}

/// Sets `deadline` to the earliest deadline of the agent's own open queries. The code is `NOTHING` if none is open.
#[unsafe(no_mangle)]
pub extern "C" fn serf_agent_next_deadline(
    alloc: Global,
    handle: &mut Handle,
    deadline: &mut u64,
) -> u32
    ensures reads { Shows (λ s code. (is_ready s ≡ false → code ≡ Code.Pending)
        × (is_ready s ≡ true → TellsDeadline s.agent.concrete deadline.new code))
        handle.old handle.new result }
    ensures same { FillsIfDone (deadline.new ≡ deadline.old) result }
{
    let Some(session) = handle.take(alloc) else {
        return Code::Empty.number();
    };
    let code = session.read_next_deadline(deadline);
    *handle = Handle::of(session);
    code.number()
}

/// Sets `total` to the number of this agent's own open queries. An open query still accepts answers.
#[unsafe(no_mangle)]
pub extern "C" fn serf_agent_open_queries(
    alloc: Global,
    handle: &mut Handle,
    total: &mut usize,
) -> u32
    ensures reads { Shows (λ s code. ReadsAs (is_ready s)
        (Some (min (length s.agent.concrete.fired_queries) (2 ^ 64 - 1))) (λ n. total.new ≡ n) code)
        handle.old handle.new result }
    ensures same { FillsIfDone (total.new ≡ total.old) result }
{
    let Some(session) = handle.take(alloc) else {
        return Code::Empty.number();
    };
    let code = session.read_open_queries(total);
    *handle = Handle::of(session);
    code.number()
}

/// Fills `closed` with one of the queries that the last call closed. `index` counts from 0, in the order in which the
/// queries were fired.
#[unsafe(no_mangle)]
pub extern "C" fn serf_agent_closed(
    alloc: Global,
    handle: &mut Handle,
    index: usize,
    closed: &mut ClosedHead,
) -> u32
    ensures reads { Shows
        (λ s code. ReadsAs (is_ready s) (slice_get (closed_in s.call_result) index)
        (λ q. closed.new ≡ closed_head q) code)
        handle.old handle.new result }
    ensures same { FillsIfDone (closed.new ≡ closed.old) result }
{
    let Some(session) = handle.take(alloc) else {
        return Code::Empty.number();
    };
    let code = session.read_closed(index, closed);
    *handle = Handle::of(session);
    code.number()
}

/// Fills `len` and `to` with the name of the node that sent ack number `number` of the closed query at `index`. Both
/// numbers count from 0, and the acks are in the order of their arrival.
#[unsafe(no_mangle)]
pub extern "C" fn serf_agent_closed_ack(
    alloc: Global,
    handle: &mut Handle,
    index: usize,
    number: usize,
    len: &mut usize,
    to: &mut [u8],
) -> u32
    ensures reads { Shows
        (λ s code. ReadsAs (is_ready s) (ack_of number (slice_get (closed_in s.call_result) index))
        (λ name. (len.new ≡ length name) × (to.new ≡ copied name to.old)) code)
        handle.old handle.new result }
    ensures same { FillsIfDone ((len.new ≡ len.old) × (to.new ≡ to.old)) result }
{
    let Some(session) = handle.take(alloc) else {
        return Code::Empty.number();
    };
    let code = session.read_closed_ack(index, number, len, to);
    *handle = Handle::of(session);
    code.number()
}

/// Fills `response` and the texts with response number `number` to the closed query at `index`. Both numbers count from
/// 0, and the responses are in the order of their arrival.
#[unsafe(no_mangle)]
pub extern "C" fn serf_agent_closed_response(
    alloc: Global,
    handle: &mut Handle,
    index: usize,
    number: usize,
    response: &mut ResponseHead,
    from: &mut [u8],
    payload: &mut [u8],
) -> u32
    ensures reads { Shows
        (λ s code. ReadsAs (is_ready s)
        (response_of number (slice_get (closed_in s.call_result) index))
        (λ r. (response.new ≡ response_head r) × (from.new ≡ copied r.from from.old)
        × (payload.new ≡ copied r.payload payload.old)) code)
        handle.old handle.new result }
    ensures same { FillsIfDone ((response.new ≡ response.old)
        × (from.new ≡ from.old) × (payload.new ≡ payload.old)) result }
{
    let Some(session) = handle.take(alloc) else {
        return Code::Empty.number();
    };
    let code = session.read_closed_response(index, number, response, from, payload);
    *handle = Handle::of(session);
    code.number()
}

/// Sets `should` to true if the host should compact. This is so if the host's file has more than `limit` bytes, and a
/// compaction would remove at least half of them.
#[unsafe(no_mangle)]
pub extern "C" fn serf_agent_should_compact(
    alloc: Global,
    handle: &mut Handle,
    limit: u64,
    should: &mut bool,
) -> u32
    ensures reads { Shows (λ s code. (is_ready s ≡ false → code ≡ Code.Pending)
        × (is_ready s ≡ true → (code ≡ Code.Done)
        × TellsCompaction limit s.agent.concrete should.new))
        handle.old handle.new result }
    ensures same { FillsIfDone (should.new ≡ should.old) result }
{
    let Some(session) = handle.take(alloc) else {
        return Code::Empty.number();
    };
    let code = session.read_should_compact(limit, should);
    *handle = Handle::of(session);
    code.number()
}
