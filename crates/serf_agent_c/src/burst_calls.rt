//! The calls that C makes through a handle in a burst, before the host flushes once, and those that read the results
//! afterwards. In the clauses, `s` is the session before a call, `t` is the session after it, and `code` is the code
//! that C gets.

ghost use Rattle.std.specs.Prelude.{◌≡◌, ◌≢◌, length, None, true};
ghost use Rattle.serf_agent_c.specs.Asking.{params_of};
ghost use Rattle.serf_agent_c.specs.Bursts.{Extends, Fires, GoesToNext, Leaves, LeavesAgent, Queues, Receives, Asks, SpendsFilters, Stands};
ghost use Rattle.serf_agent_c.specs.Calls.{Waits};
ghost use Rattle.serf_agent_c.specs.Exports.{Answers, FillsIfDone, Shows};
ghost use Rattle.serf_agent_c.specs.ResultParts.{unsettled_in};
ghost use Rattle.serf_agent_c.specs.Sessions.{Appends, KeepsFilters, Numbers, is_ready};

use crate::burst_outcome::BurstOutcome;
use crate::code::Code;
use crate::handle::Handle;
use crate::heads::Params;
use std::alloc::Global;

/// Handles the packet that arrived at the moment `now`, in nanoseconds, within a burst. Its outcome waits for
/// [`serf_agent_next`]. If the packet is a query, set `tags_pass` to whether this node's tags pass all of the query's
/// tag filters, which only the host can know.
#[unsafe(no_mangle)]
pub extern "C" fn serf_agent_burst_receive(
    alloc: Global,
    handle: &mut Handle,
    now: u64,
    packet: &[u8],
    tags_pass: bool,
) -> u32
    ensures stands { Answers (λ s t code. Stands s t × KeepsFilters s t)
        handle.old handle.new result }
    ensures memory { Answers (λ s t code. Leaves s t code) handle.old handle.new result }
    ensures queues { Answers (λ s t code. Queues (λ r. BurstOutcome.Received r) s t code)
        handle.old handle.new result }
    ensures extends { Answers (λ s t code. Extends (Receives tags_pass now packet.now) s t code)
        handle.old handle.new result }
{
    let Some(mut session) = handle.take(alloc) else {
        return Code::Empty.number();
    };
    let code = session.burst_receive(alloc, now, packet, tags_pass);
    *handle = Handle::of(session);
    code.number()
}

/// Fires the event with this `name` and `payload` within a burst. Its outcome waits for [`serf_agent_next`].
#[unsafe(no_mangle)]
pub extern "C" fn serf_agent_burst_fire(
    alloc: Global,
    handle: &mut Handle,
    name: &[u8],
    payload: &[u8],
    coalesce: bool,
) -> u32
    ensures stands { Answers (λ s t code. Stands s t × KeepsFilters s t)
        handle.old handle.new result }
    ensures memory { Answers (λ s t code. Leaves s t code) handle.old handle.new result }
    ensures queues { Answers (λ s t code. Queues (λ r. BurstOutcome.Fired r) s t code)
        handle.old handle.new result }
    ensures extends { Answers (λ s t code. Extends (Fires name.now payload.now coalesce) s t code)
        handle.old handle.new result }
{
    let Some(mut session) = handle.take(alloc) else {
        return Code::Empty.number();
    };
    let code = session.burst_fire(alloc, name, payload, coalesce);
    *handle = Handle::of(session);
    code.number()
}

/// Fires the query `id` with the filters that were added for it, within a burst. Its outcome waits for
/// [`serf_agent_next`]. The filters are then forgotten, unless memory ran out.
#[unsafe(no_mangle)]
pub extern "C" fn serf_agent_burst_query(
    alloc: Global,
    handle: &mut Handle,
    now: u64,
    id: u32,
    name: &[u8],
    payload: &[u8],
    addr: &[u8],
    params: &Params,
) -> u32
    ensures stands { Answers (λ s t code. Stands s t × SpendsFilters s t code)
        handle.old handle.new result }
    ensures memory { Answers (λ s t code. Leaves s t code) handle.old handle.new result }
    ensures queues { Answers (λ s t code. Queues (λ r. BurstOutcome.QueryFired r) s t code)
        handle.old handle.new result }
    ensures extends { Answers (λ s t code. Extends (Asks now id name.now payload.now
        (params_of s.filters addr.now params.now)) s t code) handle.old handle.new result }
{
    let Some(mut session) = handle.take(alloc) else {
        return Code::Empty.number();
    };
    let code = session.burst_query(alloc, now, id, name, payload, addr, params);
    *handle = Handle::of(session);
    code.number()
}

/// Moves on to the next outcome of a burst. The getters then read the result of this outcome's call, and
/// `burst_outcome` is set to its code. Returns `NOTHING` if no outcome is left, and `PENDING` while bytes are pending
/// for the host's file. If memory runs out, the outcome keeps waiting.
#[unsafe(no_mangle)]
pub extern "C" fn serf_agent_next(
    alloc: Global,
    handle: &mut Handle,
    burst_outcome: &mut u32,
) -> u32
    ensures waits { Answers (λ s t code. Waits s t code) handle.old handle.new result }
    ensures same { FillsIfDone (burst_outcome.new ≡ burst_outcome.old) result }
    ensures text { Answers (λ s t code. is_ready s ≡ true → Appends s t × Numbers s t)
        handle.old handle.new result }
    ensures agent { Answers (λ s t code. LeavesAgent s t) handle.old handle.new result }
    ensures next { Answers (λ s t code. GoesToNext burst_outcome.old burst_outcome.new s t code)
        handle.old handle.new result }
    ensures spares { Answers (λ s t code. is_ready s ≡ true → unsettled_in s.call_result ≡ None
        → code ≢ Code.OutOfMemory) handle.old handle.new result }
{
    let Some(mut session) = handle.take(alloc) else {
        return Code::Empty.number();
    };
    let code = session.next(burst_outcome);
    *handle = Handle::of(session);
    code.number()
}

/// Sets `total` to the number of outcomes of a burst that wait for [`serf_agent_next`].
#[unsafe(no_mangle)]
pub extern "C" fn serf_agent_outcomes(alloc: Global, handle: &mut Handle, total: &mut usize) -> u32
    ensures reads { Shows (λ s code. (code ≡ Code.Done) × (total.new ≡ length s.burst.items))
        handle.old handle.new result }
    ensures same { FillsIfDone (total.new ≡ total.old) result }
{
    let Some(session) = handle.take(alloc) else {
        return Code::Empty.number();
    };
    session.read_outcomes(total);
    *handle = Handle::of(session);
    Code::Done.number()
}
