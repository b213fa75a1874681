//! One agent of a Serf cluster for C: `include/serf_agent.h` declares these functions.
//!
//! A [`Handle`] is in the host's memory and has a session: an agent, the result of its last call, and a record of the
//! bytes that are pending for the host's file. The library opens no file: the agent's sink is in memory. The host
//! appends the bytes that [`serf_agent_pending`] returns to its file, flushes the file, and calls
//! [`serf_agent_flushed`]. Until then, calls of the agent outside a burst are refused, and nothing that was handed out
//! can be read. So an event is handed out only after its line is durable.
//!
//! If an export calls the agent, its contract states that the agent takes the same step as the ideal agent (see
//! `serf_agent`). The contract of a getter states that C reads the result. No export has a precondition: an empty
//! handle, a handle in use or a wrong number leads to a [`Code`]. In the clauses, `s` is the session before a call, `t`
//! is the session after it, and `code` is the code that C gets. Clauses named `waits` are about pending bytes, those
//! named `memory` about an allocation failure, and those named `gives` about the result that C reads afterwards.
#![tactic(auto)]

ghost use Rattle.std.specs.Prelude.{true, ◌≡◌, ◌≢◌, ◌++◌, ◌∷◌, if◌then◌else◌, [], None, Some, IfSome, false, length};
ghost use Rattle.std.specs.Option.{is_some};
ghost use Rattle.serf_window.specs.Texts.{event_of};
ghost use Rattle.serf_agent.specs.Events.{fire};
ghost use Rattle.serf_agent.specs.Queries.{fire_query};
ghost use Rattle.serf_agent.specs.Receive.{receive};
ghost use Rattle.serf_agent.specs.States.{compact, save};
ghost use Rattle.serf_agent_c.specs.Asking.{AddsFilter, Closes, Declines, Forgets, ForgetsFilters, ForgetsLate, IsBounded, IsSpared, Responds, Spares, params_of};
ghost use Rattle.serf_agent_c.specs.Calls.{Forgoes, Gives, Takes, Tells, Waits};
ghost use Rattle.serf_agent_c.specs.Codes.{fire_code, append_line_code, number_of, query_code, receive_code, state_code};
ghost use Rattle.serf_agent_c.specs.Exports.{Answers, FillsIfDone, Shows};
ghost use Rattle.serf_agent_c.specs.Members.{AddsLeft, AddsStatus};
ghost use Rattle.serf_agent_c.specs.Merging.{Compacts, ForgetsMembers, IsUnbegun, IsUncompacted, IsUnmerged, MergesFrom, SendsState};
ghost use Rattle.serf_agent_c.specs.Opening.{EndsAs, GoesOn, IsFirst, IsFresh, config_of};
ghost use Rattle.serf_agent_c.specs.Sessions.{KeepsBurst, KeepsFilters, KeepsMembers};
ghost use Rattle.serf_agent_c.specs.Texts.{copied, pending_bytes, text_of};

mod answers;
mod asking;
mod burst_calls;
mod burst_outcome;
mod bursts;
mod call_result;
mod calls;
mod closings;
mod code;
mod copies;
mod errors;
mod filters;
mod getters;
mod handle;
mod handler_lines;
mod heads;
mod intents;
mod laws;
mod lookups;
mod members;
mod merging;
mod observing;
mod open_events;
mod opening;
mod query_time;
mod reading;
mod session;
mod state_members;
mod tracked_laws;
mod waiting;

pub use burst_calls::{
    serf_agent_burst_fire, serf_agent_burst_query, serf_agent_burst_receive, serf_agent_next,
    serf_agent_outcomes,
};
use call_result::CallResult;
pub use code::Code;
pub use filters::{FiltersHead, serf_agent_query_filters};
pub use getters::{
    serf_agent_ack, serf_agent_answer, serf_agent_clocks, serf_agent_closed, serf_agent_closed_ack,
    serf_agent_closed_response, serf_agent_event, serf_agent_next_deadline,
    serf_agent_open_queries, serf_agent_packet, serf_agent_packet_error, serf_agent_pending_query,
    serf_agent_result, serf_agent_should_compact,
};
pub use handle::Handle;
pub use handler_lines::{
    EventState, serf_agent_begun_line, serf_agent_done_line, serf_agent_done_up_to_line,
    serf_agent_open_line,
};
pub use heads::{
    AnswerHead, BytesHead, ClocksHead, ClosedHead, ErrorHead, EventHead, Params, PendingQueryHead,
    ResponseHead, ResultHead, Settings,
};
pub use intents::{
    IntentHead, serf_agent_intent, serf_agent_intent_error, serf_agent_join_packet,
    serf_agent_leave_packet,
};
pub use laws::{host_packets, host_promises, host_steps};
pub use observing::serf_agent_observe_member;
pub use open_events::{OpenEventHead, OpenEventsHead, serf_agent_open_events};
pub use query_time::serf_agent_query_time;
use session::Session;
pub use state_members::{MemberHead, MembersHead, serf_agent_state_members};
use std::alloc::Global;
pub use tracked_laws::tracked_host_promises;

/// Opens the agent `name` over `text`, the bytes of the host's file, in an empty `handle`. A handle in use stays as it
/// is.
#[unsafe(no_mangle)]
pub extern "C" fn serf_agent_open(
    alloc: Global,
    handle: &mut Handle,
    name: &[u8],
    settings: &Settings,
    text: &[u8],
) -> u32
    ensures in_use { IfSome handle.old.place.value (λ s. (handle.new.place.value ≡ Some s)
        × (result ≡ number_of Code.InUse)) }
    ensures code { handle.old.place.value ≡ None
        → EndsAs (config_of name.now settings.now) handle.new.place.value result }
    ensures goes_on { handle.old.place.value ≡ None
        → IfSome handle.new.place.value (λ t. GoesOn name.now settings.now text.now t) }
    ensures first { handle.old.place.value ≡ None
        → IfSome handle.new.place.value (λ t. IsFirst name.now settings.now text.now t) }
    ensures fresh { handle.old.place.value ≡ None
        → IfSome handle.new.place.value (λ t. IsFresh text.now t) }
{
    if let Some(session) = handle.take(alloc) {
        *handle = Handle::of(session);
        return Code::InUse.number();
    }
    match Session::open(alloc, name, settings, text) {
        Ok(session) => match Box::new(alloc, session) {
            Ok(session) => {
                *handle = Handle::of(session);
                Code::Done.number()
            }
            Err(_) => Code::OutOfMemory.number(),
        },
        Err(error) => Code::of_open(error).number(),
    }
}

/// Closes the agent of `handle`, which is empty afterwards. For an empty handle, the code is `EMPTY`.
#[unsafe(no_mangle)]
pub extern "C" fn serf_agent_close(alloc: Global, handle: &mut Handle) -> u32
    ensures empty { handle.new.place.value ≡ None }
    ensures code { result
        ≡ number_of (if is_some handle.old.place.value then Code.Done else Code.Empty) }
{
    match handle.take(alloc) {
        Some(session) => {
            drop(session);
            Code::Done.number()
        }
        None => Code::Empty.number(),
    }
}

/// Fills `bytes` with the number of bytes that are pending for the host's file, and with whether they replace its text.
/// Fills `to` with as many of these bytes as fit, from the first on.
#[unsafe(no_mangle)]
pub extern "C" fn serf_agent_pending(
    alloc: Global,
    handle: &mut Handle,
    bytes: &mut BytesHead,
    to: &mut [u8],
) -> u32
    ensures reads { Shows (λ s code. (code ≡ Code.Done) × (bytes.new
        ≡ record { len = length (pending_bytes s.agent.device s.written); replaces = s.replaces })
        × (to.new ≡ copied (pending_bytes s.agent.device s.written) to.old))
        handle.old handle.new result }
    ensures same { FillsIfDone ((bytes.new ≡ bytes.old) × (to.new ≡ to.old)) result }
{
    let Some(session) = handle.take(alloc) else {
        return Code::Empty.number();
    };
    session.read_pending(bytes, to);
    *handle = Handle::of(session);
    Code::Done.number()
}

/// Records that the host's file has all of the agent's text, and was flushed.
#[unsafe(no_mangle)]
pub extern "C" fn serf_agent_flushed(alloc: Global, handle: &mut Handle) -> u32
    ensures { Answers (λ s t code. (code ≡ Code.Done)
        × (t.written ≡ length (text_of s.agent.device)) × (t.replaces ≡ false) × (t.agent ≡ s.agent)
        × (t.call_result ≡ s.call_result) × (t.waiting ≡ s.waiting) × KeepsFilters s t
        × KeepsMembers s t
        × KeepsBurst s t)
        handle.old handle.new result }
{
    let Some(mut session) = handle.take(alloc) else {
        return Code::Empty.number();
    };
    session.mark_flushed();
    *handle = Handle::of(session);
    Code::Done.number()
}

/// Fires the event with this `name` and `payload`. `coalesce` is Serf's flag of the event. The getters read the result.
#[unsafe(no_mangle)]
pub extern "C" fn serf_agent_fire(
    alloc: Global,
    handle: &mut Handle,
    name: &[u8],
    payload: &[u8],
    coalesce: bool,
) -> u32
    ensures waits { Answers (λ s t code. Waits s t code) handle.old handle.new result }
    ensures tells { Answers (λ s t code. Tells s t) handle.old handle.new result }
    ensures memory { Answers (λ s t code. Forgoes s t code) handle.old handle.new result }
    ensures gives { Answers (λ s t code. Gives (λ r. CallResult.Fired r) fire_code s t code)
        handle.old handle.new result }
    ensures takes { Answers (λ s t code. Takes (λ r. CallResult.Fired r)
        (λ i. fire i (event_of name.now payload.now) coalesce) s t code)
        handle.old handle.new result }
{
    let Some(mut session) = handle.take(alloc) else {
        return Code::Empty.number();
    };
    let code = session.fire(alloc, name, payload, coalesce);
    *handle = Handle::of(session);
    code.number()
}

/// Handles a packet that arrived at the moment `now`, in nanoseconds. If the packet is a query, set `tags_pass` to
/// whether this node's tags pass all of the query's tag filters, which only the host can know. The getters read the
/// outcome.
#[unsafe(no_mangle)]
pub extern "C" fn serf_agent_receive(
    alloc: Global,
    handle: &mut Handle,
    now: u64,
    packet: &[u8],
    tags_pass: bool,
) -> u32
    ensures waits { Answers (λ s t code. Waits s t code) handle.old handle.new result }
    ensures tells { Answers (λ s t code. Tells s t) handle.old handle.new result }
    ensures memory { Answers (λ s t code. Forgoes s t code) handle.old handle.new result }
    ensures gives { Answers (λ s t code. Gives (λ r. CallResult.Received r) receive_code s t code)
        handle.old handle.new result }
    ensures takes { Answers
        (λ s t code. Takes (λ r. CallResult.Received r)
        (λ i. receive tags_pass i now packet.now) s t code) handle.old handle.new result }
{
    let Some(mut session) = handle.take(alloc) else {
        return Code::Empty.number();
    };
    let code = session.receive(alloc, now, packet, tags_pass);
    *handle = Handle::of(session);
    code.number()
}

/// Merges another agent's whole state, the push/pull `packet`. `is_join` is true if the state was exchanged for a join.
#[unsafe(no_mangle)]
pub extern "C" fn serf_agent_merge(
    alloc: Global,
    handle: &mut Handle,
    packet: &[u8],
    is_join: bool,
) -> u32
    ensures waits { Answers (λ s t code. Waits s t code) handle.old handle.new result }
    ensures tells { Answers (λ s t code. Tells s t) handle.old handle.new result }
    ensures memory { Answers (λ s t code. IsUnbegun s t code) handle.old handle.new result }
    ensures refused { Answers (λ s t code. IsUnmerged packet.now s t code)
        handle.old handle.new result }
    ensures merges { Answers (λ s t code. MergesFrom packet.now is_join s t code)
        handle.old handle.new result }
{
    let Some(mut session) = handle.take(alloc) else {
        return Code::Empty.number();
    };
    let code = session.merge(alloc, packet, is_join);
    *handle = Handle::of(session);
    code.number()
}

/// Makes the push/pull packet with the agent's whole state, and with the members that were added for it. The members
/// are then forgotten, unless memory ran out. The getters read the packet.
#[unsafe(no_mangle)]
pub extern "C" fn serf_agent_local_state(alloc: Global, handle: &mut Handle) -> u32
    ensures waits { Answers (λ s t code. Waits s t code) handle.old handle.new result }
    ensures forgets { Answers (λ s t code. ForgetsMembers s t code)
        handle.old handle.new result }
    ensures memory { Answers (λ s t code. Forgoes s t code) handle.old handle.new result }
    ensures gives { Answers (λ s t code. Gives (λ r. CallResult.State r) state_code s t code)
        handle.old handle.new result }
    ensures sends { Answers (λ s t code. SendsState s t code) handle.old handle.new result }
{
    let Some(mut session) = handle.take(alloc) else {
        return Code::Empty.number();
    };
    let code = session.local_state(alloc);
    *handle = Handle::of(session);
    code.number()
}

/// Adds the member `name` to the next state, with `status_time`: the time of its status, by the member clock.
#[unsafe(no_mangle)]
pub extern "C" fn serf_agent_add_status(
    alloc: Global,
    handle: &mut Handle,
    name: &[u8],
    status_time: u64,
) -> u32
    ensures { Answers (λ s t code. Waits s t code × AddsStatus name.now status_time s t code)
        handle.old handle.new result }
{
    let Some(mut session) = handle.take(alloc) else {
        return Code::Empty.number();
    };
    let code = session.add_status(alloc, name, status_time);
    *handle = Handle::of(session);
    code.number()
}

/// Adds the member `name` to the members that the next state lists as left.
#[unsafe(no_mangle)]
pub extern "C" fn serf_agent_add_left(alloc: Global, handle: &mut Handle, name: &[u8]) -> u32
    ensures { Answers (λ s t code. Waits s t code × AddsLeft name.now s t code)
        handle.old handle.new result }
{
    let Some(mut session) = handle.take(alloc) else {
        return Code::Empty.number();
    };
    let code = session.add_left(alloc, name);
    *handle = Handle::of(session);
    code.number()
}

/// Adds `filter`, the bytes of a filter in Serf's format, to the next query. This also works while bytes are pending
/// for the host's file.
#[unsafe(no_mangle)]
pub extern "C" fn serf_agent_add_filter(alloc: Global, handle: &mut Handle, filter: &[u8]) -> u32
    ensures adds { Answers (λ s t code. AddsFilter filter.now s t code)
        handle.old handle.new result }
    ensures refused { Answers (λ s t code. code ≢ Code.Done → code ≡ Code.OutOfMemory)
        handle.old handle.new result }
{
    let Some(mut session) = handle.take(alloc) else {
        return Code::Empty.number();
    };
    let code = session.add_filter(alloc, filter);
    *handle = Handle::of(session);
    code.number()
}

/// Fires the query `id` with this `name` and `payload` at the moment `now`, in nanoseconds. Its answers are sent to
/// `addr`. The query gets the filters that were added for it. They are then forgotten, unless memory ran out.
#[unsafe(no_mangle)]
pub extern "C" fn serf_agent_query(
    alloc: Global,
    handle: &mut Handle,
    now: u64,
    id: u32,
    name: &[u8],
    payload: &[u8],
    addr: &[u8],
    params: &Params,
) -> u32
    ensures waits { Answers (λ s t code. Waits s t code) handle.old handle.new result }
    ensures forgets { Answers (λ s t code. ForgetsFilters s t code)
        handle.old handle.new result }
    ensures memory { Answers (λ s t code. Forgoes s t code) handle.old handle.new result }
    ensures gives { Answers (λ s t code. Gives (λ r. CallResult.QueryFired r) query_code s t code)
        handle.old handle.new result }
    ensures takes { Answers (λ s t code. Takes (λ r. CallResult.QueryFired r)
        (λ i. fire_query i now id name.now payload.now (params_of s.filters addr.now params.now))
        s t code) handle.old handle.new result }
{
    let Some(mut session) = handle.take(alloc) else {
        return Code::Empty.number();
    };
    let code = session.query(alloc, now, id, name, payload, addr, params);
    *handle = Handle::of(session);
    code.number()
}

/// Answers query number `number` with `payload`, at the moment `now` in nanoseconds. After a success, the query no
/// longer waits for an answer.
#[unsafe(no_mangle)]
pub extern "C" fn serf_agent_respond(
    alloc: Global,
    handle: &mut Handle,
    now: u64,
    number: u64,
    payload: &[u8],
) -> u32
    ensures waits { Answers (λ s t code. Waits s t code) handle.old handle.new result }
    ensures agent { Answers (λ s t code. t.agent ≡ s.agent) handle.old handle.new result }
    ensures declines { Answers (λ s t code. Declines number s t code)
        handle.old handle.new result }
    ensures responds { Answers (λ s t code. Responds number now payload.now s t code)
        handle.old handle.new result }
{
    let Some(mut session) = handle.take(alloc) else {
        return Code::Empty.number();
    };
    let code = session.respond(alloc, now, number, payload);
    *handle = Handle::of(session);
    code.number()
}

/// Forgets query number `number`. The query isn't answered, and no longer uses memory.
#[unsafe(no_mangle)]
pub extern "C" fn serf_agent_forget_query(alloc: Global, handle: &mut Handle, number: u64) -> u32
    ensures waits { Answers (λ s t code. Waits s t code) handle.old handle.new result }
    ensures agent { Answers (λ s t code. t.agent ≡ s.agent) handle.old handle.new result }
    ensures declines { Answers (λ s t code. Declines number s t code)
        handle.old handle.new result }
    ensures forgets { Answers (λ s t code. Forgets number s t code) handle.old handle.new result }
    ensures spares { Answers (λ s t code. IsSpared s code) handle.old handle.new result }
{
    let Some(mut session) = handle.take(alloc) else {
        return Code::Empty.number();
    };
    let code = session.forget(number);
    *handle = Handle::of(session);
    code.number()
}

/// Closes the agent's own queries whose deadline is before the moment `now`, in nanoseconds, and sets `closed` to their
/// number. The getters can then read them with their answers. Also forgets the queries that wait for an answer and
/// whose deadline is before `now`.
#[unsafe(no_mangle)]
pub extern "C" fn serf_agent_close_due(
    alloc: Global,
    handle: &mut Handle,
    now: u64,
    closed: &mut usize,
) -> u32
    ensures waits { Answers (λ s t code. Waits s t code) handle.old handle.new result }
    ensures late { Answers (λ s t code. ForgetsLate now s t code) handle.old handle.new result }
    ensures bounded { Answers (λ s t code. IsBounded now t code) handle.old handle.new result }
    ensures memory { Answers (λ s t code. Forgoes s t code) handle.old handle.new result }
    ensures closes { Answers (λ s t code. Closes now closed.new s t code)
        handle.old handle.new result }
    ensures same { FillsIfDone (closed.new ≡ closed.old) result }
    ensures spares { Answers (λ s t code. Spares now s code) handle.old handle.new result }
{
    let Some(mut session) = handle.take(alloc) else {
        return Code::Empty.number();
    };
    let code = session.close_due(alloc, now, closed);
    *handle = Handle::of(session);
    code.number()
}

/// Writes a line with the member clock to the agent's text, so that a restart resumes from it.
#[unsafe(no_mangle)]
pub extern "C" fn serf_agent_save_member_clock(alloc: Global, handle: &mut Handle) -> u32
    ensures waits { Answers (λ s t code. Waits s t code) handle.old handle.new result }
    ensures tells { Answers (λ s t code. Tells s t) handle.old handle.new result }
    ensures memory { Answers (λ s t code. Forgoes s t code) handle.old handle.new result }
    ensures gives { Answers
        (λ s t code. Gives (λ r. CallResult.LineAppended r) append_line_code s t code)
        handle.old handle.new result }
    ensures takes { Answers
        (λ s t code. Takes (λ r. CallResult.LineAppended r) (λ i. save i) s t code)
        handle.old handle.new result }
{
    let Some(mut session) = handle.take(alloc) else {
        return Code::Empty.number();
    };
    let code = session.save_member_clock(alloc);
    *handle = Handle::of(session);
    code.number()
}

/// Makes the text that is to replace the text of the host's file: a line for each clock, and, if the settings keep
/// events, the lines of the events and queries in the buffers.
#[unsafe(no_mangle)]
pub extern "C" fn serf_agent_compact(alloc: Global, handle: &mut Handle) -> u32
    ensures waits { Answers (λ s t code. Waits s t code) handle.old handle.new result }
    ensures memory { Answers (λ s t code. IsUncompacted s t code) handle.old handle.new result }
    ensures gives { Answers
        (λ s t code. Gives (λ r. CallResult.LineAppended r) append_line_code s t code)
        handle.old handle.new result }
    ensures takes { Answers
        (λ s t code. Takes (λ r. CallResult.LineAppended r) (λ i. compact i) s t code)
        handle.old handle.new result }
    ensures replaces { Answers (λ s t code. Compacts s t code)
        handle.old handle.new result }
{
    let Some(mut session) = handle.take(alloc) else {
        return Code::Empty.number();
    };
    let code = session.compact(alloc);
    *handle = Handle::of(session);
    code.number()
}
