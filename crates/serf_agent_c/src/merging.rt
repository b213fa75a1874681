//! Makes the packet of a session's whole state, merges another agent's state, and writes the lines that a host
//! requests: the member clock's line, and the lines of a compaction.

ghost use Rattle.std.specs.Prelude.{◌≡◌, if◌then◌else◌, true, false, Some, Ok, Err};
ghost use Rattle.serf_wire.specs.Decoded.{decoded};
ghost use Rattle.serf_wire.specs.Message.{PushPull, push_pull};
ghost use Rattle.serf_agent.specs.Ideal.{IdealAgent};
ghost use Rattle.serf_agent.specs.Sound.{IsSound};
ghost use Rattle.serf_agent.specs.States.{Merges, compact, merge_refusal, save};
ghost use Rattle.serf_agent.specs.View.{view_of};
ghost use Rattle.serf_agent_c.specs.Calls.{Forgoes, Gives, Takes, Tells, Waits, answer_code};
ghost use Rattle.serf_agent_c.specs.Codes.{append_line_code, state_code};
ghost use Rattle.serf_agent_c.specs.Merging.{Compacts, ForgetsMembers, IsUnbegun, IsUncompacted, IsUnmerged, MergesFrom, SendsState, merged_code};
ghost use Rattle.serf_agent_c.specs.Sessions.{KeepsBurst, KeepsFilters, KeepsMembers};

use crate::call_result::CallResult;
use crate::code::Code;
use crate::session::Session;
use serf_agent::{Agent, EventOut, MergeError, PushPullError};
use serf_snapshot::{AppendLineError, MemorySink};
use serf_wire::Bytes;
use std::alloc::Global;

/// The code that C gets for a push/pull: `Done` if all of it was merged, and otherwise the code of the `error`.
fn merged_code(error: Option<MergeError>) -> Code
    ensures { result ≡ merged_code error }
{
    match error {
        None => Code::Done,
        Some(error) => Code::of_merge(error),
    }
}

/// The code that C gets for `answer`, the agent's result of encoding its state: the packet, or the error.
fn state_code(answer: &Result<Bytes, PushPullError>) -> Code
    ensures code { result ≡ answer_code state_code answer.now }
    ensures memory { answer.now ≡ Err PushPullError.OutOfMemory → result ≡ Code.OutOfMemory }
{
    match answer {
        Ok(_) => Code::Done,
        Err(error) => Code::of_state(*error),
    }
}

/// The code that C gets for `answer`, the agent's result of writing a line or compacting its text.
fn appended_code(answer: &Result<(), AppendLineError>) -> Code
    ensures code { result ≡ answer_code append_line_code answer.now }
    ensures memory { answer.now ≡ Err AppendLineError.OutOfMemory → result ≡ Code.OutOfMemory }
{
    match answer {
        Ok(()) => Code::Done,
        Err(error) => Code::of_append_line(*error),
    }
}

/// Merges `packet`, another agent's whole state, into `agent`, and appends the new events to `events`. Returns the
/// error if not all of it was merged. `is_join` is true if the state was exchanged for a join.
fn merge_into(
    agent: &mut Agent<MemorySink>,
    alloc: Global,
    packet: &[u8],
    is_join: bool,
    events: &mut Vec<EventOut>,
) -> Option<MergeError>
    ensures refused { (f : MergeError)
        → merge_refusal agent.old.concrete.snapshot (decoded packet.now) ≡ Some f
        → (result ≡ Some f) × (events.new.items ≡ events.old.items) × (agent.new ≡ agent.old) }
    ensures merged { (i : IdealAgent) (m : PushPull) → IsSound i → agent.old.concrete ≡ view_of i
        → i.snapshot.stopped ≡ false → decoded packet.now ≡ Ok (push_pull m)
        → Merges i m is_join events.old.items events.new.items agent.old.device agent.new result }
{
    match agent.merge_remote_state(alloc, packet, is_join, events) {
        Ok(_) => None,
        Err(error) => Some(error),
    }
}

impl Session {
    /// Merges `packet`, another agent's whole state, and keeps the state's new events for the getters.
    pub(crate) fn merge(&mut self, alloc: Global, packet: &[u8], is_join: bool) -> Code
        ensures waits { Waits self.old self.new result }
        ensures tells { Tells self.old self.new }
        ensures memory { IsUnbegun self.old self.new result }
        ensures refused { IsUnmerged packet.now self.old self.new result }
        ensures merges { MergesFrom packet.now is_join self.old self.new result }
    {
        match self.begin() {
            Ok(()) => {}
            Err(code) => return code,
        }
        let mut events = Vec::new(alloc);
        let error = merge_into(&mut self.agent, alloc, packet, is_join, &mut events);
        self.give(CallResult::Merged(events, error));
        merged_code(error)
    }

    /// Makes the packet with the agent's whole state and the members that were added for it. Then forgets these
    /// members, unless memory ran out.
    pub(crate) fn local_state(&mut self, alloc: Global) -> Code
        ensures waits { Waits self.old self.new result }
        ensures forgets { ForgetsMembers self.old self.new result }
        ensures memory { Forgoes self.old self.new result }
        ensures gives { Gives (λ r. CallResult.State r) state_code self.old self.new result }
        ensures sends { SendsState self.old self.new result }
    {
        match self.begin() {
            Ok(()) => {}
            Err(code) => return code,
        }
        let answer = self.state(alloc);
        let code = state_code(&answer);
        self.give(CallResult::State(answer));
        self.forget_members(alloc, code);
        code
    }

    /// Writes a line with the member clock to the agent's text.
    pub(crate) fn save_member_clock(&mut self, alloc: Global) -> Code
        ensures waits { Waits self.old self.new result }
        ensures tells { Tells self.old self.new }
        ensures memory { Forgoes self.old self.new result }
        ensures gives { Gives
            (λ r. CallResult.LineAppended r) append_line_code self.old self.new result }
        ensures takes { Takes (λ r. CallResult.LineAppended r)
            (λ i. save i) self.old self.new result }
    {
        match self.begin() {
            Ok(()) => {}
            Err(code) => return code,
        }
        let answer = self.agent.save_member_clock(alloc);
        let code = appended_code(&answer);
        self.give(CallResult::LineAppended(answer));
        code
    }

    /// If a compaction replaced the agent's text (`is_replaced`), records that all of the new text is pending for the
    /// host's file.
    fn mark_replaced(&mut self, is_replaced: bool)
        ensures written { self.new.written ≡ (if is_replaced then 0 else self.old.written) }
        ensures replaces { self.new.replaces ≡ (if is_replaced then true else self.old.replaces) }
        ensures rest { (self.new.agent ≡ self.old.agent)
            × (self.new.call_result ≡ self.old.call_result)
            × (self.new.waiting ≡ self.old.waiting) × KeepsFilters self.old self.new
            × KeepsMembers self.old self.new × KeepsBurst self.old self.new }
    {
        if is_replaced {
            self.written = 0;
            self.replaces = true;
        }
    }

    /// Compacts the agent's text. The new text is pending, and is to replace the text of the host's file.
    pub(crate) fn compact(&mut self, alloc: Global) -> Code
        ensures waits { Waits self.old self.new result }
        ensures memory { IsUncompacted self.old self.new result }
        ensures gives { Gives
            (λ r. CallResult.LineAppended r) append_line_code self.old self.new result }
        ensures takes { Takes (λ r. CallResult.LineAppended r)
            (λ i. compact i) self.old self.new result }
        ensures replaces { Compacts self.old self.new result }
    {
        match self.begin() {
            Ok(()) => {}
            Err(code) => return code,
        }
        let answer = self.agent.compact(alloc);
        let code = appended_code(&answer);
        self.mark_replaced(answer.is_ok());
        self.give(CallResult::LineAppended(answer));
        code
    }
}
