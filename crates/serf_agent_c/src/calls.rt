//! Two calls of a session's agent: firing an event, and receiving a packet.

ghost use Rattle.std.specs.Prelude.{◌≡◌, Err};
ghost use Rattle.serf_window.specs.Texts.{event_of};
ghost use Rattle.serf_agent.specs.Events.{fire};
ghost use Rattle.serf_agent.specs.Receive.{receive};
ghost use Rattle.serf_agent_c.specs.Calls.{Forgoes, Gives, Takes, Tells, Waits, answer_code};
ghost use Rattle.serf_agent_c.specs.Codes.{fire_code, receive_code};
ghost use Rattle.serf_agent_c.specs.Sessions.{KeepsBurst, KeepsFilters, KeepsMembers};

use crate::call_result::CallResult;
use crate::code::Code;
use crate::session::Session;
use serf_agent::{FireError, Fired, Outcome, ReceiveError};
use std::alloc::Global;

/// The code that C gets for `answer`, the agent's result of firing an event.
pub(crate) fn fired_code(answer: &Result<Fired, FireError>) -> Code
    ensures code { result ≡ answer_code fire_code answer.now }
    ensures memory { answer.now ≡ Err FireError.OutOfMemory → result ≡ Code.OutOfMemory }
{
    match answer {
        Ok(_) => Code::Done,
        Err(error) => Code::of_fire(*error),
    }
}

/// The code that C gets for `answer`, the agent's result of receiving a packet.
pub(crate) fn received_code(answer: &Result<Outcome, ReceiveError>) -> Code
    ensures code { result ≡ answer_code receive_code answer.now }
    ensures memory { answer.now ≡ Err ReceiveError.OutOfMemory → result ≡ Code.OutOfMemory }
{
    match answer {
        Ok(_) => Code::Done,
        Err(error) => Code::of_receive(*error),
    }
}

impl Session {
    /// Keeps `call_result`, the result of a call, for the getters to read.
    #[inline(always)]
    pub(crate) fn give(&mut self, call_result: CallResult)
        ensures call_result { self.new.call_result ≡ call_result }
        ensures rest { (self.new.agent ≡ self.old.agent) × (self.new.written ≡ self.old.written)
            × (self.new.replaces ≡ self.old.replaces) × (self.new.waiting ≡ self.old.waiting)
            × KeepsFilters self.old self.new × KeepsMembers self.old self.new
            × KeepsBurst self.old self.new }
    {
        self.call_result = call_result;
    }

    /// Fires the event with this `name` and `payload`, and keeps the result. `coalesce` is Serf's flag of the event.
    pub(crate) fn fire(
        &mut self,
        alloc: Global,
        name: &[u8],
        payload: &[u8],
        coalesce: bool,
    ) -> Code
        ensures waits { Waits self.old self.new result }
        ensures tells { Tells self.old self.new }
        ensures memory { Forgoes self.old self.new result }
        ensures gives { Gives (λ r. CallResult.Fired r) fire_code self.old self.new result }
        ensures takes { Takes (λ r. CallResult.Fired r)
            (λ i. fire i (event_of name.now payload.now) coalesce) self.old self.new result }
    {
        match self.begin() {
            Ok(()) => {}
            Err(code) => return code,
        }
        let answer = self.agent.fire(alloc, name, payload, coalesce);
        let code = fired_code(&answer);
        self.give(CallResult::Fired(answer));
        code
    }

    /// Handles a packet that arrived at the moment `now`, in nanoseconds, and keeps the result. `tags_pass` is true if
    /// this node's tags pass the query's tag filters.
    pub(crate) fn receive(
        &mut self,
        alloc: Global,
        now: u64,
        packet: &[u8],
        tags_pass: bool,
    ) -> Code
        ensures waits { Waits self.old self.new result }
        ensures tells { Tells self.old self.new }
        ensures memory { Forgoes self.old self.new result }
        ensures gives { Gives (λ r. CallResult.Received r) receive_code self.old self.new result }
        ensures takes { Takes (λ r. CallResult.Received r)
            (λ i. receive tags_pass i now packet.now) self.old self.new result }
    {
        match self.begin() {
            Ok(()) => {}
            Err(code) => return code,
        }
        let answer = self.agent.receive(alloc, now, packet, tags_pass);
        let code = received_code(&answer);
        self.give(CallResult::Received(answer));
        code
    }
}
