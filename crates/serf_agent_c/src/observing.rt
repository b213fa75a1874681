//! Lets a host that keeps track of members pass their times to the agent's member clock.

ghost use Rattle.serf_agent_c.specs.Calls.{Waits};
ghost use Rattle.serf_agent_c.specs.Exports.{Answers};
ghost use Rattle.serf_agent_c.specs.Observing.{Hears, IsNoTime, KeepsRest, Observes};

use crate::code::Code;
use crate::handle::Handle;
use crate::session::Session;
use serf_lamport::Time;
use std::alloc::Global;

impl Session {
    /// Observes `time`. From then on, the member clock is later than `time`. If `time` is 2^64 - 1, the code is
    /// `Exhausted`.
    fn observe_member(&mut self, time: u64) -> Code
        ensures waits { Waits self.old self.new result }
        ensures rest { KeepsRest self.old self.new result }
        ensures no_time { IsNoTime time self.old self.new result }
        ensures observes { Observes time self.old self.new result }
        ensures hears { Hears time self.old self.new result }
    {
        if !self.is_ready() {
            return Code::Pending;
        }
        let Some(time) = Time::new(time) else {
            return Code::Exhausted;
        };
        self.agent.observe_member_time(time);
        Code::Done
    }
}

/// Observes `time`, the time at which a member joined, left or got its status. From then on, the member clock is later
/// than `time`. If `time` is 2^64 - 1, which is not a valid time, the code is `EXHAUSTED`.
#[unsafe(no_mangle)]
pub extern "C" fn serf_agent_observe_member(alloc: Global, handle: &mut Handle, time: u64) -> u32
    ensures waits { Answers (λ s t code. Waits s t code) handle.old handle.new result }
    ensures rest { Answers (λ s t code. KeepsRest s t code) handle.old handle.new result }
    ensures no_time { Answers (λ s t code. IsNoTime time s t code) handle.old handle.new result }
    ensures observes { Answers (λ s t code. Observes time s t code) handle.old handle.new result }
    ensures hears { Answers (λ s t code. Hears time s t code) handle.old handle.new result }
{
    let Some(mut session) = handle.take(alloc) else {
        return Code::Empty.number();
    };
    let code = session.observe_member(time);
    *handle = Handle::of(session);
    code.number()
}
