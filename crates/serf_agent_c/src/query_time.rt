//! Lets C read the Lamport time of the query that the last call fired.

ghost use Rattle.std.specs.Prelude.{◌≡◌, ◌≢◌};
ghost use Rattle.serf_agent_c.specs.FiredQueryTime.{query_time_in};
ghost use Rattle.serf_agent_c.specs.Exports.{FillsIfDone, Shows};
ghost use Rattle.serf_agent_c.specs.Reads.{ReadsAs};
ghost use Rattle.serf_agent_c.specs.Sessions.{is_ready};

use crate::call_result::CallResult;
use crate::code::Code;
use crate::handle::Handle;
use crate::session::Session;
use std::alloc::Global;

impl CallResult {
    /// The Lamport time of the query that the call fired, if it fired one.
    fn fired_query_time(&self) -> Option<u64>
        ensures { result ≡ query_time_in self.now }
    {
        match self {
            CallResult::QueryFired(Ok(fired)) => Some(fired.time.get()),
            _ => None,
        }
    }
}

impl Session {
    /// Sets `time` to the Lamport time of the query that the last call fired. The code is `Nothing` if it fired none.
    fn read_query_time(&self, time: &mut u64) -> Code
        ensures reads { ReadsAs (is_ready self.now) (query_time_in self.now.call_result)
            (λ t. time.new ≡ t) result }
        ensures same { result ≢ Code.Done → time.new ≡ time.old }
    {
        if !self.is_ready() {
            return Code::Pending;
        }
        let Some(fired_queries) = self.call_result.fired_query_time() else {
            return Code::Nothing;
        };
        *time = fired_queries;
        Code::Done
    }
}

/// Sets `time` to the Lamport time of the query that the last call fired. Each answer to the query carries this time
/// and the query's ID.
#[unsafe(no_mangle)]
pub extern "C" fn serf_agent_query_time(alloc: Global, handle: &mut Handle, time: &mut u64) -> u32
    ensures reads { Shows (λ s code. ReadsAs (is_ready s) (query_time_in s.call_result)
        (λ t. time.new ≡ t) code) handle.old handle.new result }
    ensures same { FillsIfDone (time.new ≡ time.old) result }
{
    let Some(session) = handle.take(alloc) else {
        return Code::Empty.number();
    };
    let code = session.read_query_time(time);
    *handle = Handle::of(session);
    code.number()
}
