//! Returns what an agent would decide about an event or a query, without acting on it. These calls change nothing and
//! allocate no memory.

ghost use Rattle.std.specs.Prelude.{◌≡◌};
ghost use Rattle.serf_window.specs.Texts.{event_of};
ghost use Rattle.serf_agent.specs.Events.{admission};
ghost use Rattle.serf_agent.specs.Ideal.{IdealAgent};
ghost use Rattle.serf_agent.specs.Queries.{query_admission};
ghost use Rattle.serf_agent.specs.Sound.{IsSound};
ghost use Rattle.serf_agent.specs.View.{view_of};

use crate::agent::Agent;
use crate::outcome::Reason;
use serf_lamport::Time;
use serf_snapshot::Sink;

impl<S: Sink> Agent<S> {
    /// The reason why the agent would ignore a user event that arrives now, or `None` if the event is new. A
    /// stopped agent accepts nothing; for it, the result is the same as if it were running.
    pub fn judge_event(&self, time: Time, name: &[u8], payload: &[u8]) -> Option<Reason>
        ensures { (i : IdealAgent) → IsSound i → self.now.concrete ≡ view_of i
            → result ≡ admission i time (event_of name.now payload.now) }
    {
        self.admission(time, name, payload)
    }

    /// The reason why the agent would ignore a query that arrives now, or `None` if the query is new, whether or
    /// not its filters let this node pass. A stopped agent accepts nothing; for it, the result is the same as if it
    /// were running.
    pub fn judge_query(&self, time: Time, id: u32) -> Option<Reason>
        ensures { (i : IdealAgent) → IsSound i → self.now.concrete ≡ view_of i
            → result ≡ query_admission i time id }
    {
        self.query_admission(time, id)
    }
}
