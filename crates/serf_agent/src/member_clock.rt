//! The member clock, for hosts that keep track of members.

ghost use Rattle.std.specs.Prelude.{◌≡◌, ◌+◌, false};
ghost use Rattle.serf_agent.specs.Ideal.{IdealAgent};
ghost use Rattle.serf_agent.specs.MemberClock.{clock_state, with_observed_member};
ghost use Rattle.serf_agent.specs.Sound.{IsSound};
ghost use Rattle.serf_agent.specs.States.{joined};
ghost use Rattle.serf_agent.specs.View.{view_of};

use crate::agent::Agent;
use serf_lamport::Time;
use serf_snapshot::Sink;

impl<S: Sink> Agent<S> {
    /// Observes the time of a member's join or leave intent, or of its status. From then on, the member clock is later
    /// than this time (Serf's `serf.go`, `handleNodeJoinIntent` and `handleNodeLeaveIntent`). A push/pull with only a
    /// member clock of `time` plus one has the same effect. Allocates no memory and doesn't call the sink;
    /// [`Agent::save_member_clock`] writes the clock.
    ///
    /// If a host sends an intent for its own node, it takes [`Agent::member_time`] as the intent's time, observes this
    /// time, and saves the clock before it sends the intent. Then no later life uses the same time again.
    pub fn observe_member_time(&mut self, time: Time)
        ensures heard { (i : IdealAgent) → IsSound i → self.old.concrete ≡ view_of i
            → (self.new.concrete ≡ view_of (joined (clock_state (time + 1)) false i))
            × IsSound (joined (clock_state (time + 1)) false i) }
        ensures exact { self.new.concrete ≡ with_observed_member time self.old.concrete }
        ensures device { self.new.device ≡ self.old.device }
    {
        self.member_clock.observe(time);
    }
}
