//! States the promises about the lives of this host's agents, in clauses of this program that use only public names of
//! `serf_agent`.
//!
//! Each agent here writes to a [`FileStore`](serf_store::FileStore) over a real file, which doesn't show its bytes to
//! the proof. An agent's first life may begin with any text ([`serf_agent::Agent::open`], clause `first`). Each call
//! does what an agent that forgets nothing would do, and hands out the same events (clause `step`). After a crash, the
//! file's text begins with everything that was flushed, and any bytes may follow it. This is the only thing that the
//! host assumes. From this assumption, the clause `opens` concludes what the next opening requires (clause
//! `restarted`), so the next life continues with the same agent. Everything that is stated here about all lists of
//! calls is therefore true of this program.

ghost use Rattle.serf_agent.specs.Unseen.{FiresLaterUnseen, HandsOutOnceUnseen, OpensUnseen};

use serf_agent::unseen_promises;

/// In all lives over one file together, no event is handed out twice, and each event that is fired is later than all
/// events that were handed out before. This function does nothing; its contract is the promise.
pub(crate) fn over_a_file()
    ensures once { HandsOutOnceUnseen }
    ensures later { FiresLaterUnseen }
    ensures opens { OpensUnseen }
{
    unseen_promises();
}
