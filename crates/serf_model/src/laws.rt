//! The laws of every run of the model, stated as clauses of functions that do nothing. Code that needs a law calls its
//! function, and the prover may use the clauses after the call.

ghost use Rattle.std.specs.Prelude.{◌≡◌, ◌++◌, ℕ, Bool, true, List, [], Option, Some, All, slice_get};
ghost use Rattle.serf_snapshot.specs.Device.{fresh_device};
ghost use Rattle.serf_snapshot.specs.AppendsLine.{opened};
ghost use Rattle.serf_agent.specs.Config.{is_sound};
ghost use Rattle.serf_agent.specs.declared.config.Config.{Config};
ghost use Rattle.serf_agent.specs.KeptTexts.{IsWritable};
ghost use Rattle.serf_wire.specs.Bytes.{AreBytes};
ghost use Rattle.serf_agent.specs.Restart.{HasPast, IsInText, unopened};
ghost use Rattle.serf_agent.specs.Sound.{IsSound};
ghost use Rattle.serf_model.specs.declared.action.Act.{Act};
ghost use Rattle.serf_model.specs.declared.action.Action.{Action};
ghost use Rattle.serf_model.specs.Alone.{IsAlone};
ghost use Rattle.serf_model.specs.AnswerPromises.{AckedOnce, AnswersMade, CountedInTime, CountedOnce, CountedSent, OpenQueriesHold, RepliedOnce};
ghost use Rattle.serf_model.specs.Below.{Below};
ghost use Rattle.serf_model.specs.Bounds.{EventsBounded, QueriesBounded, WindowsBounded};
ghost use Rattle.serf_model.specs.Cluster.{IdealNode, apply, delivers, merges_given, run_of, start, text_after, trace_of};
ghost use Rattle.serf_model.specs.Exchanges.{ExchangeHands, SpreadsOnWays};
ghost use Rattle.serf_model.specs.HandOuts.{HandsOutEntered, HandsOutGiven, MessagesFired, NewIsHanded, OnlyToActor};
ghost use Rattle.serf_model.specs.Kept.{KeepsPromises};
ghost use Rattle.serf_model.specs.NotMissed.{Kept, QueriesKept};
ghost use Rattle.serf_model.specs.Merging.{MergesRepresentable};
ghost use Rattle.serf_model.specs.Promises.{Held, HeldOrTailed, Later, Once, OnlyFired, OnlyFiredOrTailed, QueryFired, QueryHandedOnce, QueryLater, QueryOnce};
ghost use Rattle.serf_model.specs.Queried.{QueryOnlyFired};
ghost use Rattle.serf_model.specs.Ready.{AreRepresentable, IsRepresentable};
ghost use Rattle.serf_model.specs.Runs.{AreConfigs, HasShortQueries, NoneBadIsSound};
ghost use Rattle.serf_model.specs.Sent.{Sent};
ghost use Rattle.serf_model.specs.Sizes.{HasSizes};
ghost use Rattle.serf_model.specs.Taken.{MergedIsHanded, Taken};
ghost use Rattle.serf_model.specs.Tails.{CanTell, CanTellAct, NoneKeeps};
ghost use Rattle.serf_model.specs.Trace.{events_in_packet, given_by, turns_by, turns_of};

use serf_agent::{keeping_laws, kept_life_promises, kept_text_laws, short_packets, sound_steps};
use serf_snapshot::{
    event_line_laws, kept_append_line_laws, min_time_laws, read_laws, said_laws, said_query_laws,
    text_laws,
};
use serf_window::slot_laws;
use serf_wire::{canonical_packets, decoded_ranges, decoded_texts, exact_decoding};

/// Shows the prover the promises of the crates below, as far as the promises of a run depend on them. Does nothing at
/// run time.
fn laws_below()
    ensures { Below }
{
    exact_decoding(); // decoding returns exactly the message that the bytes spell, or their first error
    decoded_ranges(); // decoded numbers fit into their types
    canonical_packets(); // a canonical packet spells its message
    slot_laws(); // the slots of windows
    text_laws(); // the clocks in a snapshot's text
    short_packets(); // no text in an agent's packet is too long for its header
    sound_steps(); // agents stay sound, and admit nothing a second time
    event_line_laws(); // a snapshot's line of an event reads back as it was written
    kept_append_line_laws(); // if an agent keeps events, its snapshot reports what its sink keeps
    min_time_laws(); // the minimums in a snapshot's text
    read_laws(); // everything that is read from a snapshot's text can be written again
    said_laws(); // which events are in a snapshot's text
    said_query_laws(); // which queries are in a snapshot's text
    kept_text_laws(); // which of the entries that were handed out are kept in a snapshot's text
    keeping_laws(); // tracks that are kept over a restart
    kept_life_promises(); // what agents that keep their events promise across restarts
}

/// Every run keeps every promise, whatever its settings and its actions are. This function does nothing.
///
/// `promises` states all promises at once, for agents that can make a cluster and for actions whose numbers fit into
/// their types (`HasSizes`). If an agent keeps its events, a snapshot's lines must be able to hold everything that the
/// actions fire or inject: the texts have to be bytes, and the IDs of queries have to be below 2^32 (`CanTell`). Each
/// of the other clauses states one promise.
pub fn run_promises()
    ensures promises { (configs : List Config) (actions : List Action) → AreConfigs configs
        → CanTell configs actions → All HasSizes actions
        → KeepsPromises configs (run_of configs actions) }
    // A run without actions keeps all promises, whatever the settings are.
    ensures start { (configs : List Config) → KeepsPromises configs (start configs) }

    // Promises about the times and the origin of events and queries.
    ensures once { (configs : List Config) (actions : List Action) → AreConfigs configs
        → CanTell configs actions → Once (run_of configs actions).turns }
    ensures fired { (configs : List Config) (actions : List Action) → AreConfigs configs
        → CanTell configs actions → OnlyFiredOrTailed configs (run_of configs actions).turns }
    ensures later { (configs : List Config) (actions : List Action) → AreConfigs configs
        → CanTell configs actions → Later (run_of configs actions).turns }
    ensures held { (configs : List Config) (actions : List Action) → AreConfigs configs
        → CanTell configs actions → HeldOrTailed configs (run_of configs actions).turns }
    // If no agent keeps its events, a restart restores none from its tail.
    ensures fired_alone { (configs : List Config) (actions : List Action) → AreConfigs configs
        → NoneKeeps configs → OnlyFired (run_of configs actions).turns }
    ensures held_alone { (configs : List Config) (actions : List Action) → AreConfigs configs
        → NoneKeeps configs → Held (run_of configs actions).turns }
    // Promises that agents miss nothing if they keep their events.
    ensures kept { (configs : List Config) (actions : List Action) → AreConfigs configs
        → CanTell configs actions → Kept configs (run_of configs actions).turns }
    ensures queries_kept { (configs : List Config) (actions : List Action) → AreConfigs configs
        → CanTell configs actions → QueriesKept configs (run_of configs actions).turns }
    // Promises about what every agent sends, and about what it accepts in its present life.
    ensures sent { (configs : List Config) (actions : List Action) → All HasSizes actions
        → AreConfigs configs → CanTell configs actions
        → Sent configs (run_of configs actions).turns }
    ensures taken { (configs : List Config) (actions : List Action) → AreConfigs configs
        → CanTell configs actions → Taken configs (run_of configs actions).turns }
    ensures merged { (configs : List Config) (actions : List Action) → AreConfigs configs
        → CanTell configs actions → MergedIsHanded configs (run_of configs actions).turns }
    ensures query_once { (configs : List Config) (actions : List Action) → AreConfigs configs
        → CanTell configs actions → QueryOnce (run_of configs actions).turns }
    ensures query_later { (configs : List Config) (actions : List Action) → AreConfigs configs
        → CanTell configs actions → QueryLater (run_of configs actions).turns }
    ensures query_handed { (configs : List Config) (actions : List Action) → AreConfigs configs
        → CanTell configs actions → QueryHandedOnce (run_of configs actions).turns }
    ensures query_fired { (configs : List Config) (actions : List Action)
        → QueryFired (run_of configs actions).turns }
    ensures query_only_fired { (configs : List Config) (actions : List Action)
        → All HasShortQueries configs → All HasSizes actions
        → QueryOnlyFired (run_of configs actions).turns }

    // Promises about what is handed out, and about queries as messages.
    ensures only_to_actor { (configs : List Config) (actions : List Action)
        → OnlyToActor (run_of configs actions).turns }
    ensures hands_out_given { (configs : List Config) (actions : List Action)
        → HandsOutGiven (run_of configs actions).turns }
    ensures new_is_handed { (configs : List Config) (actions : List Action)
        → NewIsHanded (run_of configs actions).turns }
    ensures hands_out_entered { (configs : List Config) (actions : List Action)
        → HandsOutEntered configs (run_of configs actions).turns }
    ensures messages_fired { (configs : List Config) (actions : List Action)
        → All HasShortQueries configs → All HasSizes actions
        → MessagesFired configs (run_of configs actions).turns }

    // Promises about acks and responses.
    ensures counted_once { (configs : List Config) (actions : List Action) → AreConfigs configs
        → CanTell configs actions → CountedOnce (run_of configs actions).turns }
    ensures counted_in_time { (configs : List Config) (actions : List Action) → AreConfigs configs
        → CanTell configs actions → CountedInTime (run_of configs actions).turns }
    ensures counted_sent { (configs : List Config) (actions : List Action) → AreConfigs configs
        → CanTell configs actions → CountedSent (run_of configs actions).turns }
    ensures answers_made { (configs : List Config) (actions : List Action) → All HasSizes actions
        → AreConfigs configs → CanTell configs actions
        → AnswersMade configs (run_of configs actions).turns }
    ensures replied_once { (configs : List Config) (actions : List Action) → All HasSizes actions
        → AreConfigs configs → CanTell configs actions
        → RepliedOnce (run_of configs actions).turns }
    ensures acked_once { (configs : List Config) (actions : List Action) → All HasSizes actions
        → AreConfigs configs → CanTell configs actions
        → AckedOnce (run_of configs actions).turns }

    // Promises about how much the windows of each agent hold, according to its settings.
    ensures events_bounded { (configs : List Config) (actions : List Action) → AreConfigs configs
        → CanTell configs actions → EventsBounded configs (run_of configs actions).turns }
    ensures queries_bounded { (configs : List Config) (actions : List Action) → AreConfigs configs
        → CanTell configs actions → QueriesBounded configs (run_of configs actions).turns }
    ensures windows_bounded { (configs : List Config) (actions : List Action)
        → AreConfigs configs → CanTell configs actions
        → WindowsBounded (run_of configs actions) }

    // After a run, the agents' open queries hold the answers that were counted.
    ensures open_queries { (configs : List Config) (actions : List Action) → AreConfigs configs
        → CanTell configs actions → OpenQueriesHold (run_of configs actions) }
{
    laws_below(); // the laws on which the promises of a run depend
    slot_laws(); // the slots of queries, which `laws_below` leaves out
}

/// Events spread when agents exchange their states. This function does nothing.
///
/// After an agent has merged the state that another agent sent, it has been handed each event of the sender's present
/// life and window, unless the turns show a reason against it (`hands`). So as long as no agent is opened again and
/// there is no reason of this kind, an event travels along every chain of exchanges. If a chain leads from each agent
/// to every other agent, all agents are handed the same events (`spreads`).
///
/// The law doesn't state that any exchange happens. A run has only the exchanges that are among its actions, and an
/// exchange that is never done spreads nothing. The law assumes no fairness, and states nothing about a real network.
pub fn exchanges_spread()
    ensures hands { (configs : List Config) (actions : List Action) → All HasSizes actions
        → AreConfigs configs → CanTell configs actions
        → ExchangeHands configs (run_of configs actions).turns }
    ensures spreads { (configs : List Config) (actions : List Action) → All HasSizes actions
        → AreConfigs configs → CanTell configs actions
        → SpreadsOnWays configs (run_of configs actions).turns }
{
    laws_below();
}

/// The turns of a run are exactly what its actions and its trace show, whatever actions follow. This function does
/// nothing.
pub fn turns_shown()
    ensures { (configs : List Config) (done left : List Action) → AreConfigs configs
        → turns_of (done ++ left) (trace_of (run_of configs done)) ≡ (run_of configs done).turns }
{
    laws_below();
}

/// The turns of one agent in a run show the same results as the same calls on this agent alone, if each call is given
/// the bytes of its packet. Both leave the agent in the same state. So a single agent can be compared with the model.
/// This function does nothing.
pub fn agents_alone()
    ensures { (configs : List Config) (actions : List Action) (a : ℕ) (config : Config)
        (m : IdealNode) → slice_get configs a ≡ Some config
        → slice_get (run_of configs actions).cluster.nodes a ≡ Some m
        → IsAlone config a (turns_by a (run_of configs actions).turns) m }
{}

/// Agents stay representable.
///
/// The agents of a cluster that has done nothing are representable. An act leaves its agent representable if a
/// snapshot's lines can hold the events and queries that the act fires or delivers. An agent before its first life is
/// sound. If an agent is representable, the text that its sink keeps, with any tail after it, has the times of
/// everything that entered, and everything that the agent's next life needs. This function does nothing.
pub fn representable_agents()
    ensures start { (configs : List Config) → AreConfigs configs
        → AreRepresentable (start configs).cluster }
    ensures apply { (m : IdealNode) (sent : List (List ℕ)) (act : Act)
        → CanTellAct m.agent.config act (given_by sent act) → IsRepresentable m.agent
        → IsRepresentable (apply m sent act).node.agent }
    ensures unopened { (config : Config) → is_sound config ≡ true
        → IsSound (unopened config (opened [] (fresh_device []))) }
    ensures text { (m : IdealNode) (tail : List ℕ) → IsRepresentable m.agent
        → IsInText m.agent (text_after m.agent tail) }
    ensures past { (m : IdealNode) (tail : List ℕ) → IsRepresentable m.agent
        → HasPast m.agent.config m.agent (text_after m.agent tail) }
{
    laws_below();
}

/// If a packet consists of bytes, its events can be written in a snapshot's lines. This function does nothing.
pub fn told_packets()
    ensures { (packet : List ℕ) → AreBytes packet
        → All (λ e. IsWritable e.key) (events_in_packet packet) }
{
    decoded_texts();
}

/// If none of the settings is bad, each of them is sound. This function does nothing.
pub fn sound_settings()
    ensures { NoneBadIsSound }
{}

/// During a merge, the agent stays representable after each event. This function does nothing.
pub fn merged_agents()
    ensures { MergesRepresentable }
{
    laws_below();
}

/// A delivery or a merge doesn't change the list of queries that were handed to its agent. This function does nothing.
pub fn handed_queries()
    ensures delivers { (m : IdealNode) (now : ℕ) (given : Option (List ℕ))
        → (delivers m now given).node.handed ≡ m.handed }
    ensures merges { (m : IdealNode) (join : Bool) (given : Option (List ℕ))
        → (merges_given m join given).node.handed ≡ m.handed }
{}
