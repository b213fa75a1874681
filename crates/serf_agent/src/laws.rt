//! The laws of one agent's lives. Each law is the contract of a function that does nothing: call the function to use
//! its clauses in a proof.

ghost use Rattle.std.specs.Prelude.{ℕ};
ghost use Rattle.serf_wire.specs.declared.texts.EventBody.{EventBody};
ghost use Rattle.serf_window.specs.Queries.{same_id};
ghost use Rattle.serf_window.specs.Texts.{same_texts};
ghost use Rattle.serf_agent.specs.Keeping.{KeepingLaws};
ghost use Rattle.serf_agent.specs.Kept.{HandsOutNew, RemembersJoins, TakesNewQueries};
ghost use Rattle.serf_agent.specs.KeptLines.{CompactionLaws};
ghost use Rattle.serf_agent.specs.KeptLaws.{KeptRestartLaws};
ghost use Rattle.serf_agent.specs.KeptSteps.{KeptAppendLineLaws};
ghost use Rattle.serf_agent.specs.KeptTexts.{KeptEventLaws, KeptQueryLaws};
ghost use Rattle.serf_agent.specs.Laws.{AdmitsNew, ShortPackets, StaysSound};
ghost use Rattle.serf_agent.specs.Said.{SaidLaws};
ghost use Rattle.serf_agent.specs.Snapshots.{SnapshotLaws};
ghost use Rattle.serf_agent.specs.Unkept.{UnkeptLaws};
ghost use Rattle.serf_agent.specs.KeptLives.{BeginsDurable, DiskSuffices, DurableHasKept, KeepsAfter, StaysDurable};
ghost use Rattle.serf_agent.specs.Taking.{TakingLaws};
ghost use Rattle.serf_agent.specs.TrackOf.{event_track, query_track};
ghost use Rattle.serf_agent.specs.Lives.{AsksLater, DurableHasFlushed, FiresLater, HandsOutOnce, HandsOutQueriesOnce};
ghost use Rattle.serf_agent.specs.Once.{AsksAfter, BeginsOnce, BeginsSound, FiresAfter, OpensAfter, StaysOnce, StepsSound};
ghost use Rattle.serf_agent.specs.Unseen.{AsksLaterUnseen, FiresLaterUnseen, HandsOutNewUnseen, HandsOutOnceUnseen, HandsOutQueriesOnceUnseen, OpensUnseen, RemembersJoinsUnseen, TakesNewQueriesUnseen, UnseenLaws};

use serf_snapshot::{
    event_line_laws, kept_append_line_laws, min_time_laws, query_line_laws, read_laws, said_laws,
    said_query_laws, snapshot_laws, text_laws,
};
use serf_window::{recall_laws, slot_laws};
use serf_wire::decoded_ranges;

/// The last lines that a snapshot records are those that its sink holds. This function does nothing.
#[inline(always)]
pub(crate) fn sound_snapshots()
    ensures { SnapshotLaws }
{
    snapshot_laws();
    kept_append_line_laws();
}

/// The promises about one agent over its own disk, in all its lives. They hold for every sequence of calls, whatever
/// the sink does with each line, and with restarts in between. Each restart opens the agent on a text that begins with
/// everything that was flushed; any bytes may follow. This function does nothing.
///
/// No event and no query is handed out twice. Each event or query that the agent fires is later than everything of its
/// kind that was handed out before. The promises are about the ideal agent, whose history continues through its
/// restarts. On any text, [`Agent::open`](crate::Agent::open) begins with an ideal agent (clause `first`), and each
/// other call follows it (clauses `step` and `merged`).
pub fn life_promises()
    ensures once { HandsOutOnce }
    ensures queries_once { HandsOutQueriesOnce }
    ensures later { FiresLater }
    ensures queries_later { AsksLater }
    ensures flushed { DurableHasFlushed }
{
    text_laws();
    decoded_ranges();
    sound_snapshots();
    kept_restart_laws();
}

/// A sound agent stays sound after each change, and never admits an event or a query a second time. This function does
/// nothing.
pub fn sound_steps()
    ensures sound { StaysSound }
    ensures admits { AdmitsNew }
{
    sound_snapshots();
    kept_restart_laws();
}

/// No byte string in a packet that an agent sends is too long for its header. This function does nothing.
pub fn short_packets()
    ensures { ShortPackets }
{}

/// Laws of tracks that are kept over a restart. If the text has everything that was entered, the track is sound after
/// the opening and still has all of it. This function does nothing.
pub fn keeping_laws()
    ensures events { KeepingLaws EventBody same_texts }
    ensures queries { KeepingLaws ℕ same_id }
{
    recall_laws();
}

/// Laws about the entries that were handed out and that a text keeps. A tail after the text removes none of them. Each
/// entry is kept by its own line, or by a clock line of an agent that keeps no events. An opening restores everything
/// that its window needs. This function does nothing.
pub fn kept_text_laws()
    ensures events { KeptEventLaws }
    ensures queries { KeptQueryLaws }
{
    min_time_laws();
    event_line_laws();
    query_line_laws();
}

/// If an agent that keeps its events is opened again on a text that has everything that was entered, the agent is
/// sound. It has entered everything that the text keeps, and the durable text still has everything that was entered.
/// This function does nothing.
pub fn kept_restart_laws()
    ensures { KeptRestartLaws }
{
    keeping_laws();
    kept_text_laws();
    text_laws();
    min_time_laws();
    event_line_laws();
    query_line_laws();
    sound_snapshots();
}

/// After an agent that keeps its events appends a line, the durable text has everything that was entered, even if the
/// append fails. This function does nothing.
pub fn kept_step_laws()
    ensures { KeptAppendLineLaws }
{
    kept_text_laws();
    kept_append_line_laws();
}

/// If a compaction keeps the entries in the buffers, its text has everything that was entered. The lines that it keeps
/// contain no clock line. This function does nothing.
pub fn kept_compaction_laws()
    ensures { CompactionLaws }
{
    slot_laws();
    kept_text_laws();
    min_time_laws();
    kept_append_line_laws();
}

/// Even if an agent keeps no events, its durable text has everything that was entered, by its clock lines. A later life
/// can therefore keep events. This function does nothing.
pub fn unkept_laws()
    ensures { UnkeptLaws }
{
    kept_text_laws();
    min_time_laws();
    event_line_laws();
    query_line_laws();
    text_laws();
}

/// The durable text has everything that was entered in all lives of one agent. Each life may have different settings,
/// with `keep_events` or without it, in any order. A new life may therefore open on any text that begins with the
/// durable text, whatever bytes follow. This function does nothing.
///
/// This requires that every event or query that an act delivers can be written in a line: names and payloads have to be
/// bytes, and query IDs have to be below 2^32.
///
/// If the settings stay the same and keep events, nothing is missed. Suppose that an event is offered while the agent
/// isn't stopped, and that it is new and within the window. Then it is handed out if the sink keeps its line. The only
/// exception is a full time: as many events with this time as the settings allow, or more than that many events with a
/// later time, were handed out or were in a text. The same holds for queries (clause `queries_taken`): a new query
/// enters, and is handed out if its filters let the node pass.
///
/// After a join that ignores old events, no event below the join's minimum time is handed out, neither in this life nor
/// in any later life that keeps events.
///
/// The clauses `taking` and `queries_taking` state, call by call, the invariant by which nothing is missed. The clause
/// `queries_said` states which queries the text keeps. These clauses are for proofs in the crates above, whose runs
/// consist of more than the lives of one agent.
pub fn kept_life_promises()
    ensures begins { BeginsDurable }
    ensures stays { StaysDurable }
    ensures following { KeepsAfter }
    ensures kept { DurableHasKept }
    ensures suffices { DiskSuffices }
    ensures handed_out { HandsOutNew }
    ensures queries_taken { TakesNewQueries }
    ensures remembered { RemembersJoins }
    ensures taking { TakingLaws event_track }
    ensures queries_taking { TakingLaws query_track }
    ensures queries_said { SaidLaws }
{
    text_laws();
    decoded_ranges();
    sound_snapshots();
    recall_laws();
    slot_laws();
    read_laws();
    min_time_laws();
    kept_append_line_laws();
    query_line_laws();
    said_laws();
    said_query_laws();
    keeping_laws();
    kept_text_laws();
    kept_restart_laws();
    kept_step_laws();
    kept_compaction_laws();
    unkept_laws();
}

/// An agent does the same whether or not its sink exposes its bytes. Over a sink that exposes nothing, such as a file,
/// it hands out the same events and queries. Everything that may happen over a sink of this kind may also happen over a
/// sink that exposes its bytes. This function does nothing.
pub fn unseen_laws()
    ensures { UnseenLaws }
{}

/// The promises about one agent over a sink that exposes none of its bytes, such as a file, with the setting
/// `keep_events` or without it. This function does nothing.
///
/// Each life opens on a text that begins with everything that was flushed; any bytes may follow. Then no event and no
/// query is handed out twice, and each event or query that the agent fires is later than everything of its kind that
/// was handed out before. If the settings stay the same and keep events, a new event is handed out, a new query enters,
/// and the minimum time that a join set is remembered, as [`kept_life_promises`] states.
///
/// The clause `opens` states that [`Agent::open`](crate::Agent::open) accepts a text of this kind for the agent of each
/// of these lives (clause `restarted`). So each call continues to follow the ideal agent, which forgets nothing.
pub fn unseen_promises()
    ensures once { HandsOutOnceUnseen }
    ensures queries_once { HandsOutQueriesOnceUnseen }
    ensures later { FiresLaterUnseen }
    ensures queries_later { AsksLaterUnseen }
    ensures handed_out { HandsOutNewUnseen }
    ensures queries_taken { TakesNewQueriesUnseen }
    ensures remembered { RemembersJoinsUnseen }
    ensures opens { OpensUnseen }
    ensures opens_after { OpensAfter }
{
    text_laws();
    decoded_ranges();
    sound_snapshots();
    recall_laws();
    slot_laws();
    read_laws();
    min_time_laws();
    kept_append_line_laws();
    keeping_laws();
    kept_text_laws();
    kept_restart_laws();
    kept_step_laws();
    kept_compaction_laws();
    unkept_laws();
    kept_life_promises();
}

/// Laws of each step: no entry is handed out twice, and a sound agent stays sound. This function does nothing.
///
/// An entry that isn't in the agent's history wasn't handed out either. An entry that is later than the whole history
/// is later than everything that was handed out. Both stay true if the list of what was handed out leaves out some of
/// the history. Each event or query that is fired is later than everything of its kind that was handed out before.
/// These laws are for proofs in the crates above.
pub fn once_steps()
    ensures stays { StaysOnce }
    ensures begins { BeginsOnce }
    ensures fires { FiresAfter }
    ensures asks { AsksAfter }
    ensures sound { StepsSound }
    ensures begins_sound { BeginsSound }
{
    text_laws();
    decoded_ranges();
    sound_snapshots();
    kept_restart_laws();
}
