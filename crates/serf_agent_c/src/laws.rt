//! Laws about the exports on which a host in C can rely, whatever it calls and whenever it is killed.

ghost use Rattle.serf_agent_c.specs.HostLaws.{CodesDiffer, GivesExactly, HostSteps};
ghost use Rattle.serf_agent_c.specs.HostPackets.{SendsEvents, SendsEventsInBursts, SendsQueries, SendsQueriesInBursts};
ghost use Rattle.serf_agent_c.specs.Hosts.{GivesLater, GivesLaterInBursts, GivesNew, GivesOnce, GivesQueriesLater, GivesQueriesLaterInBursts, GivesQueriesOnce, TakesNewQueries};

use serf_agent::{kept_life_promises, once_steps, short_packets, unseen_promises};
use serf_snapshot::{min_time_laws, other_lines_laws, read_laws, text_laws};
use serf_wire::{canonical_packets, decoded_ranges, decoded_texts, exact_decoding};

/// States what each export does to the ideal agent that a session follows, and to its host's file. This function does
/// nothing.
///
/// `codes` states that all clauses of one call are about the same code.
pub fn host_steps()
    ensures steps { HostSteps }
    ensures codes { CodesDiffer }
{}

/// States the promises to a host in C over one file, in all its lives. This function does nothing.
///
/// A host makes calls, confirms with `serf_agent_flushed` which bytes its file has, and may be killed at any point.
/// Each session opens on a text that begins with everything that the host confirmed, or with the text of a compaction
/// that was under way; any bytes may follow. Between these bytes, the host may have written other whole lines, which
/// contain no clocks, minimum times, events or queries. Then the getters return no event and no query twice in all
/// lives. Each event or query that is fired, in a burst or outside one, has a later time than everything of its kind
/// that was returned before. The session always follows an agent that forgets nothing, so each call returns the same
/// result as this agent.
///
/// If the settings stay the same and keep events, nothing new is missed that arrives in a packet, in a burst or in a
/// merged state: the getters return each new event (`kept`), and the agent accepts each new query (`queries_kept`).
pub fn host_promises()
    ensures once { GivesOnce }
    ensures queries_once { GivesQueriesOnce }
    ensures later { GivesLater }
    ensures queries_later { GivesQueriesLater }
    ensures later_in_bursts { GivesLaterInBursts }
    ensures queries_later_in_bursts { GivesQueriesLaterInBursts }
    ensures exactly { GivesExactly }
    ensures kept { GivesNew }
    ensures queries_kept { TakesNewQueries }
{
    // The clauses follow from laws about the steps of a life, the promises of lives that keep events, lives over any
    // sink, and how the clocks and the minimum times of a text grow. Other laws state that other lines change neither
    // these nor what is read, and that everything that is read from a text can be written again. The last laws are
    // about the texts and the ranges in the results of `decode`.
    once_steps();
    kept_life_promises();
    unseen_promises();
    text_laws();
    min_time_laws();
    other_lines_laws();
    read_laws();
    decoded_texts();
    decoded_ranges();
}

/// States what a host in C sends for what it fires, in all its lives. This function does nothing.
///
/// A call that fires an event, in a burst or outside one, returns a packet that spells exactly this event: its name,
/// its payload, its flag, and the time that the getters return (`events`, `events_in_bursts`). The packet of a query
/// spells exactly this query, with its ID, its parameters and the name of the node (`queries`, `queries_in_bursts`). So
/// if the host sends the packet, the other agents receive what was fired.
pub fn host_packets()
    ensures events { SendsEvents }
    ensures events_in_bursts { SendsEventsInBursts }
    ensures queries { SendsQueries }
    ensures queries_in_bursts { SendsQueriesInBursts }
{
    // A host's session always follows an agent (`exactly`), and each export returns this agent's answer (`steps`). The
    // agent's answer has the canonical packet, which is short and is decoded to the message that it spells.
    host_promises();
    host_steps();
    short_packets();
    canonical_packets();
    exact_decoding();
}
