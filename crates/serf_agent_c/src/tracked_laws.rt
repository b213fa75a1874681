//! Laws for a host in C that also tracks its handlers, whatever it does and whenever it is killed. Their clauses are
//! about the exports and about the host's own lines.

ghost use Rattle.serf_agent_c.specs.TrackedPromises.{BeginsOnce, GivesHanded, HandsOutNew, NoSilence, OpenBounded};

use serf_agent::{kept_life_promises, once_steps, unseen_promises};
use serf_snapshot::{
    file_step_laws, handler_laws, min_time_laws, other_line_laws, other_lines_laws, text_laws,
    untracked_laws,
};
use serf_wire::{decoded_ranges, decoded_texts};

/// States the promises to a host in C that tracks its handlers, over one file and in all its lives. This function does
/// nothing.
///
/// This host does everything that any host does (`host_promises`), with settings that keep events. While none of the
/// agent's text is pending, it also writes its own lines: the handler of an event has begun, an event is done, or all
/// events up to a time are done. It may write other lines as well, for example about members. After a compaction, it
/// replaces its file in one step with the agent's new text, a line `#done TIME`, and the lines of its open events. It
/// may be killed at any point, and any tail may follow the bytes that it flushed.
///
/// Then the file lists exactly the events that were handed out and aren't done, in order, and whether the handler of
/// each has begun (`silence`). Every event that the getters may have returned was handed out by a call (`given`). No
/// call hands out an event that the getters may have returned before, in any life (`new`). If the host begins only
/// events that its file lists as open and not begun, it begins each event at most once in all its lives, unless a tail
/// hands out an event again whose handler has begun (`begins_once`). Suppose that the host makes no call that hands out
/// events while a limit of open events is reached. Then its file never has more open events than this limit plus the
/// events that one call hands out (`bounded`).
pub fn tracked_host_promises()
    ensures silence { NoSilence }
    ensures given { GivesHanded }
    ensures new { HandsOutNew }
    ensures begins_once { BeginsOnce }
    ensures bounded { OpenBounded }
{
    // The clauses follow from laws about the steps of a life, the promises of lives that keep events, lives over any
    // sink, and how the clocks and the minimum times of a text grow. Other laws state which lines are other lines and
    // that these change nothing that is read, and what lines record about handlers. The last laws are about the texts
    // and the ranges in the results of `decode`.
    once_steps();
    kept_life_promises();
    unseen_promises();
    text_laws();
    min_time_laws();
    other_lines_laws();
    other_line_laws();
    untracked_laws();
    file_step_laws();
    handler_laws();
    decoded_texts();
    decoded_ranges();
}
