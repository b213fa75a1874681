//! Makes a line with a verdict for each event that a state carries, before the state is merged.

ghost use Rattle.std.specs.Prelude.{◌≡◌, ◌++◌, ◌∷◌, [], true, OnOk};
ghost use Rattle.serf_wire.specs.Lists.{event_of_view, events_left, slot_of_view, slots_left};
ghost use Rattle.serf_wire.specs.Message.{PushPull};
ghost use Rattle.serf_window.specs.Texts.{event_of};
ghost use Rattle.serf_agent.specs.Events.{admission};
ghost use Rattle.serf_agent.specs.Ideal.{IdealAgent};
ghost use Rattle.serf_agent.specs.States.{after_event, at_time, events_of_slot};
ghost use Rattle.serf_explain.specs.Carried.{Known, carried_words, heard, slot_entries, slot_entries_from, slot_words, verdict_words};
ghost use Rattle.serf_explain.specs.Judging.{AddsJudged, AddsLines, AddsState, HasJudged, IsHandedIn, IsJudging, IsMerging, judge_takes, judged_detail, judged_line, near_after, seen_after, seen_front};
ghost use Rattle.serf_explain.specs.Deliveries.{records_in, stands_at};
ghost use Rattle.serf_explain.specs.Recorded.{event_as};
ghost use Rattle.serf_text.specs.Quoted.{stands};

use crate::deliveries::Event;
use crate::left::{Takes, write_ignored_detail};
use crate::merge_line::Merging;
use crate::quoted::{say, write_because, write_event, write_unescaped_event};
use crate::seen::write_handed;
use crate::verdict_reason::Judge;
use serf_agent::{Agent, Reason};
use serf_lamport::Time;
use serf_snapshot::MemorySink;
use serf_text::{stands, write_number};
use serf_wire::{EventView, EventViews, SlotView, SlotViews};
use std::alloc::{AllocError, Global};

/// The index of the delivery that was named most recently, and the index at which the search for the next delivery
/// begins.
#[derive(Clone, Copy)]
pub(crate) struct Cursor {
    named: usize,
    next: usize,
}

/// The lines about the events in a merge, and the buffers in which each line is put together.
#[derive(Drop)]
pub(crate) struct MergeLines {
    pub(crate) text: Vec<u8>,
    /// The new minimum for events if the merge raises the minimum, and `None` otherwise.
    pub(crate) raised: Option<u64>,
    /// A buffer for the words that describe an event: its time, its name and its payload.
    words: Vec<u8>,
    /// A buffer for the detail that follows the first words of a verdict.
    detail: Vec<u8>,
    /// A buffer for a whole reason.
    reason: Vec<u8>,
    cursor: Cursor,
}

impl MergeLines {
    /// Creates a value whose lines and buffers are all empty. Allocates no memory.
    pub(crate) fn new(alloc: Global) -> MergeLines {
        MergeLines {
            text: Vec::new(alloc),
            raised: None,
            words: Vec::new(alloc),
            detail: Vec::new(alloc),
            reason: Vec::new(alloc),
            cursor: Cursor { named: 0, next: 0 },
        }
    }
}

/// Returns the first words for `verdict`, which is either the reason why an event is ignored, or `None` for a new
/// event.
fn verdict_word(verdict: Option<Reason>) -> &'static [u8]
    ensures { result.now ≡ verdict_words verdict }
{
    match verdict {
        None => b"new, and handed out",
        Some(Reason::Oversize) => b"too large: ",
        Some(Reason::BelowMinimum) => b"below the minimum time ",
        Some(Reason::TooOld) => b"too old: ",
        Some(Reason::Seen) => b"seen: ",
        Some(Reason::TimeFull) => b"too many of its time: ",
        _ => b"left: ",
    }
}

/// Appends the words that precede an event in slot number `slot` of a state.
#[tactic(auto, unfolding(crate::specs::Carried::slot_words))]
fn write_slot_words(out: &mut Vec<u8>, slot: u64) -> Result<(), AllocError>
    ensures { OnOk result (out.new.items ≡ out.old.items ++ slot_words slot) }
{
    say(out, b"slot ", slot)?;
    out.extend_from_slice(b" carries ")
}

/// Appends the reason for `event`, which is in slot number `slot`: the first words for `verdict`, followed by `detail`.
#[tactic(auto, unfolding(crate::specs::Carried::carried_words))]
fn write_carried(
    out: &mut Vec<u8>,
    slot: u64,
    event: &Event,
    verdict: Option<Reason>,
    detail: &[u8],
) -> Result<(), AllocError>
    ensures { OnOk result (out.new.items ≡ out.old.items
        ++ carried_words slot event.now.time
        (event_of event.now.name.now event.now.payload.now) verdict detail.now) }
{
    write_slot_words(out, slot)?;
    write_event(out, event.time, event.name, event.payload)?;
    out.extend_from_slice(b": ")?;
    out.extend_from_slice(verdict_word(verdict))?;
    out.extend_from_slice(detail)
}

/// Returns the limits for events that apply to the agent at this point of the merge, according to `judge`.
fn takes_of(merging: &Merging, judge: &Judge) -> Takes
    ensures { result ≡ judge_takes merging.now judge.now }
{
    let config = merging.agent.config();
    Takes {
        lowest: merging.lowest.following(judge.minimum, merging.number),
        clock: judge.clock,
        slots: config.event_buffer,
        per_time: config.per_time,
    }
}

/// Returns the number of the action that handed `event` to the agent. The agent has already seen the event, and the
/// action is either an earlier one or the merge itself. If no action handed the event out, because the agent was opened
/// on a text that contains the event's line, the function returns `None`.
fn handed_at(merging: &Merging, judge: &Judge, cursor: &mut Cursor, event: &Event) -> Option<u64>
    ensures handed { (i j : IdealAgent) → IsJudging i (after_event j (event_as event.now)) judge.now
        → admission j event.now.time (event_as event.now).key ≡ Some Reason.Seen
        → IsHandedIn i j merging.now (event_as event.now) result }
    // If the delivery is at the index at which the search begins, the function finds the delivery there, and begins the
    // next search after this index.
    ensures cursor { stands_at
        (records_in merging.now.history.now.deliveries.outs.items) cursor.old.next
        merging.now.agent_number event.now.time (event_as event.now).key ≡ true
        → cursor.new ≡ near_after cursor.old cursor.old.next }
{
    let outs = &merging.history.deliveries;
    match outs.found_near(cursor.next, merging.agent_number, event) {
        Some(found) => {
            let step = found.place.saturating_sub(cursor.named);
            *cursor = Cursor {
                named: found.place,
                next: found.place.saturating_add(step),
            };
            Some(found.action)
        }
        None => {
            if judge.took(event) {
                Some(merging.number)
            } else {
                None
            }
        }
    }
}

/// Appends the detail that follows the first words of `verdict`, the verdict on `event`. `handed` is the number of the
/// action that handed out the event, or `None` if no action did.
fn write_detail(
    out: &mut Vec<u8>,
    merging: &Merging,
    judge: &Judge,
    event: &Event,
    verdict: Option<Reason>,
    handed: Option<u64>,
) -> Result<(), AllocError>
    ensures { OnOk result (out.new.items ≡ out.old.items
        ++ judged_detail merging.now judge.now handed event.now.time
        (event_of event.now.name.now event.now.payload.now) verdict) }
{
    match verdict {
        Some(reason) => match reason {
            Reason::Seen => {
                write_handed(out, merging.agent.config().name.as_slice(), event, handed)
            }
            _ => {
                let takes = takes_of(merging, judge);
                write_ignored_detail(out, &takes, b"event", event.time, event.bytes(), reason)
            }
        },
        None => Ok(()),
    }
}

/// Adds the line for `event`, with the `verdict` on the event. If the agent has seen the event, `handed` is the number
/// of the action that handed out the event, or `None` if no action did.
fn add_carried(
    merging: &Merging,
    judge: &Judge,
    lines: &mut MergeLines,
    slot: u64,
    event: &Event,
    verdict: Option<Reason>,
    handed: Option<u64>,
) -> Result<(), AllocError>
    ensures { OnOk result (lines.new.text.items ≡ lines.old.text.items
        ++ judged_line merging.now judge.now handed slot event.now.time
        (event_of event.now.name.now event.now.payload.now) verdict) }
{
    lines.detail.clear();
    write_detail(&mut lines.detail, merging, judge, event, verdict, handed)?;
    lines.reason.clear();
    write_carried(&mut lines.reason, slot, event, verdict, &lines.detail)?;
    write_because(&mut lines.text, merging.number, &lines.reason)
}

/// Appends the first part of the line for an event that the agent has seen. The first part consists of the line's
/// beginning (`front`), the event's slot, and the words that describe the event (`words`).
#[tactic(auto, unfolding(crate::specs::Judging::seen_front))]
fn write_seen_front(
    out: &mut Vec<u8>,
    front: &[u8],
    slot: u64,
    words: &[u8],
) -> Result<(), AllocError>
    ensures { OnOk result
        (out.new.items ≡ out.old.items ++ seen_front front.now slot words.now) }
{
    out.extend_from_slice(front)?;
    write_number(out, slot)?;
    out.extend_from_slice(b" carries ")?;
    out.extend_from_slice(words)
}

/// Appends the rest of the line for an event that the agent has seen. The rest states that action number `action`
/// handed the event to the agent. The argument `words` describes the event.
#[tactic(auto, unfolding(crate::specs::Judging::seen_after))]
fn write_seen_after(
    out: &mut Vec<u8>,
    named: &[u8],
    words: &[u8],
    action: u64,
) -> Result<(), AllocError>
    ensures { OnOk result
        (out.new.items ≡ out.old.items ++ seen_after named.now words.now action) }
{
    out.extend_from_slice(b": seen: ")?;
    out.extend_from_slice(named)?;
    out.extend_from_slice(words)?;
    say(out, b" at action ", action)?;
    out.extend_from_slice(b"\n")
}

/// Adds the line for an event that the agent has seen. The function requires that the event's name and payload, and the
/// agent's name, are shown unchanged. The function inspects each byte only once.
fn add_unescaped(
    merging: &Merging,
    lines: &mut MergeLines,
    slot: u64,
    event: &Event,
    action: u64,
) -> Result<(), AllocError>
    requires agent { merging.now.is_plain ≡ true }
    requires name { stands event.now.name.now ≡ true }
    requires payload { stands event.now.payload.now ≡ true }
    ensures { (judge : Judge) → OnOk result (lines.new.text.items ≡ lines.old.text.items
        ++ judged_line merging.now judge (Some action) slot event.now.time
        (event_of event.now.name.now event.now.payload.now) (Some Reason.Seen)) }
{
    lines.words.clear();
    write_unescaped_event(&mut lines.words, event.time, event.name, event.payload)?;
    let front = merging.front.as_slice();
    let named = merging.named.as_slice();
    let words = lines.words.as_slice();
    write_seen_front(&mut lines.text, front, slot, words)?;
    write_seen_after(&mut lines.text, named, words, action)
}

/// Adds the line for `event`, which the agent has seen. `handed` is the number of the action that handed out the event,
/// or `None` if no action did.
fn add_seen(
    merging: &Merging,
    judge: &Judge,
    lines: &mut MergeLines,
    slot: u64,
    event: &Event,
    handed: Option<u64>,
) -> Result<(), AllocError>
    ensures { OnOk result (lines.new.text.items ≡ lines.old.text.items
        ++ judged_line merging.now judge.now handed slot event.now.time
        (event_of event.now.name.now event.now.payload.now) (Some Reason.Seen)) }
{
    match handed {
        Some(action) if merging.is_plain && stands(event.name) && stands(event.payload) => {
            add_unescaped(merging, lines, slot, event, action)
        }
        _ => add_carried(
            merging,
            judge,
            lines,
            slot,
            event,
            Some(Reason::Seen),
            handed,
        ),
    }
}

/// Adds the line for `event`, which is in slot number `slot`. `verdict` is the reason why the event is ignored, or
/// `None` for a new event.
fn add_line(
    merging: &Merging,
    judge: &Judge,
    lines: &mut MergeLines,
    slot: u64,
    event: &Event,
    verdict: Option<Reason>,
) -> Result<(), AllocError>
    ensures { (i j : IdealAgent) → IsJudging i (after_event j (event_as event.now)) judge.now
        → verdict ≡ admission j event.now.time (event_as event.now).key
        → OnOk result (AddsJudged merging.now judge.now i j slot (event_as event.now) verdict
        lines.old.text.items lines.new.text.items) }
{
    match verdict {
        Some(reason) => match reason {
            Reason::Seen => {
                let handed = handed_at(merging, judge, &mut lines.cursor, event);
                add_seen(merging, judge, lines, slot, event, handed)
            }
            _ => add_carried(merging, judge, lines, slot, event, Some(reason), None),
        },
        None => add_carried(merging, judge, lines, slot, event, None, None),
    }
}

/// Judges `event`, the next event in the state, and adds the line for this event. The event is in slot number `slot`,
/// and its time is `time`.
fn add_event(
    alloc: Global,
    merging: &Merging,
    judge: &mut Judge,
    lines: &mut MergeLines,
    slot: u64,
    time: Time,
    event: &EventView,
) -> Result<(), AllocError>
    ensures lines { (k : Known) (i j : IdealAgent) → IsMerging k i merging.now
        → IsJudging i j judge.old
        → OnOk result (AddsLines k merging.now.number
        (slot_entries slot (record { time = time; key = event_of_view event.now } ∷ [])) j
        lines.old.text.items lines.new.text.items) }
    ensures judging { (k : Known) (i j : IdealAgent) → IsMerging k i merging.now
        → IsJudging i j judge.old
        → OnOk result (IsJudging i
        (after_event j (record { time = time; key = event_of_view event.now })) judge.new) }
{
    let verdict = judge.judge(alloc, merging.agent, time, event)?;
    let lying = Event {
        time: time.get(),
        name: event.name,
        payload: event.payload,
    };
    add_line(merging, judge, lines, slot, &lying, verdict)
}

/// Adds a line for each event in `events`, all of which are in slot number `slot` and have the time `time`.
fn add_events(
    alloc: Global,
    merging: &Merging,
    judge: &mut Judge,
    lines: &mut MergeLines,
    slot: u64,
    time: Time,
    events: EventViews,
) -> Result<(), AllocError>
    ensures { (k : Known) (i j : IdealAgent) → IsMerging k i merging.now
        → IsJudging i j judge.old
        → OnOk result (HasJudged k merging.now.number i j
        (slot_entries slot (at_time time (events_left events.entry))) []
        lines.old.text.items lines.new.text.items judge.new) }
{
    for event in events {
        add_event(alloc, merging, judge, lines, slot, time, &event)?;
    }
    Ok(())
}

/// Adds a line for each event in `content`, the content of slot number `slot`.
fn add_slot(
    alloc: Global,
    merging: &Merging,
    judge: &mut Judge,
    lines: &mut MergeLines,
    slot: u64,
    content: &SlotView,
) -> Result<(), AllocError>
    ensures { (k : Known) (i j : IdealAgent) → IsMerging k i merging.now
        → IsJudging i j judge.old
        → OnOk result (HasJudged k merging.now.number i j
        (slot_entries slot (events_of_slot (slot_of_view content.now))) []
        lines.old.text.items lines.new.text.items judge.new) }
{
    match *content {
        SlotView::Held(time, events) => {
            add_events(alloc, merging, judge, lines, slot, time, events)
        }
        SlotView::Single(time, event) => {
            add_event(alloc, merging, judge, lines, slot, time, &event)?;
            Ok(())
        }
        SlotView::Empty => Ok(()),
    }
}

/// Adds a line for each event in `slots`. The slots are numbered from 0.
fn add_slots(
    alloc: Global,
    merging: &Merging,
    judge: &mut Judge,
    lines: &mut MergeLines,
    slots: SlotViews,
) -> Result<(), AllocError>
    ensures { (k : Known) (i j : IdealAgent) → IsMerging k i merging.now
        → IsJudging i j judge.old
        → OnOk result (HasJudged k merging.now.number i j
        (slot_entries_from 0 (slots_left slots.entry)) []
        lines.old.text.items lines.new.text.items judge.new) }
{
    let mut slot: u64 = 0;
    for content in slots {
        add_slot(alloc, merging, judge, lines, slot, &content)?;
        slot = slot.saturating_add(1);
    }
    Ok(())
}

/// For each event that a state carries, in the order of the state, adds a line with the verdict that the event gets if
/// the disk works. The function also finds out whether the merge raises the minimum for events.
#[tactic(auto, using(crate::proofs::CarriedLaws::adds_state))]
pub(crate) fn add_carried_lines(
    alloc: Global,
    merging: &Merging,
    event_clock: u64,
    slots: SlotViews,
    is_join: bool,
    lines: &mut MergeLines,
) -> Result<(), AllocError>
    ensures { (k : Known) (i : IdealAgent) (m : PushPull)
        → IsMerging k i merging.now → m.event_clock ≡ event_clock
        → m.slots ≡ slots_left slots.entry
        → OnOk result (AddsState k merging.now.number (slot_entries_from 0 m.slots)
        i (heard m is_join i) lines.new.raised lines.old.text.items lines.new.text.items) }
{
    let mut judge = Judge::new(alloc, merging.agent, event_clock, is_join)?;
    add_slots(alloc, merging, &mut judge, lines, slots)?;
    lines.raised = judge.raised(merging.agent);
    Ok(())
}
