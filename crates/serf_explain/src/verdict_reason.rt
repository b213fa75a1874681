//! Finds the verdict on each event in a merge before the merge is carried out.

ghost use Rattle.std.specs.Prelude.{◌≡◌, ◌<◌, ◌≤◌, ◌-◌, ◌++◌, ◌∷◌, ◌&&◌, [], List, length, nat_le, map, if◌then◌else◌, IfOk, OnOk, None, Some};
ghost use Rattle.serf_lamport.specs.Clock.{observed};
ghost use Rattle.serf_wire.specs.declared.texts.EventBody.{EventBody};
ghost use Rattle.serf_wire.specs.Buffers.{slots_borrowed};
ghost use Rattle.serf_wire.specs.Lists.{event_of_view};
ghost use Rattle.serf_wire.specs.Message.{PushPull};
ghost use Rattle.serf_window.specs.Slots.{slot_view};
ghost use Rattle.serf_window.specs.Window.{TimedEntry, count_in, slots_of, time_in};
ghost use Rattle.serf_agent.specs.Events.{admission};
ghost use Rattle.serf_agent.specs.Ideal.{IdealAgent};
ghost use Rattle.serf_agent.specs.Sound.{IsSound};
ghost use Rattle.serf_agent.specs.States.{after_event};
ghost use Rattle.serf_agent.specs.View.{view_of};
ghost use Rattle.serf_explain.specs.Carried.{entered_since, heard, raised_min};
ghost use Rattle.serf_explain.specs.Judging.{IsJudging, both_verdicts, is_seen};
ghost use Rattle.serf_explain.specs.Recorded.{event_as};

use crate::deliveries::Event;
use serf_agent::{Agent, MAX_TEXT_BYTES, Reason};
use serf_lamport::Time;
use serf_snapshot::MemorySink;
use serf_window::{EventWindow, Verdict, Window, slot_laws};
use serf_wire::{BorrowedEventSlots, BorrowedSlot, EventView};
use std::alloc::{AllocError, Global};

/// The judge of a merge, which knows the agent's event clock, the agent's minimum for events, and the events that the
/// agent has accepted in the merge so far.
#[derive(Drop)]
pub(crate) struct Judge {
    pub(crate) clock: u64,
    pub(crate) minimum: u64,
    entered: EventWindow,
}

/// Returns the number of events with the time `time` that the slots of a buffer contain.
fn count_of(slots: BorrowedEventSlots, time: u64) -> usize
    ensures { result ≡ count_in (map slot_view (slots_borrowed slots.entry)) time }
{
    if slots.len() == 0 {
        return 0;
    }
    let place = time % slots.len() as u64;
    match slots.get(place as usize) {
        Some(slot) => {
            if slot.time.get() == time {
                slot.held.len()
            } else {
                0
            }
        }
        None => 0,
    }
}

/// Returns the minimum that a merged state requires. In a join that ignores old events, the minimum is `clock`, the
/// event clock of the state. In any other merge, the minimum is 0.
fn lowest(is_join: bool, ignore_old: bool, clock: u64) -> u64
    ensures { result ≡ if is_join && ignore_old then clock else 0 }
{
    if is_join && ignore_old { clock } else { 0 }
}

/// Converts `time` to a valid time. The conversion succeeds if `time` is below `clock`, because 2^64 - 1 is the only
/// number that isn't a valid time.
fn time_below(time: u64, clock: u64) -> Option<Time>
    ensures { time < clock → result ≡ Some time }
{
    match Time::new(time) {
        Some(made) => Some(made),
        None => None,
    }
}

/// Returns whether `verdict` means that the agent has seen the event before.
fn is_seen(verdict: Verdict) -> bool
    ensures { result ≡ is_seen verdict }
{
    match verdict {
        Verdict::Seen => true,
        Verdict::BelowMinimum | Verdict::TooOld | Verdict::TimeFull | Verdict::New => false,
    }
}

impl Judge {
    /// Makes the judge of a merge into `agent`, as it is before the first event of the merge. `clock` is the event
    /// clock of the state that is merged.
    pub(crate) fn new(
        alloc: Global,
        agent: &Agent<MemorySink>,
        clock: u64,
        is_join: bool,
    ) -> Result<Judge, AllocError>
        ensures { (i : IdealAgent) (m : PushPull) → IsSound i → agent.now.concrete ≡ view_of i
            → m.event_clock ≡ clock → IfOk result (IsJudging i (heard m is_join i)) }
    {
        let config = agent.config();
        let Ok(entered) = Window::new(alloc, config.event_buffer, config.per_time) else {
            return Err(AllocError);
        };
        Ok(Judge {
            clock: agent.event_time().max(clock),
            minimum: agent
                .event_minimum()
                .max(lowest(is_join, config.ignore_old, clock)),
            entered,
        })
    }

    /// Returns the new minimum for events if the merge raises the minimum, and `None` otherwise. `agent` is the agent
    /// as it was before the merge.
    pub(crate) fn raised(&self, agent: &Agent<MemorySink>) -> Option<u64>
        ensures { (i j : IdealAgent) → agent.now.concrete ≡ view_of i → IsJudging i j self.now
            → result ≡ raised_min i j }
    {
        let before = agent.event_minimum();
        if before < self.minimum {
            Some(self.minimum)
        } else {
            None
        }
    }

    /// Returns whether the agent has accepted the maximum number of events with the time `time`. The maximum applies to
    /// the events from before the merge and the events in the merge together.
    fn is_full(&self, agent: &Agent<MemorySink>, time: u64) -> bool
        ensures { result ≡ nat_le
            (agent.now.concrete.config.per_time - count_in agent.now.concrete.events.slots time)
            (count_in self.now.entered.slots time) }
    {
        let before = count_of(agent.slots(), time) as u64;
        let left = agent.config().per_time.saturating_sub(before);
        left <= count_of(self.entered.slots(), time) as u64
    }

    /// Combines three facts into the verdict on an event with the time `time`. `before` is the verdict that results
    /// from comparing the event with the events that were accepted before the merge. `entered` is the verdict that
    /// results from comparing the event with the events that were accepted in the merge. The third fact is whether the
    /// agent has already accepted the maximum number of events with this time.
    fn both(
        &self,
        agent: &Agent<MemorySink>,
        time: u64,
        before: Option<Reason>,
        entered: Verdict,
    ) -> Option<Reason>
        ensures { result ≡ both_verdicts before entered (nat_le
            (agent.now.concrete.config.per_time - count_in agent.now.concrete.events.slots time)
            (count_in self.now.entered.slots time)) }
    {
        match entered {
            Verdict::BelowMinimum => Some(Reason::BelowMinimum),
            Verdict::TooOld => Some(Reason::TooOld),
            Verdict::Seen => Some(Reason::Seen),
            Verdict::TimeFull => match before {
                Some(Reason::Seen) => before,
                _ => Some(Reason::TimeFull),
            },
            Verdict::New => match before {
                None => {
                    if self.is_full(agent, time) {
                        Some(Reason::TimeFull)
                    } else {
                        None
                    }
                }
                Some(_) => before,
            },
        }
    }

    /// Returns the reason why the next event in the merge is ignored, or `None` if the event is new.
    fn reason(&self, agent: &Agent<MemorySink>, time: Time, event: &EventView) -> Option<Reason>
        ensures reason { (i j : IdealAgent) → IsSound i → agent.now.concrete ≡ view_of i
            → IsJudging i j self.now → result ≡ admission j time (event_of_view event.now) }
        ensures not_later { result ≡ None → time_in self.now.entered.slots time ≤ time }
        ensures not_full { result ≡ None
            → count_in self.now.entered.slots time < self.now.entered.per_time }
    {
        // The prover needs the laws about the slots of a window.
        slot_laws();
        let texts = event.name.len().saturating_add(event.payload.len());
        if texts > MAX_TEXT_BYTES {
            return Some(Reason::Oversize);
        }
        let before = agent.judge_event(time, event.name, event.payload);
        let clock = self.clock.max(time.get() + 1);
        let entered = self.entered.offer(clock, self.minimum, time, event);
        self.both(agent, time.get(), before, entered)
    }

    /// Judges the next event in the merge, and records the event as accepted if it is new.
    pub(crate) fn judge(
        &mut self,
        alloc: Global,
        agent: &Agent<MemorySink>,
        time: Time,
        event: &EventView,
    ) -> Result<Option<Reason>, AllocError>
        ensures { (i j : IdealAgent) → IsSound i → agent.now.concrete ≡ view_of i
            → IsJudging i j self.old
            → IfOk result (λ reason. (reason ≡ admission j time (event_of_view event.now))
            × IsJudging i (after_event j (record { time = time; key = event_of_view event.now }))
            self.new) }
    {
        // The prover needs the laws about the slots of a window.
        slot_laws();
        match self.reason(agent, time, event) {
            Some(reason) => {
                self.observe(time);
                Ok(Some(reason))
            }
            None => {
                self.accept(alloc, time, event)?;
                Ok(None)
            }
        }
    }

    /// Returns whether the agent accepted `event`, which it has seen, during the merge rather than before the merge.
    pub(crate) fn took(&self, event: &Event) -> bool
        ensures { (i j : IdealAgent) → IsJudging i (after_event j (event_as event.now)) self.now
            → admission j event.now.time (event_as event.now).key ≡ Some Reason.Seen
            → result ≡ entered_since (length i.events.history) j (event_as event.now) }
    {
        // The prover needs the laws about the slots of a window.
        slot_laws();
        match time_below(event.time, self.clock) {
            Some(time) => {
                let view = EventView {
                    name: event.name,
                    payload: event.payload,
                };
                is_seen(self.entered.offer(self.clock, self.minimum, time, &view))
            }
            None => false,
        }
    }

    /// Raises the clock above `time` unless the clock is already higher.
    fn observe(&mut self, time: Time)
        ensures clock { self.new.clock ≡ observed self.old.clock time }
        ensures minimum { self.new.minimum ≡ self.old.minimum }
        ensures entered { self.new.entered ≡ self.old.entered }
    {
        self.clock = self.clock.max(time.get() + 1);
    }

    /// Records a new event as accepted, and raises the clock above the event's time.
    fn accept(&mut self, alloc: Global, time: Time, event: &EventView) -> Result<(), AllocError>
        requires not_later { time_in self.old.entered.slots time ≤ time }
        requires not_full { count_in self.old.entered.slots time < self.old.entered.per_time }
        ensures clock { OnOk result (self.new.clock ≡ observed self.old.clock time) }
        ensures minimum { OnOk result (self.new.minimum ≡ self.old.minimum) }
        ensures per_time { OnOk result (self.new.entered.per_time ≡ self.old.entered.per_time) }
        ensures slots { OnOk result ((entries : List (TimedEntry EventBody))
            → self.old.entered.slots ≡ slots_of (length self.old.entered.slots) entries
            → self.new.entered.slots ≡ slots_of (length self.old.entered.slots) (entries
            ++ record { time = time; key = event_of_view event.now } ∷ [])) }
    {
        let entry = self.entered.prepare(alloc, time, event)?;
        self.entered.insert_new(entry);
        self.observe(time);
        Ok(())
    }
}
