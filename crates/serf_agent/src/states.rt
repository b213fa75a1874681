//! Sending and merging whole states in a push/pull, the member clock's line, and compaction.

ghost use Rattle.std.specs.Prelude.{◌≡◌, ◌≢◌, ◌<◌, ◌≤◌, ◌-◌, ◌⊎◌, false, List, [], ◌∷◌, ◌++◌, None, Some, map, Ok, Err, OnOk, OnErr, IfOk, IfSome, IsErrOf, IsOk, vec_len, vec_capacity};
ghost use Rattle.serf_lamport.specs.Clock.{max_clock};
ghost use Rattle.serf_wire.specs.declared.texts.EventBody.{EventBody};
ghost use Rattle.serf_wire.specs.Decoded.{decoded};
ghost use Rattle.serf_wire.specs.Lists.{event_of_view, events_left, slot_of_view, slots_left, status_of};
ghost use Rattle.serf_wire.specs.Message.{PushPull as State, message_of, push_pull, push_pull_said};
ghost use Rattle.serf_window.specs.Window.{TimedEntry};
ghost use Rattle.serf_snapshot.specs.Clocks.{clock_line};
ghost use Rattle.serf_snapshot.specs.declared.kind.ClockKind.TheVariants as kinds;
ghost use Rattle.serf_snapshot.specs.Device.{HasFailed, replace_called, replaced, unreplaced};
ghost use Rattle.serf_snapshot.specs.AppendsLine.{Kept};
ghost use Rattle.serf_agent.specs.Calls.{AsksSink};
ghost use Rattle.serf_agent.specs.declared.outcome.MergeError.{MergeError as DeclaredError};
ghost use Rattle.serf_snapshot.specs.Ends.{FailsLine, FailsText};
ghost use Rattle.serf_agent.specs.Entering.{MayEnter};
ghost use Rattle.serf_agent.specs.Events.{admission};
ghost use Rattle.serf_agent.specs.Ideal.{IdealAgent};
ghost use Rattle.serf_agent.specs.Merging.{Heard, Received};
ghost use Rattle.serf_agent.specs.Sound.{IsSound};
ghost use Rattle.serf_agent.specs.States.{Merges, at_time, compact, events_of, events_of_slot, error_in, hear, joined, merge_refusal, save, send_state, written_lines};
ghost use Rattle.serf_agent.specs.Steps.{AppendsOwnLine, Steps};
ghost use Rattle.serf_agent.specs.Written.{device_appended, appended_with, text_with};
ghost use Rattle.serf_agent.specs.View.{concrete_with, view_of};

use crate::agent::Agent;
use crate::laws::sound_snapshots;
use crate::outcome::{EventOut, MergeError, PushPullError};
use crate::own_line::{OwnLine, append_lines};
use crate::own_lines::written_min_line;
use serf_lamport::Time;
use serf_snapshot::{AppendLineError, ClockKind, ReplaceSink, Sink};
use serf_wire::{
    Bytes, EncodeError, EventView, EventViews, Message, PushPull, PushPullParts, SlotView,
    SlotViews, StatusTime, UserEvent, decode, encode_push_pull,
};
use std::alloc::Global;

/// Returns the push/pull if `message` is one, and `None` otherwise.
fn push_pull_of<'a>(message: &Message<'a>) -> Option<PushPull<'a>>
    ensures some { IfSome result (λ p. message_of message.now ≡ push_pull (push_pull_said p)) }
    ensures none { result ≡ None → (m : State) → message_of message.now ≢ push_pull m }
{
    match *message {
        Message::PushPull(state) => Some(state),
        Message::UserEvent(_)
        | Message::Query(_)
        | Message::QueryResponse(_)
        | Message::Foreign(_) => None,
    }
}

/// Appends `event` to `out`. The caller has reserved room for it.
fn add(out: &mut Vec<EventOut>, event: EventOut)
    requires { vec_len out.old < vec_capacity out.old }
    ensures { out.new.items ≡ out.old.items ++ event ∷ [] }
{
    match out.push(event) {
        Ok(()) => {}
        // (there is room, so nothing is allocated)
        Err(_) => unreachable!(),
    }
}

impl<S: Sink> Agent<S> {
    /// Encodes this agent's whole state, to be sent in a push/pull (Serf's `delegate.go`, `LocalState`): its clocks,
    /// its event buffer, and the status times and the members that left, as the caller passes them. The agent is
    /// unchanged.
    ///
    /// The errors are `Stopped`, `TooLong` if a byte string has more than 4,294,967,295 bytes or a list has more
    /// elements than that, and `OutOfMemory`, which can occur only if there is a packet to send. If several apply, the
    /// first is returned.
    pub fn local_state<'a>(
        &'a self,
        alloc: Global,
        status: &'a [StatusTime<'a>],
        left: &'a [&'a [u8]],
    ) -> Result<Bytes, PushPullError>
        ensures state { result ≢ Err PushPullError.OutOfMemory → result
            ≡ send_state self.now.concrete (map status_of status.now) (map (λ t. t.now) left.now) }

        // Memory is needed only if there is a packet to send.
        ensures memory { IsErrOf result PushPullError.OutOfMemory
            → IsOk (send_state self.now.concrete (map status_of status.now)
            (map (λ t. t.now) left.now)) }
    {
        if self.snapshot.is_stopped() {
            return Err(PushPullError::Stopped);
        }
        let parts = PushPullParts {
            member_clock: self.member_clock.time(),
            status,
            left,
            event_clock: self.events.time(),
            slots: self.events.slots(),
            query_clock: self.queries.time(),
        };
        match encode_push_pull(alloc, &parts) {
            Ok(packet) => Ok(Bytes::from_vec(packet)),
            Err(EncodeError::TooLong) => Err(PushPullError::TooLong),
            Err(EncodeError::OutOfMemory) => Err(PushPullError::OutOfMemory),
        }
    }

    /// Writes the member clock's line, with the time just before the clock, so that a restart continues from there
    /// (Serf's `snapshot.go`, `updateClock`).
    ///
    /// `Stopped` and `OutOfMemory` leave the agent and its sink as they were. `SinkError` stops the agent: the sink
    /// failed when it appended or flushed the line, and may have kept a part of it. On success, this one line was
    /// appended to the sink and flushed. If the last line of this kind already has the same time or a later one, the
    /// call succeeds without calling the sink or allocating memory.
    pub fn save_member_clock(&mut self, alloc: Global) -> Result<(), AppendLineError>
        ensures step { (i : IdealAgent) → IsSound i → self.old.concrete ≡ view_of i
            → result ≢ Err AppendLineError.OutOfMemory
            → Steps i (save i) result self.old.device self.new }
        ensures only_appended { (i : IdealAgent) → self.old.concrete ≡ view_of i
            → IsErrOf result AppendLineError.OutOfMemory → AsksSink (save i) }
        ensures memory { IsErrOf result AppendLineError.OutOfMemory → self.new ≡ self.old }
        ensures ok_device { OnOk result (self.new.device ≡ device_appended kinds.Member
            (self.old.concrete.member_clock - 1) None self.old.concrete.snapshot
            self.old.device) }
        ensures error_device { IsErrOf result AppendLineError.SinkError
            → FailsLine self.old.device self.new.device
            (clock_line kinds.Member (self.old.concrete.member_clock - 1)) }
        ensures refused { OnErr result (result ≢ Err AppendLineError.SinkError → self.new
            ≡ self.old) }
        ensures quiet { self.old.concrete.snapshot.stopped ≡ false
            → self.old.concrete.member_clock - 1 ≤ self.old.concrete.snapshot.member_clock
            → (result ≡ Ok tt) × (self.new ≡ self.old) }
        ensures cause { IsErrOf result AppendLineError.SinkError
            → HasFailed self.old.device.failures self.new.device.failures }
    {
        // (for the proof: the last lines that the snapshot records are those that its sink holds)
        sound_snapshots();
        let Some(time) = Time::new(self.member_clock.time().saturating_sub(1)) else {
            // (a clock minus one is below 2^64 - 1, so it is a valid time)
            unreachable!()
        };
        self.snapshot
            .append_line(alloc, ClockKind::Member, time, b"")
    }

    /// Raises the clocks to at least the clocks in `state`, the state of another agent. If this agent joins and its
    /// settings ignore old events, it also raises the minimum time of events.
    fn join(&mut self, state: &PushPull, is_join: bool)
        ensures joined { (i : IdealAgent) → IsSound i → self.old.concrete ≡ view_of i
            → (self.new.concrete ≡ view_of (joined (push_pull_said state.now) is_join i))
            × IsSound (joined (push_pull_said state.now) is_join i) }
        ensures snapshot { (self.new.concrete.snapshot ≡ self.old.concrete.snapshot)
            × (self.new.device ≡ self.old.device) }
    {
        let minimum = if is_join && self.config.ignore_old {
            state.event_clock
        } else {
            0
        };
        // (a state contains the next time that each clock would draw, and the other agent has seen the time before it)
        self.member_clock.observe_before(state.member_clock);
        self.events.raise(state.event_clock, minimum);
        self.queries.raise(state.query_clock, 0);
    }

    /// Writes `line`, the line of a minimum time of events, to the sink and flushes it. Does nothing if there is no
    /// line.
    fn append_min_line(&mut self, alloc: Global, line: &OwnLine) -> Result<(), AppendLineError>
        requires { self.old.concrete.snapshot.stopped ≡ false }
        ensures noted { OnOk result (self.new.concrete ≡ concrete_with
            (appended_with kinds.Event 0 line.now self.old.concrete.snapshot Kept)
            self.old.concrete) }
        ensures line { AppendsOwnLine kinds.Event 0 line.now self.old self.new result }
        ensures none { line.now ≡ None → result ≡ Ok tt }
    {
        let Some(no_time) = Time::new(0) else {
            // (0 is a valid time)
            unreachable!()
        };
        if line.is_none() {
            return Ok(());
        }
        append_lines(&mut self.snapshot, alloc, ClockKind::Event, no_time, line)
    }

    /// Raises the clocks to at least the clocks in `state`, the state of another agent. If this agent joins
    /// (`is_join`), and its settings both ignore old events and keep events, it first writes the line of the new
    /// minimum time of events.
    fn hear(&mut self, alloc: Global, state: &PushPull, is_join: bool) -> Result<(), MergeError>
        requires { self.old.concrete.snapshot.stopped ≡ false }
        ensures heard { (i : IdealAgent) → IsSound i → self.old.concrete ≡ view_of i
            → Heard i (hear i (push_pull_said state.now) is_join) self.old.device self.new result }
        ensures runs { OnOk result (self.new.concrete.snapshot.stopped ≡ false) }
        ensures calm { OnOk result (self.new.device.failures ≡ self.old.device.failures) }
        ensures cause { IsErrOf result MergeError.SinkError
            → HasFailed self.old.device.failures self.new.device.failures }
    {
        // (for the proof: the last lines that the snapshot records are those that its sink holds)
        sound_snapshots();
        let line = written_min_line(alloc, &self.config, state, is_join)?;
        self.append_min_line(alloc, &line)?;
        self.join(state, is_join);
        Ok(())
    }

    /// Merges the whole state of another agent (Serf's `delegate.go`, `MergeRemoteState`). The agent raises its clocks
    /// to at least those of the state. If it joins and its settings ignore old events, it also raises the minimum time
    /// of events. It appends the new events of the state to `out`, in order. The result borrows the contents of the
    /// packet.
    ///
    /// If this agent joins, and its settings both ignore old events and keep events, it writes the line of the minimum
    /// time before it merges anything, in one append and one flush. So later lives also ignore the events below this
    /// minimum.
    ///
    /// The agent writes each new event before it adds the event to `out`, in the packet's order: it appends the event's
    /// clock line to the sink and flushes it. It doesn't call the sink if the last event clock line already has this
    /// time or a later one. If the settings keep events, the agent calls the sink for each new event, and writes the
    /// event's own line in the same append as the clock line.
    ///
    /// If several errors apply, the first in the order of `MergeError` is returned. `Stopped`, `Wire` and `NotPushPull`
    /// leave everything as it was. `OutOfMemory` and `SinkError` can occur whenever the agent writes a line. After
    /// `OutOfMemory` you may call the same merge again; `SinkError` stops the agent. If the error occurs at the line of
    /// a join's minimum time, nothing was merged, and `out` is unchanged. If it occurs at an event's line, the clocks
    /// were merged, and `out` has exactly the events that were handed out before this one.
    pub fn merge_remote_state<'a>(
        &mut self,
        alloc: Global,
        packet: &'a [u8],
        is_join: bool,
        out: &mut Vec<EventOut>,
    ) -> Result<PushPull<'a>, MergeError>
        ensures refused { (error : DeclaredError)
            → merge_refusal self.old.concrete.snapshot (decoded packet.now) ≡ Some error
            → (result ≡ Err error) × (out.new.items ≡ out.old.items) × (self.new ≡ self.old) }
        ensures merged { (i : IdealAgent) (m : State) → IsSound i → self.old.concrete ≡ view_of i
            → i.snapshot.stopped ≡ false → decoded packet.now ≡ Ok (push_pull m)
            → Merges i m is_join out.old.items out.new.items self.old.device self.new
            (error_in result) }
        ensures borrowed { IfOk result (λ p. decoded packet.now
            ≡ Ok (push_pull (push_pull_said p))) }
        ensures cause { IsErrOf result MergeError.SinkError
            → HasFailed self.old.device.failures self.new.device.failures }
    {
        if self.snapshot.is_stopped() {
            return Err(MergeError::Stopped);
        }
        match decode(packet) {
            Ok(message) => self.merge_message(alloc, &message, is_join, out),
            Err(error) => Err(MergeError::Wire(error)),
        }
    }

    /// Merges a message if it is a push/pull, and refuses any other.
    fn merge_message<'a>(
        &mut self,
        alloc: Global,
        message: &Message<'a>,
        is_join: bool,
        out: &mut Vec<EventOut>,
    ) -> Result<PushPull<'a>, MergeError>
        requires { self.old.concrete.snapshot.stopped ≡ false }
        ensures refused { ((m : State) → message_of message.now ≢ push_pull m)
            → (result ≡ Err MergeError.NotPushPull) × (out.new.items ≡ out.old.items)
            × (self.new ≡ self.old) }
        ensures merged { (i : IdealAgent) (m : State) → IsSound i → self.old.concrete ≡ view_of i
            → message_of message.now ≡ push_pull m
            → Merges i m is_join out.old.items out.new.items self.old.device self.new
            (error_in result) }
        ensures borrowed { IfOk result (λ p. message_of message.now
            ≡ push_pull (push_pull_said p)) }
        ensures cause { IsErrOf result MergeError.SinkError
            → HasFailed self.old.device.failures self.new.device.failures }
    {
        let Some(state) = push_pull_of(message) else {
            return Err(MergeError::NotPushPull);
        };
        self.hear(alloc, &state, is_join)?;
        match self.receive_slots(alloc, state.slots, out) {
            Ok(()) => Ok(state),
            Err(error) => Err(error),
        }
    }

    /// Receives the events of `slots`, one after another, and appends the new ones to `out`.
    fn receive_slots(
        &mut self,
        alloc: Global,
        slots: SlotViews,
        out: &mut Vec<EventOut>,
    ) -> Result<(), MergeError>
        requires { self.old.concrete.snapshot.stopped ≡ false }
        ensures received { (i : IdealAgent) → IsSound i → self.old.concrete ≡ view_of i
            → Received i (events_of (slots_left slots.entry))
            out.old.items out.new.items self.old.device self.new result }
        ensures cause { IsErrOf result MergeError.SinkError
            → HasFailed self.old.device.failures self.new.device.failures }
    {
        for slot in slots {
            match self.receive_slot(alloc, &slot, out) {
                Ok(()) => {}
                Err(error) => return Err(error),
            }
        }
        Ok(())
    }

    /// Receives the events of `slot`, one after another, and appends the new ones to `out`.
    fn receive_slot(
        &mut self,
        alloc: Global,
        slot: &SlotView,
        out: &mut Vec<EventOut>,
    ) -> Result<(), MergeError>
        requires { self.old.concrete.snapshot.stopped ≡ false }
        ensures received { (i : IdealAgent) → IsSound i → self.old.concrete ≡ view_of i
            → Received i (events_of_slot (slot_of_view slot.now))
            out.old.items out.new.items self.old.device self.new result }
        ensures runs { OnOk result (self.new.concrete.snapshot.stopped ≡ false) }
        ensures calm { OnOk result (self.new.device.failures ≡ self.old.device.failures) }
        ensures cause { IsErrOf result MergeError.SinkError
            → HasFailed self.old.device.failures self.new.device.failures }
    {
        match *slot {
            SlotView::Empty => Ok(()),
            SlotView::Single(time, event) => self.receive_one(alloc, time, &event, out),
            SlotView::Held(time, events) => self.receive_events(alloc, time, events, out),
        }
    }

    /// Receives the events of one time, one after another, and appends the new ones to `out`.
    fn receive_events(
        &mut self,
        alloc: Global,
        time: Time,
        events: EventViews,
        out: &mut Vec<EventOut>,
    ) -> Result<(), MergeError>
        requires { self.old.concrete.snapshot.stopped ≡ false }
        ensures received { (i : IdealAgent) → IsSound i → self.old.concrete ≡ view_of i
            → Received i (at_time time (events_left events.entry))
            out.old.items out.new.items self.old.device self.new result }
        ensures runs { OnOk result (self.new.concrete.snapshot.stopped ≡ false) }
        ensures calm { OnOk result (self.new.device.failures ≡ self.old.device.failures) }
        ensures cause { IsErrOf result MergeError.SinkError
            → HasFailed self.old.device.failures self.new.device.failures }
    {
        for event in events {
            match self.receive_one(alloc, time, &event, out) {
                Ok(()) => {}
                Err(error) => return Err(error),
            }
        }
        Ok(())
    }

    /// Receives one event of a push/pull: ignores it, or writes its line, inserts it into the buffer, and appends it to
    /// `out`.
    fn receive_one(
        &mut self,
        alloc: Global,
        time: Time,
        event: &EventView,
        out: &mut Vec<EventOut>,
    ) -> Result<(), MergeError>
        requires { self.old.concrete.snapshot.stopped ≡ false }
        ensures received { (i : IdealAgent) → IsSound i → self.old.concrete ≡ view_of i
            → Received i (record { time = time; key = event_of_view event.now } ∷ []) out.old.items
            out.new.items self.old.device self.new result }
        ensures runs { OnOk result (self.new.concrete.snapshot.stopped ≡ false) }
        ensures calm { OnOk result (self.new.device.failures ≡ self.old.device.failures) }
        ensures cause { IsErrOf result MergeError.SinkError
            → HasFailed self.old.device.failures self.new.device.failures }
    {
        match self.admission(time, event.name, event.payload) {
            Some(_) => {
                self.events.observe(time);
                Ok(())
            }
            None => self.accept_merged_event(alloc, time, event, out),
        }
    }

    /// Writes the line of a new event of a push/pull, inserts the event into the buffer, and appends it to `out`.
    fn accept_merged_event(
        &mut self,
        alloc: Global,
        time: Time,
        event: &EventView,
        out: &mut Vec<EventOut>,
    ) -> Result<(), MergeError>
        requires may_enter { MayEnter self.old.concrete time }
        requires small { time < max_clock }
        ensures received { (i : IdealAgent) → IsSound i → self.old.concrete ≡ view_of i
            → admission i time (event_of_view event.now) ≡ None
            → Received i (record { time = time; key = event_of_view event.now } ∷ []) out.old.items
            out.new.items self.old.device self.new result }
        ensures runs { OnOk result (self.new.concrete.snapshot.stopped ≡ false) }
        ensures calm { OnOk result (self.new.device.failures ≡ self.old.device.failures) }
        ensures cause { IsErrOf result MergeError.SinkError
            → HasFailed self.old.device.failures self.new.device.failures }
    {
        // (for the proof: the last lines that the snapshot records are those that its sink holds)
        sound_snapshots();
        out.reserve(1)?;
        // A push/pull doesn't carry the flag whether an event may be coalesced.
        let event = UserEvent {
            time,
            name: event.name,
            payload: event.payload,
            coalesce: false,
        };
        let handed = self.accept(alloc, &event)?;
        add(out, handed);
        Ok(())
    }
}

impl<S: ReplaceSink> Agent<S> {
    /// Replaces the sink's text with the last line of each clock and, if the settings keep events, the lines of the
    /// entries in the buffers. The rest of the agent is unchanged.
    ///
    /// On success, the sink replaced its text once and did nothing else. `Stopped` leaves everything as it was,
    /// including the counts of the sink's calls. `OutOfMemory` leaves the agent and its sink as they were, except that
    /// the sink may have counted a call. `SinkError` stops the agent, and the durable text is then the old one or the
    /// new one.
    pub fn compact(&mut self, alloc: Global) -> Result<(), AppendLineError>
        ensures step { (i : IdealAgent) → IsSound i → self.old.concrete ≡ view_of i
            → result ≢ Err AppendLineError.OutOfMemory
            → Steps i (compact i) result self.old.device self.new }
        ensures only_replaced { (i : IdealAgent) → self.old.concrete ≡ view_of i
            → IsErrOf result AppendLineError.OutOfMemory → AsksSink (compact i) }
        ensures memory { IsErrOf result AppendLineError.OutOfMemory
            → self.new.concrete ≡ self.old.concrete }
        ensures memory_device { IsErrOf result AppendLineError.OutOfMemory
            → (self.new.device ≡ self.old.device) ⊎ (self.new.device ≡ unreplaced self.old.device) }
        ensures cause { IsErrOf result AppendLineError.SinkError
            → HasFailed self.old.device.failures self.new.device.failures }
        ensures ok_device { OnOk result (self.new.device ≡ replaced
            (text_with (written_lines self.old.concrete) self.old.concrete.snapshot)
            self.old.device) }
        ensures error_device { IsErrOf result AppendLineError.SinkError
            → FailsText self.old.device self.new.device
            (text_with (written_lines self.old.concrete) self.old.concrete.snapshot) }
        ensures stopped { IsErrOf result AppendLineError.Stopped → self.new ≡ self.old }
        ensures called { OnOk result (self.new.device.calls
            ≡ replace_called self.old.device.calls) }
        ensures error_called { IsErrOf result AppendLineError.SinkError
            → self.new.device.calls ≡ replace_called self.old.device.calls }
    {
        // (for the proof: the last lines that the snapshot records are those that its sink holds)
        sound_snapshots();
        if self.snapshot.is_stopped() {
            return Err(AppendLineError::Stopped);
        }
        let lines = self.written_lines(alloc)?;
        self.snapshot.compact(alloc, lines.as_slice())
    }
}
