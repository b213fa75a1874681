//! Firing user events, and receiving them.

ghost use Rattle.std.specs.Prelude.{◌≡◌, ◌≢◌, ◌<◌, ◌≤◌, ◌+◌, false, None, length, Err, OnOk, OnErr, IfOk, IsErrOf};
ghost use Rattle.serf_lamport.specs.Clock.{max_clock};
ghost use Rattle.serf_window.specs.Texts.{event_of};
ghost use Rattle.serf_window.specs.Window.{count_in, time_in};
ghost use Rattle.serf_snapshot.specs.declared.kind.ClockKind.TheVariants as kinds;
ghost use Rattle.serf_snapshot.specs.Device.{HasFailed};
ghost use Rattle.serf_agent.specs.Calls.{AsksSink};
ghost use Rattle.serf_agent.specs.Config.{max_text_bytes};
ghost use Rattle.serf_snapshot.specs.Ends.{FailsLine};
ghost use Rattle.serf_agent.specs.Entering.{AppendsEventLine, EntersEvent, MayEnter};
ghost use Rattle.serf_agent.specs.Events.{admission, event_out, event_packet, fire, is_too_large, receive_event, written_event};
ghost use Rattle.serf_agent.specs.Ideal.{IdealAgent};
ghost use Rattle.serf_agent.specs.Sound.{IsSound};
ghost use Rattle.serf_agent.specs.TakesPacket.{TakesPacket};
ghost use Rattle.serf_agent.specs.Steps.{Steps};
ghost use Rattle.serf_agent.specs.Written.{bytes_with, device_appended};
ghost use Rattle.serf_agent.specs.View.{view_of};

use crate::agent::Agent;
use crate::config::MAX_TEXT_BYTES;
use crate::laws::sound_snapshots;
use crate::outcome::{EventOut, FireError, Fired, Outcome, Reason, ReceiveError};
use crate::own_line::append_lines;
use crate::own_lines::written_event;
use serf_lamport::Time;
use serf_snapshot::{AppendLineError, ClockKind, Sink};
use serf_wire::{Bytes, EncodeError, EventView, UserEvent, encode_user_event, user_event_len};
use std::alloc::{AllocError, Global};

/// Copies an event to hand it out.
fn handed_out(alloc: Global, event: &UserEvent) -> Result<EventOut, AllocError>
    ensures { IfOk result (λ out. out ≡ event_out event.now.time
        (event_of event.now.name.now event.now.payload.now) event.now.coalesce) }
{
    Ok(EventOut {
        time: event.time,
        name: Bytes::copy_of(alloc, event.name)?,
        payload: Bytes::copy_of(alloc, event.payload)?,
        coalesce: event.coalesce,
    })
}

/// Encodes the packet of an event whose name and payload together have at most 9,216 bytes.
fn packet_of(alloc: Global, event: &UserEvent) -> Result<Bytes, AllocError>
    requires { length event.now.name.now + length event.now.payload.now ≤ max_text_bytes }
    ensures { IfOk result (λ packet. packet ≡ event_packet event.now.time
        (event_of event.now.name.now event.now.payload.now) event.now.coalesce) }
{
    match encode_user_event(alloc, event) {
        Ok(packet) => Ok(Bytes::from_vec(packet)),
        // (the packet of an event with a short name and payload is never too long)
        Err(EncodeError::TooLong) => unreachable!(),
        Err(EncodeError::OutOfMemory) => Err(AllocError),
    }
}

/// Whether an event is too large to be fired: its name and payload together, or its packet, are longer than `limit`
/// bytes.
fn is_too_large(limit: u64, event: &UserEvent) -> bool
    ensures { result ≡ is_too_large limit event.now.time
        (event_of event.now.name.now event.now.payload.now) event.now.coalesce }
{
    let limit = limit as u128;
    event.name.len() as u128 + event.payload.len() as u128 > limit || user_event_len(event) > limit
}

impl<S: Sink> Agent<S> {
    /// Fires an event at the event clock's time (Serf's `serf.go`, `UserEvent`). After a success its clock line is
    /// durable, and the event is in the buffer. The result has the packet to send, and the event, which is handed out
    /// here too.
    ///
    /// On success, the sink has appended and flushed this one clock line and done nothing else. It wasn't called at all
    /// if the last event clock line already has this time or a later one. If the settings keep events, the sink is
    /// always called: the event's own line is written too, in the same append as the clock line.
    ///
    /// If several errors apply, the first in the order of `FireError` is returned. Every error except `SinkError`
    /// leaves the agent and its sink as they were. `SinkError` stops the agent: the sink failed when it appended or
    /// flushed this line, and may have kept a part of it.
    pub fn fire(
        &mut self,
        alloc: Global,
        name: &[u8],
        payload: &[u8],
        coalesce: bool,
    ) -> Result<Fired, FireError>
        ensures step { (i : IdealAgent) → IsSound i → self.old.concrete ≡ view_of i
            → result ≢ Err FireError.OutOfMemory
            → Steps i (fire i (event_of name.now payload.now) coalesce)
            result self.old.device self.new }

        // The state of the sink after a success. This also holds for a sink that doesn't expose its bytes.
        ensures ok_device { IfOk result (λ f. self.new.device ≡ device_appended kinds.Event
            f.handed.time (written_event self.old.concrete.config f.handed.time
            (event_of name.now payload.now)) self.old.concrete.snapshot self.old.device) }
        ensures error_device { IsErrOf result FireError.SinkError
            → FailsLine self.old.device self.new.device
            (bytes_with kinds.Event self.old.concrete.events.clock
            (written_event self.old.concrete.config self.old.concrete.events.clock
            (event_of name.now payload.now)) self.old.concrete.snapshot) }
        ensures refused { OnErr result (result ≢ Err FireError.SinkError → self.new ≡ self.old) }

        // Memory is needed only if the event is fired, and an allocation failure changes nothing.
        ensures only_fired { (i : IdealAgent) → IsSound i → self.old.concrete ≡ view_of i
            → IsErrOf result FireError.OutOfMemory
            → AsksSink (fire i (event_of name.now payload.now) coalesce) }
        ensures memory { IsErrOf result FireError.OutOfMemory → self.new ≡ self.old }
        ensures cause { IsErrOf result FireError.SinkError
            → HasFailed self.old.device.failures self.new.device.failures }
    {
        // (for the proof: the last lines that the snapshot records are those that its sink holds)
        sound_snapshots();
        if self.snapshot.is_stopped() {
            return Err(FireError::Stopped);
        }
        let measured = UserEvent {
            time: self.events.measured(),
            name,
            payload,
            coalesce,
        };
        if is_too_large(self.config.event_limit, &measured) {
            return Err(FireError::TooLarge);
        }
        let Some(time) = self.events.next_time() else {
            return Err(FireError::Exhausted);
        };
        let event = UserEvent { time, ..measured };
        let packet = packet_of(alloc, &event)?;
        let handed = self.accept(alloc, &event)?;
        Ok(Fired { packet, handed })
    }

    /// The reason to ignore this event, or `None` if the event is new. Allocates no memory.
    pub(crate) fn admission(&self, time: Time, name: &[u8], payload: &[u8]) -> Option<Reason>
        ensures reason { (i : IdealAgent) → IsSound i → self.now.concrete ≡ view_of i
            → result ≡ admission i time (event_of name.now payload.now) }
        ensures not_later { result ≡ None → time_in self.now.concrete.events.slots time ≤ time }
        ensures not_full { result ≡ None
            → count_in self.now.concrete.events.slots time < self.now.concrete.config.per_time }
        ensures small { result ≡ None → time < max_clock }
    {
        if name.len() > MAX_TEXT_BYTES || payload.len() > MAX_TEXT_BYTES - name.len() {
            return Some(Reason::Oversize);
        }
        self.events.reason(time, &EventView { name, payload })
    }

    /// Receives an event: ignores it, or writes its line and hands it out.
    #[inline(always)]
    pub(crate) fn receive_event(
        &mut self,
        alloc: Global,
        event: &UserEvent,
    ) -> Result<Outcome, ReceiveError>
        requires { self.old.concrete.snapshot.stopped ≡ false }
        ensures { TakesPacket (λ i. receive_event i event.now.time
            (event_of event.now.name.now event.now.payload.now) event.now.coalesce)
            None self.old self.new result }
    {
        // (for the proof: the last lines that the snapshot records are those that its sink holds)
        sound_snapshots();
        match self.admission(event.time, event.name, event.payload) {
            Some(reason) => {
                self.events.observe(event.time);
                Ok(Outcome::Ignored(reason))
            }
            None => {
                let out = self.accept(alloc, event)?;
                Ok(Outcome::Event(out))
            }
        }
    }

    /// Writes an event's line to the sink, inserts the event into the buffer after the line is durable, and returns the
    /// event to hand out.
    pub(crate) fn accept(
        &mut self,
        alloc: Global,
        event: &UserEvent,
    ) -> Result<EventOut, AppendLineError>
        requires { MayEnter self.old.concrete event.now.time }
        ensures out { IfOk result (λ out. out ≡ event_out event.now.time
            (event_of event.now.name.now event.now.payload.now) event.now.coalesce) }
        ensures entered { OnOk result (EntersEvent event.now.time
            (event_of event.now.name.now event.now.payload.now) self.old.concrete
            self.new.concrete) }
        ensures line { AppendsEventLine event.now.time
            (event_of event.now.name.now event.now.payload.now) self.old self.new result }
    {
        let handed = handed_out(alloc, event)?;
        self.insert_event(alloc, event)?;
        Ok(handed)
    }

    /// Writes an event's line to the sink, and inserts the event into the buffer after the line is durable.
    fn insert_event(&mut self, alloc: Global, event: &UserEvent) -> Result<(), AppendLineError>
        requires { MayEnter self.old.concrete event.now.time }
        ensures entered { OnOk result (EntersEvent event.now.time
            (event_of event.now.name.now event.now.payload.now) self.old.concrete
            self.new.concrete) }
        ensures line { AppendsEventLine event.now.time
            (event_of event.now.name.now event.now.payload.now) self.old self.new result }
    {
        let time = event.time;
        let line = written_event(alloc, &self.config, event)?;
        let body = EventView {
            name: event.name,
            payload: event.payload,
        };
        let entry = self.events.prepare(alloc, time, &body)?;
        append_lines(&mut self.snapshot, alloc, ClockKind::Event, time, &line)?;
        self.events.insert_new(time, entry);
        Ok(())
    }
}
