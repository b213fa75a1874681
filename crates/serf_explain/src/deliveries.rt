//! Records the events that a run has handed out so far.

ghost use Rattle.std.specs.Prelude.{◌≡◌, ◌++◌, ◌∷◌, [], Some, drop, map, take, true, IfOk, IfSome, OnOk};
ghost use Rattle.std.specs.List.{find};
ghost use Rattle.std.specs.Option.{option_copied, option_map};
ghost use Rattle.serf_window.specs.Texts.{event_of};
ghost use Rattle.serf_explain.specs.Deliveries.{IsRecorded, RecordedAt, is_record, record_in, record_of, records_in, stands_at};
ghost use Rattle.serf_explain.specs.Left.{texts_told};

use indexmap::IndexMap;
use serf_model::{EventLine, Line};
use serf_wire::UserEvent;
use std::alloc::{AllocError, Global};

/// The time, the name and the payload of an event, borrowed from its packet.
#[derive(Clone, Copy)]
pub(crate) struct Event<'a> {
    pub(crate) time: u64,
    pub(crate) name: &'a [u8],
    pub(crate) payload: &'a [u8],
}

impl<'a> Event<'a> {
    /// Converts a decoded user event to an `Event`.
    pub(crate) fn of(event: &UserEvent<'a>) -> Event<'a>
        ensures time { result.time ≡ event.now.time }
        ensures name { result.name.now ≡ event.now.name.now }
        ensures payload { result.payload.now ≡ event.now.payload.now }
    {
        Event {
            time: event.time.get(),
            name: event.name,
            payload: event.payload,
        }
    }

    /// Returns the total length of the name and the payload in bytes, capped at 2^64 - 1.
    pub(crate) fn bytes(&self) -> u64
        ensures { result ≡ texts_told (event_of self.now.name.now self.now.payload.now) }
    {
        (self.name.len() as u64).saturating_add(self.payload.len() as u64)
    }
}

/// The number of an agent together with a Lamport time, which is the time of an event that was handed to the agent, or
/// of a query that the agent fired. Despite its name, a `Moment` is not a number of nanoseconds.
#[derive(Clone, Copy, PartialEq, Eq, Hash)]
pub(crate) struct Moment {
    pub(crate) agent: u64,
    pub(crate) time: u64,
}

/// An event that was handed to agent number `agent`.
#[derive(Drop)]
pub(crate) struct Delivery {
    /// The number (counted from 1) of the action that handed out the event.
    pub(crate) action: u64,
    pub(crate) agent: u64,
    pub(crate) time: u64,
    /// The event's name, followed by its payload.
    pub(crate) texts: Vec<u8>,
    /// The length of the event's name in bytes.
    pub(crate) name: usize,
    /// The index in `Deliveries::outs` of the previous delivery to the same agent with the same time, or `None` if
    /// there was no such delivery.
    before: Option<usize>,
}

impl Delivery {
    /// Makes a delivery from `event`, an event line in the trace of action number `action`. `before` is the index of
    /// the previous delivery to the same agent with the same time.
    fn of(
        alloc: Global,
        action: u64,
        event: &EventLine,
        before: Option<usize>,
    ) -> Result<Delivery, AllocError>
        ensures { IfOk result (λ h. record_in h ≡ record_of action event.now) }
    {
        let name = event.name.as_slice();
        let payload = event.payload.as_slice();
        let mut texts = Vec::with_capacity(alloc, name.len().saturating_add(payload.len()))?;
        texts.extend_from_slice(name)?;
        texts.extend_from_slice(payload)?;
        Ok(Delivery {
            action,
            agent: event.agent,
            time: event.time.get(),
            texts,
            name: name.len(),
            before,
        })
    }

    /// Returns the name and the payload of the event.
    fn texts(&self) -> (&[u8], &[u8])
        ensures name { result.0.now ≡ take self.now.name self.now.texts.items }
        ensures payload { result.1.now ≡ drop self.now.name self.now.texts.items }
    {
        match self.texts.as_slice().split_at_checked(self.name) {
            Some(both) => both,
            None => (self.texts.as_slice(), &[]),
        }
    }

    /// Returns whether this delivery handed `event` to agent number `agent`.
    fn hands(&self, agent: u64, event: &Event) -> bool
        ensures { result ≡ is_record agent event.now.time
            (event_of event.now.name.now event.now.payload.now) (record_in self.now) }
    {
        let (name, payload) = self.texts();
        self.agent == agent
            && self.time == event.time
            && name == event.name
            && payload == event.payload
    }
}

/// The index of a delivery in `Deliveries::outs`, and the number of the action that made this delivery.
#[derive(Clone, Copy)]
pub(crate) struct Found {
    pub(crate) place: usize,
    pub(crate) action: u64,
}

/// All deliveries of a run so far, in the order in which they were made.
#[derive(Drop)]
pub(crate) struct Deliveries {
    pub(crate) outs: Vec<Delivery>,
    /// For each agent and each time, the index in `outs` of the last delivery to this agent with this time.
    last: IndexMap<Moment, usize>,
}

/// Returns the first delivery in `outs` that handed `event` to agent number `agent`, or `None` if no delivery did.
fn first_in<'a>(outs: &'a [Delivery], agent: u64, event: &Event) -> Option<&'a Delivery>
    ensures { option_copied result ≡ find (λ h. is_record agent event.now.time
        (event_of event.now.name.now event.now.payload.now) (record_in h)) outs.now }
{
    outs.iter().find(|out| out.hands(agent, event))
}

impl Deliveries {
    /// Creates a record without any deliveries. Allocates no memory.
    pub(crate) fn new(alloc: Global) -> Deliveries
        ensures { records_in result.outs.items ≡ [] }
    {
        Deliveries {
            outs: Vec::new(alloc),
            last: IndexMap::new(alloc),
        }
    }

    /// Records that action number `action` handed out `event`, an event line in the action's trace.
    fn record_event(
        &mut self,
        alloc: Global,
        action: u64,
        event: &EventLine,
    ) -> Result<(), AllocError>
        ensures { OnOk result (records_in self.new.outs.items ≡ records_in self.old.outs.items
            ++ record_of action event.now ∷ []) }
    {
        let moment = Moment {
            agent: event.agent,
            time: event.time.get(),
        };
        let Ok(before) = self.last.insert(moment, self.outs.len()) else {
            return Err(AllocError);
        };
        self.outs.push(Delivery::of(alloc, action, event, before)?)?;
        Ok(())
    }

    /// Records all events that action number `action` handed out according to `line`.
    pub(crate) fn record_all(
        &mut self,
        alloc: Global,
        action: u64,
        line: &Line,
    ) -> Result<(), AllocError>
        ensures { OnOk result (records_in self.new.outs.items ≡ records_in self.old.outs.items
            ++ map (record_of action) line.now.events) }
    {
        for event in line.events.as_slice() {
            self.record_event(alloc, action, event)?;
        }
        Ok(())
    }

    /// Returns the delivery at index `place` if this delivery handed `event` to agent number `agent`, and `None`
    /// otherwise.
    fn found_at(&self, place: usize, agent: u64, event: &Event) -> Option<Found>
        ensures place { stands_at (records_in self.now.outs.items) place agent event.now.time
            (event_of event.now.name.now event.now.payload.now) ≡ true
            → option_map (λ found. found.place) result ≡ Some place }
        ensures recorded { IfSome result
            (λ found. RecordedAt (records_in self.now.outs.items) found.action
            agent event.now.time (event_of event.now.name.now event.now.payload.now)) }
    {
        let out = self.outs.get(place)?;
        if !out.hands(agent, event) {
            return None;
        }
        Some(Found {
            place,
            action: out.action,
        })
    }

    /// Returns the most recent delivery that handed `event` to agent number `agent`. The function searches the
    /// deliveries that were made to this agent with the event's time, and begins with the latest one.
    fn last_of(&self, agent: u64, event: &Event) -> Option<Found>
        ensures { IfSome result
            (λ found. RecordedAt (records_in self.now.outs.items) found.action agent
            event.now.time (event_of event.now.name.now event.now.payload.now)) }
    {
        let moment = Moment {
            agent,
            time: event.time,
        };
        let mut place = self.last.get(&moment).copied();
        for _one in 0..self.outs.len() {
            let here = place?;
            let found = self.found_at(here, agent, event);
            if found.is_some() {
                return found;
            }
            place = self.outs.get(here)?.before;
        }
        None
    }

    /// Returns a delivery that handed `event` to agent number `agent`. If the delivery at index `place` did so, the
    /// function returns that delivery, and otherwise the most recent one that did.
    pub(crate) fn found_near(&self, place: usize, agent: u64, event: &Event) -> Option<Found>
        ensures place { stands_at (records_in self.now.outs.items) place agent event.now.time
            (event_of event.now.name.now event.now.payload.now) ≡ true
            → option_map (λ found. found.place) result ≡ Some place }
        ensures recorded { IfSome result
            (λ found. RecordedAt (records_in self.now.outs.items) found.action
            agent event.now.time (event_of event.now.name.now event.now.payload.now)) }
    {
        match self.found_at(place, agent, event) {
            Some(found) => Some(found),
            None => self.last_of(agent, event),
        }
    }

    /// Returns the number of the first action that handed `event` to agent number `agent`. The function searches all
    /// deliveries.
    fn first_of(&self, agent: u64, event: &Event) -> Option<u64>
        ensures { IsRecorded (records_in self.now.outs.items)
            agent event.now.time (event_of event.now.name.now event.now.payload.now) result }
    {
        match first_in(&self.outs, agent, event) {
            Some(out) => Some(out.action),
            None => None,
        }
    }

    /// Returns the number of an action that handed `event` to agent number `agent`, or `None` if no action did.
    pub(crate) fn action_of(&self, agent: u64, event: &Event) -> Option<u64>
        ensures { IsRecorded (records_in self.now.outs.items)
            agent event.now.time (event_of event.now.name.now event.now.payload.now) result }
    {
        match self.last_of(agent, event) {
            Some(found) => Some(found.action),
            None => self.first_of(agent, event),
        }
    }
}
