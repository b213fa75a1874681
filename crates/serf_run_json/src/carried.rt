//! Lists the events that a merged state carries.

use serf_wire::{EventView, EventViews, Message, SlotView, SlotViews, decode};
use std::alloc::{AllocError, Global};

/// An event that a state carries.
#[derive(Clone, Copy)]
pub(crate) struct CarriedEvent<'a> {
    pub(crate) slot: u64,
    pub(crate) time: u64,
    pub(crate) name: &'a [u8],
    pub(crate) payload: &'a [u8],
}

/// Appends to `events` one event from a slot.
fn add_event<'a>(
    events: &mut Vec<CarriedEvent<'a>>,
    slot: u64,
    time: u64,
    event: &EventView<'a>,
) -> Result<(), AllocError> {
    events.push(CarriedEvent {
        slot,
        time,
        name: event.name,
        payload: event.payload,
    })?;
    Ok(())
}

/// Appends to `events` the events from a slot that contains several.
fn add_events<'a>(
    events: &mut Vec<CarriedEvent<'a>>,
    slot: u64,
    time: u64,
    held: EventViews<'a>,
) -> Result<(), AllocError> {
    for event in held {
        add_event(events, slot, time, &event)?;
    }
    Ok(())
}

/// Appends to `events` all events from a slot.
fn add_slot<'a>(
    events: &mut Vec<CarriedEvent<'a>>,
    slot: u64,
    content: &SlotView<'a>,
) -> Result<(), AllocError> {
    match *content {
        SlotView::Held(time, held) => add_events(events, slot, time.get(), held),
        SlotView::Single(time, event) => add_event(events, slot, time.get(), &event),
        SlotView::Empty => Ok(()),
    }
}

/// Returns the events in all of `slots`. The slots are numbered from 0.
fn events_in<'a>(alloc: Global, slots: SlotViews<'a>) -> Result<Vec<CarriedEvent<'a>>, AllocError> {
    let mut events = Vec::new(alloc);
    let mut slot: u64 = 0;
    for content in slots {
        add_slot(&mut events, slot, &content)?;
        slot = slot.saturating_add(1);
    }
    Ok(events)
}

/// If `message` is a state, returns the events in it. For any other message, the result is empty.
fn events_of<'a>(
    alloc: Global,
    message: &Message<'a>,
) -> Result<Vec<CarriedEvent<'a>>, AllocError> {
    match message {
        Message::PushPull(state) => events_in(alloc, state.slots),
        _ => Ok(Vec::new(alloc)),
    }
}

/// Returns the events that the state in `packet` carries, in order. The result is empty if the packet contains no
/// state.
pub(crate) fn carried_events<'a>(
    alloc: Global,
    packet: &'a [u8],
) -> Result<Vec<CarriedEvent<'a>>, AllocError> {
    match decode(packet) {
        Ok(message) => events_of(alloc, &message),
        Err(_) => Ok(Vec::new(alloc)),
    }
}
