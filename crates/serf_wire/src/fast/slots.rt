//! Reads the slots of an event buffer. Each slot is nil, or a map with exactly a time and its events. Each
//! event is a map with exactly a name and a payload.

ghost use Rattle.std.specs.Prelude.{◌≡◌, ◌∷◌, [], codes, None, IfNone, IfSome};
ghost use Rattle.std.specs.Option.{option_map};
ghost use Rattle.serf_wire.specs.Fields.{text, time, list, event_body, slot};
ghost use Rattle.serf_wire.specs.Fast.{ReadsIn, ReadsPair, Spans, AreItems};
ghost use Rattle.serf_wire.specs.Lists.{event_of_view, events_found, events_left, slot_of_view, slots_left};
ghost use Rattle.serf_wire.specs.Slots.{held};

use crate::compact::{read_array_head, read_number, read_text, skip_nil, view_before};
use crate::laws::laws_below;
use crate::lists::{EventView, EventViews, SlotView, SlotViews};
use serf_lamport::Time;

/// The events of a compact list. If there is only one event, it has been read; otherwise the events haven't
/// been read yet.
#[derive(Clone, Copy)]
pub enum FoundEvents<'a> {
    One(EventView<'a>),
    Many(EventViews<'a>),
}

/// Reads the key `Name` and the name after it at the start of `bytes`. Returns the name and the bytes after
/// it.
#[inline(always)]
fn read_name(bytes: &[u8]) -> Option<(&[u8], &[u8])>
    ensures { IfSome result (λ x. ReadsPair 9 text (codes "Name") x.0.now bytes.now x.1.now) }
{
    let [0xa4, b'N', b'a', b'm', b'e', value @ ..] = bytes else {
        return None;
    };
    read_text(value)
}

/// Reads the key `Payload` and the payload after it at the start of `bytes`. Returns the payload and the
/// bytes after it.
#[inline(always)]
fn read_payload(bytes: &[u8]) -> Option<(&[u8], &[u8])>
    ensures { IfSome result (λ x. ReadsPair 9 text (codes "Payload") x.0.now bytes.now x.1.now) }
{
    let [0xa7, b'P', b'a', b'y', b'l', b'o', b'a', b'd', value @ ..] = bytes else {
        return None;
    };
    read_text(value)
}

/// Reads an event, which is a map of two pairs (0x82), at the start of `bytes`. Returns the event and the
/// bytes after it.
#[inline(always)]
pub fn read_event(bytes: &[u8]) -> Option<(EventView<'_>, &[u8])>
    ensures { IfSome result (λ x. ReadsIn 8 event_body (event_of_view x.0) bytes.now x.1.now) }
{
    laws_below();
    let [0x82, fields @ ..] = bytes else {
        return None;
    };
    let (name, next) = read_name(fields)?;
    let (payload, rest) = read_payload(next)?;
    Some((EventView { name, payload }, rest))
}

/// Skips `count` events at the start of `bytes`, and returns the bytes after them.
fn skip_events(count: u64, bytes: &[u8]) -> Option<&[u8]>
    ensures { IfSome result (λ rest. AreItems 8 event_body count bytes.now rest.now) }
{
    let mut rest = bytes;
    'events: for _ in 0..count {
        let Some((_, following)) = read_event(rest) else {
            return None;
        };
        rest = following;
    }
    Some(rest)
}

/// Skips a list of events at the start of `bytes`, and returns the bytes after it.
#[inline(always)]
fn skip_event_list(bytes: &[u8]) -> Option<&[u8]>
    ensures { IfSome result (λ rest. Spans 7 (list event_body) bytes.now rest.now) }
{
    laws_below();
    let (count, items) = read_array_head(bytes)?;
    skip_events(count, items)
}

/// Reads a list of exactly one event (0x91) at the start of `bytes`. Returns the event and the bytes after
/// it.
#[inline(always)]
fn read_only_event(bytes: &[u8]) -> Option<(EventView<'_>, &[u8])>
    ensures { IfSome result (λ x.
        ReadsIn 7 (list event_body) (event_of_view x.0 ∷ []) bytes.now x.1.now) }
{
    laws_below();
    let [0x91, event @ ..] = bytes else {
        return None;
    };
    read_event(event)
}

/// Reads a list of any number of events at the start of `bytes`. Returns the list and the bytes after it.
/// This is a separate function, so that the code that reads a slot with one event is small enough to be
/// inlined.
#[inline(never)]
fn read_many_events(bytes: &[u8]) -> Option<(EventViews<'_>, &[u8])>
    ensures { IfSome result (λ x. ReadsIn 7 (list event_body) (events_left x.0) bytes.now x.1.now) }
{
    let rest = skip_event_list(bytes)?;
    let list = view_before(bytes, rest);
    Some((EventViews::of(Some(list)), rest))
}

/// Reads a list of events at the start of `bytes`. Returns the list and the bytes after it.
#[inline(always)]
fn read_event_list(bytes: &[u8]) -> Option<(FoundEvents<'_>, &[u8])>
    ensures { IfSome result (λ x.
        ReadsIn 7 (list event_body) (events_found x.0) bytes.now x.1.now) }
{
    match read_only_event(bytes) {
        Some((event, rest)) => Some((FoundEvents::One(event), rest)),
        None => match read_many_events(bytes) {
            Some((events, rest)) => Some((FoundEvents::Many(events), rest)),
            None => None,
        },
    }
}

/// Reads the key of a slot's events and the list after it at the start of `bytes`. Returns the list and the
/// bytes after it.
#[inline(always)]
fn read_events(bytes: &[u8]) -> Option<(FoundEvents<'_>, &[u8])>
    ensures { IfSome result (λ x.
        ReadsPair 7 (list event_body) (codes "Events") (events_found x.0) bytes.now x.1.now) }
{
    let [0xa6, b'E', b'v', b'e', b'n', b't', b's', value @ ..] = bytes else {
        return None;
    };
    read_event_list(value)
}

/// Reads the key of a slot's time and the time after it at the start of `bytes`. Returns the time and the
/// bytes after it.
#[inline(always)]
fn read_time(bytes: &[u8]) -> Option<(u64, &[u8])>
    ensures { IfSome result (λ x. ReadsPair 7 time (codes "LTime") x.0 bytes.now x.1.now) }
{
    let [0xa5, b'L', b'T', b'i', b'm', b'e', value @ ..] = bytes else {
        return None;
    };
    let (number, rest) = read_number(value)?;
    if number >= u64::MAX {
        return None;
    }
    Some((number, rest))
}

/// If `fields` begin with the slot's time, the call returns this time and the bytes after it. Otherwise
/// returns `None` and all of `fields`.
#[inline(always)]
fn read_early_time(fields: &[u8]) -> (Option<u64>, &[u8])
    ensures early { IfSome result.0 (λ t.
        ReadsPair 7 time (codes "LTime") t fields.now result.1.now) }
    ensures later { IfNone result.0 (result.1.now ≡ fields.now) }
{
    match read_time(fields) {
        Some((time, next)) => (Some(time), next),
        None => (None, fields),
    }
}

/// Reads a slot from `fields`, which are the bytes after the map's header. Returns the slot's time, its
/// events, and the bytes after the slot. Our encoder writes the time first, but Serf writes the events first.
#[inline(always)]
fn read_fields(fields: &[u8]) -> Option<(u64, FoundEvents<'_>, &[u8])>
    ensures { IfSome result (λ x.
        ReadsIn 6 slot (held x.0 (events_found x.1)) (0x82 ∷ fields.now) x.2.now) }
{
    laws_below();
    let (early, next) = read_early_time(fields);
    match read_events(next) {
        Some((events, rest)) => match early {
            Some(time) => Some((time, events, rest)),
            None => match read_time(rest) {
                Some((time, following)) => Some((time, events, following)),
                None => None,
            },
        },
        None => None,
    }
}

/// Reads a slot that is a map of two pairs (0x82) at the start of `bytes`. Returns the slot's time, its
/// events, and the bytes after the slot.
#[inline(always)]
fn read_held(bytes: &[u8]) -> Option<(u64, FoundEvents<'_>, &[u8])>
    ensures { IfSome result (λ x. ReadsIn 6 slot (held x.0 (events_found x.1)) bytes.now x.2.now) }
{
    let [0x82, fields @ ..] = bytes else {
        return None;
    };
    read_fields(fields)
}

/// Returns the slot with this `time` and these `events`.
#[inline(always)]
fn slot_of<'a>(time: Time, events: FoundEvents<'a>) -> SlotView<'a>
    ensures { slot_of_view result ≡ held time (events_found events.entry) }
{
    match events {
        FoundEvents::One(event) => SlotView::Single(time, event),
        FoundEvents::Many(events) => SlotView::Held(time, events),
    }
}

/// Reads a slot at the start of `bytes`; nil is the empty slot. Returns the slot and the bytes after it.
#[inline(always)]
pub fn read_slot(bytes: &[u8]) -> Option<(SlotView<'_>, &[u8])>
    ensures { IfSome result (λ x. ReadsIn 6 slot (slot_of_view x.0) bytes.now x.1.now) }
{
    match skip_nil(bytes) {
        Some(rest) => Some((SlotView::Empty, rest)),
        None => match read_held(bytes) {
            Some((number, events, rest)) => match Time::new(number) {
                Some(time) => Some((slot_of(time, events), rest)),
                None => None,
            },
            None => None,
        },
    }
}

/// Skips `count` slots at the start of `bytes`, and returns the bytes after them.
fn skip_slots(count: u64, bytes: &[u8]) -> Option<&[u8]>
    ensures { IfSome result (λ rest. AreItems 6 slot count bytes.now rest.now) }
{
    let mut rest = bytes;
    'slots: for _ in 0..count {
        let Some((_, following)) = read_slot(rest) else {
            return None;
        };
        rest = following;
    }
    Some(rest)
}

/// Skips a list of slots or a nil at the start of `bytes`, and returns the bytes after it.
fn skip_slot_list(bytes: &[u8]) -> Option<&[u8]>
    ensures { IfSome result (λ rest. Spans 5 (list slot) bytes.now rest.now) }
{
    laws_below();
    match skip_nil(bytes) {
        Some(rest) => Some(rest),
        None => {
            let (count, items) = read_array_head(bytes)?;
            skip_slots(count, items)
        }
    }
}

/// Reads a list of slots at the start of `bytes`. Returns the list and the bytes after it.
fn read_slots(bytes: &[u8]) -> Option<(SlotViews<'_>, &[u8])>
    ensures { IfSome result (λ x. ReadsIn 5 (list slot) (slots_left x.0) bytes.now x.1.now) }
{
    let rest = skip_slot_list(bytes)?;
    let list = view_before(bytes, rest);
    Some((SlotViews::of(Some(list)), rest))
}

/// Reads slots as `read_slots` does, for a key that may appear only once. Returns `None` if `found` already
/// has the slots of an earlier pair.
pub fn once_slots<'a>(
    found: Option<SlotViews<'a>>,
    bytes: &'a [u8],
) -> Option<(SlotViews<'a>, &'a [u8])>
    ensures none { IfSome result (λ x. option_map slots_left found.entry ≡ None) }
    ensures reads { IfSome result (λ x. ReadsIn 5 (list slot) (slots_left x.0) bytes.now x.1.now) }
{
    if found.is_some() {
        return None;
    }
    read_slots(bytes)
}
