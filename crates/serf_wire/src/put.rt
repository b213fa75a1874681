//! Appends the fields and lists of canonical packets to a vector, `out`.

ghost use Rattle.std.specs.Prelude.{◌≡◌, ◌<◌, ◌^◌, ◌++◌, false, true, length, nat_lt, codes, map, replicate, OnOk, Some};
ghost use Rattle.std.specs.List.{flat_map, list_any, list_all};
ghost use Rattle.serf_lamport.specs.Clock.{max_clock};
ghost use Rattle.serf_pack.specs.Canonical.{map_head, raw_bytes, uint_bytes, int_bytes, flag_bytes};
ghost use Rattle.serf_wire.specs.Lists.{status_of};
ghost use Rattle.serf_wire.specs.Buffers.{slots_borrowed, unused_slot};
ghost use Rattle.serf_wire.specs.Parts.{slot_content};
ghost use Rattle.serf_wire.specs.Fields.{fits};
ghost use Rattle.serf_wire.specs.Canonical.{entry, list_bytes, status_bytes, event_bytes, slot_bytes, status_time_bytes, is_long, is_long_event, is_long_slot};

use crate::borrowed_slots::BorrowedEventSlots;
use crate::lists::StatusTime;
use crate::message::Query;
use crate::texts::{Bytes, EventBody, Slot};
use serf_pack::{
    write_array, write_bool, write_integer, write_map, write_nil, write_raw, write_unsigned,
};
use std::alloc::AllocError;

/// Appends a field whose key is `name` and whose value is `text`.
pub fn write_text_field(out: &mut Vec<u8>, name: &[u8], text: &[u8]) -> Result<(), AllocError>
    requires name { length name.now < 2 ^ 32 }
    requires text { length text.now < 2 ^ 32 }
    ensures { OnOk result (out.new.items ≡ out.old.items ++ entry name.now (raw_bytes text.now)) }
{
    write_raw(out, name)?;
    write_raw(out, text)
}

/// Appends a field whose key is `name` and whose value is `number`.
pub fn write_number_field(out: &mut Vec<u8>, name: &[u8], number: u64) -> Result<(), AllocError>
    requires { length name.now < 2 ^ 32 }
    ensures { OnOk result (out.new.items ≡ out.old.items ++ entry name.now (uint_bytes number)) }
{
    write_raw(out, name)?;
    write_unsigned(out, number)
}

/// Appends the field with a query's timeout.
pub fn write_timeout_field(out: &mut Vec<u8>, parts: &Query<&[Bytes]>) -> Result<(), AllocError>
    ensures timeout { OnOk result (fits parts.now.timeout ≡ Some parts.now.timeout) }
    ensures bytes { OnOk result (out.new.items ≡ out.old.items
        ++ entry (codes "Timeout") (int_bytes parts.now.timeout)) }
{
    write_raw(out, b"Timeout")?;
    write_integer(out, parts.timeout)
}

/// Appends a field whose key is `name` and whose value is the truth value `flag`.
pub fn write_flag_field(out: &mut Vec<u8>, name: &[u8], flag: bool) -> Result<(), AllocError>
    requires { length name.now < 2 ^ 32 }
    ensures { OnOk result (out.new.items ≡ out.old.items ++ entry name.now (flag_bytes flag)) }
{
    write_raw(out, name)?;
    write_bool(out, flag)
}

/// Appends the items of a list of filters, without its header.
fn write_filters(out: &mut Vec<u8>, filters: &[Bytes]) -> Result<(), AllocError>
    requires { list_any is_long filters.now ≡ false }
    ensures { OnOk result (out.new.items ≡ out.old.items ++ flat_map raw_bytes filters.now) }
{
    for filter in filters {
        write_raw(out, filter.as_slice())?;
    }
    Ok(())
}

/// Appends a field whose key is `name` and whose value is a list of filters.
pub fn write_filters_field(
    out: &mut Vec<u8>,
    name: &[u8],
    filters: &[Bytes],
) -> Result<(), AllocError>
    requires name { length name.now < 2 ^ 32 }
    requires list { length filters.now < 2 ^ 32 }
    requires items { list_any is_long filters.now ≡ false }
    ensures { OnOk result (out.new.items ≡ out.old.items
        ++ entry name.now (list_bytes raw_bytes filters.now)) }
{
    write_raw(out, name)?;
    write_array(out, filters.len() as u32)?;
    write_filters(out, filters)
}

/// Appends the items of a list of texts, without its header.
pub fn write_texts(out: &mut Vec<u8>, texts: &[&[u8]]) -> Result<(), AllocError>
    requires { list_any (λ t. is_long t.now) texts.now ≡ false }
    ensures { OnOk result (out.new.items ≡ out.old.items
        ++ flat_map (λ t. raw_bytes t.now) texts.now) }
{
    for text in texts {
        write_raw(out, text)?;
    }
    Ok(())
}

/// Appends a field whose key is `name` and whose value is a list of texts.
pub fn write_texts_field(out: &mut Vec<u8>, name: &[u8], texts: &[&[u8]]) -> Result<(), AllocError>
    requires name { length name.now < 2 ^ 32 }
    requires list { length texts.now < 2 ^ 32 }
    requires items { list_any (λ t. is_long t.now) texts.now ≡ false }
    ensures { OnOk result (out.new.items ≡ out.old.items
        ++ entry name.now (list_bytes (λ t. raw_bytes t.now) texts.now)) }
{
    write_raw(out, name)?;
    write_array(out, texts.len() as u32)?;
    write_texts(out, texts)
}

/// Appends the pairs of a map of names and times, without its header.
fn write_status_times(out: &mut Vec<u8>, status: &[StatusTime]) -> Result<(), AllocError>
    requires { list_any (λ s. is_long s.name.now) status.now ≡ false }
    ensures bytes { OnOk result (out.new.items ≡ out.old.items
        ++ flat_map (λ s. status_time_bytes (status_of s)) status.now) }
    ensures times { OnOk result (list_all (λ s. nat_lt s.time (2 ^ 64)) status.now ≡ true) }
{
    for entry in status {
        write_number_field(out, entry.name, entry.time)?;
    }
    Ok(())
}

/// Appends a field whose key is `name` and whose value is a map of names and times.
pub fn write_status_field(
    out: &mut Vec<u8>,
    name: &[u8],
    status: &[StatusTime],
) -> Result<(), AllocError>
    requires name { length name.now < 2 ^ 32 }
    requires list { length status.now < 2 ^ 32 }
    requires items { list_any (λ s. is_long s.name.now) status.now ≡ false }
    ensures bytes { OnOk result (out.new.items ≡ out.old.items
        ++ entry name.now (map_head (length status.now)
        ++ flat_map (λ s. status_time_bytes (status_of s)) status.now)) }
    ensures times { OnOk result (list_all (λ s. nat_lt s.time (2 ^ 64)) status.now ≡ true) }
{
    write_raw(out, name)?;
    write_map(out, status.len() as u32)?;
    write_status_times(out, status)
}

/// Appends an event of a slot, as a map of its name and its payload.
fn write_event(out: &mut Vec<u8>, event: &EventBody) -> Result<(), AllocError>
    requires { is_long_event event.now ≡ false }
    ensures { OnOk result (out.new.items ≡ out.old.items ++ event_bytes event.now) }
{
    write_map(out, 2)?;
    write_text_field(out, b"Name", event.name.as_slice())?;
    write_text_field(out, b"Payload", event.payload.as_slice())
}

/// Appends the items of a list of events, without its header.
fn write_events(out: &mut Vec<u8>, events: &[EventBody]) -> Result<(), AllocError>
    requires { list_any is_long_event events.now ≡ false }
    ensures { OnOk result (out.new.items ≡ out.old.items ++ flat_map event_bytes events.now) }
{
    for event in events {
        write_event(out, event)?;
    }
    Ok(())
}

/// Appends a slot with events, as a map of `time` and the list of `events`.
fn write_held(out: &mut Vec<u8>, time: u64, events: &[EventBody]) -> Result<(), AllocError>
    requires list { length events.now < 2 ^ 32 }
    requires items { list_any is_long_event events.now ≡ false }
    ensures { OnOk result (out.new.items ≡ out.old.items
        ++ (map_head 2 ++ entry (codes "LTime") (uint_bytes time)
        ++ entry (codes "Events") (list_bytes event_bytes events.now))) }
{
    write_map(out, 2)?;
    write_number_field(out, b"LTime", time)?;
    write_raw(out, b"Events")?;
    write_array(out, events.len() as u32)?;
    write_events(out, events)
}

/// Appends a slot. A slot without events is written as nil.
fn write_slot(out: &mut Vec<u8>, slot: &Slot) -> Result<(), AllocError>
    requires { is_long_slot (slot_content slot.now) ≡ false }
    ensures bytes { OnOk result (out.new.items ≡ out.old.items
        ++ slot_bytes (slot_content slot.now)) }
    ensures time { OnOk result (slot.now.time < max_clock) }
{
    let time = slot.time.get();
    let events = slot.held.as_slice();
    if events.is_empty() {
        return write_nil(out);
    }
    write_held(out, time, events)
}

/// Appends the items of a list of slots, without its header.
fn write_slots(out: &mut Vec<u8>, slots: &[Slot]) -> Result<(), AllocError>
    requires { list_any (λ s. is_long_slot (slot_content s)) slots.now ≡ false }
    ensures bytes { OnOk result (out.new.items ≡ out.old.items
        ++ flat_map (λ s. slot_bytes (slot_content s)) slots.now) }
    ensures times { OnOk result (list_all (λ s. nat_lt s.time max_clock) slots.now ≡ true) }
{
    for slot in slots {
        write_slot(out, slot)?;
    }
    Ok(())
}

/// Appends `count` slots that were never used, each as nil.
fn write_unused(out: &mut Vec<u8>, count: u32) -> Result<(), AllocError>
    ensures { OnOk result (out.new.items ≡ out.old.items
        ++ flat_map (λ s. slot_bytes (slot_content s)) (replicate count unused_slot)) }
{
    for _ in 0..count {
        write_nil(out)?;
    }
    Ok(())
}

/// Appends a field whose key is `name` and whose value is a list of slots.
pub fn write_slots_field(
    out: &mut Vec<u8>,
    name: &[u8],
    slots: &BorrowedEventSlots,
) -> Result<(), AllocError>
    requires name { length name.now < 2 ^ 32 }
    requires list { length (slots_borrowed slots.now) < 2 ^ 32 }
    requires items { list_any (λ s. is_long_slot (slot_content s)) slots.now.used.now ≡ false }
    ensures bytes { OnOk result (out.new.items ≡ out.old.items
        ++ entry name.now (list_bytes (λ s. slot_bytes (slot_content s))
        (slots_borrowed slots.now))) }
    ensures times { OnOk result
        (list_all (λ s. nat_lt s.time max_clock) (slots_borrowed slots.now) ≡ true) }
{
    write_raw(out, name)?;
    write_array(out, slots.len() as u32)?;
    write_slots(out, slots.used)?;
    write_unused(out, slots.unused)
}
