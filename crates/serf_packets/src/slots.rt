//! Builds the canonical packet of a push/pull from the rows of the push/pull's text.

ghost use Rattle.std.specs.Prelude.{◌≡◌, ◌++◌, ◌∷◌, [], IfOk, OnOk, Some, map};
ghost use Rattle.std.specs.List.{fold};
ghost use Rattle.serf_wire.specs.Lists.{status_of};
ghost use Rattle.serf_wire.specs.Message.{push_pull};
ghost use Rattle.serf_wire.specs.Parts.{push_pull_of, slot_content};
ghost use Rattle.serf_packets.specs.Rows.{row_seen, rows_of};
ghost use Rattle.serf_packets.specs.Meant.{after_row, member_meant, on_last, push_pull_meant, slots_meant, with_event};
ghost use Rattle.serf_packets.specs.States.{IsPacketOf, member_held, members_of};

use crate::meant::{bytes_in, number_field, number_to, texts_field, time_in};
use crate::row::{Row, is_named};
use serf_wire::{
    BorrowedSlots, Bytes, EncodeError, EventBody, PushPullParts, ReservedVec, Slot, StatusTime,
    encode_push_pull,
};
use std::alloc::{AllocError, Global};

/// A member in a push/pull, with the member's name and the Lamport time of its status.
#[derive(Debug, Drop)]
pub(crate) struct Member {
    pub(crate) name: Bytes,
    pub(crate) time: u64,
}

/// If `row` is a `status` row (`status NAME TIME`), appends the member that the row names to `members`.
fn take_member(alloc: Global, members: &mut Vec<Member>, row: &Row) -> Result<(), AllocError>
    ensures { OnOk result (map member_held members.new.items ≡ map member_held members.old.items
        ++ members_of (row_seen row.now ∷ [])) }
{
    if !is_named(row, b"status") {
        return Ok(());
    }
    let name = bytes_in(alloc, row.first)?;
    let time = number_to(row.second, u64::MAX);
    members.push(Member { name, time })?;
    Ok(())
}

/// Returns, in order, the members that the `status` rows in `rows` name, together with the members' status times.
fn members_in(alloc: Global, rows: &[Row]) -> Result<Vec<Member>, AllocError>
    ensures { IfOk result (λ members. map member_held members.items
        ≡ members_of (map row_seen rows.now)) }
{
    let mut members = Vec::new(alloc);
    for row in rows {
        take_member(alloc, &mut members, row)?;
    }
    Ok(members)
}

/// Borrows the names and status times of `members`, in the form that [`PushPullParts`] needs.
fn borrow_members<'a>(
    alloc: Global,
    members: &'a [Member],
) -> Result<Vec<StatusTime<'a>>, AllocError>
    ensures { IfOk result (λ status. map status_of status.items
        ≡ map member_held members.entry.now) }
{
    let mut status = Vec::new(alloc);
    for member in members {
        status.push(StatusTime {
            name: member.name.as_slice(),
            time: member.time,
        })?;
    }
    Ok(status)
}

/// Borrows the bytes of each text in `texts`, in the form that [`PushPullParts`] needs.
fn borrow_texts<'a>(alloc: Global, texts: &'a [Bytes]) -> Result<Vec<&'a [u8]>, AllocError>
    ensures { IfOk result (λ borrowed. map (λ t. t.now) borrowed.items ≡ texts.entry.now) }
{
    let mut borrowed = Vec::new(alloc);
    for text in texts {
        borrowed.push(text.as_slice())?;
    }
    Ok(borrowed)
}

/// Adds `event` to the last slot in `slots`. If there is no slot, does nothing.
#[tactic(auto, using(crate::proofs::ListLaws::last_changed))]
fn add_event(slots: &mut Vec<Slot>, event: EventBody) -> Result<(), AllocError>
    ensures { OnOk result (map slot_content slots.new.items
        ≡ on_last (with_event event) (map slot_content slots.old.items)) }
{
    let Some(mut slot) = slots.pop() else {
        return Ok(());
    };
    slot.held.make_room()?;
    slot.held.add(event);
    slots.push(slot)?;
    Ok(())
}

/// Applies `row` to `slots`. A row `slot I TIME` begins a slot, and a row `event NAME PAYLOAD` adds an event to the
/// last slot. A row `slot I nil` begins a slot with the time 0. Any other row changes nothing.
fn take_slot(alloc: Global, slots: &mut Vec<Slot>, row: &Row) -> Result<(), AllocError>
    ensures { OnOk result (map slot_content slots.new.items
        ≡ after_row (map slot_content slots.old.items) (row_seen row.now)) }
{
    if is_named(row, b"slot") {
        let time = time_in(row.second);
        slots.push(Slot {
            time,
            held: ReservedVec::new(alloc),
        })?;
        Ok(())
    } else if is_named(row, b"event") {
        let name = bytes_in(alloc, row.first)?;
        let payload = bytes_in(alloc, row.second)?;
        add_event(slots, EventBody { name, payload })
    } else {
        Ok(())
    }
}

/// Returns, in order, the slots that `rows` name, together with the slots' events.
fn slots_in(alloc: Global, rows: &[Row]) -> Result<Vec<Slot>, AllocError>
    ensures { IfOk result (λ slots. map slot_content slots.items
        ≡ slots_meant (map row_seen rows.now)) }
{
    let mut slots = Vec::new(alloc);
    for row in rows {
        take_slot(alloc, &mut slots, row)?;
    }
    Ok(slots)
}

/// Returns the canonical packet of the push/pull `parts`. The function is separate because its clause is needed to
/// prove [`push_pull_packet`].
fn write_push_pull(alloc: Global, parts: &PushPullParts) -> Result<Vec<u8>, EncodeError>
    ensures { IsPacketOf (λ p. p.items) result (push_pull (push_pull_of parts.now)) }
{
    encode_push_pull(alloc, parts)
}

/// Returns the canonical packet of the push/pull that `rows` describe. The packet contains only the slots that `rows`
/// name. A missing or bad field is read as 0 or as empty.
#[tactic(auto, unfolding(crate::specs::Meant::push_pull_meant))]
pub(crate) fn push_pull_packet(alloc: Global, rows: &[Row]) -> Result<Vec<u8>, EncodeError>
    ensures { IsPacketOf (λ p. p.items) result
        (push_pull (push_pull_meant (map row_seen rows.now))) }
{
    let members = members_in(alloc, rows)?;
    let status = borrow_members(alloc, members.as_slice())?;
    let left_texts = texts_field(alloc, rows, b"left")?;
    let left_members = borrow_texts(alloc, left_texts.as_slice())?;
    let slots = slots_in(alloc, rows)?;
    let borrowed_slots = BorrowedSlots::of(slots.as_slice(), 0);
    let parts = PushPullParts {
        member_clock: number_field(rows, b"LTime", u64::MAX),
        status: status.as_slice(),
        left: left_members.as_slice(),
        event_clock: number_field(rows, b"EventLTime", u64::MAX),
        slots: borrowed_slots,
        query_clock: number_field(rows, b"QueryLTime", u64::MAX),
    };
    write_push_pull(alloc, &parts)
}
