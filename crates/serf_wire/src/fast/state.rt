//! Reads the map of a push/pull, which is a node's whole state, in a compact spelling and in one pass.

ghost use Rattle.std.specs.Prelude.{◌≡◌, [], unwrap_or, IfSome};
ghost use Rattle.std.specs.Option.{option_map};
ghost use Rattle.serf_wire.specs.Fast.{Extends, IsStateSoFar, IsReadSoFar, found_state};
ghost use Rattle.serf_wire.specs.Lists.{status_left, slots_left};
ghost use Rattle.serf_wire.specs.Message.{push_pull, push_pull_said};
ghost use Rattle.serf_wire.specs.Spells.{SpellsMap};
ghost use Rattle.serf_wire.specs.declared.layout.MessageType.TheVariants as types;

use super::slots::once_slots;
use super::status::once_status;
use crate::compact::{once_number, once_texts, or_none, or_zero, read_map_head};
use crate::key::{StateKey, read_state_key};
use crate::laws::laws_below;
use crate::lists::{SlotViews, StatusTimes, Texts};
use crate::message::PushPull;

/// The values that were found so far for the keys of a push/pull.
#[derive(Clone, Copy)]
struct StateFields<'a> {
    member_clock: Option<u64>,
    status: Option<StatusTimes<'a>>,
    left: Option<Texts<'a>>,
    event_clock: Option<u64>,
    slots: Option<SlotViews<'a>>,
    query_clock: Option<u64>,
}

/// Reads the pair at the start of `bytes` and adds it to `found`. Returns the bytes after the pair.
fn read_pair<'a>(found: &mut StateFields<'a>, bytes: &'a [u8]) -> Option<&'a [u8]>
    ensures { IfSome result (λ rest. Extends IsStateSoFar found.old found.new bytes.now rest.now) }
{
    let (key, value) = read_state_key(bytes)?;
    match key {
        StateKey::Time => {
            let (member_clock, rest) = once_number(found.member_clock, value)?;
            found.member_clock = Some(member_clock);
            Some(rest)
        }
        StateKey::StatusTimes => {
            let (status, rest) = once_status(found.status, value)?;
            found.status = Some(status);
            Some(rest)
        }
        StateKey::LeftMembers => {
            let (left, rest) = once_texts(found.left, value)?;
            found.left = Some(left);
            Some(rest)
        }
        StateKey::EventTime => {
            let (event_clock, rest) = once_number(found.event_clock, value)?;
            found.event_clock = Some(event_clock);
            Some(rest)
        }
        StateKey::Events => {
            let (slots, rest) = once_slots(found.slots, value)?;
            found.slots = Some(slots);
            Some(rest)
        }
        StateKey::QueryTime => {
            let (query_clock, rest) = once_number(found.query_clock, value)?;
            found.query_clock = Some(query_clock);
            Some(rest)
        }
    }
}

/// Reads the first `count` pairs of `bytes`. Returns their values, and the bytes after these pairs. This is a
/// separate function, so that it doesn't slow down the readers of smaller messages.
#[inline(never)]
fn read_pairs(count: u8, bytes: &[u8]) -> Option<(StateFields<'_>, &[u8])>
    ensures { IfSome result (λ x. IsReadSoFar IsStateSoFar x.0 count bytes.now x.1.now) }
{
    laws_below();
    let mut found = StateFields {
        member_clock: None,
        status: None,
        left: None,
        event_clock: None,
        slots: None,
        query_clock: None,
    };
    let mut rest = bytes;
    'pairs: for _ in 0..count {
        let Some(following) = read_pair(&mut found, rest) else {
            return None;
        };
        rest = following;
    }
    Some((found, rest))
}

/// Returns the status times in `found`, or no status times if none were found.
fn or_no_status<'a>(found: Option<StatusTimes<'a>>) -> StatusTimes<'a>
    ensures { status_left result ≡ unwrap_or (option_map status_left found.entry) [] }
{
    match found {
        None => StatusTimes::of(None),
        Some(status) => status,
    }
}

/// Returns the slots in `found`, or no slots if none were found.
fn or_no_slots<'a>(found: Option<SlotViews<'a>>) -> SlotViews<'a>
    ensures { slots_left result ≡ unwrap_or (option_map slots_left found.entry) [] }
{
    match found {
        None => SlotViews::of(None),
        Some(slots) => slots,
    }
}

/// Builds the push/pull from the values in `found`. If a key is missing, its value is zero or empty.
fn state_of<'a>(found: &StateFields<'a>) -> PushPull<'a>
    ensures { push_pull_said result ≡ found_state found.now }
{
    PushPull {
        member_clock: or_zero(found.member_clock),
        status: or_no_status(found.status),
        left: or_none(found.left),
        event_clock: or_zero(found.event_clock),
        slots: or_no_slots(found.slots),
        query_clock: or_zero(found.query_clock),
    }
}

/// Returns the push/pull whose map `bytes` spell, or `None` if their spelling isn't compact.
#[inline(never)]
pub fn read_push_pull(bytes: &[u8]) -> Option<PushPull<'_>>
    ensures { IfSome result (λ m.
        SpellsMap types.PushPull (push_pull (push_pull_said m)) bytes.now) }
{
    let (count, pairs) = read_map_head(bytes)?;
    let Some((found, end)) = read_pairs(count, pairs) else {
        return None;
    };
    if !end.is_empty() {
        return None;
    }
    Some(state_of(&found))
}
