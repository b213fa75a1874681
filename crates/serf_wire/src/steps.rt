//! Steps through the slots and the events of a packet. An item in a compact spelling is read in one pass, and
//! any other item is read by the general readers.

ghost use Rattle.std.specs.Prelude.{◌≡◌, ◌∷◌, [], map, IfSome, IfNone};
ghost use Rattle.serf_pack.specs.Walk.{items_left};
ghost use Rattle.serf_wire.specs.Lists.{event_of_view, slot_of_view};
ghost use Rattle.serf_wire.specs.Lookups.{event_body_in, slot_in};

use crate::fast::{read_event, read_slot};
use crate::lists::{EventView, SlotView};
use serf_pack::Items;

/// Returns the next event of `items`, and the items after it. Returns `None` if the event's spelling isn't
/// compact.
#[inline(always)]
fn compact_event<'a>(items: &Items<'a>) -> Option<(EventView<'a>, Items<'a>)>
    ensures { IfSome result (λ x. map event_body_in (items_left items.now)
        ≡ event_of_view x.0 ∷ map event_body_in (items_left x.1)) }
{
    let bytes = items.bytes();
    let Some((event, rest)) = read_event(bytes) else {
        return None;
    };
    match items.following(bytes.len() - rest.len()) {
        Some(following) => Some((event, following)),
        None => None,
    }
}

/// Returns the next event of `items`, and the items after it. Returns `None` after the last event.
#[inline]
pub fn next_event<'a>(items: &Items<'a>) -> Option<(EventView<'a>, Items<'a>)>
    ensures some { IfSome result (λ x. map event_body_in (items_left items.now)
        ≡ event_of_view x.0 ∷ map event_body_in (items_left x.1)) }
    ensures none { IfNone result (items_left items.now ≡ []) }
{
    if items.left() == 0 {
        return None;
    }
    if let Some(found) = compact_event(items) {
        return Some(found);
    }
    let mut following = *items;
    match following.next() {
        Some(item) => Some((EventView::of(&item), following)),
        None => None,
    }
}

/// Returns the next slot of `items`, and the items after it. Returns `None` if the slot's spelling isn't
/// compact.
#[inline(always)]
fn compact_slot<'a>(items: &Items<'a>) -> Option<(SlotView<'a>, Items<'a>)>
    ensures { IfSome result (λ x. map slot_in (items_left items.now)
        ≡ slot_of_view x.0 ∷ map slot_in (items_left x.1)) }
{
    let bytes = items.bytes();
    let Some((slot, rest)) = read_slot(bytes) else {
        return None;
    };
    match items.following(bytes.len() - rest.len()) {
        Some(following) => Some((slot, following)),
        None => None,
    }
}

/// Returns the next slot of `items`, and the items after it. Returns `None` after the last slot.
#[inline]
pub fn next_slot<'a>(items: &Items<'a>) -> Option<(SlotView<'a>, Items<'a>)>
    ensures some { IfSome result (λ x. map slot_in (items_left items.now)
        ≡ slot_of_view x.0 ∷ map slot_in (items_left x.1)) }
    ensures none { IfNone result (items_left items.now ≡ []) }
{
    if let Some(found) = compact_slot(items) {
        return Some(found);
    }
    let mut following = *items;
    match following.next() {
        Some(item) => Some((SlotView::of(&item), following)),
        None => None,
    }
}
