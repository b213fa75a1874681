//! Finds texts and lists that are too long for any packet.

ghost use Rattle.std.specs.Prelude.{◌≡◌, ◌||◌};
ghost use Rattle.std.specs.List.{list_any};
ghost use Rattle.serf_wire.specs.Canonical.{is_long, is_long_event, is_long_slot, has_long};
ghost use Rattle.serf_wire.specs.Message.{push_pull, query, query_of};
ghost use Rattle.serf_wire.specs.Parts.{push_pull_of, slot_content};

use crate::lists::StatusTime;
use crate::message::{PushPullParts, Query};
use crate::texts::{Bytes, EventBody, Slot};

/// The maximum number of bytes of a text, or of items of a list, that a header in a packet can state.
pub const LONGEST: usize = 4_294_967_295;

/// Returns whether a text is longer than 4,294,967,295 bytes.
pub fn is_long_text(text: &[u8]) -> bool
    ensures { result ≡ is_long text.now }
{
    text.len() > LONGEST
}

/// Returns whether one of the filters is longer than 4,294,967,295 bytes.
fn has_long_filter(filters: &[Bytes]) -> bool
    ensures { result ≡ list_any is_long filters.now }
{
    for filter in filters {
        if is_long_text(filter.as_slice()) {
            return true;
        }
    }
    false
}

/// Returns whether one of the texts is longer than 4,294,967,295 bytes.
pub fn has_long_text(texts: &[&[u8]]) -> bool
    ensures { result ≡ list_any (λ t. is_long t.now) texts.now }
{
    for text in texts {
        if is_long_text(text) {
            return true;
        }
    }
    false
}

/// Returns whether one of the members' names is longer than 4,294,967,295 bytes.
fn has_long_name(status: &[StatusTime]) -> bool
    ensures { result ≡ list_any (λ s. is_long s.name.now) status.now }
{
    for entry in status {
        if is_long_text(entry.name) {
            return true;
        }
    }
    false
}

/// Returns whether one of the events has a name or a payload of more than 4,294,967,295 bytes.
fn has_long_event(events: &[EventBody]) -> bool
    ensures { result ≡ list_any is_long_event events.now }
{
    for event in events {
        if is_long_text(event.name.as_slice()) || is_long_text(event.payload.as_slice()) {
            return true;
        }
    }
    false
}

/// Returns whether one of the slots has more than 4,294,967,295 events, or an event whose name or payload has
/// more than 4,294,967,295 bytes.
fn has_long_slot(slots: &[Slot]) -> bool
    ensures { result ≡ list_any (λ s. is_long_slot (slot_content s)) slots.now }
{
    for slot in slots {
        let events = slot.held.as_slice();
        if events.len() > LONGEST || has_long_event(events) {
            return true;
        }
    }
    false
}

/// Returns whether a text or a list of the query is too long for a packet.
#[tactic(auto, unfolding(crate::specs::Canonical::has_long))]
pub fn is_long_query(parts: &Query<&[Bytes]>) -> bool
    ensures { result ≡ has_long (query (query_of parts.now)) }
{
    is_long_text(parts.addr)
        || is_long_text(parts.source)
        || parts.filters.len() > LONGEST
        || has_long_filter(parts.filters)
        || is_long_text(parts.name)
        || is_long_text(parts.payload)
}

/// Returns whether a text or a list of the push/pull is too long for a packet.
#[tactic(auto, unfolding(crate::specs::Canonical::has_long))]
pub fn is_long_push_pull(parts: &PushPullParts) -> bool
    ensures { result ≡ has_long (push_pull (push_pull_of parts.now)) }
{
    parts.status.len() > LONGEST
        || has_long_name(parts.status)
        || parts.left.len() > LONGEST
        || has_long_text(parts.left)
        || parts.slots.len() > LONGEST
        || has_long_slot(parts.slots.used)
}
