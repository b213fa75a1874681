//! Reads a user event's map in a compact spelling, in one pass.

ghost use Rattle.std.specs.Prelude.{◌≡◌, ◌<◌, [], false, unwrap_or, IfSome};
ghost use Rattle.std.specs.Option.{option_copied};
ghost use Rattle.serf_lamport.specs.Clock.{max_clock};
ghost use Rattle.serf_wire.specs.Fast.{Extends, IsEventSoFar, IsReadSoFar, found_event};
ghost use Rattle.serf_wire.specs.Message.{event_said, user_event};
ghost use Rattle.serf_wire.specs.Spells.{SpellsMap};
ghost use Rattle.serf_wire.specs.declared.layout.MessageType.TheVariants as types;

use crate::compact::{once_flag, once_number, once_text, read_map_head};
use crate::key::{EventKey, read_event_key};
use crate::laws::laws_below;
use crate::message::UserEvent;
use serf_lamport::Time;

/// The values that were found so far for the keys of a user event.
#[derive(Clone, Copy)]
struct EventFields<'a> {
    time: Option<u64>,
    name: Option<&'a [u8]>,
    payload: Option<&'a [u8]>,
    coalesce: Option<bool>,
}

/// Reads the pair at the start of `bytes` and adds it to `found`. Returns the bytes after the pair.
#[inline(always)]
fn read_pair<'a>(found: &mut EventFields<'a>, bytes: &'a [u8]) -> Option<&'a [u8]>
    ensures { IfSome result (λ rest. Extends IsEventSoFar found.old found.new bytes.now rest.now) }
{
    let (key, value) = read_event_key(bytes)?;
    match key {
        EventKey::Time => {
            let (time, rest) = once_number(found.time, value)?;
            found.time = Some(time);
            Some(rest)
        }
        EventKey::Name => {
            let (name, rest) = once_text(found.name, value)?;
            found.name = Some(name);
            Some(rest)
        }
        EventKey::Payload => {
            let (payload, rest) = once_text(found.payload, value)?;
            found.payload = Some(payload);
            Some(rest)
        }
        EventKey::Cc => {
            let (coalesce, rest) = once_flag(found.coalesce, value)?;
            found.coalesce = Some(coalesce);
            Some(rest)
        }
    }
}

/// Reads the first `count` pairs of `bytes`. Returns their values, and the bytes after these pairs.
#[inline(always)]
fn read_pairs(count: u8, bytes: &[u8]) -> Option<(EventFields<'_>, &[u8])>
    ensures { IfSome result (λ x. IsReadSoFar IsEventSoFar x.0 count bytes.now x.1.now) }
{
    laws_below();
    let mut found = EventFields {
        time: None,
        name: None,
        payload: None,
        coalesce: None,
    };
    let mut rest = bytes;
    'pairs: for _ in 0..count {
        let Some(following) = read_pair(&mut found, rest) else {
            return None;
        };
        rest = following;
    }
    Some((found, rest))
}

/// Builds the user event from the values in `found`. If a key is missing, its value is zero or empty. Returns
/// `None` if the time is 2^64 - 1.
fn event_of<'a>(found: &EventFields<'a>) -> Option<UserEvent<'a>>
    ensures event { IfSome result (λ e. event_said e ≡ found_event found.now) }
    ensures time { IfSome result (λ e. unwrap_or found.now.time 0 < max_clock) }
{
    let number = match found.time {
        None => 0,
        Some(number) => number,
    };
    let Some(time) = Time::new(number) else {
        return None;
    };
    Some(UserEvent {
        time,
        name: match found.name {
            None => b"",
            Some(name) => name,
        },
        payload: match found.payload {
            None => b"",
            Some(payload) => payload,
        },
        coalesce: match found.coalesce {
            None => false,
            Some(coalesce) => coalesce,
        },
    })
}

/// Returns the user event whose map `bytes` spell, or `None` if their spelling isn't compact.
#[inline(always)]
pub fn read_user_event(bytes: &[u8]) -> Option<UserEvent<'_>>
    ensures { IfSome result (λ e. SpellsMap types.UserEvent (user_event (event_said e)) bytes.now) }
{
    let (count, pairs) = read_map_head(bytes)?;
    let Some((found, end)) = read_pairs(count, pairs) else {
        return None;
    };
    if !end.is_empty() {
        return None;
    }
    event_of(&found)
}
