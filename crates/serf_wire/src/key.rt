//! Reads the known keys of user events and push/pulls. Each key follows its raw header, a single byte that is
//! 0xa0 plus the key's length.

ghost use Rattle.std.specs.Prelude.{◌≡◌, ◌++◌, IfSome};
ghost use Rattle.serf_pack.specs.Canonical.{raw_bytes};
ghost use Rattle.serf_wire.specs.Keys.{event_name, state_name};

/// A key of a user event.
#[derive(Clone, Copy)]
pub enum EventKey {
    Time,
    Name,
    Payload,
    Cc,
}

/// A key of a state, which is the map of a push/pull.
#[derive(Clone, Copy)]
pub enum StateKey {
    Time,
    StatusTimes,
    LeftMembers,
    EventTime,
    Events,
    QueryTime,
}

/// Reads a known key of a user event at the start of `bytes`. Returns the key and the bytes after it.
#[inline(always)]
pub fn read_event_key(bytes: &[u8]) -> Option<(EventKey, &[u8])>
    ensures { IfSome result (λ x. bytes.now ≡ raw_bytes (event_name x.0) ++ x.1.now) }
{
    match bytes {
        [0xa5, b'L', b'T', b'i', b'm', b'e', value @ ..] => Some((EventKey::Time, value)),
        [0xa4, b'N', b'a', b'm', b'e', value @ ..] => Some((EventKey::Name, value)),
        [0xa7, b'P', b'a', b'y', b'l', b'o', b'a', b'd', value @ ..] => Some((
            EventKey::Payload,
            value,
        )),
        [0xa2, b'C', b'C', value @ ..] => Some((EventKey::Cc, value)),
        _ => None,
    }
}

/// Reads the key `StatusLTimes` or `LeftMembers` of a state at the start of `bytes`. Returns the key and the
/// bytes after it.
#[inline(always)]
fn read_members_key(bytes: &[u8]) -> Option<(StateKey, &[u8])>
    ensures { IfSome result (λ x. bytes.now ≡ raw_bytes (state_name x.0) ++ x.1.now) }
{
    match bytes {
        [
            0xac,
            b'S',
            b't',
            b'a',
            b't',
            b'u',
            b's',
            b'L',
            b'T',
            b'i',
            b'm',
            b'e',
            b's',
            value @ ..,
        ] => Some((StateKey::StatusTimes, value)),
        [
            0xab,
            b'L',
            b'e',
            b'f',
            b't',
            b'M',
            b'e',
            b'm',
            b'b',
            b'e',
            b'r',
            b's',
            value @ ..,
        ] => Some((StateKey::LeftMembers, value)),
        _ => None,
    }
}

/// Reads the key `EventLTime` or `QueryLTime` of a state at the start of `bytes`. Returns the key and the
/// bytes after it.
#[inline(always)]
fn read_clock_key(bytes: &[u8]) -> Option<(StateKey, &[u8])>
    ensures { IfSome result (λ x. bytes.now ≡ raw_bytes (state_name x.0) ++ x.1.now) }
{
    match bytes {
        [
            0xaa,
            b'E',
            b'v',
            b'e',
            b'n',
            b't',
            b'L',
            b'T',
            b'i',
            b'm',
            b'e',
            value @ ..,
        ] => Some((StateKey::EventTime, value)),
        [
            0xaa,
            b'Q',
            b'u',
            b'e',
            b'r',
            b'y',
            b'L',
            b'T',
            b'i',
            b'm',
            b'e',
            value @ ..,
        ] => Some((StateKey::QueryTime, value)),
        _ => None,
    }
}

/// Reads a known key of a state at the start of `bytes`. Returns the key and the bytes after it.
#[inline(always)]
pub fn read_state_key(bytes: &[u8]) -> Option<(StateKey, &[u8])>
    ensures { IfSome result (λ x. bytes.now ≡ raw_bytes (state_name x.0) ++ x.1.now) }
{
    match bytes {
        [0xa5, b'L', b'T', b'i', b'm', b'e', value @ ..] => Some((StateKey::Time, value)),
        [0xa6, b'E', b'v', b'e', b'n', b't', b's', value @ ..] => Some((StateKey::Events, value)),
        [0xaa, ..] => read_clock_key(bytes),
        _ => read_members_key(bytes),
    }
}
