//! Reads the status times of a push/pull, which are a map from members' names to times, in a compact
//! spelling.

ghost use Rattle.std.specs.Prelude.{◌≡◌, None, Ok, IfSome};
ghost use Rattle.std.specs.Option.{option_map};
ghost use Rattle.serf_pack.specs.declared.head.Head.TheVariants as heads;
ghost use Rattle.serf_pack.specs.Reading.{head_at};
ghost use Rattle.serf_wire.specs.Fields.{status};
ghost use Rattle.serf_wire.specs.Fast.{ReadsIn, Spans, SpansStatusTime, AreParts, status_part_bytes};
ghost use Rattle.serf_wire.specs.Lists.{status_left};

use crate::compact::{read_long_map_head, read_number, read_raw, skip_nil, view_before};
use crate::laws::laws_below;
use crate::lists::StatusTimes;

/// Skips a name and its time at the start of `bytes`, and returns the bytes after them.
#[inline(always)]
fn skip_status_time(bytes: &[u8]) -> Option<&[u8]>
    ensures { IfSome result (λ rest. SpansStatusTime bytes.now rest.now) }
{
    let (_, number) = read_raw(bytes)?;
    let (_, rest) = read_number(number)?;
    Some(rest)
}

/// Skips `count` names with their times at the start of `bytes`, and returns the bytes after them.
fn skip_status_times(count: u64, bytes: &[u8]) -> Option<&[u8]>
    ensures { IfSome result (λ rest. AreParts status_part_bytes count bytes.now rest.now) }
{
    let mut rest = bytes;
    'times: for _ in 0..count {
        let Some(following) = skip_status_time(rest) else {
            return None;
        };
        rest = following;
    }
    Some(rest)
}

/// Skips a map of names and times, or a nil, at the start of `bytes`. Returns the bytes after it.
fn skip_status(bytes: &[u8]) -> Option<&[u8]>
    ensures { IfSome result (λ rest. Spans 8 status bytes.now rest.now) }
{
    laws_below();
    match skip_nil(bytes) {
        Some(rest) => Some(rest),
        None => {
            let (count, pairs) = read_long_map_head(bytes)?;
            skip_status_times(count, pairs)
        }
    }
}

/// Reads a map of names and times at the start of `bytes`. Returns the map and the bytes after it.
fn read_status(bytes: &[u8]) -> Option<(StatusTimes<'_>, &[u8])>
    ensures { IfSome result (λ x. ReadsIn 8 status (status_left x.0) bytes.now x.1.now) }
{
    let rest = skip_status(bytes)?;
    let map = view_before(bytes, rest);
    Some((StatusTimes::of(Some(map)), rest))
}

/// Reads status times as `read_status` does, for a key that may appear only once. Returns `None` if `found`
/// already has the status times of an earlier pair.
pub fn once_status<'a>(
    found: Option<StatusTimes<'a>>,
    bytes: &'a [u8],
) -> Option<(StatusTimes<'a>, &'a [u8])>
    ensures none { IfSome result (λ x. option_map status_left found.entry ≡ None) }
    ensures reads { IfSome result (λ x. ReadsIn 8 status (status_left x.0) bytes.now x.1.now) }
{
    if found.is_some() {
        return None;
    }
    read_status(bytes)
}
