//! Finds the fields of the one map that follows a packet's type byte. The map may have any layout.

ghost use Rattle.std.specs.Prelude.{◌≡◌, ◌<◌, ◌^◌};
ghost use Rattle.serf_pack.specs.Breaks.{error_place};
ghost use Rattle.serf_pack.specs.Reading.{whole_at};
ghost use Rattle.serf_pack.specs.View.{tree_of};
ghost use Rattle.serf_wire.specs.Checked.{sound_pairs, checked_pairs, FindsChecked};
ghost use Rattle.serf_wire.specs.Spells.{shifted};

use crate::error::WireError;
use crate::errors::find_known;
use crate::found::FoundFields;
use crate::layout::Layout;
use serf_pack::{Kind, PackError, View, check};

/// Turns `error`, whose offset counts from the byte after the type byte, into an error of the whole packet.
/// Its offset becomes one higher.
fn shift(error: PackError) -> PackError
    requires { error_place error < 2 ^ 63 }
    ensures { result ≡ shifted error }
{
    match error {
        PackError::Truncated(place) => PackError::Truncated(place + 1),
        PackError::Unsupported(byte, place) => PackError::Unsupported(byte, place + 1),
        PackError::TooDeep(place) => PackError::TooDeep(place + 1),
        PackError::Trailing(place) => PackError::Trailing(place + 1),
    }
}

/// Returns the values of those fields of the map `value` that `layout` knows, or the map's first error.
/// Returns `NotAMap` if `value` isn't a map.
fn find_map<'a>(layout: Layout, value: &View<'a>) -> Result<FoundFields<'a>, WireError>
    ensures { FindsChecked layout result (sound_pairs layout (tree_of value.now)) }
{
    if value.kind() != Kind::Map {
        return Err(WireError::NotAMap);
    }
    find_known(layout, value)
}

/// Reads the map that `bytes` spell after a packet's type byte. Returns the values of those fields that
/// `layout` knows, or the packet's first error.
pub fn find_checked(layout: Layout, bytes: &[u8]) -> Result<FoundFields<'_>, WireError>
    ensures { FindsChecked layout result (checked_pairs layout (whole_at 8 bytes.now)) }
{
    match check(bytes) {
        Ok(value) => find_map(layout, &value),
        Err(error) => Err(WireError::Pack(shift(error))),
    }
}
