//! Finds the first error of a map. The offset of an error counts from the packet's type byte, which is the
//! byte before the map. So the code adds 1 to each offset within the map.

ghost use Rattle.std.specs.Prelude.{◌≡◌, ◌++◌, ◌∷◌, [], List, Some, None, IfOk, IfErr, OnOk, IfNone};
ghost use Rattle.serf_pack.specs.Tree.{Tree};
ghost use Rattle.serf_pack.specs.View.{tree_of, pairs_of, raw_of};
ghost use Rattle.serf_wire.specs.Fields.{is_text};
ghost use Rattle.serf_wire.specs.Found.{Finds};
ghost use Rattle.serf_wire.specs.Errors.{value_errors, number_errors, time_errors, signed_errors, text_errors, truth_errors, list_errors, name_errors, status_time_errors, status_errors, key_errors, map_errors, errors_after, layout_errors, first};

use crate::error::WireError;
use crate::found::FoundFields;
use crate::layout::{Kind, Layout, field_of};
use serf_pack::View;

/// Returns whether `key` is raw and its bytes are exactly `name`.
pub fn is_name(key: &View, name: &[u8]) -> bool
    ensures { result ≡ is_text name.now (raw_of (tree_of key.now)) }
{
    match key.raw() {
        Some(bytes) => bytes == name,
        None => false,
    }
}

/// Checks `value` as the value of a field that holds an integer from 0 to `max`. Returns its error, if it has
/// one. Nil is valid.
fn natural_error(value: &View, max: u64) -> Option<WireError>
    ensures { result ≡ first (number_errors max (tree_of value.now)) }
{
    let place = value.offset() + 1;
    match value.kind() {
        serf_pack::Kind::Nil => None,
        _ => match value.int() {
            None => Some(WireError::WrongKind(place)),
            Some(n) if n < 0 || n > i128::from(max) => Some(WireError::OutOfRange(place)),
            Some(_) => None,
        },
    }
}

/// Checks `value` as the value of a field that holds a time, an integer from 0 to 2^64 - 2. Returns its
/// error, if it has one. Nil is valid.
fn time_error(value: &View) -> Option<WireError>
    ensures { result ≡ first (time_errors (tree_of value.now)) }
{
    let place = value.offset() + 1;
    match value.kind() {
        serf_pack::Kind::Nil => None,
        _ => match value.int() {
            None => Some(WireError::WrongKind(place)),
            Some(n) if n == i128::from(u64::MAX) => Some(WireError::MaxTime(place)),
            Some(n) if n < 0 || n > i128::from(u64::MAX) => Some(WireError::OutOfRange(place)),
            Some(_) => None,
        },
    }
}

/// Checks `value` as the value of a field that holds a signed integer of 64 bits. Returns its error, if it
/// has one. Nil is valid.
fn signed_error(value: &View) -> Option<WireError>
    ensures { result ≡ first (signed_errors (tree_of value.now)) }
{
    let place = value.offset() + 1;
    match value.kind() {
        serf_pack::Kind::Nil => None,
        _ => match value.int() {
            None => Some(WireError::WrongKind(place)),
            Some(n) if n < i128::from(i64::MIN) || n > i128::from(i64::MAX) => Some(
                WireError::OutOfRange(place),
            ),
            Some(_) => None,
        },
    }
}

/// Checks `value` as the value of a field that holds a text. Returns its error, if it has one. Nil is valid.
fn text_error(value: &View) -> Option<WireError>
    ensures { result ≡ first (text_errors (tree_of value.now)) }
{
    match value.kind() {
        serf_pack::Kind::Nil | serf_pack::Kind::Raw => None,
        _ => Some(WireError::WrongKind(value.offset() + 1)),
    }
}

/// Checks `value` as the value of a field that holds a truth value. Returns its error, if it has one. Nil is
/// valid.
fn flag_error(value: &View) -> Option<WireError>
    ensures { result ≡ first (truth_errors (tree_of value.now)) }
{
    match value.kind() {
        serf_pack::Kind::Nil | serf_pack::Kind::Bool => None,
        _ => Some(WireError::WrongKind(value.offset() + 1)),
    }
}

/// Checks `value` as the value of a field that holds a list of texts. Returns its first error, if it has one.
/// Nil is valid.
pub fn texts_error(value: &View) -> Option<WireError>
    ensures { result ≡ first (list_errors text_errors (tree_of value.now)) }
{
    match value.kind() {
        serf_pack::Kind::Nil => None,
        serf_pack::Kind::Array => {
            for item in value.items() {
                if let Some(error) = text_error(&item) {
                    return Some(error);
                }
            }
            None
        }
        _ => Some(WireError::WrongKind(value.offset() + 1)),
    }
}

/// Checks a member's `name` and `time` in the map of status times. Returns their first error, if they have
/// one.
fn status_time_error(name: &View, time: &View) -> Option<WireError>
    ensures { result ≡ first (status_time_errors (tree_of name.now, tree_of time.now)) }
{
    match name.raw() {
        None => Some(WireError::BadKey(name.offset() + 1)),
        Some(_) => natural_error(time, u64::MAX),
    }
}

/// Checks `value` as the value of the field with the status times. Returns its first error, if it has one.
/// Nil is valid.
fn status_error(value: &View) -> Option<WireError>
    ensures { result ≡ first (status_errors (tree_of value.now)) }
{
    match value.kind() {
        serf_pack::Kind::Nil => None,
        serf_pack::Kind::Map => {
            for (name, time) in value.pairs() {
                if let Some(error) = status_time_error(&name, &time) {
                    return Some(error);
                }
            }
            None
        }
        _ => Some(WireError::WrongKind(value.offset() + 1)),
    }
}

/// Checks `value` as the value of a field of the kind `kind`. Returns its first error, if it has one. Lists
/// of maps are checked up to `depth_left` levels deep.
#[cycle(errors)]
fn value_error(depth_left: u8, kind: Kind, value: &View) -> Option<WireError>
    ensures { result ≡ first (value_errors depth_left kind (tree_of value.now)) }
{
    match kind {
        Kind::Time => time_error(value),
        Kind::Natural(max) => natural_error(value, max),
        Kind::Signed => signed_error(value),
        Kind::Text => text_error(value),
        Kind::Flag => flag_error(value),
        Kind::Texts => texts_error(value),
        Kind::Status => status_error(value),
        Kind::Maps(layout) => {
            if depth_left == 0 {
                return None;
            }
            maps_error(depth_left - 1, layout, value)
        }
    }
}

/// Checks `value` as the value of a field that holds a list of maps with the fields of `layout`. Returns its
/// first error, if it has one. Nil is valid.
#[cycle(errors)]
fn maps_error(depth_left: u8, layout: Layout, value: &View) -> Option<WireError>
    ensures { result
        ≡ first (list_errors (map_errors (value_errors depth_left) layout) (tree_of value.now)) }
{
    match value.kind() {
        serf_pack::Kind::Nil => None,
        serf_pack::Kind::Array => {
            'maps: for item in value.items() {
                if let Some(error) = map_error(depth_left, layout, &item) {
                    return Some(error);
                }
            }
            None
        }
        _ => Some(WireError::WrongKind(value.offset() + 1)),
    }
}

/// Checks `value` as an item of a list of maps with the fields of `layout`. Returns its first error, if it
/// has one. Nil is valid.
#[cycle(errors)]
fn map_error(depth_left: u8, layout: Layout, value: &View) -> Option<WireError>
    ensures { result ≡ first (map_errors (value_errors depth_left) layout (tree_of value.now)) }
{
    match value.kind() {
        serf_pack::Kind::Nil => None,
        serf_pack::Kind::Map => match find_fields(depth_left, layout, value) {
            Ok(_) => None,
            Err(error) => Some(error),
        },
        _ => Some(WireError::WrongKind(value.offset() + 1)),
    }
}

/// Stores `value` in `found` if `layout` knows `key`. Returns the first error of this pair, if it has one.
/// After an error, `found` must not be used any more.
#[cycle(errors)]
fn find_pair<'a>(
    depth_left: u8,
    layout: Layout,
    found: &mut FoundFields<'a>,
    key: &View<'a>,
    value: &View<'a>,
) -> Option<WireError>
    ensures error { (earlier : List (Tree × Tree)) → Finds layout found.old earlier
        → result ≡ first (key_errors (value_errors depth_left)
        layout earlier (tree_of key.now, tree_of value.now) (raw_of (tree_of key.now))) }
    ensures found { (earlier : List (Tree × Tree)) → Finds layout found.old earlier
        → IfNone result (Finds layout found.new (earlier
        ++ (tree_of key.now, tree_of value.now) ∷ [])) }
{
    let Some(name) = key.raw() else {
        return Some(WireError::BadKey(key.offset() + 1));
    };
    let Some(field) = field_of(layout, name) else {
        return None;
    };
    if found.at(field.place).is_some() {
        return Some(WireError::Twice(key.offset() + 1));
    }
    found.put(field.place, *value);
    value_error(depth_left, field.kind, value)
}

/// Returns the values of those fields of `map` that `layout` knows, or the first error of the map's pairs.
#[cycle(errors)]
fn find_fields<'a>(
    depth_left: u8,
    layout: Layout,
    map: &View<'a>,
) -> Result<FoundFields<'a>, WireError>
    ensures found { IfOk result (λ found. Finds layout found (pairs_of (tree_of map.now))) }
    ensures none { OnOk result (first
        (errors_after (value_errors depth_left) layout [] (pairs_of (tree_of map.now))) ≡ None) }
    ensures error { IfErr result (λ f. first
        (errors_after (value_errors depth_left) layout [] (pairs_of (tree_of map.now))) ≡ Some f) }
{
    let mut found = FoundFields::new();
    'pairs: for (key, value) in map.pairs() {
        if let Some(error) = find_pair(depth_left, layout, &mut found, &key, &value) {
            return Err(error);
        }
    }
    Ok(found)
}

/// Returns the values of those fields of `map` that `layout` knows, or the map's first error. Lists of maps
/// are nested at most 2 deep: the slots of a push/pull, and the events of a slot.
pub fn find_known<'a>(layout: Layout, map: &View<'a>) -> Result<FoundFields<'a>, WireError>
    ensures found { IfOk result (λ found. Finds layout found (pairs_of (tree_of map.now))) }
    ensures none { OnOk result (first (layout_errors layout (pairs_of (tree_of map.now))) ≡ None) }
    ensures error { IfErr result (λ f.
        first (layout_errors layout (pairs_of (tree_of map.now))) ≡ Some f) }
{
    find_fields(2, layout, map)
}
