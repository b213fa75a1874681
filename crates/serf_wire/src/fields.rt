//! Reads the fields of a map that has no errors. If a field is missing or nil, its value is zero, empty or
//! false.

ghost use Rattle.std.specs.Prelude.{◌≡◌, ◌≤◌, [], false, unwrap_or};
ghost use Rattle.std.specs.Option.{option_map};
ghost use Rattle.serf_pack.specs.View.{tree_of, pairs_of};
ghost use Rattle.serf_wire.specs.Fields.{text, truth, number, time};
ghost use Rattle.serf_wire.specs.Lookups.{value_of_key, tree_or_nil, text_in, truth_in, number_in, time_in, signed_in};

use crate::errors::is_name;
use serf_lamport::Time;
use serf_pack::View;

/// Returns the value of the first pair of `map` whose key is `name`, if there is one.
pub fn find_value<'a>(map: &View<'a>, name: &[u8]) -> Option<View<'a>>
    ensures { tree_or_nil (option_map tree_of result)
        ≡ value_of_key name.now (pairs_of (tree_of map.now)) }
{
    for (key, value) in map.pairs() {
        if is_name(&key, name) {
            return Some(value);
        }
    }
    None
}

/// Returns the text in `value`, or the empty text if `value` isn't a text.
pub fn text_of<'a>(value: &View<'a>) -> &'a [u8]
    ensures { result.now ≡ text_in (tree_of value.now) }
{
    match value.raw() {
        None => b"",
        Some(text) => text,
    }
}

/// Returns the integer in `value`, or 0 if `value` isn't an integer from 0 to `max`.
pub fn natural_of(value: &View, max: u64) -> u64
    ensures value { result ≡ number_in max (tree_of value.now) }
    ensures within { result ≤ max }
{
    match value.int() {
        Some(n) if n >= 0 && n <= i128::from(max) => n as u64,
        _ => 0,
    }
}

/// Returns the text in `value`. Returns the empty text if `value` isn't a text, or if the field is missing
/// (`None`).
pub fn text_or_empty<'a>(value: Option<View<'a>>) -> &'a [u8]
    ensures { result.now ≡ text_in (tree_or_nil (option_map tree_of value.entry)) }
{
    match value {
        None => b"",
        Some(value) => text_of(&value),
    }
}

/// Returns the truth value in `value`. Returns false if `value` isn't a truth value, or if the field is
/// missing (`None`).
pub fn flag_or_false(value: Option<View>) -> bool
    ensures { result ≡ truth_in (tree_or_nil (option_map tree_of value.entry)) }
{
    match value {
        None => false,
        Some(value) => match value.flag() {
            None => false,
            Some(flag) => flag,
        },
    }
}

/// Returns the integer in `value`. Returns 0 if `value` isn't an integer from 0 to `max`, or if the field is
/// missing (`None`).
pub fn natural_or_zero(value: Option<View>, max: u64) -> u64
    ensures value { result ≡ number_in max (tree_or_nil (option_map tree_of value.entry)) }
    ensures within { result ≤ max }
{
    match value {
        None => 0,
        Some(value) => natural_of(&value, max),
    }
}

/// Returns the time in `value`. Returns 0 if `value` isn't a time, or if the field is missing (`None`).
pub fn time_or_zero(value: Option<View>) -> Time
    ensures { result ≡ time_in (tree_or_nil (option_map tree_of value.entry)) }
{
    match Time::new(natural_or_zero(value, u64::MAX - 1)) {
        Some(time) => time,
        None => unreachable!(),
    }
}

/// Returns the integer in `value`. Returns 0 if `value` isn't a signed integer of 64 bits, or if the field is
/// missing (`None`).
pub fn signed_or_zero(value: Option<View>) -> i64
    ensures { result ≡ signed_in (tree_or_nil (option_map tree_of value.entry)) }
{
    match value {
        None => 0,
        Some(value) => match value.int() {
            Some(n) if n >= i128::from(i64::MIN) && n <= i128::from(i64::MAX) => n as i64,
            _ => 0,
        },
    }
}
