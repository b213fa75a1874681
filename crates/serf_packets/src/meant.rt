//! Reads the values of fields. A bad value is read as 0 or as empty. A text with a bad value is refused later, when the
//! text is compared with the text of the packet.

ghost use Rattle.std.specs.Prelude.{◌≡◌, ◌≤◌, ◌<◌, ◌++◌, ◌∷◌, [], ℤ, pos, IfOk, OnOk, Some, map, filter};
ghost use Rattle.std.specs.Str.{bytes_eq};
ghost use Rattle.serf_lamport.specs.Clock.{last_time};
ghost use Rattle.serf_text.specs.Words.{between, bytes_of, number_of};
ghost use Rattle.serf_packets.specs.Rows.{row_seen, rows_of, value_of};
ghost use Rattle.serf_packets.specs.Meant.{below_zero, bytes_at, bytes_meant, member_meant, number_at, number_up_to, signed_meant, texts_at};

use crate::row::{Row, is_named, value};
use hex::FromHexError;
use serf_lamport::Time;
use serf_text::number;
use serf_wire::Bytes;
use std::alloc::{AllocError, Global};

/// Reads `word` as a decimal number. Returns 0 if `word` isn't a number, or if the number is above `top`.
pub(crate) fn number_to(word: &[u8], top: u64) -> u64
    ensures said { result ≡ number_up_to top word.now }
    ensures within { result ≤ top }
{
    match number(word) {
        Some(found) => { if found <= top { found } else { 0 } }
        None => 0,
    }
}

/// Reads `word` as a Lamport time in decimal. Returns 0 if `word` isn't a Lamport time.
pub(crate) fn time_in(word: &[u8]) -> Time
    ensures { result ≡ number_up_to last_time word.now }
{
    match Time::new(number_to(word, u64::MAX - 1)) {
        Some(time) => time,
        // Every number below 2^64 - 1 is a Lamport time.
        None => unreachable!(),
    }
}

/// Returns -`n` if that number fits into a signed 64-bit integer, and 0 otherwise.
fn negated(n: u64) -> i64
    ensures { result ≡ below_zero n }
{
    if n == 0 || n > 9_223_372_036_854_775_808 {
        return 0;
    }
    -1 - ((n - 1) as i64)
}

/// Reads `word` as a decimal number, with or without a minus sign. Returns 0 if `word` isn't a number, or if the number
/// doesn't fit into a signed 64-bit integer.
pub(crate) fn signed_in(word: &[u8]) -> i64
    ensures { result ≡ signed_meant word.now }
{
    match word {
        [b'-', digits @ ..] => negated(number_to(digits, 9_223_372_036_854_775_808)),
        _ => number_to(word, 9_223_372_036_854_775_807) as i64,
    }
}

/// Reads `word` as bytes in hex. Returns no bytes if `word` is `-` or isn't hex.
pub(crate) fn bytes_in(alloc: Global, word: &[u8]) -> Result<Bytes, AllocError>
    ensures { IfOk result (λ bytes. bytes ≡ bytes_meant word.now) }
{
    if let [b'-'] = word {
        return Ok(Bytes::from_vec(Vec::new(alloc)));
    }
    match hex::decode(alloc, word) {
        Ok(found) => Ok(Bytes::from_vec(found)),
        Err(FromHexError::OutOfMemory) => Err(AllocError),
        Err(_) => Ok(Bytes::from_vec(Vec::new(alloc))),
    }
}

/// Returns the number that the field `name` in `rows` contains. Returns 0 if the field has no number, or if the number
/// is above `top`.
pub(crate) fn number_field(rows: &[Row], name: &[u8], top: u64) -> u64
    ensures said { result ≡ number_at top name.now (map row_seen rows.now) }
    ensures within { result ≤ top }
{
    number_to(value(rows, name), top)
}

/// Returns the bytes that the field `name` in `rows` contains. Returns no bytes if the field has no row, or if the
/// value of the field isn't hex.
pub(crate) fn bytes_field(alloc: Global, rows: &[Row], name: &[u8]) -> Result<Bytes, AllocError>
    ensures { IfOk result (λ bytes. bytes ≡ bytes_at name.now (map row_seen rows.now)) }
{
    bytes_in(alloc, value(rows, name))
}

/// If `row` is a row of the field `name`, appends the bytes in the row to `texts`.
fn take_text(
    alloc: Global,
    texts: &mut Vec<Bytes>,
    row: &Row,
    name: &[u8],
) -> Result<(), AllocError>
    ensures { OnOk result (texts.new.items ≡ texts.old.items
        ++ texts_at name.now (row_seen row.now ∷ [])) }
{
    if !is_named(row, name) {
        return Ok(());
    }
    let bytes = bytes_in(alloc, row.first)?;
    texts.push(bytes)?;
    Ok(())
}

/// Returns the bytes in each row of the field `name`, in order.
pub(crate) fn texts_field(
    alloc: Global,
    rows: &[Row],
    name: &[u8],
) -> Result<Vec<Bytes>, AllocError>
    ensures { IfOk result (λ texts. texts.items ≡ texts_at name.now (map row_seen rows.now)) }
{
    let mut texts = Vec::new(alloc);
    for row in rows {
        take_text(alloc, &mut texts, row, name)?;
    }
    Ok(texts)
}
