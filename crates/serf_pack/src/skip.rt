//! Skips values without keeping them, for the check and for the iterators. Nothing here allocates memory.

ghost use Rattle.std.specs.Prelude.{◌≡◌, ◌≤◌, ◌<◌, ◌^◌, ℕ, length, IfOk, IfSome, Ok};
ghost use Rattle.serf_pack.specs.Reading.{Gives, value_at, items_at, pairs_at, rest_of};

use crate::error::PackError;
use crate::head::{Field, Head, Row, read_head, row_for};

/// Skips the value at the start of `bytes`, if it has one of the most common formats: nil, a truth value, a
/// fixint, an unsigned integer, or a short byte string. Returns the bytes after the value. Returns `None` for
/// a value of another format, and if the value's bytes pass the end. With this function, the walk over a
/// packet is one loop without calls.
#[inline(always)]
fn skip_short(bytes: &[u8]) -> Option<&[u8]>
    ensures rest { IfSome result (λ x. (depth_left : ℕ) → (total : ℕ)
        → rest_of (value_at depth_left total bytes.now) ≡ Ok x.now) }
    ensures within { IfSome result (λ x. length x.now ≤ length bytes.now) }
{
    let [byte, rest @ ..] = bytes else {
        return None;
    };
    match row_for(*byte) {
        Row::Whole(Head::Nil) => Some(rest),
        Row::Whole(Head::Flag(_)) => Some(rest),
        Row::Whole(Head::Int(_)) => Some(rest),
        Row::Whole(Head::Raw(n)) => {
            if (rest.len() as u64) < n {
                return None;
            }
            Some(&rest[n as usize..])
        }
        Row::Number(Field::Unsigned, width) => {
            if rest.len() < width {
                return None;
            }
            Some(&rest[width..])
        }
        _ => None,
    }
}

/// Skips the value at the start of `bytes`. Returns the bytes after the value, or the value's first error.
/// `bytes` are the end of an input of `total` bytes. Arrays and maps may be nested up to `depth_left` deep.
#[cycle(skip)]
#[inline(always)]
pub fn skip(depth_left: u64, total: usize, bytes: &[u8]) -> Result<&[u8], PackError>
    requires { length bytes.now ≤ total }
    ensures rest { Gives (λ x. x.now) result (rest_of (value_at depth_left total bytes.now)) }
    ensures within { IfOk result (λ x. length x.now ≤ length bytes.now) }
{
    match skip_short(bytes) {
        Some(rest) => Ok(rest),
        None => skip_any(depth_left, total, bytes),
    }
}

/// Skips a value as `skip` does, but of any format.
#[cycle(skip)]
fn skip_any(depth_left: u64, total: usize, bytes: &[u8]) -> Result<&[u8], PackError>
    requires { length bytes.now ≤ total }
    ensures rest { Gives (λ x. x.now) result (rest_of (value_at depth_left total bytes.now)) }
    ensures within { IfOk result (λ x. length x.now ≤ length bytes.now) }
{
    let place = total - bytes.len();
    let (head, rest) = read_head(total, bytes)?;
    match head {
        Head::Nil => Ok(rest),
        Head::Flag(_) => Ok(rest),
        Head::Int(_) => Ok(rest),
        Head::Raw(n) => {
            if (rest.len() as u64) < n {
                return Err(PackError::Truncated(place));
            }
            Ok(&rest[n as usize..])
        }
        Head::Array(n) => {
            if depth_left == 0 {
                return Err(PackError::TooDeep(place));
            }
            skip_items(depth_left - 1, total, n, rest)
        }
        Head::Map(n) => {
            if depth_left == 0 {
                return Err(PackError::TooDeep(place));
            }
            skip_pairs(depth_left - 1, total, n, rest)
        }
    }
}

/// Skips `count` values at the start of `bytes`. Returns the bytes after them, or the first error of these
/// values.
#[cycle(skip)]
fn skip_items(depth_left: u64, total: usize, count: u64, bytes: &[u8]) -> Result<&[u8], PackError>
    requires { length bytes.now ≤ total }
    ensures rest { Gives (λ x. x.now) result
        (rest_of (items_at (value_at depth_left total) count bytes.now)) }
    ensures within { IfOk result (λ x. length x.now ≤ length bytes.now) }
{
    let mut rest = bytes;
    'items: for _ in 0..count {
        rest = skip(depth_left, total, rest)?;
    }
    Ok(rest)
}

/// Skips `count` pairs of values at the start of `bytes`. Returns the bytes after them, or the first error of
/// these pairs.
#[cycle(skip)]
fn skip_pairs(depth_left: u64, total: usize, count: u64, bytes: &[u8]) -> Result<&[u8], PackError>
    requires { length bytes.now ≤ total }
    ensures rest { Gives (λ x. x.now) result
        (rest_of (pairs_at (value_at depth_left total) count bytes.now)) }
    ensures within { IfOk result (λ x. length x.now ≤ length bytes.now) }
{
    let mut rest = bytes;
    'pairs: for _ in 0..count {
        let after_key = skip(depth_left, total, rest)?;
        rest = skip(depth_left, total, after_key)?;
    }
    Ok(rest)
}
