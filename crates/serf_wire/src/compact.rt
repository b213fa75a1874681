//! Reads MessagePack values in compact spellings, from the start of `bytes`.
//!
//! Each reader returns `None` if `bytes` begin with anything else. Then the general readers have to read the
//! value. The first bytes that the readers distinguish are those of MessagePack's formats (`head.rt` of
//! serf_pack).

ghost use Rattle.std.specs.Prelude.{◌≡◌, ◌≤◌, ◌<◌, ◌+◌, ◌-◌, ◌^◌, ◌∷◌, [], take, drop, length, unwrap_or, None, Ok, IfSome};
ghost use Rattle.std.specs.Option.{option_copied, option_map};
ghost use Rattle.byteorder.specs.Endian.{big_number};
ghost use Rattle.serf_lamport.specs.Clock.{max_clock};
ghost use Rattle.serf_pack.specs.declared.head.Head.TheVariants as heads;
ghost use Rattle.serf_pack.specs.Packs.{Packs};
ghost use Rattle.serf_pack.specs.Reading.{head_at};
ghost use Rattle.serf_pack.specs.Tree.{Tree};
ghost use Rattle.serf_pack.specs.View.{raw_of, tree_of};
ghost use Rattle.serf_wire.specs.Fields.{text, truth, number, list};
ghost use Rattle.serf_wire.specs.Fast.{Reads, ReadsIn, Spans, AreItems};
ghost use Rattle.serf_wire.specs.Lists.{texts_left};

use crate::laws::laws_below;
use crate::lists::Texts;
use serf_pack::{View, view_packed};

/// Reads the first byte of `bytes` as a number. Returns the number and the bytes after it.
#[inline(always)]
fn one_byte(bytes: &[u8]) -> Option<(u64, &[u8])>
    ensures room { IfSome result (λ x. 1 ≤ length bytes.now) }
    ensures value { IfSome result (λ x. x.0 ≡ big_number 1 bytes.now) }
    ensures small { IfSome result (λ x. x.0 < 256) }
    ensures rest { IfSome result (λ x. x.1.now ≡ drop 1 bytes.now) }
{
    match bytes {
        [a, rest @ ..] => Some((*a as u64, rest)),
        _ => None,
    }
}

/// Reads a number in the first two bytes of `bytes`, the most significant byte first. Returns the number and
/// the bytes after it.
#[inline(always)]
fn two_bytes(bytes: &[u8]) -> Option<(u64, &[u8])>
    ensures room { IfSome result (λ x. 2 ≤ length bytes.now) }
    ensures value { IfSome result (λ x. x.0 ≡ big_number 2 bytes.now) }
    ensures small { IfSome result (λ x. x.0 < 65536) }
    ensures rest { IfSome result (λ x. x.1.now ≡ drop 2 bytes.now) }
{
    match bytes {
        [a, b, rest @ ..] => Some((*a as u64 * 0x100 + *b as u64, rest)),
        _ => None,
    }
}

/// Reads a number in the first four bytes of `bytes`, the most significant byte first. Returns the number and
/// the bytes after it.
#[inline(always)]
fn four_bytes(bytes: &[u8]) -> Option<(u64, &[u8])>
    ensures room { IfSome result (λ x. 4 ≤ length bytes.now) }
    ensures value { IfSome result (λ x. x.0 ≡ big_number 4 bytes.now) }
    ensures small { IfSome result (λ x. x.0 < 4294967296) }
    ensures rest { IfSome result (λ x. x.1.now ≡ drop 4 bytes.now) }
{
    match bytes {
        [a, b, c, d, rest @ ..] => Some((
            *a as u64 * 0x100_0000 + *b as u64 * 0x1_0000 + *c as u64 * 0x100 + *d as u64,
            rest,
        )),
        _ => None,
    }
}

/// Reads a number in the first eight bytes of `bytes`, the most significant byte first. Returns the number and
/// the bytes after it.
#[inline(always)]
fn eight_bytes(bytes: &[u8]) -> Option<(u64, &[u8])>
    ensures room { IfSome result (λ x. 8 ≤ length bytes.now) }
    ensures value { IfSome result (λ x. x.0 ≡ big_number 8 bytes.now) }
    ensures small { IfSome result (λ x. x.0 < 2 ^ 64) }
    ensures rest { IfSome result (λ x. x.1.now ≡ drop 8 bytes.now) }
{
    let (high, middle) = four_bytes(bytes)?;
    let (low, rest) = four_bytes(middle)?;
    Some((high * 0x1_0000_0000 + low, rest))
}

/// Reads a number from 0 to 2^64 - 1 at the start of `bytes`; nil means 0. Returns the number and the bytes
/// after it.
#[inline(always)]
pub fn read_number(bytes: &[u8]) -> Option<(u64, &[u8])>
    ensures { IfSome result (λ x. Reads (number max_clock) x.0 bytes.now x.1.now) }
{
    laws_below();
    let [head, rest @ ..] = bytes else {
        return None;
    };
    match *head {
        0..=0x7f => Some((*head as u64, rest)),
        0xc0 => Some((0, rest)),
        0xcc => one_byte(rest),
        0xcd => two_bytes(rest),
        0xce => four_bytes(rest),
        0xcf => eight_bytes(rest),
        _ => None,
    }
}

/// Reads a map's header of one byte at the start of `bytes`. Returns the number of pairs, and the bytes after
/// the header.
#[inline(always)]
pub fn read_map_head(bytes: &[u8]) -> Option<(u8, &[u8])>
    ensures head { IfSome result (λ x. bytes.now ≡ (128 + x.0) ∷ x.1.now) }
    ensures small { IfSome result (λ x. x.0 < 16) }
{
    let [head, rest @ ..] = bytes else {
        return None;
    };
    match *head {
        0x80..=0x8f => Some((*head - 0x80, rest)),
        _ => None,
    }
}

/// Splits `bytes` after the first `n` bytes. Returns `None` if there are fewer than `n`.
#[inline(always)]
fn split(n: usize, bytes: &[u8]) -> Option<(&[u8], &[u8])>
    ensures room { IfSome result (λ x. n ≤ length bytes.now) }
    ensures front { IfSome result (λ x. x.0.now ≡ take n bytes.now) }
    ensures rest { IfSome result (λ x. x.1.now ≡ drop n bytes.now) }
{
    if bytes.len() < n {
        return None;
    }
    Some((&bytes[..n], &bytes[n..]))
}

/// Reads a byte string at the start of `bytes`, if its header has one byte or three. Returns the string and
/// the bytes after it.
#[inline(always)]
pub fn read_raw(bytes: &[u8]) -> Option<(&[u8], &[u8])>
    ensures { IfSome result (λ x. Reads raw_of x.0.now bytes.now x.1.now) }
{
    laws_below();
    let [head, rest @ ..] = bytes else {
        return None;
    };
    match *head {
        0xa0..=0xbf => split((*head - 0xa0) as usize, rest),
        0xda => {
            let (n, rest) = two_bytes(rest)?;
            split(n as usize, rest)
        }
        _ => None,
    }
}

/// Returns the bytes after a nil, if `bytes` begin with a nil.
#[inline(always)]
pub fn skip_nil(bytes: &[u8]) -> Option<&[u8]>
    ensures { IfSome result (λ rest. bytes.now ≡ 0xc0 ∷ rest.now) }
{
    match bytes {
        [0xc0, rest @ ..] => Some(rest),
        _ => None,
    }
}

/// Reads a text at the start of `bytes`; nil means the empty text. Returns the text and the bytes after it.
#[inline(always)]
pub fn read_text(bytes: &[u8]) -> Option<(&[u8], &[u8])>
    ensures { IfSome result (λ x. Reads text x.0.now bytes.now x.1.now) }
{
    laws_below();
    match read_raw(bytes) {
        Some(found) => Some(found),
        None => {
            let rest = skip_nil(bytes)?;
            Some((b"", rest))
        }
    }
}

/// Reads an array's header of one byte or three at the start of `bytes`. Returns the number of items, and the
/// bytes after the header.
#[inline(always)]
pub fn read_array_head(bytes: &[u8]) -> Option<(u64, &[u8])>
    ensures { IfSome result (λ x. head_at 0 bytes.now ≡ Ok (heads.Array x.0, x.1.now)) }
{
    let [head, rest @ ..] = bytes else {
        return None;
    };
    match *head {
        0x90..=0x9f => Some(((*head - 0x90) as u64, rest)),
        0xdc => two_bytes(rest),
        _ => None,
    }
}

/// Reads a map's header of one byte or three at the start of `bytes`. Returns the number of pairs, and the
/// bytes after the header.
#[inline(always)]
pub fn read_long_map_head(bytes: &[u8]) -> Option<(u64, &[u8])>
    ensures { IfSome result (λ x. head_at 0 bytes.now ≡ Ok (heads.Map x.0, x.1.now)) }
{
    let [head, rest @ ..] = bytes else {
        return None;
    };
    match *head {
        0x80..=0x8f => Some(((*head - 0x80) as u64, rest)),
        0xde => two_bytes(rest),
        _ => None,
    }
}

/// Returns a view of the value at the start of `bytes`. `rest` are the bytes that follow this value up to the
/// end of `bytes`.
#[inline(always)]
pub fn view_before<'a>(bytes: &'a [u8], rest: &[u8]) -> View<'a>
    requires within { length rest.now ≤ length bytes.now }
    requires packed { (v : Tree)
        × Packs v 0 0 (take (length bytes.now - length rest.now) bytes.now) }
    ensures { (v : Tree) → Packs v 0 0 (take (length bytes.now - length rest.now) bytes.now)
        → tree_of result ≡ v }
{
    view_packed(&bytes[..bytes.len() - rest.len()])
}

/// Reads a truth value at the start of `bytes`; nil means false. Returns the truth value and the bytes after
/// it.
#[inline(always)]
fn read_flag(bytes: &[u8]) -> Option<(bool, &[u8])>
    ensures { IfSome result (λ x. Reads truth x.0 bytes.now x.1.now) }
{
    laws_below();
    let [head, rest @ ..] = bytes else {
        return None;
    };
    match *head {
        0xc0 => Some((false, rest)),
        0xc2 => Some((false, rest)),
        0xc3 => Some((true, rest)),
        _ => None,
    }
}

/// Reads a number as `read_number` does, for a key that may appear only once. Returns `None` if `found`
/// already has the number of an earlier pair.
#[inline(always)]
pub fn once_number(found: Option<u64>, bytes: &[u8]) -> Option<(u64, &[u8])>
    ensures none { IfSome result (λ x. found ≡ None) }
    ensures reads { IfSome result (λ x. Reads (number max_clock) x.0 bytes.now x.1.now) }
{
    match found {
        Some(_) => None,
        None => read_number(bytes),
    }
}

/// Reads a text as `read_text` does, for a key that may appear only once. Returns `None` if `found` already
/// has the text of an earlier pair.
#[inline(always)]
pub fn once_text<'a>(found: Option<&[u8]>, bytes: &'a [u8]) -> Option<(&'a [u8], &'a [u8])>
    ensures none { IfSome result (λ x. option_copied found.entry ≡ None) }
    ensures reads { IfSome result (λ x. Reads text x.0.now bytes.now x.1.now) }
{
    match found {
        Some(_) => None,
        None => read_text(bytes),
    }
}

/// Reads a truth value as `read_flag` does, for a key that may appear only once. Returns `None` if `found`
/// already has the truth value of an earlier pair.
#[inline(always)]
pub fn once_flag(found: Option<bool>, bytes: &[u8]) -> Option<(bool, &[u8])>
    ensures none { IfSome result (λ x. found ≡ None) }
    ensures reads { IfSome result (λ x. Reads truth x.0 bytes.now x.1.now) }
{
    match found {
        Some(_) => None,
        None => read_flag(bytes),
    }
}

/// Skips `count` texts at the start of `bytes`, and returns the bytes after them.
#[inline(always)]
fn skip_texts(count: u64, bytes: &[u8]) -> Option<&[u8]>
    ensures { IfSome result (λ rest. AreItems 9 text count bytes.now rest.now) }
{
    let mut rest = bytes;
    'texts: for _ in 0..count {
        let Some((_, following)) = read_text(rest) else {
            return None;
        };
        rest = following;
    }
    Some(rest)
}

/// Skips a list of texts at the start of `bytes`, and returns the bytes after it.
#[inline(always)]
fn skip_text_list(bytes: &[u8]) -> Option<&[u8]>
    ensures { IfSome result (λ rest. Spans 8 (list text) bytes.now rest.now) }
{
    laws_below();
    let (count, items) = read_array_head(bytes)?;
    skip_texts(count, items)
}

/// Reads a list of texts at the start of `bytes`. Returns the list and the bytes after it.
fn read_texts(bytes: &[u8]) -> Option<(Texts<'_>, &[u8])>
    ensures { IfSome result (λ x. ReadsIn 8 (list text) (texts_left x.0) bytes.now x.1.now) }
{
    let rest = skip_text_list(bytes)?;
    let list = view_before(bytes, rest);
    Some((Texts::of(Some(list)), rest))
}

/// Skips an empty list or a nil at the start of `bytes`, and returns the bytes after it.
#[inline(always)]
fn read_no_texts(bytes: &[u8]) -> Option<&[u8]>
    ensures { IfSome result (λ rest. ReadsIn 8 (list text) [] bytes.now rest.now) }
{
    laws_below();
    let [head, rest @ ..] = bytes else {
        return None;
    };
    match *head {
        0xc0 => Some(rest),
        0x90 => Some(rest),
        _ => None,
    }
}

/// Reads a list of texts at the start of `bytes`, for a key that may appear only once. Returns the list and
/// the bytes after it, or `None` if `found` already has the list of an earlier pair.
#[inline(always)]
pub fn once_texts<'a>(found: Option<Texts<'a>>, bytes: &'a [u8]) -> Option<(Texts<'a>, &'a [u8])>
    ensures none { IfSome result (λ x. option_map texts_left found.entry ≡ None) }
    ensures reads { IfSome result (λ x. ReadsIn 8 (list text) (texts_left x.0) bytes.now x.1.now) }
{
    if found.is_some() {
        return None;
    }
    match read_no_texts(bytes) {
        Some(rest) => Some((Texts::of(None), rest)),
        None => read_texts(bytes),
    }
}

/// Returns the number in `found`, or 0 if no number was found.
#[inline(always)]
pub fn or_zero(found: Option<u64>) -> u64
    ensures { result ≡ unwrap_or found 0 }
{
    match found {
        None => 0,
        Some(number) => number,
    }
}

/// Returns the list of texts in `found`, or the empty list if no list was found.
#[inline(always)]
pub fn or_none<'a>(found: Option<Texts<'a>>) -> Texts<'a>
    ensures { texts_left result ≡ unwrap_or (option_map texts_left found.entry) [] }
{
    match found {
        None => Texts::of(None),
        Some(texts) => texts,
    }
}
