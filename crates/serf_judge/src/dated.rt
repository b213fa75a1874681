//! Finds the date at the beginning of a line. The date is a word that begins like `2026-`. If the next word begins like
//! `16:`, it is a time of day, and belongs to the date. The names in this file call a time of day a `clock`. The bytes
//! of a word are counted from 0.

ghost use Rattle.std.specs.Prelude.{◌≡◌, ◌++◌, IfOk, OnOk, map};
ghost use Rattle.serf_judge.specs.Dated.{begins_as_clock, begins_as_date, after_clock, after_date, clock_text, date_text, has_byte, has_digit};

use std::alloc::{AllocError, Global};

/// Returns whether byte number `place` of `word` is a decimal digit.
fn is_digit_at(word: &[u8], place: usize) -> bool
    ensures { result ≡ has_digit place word.now }
{
    match word.get(place) {
        Some(found) => found.is_ascii_digit(),
        None => false,
    }
}

/// Returns whether byte number `place` of `word` is `byte`.
fn is_byte_at(word: &[u8], place: usize, byte: u8) -> bool
    ensures { result ≡ has_byte byte place word.now }
{
    match word.get(place) {
        Some(found) => *found == byte,
        None => false,
    }
}

/// Returns whether `word` begins like a date, with four digits and `-`.
fn is_date(word: &[u8]) -> bool
    ensures { result ≡ begins_as_date word.now }
{
    is_digit_at(word, 0)
        && is_digit_at(word, 1)
        && is_digit_at(word, 2)
        && is_digit_at(word, 3)
        && is_byte_at(word, 4, b'-')
}

/// Returns whether `word` begins like a time of day, with two digits and `:`.
fn is_clock(word: &[u8]) -> bool
    ensures { result ≡ begins_as_clock word.now }
{
    is_digit_at(word, 0) && is_digit_at(word, 1) && is_byte_at(word, 2, b':')
}

/// Returns `words`, but leaves out the first word if that word is a time of day.
fn cut_clock<'w, 'a>(words: &'w [&'a [u8]]) -> &'w [&'a [u8]]
    ensures { map (λ w. w.now) result.now ≡ after_clock (map (λ w. w.now) words.entry.now) }
{
    let Some((first, rest)) = words.split_first() else {
        return words;
    };
    if is_clock(first) {
        return rest;
    }
    words
}

/// Returns `words`, but leaves out a date at the beginning and a time of day right after the date.
pub(crate) fn cut_date<'w, 'a>(words: &'w [&'a [u8]]) -> &'w [&'a [u8]]
    ensures { map (λ w. w.now) result.now ≡ after_date (map (λ w. w.now) words.entry.now) }
{
    let Some((first, rest)) = words.split_first() else {
        return words;
    };
    if is_date(first) {
        return cut_clock(rest);
    }
    words
}

/// If the first word in `words` is a time of day, appends a space and the word to `text`. Otherwise, appends nothing.
fn write_clock(text: &mut Vec<u8>, words: &[&[u8]]) -> Result<(), AllocError>
    ensures { OnOk result (text.new.items
        ≡ text.old.items ++ clock_text (map (λ w. w.now) words.now)) }
{
    let Some((first, _)) = words.split_first() else {
        return Ok(());
    };
    if !is_clock(first) {
        return Ok(());
    }
    text.extend_from_slice(b" ")?;
    text.extend_from_slice(first)
}

/// Returns the date at the beginning of `words`, as it is written in the log. If a time of day follows, the result also
/// contains a space and the time of day. If `words` doesn't begin with a date, the result is empty.
pub(crate) fn date_of(alloc: Global, words: &[&[u8]]) -> Result<Vec<u8>, AllocError>
    ensures { IfOk result (λ text. text.items ≡ date_text (map (λ w. w.now) words.now)) }
{
    let mut text = Vec::new(alloc);
    let Some((first, rest)) = words.split_first() else {
        return Ok(text);
    };
    if !is_date(first) {
        return Ok(text);
    }
    text.extend_from_slice(first)?;
    write_clock(&mut text, rest)?;
    Ok(text)
}
