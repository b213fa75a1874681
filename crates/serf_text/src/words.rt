//! Reads the words of a line and interprets them. A clause `Gives view result said` states that the result, mapped by
//! `view`, is equal to `said`, the result according to the definition. This includes the error, unless memory ran
//! out.

ghost use Rattle.std.specs.Prelude.{◌≡◌, ◌<◌, ◌≤◌, ◌+◌, ◌++◌, ◌==◌, ◌∷◌, [], length, map, position, take, false, All, MatchOption, IfNone, IfOk, OnOk};
ghost use Rattle.std.specs.List.{slice_split};
ghost use Rattle.std.specs.Str.{bytes_eq};
ghost use Rattle.serf_text.specs.Words.{words_of, number_of, between, bytes_of, word_at, choice_of, number_in, number_between, bytes_in, choice_in};
ghost use Rattle.serf_text.specs.Gives.{Gives};

use crate::cause::{Cause, LineError};
use hex::FromHexError;
use memchr::memchr;
use serf_wire::Bytes;
use std::alloc::{AllocError, Global};

/// The minimum length in bytes of a text that is searched many bytes at once. A shorter text is searched byte by
/// byte, which is then faster.
const LONG_TEXT: usize = 64;

/// Returns the index of the first `separator` in `text`, counted from 0, or `None` if there is none. Searches many
/// bytes at once.
#[inline(never)]
fn place_in_long(text: &[u8], separator: u8) -> Option<usize>
    ensures place { result ≡ position (λ b. b == separator) text.now }
    ensures none { IfNone result (All (λ b. (b == separator) ≡ false) text.now) }
{
    memchr(separator, text)
}

/// Returns the index of the first `separator` in `text`, counted from 0, or `None` if there is none.
#[inline(always)]
pub(crate) fn place_of(text: &[u8], separator: u8) -> Option<usize>
    ensures place { result ≡ position (λ b. b == separator) text.now }
    ensures none { IfNone result (All (λ b. (b == separator) ≡ false) text.now) }
{
    if text.len() < LONG_TEXT {
        text.iter().position(|b| *b == separator)
    } else {
        place_in_long(text, separator)
    }
}

/// Splits `text` at its first `separator`. Returns the part before the separator and the part after it. If there is
/// no separator, the call returns all of `text` and `None`. Allocates no memory.
#[inline(always)]
pub fn split_once(text: &[u8], separator: u8) -> (&[u8], Option<&[u8]>)
    ensures parts { MatchOption result.1
        (slice_split (λ b. b == separator) text.now ≡ result.0.now ∷ [])
        (λ rest. slice_split (λ b. b == separator) text.now
        ≡ result.0.now ∷ slice_split (λ b. b == separator) rest.now) }
    ensures shorter { MatchOption result.1 (length result.0.now ≡ length text.now)
        (λ rest. length result.0.now + 1 + length rest.now ≡ length text.now) }
{
    match place_of(text, separator) {
        Some(at) => (&text[..at], Some(&text[at + 1..])),
        None => (text, None),
    }
}

/// The number of words of a line that are put into an array of fixed size. A line may have more words than this.
pub const FIXED_WORDS: usize = 8;

/// Splits `line` into its words, which are separated by spaces. Returns an array with the first words, at most eight,
/// the number of these words, and the rest of the line. The rest is the ninth word and everything after it, or
/// nothing. Allocates no memory.
#[inline(always)]
pub fn split_words(line: &[u8]) -> ([&[u8]; FIXED_WORDS], usize, &[u8])
    ensures joined { map (λ w. w.now) (take result.1 result.0) ++ words_of result.2.now
        ≡ words_of line.entry.now }
    ensures counted { length (take result.1 result.0) ≡ result.1 }
    ensures few { result.1 ≤ FIXED_WORDS }
    ensures full { 0 < length result.2.now
        → (result.1 ≡ FIXED_WORDS) × (0 < length (words_of result.2.now)) }
{
    let mut words: [&[u8]; FIXED_WORDS] = [&[]; FIXED_WORDS];
    let mut count = 0;
    let mut rest = line;
    'words: loop {
        let (word, more) = split_once(rest, b' ');
        if !word.is_empty() {
            if count == FIXED_WORDS {
                return (words, count, rest);
            }
            words[count] = word;
            count += 1;
        }
        match more {
            Some(next) => rest = next,
            None => return (words, count, &[]),
        }
    }
}

/// Replaces the contents of `words` with the first words of `line`, at most eight, as [`split_words`] finds them.
/// Returns the rest of the line.
///
/// If memory runs out for the words, `words` is empty afterwards.
pub fn split_words_into<'a>(
    line: &'a [u8],
    words: &mut Vec<&'a [u8]>,
) -> Result<&'a [u8], AllocError>
    ensures joined { IfOk result (λ rest. map (λ w. w.now) words.new.items ++ words_of rest.now
        ≡ words_of line.entry.now) }
    ensures few { OnOk result (length words.new.items ≤ FIXED_WORDS) }
    ensures full { IfOk result (λ rest. 0 < length rest.now
        → (length words.new.items ≡ FIXED_WORDS) × (0 < length (words_of rest.now))) }
{
    let (first, count, rest) = split_words(line); // at most eight words, their number, and the rest
    words.clear();
    words.extend_from_slice(&first[..count])?;
    Ok(rest)
}

/// Returns whether `word` is equal to `text`. Allocates no memory.
pub fn is_word(word: &[u8], text: &[u8]) -> bool
    ensures { result ≡ bytes_eq word.now text.now }
{
    word == text
}

/// Returns the number below 2^64 that `word` spells in decimal digits, or `None` for any other word. Allocates no
/// memory.
pub fn number(word: &[u8]) -> Option<u64>
    ensures { result ≡ number_of word.now }
{
    if word.is_empty() {
        return None;
    }
    let mut value: u64 = 0;
    for byte in word {
        if !byte.is_ascii_digit() {
            return None;
        }
        let digit = u64::from(*byte - b'0');
        let Some(tens) = value.checked_mul(10) else {
            return None;
        };
        let Some(sum) = tens.checked_add(digit) else {
            return None;
        };
        value = sum;
    }
    Some(value)
}

/// Returns the bytes that `word` spells in hex, with two digits for each byte. The word `-` spells no bytes. Returns
/// `None` for any other word.
pub fn hex_bytes(alloc: Global, word: &[u8]) -> Result<Option<Bytes>, AllocError>
    ensures { IfOk result (λ found. found ≡ bytes_of word.now) }
{
    if let [b'-'] = word {
        return Ok(Some(Bytes::from_vec(Vec::new(alloc))));
    }
    match hex::decode(alloc, word) {
        Ok(found) => Ok(Some(Bytes::from_vec(found))),
        Err(FromHexError::OutOfMemory) => Err(AllocError),
        Err(_) => Ok(None),
    }
}

/// Returns false if `word` is `first`, true if it is `second`, and `None` for any other word. Allocates no memory.
pub fn choice(word: &[u8], first: &[u8], second: &[u8]) -> Option<bool>
    ensures { result ≡ choice_of first.now second.now word.now }
{
    if is_word(word, first) {
        Some(false)
    } else if is_word(word, second) {
        Some(true)
    } else {
        None
    }
}

/// Returns the word at `place` of a line's `words`, counted from 1, or no bytes if there is none. Place 0 also means
/// the first word. Allocates no memory.
pub fn word_at<'a>(words: &[&'a [u8]], place: usize) -> &'a [u8]
    ensures { result.now ≡ word_at place (map (λ w. w.now) words.now) }
{
    match words.get(place.saturating_sub(1)) {
        Some(word) => word,
        None => &[],
    }
}

/// Returns the number below 2^64 at `place` of a line's `words`, counted from 1. It is written in decimal digits, and
/// may have leading zeros.
///
/// Returns `BadWord(place)` if the word isn't a number of this kind, or if it is missing. Allocates no memory.
#[tactic(auto, unfolding(crate::specs::Words::number_in))]
pub fn number_at(words: &[&[u8]], place: usize) -> Result<u64, LineError>
    ensures { Gives (λ n. n) result (number_in place (map (λ w. w.now) words.now)) }
{
    match number(word_at(words, place)) {
        Some(found) => Ok(found),
        None => Err(LineError::Bad(Cause::BadWord(place as u64))),
    }
}

/// Returns the number `found` if it is from `low` to `high`, and `None` otherwise.
fn keep_between(found: Option<u64>, low: u64, high: u64) -> Option<u64>
    ensures { result ≡ between low high found }
{
    match found {
        Some(n) => { if low <= n && n <= high { Some(n) } else { None } }
        None => None,
    }
}

/// Returns the number at `place` of a line's `words`, counted from 1. The number has to be from `low` to `high`.
///
/// Returns `BadWord(place)` if the word isn't a number in this range, or if it is missing. Allocates no memory.
#[tactic(auto, unfolding(crate::specs::Words::number_between))]
pub fn number_from_to(words: &[&[u8]], place: usize, low: u64, high: u64) -> Result<u64, LineError>
    ensures value { Gives (λ n. n) result
        (number_between low high place (map (λ w. w.now) words.now)) }
    ensures range { IfOk result (λ n. (low ≤ n) × (n ≤ high)) }
{
    match keep_between(number(word_at(words, place)), low, high) {
        Some(found) => Ok(found),
        None => Err(LineError::Bad(Cause::BadWord(place as u64))),
    }
}

/// Returns the bytes at `place` of a line's `words`, counted from 1. They are written as hex digits, two for each
/// byte, or as `-` if there are none.
///
/// Returns `BadWord(place)` if the word is neither of these, or if it is missing.
#[tactic(auto, unfolding(crate::specs::Words::bytes_in))]
pub fn bytes_at(alloc: Global, words: &[&[u8]], place: usize) -> Result<Bytes, LineError>
    ensures { Gives (λ b. b) result (bytes_in place (map (λ w. w.now) words.now)) }
{
    match hex_bytes(alloc, word_at(words, place))? {
        Some(found) => Ok(found),
        None => Err(LineError::Bad(Cause::BadWord(place as u64))),
    }
}

/// Returns which of two words is at `place` of a line's `words`, counted from 1: false for `first`, true for
/// `second`.
///
/// Returns `BadWord(place)` if another word is there, or if the word is missing. Allocates no memory.
#[tactic(auto, unfolding(crate::specs::Words::choice_in))]
pub fn choice_at(
    words: &[&[u8]],
    place: usize,
    first: &[u8],
    second: &[u8],
) -> Result<bool, LineError>
    ensures { Gives (λ b. b) result
        (choice_in first.now second.now place (map (λ w. w.now) words.now)) }
{
    match choice(word_at(words, place), first, second) {
        Some(found) => Ok(found),
        None => Err(LineError::Bad(Cause::BadWord(place as u64))),
    }
}
