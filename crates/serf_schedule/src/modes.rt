//! Reads and writes two kinds of words: the word MODE of an agent's line, and the names of sink calls in `break` lines.

ghost use Rattle.std.specs.Prelude.{◌≡◌, map};
ghost use Rattle.serf_text.specs.Gives.{Gives};
ghost use Rattle.serf_schedule.specs.Line.{mode_in, mode_of};
ghost use Rattle.serf_schedule.specs.ScheduleText.{mode_word};
ghost use Rattle.serf_schedule.specs.Sinks.{sink_call_of, sink_call_in};

use serf_agent::Config;
use serf_model::SinkCall;
use serf_text::{Cause, LineError, is_word, word_at};

/// The meaning of the word MODE in an agent's line. The word is `ignore` or `keep`, with or without `+events` after it.
#[derive(Clone, Copy)]
pub struct Mode {
    /// Whether the agent ignores old events at a join.
    pub ignore_old: bool,
    /// Whether the agent also keeps its events across restarts.
    pub keep_events: bool,
}

/// Returns the mode that `word` names, or `None` for any other word. Allocates no memory.
fn mode_of(word: &[u8]) -> Option<Mode>
    ensures { result ≡ mode_of word.now }
{
    let (ignore_old, keep_events) = if is_word(word, b"keep") {
        (false, false)
    } else if is_word(word, b"ignore") {
        (true, false)
    } else if is_word(word, b"keep+events") {
        (false, true)
    } else if is_word(word, b"ignore+events") {
        (true, true)
    } else {
        return None;
    };
    Some(Mode {
        ignore_old,
        keep_events,
    })
}

/// Reads the mode at `place` of a line's `words`. Places are counted from 1.
///
/// Returns `BadWord(place)` if the word isn't a mode, or is missing. Allocates no memory.
#[tactic(auto, unfolding(crate::specs::Line::mode_in))]
pub(crate) fn mode_at(words: &[&[u8]], place: usize) -> Result<Mode, LineError>
    ensures { Gives (λ m. m) result (mode_in place (map (λ w. w.now) words.now)) }
{
    match mode_of(word_at(words, place)) {
        Some(found) => Ok(found),
        None => Err(LineError::Bad(Cause::BadWord(place as u64))),
    }
}

/// Returns the word MODE for `config`. This word states whether the agent ignores old events at a join, and whether it
/// keeps its events across restarts.
pub(crate) fn mode_word(config: &Config) -> &'static [u8]
    ensures { result.now ≡ mode_word config.now }
{
    if config.keep_events {
        if config.ignore_old {
            b"ignore+events"
        } else {
            b"keep+events"
        }
    } else if config.ignore_old {
        b"ignore"
    } else {
        b"keep"
    }
}

/// Returns the sink call that `word` names, or `None` for any other word. Allocates no memory.
pub fn sink_call(word: &[u8]) -> Option<SinkCall>
    ensures { result ≡ sink_call_of word.now }
{
    if is_word(word, b"append") {
        Some(SinkCall::Append)
    } else if is_word(word, b"flush") {
        Some(SinkCall::Flush)
    } else if is_word(word, b"replace-old") {
        Some(SinkCall::ReplaceOld)
    } else if is_word(word, b"replace-new") {
        Some(SinkCall::ReplaceNew)
    } else {
        None
    }
}

/// Reads the sink call at `place` of a line's `words`. Places are counted from 1. Returns `BadWord(place)` if the word
/// names no sink call.
#[tactic(auto, unfolding(crate::specs::Sinks::sink_call_in))]
pub(crate) fn sink_call_at(words: &[&[u8]], place: usize) -> Result<SinkCall, LineError>
    ensures { Gives (λ c. c) result (sink_call_in place (map (λ w. w.now) words.now)) }
{
    match sink_call(word_at(words, place)) {
        Some(found) => Ok(found),
        None => Err(LineError::Bad(Cause::BadWord(place as u64))),
    }
}
