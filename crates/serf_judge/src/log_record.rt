//! Reads the words of one line of a log, without its date. Words are counted from 1.

ghost use Rattle.std.specs.Prelude.{◌≡◌, ◌≤◌, ◌<◌, ◌+◌, ◌==◌, Ok, Err, length, map, IfOk, IfErr, if◌then◌else◌};
ghost use Rattle.serf_text.specs.Words.{number_in, word_at as word_of};
ghost use Rattle.serf_judge.specs.Identity.{event_identity};
ghost use Rattle.serf_judge.specs.Log.{begun, ended, event, event_at, event_line, fired, log_record_of, id_in, nothing, of_count, query_line, trace_line};
ghost use Rattle.serf_judge.specs.Said.{IsAt, Says, log_record_view};

use crate::entry::{EventEntry, QueryEntry};
use serf_text::{Cause, StreamLineError, number};
use std::alloc::Global;

/// The content of a line.
#[derive(Drop)]
pub(crate) enum LogRecord {
    /// There is nothing to judge on the line: it has no words, or reports that a node restarted, or is another line
    /// from a trace.
    Nothing,
    /// The node fired this event.
    Fired(EventEntry),
    /// The node was handed this event.
    Event(EventEntry),
    /// The node was handed this query.
    Query(QueryEntry),
    /// The node was handed this event, and the event's handler began.
    Begun(EventEntry),
    /// The handler of this event ended with this status.
    Ended(EventEntry, Vec<u8>),
}

/// Returns the number that word number `place` spells. Returns `BadWord` with `place` if the word isn't a number.
#[tactic(auto, unfolding(serf_text::specs::Words::number_in))]
fn number_at(words: &[&[u8]], place: usize) -> Result<u64, StreamLineError<Cause>>
    requires { (1 ≤ place) × (place ≤ length words.now) }
    ensures { Says (λ n. n) result (number_in place (map (λ w. w.now) words.now)) }
{
    match number(words[place - 1]) {
        Some(found) => Ok(found),
        None => Err(StreamLineError::Bad(Cause::BadWord(place as u64))),
    }
}

/// Returns a copy of `word`, or `OutOfMemory` if there isn't enough memory for the copy.
fn copy_of(alloc: Global, word: &[u8]) -> Result<Vec<u8>, StreamLineError<Cause>>
    ensures same { IfOk result (λ copy. copy.items ≡ word.now) }
    ensures memory { IfErr result (λ error. error ≡ StreamLineError.OutOfMemory) }
{
    match Vec::from_slice(alloc, word) {
        Ok(copy) => Ok(copy),
        Err(_) => Err(StreamLineError::OutOfMemory),
    }
}

/// Returns the query ID that word number `place` spells, or `None` if the word is `-`. Returns `BadWord` with `place`
/// if the word is neither `-` nor a number.
#[tactic(auto, unfolding(crate::specs::Log::id_in))]
fn id_at(words: &[&[u8]], place: usize) -> Result<Option<u64>, StreamLineError<Cause>>
    requires { (1 ≤ place) × (place ≤ length words.now) }
    ensures { Says (λ i. i) result (id_in place (map (λ w. w.now) words.now)) }
{
    if word_at(words, place) == b"-".as_slice() {
        return Ok(None);
    }
    let id = number_at(words, place)?;
    Ok(Some(id))
}

/// Returns the event on line number `line`. The four words that begin at word number `node_at` are the node, and the
/// event's time, name and payload.
#[tactic(auto, unfolding(crate::specs::Log::event_at))]
fn entry_in(
    alloc: Global,
    line: u64,
    words: &[&[u8]],
    node_at: usize,
) -> Result<EventEntry, StreamLineError<Cause>>
    requires { (1 ≤ node_at) × (node_at + 3 ≤ length words.now) }
    ensures said { Says event_identity result (event_at node_at (map (λ w. w.now) words.now)) }
    ensures line { IfOk result (λ entry. entry.line ≡ line) }
{
    let time = number_at(words, node_at + 1)?;
    let node = copy_of(alloc, word_at(words, node_at))?;
    let name = copy_of(alloc, word_at(words, node_at + 2))?;
    let payload = copy_of(alloc, word_at(words, node_at + 3))?;
    Ok(EventEntry {
        line,
        node,
        time,
        name,
        payload,
    })
}

/// Returns the event on line number `line`. The event was fired if `is_fired` is true, and was handed out otherwise.
/// The four words that begin at word number `node_at` are the node, and the event's time, name and payload. Returns
/// `WordCount` if the line doesn't have exactly `word_count` words.
fn event_in(
    alloc: Global,
    line: u64,
    words: &[&[u8]],
    node_at: usize,
    word_count: usize,
    is_fired: bool,
) -> Result<LogRecord, StreamLineError<Cause>>
    requires { (1 ≤ node_at) × (node_at + 3 ≤ word_count) }
    ensures said { Says log_record_view result (of_count word_count (map (λ w. w.now) words.now)
        (event_line node_at (map (λ w. w.now) words.now)
        (λ e. if is_fired then fired e else event e))) }
    ensures line { IfOk result (IsAt line) }
{
    if words.len() != word_count {
        return Err(StreamLineError::Bad(Cause::WordCount));
    }
    let entry = entry_in(alloc, line, words, node_at)?;
    if is_fired {
        return Ok(LogRecord::Fired(entry));
    }
    Ok(LogRecord::Event(entry))
}

/// Returns the query that line number `line` hands out. The words with the numbers `node_at`, `time_at` and
/// `query_id_at` are the node, the query's time and the query's ID. Returns `WordCount` if the line doesn't have
/// exactly `word_count` words.
#[tactic(auto, unfolding(crate::specs::Log::query_at))]
fn query_in(
    alloc: Global,
    line: u64,
    words: &[&[u8]],
    node_at: usize,
    time_at: usize,
    query_id_at: usize,
    word_count: usize,
) -> Result<LogRecord, StreamLineError<Cause>>
    requires node { (1 ≤ node_at) × (node_at ≤ word_count) }
    requires time { (1 ≤ time_at) × (time_at ≤ word_count) }
    requires id { (1 ≤ query_id_at) × (query_id_at ≤ word_count) }
    ensures said { Says log_record_view result (of_count word_count (map (λ w. w.now) words.now)
        (query_line node_at time_at query_id_at (map (λ w. w.now) words.now))) }
    ensures line { IfOk result (IsAt line) }
{
    if words.len() != word_count {
        return Err(StreamLineError::Bad(Cause::WordCount));
    }
    let time = number_at(words, time_at)?;
    let id = id_at(words, query_id_at)?;
    let node = copy_of(alloc, words[node_at - 1])?;
    Ok(LogRecord::Query(QueryEntry {
        line,
        node,
        time,
        id,
    }))
}

/// Returns the event on line number `line`, which has the form `begun NODE TIME NAME PAYLOAD`. Returns `WordCount` if
/// the line doesn't have exactly five words.
fn begun_in(alloc: Global, line: u64, words: &[&[u8]]) -> Result<LogRecord, StreamLineError<Cause>>
    ensures said { Says log_record_view result (of_count 5 (map (λ w. w.now) words.now)
        (event_line 2 (map (λ w. w.now) words.now) (λ e. begun e))) }
    ensures line { IfOk result (IsAt line) }
{
    if words.len() != 5 {
        return Err(StreamLineError::Bad(Cause::WordCount));
    }
    let entry = entry_in(alloc, line, words, 2)?;
    Ok(LogRecord::Begun(entry))
}

/// Returns the event and the status on line number `line`, which has the form `ended NODE TIME NAME PAYLOAD STATUS`.
/// Returns `WordCount` if the line doesn't have exactly six words.
fn ended_in(alloc: Global, line: u64, words: &[&[u8]]) -> Result<LogRecord, StreamLineError<Cause>>
    ensures said { Says log_record_view result (of_count 6 (map (λ w. w.now) words.now)
        (event_line 2 (map (λ w. w.now) words.now)
        (λ e. ended e (word_of 6 (map (λ w. w.now) words.now))))) }
    ensures line { IfOk result (IsAt line) }
{
    if words.len() != 6 {
        return Err(StreamLineError::Bad(Cause::WordCount));
    }
    let entry = entry_in(alloc, line, words, 2)?;
    let status = copy_of(alloc, word_at(words, 6))?;
    Ok(LogRecord::Ended(entry, status))
}

/// Reads line number `line`, which is from a trace that `serf-replay` wrote. A line `N event A T NAME PAYLOAD CC` hands
/// an event of time `T` to node `A`, and a line `N handed A H T ID NAME PAYLOAD` hands a query of time `T` to node `A`.
/// On any other line, there is nothing to judge.
#[tactic(auto, unfolding(crate::specs::Log::trace_line))]
fn trace_log_record(
    alloc: Global,
    line: u64,
    words: &[&[u8]],
) -> Result<LogRecord, StreamLineError<Cause>>
    ensures said { Says log_record_view result (trace_line (map (λ w. w.now) words.now)) }
    ensures line { IfOk result (IsAt line) }
{
    let second = word_at(words, 2);
    if second == b"event".as_slice() {
        event_in(alloc, line, words, 3, 7, false)
    } else if second == b"handed".as_slice() {
        query_in(alloc, line, words, 3, 5, 6, 8)
    } else {
        Ok(LogRecord::Nothing)
    }
}

/// Returns word number `place`, counted from 1. If there is no such word, returns an empty word.
fn word_at<'a>(words: &[&'a [u8]], place: usize) -> &'a [u8]
    requires { 1 ≤ place }
    ensures { result.now ≡ word_of place (map (λ w. w.now) words.entry.now) }
{
    match words.get(place - 1) {
        Some(word) => word,
        None => &[],
    }
}

/// Reads `words`, the words of line number `line`. Returns `UnknownWord` if the first word is neither a number nor a
/// word with which a log line begins.
#[tactic(auto, unfolding(crate::specs::Log::log_record_of))]
pub(crate) fn log_record_in(
    alloc: Global,
    line: u64,
    words: &[&[u8]],
) -> Result<LogRecord, StreamLineError<Cause>>
    ensures said { Says log_record_view result (log_record_of (map (λ w. w.now) words.now)) }
    ensures line { IfOk result (IsAt line) }
{
    let first = word_at(words, 1);
    if first == b"event".as_slice() {
        event_in(alloc, line, words, 2, 5, false)
    } else if first == b"fired".as_slice() {
        event_in(alloc, line, words, 2, 5, true)
    } else if first == b"query".as_slice() {
        query_in(alloc, line, words, 2, 3, 4, 4)
    } else if first == b"restarted".as_slice() {
        restarted_in(words)
    } else if first == b"begun".as_slice() {
        begun_in(alloc, line, words)
    } else if first == b"ended".as_slice() {
        ended_in(alloc, line, words)
    } else if number(first).is_some() {
        trace_log_record(alloc, line, words)
    } else {
        Err(StreamLineError::Bad(Cause::UnknownWord))
    }
}

/// Reads a line `restarted NODE`, on which there is nothing to judge. Returns `WordCount` if the line doesn't have
/// exactly two words.
fn restarted_in(words: &[&[u8]]) -> Result<LogRecord, StreamLineError<Cause>>
    ensures said { Says log_record_view result
        (of_count 2 (map (λ w. w.now) words.now) (Ok nothing)) }
    ensures line { IfOk result (λ held. held ≡ LogRecord.Nothing) }
{
    if words.len() != 2 {
        return Err(StreamLineError::Bad(Cause::WordCount));
    }
    Ok(LogRecord::Nothing)
}
