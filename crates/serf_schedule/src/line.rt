//! Reads one line of a schedule. `words` are the words of the line, including the command, and their places are counted
//! from 1. If a word isn't valid at its place, the error is `BadWord` with this place.
//!
//! A clause `Gives view result said` states that the result, seen through `view`, equals `said`. The same holds for
//! errors, unless memory ran out.

ghost use Rattle.std.specs.Prelude.{◌≡◌, ◌≤◌, [], length, map};
ghost use Rattle.serf_text.specs.Words.{words_of, bytes_of, or_bad};
ghost use Rattle.serf_schedule.specs.Command.{count_of};
ghost use Rattle.serf_schedule.specs.Line.{Parsed, act_line, agent_of, per_time_in, limit_in, firing_of, merging_of, answer_of, restart_of, break_of, injection_line, closing_of, act_of, filters_from, params_of, query_of, query_said, with_action};
ghost use Rattle.serf_text.specs.Gives.{Gives};

use crate::command::Verb;
use crate::modes::{mode_at, sink_call_at};
use serf_agent::{
    BytesList, Config, DEFAULT_PER_TIME, DEFAULT_QUERY_LIMIT, DEFAULT_RESPONSE_LIMIT, QueryParams,
};
use serf_model::{Act, Action, Boxed, NewQuery};
use serf_text::{
    Cause, FIXED_WORDS, LineError, bytes_at, choice_at, hex_bytes, number_at, number_from_to,
    split_once,
};
use serf_wire::Bytes;
use std::alloc::Global;

/// The maximum timeout of a query, in nanoseconds.
const MAX_TIMEOUT: u64 = i64::MAX as u64;

/// The maximum value of a query's flags: 1 requests acks, 2 means no broadcast, and 3 means both.
const MAX_FLAGS: u64 = 3;

/// Returns how many events, and how many queries, of the same time an agent accepts. This is the eighth word of its
/// line, or the default if the line has only seven words.
#[tactic(auto, unfolding(crate::specs::Line::per_time_in))]
fn per_time(words: &[&[u8]]) -> Result<u64, LineError>
    ensures { Gives (λ n. n) result (per_time_in (map (λ w. w.now) words.now)) }
{
    if words.len() == 7 {
        Ok(DEFAULT_PER_TIME)
    } else {
        number_at(words, 8)
    }
}

/// Returns a limit on the length of packets: the number at `place` if the line has ten words, or `default` if it has
/// fewer.
#[tactic(auto, unfolding(crate::specs::Line::limit_in))]
fn limit(words: &[&[u8]], place: usize, default: u64) -> Result<u64, LineError>
    ensures { Gives (λ n. n) result (limit_in place default (map (λ w. w.now) words.now)) }
{
    if words.len() == 10 {
        number_at(words, place)
    } else {
        Ok(default)
    }
}

/// Reads the settings of an agent from the seven, eight or ten words of its line.
#[tactic(auto, unfolding(crate::specs::Line::agent_of))]
pub(crate) fn agent(alloc: Global, words: &[&[u8]]) -> Result<Config, LineError>
    ensures { Gives (λ c. c) result (agent_of (map (λ w. w.now) words.now)) }
{
    let name = bytes_at(alloc, words, 2)?;
    let event_buffer = number_at(words, 3)?;
    let query_buffer = number_at(words, 4)?;
    let event_limit = number_at(words, 5)?;
    let responders = number_at(words, 6)?;
    let mode = mode_at(words, 7)?;
    let per_time = per_time(words)?;
    let query_limit = limit(words, 9, DEFAULT_QUERY_LIMIT)?;
    let response_limit = limit(words, 10, DEFAULT_RESPONSE_LIMIT)?;
    Ok(Config {
        name,
        event_buffer,
        query_buffer,
        event_limit,
        query_limit,
        response_limit,
        responders,
        per_time,
        ignore_old: mode.ignore_old,
        keep_events: mode.keep_events,
    })
}

/// Reads a `fire` line. From place 3 on, the line has the name of the event, its payload and its coalesce flag.
#[tactic(auto, unfolding(crate::specs::Line::firing_of))]
fn firing(alloc: Global, words: &[&[u8]]) -> Result<Act, LineError>
    requires { length words.now ≡ 5 }
    ensures { Gives (λ a. a) result (firing_of (map (λ w. w.now) words.now)) }
{
    let name = bytes_at(alloc, words, 3)?;
    let payload = bytes_at(alloc, words, 4)?;
    let coalesce = choice_at(words, 5, b"0", b"1")?;
    Ok(Act::Fire {
        name,
        payload,
        coalesce,
    })
}

/// Reads a `merge` line. From place 3 on, the line has the number of the packet with the state, and `sync` or `join`.
#[tactic(auto, unfolding(crate::specs::Line::merging_of))]
fn merging(words: &[&[u8]]) -> Result<Act, LineError>
    requires { length words.now ≡ 4 }
    ensures { Gives (λ a. a) result (merging_of (map (λ w. w.now) words.now)) }
{
    let packet = number_at(words, 3)?;
    let join = choice_at(words, 4, b"sync", b"join")?;
    Ok(Act::Merge { packet, join })
}

/// Reads a `respond` line. From place 3 on, the line has the number of the query, the moment and the payload.
#[tactic(auto, unfolding(crate::specs::Line::answer_of))]
fn answer(alloc: Global, words: &[&[u8]]) -> Result<Act, LineError>
    requires { length words.now ≡ 5 }
    ensures { Gives (λ a. a) result (answer_of (map (λ w. w.now) words.now)) }
{
    let handed = number_at(words, 3)?;
    let now = number_at(words, 4)?;
    let payload = bytes_at(alloc, words, 5)?;
    Ok(Act::Respond {
        handed,
        now,
        payload,
    })
}

/// Reads a `restart` line. At place 3, the line has the tail: the bytes that follow the text in the agent's sink.
#[tactic(auto, unfolding(crate::specs::Line::restart_of))]
fn restarting(alloc: Global, words: &[&[u8]]) -> Result<Act, LineError>
    requires { length words.now ≡ 3 }
    ensures { Gives (λ a. a) result (restart_of (map (λ w. w.now) words.now)) }
{
    let tail = bytes_at(alloc, words, 3)?;
    Ok(Act::Restart { tail })
}

/// Reads a `break` line. From place 3 on, the line has the kind of sink call that will fail, and the number of this
/// call, counted from 1.
#[tactic(auto, unfolding(crate::specs::Line::break_of))]
fn breaking(words: &[&[u8]]) -> Result<Act, LineError>
    requires { length words.now ≡ 4 }
    ensures { Gives (λ a. a) result (break_of (map (λ w. w.now) words.now)) }
{
    let call = sink_call_at(words, 3)?;
    let count = number_from_to(words, 4, 1, u64::MAX)?;
    Ok(Act::Break { call, count })
}

/// Reads a `close` line, which closes an agent's queries. At place 3, the line has the moment, in nanoseconds.
#[tactic(auto, unfolding(crate::specs::Line::closing_of))]
fn closing(words: &[&[u8]]) -> Result<Act, LineError>
    requires { length words.now ≡ 3 }
    ensures { Gives (λ a. a) result (closing_of (map (λ w. w.now) words.now)) }
{
    let now = number_at(words, 3)?;
    Ok(Act::Close { now })
}

/// Reads the act of the agent in a line with the verb `verb`.
#[tactic(auto, unfolding(crate::specs::Line::delivery_of))]
fn act(alloc: Global, verb: Verb, words: &[&[u8]]) -> Result<Act, LineError>
    requires { length words.now ≡ count_of verb }
    ensures { Gives (λ a. a) result (act_of verb (map (λ w. w.now) words.now)) }
{
    match verb {
        Verb::Deliver => {
            let packet = number_at(words, 3)?;
            let now = number_at(words, 4)?;
            Ok(Act::Deliver { packet, now })
        }
        Verb::Fire => firing(alloc, words),
        Verb::Merge => merging(words),
        Verb::Respond => answer(alloc, words),
        Verb::Restart => restarting(alloc, words),
        Verb::Break => breaking(words),
        Verb::Close => closing(words),
        Verb::Bare(bare) => Ok(bare.act()),
    }
}

/// Reads the action of a line with the verb `verb`. Returns `WordCount` if the line doesn't have exactly as many words
/// as the verb needs.
pub(crate) fn action(alloc: Global, verb: Verb, words: &[&[u8]]) -> Result<Action, LineError>
    ensures { (before : Parsed) → Gives (with_action before) result
        (act_line verb before (map (λ w. w.now) words.now)) }
{
    if words.len() != verb.count() {
        return Err(LineError::Bad(Cause::WordCount));
    }
    let agent = number_at(words, 2)?;
    let act = act(alloc, verb, words)?;
    Ok(Action::Of { agent, act })
}

/// Reads the action of an `inject` line. Returns `WordCount` if the line doesn't have exactly two words.
#[tactic(auto, unfolding(crate::specs::Line::injection_of))]
pub(crate) fn injection(alloc: Global, words: &[&[u8]]) -> Result<Action, LineError>
    ensures { (before : Parsed) → Gives (with_action before) result
        (injection_line before (map (λ w. w.now) words.now)) }
{
    if words.len() != 2 {
        return Err(LineError::Bad(Cause::WordCount));
    }
    let bytes = bytes_at(alloc, words, 2)?;
    Ok(Action::Inject { bytes })
}

/// Decodes the filter that `word` spells. The word is at `place` of its line, counted from 1.
fn filter(alloc: Global, word: &[u8], place: u64) -> Result<Bytes, LineError>
    ensures { Gives (λ b. b) result (or_bad place (bytes_of word.now)) }
{
    match hex_bytes(alloc, word)? {
        Some(found) => Ok(found),
        None => Err(LineError::Bad(Cause::BadWord(place))),
    }
}

/// Decodes the filters in `text`, one per word. The first of these words is at the ninth place of its line.
fn filters(alloc: Global, text: &[u8]) -> Result<BytesList, LineError>
    ensures { Gives (λ f. f) result (filters_from [] 9 (words_of text.now)) }
{
    let mut filters = BytesList::new(alloc);
    let mut place = FIXED_WORDS as u64 + 1; // the place of the next filter
    let mut rest = text;
    'words: loop {
        let (word, more) = split_once(rest, b' ');
        if !word.is_empty() {
            let found = filter(alloc, word, place)?;
            filters.push(found)?;
            place += 1;
        }
        match more {
            Some(next) => rest = next,
            None => return Ok(filters),
        }
    }
}

/// Reads the parameters with which a query is fired. `words` are the first eight words of its line, and `rest` has the
/// query's filters. No line can set an address, a port or a relay factor, and no line can state that tag filters pass.
#[tactic(auto, unfolding(crate::specs::Line::params_of))]
fn params(alloc: Global, words: &[&[u8]], rest: &[u8]) -> Result<QueryParams, LineError>
    requires { length words.now ≡ 8 }
    ensures { Gives (λ p. p) result (params_of (map (λ w. w.now) words.now) (words_of rest.now)) }
{
    let timeout = number_from_to(words, 7, 0, MAX_TIMEOUT)?;
    let flags = number_from_to(words, 8, 0, MAX_FLAGS)?;
    let filters = filters(alloc, rest)?;
    Ok(QueryParams {
        filters,
        want_ack: flags % 2 == 1,
        no_broadcast: flags >= 2,
        tags_pass: false,
        timeout: timeout as i64,
        addr: Bytes::from_vec(Vec::new(alloc)),
        port: 0,
        relay_factor: 0,
    })
}

/// Reads the query of a line. `words` are its first eight words, and `rest` is the remainder of the line.
#[tactic(auto, unfolding(crate::specs::Line::query_of))]
fn new_query(alloc: Global, words: &[&[u8]], rest: &[u8]) -> Result<NewQuery, LineError>
    requires { length words.now ≡ 8 }
    ensures { Gives (λ q. Act.Query q) result
        (query_of (map (λ w. w.now) words.now) (words_of rest.now)) }
{
    let moment = number_at(words, 3)?;
    let id = number_from_to(words, 4, 0, u64::from(u32::MAX))?;
    let name = bytes_at(alloc, words, 5)?;
    let payload = bytes_at(alloc, words, 6)?;
    let params = params(alloc, words, rest)?;
    Ok(NewQuery {
        moment,
        id: id as u32,
        name,
        payload,
        params,
    })
}

/// Reads the action of a `query` line. `words` are its first words, at most eight, and `rest` is the remainder of the
/// line. Returns `WordCount` if the line has fewer than eight words.
pub(crate) fn query(alloc: Global, words: &[&[u8]], rest: &[u8]) -> Result<Action, LineError>
    requires { length words.now ≤ 8 }
    ensures { (before : Parsed) → Gives (with_action before) result
        (query_said before (map (λ w. w.now) words.now) (words_of rest.now)) }
{
    if words.len() < 8 {
        return Err(LineError::Bad(Cause::WordCount));
    }
    let agent = number_at(words, 2)?;
    let query = new_query(alloc, words, rest)?;
    match Boxed::new(alloc, query) {
        Ok(query) => Ok(Action::Of {
            agent,
            act: Act::Query(query),
        }),
        Err(_) => Err(LineError::OutOfMemory),
    }
}
