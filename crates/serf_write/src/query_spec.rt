//! Reads the query in a line together with the query's options.

ghost use Rattle.std.specs.Prelude.{◌≡◌, ◌==◌, ◌<◌, IfOk, position};
ghost use Rattle.serf_write.specs.Gives.{Gives};
ghost use Rattle.serf_write.specs.Queries.{option_value, options_from, options_in, plain_query, query_moment, query_of, with_option, with_pair};

use crate::filters::filter;
use crate::settings::{following, word_in};
use crate::token::Token;
use crate::values::{between, bytes_at, halves, time, time_at, word};
use crate::word_error::{Expected, LineError, bad};
use serf_agent::{BytesList, QueryParams};
use serf_model::{Act, Boxed, NewQuery};
use serf_text::{is_word, number};
use serf_wire::Bytes;
use std::alloc::Global;

/// The ID of a query, and the parameters with which an agent fires the query. The options in the line of a query set
/// both its ID and its parameters.
#[derive(Drop)]
pub(crate) struct QuerySpec {
    pub(crate) id: u32,
    pub(crate) params: QueryParams,
}

/// Returns the ID and the parameters of a query whose line has no options. The ID is 0, and the timeout is one second.
fn plain(alloc: Global) -> QuerySpec
    ensures { result ≡ plain_query }
{
    QuerySpec {
        id: 0,
        params: QueryParams {
            filters: BytesList::new(alloc),
            want_ack: false,
            no_broadcast: false,
            tags_pass: false,
            timeout: 1_000_000_000,
            addr: Bytes::from_vec(Vec::new(alloc)),
            port: 0,
            relay_factor: 0,
        },
    }
}

/// Applies the option `key` with the value `value`. The word that contains the option is at `place`.
fn apply_value(
    alloc: Global,
    query_spec: &mut QuerySpec,
    place: usize,
    key: &[u8],
    value: &[u8],
) -> Result<(), LineError>
    ensures { Gives (λ _. query_spec.new) result
        (option_value place query_spec.old key.now value.now) }
{
    if is_word(key, b"id") {
        match between(number(value), 0, u64::from(u32::MAX)) {
            Some(id) => query_spec.id = id as u32,
            None => return Err(bad(place, Expected::Option)),
        }
    } else if is_word(key, b"timeout") {
        match between(time(value), 0, i64::MAX as u64) {
            Some(time) => query_spec.params.timeout = time as i64,
            None => return Err(bad(place, Expected::Option)),
        }
    } else if is_word(key, b"filter") {
        let filter = filter(alloc, place, value)?;
        query_spec.params.filters.push(filter)?;
    } else {
        return Err(bad(place, Expected::Option));
    }
    Ok(())
}

/// Applies a query option that consists of a key, an equals sign and a value.
fn apply_pair(
    alloc: Global,
    query_spec: &mut QuerySpec,
    place: usize,
    word: &[u8],
) -> Result<(), LineError>
    ensures { Gives (λ _. query_spec.new) result
        (with_pair place query_spec.old word.now (position (λ b. b == 61) word.now)) }
{
    match halves(word, b'=') {
        Some((key, value)) => apply_value(alloc, query_spec, place, key, value),
        None => Err(bad(place, Expected::Option)),
    }
}

/// Applies the query option `word`. The option is either a single word, or a key with a value.
#[tactic(auto, unfolding(crate::specs::Queries::with_option))]
fn apply_option(
    alloc: Global,
    query_spec: &mut QuerySpec,
    place: usize,
    word: &[u8],
) -> Result<(), LineError>
    ensures { Gives (λ _. query_spec.new) result (with_option place query_spec.old word.now) }
{
    if is_word(word, b"ack") {
        query_spec.params.want_ack = true;
        Ok(())
    } else if is_word(word, b"quiet") {
        query_spec.params.no_broadcast = true;
        Ok(())
    } else {
        apply_pair(alloc, query_spec, place, word)
    }
}

/// Applies the options in `tokens` to `query_spec`, and returns the result. The first of these tokens is at place
/// `first` of the line.
fn apply_options(
    alloc: Global,
    query_spec: QuerySpec,
    first: usize,
    tokens: &[Token],
) -> Result<QuerySpec, LineError>
    requires { first < 100 }
    ensures { Gives (λ a. a) result (options_from first query_spec tokens.now) }
{
    let mut query_spec = query_spec;
    let mut place: usize = first;
    let mut rest = tokens;
    'options: loop {
        match rest.split_first() {
            Some((token, more)) => {
                apply_option(alloc, &mut query_spec, place, word_in(token))?;
                place += 1;
                rest = more;
            }
            None => return Ok(query_spec),
        }
    }
}

/// Reads the moment of a query in nanoseconds. If the fifth token is the word `at`, the moment follows this word, and
/// otherwise the moment is 0.
#[tactic(auto, unfolding(crate::specs::Queries::query_moment))]
fn moment(tokens: &[Token]) -> Result<u64, LineError>
    ensures { Gives (λ n. n) result (query_moment tokens.now) }
{
    if is_word(word(tokens, 5), b"at") {
        time_at(tokens, 6)
    } else {
        Ok(0)
    }
}

/// Reads the options of a query. The options are the tokens after the payload, or after the moment if the line contains
/// one.
#[tactic(auto, unfolding(crate::specs::Queries::options_in))]
fn options(alloc: Global, tokens: &[Token]) -> Result<QuerySpec, LineError>
    ensures { Gives (λ a. a) result (options_in tokens.now) }
{
    if is_word(word(tokens, 5), b"at") {
        apply_options(alloc, plain(alloc), 7, following(tokens, 6))
    } else {
        apply_options(alloc, plain(alloc), 5, following(tokens, 4))
    }
}

/// Reads a `query` line. From place 3 on, the line contains the name and the payload of the query, and may also contain
/// the query's moment and options.
#[tactic(auto, unfolding(crate::specs::Queries::query_of))]
pub(crate) fn query(alloc: Global, tokens: &[Token]) -> Result<Act, LineError>
    ensures { Gives (λ a. a) result (query_of tokens.now) }
{
    let name = bytes_at(alloc, tokens, 3)?;
    let payload = bytes_at(alloc, tokens, 4)?;
    let moment = moment(tokens)?;
    let QuerySpec { id, params } = options(alloc, tokens)?;
    let query = NewQuery {
        moment,
        id,
        name,
        payload,
        params,
    };
    Ok(Act::Query(Boxed::new(alloc, query)?))
}
