//! Computes the lengths of canonical packets, in bytes. Every packet of a type contains the type byte, the
//! map's header, the keys, and one byte for each truth value. The constant in each sum is the length of these
//! parts.

ghost use Rattle.std.specs.Prelude.{◌≡◌, ◌<◌, ◌≤◌, ◌*◌, ◌+◌, ◌^◌, length};
ghost use Rattle.std.specs.List.{flat_map};
ghost use Rattle.serf_pack.specs.Canonical.{array_head, raw_bytes, uint_bytes, int_bytes};
ghost use Rattle.serf_wire.specs.Message.{event_said, query, query_of, query_response, response_said, user_event};
ghost use Rattle.serf_wire.specs.Canonical.{list_bytes, canonical};

use crate::message::{Query, QueryResponse, UserEvent};
use crate::texts::Bytes;

/// Returns the length of a text in a packet, with its header, in bytes.
pub fn text_len(text: &[u8]) -> u128
    ensures value { result ≡ length (raw_bytes text.now) }
    ensures small { result < 2 ^ 64 }
{
    let n = text.len() as u128;
    if n < 32 {
        1 + n
    } else if n < 65536 {
        3 + n
    } else {
        5 + n
    }
}

/// Returns the length of a number in a packet, with its header, in bytes.
pub fn number_len(number: u64) -> u128
    ensures value { result ≡ length (uint_bytes number) }
    ensures small { result < 10 }
{
    if number < 128 {
        1
    } else if number < 256 {
        2
    } else if number < 65536 {
        3
    } else if number < 4294967296 {
        5
    } else {
        9
    }
}

/// Returns the length of a query's timeout in a packet, with its header, in bytes.
fn timeout_len(parts: &Query<&[Bytes]>) -> u128
    ensures value { result ≡ length (int_bytes parts.now.timeout) }
    ensures small { result < 10 }
{
    let timeout = parts.timeout;
    if timeout >= 0 {
        number_len(timeout as u64)
    } else if timeout >= -32 {
        1
    } else if timeout >= -128 {
        2
    } else if timeout >= -32768 {
        3
    } else if timeout >= -2147483648 {
        5
    } else {
        9
    }
}

/// Returns the length of the header of an array of `count` items, in bytes.
fn array_head_len(count: usize) -> u128
    ensures value { result ≡ length (array_head count) }
    ensures small { result < 10 }
{
    if count < 16 {
        1
    } else if count < 65536 {
        3
    } else {
        5
    }
}

/// Returns the length of the items of a list of filters, each with its header, in bytes.
fn filters_len(filters: &[Bytes]) -> u128
    ensures value { result ≡ length (flat_map raw_bytes filters.now) }
    ensures small { result ≤ length filters.now * 2 ^ 64 }
{
    let mut total = 0;
    for filter in filters {
        total += text_len(filter.as_slice());
    }
    total
}

/// Returns the length of a query's texts and of its list of filters, with their headers, in bytes.
fn query_texts_len(parts: &Query<&[Bytes]>) -> u128
    ensures value { result
        ≡ length (raw_bytes parts.now.addr.now) + length (raw_bytes parts.now.source.now)
        + length (raw_bytes parts.now.name.now) + length (raw_bytes parts.now.payload.now)
        + length (list_bytes raw_bytes parts.now.filters.now) }
    ensures small { result < 2 ^ 127 + 2 ^ 70 }
{
    text_len(parts.addr)
        + text_len(parts.source)
        + text_len(parts.name)
        + text_len(parts.payload)
        + array_head_len(parts.filters.len())
        + filters_len(parts.filters)
}

/// Returns the length of a query's numbers, with their headers, in bytes.
fn query_numbers_len(parts: &Query<&[Bytes]>) -> u128
    ensures value { result ≡ length (uint_bytes parts.now.time) + length (uint_bytes parts.now.id)
        + length (uint_bytes parts.now.port) + length (uint_bytes parts.now.flags)
        + length (uint_bytes parts.now.relay_factor) + length (int_bytes parts.now.timeout) }
    ensures small { result < 60 }
{
    number_len(parts.time.get())
        + number_len(parts.id as u64)
        + number_len(parts.port as u64)
        + number_len(parts.flags as u64)
        + number_len(parts.relay_factor as u64)
        + timeout_len(parts)
}

/// Returns the length of the canonical packet of a user event, in bytes. If a text is longer than
/// 4,294,967,295 bytes, no packet can contain it. The header of this text then counts as five bytes.
/// Allocates no memory.
#[tactic(auto, unfolding(crate::specs::Canonical::canonical))]
pub fn user_event_len(event: &UserEvent) -> u128
    ensures { result ≡ length (canonical (user_event (event_said event.now))) }
{
    25 + number_len(event.time.get()) + text_len(event.name) + text_len(event.payload)
}

/// Returns the length of the canonical packet of a query, in bytes. If a text or a list has more than
/// 4,294,967,295 bytes or items, no packet can contain it. Its header then counts as five bytes. Allocates no
/// memory.
#[tactic(auto, unfolding(crate::specs::Canonical::canonical))]
pub fn query_len(parts: &Query<&[Bytes]>) -> u128
    ensures { result ≡ length (canonical (query (query_of parts.now))) }
{
    79 + query_numbers_len(parts) + query_texts_len(parts)
}

/// Returns the length of the canonical packet of a query's response, in bytes. If a text is longer than
/// 4,294,967,295 bytes, no packet can contain it. The header of this text then counts as five bytes.
/// Allocates no memory.
#[tactic(auto, unfolding(crate::specs::Canonical::canonical))]
pub fn response_len(response: &QueryResponse) -> u128
    ensures { result ≡ length (canonical (query_response (response_said response.now))) }
{
    30 + number_len(response.time)
        + number_len(response.id as u64)
        + text_len(response.from)
        + number_len(response.flags as u64)
        + text_len(response.payload)
}
