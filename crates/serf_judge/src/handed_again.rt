//! Predicts which events and queries a node may be handed again after an agent or stock Serf was started on its
//! snapshot.

ghost use Rattle.std.specs.Prelude.{◌≡◌, ◌&&◌, IfOk, length, nat_lt};
ghost use Rattle.std.specs.List.{position_from};
ghost use Rattle.serf_snapshot.specs.EventLines.{queries_in};
ghost use Rattle.serf_agent.specs.Ideal.{IdealAgent};
ghost use Rattle.serf_agent.specs.Sound.{IsSound};
ghost use Rattle.serf_agent.specs.View.{view_of};
ghost use Rattle.serf_text.specs.Words.{bytes_of};
ghost use Rattle.serf_judge.specs.HandedAgain.{query_id_or_zero, is_again, is_new_in_hex, of_time, opened_on, serf_minimum, settings, unescaped};
ghost use Rattle.serf_judge.specs.Kept.{is_line_of};

use crate::entry::{EventEntry, QueryEntry};
use crate::kept::{first_of_node_since, is_of};
use crate::key::Delivered;
use crate::reader::Reader;
use crate::stock_serf::serf_clocks;
use percent_encoding::percent_decode;
use serf_agent::{Agent, Config, MAX_TEXT_BYTES};
use serf_lamport::Time;
use serf_snapshot::{EntryFilter, MemorySink, read_kept};
use serf_text::hex_bytes;
use std::alloc::{AllocError, Global};

/// Returns the minimum time that stock Serf accepts after it restored `clock`. Serf adds 1 to the clock, and the sum
/// wraps to 0 at 2^64.
fn serf_minimum(clock: u64) -> u64
    ensures { result ≡ serf_minimum clock }
{
    if clock == u64::MAX {
        return 0;
    }
    clock + 1
}

/// Decodes a word of a handler's log, as `examples/serf_log_handler.sh` writes it: `%` and two hex digits are one byte,
/// and a single `-` is an empty text.
fn unescaped(alloc: Global, word: &[u8]) -> Result<Vec<u8>, AllocError>
    ensures { IfOk result (λ text. text.items ≡ unescaped word.now) }
{
    let mut text = Vec::new(alloc);
    if word == b"-".as_slice() {
        return Ok(text);
    }
    percent_decode(word).append_to(&mut text)?;
    Ok(text)
}

/// A log line with an event or a query, which an agent that is opened on a snapshot either hands out or ignores.
pub trait Offered: Delivered {
    ghost use Rattle.std.specs.Prelude.{◌≡◌, IfOk, ℕ, List, Bool};
    ghost use Rattle.serf_agent.specs.Ideal.{IdealAgent};
    ghost use Rattle.serf_agent.specs.Sound.{IsSound};
    ghost use Rattle.serf_agent.specs.View.{view_of};
    ghost use Rattle.serf_snapshot.specs.declared.kind.ClockKind.{ClockKind};
    ghost use Rattle.serf_judge.specs.SerfClocks.{serf_clock};

    ghost kind: { ClockKind };

    ghost is_new: { List ℕ → IdealAgent → Self → Bool };

    /// Returns the clock that stock Serf restores from a snapshot for this kind of line. Allocates no memory.
    fn serf_clock_in(text: &[u8], rejoins: bool) -> u64
        ensures { result ≡ serf_clock rejoins kind text.now };

    /// Returns whether `agent`, which was opened on `text`, would hand out this entry. Returns an `AllocError` only if
    /// there isn't enough memory for the texts.
    fn is_new_to(
        &self,
        alloc: Global,
        agent: &Agent<MemorySink>,
        text: &[u8],
    ) -> Result<bool, AllocError>
        ensures { (i : IdealAgent) → IsSound i → agent.now.concrete ≡ view_of i
            → IfOk result (λ new. new ≡ is_new text.now i self.now) };
}

/// Returns whether `agent` would hand out the event with the time `time` and with the `name` and the `payload`, which
/// are in hex. Returns true if the name or the payload isn't hex.
fn is_new_in_hex(
    alloc: Global,
    agent: &Agent<MemorySink>,
    time: Time,
    name: &[u8],
    payload: &[u8],
) -> Result<bool, AllocError>
    ensures { (i : IdealAgent) → IsSound i → agent.now.concrete ≡ view_of i
        → IfOk result (λ new. new
        ≡ is_new_in_hex i time (bytes_of name.now) (bytes_of payload.now)) }
{
    let Some(name) = hex_bytes(alloc, name)? else {
        return Ok(true);
    };
    let Some(payload) = hex_bytes(alloc, payload)? else {
        return Ok(true);
    };
    let reason = agent.judge_event(time, name.as_slice(), payload.as_slice());
    Ok(reason.is_none())
}

impl Offered for EventEntry {
    ghost use Rattle.serf_snapshot.specs.declared.kind.ClockKind.TheVariants.{Event};
    ghost use Rattle.serf_judge.specs.HandedAgain.{is_new_event};

    ghost kind = { Event };

    ghost is_new = { is_new_event };

    fn serf_clock_in(text: &[u8], rejoins: bool) -> u64 {
        serf_clocks(text, rejoins).event_clock
    }

    fn is_new_to(
        &self,
        alloc: Global,
        agent: &Agent<MemorySink>,
        _text: &[u8],
    ) -> Result<bool, AllocError> {
        let Some(time) = Time::new(self.time) else {
            return Ok(false);
        };
        let (name, payload) = (self.name.as_slice(), self.payload.as_slice());
        let written = (unescaped(alloc, name)?, unescaped(alloc, payload)?);
        let reason = agent.judge_event(time, written.0.as_slice(), written.1.as_slice());
        if reason.is_some() {
            return Ok(false);
        }
        is_new_in_hex(alloc, agent, time, name, payload)
    }
}

/// Returns whether the snapshot `text` keeps a query with the time `time`.
fn keeps_query_at(alloc: Global, text: &[u8], time: Time) -> Result<bool, AllocError>
    ensures { IfOk result (λ keeps. keeps
        ≡ nat_lt 0 (length (queries_in (of_time time) text.now))) }
{
    let of_time = EntryFilter {
        from: time.get(),
        below: time.get() + 1,
        longest: MAX_TEXT_BYTES as u64,
    };
    let kept = read_kept(alloc, text, of_time, of_time)?;
    Ok(!kept.queries.is_empty())
}

/// Returns the ID `id` of a query, or 0 if the query has no ID or an ID that doesn't fit into 32 bits.
fn query_id_or_zero(id: Option<u64>) -> u32
    ensures { result ≡ query_id_or_zero id }
{
    match id {
        Some(id) => u32::try_from(id).unwrap_or(0),
        None => 0,
    }
}

impl Offered for QueryEntry {
    ghost use Rattle.serf_snapshot.specs.declared.kind.ClockKind.TheVariants.{Query};
    ghost use Rattle.serf_judge.specs.HandedAgain.{is_new_query};

    ghost kind = { Query };

    ghost is_new = { is_new_query };

    fn serf_clock_in(text: &[u8], rejoins: bool) -> u64 {
        serf_clocks(text, rejoins).query_clock
    }

    fn is_new_to(
        &self,
        alloc: Global,
        agent: &Agent<MemorySink>,
        text: &[u8],
    ) -> Result<bool, AllocError> {
        let Some(time) = Time::new(self.time) else {
            return Ok(false);
        };
        if keeps_query_at(alloc, text, time)? {
            return Ok(false);
        }
        Ok(agent.judge_query(time, query_id_or_zero(self.id)).is_none())
    }
}

/// Returns the settings of an agent that is opened on a snapshot: the default settings, but with `keep_events` set to
/// `keeps`.
fn settings(alloc: Global, keeps: bool) -> Result<Config, AllocError>
    ensures { IfOk result (λ config. config ≡ settings keeps) }
{
    let config = Config::new(alloc, b"node")?;
    Ok(Config {
        keep_events: keeps,
        ..config
    })
}

/// Opens an agent of this project on `text`. The agent has the default settings, but with `keep_events` set to `keeps`.
fn agent_on(alloc: Global, keeps: bool, text: &[u8]) -> Result<Agent<MemorySink>, AllocError>
    ensures { IfOk result (λ a. (a.concrete ≡ view_of (opened_on keeps text.now))
        × IsSound (opened_on keeps text.now)) }
{
    let config = settings(alloc, keeps)?;
    let sink = MemorySink::with(alloc, text)?;
    match Agent::open(alloc, config, text, sink) {
        Ok(agent) => Ok(agent),
        Err(_) => Err(AllocError),
    }
}

/// Returns whether `entry` was handed to `node`, and would be handed out again by `agent`, which was opened on `text`.
fn is_new_for<E: Offered>(
    alloc: Global,
    agent: &Agent<MemorySink>,
    text: &[u8],
    entry: &E,
    node: &[u8],
) -> Result<bool, AllocError>
    ensures { (i : IdealAgent) → IsSound i → agent.now.concrete ≡ view_of i
        → IfOk result (λ new. new ≡ (is_line_of E.seen node.now entry.now
        && E.is_new text.now i entry.now)) }
{
    if !is_of(entry, node) {
        return Ok(false);
    }
    entry.is_new_to(alloc, agent, text)
}

/// Returns the index, counted from 0, of the first entry in `entries` that was handed to `node` and that `agent`, which
/// was opened on `text`, would hand out again.
fn first_new<E: Offered>(
    alloc: Global,
    agent: &Agent<MemorySink>,
    text: &[u8],
    entries: &[E],
    node: &[u8],
) -> Result<Option<usize>, AllocError>
    ensures { (i : IdealAgent) → IsSound i → agent.now.concrete ≡ view_of i
        → IfOk result (λ place. place ≡ position_from (λ e.
        is_line_of E.seen node.now e && E.is_new text.now i e) 0 entries.now) }
{
    let mut left = entries;
    'entries: loop {
        let Some((entry, rest)) = left.split_first() else {
            return Ok(None);
        };
        if is_new_for(alloc, agent, text, entry, node)? {
            return Ok(Some(entries.len() - left.len()));
        }
        left = rest;
    }
}

/// Returns the index, counted from 0, of the first entry in `entries` that was handed to `node` and may be handed to
/// the same node again after `reader` was started on the snapshot `text`. Returns `None` if there is no such entry.
/// Returns an `AllocError` only if there isn't enough memory for the agent or for the texts.
///
/// An agent of this project restores its state from the text ([`Agent::open`]), and ignores each entry that is too old,
/// below the minimum time, or already seen according to that state. The agent hands out every other entry again. If the
/// agent joins a cluster, the state of another agent can only raise the minimum time. The agent recognizes a query by
/// its time: if the text keeps a query with the same time, the agent takes the two to be the same query.
pub fn first_again<E: Offered>(
    alloc: Global,
    reader: Reader,
    text: &[u8],
    entries: &[E],
    node: &[u8],
) -> Result<Option<usize>, AllocError>
    ensures { IfOk result (λ place. place
        ≡ position_from (is_again E.kind E.seen E.is_new reader text.now node.now) 0 entries.now) }
{
    match reader {
        Reader::Serf { rejoins } => {
            let minimum = serf_minimum(E::serf_clock_in(text, rejoins));
            Ok(first_of_node_since(entries, node, minimum))
        }
        Reader::Agent { keeps } => {
            let agent = agent_on(alloc, keeps, text)?;
            first_new(alloc, &agent, text, entries, node)
        }
    }
}
