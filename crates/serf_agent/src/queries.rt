//! Queries: receiving them, and counting their acks and responses.

ghost use Rattle.std.specs.Prelude.{◌≡◌, ◌<◌, ◌≤◌, false, true, if◌then◌else◌, ◌&&◌, None, Some, [], filter, not, OnOk, OnErr, IfOk, IsOk};
ghost use Rattle.serf_lamport.specs.Clock.{max_clock};
ghost use Rattle.serf_wire.specs.Lists.{texts_left};
ghost use Rattle.serf_wire.specs.Message.{query_said, query_with, response_said};
ghost use Rattle.serf_wire.specs.Passes.{passes_of};
ghost use Rattle.serf_window.specs.Window.{count_in, time_in};
ghost use Rattle.serf_snapshot.specs.declared.kind.ClockKind.TheVariants as kinds;
ghost use Rattle.serf_snapshot.specs.AppendsLine.{Kept};
ghost use Rattle.serf_agent.specs.Config.{is_sound};
ghost use Rattle.serf_agent.specs.Ideal.{IdealAgent, with_snapshot};
ghost use Rattle.serf_agent.specs.Queries.{ack_packet, all_pass, close_due, counted_as, handed_query, has_flag, is_ack, is_due, is_tag_filter, query_admission, query_entered, receive_query, receive_response, written_query};
ghost use Rattle.serf_agent.specs.Sound.{IsSound};
ghost use Rattle.serf_agent.specs.TakesPacket.{TakesPacket};
ghost use Rattle.serf_agent.specs.Steps.{AppendsOwnLine};
ghost use Rattle.serf_agent.specs.Written.{appended_with};
ghost use Rattle.serf_agent.specs.View.{view_of};

use crate::agent::Agent;
use crate::answer::is_ack;
use crate::config::Config;
use crate::flags::{ACK, NO_BROADCAST, has_flag};
use crate::laws::sound_snapshots;
use crate::open_query::OpenQuery;
use crate::outcome::{Outcome, Reason, ReceiveError};
use crate::own_line::append_lines;
use crate::own_lines::written_query;
use crate::pending_query::{PendingQuery, ack_of};
use serf_lamport::Time;
use serf_snapshot::{AppendLineError, ClockKind, Sink};
use serf_wire::{Bytes, Query, QueryResponse, Texts, passes};
use std::alloc::{AllocError, Global};

/// The type byte of a tag filter (Serf's `query.go`: `filterTagType`).
const TAG_FILTER: u8 = 1;

/// Whether a filter is a tag filter. Allocates no memory.
pub fn is_tag_filter(filter: &[u8]) -> bool
    ensures { result ≡ is_tag_filter filter.now }
{
    match filter {
        [kind, ..] => *kind == TAG_FILTER,
        [] => false,
    }
}

/// Whether a filter lets the node `node` pass. `tags_pass` is the host's verdict on tag filters.
pub(crate) fn filter_passes(filter: &[u8], node: &[u8], tags_pass: bool) -> bool
    ensures { result ≡ (if tags_pass && is_tag_filter filter.now then true
        else passes_of filter.now node.now) }
{
    if tags_pass && is_tag_filter(filter) {
        true
    } else {
        passes(filter, node)
    }
}

/// Whether every filter of a received query lets `node` pass. `tags_pass` is the host's verdict on tag filters.
fn borrowed_filters_pass(filters: Texts, node: &[u8], tags_pass: bool) -> bool
    ensures { result ≡ all_pass tags_pass (texts_left filters.entry) node.now }
{
    for filter in filters {
        if !filter_passes(filter, node, tags_pass) {
            return false;
        }
    }
    true
}

/// A node's reaction to a new query: the query if the filters let the node hand it out, and the ack if it sends one.
#[derive(Drop)]
pub(crate) struct Passed {
    pub(crate) handed: Option<PendingQuery>,
    pub(crate) ack: Option<Bytes>,
}

/// Makes the query that a node hands out and the ack that it sends when a query arrives at the moment `now`. Both are
/// `None` unless the query's filters let the node pass (`passed`).
pub(crate) fn pass<F>(
    alloc: Global,
    query: &Query<F>,
    now: u64,
    config: &Config,
    passed: bool,
) -> Result<Passed, AllocError>
    requires { is_sound config.now ≡ true }
    ensures handed { IfOk result (λ p. p.handed
        ≡ (if passed then Some (handed_query config.now now (query_with [] query.now)) else None)) }
    ensures ack { IfOk result (λ p. p.ack ≡ (if passed then (if has_flag 1 query.now.flags
        then Some (ack_packet config.now.name (query_with [] query.now)) else None) else None)) }
{
    if !passed {
        return Ok(Passed {
            handed: None,
            ack: None,
        });
    }
    let handed = PendingQuery::of(alloc, query, now, config)?;
    if !has_flag(ACK, query.flags) {
        return Ok(Passed {
            handed: Some(handed),
            ack: None,
        });
    }
    let ack = ack_of(alloc, query, config.name.as_slice())?;
    Ok(Passed {
        handed: Some(handed),
        ack: Some(ack),
    })
}

/// The result of [`Agent::receive`] for an answer that was counted.
fn outcome_of(answer: &QueryResponse) -> Outcome
    ensures { result ≡ counted_as (is_ack (response_said answer.now)) }
{
    if is_ack(answer) {
        Outcome::Ack
    } else {
        Outcome::Response
    }
}

impl<S: Sink> Agent<S> {
    /// Receives a query at the moment `now`: ignores it, or writes its line and, if its filters let this node pass,
    /// hands it out. `tags_pass` is the host's verdict on its tag filters.
    pub(crate) fn receive_query(
        &mut self,
        alloc: Global,
        now: u64,
        query: &Query,
        tags_pass: bool,
    ) -> Result<Outcome, ReceiveError>
        requires { self.old.concrete.snapshot.stopped ≡ false }
        ensures { TakesPacket (λ i. receive_query tags_pass i now (query_said query.now)) None
            self.old self.new result }
    {
        // (for the proof: the last lines that the snapshot records are those that its sink holds)
        sound_snapshots();
        match self.query_admission(query.time, query.id) {
            Some(reason) => {
                self.queries.observe(query.time);
                Ok(Outcome::Ignored(reason))
            }
            None => {
                let passed = borrowed_filters_pass(
                    query.filters,
                    self.config.name.as_slice(),
                    tags_pass,
                );
                let Passed { handed, ack } = self.accept_query(alloc, now, query, passed)?;
                Ok(Outcome::Query {
                    handed,
                    ack,
                    rebroadcast: !has_flag(NO_BROADCAST, query.flags),
                })
            }
        }
    }

    /// The reason to ignore a query with this time and ID, or `None` if the query is new. Allocates no memory.
    pub(crate) fn query_admission(&self, time: Time, id: u32) -> Option<Reason>
        ensures reason { (i : IdealAgent) → IsSound i → self.now.concrete ≡ view_of i
            → result ≡ query_admission i time id }
        ensures not_later { result ≡ None → time_in self.now.concrete.queries.slots time ≤ time }
        ensures not_full { result ≡ None
            → count_in self.now.concrete.queries.slots time < self.now.concrete.config.per_time }
        ensures small { time < max_clock }
    {
        self.queries.reason(time, &id)
    }

    /// Writes a query's line to the sink. After the line is durable, inserts the query into the buffer, and returns the
    /// query to hand out and the ack to send, if any.
    fn accept_query(
        &mut self,
        alloc: Global,
        now: u64,
        query: &Query,
        passed: bool,
    ) -> Result<Passed, AppendLineError>
        requires runs { self.old.concrete.snapshot.stopped ≡ false }
        requires not_later { time_in self.old.concrete.queries.slots query.now.time
            ≤ query.now.time }
        requires not_full { count_in self.old.concrete.queries.slots query.now.time
            < self.old.concrete.config.per_time }

        ensures handed { IfOk result (λ p. p.handed ≡ (if passed then Some
            (handed_query self.old.concrete.config now (query_said query.now)) else None)) }
        ensures ack { IfOk result (λ p. p.ack ≡ (if passed then (if has_flag 1 query.now.flags
            then Some (ack_packet self.old.concrete.config.name (query_said query.now)) else None)
            else None)) }
        ensures entered { OnOk result ((i : IdealAgent) → self.old.concrete ≡ view_of i
            → self.new.concrete ≡ view_of (with_snapshot
            (appended_with kinds.Query query.now.time
            (written_query i.config query.now.time query.now.id) i.snapshot Kept)
            (query_entered query.now.time query.now.id i))) }
        ensures line { AppendsOwnLine kinds.Query query.now.time
            (written_query self.old.concrete.config
            query.now.time query.now.id) self.old self.new result }
    {
        let passes = pass(alloc, query, now, &self.config, passed)?;
        self.insert_query(alloc, query.time, query.id)?;
        Ok(passes)
    }

    /// Writes a query's line to the sink, and inserts the query's ID into the buffer after the line is durable.
    fn insert_query(&mut self, alloc: Global, time: Time, id: u32) -> Result<(), AppendLineError>
        requires runs { self.old.concrete.snapshot.stopped ≡ false }
        requires not_later { time_in self.old.concrete.queries.slots time ≤ time }
        requires not_full { count_in self.old.concrete.queries.slots time
            < self.old.concrete.config.per_time }

        ensures entered { OnOk result ((i : IdealAgent) → self.old.concrete ≡ view_of i
            → self.new.concrete ≡ view_of (with_snapshot (appended_with kinds.Query time
            (written_query i.config time id) i.snapshot Kept) (query_entered time id i))) }
        ensures line { AppendsOwnLine kinds.Query time
            (written_query self.old.concrete.config time id)
            self.old self.new result }
    {
        let line = written_query(alloc, &self.config, time, id)?;
        let entry = self.queries.prepare(alloc, time, &id)?;
        append_lines(&mut self.snapshot, alloc, ClockKind::Query, time, &line)?;
        self.queries.insert_new(time, entry);
        Ok(())
    }

    /// Counts an ack or a response to a query that this agent fired, or ignores it.
    pub(crate) fn receive_response(
        &mut self,
        alloc: Global,
        now: u64,
        answer: &QueryResponse,
    ) -> Result<Outcome, ReceiveError>
        ensures { TakesPacket (λ i. receive_response i now (response_said answer.now))
            (Some (response_said answer.now)) self.old self.new result }
    {
        let Some(query) = self.fired_queries.get(answer.time) else {
            return Ok(Outcome::Ignored(Reason::NotOpen));
        };
        match query.ignore_reason(now, answer) {
            Some(reason) => return Ok(Outcome::Ignored(reason)),
            None => {}
        }
        if query.is_full(self.config.responders, answer) {
            return Err(ReceiveError::RespondersFull);
        }
        self.fired_queries.count(alloc, answer)?;
        Ok(outcome_of(answer))
    }

    /// Removes the open queries whose deadline is before the moment `now`, in nanoseconds, and returns how many were
    /// removed. The others keep their order. To get the closed queries, call [`Agent::take_due`] instead. This works on
    /// a stopped agent too, and allocates no memory.
    pub fn close_due(&mut self, now: u64) -> usize
        ensures step { (i : IdealAgent) → IsSound i → self.old.concrete ≡ view_of i
            → (result ≡ (close_due i now).answer)
            × (self.new.concrete ≡ view_of (close_due i now).agent)
            × IsSound (close_due i now).agent }
        ensures device { self.new.device ≡ self.old.device }
    {
        self.fired_queries.close_due(now)
    }

    /// Removes the open queries whose deadline is before the moment `now`, in nanoseconds, and returns them with their
    /// times, in the order in which they were fired. They still have the acks and the responses that were counted.
    /// Afterwards, the agent is the same as after [`Agent::close_due`]. This works on a stopped agent too.
    ///
    /// The call needs memory only for the returned list, and only if a query is due. An allocation failure changes
    /// nothing.
    pub fn take_due(&mut self, alloc: Global, now: u64) -> Result<Vec<(u64, OpenQuery)>, AllocError>
        ensures closed { IfOk result (λ closed. closed.items
            ≡ filter (is_due now) self.old.concrete.fired_queries) }
        ensures left { OnOk result (self.new.concrete.fired_queries
            ≡ filter (λ q. not (is_due now q)) self.old.concrete.fired_queries) }
        ensures step { (i : IdealAgent) → IsSound i → self.old.concrete ≡ view_of i
            → OnOk result ((self.new.concrete ≡ view_of (close_due i now).agent)
            × IsSound (close_due i now).agent) }
        ensures device { self.new.device ≡ self.old.device }
        ensures memory { OnErr result (self.new ≡ self.old) }
        ensures none_due { filter (is_due now) self.old.concrete.fired_queries ≡ [] → IsOk result }
    {
        self.fired_queries.take_due(alloc, now)
    }
}
