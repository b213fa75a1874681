//! The queries that an agent fired and that still accept answers, by time.

ghost use Rattle.std.specs.Prelude.{◌≡◌, ◌<◌, ℕ, List, [], ◌∷◌, ◌++◌, false, OnOk, OnErr, IfOk, IfNone, IfSome, IsOk, All, filter, nat_lt, not, length, map, nat_eq, option_copied, slice_get};
ghost use Rattle.serf_wire.specs.Message.{response_said};
ghost use Rattle.serf_agent.specs.Inside.{IsTaken};
ghost use Rattle.serf_agent.specs.Queries.{fired_query_at, counted, is_due, with_fired_query_at};

use crate::open_query::OpenQuery;
use indexmap::IndexMap;
use indexmap::map::Iter;
use serf_wire::QueryResponse;
use std::alloc::{AllocError, Global};
use std::marker::Model;

/// Open queries by their times, in the order in which they were fired.
///
/// Contracts see it as the list of the queries with their times.
#[derive(Drop)]
pub(crate) struct OpenQueries {
    queries: IndexMap<u64, OpenQuery>,
}

impl Model for OpenQueries {
    ghost use Rattle.std.specs.Prelude.{ℕ, List};
    ghost use Rattle.serf_agent.specs.declared.open_query.OpenQuery.{OpenQuery};

    ghost Value = { List (ℕ × OpenQuery) };

    ghost view = { λ a. a.queries.entries };
}

/// The number of `queries` whose deadline is before the moment `now`. Allocates no memory.
fn count_due(queries: &[OpenQuery], now: u64) -> usize
    ensures { result ≡ length (filter (λ q. nat_lt q.deadline now) queries.now) }
{
    queries.iter().filter(|query| query.deadline < now).count()
}

impl OpenQueries {
    /// Makes an empty list of open queries. Allocates no memory.
    pub(crate) fn new(alloc: Global) -> OpenQueries
        ensures { result ≡ [] }
    {
        OpenQueries {
            queries: IndexMap::new(alloc),
        }
    }

    /// The open query that was fired at `time`, if there is one. Allocates no memory.
    pub(crate) fn get(&self, time: u64) -> Option<&OpenQuery>
        ensures { option_copied result ≡ fired_query_at time self.now }
    {
        self.queries.get(&time)
    }

    /// All open queries with their times, in the order in which they were fired. Allocates no memory.
    pub(crate) fn iter(&self) -> Iter<'_, u64, OpenQuery>
        ensures { result ≡ self.now }
    {
        self.queries.iter()
    }

    /// All open queries without their times, in the order in which they were fired. Allocates no memory.
    pub(crate) fn values(&self) -> &[OpenQuery]
        ensures { result.now ≡ map (λ q. q.1) self.now }
    {
        self.queries.values().as_slice()
    }

    /// Adds an open query. Its `time` must be later than the times of all other open queries.
    pub(crate) fn push(&mut self, time: u64, query: OpenQuery) -> Result<(), AllocError>
        requires { All (λ q. q.0 < time) self.old }
        ensures ok { OnOk result (self.new ≡ self.old ++ (time, query) ∷ []) }
        ensures err { OnErr result (self.new ≡ self.old) }
    {
        match self.queries.insert(time, query) {
            Ok(_) => Ok(()),
            Err(_) => Err(AllocError),
        }
    }

    /// Removes the query that was added last. Allocates no memory.
    pub(crate) fn pop(&mut self)
        ensures { (front : List (ℕ × OpenQuery)) (last : ℕ × OpenQuery)
            → self.old ≡ front ++ last ∷ [] → self.new ≡ front }
    {
        self.queries.pop();
    }

    /// Counts `answer` for the open query that was fired at the answer's time. If memory runs out, the list stays
    /// unchanged.
    pub(crate) fn count(&mut self, alloc: Global, answer: &QueryResponse) -> Result<(), AllocError>
        ensures ok { OnOk result (IfSome (fired_query_at answer.now.time self.old) (λ q. self.new
            ≡ with_fired_query_at answer.now.time
            (counted (response_said answer.now) q) self.old)) }
        ensures err { OnErr result (self.new ≡ self.old) }
    {
        match self.queries.get_mut(&answer.time) {
            Some(query) => query.count(alloc, answer),
            None => Ok(()),
        }
    }

    /// Removes the queries whose deadline is before the moment `now`, and returns how many were removed. Allocates no
    /// memory.
    pub(crate) fn close_due(&mut self, now: u64) -> usize
        ensures left { self.new ≡ filter (λ q. not (is_due now q)) self.old }
        ensures count { result ≡ length (filter (is_due now) self.old) }
    {
        let before = self.queries.len();
        self.queries.retain(
            |_time: &u64, query: &mut OpenQuery| -> bool
                ensures { (result ≡ not (nat_lt query.old.deadline now)) × (query.new ≡ query.old) }
            { query.deadline >= now },
        );
        before - self.queries.len()
    }

    /// Moves the query at `index` out of the list if its deadline is before the moment `now`. A query with the same
    /// deadline and no answers takes its place. Allocates no memory.
    fn take_if_due(&mut self, alloc: Global, now: u64, index: usize) -> Option<(u64, OpenQuery)>
        ensures taken { IfSome result (λ q. IsTaken now index q self.old self.new) }
        ensures stays { IfNone result (self.new ≡ self.old) }
        ensures not_due { IfNone result (IfSome (slice_get self.old index) (λ q.
            is_due now q ≡ false)) }
    {
        let (time, query) = self.queries.get_index(index)?;
        if query.deadline >= now {
            return None;
        }
        let time = *time;
        let query = self.queries.get_index_mut(index)?;
        Some((time, query.take(alloc)))
    }

    /// Removes the queries whose deadline is before the moment `now`, and returns them unchanged and in order. The
    /// other queries keep their order. Only the returned list needs memory, and only if a query is due. If memory runs
    /// out, nothing changes.
    pub(crate) fn take_due(
        &mut self,
        alloc: Global,
        now: u64,
    ) -> Result<Vec<(u64, OpenQuery)>, AllocError>
        ensures closed { IfOk result (λ closed. closed.items ≡ filter (is_due now) self.old) }
        ensures left { OnOk result (self.new ≡ filter (λ q. not (is_due now q)) self.old) }
        ensures err { OnErr result (self.new ≡ self.old) }
        ensures none_due { filter (is_due now) self.old ≡ [] → IsOk result }
    {
        let mut closed = Vec::with_capacity(alloc, count_due(self.values(), now))?;
        for index in 0..self.queries.len() {
            if let Some(query) = self.take_if_due(alloc, now, index) {
                closed.push_reserved(query);
            }
        }
        self.close_due(now);
        Ok(closed)
    }
}
