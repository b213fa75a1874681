//! Borrows an agent's open queries, and finds the moment after which the first of them closes.

ghost use Rattle.std.specs.Prelude.{◌≡◌, ◌<◌, ◌↔◌, ℕ, Some, IsSomeAnd, filter, length, map};
ghost use Rattle.serf_agent.specs.BorrowedQueries.{lowest, smaller, queries_left};
ghost use Rattle.serf_agent.specs.Queries.{is_due};

use crate::agent::Agent;
use crate::open_query::OpenQuery;
use indexmap::map::Iter;
use serf_snapshot::Sink;

/// An iterator over open queries and their times, in the order in which the queries were fired.
#[derive(Drop)]
pub struct BorrowedQueries<'a> {
    queries: Iter<'a, u64, OpenQuery>,
}

impl<'a> Iterator for BorrowedQueries<'a> {
    ghost use Rattle.std.specs.Iterator.{YieldsFirstBy, item_count};
    ghost use Rattle.serf_agent.specs.BorrowedQueries.{borrowed_query, queries_left};

    type Item = (u64, &'a OpenQuery);

    ghost next_gives = { YieldsFirstBy borrowed_query queries_left };

    ghost remaining = { item_count queries_left };

    fn next(&mut self) -> Option<(u64, &'a OpenQuery)> {
        let (time, query) = self.queries.next()?;
        Some((*time, query))
    }
}

/// The earlier of `first` and `deadline`, or `deadline` if there is no `first`.
fn earlier(first: Option<u64>, deadline: u64) -> u64
    ensures { Some result ≡ smaller deadline first }
{
    match first {
        Some(first) => first.min(deadline),
        None => deadline,
    }
}

/// The earliest deadline of `queries`, or `None` if there are no queries.
fn min_deadline(queries: &[OpenQuery]) -> Option<u64>
    ensures { result ≡ lowest (map (λ q. q.deadline) queries.now) }
{
    let mut first = None;
    for query in queries {
        first = Some(earlier(first, query.deadline));
    }
    first
}

impl<S: Sink> Agent<S> {
    /// Iterates over the queries that this agent fired and that still accept answers, with their times, in the order in
    /// which they were fired. Allocates no memory.
    pub fn open_queries(&self) -> BorrowedQueries<'_>
        ensures { queries_left result ≡ self.now.concrete.fired_queries }
    {
        BorrowedQueries {
            queries: self.fired_queries.iter(),
        }
    }

    /// The earliest deadline of the open queries, in nanoseconds, or `None` if no query is open. At a moment later than
    /// this, `close_due` closes at least one query; at any other moment it closes none. Allocates no memory.
    pub fn next_deadline(&self) -> Option<u64>
        ensures { (now : ℕ) → IsSomeAnd result (λ deadline. deadline < now)
            ↔ (0 < length (filter (is_due now) self.now.concrete.fired_queries)) }
    {
        min_deadline(self.fired_queries.values())
    }
}
