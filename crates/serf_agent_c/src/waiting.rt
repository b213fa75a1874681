//! The queries that were handed out and wait for an answer, each with its number.

ghost use Rattle.std.specs.Prelude.{◌≡◌, ◌≢◌, ◌==◌, ◌<◌, ◌≤◌, ◌-◌, ◌^◌, All, AllPairs};
ghost use Rattle.std.specs.List.{insert, position};
ghost use Rattle.std.specs.Vec.{vec_len, vec_capacity};

use serf_agent::{PendingQuery, Reply, RespondError};
use std::alloc::Global;

/// The queries that were handed out and wait for an answer, each with its number, in order. Numbers begin at 1. A query
/// that was answered or forgotten no longer waits, and its number isn't used again.
#[derive(Drop)]
pub struct Waiting {
    /// The number of queries that were handed out so far, which is also the number of the latest one.
    pub(crate) handed: u64,
    /// The queries that wait, with their numbers.
    pub(crate) queries: Vec<(u64, PendingQuery)>,
    ghost room: { handed < 2 ^ 64 - 1 },
    ghost below: { All (λ w. w.0 ≤ handed) queries.items },
    ghost once: { AllPairs (λ v w. v.0 < w.0) queries.items },
}

/// The index in `queries` of the query with this `number`, if it waits. The numbers rise, so a binary search finds the
/// query.
fn place_of(queries: &[(u64, PendingQuery)], number: u64) -> Option<usize>
    requires { AllPairs (λ v w. v.0 < w.0) queries.now }
    ensures { result ≡ position (λ w. w.0 == number) queries.now }
{
    queries.binary_search_by_key(&number, |&(own, _)| own).ok()
}

/// Puts `query`, with its number, back at `index`, from which it was taken.
fn put_back(queries: &mut Vec<(u64, PendingQuery)>, index: usize, query: (u64, PendingQuery))
    requires { (index ≤ vec_len queries.old) × (vec_len queries.old < vec_capacity queries.old) }
    ensures { queries.new.items ≡ insert queries.old.items index query }
{
    match queries.insert(index, query) {
        Ok(()) => {}
        // (there is room: the query was there before)
        Err(_) => unreachable!(),
    }
}

impl Waiting {
    ghost use Rattle.std.specs.Prelude.{[], ◌+◌, nat_le, None, Some, Err, IfErr, OnErr, OnOk, true, false, option_copied};
    ghost use Rattle.serf_agent.specs.DeliveredQuery.{DeliveredQuery};
    ghost use Rattle.serf_agent_c.specs.Asking.{left_of, reply_of};
    ghost use Rattle.serf_agent_c.specs.Numbered.{IsNumbered, WaitsInTime, in_time, numbered, waiting_at, with_handed, without};

    /// Makes the list for an agent that hasn't handed out a query yet. It is empty. Allocates no memory.
    pub(crate) fn new(alloc: Global) -> Waiting
        ensures { numbered result ≡ record { handed = 0; waiting = [] } }
    {
        Waiting {
            handed: 0,
            queries: Vec::new(alloc),
        }
    }

    /// The number of the query that is handed out next. Allocates no memory.
    pub(crate) fn next_number(&self) -> u64
        ensures { result ≡ self.now.handed + 1 }
    {
        self.handed + 1
    }

    /// Adds `query` after the others, with the next number. Returns the query if there is no memory, or if no number is
    /// left.
    pub(crate) fn push(&mut self, query: PendingQuery) -> Result<(), PendingQuery>
        ensures ok { OnOk result (numbered self.new
            ≡ with_handed (Some query) (numbered self.old)) }
        ensures err { OnErr result (numbered self.new ≡ numbered self.old) }
        ensures back { IfErr result (λ q. q ≡ query) }
    {
        let number = self.next_number();
        if number == u64::MAX {
            return Err(query);
        }
        match self.queries.push((number, query)) {
            Ok(()) => {
                self.handed = number;
                Ok(())
            }
            Err(refused) => Err(refused.value.1),
        }
    }

    /// The query with this `number`, if it waits. Allocates no memory.
    pub(crate) fn get(&self, number: u64) -> Option<&PendingQuery>
        ensures { option_copied result ≡ waiting_at number self.now.queries.items }
    {
        let Some(index) = place_of(self.queries.as_slice(), number) else {
            return None;
        };
        match self.queries.get(index) {
            Some(query) => Some(&query.1),
            None => None,
        }
    }

    /// If the query with this `number` waits, answers it at the moment `now`, in nanoseconds, and removes it. If the
    /// answer is refused, the query keeps waiting.
    pub(crate) fn respond(
        &mut self,
        alloc: Global,
        number: u64,
        now: u64,
        payload: &[u8],
    ) -> Option<Result<Reply, RespondError>>
        ensures none { waiting_at number self.old.queries.items ≡ None → result ≡ None }
        ensures unknown { result ≡ None → numbered self.new ≡ numbered self.old }
        ensures memory { result ≡ Some (Err RespondError.OutOfMemory)
            → numbered self.new ≡ numbered self.old }
        ensures some { (q : DeliveredQuery) → waiting_at number self.old.queries.items ≡ Some q
            → result ≢ Some (Err RespondError.OutOfMemory)
            → (result ≡ Some (reply_of q now payload.now))
            × (numbered self.new
            ≡ left_of number (reply_of q now payload.now) (numbered self.old)) }
    {
        let Some(index) = place_of(self.queries.as_slice(), number) else {
            return None;
        };
        let (number, query) = self.queries.remove(index);
        match query.respond(alloc, now, payload) {
            Ok(reply) => Some(Ok(reply)),
            Err((query, error)) => {
                put_back(&mut self.queries, index, (number, query));
                Some(Err(error))
            }
        }
    }

    /// If the query with this `number` waits, removes it. Returns whether the query waited. Allocates no memory.
    pub(crate) fn forget(&mut self, number: u64) -> bool
        ensures known { (q : DeliveredQuery) → waiting_at number self.old.queries.items ≡ Some q
            → result ≡ true }
        ensures unknown { waiting_at number self.old.queries.items ≡ None → result ≡ false }
        ensures left { numbered self.new ≡ without number (numbered self.old) }
        ensures same { result ≡ false → numbered self.new ≡ numbered self.old }
    {
        match place_of(self.queries.as_slice(), number) {
            Some(index) => {
                drop(self.queries.remove(index));
                true
            }
            None => false,
        }
    }

    /// Removes the queries whose deadline is before the moment `now`, in nanoseconds. Allocates no memory.
    pub(crate) fn forget_late(&mut self, now: u64)
        ensures left { numbered self.new ≡ in_time now (numbered self.old) }
        ensures in_time { WaitsInTime now (numbered self.new) }
    {
        self.queries.retain(
            |query: &(u64, PendingQuery)| -> bool
                ensures { result ≡ nat_le now query.now.1.deadline }
            { now <= query.1.deadline() },
        );
    }
}
