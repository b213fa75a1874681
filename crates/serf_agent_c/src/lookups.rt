//! Lets C look up the queries that were handed out, and the agent's own queries that still accept answers.

ghost use Rattle.std.specs.Prelude.{◌≢◌, ◌≡◌, ◌-◌, ◌^◌, min, true, false, Some, length, option_copied};
ghost use Rattle.serf_agent.specs.BorrowedQueries.{queries_left};
ghost use Rattle.serf_agent_c.specs.Numbered.{waiting_at};
ghost use Rattle.serf_agent_c.specs.Reads.{ReadsAs, ReadsQuery, TellsDeadline, pending_query_head};
ghost use Rattle.serf_agent_c.specs.Sessions.{is_ready, settled};
ghost use Rattle.serf_agent_c.specs.Texts.{copied};

use crate::code::Code;
use crate::copies::copy_into;
use crate::heads::PendingQueryHead;
use crate::session::Session;
use serf_agent::{BorrowedQueries, PendingQuery};

/// Makes the struct that C reads for `query`, which was handed out. It doesn't contain the query's texts.
fn head_of_query(query: &PendingQuery) -> PendingQueryHead
    ensures { result ≡ pending_query_head query.now }
{
    PendingQueryHead {
        time: query.time().get(),
        deadline: query.deadline(),
        name_len: query.name().len(),
        payload_len: query.payload().len(),
        source_len: query.source().len(),
        addr_len: query.addr().len(),
        id: query.id(),
        port: query.port(),
        relay_factor: query.relay_factor(),
    }
}

/// The number of queries in `queries`, but at most 2^64 - 1.
fn count(queries: BorrowedQueries<'_>) -> usize
    ensures { result ≡ min (length (queries_left queries.entry)) (2 ^ 64 - 1) }
{
    let mut n: usize = 0;
    for _query in queries {
        n = n.saturating_add(1);
    }
    n
}

impl Session {
    /// Query number `number`, if it still waits. The query that the last call handed out has the next number.
    fn handed_at(&self, number: u64) -> Option<&PendingQuery>
        ensures { option_copied result ≡ waiting_at number (settled self.now).waiting }
    {
        if number == self.waiting.next_number() {
            self.call_result.unsettled()
        } else {
            self.waiting.get(number)
        }
    }

    /// Fills `head` and the texts with query number `number`. The code is `NotPending` if no waiting query has this
    /// number.
    pub(crate) fn read_pending_query(
        &self,
        number: u64,
        head: &mut PendingQueryHead,
        name: &mut [u8],
        payload: &mut [u8],
        source: &mut [u8],
        addr: &mut [u8],
    ) -> Code
        ensures reads { ReadsQuery (is_ready self.now)
            (waiting_at number (settled self.now).waiting)
            (λ q. (head.new ≡ pending_query_head q) × (name.new ≡ copied q.name name.old)
            × (payload.new ≡ copied q.payload payload.old)
            × (source.new ≡ copied q.source source.old)
            × (addr.new ≡ copied q.addr addr.old)) result }
        ensures same { result ≢ Code.Done → (head.new ≡ head.old) × (name.new ≡ name.old)
            × (payload.new ≡ payload.old) × (source.new ≡ source.old) × (addr.new ≡ addr.old) }
    {
        if !self.is_ready() {
            return Code::Pending;
        }
        let Some(query) = self.handed_at(number) else {
            return Code::NotPending;
        };
        *head = head_of_query(query);
        copy_into(name, query.name());
        copy_into(payload, query.payload());
        copy_into(source, query.source());
        copy_into(addr, query.addr());
        Code::Done
    }

    /// Sets `deadline` to the earliest deadline of the agent's own open queries. The code is `Nothing` if none is open.
    pub(crate) fn read_next_deadline(&self, deadline: &mut u64) -> Code
        ensures waits { is_ready self.now ≡ false → result ≡ Code.Pending }
        ensures tells { is_ready self.now ≡ true
            → TellsDeadline self.now.agent.concrete deadline.new result }
        ensures same { result ≢ Code.Done → (deadline.new ≡ deadline.old) }
    {
        if !self.is_ready() {
            return Code::Pending;
        }
        match self.agent.next_deadline() {
            Some(first) => {
                *deadline = first;
                Code::Done
            }
            None => Code::Nothing,
        }
    }

    /// Sets `total` to the number of the agent's own open queries. An open query still accepts answers.
    pub(crate) fn read_open_queries(&self, total: &mut usize) -> Code
        ensures reads { ReadsAs (is_ready self.now)
            (Some (min (length self.now.agent.concrete.fired_queries) (2 ^ 64 - 1)))
            (λ n. total.new ≡ n) result }
        ensures same { result ≢ Code.Done → (total.new ≡ total.old) }
    {
        if !self.is_ready() {
            return Code::Pending;
        }
        *total = count(self.agent.open_queries());
        Code::Done
    }
}
