//! Returns to C the queries that the last call closed, and whether the host's file is worth a compaction.

ghost use Rattle.std.specs.Prelude.{◌≢◌, ◌≡◌, false, length, option_copied, slice_get, true};
ghost use Rattle.serf_agent_c.specs.Closings.{TellsCompaction, ack_of, closed_head, response_head, response_of};
ghost use Rattle.serf_agent_c.specs.ResultParts.{closed_in};
ghost use Rattle.serf_agent_c.specs.Reads.{ReadsAs};
ghost use Rattle.serf_agent_c.specs.Sessions.{is_ready};
ghost use Rattle.serf_agent_c.specs.Texts.{copied};

use crate::call_result::CallResult;
use crate::code::Code;
use crate::copies::copy_into;
use crate::heads::{ClosedHead, ResponseHead};
use crate::session::Session;
use serf_agent::{OpenQuery, Response};
use serf_wire::Bytes;

/// Makes the struct that C reads for `closed`, a closed query and its time. It doesn't contain the query's answers.
fn head_of_closed(closed: &(u64, OpenQuery)) -> ClosedHead
    ensures { result ≡ closed_head closed.now }
{
    let (time, query) = closed;
    ClosedHead {
        time: *time,
        deadline: query.deadline,
        acks: query.acks.as_slice().len(),
        responses: query.responses.as_slice().len(),
        id: query.id,
    }
}

/// Makes the struct that C reads for `response`. It doesn't contain the response's texts.
fn head_of_response(response: &Response) -> ResponseHead
    ensures { result ≡ response_head response.now }
{
    ResponseHead {
        from_len: response.from.as_slice().len(),
        payload_len: response.payload.as_slice().len(),
    }
}

impl CallResult {
    /// The name of the node that sent ack number `number` of the closed query at `index`. Both numbers count from 0,
    /// and the acks are in the order of their arrival.
    fn closed_ack(&self, index: usize, number: usize) -> Option<&Bytes>
        ensures { option_copied result ≡ ack_of number (slice_get (closed_in self.now) index) }
    {
        let (_, query) = self.closed(index)?;
        query.acks.as_slice().get(number)
    }

    /// Response number `number` to the closed query at `index`. Both numbers count from 0, and the responses are in the
    /// order of their arrival.
    fn closed_response(&self, index: usize, number: usize) -> Option<&Response>
        ensures { option_copied result ≡ response_of number (slice_get (closed_in self.now) index) }
    {
        let (_, query) = self.closed(index)?;
        query.responses.as_slice().get(number)
    }
}

impl Session {
    /// Fills `head` with the query at `index`, counted from 0, that the last call closed. The code is `Nothing` if
    /// there is none.
    pub(crate) fn read_closed(&self, index: usize, head: &mut ClosedHead) -> Code
        ensures reads { ReadsAs (is_ready self.now)
            (slice_get (closed_in self.now.call_result) index)
            (λ q. head.new ≡ closed_head q) result }
        ensures same { result ≢ Code.Done → (head.new ≡ head.old) }
    {
        if !self.is_ready() {
            return Code::Pending;
        }
        let Some(query) = self.call_result.closed(index) else {
            return Code::Nothing;
        };
        *head = head_of_closed(query);
        Code::Done
    }

    /// Fills `len` and `to` with the name of the node that sent ack number `number` of the closed query at `index`.
    pub(crate) fn read_closed_ack(
        &self,
        index: usize,
        number: usize,
        len: &mut usize,
        to: &mut [u8],
    ) -> Code
        ensures reads { ReadsAs (is_ready self.now)
            (ack_of number (slice_get (closed_in self.now.call_result) index))
            (λ name. (len.new ≡ length name) × (to.new ≡ copied name to.old)) result }
        ensures same { result ≢ Code.Done → (len.new ≡ len.old) × (to.new ≡ to.old) }
    {
        if !self.is_ready() {
            return Code::Pending;
        }
        let Some(name) = self.call_result.closed_ack(index, number) else {
            return Code::Nothing;
        };
        *len = name.as_slice().len();
        copy_into(to, name.as_slice());
        Code::Done
    }

    /// Fills `head` and the texts with response number `number` to the closed query at `index`.
    pub(crate) fn read_closed_response(
        &self,
        index: usize,
        number: usize,
        head: &mut ResponseHead,
        from: &mut [u8],
        payload: &mut [u8],
    ) -> Code
        ensures reads { ReadsAs (is_ready self.now)
            (response_of number (slice_get (closed_in self.now.call_result) index))
            (λ r. (head.new ≡ response_head r) × (from.new ≡ copied r.from from.old)
            × (payload.new ≡ copied r.payload payload.old)) result }
        ensures same { result ≢ Code.Done → (head.new ≡ head.old) × (from.new ≡ from.old)
            × (payload.new ≡ payload.old) }
    {
        if !self.is_ready() {
            return Code::Pending;
        }
        let Some(response) = self.call_result.closed_response(index, number) else {
            return Code::Nothing;
        };
        *head = head_of_response(response);
        copy_into(from, response.from.as_slice());
        copy_into(payload, response.payload.as_slice());
        Code::Done
    }

    /// Sets `should` to true if the host should compact. This is so if the host's file has more than `limit` bytes, and
    /// a compaction would remove at least half of them.
    pub(crate) fn read_should_compact(&self, limit: u64, should: &mut bool) -> Code
        ensures waits { is_ready self.now ≡ false → result ≡ Code.Pending }
        ensures tells { is_ready self.now ≡ true
            → (result ≡ Code.Done)
            × TellsCompaction limit self.now.agent.concrete should.new }
        ensures same { result ≢ Code.Done → (should.new ≡ should.old) }
    {
        if !self.is_ready() {
            return Code::Pending;
        }
        *should = self.agent.should_compact(limit);
        Code::Done
    }
}
