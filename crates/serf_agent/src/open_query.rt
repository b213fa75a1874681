//! A query that its agent fired and that still accepts answers.

ghost use Rattle.std.specs.Prelude.{◌≡◌, OnOk, OnErr};
ghost use Rattle.std.specs.List.{list_any};
ghost use Rattle.std.specs.Str.{bytes_eq};
ghost use Rattle.serf_wire.specs.Message.{response_said};
ghost use Rattle.serf_agent.specs.Queries.{ack_ignore_reason, answer_ignore_reason, response_ignore_reason, counted, is_full};

use crate::answer::is_ack;
use crate::lists::{BytesList, Response, Responses};
use crate::outcome::Reason;
use serf_wire::{Bytes, QueryResponse};
use std::alloc::{AllocError, Global};
use std::mem;

/// A query that this agent fired, while it accepts answers (Serf's `query.go`, `QueryResponse`).
#[derive(Drop)]
pub struct OpenQuery {
    /// The query's ID. An answer has to carry the same ID.
    pub id: u32,
    /// The last moment, in nanoseconds, at which an answer is counted.
    pub deadline: u64,
    /// Whether the query requested acks.
    pub wants_ack: bool,
    /// The names of the nodes that acked the query, in order of arrival, each of them once.
    pub acks: BytesList,
    /// The responses in order of arrival, at most one of each node.
    pub responses: Responses,
}

/// Whether `name` is among `names`.
fn has_name(names: &[Bytes], name: &[u8]) -> bool
    ensures { result ≡ list_any (λ a. bytes_eq a name.now) names.now }
{
    names.iter().any(|n| n.as_slice() == name)
}

/// Whether one of `responses` is from the node `name`.
fn has_responded(responses: &[Response], name: &[u8]) -> bool
    ensures { result ≡ list_any (λ a. bytes_eq a.from name.now) responses.now }
{
    responses.iter().any(|r| r.from.as_slice() == name)
}

impl OpenQuery {
    /// The reason to ignore an answer that arrives at the moment `now`, or `None` if there is no reason.
    pub(crate) fn ignore_reason(&self, now: u64, answer: &QueryResponse) -> Option<Reason>
        ensures { result ≡ answer_ignore_reason now (response_said answer.now) self.now }
    {
        if self.id != answer.id {
            return Some(Reason::OtherId);
        }
        if self.deadline < now {
            return Some(Reason::Closed);
        }
        if is_ack(answer) {
            self.ack_ignore_reason(answer.from)
        } else {
            self.response_ignore_reason(answer.from)
        }
    }

    /// The reason to ignore an ack from the node `from`, or `None` if there is no reason.
    fn ack_ignore_reason(&self, from: &[u8]) -> Option<Reason>
        ensures { result ≡ ack_ignore_reason from.now self.now }
    {
        if !self.wants_ack {
            return Some(Reason::AckNotRequested);
        }
        if has_name(self.acks.as_slice(), from) {
            return Some(Reason::AckTwice);
        }
        None
    }

    /// The reason to ignore a response from the node `from`, or `None` if there is no reason.
    fn response_ignore_reason(&self, from: &[u8]) -> Option<Reason>
        ensures { result ≡ response_ignore_reason from.now self.now }
    {
        if has_responded(self.responses.as_slice(), from) {
            return Some(Reason::ResponseTwice);
        }
        None
    }

    /// Whether the query already has as many answers of this kind (acks or responses) as the limit `responders` allows.
    pub(crate) fn is_full(&self, responders: u64, answer: &QueryResponse) -> bool
        ensures { result ≡ is_full responders (response_said answer.now) self.now }
    {
        if is_ack(answer) {
            self.acks.as_slice().len() as u64 >= responders
        } else {
            self.responses.as_slice().len() as u64 >= responders
        }
    }

    /// Counts an answer among the acks or the responses. If memory runs out, the query stays unchanged.
    pub(crate) fn count(&mut self, alloc: Global, answer: &QueryResponse) -> Result<(), AllocError>
        ensures ok { OnOk result (self.new ≡ counted (response_said answer.now) self.old) }
        ensures err { OnErr result (self.new ≡ self.old) }
    {
        let from = Bytes::copy_of(alloc, answer.from)?;
        if is_ack(answer) {
            return self.acks.push(from);
        }
        let payload = Bytes::copy_of(alloc, answer.payload)?;
        self.responses.push(Response { from, payload })
    }

    /// Moves the query out, and leaves a query with the same deadline and no answers in its place. Allocates no memory.
    pub(crate) fn take(&mut self, alloc: Global) -> OpenQuery
        ensures taken { result ≡ self.old }
        ensures left { self.new.deadline ≡ self.old.deadline }
    {
        let emptied = OpenQuery {
            id: self.id,
            deadline: self.deadline,
            wants_ack: self.wants_ack,
            acks: BytesList::new(alloc),
            responses: Responses::new(alloc),
        };
        mem::replace(self, emptied)
    }
}
