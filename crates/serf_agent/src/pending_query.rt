//! A query that is handed out, and the response to it.

ghost use Rattle.std.specs.Prelude.{◌≡◌, ◌≢◌, ◌≤◌, [], length, if◌then◌else◌, Some, None, IfOk, IfErr};
ghost use Rattle.serf_wire.specs.Message.{query_response, query_with, response_of, response_said};
ghost use Rattle.serf_agent.specs.Config.{max_packet_limit, max_name_bytes};
ghost use Rattle.serf_agent.specs.Queries.{ack_packet, deadline_of, handed_query, respond_error, response_packet};

use crate::config::Config;
use crate::flags::ACK;
use crate::outcome::{Reply, RespondError};
use serf_lamport::Time;
use serf_wire::{Bytes, EncodeError, Query, QueryResponse, encode_response, response_len};
use std::alloc::{AllocError, Global};
use std::marker::Model;

/// A query that was handed out. It can be answered once: a response consumes it, and it can't be cloned.
///
/// Its content is in a separate allocation, so that a result that may contain a query stays small.
pub struct PendingQuery {
    parts: Box<PendingParts>,
}

/// `Drop` is implemented by hand, so that dependent crates need not prove again that the fields can be dropped.
impl Drop for PendingQuery {
    fn drop(self) {
        let PendingQuery { parts: _ } = self;
    }
}

/// The content of a query that was handed out.
#[derive(Drop)]
struct PendingParts {
    time: Time,
    id: u32,
    name: Bytes,
    payload: Bytes,
    source: Bytes,
    addr: Bytes,
    port: u16,
    relay_factor: u8,
    deadline: u64,
    response_limit: u64,
    node: Bytes,
}

impl Model for PendingQuery {
    ghost use Rattle.std.specs.Prelude.{◌≤◌};
    ghost use Rattle.serf_agent.specs.Config.{max_packet_limit};
    ghost use Rattle.serf_agent.specs.DeliveredQuery.{DeliveredQuery};

    ghost Value = { DeliveredQuery };

    ghost view = { λ q. let parts = q.parts.value in
        record {
          time = parts.time;
          id = parts.id;
          name = parts.name;
          payload = parts.payload;
          source = parts.source;
          addr = parts.addr;
          port = parts.port;
          relay_factor = parts.relay_factor;
          deadline = parts.deadline;
          response_limit = parts.response_limit;
          node = parts.node;
        } };

    ghost invariant = { λ q. q.parts.value.response_limit ≤ max_packet_limit };
}

/// Returns the deadline of a query that arrived at the moment `now` with this timeout: the last moment, in nanoseconds,
/// at which the query can be answered.
pub(crate) fn deadline_of(now: u64, timeout: i64) -> u64
    ensures { result ≡ deadline_of now timeout }
{
    if timeout <= 0 {
        now
    } else {
        now.saturating_add(timeout as u64)
    }
}

/// Encodes the ack that the node `node` sends for a query.
pub(crate) fn ack_of<F>(alloc: Global, query: &Query<F>, node: &[u8]) -> Result<Bytes, AllocError>
    requires { length node.now ≤ max_name_bytes }
    ensures { IfOk result (λ ack. ack ≡ ack_packet node.now (query_with [] query.now)) }
{
    let ack = QueryResponse {
        time: query.time.get(),
        id: query.id,
        from: node,
        flags: ACK,
        payload: b"",
    };
    match encode_response(alloc, &ack) {
        Ok(packet) => Ok(Bytes::from_vec(packet)),
        // (the only text in an ack is a node name, which is never too long)
        Err(EncodeError::TooLong) => unreachable!(),
        Err(EncodeError::OutOfMemory) => Err(AllocError),
    }
}

impl PendingQuery {
    /// Makes the query that an agent with the settings `config` hands out when `query` arrives at the moment `now`.
    pub(crate) fn of<F>(
        alloc: Global,
        query: &Query<F>,
        now: u64,
        config: &Config,
    ) -> Result<PendingQuery, AllocError>
        requires { config.now.response_limit ≤ max_packet_limit }
        ensures { IfOk result (λ handed.
            handed ≡ handed_query config.now now (query_with [] query.now)) }
    {
        let name = Bytes::copy_of(alloc, query.name)?;
        let payload = Bytes::copy_of(alloc, query.payload)?;
        let source = Bytes::copy_of(alloc, query.source)?;
        let addr = Bytes::copy_of(alloc, query.addr)?;
        let node = Bytes::copy_of(alloc, config.name.as_slice())?;
        let parts = PendingParts {
            time: query.time,
            id: query.id,
            name,
            payload,
            source,
            addr,
            port: query.port,
            relay_factor: query.relay_factor,
            deadline: deadline_of(now, query.timeout),
            response_limit: config.response_limit,
            node,
        };
        Ok(PendingQuery {
            parts: Box::new(alloc, parts)?,
        })
    }

    /// The query's time. Like all getters of this type, it allocates no memory.
    pub fn time(&self) -> Time
        ensures { result ≡ self.now.time }
    {
        self.parts.time
    }

    /// The query's ID, which distinguishes it from other queries of its time.
    pub fn id(&self) -> u32
        ensures { result ≡ self.now.id }
    {
        self.parts.id
    }

    /// The query's name.
    pub fn name(&self) -> &[u8]
        ensures { result.now ≡ self.now.name }
    {
        self.parts.name.as_slice()
    }

    /// The query's payload.
    pub fn payload(&self) -> &[u8]
        ensures { result.now ≡ self.now.payload }
    {
        self.parts.payload.as_slice()
    }

    /// The name of the node that fired the query.
    pub fn source(&self) -> &[u8]
        ensures { result.now ≡ self.now.source }
    {
        self.parts.source.as_slice()
    }

    /// The address of the node that fired the query, to which a response is sent.
    pub fn addr(&self) -> &[u8]
        ensures { result.now ≡ self.now.addr }
    {
        self.parts.addr.as_slice()
    }

    /// The port of the node that fired the query.
    pub fn port(&self) -> u16
        ensures { result ≡ self.now.port }
    {
        self.parts.port
    }

    /// The number of nodes that are to relay the response. This project's core relays no responses.
    pub fn relay_factor(&self) -> u8
        ensures { result ≡ self.now.relay_factor }
    {
        self.parts.relay_factor
    }

    /// The last moment, in nanoseconds, at which the query can be answered.
    pub fn deadline(&self) -> u64
        ensures { result ≡ self.now.deadline }
    {
        self.parts.deadline
    }

    /// The name of the node to which the query was handed out.
    pub fn node(&self) -> &[u8]
        ensures { result.now ≡ self.now.node }
    {
        self.parts.node.as_slice()
    }

    /// Makes the response to this query, with `payload` as its payload.
    fn response<'a>(&'a self, payload: &'a [u8]) -> QueryResponse<'a>
        ensures { query_response (response_said result)
            ≡ response_of self.now.time self.now.id self.now.node 0 payload.now }
    {
        QueryResponse {
            time: self.parts.time.get(),
            id: self.parts.id,
            from: self.parts.node.as_slice(),
            flags: 0,
            payload,
        }
    }

    /// Encodes the response with this `payload`. The caller has checked that its packet isn't too long.
    fn packet_of(&self, alloc: Global, payload: &[u8]) -> Result<Bytes, AllocError>
        requires { length (response_packet self.now payload.now) ≤ max_packet_limit }
        ensures { IfOk result (λ packet. packet ≡ response_packet self.now payload.now) }
    {
        match encode_response(alloc, &self.response(payload)) {
            Ok(packet) => Ok(Bytes::from_vec(packet)),
            // (the caller has checked that the packet isn't too long)
            Err(EncodeError::TooLong) => unreachable!(),
            Err(EncodeError::OutOfMemory) => Err(AllocError),
        }
    }

    /// Answers the query (Serf's `query.go`, `Respond`). Send the packet of the reply to the reply's address and port.
    /// A success consumes the query. An error returns the query unchanged, so that it can still be answered later.
    ///
    /// The errors are `PastDeadline` if the moment `now` is after the deadline, `TooLarge` if the packet is longer than
    /// the `response_limit` of the agent that handed the query out, and `OutOfMemory`. If several apply, the first is
    /// returned.
    pub fn respond(
        self,
        alloc: Global,
        now: u64,
        payload: &[u8],
    ) -> Result<Reply, (PendingQuery, RespondError)>
        ensures reply { IfOk result (λ reply. reply
            ≡ record {
              addr = self.addr;
              port = self.port;
              packet = response_packet self payload.now;
            }) }
        ensures answered { IfOk result (λ reply. respond_error self now payload.now ≡ None) }
        ensures back { IfErr result (λ e. e.0 ≡ self) }
        ensures error { IfErr result (λ e. e.1 ≢ RespondError.OutOfMemory
            → respond_error self now payload.now ≡ Some e.1) }
        ensures memory { IfErr result (λ e. e.1 ≡ RespondError.OutOfMemory
            → respond_error self now payload.now ≡ None) }
    {
        if self.parts.deadline < now {
            return Err((self, RespondError::PastDeadline));
        }
        if response_len(&self.response(payload)) > self.parts.response_limit as u128 {
            return Err((self, RespondError::TooLarge));
        }
        match self.packet_of(alloc, payload) {
            Ok(packet) => {
                let PendingQuery { parts } = self;
                let PendingParts { addr, port, .. } = Box::into_inner(parts);
                Ok(Reply { addr, port, packet })
            }
            Err(_) => Err((self, RespondError::OutOfMemory)),
        }
    }
}
