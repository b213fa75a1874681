//! Receiving gossiped packets.

ghost use Rattle.std.specs.Prelude.{◌≡◌, false};
ghost use Rattle.serf_wire.specs.Message.{message_of};
ghost use Rattle.serf_agent.specs.Answers.{answer_in, answer_of};
ghost use Rattle.serf_agent.specs.Receive.{receive, receive_message};
ghost use Rattle.serf_agent.specs.TakesPacket.{TakesPacket};

use crate::agent::Agent;
use crate::outcome::{Outcome, ReceiveError};
use serf_snapshot::Sink;
use serf_wire::{Message, decode, decode_user_event};
use std::alloc::Global;

impl<S: Sink> Agent<S> {
    /// Receives a packet at the moment `now`, in nanoseconds (Serf's `delegate.go`, `NotifyMsg`). `tags_pass` is the
    /// host's verdict on tag filters: whether this node's tags pass all of them.
    ///
    /// Before the agent hands out a new event or query, it appends the clock line to the sink and flushes it. The agent
    /// doesn't call the sink if the last clock line of this kind already has this time or a later one, and it doesn't
    /// call the sink for any other packet. If the settings keep events, the agent calls the sink for each new event or
    /// query, and writes the event's or the query's own line in the same append as the clock line.
    ///
    /// The agent doesn't know the node's tags; it only recognizes tag filters
    /// ([`is_tag_filter`](crate::is_tag_filter)). Set `tags_pass` to true only if you could read each tag filter of the
    /// query in the packet, and this node's tags pass all of them. If there are no tag filters, `tags_pass` has no
    /// effect. The agent hands out a query if each of the query's filters is either a node filter that names this node,
    /// or a tag filter and `tags_pass` is true. A filter of any other kind excludes every node. Whether or not the
    /// agent hands out a new query, it writes the query's line and inserts the query into the buffer.
    ///
    /// If several errors apply, the first in the order of `ReceiveError` is returned. Every error except `SinkError`
    /// leaves the agent and its sink as they were. `SinkError` stops the agent: the sink failed when it appended or
    /// flushed this line, and may have kept a part of it. No memory is allocated if the packet is faulty, foreign,
    /// ignored, or a push/pull.
    pub fn receive(
        &mut self,
        alloc: Global,
        now: u64,
        packet: &[u8],
        tags_pass: bool,
    ) -> Result<Outcome, ReceiveError>
        ensures { TakesPacket (λ i. receive tags_pass i now packet.now) (answer_in packet.now)
            self.old self.new result }
    {
        if self.snapshot.is_stopped() {
            return Err(ReceiveError::Stopped);
        }
        // User events are the most frequent packets, and they don't need the stack space that other messages need.
        match decode_user_event(packet) {
            Some(event) => self.receive_event(alloc, &event),
            None => self.receive_packet(alloc, now, packet, tags_pass),
        }
    }

    /// Decodes a packet and handles its message. The caller has checked that the agent isn't stopped.
    #[inline(never)]
    fn receive_packet(
        &mut self,
        alloc: Global,
        now: u64,
        packet: &[u8],
        tags_pass: bool,
    ) -> Result<Outcome, ReceiveError>
        requires { self.old.concrete.snapshot.stopped ≡ false }
        ensures { TakesPacket (λ i. receive tags_pass i now packet.now)
            (answer_in packet.now) self.old self.new result }
    {
        match &decode(packet) {
            Ok(message) => self.receive_message(alloc, now, message, tags_pass),
            Err(error) => Err(ReceiveError::Wire(*error)),
        }
    }

    /// Handles a received message according to its kind.
    #[inline(always)]
    fn receive_message(
        &mut self,
        alloc: Global,
        now: u64,
        message: &Message,
        tags_pass: bool,
    ) -> Result<Outcome, ReceiveError>
        requires { self.old.concrete.snapshot.stopped ≡ false }
        ensures { TakesPacket (λ i. receive_message tags_pass i now (message_of message.now))
            (answer_of (message_of message.now)) self.old self.new result }
    {
        match message {
            Message::UserEvent(event) => self.receive_event(alloc, event),
            Message::Query(query) => self.receive_query(alloc, now, query, tags_pass),
            Message::QueryResponse(answer) => self.receive_response(alloc, now, answer),
            Message::PushPull(_) => Ok(Outcome::PushPull),
            Message::Foreign(kind) => Ok(Outcome::Foreign(*kind)),
        }
    }
}
