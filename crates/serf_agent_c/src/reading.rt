//! Lets C read a session: the result of its last call, the bytes that are pending for the host's file, and the clocks.

ghost use Rattle.std.specs.Prelude.{◌≢◌, Some, ◌≡◌, ◌+◌, if◌then◌else◌, length, slice_get, option_copied};
ghost use Rattle.std.specs.Option.{is_some};
ghost use Rattle.serf_agent_c.specs.ResultParts.{ack_in, events_in, handed_in, packet_in};
ghost use Rattle.serf_agent_c.specs.Reads.{ReadsAs, clocks_head, event_head, foreign_of, pending_query_head, kind_of, outcome_kind, reason_number, reason_of, rebroadcast_of};
ghost use Rattle.serf_agent_c.specs.Sessions.{is_ready, settled};
ghost use Rattle.serf_agent_c.specs.Texts.{copied, pending_bytes};

use crate::call_result::CallResult;
use crate::code::Code;
use crate::copies::copy_into;
use crate::heads::{BytesHead, ClocksHead, EventHead, ResultHead};
use crate::session::Session;
use serf_agent::{EventOut, Outcome, Reason};
use serf_wire::Bytes;

/// The number of the `reason` why a packet was ignored, as in `enum serf_agent_reason` of `include/serf_agent.h`.
fn reason_number(reason: Reason) -> u32
    ensures { result ≡ reason_number reason }
{
    match reason {
        Reason::Oversize => 1,
        Reason::BelowMinimum => 2,
        Reason::TooOld => 3,
        Reason::Seen => 4,
        Reason::TimeFull => 5,
        Reason::NotOpen => 6,
        Reason::OtherId => 7,
        Reason::Closed => 8,
        Reason::AckNotRequested => 9,
        Reason::AckTwice => 10,
        Reason::ResponseTwice => 11,
    }
}

/// The kind of a packet's `outcome`, as in `enum serf_agent_kind` of `include/serf_agent.h`.
fn outcome_kind(outcome: &Outcome) -> u32
    ensures { result ≡ outcome_kind outcome.now }
{
    match outcome {
        Outcome::Event(_) => 1,
        Outcome::Query { .. } => 2,
        Outcome::Ack => 3,
        Outcome::Response => 4,
        Outcome::Ignored(_) => 5,
        Outcome::Foreign(_) => 6,
        Outcome::PushPull => 7,
    }
}

impl CallResult {
    /// The kind of the result, as in `enum serf_agent_kind` of `include/serf_agent.h`.
    fn kind(&self) -> u32
        ensures { result ≡ kind_of self.now }
    {
        match self {
            CallResult::Received(Ok(outcome)) => outcome_kind(outcome),
            CallResult::Fired(Ok(_)) => 8,
            CallResult::QueryFired(Ok(_)) => 9,
            CallResult::Merged(..) => 10,
            CallResult::State(Ok(_)) => 11,
            CallResult::Replied(Ok(_)) => 12,
            CallResult::Closed(_) => 13,
            _ => 0,
        }
    }

    /// The number of the reason why the packet was ignored, as in the header's enum; 0 if no packet was ignored.
    fn reason(&self) -> u32
        ensures { result ≡ reason_of self.now }
    {
        match self {
            CallResult::Received(Ok(Outcome::Ignored(reason))) => reason_number(*reason),
            _ => 0,
        }
    }

    /// The type byte of the received message, if the agent doesn't read messages of its type; otherwise 0.
    fn foreign(&self) -> u8
        ensures { result ≡ foreign_of self.now }
    {
        match self {
            CallResult::Received(Ok(Outcome::Foreign(kind))) => *kind,
            _ => 0,
        }
    }

    /// Whether the received packet has to be sent on unchanged.
    fn rebroadcast(&self) -> bool
        ensures { result ≡ rebroadcast_of self.now }
    {
        match self {
            CallResult::Received(Ok(Outcome::Event(_))) => true,
            CallResult::Received(Ok(Outcome::Query { rebroadcast, .. })) => *rebroadcast,
            _ => false,
        }
    }

    /// The number of events that the call handed out.
    fn events(&self) -> usize
        ensures { result ≡ length (events_in self.now) }
    {
        match self {
            CallResult::Received(Ok(Outcome::Event(_))) => 1,
            CallResult::Fired(Ok(_)) => 1,
            CallResult::Merged(events, _) => events.len(),
            _ => 0,
        }
    }
}

impl Session {
    /// Fills `call_result` with the result of the last call. If the call handed out a query, this query has the next
    /// number after all earlier ones.
    pub(crate) fn read_call_result(&self, call_result: &mut ResultHead)
        ensures { call_result.new
            ≡ record {
              kind = kind_of self.now.call_result;
              reason = reason_of self.now.call_result;
              handed = if is_some (handed_in self.now.call_result)
                  then self.now.waiting.handed + 1 else 0;
              events = length (events_in self.now.call_result);
              foreign = foreign_of self.now.call_result;
              rebroadcast = rebroadcast_of self.now.call_result;
            } }
    {
        let handed = if self.call_result.handed().is_some() {
            self.waiting.next_number()
        } else {
            0
        };
        *call_result = ResultHead {
            kind: self.call_result.kind(),
            reason: self.call_result.reason(),
            handed,
            events: self.call_result.events(),
            foreign: self.call_result.foreign(),
            rebroadcast: self.call_result.rebroadcast(),
        };
    }

    /// Fills `bytes` with the number of bytes that are pending for the host's file, and `to` with as many of them as
    /// fit, from the first on.
    pub(crate) fn read_pending(&self, bytes: &mut BytesHead, to: &mut [u8])
        ensures head { bytes.new
            ≡ record {
              len = length (pending_bytes self.now.agent.device self.now.written);
              replaces = self.now.replaces;
            } }
        ensures copied { to.new
            ≡ copied (pending_bytes self.now.agent.device self.now.written) to.old }
    {
        let pending_bytes = self.pending_bytes();
        *bytes = BytesHead {
            len: pending_bytes.len(),
            replaces: self.replaces,
        };
        copy_into(to, pending_bytes);
    }

    /// Fills `event`, `name` and `payload` with the event at `index`, counted from 0, that the last call handed out.
    pub(crate) fn read_event(
        &self,
        index: usize,
        event: &mut EventHead,
        name: &mut [u8],
        payload: &mut [u8],
    ) -> Code
        ensures reads { ReadsAs (is_ready self.now)
            (slice_get (events_in self.now.call_result) index)
            (λ o. (event.new ≡ event_head o) × (name.new ≡ copied o.name name.old)
            × (payload.new ≡ copied o.payload payload.old)) result }
        ensures same { result ≢ Code.Done → (event.new ≡ event.old) × (name.new ≡ name.old)
            × (payload.new ≡ payload.old) }
    {
        if !self.is_ready() {
            return Code::Pending;
        }
        let Some(out) = self.call_result.event(index) else {
            return Code::Nothing;
        };
        *event = head_of_event(out);
        copy_into(name, out.name.as_slice());
        copy_into(payload, out.payload.as_slice());
        Code::Done
    }

    /// Sets `len` to the length of the outgoing packet that the last call made, and fills `to` with as much of it as
    /// fits.
    pub(crate) fn read_packet(&self, len: &mut usize, to: &mut [u8]) -> Code
        ensures reads { ReadsAs (is_ready self.now) (packet_in self.now.call_result)
            (λ p. (len.new ≡ length p) × (to.new ≡ copied p to.old)) result }
        ensures same { result ≢ Code.Done → (len.new ≡ len.old) × (to.new ≡ to.old) }
    {
        if !self.is_ready() {
            return Code::Pending;
        }
        let Some(packet) = self.call_result.packet() else {
            return Code::Nothing;
        };
        read_bytes(packet, len, to);
        Code::Done
    }

    /// Sets `len` to the length of the outgoing ack that the last call made, and fills `to` with as much of it as fits.
    pub(crate) fn read_ack(&self, len: &mut usize, to: &mut [u8]) -> Code
        ensures reads { ReadsAs (is_ready self.now) (ack_in self.now.call_result)
            (λ p. (len.new ≡ length p) × (to.new ≡ copied p to.old)) result }
        ensures same { result ≢ Code.Done → (len.new ≡ len.old) × (to.new ≡ to.old) }
    {
        if !self.is_ready() {
            return Code::Pending;
        }
        let Some(ack) = self.call_result.ack() else {
            return Code::Nothing;
        };
        read_bytes(ack, len, to);
        Code::Done
    }

    /// Fills `clocks` with the agent's clocks and minimum times. The code is `Pending` while bytes are pending for the
    /// host's file.
    pub(crate) fn read_clocks(&self, clocks: &mut ClocksHead) -> Code
        ensures reads { ReadsAs (is_ready self.now) (Some (clocks_head self.now.agent.concrete))
            (λ head. clocks.new ≡ head) result }
        ensures same { result ≢ Code.Done → (clocks.new ≡ clocks.old) }
    {
        if !self.is_ready() {
            return Code::Pending;
        }
        *clocks = ClocksHead {
            member: self.agent.member_time(),
            event: self.agent.event_time(),
            query: self.agent.query_time(),
            event_minimum: self.agent.event_minimum(),
            query_minimum: self.agent.query_minimum(),
        };
        Code::Done
    }
}

/// Makes the struct that C reads for `out`, an event that was handed out. It doesn't contain the event's texts.
fn head_of_event(out: &EventOut) -> EventHead
    ensures { result ≡ event_head out.now }
{
    EventHead {
        time: out.time.get(),
        name_len: out.name.as_slice().len(),
        payload_len: out.payload.as_slice().len(),
        coalesce: out.coalesce,
    }
}

/// Sets `len` to the length of `packet`, and fills `to` with as much of it as fits.
fn read_bytes(packet: &Bytes, len: &mut usize, to: &mut [u8])
    ensures len { len.new ≡ length packet.now }
    ensures copied { to.new ≡ copied packet.now to.old }
{
    *len = packet.as_slice().len();
    copy_into(to, packet.as_slice());
}
