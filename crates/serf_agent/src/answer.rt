//! Reading the ack or the response that a packet contains.

ghost use Rattle.std.specs.Prelude.{◌≡◌};
ghost use Rattle.std.specs.Option.{option_map};
ghost use Rattle.serf_wire.specs.Message.{response_said};
ghost use Rattle.serf_agent.specs.Answers.{answer_in};
ghost use Rattle.serf_agent.specs.Queries.{is_ack};

use crate::flags::{ACK, has_flag};
use serf_wire::{Message, QueryResponse, decode};

/// Returns the ack or the response that the packet contains, or `None` if it contains another message or none.
/// Allocates no memory.
///
/// After [`Agent::receive`](crate::Agent::receive) has returned `Ack` or `Response`, call this with the same packet to
/// see which query was answered, by which node, and with what payload. The result is exactly the answer that the agent
/// counted (`ack` and `response` in the definition `TakesPacket`). The agent doesn't keep the payload of an ack.
pub fn answer_in(packet: &[u8]) -> Option<QueryResponse<'_>>
    ensures { option_map response_said result ≡ answer_in packet.now }
{
    match decode(packet) {
        Ok(Message::QueryResponse(answer)) => Some(answer),
        _ => None,
    }
}

/// Whether an answer is an ack (Serf's `messages.go`, `queryFlagAck`). If not, it is a response. The other flags have
/// no meaning in an answer.
pub fn is_ack(answer: &QueryResponse) -> bool
    ensures { result ≡ is_ack (response_said answer.now) }
{
    has_flag(ACK, answer.flags)
}
