//! Reads the packet of an ack or a response for C.

ghost use Rattle.std.specs.Prelude.{◌≢◌, ◌≡◌};
ghost use Rattle.serf_agent.specs.Answers.{answer_in};
ghost use Rattle.serf_wire.specs.Message.{response_said};
ghost use Rattle.serf_agent_c.specs.Answers.{ReadsAnswer, answer_head};
ghost use Rattle.serf_agent_c.specs.Texts.{copied};

use crate::code::Code;
use crate::copies::copy_into;
use crate::heads::AnswerHead;
use serf_agent::{answer_in, is_ack};
use serf_wire::QueryResponse;

/// Makes the struct that C reads for `answer`, an ack or a response. It doesn't contain the texts.
fn head_of_answer(answer: &QueryResponse) -> AnswerHead
    ensures { result ≡ answer_head (response_said answer.now) }
{
    AnswerHead {
        time: answer.time,
        from_len: answer.from.len(),
        payload_len: answer.payload.len(),
        id: answer.id,
        is_ack: is_ack(answer),
    }
}

/// If `packet` is an ack or a response, fills `answer` with it, and `from` and `payload` with as much of its texts as
/// fits. If the packet is neither, the code is `Nothing`.
pub(crate) fn read_answer(
    packet: &[u8],
    answer: &mut AnswerHead,
    from: &mut [u8],
    payload: &mut [u8],
) -> Code
    ensures reads { ReadsAnswer (answer_in packet.now)
        (λ r. (answer.new ≡ answer_head r) × (from.new ≡ copied r.from from.old)
        × (payload.new ≡ copied r.payload payload.old)) result }
    ensures same { result ≢ Code.Done → (answer.new ≡ answer.old) × (from.new ≡ from.old)
        × (payload.new ≡ payload.old) }
{
    let Some(said) = answer_in(packet) else {
        return Code::Nothing;
    };
    *answer = head_of_answer(&said);
    copy_into(from, said.from);
    copy_into(payload, said.payload);
    Code::Done
}
