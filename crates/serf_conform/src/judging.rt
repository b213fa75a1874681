//! Compares the text of a reply with the expected reply.

ghost use Rattle.std.specs.Prelude.{◌≡◌, IfOk};
ghost use Rattle.serf_conform.specs.Reply.{reply_of, said_in};
ghost use Rattle.serf_conform.specs.ExpectedReply.{is_unsupported, judged};

use crate::meaning::reply_means;
use crate::reply::{Reply, ReplyError, read_reply};
use std::alloc::{AllocError, Global};

/// The result of comparing a reply with the expected reply.
#[derive(Clone, Copy, PartialEq, Eq)]
pub enum Judgement {
    /// The reply means the same as the expected reply.
    Agrees,
    /// The reply can't be read, or doesn't mean the same as the expected reply.
    Differs,
    /// The reply is `unsupported`, which means that the agent doesn't support the call.
    Unsupported,
}

/// Returns whether `reply` is `unsupported`, which means that the agent doesn't support the call.
pub(crate) fn says_unsupported(reply: &Reply) -> bool
    ensures { result ≡ is_unsupported (said_in reply.now) }
{
    reply.answer.as_slice() == b"unsupported".as_slice() && reply.lines.is_empty()
}

/// Compares `text`, the text of a reply, with the expected reply `wanted`. `given` is the packet that the call carried,
/// and is empty if the call carried none.
///
/// If the reply can't be read, the result is `Differs`. Returns an `AllocError` only if there isn't enough memory to
/// read the reply or to compare it.
pub fn judge(
    alloc: Global,
    given: &[u8],
    wanted: &Reply,
    text: &[u8],
) -> Result<Judgement, AllocError>
    ensures { IfOk result (λ j. j ≡ judged given.now (said_in wanted.now) (reply_of text.now)) }
{
    match read_reply(alloc, text) {
        Err(ReplyError::BadLine { .. }) => Ok(Judgement::Differs),
        Err(ReplyError::OutOfMemory) => Err(AllocError),
        Ok(reply) => {
            if says_unsupported(&reply) {
                return Ok(Judgement::Unsupported);
            }
            if reply_means(alloc, given, wanted, &reply)? {
                Ok(Judgement::Agrees)
            } else {
                Ok(Judgement::Differs)
            }
        }
    }
}
