//! Describes the state that the call `look` shows: the clocks, the minimums, and the text that the disk keeps. Also
//! checks whether a reply to `look` agrees with the expected state.

ghost use Rattle.std.specs.Prelude.{◌≡◌, ◌++◌, ◌∷◌, [], IfOk, OnOk};
ghost use Rattle.std.specs.Option.{option_copied};
ghost use Rattle.serf_conform.specs.CallText.{number_word};
ghost use Rattle.serf_conform.specs.StateDump.{is_dumped_after as dumped_after, kept_alike, dump_answer, dump_judged, dump_line as line_of_dump, dump_means, dump_said, only_kept, same_clocks};
ghost use Rattle.serf_conform.specs.Reply.{reply_of, said_in};
ghost use Rattle.serf_conform.specs.Rules.{is_serf};

use crate::judging::{Judgement, says_unsupported};
use crate::put::write_number_word;
use crate::reply::{Reply, ReplyError, read_reply};
use crate::reply_line::ReplyLine;
use crate::verdict::Rules;
use serf_model::Answer;
use serf_snapshot::read_clocks;
use serf_wire::Bytes;
use std::alloc::{AllocError, Global};

/// The state of an agent, as shown by its reply to the call `look`.
#[derive(Drop)]
pub struct StateDump {
    pub member_clock: u64,
    pub event_clock: u64,
    pub query_clock: u64,
    /// The smallest Lamport time at which the agent accepts an event.
    pub event_minimum: u64,
    /// The smallest Lamport time at which the agent accepts a query.
    pub query_minimum: u64,
    /// The snapshot text that the agent's disk keeps.
    pub kept: Bytes,
}

/// Returns the line of the call `look`.
#[tactic(auto, unfolding(crate::specs::StateDump::dump_line))]
pub fn dump_line() -> &'static [u8]
    ensures { result.now ≡ line_of_dump }
{
    b"look\n"
}

/// Returns whether a `look` follows a call that the reference answers with `answer`. A `look` follows each refusal,
/// restart or compaction.
pub fn is_dumped_after(answer: Answer) -> bool
    ensures { result ≡ dumped_after answer }
{
    matches!(
        answer,
        Answer::Refused(_) | Answer::Restarted { .. } | Answer::Compacted
    )
}

/// Returns the answer that an agent in the state `dump` should return to `look`: the first line of the reply, without
/// its newline.
#[tactic(auto, unfolding(crate::specs::StateDump::dump_answer))]
fn answer_of(alloc: Global, dump: &StateDump) -> Result<Vec<u8>, AllocError>
    ensures { IfOk result (λ answer. answer.items ≡ dump_answer dump.now) }
{
    let mut out = Vec::from_slice(alloc, b"looked")?;
    write_number_word(&mut out, dump.member_clock)?;
    write_number_word(&mut out, dump.event_clock)?;
    write_number_word(&mut out, dump.query_clock)?;
    write_number_word(&mut out, dump.event_minimum)?;
    write_number_word(&mut out, dump.query_minimum)?;
    Ok(out)
}

/// Returns the reply to the call `look` that is expected of an agent in the state `dump`. Returns an `AllocError` only
/// if memory runs out.
pub fn dump_reply(alloc: Global, dump: &StateDump) -> Result<Reply, AllocError>
    ensures { IfOk result (λ reply. said_in reply ≡ dump_said dump.now) }
{
    let answer = Bytes::from_vec(answer_of(alloc, dump)?);
    let kept = Bytes::copy_of(alloc, dump.kept.as_slice())?;
    let mut lines = Vec::new(alloc);
    lines.push(ReplyLine::Kept(kept))?;
    Ok(Reply { answer, lines })
}

/// Returns whether reading the snapshot texts `one` and `other` results in the same three clocks.
fn have_same_clocks(one: &[u8], other: &[u8]) -> bool
    ensures { result ≡ same_clocks one.now other.now }
{
    let wanted = read_clocks(one);
    let got = read_clocks(other);
    wanted.member_clock == got.member_clock
        && wanted.event_clock == got.event_clock
        && wanted.query_clock == got.query_clock
}

/// Returns whether `got`, the text that a disk keeps, agrees with the expected text `wanted`. Under Serf's rules, only
/// the clocks in the two texts have to be equal. Under the rules `Own`, all bytes of the two texts have to be equal.
fn is_kept_alike(rules: Rules, wanted: &[u8], got: &[u8]) -> bool
    ensures { result ≡ kept_alike (is_serf rules) wanted.now got.now }
{
    if rules.is_serf() {
        have_same_clocks(wanted, got)
    } else {
        wanted == got
    }
}

/// Returns the text of the `kept` line in `lines`, which are the lines that follow a reply's answer. Returns `None`
/// unless `lines` consists of a single `kept` line.
fn only_kept(lines: &[ReplyLine]) -> Option<&[u8]>
    ensures { option_copied result ≡ only_kept lines.now }
{
    match lines {
        [ReplyLine::Kept(text)] => Some(text.as_slice()),
        _ => None,
    }
}

/// Returns whether the reply `got` shows the clocks and the minimums in `dump`, and a kept text that agrees with the
/// one in `dump`.
fn is_wanted_dump(
    alloc: Global,
    rules: Rules,
    dump: &StateDump,
    got: &Reply,
) -> Result<bool, AllocError>
    ensures { IfOk result (λ b. b
        ≡ dump_means (is_serf rules) dump.now (said_in got.now)) }
{
    let answer = answer_of(alloc, dump)?;
    if answer.as_slice() != got.answer.as_slice() {
        return Ok(false);
    }
    match only_kept(&got.lines) {
        Some(text) => Ok(is_kept_alike(rules, dump.kept.as_slice(), text)),
        None => Ok(false),
    }
}

/// Compares `text`, a reply to the call `look`, with `dump`, the state that the agent should have. The clocks, the
/// minimums, and the text that the disk keeps have to be equal. Under Serf's rules, the function compares only the
/// clocks in the kept text ([`serf_snapshot::read_clocks`]), and not all its bytes.
///
/// If the reply can't be read, the result is `Differs`. Returns an `AllocError` only if there isn't enough memory to
/// read the reply or to compare it.
pub fn judge_dump(
    alloc: Global,
    rules: Rules,
    dump: &StateDump,
    text: &[u8],
) -> Result<Judgement, AllocError>
    ensures { IfOk result (λ j. j
        ≡ dump_judged (is_serf rules) dump.now (reply_of text.now)) }
{
    match read_reply(alloc, text) {
        Err(ReplyError::BadLine { .. }) => Ok(Judgement::Differs),
        Err(ReplyError::OutOfMemory) => Err(AllocError),
        Ok(reply) => {
            if says_unsupported(&reply) {
                return Ok(Judgement::Unsupported);
            }
            if is_wanted_dump(alloc, rules, dump, &reply)? {
                Ok(Judgement::Agrees)
            } else {
                Ok(Judgement::Differs)
            }
        }
    }
}
