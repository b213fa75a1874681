//! Makes one call to an agent, or takes one turn of a trace, and compares the reply with the expected reply. If a
//! `look` is due, it follows the call, and the reply to the `look` has to show the state `due`.

ghost use Rattle.std.specs.Prelude.{◌≡◌, ◌+◌, ◌-◌, ◌^◌, ◌<◌, ◌≤◌, ℕ, List, Option, IfOk, IfSome, OnOk, Some, length};
ghost use Rattle.std.specs.Io.KnownBytes.{Appends};
ghost use Rattle.std.specs.Option.{option_copied, option_map};
ghost use Rattle.serf_model.specs.Trace.{actor_of, is_agent, packet_given};
ghost use Rattle.serf_conform.specs.CallText.{call_line};
ghost use Rattle.serf_conform.specs.Input.{Hears, first_reply};
ghost use Rattle.serf_conform.specs.StateDump.{dump_line as line_of_dump};
ghost use Rattle.serf_conform.specs.Reply.{said_in};
ghost use Rattle.serf_conform.specs.Rules.{is_serf};
ghost use Rattle.serf_conform.specs.Session.{IsOutcome, IsTaken, Taken, outcome_by, outcome_for, given_of, dumped_of, taken_of, then_dumped, turn_at, with_line, with_dumped};
ghost use Rattle.serf_conform.specs.ExpectedReply.{expected_reply_of};

use crate::call_text::write_call;
use crate::dump::{StateDump, dump_line, judge_dump};
use crate::input::{ReadError, read_reply_text};
use crate::judging::{Judgement, judge};
use crate::replies::wanted;
use crate::reply::Reply;
use crate::subject::{Pipe, Subject, TurnView};
use crate::verdict::{ConformError, Rules};
use serf_model::{Act, Action, is_common_turn_of};
use serf_text::write_output;
use serf_wire::Bytes;
use std::alloc::Global;
use std::io::{Read, Write};

/// The counts of a comparison so far.
#[derive(Clone, Copy, PartialEq, Eq)]
pub(crate) struct Tally {
    /// The number of calls whose replies agree, including the opening.
    pub(crate) calls: u64,
    /// The number of replies to `look` that agree with the expected state.
    pub(crate) dumps: u64,
    /// The number of replies to `look` that are `unsupported`.
    pub(crate) unsupported: u64,
}

/// The outcome of a turn, of a single call, or of a single `look`.
#[derive(Drop)]
pub(crate) enum TurnOutcome {
    /// The turn is not a call to the agent under test.
    Skipped,
    /// The turn rests on one of this project's own rules, so its call was not made.
    OwnRule,
    /// The reply means the same as the expected reply.
    Agrees,
    /// The reply is `unsupported`, which means that the agent doesn't support the call.
    Unsupported,
    /// The reply can't be read, or doesn't mean the same as the expected reply. The value is the text of the reply.
    Differs(Bytes),
    /// The agent ended before its reply was complete.
    Ended,
    /// The reply to the call agrees, and so does the reply to the `look` that follows.
    Looked,
    /// The reply to the call agrees, and the reply to the `look` that follows is `unsupported`.
    Unlooked,
    /// The reply to the call agrees, but the reply to the `look` that follows doesn't. The values are the expected
    /// state and the text of the reply to the `look`.
    DumpDiffers(StateDump, Bytes),
    /// The reply to the call agrees, but the agent ended during the `look` that followed. The value is the expected
    /// state.
    DumpEnded(StateDump),
}

impl TurnOutcome {
    ghost use Rattle.std.specs.Prelude.{◌≡◌};
    ghost use Rattle.serf_conform.specs.Session.{HasRoom, counted};

    /// Returns the counts after the turn: the counts in `tally`, with this outcome added.
    pub(crate) fn counted(&self, tally: Tally) -> Tally
        requires { HasRoom tally }
        ensures { result ≡ counted self.now tally }
    {
        let calls = tally.calls + 1;
        let more = Tally { calls, ..tally };
        match self {
            TurnOutcome::Agrees | TurnOutcome::DumpDiffers(..) | TurnOutcome::DumpEnded(_) => more,
            TurnOutcome::Looked => Tally {
                dumps: tally.dumps + 1,
                ..more
            },
            TurnOutcome::Unlooked => Tally {
                unsupported: tally.unsupported + 1,
                ..more
            },
            _ => tally,
        }
    }
}

/// Reads the text of the agent's next reply. Returns `None` if the agent ended before the reply was complete.
fn next_reply<R: Read>(alloc: Global, reader: &mut R) -> Result<Option<Vec<u8>>, ConformError>
    ensures { IfOk result (λ text. IfSome (R.remaining reader.old) (λ input. Hears
        (first_reply input) (option_map (λ t. t.items) text) (R.remaining reader.new))) }
{
    match read_reply_text(alloc, reader) {
        Ok(text) => Ok(Some(text)),
        Err(ReadError::Ended) => Ok(None),
        Err(ReadError::ReadError) => Err(ConformError::ReadError),
        Err(ReadError::TooLong) => Err(ConformError::ReplyTooLong),
        Err(ReadError::OutOfMemory) => Err(ConformError::OutOfMemory),
    }
}

/// Returns the outcome of a call or a `look`. `text` is the text of the reply, and `judgement` is the result of
/// comparing the reply with the expected reply.
fn outcome_by(judgement: Judgement, text: Vec<u8>) -> TurnOutcome
    ensures { result ≡ outcome_by judgement text.items }
{
    match judgement {
        Judgement::Agrees => TurnOutcome::Agrees,
        Judgement::Differs => TurnOutcome::Differs(Bytes::from_vec(text)),
        Judgement::Unsupported => TurnOutcome::Unsupported,
    }
}

/// Writes `line`, the line of a call, and compares the reply with `wanted`. `given` is the packet that the call
/// carried, and is empty if the call carried none.
fn ask<R: Read, W: Write>(
    alloc: Global,
    pipe: &mut Pipe<R, W>,
    line: &[u8],
    given: &[u8],
    wanted: &Reply,
) -> Result<TurnOutcome, ConformError>
    ensures written { OnOk result
        (Appends (W.contents pipe.old.writer) (W.contents pipe.new.writer) line.now) }
    ensures outcome { IfOk result (λ outcome. IfSome (R.remaining pipe.old.reader) (λ input.
        IsOutcome (outcome_for given.now (said_in wanted.now) input) outcome
        (R.remaining pipe.new.reader))) }
{
    if write_output(&mut pipe.writer, line).is_err() {
        return Err(ConformError::WriteError);
    }
    let Some(text) = next_reply(alloc, &mut pipe.reader)? else {
        return Ok(TurnOutcome::Ended);
    };
    let judgement = judge(alloc, given, wanted, &text)?;
    Ok(outcome_by(judgement, text))
}

/// Makes the call `look`, and compares the reply under `rules` with `dump`, the state that the agent should have.
pub(crate) fn call_look<R: Read, W: Write>(
    alloc: Global,
    pipe: &mut Pipe<R, W>,
    rules: Rules,
    dump: &StateDump,
) -> Result<TurnOutcome, ConformError>
    ensures written { OnOk result
        (Appends (W.contents pipe.old.writer) (W.contents pipe.new.writer) line_of_dump) }
    ensures outcome { IfOk result (λ outcome. IfSome (R.remaining pipe.old.reader) (λ input.
        IsOutcome (dumped_of (is_serf rules) dump.now input) outcome
        (R.remaining pipe.new.reader))) }
{
    if write_output(&mut pipe.writer, dump_line()).is_err() {
        return Err(ConformError::WriteError);
    }
    let Some(text) = next_reply(alloc, &mut pipe.reader)? else {
        return Ok(TurnOutcome::Ended);
    };
    let judgement = judge_dump(alloc, rules, dump, &text)?;
    Ok(outcome_by(judgement, text))
}

/// Combines two outcomes: that of a call whose reply agrees, and `dumped`, that of the `look` after the call. `dump` is
/// the state that the `look` should have shown.
fn with_dumped(dump: StateDump, dumped: TurnOutcome) -> TurnOutcome
    ensures { result ≡ with_dumped dump dumped }
{
    match dumped {
        TurnOutcome::Agrees => TurnOutcome::Looked,
        TurnOutcome::Unsupported => TurnOutcome::Unlooked,
        TurnOutcome::Differs(text) => TurnOutcome::DumpDiffers(dump, text),
        TurnOutcome::Ended => TurnOutcome::DumpEnded(dump),
        other => other,
    }
}

/// If the previous call's `outcome` is `Agrees` and a `look` is due, makes the call `look`, which should show the state
/// `due`. Returns the combined outcome of the two calls, or `outcome` itself if no `look` was made.
pub(crate) fn look_if_due<R: Read, W: Write>(
    alloc: Global,
    pipe: &mut Pipe<R, W>,
    rules: Rules,
    due: Option<StateDump>,
    outcome: TurnOutcome,
) -> Result<TurnOutcome, ConformError>
    ensures { (s : Taken) (held : Option (List ℕ))
        → IsTaken s outcome (R.remaining pipe.old.reader) held (W.contents pipe.old.writer)
        → IfOk result (λ came. IsTaken (then_dumped (is_serf rules) due s) came
        (R.remaining pipe.new.reader) held (W.contents pipe.new.writer)) }
{
    let Some(dump) = due else {
        return Ok(outcome);
    };
    if !matches!(outcome, TurnOutcome::Agrees) {
        return Ok(outcome);
    }
    let dumped = call_look(alloc, pipe, rules, &dump)?;
    Ok(with_dumped(dump, dumped))
}

/// Writes `line`, the line of a call, and compares the reply with `wanted`. If the reply agrees and a `look` is due,
/// also makes the call `look`, which should show the state `due`.
pub(crate) fn call_and_look<R: Read, W: Write>(
    alloc: Global,
    pipe: &mut Pipe<R, W>,
    rules: Rules,
    due: Option<StateDump>,
    line: &[u8],
    given: &[u8],
    wanted: &Reply,
) -> Result<TurnOutcome, ConformError>
    ensures { IfOk result (λ came. IfSome (R.remaining pipe.old.reader) (λ input. IsTaken
        (then_dumped (is_serf rules) due
        (with_line line.now (outcome_for given.now (said_in wanted.now) input)))
        came (R.remaining pipe.new.reader) (W.contents pipe.old.writer)
        (W.contents pipe.new.writer))) }
{
    let outcome = ask(alloc, pipe, line, given, wanted)?;
    look_if_due(alloc, pipe, rules, due, outcome)
}

/// Returns whether `action` is an action of agent number `agent`. Allocates no memory.
pub(crate) fn is_of(action: &Action, agent: u64) -> bool
    ensures { result ≡ is_agent agent (actor_of action.now) }
{
    match action.actor() {
        Some(actor) => actor == agent,
        None => false,
    }
}

/// Returns the packet in `sent` that `action` passes to its agent. `sent` contains the packets that were sent before
/// the action. If the action is neither a delivery nor a merge, the returned packet is empty. Returns `None` if the
/// action names a packet that isn't in `sent`. Allocates no memory.
pub fn given_packet<'a>(action: &Action, sent: &'a [Bytes]) -> Option<&'a [u8]>
    ensures { option_copied result ≡ given_of action.now (packet_given sent.now action.now) }
{
    match action {
        Action::Of {
            act: Act::Deliver { .. } | Act::Merge { .. },
            ..
        } => action.given(sent),
        _ => Some(&[]),
    }
}

/// Makes the call of `turn` with the packet `given`, and compares the reply with the expected reply. The turn's line,
/// `given`, and `packets`, which are the packets that the turn sent, determine the expected reply. If the reply agrees
/// and a `look` is due, also makes the call `look`, which should show the state `due`.
fn make_call<R: Read, W: Write>(
    alloc: Global,
    pipe: &mut Pipe<R, W>,
    rules: Rules,
    due: Option<StateDump>,
    turn: &TurnView,
    given: &[u8],
    packets: &[Bytes],
) -> Result<TurnOutcome, ConformError>
    ensures { IfOk result (λ came. IfSome (R.remaining pipe.old.reader) (λ input. IsTaken
        (then_dumped (is_serf rules) due (with_line (call_line turn.now.action.now given.now)
        (outcome_for given.now (expected_reply_of turn.now.line.now given.now packets.now) input)))
        came (R.remaining pipe.new.reader) (W.contents pipe.old.writer)
        (W.contents pipe.new.writer))) }
{
    let mut call = Vec::new(alloc);
    write_call(&mut call, turn.action, given)?;
    let reply = wanted(alloc, turn.line, given, packets)?;
    call_and_look(alloc, pipe, rules, due, &call, given, &reply)
}

/// Takes one turn of a run. If the turn is a call to the subject's agent, and the rules allow the turn to be compared,
/// makes the call and compares the reply. If the reply agrees and a `look` is due, also makes the call `look`, which
/// should show the state `due`. Returns `OtherTrace` if the run has fewer packets than were sent up to the end of the
/// turn.
pub(crate) fn compare_turn<R: Read, W: Write>(
    alloc: Global,
    pipe: &mut Pipe<R, W>,
    subject: &Subject,
    due: Option<StateDump>,
    turn: &TurnView,
) -> Result<TurnOutcome, ConformError>
    ensures taken { IfOk result (λ outcome. IfSome (R.remaining pipe.old.reader) (λ input. IsTaken
        (taken_of (is_serf subject.now.rules) subject.now.config.now subject.now.agent due
        (turn_at turn.now.count turn.now.sent.now turn.now.action.now turn.now.line.now) input)
        outcome (R.remaining pipe.new.reader) (W.contents pipe.old.writer)
        (W.contents pipe.new.writer))) }
    ensures fits { OnOk result
        (turn.now.count + length turn.now.line.now.sent ≤ length turn.now.sent.now) }
{
    let (action, line, sent, count) = (turn.action, turn.line, turn.sent, turn.count);
    // The number of packets that the turn sent.
    let own = line.sent.as_slice().len();
    if count > sent.len() || own > sent.len() - count {
        return Err(ConformError::OtherTrace);
    }
    if !is_of(action, subject.agent) {
        return Ok(TurnOutcome::Skipped);
    }
    let Some(given) = given_packet(action, &sent[..count]) else {
        return Ok(TurnOutcome::Skipped);
    };
    if subject.rules.is_serf() && !is_common_turn_of(subject.config, action, line) {
        return Ok(TurnOutcome::OwnRule);
    }
    let packets = &sent[count..count + own];
    make_call(alloc, pipe, subject.rules, due, turn, given, packets)
}
