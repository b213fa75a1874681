//! Compares an agent with the reference from the agent's first call to its last, and returns the verdict.

ghost use Rattle.std.specs.Prelude.{◌≡◌, ℕ, List, [], Option, IfOk, IfSome, OnOk};
ghost use Rattle.std.specs.Io.KnownBytes.{Appends};
ghost use Rattle.serf_agent.specs.declared.config.Config.{Config as ConfigOf};
ghost use Rattle.serf_model.specs.Alone.{AgentCall};
ghost use Rattle.serf_model.specs.Trace.{outcome_of, turns_from, turns_of};
ghost use Rattle.serf_conform.specs.CallText.{open_line};
ghost use Rattle.serf_conform.specs.Solo.{IsSolo};
ghost use Rattle.serf_conform.specs.Rules.{is_serf};
ghost use Rattle.serf_conform.specs.Session.{Concludes, HasRoom, IsOutcome, IsFew, IsTaken, outcome_for, ending_of, last_of, opened_of, session, session_from, verdict_at};
ghost use Rattle.serf_conform.specs.ExpectedReply.{opening as opening_of};

use crate::asking::{Tally, TurnOutcome, call_and_look, call_look, compare_turn};
use crate::call_text::write_open;
use crate::dump::StateDump;
use crate::replies::opening;
use crate::solo::{dump_at, follow_turn, open_solo};
use crate::subject::{Pipe, RunView, Subject, TurnView};
use crate::verdict::{ConformError, End, Rules, Verdict};
use serf_agent::Config;
use serf_model::{Action, Trace};
use serf_world::World;
use std::alloc::{AllocError, Global};
use std::io::{Read, Write};

/// Returns the line of the call that opens an agent with the settings `config` on an empty snapshot.
fn open_text(alloc: Global, config: &Config) -> Result<Vec<u8>, AllocError>
    ensures { IfOk result (λ text. text.items ≡ open_line config.now []) }
{
    let mut out = Vec::new(alloc);
    write_open(&mut out, config, &[])?;
    Ok(out)
}

/// Opens an agent with the subject's settings on an empty snapshot, and makes the call `look`. The opened agent should
/// then have the same state as the agent in `solo`, which hasn't received any calls yet.
fn open<R: Read, W: Write>(
    alloc: Global,
    pipe: &mut Pipe<R, W>,
    subject: &Subject,
    solo: &World,
) -> Result<TurnOutcome, ConformError>
    requires { IsSolo subject.now.config.now [] solo.now }
    ensures { IfOk result (λ outcome. IfSome (R.remaining pipe.old.reader) (λ input.
        IsTaken (opened_of (is_serf subject.now.rules) subject.now.config.now input) outcome
        (R.remaining pipe.new.reader) (W.contents pipe.old.writer)
        (W.contents pipe.new.writer))) }
{
    let dump = dump_at(alloc, solo)?;
    let text = open_text(alloc, subject.config)?;
    let reply = opening(alloc)?;
    call_and_look(alloc, pipe, subject.rules, Some(dump), &text, &[], &reply)
}

/// Returns the verdict of a comparison that ended at action number `action` for the reason `end`. `tally` contains the
/// counts of the comparison. If the comparison ended at a `look`, `dump` is the state that the agent should have had.
fn verdict_at(action: u64, tally: Tally, dump: Option<StateDump>, end: End) -> Verdict
    ensures { result ≡ verdict_at action tally dump end }
{
    Verdict {
        calls: tally.calls,
        dumps: tally.dumps,
        unsupported_dumps: tally.unsupported,
        action,
        dump,
        end,
    }
}

/// Returns the verdict if `outcome`, the outcome of action number `action`, ends the comparison. Returns `None` if the
/// comparison continues. `tally` contains the counts as they were before the action.
fn ending(outcome: TurnOutcome, action: u64, tally: Tally) -> Option<Verdict>
    requires { HasRoom tally }
    ensures { result ≡ ending_of outcome action tally }
{
    let more = outcome.counted(tally);
    let (dump, end) = match outcome {
        TurnOutcome::Skipped | TurnOutcome::Agrees | TurnOutcome::Looked | TurnOutcome::Unlooked =>
            return None,
        TurnOutcome::OwnRule => (None, End::OwnRule),
        TurnOutcome::Unsupported => (None, End::Unsupported),
        TurnOutcome::Differs(text) => (None, End::Differs(text)),
        TurnOutcome::Ended => (None, End::Ended),
        TurnOutcome::DumpDiffers(dump, text) => (Some(dump), End::Differs(text)),
        TurnOutcome::DumpEnded(dump) => (Some(dump), End::Ended),
    };
    Some(verdict_at(action, more, dump, end))
}

/// Returns the verdict of a comparison in which all calls were made. `dumped` is the outcome of the final `look`, which
/// should have shown the state `dump`. `tally` contains the counts as they were before the final `look`, and `action`
/// is the number of the last action plus one.
fn last_ending(dumped: TurnOutcome, action: u64, tally: Tally, dump: StateDump) -> Verdict
    requires { HasRoom tally }
    ensures { result ≡ last_of dumped action tally dump }
{
    match dumped {
        TurnOutcome::Agrees => {
            let dumps = tally.dumps + 1;
            verdict_at(action, Tally { dumps, ..tally }, None, End::AllAgree)
        }
        TurnOutcome::Unsupported => {
            let more = Tally {
                unsupported: tally.unsupported + 1,
                ..tally
            };
            verdict_at(action, more, None, End::AllAgree)
        }
        TurnOutcome::Differs(text) => verdict_at(action, tally, Some(dump), End::Differs(text)),
        TurnOutcome::Ended | TurnOutcome::DumpEnded(_) => verdict_at(
            action,
            tally,
            Some(dump),
            End::Ended,
        ),
        _ => verdict_at(action, tally, None, End::AllAgree),
    }
}

/// Makes the call `look` after the last call, and returns the verdict. The agent under test should have the same state
/// as the agent in `solo`. `tally` contains the counts as they were before the `look`, and `action` is the number of
/// the last action plus one.
fn dump_last<R: Read, W: Write>(
    alloc: Global,
    pipe: &mut Pipe<R, W>,
    rules: Rules,
    solo: &World,
    action: u64,
    tally: Tally,
) -> Result<Verdict, ConformError>
    requires { HasRoom tally }
    ensures { (agent : ℕ) (config : ConfigOf) (made : List AgentCall) (w : List ℕ)
        (held : Option (List ℕ)) → IsSolo config made solo.now
        → Appends held (W.contents pipe.old.writer) w
        → IfOk result (λ verdict. IfSome (R.remaining pipe.old.reader) (λ input. Concludes
        (session_from (is_serf rules) agent config made action tally w [] input)
        verdict (R.remaining pipe.new.reader) held (W.contents pipe.new.writer))) }
{
    let dump = dump_at(alloc, solo)?;
    let dumped = call_look(alloc, pipe, rules, &dump)?;
    Ok(last_ending(dumped, action, tally, dump))
}

/// Makes the calls that the subject's agent got in `run`, and compares each reply with the expected reply. The agent
/// under test has already been opened with the subject's settings. `solo` is the world of the reference, and `tally`
/// contains the counts as they were after the opening. Returns `OtherTrace` if `run` has fewer lines than actions, or
/// fewer packets than its lines say were sent.
fn compare_turns<R: Read, W: Write>(
    alloc: Global,
    pipe: &mut Pipe<R, W>,
    subject: &Subject,
    solo: &mut World,
    tally: Tally,
    run: &RunView,
) -> Result<Verdict, ConformError>
    requires { IsFew tally 1 }
    ensures { (w : List ℕ) (held : Option (List ℕ)) → IsSolo subject.now.config.now [] solo.old
        → Appends held (W.contents pipe.old.writer) w
        → IfOk result (λ verdict. IfSome (R.remaining pipe.old.reader) (λ input. Concludes
        (session_from (is_serf subject.now.rules) subject.now.agent subject.now.config.now [] 1
        tally w (turns_from 0 run.now.sent.now run.now.actions.now run.now.lines.now) input)
        verdict (R.remaining pipe.new.reader) held (W.contents pipe.new.writer))) }
{
    let (mut actions, mut lines) = (run.actions, run.lines);
    // The next action is action number `number`, and `count` packets were sent before that action.
    let mut number: u64 = 1;
    let mut tally = tally;
    let mut count: usize = 0;
    'turns: loop {
        match actions {
            [] => return dump_last(alloc, pipe, subject.rules, solo, number, tally),
            [action, actions_left @ ..] => match lines {
                [] => return Err(ConformError::OtherTrace),
                [line, lines_left @ ..] => {
                    let turn = TurnView {
                        action,
                        line,
                        sent: run.sent,
                        count,
                    };
                    let due = follow_turn(alloc, solo, subject.agent, &turn)?;
                    let outcome = compare_turn(alloc, pipe, subject, due, &turn)?;
                    let more = outcome.counted(tally);
                    if let Some(verdict) = ending(outcome, number, tally) {
                        return Ok(verdict);
                    }
                    tally = more;
                    number += 1;
                    count += line.sent.as_slice().len();
                    actions = actions_left;
                    lines = lines_left;
                }
            },
        }
    }
}

/// Compares the agent at the other end of the pipe with the reference. The function opens the agent on an empty
/// snapshot with the subject's settings, and makes the calls that the subject's agent got in `trace`, the trace of
/// `actions`. The function compares each reply with the expected reply by meaning ([`crate::line_means`]).
///
/// The function also makes the call `look` after the opening, after each refusal, restart or compaction, and after the
/// last call. At each `look`, the agent should have the same state as the reference has after the same calls
/// ([`judge_dump`]). A reply of `unsupported` to a `look` is counted, but has no other effect.
///
/// The function writes a call only after it has read the reply to the previous call, and only if that reply agrees. A
/// delivery or a merge isn't a call if the packet that it names hasn't been sent. Unless the agent has ended, the
/// function has read exactly the replies to its calls, so the next `hold` on this pipe can open the agent again.
/// Returns `NoAgent` if the settings are out of bounds. If the function returns an error, the agent may have received
/// only part of a call.
///
/// [`judge_dump`]: crate::judge_dump
pub fn hold<R: Read, W: Write>(
    alloc: Global,
    pipe: &mut Pipe<R, W>,
    subject: &Subject,
    actions: &[Action],
    trace: &Trace,
) -> Result<Verdict, ConformError>
    // The agent's output determines the verdict, the calls that are written, and the input that is left unread.
    ensures { IfOk result (λ verdict. IfSome (R.remaining pipe.old.reader) (λ input. Concludes
        (session (is_serf subject.now.rules) subject.now.agent subject.now.config.now
        (turns_of actions.now (outcome_of trace.now)) input) verdict (R.remaining pipe.new.reader)
        (W.contents pipe.old.writer) (W.contents pipe.new.writer))) }
{
    let mut solo = open_solo(alloc, subject.config)?;
    let outcome = open(alloc, pipe, subject, &solo)?;
    let none = Tally {
        calls: 0,
        dumps: 0,
        unsupported: 0,
    };
    let tally = outcome.counted(none);
    if let Some(verdict) = ending(outcome, 0, none) {
        return Ok(verdict);
    }
    let (lines, sent) = (trace.lines.as_slice(), trace.sent.as_slice());
    let run = RunView {
        actions,
        lines,
        sent,
    };
    compare_turns(alloc, pipe, subject, &mut solo, tally, &run)
}
