//! Writes the text of a trace. Each action has at least one line, and its lines begin with the number of the action.

ghost use Rattle.std.specs.Prelude.{◌≡◌, ◌+◌, ◌++◌, OnOk, IfOk, codes, decimal};
ghost use Rattle.std.specs.List.{flat_map};
ghost use Rattle.std.specs.Option.{option_to_list};
ghost use Rattle.serf_model.specs.Trace.{outcome_of};
ghost use Rattle.serf_schedule.specs.Show.{answer_words, answer_details, answer_text, after_space, error_details, packet_of, answer_line, sent_line, event_line, spaced, texts_text, identity_text, handed_line, action_text, trace_text};

use itoa::Buffer;
use serf_agent::Reason;
use serf_model::{Action, Answer, Boxed, EventLine, Line, QueryLine, Refusal, Trace};
use serf_text::{write_hex, write_number, write_wire_error};
use serf_wire::Bytes;
use serf_world::{Turns, World};
use std::alloc::{AllocError, Global};

/// Returns the words of the answer to a packet that is ignored for `reason`.
fn ignored_words(reason: Reason) -> &'static [u8]
    ensures { result.now ≡ answer_words (Answer.Ignored reason) }
{
    match reason {
        Reason::Oversize => b"ignored Oversize",
        Reason::BelowMinimum => b"ignored BelowMinimum",
        Reason::TooOld => b"ignored TooOld",
        Reason::Seen => b"ignored Seen",
        Reason::TimeFull => b"ignored TimeFull",
        Reason::NotOpen => b"ignored NotOpen",
        Reason::OtherId => b"ignored OtherId",
        Reason::Closed => b"ignored Closed",
        Reason::AckNotRequested => b"ignored AckNotAsked",
        Reason::AckTwice => b"ignored AckTwice",
        Reason::ResponseTwice => b"ignored ResponseTwice",
    }
}

/// Returns the words of the answer to an action that is refused with `refusal`.
fn refused_words(refusal: Refusal) -> &'static [u8]
    ensures { result.now ≡ answer_words (Answer.Refused refusal) }
{
    match refusal {
        Refusal::NoAgent => b"refused NoAgent",
        Refusal::NoMessage => b"refused NoMessage",
        Refusal::NoQuery => b"refused NoQuery",
        Refusal::Stopped => b"refused Stopped",
        Refusal::TooLarge => b"refused TooLarge",
        Refusal::TooLong => b"refused TooLong",
        Refusal::Exhausted => b"refused Exhausted",
        Refusal::ZeroTimeout => b"refused ZeroTimeout",
        Refusal::PastDeadline => b"refused PastDeadline",
        Refusal::NotPushPull => b"refused NotPushPull",
        Refusal::RespondersFull => b"refused RespondersFull",
        Refusal::SinkError => b"refused SinkFault",
        Refusal::Wire(_) => b"refused Wire",
    }
}

/// Returns the words of `answer`: its text without numbers, and without the error of a packet. Allocates no memory.
pub fn answer_words(answer: &Answer) -> &'static [u8]
    ensures { result.now ≡ answer_words answer.now }
{
    match answer {
        Answer::Fired(_) => b"fired",
        Answer::New => b"new",
        Answer::Query => b"query",
        Answer::Ack => b"ack",
        Answer::Response => b"response",
        Answer::Ignored(reason) => ignored_words(*reason),
        Answer::Foreign(_) => b"foreign",
        Answer::PushPull => b"push-pull",
        Answer::State => b"state",
        Answer::Merged => b"merged",
        Answer::Queried(_) => b"queried",
        Answer::Replied => b"replied",
        Answer::Broken => b"broken",
        Answer::Injected => b"injected",
        Answer::Saved => b"saved",
        Answer::Compacted => b"compacted",
        Answer::Restarted { .. } => b"restarted",
        Answer::Closed(_) => b"closed",
        Answer::Refused(refusal) => refused_words(*refusal),
    }
}

/// Appends a space.
#[inline(always)]
fn write_space(out: &mut Vec<u8>) -> Result<(), AllocError>
    ensures { OnOk result (out.new.items ≡ out.old.items ++ codes " ") }
{
    out.push(b' ')?;
    Ok(())
}

/// Appends a newline.
#[inline(always)]
fn end_line(out: &mut Vec<u8>) -> Result<(), AllocError>
    ensures { OnOk result (out.new.items ≡ out.old.items ++ codes "\n") }
{
    out.push(b'\n')?;
    Ok(())
}

/// Appends a space and `n` in decimal.
#[tactic(auto, unfolding(crate::specs::Show::after_space))]
fn write_after_space(out: &mut Vec<u8>, n: u64) -> Result<(), AllocError>
    ensures { OnOk result (out.new.items ≡ out.old.items ++ after_space n) }
{
    write_space(out)?;
    write_number(out, n)
}

/// Appends the three clocks that an agent has after a restart, each after a space.
fn write_clocks(
    out: &mut Vec<u8>,
    member_clock: u64,
    event_clock: u64,
    query_clock: u64,
) -> Result<(), AllocError>
    ensures { OnOk result (out.new.items ≡ out.old.items
        ++ answer_details (Answer.Restarted member_clock event_clock query_clock)) }
{
    write_after_space(out, member_clock)?;
    write_after_space(out, event_clock)?;
    write_after_space(out, query_clock)
}

/// Appends a space and the error of a packet if `refusal` has one. Otherwise, the function appends nothing.
fn write_error_details(out: &mut Vec<u8>, refusal: Refusal) -> Result<(), AllocError>
    ensures { OnOk result (out.new.items ≡ out.old.items ++ error_details refusal) }
{
    match refusal {
        Refusal::Wire(error) => {
            write_space(out)?;
            write_wire_error(out, error)
        }
        _ => Ok(()),
    }
}

/// Appends `answer`: its words, and then its numbers or the error of a packet, each after a space. Returns `AllocError`
/// if there is no memory for this text. In that case, `out` may have a prefix of it.
#[inline(always)]
pub fn write_answer(out: &mut Vec<u8>, answer: Answer) -> Result<(), AllocError>
    ensures { OnOk result (out.new.items ≡ out.old.items ++ answer_text answer) }
{
    out.extend_from_slice(answer_words(&answer))?;
    match answer {
        Answer::Fired(time) | Answer::Queried(time) => write_after_space(out, time.get()),
        Answer::Foreign(kind) => write_after_space(out, u64::from(kind)),
        Answer::Restarted {
            member_clock,
            event_clock,
            query_clock,
        } => write_clocks(out, member_clock, event_clock, query_clock),
        Answer::Closed(count) => write_after_space(out, count),
        Answer::Refused(refusal) => write_error_details(out, refusal),
        _ => Ok(()),
    }
}

/// The number of an action, counted from 1, and its decimal digits. All lines of the action begin with these digits.
#[derive(Clone, Copy)]
struct Spelled<'a> {
    number: u64,
    digits: &'a [u8],
    pub ghost spells: { digits.now ≡ decimal number },
}

/// Returns packet number `k` of `sent`, counted from 0, or no bytes if `sent` doesn't have that many packets.
fn packet(sent: &[Bytes], k: u64) -> &[u8]
    ensures { result.now ≡ packet_of sent.now k }
{
    match sent.get(k as usize) {
        Some(bytes) => bytes.as_slice(),
        None => &[],
    }
}

/// Appends the line for packet number `k` of `sent`, which `action` sent.
#[tactic(auto, unfolding(crate::specs::Show::sent_line))]
fn write_sent_line(
    out: &mut Vec<u8>,
    sent: &[Bytes],
    action: Spelled,
    k: u64,
) -> Result<(), AllocError>
    ensures { OnOk result (out.new.items ≡ out.old.items
        ++ sent_line sent.now action.entry.number k) }
{
    out.extend_from_slice(action.digits)?;
    out.extend_from_slice(b" sent ")?;
    write_number(out, k)?;
    write_space(out)?;
    write_hex(out, packet(sent, k))?;
    end_line(out)
}

/// Appends `n` in decimal and a space.
#[tactic(auto, unfolding(crate::specs::Show::spaced))]
fn write_spaced(out: &mut Vec<u8>, n: u64) -> Result<(), AllocError>
    ensures { OnOk result (out.new.items ≡ out.old.items ++ spaced n) }
{
    write_number(out, n)?;
    write_space(out)
}

/// Appends `name` and `payload` in hex, with a space between them.
#[tactic(auto, unfolding(crate::specs::Show::texts_text))]
fn write_texts(out: &mut Vec<u8>, name: &[u8], payload: &[u8]) -> Result<(), AllocError>
    ensures { OnOk result (out.new.items ≡ out.old.items ++ texts_text name.now payload.now) }
{
    write_hex(out, name)?;
    write_space(out)?;
    write_hex(out, payload)
}

/// Appends the line for `event`, which `action` handed out.
#[tactic(auto, unfolding(crate::specs::Show::event_line, crate::specs::Show::event_tail))]
fn write_event_line(out: &mut Vec<u8>, action: Spelled, event: &EventLine) -> Result<(), AllocError>
    ensures { OnOk result (out.new.items ≡ out.old.items
        ++ event_line action.entry.number event.now) }
{
    out.extend_from_slice(action.digits)?;
    out.extend_from_slice(b" event ")?;
    write_spaced(out, event.agent)?;
    write_spaced(out, event.time.get())?;
    write_texts(out, event.name.as_slice(), event.payload.as_slice())?;
    out.extend_from_slice(if event.coalesce { b" 1\n" } else { b" 0\n" })
}

/// Appends the words that identify `query`: the agent that handed it out, its number at this agent, its time and its
/// ID. Each word is followed by a space.
#[tactic(auto, unfolding(crate::specs::Show::identity_text))]
fn write_identity(out: &mut Vec<u8>, query: &QueryLine) -> Result<(), AllocError>
    ensures { OnOk result (out.new.items ≡ out.old.items ++ identity_text query.now) }
{
    write_spaced(out, query.agent)?;
    write_spaced(out, query.index)?;
    write_spaced(out, query.time.get())?;
    write_spaced(out, u64::from(query.id))
}

/// Appends the line for `query`, which `action` handed out.
#[tactic(auto, unfolding(crate::specs::Show::handed_line))]
fn write_handed_line(
    out: &mut Vec<u8>,
    action: Spelled,
    query: &QueryLine,
) -> Result<(), AllocError>
    ensures { OnOk result (out.new.items ≡ out.old.items
        ++ handed_line action.entry.number query.now) }
{
    out.extend_from_slice(action.digits)?;
    out.extend_from_slice(b" handed ")?;
    write_identity(out, query)?;
    write_texts(out, query.name.as_slice(), query.payload.as_slice())?;
    end_line(out)
}

/// Appends a line for each of `packets`, which are the numbers of the packets in `sent` that `action` sent.
#[inline(always)]
fn write_sent_lines(
    out: &mut Vec<u8>,
    sent: &[Bytes],
    action: Spelled,
    packets: &[u64],
) -> Result<(), AllocError>
    ensures { OnOk result (out.new.items ≡ out.old.items
        ++ flat_map (sent_line sent.now action.entry.number) packets.now) }
{
    for k in packets {
        write_sent_line(out, sent, action, *k)?;
    }
    Ok(())
}

/// Appends a line for each of `events`, which `action` handed out.
#[inline(always)]
fn write_event_lines(
    out: &mut Vec<u8>,
    action: Spelled,
    events: &[EventLine],
) -> Result<(), AllocError>
    ensures { OnOk result (out.new.items ≡ out.old.items
        ++ flat_map (event_line action.entry.number) events.now) }
{
    for event in events {
        write_event_line(out, action, event)?;
    }
    Ok(())
}

/// Appends the lines of action number `number`. `line` is the result of the action, and `sent` are all packets that
/// were sent up to and including this action. Returns `AllocError` if there is no memory for the lines. In that case,
/// `out` may have a prefix of them.
#[tactic(auto, unfolding(crate::specs::Show::action_text, crate::specs::Show::answer_line))]
#[inline(always)]
pub fn write_action(
    out: &mut Vec<u8>,
    sent: &[Bytes],
    number: u64,
    line: &Line,
) -> Result<(), AllocError>
    ensures { OnOk result (out.new.items ≡ out.old.items ++ action_text sent.now number line.now) }
{
    let mut buffer = Buffer::new();
    let action = Spelled {
        number,
        digits: buffer.format(number).as_bytes(),
    };
    out.extend_from_slice(action.digits)?;
    write_space(out)?;
    write_answer(out, line.answer)?;
    end_line(out)?;
    write_sent_lines(out, sent, action, line.sent.as_slice())?;
    write_event_lines(out, action, line.events.as_slice())?;
    match &line.handed {
        Some(query) => write_handed_line(out, action, query.get()),
        None => Ok(()),
    }
}

/// Returns the text of `trace`: the lines of its actions, which are counted from 1.
///
/// An action has a line for its answer, one for each packet that it sent, one for each event that it handed out, and
/// one for the query that it handed out, if any. Each line begins with the number of the action. Bytes are in lower
/// case hex; an empty list of bytes is `-`. Returns `AllocError` only if there is no memory for the text.
pub fn show_trace(alloc: Global, trace: &Trace) -> Result<Vec<u8>, AllocError>
    ensures { IfOk result (λ text. text.items ≡ trace_text (outcome_of trace.now)) }
{
    let mut out = Vec::new(alloc);
    let mut number: u64 = 0; // the number of the action, counted from 1
    for line in trace.lines.as_slice() {
        number += 1;
        write_action(&mut out, trace.sent.as_slice(), number, line)?;
    }
    Ok(out)
}

/// A reporter whose text is the trace of the run.
#[derive(Drop)]
pub struct TraceText;

impl Turns for TraceText {
    ghost use Rattle.serf_schedule.specs.TraceText.{tells_trace};

    type Options = ();

    type Seen = ();

    ghost told = { λ options t configs actions text. tells_trace configs actions text };

    ghost saw = { λ options t seen configs actions action text. tells_trace configs actions text };

    ghost streams = { λ options. Unit {0} };

    fn begin(&mut self, _alloc: Global, _world: &World, _agents: u64) -> Result<(), AllocError> {
        Ok(())
    }

    fn inspect(
        &mut self,
        _alloc: Global,
        _world: &World,
        _number: u64,
        _action: &Action,
    ) -> Result<(), AllocError> {
        Ok(())
    }

    fn tell(
        &mut self,
        _alloc: Global,
        world: &World,
        number: u64,
        _action: &Action,
        line: Line,
        _seen: (),
        out: &mut Vec<u8>,
    ) -> Result<(), AllocError> {
        write_action(out, world.sent(), number, &line)
    }
}
