//! Writes the lines that contain the reasons for an action. A merge has one line for each event in the merged state. An
//! action that isn't a merge has a single line.

ghost use Rattle.std.specs.Prelude.{◌≡◌, ◌+◌, ◌++◌, ◌∷◌, [], true, Ok, OnOk, List, ℕ, Some, length};
ghost use Rattle.std.specs.List.{flat_map};
ghost use Rattle.serf_wire.specs.Decoded.{decoded};
ghost use Rattle.serf_wire.specs.Message.{PushPull, message_of};
ghost use Rattle.serf_agent.specs.Sound.{IsSound};
ghost use Rattle.serf_agent.specs.View.{view_of};
ghost use Rattle.serf_agent.specs.Ideal.{IdealAgent};
ghost use Rattle.serf_model.specs.Cluster.{Cluster};
ghost use Rattle.serf_model.specs.declared.line.Line.{Line};
ghost use Rattle.serf_model.specs.Ready.{AreRepresentable};
ghost use Rattle.serf_model.specs.Trace.{packet_given};
ghost use Rattle.serf_world.specs.View.{IsViewed};
ghost use Rattle.serf_explain.specs.Because.{AddsReasons, AddsSome, AddsSuch, because_line};
ghost use Rattle.serf_explain.specs.Carried.{Known, TellsMerged, raised_reasons};
ghost use Rattle.serf_explain.specs.Explained.{TellsAll};
ghost use Rattle.serf_explain.specs.Deliveries.{records_from, records_in};
ghost use Rattle.serf_explain.specs.Judging.{AddsMerge, IsMerging, TellsText, merged_of};
ghost use Rattle.serf_explain.specs.Leaving.{HoldMarks, IsMark, state_event_clock, hears_nothing, numbers_of, unheard_min};
ghost use Rattle.serf_explain.specs.Recorded.{message_given};

use crate::answers::write_reason;
use crate::history::History;
use crate::marks::bytes_kept;
use crate::merge_line::Merging;
use crate::merge_reasons::{MergeLines, add_carried_lines};
use crate::quoted::{say, write_because};
use crate::refusals::write_sink_error;
use crate::seen::write_delivery_ignored;
use crate::turn_context::{Actor, TurnContext, actor_at, message_of};
use serf_agent::Agent;
use serf_model::{Act, Action, Answer, Refusal, packet_at};
use serf_snapshot::MemorySink;
use serf_text::split_once;
use serf_wire::{Message, decode};
use serf_world::World;
use std::alloc::{AllocError, Global};

/// A length in bytes that is sufficient for most reasons.
pub(crate) const USUAL_BYTES: usize = 160;

/// The words that end the reason for a new event in a merge. No other reason ends with these words.
const NEW_WORDS: &[u8] = b"new, and handed out";

/// If `message` is a state, which the agent is about to merge, adds to `lines` a line for each event in the state. If
/// `message` is anything else, the function adds nothing.
fn add_message(
    alloc: Global,
    merging: &Merging,
    message: &Message,
    is_join: bool,
    lines: &mut MergeLines,
) -> Result<(), AllocError>
    ensures { (k : Known) (i : IdealAgent) → IsMerging k i merging.now
        → OnOk result (AddsMerge k merging.now.number i is_join
        (Ok (message_of message.now)) lines.new.raised
        lines.old.text.items lines.new.text.items) }
{
    match message {
        Message::PushPull(state) => {
            let (clock, slots) = (state.event_clock, state.slots);
            add_carried_lines(alloc, merging, clock, slots, is_join, lines)
        }
        Message::UserEvent(_)
        | Message::Query(_)
        | Message::QueryResponse(_)
        | Message::Foreign(_) => Ok(()),
    }
}

/// Adds to `lines` a line for each event in the state that `packet` contains and that is about to be merged. If the
/// packet doesn't contain a state, the function adds nothing.
fn add_packet(
    alloc: Global,
    merging: &Merging,
    packet: &[u8],
    is_join: bool,
    lines: &mut MergeLines,
) -> Result<(), AllocError>
    ensures { (k : Known) (i : IdealAgent) → IsMerging k i merging.now
        → OnOk result
        (AddsMerge k merging.now.number i is_join (decoded packet.now)
        lines.new.raised lines.old.text.items lines.new.text.items) }
{
    match decode(packet) {
        Ok(message) => add_message(alloc, merging, &message, is_join, lines),
        Err(_) => Ok(()),
    }
}

/// Adds to `lines` a line for each event in the state that `packet` contains. Action number `number` is about to merge
/// this state into `agent`, whose number is `agent_number`.
fn add_merge(
    alloc: Global,
    history: &History,
    number: u64,
    agent_number: u64,
    agent: &Agent<MemorySink>,
    packet: &[u8],
    is_join: bool,
    lines: &mut MergeLines,
) -> Result<(), AllocError>
    ensures { (before : List ℕ) (n : ℕ) (i : IdealAgent) (earlier : List Line) → IsSound i
        → agent.now.concrete ≡ view_of i
        → IsMark before n (numbers_of history.now.marks agent_number).event_minimum
        → records_in history.now.deliveries.outs.items ≡ records_from 1 earlier
        → number ≡ length before + 1 → number ≡ length earlier + 1
        → OnOk result (AddsMerge (record {
          agent = agent_number;
          before = before ++ n ∷ [];
          lines = earlier;
          entered = length i.events.history;
        }) number i is_join
        (decoded packet.now) lines.new.raised lines.old.text.items lines.new.text.items) }
{
    let merging = Merging::new(alloc, history, number, agent_number, agent)?;
    add_packet(alloc, &merging, packet, is_join, lines)
}

/// Adds to `lines` a line for each event in the state that packet number `packet` contains. The state is about to be
/// merged into agent number `agent`.
fn add_merge_at(
    alloc: Global,
    world: &World,
    history: &History,
    number: u64,
    agent: u64,
    packet: u64,
    join: bool,
    lines: &mut MergeLines,
) -> Result<(), AllocError>
    ensures { (earlier : List Line) (before : List Cluster) (c : Cluster) → IsViewed c world.now
        → AreRepresentable c → HoldMarks before c history.now.marks
        → records_in history.now.deliveries.outs.items ≡ records_from 1 earlier
        → number ≡ length before + 1 → number ≡ length earlier + 1
        → lines.old.text.items ≡ [] → OnOk result
        (TellsText number earlier (before ++ c ∷ []) c (Action.Of agent (Act.Merge packet join))
        lines.new.raised lines.new.text.items) }
{
    match world.agent(agent) {
        Some(at) => match packet_at(world.sent(), packet) {
            Some(bytes) => add_merge(alloc, history, number, agent, at, bytes, join, lines),
            None => Ok(()),
        },
        None => Ok(()),
    }
}

/// Replaces `lines` with the lines for the events in the state that `action` is about to merge. If the action isn't a
/// merge, `lines` becomes empty.
#[tactic(auto, using(crate::proofs::MergeLaws::told_of))]
pub(crate) fn lines_before(
    alloc: Global,
    world: &World,
    history: &History,
    number: u64,
    action: &Action,
    lines: &mut MergeLines,
) -> Result<(), AllocError>
    ensures { (earlier : List Line) (before : List Cluster) (c : Cluster) → IsViewed c world.now
        → AreRepresentable c → HoldMarks before c history.now.marks
        → records_in history.now.deliveries.outs.items ≡ records_from 1 earlier
        → number ≡ length before + 1 → number ≡ length earlier + 1 → OnOk result
        (TellsText number earlier (before ++ c ∷ []) c action.now lines.new.raised
        lines.new.text.items) }
{
    lines.text.clear();
    lines.raised = None;
    match action {
        Action::Of { agent, act } => match act {
            Act::Merge { packet, join } => {
                add_merge_at(alloc, world, history, number, *agent, *packet, *join, lines)
            }
            _ => Ok(()),
        },
        Action::Inject { .. } => Ok(()),
    }
}

/// Appends the line that contains `reason`, a reason for action number `number`.
fn write_one(out: &mut Vec<u8>, number: u64, reason: &[u8]) -> Result<(), AllocError>
    ensures { OnOk result (AddsSome number out.old.items out.new.items) }
{
    write_because(out, number, reason)
}

/// Appends the line that contains the only reason for an action.
pub(crate) fn write_lone(
    alloc: Global,
    out: &mut Vec<u8>,
    context: &TurnContext,
) -> Result<(), AllocError>
    ensures { OnOk result (AddsSome context.now.number out.old.items out.new.items) }
{
    let mut reason = Vec::with_capacity(alloc, USUAL_BYTES)?;
    write_reason(&mut reason, context)?;
    write_one(out, context.number, reason.as_slice())
}

/// If a join raises the minimum for events to `raised`, appends a line that states the new minimum. If `raised` is
/// `None`, the function appends nothing.
fn write_raised(
    alloc: Global,
    out: &mut Vec<u8>,
    number: u64,
    raised: Option<u64>,
) -> Result<(), AllocError>
    ensures { OnOk result (out.new.items
        ≡ out.old.items ++ flat_map (because_line number) (raised_reasons raised)) }
{
    let Some(lowest) = raised else {
        return Ok(());
    };
    let mut reason = Vec::with_capacity(alloc, USUAL_BYTES)?;
    say(
        &mut reason,
        b"the join ignores old events: the minimum time rises to ",
        lowest,
    )?;
    write_because(out, number, &reason)
}

/// Appends `lines`, the lines for the events in a merged state. If `lines` is empty, the function appends a line
/// stating that the state carries no event.
fn write_events(out: &mut Vec<u8>, number: u64, lines: &[u8]) -> Result<(), AllocError>
    ensures { (carried : List (List ℕ)) → lines.now ≡ flat_map (because_line number) carried
        → OnOk result (out.new.items
        ≡ out.old.items ++ flat_map (because_line number) (merged_of carried)) }
{
    if lines.len() == 0 {
        return write_because(out, number, b"the state carries no event");
    }
    out.extend_from_slice(lines)?;
    Ok(())
}

/// Appends the lines about a completed merge. If the merge raised the minimum for events to `raised`, the first line
/// states the new minimum. The lines about the state's events, which are in `lines`, follow.
#[tactic(auto, using(crate::proofs::CarriedLaws::adds_merged))]
fn write_merged(
    alloc: Global,
    out: &mut Vec<u8>,
    number: u64,
    raised: Option<u64>,
    lines: &[u8],
) -> Result<(), AllocError>
    ensures { (carried : List (List ℕ)) → lines.now ≡ flat_map (because_line number) carried
        → OnOk result (AddsSuch (TellsMerged raised carried) number out.old.items out.new.items) }
{
    write_raised(alloc, out, number, raised)?;
    write_events(out, number, lines)
}

/// Returns the reason in `line`, that is, the part that follows the number and the word `because`.
fn reason_in(line: &[u8]) -> &[u8] {
    let (_number, rest) = split_once(line, b' ');
    match rest {
        Some(said) => match said.strip_prefix(b"because ") {
            Some(reason) => reason,
            None => said,
        },
        None => line,
    }
}

/// Appends the line that contains `reason`. If `reason` is empty, as it is after the last line of a merge, the function
/// appends nothing.
fn write_again(out: &mut Vec<u8>, number: u64, reason: &[u8]) -> Result<(), AllocError>
    ensures { OnOk result (AddsReasons number out.old.items out.new.items) }
{
    if reason.len() == 0 {
        return Ok(());
    }
    write_one(out, number, reason)
}

/// Returns the reason for the event at which the disk failed. `new` is the reason that the event would have had if the
/// disk had worked, which states that the event is new.
fn failed_reason(alloc: Global, actor: &Actor, new: &[u8]) -> Result<Vec<u8>, AllocError> {
    let mut reason = Vec::new(alloc);
    reason.extend_from_slice(new)?;
    reason.truncate(new.len().saturating_sub(NEW_WORDS.len()));
    reason.extend_from_slice(b"new, but ")?;
    write_sink_error(&mut reason, actor)?;
    Ok(reason)
}

/// Appends a line for each event in a state, up to the event at which the disk failed.
fn write_events_until_failure(
    alloc: Global,
    out: &mut Vec<u8>,
    context: &TurnContext,
    actor: &Actor,
) -> Result<(), AllocError>
    ensures { OnOk result (AddsSome context.now.number out.old.items out.new.items) }
{
    let mut handed = context.line.events.as_slice().len();
    for line in context.carried.split(|byte| *byte == b'\n') {
        let reason = reason_in(line);
        if reason.ends_with(NEW_WORDS) {
            if handed == 0 {
                let reason = failed_reason(alloc, actor, reason)?;
                return write_one(out, context.number, &reason);
            }
            handed -= 1;
        }
        write_again(out, context.number, reason)?;
    }
    write_lone(alloc, out, context)
}

/// Returns whether an agent wrote nothing in a merge in which it has to write the line with the minimum for events
/// first.
fn hears_nothing(actor: &Actor, is_join: bool) -> bool
    ensures { (p : PushPull) → result ≡ hears_nothing actor.now.agent.now.concrete
        actor.now.before.durable is_join p }
{
    let (config, before) = (actor.agent.config(), actor.before.durable);
    config.keep_events && is_join && config.ignore_old && bytes_kept(actor.agent) == before
}

/// Returns the event clock of the state if `message` is a state, and `None` otherwise.
fn state_event_clock(message: &Message) -> Option<u64>
    ensures { result ≡ state_event_clock (Some (message_of message.now)) }
{
    match message {
        Message::PushPull(state) => Some(state.event_clock),
        Message::UserEvent(_)
        | Message::Query(_)
        | Message::QueryResponse(_)
        | Message::Foreign(_) => None,
    }
}

/// If the disk failed at the line with the minimum for events, so that the agent processed no part of the state,
/// returns this minimum.
fn unheard_min(context: &TurnContext, actor: &Actor) -> Option<u64>
    ensures { result ≡ unheard_min actor.now.agent.now.concrete actor.now.before.durable
        actor.now.act.now (message_given
        (packet_given context.now.world.now.sent context.now.action.now)) }
{
    let Act::Merge { join, .. } = actor.act else {
        return None;
    };
    if !hears_nothing(actor, *join) {
        return None;
    }
    match message_of(context) {
        Some(message) => state_event_clock(&message),
        None => None,
    }
}

/// Returns the reason for a merge in which the agent processed no part of a state because the disk failed at the line
/// with the minimum for events, which is `lowest`.
fn unheard_reason(alloc: Global, actor: &Actor, lowest: u64) -> Result<Vec<u8>, AllocError> {
    let mut reason = Vec::with_capacity(alloc, USUAL_BYTES)?;
    say(
        &mut reason,
        b"nothing of the state was heard of: at the line of the minimum time ",
        lowest,
    )?;
    reason.extend_from_slice(b" ")?;
    write_sink_error(&mut reason, actor)?;
    Ok(reason)
}

/// Appends the reasons for a merge during which the disk failed. If the agent processed no part of the state, the only
/// reason states exactly this fact. If the agent processed a part of the state, there is a reason for each event up to
/// the event at which the disk failed. If the minimum for events rose, a reason that states the new minimum precedes
/// the reasons for the events.
#[tactic(auto, using(crate::proofs::ReasonLaws::adds_raised))]
fn write_broken_merge(
    alloc: Global,
    out: &mut Vec<u8>,
    context: &TurnContext,
    actor: &Actor,
) -> Result<(), AllocError>
    ensures { OnOk result (AddsSome context.now.number out.old.items out.new.items) }
{
    match unheard_min(context, actor) {
        Some(lowest) => {
            let reason = unheard_reason(alloc, actor, lowest)?;
            write_one(out, context.number, &reason)
        }
        None => {
            write_raised(alloc, out, context.number, context.raised)?;
            write_events_until_failure(alloc, out, context, actor)
        }
    }
}

/// If the action is a merge that ended because the agent's disk failed, returns the agent, and otherwise `None`.
fn failed_actor<'a>(context: &TurnContext<'a>) -> Option<Actor<'a>> {
    let Action::Of { agent, act } = context.action else {
        return None;
    };
    match (act, context.line.answer) {
        (Act::Merge { .. }, Answer::Refused(Refusal::SinkError)) => actor_at(context, *agent, act),
        _ => None,
    }
}

/// Appends a line for each of the reasons for an action that didn't merge a whole state.
fn write_unmerged(alloc: Global, out: &mut Vec<u8>, context: &TurnContext) -> Result<(), AllocError>
    ensures { OnOk result (AddsSome context.now.number out.old.items out.new.items) }
{
    match failed_actor(context) {
        Some(actor) => write_broken_merge(alloc, out, context, &actor),
        None => write_lone(alloc, out, context),
    }
}

/// Appends a line for each reason that an action has. Every action has at least one reason.
#[tactic(auto, using(crate::proofs::LeftLaws::tells_ignored))]
pub(crate) fn write_reasons(
    alloc: Global,
    out: &mut Vec<u8>,
    context: &TurnContext,
) -> Result<(), AllocError>
    ensures { (carried : List (List ℕ))
        → context.now.carried.now ≡ flat_map (because_line context.now.number) carried
        → OnOk result (AddsSuch (TellsAll true context.now.raised carried context.now.past.now
        context.now.number context.now.world.now context.now.action.now context.now.line.now)
        context.now.number out.old.items out.new.items) }
{
    match context.line.answer {
        Answer::Merged => write_merged(alloc, out, context.number, context.raised, context.carried),
        Answer::Ignored(reason) => write_delivery_ignored(alloc, out, context, reason),
        _ => write_unmerged(alloc, out, context),
    }
}
