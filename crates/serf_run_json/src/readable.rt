//! Writes a run in a form that people can read easily. Each action has a line that contains the name of the agent and
//! the answer. After this line, there is a line in words for each packet that the action sent, and a line for each
//! event or query that it handed out.

ghost use Rattle.std.specs.Prelude.{◌≡◌, ◌<◌, ◌≤◌, ◌+◌, ◌-◌, ◌^◌, ◌++◌, List, ℕ, Ok, Err, IfErr, IfSome, IsErrOf, OnOk, codes, length, min};
ghost use Rattle.std.specs.List.{flat_map};
ghost use Rattle.std.specs.Option.{option_to_list};
ghost use Rattle.std.specs.Io.KnownBytes.{Appends, Consumes, IsAtEnd};
ghost use Rattle.serf_wire.specs.Lists.{events_left, slot_of_view, slots_left};
ghost use Rattle.serf_wire.specs.Message.{message_of};
ghost use Rattle.serf_model.specs.Trace.{actor_of};
ghost use Rattle.serf_text.specs.Io.{AppendsFront};
ghost use Rattle.serf_schedule.specs.Show.{packet_of};
ghost use Rattle.serf_run_json.specs.Members.{settings_of};
ghost use Rattle.serf_run_json.specs.Readable.{IsHalted, action_text, actor_text, agent_text, arguments_text, call_line, call_text, count_in as count_of_slot, event_count as count_of_slots, event_line, message_words, packet_words, query_line, readable_of, sent_line};

use crate::acts::call_word;
use serf_model::{Act, Action, EventLine, Line, QueryLine, packet_at};
use serf_schedule::{ReplayError, Run, Watch, report_input, write_answer};
use serf_text::Part::{Number, Quoted};
use serf_text::{
    Cause, MAX_SCHEDULE_BYTES, StreamError, report_lines, write_number, write_template,
};
use serf_wire::{EventViews, Message, SlotView, SlotViews, decode};
use serf_world::{Turns, World};
use std::alloc::{AllocError, Global};
use std::io::{Read, Write};

/// Appends a space and the name of agent number `number` in quotes. If no agent has this number, appends the number
/// itself instead of a name.
fn write_agent(out: &mut Vec<u8>, world: &World, number: u64) -> Result<(), AllocError>
    ensures { OnOk result (out.new.items ≡ out.old.items
        ++ agent_text (settings_of world.now) number) }
{
    match world.agent(number) {
        Some(agent) => write_template(out, b" ~", &[Quoted(agent.config().name.as_slice())]),
        None => write_template(out, b" agent ~", &[Number(number)]),
    }
}

/// Appends the name or number of the agent that acts, as [`write_agent`] does. For an injection, in which no agent
/// acts, appends nothing.
fn write_actor(out: &mut Vec<u8>, world: &World, actor: Option<u64>) -> Result<(), AllocError>
    ensures { OnOk result (out.new.items ≡ out.old.items
        ++ actor_text (settings_of world.now) actor) }
{
    match actor {
        Some(number) => write_agent(out, world, number),
        None => Ok(()),
    }
}

/// Appends the arguments of an agent's act, each preceded by a space.
fn write_arguments(out: &mut Vec<u8>, act: &Act) -> Result<(), AllocError>
    ensures { OnOk result (out.new.items ≡ out.old.items ++ arguments_text act.now) }
{
    match act {
        Act::Fire { name, payload, .. } => {
            let texts = [Quoted(name.as_slice()), Quoted(payload.as_slice())];
            write_template(out, b" ~ ~", &texts)
        }
        Act::Query(query) => {
            let (name, payload) = (query.get().name.as_slice(), query.get().payload.as_slice());
            write_template(out, b" ~ ~", &[Quoted(name), Quoted(payload)])
        }
        Act::Deliver { packet, .. } => write_template(out, b" packet ~", &[Number(*packet)]),
        Act::Merge { packet, join } => {
            let words: &[u8] = if *join {
                b" packet ~ in a join"
            } else {
                b" packet ~"
            };
            write_template(out, words, &[Number(*packet)])
        }
        Act::Respond {
            handed,
            payload,
            ..
        } => {
            let parts = [Number(*handed), Quoted(payload.as_slice())];
            write_template(out, b" to query ~ with ~", &parts)
        }
        _ => Ok(()),
    }
}

/// Appends a newline.
fn end_line(out: &mut Vec<u8>) -> Result<(), AllocError>
    ensures { OnOk result (out.new.items ≡ out.old.items ++ codes "\n") }
{
    out.extend_from_slice(b"\n")
}

/// Appends the word that names an action, and the arguments of its agent's act.
fn write_call_text(out: &mut Vec<u8>, action: &Action) -> Result<(), AllocError>
    ensures { OnOk result (out.new.items ≡ out.old.items ++ call_text action.now) }
{
    out.extend_from_slice(call_word(action))?;
    match action {
        Action::Inject { .. } => Ok(()),
        Action::Of { act, .. } => write_arguments(out, act),
    }
}

/// Appends the line of an action, which consists of the action's number, agent, word, arguments and answer.
#[tactic(auto, unfolding(crate::specs::Readable::call_line))]
fn write_call(
    out: &mut Vec<u8>,
    world: &World,
    number: u64,
    action: &Action,
    line: &Line,
) -> Result<(), AllocError>
    ensures { OnOk result (out.new.items ≡ out.old.items
        ++ call_line (settings_of world.now) number action.now line.now) }
{
    write_number(out, number)?;
    write_actor(out, world, action.actor())?;
    out.extend_from_slice(b" ")?;
    write_call_text(out, action)?;
    out.extend_from_slice(b": ")?;
    write_answer(out, line.answer)?;
    end_line(out)
}

/// Returns the number of events in `events`, or 2^64 - 1 if there are more.
fn count_of(events: EventViews) -> u64
    ensures { result ≡ min (length (events_left events.entry)) (2 ^ 64 - 1) }
{
    let mut count: u64 = 0;
    for _event in events {
        count = count.saturating_add(1);
    }
    count
}

/// Returns the number of events in `slot`, or 2^64 - 1 if there are more.
fn count_in(slot: &SlotView) -> u64
    ensures { result ≡ min (count_of_slot (slot_of_view slot.now)) (2 ^ 64 - 1) }
{
    match *slot {
        SlotView::Empty => 0,
        SlotView::Single(_, _) => 1,
        SlotView::Held(_, events) => count_of(events),
    }
}

/// Returns the number of events in all of `slots`, or 2^64 - 1 if there are more.
fn event_count(slots: SlotViews) -> u64
    ensures { result ≡ count_of_slots (slots_left slots.entry) }
{
    let mut count: u64 = 0;
    for slot in slots {
        count = count.saturating_add(count_in(&slot));
    }
    count
}

/// Appends to `out` words that describe `message`.
fn write_message(out: &mut Vec<u8>, message: &Message) -> Result<(), AllocError>
    ensures { OnOk result (out.new.items ≡ out.old.items
        ++ message_words (message_of message.now)) }
{
    match message {
        Message::UserEvent(event) => {
            let time = Number(event.time.get());
            let parts = [time, Quoted(event.name), Quoted(event.payload)];
            write_template(out, b"event ~ ~ ~", &parts)
        }
        Message::Query(query) => {
            let (time, id) = (Number(query.time.get()), Number(u64::from(query.id)));
            let parts = [time, id, Quoted(query.name), Quoted(query.payload)];
            write_template(out, b"query ~ with ID ~ ~ ~", &parts)
        }
        Message::QueryResponse(answer) => {
            let (time, id) = (Number(answer.time), Number(u64::from(answer.id)));
            let parts = [time, id, Quoted(answer.from), Quoted(answer.payload)];
            write_template(out, b"answer to query ~ with ID ~ from ~: ~", &parts)
        }
        Message::PushPull(state) => {
            let count = event_count(state.slots);
            let parts = [Number(state.event_clock), Number(count)];
            write_template(out, b"a state with event clock ~, events: ~", &parts)
        }
        Message::Foreign(kind) => {
            write_template(out, b"a message of type ~", &[Number(u64::from(*kind))])
        }
    }
}

/// Appends to `out` words that describe `packet`.
fn write_packet(out: &mut Vec<u8>, packet: &[u8]) -> Result<(), AllocError>
    ensures { OnOk result (out.new.items ≡ out.old.items ++ packet_words packet.now) }
{
    match decode(packet) {
        Ok(message) => write_message(out, &message),
        Err(_) => {
            let count = packet.len() as u64;
            write_template(out, b"no message, bytes: ~", &[Number(count)])
        }
    }
}

/// Returns packet number `number`, counted from 0, or an empty slice if there is no packet with this number.
fn sent_packet(world: &World, number: u64) -> &[u8]
    ensures { result.now ≡ packet_of world.now.sent number }
{
    match packet_at(world.sent(), number) {
        Some(packet) => packet,
        None => &[],
    }
}

/// Appends the line of packet number `packet`, which action number `number` sent.
#[tactic(auto, unfolding(crate::specs::Readable::sent_line))]
fn write_sent(out: &mut Vec<u8>, world: &World, number: u64, packet: u64) -> Result<(), AllocError>
    ensures { OnOk result (out.new.items ≡ out.old.items
        ++ sent_line world.now.sent number packet) }
{
    let numbers = [Number(number), Number(packet)];
    write_template(out, b"~ sends packet ~: ", &numbers)?;
    write_packet(out, sent_packet(world, packet))?;
    end_line(out)
}

/// Appends the line of an event that action number `number` handed out.
fn write_event(
    out: &mut Vec<u8>,
    world: &World,
    number: u64,
    event: &EventLine,
) -> Result<(), AllocError>
    ensures { OnOk result (out.new.items ≡ out.old.items
        ++ event_line (settings_of world.now) number event.now) }
{
    write_number(out, number)?;
    write_agent(out, world, event.agent)?;
    let parts = [
        Number(event.time.get()),
        Quoted(event.name.as_slice()),
        Quoted(event.payload.as_slice()),
    ];
    write_template(out, b" is handed event ~ ~ ~\n", &parts)
}

/// Appends the line of the query that action number `number` handed out.
fn write_query(
    out: &mut Vec<u8>,
    world: &World,
    number: u64,
    query: &QueryLine,
) -> Result<(), AllocError>
    ensures { OnOk result (out.new.items ≡ out.old.items
        ++ query_line (settings_of world.now) number query.now) }
{
    write_number(out, number)?;
    write_agent(out, world, query.agent)?;
    let parts = [
        Number(query.index),
        Number(query.time.get()),
        Quoted(query.name.as_slice()),
        Quoted(query.payload.as_slice()),
    ];
    write_template(out, b" is handed query ~ of time ~ ~ ~\n", &parts)
}

/// Appends a line for each of `packets`, which are the numbers of the packets that action number `number` sent.
fn write_sent_lines(
    out: &mut Vec<u8>,
    world: &World,
    number: u64,
    packets: &[u64],
) -> Result<(), AllocError>
    ensures { OnOk result (out.new.items ≡ out.old.items
        ++ flat_map (sent_line world.now.sent number) packets.now) }
{
    for packet in packets {
        write_sent(out, world, number, *packet)?;
    }
    Ok(())
}

/// Appends a line for each of `events`, which action number `number` handed out.
fn write_event_lines(
    out: &mut Vec<u8>,
    world: &World,
    number: u64,
    events: &[EventLine],
) -> Result<(), AllocError>
    ensures { OnOk result (out.new.items ≡ out.old.items
        ++ flat_map (event_line (settings_of world.now) number) events.now) }
{
    for event in events {
        write_event(out, world, number, event)?;
    }
    Ok(())
}

/// Appends the lines of action number `number`: the action with its answer, each packet that it sent, and each event
/// and the query that it handed out. The argument `world` is the cluster as it is after the action.
#[tactic(auto, unfolding(crate::specs::Readable::action_text))]
fn write_turn(
    out: &mut Vec<u8>,
    world: &World,
    number: u64,
    action: &Action,
    line: &Line,
) -> Result<(), AllocError>
    ensures { OnOk result (out.new.items ≡ out.old.items
        ++ action_text (settings_of world.now) world.now.sent number action.now line.now) }
{
    write_call(out, world, number, action, line)?;
    write_sent_lines(out, world, number, line.sent.as_slice())?;
    write_event_lines(out, world, number, line.events.as_slice())?;
    match &line.handed {
        Some(query) => write_query(out, world, number, query.get()),
        None => Ok(()),
    }
}

/// Writes a run as text that people can read easily.
///
/// Each action has a line with its number (counted from 1), the agent that acts, the word and the arguments of the
/// action, and the answer. After the line of an action, there is a line for each packet that the action sent, for each
/// event that it handed out, and for the query that it handed out, if it handed one out. A packet is described by the
/// message that it contains, or by its length if it contains no message. The text refers to an agent by its name, or by
/// its number if no agent has this number. All names and payloads are in quotes. If a name or payload has more than 64
/// bytes, the text shows only its beginning and its length.
#[derive(Drop)]
pub struct RunText;

impl Turns for RunText {
    ghost use Rattle.serf_run_json.specs.Readable.{tells_run};

    type Options = ();

    type Seen = ();

    ghost told = { λ options t configs actions text. tells_run configs actions text };

    ghost saw = { λ options t seen configs actions action text. tells_run configs actions text };

    ghost streams = { λ options. Unit {0} };

    fn begin(&mut self, _alloc: Global, _world: &World, _agents: u64) -> Result<(), AllocError> {
        Ok(())
    }

    fn inspect(
        &mut self,
        _alloc: Global,
        _world: &World,
        _number: u64,
        _action: &Action,
    ) -> Result<(), AllocError> {
        Ok(())
    }

    fn tell(
        &mut self,
        _alloc: Global,
        world: &World,
        number: u64,
        action: &Action,
        line: Line,
        _seen: (),
        out: &mut Vec<u8>,
    ) -> Result<(), AllocError> {
        write_turn(out, world, number, action, &line)
    }
}

/// Reads a schedule to its end, and writes the text of its run, which has the form of [`RunText`]. The function calls
/// `watch` after each action of the run.
///
/// The function reads at most 16,777,217 bytes, and writes nothing before the whole schedule has been read, parsed and
/// run. The function returns the same errors as `serf_replay::replay`, under the same conditions.
pub fn readable_run<R: Read, W: Write, T: Watch>(
    alloc: Global,
    reader: &mut R,
    writer: &mut W,
    watch: &mut T,
) -> Result<(), ReplayError>
    ensures done { OnOk result (IfSome (R.remaining reader.old) (λ input. (text : List ℕ)
        × (readable_of input ≡ Ok text) × (length input ≤ MAX_SCHEDULE_BYTES)
        × Appends (W.contents writer.old) (W.contents writer.new) text)) }
    ensures too_long { IsErrOf result ReplayError.ReadTooLong
        → IfSome (R.remaining reader.old) (λ input. MAX_SCHEDULE_BYTES < length input) }
    ensures bad_line { (line : ℕ) (cause : Cause) → IsErrOf result (ReplayError.BadLine line cause)
        → IfSome (R.remaining reader.old) (λ input. (length input ≤ MAX_SCHEDULE_BYTES)
        × (readable_of input ≡ Err (record { line = line; cause = cause }))) }
    // If the write failed, only a prefix of the run's text was written. After any other error, nothing was written.
    ensures front { IsErrOf result ReplayError.WriteError
        → IfSome (R.remaining reader.old) (λ input. (text : List ℕ)
        × (readable_of input ≡ Ok text) × (length input ≤ MAX_SCHEDULE_BYTES)
        × AppendsFront (W.contents writer.old) (W.contents writer.new) text) }
    ensures nothing { IfErr result (λ error. (error ≡ ReplayError.WriteError → ⊥)
        → writer.new ≡ writer.old) }
    // The function reads at most one byte more than the maximum length of a schedule.
    ensures bounded { (bytes : List ℕ)
        × Consumes (R.remaining reader.old) (R.remaining reader.new) bytes
        × (length bytes ≤ MAX_SCHEDULE_BYTES + 1) }
{
    match report_input(alloc, reader, writer, RunText, watch) {
        Ok(_count) => Ok(()),
        Err(error) => Err(error),
    }
}

/// Reads a schedule line by line, and writes the text of each action before it reads more of the schedule. The text has
/// the form of [`RunText`].
///
/// The text is exactly the one that [`readable_run`] writes. If [`readable_run`] refuses a line, this function refuses
/// it too, but only after it has written the text of all actions before that line. The schedule may have any length,
/// but each of its lines may have at most 16,777,216 bytes.
pub fn stream_readable<R: Read, W: Write>(
    alloc: Global,
    reader: &mut R,
    writer: &mut W,
) -> Result<(), StreamError<Cause>>
    // Exactly the text of the whole run was written.
    ensures done { OnOk result ((bytes text : List ℕ)
        × Consumes (R.remaining reader.old) (R.remaining reader.new) bytes
        × IsAtEnd (R.remaining reader.new) × (readable_of bytes ≡ Ok text)
        × Appends (W.contents writer.old) (W.contents writer.new) text) }
    // The function ran some of the lines that it had read, and wrote the text of their run. If the write failed, only a
    // prefix of that text was written.
    ensures stopped { IfErr result (λ error. (bytes : List ℕ)
        × Consumes (R.remaining reader.old) (R.remaining reader.new) bytes
        × IsHalted error bytes (W.contents writer.old) (W.contents writer.new)) }
{
    report_lines(alloc, reader, writer, &mut Run::new(alloc, RunText))
}
