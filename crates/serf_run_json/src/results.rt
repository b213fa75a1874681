//! Writes the results of an action: its answer, the packets that it sent, and the events and the query that it handed
//! out.

ghost use Rattle.std.specs.Prelude.{◌≡◌, ◌++◌, IfOk, OnOk, codes};
ghost use Rattle.std.specs.List.{flat_map};
ghost use Rattle.std.specs.Option.{option_copied, option_map};
ghost use Rattle.serf_json.specs.Object.{member_text, object_text};
ghost use Rattle.serf_schedule.specs.Show.{packet_of};
ghost use Rattle.serf_run_json.specs.Members.{settings_of, triple_text};
ghost use Rattle.serf_run_json.specs.Results.{action_members, answer_code, answer_error, answer_word, code_text, error_text, event_object, numbers_text, query_object, results_text, sent_object};

use crate::acts::{actor_members, agent_members, call_members, call_word};
use serf_json::Member::{self, Absent, Bytes, Flag, Hex, Number, Text};
use serf_json::{write_joined, write_object};
use serf_model::{Action, Answer, EventLine, Line, QueryLine, Refusal, packet_at};
use serf_schedule::answer_words;
use serf_text::{DecodeTextError, decode_text, write_wire_error};
use serf_wire::Bytes as Packet;
use serf_world::World;
use std::alloc::{AllocError, Global};

/// Returns the answer's first word and, if the agent ignored or refused the call, the answer's code. The code of an
/// answer is the reason why the agent ignored or refused the call.
pub(crate) fn answer_and_code(answer: &Answer) -> (&'static [u8], Option<&'static [u8]>)
    ensures word { result.0.now ≡ answer_word answer.now }
    ensures code { option_copied result.1 ≡ answer_code answer.now }
{
    let words = answer_words(answer);
    match answer {
        Answer::Ignored(_) => (b"ignored", words.strip_prefix(b"ignored ")),
        Answer::Refused(_) => (b"refused", words.strip_prefix(b"refused ")),
        _ => (words, None),
    }
}

/// Returns the code of an answer, or the answer's first word if there is no code.
pub(crate) fn code_of(answer: &Answer) -> &'static [u8] {
    match answer_and_code(answer) {
        (_, Some(code)) => code,
        (word, None) => word,
    }
}

/// Returns the JSON members that contain the numbers in an answer.
#[tactic(auto, unfolding(serf_json::specs::Object::members_text, crate::specs::Members::number_member, crate::specs::Results::numbers_text))]
fn number_members<'a>(answer: &Answer) -> (Member<'a>, Member<'a>, Member<'a>)
    ensures { triple_text result ≡ numbers_text answer.now }
{
    match answer {
        Answer::Fired(time) | Answer::Queried(time) => {
            (Number(b"time", time.get()), Absent, Absent)
        }
        Answer::Foreign(kind) => (Number(b"type", u64::from(*kind)), Absent, Absent),
        Answer::Restarted {
            member_clock,
            event_clock,
            query_clock,
        } => (
            Number(b"clock", *member_clock),
            Number(b"event_clock", *event_clock),
            Number(b"query_clock", *query_clock),
        ),
        Answer::Closed(count) => (Number(b"closed", *count), Absent, Absent),
        _ => (Absent, Absent, Absent),
    }
}

/// If the answer reports that a packet was refused, returns the words that describe the packet's error. For any other
/// answer, returns `None`.
fn error_words(alloc: Global, answer: &Answer) -> Result<Option<Vec<u8>>, AllocError>
    ensures { IfOk result (λ words. option_map (λ w. w.items) words ≡ answer_error answer.now) }
{
    let Answer::Refused(Refusal::Wire(error)) = answer else {
        return Ok(None);
    };
    let mut words = Vec::new(alloc);
    write_wire_error(&mut words, *error)?;
    Ok(Some(words))
}

/// Returns the JSON member that contains the code of an answer, or an absent member if there is no code.
#[tactic(auto, unfolding(crate::specs::Members::text_member))]
fn code_member(code: Option<&[u8]>) -> Member<'_>
    ensures { member_text result ≡ code_text (option_copied code.entry) }
{
    match code {
        Some(code) => Text(b"code", code),
        None => Absent,
    }
}

/// Returns the JSON member that contains the words for an error, or an absent member if there is no error.
#[tactic(auto, unfolding(crate::specs::Members::text_member))]
fn error_member(words: &Option<Vec<u8>>) -> Member<'_>
    ensures { member_text result ≡ error_text (option_map (λ w. w.items) words.now) }
{
    match words {
        Some(words) => Text(b"error", words),
        None => Absent,
    }
}

/// Appends the object of an action, which contains the action's arguments and its answer.
fn write_call<'a>(
    alloc: Global,
    out: &mut Vec<u8>,
    world: &'a World,
    number: u64,
    action: &'a Action,
    answer: &Answer,
) -> Result<(), AllocError>
    ensures { OnOk result (out.new.items ≡ out.old.items ++ object_text (codes "action")
        (action_members (settings_of world.now) number action.now answer.now)) }
{
    let (agent, name) = actor_members(world, action);
    let (first, second, third) = call_members(action);
    let (word, code) = answer_and_code(answer);
    let code = code_member(code);
    let (time, clock, more) = number_members(answer);
    let words = error_words(alloc, answer)?;
    let error = error_member(&words);
    let call = [
        Number(b"action", number),
        Text(b"call", call_word(action)),
        agent,
        name,
        first,
        second,
        third,
    ];
    let told = [Text(b"answer", word), code, time, clock, more, error];
    write_joined(out, b"action", &call, &told)
}

/// Returns packet number `number` in `sent`, or an empty slice if there is no packet with this number.
fn packet_bytes(sent: &[Packet], number: u64) -> &[u8]
    ensures { result.now ≡ packet_of sent.now number }
{
    match packet_at(sent, number) {
        Some(bytes) => bytes,
        None => &[],
    }
}

/// Appends the object of packet number `packet`, which action number `number` sent.
fn write_sent(
    alloc: Global,
    out: &mut Vec<u8>,
    sent: &[Packet],
    number: u64,
    packet: u64,
) -> Result<(), AllocError>
    ensures { OnOk result (out.new.items ≡ out.old.items ++ sent_object sent.now number packet) }
{
    let bytes = packet_bytes(sent, packet);
    let front = [
        Number(b"action", number),
        Number(b"packet", packet),
        Hex(b"packet", bytes),
    ];
    match decode_text(alloc, bytes) {
        Ok(text) => write_joined(out, b"sent", &front, &[Text(b"message", &text)]),
        Err(DecodeTextError::Refused(_)) => write_object(out, b"sent", &front),
        Err(DecodeTextError::OutOfMemory) => Err(AllocError),
    }
}

/// Appends the object of an event that action number `number` handed out.
fn write_event<'a>(
    out: &mut Vec<u8>,
    world: &'a World,
    number: u64,
    event: &'a EventLine,
) -> Result<(), AllocError>
    ensures { OnOk result (out.new.items ≡ out.old.items
        ++ event_object (settings_of world.now) number event.now) }
{
    let (agent, name) = agent_members(world, event.agent);
    let members = [
        Number(b"action", number),
        agent,
        name,
        Number(b"time", event.time.get()),
        Bytes(b"name", event.name.as_slice()),
        Bytes(b"payload", event.payload.as_slice()),
        Flag(b"coalesce", event.coalesce),
    ];
    write_object(out, b"event", &members)
}

/// Appends the object of the query that action number `number` handed out.
fn write_query<'a>(
    out: &mut Vec<u8>,
    world: &'a World,
    number: u64,
    query: &'a QueryLine,
) -> Result<(), AllocError>
    ensures { OnOk result (out.new.items ≡ out.old.items
        ++ query_object (settings_of world.now) number query.now) }
{
    let (agent, name) = agent_members(world, query.agent);
    let members = [
        Number(b"action", number),
        agent,
        name,
        Number(b"handed", query.index),
        Number(b"time", query.time.get()),
        Number(b"id", u64::from(query.id)),
        Bytes(b"name", query.name.as_slice()),
        Bytes(b"payload", query.payload.as_slice()),
    ];
    write_object(out, b"query", &members)
}

/// Appends an object for each of `packets`, which are the numbers of the packets that action number `number` sent.
fn write_all_sent(
    alloc: Global,
    out: &mut Vec<u8>,
    sent: &[Packet],
    number: u64,
    packets: &[u64],
) -> Result<(), AllocError>
    ensures { OnOk result (out.new.items ≡ out.old.items
        ++ flat_map (sent_object sent.now number) packets.now) }
{
    for packet in packets {
        write_sent(alloc, out, sent, number, *packet)?;
    }
    Ok(())
}

/// Appends an object for each of `events`, which are the events that action number `number` handed out.
fn write_events(
    out: &mut Vec<u8>,
    world: &World,
    number: u64,
    events: &[EventLine],
) -> Result<(), AllocError>
    ensures { OnOk result (out.new.items ≡ out.old.items
        ++ flat_map (event_object (settings_of world.now) number) events.now) }
{
    for event in events {
        write_event(out, world, number, event)?;
    }
    Ok(())
}

/// Appends the objects of an action: one for the action with its answer, one for each packet that it sent, one for each
/// event that it handed out, and one for the query that it handed out. If memory runs out (`AllocError`), only a prefix
/// of the action's objects may have been appended to `out`.
#[tactic(auto, unfolding(crate::specs::Results::results_text))]
pub(crate) fn write_results(
    alloc: Global,
    out: &mut Vec<u8>,
    world: &World,
    number: u64,
    action: &Action,
    line: &Line,
) -> Result<(), AllocError>
    ensures { OnOk result (out.new.items ≡ out.old.items
        ++ results_text (settings_of world.now) world.now.sent number action.now line.now) }
{
    write_call(alloc, out, world, number, action, &line.answer)?;
    write_all_sent(alloc, out, world.sent(), number, line.sent.as_slice())?;
    write_events(out, world, number, line.events.as_slice())?;
    match &line.handed {
        Some(query) => write_query(out, world, number, query.get()),
        None => Ok(()),
    }
}
