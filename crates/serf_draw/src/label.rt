//! Makes the label of an action.

ghost use Rattle.std.specs.Prelude.{◌≡◌, ◌++◌, ◌∷◌, [], IfOk, Ok, OnOk, nat_le};
ghost use Rattle.std.specs.List.{flat_map, list_any};
ghost use Rattle.std.specs.Option.{option_copied};
ghost use Rattle.serf_wire.specs.Lists.{events_left, slot_of_view, slots_left};
ghost use Rattle.serf_wire.specs.Message.{message_of};
ghost use Rattle.serf_draw.specs.Label.{action_words, clock_words, count_words, cut_to, event_after, first_two, joined as joined_words, label_of, message_words, outcome_words, packet_words, short};
ghost use Rattle.serf_draw.specs.Merges.{below_words, answer_words, result_words, passed_over as passed_over_by, passed_words, slot_times, slots_times, carried_times as brought_by, times_given};
ghost use Rattle.serf_draw.specs.Svg.{label_columns as columns_of_labels, longest as longest_of};

use crate::filled::{PicturePart, write_between};
use crate::picture::Row;
use serf_model::{Act, Action, Answer, EventLine};
use serf_schedule::write_answer;
use serf_text::write_template;
use serf_wire::{Bytes, EventViews, Message, SlotView, SlotViews, decode};
use std::alloc::{AllocError, Global};

/// The maximum length of a label, in bytes.
const LABEL_BYTES: usize = 72;

/// The maximum length, in bytes, of a text that is written in full.
const WHOLE_BYTES: usize = 12;

/// The number of bytes that are written from the beginning of a longer text.
const FRONT_BYTES: usize = 8;

/// Appends a text. If the text is long, the function appends only its beginning and its length.
#[tactic(auto, unfolding(crate::specs::Label::short, crate::specs::Svg::between))]
pub(crate) fn write_short(out: &mut Vec<u8>, text: &[u8]) -> Result<(), AllocError>
    ensures { OnOk result (out.new.items ≡ out.old.items ++ short text.now) }
{
    if text.len() <= WHOLE_BYTES {
        return out.extend_from_slice(text);
    }
    out.extend_from_slice(&text[..FRONT_BYTES])?;
    write_between(out, b"..(", text.len() as u64, b")")
}

/// Returns a name. If the name is long, the function returns only its beginning and its length.
pub(crate) fn short_name(alloc: Global, name: &[u8]) -> Result<Vec<u8>, AllocError>
    ensures { IfOk result (λ text. text.items ≡ short name.now) }
{
    let mut text = Vec::new(alloc);
    write_short(&mut text, name)?;
    Ok(text)
}

/// Appends the contents of `message`, which are its texts and its time. `length` is the length in bytes of the packet
/// that contains the message.
#[tactic(auto, unfolding(crate::specs::Label::texts, crate::specs::Label::at_time))]
fn write_message_words(
    out: &mut Vec<u8>,
    message: &Message,
    length: usize,
) -> Result<(), AllocError>
    ensures { OnOk result (out.new.items ≡ out.old.items
        ++ message_words length (Ok (message_of message.now))) }
{
    match message {
        Message::UserEvent(event) => {
            let (name, payload) = (
                PicturePart::Short(event.name),
                PicturePart::Short(event.payload),
            );
            let time = PicturePart::Number(event.time.get());
            write_template(out, b"~ ~ @~ ", &[name, payload, time])
        }
        Message::Query(query) => {
            let (name, payload) = (
                PicturePart::Short(query.name),
                PicturePart::Short(query.payload),
            );
            let time = PicturePart::Number(query.time.get());
            write_template(out, b"query ~ ~ @~ ", &[name, payload, time])
        }
        Message::QueryResponse(answer) => {
            let from = PicturePart::Short(answer.from);
            write_template(
                out,
                b"answer of ~ @~ ",
                &[from, PicturePart::Number(answer.time)],
            )
        }
        Message::PushPull(state) => {
            write_template(out, b"state @~ ", &[PicturePart::Number(state.event_clock)])
        }
        Message::Foreign(kind) => {
            write_template(out, b"type ~ ", &[PicturePart::Number(u64::from(*kind))])
        }
    }
}

/// Appends the contents of `packet`, or the packet's length in bytes if the packet isn't a message.
fn write_packet_words(out: &mut Vec<u8>, packet: &[u8]) -> Result<(), AllocError>
    ensures { OnOk result (out.new.items ≡ out.old.items ++ packet_words packet.now) }
{
    match decode(packet) {
        Ok(message) => write_message_words(out, &message, packet.len()),
        Err(_) => write_template(
            out,
            b"~ bytes ",
            &[PicturePart::Number(packet.len() as u64)],
        ),
    }
}

/// Appends a description of `action`. `given` is the packet that the action passes to its agent, or `None` if there is
/// no such packet.
#[tactic(auto, unfolding(crate::specs::Label::texts))]
fn write_action_words(
    out: &mut Vec<u8>,
    action: &Action,
    given: Option<&[u8]>,
) -> Result<(), AllocError>
    ensures { OnOk result (out.new.items ≡ out.old.items
        ++ action_words action.now (option_copied given.entry)) }
{
    match action {
        Action::Inject { bytes } => write_packet_words(out, bytes.as_slice()),
        Action::Of { act, .. } => match act {
            Act::Fire { name, payload, .. } => {
                let (name, payload) = (name.as_slice(), payload.as_slice());
                write_template(
                    out,
                    b"~ ~ ",
                    &[PicturePart::Short(name), PicturePart::Short(payload)],
                )
            }
            Act::Query(query) => {
                let (name, payload) = (query.get().name.as_slice(), query.get().payload.as_slice());
                let (name, payload) = (PicturePart::Short(name), PicturePart::Short(payload));
                write_template(out, b"query ~ ~ ", &[name, payload])
            }
            Act::Deliver { .. } | Act::Merge { .. } => match given {
                Some(packet) => write_packet_words(out, packet),
                None => Ok(()),
            },
            _ => Ok(()),
        },
    }
}

/// Returns the words with which the label of `action` begins. `given` is the packet that the action passes to its
/// agent, or `None` if there is no such packet.
pub(crate) fn first_words(
    alloc: Global,
    action: &Action,
    given: Option<&[u8]>,
) -> Result<Vec<u8>, AllocError>
    ensures { IfOk result (λ words. words.items
        ≡ action_words action.now (option_copied given.entry)) }
{
    let mut out = Vec::new(alloc);
    write_action_words(&mut out, action, given)?;
    Ok(out)
}

/// Adds `time` to `times` once for each event in `events`.
fn add_times(times: &mut Vec<u64>, time: u64, events: EventViews) -> Result<(), AllocError>
    ensures { OnOk result (times.new.items ≡ times.old.items
        ++ flat_map (λ e. time ∷ []) (events_left events.entry)) }
{
    for _event in events {
        times.push(time)?;
    }
    Ok(())
}

/// Adds the times of the events in `slot` to `times`.
fn add_slot_times(times: &mut Vec<u64>, slot: &SlotView) -> Result<(), AllocError>
    ensures { OnOk result (times.new.items ≡ times.old.items
        ++ slot_times (slot_of_view slot.now)) }
{
    match *slot {
        SlotView::Empty => Ok(()),
        SlotView::Single(time, _) => {
            times.push(time.get())?;
            Ok(())
        }
        SlotView::Held(time, events) => add_times(times, time.get(), events),
    }
}

/// Returns the times of the events in `slots`, with one time for each event.
fn times_of(alloc: Global, slots: SlotViews) -> Result<Vec<u64>, AllocError>
    ensures { IfOk result (λ times. times.items ≡ slots_times (slots_left slots.entry)) }
{
    let mut times = Vec::new(alloc);
    for slot in slots {
        add_slot_times(&mut times, &slot)?;
    }
    Ok(times)
}

/// Returns the times of the events in the packet `given` if the packet contains a state, and no times otherwise.
fn times_in(alloc: Global, given: Option<&[u8]>) -> Result<Vec<u64>, AllocError>
    ensures { IfOk result (λ times. times.items ≡ times_given (option_copied given.entry)) }
{
    match given {
        Some(packet) => match decode(packet) {
            Ok(Message::PushPull(state)) => times_of(alloc, state.slots),
            _ => Ok(Vec::new(alloc)),
        },
        None => Ok(Vec::new(alloc)),
    }
}

/// If `action` is a merge, returns the times of the events in `given`, the packet that is merged. For any other action,
/// the function returns no times.
pub(crate) fn carried_times(
    alloc: Global,
    action: &Action,
    given: Option<&[u8]>,
) -> Result<Vec<u64>, AllocError>
    ensures { IfOk result (λ times. times.items
        ≡ brought_by action.now (option_copied given.entry)) }
{
    match action {
        Action::Of {
            act: Act::Merge { .. },
            ..
        } => times_in(alloc, given),
        _ => Ok(Vec::new(alloc)),
    }
}

/// Returns the times of the events that a merge passed over. If the action is a merge that handed out no event, the
/// function returns all of `times`, and otherwise it returns no times.
pub(crate) fn passed_over<'a>(answer: Answer, events: &[EventLine], times: &'a [u64]) -> &'a [u64]
    ensures { result.now ≡ passed_over_by answer events.now times.now }
{
    match answer {
        Answer::Merged if events.is_empty() => times,
        _ => &[],
    }
}

/// Returns whether one of the times in `times` is at least `lowest`.
fn is_any_from(times: &[u64], lowest: u64) -> bool
    ensures { result ≡ list_any (λ t. nat_le lowest t) times.now }
{
    times.iter().any(|time| lowest <= *time)
}

/// If all times in `times` are below `lowest`, the agent's minimum for events, appends this minimum.
#[tactic(auto, unfolding(crate::specs::Merges::below_min))]
fn write_below(out: &mut Vec<u8>, times: &[u64], lowest: Option<u64>) -> Result<(), AllocError>
    ensures { OnOk result (out.new.items ≡ out.old.items ++ below_words times.now lowest) }
{
    let Some(lowest) = lowest else {
        return Ok(());
    };
    if is_any_from(times, lowest) {
        return Ok(());
    }
    write_template(out, b", below ~", &[PicturePart::Number(lowest)])
}

/// Appends the number of events that a merge passed over. `times` contains the times of these events. If all times in
/// `times` are below `lowest`, the agent's minimum for events, the function appends this minimum as well.
fn write_passed_over(
    out: &mut Vec<u8>,
    times: &[u64],
    lowest: Option<u64>,
) -> Result<(), AllocError>
    ensures { OnOk result (out.new.items ≡ out.old.items ++ passed_words times.now lowest) }
{
    if times.is_empty() {
        return Ok(());
    }
    write_template(
        out,
        b": nothing of ~",
        &[PicturePart::Number(times.len() as u64)],
    )?;
    write_below(out, times, lowest)
}

/// Appends the words for `answer`, the answer to an action. `lowest` is the agent's minimum for events.
fn write_answer_words(
    out: &mut Vec<u8>,
    answer: Answer,
    lowest: Option<u64>,
) -> Result<(), AllocError>
    ensures { OnOk result (out.new.items ≡ out.old.items ++ answer_words answer lowest) }
{
    match answer {
        Answer::Restarted { .. } => match lowest {
            Some(lowest) => {
                write_template(
                    out,
                    b"started again: events from ~",
                    &[PicturePart::Number(lowest)],
                )
            }
            None => write_answer(out, answer),
        },
        _ => write_answer(out, answer),
    }
}

/// Appends `held back` if the agent held a query back, and the words for `answer` otherwise.
fn write_result_words(
    out: &mut Vec<u8>,
    answer: Answer,
    is_held_back: bool,
    lowest: Option<u64>,
) -> Result<(), AllocError>
    ensures { OnOk result (out.new.items ≡ out.old.items
        ++ result_words answer is_held_back lowest) }
{
    if is_held_back {
        out.extend_from_slice(b"held back")
    } else {
        write_answer_words(out, answer, lowest)
    }
}

/// Appends `sign`, followed by `event`, which a merge handed out. If there is no event, the function appends nothing.
#[tactic(auto, unfolding(crate::specs::Label::event_words, crate::specs::Label::texts))]
fn write_event_after<'a>(
    out: &mut Vec<u8>,
    sign: &'a [u8],
    event: Option<&'a EventLine>,
) -> Result<(), AllocError>
    ensures { OnOk result (out.new.items ≡ out.old.items
        ++ event_after sign.now (option_copied event.entry)) }
{
    let Some(event) = event else {
        return Ok(());
    };
    let parts = [
        PicturePart::Text(sign),
        PicturePart::Short(event.name.as_slice()),
        PicturePart::Short(event.payload.as_slice()),
        PicturePart::Number(event.time.get()),
    ];
    write_template(out, b"~~ ~ @~", &parts)
}

/// Appends the first two events in `events`. A colon precedes the first event, and a comma precedes the second one.
fn write_first_two(out: &mut Vec<u8>, events: &[EventLine]) -> Result<(), AllocError>
    ensures { OnOk result (out.new.items ≡ out.old.items ++ first_two events.now) }
{
    write_event_after(out, b": ", events.get(0))?;
    write_event_after(out, b", ", events.get(1))
}

/// Appends `count`, the number of further events, unless this number is 0.
fn write_count(out: &mut Vec<u8>, count: usize) -> Result<(), AllocError>
    ensures { OnOk result (out.new.items ≡ out.old.items ++ count_words count) }
{
    if count == 0 {
        return Ok(());
    }
    write_template(out, b", +~", &[PicturePart::Number(count as u64)])
}

/// Appends `clock`, the agent's event clock, if the action changed this clock, and nothing otherwise.
fn write_clock(out: &mut Vec<u8>, clock: Option<u64>) -> Result<(), AllocError>
    ensures { OnOk result (out.new.items ≡ out.old.items ++ clock_words clock) }
{
    match clock {
        Some(clock) => write_template(out, b", clock ~", &[PicturePart::Number(clock)]),
        None => Ok(()),
    }
}

/// If `text` is longer than `limit` bytes, shortens it to `limit` bytes, and makes it end with two full stops.
#[tactic(auto, unfolding(crate::specs::Label::cut_to))]
fn shorten(text: &mut Vec<u8>, limit: usize) -> Result<(), AllocError>
    ensures { OnOk result (text.new.items ≡ cut_to limit text.old.items) }
{
    if text.len() > limit {
        text.truncate(limit.saturating_sub(2));
        text.extend_from_slice(b"..")?;
    }
    Ok(())
}

/// Returns the label that consists of `front` and `end`. If the two texts together are too long for a label, the
/// function shortens `front`.
#[tactic(auto, unfolding(crate::specs::Label::joined))]
fn joined(front: Vec<u8>, end: &[u8]) -> Result<Bytes, AllocError>
    ensures { IfOk result (λ label. label ≡ joined_words front.items end.now) }
{
    let mut text = front;
    shorten(&mut text, LABEL_BYTES.saturating_sub(end.len()))?;
    text.extend_from_slice(end)?;
    Ok(Bytes::from_vec(text))
}

/// Appends the words for the outcome of an action. The function first appends the words for `answer`, or states that
/// the agent held a query back. The function then appends the first two events in `events`, which a merge handed out,
/// or the number of events that the merge passed over. `passed` contains the times of the events that the merge passed
/// over. `lowest` is the agent's minimum for events.
#[tactic(auto, unfolding(crate::specs::Label::outcome_words))]
fn write_outcome(
    out: &mut Vec<u8>,
    answer: Answer,
    is_held_back: bool,
    lowest: Option<u64>,
    events: &[EventLine],
    passed: &[u64],
) -> Result<(), AllocError>
    ensures { OnOk result (out.new.items ≡ out.old.items
        ++ outcome_words answer is_held_back lowest events.now passed.now) }
{
    write_result_words(out, answer, is_held_back, lowest)?;
    write_first_two(out, events)?;
    write_passed_over(out, passed, lowest)
}

/// Returns the label that begins with `words` and continues with the outcome of the action. `events` contains the
/// events that a merge handed out, and `passed` contains the times of the events that the merge passed over. `lowest`
/// is the agent's minimum for events. `clock` is the agent's event clock if the action changed this clock, and `None`
/// otherwise.
#[tactic(auto, unfolding(crate::specs::Label::label_of))]
pub(crate) fn label(
    alloc: Global,
    words: Vec<u8>,
    answer: Answer,
    is_held_back: bool,
    lowest: Option<u64>,
    events: &[EventLine],
    passed: &[u64],
    clock: Option<u64>,
) -> Result<Bytes, AllocError>
    ensures { IfOk result (λ label. label ≡ label_of words.items answer is_held_back lowest
        events.now passed.now clock) }
{
    let mut front = words;
    write_outcome(&mut front, answer, is_held_back, lowest, events, passed)?;
    let mut end = Vec::new(alloc);
    write_count(&mut end, events.len().saturating_sub(2))?;
    write_clock(&mut end, clock)?;
    joined(front, &end)
}

/// Returns the length in bytes of the longest label in `rows`.
pub(crate) fn longest(rows: &[Row]) -> usize
    ensures { result ≡ longest_of rows.now }
{
    rows.iter().fold(0, |longest, row| {
        let length = row.label.as_slice().len();
        if longest < length { length } else { longest }
    })
}

/// Returns the number of columns that the labels need when the longest label has `longest` bytes.
pub(crate) fn label_columns(longest: usize) -> u64
    ensures { result ≡ columns_of_labels longest }
{
    if longest > 49 {
        3
    } else if longest > 27 {
        2
    } else {
        1
    }
}
