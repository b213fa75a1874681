//! Makes the tails that follow the snapshots of agents that keep their events. A tail contains lines like those that
//! these agents write, for packets that were sent and for other events. The lines of a tail are complete or torn.

use crate::generator::Generator;
use crate::pools::{name, payload_or_full, tail};
use crate::rng::Rng;
use serf_lamport::Time;
use serf_snapshot::{
    ClockKind, write_event_line, write_kept_clock_line, write_min_line, write_query_line,
};
use serf_text::write_number;
use serf_wire::{Bytes, Message, decode};
use std::alloc::AllocError;

/// The maximum number of packets that are inspected to find an event or a query.
const LOOKS: u64 = 6;

/// Lines that agents don't write. For each line, there is a pair that consists of the text before the line's time and
/// the text after it. These lines contain unusual digits or spaces, `-` for no bytes, a word too many or too few,
/// numbers out of range, or no kind.
const ODD_LINES: [(&[u8], &[u8]); 25] = [
    (b"#event 0", b" 61 7631\n"),
    (b"#event ", b" 6A 6b\n"),
    (b"#event ", b" 61\n"),
    (b"#event ", b"  61 \n"),
    (b"#event ", b" 6 61\n"),
    (b"#event ", b" 61 62 63\n"),
    (b"#event ", b" 61 \r\n"),
    (b"#event  ", b" 61 \n"),
    (b"#event -", b" 61 \n"),
    (b"#Event ", b" 61 \n"),
    (b" #event ", b" 61 \n"),
    (b"#event ", b" 61 -\n"),
    (b"#event ", b" - 7631\n"),
    (b"#query 0", b" 007\n"),
    (b"#query ", b" 4294967296\n"),
    (b"#query ", b"\n"),
    (b"#query ", b" 1 \n"),
    (b"#least event-clock: 00", b"\n"),
    (b"#least event-clock:  ", b"\n"),
    (b"#least event-clock: 18446744073709551615", b"\n"),
    (b"#least clock: ", b"\n"),
    (b"#least ", b"\n"),
    (b"event-clock: 00", b"\n"),
    (b"clock: 0", b"\n"),
    (b"#event 0 61 ", b"\n"),
];

/// An event or a query that an agent accepts: an event with its time, name and payload, or a query with its time and
/// ID.
#[derive(Clone, Copy)]
enum Taken<'a> {
    Event(Time, &'a [u8], &'a [u8]),
    Query(Time, u32),
}

/// Appends to `text` the lines that an agent writes when it accepts `taken` and keeps its events. One time in two, the
/// function leaves out the clock line.
fn write_taken(rng: &mut Rng, text: &mut Vec<u8>, taken: &Taken) -> Result<(), AllocError> {
    let (kind, time) = match taken {
        Taken::Event(time, ..) => (ClockKind::Event, *time),
        Taken::Query(time, _) => (ClockKind::Query, *time),
    };
    if rng.one_in(2) {
        write_kept_clock_line(text, kind, time.get())?;
    }
    match taken {
        Taken::Event(_, name, payload) => write_event_line(text, time, name, payload),
        Taken::Query(_, id) => write_query_line(text, time, *id),
    }
}

/// Returns one of the packets in `sent`, in most cases one of the most recent. From time to time, and always if `sent`
/// contains no packets, the result is empty.
fn packet_of<'a>(generator: &mut Generator, sent: &'a [Bytes]) -> &'a [u8] {
    match sent.get(generator.older() as usize) {
        Some(packet) => packet.as_slice(),
        None => b"",
    }
}

/// Returns the event in `packet` or, if `kind` is the kind of queries, the query in `packet`. Returns `None` if
/// `packet` contains no message of the kind `kind`.
fn taken_in(kind: ClockKind, packet: &[u8]) -> Option<Taken<'_>> {
    match decode(packet) {
        Ok(Message::UserEvent(event)) if kind == ClockKind::Event => {
            Some(Taken::Event(event.time, event.name, event.payload))
        }
        Ok(Message::Query(query)) if kind == ClockKind::Query => {
            Some(Taken::Query(query.time, query.id))
        }
        _ => None,
    }
}

/// Appends to `text` the line of an event or, if `kind` is the kind of queries, the line of a query. The event or the
/// query is taken from one of the packets in `sent`. If the function finds no event or query, it appends nothing.
fn write_sent(
    generator: &mut Generator,
    sent: &[Bytes],
    kind: ClockKind,
    text: &mut Vec<u8>,
) -> Result<(), AllocError> {
    for _look in 0..LOOKS {
        if let Some(taken) = taken_in(kind, packet_of(generator, sent)) {
            return write_taken(&mut generator.rng, text, &taken);
        }
    }
    Ok(())
}

/// Appends the line of an event whose time is near the agent's window. From time to time, the event is about as long as
/// an event may be.
fn write_event_near_window(
    generator: &mut Generator,
    text: &mut Vec<u8>,
) -> Result<(), AllocError> {
    let Some(time) = Time::new(generator.event_edge()) else {
        return Ok(());
    };
    let name = name(generator)?;
    let payload = payload_or_full(generator, &name, 30)?;
    let event = Taken::Event(time, &name, &payload);
    write_taken(&mut generator.rng, text, &event)
}

/// Appends the line of a query whose time is near the agent's window.
fn write_near_query(generator: &mut Generator, text: &mut Vec<u8>) -> Result<(), AllocError> {
    let Some(time) = Time::new(generator.query_edge()) else {
        return Ok(());
    };
    let id = generator.rng.pick(&[0, 1, 2, 3, u32::MAX], 0);
    let query = Taken::Query(time, id);
    write_taken(&mut generator.rng, text, &query)
}

/// Appends the line of a clock or a minimum, with a time near the agent's window of events or of queries.
fn write_clock(generator: &mut Generator, text: &mut Vec<u8>) -> Result<(), AllocError> {
    let (kind, front, number): (ClockKind, &[u8], u64) = if generator.rng.one_in(3) {
        (ClockKind::Query, b"query-clock: ", generator.query_edge())
    } else {
        (ClockKind::Event, b"event-clock: ", generator.event_edge())
    };
    match generator.rng.below(12) {
        0 => {
            text.extend_from_slice(front)?;
            write_number(text, number)?;
            text.extend_from_slice(b"\n")
        }
        1 | 2 => write_min_line(text, kind, number),
        _ => write_kept_clock_line(text, kind, number),
    }
}

/// Appends one of the [`ODD_LINES`], which are lines that agents don't write.
fn write_odd_line(generator: &mut Generator, text: &mut Vec<u8>) -> Result<(), AllocError> {
    let (front, following) = generator.rng.pick(&ODD_LINES, (b"", b""));
    text.extend_from_slice(front)?;
    write_number(text, generator.event_edge())?;
    text.extend_from_slice(following)
}

/// Appends a line, for example the line of an event in one of the packets in `sent`. A clock line may precede this
/// line.
fn write_line(
    generator: &mut Generator,
    sent: &[Bytes],
    text: &mut Vec<u8>,
) -> Result<(), AllocError> {
    match generator.rng.below(16) {
        0..=4 => write_sent(generator, sent, ClockKind::Event, text),
        5..=7 => write_event_near_window(generator, text),
        8 | 9 => write_sent(generator, sent, ClockKind::Query, text),
        10 => write_near_query(generator, text),
        11 => write_odd_line(generator, text),
        _ => write_clock(generator, text),
    }
}

/// Cuts off `text` at a random place, or shortly before its end.
fn tear(rng: &mut Rng, text: &mut Vec<u8>) {
    let len = text.len() as u64;
    let torn_len = if rng.one_in(2) {
        rng.below(len)
    } else {
        len.saturating_sub(rng.below(12))
    };
    text.truncate(torn_len as usize);
}

/// Returns up to three lines, which [`write_line`] writes. One time in three, the text of these lines is torn.
fn lines(generator: &mut Generator, sent: &[Bytes]) -> Result<Vec<u8>, AllocError> {
    let mut text = Vec::new(generator.alloc);
    for _line in 0..generator.rng.below(3).saturating_add(1) {
        write_line(generator, sent, &mut text)?;
    }
    if generator.rng.one_in(3) {
        tear(&mut generator.rng, &mut text);
    }
    Ok(text)
}

/// Returns a tail for the agent whose tracks are currently stored in the generator. The tail is empty, or it contains
/// lines like those of agents that keep their events, for example for packets in `sent`. From time to time, the tail is
/// like those in schedules of other kinds.
pub(crate) fn kept_tail(generator: &mut Generator, sent: &[Bytes]) -> Result<Vec<u8>, AllocError> {
    match generator.rng.below(20) {
        0..=8 => Ok(Vec::new(generator.alloc)),
        9 => {
            let time = generator.event_edge();
            tail(generator, time)
        }
        _ => lines(generator, sent),
    }
}
