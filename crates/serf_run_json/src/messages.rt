//! Writes the messages in packets, as objects and as members of other objects.

ghost use Rattle.std.specs.Prelude.{◌≡◌, ◌++◌, [], List, ℕ, Ok, Err, IfErr, IfOk, OnOk};
ghost use Rattle.std.specs.List.{list_any};
ghost use Rattle.std.specs.Io.KnownBytes.{Appends, Consumes, IsAtEnd};
ghost use Rattle.serf_wire.specs.Decoded.{decoded};
ghost use Rattle.serf_wire.specs.Message.{message_of};
ghost use Rattle.serf_text.specs.Lines.{lines_of, text_after};
ghost use Rattle.serf_text.specs.Streams.{IsStopped};
ghost use Rattle.serf_packets.specs.Answers.{is_refused, refuses_line};
ghost use Rattle.serf_json.specs.Object.{member_text, members_text};
ghost use Rattle.serf_run_json.specs.Messages.{decoded_members, line_member as member_of_line, line_object, own_members, packet_object, said_members, type_word};

use serf_json::Member::{self, Absent, Bytes, Flag, Hex, Number, Text};
use serf_json::{write_joined, write_object};
use serf_packets::{BadHex, FramingNotes, framing_of};
use serf_text::{
    LineJob, StreamError, StreamLineError, answer_lines, write_message, write_wire_error,
};
use serf_wire::{Message, WireError, decode};
use std::alloc::{AllocError, Global};
use std::io::{Read, Write};

/// Returns the JSON members that describe a message: its time, its ID, its name or sender, and its payload. If the
/// message doesn't have one of these, the member for it is absent.
#[tactic(auto, unfolding(serf_json::specs::Object::members_text))]
pub(crate) fn message_members<'a>(message: &Message<'a>) -> [Member<'a>; 4]
    ensures { members_text result ≡ said_members (message_of message.now) }
{
    match message {
        Message::UserEvent(event) => [
            Number(b"time", event.time.get()),
            Absent,
            Bytes(b"name", event.name),
            Bytes(b"payload", event.payload),
        ],
        Message::Query(query) => [
            Number(b"time", query.time.get()),
            Number(b"id", u64::from(query.id)),
            Bytes(b"name", query.name),
            Bytes(b"payload", query.payload),
        ],
        Message::QueryResponse(answer) => [
            Number(b"time", answer.time),
            Number(b"id", u64::from(answer.id)),
            Bytes(b"from", answer.from),
            Bytes(b"payload", answer.payload),
        ],
        Message::PushPull(_) | Message::Foreign(_) => NOTHING,
    }
}

/// The JSON members that describe a message when all of them are absent.
pub(crate) const NOTHING: [Member<'static>; 4] = [Absent, Absent, Absent, Absent];

/// Returns the JSON members that describe the message in `packet`.
#[tactic(auto, unfolding(serf_json::specs::Object::members_text))]
pub(crate) fn packet_members(packet: &[u8]) -> [Member<'_>; 4]
    ensures { members_text result ≡ decoded_members (decoded packet.now) }
{
    match decode(packet) {
        Ok(message) => message_members(&message),
        Err(_) => NOTHING,
    }
}

/// Returns the JSON members that only messages of some kinds have: whether an event may be coalesced, and the clocks in
/// a state.
#[tactic(auto, unfolding(serf_json::specs::Object::members_text, crate::specs::Members::number_member, crate::specs::Members::flag_member))]
fn own_members<'a>(message: &Message) -> [Member<'a>; 3]
    ensures { members_text result ≡ own_members (message_of message.now) }
{
    match message {
        Message::UserEvent(event) => [Flag(b"coalesce", event.coalesce), Absent, Absent],
        Message::PushPull(state) => [
            Number(b"clock", state.member_clock),
            Number(b"event_clock", state.event_clock),
            Number(b"query_clock", state.query_clock),
        ],
        _ => [Absent, Absent, Absent],
    }
}

/// Returns the word for the type of `message`. The text of the message begins with this word.
fn type_word(message: &Message) -> &'static [u8]
    ensures { result.now ≡ type_word (message_of message.now) }
{
    match message {
        Message::UserEvent(_) => b"userEvent",
        Message::Query(_) => b"query",
        Message::QueryResponse(_) => b"queryResponse",
        Message::PushPull(_) => b"pushPull",
        Message::Foreign(_) => b"foreign",
    }
}

/// Returns the JSON member that contains the number of the line from which a packet was read, or an absent member if
/// `line` is `None`.
#[tactic(auto, unfolding(crate::specs::Members::number_member))]
fn line_member<'a>(line: Option<u64>) -> Member<'a>
    ensures { member_text result ≡ member_of_line line }
{
    match line {
        Some(line) => Number(b"line", line),
        None => Absent,
    }
}

/// Appends an object for `message`, which is the message in `packet`.
fn write_message_object<'a>(
    alloc: Global,
    out: &mut Vec<u8>,
    line: Option<u64>,
    packet: &'a [u8],
    message: &Message<'a>,
) -> Result<(), AllocError>
    ensures { OnOk result (out.new.items ≡ out.old.items
        ++ packet_object line packet.now (Ok (message_of message.now))) }
{
    let mut text = Vec::new(alloc);
    write_message(&mut text, message)?;
    let [time, id, name, payload] = message_members(message);
    let front = [
        line_member(line),
        Hex(b"packet", packet),
        Text(b"type", type_word(message)),
        time,
        id,
        name,
        payload,
        Text(b"text", &text),
    ];
    write_joined(out, b"message", &front, &own_members(message))
}

/// Appends the object that reports why `packet` was refused. The argument `error` is the first error in the packet.
fn write_refusal(
    alloc: Global,
    out: &mut Vec<u8>,
    line: Option<u64>,
    packet: &[u8],
    error: WireError,
) -> Result<(), AllocError>
    ensures { OnOk result (out.new.items ≡ out.old.items
        ++ packet_object line packet.now (Err error)) }
{
    let mut words = Vec::new(alloc);
    write_wire_error(&mut words, error)?;
    let members = [
        line_member(line),
        Hex(b"packet", packet),
        Text(b"error", &words),
    ];
    write_object(out, b"refused", &members)
}

/// Appends a line with an object for `packet`, which describes either the message in the packet or the reason why the
/// packet was refused. If the packet was read from a line, `line` is the number of that line. Returns whether the
/// packet was refused.
///
/// If the packet contains a message, its object is of the kind `message`. This object begins with the number of the
/// line (if there is one), the packet in hex, and the type of the message. After that, it contains the message's time,
/// its ID, its name or sender, its payload, and its text, as [`serf_text::decode_text`] returns it. The last members of
/// the object show whether an event may be coalesced, or contain the clocks in a state. If the message doesn't have one
/// of these properties, the member for it is absent. If the packet was refused, its object is of the kind `refused`,
/// and contains the number of the line (if there is one), the packet in hex, and the words for the packet's first
/// error.
///
/// If memory runs out (`AllocError`), only a prefix of the line may have been appended to `out`.
pub fn packet_object(
    alloc: Global,
    out: &mut Vec<u8>,
    line: Option<u64>,
    packet: &[u8],
) -> Result<bool, AllocError>
    ensures object { OnOk result (out.new.items ≡ out.old.items
        ++ packet_object line packet.now (decoded packet.now)) }
    ensures refused { IfOk result (λ refused. refused ≡ is_refused (decoded packet.now)) }
{
    match decode(packet) {
        Ok(message) => {
            write_message_object(alloc, out, line, packet, &message)?;
            Ok(false)
        }
        Err(error) => {
            write_refusal(alloc, out, line, packet, error)?;
            Ok(true)
        }
    }
}

/// Writes an object for the packet on each line. The field `number` is the number of the next line, counted from 1, and
/// `is_refused` is true if any packet has been refused so far.
#[derive(Drop)]
struct PacketObjects<'a, N> {
    notes: &'a mut N,
    number: u64,
    is_refused: bool,
}

impl<N: FramingNotes> LineJob for PacketObjects<'_, N> {
    ghost use Rattle.std.specs.Prelude.{◌≡◌, List, ℕ};
    ghost use Rattle.std.specs.List.{list_any};
    ghost use Rattle.serf_text.specs.Lines.{number_after};
    ghost use Rattle.serf_packets.specs.Answers.{refuses_line};
    ghost use Rattle.serf_run_json.specs.Messages.{line_object};

    type OwnError = BadHex;

    // After each line, the job stores the number of the next line, and whether any packet so far was refused.
    ghost follows = { λ job lines. (job.number ≡ number_after lines)
        × (job.is_refused ≡ list_any refuses_line lines) };

    ghost answer = { line_object };

    /// Writes an object for the packet in `line`, which is in hex, to the empty buffer `text`. If the line is empty, no
    /// object is written.
    fn read_line(
        &mut self,
        alloc: Global,
        line: &[u8],
        text: &mut Vec<u8>,
    ) -> Result<(), StreamLineError<BadHex>> {
        let number = self.number;
        self.number = number.saturating_add(1);
        if line.is_empty() {
            return Ok(());
        }
        let packet = match hex::decode(alloc, line) {
            Ok(packet) => packet,
            Err(hex::FromHexError::OutOfMemory) => return Err(StreamLineError::OutOfMemory),
            Err(_) => return Err(StreamLineError::Bad(BadHex)),
        };
        if let Some(framing) = framing_of(&packet) {
            self.notes.framed(number, framing);
        }
        match packet_object(alloc, text, Some(number), &packet) {
            Ok(is_refused) => {
                self.is_refused = self.is_refused || is_refused;
                Ok(())
            }
            Err(_) => Err(StreamLineError::OutOfMemory),
        }
    }
}

/// Reads packets in hex, one on each line, and writes a line with an object for each packet, as [`packet_object`] does.
/// Each object contains the number of the packet's line, counted from 1. For an empty line, the function writes no
/// object. The value in `Ok` is true if any packet was refused. The function calls `notes` for each packet that begins
/// like one of memberlist's own messages.
///
/// The function writes the objects for all complete lines before it reads more. A line may have up to 16,777,216 bytes,
/// and there may be any number of lines. The line numbers stop at 2^64 - 1, which is also the number of all later
/// lines. If a line isn't hex, the function writes the objects for all lines before it, and then stops.
pub fn decode_objects<R: Read, W: Write, N: FramingNotes>(
    alloc: Global,
    reader: &mut R,
    writer: &mut W,
    notes: &mut N,
) -> Result<bool, StreamError<BadHex>>
    // Exactly the objects for all lines were written.
    ensures done { IfOk result (λ is_refused. (bytes text : List ℕ)
        × Consumes (R.remaining reader.old) (R.remaining reader.new) bytes
        × IsAtEnd (R.remaining reader.new) × (text_after line_object [] (lines_of bytes) ≡ Ok text)
        × Appends (W.contents writer.old) (W.contents writer.new) text
        × (is_refused ≡ list_any refuses_line (lines_of bytes))) }
    // Objects were written for some of the lines that were read. The error determines which other facts hold.
    ensures stopped { IfErr result (λ error. (bytes : List ℕ)
        × Consumes (R.remaining reader.old) (R.remaining reader.new) bytes
        × IsStopped line_object error (lines_of bytes) (W.contents writer.old)
        (W.contents writer.new)) }
{
    let mut job = PacketObjects {
        notes,
        number: 1,
        is_refused: false,
    };
    match answer_lines(alloc, reader, writer, &mut job) {
        Ok(()) => Ok(job.is_refused),
        Err(error) => Err(error),
    }
}
