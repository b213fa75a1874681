//! The commands `decode` and `encode`. The command `decode` prints the messages in packets that are given in hex. The
//! command `encode` reads the texts that `decode` prints, each of which ends with an empty line, and writes the
//! packets.

use crate::command_error::{CommandError, CommandResult, Status, stream_error};
use crate::io::Io;
use crate::options::OptionKind::{Place, Word};
use crate::options::{CommandKind, CommandRow, is_json, rows};
use clap::ArgMatches;
use hex::FromHexError;
use serf_packets::{Framing, FramingNotes, decode_lines, encode_blocks, framing_of};
use serf_run_json::{decode_objects, packet_object};
use serf_text::{DecodeTextError, decode_text};
use std::io;

/// The options and arguments of `decode`.
pub(crate) const DECODE: CommandRow = CommandRow {
    kind: CommandKind::Decode,
    name: "decode",
    about: "Prints the message that a packet spells",
    example: "Example: serf-replay decode 0381a44e616d65a178, or serf-replay decode < packets",
    rows: rows! {
        "HEX" Place => "The packet in hex digits; if it is left out or `-`, each line of standard input is a packet";
        "format" Word("FORM") => "`text` (the default), or `json`: one object a packet";
    },
};

/// The command `encode`, which has no options and no arguments.
pub(crate) const ENCODE: CommandRow = CommandRow {
    kind: CommandKind::Encode,
    name: "encode",
    about: "Reads messages from standard input, in the form that decode prints, and writes their canonical packets",
    example: "Example: serf-replay decode < packets | serf-replay encode",
    rows: &[],
};

/// Returns the sentence that the program prints about a packet that has the given framing.
fn framing_message(framing: Framing) -> &'static str {
    match framing {
        Framing::Probe => "looks like a message of memberlist: a ping or an ack",
        Framing::Rumour => "looks like a message of memberlist: a node is suspect, alive or dead",
        Framing::Compound => "begins like memberlist's framing: 7, a compound message",
        Framing::User => "begins like memberlist's framing: 8, a user message",
        Framing::Compressed => "begins like memberlist's framing: 9, a compressed message",
        Framing::Checksum => "begins like memberlist's framing: 12, a checksum",
    }
}

/// Reports on standard error which packets have framing, with one line for each of these packets.
impl FramingNotes for Io<'_> {
    fn framed(&mut self, line: u64, framing: Framing) {
        let said = framing_message(framing);
        let _ = eprintln!(self.rt; "line {line} {said}");
    }
}

/// Decodes the packet on each line of standard input, and writes the result as text or as an object.
fn decode_all<'a>(io: Io, is_json: bool) -> CommandResult<'a> {
    let (mut notes, mut source, mut output) = (io, io.source(None)?, io::writer(&io));
    let decoded = if is_json {
        decode_objects(io.alloc(), &mut source, &mut output, &mut notes)
    } else {
        decode_lines(io.alloc(), &mut source, &mut output, &mut notes)
    };
    match decoded {
        Ok(is_refused) => Ok(Status::refused_if(is_refused)),
        Err(error) => Err(stream_error(error, "BadHex")),
    }
}

/// Prints the object of a packet.
fn print_object<'a>(io: Io, packet: &[u8]) -> CommandResult<'a> {
    let mut out = Vec::new(io.alloc());
    let is_refused = packet_object(io.alloc(), &mut out, None, packet)?;
    io.finish(&out)?;
    Ok(Status::refused_if(is_refused))
}

/// Prints the message in a packet.
fn print_message<'a>(io: Io, packet: &[u8]) -> CommandResult<'a> {
    match decode_text(io.alloc(), packet) {
        Ok(text) => io.finish(&text),
        Err(DecodeTextError::Refused(error)) => {
            let _ = eprintln!(io.rt; "refused {error}");
            Ok(Status::Refused)
        }
        Err(DecodeTextError::OutOfMemory) => Err(CommandError::NoMemory),
    }
}

/// Reports why a word is not a packet in hex. If the word is the name of a file, a second line shows the command that
/// decodes a file.
fn tell_bad_hex(io: Io, text: &str) -> Status {
    let count = text.len();
    let mut characters = text.chars();
    let _ = match characters.position(|character| !character.is_ascii_hexdigit()) {
        Some(place) => {
            let number = place.saturating_add(1);
            eprintln!(io.rt; "bad hex: character {number} is not a hex digit")
        }
        None => eprintln!(io.rt; "bad hex: an odd number of digits, {count}"),
    };
    if io.file(text).is_ok() {
        let _ = eprintln!(io.rt; "to decode a file, run: serf-replay decode < {text}");
    }
    Status::Refused
}

/// Prints the message in a packet that is given in hex. If the packet has framing, the function first reports the
/// framing on standard error.
fn decode_word<'a>(io: Io, text: &str, is_json: bool) -> CommandResult<'a> {
    let packet = match hex::decode(io.alloc(), text) {
        Ok(packet) => packet,
        Err(FromHexError::OutOfMemory) => return Err(CommandError::NoMemory),
        Err(_) => return Ok(tell_bad_hex(io, text)),
    };
    if let Some(framing) = framing_of(&packet) {
        let said = framing_message(framing);
        let _ = eprintln!(io.rt; "the packet {said}");
    }
    if is_json {
        print_object(io, &packet)
    } else {
        print_message(io, &packet)
    }
}

/// Prints the message in the packet that the command line contains, or in each packet on standard input.
pub(super) fn decode<'a>(io: Io, matches: &ArgMatches<'a>) -> CommandResult<'a> {
    let is_json = is_json(matches)?;
    match matches.get_str("HEX") {
        None | Some("-") => decode_all(io, is_json),
        Some(text) => decode_word(io, text, is_json),
    }
}

/// Encodes each text on standard input, and writes the resulting packets. If the input ends in the middle of the last
/// text, the function reports this on standard error.
pub(super) fn encode<'a>(io: Io, _matches: &ArgMatches<'a>) -> CommandResult<'a> {
    let mut source = io.source(None)?;
    let blocks = match encode_blocks(io.alloc(), &mut source, &mut io::writer(&io)) {
        Ok(blocks) => blocks,
        Err(error) => return Err(stream_error(error, "BadText")),
    };
    if blocks.is_cut {
        let _ = eprintln!(io.rt; "the last text is cut off: its last line has no newline");
    }
    Ok(Status::refused_if(blocks.is_cut || blocks.is_refused))
}
