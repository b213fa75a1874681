//! Decodes packets in bulk: each line contains a packet in hex, and the answer is the text of the packet's message.

ghost use Rattle.std.specs.Prelude.{◌≡◌, ◌++◌, [], Ok, List, ℕ, IfErr, IfOk, OnOk, codes};
ghost use Rattle.std.specs.List.{list_any};
ghost use Rattle.std.specs.Io.KnownBytes.{Appends, Consumes, IsAtEnd};
ghost use Rattle.serf_text.specs.Lines.{lines_of, text_after};
ghost use Rattle.serf_text.specs.Streams.{IsStopped};
ghost use Rattle.serf_text.specs.WireText.{wire_text};
ghost use Rattle.serf_wire.specs.Decoded.{decoded};
ghost use Rattle.serf_packets.specs.Answers.{is_refused, line_answer, packet_answer, refuses_line};

use crate::framing::{Framing, framing_of};
use hex::FromHexError;
use serf_text::{
    DecodeTextError, LineJob, StreamError, StreamLineError, WireWords, answer_lines, decode_text,
};
use std::alloc::{AllocError, Global};
use std::io::{Read, Write};
use thiserror::Error;

/// A line is not hex, because it contains a byte that isn't a hex digit, or an odd number of digits.
#[derive(Clone, Copy, Debug, PartialEq, Eq, Error)]
#[error("the line is not hex")]
pub struct BadHex;

/// A hook that is called for each packet that begins like a memberlist message. The hook can't change any answer.
pub trait FramingNotes {
    /// Reports that the packet on line number `line`, counted from 1, begins like a memberlist message of the kind
    /// `framing`. The line number saturates at 2^64 - 1.
    fn framed(&mut self, line: u64, framing: Framing);
}

/// Appends to `out` the answer to a packet that is refused: a line with the word `refused` and the packet's error
/// (`words`), followed by an empty line.
fn write_refusal(alloc: Global, words: WireWords, out: &mut Vec<u8>) -> Result<(), AllocError>
    ensures { OnOk result (out.new.items ≡ out.old.items
        ++ (codes "refused " ++ wire_text words.error ++ codes "\n\n")) }
{
    let text = format!(in alloc; "refused {words}\n\n")?;
    out.extend_from_slice(text.as_bytes())
}

/// Appends to `out` the answer to `packet`: the text or the refusal of the packet, followed by an empty line. Returns
/// whether the packet is refused.
fn write_answer(alloc: Global, packet: &[u8], out: &mut Vec<u8>) -> Result<bool, AllocError>
    ensures text { OnOk result (out.new.items ≡ out.old.items ++ packet_answer packet.now) }
    ensures refused { IfOk result (λ refused. refused ≡ is_refused (decoded packet.now)) }
{
    match decode_text(alloc, packet) {
        Ok(text) => {
            out.extend_from_slice(&text)?;
            out.extend_from_slice(b"\n")?;
            Ok(false)
        }
        Err(DecodeTextError::Refused(words)) => {
            write_refusal(alloc, words, out)?;
            Ok(true)
        }
        Err(DecodeTextError::OutOfMemory) => Err(AllocError),
    }
}

/// Answers lines of hex, and reports memberlist packets to `notes`. `number` is the next line's number, counted from 1,
/// and `is_refused` is true if any packet was refused so far.
#[derive(Drop)]
struct PacketLines<'a, N> {
    notes: &'a mut N,
    number: u64,
    is_refused: bool,
}

impl<N: FramingNotes> LineJob for PacketLines<'_, N> {
    ghost use Rattle.std.specs.Prelude.{◌≡◌, List, ℕ};
    ghost use Rattle.std.specs.List.{list_any};
    ghost use Rattle.serf_packets.specs.Answers.{line_answer, refuses_line};

    type OwnError = BadHex;

    // At any point, the job records whether a packet on one of the lines so far was refused.
    ghost follows = { λ job lines. job.is_refused ≡ list_any refuses_line lines };

    ghost answer = { line_answer };

    /// Answers `line`, which contains a packet in hex, by writing to `text`, which is empty before the call.
    fn read_line(
        &mut self,
        alloc: Global,
        line: &[u8],
        text: &mut Vec<u8>,
    ) -> Result<(), StreamLineError<BadHex>> {
        let number = self.number;
        self.number = number.saturating_add(1);
        if line.is_empty() {
            return Ok(());
        }
        let packet = match hex::decode(alloc, line) {
            Ok(packet) => packet,
            Err(FromHexError::OutOfMemory) => return Err(StreamLineError::OutOfMemory),
            Err(_) => return Err(StreamLineError::Bad(BadHex)),
        };
        if let Some(framing) = framing_of(&packet) {
            self.notes.framed(number, framing);
        }
        match write_answer(alloc, &packet, text) {
            Ok(is_refused) => {
                self.is_refused = self.is_refused || is_refused;
                Ok(())
            }
            Err(_) => Err(StreamLineError::OutOfMemory),
        }
    }
}

/// Reads packets in hex, one on each line, and writes an answer to each packet. The answer is the text of the packet's
/// message, as [`serf_text::decode_text`] returns it, or a line `refused FAULT`. An empty line follows each answer. An
/// empty line has no answer. The value in `Ok` is true if any packet was refused. The function calls `notes` for each
/// packet that begins like a memberlist message.
///
/// Before the function reads more bytes, it writes the answers to all complete lines. A line may be up to 16,777,216
/// bytes long, and there may be any number of lines. If a line is not hex, the function answers the lines before it and
/// then stops.
pub fn decode_lines<R: Read, W: Write, N: FramingNotes>(
    alloc: Global,
    reader: &mut R,
    writer: &mut W,
    notes: &mut N,
) -> Result<bool, StreamError<BadHex>>
    // If the function succeeds, it has written the answers to all lines, and nothing else. Each answer depends only on
    // its own line.
    ensures done { IfOk result (λ is_refused. (bytes text : List ℕ)
        × Consumes (R.remaining reader.old) (R.remaining reader.new) bytes
        × IsAtEnd (R.remaining reader.new) × (text_after line_answer [] (lines_of bytes) ≡ Ok text)
        × Appends (W.contents writer.old) (W.contents writer.new) text
        × (is_refused ≡ list_any refuses_line (lines_of bytes))) }
    // If the function returns an error, it has answered some of the lines that it read. Which further guarantees hold
    // depends on the error.
    ensures stopped { IfErr result (λ error. (bytes : List ℕ)
        × Consumes (R.remaining reader.old) (R.remaining reader.new) bytes
        × IsStopped line_answer error (lines_of bytes) (W.contents writer.old)
        (W.contents writer.new)) }
{
    let mut job = PacketLines {
        notes,
        number: 1,
        is_refused: false,
    };
    match answer_lines(alloc, reader, writer, &mut job) {
        Ok(()) => Ok(job.is_refused),
        Err(error) => Err(error),
    }
}
