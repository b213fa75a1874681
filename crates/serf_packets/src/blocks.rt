//! Encodes texts in bulk. A block consists of the lines between two empty lines. The answer to a block is the packet of
//! the block's message, in hex.

ghost use Rattle.std.specs.Prelude.{◌≡◌, ◌++◌, ◌<◌, ◌↔◌, [], Ok, List, ℕ, IfErr, IfOk, OnOk, IsTrue, length};
ghost use Rattle.std.specs.Io.KnownBytes.{Appends, Consumes, IsAtEnd};
ghost use Rattle.serf_text.specs.Lines.{lines_of, text_after};
ghost use Rattle.serf_text.specs.Streams.{IsStopped};
ghost use Rattle.serf_packets.specs.Encoded.{answer_text, encoded};
ghost use Rattle.serf_packets.specs.Blocks.{block_answer, is_error, line_answer, reading_of, refuses_block};

use crate::encoding::{EncodeTextError, encode_text};
use serf_text::{
    LineJob, StreamError, StreamLineError, answer_lines, write_hex, write_with_number,
};
use std::alloc::{AllocError, Global};
use std::io::{Read, Write};

/// The error of a line in a stream of texts. This error never occurs, because even a text that isn't the text of a
/// message gets an answer.
#[derive(Clone, Copy, Debug, PartialEq, Eq)]
pub struct NeverBad;

/// The outcome of answering the texts in a stream.
#[derive(Clone, Copy, Debug, PartialEq, Eq)]
pub struct Blocks {
    /// Whether a text was refused.
    pub is_refused: bool,
    /// Whether the stream ends within a line, so that the last text in the stream has no answer.
    pub is_cut: bool,
}

/// Appends to `out` the answer to `text`: the packet of the text in hex, or `refused BadLine N`. Returns whether the
/// text is refused.
fn write_answer(alloc: Global, text: &[u8], out: &mut Vec<u8>) -> Result<bool, AllocError>
    ensures text { OnOk result (out.new.items ≡ out.old.items ++ answer_text (encoded text.now)) }
    ensures refused { IfOk result (λ refused. refused ≡ is_error (encoded text.now)) }
{
    let refused = match encode_text(alloc, text) {
        Ok(packet) => {
            write_hex(out, packet.as_slice())?;
            false
        }
        Err(EncodeTextError::BadLine(line)) => {
            write_with_number(out, b"refused BadLine", line)?;
            true
        }
        Err(EncodeTextError::OutOfMemory) => return Err(AllocError),
    };
    out.extend_from_slice(b"\n")?;
    Ok(refused)
}

/// Appends to `out` the answer to `block`, which contains the lines of a text. If `block` is empty, appends nothing.
/// Returns whether the text is refused.
fn write_block(alloc: Global, block: &[u8], out: &mut Vec<u8>) -> Result<bool, AllocError>
    ensures text { OnOk result (out.new.items ≡ out.old.items ++ block_answer block.now) }
    ensures refused { IfOk result (λ refused. refused ≡ refuses_block block.now) }
{
    if block.is_empty() {
        return Ok(false);
    }
    write_answer(alloc, block, out)
}

/// Collects the lines of a text in `block`, and answers the text when an empty line follows. `is_refused` is true if
/// any text was refused so far.
#[derive(Drop)]
struct BlockLines {
    block: Vec<u8>,
    is_refused: bool,
}

impl LineJob for BlockLines {
    ghost use Rattle.std.specs.Prelude.{◌≡◌, List, ℕ};
    ghost use Rattle.serf_packets.specs.Blocks.{line_answer, reading_held, reading_of};

    type OwnError = NeverBad;

    // At any point, the job has collected the lines since the last empty line, and records whether any earlier text was
    // refused.
    ghost follows = { λ job lines. reading_held job.block.items job.is_refused ≡ reading_of lines };

    ghost answer = { line_answer };

    /// If `line` is empty, writes the block's answer to `text`, and begins a new block. Otherwise, adds `line` to the
    /// block.
    fn read_line(
        &mut self,
        alloc: Global,
        line: &[u8],
        text: &mut Vec<u8>,
    ) -> Result<(), StreamLineError<NeverBad>> {
        if line.is_empty() {
            let Ok(refused) = write_block(alloc, self.block.as_slice(), text) else {
                return Err(StreamLineError::OutOfMemory);
            };
            self.is_refused = self.is_refused || refused;
            self.block.clear();
            return Ok(());
        }
        if self.block.extend_from_slice(line).is_err() {
            return Err(StreamLineError::OutOfMemory);
        }
        match self.block.extend_from_slice(b"\n") {
            Ok(()) => Ok(()),
            Err(_) => Err(StreamLineError::OutOfMemory),
        }
    }
}

/// Reads the texts of messages, each followed by an empty line, and writes an answer to each text. The answer is the
/// canonical packet in hex, as [`encode_text`] returns it, or `refused BadLine N`. N is the number of the first wrong
/// line in the text, counted from 1.
///
/// If no text precedes an empty line, the empty line has no answer. The bytes after the last newline in the stream are
/// also a line. If there are no bytes after the last newline, this last line is empty, and ends the last text. Before
/// the function reads more bytes, it writes the answers to all complete texts. A line may be up to 16,777,216 bytes
/// long, and the stream may contain any number of texts.
pub fn encode_blocks<R: Read, W: Write>(
    alloc: Global,
    reader: &mut R,
    writer: &mut W,
) -> Result<Blocks, StreamError<NeverBad>>
    // If the function succeeds, it has written the answers to all blocks, and nothing else. Each answer depends only on
    // its own block.
    ensures done { IfOk result (λ blocks. (bytes text : List ℕ)
        × Consumes (R.remaining reader.old) (R.remaining reader.new) bytes
        × IsAtEnd (R.remaining reader.new) × (text_after line_answer [] (lines_of bytes) ≡ Ok text)
        × Appends (W.contents writer.old) (W.contents writer.new) text
        × (blocks.is_refused ≡ (reading_of (lines_of bytes)).is_refused)
        × (IsTrue blocks.is_cut ↔ 0 < length (reading_of (lines_of bytes)).block)) }
    // If the function returns an error, it has answered some of the lines that it read. Which further guarantees hold
    // depends on the error.
    ensures stopped { IfErr result (λ error. (bytes : List ℕ)
        × Consumes (R.remaining reader.old) (R.remaining reader.new) bytes
        × IsStopped line_answer error (lines_of bytes) (W.contents writer.old)
        (W.contents writer.new)) }
{
    let mut job = BlockLines {
        block: Vec::new(alloc),
        is_refused: false,
    };
    match answer_lines(alloc, reader, writer, &mut job) {
        Ok(()) => Ok(Blocks {
            is_refused: job.is_refused,
            is_cut: !job.block.is_empty(),
        }),
        Err(error) => Err(error),
    }
}
