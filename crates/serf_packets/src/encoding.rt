//! Encodes the text of a message: if the message's canonical packet decodes to exactly the same text, returns the
//! packet.

ghost use Rattle.std.specs.Prelude.{◌≡◌, ◌+◌, ◌≤◌, ◌==◌, ℕ, Ok, Err, IfOk, codes, filter, length, take};
ghost use Rattle.std.specs.Option.{option_map};
ghost use Rattle.serf_wire.specs.Canonical.{canonical, has_long};
ghost use Rattle.serf_wire.specs.Decoded.{decoded};
ghost use Rattle.serf_wire.specs.Message.{Message};
ghost use Rattle.serf_text.specs.MessageText.{text_or_error};
ghost use Rattle.serf_packets.specs.declared.encoding.EncodeTextError.TheVariants.{BadLine};
ghost use Rattle.serf_packets.specs.Encoded.{common, encoded, other_line, said_by};

use crate::packets::packet_of_text;
use serf_text::{DecodeTextError, decode_text};
use std::alloc::{AllocError, Global};
use thiserror::Error;

/// The reason why a text wasn't encoded.
#[derive(Clone, Copy, Debug, PartialEq, Eq, Error)]
pub enum EncodeTextError {
    /// The text isn't the text of a canonical packet. The value is the number of the first wrong line, counted from 1.
    /// A line is wrong if it differs from the corresponding line in the text of the intended message's canonical
    /// packet. If the lines describe no message, the number is 1.
    #[error("line {0} differs from the text of the message's canonical packet")]
    BadLine(u64),
    /// Memory ran out.
    #[error("out of memory")]
    OutOfMemory,
}

/// Returns the length of the longest common prefix of `text` and `other`.
#[tactic(auto, using(crate::proofs::ListLaws::common_nothing))]
fn common_len(text: &[u8], other: &[u8]) -> usize
    ensures count { result ≡ common text.now other.now }
    ensures within { result ≤ length text.now }
{
    let mut len = 0;
    'bytes: while len < text.len() && len < other.len() && text[len] == other[len] {
        len += 1;
    }
    len
}

/// Returns the number of newlines in `text`.
fn count_newlines(text: &[u8]) -> usize
    ensures within { result ≤ length text.now }
    ensures count { result ≡ length (filter (λ b. b == 10) text.now) }
{
    text.iter().filter(|b| **b == b'\n').count()
}

/// Returns the number, counted from 1, of the first line in which `text` differs from `other`.
fn first_other_line(text: &[u8], other: &[u8]) -> u64
    ensures { result ≡ other_line text.now other.now }
{
    let len = common_len(text, other);
    count_newlines(&text[..len]) as u64 + 1
}

/// Returns the text to which `packet` decodes, or no bytes if the packet is refused.
fn text_of_packet(alloc: Global, packet: &[u8]) -> Result<Vec<u8>, AllocError>
    ensures { IfOk result (λ text. text.items ≡ said_by (text_or_error (decoded packet.now))) }
{
    match decode_text(alloc, packet) {
        Ok(text) => Ok(text),
        Err(DecodeTextError::Refused(_)) => Ok(Vec::new(alloc)),
        Err(DecodeTextError::OutOfMemory) => Err(AllocError),
    }
}

/// Returns the packet of `text`, or the number of the first line that differs. [`encode_text`] returns the same result,
/// but its contract states more.
#[tactic(auto, unfolding(crate::specs::Encoded::encoded))]
fn encode_exactly(alloc: Global, text: &[u8]) -> Result<Vec<u8>, EncodeTextError>
    ensures packet { IfOk result (λ packet. encoded text.now ≡ Ok packet.items) }
    ensures refused { (line : ℕ) → result ≡ Err (BadLine line) → encoded text.now ≡ Err line }
{
    let Ok(packet) = packet_of_text(alloc, text) else {
        return Err(EncodeTextError::OutOfMemory);
    };
    let Some(packet) = packet else {
        return Err(EncodeTextError::BadLine(first_other_line(text, &[])));
    };
    let Ok(decoded_text) = text_of_packet(alloc, packet.as_slice()) else {
        return Err(EncodeTextError::OutOfMemory);
    };
    if decoded_text.as_slice() == text {
        Ok(packet)
    } else {
        Err(EncodeTextError::BadLine(first_other_line(text, decoded_text.as_slice())))
    }
}

/// Returns the canonical packet of the message whose text is `text`, as [`serf_text::decode_text`] writes it.
///
/// The result is `BadLine` if `text` isn't the text of a message. The result is also `BadLine` if the text of the
/// message's canonical packet differs from `text`. For example, a slot with a time but without events is nil in the
/// canonical packet of a push/pull. If a canonical packet decodes to `text`, the result is that packet
/// ([`crate::know_texts_taken`]).
#[tactic(auto, using(crate::proofs::TakenLaws::decodes_to_text, crate::proofs::TakenLaws::is_canonical))]
pub fn encode_text(alloc: Global, text: &[u8]) -> Result<Vec<u8>, EncodeTextError>
    // The result is the packet or the number of the first wrong line, as the definition states.
    ensures packet { IfOk result (λ packet. encoded text.now ≡ Ok packet.items) }
    ensures refused { (line : ℕ) → result ≡ Err (BadLine line) → encoded text.now ≡ Err line }
    // The packet decodes to exactly this text.
    ensures text { IfOk result (λ packet. text_or_error (decoded packet.items) ≡ Ok text.now) }
    // The packet is canonical.
    ensures canonical { IfOk result (λ packet. (m : Message) × (packet.items ≡ canonical m)) }
{
    encode_exactly(alloc, text)
}
