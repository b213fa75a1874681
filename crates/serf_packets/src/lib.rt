//! Decodes and encodes packets in bulk. Decoding reads packets in hex, one on each line, and writes the text of each
//! packet. Encoding reads the texts of messages, and writes the canonical packet of each message (docs/SPEC.md, "The
//! text of a packet").
#![tactic(auto)]

mod blocks;
mod encoding;
mod framing;
mod job;
mod laws;
mod meant;
mod packets;
mod row;
mod slots;

pub use blocks::{Blocks, NeverBad, encode_blocks};
pub use encoding::{EncodeTextError, encode_text};
pub use framing::{Framing, framing_of};
pub use job::{BadHex, FramingNotes, decode_lines};
pub use laws::{know_texts_taken, know_texts_tell_apart};
