//! Reads and writes texts: the words of a line and their meaning, numbers, bytes in hex, quoted texts, and templates
//! with blanks to fill. Also prints the messages of packets, errors and the clocks of a snapshot, reads whole inputs,
//! writes whole outputs, and answers the lines of a text or of a stream.
//!
//! Nothing in this crate depends on agents, or on what they do in a cluster.
#![tactic(auto)]

mod cause;
mod clock_lines;
mod input;
mod kept;
mod line_job;
mod message_lines;
mod part;
mod put;
mod quoted;
mod stream;
mod stream_error;
mod template;
mod whole;
mod wire_words;
mod words;

pub use cause::{Cause, LineError};
pub use clock_lines::clocks_text;
pub use input::{InputError, MAX_SCHEDULE_BYTES, read_input};
pub use kept::MAX_LINE_BYTES;
pub use line_job::{LineJob, LineReporter};
pub use message_lines::{DecodeTextError, decode_text, write_members, write_message, write_slot};
pub use part::Part;
pub use put::{
    WriteError, flag, write_hex, write_number, write_number_line, write_output, write_signed,
    write_with_hex, write_with_number,
};
pub use quoted::{stands, write_printable, write_quoted};
pub use stream::{answer_lines, report_lines};
pub use stream_error::{StreamError, StreamLineError};
pub use template::{TemplatePart, write_template};
pub use whole::report_text;
pub use wire_words::{WireWords, write_wire_error};
pub use words::{
    FIXED_WORDS, bytes_at, choice, choice_at, hex_bytes, is_word, number, number_at,
    number_from_to, split_once, split_words, split_words_into, word_at,
};
