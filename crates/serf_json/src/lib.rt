//! Writes JSON objects, each on its own line, with a version and a kind as the first members.
//!
//! The bytes of an object are printable ASCII and nothing else, whatever texts the object contains. They can be
//! copied into an HTML page, because `<`, `>` and `&` are escaped.
#![tactic(auto)]

mod member;
mod object;
mod text;

pub use member::Member;
pub use object::{write_joined, write_object};
