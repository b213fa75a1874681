//! Converts a schedule written by a person into the text of a schedule. In a written schedule, a person may use names
//! instead of numbers, texts instead of hex digits, and labels for packets.
#![tactic(auto)]

mod actions;
mod filters;
mod labels;
mod query_spec;
mod said;
mod scanner;
mod schedule;
mod settings;
mod token;
mod values;
mod word_error;
mod writing;

pub use labels::Label;
pub use schedule::{WriteError, write};
pub use token::Token;
pub use word_error::{Expected, WordError};
