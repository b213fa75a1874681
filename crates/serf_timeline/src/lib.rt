//! Writes a timeline, which is a single HTML page. The page shows which handlers ran, according to their logs, or which
//! actions the agents performed in a schedule, or both. The page contains its script and needs no network. Without the
//! script, the page shows a verdict, pictures and texts.
//!
//! Whatever bytes the texts contain, no text can begin or end an element of the page.
#![tactic(auto)]

mod escape;
mod frame;
mod markup;
mod page;
mod script_1;
mod script_2;
mod still;

pub use escape::escape_laws;
pub use page::{Page, write_page};
pub use still::{Column, LogLine, Logs, Run};
