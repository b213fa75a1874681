//! Draws pictures of runs, as an SVG file or as text for Mermaid. A picture contains a lane for each agent, and an
//! arrow for each packet that is passed to an agent.
#![tactic(auto)]

mod drawing;
mod escape;
mod filled;
mod label;
mod mermaid;
mod options;
mod picture;
mod rows;
mod style;
mod svg;

pub use drawing::{DrawError, draw_picture};
pub use escape::{escape_laws, write_escaped};
pub use mermaid::{coded_laws, mermaid_text};
pub use options::DrawOptions;
pub use picture::{Arrow, Lane, Packet, Picture, Row, Sender, Tone};
pub use svg::svg_text;
