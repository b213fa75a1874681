//! Reads and writes MessagePack values, with a check that allocates no memory, views of checked bytes, and
//! appenders.
//!
//! [`check`] reads a byte list once. It returns a [`View`] of the one value that the bytes spell, or the
//! first [`PackError`] in reading order. A view reads its value in place, by [`View::kind`], [`View::int`],
//! [`View::flag`] and [`View::raw`]. It reads the parts of the value by [`View::items`] and [`View::pairs`].
//! The `write_` functions append canonical spellings to a vector.
//!
//! The formats are those of the MessagePack specification, "Formats", with the following profile. Str and bin
//! are one kind, a byte string (`raw`), which need not be UTF-8. Any spelling of a number, a length or a
//! count is accepted, even if it isn't the shortest. Floats, ext and timestamps are refused as unsupported.
//! An array or a map may be nested inside at most seven others. Nothing may follow the value. A map is a list
//! of pairs, whose keys may be any values and may repeat.
//!
//! The relation `Packs` of `specs/Packs.antt` defines what bytes spell, and `IsMalformed` of
//! `specs/Breaks.antt` defines the first error of bytes that spell nothing. [`one_reading`],
//! [`canonical_heads`] and [`appenders_pack`] are laws about these definitions.
#![tactic(auto)]

mod error;
mod head;
mod laws;
mod put;
mod skip;
mod view;
mod walk;
mod whole;

pub use error::PackError;
pub use laws::{appenders_pack, canonical_heads, exact_reading, one_reading};
pub use put::{
    write_array, write_bool, write_integer, write_map, write_nil, write_raw, write_unsigned,
};
pub use view::{Kind, View};
pub use walk::{Items, Pairs};
pub use whole::{check, view_packed};
