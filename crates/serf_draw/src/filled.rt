//! Puts texts together, either by appending items one after another, or by filling the blanks of a template.

ghost use Rattle.std.specs.List.{flat_map};
ghost use Rattle.std.specs.Prelude.{◌≡◌, ◌++◌, ℕ, List, OnOk};
ghost use Rattle.serf_draw.specs.declared.picture.Lane.{Lane};
ghost use Rattle.serf_draw.specs.Svg.{between};

use crate::escape::write_escaped;
use crate::label::write_short;
use crate::mermaid::{write_coded, write_participant};
use crate::picture::Lane;
use crate::svg::{write_label_place, write_place};
use serf_text::{TemplatePart, write_number};
use std::alloc::AllocError;

/// A part that fills a blank of a template in a picture.
#[derive(Clone, Copy)]
pub(crate) enum PicturePart<'a> {
    /// The bytes of a text, which are written unchanged.
    Text(&'a [u8]),
    Number(u64),
    /// The bytes of a text. If there are too many bytes, only their beginning and their number are written.
    Short(&'a [u8]),
    /// The bytes of a text, which are escaped for an SVG file.
    Escaped(&'a [u8]),
    /// The bytes of a text, which are coded for Mermaid.
    Coded(&'a [u8]),
    /// The middle of an agent's lane on the line of a row. The values are the lanes, the number of the agent, and the
    /// number of rows above this row.
    Place(&'a [Lane], Option<u64>, u64),
    /// The place at which all labels begin, to the right of the lanes.
    LabelPlace(&'a [Lane]),
    /// The participant of an agent. All agents without a lane in the list of lanes share one participant.
    Participant(&'a [Lane], Option<u64>),
}

/// For each kind of part, a function writes the text that fills the blank.
impl TemplatePart for PicturePart<'_> {
    ghost use Rattle.serf_draw.specs.Filled.{part_text};

    ghost text = { part_text };

    fn write_to(&self, out: &mut Vec<u8>) -> Result<(), AllocError> {
        match *self {
            PicturePart::Text(text) => out.extend_from_slice(text),
            PicturePart::Number(number) => write_number(out, number),
            PicturePart::Short(text) => write_short(out, text),
            PicturePart::Escaped(text) => write_escaped(out, text),
            PicturePart::Coded(text) => write_coded(out, text),
            PicturePart::Place(lanes, agent, rows) => write_place(out, lanes, agent, rows),
            PicturePart::LabelPlace(lanes) => write_label_place(out, lanes),
            PicturePart::Participant(lanes, agent) => write_participant(out, lanes, agent),
        }
    }
}

/// Appends a text, then `number`, and then another text.
#[tactic(auto, unfolding(crate::specs::Svg::between))]
pub(crate) fn write_between(
    out: &mut Vec<u8>,
    before: &[u8],
    number: u64,
    following: &[u8],
) -> Result<(), AllocError>
    ensures { OnOk result (out.new.items ≡ out.old.items
        ++ between before.now number following.now) }
{
    out.extend_from_slice(before)?;
    write_number(out, number)?;
    out.extend_from_slice(following)
}

/// Calls `put` for each item in `items`, in order. The function `put` appends the text of an item.
pub(crate) fn write_each<T, F: Fn(&mut Vec<u8>, &T) -> Result<(), AllocError>>(
    out: &mut Vec<u8>,
    items: &[T],
    put: F,
) -> Result<(), AllocError>
    requires { F.IsAlwaysCallable put }
    ensures { (text : T → List ℕ)
        → ((o : _) (x : _) (r : _) (after : _) → F.post put o x r after
        → OnOk r (after.now.items ≡ o.now.items ++ text x.now))
        → OnOk result (out.new.items ≡ out.old.items ++ flat_map text items.now) }
{
    for item in items {
        put(out, item)?;
    }
    Ok(())
}

/// Calls `put` with `lanes` for each item in `items`, in order. The function `put` appends the text of an item.
pub(crate) fn write_each_with_lanes<T, F: Fn(&mut Vec<u8>, &[Lane], &T) -> Result<(), AllocError>>(
    out: &mut Vec<u8>,
    lanes: &[Lane],
    items: &[T],
    put: F,
) -> Result<(), AllocError>
    requires { F.IsAlwaysCallable put }
    ensures { (text : List Lane → T → List ℕ)
        → ((o : _) (l : _) (x : _) (r : _) (after : _) → F.post put o l x r after
        → OnOk r (after.now.items ≡ o.now.items ++ text l.now x.now))
        → OnOk result (out.new.items ≡ out.old.items ++ flat_map (text lanes.now) items.now) }
{
    for item in items {
        put(out, lanes, item)?;
    }
    Ok(())
}
