//! Writes a picture as an SVG file.

ghost use Rattle.std.specs.Prelude.{◌≡◌, ◌++◌, ◌+◌, ◌-◌, IfOk, OnOk};
ghost use Rattle.std.specs.List.{flat_map};
ghost use Rattle.serf_draw.specs.Svg.{agent_thousands, arrow_line, arrow_text, back_text, begins_outside as arrow_begins_outside, columns as columns_of, cross_text, frame_text, front_text, guide_text, has_outside as any_outside, head_text, heads_text, is_outside as outside_of, label_place, lane_line, lane_place as place_among, lanes_text, legend_text, line_above as above, line_of, mark_text, name_text, names_text, outside_text, place_text, row_text, size_text, svg_of, tone_word as word_of, view_text};

use crate::filled::{PicturePart, write_between, write_each, write_each_with_lanes};
use crate::label::{label_columns, longest, short_name};
use crate::picture::{Arrow, Lane, Picture, Row, Sender, Tone};
use crate::style::{CROSS, LEGEND, OPENING, ROW, STYLE};
use serf_text::{write_number, write_template};
use std::alloc::{AllocError, Global};

/// The number of rows between two lines that contain the names of the lanes.
const NAMED_ROWS: u64 = 40;

/// Returns the number of the line above a row. There are `rows` other rows above this row. After every [`NAMED_ROWS`]
/// rows, there is an additional line with the names of the lanes.
fn line_above(rows: u64) -> u64
    ensures { result ≡ above rows }
{
    rows.saturating_add(rows / NAMED_ROWS)
}

/// Returns the number of the line on which a row is drawn. There are `rows` other rows above this row.
fn line(rows: u64) -> u64
    ensures { result ≡ line_of rows }
{
    line_above(rows).saturating_add(1)
}

/// Returns the index in `lanes` of the lane of agent number `agent`. Lanes are counted from the left.
fn lane_place(lanes: &[Lane], agent: u64) -> Option<usize>
    ensures { result ≡ place_among lanes.now agent }
{
    lanes.iter().position(|lane| lane.agent == agent)
}

/// Appends the index of the agent's lane in `lanes`. The index of a lane is also the lane's x coordinate in thousands.
/// If the agent has no lane, the function appends a `-` instead.
fn write_thousands(out: &mut Vec<u8>, lanes: &[Lane], agent: Option<u64>) -> Result<(), AllocError>
    ensures { OnOk result (out.new.items ≡ out.old.items ++ agent_thousands lanes.now agent) }
{
    match agent {
        Some(agent) => match lane_place(lanes, agent) {
            Some(place) => write_number(out, place as u64),
            None => out.extend_from_slice(b"-"),
        },
        None => out.extend_from_slice(b"-"),
    }
}

/// Appends the x and y coordinates of the middle of the agent's lane on the line of a row. There are `rows` other rows
/// above this row. A lane is 1,000 units wide, and a line is 100 units high.
#[tactic(auto, unfolding(crate::specs::Svg::place_text, crate::specs::Svg::between))]
pub(crate) fn write_place(
    out: &mut Vec<u8>,
    lanes: &[Lane],
    agent: Option<u64>,
    rows: u64,
) -> Result<(), AllocError>
    ensures { OnOk result (out.new.items ≡ out.old.items ++ place_text lanes.now agent rows) }
{
    write_thousands(out, lanes, agent)?;
    write_between(out, b"500 ", line(rows), b"50")
}

/// Appends the x coordinate at which all labels begin, to the right of `lanes`.
#[tactic(auto, unfolding(crate::specs::Svg::between))]
pub(crate) fn write_label_place(out: &mut Vec<u8>, lanes: &[Lane]) -> Result<(), AllocError>
    ensures { OnOk result (out.new.items ≡ out.old.items ++ label_place lanes.now) }
{
    if lanes.is_empty() {
        return out.extend_from_slice(b"-240");
    }
    write_between(out, b"", (lanes.len() as u64).saturating_sub(1), b"760")
}

/// Returns whether an action of `agent` is drawn to the left of all lanes. An action is drawn to the left of all lanes
/// if its agent has no lane in `lanes`, or if no agent performs the action.
fn is_outside(lanes: &[Lane], agent: Option<u64>) -> bool
    ensures { result ≡ outside_of lanes.now agent }
{
    match agent {
        Some(agent) => lane_place(lanes, agent).is_none(),
        None => true,
    }
}

/// Returns whether an arrow begins outside the lanes that are drawn.
fn begins_outside(lanes: &[Lane], arrow: Arrow) -> bool
    ensures { result ≡ arrow_begins_outside lanes.now arrow }
{
    match arrow {
        Arrow::NoPacket => false,
        Arrow::Unsent => true,
        Arrow::From(sender) => is_outside(lanes, sender.agent),
    }
}

/// Returns whether some row in `rows`, or the beginning of its arrow, is to the left of all lanes.
fn has_outside(lanes: &[Lane], rows: &[Row]) -> bool
    ensures { result ≡ any_outside lanes.now rows.now }
{
    rows.iter().any(|row| is_outside(lanes, row.agent) || begins_outside(lanes, row.arrow))
}

/// Returns the class that the SVG file uses for a tone.
fn tone_word(tone: Tone) -> &'static [u8]
    ensures { result.now ≡ word_of tone }
{
    match tone {
        Tone::Taken => b"t",
        Tone::Ignored => b"i",
        Tone::Refused => b"r",
    }
}

/// Appends the name of `lane` on line number `line`. The index of this lane is `place`.
#[tactic(auto, using(crate::proofs::FilledLemmas::name_filled), unfolding(crate::specs::Svg::name_text))]
fn write_name(
    alloc: Global,
    out: &mut Vec<u8>,
    line: u64,
    place: u64,
    lane: &Lane,
) -> Result<(), AllocError>
    ensures { OnOk result (out.new.items ≡ out.old.items ++ name_text line place lane.now) }
{
    let name = short_name(alloc, lane.name.as_slice())?;
    let parts = [
        PicturePart::Number(place),
        PicturePart::Number(line),
        PicturePart::Escaped(&name),
    ];
    write_template(out, b"<text class='h' x='~500' y='~65'>~</text>\n", &parts)
}

/// Appends the names of all lanes in `lanes` on line number `line`.
fn write_names(
    alloc: Global,
    out: &mut Vec<u8>,
    line: u64,
    lanes: &[Lane],
) -> Result<(), AllocError>
    ensures { OnOk result (out.new.items ≡ out.old.items ++ names_text line 0 lanes.now) }
{
    let mut place: u64 = 0;
    for lane in lanes {
        write_name(alloc, out, line, place, lane)?;
        place += 1;
    }
    Ok(())
}

/// On line number `line`, appends the name of the area to the left of all lanes. If `outside` is false, this area is
/// empty, and the function appends nothing.
#[tactic(auto, unfolding(crate::specs::Svg::between))]
fn write_outside(out: &mut Vec<u8>, outside: bool, line: u64) -> Result<(), AllocError>
    ensures { OnOk result (out.new.items ≡ out.old.items ++ outside_text outside line) }
{
    if !outside {
        return Ok(());
    }
    let parts = [PicturePart::Number(line)];
    write_template(
        out,
        b"<text class='h' x='-500' y='~65'>outside</text>\n",
        &parts,
    )
}

/// On line number `line`, appends the names of the lanes and the name of the area to the left of the lanes.
#[tactic(auto, unfolding(crate::specs::Svg::head_text))]
fn write_head(
    alloc: Global,
    out: &mut Vec<u8>,
    outside: bool,
    line: u64,
    lanes: &[Lane],
) -> Result<(), AllocError>
    ensures { OnOk result (out.new.items ≡ out.old.items ++ head_text outside lanes.now line) }
{
    write_outside(out, outside, line)?;
    write_names(alloc, out, line, lanes)
}

/// Appends the names of the lanes above all `rows` rows, and again between groups of [`NAMED_ROWS`] rows.
fn write_heads(
    alloc: Global,
    out: &mut Vec<u8>,
    outside: bool,
    rows: u64,
    lanes: &[Lane],
) -> Result<(), AllocError>
    ensures { OnOk result (out.new.items ≡ out.old.items ++ heads_text outside rows lanes.now) }
{
    let last = rows.saturating_sub(1) / NAMED_ROWS;
    for part in 0..last + 1 {
        write_head(alloc, out, outside, line_above(NAMED_ROWS * part), lanes)?;
    }
    Ok(())
}

/// Appends the vertical line for the lane with the index `place`, down to line number `last`.
#[tactic(auto, using(crate::proofs::FilledLemmas::lane_filled))]
fn write_lane_line(out: &mut Vec<u8>, last: u64, place: u64) -> Result<(), AllocError>
    ensures { OnOk result (out.new.items ≡ out.old.items ++ lane_line last place) }
{
    let parts = [PicturePart::Number(place), PicturePart::Number(last)];
    write_template(out, b"<path class='l' d='M~500 90V~99'/>\n", &parts)
}

/// Appends the vertical lines for `lanes`, down to the end of line number `last`.
fn write_lanes(out: &mut Vec<u8>, last: u64, lanes: &[Lane]) -> Result<(), AllocError>
    ensures { OnOk result (out.new.items ≡ out.old.items ++ lanes_text last 0 lanes.now) }
{
    let mut place: u64 = 0;
    for _lane in lanes {
        write_lane_line(out, last, place)?;
        place += 1;
    }
    Ok(())
}

/// Appends a thin line from the place at which the agent of `row` acts to the label of `row`.
#[tactic(auto, unfolding(crate::specs::Svg::guide_text, crate::specs::Svg::placed_text))]
fn write_guide(out: &mut Vec<u8>, lanes: &[Lane], row: &Row) -> Result<(), AllocError>
    ensures { OnOk result (out.new.items ≡ out.old.items ++ guide_text lanes.now row.now) }
{
    let parts = [
        PicturePart::Place(lanes, row.agent, row.above),
        PicturePart::LabelPlace(lanes),
    ];
    write_template(out, b"<path class='w' d='M~H~'/>\n", &parts)
}

/// Appends an arrow that ends at the place at which the agent of `row` acts. The arrow begins in the lane of `agent`,
/// on the line of the row that has `rows` other rows above it.
#[tactic(auto, unfolding(crate::specs::Svg::arrow_line, crate::specs::Svg::class_text))]
fn write_arrow_line(
    out: &mut Vec<u8>,
    lanes: &[Lane],
    row: &Row,
    agent: Option<u64>,
    rows: u64,
) -> Result<(), AllocError>
    ensures { OnOk result (out.new.items ≡ out.old.items
        ++ arrow_line lanes.now row.now agent rows) }
{
    let parts = [
        PicturePart::Text(tone_word(row.tone)),
        PicturePart::Place(lanes, agent, rows),
        PicturePart::Place(lanes, row.agent, row.above),
    ];
    write_template(out, b"<path class='~' d='M~L~'/>\n", &parts)
}

/// Appends the arrow of `row`. If the row has no arrow, the function appends nothing.
fn write_arrow(out: &mut Vec<u8>, lanes: &[Lane], row: &Row) -> Result<(), AllocError>
    ensures { OnOk result (out.new.items ≡ out.old.items ++ arrow_text lanes.now row.now) }
{
    match row.arrow {
        Arrow::NoPacket => Ok(()),
        Arrow::Unsent => write_arrow_line(out, lanes, row, None, row.above),
        Arrow::From(sender) => write_arrow_line(out, lanes, row, sender.agent, sender.above),
    }
}

/// For a packet that no agent received, appends a small cross at the place from which the packet was sent.
#[tactic(auto, unfolding(crate::specs::Svg::cross_text, crate::specs::Svg::placed_text))]
fn write_cross(out: &mut Vec<u8>, lanes: &[Lane], sender: &Sender) -> Result<(), AllocError>
    ensures { OnOk result (out.new.items ≡ out.old.items ++ cross_text lanes.now sender.now) }
{
    let parts = [PicturePart::Place(lanes, sender.agent, sender.above)];
    write_template(out, CROSS, &parts)
}

/// Returns the SVG for the dot of a row. If `restarts` is true, the agent was opened again, and the SVG includes a
/// break in the agent's lane.
fn mark(restarts: bool) -> &'static [u8]
    ensures { result.now ≡ mark_text restarts }
{
    if restarts {
        b"<path class='g' d='M0-45V45'/><path class='b' d='M-50-45H50M-50 45H50'/><circle r='14'/></g>\n"
    } else {
        b"<circle r='14'/></g>\n"
    }
}

/// Appends a row, which consists of the action's number, the dot and the label.
fn write_row<'a>(out: &mut Vec<u8>, lanes: &'a [Lane], row: &'a Row) -> Result<(), AllocError>
    ensures { OnOk result (out.new.items ≡ out.old.items ++ row_text lanes.now row.now) }
{
    let tone = PicturePart::Text(tone_word(row.tone));
    let line = PicturePart::Number(line(row.above));
    let parts = [
        line,
        PicturePart::Number(row.action),
        tone,
        PicturePart::Place(lanes, row.agent, row.above),
        PicturePart::Text(mark(row.restarts)),
        tone,
        PicturePart::LabelPlace(lanes),
        line,
        PicturePart::Escaped(row.label.as_slice()),
    ];
    write_template(out, ROW, &parts)
}

/// Returns the number of columns in the picture, which is at least three. Each lane takes up one column, and the labels
/// take up further columns.
fn columns(lanes: &[Lane], rows: &[Row]) -> u64
    ensures { result ≡ columns_of lanes.now rows.now }
{
    let columns = (lanes.len() as u64).saturating_add(label_columns(longest(rows)));
    if columns > 3 { columns } else { 3 }
}

/// Appends the width and the height of a picture that has `columns` columns and `lines` lines.
#[tactic(auto, using(crate::proofs::FilledLemmas::size_filled))]
fn write_size(out: &mut Vec<u8>, columns: u64, lines: u64) -> Result<(), AllocError>
    ensures { OnOk result (out.new.items ≡ out.old.items
        ++ (view_text columns lines ++ size_text columns lines)) }
{
    let (columns, lines) = (PicturePart::Number(columns), PicturePart::Number(lines));
    let parts = [columns, lines, columns, lines];
    write_template(out, b"~700 ~99' width='~7pc' height='~.99pc'>\n", &parts)
}

/// Appends the start of the file, up to the background.
#[tactic(auto, unfolding(crate::specs::Svg::frame_text))]
fn write_frame(out: &mut Vec<u8>, columns: u64, lines: u64) -> Result<(), AllocError>
    ensures { OnOk result (out.new.items ≡ out.old.items ++ frame_text columns lines) }
{
    out.extend_from_slice(OPENING)?;
    write_size(out, columns, lines)?;
    out.extend_from_slice(STYLE)
}

/// Appends the legend on line number `line`. This line contains nothing but the legend.
#[tactic(auto, unfolding(crate::specs::Svg::between))]
fn write_legend(out: &mut Vec<u8>, line: u64) -> Result<(), AllocError>
    ensures { OnOk result (out.new.items ≡ out.old.items ++ legend_text line) }
{
    let parts = [PicturePart::Number(line), PicturePart::Text(LEGEND)];
    write_template(out, b"<g transform='translate(-680 ~50)'>~", &parts)
}

/// Appends the background: the lanes with their names, and the lines to the labels.
#[tactic(auto, unfolding(crate::specs::Svg::back_text))]
fn write_background(
    alloc: Global,
    out: &mut Vec<u8>,
    lanes: &[Lane],
    rows: &[Row],
) -> Result<(), AllocError>
    ensures { OnOk result (out.new.items ≡ out.old.items ++ back_text lanes.now rows.now) }
{
    let count = rows.len() as u64;
    write_lanes(out, line_above(count), lanes)?;
    write_heads(alloc, out, has_outside(lanes, rows), count, lanes)?;
    write_each_with_lanes(out, lanes, rows, write_guide)
}

/// Appends the foreground: the arrows, the crosses and the rows.
#[tactic(auto, unfolding(crate::specs::Svg::front_text))]
fn write_foreground(
    out: &mut Vec<u8>,
    lanes: &[Lane],
    rows: &[Row],
    lost: &[Sender],
) -> Result<(), AllocError>
    ensures { OnOk result (out.new.items ≡ out.old.items
        ++ front_text lanes.now rows.now lost.now) }
{
    write_each_with_lanes(out, lanes, rows, write_arrow)?;
    write_each_with_lanes(out, lanes, lost, write_cross)?;
    write_each(out, rows, |out, row| write_row(out, lanes, row))
}

/// Returns a picture as the text of one SVG file. The file needs no script and no font from elsewhere, and the picture
/// is light or dark, as the reader prefers.
///
/// Each row has one label, which is to the right of all lanes, so that no label crosses an arrow. Each packet that is
/// passed to an agent has one arrow, which begins at the packet's sender. A packet that no agent received ends in a
/// small cross. The names of the lanes appear above all rows, and are repeated between groups of 40 rows. If anything
/// is drawn to the left of all lanes, the area to their left is named `outside`. The legend is below the rows. Names
/// and labels are escaped. The function returns an `AllocError` only if there isn't enough memory for the text.
#[tactic(auto, unfolding(crate::specs::Svg::svg_of))]
pub fn svg_text(alloc: Global, picture: &Picture) -> Result<Vec<u8>, AllocError>
    ensures { IfOk result (λ text. text.items ≡ svg_of picture.now) }
{
    let mut out = Vec::new(alloc);
    let lanes = picture.lanes.as_slice();
    let rows = picture.rows.as_slice();
    let below = line(rows.len() as u64);
    write_frame(&mut out, columns(lanes, rows), below)?;
    write_background(alloc, &mut out, lanes, rows)?;
    write_foreground(&mut out, lanes, rows, picture.lost.as_slice())?;
    write_legend(&mut out, below)?;
    out.extend_from_slice(b"</svg>\n")?;
    Ok(out)
}
