//! Writes the parts of a page that are visible without its script.

ghost use Rattle.std.specs.Prelude.{◌≡◌, ◌++◌, OnOk, codes};
ghost use Rattle.std.specs.List.{flat_map};
ghost use Rattle.serf_timeline.specs.Still.{cell_start, cell_text, head_cell, heads_text, image_text, label_text, left_out_text, line_text, logs_text, more_text, picture_text, pre_text, run_text, table_text};

use crate::escape::{write_address, write_html, write_number};
use crate::markup::{HEADS_END, IMAGE, IMAGE_END, LOGS, MORE, MORE_END, RUN, TABLE, TABLE_END};
use std::alloc::AllocError;

/// The column of a node in the table of logs.
#[derive(Clone, Copy)]
pub struct Column<'a> {
    pub node: &'a [u8],
    /// The name that the table shows for the node.
    pub heading: &'a [u8],
}

/// A line of a log which records that a node was handed an event or a query.
#[derive(Clone, Copy)]
pub struct LogLine<'a> {
    /// The place of the line in the log.
    pub place: &'a [u8],
    pub node: &'a [u8],
    /// A text that describes the event or query that the node was handed.
    pub label: &'a [u8],
    /// Whether an earlier line records that the same node was handed the same event or query.
    pub is_again: bool,
}

/// The handlers that ran, according to their logs.
#[derive(Clone, Copy)]
pub struct Logs<'a> {
    pub columns: &'a [Column<'a>],
    /// The lines that the page shows without the script.
    pub lines: &'a [LogLine<'a>],
    /// The number of lines that the page leaves out.
    pub more: u64,
    /// The objects that the script shows, one per line.
    pub objects: &'a [u8],
}

/// The run of a schedule.
#[derive(Clone, Copy)]
pub struct Run<'a> {
    /// The picture that the page shows without the script, as an SVG file. If there is no picture, `picture` is empty.
    pub picture: &'a [u8],
    /// The text that the page shows without the script. The text may contain any number of lines.
    pub text: &'a [u8],
    /// The objects that the script shows, one per line.
    pub objects: &'a [u8],
}

/// Appends `text`, which may contain any number of lines, as preformatted text.
#[tactic(auto, unfolding(crate::specs::Still::pre_text))]
pub(crate) fn write_pre(out: &mut Vec<u8>, text: &[u8]) -> Result<(), AllocError>
    ensures { OnOk result (out.new.items ≡ out.old.items ++ pre_text text.now) }
{
    out.extend_from_slice(b"<pre>")?;
    write_html(out, text)?;
    out.extend_from_slice(b"</pre>\n")
}

/// Appends the heading of a column.
#[tactic(auto, unfolding(crate::specs::Still::head_cell))]
fn write_head_cell(out: &mut Vec<u8>, column: &Column) -> Result<(), AllocError>
    ensures { OnOk result (out.new.items ≡ out.old.items ++ head_cell column.now) }
{
    out.extend_from_slice(b"<th>")?;
    write_html(out, column.heading)?;
    out.extend_from_slice(b"</th>")
}

/// Appends the headings of the columns.
fn write_head_cells(out: &mut Vec<u8>, columns: &[Column]) -> Result<(), AllocError>
    ensures { OnOk result (out.new.items ≡ out.old.items ++ flat_map head_cell columns.now) }
{
    for column in columns {
        write_head_cell(out, column)?;
    }
    Ok(())
}

/// Appends the start of the table, with the headings of the columns.
#[tactic(auto, unfolding(crate::specs::Still::heads_text))]
fn write_heads(out: &mut Vec<u8>, columns: &[Column]) -> Result<(), AllocError>
    ensures { OnOk result (out.new.items ≡ out.old.items ++ heads_text columns.now) }
{
    out.extend_from_slice(TABLE)?;
    write_head_cells(out, columns)?;
    out.extend_from_slice(HEADS_END)
}

/// Returns the start of the cell for the node of a line. If `is_again` is true, the cell reports that the node was
/// handed the same event or query on an earlier line.
fn cell_start_of(is_again: bool) -> &'static [u8]
    ensures { result.now ≡ cell_start is_again }
{
    if is_again {
        b"<td class=\"bad\">again: "
    } else {
        b"<td>"
    }
}

/// Appends the cell for the node that was handed an event or a query.
#[tactic(auto, unfolding(crate::specs::Still::label_text))]
fn write_label(out: &mut Vec<u8>, line: &LogLine) -> Result<(), AllocError>
    ensures { OnOk result (out.new.items ≡ out.old.items ++ label_text line.now) }
{
    out.extend_from_slice(cell_start_of(line.is_again))?;
    write_html(out, line.label)?;
    out.extend_from_slice(b"</td>")
}

/// Appends the cell that is in the column `column` and in the row of `line`.
fn write_cell(out: &mut Vec<u8>, line: &LogLine, column: &Column) -> Result<(), AllocError>
    ensures { OnOk result (out.new.items ≡ out.old.items ++ cell_text line.now column.now) }
{
    if line.node == column.node {
        write_label(out, line)
    } else {
        out.extend_from_slice(b"<td></td>")
    }
}

/// Appends the cells that are in the columns `columns` and in the row of `line`.
fn write_cells(out: &mut Vec<u8>, line: &LogLine, columns: &[Column]) -> Result<(), AllocError>
    ensures { OnOk result (out.new.items ≡ out.old.items
        ++ flat_map (cell_text line.now) columns.now) }
{
    for column in columns {
        write_cell(out, line, column)?;
    }
    Ok(())
}

/// Appends the table row that shows `line`.
#[tactic(auto, unfolding(crate::specs::Still::line_text))]
fn write_line(out: &mut Vec<u8>, columns: &[Column], line: &LogLine) -> Result<(), AllocError>
    ensures { OnOk result (out.new.items ≡ out.old.items ++ line_text columns.now line.now) }
{
    out.extend_from_slice(b"<tr><td>")?;
    write_html(out, line.place)?;
    out.extend_from_slice(b"</td>")?;
    write_cells(out, line, columns)?;
    out.extend_from_slice(b"</tr>\n")
}

/// Appends a table row for each line in `lines`.
fn write_lines(out: &mut Vec<u8>, columns: &[Column], lines: &[LogLine]) -> Result<(), AllocError>
    ensures { OnOk result (out.new.items ≡ out.old.items
        ++ flat_map (line_text columns.now) lines.now) }
{
    for line in lines {
        write_line(out, columns, line)?;
    }
    Ok(())
}

/// Appends the table that shows `lines`.
#[tactic(auto, unfolding(crate::specs::Still::table_text))]
fn write_table(out: &mut Vec<u8>, columns: &[Column], lines: &[LogLine]) -> Result<(), AllocError>
    ensures { OnOk result (out.new.items ≡ out.old.items ++ table_text columns.now lines.now) }
{
    write_heads(out, columns)?;
    write_lines(out, columns, lines)?;
    out.extend_from_slice(TABLE_END)
}

/// Appends a sentence with the number of lines that are left out.
#[tactic(auto, unfolding(crate::specs::Still::left_out_text))]
fn write_left_out(out: &mut Vec<u8>, more: u64) -> Result<(), AllocError>
    ensures { OnOk result (out.new.items ≡ out.old.items ++ left_out_text more) }
{
    out.extend_from_slice(MORE)?;
    write_number(out, more)?;
    out.extend_from_slice(MORE_END)
}

/// If any lines are left out, appends a sentence with the number of these lines.
fn write_more(out: &mut Vec<u8>, more: u64) -> Result<(), AllocError>
    ensures { OnOk result (out.new.items ≡ out.old.items ++ more_text more) }
{
    if more == 0 {
        return Ok(());
    }
    write_left_out(out, more)
}

/// Appends the part of the page about logs.
#[tactic(auto, unfolding(crate::specs::Still::logs_text))]
pub(crate) fn write_logs(out: &mut Vec<u8>, logs: &Logs) -> Result<(), AllocError>
    ensures { OnOk result (out.new.items ≡ out.old.items ++ logs_text logs.now) }
{
    out.extend_from_slice(LOGS)?;
    write_table(out, logs.columns, logs.lines)?;
    write_more(out, logs.more)
}

/// Appends an image whose address contains the picture itself.
#[tactic(auto, unfolding(crate::specs::Still::image_text))]
fn write_image(out: &mut Vec<u8>, picture: &[u8]) -> Result<(), AllocError>
    ensures { OnOk result (out.new.items ≡ out.old.items ++ image_text picture.now) }
{
    out.extend_from_slice(IMAGE)?;
    write_address(out, picture)?;
    out.extend_from_slice(IMAGE_END)
}

/// Appends `picture` as an image. If `picture` is empty, the function appends nothing.
fn write_picture(out: &mut Vec<u8>, picture: &[u8]) -> Result<(), AllocError>
    ensures { OnOk result (out.new.items ≡ out.old.items ++ picture_text picture.now) }
{
    if picture.is_empty() {
        return Ok(());
    }
    write_image(out, picture)
}

/// Appends the part of the page about a schedule.
#[tactic(auto, unfolding(crate::specs::Still::run_text))]
pub(crate) fn write_run(out: &mut Vec<u8>, run: &Run) -> Result<(), AllocError>
    ensures { OnOk result (out.new.items ≡ out.old.items ++ run_text run.now) }
{
    out.extend_from_slice(RUN)?;
    write_picture(out, run.picture)?;
    write_pre(out, run.text)
}
