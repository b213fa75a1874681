//! The rows of a message's text. Each row is a line of the text, split at its spaces into the name of a field and the
//! field's values.

ghost use Rattle.std.specs.Prelude.{◌≡◌, Some, IfOk, drop, map, slice_get, unwrap_or, []};
ghost use Rattle.std.specs.List.{find};
ghost use Rattle.std.specs.Option.{option_map};
ghost use Rattle.std.specs.Str.{bytes_eq};
ghost use Rattle.serf_packets.specs.Rows.{parts_left, row_in, row_seen, rows_in, value_of, part};

use serf_text::split_once;
use std::alloc::{AllocError, Global};

/// A line of a text, split at its spaces: the name of a field, the field's first value and its second value. A missing
/// part is empty.
#[derive(Clone, Copy, Debug)]
pub(crate) struct Row<'a> {
    pub(crate) name: &'a [u8],
    pub(crate) first: &'a [u8],
    pub(crate) second: &'a [u8],
}

/// Splits `line` at its first space. Returns the part before the space, and the rest after the space, which is `None`
/// if `line` contains no space. If there is no line, the part is empty.
fn next_part(line: Option<&[u8]>) -> (&[u8], Option<&[u8]>)
    ensures part { result.0.now ≡ part 0 (parts_left (option_map (λ l. l.now) line.entry)) }
    ensures left { parts_left (option_map (λ l. l.now) result.1)
        ≡ drop 1 (parts_left (option_map (λ l. l.now) line.entry)) }
{
    match line {
        Some(line) => split_once(line, b' '),
        None => (&[], None),
    }
}

/// Returns the row of `line`, which consists of the line's first three parts between spaces.
pub(crate) fn row_of(line: &[u8]) -> Row<'_>
    ensures { row_seen result ≡ row_in line.now }
{
    let (name, rest) = next_part(Some(line));
    let (first, rest) = next_part(rest);
    let (second, _) = next_part(rest);
    Row {
        name,
        first,
        second,
    }
}

/// Returns a row for each line of `text`, in order. The bytes after the last newline are the last line, which may be
/// empty.
pub(crate) fn rows_of_text<'a>(alloc: Global, text: &'a [u8]) -> Result<Vec<Row<'a>>, AllocError>
    ensures { IfOk result (λ rows. map row_seen rows.items ≡ rows_in text.entry.now) }
{
    let mut rows = Vec::new(alloc);
    let mut rest = text;
    'lines: loop {
        let (line, more) = split_once(rest, b'\n');
        rows.push(row_of(line))?;
        match more {
            Some(next) => rest = next,
            None => return Ok(rows),
        }
    }
}

/// Returns whether `row` is a row of the field `name`.
pub(crate) fn is_named(row: &Row, name: &[u8]) -> bool
    ensures { result ≡ bytes_eq row.now.name.now name.now }
{
    row.name == name
}

/// Returns the first value of the first row of the field `name`, or no bytes if `rows` contains no row of the field.
pub(crate) fn value<'a>(rows: &[Row<'a>], name: &[u8]) -> &'a [u8]
    ensures { result.now ≡ value_of name.now (map row_seen rows.now) }
{
    for row in rows {
        if is_named(row, name) {
            return row.first;
        }
    }
    &[]
}
