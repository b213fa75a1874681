//! Makes the table of logs that a page shows when its script doesn't run.

use super::super::judge::verdicts::Verdicts;
use indexmap::IndexMap;
use serf_judge::{Delivered, Delivery, Key, Log, log_nodes};
use serf_text::Part::{Masked, Number, WholeQuoted};
use serf_text::write_template;
use serf_timeline::{Column, LogLine};
use std::alloc::{AllocError, Global};

/// The maximum number of lines in the table.
pub(super) const MAX_LINES: usize = 1000;

/// A node, and the text of its heading.
#[derive(Drop)]
struct Node<'a> {
    name: &'a [u8],
    heading: Vec<u8>,
}

/// A line of a log on which a node was handed an event or a query, with one text for the line's place and one for the
/// event or query.
#[derive(Drop)]
struct Row<'a> {
    place: Vec<u8>,
    node: &'a [u8],
    label: Vec<u8>,
    is_again: bool,
}

/// The nodes of a log, and its first lines.
#[derive(Drop)]
pub(super) struct Table<'a> {
    nodes: Vec<Node<'a>>,
    rows: Vec<Row<'a>>,
    /// The number of lines that the table leaves out.
    more: u64,
}

/// Returns the deliveries in `log`, in the order of their lines.
fn deliveries<'a>(alloc: Global, log: &'a Log) -> Result<Vec<Delivery<'a>>, AllocError> {
    let mut all = Vec::new(alloc);
    for event in log.events.as_slice() {
        all.push(event.handed())?;
    }
    for query in log.queries.as_slice() {
        all.push(query.handed())?;
    }
    all.sort_by_key(|delivery| delivery.line)?;
    Ok(all)
}

/// Returns the text for an event or a query. The text for an event contains its name, payload and time; the text for a
/// query contains its time and, if the line has one, its ID.
fn label_of(alloc: Global, key: &Key) -> Result<Vec<u8>, AllocError> {
    let mut out = Vec::new(alloc);
    match key.id {
        Some(id) => write_template(&mut out, b"query ~ @~", &[Number(id), Number(key.time)])?,
        None if key.name.is_empty() => {
            write_template(&mut out, b"query @~", &[Number(key.time)])?;
        }
        None => {
            let (name, payload) = (WholeQuoted(key.name), WholeQuoted(key.payload));
            write_template(&mut out, b"~ ~ @~", &[name, payload, Number(key.time)])?;
        }
    }
    Ok(out)
}

/// Returns the nodes that are named in `log`.
fn nodes_of<'a>(alloc: Global, log: &'a Log) -> Result<Vec<Node<'a>>, AllocError> {
    let mut nodes = Vec::new(alloc);
    for name in log_nodes(alloc, log)? {
        let mut heading = Vec::new(alloc);
        write_template(&mut heading, b"~", &[Masked(name)])?;
        nodes.push(Node { name, heading })?;
    }
    Ok(nodes)
}

impl<'a> Table<'a> {
    /// Makes the table of a log. The argument `verdicts` makes the texts that name the log's lines.
    pub(super) fn of(
        alloc: Global,
        log: &'a Log,
        verdicts: &Verdicts,
    ) -> Result<Table<'a>, AllocError> {
        let all = deliveries(alloc, log)?;
        let mut firsts: IndexMap<Key, ()> = IndexMap::new(alloc);
        let mut rows = Vec::new(alloc);
        for delivery in all.iter().take(MAX_LINES) {
            let Delivery { line, key } = *delivery;
            let before = match firsts.insert(key, ()) {
                Ok(before) => before,
                Err(_) => return Err(AllocError),
            };
            rows.push(Row {
                place: verdicts.line(alloc, line)?,
                node: key.node,
                label: label_of(alloc, &key)?,
                is_again: before.is_some(),
            })?;
        }
        Ok(Table {
            nodes: nodes_of(alloc, log)?,
            rows,
            more: all.len().saturating_sub(MAX_LINES) as u64,
        })
    }

    /// Returns the columns of the table, one for each node.
    pub(super) fn columns(&self, alloc: Global) -> Result<Vec<Column<'_>>, AllocError> {
        let columns = self.nodes.iter().map(|node| Column {
            node: node.name,
            heading: &node.heading,
        });
        columns.collect(alloc)
    }

    /// Returns the lines of the table, in order.
    pub(super) fn lines(&self, alloc: Global) -> Result<Vec<LogLine<'_>>, AllocError> {
        let lines = self.rows.iter().map(|row| LogLine {
            place: &row.place,
            node: row.node,
            label: &row.label,
            is_again: row.is_again,
        });
        lines.collect(alloc)
    }

    /// Returns the number of lines that the table leaves out.
    pub(super) fn more(&self) -> u64 {
        self.more
    }
}
