//! For each node, counts the lines that hand an event or a query to the node, and finds the first and the last of the
//! lines.

ghost use Rattle.std.specs.Prelude.{◌≡◌, ℕ, ◌++◌, ◌∷◌, [], IfOk, List, OnOk, map};
ghost use Rattle.serf_judge.specs.Nodes.{texts_of};
ghost use Rattle.serf_judge.specs.Identity.{Identity, handed_seen};
ghost use Rattle.serf_judge.specs.Tallies.{lines_to, nodes_of, repeats_among, tallies_of, tally_of, told_of};
ghost use Rattle.serf_judge.specs.Recorded.{AreTallied};

use crate::again::repeats;
use crate::key::{Delivered, Delivery};
use crate::nodes::each_once;
use std::alloc::{AllocError, Global};
use std::collections::HashMap;

/// The tally of the lines that hand events or queries to one node.
#[derive(Clone, Copy, PartialEq, Eq)]
pub struct Tally {
    /// The number of lines, which saturates at 2^64 - 1.
    pub count: u64,
    pub min_time: u64,
    pub largest_time: u64,
    /// The number of the first of the lines, counted from 1.
    pub first_line: u64,
    pub last_line: u64,
}

/// A node, and the tally of the node's lines.
#[derive(Clone, Copy)]
pub struct NodeTally<'a> {
    pub node: &'a [u8],
    pub tally: Tally,
}

/// Returns the tally of an empty list of lines: the minimums are 2^64 - 1, and the maximums are 0.
fn no_lines() -> Tally
    ensures { result ≡ tally_of [] }
{
    Tally {
        count: 0,
        min_time: u64::MAX,
        largest_time: 0,
        first_line: u64::MAX,
        last_line: 0,
    }
}

/// Returns `tally` with `line` added.
fn one_more(tally: Tally, line: Delivery<'_>) -> Tally
    ensures { (own : List (ℕ × Identity)) → tally ≡ tally_of own
        → result ≡ tally_of (own ++ handed_seen line.entry ∷ []) }
{
    Tally {
        count: tally.count.saturating_add(1),
        min_time: tally.min_time.min(line.key.time),
        largest_time: tally.largest_time.max(line.key.time),
        first_line: tally.first_line.min(line.line),
        last_line: tally.last_line.max(line.line),
    }
}

/// Returns the tally of `node` in `table`, or the tally of an empty list of lines if the table doesn't contain the
/// node.
fn tally_at(table: &HashMap<&[u8], Tally>, node: &[u8]) -> Tally
    ensures { (lines : List (ℕ × Identity)) → AreTallied lines table.now
        → result ≡ tally_of (lines_to node.now lines) }
{
    match table.get(&node) {
        Some(tally) => *tally,
        None => no_lines(),
    }
}

/// Counts `line` in the tally of its node in `table`.
fn add_line<'a>(table: &mut HashMap<&'a [u8], Tally>, line: Delivery<'a>) -> Result<(), AllocError>
    ensures { (lines : List (ℕ × Identity)) → AreTallied lines table.old
        → OnOk result (AreTallied (lines ++ handed_seen line.entry ∷ []) table.new) }
{
    let tally = one_more(tally_at(table, line.key.node), line);
    let _ = table.insert(line.key.node, tally)?;
    Ok(())
}

/// Returns a table with the tally of each node that `lines` name.
fn table_of<'a>(
    alloc: Global,
    lines: &[Delivery<'a>],
) -> Result<HashMap<&'a [u8], Tally>, AllocError>
    ensures { IfOk result (AreTallied (map handed_seen lines.entry.now)) }
{
    let mut table = HashMap::new(alloc);
    for line in lines {
        add_line(&mut table, *line)?;
    }
    Ok(table)
}

/// Returns the nodes that `lines` name, each node once, in the order in which the nodes first appear.
fn nodes_in_order<'a>(alloc: Global, lines: &[Delivery<'a>]) -> Result<Vec<&'a [u8]>, AllocError>
    ensures { IfOk result (λ nodes. texts_of nodes.items
        ≡ nodes_of (map handed_seen lines.entry.now)) }
{
    let mut nodes = Vec::new(alloc);
    for line in lines {
        nodes.push(line.key.node)?;
    }
    each_once(alloc, nodes.as_slice())
}

/// Returns the nodes that `lines` name, each node once and with the tally of its lines, in the order in which the nodes
/// first appear.
pub(crate) fn tallies<'a>(
    alloc: Global,
    lines: &[Delivery<'a>],
) -> Result<Vec<NodeTally<'a>>, AllocError>
    ensures { IfOk result (λ told. map told_of told.items
        ≡ tallies_of (map handed_seen lines.entry.now)) }
{
    let nodes = nodes_in_order(alloc, lines)?;
    let table = table_of(alloc, lines)?;
    let mut told = Vec::new(alloc);
    for node in nodes.as_slice() {
        let tally = tally_at(&table, node);
        told.push(NodeTally { node, tally })?;
    }
    Ok(told)
}

/// Returns each node that was handed an event or a query again, in the order in which this first happened to the nodes.
/// With each node, returns a tally of its repeats, which are the entries that hand the node an event or a query that an
/// earlier entry already handed to the same node. Two events are the same if their times, names and payloads are equal.
/// Two queries are the same if their times and IDs are equal.
///
/// The function looks up each entry once, by its hash. Returns an `AllocError` only if memory runs out.
pub fn tally_repeats<'a, E: Delivered>(
    alloc: Global,
    entries: &'a [E],
) -> Result<Vec<NodeTally<'a>>, AllocError>
    ensures { IfOk result (λ told. map told_of told.items
        ≡ tallies_of (repeats_among (map E.seen entries.entry.now))) }
{
    let again = repeats(alloc, entries)?;
    tallies(alloc, again.as_slice())
}
