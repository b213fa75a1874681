//! Lists the nodes that a log names, each node once. Nodes are distinguished by their names.

ghost use Rattle.std.specs.Prelude.{◌≡◌, ◌++◌, IfOk, OnOk};
ghost use Rattle.serf_judge.specs.Again.{firsts_of};
ghost use Rattle.serf_judge.specs.Nodes.{log_nodes_of, nodes_in, receivers_of, texts_of};
ghost use Rattle.std.specs.Str.{bytes_eq};

use crate::again::firsts;
use crate::key::Delivered;
use crate::log::Log;
use std::alloc::{AllocError, Global};

/// Appends the node of each entry in `entries` to `nodes`.
fn add_nodes<'a, E: Delivered>(
    nodes: &mut Vec<&'a [u8]>,
    entries: &'a [E],
) -> Result<(), AllocError>
    ensures { OnOk result (texts_of nodes.new.items
        ≡ texts_of nodes.old.items ++ nodes_in E.seen entries.entry.now) }
{
    for entry in entries {
        nodes.push(entry.handed().key.node)?;
    }
    Ok(())
}

/// Returns each node in `nodes` once, in the order in which the nodes first appear.
pub(crate) fn each_once<'a>(alloc: Global, nodes: &[&'a [u8]]) -> Result<Vec<&'a [u8]>, AllocError>
    ensures { IfOk result (λ once. texts_of once.items
        ≡ firsts_of bytes_eq (texts_of nodes.entry.now)) }
{
    firsts(alloc, nodes)
}

/// Returns the nodes that were handed the events or queries in `entries`, each node once, in the order in which the
/// nodes first appear.
///
/// The function looks up each entry once, by its hash. Returns an `AllocError` only if memory runs out.
pub fn receivers<'a, E: Delivered>(
    alloc: Global,
    entries: &'a [E],
) -> Result<Vec<&'a [u8]>, AllocError>
    ensures { IfOk result (λ nodes. texts_of nodes.items ≡ receivers_of E.seen entries.entry.now) }
{
    let mut nodes = Vec::new(alloc);
    add_nodes(&mut nodes, entries)?;
    each_once(alloc, nodes.as_slice())
}

/// Returns the nodes that `log` names, each node once: first the nodes that were handed an event, then those that were
/// handed a query, and then those that fired an event. The function takes as long as [`receivers`], and returns the
/// same errors.
pub fn log_nodes<'a>(alloc: Global, log: &'a Log) -> Result<Vec<&'a [u8]>, AllocError>
    ensures { IfOk result (λ nodes. texts_of nodes.items ≡ log_nodes_of log.entry.now) }
{
    let mut nodes = Vec::new(alloc);
    add_nodes(&mut nodes, log.events.as_slice())?;
    add_nodes(&mut nodes, log.queries.as_slice())?;
    add_nodes(&mut nodes, log.fired.as_slice())?;
    each_once(alloc, nodes.as_slice())
}
