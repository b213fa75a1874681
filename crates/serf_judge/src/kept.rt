//! Compares a snapshot with a log. Determines which entries a node may be handed again if it is opened on the snapshot,
//! whether the log names the node, and whether a text is a snapshot at all.

ghost use Rattle.std.specs.Prelude.{◌≡◌, position};
ghost use Rattle.std.specs.List.{list_any};
ghost use Rattle.serf_text.specs.Lines.{lines_of};
ghost use Rattle.serf_judge.specs.Kept.{begins_as_kept, counted_lines, has_line_of, is_kept_line, is_leave, is_line_from, is_line_of, is_line_wanted, is_own, is_own_text, is_sealed, is_snapshot_text, is_torn, is_torn_clock_word, is_torn_own};

use crate::key::Delivered;
use crate::log::Log;
use serf_text::split_once;

/// Returns whether `node` is the node that `entry` names: the node that fired the event, or that was handed the event
/// or query.
pub(crate) fn is_of<E: Delivered>(entry: &E, node: &[u8]) -> bool
    ensures { result ≡ is_line_of E.seen node.now entry.now }
{
    entry.handed().key.node == node
}

/// Returns whether `entry` names `node`, and its time is at least `minimum`.
fn is_of_node_since<E: Delivered>(entry: &E, node: &[u8], minimum: u64) -> bool
    ensures { result ≡ is_line_from E.seen node.now minimum entry.now }
{
    let key = entry.handed().key;
    key.node == node && minimum <= key.time
}

/// Returns the index, counted from 0, of the first entry in `entries` that names `node` and whose time is at least
/// `minimum`. Returns `None` if there is no such entry. Allocates no memory.
pub(crate) fn first_of_node_since<E: Delivered>(
    entries: &[E],
    node: &[u8],
    minimum: u64,
) -> Option<usize>
    ensures { result ≡ position (is_line_from E.seen node.now minimum) entries.now }
{
    entries
        .iter()
        .position(|entry| is_of_node_since(entry, node, minimum))
}

/// Returns whether an entry in `entries` names `node`.
fn is_among<E: Delivered>(entries: &[E], node: &[u8]) -> bool
    ensures { result ≡ list_any (is_line_of E.seen node.now) entries.now }
{
    entries.iter().any(|entry| is_of(entry, node))
}

/// Returns whether `log` contains a line on which `node` fired an event, or was handed an event or a query. Allocates
/// no memory.
pub fn has_node(log: &Log, node: &[u8]) -> bool
    ensures { result ≡ has_line_of node.now log.now }
{
    is_among(log.events.as_slice(), node)
        || is_among(log.queries.as_slice(), node)
        || is_among(log.fired.as_slice(), node)
}

/// Returns whether `line` is the snapshot line `leave`, which means that the node left.
pub(crate) fn is_leave_line(line: &[u8]) -> bool
    ensures { result ≡ is_leave line.now }
{
    line == b"leave".as_slice()
}

/// Returns whether `line` begins like a snapshot line for an event, a query or a minimum time. Only this project's
/// agents write these lines.
fn is_own_line(line: &[u8]) -> bool
    ensures { result ≡ is_own line.now }
{
    line.starts_with(b"#event ") || line.starts_with(b"#query ") || line.starts_with(b"#least ")
}

/// Returns whether `bytes` are a prefix of the first word of a line that only this project's agents write.
fn is_torn_own(bytes: &[u8]) -> bool
    ensures { result ≡ is_torn_own bytes.now }
{
    b"#event ".starts_with(bytes) || b"#query ".starts_with(bytes) || b"#least ".starts_with(bytes)
}

/// Returns whether `line` begins like one of the lines in which Serf keeps clocks, members and coordinates.
fn begins_as_kept_line(line: &[u8]) -> bool
    ensures { result ≡ begins_as_kept line.now }
{
    line.starts_with(b"clock: ")
        || line.starts_with(b"event-clock: ")
        || line.starts_with(b"query-clock: ")
        || line.starts_with(b"alive: ")
        || line.starts_with(b"not-alive: ")
        || line.starts_with(b"coordinate: ")
}

/// Returns whether `bytes` are a prefix of the first word of a clock line. The empty text and the whole word are also
/// prefixes.
fn is_torn_clock(bytes: &[u8]) -> bool
    ensures { result ≡ is_torn_clock_word bytes.now }
{
    b"clock: ".starts_with(bytes)
        || b"event-clock: ".starts_with(bytes)
        || b"query-clock: ".starts_with(bytes)
}

/// Returns whether `bytes` are a prefix of the first word of any snapshot line. A crash may leave such a prefix.
fn is_torn_word(bytes: &[u8]) -> bool
    ensures { result ≡ is_torn bytes.now }
{
    is_torn_clock(bytes)
        || is_torn_own(bytes)
        || b"alive: ".starts_with(bytes)
        || b"not-alive: ".starts_with(bytes)
        || b"coordinate: ".starts_with(bytes)
        || b"leave".starts_with(bytes)
}

/// Returns whether `line` consists of the torn first word of a snapshot line, followed by `#`. When an agent opens a
/// snapshot, it seals a torn line with `#`.
fn is_sealed_line(line: &[u8]) -> bool
    ensures { result ≡ is_sealed line.now }
{
    match line.split_last() {
        Some((last, front)) => *last == b'#' && !front.is_empty() && is_torn_word(front),
        None => false,
    }
}

/// Returns whether `line` is a line in a snapshot, either from Serf or from one of this project's agents.
fn is_line_of_snapshot(line: &[u8]) -> bool
    ensures { result ≡ is_kept_line line.now }
{
    is_leave_line(line) || begins_as_kept_line(line) || is_own_line(line) || is_sealed_line(line)
}

/// Returns whether `text` is a snapshot. A text is a snapshot if it is empty, if it contains a line that Serf or an
/// agent of this project writes into snapshots, or if it is only a prefix of the first word of such a line, which a
/// crash may leave. Allocates no memory.
pub fn is_snapshot(text: &[u8]) -> bool
    ensures { result ≡ is_snapshot_text text.now }
{
    is_torn_word(text) || has_line(text, false)
}

/// Returns whether the snapshot `text` contains a line for an event, a query or a minimum time. This project's agents
/// write these lines, and Serf never does. An agent of this project resumes from all lines, including those before a
/// line `leave`. Allocates no memory.
pub fn is_own_snapshot(text: &[u8]) -> bool
    ensures { result ≡ is_own_text text.now }
{
    has_line(text, true)
}

/// If `own` is true, returns whether `text` contains a line that only this project's agents write. Otherwise, returns
/// whether `text` contains any snapshot line.
fn has_line(text: &[u8], own: bool) -> bool
    ensures { result ≡ list_any (is_line_wanted own) (lines_of text.now) }
{
    let mut rest = text;
    'lines: loop {
        let (line, more) = split_once(rest, b'\n');
        if is_snapshot_line(line, own) {
            return true;
        }
        match more {
            Some(next) => rest = next,
            None => return false,
        }
    }
}

/// If `is_own_only` is true, returns whether `line` is a line that only this project's agents write. Otherwise, returns
/// whether `line` is any snapshot line.
fn is_snapshot_line(line: &[u8], is_own_only: bool) -> bool
    ensures { result ≡ is_line_wanted is_own_only line.now }
{
    if is_own_only {
        is_own_line(line)
    } else {
        is_line_of_snapshot(line)
    }
}

/// Returns the part of the snapshot `text` that Serf reads if it is started without `-rejoin`: the text after the last
/// line `leave`, or the whole text if it contains no line `leave`. A final `leave` without a newline is not a line.
/// Allocates no memory.
pub fn after_leave(text: &[u8]) -> &[u8]
    ensures { lines_of result.now ≡ counted_lines (lines_of text.now) }
{
    let mut start = text;
    let mut rest = text;
    'lines: loop {
        let (line, more) = split_once(rest, b'\n');
        match more {
            Some(next) => {
                if is_leave_line(line) {
                    start = next;
                }
                rest = next;
            }
            None => return start,
        }
    }
}
