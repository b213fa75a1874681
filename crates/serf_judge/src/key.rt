//! The keys that distinguish an event or a query at a node from all others. A key is borrowed from its entry.

use crate::entry::{EventEntry, QueryEntry};

/// A node, together with the event or the query that the node was handed. An event has no ID, and a query has no name
/// and no payload.
#[derive(Clone, Copy, PartialEq, Eq, Hash)]
pub struct Key<'a> {
    pub node: &'a [u8],
    pub time: u64,
    pub id: Option<u64>,
    pub name: &'a [u8],
    pub payload: &'a [u8],
}

/// A line that hands an event or a query to a node.
#[derive(Clone, Copy)]
pub struct Delivery<'a> {
    /// The number of the line, counted from 1.
    pub line: u64,
    pub key: Key<'a>,
}

/// An entry in a log: an event or a query, the entry's line, and the node that fired the event or was handed the event
/// or query.
pub trait Delivered: Sized {
    ghost use Rattle.std.specs.Prelude.{◌≡◌, ℕ};
    ghost use Rattle.serf_judge.specs.Identity.{Identity, handed_seen};

    ghost seen: { Self → ℕ × Identity };

    /// Returns the number of the entry's line, and the key of the entry: the node, and the event or query that the node
    /// was handed. Allocates no memory.
    fn handed(&self) -> Delivery<'_>
        ensures { handed_seen result ≡ seen self.now };
}

impl Delivered for EventEntry {
    ghost use Rattle.serf_judge.specs.Identity.{event_seen};

    ghost seen = { event_seen };

    fn handed(&self) -> Delivery<'_> {
        Delivery {
            line: self.line,
            key: Key {
                node: self.node.as_slice(),
                time: self.time,
                id: None,
                name: self.name.as_slice(),
                payload: self.payload.as_slice(),
            },
        }
    }
}

impl Delivered for QueryEntry {
    ghost use Rattle.serf_judge.specs.Identity.{query_seen};

    ghost seen = { query_seen };

    fn handed(&self) -> Delivery<'_> {
        Delivery {
            line: self.line,
            key: Key {
                node: self.node.as_slice(),
                time: self.time,
                id: self.id,
                name: &[],
                payload: &[],
            },
        }
    }
}
