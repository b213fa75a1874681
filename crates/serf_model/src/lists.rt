//! The lists of a trace.

ghost use Rattle.std.specs.Prelude.{◌≡◌, ◌∷◌, []};

use crate::line::{EventLine, Line};
use serf_agent::List;
use smallvec::SmallVec;
use std::alloc::Global;
use std::marker::Model;

/// Numbers of packets, in order. Packets are numbered from 0 in the order in which they are sent.
///
/// Contracts see the list of the numbers. A single number needs no block of memory.
#[derive(Drop)]
pub struct Numbers {
    all: SmallVec<u64, 1>,
}

impl Model for Numbers {
    ghost use Rattle.std.specs.Prelude.{ℕ, List};

    ghost Value = { List ℕ };

    ghost view = { λ n. n.all.items };
}

impl Numbers {
    /// Makes a list of the single number `number`. Allocates no memory.
    pub fn one(alloc: Global, number: u64) -> Numbers
        ensures { result ≡ number ∷ [] }
    {
        Numbers {
            all: SmallVec::from_buf(alloc, [number]),
        }
    }

    /// Makes a list of the numbers in a vector, in the same order. Allocates no memory.
    pub fn from_vec(numbers: Vec<u64>) -> Numbers
        ensures { result ≡ numbers.items }
    {
        Numbers {
            all: SmallVec::from_vec(numbers),
        }
    }

    /// Borrows the numbers as a slice. Allocates no memory.
    pub fn as_slice(&self) -> &[u64]
        ensures { result.now ≡ self.now }
    {
        self.all.as_slice()
    }
}

/// Events that were handed out, in order.
pub type EventLines = List<EventLine>;

/// The lines of a trace, in order.
pub type Lines = List<Line>;
