//! Texts, events and slots that own their memory.

ghost use Rattle.std.specs.Prelude.{◌≡◌, IfOk};

use crate::reserved::ReservedVec;
use serf_lamport::Time;
use std::alloc::{AllocError, Global};
use std::marker::Model;

/// Bytes that a value owns, such as a node's name, an event's name or payload, or a packet.
///
/// Contracts see a value of this type as the list of its bytes. Conversions from a `Vec` and back allocate no
/// memory.
#[derive(Debug, Drop)]
pub struct Bytes {
    bytes: Vec<u8>,
}

impl Model for Bytes {
    ghost use Rattle.std.specs.Prelude.{List, ℕ};

    ghost Value = { List ℕ };

    ghost view = { λ b. b.bytes.items };
}

impl Bytes {
    /// Turns a vector into `Bytes`. Allocates no memory.
    pub fn from_vec(items: Vec<u8>) -> Bytes
        ensures { result ≡ items.items }
    {
        Bytes { bytes: items }
    }

    /// Returns a copy of `bytes`, or `AllocError` if there is no memory for the copy.
    pub fn copy_of(alloc: Global, bytes: &[u8]) -> Result<Bytes, AllocError>
        ensures { IfOk result (λ copy. copy ≡ bytes.now) }
    {
        let copy = Vec::from_slice(alloc, bytes)?;
        Ok(Bytes { bytes: copy })
    }

    /// Returns the bytes as a slice. Allocates no memory.
    pub fn as_slice(&self) -> &[u8]
        ensures { result.now ≡ self.now }
    {
        self.bytes.as_slice()
    }

    /// Turns the bytes back into a vector. Allocates no memory.
    pub fn into_vec(self) -> Vec<u8>
        ensures { result.items ≡ self }
    {
        let Bytes { bytes } = self;
        bytes
    }
}

/// The content of a user event apart from its time: its name and its payload.
#[derive(Debug, Drop)]
pub struct EventBody {
    pub name: Bytes,
    pub payload: Bytes,
}

/// A list of events, in order.
pub type EventBodies = ReservedVec<EventBody>;

/// A slot of a buffer: a time, and the entries of this time that the slot holds, in order. A slot that holds
/// no entries is empty, whatever its time is.
#[derive(Debug, Drop)]
pub struct TimeSlot<T> {
    pub time: Time,
    pub held: ReservedVec<T>,
}

/// A slot that holds events.
pub type Slot = TimeSlot<EventBody>;
