//! A borrowed key, which a caller offers to a window before any memory is allocated for the key.

ghost use Rattle.std.specs.Prelude.{◌≡◌, Bool, false, true, IfOk, OnErr};
ghost use Rattle.serf_window.specs.Queries.{same_id};
ghost use Rattle.serf_window.specs.Texts.{event_of, same_texts};

use serf_wire::{Bytes, EventBody, EventView};
use std::alloc::{AllocError, Global};

/// A borrowed key of a window: an event's name and payload, or a query's ID.
pub trait BorrowedKey<K> {
    /// Whether two keys of one time are the same.
    ghost same: { K → K → Bool };

    /// The key that `Self` borrows, as a value of type `K`.
    ghost key: { Self → K };

    /// Whether a copy of the key allocates memory.
    ghost takes_memory: { Self → Bool };

    /// Returns whether `held` is the same key. Allocates no memory.
    fn is(&self, held: &K) -> bool
        ensures { result ≡ same held.now (key self.now) };

    /// Returns a copy of the key, or `AllocError` if there is no memory for the copy.
    fn copy_of(&self, alloc: Global) -> Result<K, AllocError>
        ensures copy { IfOk result (λ copy. copy ≡ key self.now) }
        ensures free { OnErr result (takes_memory self.now ≡ true) };
}

impl<'a> BorrowedKey<EventBody> for EventView<'a> {
    ghost same = { same_texts };

    ghost key = { λ event. event_of event.name.now event.payload.now };

    ghost takes_memory = { λ _. true };

    /// Returns whether `held` is the same event. The lengths and the payloads are compared first, because
    /// they are the most likely to differ.
    fn is(&self, held: &EventBody) -> bool {
        let name = held.name.as_slice();
        let payload = held.payload.as_slice();
        if payload.len() != self.payload.len() || name.len() != self.name.len() {
            return false;
        }
        payload == self.payload && name == self.name
    }

    fn copy_of(&self, alloc: Global) -> Result<EventBody, AllocError> {
        let name = Bytes::copy_of(alloc, self.name)?;
        let payload = Bytes::copy_of(alloc, self.payload)?;
        Ok(EventBody { name, payload })
    }
}

impl BorrowedKey<u32> for u32 {
    ghost same = { same_id };

    ghost key = { λ id. id };

    ghost takes_memory = { λ _. false };

    fn is(&self, held: &u32) -> bool {
        *held == *self
    }

    fn copy_of(&self, _alloc: Global) -> Result<u32, AllocError> {
        Ok(*self)
    }
}
