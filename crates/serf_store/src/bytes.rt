//! The bytes of a file in memory, for tests: those that are on the device, and those that a crash can lose.

ghost use Rattle.std.specs.Prelude.{◌≡◌, OnOk, OnErr};
ghost use Rattle.serf_store.specs.TextFile.{all_of, brought, made_with, on_device, with_more};

use std::alloc::AllocError;
use std::marker::Model;

/// The bytes of a file in memory: first the bytes that are on the device, and then those that aren't.
#[derive(Drop)]
pub struct MemoryBytes {
    bytes: Vec<u8>,
    /// The number of bytes that are on the device. They are the first ones.
    durable: usize,
}

impl Model for MemoryBytes {
    ghost use Rattle.std.specs.Prelude.{◌≤◌, drop, take};
    ghost use Rattle.std.specs.Vec.{vec_len};
    ghost use Rattle.serf_snapshot.specs.Device.{Observable};

    ghost Value = { Observable };

    ghost view = { λ a. record {
      buffered = drop a.durable a.bytes.items;
      durable = take a.durable a.bytes.items;
    } };

    ghost invariant = { λ a. a.durable ≤ vec_len a.bytes };
}

impl MemoryBytes {
    /// Returns a file with `bytes`, all of them on the device.
    pub fn kept(bytes: Vec<u8>) -> Self
        ensures { result ≡ on_device bytes.items }
    {
        let durable = bytes.len();
        MemoryBytes { bytes, durable }
    }

    /// Returns a file that was just created with `bytes`, none of them on the device.
    pub fn made(bytes: Vec<u8>) -> Self
        ensures { result ≡ made_with bytes.items }
    {
        MemoryBytes { bytes, durable: 0 }
    }

    /// Returns all bytes, whether they are on the device or not.
    pub fn all(&self) -> &[u8]
        ensures { result.now ≡ all_of self.now }
    {
        &self.bytes
    }

    /// Appends `bytes`, which are on the device only after the next `sync`. If memory runs out, nothing changes.
    pub fn write(&mut self, bytes: &[u8]) -> Result<(), AllocError>
        ensures ok { OnOk result (self.new ≡ with_more bytes.now self.old) }
        ensures error { OnErr result (self.new ≡ self.old) }
    {
        self.bytes.extend_from_slice(bytes)
    }

    /// Syncs all bytes to the device.
    pub fn sync(&mut self)
        ensures { self.new ≡ brought self.old }
    {
        self.durable = self.bytes.len();
    }
}
