//! A Lamport time, which a clock draws and messages carry.

ghost use Rattle.std.specs.Prelude.{◌≡◌, ◌<◌};
ghost use Rattle.std.specs.Option.{SomeIff};
ghost use Rattle.serf_lamport.specs.Clock.{max_clock};

use std::marker::Model;

/// A Lamport time: a number below 2^64 - 1, so that a clock can always be above it.
///
/// Contracts see a time as its number. Serf has no such limit: its clock wraps around at 2^64 - 1.
#[derive(Clone, Copy, Debug, PartialEq, Eq, PartialOrd, Ord)]
pub struct Time {
    value: u64,
}

impl Model for Time {
    ghost use Rattle.std.specs.Prelude.{ℕ, ◌<◌};
    ghost use Rattle.serf_lamport.specs.Clock.{max_clock};

    ghost Value = { ℕ };

    ghost view = { λ t. t.value };

    ghost invariant = { λ t. t.value < max_clock };

    ghost inverse = { λ n. record { value = n } };
}

impl Time {
    /// Returns the time with the number `value`, or `None` if `value` is 2^64 - 1. Allocates no memory.
    pub fn new(value: u64) -> Option<Time>
        ensures { SomeIff result (value < max_clock) value }
    {
        if value == u64::MAX {
            return None;
        }
        Some(Time { value })
    }

    /// Returns the number of this time. Allocates no memory.
    pub fn get(self) -> u64
        ensures value { result ≡ self }
        ensures time { result < max_clock }
    {
        self.value
    }
}
