//! A Lamport clock draws times, and stays later than every time that it observes.

ghost use Rattle.std.specs.Prelude.{◌≡◌, ◌<◌, ◌+◌, ◌↔◌, IfOk, OnOk, OnErr, IsErr};
ghost use Rattle.serf_lamport.specs.Clock.{max_clock, observed, observed_before};

use crate::time::Time;
use std::marker::Model;
use thiserror::Error;

/// A Lamport clock: a number up to 2^64 - 1, which never falls.
///
/// Contracts see a clock as this number, which is also the next time that the clock draws.
#[derive(Clone, Copy, Debug, PartialEq, Eq)]
pub struct Clock {
    value: u64,
}

impl Model for Clock {
    ghost use Rattle.std.specs.Prelude.{ℕ};

    ghost Value = { ℕ };

    ghost view = { λ c. c.value };

    ghost inverse = { λ n. record { value = n } };
}

/// The clock has reached 2^64 - 1. This isn't a valid time, so the clock can't draw another one.
#[derive(Clone, Copy, Debug, PartialEq, Eq, Error)]
#[error("the clock is exhausted")]
pub struct Exhausted;

impl Clock {
    /// Returns a new clock, whose first drawn time is 1. A new clock of Serf also returns 1 at its first
    /// increment. Allocates no memory.
    pub fn new() -> Clock
        ensures { result ≡ 1 }
    {
        Clock { value: 1 }
    }

    /// Returns the clock's number. This is the next time that the clock draws, or 2^64 - 1 if the clock is
    /// exhausted. Allocates no memory.
    pub fn time(&self) -> u64
        ensures { result ≡ self.now }
    {
        let Clock { value } = *self;
        value
    }

    /// Makes the clock later than `time` (`LamportClock.Witness`). If `time` is below the clock, the clock
    /// doesn't change. Otherwise it becomes `time` plus one. Allocates no memory.
    pub fn observe(&mut self, time: Time)
        ensures { self.new ≡ observed self.old time }
    {
        if time.get() >= self.value {
            self.value = time.get() + 1;
        }
    }

    /// Observes the time just before `value`, or nothing if `value` is 0. A push/pull reports a peer's clock
    /// in the form of `value` (`delegate.go`, `MergeRemoteState`). Allocates no memory.
    pub fn observe_before(&mut self, value: u64)
        ensures { self.new ≡ observed_before self.old value }
    {
        if value > self.value {
            self.value = value;
        }
    }

    /// Returns the clock's number as the next time, and advances the clock by one. If the number is 2^64 - 1,
    /// the call returns `Exhausted` and leaves the clock unchanged. Allocates no memory.
    pub fn draw(&mut self) -> Result<Time, Exhausted>
        ensures exhausted { IsErr result ↔ (self.old ≡ max_clock) }
        ensures time { IfOk result (λ t. t ≡ self.old) }
        ensures ok { OnOk result (self.new ≡ self.old + 1) }
        ensures err { OnErr result (self.new ≡ self.old) }
    {
        match Time::new(self.value) {
            Some(time) => {
                self.value += 1;
                Ok(time)
            }
            None => Err(Exhausted),
        }
    }
}
