//! Generates random numbers that a seed determines, and makes random choices with these numbers.

ghost use Rattle.std.specs.Prelude.{◌≡◌, ◌==◌, ◌%◌, ◌<◌, if◌then◌else◌};
ghost use Rattle.rand_xoshiro.specs.SplitMix64.{mix_u64};

use rand_core::SeedableRng;
use rand_core::utils::NextWord;
use rand_xoshiro::SplitMix64;
use std::marker::Model;

/// A generator of random numbers that uses the algorithm SplitMix64 (Steele, Lea and Flood, "Fast splittable
/// pseudorandom number generators", 2014).
///
/// In contracts, a generator is its state, which is a number of 64 bits.
#[derive(Drop)]
pub struct Rng {
    words: SplitMix64,
}

impl Model for Rng {
    ghost use Rattle.std.specs.Prelude.{ℕ};

    ghost Value = { ℕ };

    ghost view = { λ d. d.words };
}

impl Rng {
    /// Creates a generator from `seed`, which determines all of the generator's numbers.
    pub fn new(seed: u64) -> Rng
        ensures { result ≡ seed }
    {
        Rng {
            words: SplitMix64::seed_from_u64(seed),
        }
    }

    /// Returns the next random number, which has 64 bits.
    pub fn roll(&mut self) -> u64
        ensures value { result ≡ (mix_u64 self.old).0 }
        ensures state { self.new ≡ (mix_u64 self.old).1 }
    {
        self.words.next_word()
    }

    /// Returns the next random number modulo `bound`. The result is less than `bound`, or 0 if `bound` is 0.
    pub fn below(&mut self, bound: u64) -> u64
        ensures value { result ≡ (if bound == 0 then 0 else (mix_u64 self.old).0 % bound) }
        ensures state { self.new ≡ (mix_u64 self.old).1 }
    {
        let number = self.roll();
        if bound == 0 { 0 } else { number % bound }
    }

    /// Returns true at random, one time in `bound`.
    pub(crate) fn one_in(&mut self, bound: u64) -> bool {
        self.below(bound) == 0
    }

    /// Returns `number`, the number before it, or the number after it.
    pub(crate) fn near(&mut self, number: u64) -> u64 {
        match self.below(3) {
            0 => number,
            1 => number.saturating_sub(1),
            _ => number.saturating_add(1),
        }
    }

    /// Returns a random element of `things`, or `other` if `things` is empty.
    pub(crate) fn pick<T: Copy>(&mut self, things: &[T], other: T) -> T {
        let index = self.below(things.len() as u64);
        match things.get(index as usize) {
            Some(thing) => *thing,
            None => other,
        }
    }
}
