//! What is drawn from a seed.

use rand_core::{Rng, SeedableRng};
use rand_xoshiro::Xoshiro256PlusPlus;

/// A generator of numbers, the same from the same seed.
#[derive(Drop)]
pub struct Dice {
    generator: Xoshiro256PlusPlus,
}

impl Dice {
    pub fn of_seed(seed: u64) -> Dice {
        Dice {
            generator: Xoshiro256PlusPlus::seed_from_u64(seed),
        }
    }

    /// A number below this one, or 0.
    pub fn below(&mut self, end: u64) -> u64 {
        let drawn = self.generator.next_u64();
        if end == 0 { 0 } else { drawn % end }
    }

    /// Whether one of so many came.
    pub fn one_of(&mut self, count: u64) -> bool {
        self.below(count) == 0
    }
}
