//! What is drawn.

ghost use Rattle.std.specs.Prelude.{◌<◌};

use rand_core::Rng;
use rand_pcg::Pcg32;

/// Draws numbers, always the same ones from a seed.
#[derive(Drop)]
pub struct Chance {
    generator: Pcg32,
}

impl Chance {
    /// What is drawn from this seed. Each stream of a seed draws others.
    pub fn new(seed: u64, stream: u64) -> Chance {
        Chance {
            generator: Pcg32::new(seed, stream),
        }
    }

    /// A number below this one, or 0.
    pub fn below(&mut self, count: u64) -> u64
        ensures { 0 < count → result < count }
    {
        self.generator.next_u64() % count.max(1)
    }

    /// A place in a list of so many, or 0.
    pub fn place(&mut self, count: usize) -> usize
        ensures { 0 < count → result < count }
    {
        self.below(count as u64) as usize
    }

    /// Whether something happens that happens once in so many times.
    pub fn one_in(&mut self, count: u64) -> bool {
        self.below(count) == 0
    }
}
