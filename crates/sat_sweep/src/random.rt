//! The random words of sampled assignments, the same in every run.
use rows::Random;

/// The initial state: Marsaglia's example seed.
const SEED: u64 = 88_172_645_463_325_252;

/// The generator at its beginning.
pub(crate) fn generator() -> Random {
    Random::of_state(SEED)
}

/// A word in which each bit is 1 with probability 1/16, and the lowest bit is 0.
pub(crate) fn sparse(random: &mut Random) -> u64 {
    let first = random.word() & random.word();
    let second = random.word() & random.word();
    first & second & !1
}
