//! Pseudorandom words for heuristic choices, the same in every run: xorshift with 64 bits of state (Marsaglia, 2003),
//! read from the middle of the state, or multiplied as a whole (Vigna, "An experimental exploration of Marsaglia's
//! xorshift generators, scrambled", 2016).

/// The factor of a scrambled word.
const FACTOR: u64 = 0x2545_f491_4f6c_dd1d;

/// The state of the generator.
#[derive(Clone, Copy)]
pub struct Random(u64);

impl Random {
    /// The generator of a seed. The state is never 0, which xorshift would keep.
    pub fn new(seed: u64) -> Random {
        Random((seed ^ 0x9E37_79B9_7F4A_7C15) | 1)
    }

    /// The generator in a given state. A state of 0 gives the word 0 for ever.
    pub fn of_state(state: u64) -> Random {
        Random(state)
    }

    /// The next state.
    fn step(&mut self) -> u64 {
        let mut state = self.0;
        state ^= state.wrapping_shl(13);
        state ^= state >> 7;
        state ^= state.wrapping_shl(17);
        self.0 = state;
        state
    }

    /// The next number.
    pub fn next(&mut self) -> u32 {
        ((self.step() >> 16) & 0xFFFF_FFFF) as u32
    }

    /// A number below `bound`; 0 where `bound` is 0.
    pub fn below(&mut self, bound: u32) -> u32 {
        let number = self.next();
        if bound == 0 { 0 } else { number % bound }
    }

    /// The next word of 64 bits.
    pub fn word(&mut self) -> u64 {
        self.step().wrapping_mul(FACTOR)
    }
}
