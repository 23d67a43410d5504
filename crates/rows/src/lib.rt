//! Support for heuristics, about which nothing is proved: reproducible random words, and arrays that can be read and
//! written at any index. Reading past the end gives a default and writing past the end does nothing, so that a search needs no
//! bounds of its own and every call returns.
//!
//! ```text
//! let mut random = Random::new(7);
//! let number = random.below(10); // the same in every run
//! at(&row, 100);                 // 0 where the row is shorter
//! ```
#![tactic(auto)]

mod access;
mod random;

pub use access::{at, bit_at, entry, put, raise};
pub use random::Random;
