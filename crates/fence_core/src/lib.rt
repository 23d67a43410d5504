//! Fences (Kojevnikov, Kulikov and Yaroslavtsev 2009; Haaswijk, Soeken, Mishchenko and De Micheli
//! 2018): the number of steps of a chain on each level, where a step's level is 1 + the larger
//! level of its operands, and inputs have level 0.
//!
//! ```text
//! let fence = Fence::new(vec![in alloc; 2, 1]?); // two steps on the first level, one above them
//! fence.levels().len()                           // 2
//! ```
#![tactic(auto)]

mod fence;
mod listing;

pub use fence::Fence;
pub use listing::fences;
