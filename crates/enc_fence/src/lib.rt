//! The encoding by fences: one formula for each distribution of the steps of a size over levels.
//!
//! A fence is the number of steps on each level. With the steps ordered by level, each has an operand on the
//! level just below its own, so a fence leaves far fewer pairs, and its formula is refuted with far fewer
//! conflicts than the formula of the whole size. Some minimum chain has a fence in which each step drives an
//! output or is read by a step on a higher level; the listed fences are those that pass this count
//! (`fence_core::fences`).
//!
//! - `FenceEnc` is the encoding; its law `complete` is about the fence of a minimum chain.
//! - `pairs_in` gives the pairs of a fence, for `enc_strong` too.
//! - `levels` gives the level of each step of a chain.
#![tactic(auto)]

mod encoding;
mod pairs;

pub use chain_core::levels;
pub use encoding::{FenceEnc, pairs_in};
pub use pairs::FencePairs;
