//! An upper bound on the size of a chain: a chain for the tables of a specification, by a walk over small nets
//! (`chain_walk`).
//!
//! Nothing of the walk is trusted. Its net becomes a chain only if each operand is a lower place, and the chain is
//! returned only if it is over the basis and agrees with the specification on all rows. The work is counted, so that
//! the answer is the same on each machine.
//!
//! ```text
//! match bound(alloc, &spec, basis, Goal { low: 4, most: 16, work: 60_000 })? {
//!     Some(chain) => .., // a chain for the specification, of at most 16 steps
//!     None => ..,        // the walk found none; that says nothing
//! }
//! ```
#![tactic(auto)]

mod bounding;
mod net_chain;

pub use bounding::{Goal, bound};
