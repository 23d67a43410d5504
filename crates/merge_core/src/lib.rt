//! Equal gates are merged: structurally equal ones by hashing (strash), and functionally equal ones by exhaustive
//! simulation, in nets of at most 12 sources. It builds on `net_core` for nets and on `lane_sim` for simulation.
//!
//! `strash` goes once over the gates in topological order, maps the operands of each to their new signals and looks up
//! the key of the result. If no earlier gate has that key, the gate is kept; otherwise its node is mapped to the gate
//! that has it. `functional_reduction` simulates the whole net as one cone, under all assignments at once: the
//! signature of a node is its truth table, and a constant or the first node with a signature represents the others.
//! Nodes whose signatures differ may share a hash, and then one that could be merged may stay.
//!
//! - `src/key.rt`, `src/merging.rt`: keys and the pass of structural hashing.
//! - `src/whole.rt`, `src/signatures.rt`: the cone of a whole net; signatures compared and hashed.
//! - `src/representatives.rt`, `src/equal.rt`: the representative of a node, and the pass of functional hashing.
//!
//! The theorems are the contracts of `strash` and `functional_reduction`: the merged net implements the net, and each
//! of its gates has the operator of a gate of the net. After `strash` no two gates are structurally equal.
//!
//! ```text
//! let merged = strash(alloc, &net)?;             // of AND of 1 and 2 and AND of 2 and 1, the first is kept
//! let fewer = functional_reduction(alloc, &net)?; // of AND of x and y and NOR of NOT x and NOT y, too
//! ```
#![tactic(auto)]

mod equal;
mod key;
mod merging;
mod representatives;
mod signatures;
mod whole;

pub use equal::functional_reduction;
pub use key::{StrashKey, key_of};
pub use merging::strash;
