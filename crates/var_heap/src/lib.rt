//! A binary heap of variables by their scores (VSIDS order heap), from which a solver takes its next decision
//! variable (Moskewicz and others, "Chaff", 2001; Eén and Sörensson, "An extensible SAT-solver", 2003). It
//! depends on no other crate.
//!
//! Contracts see a score for each variable, and which variables are held. `pop` removes a held variable of
//! greatest score. `pop`, `push` and `bump` take time logarithmic in the number of held variables.
//!
//! ```text
//! let mut heap = VarHeap::new(alloc, 3)?;
//! heap.bump(2, 5);
//! heap.bump(3, 7);
//! heap.pop()    // 3
//! ```
#![tactic(auto)]

mod array;
mod var_heap;

pub use var_heap::VarHeap;
