//! The levels of nets: how many gates are on a longest path to a sink.
//!
//! A source and a constant have the level 0, and a gate one more than the larger of its operands' levels, whatever its
//! operator: a NOT gate counts as any other. The levels of a net are the largest of its sinks' levels, so dangling
//! gates don't count. `specs/Levels.antt` is the definition, and `levels` computes it.
//!
//! ```text
//! levels(alloc, &net)? // 3 for a full adder of two half adders and an OR
//! ```
#![tactic(auto)]

pub mod laws;
mod node_levels;

pub use node_levels::levels;
