//! What Boolean chains mean: operators, specifications, chains, the value of a place, agreement
//! (which chain implements which specification), chains over a basis, and the least number of steps.
//! All that the other crates promise about chains is stated in the definitions of this crate's
//! `specs/`, which use lists, numbers and bits alone.
//!
//! The subject is that of Knuth, The Art of Computer Programming, volume 4A, section 7.1.2. Here the
//! operands of a step may be equal, an output may be an input or a constant at no cost, and a
//! complemented output is not free.
//!
//! `plain` computes value and agreement literally from the definitions, on small inputs:
//! `plain::place_value(3, &steps, row, place)`. The laws of `laws` characterise values and levels
//! without recursion.
#![tactic(auto)]

mod data;
pub mod laws;
pub mod plain;

pub use data::{Cell, MOST_STEPS, Out};
