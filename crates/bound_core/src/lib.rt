//! A lower bound for the number of steps of a specification, from the supports of its outputs and
//! the outputs that differ.
//!
//! `chain_theory` defines chains, and `tt_core` has specifications in words and their live outputs.
//! An input is in the support of an output (the output uses it) where two rows that differ in that
//! input alone have the cells 0 and 1. `lower_bound` is the greatest of three counts: the live
//! outputs that differ; the support size of one output, less 1; and the number of inputs in the
//! supports of live outputs, less the number of live outputs. Its theorem: no chain of fewer steps
//! implements the specification, over any basis.
//!
//! The argument is in two laws of `laws`. Supports: go from the last step of a chain to the first,
//! and in the list of the outs' places replace the step's place by its two operands. Each step makes
//! the list longer by at most one, and at the end the list has all inputs in the supports
//! (`Needed`). Outputs: live outputs that differ are values of different steps (`Different`).
//!
//! ```text
//! let bound = lower_bound(&spec); // 3 for the exclusive or of four inputs
//! ```
#![tactic(auto)]

mod bound;
pub mod laws;
mod words;

pub use bound::lower_bound;
pub use words::uses;
