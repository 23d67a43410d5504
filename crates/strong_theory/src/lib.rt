//! Stronger formulas: those of SSV and of fences (`enc_theory`) with further clauses, which every chain satisfies
//! that satisfies the formula. So they ask nothing new of chains, for any basis, and no argument about least
//! chains is needed: they only make a refutation shorter.
//!
//! - `specs/Edges.antt`: the edges of a table, which are pairs of rows that differ in one input, with an output
//!   that has to differ there.
//! - `specs/Strong.antt`: at most one pair a step; which steps differ on an edge, where only a step with an
//!   operand that differs can differ; and the only reader of an edge's input differs there. The formulas with
//!   these clauses. Those by the methods `strong` and `strong-fence` have the exchange cut too (`npn_strong`).
#![tactic(auto)]

mod data;
pub mod laws;

pub use data::Edge;
