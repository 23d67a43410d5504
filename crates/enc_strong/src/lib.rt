//! Encodings by stronger formulas (`strong_theory`): those of SSV and of fences, with the exchange cut with
//! complements, at most one pair a step and, on each edge of the tables, variables that say which steps differ. Their
//! laws are those of `npn_strong`.
//!
//! - `Strong`: one formula for a size. `StrongFence`: one for each listed fence.
//! - `exchange`: the clauses of the cut. `edges`: the edges of tables. `one_pair`, `differences`: the further clauses.
//!   `formula`: a formula with them.
#![tactic(auto)]

mod differences;
mod edge_steps;
mod edges;
mod exchange;
mod formula;
mod one_pair;
mod strong;
mod strong_fence;

pub use strong::Strong;
pub use strong_fence::StrongFence;
