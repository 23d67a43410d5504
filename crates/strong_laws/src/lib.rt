//! What stronger formulas mean (`strong_theory`). The further clauses ask nothing new of a chain: the assignment of
//! every chain that satisfies the formula of SSV, or of a fence, satisfies the stronger one, once it is extended by
//! which steps differ on each edge. And what satisfies the stronger formula satisfies the other. So all laws of SSV
//! and of fences hold of the stronger formulas, for every basis. This crate has no code: `laws` states the laws.
//!
//! - `specs/Extended.antt`: an assignment with further variables keeps the truth of the clauses before.
//! - `specs/EdgeLaws.antt`: what a listed edge is. `specs/Differing.antt`: which places of a chain differ on it: an
//!   output does, and so does a reader of the edge's input.
//! - `specs/Bits.antt`: the variables of edges by a chain. `specs/Said.antt` and `specs/OneEdge.antt`: the clauses
//!   hold where an assignment says the chain and its differences. `specs/Strengthened.antt`: so does the extension
//!   of the chain's assignment.
//! - `specs/StrongClauses.antt`: they are clauses of a formula.
//! - `specs/Whole.antt`, `specs/Fences.antt`: the laws of the formulas of SSV and of fences, strengthened. The methods
//!   `strong` and `strong-fence` add the exchange cut, with laws of their own (`npn_strong`).
#![tactic(auto)]

pub mod laws;
