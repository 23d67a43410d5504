//! Combinational equivalence of two netlists as a question to a SAT solver. Two nets on the same sources give a
//! formula, the miter (Brand, "Verification of large synthesized designs", 1993). The values of their nodes
//! satisfy it exactly if some sink has two different values. So a refutation shows that the nets are equivalent,
//! and a model is a counterexample.
//!
//! The crate rests on `clause_core` for clauses as they are listed and written, and on `net_theory` for nets.
//!
//! - `specs/Miter.antt`: the variables and clauses. `specs/Counterexample.antt`: counterexamples, and which circuits
//!   can be compared.
//! - `specs/MiterLaws.antt`, on `RowLaws`, `GateLaws` and `FormulaLaws`: what the formula means.
//!   `specs/CircuitLaws.antt`: what that means for circuits.
#![tactic(auto)]

mod laws;

pub use laws::{miters_ask_for_a_difference, refuted_circuits_do_the_same};
