//! The formulas by `strong` and `strong-fence`, and what they mean: the strengthened ones (`strong_theory`) with the
//! exchange cut with complements. The clauses of the cut are those of symmetric inputs, for the inputs whose exchange
//! keeps the tables once some inputs are complemented, and all outputs or none; only over bases that are closed under
//! complements. They ask for a least chain of some kind, and `npn_laws` says that there is one. This crate has no code:
//! `laws` states the laws.
//!
//! - `specs/Cut.antt`: which inputs may be exchanged, the clauses, and the formulas.
//! - `specs/CutHolds.antt`: a chain that meets the cut makes the clauses true; they are clauses of a formula.
//! - `specs/Whole.antt`, `specs/Fences.antt`: the laws of both formulas.
#![tactic(auto)]

pub mod laws;
