//! The encodings of exact synthesis: the clause lists that say "there is a chain of `r` steps", as definitions.
//! A refutation names the clauses of a formula, so each list is fixed here literal by literal; the encoding
//! crates write these lists and prove what they mean for chains. `chain_theory`, `op_basis` and `tt_core`
//! define chains, bases and truth tables, `fence_core` fences, and `sat_theory` and `clause_core` formulas and
//! the simplification of listed clauses.
//!
//! The encodings are those of Knuth, The Art of Computer Programming, volume 4, section 7.2.2.2 (exercise 477
//! and those around it): a step has one selection variable for each pair of operands, a variable for its value
//! on each row, and four for its operator; an output has a variable for each step that may drive it. The
//! numbering, the order of pairs and the order of clauses are this project's.
//!
//! The methods: `plain` has only the clauses that define chains; `ssv` is SSV (single selection variable: one
//! for each pair) with symmetry-breaking constraints, `select` is MSV (multiple selection variables: one for
//! each operand) with the same constraints, and `fence` is SSV with them and one formula for each fence.
//!
//! - `specs/Numbering.antt` and `specs/Pairs.antt`: the variables, and the pairs in their order.
//! - `specs/Families.antt`: the clauses that define chains. Every encoding by pairs has these, over its own
//!   pairs.
//! - `specs/Plain.antt`: the encoding with these clauses alone. `specs/Cuts.antt`, `specs/Ssv.antt` and
//!   `specs/Fence.antt`: the symmetry-breaking constraints, which some minimum chain satisfies, and the
//!   encodings with them.
//! - `specs/Select.antt`: the encoding by single operands (MSV), with its own form of the constraints.
//! - `specs/Decode.antt`: the chain that a satisfying assignment spells.
//! - `specs/Subproblems.antt`: the subproblems of a size, one for each fence.
//!
//! `laws` compares the definitions with an independent program, written from the same description, on about two
//! hundred inputs: numbers of variables, clauses and literals, and checksums.
#![tactic(auto)]

mod data;
pub mod laws;
mod subproblem;

pub use data::{Pair, Side, Dimensions, Slot};
pub use subproblem::Subproblem;
