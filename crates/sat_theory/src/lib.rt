//! The meaning of LRAT proofs, called logs here: literals, clauses, formulas and assignments; the lines of a
//! log, when a line holds (the RUP check along its hints succeeds), and what a whole log then shows. All
//! contracts about refutations, of checkers and of solvers, are stated with the definitions in this crate's
//! `specs/`, which use nothing but lists, numbers and bits.
//!
//! The logs are those of LRAT (Cruz-Filipe, Heule, Hunt, Kaufmann and Schneider-Kamp, "Efficient
//! Certified RAT Verification", 2017), with RUP additions (by unit propagation, with hints) and
//! deletions, but without the RAT steps of the full format.
//!
//! The main theorem is `laws::refuted_is_unsatisfiable`: if a log refutes a formula, no assignment satisfies it.
//!
//! `plain` computes the definitions literally: `state.addition_holds(alloc, 5, &[2], &[1, 2])` returns whether
//! the unit clause 2, with the id 5, follows by the hints 1 and 2.
#![tactic(auto)]

pub mod laws;
mod limits;
pub mod plain;

pub use limits::{MOST_CONFLICTS, MOST_ID, MOST_VARIABLE, SLACK};
