//! A checker of refutation logs (LRAT with RUP additions and deletions). `sat_theory` defines when a line holds
//! and when a log refutes a formula, `cnf_core` has the formulas and `lrat_text` the lines.
//!
//! `Checker::feed` accepts exactly the lines that hold, and refuses every other line with its first fault. The
//! main theorem is `laws::refuted_is_unsatisfiable`: if a checker has accepted a log and is refuted, no
//! assignment satisfies the formula.
//!
//! ```text
//! let mut checker = Checker::new(alloc, cnf)?;          // of 1 2, -1 2, 1 -2, -1 -2
//! checker.feed(read_line(alloc, b"5 2 0 1 2 0")?)?;     // clause 2 follows
//! checker.feed(read_line(alloc, b"6 0 5 3 4 0")?)?;     // and so does the empty clause
//! checker.refuted();                                    // true
//! ```
#![tactic(auto)]

mod checker;
mod clauses;
mod error;
mod hints;
mod index;
mod judging;
pub mod laws;
mod marks;
mod slots;

pub use checker::Checker;
pub use error::CheckError;
