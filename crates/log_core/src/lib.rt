//! Refutation logs (LRAT proofs) as a solver produces them: lines are appended, and read in order. Contracts see
//! a log as the list of its lines, in the definitions of `sat_theory`. Its numbers are packed into bytes
//! (variable-length, base 128): a hint mostly takes two bytes, as the difference from the hint before, and a
//! literal takes as many as its variable needs.
//!
//! ```text
//! let mut log = Log::new(alloc);
//! log.add(5, &lits, &[1, 2])?; // the clause with the id 5, by the hints 1 and 2
//! log.delete(5, &[3])?;        // deletes the clause with the id 3
//! write_log(&log, &mut text)?; // appends both lines as text
//! ```
#![tactic(auto)]

mod head;
mod held;
mod items;
mod log;
mod numbers;
mod packing;
mod steps;
mod unpacking;
mod writing;

pub use log::{Lines, Log};
pub use writing::write_log;
