//! The text format of refutation logs: LRAT with RUP additions and deletions. `sat_theory` defines what a line
//! means, `cnf_core` has the literals and `text_core` the items and numbers.
//!
//! An addition is `ID literals 0 hints 0`, a deletion is `ID d ids 0`, and items are separated by one blank. The
//! main theorem is the contract of `read_line`: a line is read if and only if the text is its spelling, and each
//! refusal is the first fault from the left.
//!
//! ```text
//! let line = read_line(alloc, b"5 2 0 1 2 0")?; // the unit clause 2 with the id 5, by the hints 1 and 2
//! write_line(&line, &mut out)?;                 // appends "5 2 0 1 2 0\n"
//! ```
#![tactic(auto)]

mod error;
mod laws;
mod line;
mod numbers;
mod numerals;
mod reading;
mod repeats;
mod writing;

pub use error::LineError;
pub use laws::laws_of_lines;
pub use line::Line;
pub use reading::read_line;
pub use writing::write_line;
