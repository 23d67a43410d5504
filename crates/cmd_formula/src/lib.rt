//! The command `formula`: a part of a certificate, in the formats of other programs.
//!
//! A part of a certificate is a subproblem of a size: its formula, and the log that refutes it or leaves it open.
//! `WriteFormula` writes the formula in DIMACS, and `WriteLog` the log as plain LRAT; the ids of its hints are the
//! numbers of the clauses in DIMACS. Both are commands for `frame_core` over the text of a certificate that
//! `recheck` accepts; any other text is refused as `recheck` refuses it. `specs/Parts` has what a part is,
//! `specs/Dimacs` its two texts, `specs/FormulaReport` the two tasks, and `specs/FormulaLaws` the proofs that they
//! are tasks and that a text has one part. The argument: the formula depends on the header and on the number of
//! sections alone, which reading the certificate returns; the lines of the log stand between the line of its size
//! and the line `done`, and no other line looks like one of these (`specs/LineLaws`).
//!
//! ```text
//! let words = read_words(alloc, &words)?.unwrap(); // --size 3 --part 1
//! perform(alloc, &AtOnce(WriteFormula(words.asked())), &mut source, &mut out, &mut note)
//! ```
#![tactic(auto)]

mod claims;
mod dimacs;
mod formulas;
mod lines;
mod logs;
mod parts;
mod replies;
mod words;

pub use dimacs::push_dimacs;
pub use logs::naming;
pub use parts::PartAsked;
pub use replies::{WriteFormula, WriteLog};
pub use words::{FormulaWords, read_words};
