//! What a certificate of minimum size is, how it is written, when it is valid, and what it proves. Validity,
//! spelling and meaning rest on the definitions of chains, logs and formulas alone; faults of a text are
//! defined by the grammars of its lines.
//!
//! A certificate is for truth tables, a basis and a method. For each size 0, 1, 2 and so on it has a section
//! with a log that refutes the method's formula of that size, or that shows how much work left the formula
//! open. A trailer follows: the chain, if one was found, and the verdict.
//!
//! - `specs/Coding.antt`: the formulas that a method gives a size.
//! - `specs/Certificate.antt`: a certificate as a value, and when it is valid.
//! - `specs/Spelling.antt`: how it is written.
//! - `specs/SubproblemLines.antt`: the lines of one subproblem, and their first fault.
//! - `specs/Judging.antt`: the lines of a certificate, and the first fault where they aren't a valid one.
//! - `specs/Meaning.antt`: what each verdict says about chains.
//!
//! `Certificate` is a certificate as data: made by the loop over sizes and written by `cert_text`. Contracts see
//! it as the value of `specs/Certificate.antt`.
//!
//! The theorems, in `cert_laws`: lines are accepted with a verdict exactly where they spell a valid certificate
//! that has it, and the verdict of a valid certificate is true.
#![tactic(auto)]

mod certificate;
mod data;
mod fence_names;
pub mod laws;
mod section;
mod stopping;
mod subproblem_log;
mod verdicts;

pub use certificate::Certificate;
pub use data::{CertificateError, Header, LogEnd, SubproblemError, Verdict};
pub use fence_names::fence_name;
pub use section::Section;
pub use stopping::stops_after;
pub use subproblem_log::SubproblemLog;
