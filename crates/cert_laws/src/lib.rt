//! The theorems about certificates. `cert_theory` defines what a valid certificate is, how it is spelled and
//! which faults a text has; this crate proves what follows, and has no code.
//!
//! - Lines are accepted with a verdict exactly where they spell a valid certificate that has it. One direction
//!   (`specs/CertificateSpellings.antt`) follows the checker's definition line by line, the other
//!   (`specs/CertificatesAgain.antt`) follows the spelling.
//! - The verdict of a valid certificate is true (`specs/Meanings.antt`): a size whose subproblems are all
//!   refuted isn't the minimum, by the laws of the method's formulas (`specs/CodingLaws.antt`).
//! - The text determines the tables and the basis (`specs/QuestionLaws.antt`).
//!
//! The theorems are the contracts of `laws`.
#![tactic(auto)]

pub mod laws;
