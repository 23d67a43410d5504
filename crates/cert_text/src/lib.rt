//! The writer of certificates. It depends on `cert_theory` for certificates as data and for their spelling, and
//! on the crates of tables, bases, chains and logs for the spelling of each of these.
//!
//! The theorem is that of `write_certificate`: it appends exactly the certificate's spelling. `write_header`,
//! `write_section` and `write_trailer` append the three kinds of pieces, so that a certificate can be written
//! during the search: the header, each section as soon as it is complete, and the trailer. `write_subproblems`
//! appends logs of subproblems that follow a certificate (those of depths).
//!
//! ```text
//! let mut text = Vec::new(alloc);
//! write_certificate(&certificate, &mut text)?; // "chains 1\n" .. "minimum 1\nend\n"
//! ```
#![tactic(auto)]

mod header;
mod section;
mod tables;
mod trailer;
mod whole;

pub use header::write_header;
pub use section::{write_section, write_subproblems};
pub use tables::push_numbered;
pub use trailer::write_trailer;
pub use whole::write_certificate;
