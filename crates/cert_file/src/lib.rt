//! The checker of certificates: texts, checked line by line. It depends on `cert_theory` for what a valid
//! certificate is, how it is spelled and what its verdict means, on `lrat_check` for logs, and on the encodings
//! for the formulas that the logs refute.
//!
//! The theorem is the contract of `check_certificate`: bytes get a verdict exactly where they are the text of a
//! valid certificate with this verdict, and the verdict is true; otherwise the first fault is reported. Of the
//! logs, only the checker of one subproblem is kept in memory: `SubproblemReader` reads the log of a subproblem,
//! wherever it is in a text, and `Stage` is the state between two lines. `CertificateReader` (the reader of
//! `line_reader` over `Stage`) takes the text in pieces of any size; `check_certificate` feeds the whole text as one
//! piece. The functions on single lines are public for `depth_file`, whose texts have the same kinds of lines.
//!
//! ```text
//! let verdict = check_certificate(alloc, &bytes)?; // Verdict::Minimum(1) for XOR
//! ```
#![tactic(auto)]

mod checking;
mod claim;
mod fence_names;
mod formulas;
mod header;
mod line_stage;
mod lines;
mod logs;
mod reader;
mod sections;
mod stage;
mod stepping;
mod subproblem;
mod trailer;

pub use cert_theory::{CertificateError, LogEnd, Header, SubproblemError, Verdict};
pub use checking::check_certificate;
pub use claim::Claim;
pub use fence_names::is_fence_name;
pub use lines::{TextLine, VerdictNumbers, is_line, number_after, numbered_in};
pub use logs::{ended_in, low_with};
pub use reader::{CertificateReader, claim_at_end};
pub use stage::Stage;
pub use subproblem::{SubproblemReader, SubproblemStep};
