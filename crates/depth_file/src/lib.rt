//! Depth certificates as texts, judged line by line. The crate rests on `depth_theory` for what a depth
//! certificate is and how it is spelled, on `cert_file` for the certificate at its head and for the logs, and on
//! the encoding by fences.
//!
//! The theorem is that of `check_depth`: bytes have a verdict exactly if they are the text of a depth certificate
//! with that verdict; else the first fault is reported. The lines up to the first `end` go to the certificate
//! reader, which then returns the header and the chain; each line after it leads from one stage to the next. Of
//! the logs only the checker of the current one is kept. `DepthReader` takes the text in pieces, cut anywhere; a
//! whole text is one piece. Every list of lines has exactly one answer (`laws::lines_have_one_answer`).
//!
//! ```text
//! let verdict = check_depth(alloc, &bytes)?; // DepthVerdict::Levels(3)
//! ```
#![tactic(auto)]

mod certificate;
mod checking;
mod fences;
pub mod laws;
mod line_stage;
mod lines;
mod reader;
mod stage;
mod stepping;

pub use checking::check_depth;
pub use depth_theory::{DepthError, DepthVerdict};
pub use reader::DepthReader;
pub use stage::Stage;
