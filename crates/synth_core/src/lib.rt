//! Exact synthesis on texts, from truth tables to a certificate of the fewest steps: what the command `synth` does
//! with its input. The crate rests on `tt_core` for reading tables, on `size_loop` for the search and on
//! `cert_text` for writing certificates. The basis, the method and the limits are `SynthSettings`. It is generic
//! in the solver `S`.
//!
//! `begin` writes the header, and each call of `next_piece` what one more size adds. Nothing is kept of the text handed
//! out. The theorem: the texts, one after the other, are a valid certificate for the tables in the input, with the
//! verdict that the last call returns; and `begin` refuses exactly an input that isn't tables alone.
//!
//! `certify_depth` (`src/least_depth.rt`) does the same for the fewest levels among the chains of the fewest steps,
//! by `depth_core`: its text is a valid depth certificate, or a certificate whose verdict is no minimum.
//!
//! ```text
//! let begun = begin(alloc, b"inputs 2\n0110\n", &SynthSettings::defaults())?;
//! // the section of size 0; at last the trailer, Minimum(1)
//! let piece = next_piece::<Cdcl, Silent>(alloc, begun.search, &Silent)?;
//! ```
#![tactic(auto)]

mod counting;
mod least_depth;
mod pieces;
mod reading;

pub use cert_theory::Verdict;
pub use depth_theory::DepthVerdict;
pub use least_depth::{CertifiedDepth, DepthFound, certify_depth};
pub use pieces::{BegunSynthesis, Piece, begin, method_of, next_piece};
pub use reading::tables;
pub use settings::SynthSettings;
