//! Values of two netlists by the names of their inputs, outputs and latches: of the sinks under given bits, and of a
//! counterexample.
//!
//! The theorem is that of `compare_named`: it answers as `compare_circuits` of `equiv_run`, and where two circuits
//! differ it tells the values of the output or next state that differs in both, and the bit of each input and latch.
//! `specs/Named.antt` says what holds of them, for two circuits and for the documents that these were read from.
//!
//! ```text
//! let named = compare_named::<Cdcl, Silent>(alloc, &first, &second, 100000, &Silent)?;
//! named.compared.text // "differ output y\nat 10\n"
//! named.told          // "differ output y: 0 and 1\na=1\nb=0\n"
//! ```
//!
//! - `specs/Lines.antt`: the lines. `specs/Spelled.antt`: bits as characters.
//! - `specs/NamedLaws.antt`: an answer for two circuits is one for their documents.
#![tactic(auto)]

mod comparing;
mod differing;
mod lines;
mod simulating;
mod spelled;

pub use comparing::{ComparedNamed, compare_named};
pub use lines::{character, push_sink, push_sources};
pub use simulating::{same_bits, sink_bits};
pub use spelled::bits_of;
