//! The values of two netlists under given values of their sources, so that a counterexample can be replayed:
//! `equiv --at BITS FIRST SECOND`.
//!
//! `WriteValues` is the command for `frame_core` over the text of the second netlist, each in a format of its own. It
//! writes whether all outputs and next states agree at BITS, then the bit of each source, and then the two values of
//! each output and next state, in the order in which `equiv` compares these. It refuses what `equiv` of two files
//! refuses, in the same words, and bits that are more or fewer than the sources. `specs/AtReport` has the task, and
//! `specs/AtLaws` the proof that it is one. `read_bits` reads BITS, as it stands in the answer `differ` of `equiv`
//! (`laws`).
//!
//! What is proved: the values that are written are those of the two documents (`HasValues`), in the one valuation that
//! each has under these bits; they are simulated in the net of each circuit. No solver is asked.
//!
//! ```text
//! let job = AtOnce(WriteValues { formats, bits: &[true, false], first: &text });
//! perform(alloc, &job, &mut source, &mut out, &mut note)
//! ```
#![tactic(auto)]

mod bits;
mod circuits;
mod command;
mod interface;
pub mod laws;
mod pairs;
mod writing;

pub use bits::read_bits;
pub use command::WriteValues;
