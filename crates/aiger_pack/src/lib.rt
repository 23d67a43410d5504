//! The binary form of an AIGER text: `pack` returns a binary text that stands for the same ASCII text, or else a copy
//! of the text. That it stands for it is tested on each text, by `ascii_text` of `aiger_binary`, so nothing has to be
//! known of how it is made. Each text of a circuit that `aiger_write` writes has a binary form.
//!
//! ```text
//! let bytes = pack(alloc, b"aag 3 2 0 1 1\n2\n4\n6\n6 4 2\n")?; // b"aig 3 2 0 1 1\n6\n\x02\x02"
//! ```
#![tactic(auto)]

mod bytes;
mod packing;

pub use packing::pack;
