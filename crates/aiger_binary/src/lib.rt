//! The binary form of AIGER (the AIGER 1.9 report), by the ASCII text of the same file: `ascii_text` makes that text,
//! which a reader of the ASCII form then reads. A fault of the binary text is one of its ASCII text, in the line of the
//! same input, latch, output, gate or symbol. The definition is `ascii_of` in `specs/Ascii`.
//!
//! ```text
//! let text = ascii_text(alloc, b"aig 3 2 0 1 1\n6\n\x02\x02")?; // "aag 3 2 0 1 1\n2\n4\n6\n6 4 2\n"
//! ```
#![tactic(auto)]

mod codes;
mod cutting;
mod expanding;
mod gates;
mod header;
mod sections;

pub use expanding::{ascii_text, is_binary};
