//! Reading AIGER files (the AIGER 1.9 report). `read_aiger` returns the circuit of a text exactly if the text lists a
//! well-formed document, and else the first fault. The definitions are those of `net_theory` and `aiger_text`.
//!
//! The main theorem: the circuit is equivalent to the document that its text lists, with as many gates as the
//! document costs: one for each AND gate, and one for each variable whose complement has a table of its own.
//!
//! ```text
//! let circuit = read_aiger(alloc, b"aag 3 2 0 1 1\n2\n4\n7\n6 2 4\n")?; // NAND
//! ```
#![tactic(auto)]

mod reading;

pub use net_core::{Circuit, NetError};
pub use reading::{read_aiger, read_aiger_up_to};
