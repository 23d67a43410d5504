//! AIGER files (the AIGER 1.9 report): their content as data, the parser and the writer of the ASCII form, and the
//! document that a file lists. Every fault of a line is reported with its number, in an order that the definitions in
//! `specs/` fix. Whether the document is well formed is checked later, by the elaboration (`net_build`).
//!
//! ```text
//! let file = read_ascii(alloc, b"aag 3 2 0 1 1\n2\n4\n7\n6 2 4\n")?; // NAND
//! ```
#![tactic(auto)]

mod file;
mod header;
mod laws;
mod limits;
mod listing;
mod marks;
mod names;
mod signals;
mod statements;
mod symbols;
mod tables;
mod walking;
mod writing;

pub use file::{AigFile, AigGate, AigLatch, Counts, PortKind, Reset, Symbol};
pub use laws::files_are_read_back;
pub use limits::{MOST_OUTPUTS, MOST_SOURCES, MOST_VARIABLES};
pub use listing::listed_of;
pub use net_core::{Name, NetError};
pub use walking::read_ascii;
pub use writing::write_ascii;
