//! The formats of netlists as one type: `NetFormat` names BLIF, BENCH and AIGER (in either form), and `read_netlist`
//! reads a text of any of them. Its clauses are those of the reader of the format; `format_of` (`specs/Formats`) says
//! which `Format` a name stands for.
//!
//! `specs/FormatLaws.antt`: texts of each format list names within their limits, and few sources and sinks.
//!
//! ```text
//! let circuit = read_netlist(alloc, NetFormat::Aiger, b"aag 3 2 0 1 1\n2\n4\n7\n6 2 4\n")?;
//! ```
#![tactic(auto)]

mod reading;

pub use format_names::{FormatPair, NetFormat};
pub use net_core::{Circuit, NetError};
pub use reading::{read_netlist, read_netlist_up_to};
