//! The parser of BLIF netlists (the Berkeley BLIF manual): logical lines, words and statements, and the document
//! that they list. Every fault of a line is reported with its line number, in an order that the definitions in
//! `specs/` fix. Whether the document is well formed is checked later, by the elaboration (`net_build`).
//!
//! ```text
//! let listed = read_listed(alloc, b".model m\n.inputs a\n.outputs y\n.names a y\n0 1\n.end\n")?;
//! ```
#![tactic(auto)]

mod keywords;
mod latches;
mod logical;
mod reading;
mod cover_lines;
mod statements;
mod walking;
mod words;

pub use keywords::BlifKeyword;
pub use logical::{LogicalLine, next_logical};
pub use net_document::{Listed, NetError};
pub use reading::{Control, CoverTable, Reading};
pub use walking::read_listed;
pub use words::next_word;
