//! The parser of BENCH netlists (the ISCAS benchmark files): items (tokens), keywords and lines, and the document
//! that they list. Every fault of a line is reported with its line number, in an order that the definitions in
//! `specs/` fix. Whether the document is well formed is checked later, by the elaboration (`net_build`).
//!
//! ```text
//! let listed = read_listed(alloc, b"INPUT(a)\nINPUT(b)\nOUTPUT(y)\ny = NAND(a, b)\n")?;
//! ```
#![tactic(auto)]

mod items;
mod keywords;
mod lines;
mod operands;
mod walking;

pub use items::next_item;
pub use keywords::{BenchKeyword, GateKey};
pub use net_document::{Listed, NetError};
pub use walking::read_listed;
