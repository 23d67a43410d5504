//! Encodings with a selection variable for each pair of operands of a step (SSV, single selection
//! variable).
//!
//! `Plain` has only the clauses that define chains. Both laws of `Encoding` hold of it, and `complete` holds
//! even if a smaller chain exists. `Ssv` adds symmetry-breaking constraints, which only some minimum chain
//! satisfies: its law `complete` needs the law of minimum chains.
#![tactic(auto)]

mod pairs;
mod plain;
mod ssv;

pub use plain::Plain;
pub use ssv::Ssv;
