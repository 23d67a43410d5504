//! Elaboration: from a parsed document of any format to its circuit. It checks that the document is well formed,
//! decomposes its tables into gates in topological order, and keeps the document's names.
//!
//! The main theorem: `circuit_of` returns a circuit exactly if there is no fault; then the document is well
//! formed, and the circuit is equivalent to it.
#![tactic(auto)]

mod building;
mod checks;
mod circuits;
mod merging;
mod signals;

pub use circuits::circuit_of;
pub use merging::total_cost;
pub use net_core::{Circuit, NetError};
pub use net_document::{Document, Listed};
