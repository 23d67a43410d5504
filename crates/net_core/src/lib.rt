//! Nets of two-input gates, and circuits (nets with names): simulation, cleanup of dangling gates,
//! decomposition of tables into gates, and names for the gates of a circuit that is written. The
//! definitions are those of `net_theory`, with a glossary in its `specs/Net.antt`.
//!
//! The main theorems: `expand` appends as many gates as the table costs and returns a signal with the
//! table's value under every assignment; `remove_dangling` keeps exactly the gates in the transitive fanin of
//! the sinks, and the values of all sinks.
//!
//! ```text
//! let mut net = Net::new(2, Vec::new(alloc), Vec::new(alloc));
//! let xor = expand(alloc, &mut net, &cover, &[Sig::Node(1), Sig::Node(2)])?; // `10 1`, `01 1`
//! ```
#![tactic(auto)]

mod circuit;
mod costs;
mod cover;
mod dangling;
mod error;
mod evaluation;
mod expansion;
mod joining;
mod keeping;
mod marking;
mod name;
mod naming;
mod net;
mod truth;
mod whole;

pub use circuit::{Circuit, Latch};
pub use costs::cover_cost;
pub use cover::{Cover, Cube};
pub use dangling::remove_dangling;
pub use error::NetError;
pub use evaluation::values;
pub use expansion::{expand, expand_body};
pub use joining::Connective;
pub use keeping::{keep_gates, moved, moved_sinks, start_nodes};
pub use marking::{mark_reached, mark_sinks};
pub use name::Name;
pub use naming::{GateNames, all_names, gate_names, take_latches, take_names};
pub use net::Net;
pub use net_theory::{Gate, Sig, Trigger};
pub use op_basis::Op;
pub use truth::{binary_word, cover_value, unary_word};
pub use whole::{Body, Whole, body_cost, body_value};
