//! A netlist over a basis and nothing else, for improvements that are to stay in it: the dangling gates of a circuit
//! are removed, and each other gate of another operator becomes a least chain of gates over the basis (`net_basis`).
//!
//! The main theorem is the contract of `based_circuit`: the circuit behaves as the given one, its gates have operators
//! of the basis, and it has no more of them than take the place of the gates that aren't dangling. Where the basis
//! can't express one of these, the answer is the name by which it is written.
//!
//! ```text
//! match based_circuit(alloc, circuit, basis)? {
//!     Based::Base(circuit) => ..,
//!     Based::Cannot(name) => ..,   // AND over XOR
//!     Based::TooMany => ..,
//! }
//! ```
#![tactic(auto)]

mod answer;
mod basing;
mod cleaning;
mod naming;

pub use answer::Based;
pub use basing::based_circuit;
