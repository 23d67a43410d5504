//! Circuits over a basis and nothing else: a NAND netlist, or an AIG whose complements are free (`u2`).
//!
//! A net whose gates have operators of the basis stays as it is. Otherwise each gate of another operator is replaced by
//! a least chain of gates over the basis for its function of its different signals (`local`). The sixteen functions have
//! at most one chain each, which is found once (`least`). Where there is none, the closure of both operands and the
//! constants under the basis (`closure`) is a set of functions without it, so the basis can't express it. A constant is a
//! signal and needs no gate, nor does a copy.
//!
//! The main theorem is the contract of `over_basis`: the circuit has the same names and the same behaviour, and every
//! gate has an operator of the basis, with no more gates than the least chains have (`AreLengths`). `specs/DocumentOver`
//! says when a document is over a basis.
//!
//! ```text
//! match over_basis(alloc, circuit, basis)? {
//!     Converted::Over(circuit) => ..,           // XOR over NAND has four gates
//!     Converted::Cannot(circuit, node) => ..,   // AND over XOR
//!     Converted::TooMany(circuit) => ..,
//! }
//! ```
#![tactic(auto)]

mod answer;
mod circuits;
mod closure;
mod converting;
mod expressing;
mod join;
pub mod laws;
mod least;
mod local;
mod placing;
mod recipe;
mod table;

pub use answer::{Converted, NetOver};
pub use circuits::over_basis;
pub use converting::net_over;
