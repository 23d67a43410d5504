//! What becomes of a circuit that is to be over a basis.
use net_core::Circuit;

/// A circuit over a basis, or why there is none.
#[derive(Drop)]
pub enum Based {
    /// The circuit.
    Base(Circuit),
    /// The basis can't express the operator of the gate that is written by this name.
    Cannot(Vec<u8>),
    /// Over the basis there could be more than 100,000 gates, or 2^31 nodes.
    TooMany,
}
