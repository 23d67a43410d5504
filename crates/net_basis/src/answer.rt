//! What becomes of a net or a circuit that is to be over a basis.
use net_core::{Circuit, Net};

/// A net over a basis, or why there is none.
#[derive(Drop)]
pub enum NetOver {
    /// The net is over the basis as it is.
    Itself,
    /// The net over the basis.
    Over(Net),
    /// The basis can't express the gate of this node.
    Cannot(u32),
    /// Over the basis it could have more than 100,000 gates, or 2^31 nodes.
    TooMany,
}

/// A circuit over a basis, or the circuit as it was and why there is none.
#[derive(Drop)]
pub enum Converted {
    /// The circuit over the basis.
    Over(Circuit),
    /// The basis can't express the gate of this node.
    Cannot(Circuit, u32),
    /// Over the basis it could have more than 100,000 gates, or 2^31 nodes.
    TooMany(Circuit),
}
