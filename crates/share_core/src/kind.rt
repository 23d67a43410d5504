//! Kinds of trees.

use xag_core::XagGate;

/// Which trees are shared: of XOR gates where `is_xor`, else of AND gates; and whether a tree goes through
/// gates that several gates read.
#[derive(Clone, Copy)]
pub struct TreeKind {
    pub is_xor: bool,
    pub through_all: bool,
}

impl TreeKind {
    /// Whether a tree of this kind can go through an operand: its gate has the kind, and the literal doesn't
    /// complement an AND.
    pub fn goes_on(self, gate: XagGate, literal: u32) -> bool {
        gate.is_xor == self.is_xor && (self.is_xor || literal & 1 == 0)
    }
}
