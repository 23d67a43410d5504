//! A step of a chain.
use op_basis::Op;

/// A step (gate): an operator on the values of the places `j` and `k`, which may be equal. Places are
/// numbered from 1, first the inputs, then the steps in order.
#[derive(Clone, Copy, PartialEq, Eq)]
pub struct Step {
    pub j: u32,
    pub k: u32,
    pub op: Op,
}
