//! What may replace a gate.

use crate::operator::Operator;
use crate::small_net::Gate;

/// What replaces a gate, over signals that don't depend on it.
#[derive(Clone, Copy)]
pub enum Change {
    /// A literal.
    Literal(u32),
    /// A gate.
    One(Gate),
    /// An operator of a signal and a new gate: the new gate, the operator, the signal.
    Two(Gate, Operator, u32),
}
