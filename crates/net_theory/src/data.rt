//! The data of nets: signals, gates, and how latches are triggered.

use op_basis::Op;

/// A signal: an operand (fanin) of a gate, or a sink (CO) of a net.
#[derive(Clone, Copy, PartialEq, Eq)]
pub enum Sig {
    /// The constant 0.
    Zero,
    /// The constant 1.
    One,
    /// The value of a node, by its index: the sources are 1, 2 and so on, and the gates follow. There is no node
    /// 0.
    Node(u32),
}

/// A two-input gate: an operator (a truth table of 4 bits) and two operands, which may be equal or constant.
#[derive(Clone, Copy, PartialEq, Eq)]
pub struct Gate {
    pub op: Op,
    pub a: Sig,
    pub b: Sig,
}

/// A signal with a polarity: complemented where `turned` is true.
#[derive(Clone, Copy)]
pub struct Signed {
    pub sig: Sig,
    pub turned: bool,
}

/// How the control triggers a latch, with the keywords of the Berkeley BLIF manual.
#[derive(Clone, Copy)]
pub enum Trigger {
    /// `fe`: at the falling edge.
    Fe,
    /// `re`: at the rising edge.
    Re,
    /// `ah`: while the control is 1.
    Ah,
    /// `al`: while the control is 0.
    Al,
    /// `as`: asynchronous.
    As,
}
