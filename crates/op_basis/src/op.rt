//! Operators of two bits, as numbers whose binary digits are their values.
ghost use Rattle.std.specs.Prelude.{◌≡◌, ◌<◌};
ghost use Rattle.op_basis.specs.Closed.{of_values};
ghost use Rattle.op_basis.specs.Operator.{apply as apply_of};

use std::marker::Model;

/// An operator of two bits (TAOCP 7.1.2), a number from 0 to 15. In binary the number spells the
/// operator's values at (0,0), (0,1), (1,0) and (1,1), in this order.
#[derive(Clone, Copy, PartialEq, Eq)]
pub struct Op(u8);

impl Model for Op {
    ghost use Rattle.std.specs.Prelude.{ℕ, ◌<◌};

    ghost Value = { ℕ };

    ghost view = { λ op. op.0 };

    ghost invariant = { λ op. op.0 < 16 };

    ghost inverse = { λ word. record { 0 = word } };
}

impl Op {
    /// The operator of a word of four bits, given as a number below 16: 6 for 0110, which is XOR.
    pub fn new(word: u8) -> Op
        requires { word < 16 }
        ensures { result ≡ word }
    {
        Op(word)
    }

    /// The operator whose values at (0,0), (0,1), (1,0) and (1,1) are the four arguments.
    pub fn with_values(at_00: bool, at_01: bool, at_10: bool, at_11: bool) -> Op
        ensures values { result ≡ of_values at_00 at_01 at_10 at_11 }
        ensures below { result < 16 }
    {
        Op(8 * u8::from(at_00) + 4 * u8::from(at_01) + 2 * u8::from(at_10) + u8::from(at_11))
    }

    /// The operator's word as a number.
    pub fn get(self) -> u8
        ensures word { result ≡ self }
        ensures below { result < 16 }
    {
        self.0
    }

    /// The operator's value where its first operand is `a` and its second `b`.
    pub fn apply(self, a: bool, b: bool) -> bool
        ensures { result ≡ apply_of self a b }
    {
        let place = match (a, b) {
            (false, false) => 3,
            (false, true) => 2,
            (true, false) => 1,
            (true, true) => 0,
        };
        (self.0 >> place) & 1 == 1
    }
}
