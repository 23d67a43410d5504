//! Sets of operators, as the bits of a word.
ghost use Rattle.std.specs.Prelude.{◌≡◌, ◌<◌};
ghost use Rattle.op_basis.specs.Basis.{members};

use crate::Op;
use std::marker::Model;

/// A set of operators: operator `k` is a member where bit `k` is 1.
#[derive(Clone, Copy, PartialEq, Eq)]
pub struct Basis(u16);

impl Model for Basis {
    ghost use Rattle.std.specs.Prelude.{ℕ, ◌<◌};

    ghost Value = { ℕ };

    ghost view = { λ basis. basis.0 };

    ghost inverse = { λ set. record { 0 = set } };
}

impl Basis {
    /// The set of the operators k whose bits 2^k are 1 in `bits`. NAND alone is 16384, which is 2^14.
    pub fn new(bits: u16) -> Basis
        ensures { result ≡ bits }
    {
        Basis(bits)
    }

    /// The bits of the set.
    pub fn get(self) -> u16
        ensures bits { result ≡ self }
        ensures below { result < 65536 }
    {
        self.0
    }

    /// Whether the operator is a member.
    pub fn contains(self, op: Op) -> bool
        ensures { result ≡ members self op }
    {
        (self.0 >> op.get()) & 1 == 1
    }
}
