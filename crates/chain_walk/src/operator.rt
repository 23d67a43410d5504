//! Operators of two bits as codes of four bits, which a search may make and change freely. A code spells the values at
//! (0,0), (0,1), (1,0) and (1,1), as `op_basis::Op` does.

/// An operator of two bits: the values at (0,0), (0,1), (1,0) and (1,1) are its bits 3, 2, 1 and 0.
#[derive(Clone, Copy, PartialEq, Eq)]
pub struct Operator(u32);

/// AND.
pub const AND: Operator = Operator(1);

/// XOR.
pub const XOR: Operator = Operator(6);

/// The coefficients of an operator's algebraic normal form, each in all bits of a word.
#[derive(Clone, Copy)]
pub struct Masks {
    none: u64,
    first: u64,
    second: u64,
    both: u64,
}

/// A word of 64 equal bits: the lowest bit of `code`.
fn spread(code: u32) -> u64 {
    if code & 1 == 1 { u64::MAX } else { 0 }
}

impl Masks {
    /// The operator's values at 64 pairs of bits.
    pub fn at(self, first: u64, second: u64) -> u64 {
        self.none ^ (self.first & first) ^ (self.second & second) ^ (self.both & first & second)
    }
}

impl Operator {
    /// The operator of a code; what is above its four bits is ignored.
    pub fn new(code: u32) -> Operator {
        Operator(code & 15)
    }

    /// The code.
    pub fn code(self) -> u32 {
        self.0 & 15
    }

    /// The value at (0,0).
    pub fn at_00(self) -> u32 {
        (self.0 >> 3) & 1
    }

    /// The value at (0,1).
    pub fn at_01(self) -> u32 {
        (self.0 >> 2) & 1
    }

    /// The value at (1,0).
    pub fn at_10(self) -> u32 {
        (self.0 >> 1) & 1
    }

    /// The value at (1,1).
    pub fn at_11(self) -> u32 {
        self.0 & 1
    }

    /// The operator whose operands are exchanged.
    pub fn swapped(self) -> Operator {
        Operator((self.0 & 9) | (self.0 & 2).wrapping_shl(1) | ((self.0 & 4) >> 1))
    }

    /// The complement.
    pub fn complemented(self) -> Operator {
        Operator((self.0 ^ 15) & 15)
    }

    /// The operator that reads the complement of its first operand.
    pub fn first_complemented(self) -> Operator {
        Operator((self.0 & 3).wrapping_shl(2) | ((self.0 & 12) >> 2))
    }

    /// The operator that reads the complement of its second operand.
    pub fn second_complemented(self) -> Operator {
        Operator((self.0 & 5).wrapping_shl(1) | ((self.0 & 10) >> 1))
    }

    /// Whether the value doesn't depend on both operands.
    pub fn is_degenerate(self) -> bool {
        matches!(self.code(), 0 | 3 | 5 | 10 | 12 | 15)
    }

    /// Whether the operator is XOR or its complement.
    pub fn is_parity(self) -> bool {
        self.code() == 6 || self.code() == 9
    }

    /// Whether the operator on equal operands is their complement.
    pub fn is_negation(self) -> bool {
        self.at_00() == 1 && self.at_11() == 0
    }

    /// The coefficients.
    pub fn masks(self) -> Masks {
        let first = self.at_00() ^ self.at_10();
        let second = self.at_00() ^ self.at_01();
        Masks {
            none: spread(self.at_00()),
            first: spread(first),
            second: spread(second),
            both: spread(first ^ self.at_01() ^ self.at_11()),
        }
    }
}
