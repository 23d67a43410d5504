//! Operators on words of 64 bits (bit-parallel). Each operator of two bits is an exclusive or of products of its
//! operands (its algebraic normal form), so one expression with four masks computes all sixteen.
ghost use Rattle.std.specs.Prelude.{◌≡◌, ◌<◌};
ghost use Rattle.op_basis.specs.WordOperator.{spread as spread_of, differ as differ_of, masks_of, combined};
ghost use Rattle.op_basis.specs.WordOperator.{on_words as on_words_of, input_word as input_word_of};

use crate::Op;

/// The coefficients of an operator's algebraic normal form, each in all 64 bits of a word: that of 1, of the first
/// operand, of the second, and of their product.
#[derive(Clone, Copy)]
pub struct Masks {
    pub none: u64,
    pub first: u64,
    pub second: u64,
    pub both: u64,
}

/// The word whose 64 bits are all `bit`.
pub fn spread(bit: bool) -> u64
    ensures { result ≡ spread_of bit }
{
    if bit { u64::MAX } else { 0 }
}

/// `a ^ b`, by cases as in the definition, for the prover.
fn differ(a: bool, b: bool) -> bool
    ensures { result ≡ differ_of a b }
{
    if a { !b } else { b }
}

/// The coefficients of an operator.
pub fn masks_for(op: Op) -> Masks
    ensures { result ≡ masks_of op }
{
    let none = op.apply(false, false);
    let second = op.apply(false, true);
    let first = op.apply(true, false);
    let both = op.apply(true, true);
    Masks {
        none: spread(none),
        first: spread(differ(none, first)),
        second: spread(differ(none, second)),
        both: spread(differ(differ(none, first), differ(second, both))),
    }
}

/// Applies the operator with the coefficients `masks` to each of 64 pairs of bits.
#[tactic(auto, unfolding(crate::specs::WordOperator::combined))]
pub fn combine(masks: Masks, a: u64, b: u64) -> u64
    ensures { result ≡ combined masks a b }
{
    masks.none ^ (masks.first & a) ^ (masks.second & b) ^ (masks.both & (a & b))
}

/// Applies an operator to each of 64 pairs of bits. For many words and one operator, `combine` with its masks
/// is faster.
pub fn on_words(op: Op, a: u64, b: u64) -> u64
    ensures { result ≡ on_words_of op a b }
{
    combine(masks_for(op), a, b)
}

/// The truth table of a variable: bit t of the word is the binary digit of weight 2^k of the row t, for each of
/// 64 rows.
#[tactic(auto, unfolding(crate::specs::WordOperator::input_word))]
pub fn input_word(k: u32) -> u64
    requires { k < 6 }
    ensures { result ≡ input_word_of k }
{
    match k {
        0 => 0xaaaa_aaaa_aaaa_aaaa,
        1 => 0xcccc_cccc_cccc_cccc,
        2 => 0xf0f0_f0f0_f0f0_f0f0,
        3 => 0xff00_ff00_ff00_ff00,
        4 => 0xffff_0000_ffff_0000,
        _ => 0xffff_ffff_0000_0000,
    }
}
