//! The word of an operator: four characters `0` and `1`, its values at (0,0), (0,1), (1,0) and (1,1).
//! The texts of bases and of chains use it.
ghost use Rattle.std.specs.Prelude.{◌≡◌, ◌<◌, ◌++◌, OnOk, OnErr, IfSome};
ghost use Rattle.op_basis.specs.Word as spec;

use crate::Op;
use std::alloc::AllocError;

/// The bit of a character; None where it isn't `0` or `1`.
fn bit_in(character: u8) -> Option<bool>
    ensures { result ≡ spec.bit_in character }
{
    match character {
        b'0' => Some(false),
        b'1' => Some(true),
        _ => None,
    }
}

/// The operator of a word; None where the text isn't four characters `0` and `1`.
#[tactic(auto, unfolding(crate::specs::Word::operator_in))]
pub fn read_operator(word: &[u8]) -> Option<Op>
    ensures operator { result ≡ spec.operator_in word.now }
    ensures below { IfSome result (λ op. op < 16) }
{
    let [a, b, c, d] = word else {
        return None;
    };
    Some(Op::with_values(bit_in(*a)?, bit_in(*b)?, bit_in(*c)?, bit_in(*d)?))
}

/// The character of a bit.
fn character(bit: bool) -> u8
    ensures { result ≡ spec.character bit }
{
    if bit { b'1' } else { b'0' }
}

/// Appends the word of an operator. An error means that memory ran out; then nothing is appended.
#[tactic(auto, unfolding(crate::specs::Word::word_text))]
pub fn write_operator(op: Op, out: &mut Vec<u8>) -> Result<(), AllocError>
    ensures word { OnOk result (out.new.items ≡ out.old.items ++ spec.word_text op) }
    ensures unchanged { OnErr result (out.new.items ≡ out.old.items) }
{
    out.extend_from_slice(&[
        character(op.apply(false, false)),
        character(op.apply(false, true)),
        character(op.apply(true, false)),
        character(op.apply(true, true)),
    ])
}
