//! The values of covers, evaluated cube by cube, and truth tables of one and two inputs.

ghost use Rattle.std.specs.Prelude.{◌≡◌, ◌<◌, false, true};
ghost use Rattle.net_theory.specs.Cover.{is_asked as is_asked_of, matches as matches_of, is_matched as is_matched_of};
ghost use Rattle.net_theory.specs.Cover.{cover_value as cover_value_of};
ghost use Rattle.net_theory.specs.Expansion.{digit_of, unary_word as unary_word_of, binary_word as binary_word_of};

use crate::cover::{Cover, Cube};

/// Whether a byte of a cube matches `bit`.
fn is_asked(byte: u8, bit: bool) -> bool
    ensures { result ≡ is_asked_of byte bit }
{
    match byte {
        b'1' => bit,
        b'0' => !bit,
        _ => true,
    }
}

/// Whether a cube covers the minterm `bits`.
#[tactic(auto, unfolding(net_theory::specs::Cover::matches))]
fn matches_bits(cube: &[u8], bits: &[bool]) -> bool
    ensures { result ≡ matches_of cube.now bits.now }
{
    let mut bytes = cube;
    let mut left = bits;
    while let Some((byte, rest)) = bytes.split_first() {
        let Some((bit, others)) = left.split_first() else {
            return true;
        };
        if !is_asked(*byte, *bit) {
            return false;
        }
        bytes = rest;
        left = others;
    }
    true
}

/// Whether some cube covers the minterm `bits`.
fn is_matched(cubes: &[Cube], bits: &[bool]) -> bool
    ensures { result ≡ is_matched_of cubes.now bits.now }
{
    cubes.iter().any(|cube| matches_bits(cube.get(), bits))
}

/// The value of a cover at the minterm `bits`.
#[tactic(auto, unfolding(net_theory::specs::Cover::cover_value))]
pub fn cover_value(cover: &Cover, bits: &[bool]) -> bool
    ensures { result ≡ cover_value_of cover.now bits.now }
{
    if cover.cubes.is_empty() {
        return false;
    }
    if cover.on {
        is_matched(&cover.cubes, bits)
    } else {
        !is_matched(&cover.cubes, bits)
    }
}

/// A bit as a number, 0 or 1.
pub fn digit(bit: bool) -> u8
    ensures digit { result ≡ digit_of bit }
    ensures below { result < 2 }
{
    u8::from(bit)
}

/// The truth table of a cover of one input: the values at 0 and 1, the first as the most significant bit.
pub fn unary_word(cover: &Cover) -> u8
    ensures word { result ≡ unary_word_of cover.now }
    ensures below { result < 4 }
{
    let zero = digit(cover_value(cover, &[false]));
    let one = digit(cover_value(cover, &[true]));
    2 * zero + one
}

/// The truth table of a cover of two inputs: the values at (0,0), (0,1), (1,0) and (1,1), the first as the most
/// significant bit.
pub fn binary_word(cover: &Cover) -> u8
    ensures word { result ≡ binary_word_of cover.now }
    ensures below { result < 16 }
{
    let first = digit(cover_value(cover, &[false, false]));
    let second = digit(cover_value(cover, &[false, true]));
    let third = digit(cover_value(cover, &[true, false]));
    let fourth = digit(cover_value(cover, &[true, true]));
    8 * first + 4 * second + 2 * third + fourth
}
