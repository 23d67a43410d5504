//! A direct evaluation of the definitions, by recursion over cubes and gates. It takes exponential time
//! and is meant for reading and for tests with small inputs.
ghost use Rattle.std.specs.Prelude.{◌≡◌, ◌+◌, ◌-◌, ◌<◌, ◌^◌, length, false};
ghost use Rattle.net_theory.specs.Cover.{is_asked as is_asked_of, matches as matches_of};
ghost use Rattle.net_theory.specs.Net.{bit_of, values_of, sig_value as sig_value_of};

use crate::data::{Gate, Sig};

/// Whether a byte of a cube (`0`, `1` or `-`) matches `bit`.
pub fn is_asked(byte: u8, bit: bool) -> bool
    ensures { result ≡ is_asked_of byte bit }
{
    match byte {
        b'1' => bit,
        b'0' => !bit,
        _ => true,
    }
}

/// Whether a cube covers the minterm `bits`.
#[tactic(auto, unfolding(crate::specs::Cover::matches))]
pub fn matches_bits(cube: &[u8], bits: &[bool]) -> bool
    ensures { result ≡ matches_of cube.now bits.now }
{
    let Some((byte, cube)) = cube.split_first() else {
        return true;
    };
    let Some((bit, bits)) = bits.split_first() else {
        return true;
    };
    is_asked(*byte, *bit) && matches_bits(cube, bits)
}

/// The bit of the source `node`; `given` begins with source 1. Other nodes have the bit false.
pub fn given_bit(given: &[bool], node: u32) -> bool
    ensures { result ≡ bit_of given.now node }
{
    if node == 0 {
        return false;
    }
    let at = node as usize - 1;
    if at < given.len() { given[at] } else { false }
}

/// The value of the node `node` where the sources have the bits `given`, source 1 first.
#[cycle(values)]
pub fn node_value(given: &[bool], gates: &[Gate], node: u32) -> bool
    requires { length given.now + length gates.now < 2 ^ 31 }
    ensures { result ≡ values_of (bit_of given.now) (length given.now) gates.now node }
{
    let Some((last, before)) = gates.split_last() else {
        return given_bit(given, node);
    };
    if node as usize == given.len() + 1 + before.len() {
        let a = sig_value(given, before, last.a);
        let b = sig_value(given, before, last.b);
        last.op.apply(a, b)
    } else {
        node_value(given, before, node)
    }
}

/// The value of a signal, where the sources have the bits `given`, source 1 first.
#[cycle(values)]
pub fn sig_value(given: &[bool], gates: &[Gate], sig: Sig) -> bool
    requires { length given.now + length gates.now < 2 ^ 31 }
    ensures { result ≡ sig_value_of (values_of (bit_of given.now) (length given.now) gates.now) sig }
{
    match sig {
        Sig::Zero => false,
        Sig::One => true,
        Sig::Node(node) => node_value(given, gates, node),
    }
}
