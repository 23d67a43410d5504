//! Tables that are AND, OR or XOR of all their inputs, or the complement. Their cubes are never built (OR has
//! one for each input, and XOR has no short cover): value, cost and gates follow from the connective.

ghost use Rattle.std.specs.Prelude.{◌≡◌, ◌+◌, ◌≤◌, ◌<◌, ◌^◌, length, vec_len, false, true, IfOk, OnErr};
ghost use Rattle.std.specs.List.{list_all, list_any};
ghost use Rattle.net_theory.specs.Whole.{itself};
ghost use Rattle.net_theory.specs.Cover.{is_odd as is_odd_of, cover_value as cover_value_of};
ghost use Rattle.net_theory.specs.Cost.{cover_cost as cover_cost_of};
ghost use Rattle.net_theory.specs.Expansion.{unary_word as unary_word_of, binary_word as binary_word_of};
ghost use Rattle.net_theory.specs.Expansion.{unsigned as unsigned_of, expanded};
ghost use Rattle.net_core.specs.Growing.{built, IsPrefixOfGates};
ghost use Rattle.net_core.specs.Wholes.{whole_cover, cover_of, IsBody, joined_bits};
ghost use Rattle.net_theory.specs.Limits.{most_table_inputs, most_cubes};

use crate::costs::{binary_cost, cover_cost, unary_cost};
use crate::cover::Cover;
use crate::expansion::{expand_binary, expand_gates, expand_unary, finish};
use crate::joining::{Connective, join_all};
use crate::truth::{cover_value, digit};
use net_theory::{Gate, Sig, Signed};
use std::alloc::{AllocError, Global};

/// AND, OR or XOR of `width` inputs, complemented where `on` is false.
#[derive(Clone, Copy)]
pub struct Whole {
    pub connective: Connective,
    pub width: u32,
    pub on: bool,
}

/// The function of a table.
#[derive(Drop)]
pub enum Body {
    /// A cover by its cubes.
    Cubes(Cover),
    /// AND, OR or XOR of all inputs, or the complement.
    Joined(Whole),
}

/// Whether an odd number of bits is 1.
#[tactic(auto, using(crate::proofs::WholeTables::parities))]
fn is_odd(bits: &[bool]) -> bool
    ensures { result ≡ is_odd_of bits.now }
{
    let mut odd = false;
    let mut left = bits;
    while let Some((bit, rest)) = left.split_first() {
        left = rest;
        if *bit {
            odd = !odd;
        }
    }
    odd
}

/// Whether all bits are 1.
fn all_are(bits: &[bool]) -> bool
    ensures { result ≡ list_all itself bits.now }
{
    bits.iter().all(|bit| *bit)
}

/// Whether some bit is 1.
fn any_is(bits: &[bool]) -> bool
    ensures { result ≡ list_any itself bits.now }
{
    bits.iter().any(|bit| *bit)
}

/// AND, OR or XOR of bits.
fn joined(connective: Connective, bits: &[bool]) -> bool
    ensures { result ≡ joined_bits connective bits.now }
{
    match connective {
        Connective::And => all_are(bits),
        Connective::Or => any_is(bits),
        Connective::Xor => is_odd(bits),
    }
}

/// The value where the inputs have these bits.
#[tactic(auto, using(crate::proofs::WholeTables::wholes))]
fn whole_value(whole: Whole, bits: &[bool]) -> bool
    requires some { 0 < whole.width }
    requires width { whole.width ≡ length bits.now }
    ensures { result ≡ cover_value_of (whole_cover whole) bits.now }
{
    let bit = joined(whole.connective, bits);
    if whole.on { bit } else { !bit }
}

/// The truth table of one input: the values at 0 and 1.
fn unary_word(whole: Whole) -> u8
    requires { whole.width ≡ 1 }
    ensures word { result ≡ unary_word_of (whole_cover whole) }
    ensures below { result < 4 }
{
    let zero = digit(whole_value(whole, &[false]));
    let one = digit(whole_value(whole, &[true]));
    2 * zero + one
}

/// The truth table of two inputs: the values at (0,0), (0,1), (1,0) and (1,1).
fn binary_word(whole: Whole) -> u8
    requires { whole.width ≡ 2 }
    ensures word { result ≡ binary_word_of (whole_cover whole) }
    ensures below { result < 16 }
{
    let first = digit(whole_value(whole, &[false, false]));
    let second = digit(whole_value(whole, &[false, true]));
    let third = digit(whole_value(whole, &[true, false]));
    let fourth = digit(whole_value(whole, &[true, true]));
    8 * first + 4 * second + 2 * third + fourth
}

/// The number of gates into which the table is decomposed.
#[tactic(auto, using(crate::proofs::WholeTables::wholes))]
fn whole_cost<T>(whole: Whole, inputs: &[T]) -> u32
    requires some { 0 < whole.width }
    requires width { whole.width ≡ length inputs.now }
    ensures { result ≡ cover_cost_of (whole_cover whole) inputs.now }
{
    match inputs {
        [] => 0,
        [_] => unary_cost(unary_word(whole)),
        [_, _] => binary_cost(binary_word(whole)),
        _ => whole.width - 1,
    }
}

/// The inputs, none complemented.
#[tactic(auto, unfolding(net_theory::specs::Expansion::unsigned))]
fn unsigned(alloc: Global, inputs: &[Sig]) -> Result<Vec<Signed>, AllocError>
    ensures { IfOk result (λ all. all.items ≡ unsigned_of inputs.now) }
{
    let mut all = Vec::new(alloc);
    for sig in inputs {
        all.push(Signed {
            sig: *sig,
            turned: false,
        })?;
    }
    Ok(all)
}

/// Appends the gates for more than two inputs, joined from the left.
#[tactic(auto, using(crate::proofs::WholeTables::wholes))]
fn join_whole(
    alloc: Global,
    sources: u32,
    gates: &mut Vec<Gate>,
    whole: Whole,
    inputs: &[Sig],
) -> Result<Sig, AllocError>
    requires width { whole.width ≡ length inputs.now }
    requires many { 2 < length inputs.now }
    requires room { sources + vec_len gates.old + whole.width ≤ 2 ^ 31 }
    ensures gates { IfOk result (λ sig. built gates.new.items sig ≡
        expanded sources gates.old.items (whole_cover whole) inputs.now) }
    ensures prefix { OnErr result (IsPrefixOfGates gates.old.items gates.new.items) }
{
    let before = gates.len();
    let signals = unsigned(alloc, inputs)?;
    let out = join_all(whole.connective, sources, gates, &signals)?;
    finish(sources, gates, before, out, whole.on)
}

/// Appends the gates for any number of inputs.
#[tactic(auto, using(crate::proofs::WholeTables::wholes))]
fn whole_gates(
    alloc: Global,
    sources: u32,
    gates: &mut Vec<Gate>,
    whole: Whole,
    inputs: &[Sig],
) -> Result<Sig, AllocError>
    requires some { 0 < whole.width }
    requires width { whole.width ≡ length inputs.now }
    requires room { sources + vec_len gates.old + cover_cost_of (whole_cover whole) inputs.now < 2 ^ 31 }
    ensures gates { IfOk result (λ sig. built gates.new.items sig ≡
        expanded sources gates.old.items (whole_cover whole) inputs.now) }
    ensures prefix { OnErr result (IsPrefixOfGates gates.old.items gates.new.items) }
{
    match inputs {
        [] => unreachable!(),
        [a] => expand_unary(sources, gates, unary_word(whole), *a),
        [a, b] => expand_binary(sources, gates, binary_word(whole), *a, *b),
        _ => join_whole(alloc, sources, gates, whole, inputs),
    }
}

/// The value of a table where its inputs have the bits `bits`.
pub fn body_value(body: &Body, bits: &[bool]) -> bool
    requires body { IsBody body.now }
    requires width { (cover_of body.now).width ≡ length bits.now }
    ensures { result ≡ cover_value_of (cover_of body.now) bits.now }
{
    match body {
        Body::Cubes(cover) => cover_value(cover, bits),
        Body::Joined(whole) => whole_value(*whole, bits),
    }
}

/// The number of gates that `body_gates` appends for a table with `inputs`.
pub fn body_cost<T>(body: &Body, inputs: &[T]) -> u32
    requires body { IsBody body.now }
    requires width { (cover_of body.now).width ≡ length inputs.now }
    requires narrow { length inputs.now ≤ most_table_inputs }
    requires few { length (cover_of body.now).cubes ≤ most_cubes }
    ensures { result ≡ cover_cost_of (cover_of body.now) inputs.now }
{
    match body {
        Body::Cubes(cover) => cover_cost(cover, inputs),
        Body::Joined(whole) => whole_cost(*whole, inputs),
    }
}

/// Appends the gates of a table and returns the table's signal.
pub fn body_gates(
    alloc: Global,
    sources: u32,
    gates: &mut Vec<Gate>,
    body: &Body,
    inputs: &[Sig],
) -> Result<Sig, AllocError>
    requires body { IsBody body.now }
    requires width { (cover_of body.now).width ≡ length inputs.now }
    requires room { sources + vec_len gates.old + cover_cost_of (cover_of body.now) inputs.now < 2 ^ 31 }
    ensures gates { IfOk result (λ sig. built gates.new.items sig ≡
        expanded sources gates.old.items (cover_of body.now) inputs.now) }
    ensures prefix { OnErr result (IsPrefixOfGates gates.old.items gates.new.items) }
{
    match body {
        Body::Cubes(cover) => expand_gates(alloc, sources, gates, cover, inputs),
        Body::Joined(whole) => whole_gates(alloc, sources, gates, *whole, inputs),
    }
}
