//! The normal order of inputs. It sorts them by signatures, counts of rows that don't depend on the numbering of
//! the inputs. It affects only how often two specifications become one.
ghost use Rattle.std.specs.Prelude.{◌≡◌, ◌<◌, ◌≤◌, length, IfOk};
ghost use Rattle.spec_cache.specs.Order.{IsInput, IsOrder, IsPermuting, IsInverse};
ghost use Rattle.spec_cache.specs.Ranks.{comes_before as comes_before_of, rank as rank_of};
ghost use Rattle.spec_cache.specs.Permuting.{IsPlaceOf};
ghost use Rattle.chain_theory.specs.Limits.{most_inputs};

use op_basis::input_word;
use std::alloc::{AllocError, Global};
use tt_core::{MOST_INPUTS, Spec};

/// The radix of the third count: a prime above the 64 rows of a word.
const RADIX: u64 = 67;

/// The radix of the first count, above every value of the other two together.
const HIGH_RADIX: u64 = 4099;

/// The radix of outputs: the first output counts most. A greater sum wraps around, which affects only the quality
/// of the order.
const OUTPUT_RADIX: u64 = 1_000_003;

/// 2^k, the distance of two rows that differ in one input alone. By cases for the prover, so that it is below 64.
fn step_of(k: u32) -> u32
    ensures { result < 64 }
{
    match k {
        0 => 1,
        1 => 2,
        2 => 4,
        3 => 8,
        4 => 16,
        _ => 32,
    }
}

/// The signature of the input with weight 2^k in the row number, for one output with the values `on` and the
/// specified rows `care`. It combines three counts: the specified rows where the input is 1, those of them with
/// the value 1, and the specified pairs of rows where flipping the input flips the value.
fn counts(on: u64, care: u64, k: u32) -> u64
    requires { k < most_inputs }
{
    let high = input_word(k);
    let step = step_of(k);
    let specified = u64::from((care & high).count_ones());
    let ones = u64::from((on & high).count_ones());
    let turns = u64::from((care & (care >> step) & (on ^ (on >> step)) & !high).count_ones());
    specified
        .wrapping_mul(HIGH_RADIX)
        .wrapping_add(ones.wrapping_mul(RADIX))
        .wrapping_add(turns)
}

/// The signature of the input with weight 2^k over all outputs.
fn weight(spec: &Spec, k: u32) -> u64
    requires { k < most_inputs }
{
    let mut weight = 0u64;
    for output in 0..spec.on().len().min(spec.care().len()) {
        weight = weight
            .wrapping_mul(OUTPUT_RADIX)
            .wrapping_add(counts(spec.on()[output], spec.care()[output], k));
    }
    weight
}

/// The signatures of the inputs, that of input 1 first.
fn weights(alloc: Global, spec: &Spec) -> Result<Vec<u64>, AllocError>
    ensures { IfOk result (λ weights. length weights.items ≡ spec.now.n) }
{
    let n = spec.n();
    let mut weights = Vec::with_capacity(alloc, MOST_INPUTS as usize)?;
    for before in 0..n {
        weights.push(weight(spec, n - 1 - before))?;
    }
    Ok(weights)
}

/// Whether the signature at `other` sorts before that at `index`: it is smaller, or equal with a smaller index.
#[tactic(auto, unfolding(crate::specs::Ranks::comes_before))]
fn comes_before(weights: &[u64], index: u32, other: u32) -> bool
    requires index { index < length weights.now }
    requires other { other < length weights.now }
    ensures { result ≡ comes_before_of weights.now index other }
{
    let own = weights[index as usize];
    let weight = weights[other as usize];
    weight < own || (weight == own && other < index)
}

/// How many signatures sort before that at `index`.
#[tactic(auto, using(crate::specs::Ranks::ranking))]
fn rank(weights: &[u64], index: u32) -> u32
    requires few { length weights.now ≤ most_inputs }
    requires index { index < length weights.now }
    ensures rank { result ≡ rank_of weights.now index }
    ensures low { result < length weights.now }
{
    let mut rank = 0u32;
    for other in 0..weights.len() as u32 {
        rank += u32::from(comes_before(weights, index, other));
    }
    rank
}

/// The rank of each signature, counted from 1.
#[tactic(auto, using(crate::specs::Permuting::permuting))]
fn ranked(alloc: Global, weights: &[u64]) -> Result<Vec<u32>, AllocError>
    requires { length weights.now ≤ most_inputs }
    ensures { IfOk result (λ order. IsPermuting (length weights.now) order.items) }
{
    let mut order = Vec::with_capacity(alloc, MOST_INPUTS as usize)?;
    for before in 0..weights.len() as u32 {
        order.push(rank(weights, before) + 1)?;
    }
    Ok(order)
}

/// The normal order: the new number of each input.
pub fn normal_order(alloc: Global, spec: &Spec) -> Result<Vec<u32>, AllocError>
    ensures { IfOk result (λ order. IsPermuting spec.now.n order.items) }
{
    // for the prover: brings in the specification's invariant
    let _inputs = spec.n();
    let weights = weights(alloc, spec)?;
    Ok(ranked(alloc, &weights)?)
}

/// The position of a number in an order, counted from 1; the number itself if it isn't in it.
#[tactic(auto, using(crate::specs::Permuting::permuting))]
fn place_of(order: &[u32], number: u32) -> u32
    requires few { length order.now ≤ most_inputs }
    requires number { IsInput (length order.now) number }
    ensures input { IsInput (length order.now) result }
    ensures place { IsPlaceOf order.now number result }
{
    for before in 0..order.len() as u32 {
        if order[before as usize] == number {
            return before + 1;
        }
    }
    number
}

/// The inverse of an order.
#[tactic(auto, using(crate::specs::Permuting::permuting))]
pub fn inverse(alloc: Global, order: &[u32]) -> Result<Vec<u32>, AllocError>
    requires { length order.now ≤ most_inputs }
    ensures order { IfOk result (λ back. IsOrder (length order.now) back.items) }
    ensures back { IfOk result (λ back. IsPermuting (length order.now) order.now →
        IsInverse (length order.now) order.now back.items) }
{
    let n = order.len() as u32;
    let mut back = Vec::with_capacity(alloc, MOST_INPUTS as usize)?;
    for before in 0..n {
        back.push(place_of(order, before + 1))?;
    }
    Ok(back)
}
