//! The pairs that a step of a fence may have.
ghost use Rattle.std.specs.Prelude.{◌≡◌, ◌+◌, ◌-◌, ◌≤◌, ◌<◌, IfOk};
ghost use Rattle.std.specs.List.{range_with_len, flat_map};
ghost use Rattle.enc_theory.specs.Pairs.{pairs_with};
ghost use Rattle.enc_theory.specs.Fence.{places_under as places_under_of};
ghost use Rattle.enc_fence.specs.StepPairs.{step_pairs};

use enc_base::{Pairs, push_pairs_with};
use enc_theory::Pair;
use std::alloc::{AllocError, Global};

/// A range of places.
#[derive(Clone, Copy)]
struct Places {
    first: u32,
    count: u32,
}

/// The places on the level below that of the step with index `k`, above `n` inputs; none after the last level.
#[tactic(auto, using(crate::proofs::Walks::walk))]
fn places_under(n: u32, levels: &[u32], k: u32) -> Places
    requires { n + k < 22 }
    ensures places { range_with_len result.first result.count ≡ places_under_of 1 n levels.now k }
    ensures from { 1 ≤ result.first }
    ensures to { result.first + result.count ≤ n + 1 + k }
{
    let mut first = 1;
    let mut count = n;
    let mut index = k;
    let mut left = levels;
    while let Some((size, above)) = left.split_first() {
        if index < *size {
            return Places { first, count };
        }
        first += count;
        count = *size;
        index -= *size;
        left = above;
    }
    Places { first, count: 0 }
}

/// The pairs whose larger operand is one of these places.
#[tactic(auto, using(crate::proofs::Walks::turns))]
fn pairs_over(alloc: Global, ordered: bool, places: Places) -> Result<Vec<Pair>, AllocError>
    requires from { 1 ≤ places.first }
    requires few { places.first + places.count ≤ 22 }
    ensures { IfOk result (λ pairs. pairs.items ≡
        flat_map (pairs_with ordered) (range_with_len places.first places.count)) }
{
    let mut pairs = Vec::new(alloc);
    for large in places.first..places.first + places.count {
        push_pairs_with(&mut pairs, ordered, large)?;
    }
    Ok(pairs)
}

/// The pairs that the step at a place may have: the larger operand is on the level below the step's.
#[tactic(auto, using(crate::proofs::Walks::pairs))]
fn pairs_at(
    alloc: Global,
    n: u32,
    ordered: bool,
    levels: &[u32],
    place: u32,
) -> Result<Vec<Pair>, AllocError>
    requires { place ≤ 22 }
    ensures { IfOk result (λ pairs. pairs.items ≡ step_pairs ordered n levels.now place) }
{
    if place <= n {
        return Ok(Vec::new(alloc));
    }
    let places = places_under(n, levels, place - (n + 1));
    pairs_over(alloc, ordered, places)
}

/// The pairs of steps ordered by level, with `levels` steps on each, above `n` inputs; if ordered, only those
/// with j <= k.
#[derive(Drop)]
pub struct FencePairs<'a> {
    pub n: u32,
    pub ordered: bool,
    pub levels: &'a [u32],
}

impl<'a> Pairs for FencePairs<'a> {
    ghost use Rattle.enc_fence.specs.StepPairs.{step_pairs, step_pairs-below, step_pairs-few};

    ghost pairs_of = { λ pairs place. step_pairs pairs.ordered pairs.n pairs.levels.now place };

    ghost below = { λ pairs place. step_pairs-below pairs.ordered pairs.n pairs.levels.now place };

    ghost few = { λ pairs place low. step_pairs-few pairs.ordered pairs.n pairs.levels.now place low };

    fn pairs(&self, alloc: Global, place: u32) -> Result<Vec<Pair>, AllocError> {
        pairs_at(alloc, self.n, self.ordered, self.levels, place)
    }
}
