//! The fences into which the search of one size is split.
ghost use Rattle.std.specs.Prelude.{◌≡◌, ◌≤◌, ◌-◌, ◌+◌, ◌++◌, ◌∷◌, [], leb, IfOk, OnOk};
ghost use Rattle.fence_core.specs.Fence.{IsFence, AreListed, listed_fences};
ghost use Rattle.fence_core.specs.ByFirst.{stacked_on};
ghost use Rattle.chain_theory.specs.Limits.{most_steps};

use crate::Fence;
use std::alloc::{AllocError, Global};

/// Appends the fence with these numbers of steps.
fn push_fence(alloc: Global, fences: &mut Vec<Fence>, levels: &[u32]) -> Result<(), AllocError>
    requires { IsFence levels.now }
    ensures { OnOk result (fences.new.items ≡ fences.old.items ++ levels.now ∷ []) }
{
    let copy = Vec::from_slice(alloc, levels)?;
    fences.push(Fence::new(copy))?;
    Ok(())
}

/// Whether `first` of `left` steps may be on the lowest level: there are at most as many as other
/// steps and outputs together.
fn may_begin(left: u32, outputs: u32, first: u32) -> bool
    requires { (first ≤ left) × (left ≤ most_steps) }
    ensures { result ≡ leb first (left - first + outputs) }
{
    first.saturating_sub(left - first) <= outputs
}

/// Appends the listed fences of `left` steps, each on top of the levels `below`.
#[tactic(auto, using(crate::proofs::Iterations::iterations))]
fn push_fences(
    alloc: Global,
    fences: &mut Vec<Fence>,
    below: &mut Vec<u32>,
    left: u32,
    outputs: u32,
) -> Result<(), AllocError>
    requires size { left ≤ most_steps }
    requires filled { IsFence below.old.items }
    ensures fences { OnOk result (fences.new.items ≡ fences.old.items ++
        stacked_on below.old.items (listed_fences left outputs)) }
    ensures below { OnOk result (below.new.items ≡ below.old.items) }
{
    if left == 0 {
        return push_fence(alloc, fences, below);
    }
    for first in 1..left + 1 {
        if !may_begin(left, outputs, first) {
            continue;
        }
        below.push(first)?;
        push_fences(alloc, fences, below, left - first, outputs)?;
        below.pop();
    }
    Ok(())
}

/// The fences of `r` steps that a least chain with `outputs` live outputs may have: each level has at
/// most as many steps as all levels above it together have, plus `outputs`. Some least chain has one
/// of them. They are in lexicographic order; for 0 steps there is the one fence without levels. An
/// error means that memory ran out.
pub fn fences(alloc: Global, r: u32, outputs: u32) -> Result<Vec<Fence>, AllocError>
    requires { r ≤ most_steps }
    ensures exact { IfOk result (λ fences. fences.items ≡ listed_fences r outputs) }
    ensures listed { IfOk result (λ fences. AreListed r outputs fences.items) }
{
    let mut fences = Vec::new(alloc);
    push_fences(alloc, &mut fences, &mut Vec::new(alloc), r, outputs)?;
    Ok(fences)
}
