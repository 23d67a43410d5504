//! The listed fences with fewer levels than a chain, in their order.
ghost use Rattle.std.specs.Prelude.{◌≡◌, ◌++◌, ◌≤◌, map, IfOk, OnOk};
ghost use Rattle.enc_theory.specs.declared.subproblem.Subproblem.TheVariants.{Levels};
ghost use Rattle.depth_theory.specs.Flatter.{of_levels, flatter};
ghost use Rattle.chain_theory.specs.Limits.{most_steps};

use enc_theory::Subproblem;
use fence_core::{Fence, fences};
use std::alloc::{AllocError, Global};
use tt_core::{Spec, live_spec};

/// A copy of a fence.
fn copied(alloc: Global, fence: &Fence) -> Result<Fence, AllocError>
    ensures { IfOk result (λ copy. copy ≡ fence.now) }
{
    let levels = Vec::from_slice(alloc, fence.levels())?;
    Ok(Fence::new(levels))
}

/// Appends those of the fences that have `levels` levels, in their order.
#[tactic(auto, using(crate::proofs::FenceLists::fencing), unfolding(depth_theory::specs::Flatter::of_levels))]
fn push_level(
    alloc: Global,
    subproblems: &mut Vec<Subproblem>,
    fences: &[Fence],
    levels: usize,
) -> Result<(), AllocError>
    ensures { OnOk result (subproblems.new.items ≡ subproblems.old.items ++
        map Levels (of_levels fences.now levels)) }
{
    let mut left = fences;
    while let Some((fence, rest)) = left.split_first() {
        left = rest;
        if fence.levels().len() == levels {
            subproblems.push(Subproblem::Levels(copied(alloc, fence)?))?;
        }
    }
    Ok(())
}

/// The listed fences of `size` steps that have fewer than `levels` levels.
#[tactic(auto, using(crate::proofs::FenceLists::flattening))]
pub(crate) fn flatter_subproblems(
    alloc: Global,
    spec: &Spec,
    size: u32,
    levels: u32,
) -> Result<Vec<Subproblem>, AllocError>
    requires { size ≤ most_steps }
    ensures { IfOk result (λ subproblems. subproblems.items ≡ map Levels (flatter spec.now size levels)) }
{
    let live = live_spec(alloc, spec)?;
    let listed = fences(alloc, size, live.outputs())?;
    let mut subproblems = Vec::new(alloc);
    for below in 0..levels {
        push_level(alloc, &mut subproblems, &listed, below as usize)?;
    }
    Ok(subproblems)
}
