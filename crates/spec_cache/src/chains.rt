//! Chains with permuted inputs.
ghost use Rattle.std.specs.Prelude.{◌≡◌, map, IfOk};
ghost use Rattle.chain_core.specs.Steps.{steps_of};
ghost use Rattle.spec_cache.specs.Order.{IsOrder};
ghost use Rattle.spec_cache.specs.ListLaws.{permuted_step as permuted_step_of};
ghost use Rattle.spec_cache.specs.OrderLaws.{permuted_place as permuted_place_of};
ghost use Rattle.spec_cache.specs.OrderLaws.{permuted_steps as permuted_steps_of};
ghost use Rattle.spec_cache.specs.OrderLaws.{permuted_out as permuted_out_of, permuted_chain as permuted_chain_of};

use chain_core::{Chain, Step};
use chain_theory::Out;
use std::alloc::{AllocError, Global};

/// The place after the permutation: an input gets its new number, a step keeps its place.
#[tactic(auto, using(crate::specs::ListLaws::placing))]
fn permuted_place(n: u32, order: &[u32], place: u32) -> u32
    ensures { result ≡ permuted_place_of n order.now place }
{
    if place > n {
        return place;
    }
    let index = place.saturating_sub(1) as usize;
    if index < order.len() {
        return order[index];
    }
    0
}

fn permuted_step(n: u32, order: &[u32], step: Step) -> Step
    ensures { result ≡ permuted_step_of n order.now step }
{
    Step {
        j: permuted_place(n, order, step.j),
        k: permuted_place(n, order, step.k),
        op: step.op,
    }
}

fn permuted_list(
    alloc: Global,
    n: u32,
    order: &[u32],
    steps: &[Step],
) -> Result<Vec<Step>, AllocError>
    ensures { IfOk result (λ permuted. permuted.items ≡ map (permuted_step_of n order.now) steps.now) }
{
    let mut permuted = Vec::with_capacity(alloc, steps.len())?;
    let mut left = steps;
    while let Some((step, rest)) = left.split_first() {
        permuted.push(permuted_step(n, order, *step))?;
        left = rest;
    }
    Ok(permuted)
}

#[tactic(auto, using(crate::specs::ListLaws::placing))]
fn permuted_steps(
    alloc: Global,
    n: u32,
    order: &[u32],
    steps: &[Step],
) -> Result<Vec<Step>, AllocError>
    ensures { IfOk result (λ permuted. steps_of permuted.items ≡ permuted_steps_of n order.now (steps_of steps.now)) }
{
    let permuted = permuted_list(alloc, n, order, steps)?;
    Ok(permuted)
}

fn permuted_out(n: u32, order: &[u32], out: Out) -> Out
    ensures { result ≡ permuted_out_of n order.now out }
{
    match out {
        Out::Zero => Out::Zero,
        Out::One => Out::One,
        Out::Place(place) => Out::Place(permuted_place(n, order, place)),
    }
}

fn permuted_outs(alloc: Global, n: u32, order: &[u32], outs: &[Out]) -> Result<Vec<Out>, AllocError>
    ensures { IfOk result (λ permuted. permuted.items ≡ map (permuted_out_of n order.now) outs.now) }
{
    let mut permuted = Vec::with_capacity(alloc, outs.len())?;
    let mut left = outs;
    while let Some((out, rest)) = left.split_first() {
        permuted.push(permuted_out(n, order, *out))?;
        left = rest;
    }
    Ok(permuted)
}

/// The chain with its inputs renumbered by an order.
#[tactic(auto, using(crate::specs::ListLaws::placing))]
pub fn permuted_chain(alloc: Global, chain: &Chain, order: &[u32]) -> Result<Chain, AllocError>
    requires { IsOrder chain.now.n order.now }
    ensures { IfOk result (λ permuted. permuted ≡ permuted_chain_of order.now chain.now) }
{
    let n = chain.n();
    let steps = permuted_steps(alloc, n, order, chain.steps())?;
    let outs = permuted_outs(alloc, n, order, chain.outs())?;
    Ok(Chain::new(n, steps, outs))
}
