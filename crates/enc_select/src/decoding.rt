//! The steps that an assignment spells.
ghost use Rattle.std.specs.Prelude.{◌≡◌, ◌≤◌, map, IfOk};
ghost use Rattle.chain_core.specs.Steps.{step_of, steps_of, IsSmallChain};
ghost use Rattle.sat_theory.specs.Formula.{bits_of};
ghost use Rattle.enc_theory.specs.Numbering.{places};
ghost use Rattle.enc_theory.specs.Select.{below, first_choice as first_choice_of, chosen_step as chosen_step_of};
ghost use Rattle.enc_theory.specs.Select.{select_decoded};
ghost use Rattle.enc_base.specs.Room.{IsSmall, IsPlace};
ghost use Rattle.chain_theory.specs.Limits.{most_steps};

use crate::vars::choice_var;
use chain_core::{Chain, Step};
use cnf_core::Assign;
use enc_base::{bit, operator, sizes, with_outs};
use enc_theory::{Side, Dimensions};
use std::alloc::{AllocError, Global};
use tt_core::{Spec, live_spec};

/// The first place below step `i` whose selection variable is true.
#[tactic(auto, using(crate::proofs::Choices::choices))]
fn first_choice(bits: &[bool], z: Dimensions, side: Side, i: u32) -> u32
    requires small { IsSmall z }
    requires place { IsPlace z i }
    ensures { result ≡ first_choice_of z (bits_of bits.now) side i (below i) }
{
    for j in 1..i {
        if bit(bits, choice_var(z, side, i, j)) {
            return j;
        }
    }
    1
}

/// The step with its operands and its operator.
#[tactic(auto, unfolding(enc_theory::specs::Select::chosen_step))]
fn chosen_step(bits: &[bool], z: Dimensions, i: u32) -> Step
    requires small { IsSmall z }
    requires place { IsPlace z i }
    ensures { step_of result ≡ chosen_step_of z (bits_of bits.now) i }
{
    Step {
        j: first_choice(bits, z, Side::First, i),
        k: first_choice(bits, z, Side::Second, i),
        op: operator(bits, z, i),
    }
}

/// All steps.
#[tactic(auto, using(crate::proofs::Choices::steps))]
fn chosen_steps(alloc: Global, bits: &[bool], z: Dimensions) -> Result<Vec<Step>, AllocError>
    requires small { IsSmall z }
    ensures { IfOk result (λ steps. steps_of steps.items ≡ map (chosen_step_of z (bits_of bits.now)) (places z)) }
{
    let mut steps = Vec::new(alloc);
    for i in z.n + 1..z.n + 1 + z.r {
        steps.push(chosen_step(bits, z, i))?;
    }
    Ok(steps)
}

/// The chain that an assignment spells.
#[tactic(auto, unfolding(enc_theory::specs::Select::select_decoded))]
pub(crate) fn decode_chosen(
    alloc: Global,
    spec: &Spec,
    r: u32,
    assign: &Assign,
) -> Result<Chain, AllocError>
    requires size { r ≤ most_steps }
    requires chain { IsSmallChain (select_decoded spec.now r (bits_of assign.now)) }
    ensures { IfOk result (λ chain. chain ≡ select_decoded spec.now r (bits_of assign.now)) }
{
    let live = live_spec(alloc, spec)?;
    let z = sizes(&live, r);
    let steps = chosen_steps(alloc, assign.bits(), z)?;
    with_outs(alloc, spec, z, steps, assign)
}
