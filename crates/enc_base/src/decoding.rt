//! The chain that an assignment spells.
ghost use Rattle.std.specs.Prelude.{◌≡◌, ◌+◌, ◌-◌, ◌≤◌, ◌<◌, length, map, All, IfOk};
ghost use Rattle.chain_core.specs.Steps.{step_of, steps_of, IsSmallChain};
ghost use Rattle.sat_theory.specs.Formula.{bits_of};
ghost use Rattle.tt_core.specs.Live.{live_among};
ghost use Rattle.tt_core.specs.Words.{specification};
ghost use Rattle.enc_theory.specs.Numbering.{places, outputs};
ghost use Rattle.enc_theory.specs.Decode.{first_pair as first_pair_of, operator_in, decoded_step as decoded_step_of};
ghost use Rattle.enc_theory.specs.Decode.{first_driver as first_driver_of, decoded_out, restored_at};
ghost use Rattle.enc_theory.specs.Decode.{restored as restored_of, with_outs as with_outs_of, decoded};
ghost use Rattle.enc_base.specs.Room.{IsSmall, IsPlace, HasPlace};

use crate::layout::StepSlots;
use crate::vars::{f_var, g_var};
use chain_core::{Chain, Out, Step};
use cnf_core::Assign;
use enc_theory::{Pair, Dimensions, Slot};
use op_basis::Op;
use std::alloc::{AllocError, Global};
use tt_core::{Spec, trivial};

/// The value of a variable, numbered from 1; false after the end of the list.
pub fn bit(bits: &[bool], variable: u32) -> bool
    ensures { result ≡ bits_of bits.now variable }
{
    if variable == 0 {
        return false;
    }
    match bits.get(variable as usize - 1) {
        Some(bit) => *bit,
        None => false,
    }
}

/// The first of a step's pairs whose selection variable is true.
#[tactic(auto, using(crate::proofs::Spelled::pairs))]
fn first_pair(bits: &[bool], slots: &[Slot]) -> Pair
    ensures { result ≡ first_pair_of (bits_of bits.now) slots.now }
{
    let mut left = slots;
    while let Some((slot, rest)) = left.split_first() {
        if bit(bits, slot.var) {
            return Pair {
                j: slot.j,
                k: slot.k,
            };
        }
        left = rest;
    }
    Pair { j: 1, k: 1 }
}

/// The operator of the step at a place, by its four variables.
pub fn operator(bits: &[bool], z: Dimensions, place: u32) -> Op
    requires small { IsSmall z }
    requires place { IsPlace z place }
    ensures { result ≡ operator_in z (bits_of bits.now) place }
{
    Op::with_values(
        bit(bits, f_var(z, place, false, false)),
        bit(bits, f_var(z, place, false, true)),
        bit(bits, f_var(z, place, true, false)),
        bit(bits, f_var(z, place, true, true)),
    )
}

/// The step with its pair and its operator.
#[tactic(auto, unfolding(enc_theory::specs::Decode::decoded_step))]
fn decoded_step(bits: &[bool], z: Dimensions, step: &StepSlots) -> Step
    requires small { IsSmall z }
    requires place { IsPlace z step.now.place }
    ensures { step_of result ≡ decoded_step_of z (bits_of bits.now) step.now }
{
    let pair = first_pair(bits, step.slots());
    Step {
        j: pair.j,
        k: pair.k,
        op: operator(bits, z, step.place()),
    }
}

/// All steps.
fn decoded_steps(
    alloc: Global,
    bits: &[bool],
    z: Dimensions,
    steps: &[StepSlots],
) -> Result<Vec<Step>, AllocError>
    requires small { IsSmall z }
    requires places { All (HasPlace z) steps.now }
    ensures { IfOk result (λ chain. steps_of chain.items ≡ map (decoded_step_of z (bits_of bits.now)) steps.now) }
{
    let mut chain = Vec::new(alloc);
    for step in steps {
        chain.push(decoded_step(bits, z, step))?;
    }
    Ok(chain)
}

/// The first step whose variable for output `h` is true.
#[tactic(auto, using(crate::proofs::Spelled::drivers))]
fn first_driver(bits: &[bool], z: Dimensions, h: u32) -> u32
    requires small { IsSmall z }
    requires output { (1 ≤ h) × (h ≤ z.m) }
    ensures { result ≡ first_driver_of z (bits_of bits.now) h (places z) }
{
    for place in z.n + 1..z.n + 1 + z.r {
        if bit(bits, g_var(z, h, place)) {
            return place;
        }
    }
    z.n + 1
}

/// The drivers of the live outputs.
#[tactic(auto, using(clause_core::specs::RangeLaws::loops), unfolding(enc_theory::specs::Decode::decoded_out))]
fn live_outs(alloc: Global, bits: &[bool], z: Dimensions) -> Result<Vec<Out>, AllocError>
    requires { IsSmall z }
    ensures { IfOk result (λ outs. outs.items ≡ map (decoded_out z (bits_of bits.now)) (outputs z)) }
{
    let mut outs = Vec::new(alloc);
    for h in 1..z.m + 1 {
        outs.push(Out::Place(first_driver(bits, z, h)))?;
    }
    Ok(outs)
}

/// Output `h` of the chain: its trivial value, or else the next of the live outputs.
#[tactic(auto, unfolding(enc_theory::specs::Decode::restored_at))]
fn restored_out(spec: &Spec, live: &[Out], h: u32, next: usize) -> Out
    requires output { (1 ≤ h) × (h ≤ length spec.now.on) }
    requires next { next ≡ length (live_among (specification spec.now) (h - 1)) }
    ensures { result ≡ restored_at (specification spec.now) live.now h }
{
    match trivial(spec, h) {
        Some(out) => out,
        None => match live.get(next) {
            Some(out) => *out,
            None => Out::Zero,
        },
    }
}

/// How many of the outputs up to `h` are live, given the number of those below it.
#[tactic(auto, using(crate::proofs::Spelled::living))]
fn live_up_to(spec: &Spec, h: u32, below: usize) -> usize
    requires output { (1 ≤ h) × (h ≤ length spec.now.on) }
    requires below { below ≡ length (live_among (specification spec.now) (h - 1)) }
    requires few { below < h }
    ensures count { result ≡ length (live_among (specification spec.now) h) }
    ensures few { result ≤ h }
{
    match trivial(spec, h) {
        Some(_) => below,
        None => below + 1,
    }
}

/// The live outputs, with the trivial ones put back in their places.
#[tactic(auto, using(crate::proofs::Spelled::restoring), unfolding(enc_theory::specs::Decode::restored))]
fn restored(alloc: Global, spec: &Spec, live: &[Out]) -> Result<Vec<Out>, AllocError>
    ensures { IfOk result (λ outs. outs.items ≡ restored_of (specification spec.now) live.now) }
{
    // for the prover: brings in that there are at most eight outputs
    let _n = spec.n();
    let mut outs = Vec::new(alloc);
    let mut next = 0;
    for h in 1..spec.outputs() + 1 {
        outs.push(restored_out(spec, live, h, next))?;
        next = live_up_to(spec, h, next);
    }
    Ok(outs)
}

/// The chain with these steps, for the tables: each live output is driven by the first step whose variable for
/// it is true, and the trivial outputs are put back in their places. `z` has the number of live outputs.
pub fn with_outs(
    alloc: Global,
    spec: &Spec,
    z: Dimensions,
    steps: Vec<Step>,
    assign: &Assign,
) -> Result<Chain, AllocError>
    requires small { IsSmall z }
    requires chain { IsSmallChain (with_outs_of spec.now z (steps_of steps.items) (bits_of assign.now)) }
    ensures { IfOk result (λ chain. chain ≡ with_outs_of spec.now z (steps_of steps.items) (bits_of assign.now)) }
{
    let live = live_outs(alloc, assign.bits(), z)?;
    let outs = restored(alloc, spec, &live)?;
    Ok(Chain::new(spec.n(), steps, outs))
}

/// The chain for the tables: each step has its first pair whose selection variable is true and the operator
/// that its four variables spell; the outputs are those of `with_outs`.
#[tactic(auto, unfolding(enc_theory::specs::Decode::decoded))]
pub fn decode(
    alloc: Global,
    spec: &Spec,
    z: Dimensions,
    steps: &[StepSlots],
    assign: &Assign,
) -> Result<Chain, AllocError>
    requires small { IsSmall z }
    requires places { All (HasPlace z) steps.now }
    requires chain { IsSmallChain (decoded spec.now z steps.now (bits_of assign.now)) }
    ensures { IfOk result (λ chain. chain ≡ decoded spec.now z steps.now (bits_of assign.now)) }
{
    let chain = decoded_steps(alloc, assign.bits(), z, steps)?;
    with_outs(alloc, spec, z, chain, assign)
}
