//! The outs of a chain: the trivial out of an output where it has one, else a step with its values.
ghost use Rattle.std.specs.Prelude.{◌≡◌, ◌-◌, ◌≤◌, ◌<◌, true, false, length, IfSome, IfNone, IfOk};
ghost use Rattle.tt_core.specs.Words.{specification};
ghost use Rattle.tt_core.specs.Live.{is_live};
ghost use Rattle.step_core.specs.Steps.{is_met as is_met_of};
ghost use Rattle.step_core.specs.Outs.{IsStepFor, IsOutFor, AreMet, AreOuts};

use crate::stack::StepStack;
use crate::words::meets_at;
use chain_core::Out;
use std::alloc::{AllocError, Global};
use tt_core::{Spec, trivial};

/// The place of the first step that has the values of an output; None where no step has. Outputs are counted
/// from 0.
#[tactic(auto, using(crate::specs::OutLaws::sitting), unfolding(crate::specs::Steps::is_met))]
fn step_for(spec: &Spec, stack: &StepStack, output: u32) -> Option<u32>
    requires inputs { stack.now.n ≡ spec.now.n }
    requires output { output < length spec.now.on }
    ensures some { IfSome result (λ place. IsStepFor spec.now stack.now.steps output place) }
    ensures none { IfNone result (is_met_of spec.now stack.now.steps output ≡ false) }
{
    for index in 0..stack.len() {
        if meets_at(spec, stack, output, index) {
            return Some(stack.n() + 1 + index);
        }
    }
    None
}

/// The out of output `h`, numbered from 1.
#[tactic(auto, using(crate::specs::OutLaws::sitting))]
fn out_for(spec: &Spec, stack: &StepStack, h: u32) -> Out
    requires inputs { stack.now.n ≡ spec.now.n }
    requires output { (1 ≤ h) × (h ≤ length spec.now.on) }
    requires met { is_live (specification spec.now) h ≡ true → is_met_of spec.now stack.now.steps (h - 1) ≡ true }
    ensures { IsOutFor spec.now stack.now.steps h result }
{
    // for the prover: bring in the invariants
    let _inputs = spec.n();
    let _steps = stack.len();
    match trivial(spec, h) {
        Some(out) => out,
        None => match step_for(spec, stack, h - 1) {
            Some(place) => Out::Place(place),
            None => unreachable!(),
        },
    }
}

/// The outs of all outputs, in order. An error means that memory ran out.
#[tactic(auto, using(crate::specs::OutLaws::sitting))]
pub(crate) fn outs_for(
    alloc: Global,
    spec: &Spec,
    stack: &StepStack,
) -> Result<Vec<Out>, AllocError>
    requires inputs { stack.now.n ≡ spec.now.n }
    requires met { AreMet spec.now stack.now.steps }
    ensures count { IfOk result (λ outs. length outs.items ≡ length spec.now.on) }
    ensures each { IfOk result (λ outs. AreOuts spec.now stack.now.steps outs.items) }
{
    let mut outs = Vec::new(alloc);
    for before in 0..spec.outputs() {
        outs.push(out_for(spec, stack, before + 1))?;
    }
    Ok(outs)
}
