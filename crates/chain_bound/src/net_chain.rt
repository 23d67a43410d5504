//! A net as a chain. Input k of a net has the weight 2^(k-1) in a row's number, and place 1 of a chain has the greatest
//! weight, so that inputs change their order. The gates keep their places.
ghost use Rattle.std.specs.Prelude.{◌≤◌, ◌+◌, length, All, IfSome, IfOk};
ghost use Rattle.chain_theory.specs.Chain.{AreSteps, IsStepAt, NamesPlace};
ghost use Rattle.chain_core.specs.Steps.{step_of, steps_of};

use chain_core::{Chain, MOST_STEPS, Out, Step, add_step};
use chain_walk::{Gate, SmallNet};
use op_basis::{Basis, Op};
use std::alloc::{AllocError, Global};
use tt_core::{MOST_INPUTS, MOST_OUTPUTS};

/// The place of a net's signal in a chain of `n` inputs; 0 for the constant.
fn place_of(n: u32, signal: u32) -> u32 {
    if signal == 0 || signal > n {
        signal
    } else {
        n - signal + 1
    }
}

/// The step of a gate, with its operands in order where the basis has the operator so.
fn ordered(n: u32, gate: Gate, basis: Basis) -> Step {
    let (j, k) = (place_of(n, gate.first), place_of(n, gate.second));
    let operator = gate.operator;
    let (is_01, is_10) = (operator.at_01() == 1, operator.at_10() == 1);
    let (is_00, is_11) = (operator.at_00() == 1, operator.at_11() == 1);
    let op = Op::with_values(is_00, is_01, is_10, is_11);
    let swapped = Op::with_values(is_00, is_10, is_01, is_11);
    if (j > k && basis.contains(swapped)) || !basis.contains(op) {
        Step {
            j: k,
            k: j,
            op: swapped,
        }
    } else {
        Step { j, k, op }
    }
}

/// The step of a gate at a place, if its operands are lower places.
fn step_at(n: u32, place: u32, gate: Gate, basis: Basis) -> Option<Step>
    ensures { IfSome result (λ step. IsStepAt place (step_of step)) }
{
    let step = ordered(n, gate, basis);
    // for the prover: brings that the operator is one of sixteen
    let _operator = step.op.get();
    if step.j == 0 || step.k == 0 || step.j >= place || step.k >= place {
        return None;
    }
    Some(step)
}

/// The steps of a net's gates, if there are few and the operands of each are lower places.
#[tactic(auto, using(crate::proofs::Checked::building))]
fn steps_of_net(
    alloc: Global,
    net: &SmallNet,
    n: u32,
    basis: Basis,
) -> Result<Option<Vec<Step>>, AllocError>
    requires { n ≤ 6 }
    ensures steps { IfOk result (λ found. IfSome found (λ steps. AreSteps n (steps_of steps.items))) }
    ensures few { IfOk result (λ found. IfSome found (λ steps. length steps.items ≤ 16)) }
{
    let mut steps = Vec::new(alloc);
    for gate in net.gates() {
        if steps.len() >= MOST_STEPS as usize {
            return Ok(None);
        }
        let place = n + 1 + steps.len() as u32;
        let Some(step) = step_at(n, place, *gate, basis) else {
            return Ok(None);
        };
        add_step(&mut steps, step)?;
    }
    Ok(Some(steps))
}

/// The out of an output's literal, if it is a constant or a signal without complement whose place is at most `last`.
fn out_of(n: u32, last: u32, literal: u32) -> Option<Out>
    ensures { IfSome result (λ out. NamesPlace last out) }
{
    if literal == 0 {
        return Some(Out::Zero);
    }
    if literal == 1 {
        return Some(Out::One);
    }
    let place = place_of(n, literal >> 1);
    if literal & 1 == 1 || place == 0 || place > last {
        return None;
    }
    Some(Out::Place(place))
}

/// The outs of a net's outputs, if there are few and each is one.
#[tactic(auto, using(crate::proofs::Checked::building))]
fn outs_of_net(
    alloc: Global,
    net: &SmallNet,
    n: u32,
    last: u32,
) -> Result<Option<Vec<Out>>, AllocError>
    ensures outs { IfOk result (λ found. IfSome found (λ outs. All (NamesPlace last) outs.items)) }
    ensures few { IfOk result (λ found. IfSome found (λ outs. length outs.items ≤ 8)) }
{
    let mut outs = Vec::new(alloc);
    for literal in net.outputs() {
        if outs.len() >= MOST_OUTPUTS {
            return Ok(None);
        }
        let Some(out) = out_of(n, last, *literal) else {
            return Ok(None);
        };
        outs.push(out)?;
    }
    Ok(Some(outs))
}

/// The chain of a net of `n` inputs, if it is one within the bounds of programs.
pub(crate) fn chain_of(
    alloc: Global,
    net: &SmallNet,
    n: u32,
    basis: Basis,
) -> Result<Option<Chain>, AllocError> {
    if n > MOST_INPUTS {
        return Ok(None);
    }
    let Some(steps) = steps_of_net(alloc, net, n, basis)? else {
        return Ok(None);
    };
    let last = n + steps.len() as u32;
    let Some(outs) = outs_of_net(alloc, net, n, last)? else {
        return Ok(None);
    };
    Ok(Some(Chain::new(n, steps, outs)))
}
