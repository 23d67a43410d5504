//! The depth-first enumeration. Each step that passes the pruning rules is pushed, the rest is enumerated from
//! there, and the step is popped. The enumeration ends at the first solution, or after the number of solutions
//! that the stack is to skip. The order of choices is: larger operand, smaller operand, order of the two,
//! operator.
ghost use Rattle.std.specs.Prelude.{◌≡◌, ◌+◌, ◌≤◌, true, false, length, IfOk};
ghost use Rattle.op_basis.specs.Basis.{members};
ghost use Rattle.chain_theory.specs.Chain.{IsStepAt};
ghost use Rattle.chain_core.specs.Steps.{step_of};
ghost use Rattle.step_core.specs.Steps.{all_met as all_met_of};
ghost use Rattle.step_core.specs.Pruning.{due as due_of};
ghost use Rattle.step_core.specs.Waits.{waiting as waiting_of};
ghost use Rattle.step_core.specs.Enumeration.{IsEnumerating, IsEnumerationOutcome, NoneFrom, NoneWith, HasLarger};
ghost use Rattle.step_core.specs.Enumeration.{HasPair, HasOperands, IsGivenStep};

use crate::pruning::{due, is_nontrivial, may_come, may_follow};
use crate::rules::Rules;
use crate::stack::StepStack;
use crate::waits::{leaves_few, waiting};
use crate::words::all_met;
use chain_core::Step;
use op_basis::Op;
use std::alloc::AllocError;
use tt_core::Spec;

/// Whether the enumeration ends here: the placed steps are a solution that isn't to be skipped.
fn ends(spec: &Spec, rules: &Rules, stack: &mut StepStack) -> bool
    requires { stack.old.n ≡ spec.now.n }
    ensures meets_all { result ≡ true → all_met_of spec.now stack.old.steps ≡ true }
    ensures none { rules.now.whole ≡ true → result ≡ false → all_met_of spec.now stack.old.steps ≡ false }
    ensures same { stack.new ≡ stack.old }
{
    if !all_met(spec, stack) {
        return false;
    }
    if rules.whole() {
        return true;
    }
    stack.stops_here()
}

/// Enumerates all ways to place `left` more steps. True: the stack holds a solution. False: it is as it was
/// before.
#[cycle(enumerating)]
#[tactic(auto, using(crate::specs::OutcomeLaws::enumerating))]
pub(crate) fn enumerate(
    spec: &Spec,
    rules: &Rules,
    stack: &mut StepStack,
    left: u32,
) -> Result<bool, AllocError>
    requires enumerating { IsEnumerating spec.now (members rules.now.basis) stack.old left }
    ensures { IfOk result (IsEnumerationOutcome spec.now (members rules.now.basis) rules.now.whole left stack.old
        stack.new (NoneFrom spec.now (members rules.now.basis) stack.old.steps left)) }
{
    // for the prover: brings in the invariant of the specification
    let _inputs = spec.n();
    let places = stack.n() + stack.len();
    if left == 0 {
        return Ok(ends(spec, rules, stack));
    }
    let due = due(spec, stack);
    if due > left {
        return Ok(false);
    }
    let waiting = waiting(spec, stack);
    let most = 2 * left;
    if waiting > most {
        return Ok(false);
    }
    for before in 0..places {
        if enumerate_larger(spec, rules, stack, left, due, waiting, before + 1)? {
            return Ok(true);
        }
    }
    Ok(false)
}

/// Enumerates the ways whose next step has the larger operand `high`.
#[cycle(enumerating)]
#[tactic(auto, using(crate::specs::OutcomeLaws::enumerating))]
fn enumerate_larger(
    spec: &Spec,
    rules: &Rules,
    stack: &mut StepStack,
    left: u32,
    due: u32,
    waiting: u32,
    high: u32,
) -> Result<bool, AllocError>
    requires enumerating { IsEnumerating spec.now (members rules.now.basis) stack.old left }
    requires some { 1 ≤ left }
    requires due { due ≡ due_of spec.now stack.old.steps }
    requires waiting { waiting ≡ waiting_of spec.now stack.old.steps }
    requires high { high ≤ stack.old.n + length stack.old.steps }
    ensures { IfOk result (IsEnumerationOutcome spec.now (members rules.now.basis) rules.now.whole left stack.old
        stack.new (NoneWith spec.now (members rules.now.basis) stack.old.steps left (HasLarger high))) }
{
    for before in 0..high {
        if enumerate_pair(spec, rules, stack, left, due, waiting, before + 1, high)? {
            return Ok(true);
        }
    }
    Ok(false)
}

/// Enumerates the ways whose next step has the operands `low` and `high`, in either order.
#[cycle(enumerating)]
#[tactic(auto, using(crate::specs::OutcomeLaws::enumerating))]
fn enumerate_pair(
    spec: &Spec,
    rules: &Rules,
    stack: &mut StepStack,
    left: u32,
    due: u32,
    waiting: u32,
    low: u32,
    high: u32,
) -> Result<bool, AllocError>
    requires enumerating { IsEnumerating spec.now (members rules.now.basis) stack.old left }
    requires some { 1 ≤ left }
    requires due { due ≡ due_of spec.now stack.old.steps }
    requires waiting { waiting ≡ waiting_of spec.now stack.old.steps }
    requires low_from { 1 ≤ low }
    requires low { low ≤ high }
    requires high { high ≤ stack.old.n + length stack.old.steps }
    ensures { IfOk result (IsEnumerationOutcome spec.now (members rules.now.basis) rules.now.whole left stack.old
        stack.new (NoneWith spec.now (members rules.now.basis) stack.old.steps left (HasPair low high))) }
{
    if !may_follow(stack, low, high) {
        return Ok(false);
    }
    if !leaves_few(spec, stack, left, waiting, low, high) {
        return Ok(false);
    }
    if enumerate_operators(spec, rules, stack, left, due, low, high)? {
        return Ok(true);
    }
    if low == high {
        return Ok(false);
    }
    if rules.orders_operands() {
        return Ok(false);
    }
    let found = enumerate_operators(spec, rules, stack, left, due, high, low)?;
    Ok(found)
}

/// Enumerates the ways whose next step has the operands `j` and `k`, in this order.
#[cycle(enumerating)]
#[tactic(auto, using(crate::specs::OutcomeLaws::enumerating))]
fn enumerate_operators(
    spec: &Spec,
    rules: &Rules,
    stack: &mut StepStack,
    left: u32,
    due: u32,
    j: u32,
    k: u32,
) -> Result<bool, AllocError>
    requires enumerating { IsEnumerating spec.now (members rules.now.basis) stack.old left }
    requires some { 1 ≤ left }
    requires due { due ≡ due_of spec.now stack.old.steps }
    requires j_from { 1 ≤ j }
    requires j { j ≤ stack.old.n + length stack.old.steps }
    requires k_from { 1 ≤ k }
    requires k { k ≤ stack.old.n + length stack.old.steps }
    ensures { IfOk result (IsEnumerationOutcome spec.now (members rules.now.basis) rules.now.whole left stack.old
        stack.new (NoneWith spec.now (members rules.now.basis) stack.old.steps left (HasOperands j k))) }
{
    for word in 0..16u8 {
        let op = Op::new(word);
        if !rules.contains(op) {
            continue;
        }
        if !is_nontrivial(rules, j, k, op) {
            continue;
        }
        if enumerate_step(spec, rules, stack, left, due, Step { j, k, op })? {
            return Ok(true);
        }
    }
    Ok(false)
}

/// Enumerates the ways whose next step is `step`.
#[cycle(enumerating)]
#[tactic(auto, using(crate::specs::OutcomeLaws::enumerating))]
fn enumerate_step(
    spec: &Spec,
    rules: &Rules,
    stack: &mut StepStack,
    left: u32,
    due: u32,
    step: Step,
) -> Result<bool, AllocError>
    requires enumerating { IsEnumerating spec.now (members rules.now.basis) stack.old left }
    requires some { 1 ≤ left }
    requires due { due ≡ due_of spec.now stack.old.steps }
    requires member { members rules.now.basis step.op ≡ true }
    requires at { IsStepAt (stack.old.n + 1 + length stack.old.steps) (step_of step) }
    ensures { IfOk result (IsEnumerationOutcome spec.now (members rules.now.basis) rules.now.whole left stack.old
        stack.new (NoneWith spec.now (members rules.now.basis) stack.old.steps left (IsGivenStep (step_of step)))) }
{
    if !may_come(spec, rules, stack, left, due, step.j, step.k, step.op) {
        return Ok(false);
    }
    stack.push(step)?;
    if enumerate(spec, rules, stack, left - 1)? {
        return Ok(true);
    }
    stack.pop();
    Ok(false)
}
