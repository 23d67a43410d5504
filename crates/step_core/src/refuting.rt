//! Refutes a size by the places that further steps read. A branch has the set of the places so far that the steps to
//! come read, exactly. It ends where these are more than so many steps can read, where the missing outputs aren't
//! functions of them, and where the missing outputs fall into too few groups for them (`shares`). The next step reads
//! two of the set, and its operands and its own place are in the next set or not: eight cases. Work is counted, and a
//! search that runs out of it refutes nothing.
ghost use Rattle.std.specs.Prelude.{◌≡◌, ◌+◌, ◌≤◌, length, IfOk};
ghost use Rattle.op_basis.specs.Basis.{members};
ghost use Rattle.chain_theory.specs.Operator.{digit};
ghost use Rattle.chain_theory.specs.Chain.{IsStepAt};
ghost use Rattle.chain_core.specs.Steps.{step_of};
ghost use Rattle.step_core.specs.Enumeration.{HasLarger, HasPair, HasOperands, IsGivenStep};
ghost use Rattle.step_core.specs.Reads.{NoneReading, NoneReadingWith, IsMissingMask};
ghost use Rattle.step_core.specs.Reads.{IsOpen, IsRefuting, IsAfter, IsRefutation};
ghost use Rattle.step_core.specs.RefutingLaws.{NoneGiven, NoneAfter, NoneOwn};

use crate::determined::are_determined;
use crate::masks::{count, has, put};
use crate::pruning::{due, gives_some, is_nontrivial, may_come, may_follow};
use crate::rules::Rules;
use crate::shares::may_share;
use crate::stack::StepStack;
use crate::words::is_met;
use chain_core::Step;
use op_basis::{Op, on_words};
use std::alloc::AllocError;
use tt_core::Spec;

/// The outputs, counted from 0, that no step has the values of, as a mask.
#[tactic(auto, using(crate::specs::RefutingLaws::finding))]
pub(crate) fn missing_outputs(spec: &Spec, stack: &StepStack) -> u32
    requires { stack.now.n ≡ spec.now.n }
    ensures { IsMissingMask spec.now stack.now.steps result }
{
    // for the prover: brings in the invariant of the specification
    let _inputs = spec.n();
    let mut mask = 0u32;
    for output in 0..spec.outputs() {
        mask = put(mask, output, !is_met(spec, stack, output));
    }
    mask
}

/// Refutes that `left` more steps that read exactly the set `reads`, of the places so far, make a solution. True:
/// refuted, and the stack is as it was before.
#[cycle(refuting)]
#[tactic(auto, using(crate::specs::RefutingLaws::refuting))]
pub(crate) fn refute(
    spec: &Spec,
    rules: &Rules,
    stack: &mut StepStack,
    left: u32,
    due: u32,
    missing: u32,
    reads: u32,
    work: &mut u32,
) -> Result<bool, AllocError>
    requires { IsRefuting spec.now stack.old left due missing }
    ensures { IfOk result (IsRefutation stack.old stack.new
        (NoneReading spec.now (members rules.now.basis) stack.old.steps left (digit reads))) }
{
    // for the prover: brings in the invariant of the specification
    let _inputs = spec.n();
    let places = stack.n() + stack.len();
    let most = left + count(missing, spec.outputs());
    if count(reads, places) > most {
        return Ok(true);
    }
    if due > left {
        return Ok(true);
    }
    if *work == 0 {
        return Ok(false);
    }
    *work -= 1;
    if !are_determined(spec, stack, reads, missing) {
        return Ok(true);
    }
    if !may_share(spec, stack, left, reads, missing, work) {
        return Ok(true);
    }
    if left == 0 {
        return Ok(false);
    }
    refute_steps(spec, rules, stack, left, due, reads, work)
}

/// Refutes all next steps.
#[cycle(refuting)]
#[tactic(auto, using(crate::specs::RefutingLaws::refuting))]
fn refute_steps(
    spec: &Spec,
    rules: &Rules,
    stack: &mut StepStack,
    left: u32,
    due: u32,
    reads: u32,
    work: &mut u32,
) -> Result<bool, AllocError>
    requires going { IsOpen spec.now stack.old left due }
    ensures { IfOk result (IsRefutation stack.old stack.new
        (NoneReading spec.now (members rules.now.basis) stack.old.steps left (digit reads))) }
{
    for before in 0..stack.n() + stack.len() {
        if !has(reads, before) {
            continue;
        }
        if !refute_larger(spec, rules, stack, left, due, reads, before + 1, work)? {
            return Ok(false);
        }
    }
    Ok(true)
}

/// Refutes the next steps with the larger operand `high`.
#[cycle(refuting)]
#[tactic(auto, using(crate::specs::RefutingLaws::refuting))]
fn refute_larger(
    spec: &Spec,
    rules: &Rules,
    stack: &mut StepStack,
    left: u32,
    due: u32,
    reads: u32,
    high: u32,
    work: &mut u32,
) -> Result<bool, AllocError>
    requires going { IsOpen spec.now stack.old left due }
    requires high { high ≤ stack.old.n + length stack.old.steps }
    ensures { IfOk result (IsRefutation stack.old stack.new
        (NoneReadingWith spec.now (members rules.now.basis) stack.old.steps left (digit reads) (HasLarger high))) }
{
    // for the prover: bring in the invariant
    let _steps = stack.len();
    for before in 0..high {
        if !has(reads, before) {
            continue;
        }
        if !refute_pair(spec, rules, stack, left, due, reads, before + 1, high, work)? {
            return Ok(false);
        }
    }
    Ok(true)
}

/// Refutes the next steps with the operands `low` and `high`, in either order.
#[cycle(refuting)]
#[tactic(auto, using(crate::specs::RefutingLaws::refuting))]
fn refute_pair(
    spec: &Spec,
    rules: &Rules,
    stack: &mut StepStack,
    left: u32,
    due: u32,
    reads: u32,
    low: u32,
    high: u32,
    work: &mut u32,
) -> Result<bool, AllocError>
    requires going { IsOpen spec.now stack.old left due }
    requires low_from { 1 ≤ low }
    requires low { low ≤ high }
    requires high { high ≤ stack.old.n + length stack.old.steps }
    ensures { IfOk result (IsRefutation stack.old stack.new
        (NoneReadingWith spec.now (members rules.now.basis) stack.old.steps left (digit reads) (HasPair low high))) }
{
    if !may_follow(stack, low, high) {
        return Ok(true);
    }
    if !refute_operators(spec, rules, stack, left, due, reads, low, high, work)? {
        return Ok(false);
    }
    if low == high {
        return Ok(true);
    }
    if rules.orders_operands() {
        return Ok(true);
    }
    let refuted = refute_operators(spec, rules, stack, left, due, reads, high, low, work)?;
    Ok(refuted)
}

/// Refutes the next steps with the operands `j` and `k`, in this order.
#[cycle(refuting)]
#[tactic(auto, using(crate::specs::RefutingLaws::refuting))]
fn refute_operators(
    spec: &Spec,
    rules: &Rules,
    stack: &mut StepStack,
    left: u32,
    due: u32,
    reads: u32,
    j: u32,
    k: u32,
    work: &mut u32,
) -> Result<bool, AllocError>
    requires going { IsOpen spec.now stack.old left due }
    requires j_from { 1 ≤ j }
    requires j { j ≤ stack.old.n + length stack.old.steps }
    requires k_from { 1 ≤ k }
    requires k { k ≤ stack.old.n + length stack.old.steps }
    ensures { IfOk result (IsRefutation stack.old stack.new
        (NoneReadingWith spec.now (members rules.now.basis) stack.old.steps left (digit reads) (HasOperands j k))) }
{
    for word in 0..16u8 {
        let op = Op::new(word);
        if !rules.contains(op) {
            continue;
        }
        if !is_nontrivial(rules, j, k, op) {
            continue;
        }
        if !refute_step(
            spec,
            rules,
            stack,
            left,
            due,
            reads,
            Step { j, k, op },
            work,
        )? {
            return Ok(false);
        }
    }
    Ok(true)
}

/// Refutes the next step `step`.
#[cycle(refuting)]
#[tactic(auto, using(crate::specs::RefutingLaws::refuting))]
fn refute_step(
    spec: &Spec,
    rules: &Rules,
    stack: &mut StepStack,
    left: u32,
    due: u32,
    reads: u32,
    step: Step,
    work: &mut u32,
) -> Result<bool, AllocError>
    requires going { IsOpen spec.now stack.old left due }
    requires at { IsStepAt (stack.old.n + 1 + length stack.old.steps) (step_of step) }
    ensures { IfOk result (IsRefutation stack.old stack.new
        (NoneReadingWith spec.now (members rules.now.basis) stack.old.steps left (digit reads)
        (IsGivenStep (step_of step)))) }
{
    if !may_come(spec, rules, stack, left, due, step.j, step.k, step.op) {
        return Ok(true);
    }
    let word = on_words(step.op, stack.word(step.j), stack.word(step.k));
    let gives = gives_some(spec, stack, word);
    stack.push(step)?;
    if !refute_after(
        spec,
        rules,
        stack,
        left - 1,
        reads,
        step.j,
        step.k,
        gives,
        work,
    )? {
        return Ok(false);
    }
    stack.pop();
    Ok(true)
}

/// Refutes all cases after a step with the operands `j` and `k`, the last one on the stack; `gives`: whether it has
/// the values of an output that no step before it has. If it isn't, a later step reads it.
#[cycle(refuting)]
#[tactic(auto, using(crate::specs::RefutingLaws::refuting))]
fn refute_after(
    spec: &Spec,
    rules: &Rules,
    stack: &mut StepStack,
    left: u32,
    reads: u32,
    j: u32,
    k: u32,
    gives: bool,
    work: &mut u32,
) -> Result<bool, AllocError>
    requires { IsAfter spec.now stack.old left j k }
    ensures { IfOk result (IsRefutation stack.old stack.new
        (NoneGiven spec.now (members rules.now.basis) stack.old.steps left (digit reads) j k gives)) }
{
    let due = due(spec, stack);
    let missing = missing_outputs(spec, stack);
    if !refute_own(
        spec, rules, stack, left, due, missing, reads, j, k, true, work,
    )? {
        return Ok(false);
    }
    if !gives {
        return Ok(true);
    }
    let refuted = refute_own(
        spec, rules, stack, left, due, missing, reads, j, k, false, work,
    )?;
    Ok(refuted)
}

/// Refutes the cases in which later steps read the last step's place, or don't, as `own` says.
#[cycle(refuting)]
#[tactic(auto, using(crate::specs::RefutingLaws::refuting))]
fn refute_own(
    spec: &Spec,
    rules: &Rules,
    stack: &mut StepStack,
    left: u32,
    due: u32,
    missing: u32,
    reads: u32,
    j: u32,
    k: u32,
    own: bool,
    work: &mut u32,
) -> Result<bool, AllocError>
    requires refuting { IsRefuting spec.now stack.old left due missing }
    requires after { IsAfter spec.now stack.old left j k }
    ensures { IfOk result (IsRefutation stack.old stack.new
        (NoneOwn spec.now (members rules.now.basis) stack.old.steps left (digit reads) j k own)) }
{
    if !refute_case(
        spec, rules, stack, left, due, missing, reads, j, k, false, false, own, work,
    )? {
        return Ok(false);
    }
    if !refute_case(
        spec, rules, stack, left, due, missing, reads, j, k, false, true, own, work,
    )? {
        return Ok(false);
    }
    if !refute_case(
        spec, rules, stack, left, due, missing, reads, j, k, true, false, own, work,
    )? {
        return Ok(false);
    }
    let refuted = refute_case(
        spec, rules, stack, left, due, missing, reads, j, k, true, true, own, work,
    )?;
    Ok(refuted)
}

/// Refutes one case: whether later steps read the operands `j` and `k` again, and the last step's own place.
#[cycle(refuting)]
#[tactic(auto, using(crate::specs::RefutingLaws::refuting))]
fn refute_case(
    spec: &Spec,
    rules: &Rules,
    stack: &mut StepStack,
    left: u32,
    due: u32,
    missing: u32,
    reads: u32,
    j: u32,
    k: u32,
    first: bool,
    second: bool,
    own: bool,
    work: &mut u32,
) -> Result<bool, AllocError>
    requires refuting { IsRefuting spec.now stack.old left due missing }
    requires after { IsAfter spec.now stack.old left j k }
    ensures { IfOk result (IsRefutation stack.old stack.new
        (NoneAfter spec.now (members rules.now.basis) stack.old.steps left (digit reads) j k first second own)) }
{
    let place = stack.n() + stack.len();
    let one = put(reads, j - 1, first);
    let two = put(one, k - 1, second);
    let all = put(two, place - 1, own);
    let refuted = refute(spec, rules, stack, left, due, missing, all, work)?;
    Ok(refuted)
}
