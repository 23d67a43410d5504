//! Co-lexicographic order: the pairs of consecutive steps never decrease.
ghost use Rattle.std.specs.Prelude.{◌≡◌, All, OnOk};
ghost use Rattle.std.specs.List.{flat_map};
ghost use Rattle.clause_core.specs.Clauses.{Appends};
ghost use Rattle.enc_theory.specs.Cuts.{larger as larger_of, smaller as smaller_of, comes_before as comes_before_of};
ghost use Rattle.enc_theory.specs.Cuts.{order_pair, order_slot, order_with, order};
ghost use Rattle.enc_cuts.specs.Vars.{HasVar, HaveVars};

use crate::slots::push_not_both;
use clause_core::ClauseList;
use enc_base::StepSlots;
use enc_theory::Slot;
use std::alloc::{AllocError, Global};

/// The larger operand of a pair.
fn larger(slot: Slot) -> u32
    ensures { result ≡ larger_of slot }
{
    slot.j.max(slot.k)
}

/// The smaller operand of a pair, or 0 if they are equal.
fn smaller(slot: Slot) -> u32
    ensures { result ≡ smaller_of slot }
{
    if slot.j == slot.k {
        0
    } else {
        slot.j.min(slot.k)
    }
}

/// Whether a pair comes before another one in co-lexicographic order, with equal operands first.
#[tactic(auto, unfolding(enc_theory::specs::Cuts::comes_before))]
fn comes_before(u: Slot, v: Slot) -> bool
    ensures { result ≡ comes_before_of u v }
{
    larger(u) < larger(v) || (larger(u) == larger(v) && smaller(u) < smaller(v))
}

/// The clause "not both pairs", if that of the next step comes before the other.
#[tactic(auto, unfolding(enc_theory::specs::Cuts::order_pair))]
fn push_order_pair(alloc: Global, list: &mut ClauseList, u: Slot, v: Slot) -> Result<(), AllocError>
    requires first { HasVar list.old.vars u }
    requires second { HasVar list.old.vars v }
    ensures { OnOk result (Appends list.old list.new (order_pair u v)) }
{
    if comes_before(v, u) {
        return push_not_both(alloc, list, u, v);
    }
    Ok(())
}

/// The clauses of a pair with those of the next step.
#[tactic(auto, using(clause_core::specs::RangeLaws::loops), unfolding(enc_theory::specs::Cuts::order_slot))]
fn push_order_slot(
    alloc: Global,
    list: &mut ClauseList,
    u: Slot,
    next: &[Slot],
) -> Result<(), AllocError>
    requires first { HasVar list.old.vars u }
    requires next { All (HasVar list.old.vars) next.now }
    ensures { OnOk result (Appends list.old list.new (order_slot next.now u)) }
{
    for v in next {
        push_order_pair(alloc, list, u, *v)?;
    }
    Ok(())
}

/// The clauses of all pairs of two steps.
#[tactic(auto, using(clause_core::specs::RangeLaws::loops))]
fn push_order_slots(
    alloc: Global,
    list: &mut ClauseList,
    slots: &[Slot],
    next: &[Slot],
) -> Result<(), AllocError>
    requires slots { All (HasVar list.old.vars) slots.now }
    requires next { All (HasVar list.old.vars) next.now }
    ensures { OnOk result (Appends list.old list.new (flat_map (order_slot next.now) slots.now)) }
{
    for u in slots {
        push_order_slot(alloc, list, *u, next)?;
    }
    Ok(())
}

/// The clauses of a step and the next one, if there is one.
#[tactic(auto, using(crate::proofs::Walks::order_first))]
fn push_order_with(
    alloc: Global,
    list: &mut ClauseList,
    step: &StepSlots,
    later: &[StepSlots],
) -> Result<(), AllocError>
    requires step { HaveVars list.old.vars step.now }
    requires later { All (HaveVars list.old.vars) later.now }
    ensures { OnOk result (Appends list.old list.new (order_with step.now later.now)) }
{
    match later.first() {
        None => Ok(()),
        Some(next) => push_order_slots(alloc, list, step.slots(), next.slots()),
    }
}

/// Appends the clauses that no step's pair comes before that of the step before it.
#[tactic(auto, using(crate::proofs::Walks::order_walk))]
pub(crate) fn push_order(
    alloc: Global,
    list: &mut ClauseList,
    steps: &[StepSlots],
) -> Result<(), AllocError>
    requires slots { All (HaveVars list.old.vars) steps.now }
    ensures { OnOk result (Appends list.old list.new (order steps.now)) }
{
    let mut left = steps;
    while let Some((step, later)) = left.split_first() {
        push_order_with(alloc, list, step, later)?;
        left = later;
    }
    Ok(())
}
