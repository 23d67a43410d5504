//! At most one pair a step.
ghost use Rattle.std.specs.Prelude.{◌≡◌, All, OnOk};
ghost use Rattle.std.specs.List.{flat_map};
ghost use Rattle.clause_core.specs.Clauses.{Appends};
ghost use Rattle.enc_cuts.specs.Vars.{HasVar, HaveVars};
ghost use Rattle.strong_theory.specs.Strong.{precedes as precedes_of, one_of, one_pair_slot, one_pair_step, one_pair};

use clause_core::ClauseList;
use enc_base::StepSlots;
use enc_cuts::push_not_both;
use enc_theory::Slot;
use std::alloc::{AllocError, Global};

/// Whether the pair has the smaller first operand, or the same and the smaller second one.
#[tactic(auto, unfolding(strong_theory::specs::Strong::precedes))]
fn precedes(u: Slot, v: Slot) -> bool
    ensures { result ≡ precedes_of u v }
{
    u.j < v.j || (u.j == v.j && u.k < v.k)
}

/// The clause of two pairs, if the first comes before the second.
#[tactic(auto, unfolding(strong_theory::specs::Strong::one_of))]
fn push_one_of(alloc: Global, list: &mut ClauseList, u: Slot, v: Slot) -> Result<(), AllocError>
    requires first { HasVar list.old.vars u }
    requires second { HasVar list.old.vars v }
    ensures { OnOk result (Appends list.old list.new (one_of u v)) }
{
    if precedes(u, v) {
        return push_not_both(alloc, list, u, v);
    }
    Ok(())
}

/// The clauses of a pair with those after it.
#[tactic(auto, using(clause_core::specs::RangeLaws::loops), unfolding(strong_theory::specs::Strong::one_pair_slot))]
fn push_one_pair_slot(
    alloc: Global,
    list: &mut ClauseList,
    u: Slot,
    slots: &[Slot],
) -> Result<(), AllocError>
    requires first { HasVar list.old.vars u }
    requires slots { All (HasVar list.old.vars) slots.now }
    ensures { OnOk result (Appends list.old list.new (one_pair_slot slots.now u)) }
{
    for v in slots {
        push_one_of(alloc, list, u, *v)?;
    }
    Ok(())
}

/// The clauses of all pairs of a step.
#[tactic(auto, using(clause_core::specs::RangeLaws::loops))]
fn push_one_pair_slots(
    alloc: Global,
    list: &mut ClauseList,
    slots: &[Slot],
) -> Result<(), AllocError>
    requires { All (HasVar list.old.vars) slots.now }
    ensures { OnOk result (Appends list.old list.new (flat_map (one_pair_slot slots.now) slots.now)) }
{
    for u in slots {
        push_one_pair_slot(alloc, list, *u, slots)?;
    }
    Ok(())
}

/// The clauses of a step.
#[tactic(auto, unfolding(strong_theory::specs::Strong::one_pair_step))]
fn push_one_pair_step(
    alloc: Global,
    list: &mut ClauseList,
    step: &StepSlots,
) -> Result<(), AllocError>
    requires { HaveVars list.old.vars step.now }
    ensures { OnOk result (Appends list.old list.new (one_pair_step step.now)) }
{
    push_one_pair_slots(alloc, list, step.slots())
}

/// Appends the clauses that no step has two pairs.
#[tactic(auto, using(clause_core::specs::RangeLaws::loops), unfolding(strong_theory::specs::Strong::one_pair))]
pub(crate) fn push_one_pair(
    alloc: Global,
    list: &mut ClauseList,
    steps: &[StepSlots],
) -> Result<(), AllocError>
    requires { All (HaveVars list.old.vars) steps.now }
    ensures { OnOk result (Appends list.old list.new (one_pair steps.now)) }
{
    for step in steps {
        push_one_pair_step(alloc, list, step)?;
    }
    Ok(())
}
