//! No re-application: no step combines a step with one of that step's operands.
ghost use Rattle.std.specs.Prelude.{◌≡◌, ◌++◌, [], ◌∷◌, All, IfOk, OnOk, if◌then◌else◌};
ghost use Rattle.std.specs.List.{flat_map};
ghost use Rattle.clause_core.specs.Clauses.{Appends};
ghost use Rattle.enc_theory.specs.Cuts.{is_reapplication as is_reapplication_of, no_reapplication_pair};
ghost use Rattle.enc_theory.specs.Cuts.{no_reapplication_slot, has_place, reading as reading_of};
ghost use Rattle.enc_theory.specs.Cuts.{no_reapplication_later, no_reapplication_all, no_reapplication};
ghost use Rattle.enc_cuts.specs.Vars.{HasVar, HaveVars};

use crate::slots::{push_not_both, reads};
use clause_core::ClauseList;
use enc_base::StepSlots;
use enc_theory::Slot;
use op_basis::Basis;
use std::alloc::{AllocError, Global};

/// Whether the pair `v` has the step at `place` and one of that step's operands, which are `u`.
#[tactic(auto, unfolding(enc_theory::specs::Cuts::is_reapplication))]
fn is_reapplication(place: u32, u: Slot, v: Slot) -> bool
    ensures { result ≡ is_reapplication_of place u v }
{
    v.j == place && reads(u, v.k) || v.k == place && reads(u, v.j)
}

/// The clause "not both pairs", if the second one is a re-application.
#[tactic(auto, unfolding(enc_theory::specs::Cuts::no_reapplication_pair))]
fn push_no_reapplication_pair(
    alloc: Global,
    list: &mut ClauseList,
    place: u32,
    u: Slot,
    v: Slot,
) -> Result<(), AllocError>
    requires first { HasVar list.old.vars u }
    requires second { HasVar list.old.vars v }
    ensures { OnOk result (Appends list.old list.new (no_reapplication_pair place u v)) }
{
    if is_reapplication(place, u, v) {
        return push_not_both(alloc, list, u, v);
    }
    Ok(())
}

/// The clauses of a pair with those of a later step that have the place.
#[tactic(auto, using(clause_core::specs::RangeLaws::loops), unfolding(enc_theory::specs::Cuts::no_reapplication_slot))]
fn push_no_reapplication_slot(
    alloc: Global,
    list: &mut ClauseList,
    place: u32,
    u: Slot,
    reading: &[Slot],
) -> Result<(), AllocError>
    requires first { HasVar list.old.vars u }
    requires reading { All (HasVar list.old.vars) reading.now }
    ensures { OnOk result (Appends list.old list.new (no_reapplication_slot place reading.now u)) }
{
    for v in reading {
        push_no_reapplication_pair(alloc, list, place, u, *v)?;
    }
    Ok(())
}

/// The clauses of all pairs of a step with those of a later one.
#[tactic(auto, using(clause_core::specs::RangeLaws::loops))]
fn push_no_reapplication_slots(
    alloc: Global,
    list: &mut ClauseList,
    place: u32,
    slots: &[Slot],
    reading: &[Slot],
) -> Result<(), AllocError>
    requires slots { All (HasVar list.old.vars) slots.now }
    requires reading { All (HasVar list.old.vars) reading.now }
    ensures { OnOk result (Appends list.old list.new (flat_map (no_reapplication_slot place reading.now) slots.now)) }
{
    for u in slots {
        push_no_reapplication_slot(alloc, list, place, *u, reading)?;
    }
    Ok(())
}

/// Keeps the pair if it has the place.
#[tactic(auto, unfolding(enc_theory::specs::Cuts::has_place))]
fn keep_reading(kept: &mut Vec<Slot>, place: u32, slot: Slot) -> Result<(), AllocError>
    ensures { OnOk result (kept.new.items ≡ kept.old.items ++ (if has_place place slot then slot ∷ [] else [])) }
{
    if !reads(slot, place) {
        return Ok(());
    }
    kept.push(slot)?;
    Ok(())
}

/// The pairs that have the place.
#[tactic(auto, using(crate::proofs::Pieces::keeping))]
fn reading(alloc: Global, place: u32, slots: &[Slot]) -> Result<Vec<Slot>, AllocError>
    ensures { IfOk result (λ kept. kept.items ≡ reading_of place slots.now) }
{
    let mut kept = Vec::new(alloc);
    for slot in slots {
        keep_reading(&mut kept, place, *slot)?;
    }
    Ok(kept)
}

/// The clauses of a step and a later one.
#[tactic(auto, using(crate::proofs::Pieces::keeping), unfolding(enc_theory::specs::Cuts::no_reapplication_later))]
fn push_no_reapplication_later(
    alloc: Global,
    list: &mut ClauseList,
    step: &StepSlots,
    later: &StepSlots,
) -> Result<(), AllocError>
    requires step { HaveVars list.old.vars step.now }
    requires later { HaveVars list.old.vars later.now }
    ensures { OnOk result (Appends list.old list.new (no_reapplication_later step.now later.now)) }
{
    let reading = reading(alloc, step.place(), later.slots())?;
    push_no_reapplication_slots(alloc, list, step.place(), step.slots(), &reading)
}

/// The clauses of a step and all later ones.
#[tactic(auto, using(clause_core::specs::RangeLaws::loops))]
fn push_no_reapplication_by(
    alloc: Global,
    list: &mut ClauseList,
    step: &StepSlots,
    later: &[StepSlots],
) -> Result<(), AllocError>
    requires step { HaveVars list.old.vars step.now }
    requires later { All (HaveVars list.old.vars) later.now }
    ensures { OnOk result (Appends list.old list.new (flat_map (no_reapplication_later step.now) later.now)) }
{
    for other in later {
        push_no_reapplication_later(alloc, list, step, other)?;
    }
    Ok(())
}

/// The clauses of all steps.
#[tactic(auto, using(crate::proofs::Walks::no_reapplication_walk))]
fn push_no_reapplication_all(
    alloc: Global,
    list: &mut ClauseList,
    steps: &[StepSlots],
) -> Result<(), AllocError>
    requires slots { All (HaveVars list.old.vars) steps.now }
    ensures { OnOk result (Appends list.old list.new (no_reapplication_all steps.now)) }
{
    let mut left = steps;
    while let Some((step, later)) = left.split_first() {
        push_no_reapplication_by(alloc, list, step, later)?;
        left = later;
    }
    Ok(())
}

/// Appends the no-re-application clauses, if the basis allows them (`CutSet`).
#[tactic(auto, unfolding(enc_theory::specs::Cuts::no_reapplication))]
pub(crate) fn push_no_reapplication(
    alloc: Global,
    list: &mut ClauseList,
    basis: Basis,
    steps: &[StepSlots],
) -> Result<(), AllocError>
    requires slots { All (HaveVars list.old.vars) steps.now }
    ensures { OnOk result (Appends list.old list.new (no_reapplication basis steps.now)) }
{
    if basis.reapply_closed() {
        return push_no_reapplication_all(alloc, list, steps);
    }
    Ok(())
}
