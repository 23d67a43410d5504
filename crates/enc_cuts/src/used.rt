//! All steps used: each step drives an output or is read by a later step.
ghost use Rattle.std.specs.Prelude.{◌≡◌, ◌++◌, All, OnOk};
ghost use Rattle.std.specs.List.{flat_map};
ghost use Rattle.clause_core.specs.Clauses.{Appends};
ghost use Rattle.enc_theory.specs.Cuts.{reader, readers, used_by, used};
ghost use Rattle.enc_base.specs.Room.{HasRoom, HasSlots};

use crate::slots::{push_drivers, reads};
use clause_core::{ClauseList, RawLit};
use enc_base::StepSlots;
use enc_theory::{Dimensions, Slot};
use std::alloc::{AllocError, Global};

/// Adds the pair's selection literal if the pair has the place.
#[tactic(auto, unfolding(enc_theory::specs::Cuts::reader, enc_theory::specs::Families::chosen))]
fn push_reader(raws: &mut Vec<RawLit>, place: u32, slot: Slot) -> Result<(), AllocError>
    ensures { OnOk result (raws.new.items ≡ raws.old.items ++ reader place slot) }
{
    if !reads(slot, place) {
        return Ok(());
    }
    raws.push(RawLit::Var(slot.var, true))?;
    Ok(())
}

/// Adds the selection literals of a step's pairs with the place.
#[tactic(auto, using(clause_core::specs::RangeLaws::loops), unfolding(enc_theory::specs::Cuts::readers))]
pub fn push_readers(raws: &mut Vec<RawLit>, place: u32, step: &StepSlots) -> Result<(), AllocError>
    ensures { OnOk result (raws.new.items ≡ raws.old.items ++ readers place step.now) }
{
    for slot in step.slots() {
        push_reader(raws, place, *slot)?;
    }
    Ok(())
}

/// Adds the selection literals of all later steps' pairs with the place.
#[tactic(auto, using(clause_core::specs::RangeLaws::loops))]
fn push_all_readers(
    raws: &mut Vec<RawLit>,
    place: u32,
    steps: &[StepSlots],
) -> Result<(), AllocError>
    ensures { OnOk result (raws.new.items ≡ raws.old.items ++ flat_map (readers place) steps.now) }
{
    for step in steps {
        push_readers(raws, place, step)?;
    }
    Ok(())
}

/// The clause that a step drives an output or is read by one of the later steps.
#[tactic(auto, unfolding(enc_theory::specs::Cuts::used_by))]
fn push_used_by(
    alloc: Global,
    list: &mut ClauseList,
    z: Dimensions,
    step: &StepSlots,
    later: &[StepSlots],
) -> Result<(), AllocError>
    requires room { HasRoom z list.old.vars }
    requires step { HasSlots z list.old.vars step.now }
    requires later { All (HasSlots z list.old.vars) later.now }
    ensures { OnOk result (Appends list.old list.new (used_by z step.now later.now)) }
{
    let mut raws = Vec::new(alloc);
    push_drivers(&mut raws, z, step.place())?;
    push_all_readers(&mut raws, step.place(), later)?;
    list.push(alloc, &raws)
}

/// Appends the clauses that each step drives an output or is read.
#[tactic(auto, using(crate::proofs::Walks::used_walk))]
pub(crate) fn push_used(
    alloc: Global,
    list: &mut ClauseList,
    z: Dimensions,
    steps: &[StepSlots],
) -> Result<(), AllocError>
    requires room { HasRoom z list.old.vars }
    requires slots { All (HasSlots z list.old.vars) steps.now }
    ensures { OnOk result (Appends list.old list.new (used z steps.now)) }
{
    let mut left = steps;
    while let Some((step, later)) = left.split_first() {
        push_used_by(alloc, list, z, step, later)?;
        left = later;
    }
    Ok(())
}
