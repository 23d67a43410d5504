//! Symmetric inputs are read in order.
ghost use Rattle.std.specs.Prelude.{◌≡◌, ◌≤◌, ◌<◌, ◌++◌, [], All, OnOk};
ghost use Rattle.std.specs.List.{flat_map};
ghost use Rattle.enc_theory.specs.Cuts.{may_exchange as may_exchange_of, reader_without, readers_without};
ghost use Rattle.enc_theory.specs.Cuts.{exchange_slot, exchange_steps, exchange_pair, exchange_with, exchange};
ghost use Rattle.clause_core.specs.Clauses.{Appends, IsWithin};
ghost use Rattle.enc_cuts.specs.Vars.{HasVar, HaveVars};

use crate::slots::reads_without;
use clause_core::{ClauseList, RawLit};
use enc_base::StepSlots;
use enc_theory::Slot;
use std::alloc::{AllocError, Global};
use tt_core::{Spec, symmetric};

/// Whether the inputs `p` and `q`, numbered from 1, are symmetric: exchanging them leaves the tables unchanged.
#[tactic(auto, using(crate::proofs::Pieces::exchanging))]
pub fn may_exchange(spec: &Spec, p: u32, q: u32) -> bool
    requires { (1 ≤ p) × (p < q) × (q ≤ spec.now.n) }
    ensures { result ≡ may_exchange_of spec.now p q }
{
    symmetric(spec, p, q)
}

/// Adds the pair's selection literal if the pair has `p` and not `q`.
#[tactic(auto, unfolding(enc_theory::specs::Cuts::reader_without, enc_theory::specs::Families::chosen))]
fn push_reader_without(raws: &mut Vec<RawLit>, p: u32, q: u32, slot: Slot) -> Result<(), AllocError>
    ensures { OnOk result (raws.new.items ≡ raws.old.items ++ reader_without p q slot) }
{
    if !reads_without(p, q, slot) {
        return Ok(());
    }
    raws.push(RawLit::Var(slot.var, true))?;
    Ok(())
}

/// Adds the selection literals of a step's pairs with `p` and not `q`.
#[tactic(auto, using(clause_core::specs::RangeLaws::loops), unfolding(enc_theory::specs::Cuts::readers_without))]
fn push_readers_without(
    raws: &mut Vec<RawLit>,
    p: u32,
    q: u32,
    step: &StepSlots,
) -> Result<(), AllocError>
    ensures { OnOk result (raws.new.items ≡ raws.old.items ++ readers_without p q step.now) }
{
    for slot in step.slots() {
        push_reader_without(raws, p, q, *slot)?;
    }
    Ok(())
}

/// If the pair has `q` and not `p`: the clause that the step doesn't have it or one of the literals `before` is
/// true.
#[tactic(auto, unfolding(enc_theory::specs::Cuts::exchange_slot))]
fn push_exchange_slot(
    alloc: Global,
    list: &mut ClauseList,
    p: u32,
    q: u32,
    before: &[RawLit],
    slot: Slot,
) -> Result<(), AllocError>
    requires slot { HasVar list.old.vars slot }
    requires before { All (IsWithin list.old.vars) before.now }
    ensures { OnOk result (Appends list.old list.new (exchange_slot p q before.now slot)) }
{
    if !reads_without(q, p, slot) {
        return Ok(());
    }
    let mut raws = vec![in alloc; RawLit::Var(slot.var, false)]?;
    raws.extend_from_slice(before)?;
    list.push(alloc, &raws)
}

/// The clauses of a step.
#[tactic(auto, using(clause_core::specs::RangeLaws::loops))]
fn push_exchange_slots(
    alloc: Global,
    list: &mut ClauseList,
    p: u32,
    q: u32,
    before: &[RawLit],
    slots: &[Slot],
) -> Result<(), AllocError>
    requires slots { All (HasVar list.old.vars) slots.now }
    requires before { All (IsWithin list.old.vars) before.now }
    ensures { OnOk result (Appends list.old list.new (flat_map (exchange_slot p q before.now) slots.now)) }
{
    for slot in slots {
        push_exchange_slot(alloc, list, p, q, before, *slot)?;
    }
    Ok(())
}

/// The clauses of all steps for two inputs.
#[tactic(auto, using(crate::proofs::Walks::exchange_walk))]
pub fn push_exchange_steps(
    alloc: Global,
    list: &mut ClauseList,
    p: u32,
    q: u32,
    steps: &[StepSlots],
) -> Result<(), AllocError>
    requires slots { All (HaveVars list.old.vars) steps.now }
    ensures { OnOk result (Appends list.old list.new (exchange_steps p q [] steps.now)) }
{
    let mut before = Vec::new(alloc);
    let mut left = steps;
    while let Some((step, later)) = left.split_first() {
        push_exchange_slots(alloc, list, p, q, &before, step.slots())?;
        push_readers_without(&mut before, p, q, step)?;
        left = later;
    }
    Ok(())
}

/// The clauses for two inputs, if they are symmetric.
#[tactic(auto, unfolding(enc_theory::specs::Cuts::exchange_pair))]
fn push_exchange_pair(
    alloc: Global,
    list: &mut ClauseList,
    spec: &Spec,
    p: u32,
    q: u32,
    steps: &[StepSlots],
) -> Result<(), AllocError>
    requires inputs { (1 ≤ p) × (p < q) × (q ≤ spec.now.n) }
    requires slots { All (HaveVars list.old.vars) steps.now }
    ensures { OnOk result (Appends list.old list.new (exchange_pair spec.now steps.now p q)) }
{
    if may_exchange(spec, p, q) {
        return push_exchange_steps(alloc, list, p, q, steps);
    }
    Ok(())
}

/// The clauses for an input and all later ones.
#[tactic(auto, using(crate::proofs::Pieces::inputs), unfolding(enc_theory::specs::Cuts::exchange_with))]
fn push_exchange_with(
    alloc: Global,
    list: &mut ClauseList,
    spec: &Spec,
    p: u32,
    steps: &[StepSlots],
) -> Result<(), AllocError>
    requires input { (1 ≤ p) × (p ≤ spec.now.n) }
    requires slots { All (HaveVars list.old.vars) steps.now }
    ensures { OnOk result (Appends list.old list.new (exchange_with spec.now steps.now p)) }
{
    let n = spec.n();
    for q in p + 1..n + 1 {
        push_exchange_pair(alloc, list, spec, p, q, steps)?;
    }
    Ok(())
}

/// Appends the clauses that of two symmetric inputs p < q, no step reads q without p before some step has read p
/// without q.
#[tactic(auto, using(clause_core::specs::RangeLaws::loops), unfolding(enc_theory::specs::Cuts::exchange))]
pub(crate) fn push_exchange(
    alloc: Global,
    list: &mut ClauseList,
    spec: &Spec,
    steps: &[StepSlots],
) -> Result<(), AllocError>
    requires slots { All (HaveVars list.old.vars) steps.now }
    ensures { OnOk result (Appends list.old list.new (exchange spec.now steps.now)) }
{
    for p in 1..spec.n() + 1 {
        push_exchange_with(alloc, list, spec, p, steps)?;
    }
    Ok(())
}
