//! The clauses of a step on an edge: the edge's variables say which steps differ, a step that differs has an operand
//! that does, and the only reader of the edge's input differs.
ghost use Rattle.std.specs.Prelude.{◌≡◌, ℕ, ◌+◌, ◌<◌, ◌≤◌, ◌++◌, not, All, OnOk, IfOk, if◌then◌else◌};
ghost use Rattle.std.specs.List.{flat_map};
ghost use Rattle.clause_core.specs.Clauses.{Appends, IsWithin};
ghost use Rattle.enc_base.specs.Room.{HasRoom, IsPlace, IsSlot, HasSlots};
ghost use Rattle.enc_cuts.specs.Vars.{HasVar};
ghost use Rattle.strong_theory.specs.Strong.{d_var as d_var_of, differs as differs_of, value_differs, values_differ};
ghost use Rattle.strong_theory.specs.Strong.{operand_differs, other_readers, sole_reader, or_others as or_others_of};
ghost use Rattle.strong_theory.specs.Strong.{edge_step};
ghost use Rattle.enc_strong.specs.Room.{HasEdge};

use clause_core::{ClauseList, RawLit};
use enc_base::{StepSlots, x_is};
use enc_cuts::{push_readers, reads};
use enc_theory::{Dimensions, Slot};
use std::alloc::{AllocError, Global};
use strong_theory::Edge;

/// An edge, and the number of the variable before its own.
#[derive(Clone, Copy)]
pub(crate) struct EdgeVars {
    pub edge: Edge,
    pub before: u32,
}

/// Whether two bits are different.
fn different(a: bool, b: bool) -> bool
    ensures { result ≡ (if a then not b else b) }
{
    if a { !b } else { b }
}

/// The variable that step `i` differs on the edge.
#[tactic(auto, unfolding(strong_theory::specs::Strong::d_var))]
fn d_var(z: Dimensions, before: u32, i: u32) -> u32
    requires place { IsPlace z i }
    requires few { before + z.r < 1000000000 }
    ensures value { result ≡ d_var_of z before i }
    ensures within { (before < result) × (result ≤ before + z.r) }
{
    before + (i - z.n)
}

/// The literal, or constant, that place `p` differs on the edge.
#[tactic(auto, unfolding(strong_theory::specs::Strong::differs, clause_core::specs::Clauses::IsWithin))]
fn differs(z: Dimensions, at: EdgeVars, p: u32) -> RawLit
    requires place { p < z.n + 1 + z.r }
    requires few { at.before + z.r < 1000000000 }
    ensures value { result ≡ differs_of z at.edge at.before p }
    ensures within { (vars : ℕ) → at.before + z.r ≤ vars → IsWithin vars result }
{
    if p <= z.n {
        RawLit::Fixed(p == at.edge.input)
    } else {
        RawLit::Var(d_var(z, at.before, p), true)
    }
}

/// The clause that the step differs exactly if `a` and `b` do, unless it has other values on the edge's rows.
#[tactic(auto, unfolding(strong_theory::specs::Strong::value_differs))]
fn push_value_differs(
    alloc: Global,
    list: &mut ClauseList,
    z: Dimensions,
    at: EdgeVars,
    i: u32,
    a: bool,
    b: bool,
) -> Result<(), AllocError>
    requires room { HasRoom z list.old.vars }
    requires edge { HasEdge z list.old.vars at.edge at.before }
    requires place { IsPlace z i }
    ensures { OnOk result (Appends list.old list.new (value_differs z at.edge at.before i a b)) }
{
    list.push(
        alloc,
        &[
            x_is(z, i, at.edge.low, !a),
            x_is(z, i, at.edge.high, !b),
            RawLit::Var(d_var(z, at.before, i), different(a, b)),
        ],
    )
}

/// The four clauses of a step's values.
#[tactic(auto, unfolding(strong_theory::specs::Strong::values_differ))]
fn push_values_differ(
    alloc: Global,
    list: &mut ClauseList,
    z: Dimensions,
    at: EdgeVars,
    i: u32,
) -> Result<(), AllocError>
    requires room { HasRoom z list.old.vars }
    requires edge { HasEdge z list.old.vars at.edge at.before }
    requires place { IsPlace z i }
    ensures { OnOk result (Appends list.old list.new (values_differ z at.edge at.before i)) }
{
    push_value_differs(alloc, list, z, at, i, false, false)?;
    push_value_differs(alloc, list, z, at, i, false, true)?;
    push_value_differs(alloc, list, z, at, i, true, false)?;
    push_value_differs(alloc, list, z, at, i, true, true)
}

/// The clause that a step with this pair that differs has an operand that does.
#[tactic(auto, unfolding(strong_theory::specs::Strong::operand_differs))]
fn push_operand_differs(
    alloc: Global,
    list: &mut ClauseList,
    z: Dimensions,
    at: EdgeVars,
    i: u32,
    slot: Slot,
) -> Result<(), AllocError>
    requires room { HasRoom z list.old.vars }
    requires edge { HasEdge z list.old.vars at.edge at.before }
    requires place { IsPlace z i }
    requires slot { IsSlot list.old.vars i slot }
    ensures { OnOk result (Appends list.old list.new (operand_differs z at.edge at.before i slot)) }
{
    list.push(
        alloc,
        &[
            RawLit::Var(d_var(z, at.before, i), false),
            RawLit::Var(slot.var, false),
            differs(z, at, slot.j),
            differs(z, at, slot.k),
        ],
    )
}

/// The clauses of all pairs of a step.
#[tactic(auto, using(clause_core::specs::RangeLaws::loops))]
fn push_operands_differ(
    alloc: Global,
    list: &mut ClauseList,
    z: Dimensions,
    at: EdgeVars,
    step: &StepSlots,
) -> Result<(), AllocError>
    requires room { HasRoom z list.old.vars }
    requires edge { HasEdge z list.old.vars at.edge at.before }
    requires step { HasSlots z list.old.vars step.now }
    ensures { OnOk result (Appends list.old list.new
        (flat_map (operand_differs z at.edge at.before step.now.place) step.now.slots)) }
{
    for slot in step.slots() {
        push_operand_differs(alloc, list, z, at, step.place(), *slot)?;
    }
    Ok(())
}

/// Adds those of a step's pairs with an input, unless it is step `i`.
#[tactic(auto, unfolding(strong_theory::specs::Strong::other_readers))]
fn push_other_readers(
    raws: &mut Vec<RawLit>,
    i: u32,
    j: u32,
    step: &StepSlots,
) -> Result<(), AllocError>
    ensures { OnOk result (raws.new.items ≡ raws.old.items ++ other_readers i j step.now) }
{
    if step.place() == i {
        return Ok(());
    }
    push_readers(raws, j, step)
}

/// Adds those of all steps but `i`.
#[tactic(auto, using(clause_core::specs::RangeLaws::loops))]
fn push_all_other_readers(
    raws: &mut Vec<RawLit>,
    i: u32,
    j: u32,
    steps: &[StepSlots],
) -> Result<(), AllocError>
    ensures { OnOk result (raws.new.items ≡ raws.old.items ++ flat_map (other_readers i j) steps.now) }
{
    for step in steps {
        push_other_readers(raws, i, j, step)?;
    }
    Ok(())
}

/// The literals that step `i` differs, or another step has a pair with the edge's input.
#[tactic(auto, unfolding(strong_theory::specs::Strong::or_others))]
fn or_others(
    alloc: Global,
    z: Dimensions,
    steps: &[StepSlots],
    at: EdgeVars,
    i: u32,
) -> Result<Vec<RawLit>, AllocError>
    requires place { IsPlace z i }
    requires few { at.before + z.r < 1000000000 }
    ensures { IfOk result (λ raws. raws.items ≡ or_others_of z steps.now at.edge at.before i) }
{
    let mut raws = vec![in alloc; RawLit::Var(d_var(z, at.before, i), true)]?;
    push_all_other_readers(&mut raws, i, at.edge.input, steps)?;
    Ok(raws)
}

/// If the pair has the input: the clause that the step doesn't have it or one of the literals `rest` is true.
#[tactic(auto, unfolding(strong_theory::specs::Strong::sole_reader))]
fn push_sole_reader(
    alloc: Global,
    list: &mut ClauseList,
    j: u32,
    rest: &[RawLit],
    slot: Slot,
) -> Result<(), AllocError>
    requires slot { HasVar list.old.vars slot }
    requires rest { All (IsWithin list.old.vars) rest.now }
    ensures { OnOk result (Appends list.old list.new (sole_reader j rest.now slot)) }
{
    if !reads(slot, j) {
        return Ok(());
    }
    let mut raws = vec![in alloc; RawLit::Var(slot.var, false)]?;
    raws.extend_from_slice(rest)?;
    list.push(alloc, &raws)
}

/// The clauses of all pairs of a step.
#[tactic(auto, using(clause_core::specs::RangeLaws::loops))]
fn push_sole_readers(
    alloc: Global,
    list: &mut ClauseList,
    j: u32,
    rest: &[RawLit],
    slots: &[Slot],
) -> Result<(), AllocError>
    requires slots { All (HasVar list.old.vars) slots.now }
    requires rest { All (IsWithin list.old.vars) rest.now }
    ensures { OnOk result (Appends list.old list.new (flat_map (sole_reader j rest.now) slots.now)) }
{
    for slot in slots {
        push_sole_reader(alloc, list, j, rest, *slot)?;
    }
    Ok(())
}

/// Appends the clauses of a step on the edge.
#[tactic(auto, using(crate::proofs::Within::families), // for the prover
unfolding(strong_theory::specs::Strong::edge_step))]
pub(crate) fn push_edge_step(
    alloc: Global,
    list: &mut ClauseList,
    z: Dimensions,
    steps: &[StepSlots],
    at: EdgeVars,
    step: &StepSlots,
) -> Result<(), AllocError>
    requires room { HasRoom z list.old.vars }
    requires edge { HasEdge z list.old.vars at.edge at.before }
    requires steps { All (HasSlots z list.old.vars) steps.now }
    requires step { HasSlots z list.old.vars step.now }
    ensures { OnOk result (Appends list.old list.new (edge_step z steps.now at.edge at.before step.now)) }
{
    let rest = or_others(alloc, z, steps, at, step.place())?;
    push_values_differ(alloc, list, z, at, step.place())?;
    push_operands_differ(alloc, list, z, at, step)?;
    push_sole_readers(alloc, list, at.edge.input, &rest, step.slots())
}
