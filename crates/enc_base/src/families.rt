//! The clauses that define chains.
ghost use Rattle.std.specs.Prelude.{◌+◌, ◌^◌, ◌<◌, ◌≤◌, All, OnOk};
ghost use Rattle.clause_core.specs.Clauses.{Appends};
ghost use Rattle.enc_theory.specs.Families.{out_exists_at, out_exists, out_value_is, out_value, out_values_of};
ghost use Rattle.enc_theory.specs.Families.{out_values_at, out_values, pair_exists_at, pair_exists, operator_raw};
ghost use Rattle.enc_theory.specs.Families.{operator_clause, operators_at, operators, common};
ghost use Rattle.enc_base.specs.Room.{HasRoom, IsPlace, HasSlots, HasPairs, AreFor};

use crate::layout::StepSlots;
use crate::values::push_values;
use crate::vars::{f_var, g_var, rows, x_is};
use clause_core::{ClauseList, RawLit};
use enc_theory::Dimensions;
use op_basis::{Basis, Op};
use std::alloc::{AllocError, Global};
use tt_core::{Cell, Spec, row};

/// The clause that some step drives output `h`.
#[tactic(auto, using(clause_core::specs::RangeLaws::loops), // for the prover
unfolding(enc_theory::specs::Families::out_exists_at, enc_theory::specs::Families::driver))]
fn push_out_exists_at(
    alloc: Global,
    list: &mut ClauseList,
    z: Dimensions,
    h: u32,
) -> Result<(), AllocError>
    requires room { HasRoom z list.old.vars }
    requires output { (1 ≤ h) × (h ≤ z.m) }
    ensures { OnOk result (Appends list.old list.new (out_exists_at z h)) }
{
    let mut raws = Vec::new(alloc);
    for i in z.n + 1..z.n + 1 + z.r {
        raws.push(RawLit::Var(g_var(z, h, i), true))?;
    }
    list.push(alloc, &raws)
}

/// Appends the clauses that some step drives each output.
#[tactic(auto, using(clause_core::specs::RangeLaws::loops), unfolding(enc_theory::specs::Families::out_exists))]
pub fn push_out_exists(
    alloc: Global,
    list: &mut ClauseList,
    z: Dimensions,
) -> Result<(), AllocError>
    requires { HasRoom z list.old.vars }
    ensures { OnOk result (Appends list.old list.new (out_exists z)) }
{
    for h in 1..z.m + 1 {
        push_out_exists_at(alloc, list, z, h)?;
    }
    Ok(())
}

/// The clause that step `i` has the bit on row `t` if it drives output `h`.
#[tactic(auto, unfolding(enc_theory::specs::Families::out_value_is))]
fn push_out_value_is(
    alloc: Global,
    list: &mut ClauseList,
    z: Dimensions,
    h: u32,
    i: u32,
    t: u32,
    bit: bool,
) -> Result<(), AllocError>
    requires room { HasRoom z list.old.vars }
    requires output { (1 ≤ h) × (h ≤ z.m) }
    requires place { IsPlace z i }
    requires row { t < 2 ^ z.n }
    ensures { OnOk result (Appends list.old list.new (out_value_is z h i t bit)) }
{
    list.push(
        alloc,
        &[RawLit::Var(g_var(z, h, i), false), x_is(z, i, t, bit)],
    )
}

/// The clause of a cell that isn't a don't-care.
#[tactic(auto, unfolding(enc_theory::specs::Families::out_value, enc_theory::specs::Families::out_value_at))]
fn push_out_value(
    alloc: Global,
    list: &mut ClauseList,
    spec: &Spec,
    z: Dimensions,
    h: u32,
    i: u32,
    t: u32,
) -> Result<(), AllocError>
    requires room { HasRoom z list.old.vars }
    requires tables { AreFor z spec.now }
    requires output { (1 ≤ h) × (h ≤ z.m) }
    requires place { IsPlace z i }
    requires row { t < 2 ^ z.n }
    ensures { OnOk result (Appends list.old list.new (out_value spec.now z h i t)) }
{
    match row(spec, h, t) {
        Cell::Free => Ok(()),
        Cell::Zero => push_out_value_is(alloc, list, z, h, i, t, false),
        Cell::One => push_out_value_is(alloc, list, z, h, i, t, true),
    }
}

/// The clauses of all rows.
#[tactic(auto, using(clause_core::specs::RangeLaws::loops), unfolding(enc_theory::specs::Families::out_values_of))]
fn push_out_values_of(
    alloc: Global,
    list: &mut ClauseList,
    spec: &Spec,
    z: Dimensions,
    h: u32,
    i: u32,
) -> Result<(), AllocError>
    requires room { HasRoom z list.old.vars }
    requires tables { AreFor z spec.now }
    requires output { (1 ≤ h) × (h ≤ z.m) }
    requires place { IsPlace z i }
    ensures { OnOk result (Appends list.old list.new (out_values_of spec.now z h i)) }
{
    for t in 0..rows(z) {
        push_out_value(alloc, list, spec, z, h, i, t)?;
    }
    Ok(())
}

/// The clauses of all steps.
#[tactic(auto, using(clause_core::specs::RangeLaws::loops), unfolding(enc_theory::specs::Families::out_values_at))]
fn push_out_values_at(
    alloc: Global,
    list: &mut ClauseList,
    spec: &Spec,
    z: Dimensions,
    h: u32,
) -> Result<(), AllocError>
    requires room { HasRoom z list.old.vars }
    requires tables { AreFor z spec.now }
    requires output { (1 ≤ h) × (h ≤ z.m) }
    ensures { OnOk result (Appends list.old list.new (out_values_at spec.now z h)) }
{
    for i in z.n + 1..z.n + 1 + z.r {
        push_out_values_of(alloc, list, spec, z, h, i)?;
    }
    Ok(())
}

/// Appends the clauses that the driver of each output has the values of its cells.
#[tactic(auto, using(clause_core::specs::RangeLaws::loops), unfolding(enc_theory::specs::Families::out_values))]
pub fn push_out_values(
    alloc: Global,
    list: &mut ClauseList,
    spec: &Spec,
    z: Dimensions,
) -> Result<(), AllocError>
    requires room { HasRoom z list.old.vars }
    requires tables { AreFor z spec.now }
    ensures { OnOk result (Appends list.old list.new (out_values spec.now z)) }
{
    for h in 1..z.m + 1 {
        push_out_values_at(alloc, list, spec, z, h)?;
    }
    Ok(())
}

/// The clause that a step has some pair.
#[tactic(auto, using(clause_core::specs::RangeLaws::loops), // for the prover
unfolding(enc_theory::specs::Families::pair_exists_at, enc_theory::specs::Families::chosen))]
fn push_pair_exists_at(
    alloc: Global,
    list: &mut ClauseList,
    step: &StepSlots,
) -> Result<(), AllocError>
    requires { HasPairs list.old.vars step.now }
    ensures { OnOk result (Appends list.old list.new (pair_exists_at step.now)) }
{
    let mut raws = Vec::new(alloc);
    for slot in step.slots() {
        raws.push(RawLit::Var(slot.var, true))?;
    }
    list.push(alloc, &raws)
}

/// Appends the clauses that each step has some pair.
#[tactic(auto, using(clause_core::specs::RangeLaws::loops), unfolding(enc_theory::specs::Families::pair_exists))]
fn push_pair_exists(
    alloc: Global,
    list: &mut ClauseList,
    steps: &[StepSlots],
) -> Result<(), AllocError>
    requires { All (HasPairs list.old.vars) steps.now }
    ensures { OnOk result (Appends list.old list.new (pair_exists steps.now)) }
{
    for step in steps {
        push_pair_exists_at(alloc, list, step)?;
    }
    Ok(())
}

/// The clause that step `i` doesn't have the operator `op`, unless it is in the basis.
#[tactic(auto, unfolding(enc_theory::specs::Families::operator_clause, enc_theory::specs::Families::operator_raw))]
fn push_operator_clause(
    alloc: Global,
    list: &mut ClauseList,
    basis: Basis,
    z: Dimensions,
    i: u32,
    op: Op,
) -> Result<(), AllocError>
    requires room { HasRoom z list.old.vars }
    requires place { IsPlace z i }
    ensures { OnOk result (Appends list.old list.new (operator_clause basis z i op)) }
{
    if basis.contains(op) {
        return Ok(());
    }
    list.push(
        alloc,
        &[
            RawLit::Var(f_var(z, i, false, false), !op.apply(false, false)),
            RawLit::Var(f_var(z, i, false, true), !op.apply(false, true)),
            RawLit::Var(f_var(z, i, true, false), !op.apply(true, false)),
            RawLit::Var(f_var(z, i, true, true), !op.apply(true, true)),
        ],
    )
}

/// The clauses of all operators.
#[tactic(auto, using(clause_core::specs::RangeLaws::loops), unfolding(enc_theory::specs::Families::operators_at))]
fn push_operators_at(
    alloc: Global,
    list: &mut ClauseList,
    basis: Basis,
    z: Dimensions,
    i: u32,
) -> Result<(), AllocError>
    requires room { HasRoom z list.old.vars }
    requires place { IsPlace z i }
    ensures { OnOk result (Appends list.old list.new (operators_at basis z i)) }
{
    for word in 0..16u8 {
        push_operator_clause(alloc, list, basis, z, i, Op::new(word))?;
    }
    Ok(())
}

/// Appends the clauses that each step's operator is in the basis.
#[tactic(auto, using(clause_core::specs::RangeLaws::loops), unfolding(enc_theory::specs::Families::operators))]
pub fn push_operators(
    alloc: Global,
    list: &mut ClauseList,
    basis: Basis,
    z: Dimensions,
) -> Result<(), AllocError>
    requires { HasRoom z list.old.vars }
    ensures { OnOk result (Appends list.old list.new (operators basis z)) }
{
    for i in z.n + 1..z.n + 1 + z.r {
        push_operators_at(alloc, list, basis, z, i)?;
    }
    Ok(())
}

/// Writes the clauses that define chains, for tables whose outputs are all live: some step drives each output
/// and has the values of its cells; each step has some pair, its operator's values at that pair, and an
/// operator of the basis.
#[tactic(auto, using(crate::proofs::Paired::families), unfolding(enc_theory::specs::Families::common))]
pub fn push_common(
    alloc: Global,
    list: &mut ClauseList,
    spec: &Spec,
    basis: Basis,
    z: Dimensions,
    steps: &[StepSlots],
) -> Result<(), AllocError>
    requires room { HasRoom z list.old.vars }
    requires tables { AreFor z spec.now }
    requires slots { All (HasSlots z list.old.vars) steps.now }
    ensures { OnOk result (Appends list.old list.new (common spec.now basis z steps.now)) }
{
    push_out_exists(alloc, list, z)?;
    push_out_values(alloc, list, spec, z)?;
    push_pair_exists(alloc, list, steps)?;
    push_values(alloc, list, z, steps)?;
    push_operators(alloc, list, basis, z)
}
