//! No re-application: no step combines a step with one of that step's operands.
ghost use Rattle.std.specs.Prelude.{◌<◌, ◌≤◌, ◌++◌, OnOk};
ghost use Rattle.std.specs.List.{flat_map};
ghost use Rattle.clause_core.specs.Clauses.{Appends, written};
ghost use Rattle.enc_theory.specs.Numbering.{places};
ghost use Rattle.enc_theory.specs.Select.{not_these, different, no_reapplication_operand, no_reapplication_operands};
ghost use Rattle.enc_theory.specs.Select.{no_reapplication_from, no_reapplication_after, no_reapplication_step};
ghost use Rattle.enc_theory.specs.Select.{no_reapplication_steps};
ghost use Rattle.enc_base.specs.Room.{IsPlace};
ghost use Rattle.enc_select.specs.Room.{HasChoices};

use crate::literals::choice;
use clause_core::ClauseList;
use enc_theory::{Side, Dimensions};
use op_basis::Basis;
use std::alloc::{AllocError, Global};

/// A step, its two operands, and a later step.
#[derive(Clone, Copy)]
struct Read {
    step: u32,
    first: u32,
    second: u32,
    later: u32,
}

/// The clause that the step doesn't have its operands or the later one doesn't have `first` and `second`.
fn push_not_both(
    alloc: Global,
    list: &mut ClauseList,
    z: Dimensions,
    read: Read,
    first: u32,
    second: u32,
) -> Result<(), AllocError>
    requires room { HasChoices z list.old.vars }
    requires places { IsPlace z read.step × IsPlace z read.later }
    requires operands { (1 ≤ read.first) × (read.first < read.step) × (1 ≤ read.second) × (read.second < read.step) }
    requires others { (1 ≤ first) × (first < read.later) × (1 ≤ second) × (second < read.later) }
    ensures { OnOk result (Appends list.old list.new
        (written (not_these z read.step read.first read.second ++ not_these z read.later first second))) }
{
    list.push(
        alloc,
        &[
            choice(z, Side::First, read.step, read.first, false),
            choice(z, Side::Second, read.step, read.second, false),
            choice(z, Side::First, read.later, first, false),
            choice(z, Side::Second, read.later, second, false),
        ],
    )
}

/// The clauses that exclude a later step with this operand and the step: with the step second, and also first
/// if operands aren't ordered.
#[tactic(auto, unfolding(enc_theory::specs::Select::no_reapplication_operand))]
fn push_no_reapplication_operand(
    alloc: Global,
    list: &mut ClauseList,
    ordered: bool,
    z: Dimensions,
    read: Read,
    operand: u32,
) -> Result<(), AllocError>
    requires room { HasChoices z list.old.vars }
    requires places { IsPlace z read.step × IsPlace z read.later × (read.step < read.later) }
    requires operands { (1 ≤ read.first) × (read.first < read.step) × (1 ≤ read.second) × (read.second < read.step) }
    requires operand { (1 ≤ operand) × (operand < read.step) }
    ensures { OnOk result (Appends list.old list.new
        (no_reapplication_operand ordered z read.step read.later read.first read.second operand)) }
{
    push_not_both(alloc, list, z, read, operand, read.step)?;
    if ordered {
        return Ok(());
    }
    push_not_both(alloc, list, z, read, read.step, operand)
}

/// The clauses for both operands of the step, each once, the smaller first.
#[tactic(auto, using(crate::proofs::Ranges::pieces))]
fn push_no_reapplication_different(
    alloc: Global,
    list: &mut ClauseList,
    ordered: bool,
    z: Dimensions,
    read: Read,
) -> Result<(), AllocError>
    requires room { HasChoices z list.old.vars }
    requires places { IsPlace z read.step × IsPlace z read.later × (read.step < read.later) }
    requires operands { (1 ≤ read.first) × (read.first < read.step) × (1 ≤ read.second) × (read.second < read.step) }
    ensures { OnOk result (Appends list.old list.new
        (flat_map (no_reapplication_operand ordered z read.step read.later read.first read.second)
        (different read.first read.second))) }
{
    if read.first == read.second {
        return push_no_reapplication_operand(alloc, list, ordered, z, read, read.first);
    }
    let low = read.first.min(read.second);
    let high = read.first.max(read.second);
    push_no_reapplication_operand(alloc, list, ordered, z, read, low)?;
    push_no_reapplication_operand(alloc, list, ordered, z, read, high)
}

/// The same; nothing if operands are ordered and these aren't.
#[tactic(auto, unfolding(enc_theory::specs::Select::no_reapplication_operands))]
fn push_no_reapplication_operands(
    alloc: Global,
    list: &mut ClauseList,
    ordered: bool,
    z: Dimensions,
    read: Read,
) -> Result<(), AllocError>
    requires room { HasChoices z list.old.vars }
    requires places { IsPlace z read.step × IsPlace z read.later × (read.step < read.later) }
    requires operands { (1 ≤ read.first) × (read.first < read.step) × (1 ≤ read.second) × (read.second < read.step) }
    ensures { OnOk result (Appends list.old list.new
        (no_reapplication_operands ordered z read.step read.later read.first read.second)) }
{
    if ordered && read.second < read.first {
        return Ok(());
    }
    push_no_reapplication_different(alloc, list, ordered, z, read)
}

/// The clauses of a step with a first operand, and a later step.
#[tactic(auto, using(crate::proofs::Ranges::loops), unfolding(enc_theory::specs::Select::no_reapplication_from))]
fn push_no_reapplication_from(
    alloc: Global,
    list: &mut ClauseList,
    ordered: bool,
    z: Dimensions,
    step: u32,
    later: u32,
    first: u32,
) -> Result<(), AllocError>
    requires room { HasChoices z list.old.vars }
    requires places { IsPlace z step × IsPlace z later × (step < later) }
    requires operand { (1 ≤ first) × (first < step) }
    ensures { OnOk result (Appends list.old list.new (no_reapplication_from ordered z step later first)) }
{
    for second in 1..step {
        let read = Read {
            step,
            first,
            second,
            later,
        };
        push_no_reapplication_operands(alloc, list, ordered, z, read)?;
    }
    Ok(())
}

/// The clauses of a step and a later one.
#[tactic(auto, using(crate::proofs::Ranges::loops), unfolding(enc_theory::specs::Select::no_reapplication_after))]
fn push_no_reapplication_after(
    alloc: Global,
    list: &mut ClauseList,
    ordered: bool,
    z: Dimensions,
    step: u32,
    later: u32,
) -> Result<(), AllocError>
    requires room { HasChoices z list.old.vars }
    requires places { IsPlace z step × IsPlace z later × (step < later) }
    ensures { OnOk result (Appends list.old list.new (no_reapplication_after ordered z step later)) }
{
    for first in 1..step {
        push_no_reapplication_from(alloc, list, ordered, z, step, later, first)?;
    }
    Ok(())
}

/// The clauses of a step and all later ones.
#[tactic(auto, using(crate::proofs::Ranges::later), unfolding(enc_theory::specs::Select::no_reapplication_step))]
fn push_no_reapplication_step(
    alloc: Global,
    list: &mut ClauseList,
    ordered: bool,
    z: Dimensions,
    i: u32,
) -> Result<(), AllocError>
    requires room { HasChoices z list.old.vars }
    requires place { IsPlace z i }
    ensures { OnOk result (Appends list.old list.new (no_reapplication_step ordered z i)) }
{
    for later in i + 1..z.n + 1 + z.r {
        push_no_reapplication_after(alloc, list, ordered, z, i, later)?;
    }
    Ok(())
}

/// The clauses of all steps.
#[tactic(auto, using(crate::proofs::Ranges::loops))]
fn push_no_reapplication_steps(
    alloc: Global,
    list: &mut ClauseList,
    ordered: bool,
    z: Dimensions,
) -> Result<(), AllocError>
    requires { HasChoices z list.old.vars }
    ensures { OnOk result (Appends list.old list.new (flat_map (no_reapplication_step ordered z) (places z))) }
{
    for i in z.n + 1..z.n + 1 + z.r {
        push_no_reapplication_step(alloc, list, ordered, z, i)?;
    }
    Ok(())
}

/// Appends the no-re-application clauses, if the basis allows them (`CutSet`).
#[tactic(auto, unfolding(enc_theory::specs::Select::no_reapplication_steps))]
pub(crate) fn push_no_reapplication(
    alloc: Global,
    list: &mut ClauseList,
    basis: Basis,
    z: Dimensions,
) -> Result<(), AllocError>
    requires { HasChoices z list.old.vars }
    ensures { OnOk result (Appends list.old list.new (no_reapplication_steps basis z)) }
{
    if basis.reapply_closed() {
        return push_no_reapplication_steps(alloc, list, basis.swap_closed(), z);
    }
    Ok(())
}
