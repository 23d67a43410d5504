//! Tests of pairs for the constraints, and literals made from pairs.
ghost use Rattle.std.specs.Prelude.{◌≡◌, ◌++◌, map, OnOk};
ghost use Rattle.clause_core.specs.Clauses.{Appends};
ghost use Rattle.enc_theory.specs.Numbering.{outputs};
ghost use Rattle.enc_theory.specs.Cuts.{drives, reads as reads_of, reads_without as reads_without_of, not_both};
ghost use Rattle.enc_cuts.specs.Vars.{HasVar};
ghost use Rattle.enc_base.specs.Room.{IsSmall, IsPlace};

use clause_core::{ClauseList, RawLit};
use enc_base::g_var;
use enc_theory::{Dimensions, Slot};
use std::alloc::{AllocError, Global};

/// Whether the place is an operand of the pair.
pub fn reads(slot: Slot, place: u32) -> bool
    ensures { result ≡ reads_of slot place }
{
    slot.j == place || slot.k == place
}

/// Whether `p` is an operand of the pair and `q` isn't.
pub(crate) fn reads_without(p: u32, q: u32, slot: Slot) -> bool
    ensures { result ≡ reads_without_of p q slot }
{
    reads(slot, p) && !reads(slot, q)
}

/// Adds for each output the literal that the step drives it.
#[tactic(auto, using(clause_core::specs::RangeLaws::loops), // for the prover
unfolding(enc_theory::specs::Cuts::drives, enc_theory::specs::Families::driver))]
pub fn push_drivers(raws: &mut Vec<RawLit>, z: Dimensions, place: u32) -> Result<(), AllocError>
    requires small { IsSmall z }
    requires place { IsPlace z place }
    ensures { OnOk result (raws.new.items ≡ raws.old.items ++ map (drives z place) (outputs z)) }
{
    for h in 1..z.m + 1 {
        raws.push(RawLit::Var(g_var(z, h, place), true))?;
    }
    Ok(())
}

/// The clause "not both pairs".
#[tactic(auto, unfolding(enc_theory::specs::Cuts::not_both))]
pub fn push_not_both(
    alloc: Global,
    list: &mut ClauseList,
    u: Slot,
    v: Slot,
) -> Result<(), AllocError>
    requires first { HasVar list.old.vars u }
    requires second { HasVar list.old.vars v }
    ensures { OnOk result (Appends list.old list.new (not_both u v)) }
{
    list.push(
        alloc,
        &[RawLit::Var(u.var, false), RawLit::Var(v.var, false)],
    )
}
