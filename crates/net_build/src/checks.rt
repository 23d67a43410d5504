//! The checks after parsing: whether a document is well formed, apart from combinational loops.

ghost use Rattle.std.specs.Prelude.{◌≡◌, ◌<◌, ◌≤◌, ◌^◌, [], ◌++◌, None, IfOk, IfErr, IfNone};
ghost use Rattle.net_theory.specs.Cost.{cost};
ghost use Rattle.net_document.specs.Listed.{IsWellListed};
ghost use Rattle.net_document.specs.Refusals.{repeated, missing, fault_of, IsRefusedListing};
ghost use Rattle.net_build.specs.Parts.{IsFaultless, IsRefusedBelow};

use crate::merging::total_cost;
use indexmap::IndexSet;
use net_core::{Name, NetError};
use net_document::Listed;
use std::alloc::{AllocError, Global};

/// Adds driven names to `set` and returns the first one that is already there.
#[tactic(auto, unfolding(net_document::specs::Refusals::repeated, net_theory::specs::Document::has))]
fn add_drivers(set: &mut IndexSet<Name>, names: &[Name]) -> Result<Option<Name>, AllocError>
    ensures first { IfOk result (λ name. name ≡ repeated set.old.keys names.now) }
    ensures set { IfOk result (λ name. IfNone name (set.new.keys ≡ set.old.keys ++ names.now)) }
{
    let mut left = names;
    while let Some((driver, rest)) = left.split_first() {
        if set.contains(driver) {
            return Ok(Some(driver.copied()?));
        }
        set.insert(driver.copied()?)?;
        left = rest;
    }
    Ok(None)
}

/// The first of `names` that isn't driven.
#[tactic(auto, unfolding(net_document::specs::Refusals::missing, net_theory::specs::Document::has))]
fn first_missing(driven: &IndexSet<Name>, names: &[Name]) -> Result<Option<Name>, AllocError>
    ensures { IfOk result (λ name. name ≡ missing driven.now.keys names.now) }
{
    let mut left = names;
    while let Some((name, rest)) = left.split_first() {
        if !driven.contains(name) {
            return Ok(Some(name.copied()?));
        }
        left = rest;
    }
    Ok(None)
}

/// The first undriven name that tables and latches read, or else the first undriven output.
#[tactic(auto, using(crate::proofs::Faults::missings))]
fn first_undriven(
    driven: &IndexSet<Name>,
    used: &[Name],
    outputs: &[Name],
) -> Result<Option<Name>, AllocError>
    ensures { IfOk result (λ name. name ≡ missing driven.now.keys (used.now ++ outputs.now)) }
{
    match first_missing(driven, used)? {
        Some(name) => Ok(Some(name)),
        None => first_missing(driven, outputs),
    }
}

/// Refuses an undriven name, if there is no other fault.
#[tactic(auto, unfolding(net_document::specs::Refusals::fault_of))]
fn check_used(driven: &IndexSet<Name>, listed: &Listed) -> Result<(), NetError>
    requires once { repeated [] listed.now.driven ≡ None }
    requires driven { driven.now.keys ≡ listed.now.driven }
    ensures good { IfOk result (λ _. IsFaultless listed.now) }
    ensures refused { IfErr result (IsRefusedBelow listed.now) }
{
    match first_undriven(driven, &listed.used, &listed.document.outputs)? {
        Some(name) => Err(NetError::Undriven(name)),
        None => Ok(()),
    }
}

/// Refuses a name that is driven twice, or else an undriven name, if there is no other fault. `driven` is empty
/// before and has the driven names after.
#[tactic(auto, unfolding(net_document::specs::Refusals::fault_of))]
fn check_names(driven: &mut IndexSet<Name>, listed: &Listed) -> Result<(), NetError>
    requires none { driven.old.keys ≡ [] }
    ensures good { IfOk result (λ _. IsFaultless listed.now) }
    ensures refused { IfErr result (IsRefusedBelow listed.now) }
{
    match add_drivers(driven, &listed.driven)? {
        Some(name) => Err(NetError::DrivenTwice(name)),
        None => check_used(driven, listed),
    }
}

/// Refuses every fault other than a combinational loop: more gates than `most` first.
#[tactic(auto, unfolding(net_document::specs::Refusals::fault_of, net_theory::specs::Cost::cost))]
pub fn check(alloc: Global, listed: &Listed, most: u32) -> Result<(), NetError>
    requires listed { IsWellListed listed.now }
    requires small { cost listed.now.document < 2 ^ 32 }
    ensures good { IfOk result (λ _. fault_of most listed.now ≡ None) }
    ensures refused { IfErr result (IsRefusedListing most listed.now) }
{
    let gates = total_cost(alloc, &listed.document.tables)?;
    if gates > most {
        return Err(NetError::TooManyGates(gates));
    }
    let mut driven = IndexSet::new(alloc);
    check_names(&mut driven, listed)
}
