//! The names of a file's inputs, latches, outputs and gates.

ghost use Rattle.std.specs.Prelude.{◌≡◌, ◌<◌, ◌≤◌, ◌^◌, length, map, slice_set, OnOk, IfOk};
ghost use Rattle.aiger_text.specs.Limits.{most_variables};
ghost use Rattle.aiger_text.specs.Naming as spec;

use crate::file::{AigFile, AigLatch, PortKind, Symbol};
use net_core::Name;
use std::alloc::{AllocError, Global};
use text_core::push_number;

/// A numbered name.
pub fn numbered(alloc: Global, prefix: &[u8], number: u32) -> Result<Name, AllocError>
    ensures { IfOk result (λ n. n ≡ spec.numbered prefix.now number) }
{
    let mut bytes = Vec::new(alloc);
    bytes.extend_from_slice(prefix)?;
    push_number(&mut bytes, number)?;
    Ok(Name::new(bytes))
}

/// Numbered names from 0 on.
#[tactic(auto, using(crate::proofs::Numbered::numbers))]
fn numbered_names(alloc: Global, prefix: &[u8], count: u32) -> Result<Vec<Name>, AllocError>
    ensures { IfOk result (λ ns. ns.items ≡ spec.numbered_from prefix.now 0 count) }
{
    let mut names = Vec::new(alloc);
    let mut at = 0;
    while at < count {
        names.push(numbered(alloc, prefix, at)?)?;
        at += 1;
    }
    Ok(names)
}

/// The names of variables from 0 on that are neither inputs nor latches.
#[tactic(auto, using(crate::proofs::Numbered::numbers))]
fn gate_names(alloc: Global, count: u32) -> Result<Vec<Name>, AllocError>
    requires { count < 2 ^ 31 }
    ensures { IfOk result (λ ns. ns.items ≡ spec.gate_names_from 0 count) }
{
    let mut names = Vec::new(alloc);
    let mut at = 0;
    while at < count {
        names.push(numbered(alloc, b"&", at * 2)?)?;
        at += 1;
    }
    Ok(names)
}

/// Sets the name at a place, if there is one.
#[tactic(auto, using(crate::proofs::Numbered::sets))]
fn set_name(names: &mut Vec<Name>, place: u32, name: Name)
    ensures { names.new.items ≡ slice_set names.old.items place name }
{
    if (place as usize) < names.len() {
        names[place as usize] = name;
    }
}

/// Whether two kinds are the same.
fn is_kind(first: PortKind, second: PortKind) -> bool
    ensures { result ≡ spec.is_kind first second }
{
    match (first, second) {
        (PortKind::Input, PortKind::Input) => true,
        (PortKind::Latch, PortKind::Latch) => true,
        (PortKind::Output, PortKind::Output) => true,
        _ => false,
    }
}

/// Sets the names of the symbols of a kind.
#[tactic(auto, unfolding(crate::specs::Naming::with_symbols))]
fn set_symbols(names: &mut Vec<Name>, kind: PortKind, symbols: &[Symbol]) -> Result<(), AllocError>
    ensures { OnOk result (names.new.items ≡ spec.with_symbols kind names.old.items symbols.now) }
{
    let mut left = symbols;
    while let Some((symbol, rest)) = left.split_first() {
        if is_kind(kind, symbol.kind) {
            set_name(names, symbol.position, symbol.name.copied()?);
        }
        left = rest;
    }
    Ok(())
}

/// Names by position: those of the symbols of a kind, and for the others the prefix and the position.
fn port_names(
    alloc: Global,
    prefix: &[u8],
    kind: PortKind,
    count: usize,
    symbols: &[Symbol],
) -> Result<Vec<Name>, AllocError>
    requires { count < 2 ^ 31 }
    ensures { IfOk result (λ ns. ns.items ≡
        spec.with_symbols kind (spec.numbered_from prefix.now 0 count) symbols.now) }
{
    let mut names = numbered_names(alloc, prefix, count as u32)?;
    set_symbols(&mut names, kind, symbols)?;
    Ok(names)
}

/// The names of the inputs.
fn input_names(alloc: Global, file: &AigFile) -> Result<Vec<Name>, AllocError>
    requires { length file.now.inputs < 2 ^ 31 }
    ensures { IfOk result (λ ns. ns.items ≡ spec.input_names file.now) }
{
    let count = file.inputs.len();
    port_names(alloc, b"i", PortKind::Input, count, &file.symbols)
}

/// The names of the latches.
fn latch_names(alloc: Global, file: &AigFile) -> Result<Vec<Name>, AllocError>
    requires { length file.now.latches < 2 ^ 31 }
    ensures { IfOk result (λ ns. ns.items ≡ spec.latch_names file.now) }
{
    let count = file.latches.len();
    port_names(alloc, b"l", PortKind::Latch, count, &file.symbols)
}

/// The names of the outputs.
pub fn output_names(alloc: Global, file: &AigFile) -> Result<Vec<Name>, AllocError>
    requires { length file.now.outputs < 2 ^ 31 }
    ensures { IfOk result (λ ns. ns.items ≡ spec.output_names file.now) }
{
    let count = file.outputs.len();
    port_names(alloc, b"o", PortKind::Output, count, &file.symbols)
}

/// Sets the names of the variables of some literals.
#[tactic(auto, unfolding(crate::specs::Naming::with_names))]
fn set_inputs(names: &mut Vec<Name>, literals: &[u32], others: &[Name]) -> Result<(), AllocError>
    ensures { OnOk result (names.new.items ≡ spec.with_names names.old.items literals.now others.now) }
{
    let mut left = literals;
    let mut named = others;
    while let Some((literal, rest)) = left.split_first() {
        let Some((name, later)) = named.split_first() else {
            return Ok(());
        };
        set_name(names, *literal / 2, name.copied()?);
        left = rest;
        named = later;
    }
    Ok(())
}

/// Sets the names of the variables of latches.
#[tactic(auto, unfolding(crate::specs::Naming::with_names))]
fn set_latches(
    names: &mut Vec<Name>,
    latches: &[AigLatch],
    others: &[Name],
) -> Result<(), AllocError>
    ensures { OnOk result (names.new.items ≡
        spec.with_names names.old.items (map spec.literal_of latches.now) others.now) }
{
    let mut left = latches;
    let mut named = others;
    while let Some((latch, rest)) = left.split_first() {
        let Some((name, later)) = named.split_first() else {
            return Ok(());
        };
        set_name(names, latch.literal / 2, name.copied()?);
        left = rest;
        named = later;
    }
    Ok(())
}

/// The names of the variables from 0 on.
#[tactic(auto, unfolding(crate::specs::Naming::variable_names))]
pub fn variable_names(alloc: Global, file: &AigFile) -> Result<Vec<Name>, AllocError>
    requires variables { file.now.variables ≤ most_variables }
    requires inputs { length file.now.inputs < 2 ^ 31 }
    requires latches { length file.now.latches < 2 ^ 31 }
    ensures { IfOk result (λ ns. ns.items ≡ spec.variable_names file.now) }
{
    let mut names = gate_names(alloc, file.variables + 1)?;
    let inputs = input_names(alloc, file)?;
    set_inputs(&mut names, &file.inputs, &inputs)?;
    let latches = latch_names(alloc, file)?;
    set_latches(&mut names, &file.latches, &latches)?;
    Ok(names)
}

/// The name of a literal's variable.
pub fn name_at(names: &[Name], literal: u32) -> &[u8]
    ensures { result.now ≡ spec.name_at names.now literal }
{
    match names.get(literal as usize / 2) {
        Some(name) => name.get(),
        None => b"&",
    }
}
