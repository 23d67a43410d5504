//! The latches and symbols of a written file.

ghost use Rattle.std.specs.Prelude.{◌≡◌, ◌+◌, ◌<◌, ◌^◌, ◌++◌, length, map, OnOk, IfOk};
ghost use Rattle.net_theory.specs.Document.{is_same, latch_output};
ghost use Rattle.aiger_text.specs.declared.file.PortKind.TheVariants as kinds;
ghost use Rattle.aiger_text.specs.Spelling.{kind_byte as byte_of};
ghost use Rattle.aiger_core.specs.Written as spec;

use aiger_text::{AigLatch, PortKind, Reset, Symbol};
use net_core::{Latch, Name};
use std::alloc::{AllocError, Global};
use text_core::push_number;

/// The reset value of an initial value; one that isn't given, don't-care or unknown is undefined.
fn reset_of(init: Option<u8>) -> Reset
    ensures { result ≡ spec.reset_of init }
{
    match init {
        None => Reset::Undefined,
        Some(value) => {
            if value == 0 {
                Reset::Zero
            } else if value == 1 {
                Reset::One
            } else {
                Reset::Undefined
            }
        }
    }
}

/// The latches, the first of which is the variable `first`, with the literals of their next states.
#[tactic(auto, unfolding(aiger_core::specs::Written::latches_from))]
pub fn latches_from(
    alloc: Global,
    first: u32,
    latches: &[Latch],
    nexts: &[u32],
) -> Result<Vec<AigLatch>, AllocError>
    requires { first + length latches.now < 2 ^ 31 }
    ensures { IfOk result (λ ls. ls.items ≡ spec.latches_from first latches.now nexts.now) }
{
    let mut lines = Vec::new(alloc);
    let mut node = first;
    let mut left = latches;
    let mut states = nexts;
    while let Some((latch, rest)) = left.split_first() {
        let Some((next, later)) = states.split_first() else {
            return Ok(lines);
        };
        lines.push(AigLatch {
            literal: node * 2,
            next: *next,
            reset: reset_of(latch.init),
        })?;
        node += 1;
        left = rest;
        states = later;
    }
    Ok(lines)
}

/// The first byte of a symbol.
fn kind_byte(kind: PortKind) -> u8
    ensures { result ≡ byte_of kind }
{
    match kind {
        PortKind::Input => b'i',
        PortKind::Latch => b'l',
        PortKind::Output => b'o',
    }
}

/// The name that the reader gives an input, a latch or an output without a symbol.
fn default_name(alloc: Global, kind: PortKind, at: u32) -> Result<Name, AllocError>
    ensures { IfOk result (λ n. n ≡ spec.default_name kind at) }
{
    let mut bytes = Vec::new(alloc);
    bytes.push(kind_byte(kind))?;
    push_number(&mut bytes, at)?;
    Ok(Name::new(bytes))
}

/// `first == second`, as a separate function; for the prover.
fn is_name(first: &Name, second: &Name) -> bool
    ensures { result ≡ is_same first.now second.now }
{
    first == second
}

/// Adds the symbol of a name at a position, unless the reader gives that name without one.
#[tactic(auto, unfolding(aiger_core::specs::Written::symbol_of))]
fn push_symbol(
    symbols: &mut Vec<Symbol>,
    kind: PortKind,
    position: u32,
    name: &Name,
) -> Result<(), AllocError>
    ensures { OnOk result (symbols.new.items ≡ symbols.old.items ++ spec.symbol_of kind position name.now) }
{
    let default = default_name(*symbols.allocator(), kind, position)?;
    if is_name(name, &default) {
        return Ok(());
    }
    symbols.push(Symbol {
        kind,
        position,
        name: name.copied()?,
    })?;
    Ok(())
}

/// Adds the symbols of names, by their positions from 0 on.
#[tactic(auto, unfolding(aiger_core::specs::Written::symbols_from))]
pub fn push_symbols(
    symbols: &mut Vec<Symbol>,
    kind: PortKind,
    names: &[Name],
) -> Result<(), AllocError>
    requires { length names.now < 2 ^ 31 }
    ensures { OnOk result (symbols.new.items ≡ symbols.old.items ++ spec.symbols_from kind 0 names.now) }
{
    let mut at = 0;
    let mut left = names;
    while let Some((name, rest)) = left.split_first() {
        push_symbol(symbols, kind, at, name)?;
        at += 1;
        left = rest;
    }
    Ok(())
}

/// Adds the symbols of latches.
#[tactic(auto, unfolding(aiger_core::specs::Written::symbols_from))]
pub fn push_latch_symbols(symbols: &mut Vec<Symbol>, latches: &[Latch]) -> Result<(), AllocError>
    requires { length latches.now < 2 ^ 31 }
    ensures { OnOk result (symbols.new.items ≡
        symbols.old.items ++ spec.symbols_from kinds.Latch 0 (map latch_output latches.now)) }
{
    let mut at = 0;
    let mut left = latches;
    while let Some((latch, rest)) = left.split_first() {
        push_symbol(symbols, PortKind::Latch, at, &latch.output)?;
        at += 1;
        left = rest;
    }
    Ok(())
}
