//! Writing the ASCII form of a file.

ghost use Rattle.std.specs.Prelude.{◌≡◌, ◌<◌, ◌^◌, ◌++◌, length, OnOk, OnErr};
ghost use Rattle.std.specs.List.{flat_map};
ghost use Rattle.aiger_text.specs.Valid.{IsAig, counts_of as counts_of_file};
ghost use Rattle.aiger_text.specs.Spelling as spec;

use crate::file::{AigFile, AigGate, AigLatch, PortKind, Reset, Symbol};
use std::alloc::AllocError;
use text_core::push_number;

/// Adds numbers, each after a blank.
fn push_items(text: &mut Vec<u8>, numbers: &[u32]) -> Result<(), AllocError>
    ensures { OnOk result (text.new.items ≡ text.old.items ++ flat_map spec.number_text numbers.now) }
{
    let mut left = numbers;
    while let Some((number, rest)) = left.split_first() {
        text.push(b' ')?;
        push_number(text, *number)?;
        left = rest;
    }
    Ok(())
}

/// Adds a line of numbers.
#[tactic(auto, unfolding(crate::specs::Spelling::numbers_line))]
fn push_numbers(text: &mut Vec<u8>, numbers: &[u32]) -> Result<(), AllocError>
    ensures { OnOk result (text.new.items ≡ text.old.items ++ spec.numbers_line numbers.now) }
{
    if let Some((number, rest)) = numbers.split_first() {
        push_number(text, *number)?;
        push_items(text, rest)?;
    }
    text.push(b'\n')?;
    Ok(())
}

/// Adds the counts of the header.
fn push_counts(text: &mut Vec<u8>, file: &AigFile) -> Result<(), AllocError>
    requires inputs { length file.now.inputs < 2 ^ 31 }
    requires latches { length file.now.latches < 2 ^ 31 }
    requires outputs { length file.now.outputs < 2 ^ 31 }
    requires gates { length file.now.gates < 2 ^ 31 }
    ensures { OnOk result (text.new.items ≡
        text.old.items ++ spec.numbers_line (spec.header_numbers (counts_of_file file.now))) }
{
    let inputs = file.inputs.len() as u32;
    let latches = file.latches.len() as u32;
    let outputs = file.outputs.len() as u32;
    let gates = file.gates.len() as u32;
    push_numbers(text, &[file.variables, inputs, latches, outputs, gates])
}

/// Adds literals, each on a line of its own.
fn push_literals(text: &mut Vec<u8>, literals: &[u32]) -> Result<(), AllocError>
    ensures { OnOk result (text.new.items ≡ text.old.items ++ flat_map spec.literal_line literals.now) }
{
    let mut left = literals;
    while let Some((literal, rest)) = left.split_first() {
        push_numbers(text, &[*literal])?;
        left = rest;
    }
    Ok(())
}

/// Adds a latch.
fn push_latch(text: &mut Vec<u8>, latch: AigLatch) -> Result<(), AllocError>
    ensures { OnOk result (text.new.items ≡ text.old.items ++ spec.latch_text latch) }
{
    match latch.reset {
        Reset::Zero => push_numbers(text, &[latch.literal, latch.next]),
        Reset::One => push_numbers(text, &[latch.literal, latch.next, 1]),
        Reset::Undefined => push_numbers(text, &[latch.literal, latch.next, latch.literal]),
    }
}

/// Adds latches.
fn push_latches(text: &mut Vec<u8>, latches: &[AigLatch]) -> Result<(), AllocError>
    ensures { OnOk result (text.new.items ≡ text.old.items ++ flat_map spec.latch_text latches.now) }
{
    let mut left = latches;
    while let Some((latch, rest)) = left.split_first() {
        push_latch(text, *latch)?;
        left = rest;
    }
    Ok(())
}

/// Adds gates.
fn push_gates(text: &mut Vec<u8>, gates: &[AigGate]) -> Result<(), AllocError>
    ensures { OnOk result (text.new.items ≡ text.old.items ++ flat_map spec.gate_text gates.now) }
{
    let mut left = gates;
    while let Some((gate, rest)) = left.split_first() {
        push_numbers(text, &[gate.literal, gate.first, gate.second])?;
        left = rest;
    }
    Ok(())
}

/// The first byte of a symbol.
fn kind_byte(kind: PortKind) -> u8
    ensures { result ≡ spec.kind_byte kind }
{
    match kind {
        PortKind::Input => b'i',
        PortKind::Latch => b'l',
        PortKind::Output => b'o',
    }
}

/// Adds a symbol.
#[tactic(auto, unfolding(crate::specs::Spelling::symbol_text))]
fn push_symbol(text: &mut Vec<u8>, symbol: &Symbol) -> Result<(), AllocError>
    ensures { OnOk result (text.new.items ≡ text.old.items ++ spec.symbol_text symbol.now) }
{
    text.push(kind_byte(symbol.kind))?;
    push_number(text, symbol.position)?;
    text.push(b' ')?;
    text.extend_from_slice(symbol.name.get())?;
    text.push(b'\n')?;
    Ok(())
}

/// Adds symbols.
fn push_symbols(text: &mut Vec<u8>, symbols: &[Symbol]) -> Result<(), AllocError>
    ensures { OnOk result (text.new.items ≡ text.old.items ++ flat_map spec.symbol_text symbols.now) }
{
    let mut left = symbols;
    while let Some((symbol, rest)) = left.split_first() {
        push_symbol(text, symbol)?;
        left = rest;
    }
    Ok(())
}

/// Adds the text of a file.
#[tactic(auto, using(crate::specs::FileLaws::limits), unfolding(crate::specs::Spelling::spelled))]
fn push_file(text: &mut Vec<u8>, file: &AigFile) -> Result<(), AllocError>
    requires { IsAig file.now }
    ensures { OnOk result (text.new.items ≡ text.old.items ++ spec.spelled file.now) }
{
    text.extend_from_slice(b"aag ")?;
    push_counts(text, file)?;
    push_literals(text, &file.inputs)?;
    push_latches(text, &file.latches)?;
    push_literals(text, &file.outputs)?;
    push_gates(text, &file.gates)?;
    push_symbols(text, &file.symbols)
}

/// Appends the ASCII text of a file: the header, inputs, latches, outputs, gates and symbols, each on a line of its
/// own, and no comment. The text is built separately and appended at once, so that nothing is appended if memory runs
/// out.
pub fn write_ascii(out: &mut Vec<u8>, file: &AigFile) -> Result<(), AllocError>
    requires { IsAig file.now }
    ensures ok { OnOk result (out.new.items ≡ out.old.items ++ spec.spelled file.now) }
    ensures err { OnErr result (out.new.items ≡ out.old.items) }
{
    let mut whole = Vec::new(*out.allocator());
    push_file(&mut whole, file)?;
    out.extend_from_slice(&whole)
}
