//! The tables of a file's constants, gates, complements and outputs.

ghost use Rattle.std.specs.Prelude.{◌≡◌, ◌+◌, ◌≤◌, ◌<◌, ◌++◌, map, OnOk, IfOk};
ghost use Rattle.aiger_text.specs.Limits.{most_variables};
ghost use Rattle.aiger_text.specs.Meaning as spec;

use crate::file::{AigFile, AigGate};
use crate::marks::bit_at;
use crate::names::{name_at, numbered};
use crate::signals::{Signals, is_complement, needs_not, sink_name};
use net_core::{Body, Cover, Cube, Name};
use net_document::Table;
use std::alloc::{AllocError, Global};

/// The constant 0.
fn zero_table(alloc: Global) -> Result<Table, AllocError>
    ensures { IfOk result (λ t. t ≡ spec.zero_table) }
{
    Ok(Table {
        inputs: Vec::new(alloc),
        output: numbered(alloc, b"&", 0)?,
        body: Body::Cubes(Cover {
            width: 0,
            cubes: Vec::new(alloc),
            on: true,
        }),
    })
}

/// The constant 1.
fn one_table(alloc: Global) -> Result<Table, AllocError>
    ensures { IfOk result (λ t. t ≡ spec.one_table) }
{
    let mut cubes = Vec::new(alloc);
    cubes.push(Cube::new(Vec::new(alloc)))?;
    Ok(Table {
        inputs: Vec::new(alloc),
        output: numbered(alloc, b"&", 1)?,
        body: Body::Cubes(Cover {
            width: 0,
            cubes,
            on: true,
        }),
    })
}

/// `0` for a complement, else `1`.
fn byte_of(signals: &Signals, literal: u32) -> u8
    ensures { result ≡ spec.byte_of signals.now literal }
{
    if is_complement(signals, literal) {
        b'0'
    } else {
        b'1'
    }
}

/// The table of a gate.
fn gate_table(alloc: Global, signals: &Signals, gate: AigGate) -> Result<Table, AllocError>
    ensures { IfOk result (λ t. t ≡ spec.gate_table signals.now gate) }
{
    let mut inputs = Vec::new(alloc);
    inputs.push(Name::of(alloc, name_at(&signals.names, gate.first))?)?;
    inputs.push(Name::of(alloc, name_at(&signals.names, gate.second))?)?;
    let mut cubes = Vec::new(alloc);
    let bytes = [byte_of(signals, gate.first), byte_of(signals, gate.second)];
    cubes.push(Cube::new(Vec::from_slice(alloc, &bytes)?))?;
    Ok(Table {
        inputs,
        output: Name::of(alloc, name_at(&signals.names, gate.literal))?,
        body: Body::Cubes(Cover {
            width: 2,
            cubes,
            on: !bit_at(&signals.turns, gate.literal as usize / 2),
        }),
    })
}

/// A table of one input: a copy for the byte `1`, or NOT for `0`.
fn unary_table(alloc: Global, input: Name, byte: u8, output: Name) -> Result<Table, AllocError>
    ensures { IfOk result (λ t. t ≡ spec.unary_table input byte output) }
{
    let mut inputs = Vec::new(alloc);
    inputs.push(input)?;
    let mut cubes = Vec::new(alloc);
    cubes.push(Cube::new(Vec::from_slice(alloc, &[byte])?))?;
    Ok(Table {
        inputs,
        output,
        body: Body::Cubes(Cover {
            width: 1,
            cubes,
            on: true,
        }),
    })
}

/// The complement of a variable.
fn not_table(alloc: Global, signals: &Signals, variable: u32) -> Result<Table, AllocError>
    requires { variable ≤ most_variables }
    ensures { IfOk result (λ t. t ≡ spec.not_table signals.now variable) }
{
    let input = Name::of(alloc, name_at(&signals.names, variable * 2))?;
    unary_table(alloc, input, b'0', numbered(alloc, b"&", variable * 2 + 1)?)
}

/// Adds the tables of gates.
fn push_gates(
    alloc: Global,
    tables: &mut Vec<Table>,
    signals: &Signals,
    gates: &[AigGate],
) -> Result<(), AllocError>
    ensures { OnOk result (tables.new.items ≡ tables.old.items ++ map (spec.gate_table signals.now) gates.now) }
{
    let mut left = gates;
    while let Some((gate, rest)) = left.split_first() {
        tables.push(gate_table(alloc, signals, *gate)?)?;
        left = rest;
    }
    Ok(())
}

/// Adds the tables of the complements of the variables from 1 to `last`.
#[tactic(auto, using(crate::proofs::Numbered::complements))]
fn push_nots(
    alloc: Global,
    tables: &mut Vec<Table>,
    signals: &Signals,
    last: u32,
) -> Result<(), AllocError>
    requires { last ≤ most_variables }
    ensures { OnOk result (tables.new.items ≡ tables.old.items ++ spec.not_tables signals.now 1 last) }
{
    let mut at = 1;
    while at <= last {
        if needs_not(signals, at) {
            tables.push(not_table(alloc, signals, at)?)?;
        }
        at += 1;
    }
    Ok(())
}

/// Whether an output has the name of the variable that it is.
#[tactic(auto, unfolding(crate::specs::Meaning::is_driver))]
fn is_driver(names: &[Name], literal: u32, output: &Name) -> bool
    ensures { result ≡ spec.is_driver names.now literal output.now }
{
    literal % 2 == 0 && name_at(names, literal) == output.get()
}

/// Adds the tables of outputs, except those that have the names of their variables.
#[tactic(auto, unfolding(crate::specs::Meaning::output_tables))]
fn push_outputs(
    alloc: Global,
    tables: &mut Vec<Table>,
    signals: &Signals,
    literals: &[u32],
    outputs: &[Name],
) -> Result<(), AllocError>
    ensures { OnOk result (tables.new.items ≡
        tables.old.items ++ spec.output_tables signals.now literals.now outputs.now) }
{
    let mut left = literals;
    let mut named = outputs;
    while let Some((literal, rest)) = left.split_first() {
        let Some((output, later)) = named.split_first() else {
            return Ok(());
        };
        if !is_driver(&signals.names, *literal, output) {
            let input = sink_name(alloc, signals, *literal)?;
            tables.push(unary_table(alloc, input, b'1', output.copied()?)?)?;
        }
        left = rest;
        named = later;
    }
    Ok(())
}

/// The tables of a file: the constants, the gates, the complements and the outputs.
#[tactic(auto, unfolding(crate::specs::Meaning::tables_of))]
pub fn tables_of(
    alloc: Global,
    signals: &Signals,
    outputs: &[Name],
    file: &AigFile,
) -> Result<Vec<Table>, AllocError>
    requires { file.now.variables ≤ most_variables }
    ensures { IfOk result (λ ts. ts.items ≡ spec.tables_of signals.now outputs.now file.now) }
{
    let mut tables = Vec::new(alloc);
    tables.push(zero_table(alloc)?)?;
    tables.push(one_table(alloc)?)?;
    push_gates(alloc, &mut tables, signals, &file.gates)?;
    push_nots(alloc, &mut tables, signals, file.variables)?;
    push_outputs(alloc, &mut tables, signals, &file.outputs, outputs)?;
    Ok(tables)
}
