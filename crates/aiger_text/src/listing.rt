//! The document of a file, with the names that it drives and reads.

ghost use Rattle.std.specs.Prelude.{◌≡◌, ◌+◌, ◌*◌, ◌<◌, ◌≤◌, ◌^◌, ◌++◌, map, length, OnOk, IfOk};
ghost use Rattle.std.specs.List.{flat_map};
ghost use Rattle.net_theory.specs.Document.{latch_of, latch_input, latch_output, table_inputs, table_output};
ghost use Rattle.net_theory.specs.Cost.{cost};
ghost use Rattle.net_theory.specs.NetOf.{source_count};
ghost use Rattle.net_document.specs.Listed.{IsWellListed, AreControlsFree};
ghost use Rattle.aiger_text.specs.Valid.{IsAig};
ghost use Rattle.aiger_text.specs.Limits.{most_variables};
ghost use Rattle.aiger_text.specs.Naming.{name_at as name_at_literal};
ghost use Rattle.aiger_text.specs.Meaning as spec;

use crate::file::{AigFile, AigLatch, Reset};
use crate::names::{name_at, output_names};
use crate::signals::{Signals, signals_of, sink_name};
use crate::tables::tables_of;
use net_core::{Latch, Name};
use net_document::{Document, LatchLine, Listed, Table, add_copies};
use std::alloc::{AllocError, Global};

/// The names of the variables of some literals.
fn names_at(alloc: Global, names: &[Name], literals: &[u32]) -> Result<Vec<Name>, AllocError>
    ensures { IfOk result (λ ns. ns.items ≡ map (name_at_literal names.now) literals.now) }
{
    let mut found = Vec::new(alloc);
    let mut left = literals;
    while let Some((literal, rest)) = left.split_first() {
        found.push(Name::of(alloc, name_at(names, *literal))?)?;
        left = rest;
    }
    Ok(found)
}

/// The initial value of a latch: 0, 1, or 2 for don't-care.
fn init_of(reset: Reset) -> u8
    ensures { result ≡ spec.init_of reset }
{
    match reset {
        Reset::Zero => 0,
        Reset::One => 1,
        Reset::Undefined => 2,
    }
}

/// A latch.
fn latch_line(alloc: Global, signals: &Signals, latch: AigLatch) -> Result<LatchLine, AllocError>
    ensures { IfOk result (λ l. l ≡ spec.latch_line signals.now latch) }
{
    Ok(LatchLine {
        input: sink_name(alloc, signals, latch.next)?,
        latch: Latch {
            output: Name::of(alloc, name_at(&signals.names, latch.literal))?,
            control: None,
            init: Some(init_of(latch.reset)),
        },
    })
}

/// The latches of a file.
fn latch_lines(
    alloc: Global,
    signals: &Signals,
    latches: &[AigLatch],
) -> Result<Vec<LatchLine>, AllocError>
    ensures { IfOk result (λ ls. ls.items ≡ map (spec.latch_line signals.now) latches.now) }
{
    let mut lines = Vec::new(alloc);
    let mut left = latches;
    while let Some((latch, rest)) = left.split_first() {
        lines.push(latch_line(alloc, signals, *latch)?)?;
        left = rest;
    }
    Ok(lines)
}

/// The document of a file.
#[tactic(auto, unfolding(crate::specs::Meaning::document_of))]
fn document_of(alloc: Global, file: &AigFile) -> Result<Document, AllocError>
    requires variables { file.now.variables ≤ most_variables }
    requires inputs { length file.now.inputs < 2 ^ 31 }
    requires latches { length file.now.latches < 2 ^ 31 }
    requires outputs { length file.now.outputs < 2 ^ 31 }
    ensures { IfOk result (λ d. d ≡ spec.document_of file.now) }
{
    let signals = signals_of(alloc, file)?;
    let outputs = output_names(alloc, file)?;
    let tables = tables_of(alloc, &signals, &outputs, file)?;
    Ok(Document {
        model: Name::of(alloc, b"top")?,
        inputs: names_at(alloc, &signals.names, &file.inputs)?,
        outputs,
        clocks: Vec::new(alloc),
        latches: latch_lines(alloc, &signals, &file.latches)?,
        tables,
    })
}

/// Adds the outputs of latches.
fn push_latch_outputs(names: &mut Vec<Name>, latches: &[LatchLine]) -> Result<(), AllocError>
    ensures { OnOk result (names.new.items ≡ names.old.items ++ map latch_output (map latch_of latches.now)) }
{
    let mut left = latches;
    while let Some((line, rest)) = left.split_first() {
        names.push(line.latch.output.copied()?)?;
        left = rest;
    }
    Ok(())
}

/// Adds the inputs of latches.
fn push_latch_inputs(names: &mut Vec<Name>, latches: &[LatchLine]) -> Result<(), AllocError>
    ensures { OnOk result (names.new.items ≡ names.old.items ++ map latch_input latches.now) }
{
    let mut left = latches;
    while let Some((line, rest)) = left.split_first() {
        names.push(line.input.copied()?)?;
        left = rest;
    }
    Ok(())
}

/// Adds the outputs of tables.
fn push_table_outputs(names: &mut Vec<Name>, tables: &[Table]) -> Result<(), AllocError>
    ensures { OnOk result (names.new.items ≡ names.old.items ++ map table_output tables.now) }
{
    let mut left = tables;
    while let Some((table, rest)) = left.split_first() {
        names.push(table.output.copied()?)?;
        left = rest;
    }
    Ok(())
}

/// Adds the inputs of tables.
fn push_table_inputs(names: &mut Vec<Name>, tables: &[Table]) -> Result<(), AllocError>
    ensures { OnOk result (names.new.items ≡ names.old.items ++ flat_map table_inputs tables.now) }
{
    let mut left = tables;
    while let Some((table, rest)) = left.split_first() {
        add_copies(names, &table.inputs)?;
        left = rest;
    }
    Ok(())
}

/// A document with the names that it drives and reads.
#[tactic(auto, unfolding(crate::specs::Meaning::listed_with))]
fn listed_with(alloc: Global, document: Document) -> Result<Listed, AllocError>
    ensures { IfOk result (λ l. l ≡ spec.listed_with document) }
{
    let mut driven = Vec::new(alloc);
    add_copies(&mut driven, &document.inputs)?;
    push_latch_outputs(&mut driven, &document.latches)?;
    push_table_outputs(&mut driven, &document.tables)?;
    let mut used = Vec::new(alloc);
    push_table_inputs(&mut used, &document.tables)?;
    push_latch_inputs(&mut used, &document.latches)?;
    Ok(Listed {
        document,
        driven,
        used,
    })
}

/// The document of a file, with the names that it drives and reads.
#[tactic(auto, using(crate::specs::FileLaws::limits))]
fn listed_in(alloc: Global, file: &AigFile) -> Result<Listed, AllocError>
    requires { IsAig file.now }
    ensures { IfOk result (λ l. l ≡ spec.listed file.now) }
{
    let document = document_of(alloc, file)?;
    listed_with(alloc, document)
}

/// The document of a file, with the names that it drives and reads in its order: an input, a latch or an output has
/// the name of its symbol, or else `i0`, `l0` or `o0` by its position, and a gate its literal after `&`. Each gate is
/// a table: AND, or NAND where its complement alone is an output or a next state.
#[tactic(auto, using(crate::specs::ListingLaws::listings))]
pub fn listed_of(alloc: Global, file: &AigFile) -> Result<Listed, AllocError>
    requires { IsAig file.now }
    ensures exact { IfOk result (λ l. l ≡ spec.listed file.now) }
    ensures listed { IfOk result IsWellListed }
    ensures free { IfOk result (λ l. AreControlsFree l.document) }
    ensures few { IfOk result (λ l. length l.document.tables < 2 ^ 31) }
    ensures small { IfOk result (λ l. 2 * source_count l.document + cost l.document < 2 ^ 31) }
{
    let listed = listed_in(alloc, file)?;
    Ok(listed)
}
