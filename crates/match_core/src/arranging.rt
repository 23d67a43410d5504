//! What a text lists, in the order of another netlist.
ghost use Rattle.std.specs.Prelude.{◌≡◌, ◌<◌, ◌^◌, ◌++◌, length, map, OnOk, IfOk};
ghost use Rattle.std.specs.List.{flat_map};
ghost use Rattle.net_theory.specs.Document.{latch_output, latch_input, table_inputs};
ghost use Rattle.match_core.specs.Matched.{ordered as ordered_by};
ghost use Rattle.match_core.specs.ListedLaws.{read_names as read_names_of};

use crate::lines::lines_for;
use net_core::{Circuit, Name};
use net_document::{Document, LatchLine, Listed, Table, add_copies};
use std::alloc::{AllocError, Global};

/// Copies of names.
fn copies(alloc: Global, names: &[Name]) -> Result<Vec<Name>, AllocError>
    ensures { IfOk result (λ copy. copy.items ≡ names.now) }
{
    let mut copy = Vec::new(alloc);
    add_copies(&mut copy, names)?;
    Ok(copy)
}

/// A document in the order of a circuit.
fn ordered(alloc: Global, document: Document, first: &Circuit) -> Result<Document, AllocError>
    requires { length document.latches < 2 ^ 31 }
    ensures { IfOk result (λ d. d ≡
        ordered_by first.now.inputs first.now.outputs (map latch_output first.now.latches) document) }
{
    let latches = lines_for(alloc, &document.latches, &first.latches)?;
    let Document {
        model,
        inputs: _,
        outputs: _,
        clocks,
        latches: _,
        tables,
    } = document;
    Ok(Document {
        model,
        inputs: copies(alloc, &first.inputs)?,
        outputs: copies(alloc, &first.outputs)?,
        clocks,
        latches,
        tables,
    })
}

/// Appends the names that tables read.
fn push_table_inputs(names: &mut Vec<Name>, tables: &[Table]) -> Result<(), AllocError>
    ensures { OnOk result (names.new.items ≡ names.old.items ++ flat_map table_inputs tables.now) }
{
    let mut left = tables;
    while let Some((table, rest)) = left.split_first() {
        add_copies(names, &table.inputs)?;
        left = rest;
    }
    Ok(())
}

/// Appends the names that latches read.
fn push_latch_inputs(names: &mut Vec<Name>, lines: &[LatchLine]) -> Result<(), AllocError>
    ensures { OnOk result (names.new.items ≡ names.old.items ++ map latch_input lines.now) }
{
    let mut left = lines;
    while let Some((line, rest)) = left.split_first() {
        names.push(line.input.copied()?)?;
        left = rest;
    }
    Ok(())
}

/// The names that tables and latches read.
fn read_names(alloc: Global, document: &Document) -> Result<Vec<Name>, AllocError>
    ensures { IfOk result (λ names. names.items ≡ read_names_of document.now) }
{
    let mut names = Vec::new(alloc);
    push_table_inputs(&mut names, &document.tables)?;
    push_latch_inputs(&mut names, &document.latches)?;
    Ok(names)
}

/// What a text lists, with the inputs, outputs and latches in the order of a circuit.
pub fn arrange(alloc: Global, listed: Listed, first: &Circuit) -> Result<Listed, AllocError>
    requires { length listed.document.latches < 2 ^ 31 }
    ensures document { IfOk result (λ l. l.document ≡
        ordered_by first.now.inputs first.now.outputs (map latch_output first.now.latches) listed.document) }
    ensures driven { IfOk result (λ l. l.driven ≡ listed.driven) }
    ensures used { IfOk result (λ l. l.used ≡ read_names_of l.document) }
{
    let Listed {
        document,
        driven,
        used: _,
    } = listed;
    let document = ordered(alloc, document, first)?;
    let used = read_names(alloc, &document)?;
    Ok(Listed {
        document,
        driven,
        used,
    })
}
