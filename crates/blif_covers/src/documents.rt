//! The least document of a circuit, and its text.
ghost use Rattle.std.specs.Prelude.{◌≡◌, ◌++◌, map, All, IfOk, OnOk};
ghost use Rattle.blif_core.specs.Spelling.{spelled, HasInit};
ghost use Rattle.blif_covers.specs.Least as spec;

use crate::covers::least_body;
use blif_core::write_document;
use net_document::{Document, Table};
use std::alloc::{AllocError, Global};

/// The table with its least cover.
fn least_table(alloc: Global, table: Table) -> Result<Table, AllocError>
    ensures { IfOk result (λ least. least ≡ spec.least_table table) }
{
    let Table {
        inputs,
        output,
        body,
    } = table;
    let body = least_body(alloc, body)?;
    Ok(Table {
        inputs,
        output,
        body,
    })
}

/// The tables with their least covers.
fn least_tables(alloc: Global, tables: Vec<Table>) -> Result<Vec<Table>, AllocError>
    ensures { IfOk result (λ least. least.items ≡ map spec.least_table tables.items) }
{
    let mut least = Vec::new(alloc);
    for table in tables {
        least.push(least_table(alloc, table)?)?;
    }
    Ok(least)
}

/// The document with the least covers: of each table of two inputs that has three rows the fourth, with the other
/// value.
pub fn least_document(alloc: Global, document: Document) -> Result<Document, AllocError>
    ensures { IfOk result (λ least. least ≡ spec.least document) }
{
    let Document {
        model,
        inputs,
        outputs,
        clocks,
        latches,
        tables,
    } = document;
    let tables = least_tables(alloc, tables)?;
    Ok(Document {
        model,
        inputs,
        outputs,
        clocks,
        latches,
        tables,
    })
}

/// Appends the BLIF text of a document with the least covers. Nothing is appended if memory runs out.
pub fn write_least(text: &mut Vec<u8>, document: Document) -> Result<(), AllocError>
    requires { All HasInit document.latches }
    ensures { OnOk result (text.new.items ≡ text.old.items ++ spelled (spec.least document)) }
{
    let least = least_document(*text.allocator(), document)?;
    write_document(text, &least)
}
