//! Writing the BENCH text of a document.

ghost use Rattle.std.specs.Prelude.{◌≡◌, ◌++◌, All, OnOk};
ghost use Rattle.std.specs.List.{flat_map};
ghost use Rattle.bench_core.specs.Spelling as spelling;
ghost use Rattle.bench_core.specs.Spelling.{IsSmallTable};

use crate::gates::push_table;
use net_core::Name;
use net_document::{Document, LatchLine, Table};
use std::alloc::AllocError;

/// Adds names, each on a line with `keyword`.
fn push_ports(text: &mut Vec<u8>, keyword: &[u8], names: &[Name]) -> Result<(), AllocError>
    ensures { OnOk result (text.new.items ≡ text.old.items ++ flat_map (spelling.port_text keyword.now) names.now) }
{
    let mut left = names;
    while let Some((name, rest)) = left.split_first() {
        text.extend_from_slice(keyword)?;
        text.extend_from_slice(name.get())?;
        text.extend_from_slice(b")\n")?;
        left = rest;
    }
    Ok(())
}

/// Adds latches.
fn push_latches(text: &mut Vec<u8>, latches: &[LatchLine]) -> Result<(), AllocError>
    ensures { OnOk result (text.new.items ≡ text.old.items ++ flat_map spelling.latch_text latches.now) }
{
    let mut left = latches;
    while let Some((line, rest)) = left.split_first() {
        text.extend_from_slice(line.latch.output.get())?;
        text.extend_from_slice(b" = DFF(")?;
        text.extend_from_slice(line.input.get())?;
        text.extend_from_slice(b")\n")?;
        left = rest;
    }
    Ok(())
}

/// Adds tables as gates.
fn push_tables(text: &mut Vec<u8>, source: &[u8], tables: &[Table]) -> Result<(), AllocError>
    requires { All IsSmallTable tables.now }
    ensures { OnOk result (text.new.items ≡ text.old.items ++ flat_map (spelling.table_text source.now) tables.now) }
{
    let mut left = tables;
    while let Some((table, rest)) = left.split_first() {
        push_table(text, source, table)?;
        left = rest;
    }
    Ok(())
}

/// Adds the BENCH text of a document whose tables have at most two inputs: the inputs, the outputs, the latches
/// without their controls and initial values, and the tables as gates. A table without inputs becomes a gate over
/// `source`.
#[tactic(auto, unfolding(crate::specs::Spelling::spelled))]
pub(crate) fn write_document(
    text: &mut Vec<u8>,
    source: &[u8],
    document: &Document,
) -> Result<(), AllocError>
    requires { All IsSmallTable document.now.tables }
    ensures { OnOk result (text.new.items ≡ text.old.items ++ spelling.spelled source.now document.now) }
{
    push_ports(text, b"INPUT(", &document.inputs)?;
    push_ports(text, b"OUTPUT(", &document.outputs)?;
    push_latches(text, &document.latches)?;
    push_tables(text, source, &document.tables)
}
