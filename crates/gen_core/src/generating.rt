//! The netlist of any number of blocks.

ghost use Rattle.std.specs.Prelude.{◌≡◌, ◌++◌, IfOk, OnOk, OnErr};
ghost use Rattle.gen_core.specs.Generated.{block_inputs, block_outputs, block_tables, of_blocks, generated};
ghost use Rattle.gen_core.specs.Generated.{generated_text};

use crate::blocks::{append_names, inputs_of, name_of, push_tables};
use blif_core::write_document;
use net_document::{Document, Name, Table};
use std::alloc::{AllocError, Global};

/// The inputs of `blocks` blocks.
#[tactic(auto, using(crate::proofs::Counting::blocks))]
fn inputs(alloc: Global, blocks: u32) -> Result<Vec<Name>, AllocError>
    ensures { IfOk result (λ names. names.items ≡ of_blocks block_inputs blocks) }
{
    let mut names = Vec::new(alloc);
    for block in 0..blocks {
        append_names(&mut names, inputs_of(alloc, block)?)?;
    }
    Ok(names)
}

/// The outputs of `blocks` blocks.
#[tactic(auto, using(crate::proofs::Counting::blocks))]
fn outputs(alloc: Global, blocks: u32) -> Result<Vec<Name>, AllocError>
    ensures { IfOk result (λ names. names.items ≡ of_blocks block_outputs blocks) }
{
    let mut names = Vec::new(alloc);
    for block in 0..blocks {
        names.push(name_of(alloc, block, b'y')?)?;
    }
    Ok(names)
}

/// The tables of `blocks` blocks.
#[tactic(auto, using(crate::proofs::Counting::blocks))]
fn tables(alloc: Global, blocks: u32) -> Result<Vec<Table>, AllocError>
    ensures { IfOk result (λ tables. tables.items ≡ of_blocks block_tables blocks) }
{
    let mut tables = Vec::new(alloc);
    for block in 0..blocks {
        push_tables(block, &mut tables)?;
    }
    Ok(tables)
}

/// The netlist of `blocks` blocks.
#[tactic(auto, unfolding(crate::specs::Generated::generated))]
fn document(alloc: Global, blocks: u32) -> Result<Document, AllocError>
    ensures { IfOk result (λ d. d ≡ generated blocks) }
{
    Ok(Document {
        model: Name::of(alloc, b"gen")?,
        inputs: inputs(alloc, blocks)?,
        outputs: outputs(alloc, blocks)?,
        clocks: Vec::new(alloc),
        latches: Vec::new(alloc),
        tables: tables(alloc, blocks)?,
    })
}

/// Appends the BLIF text of the netlist of `blocks` blocks, of three kinds in turn: XOR of two inputs, AND of
/// three inputs, and a multiplexer with two data inputs and a select input.
#[tactic(auto, using(crate::proofs::Counting::texts))]
pub fn generate(blocks: u32, out: &mut Vec<u8>) -> Result<(), AllocError>
    ensures ok { OnOk result (out.new.items ≡ out.old.items ++ generated_text blocks) }
    ensures err { OnErr result (out.new.items ≡ out.old.items) }
{
    let netlist = document(*out.allocator(), blocks)?;
    write_document(out, &netlist)
}
