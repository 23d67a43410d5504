//! Tables, and lines of a word and a number.
ghost use Rattle.std.specs.Prelude.{◌≡◌, ◌^◌, ◌≤◌, ◌++◌, length, decimal, OnOk};
ghost use Rattle.text_core.specs.Lines.{line_bytes};
ghost use Rattle.tt_core.specs.Spelling.{character as character_of};
ghost use Rattle.chain_core.specs.Spelling.{line};
ghost use Rattle.cert_text.specs.Texts.{cells_to, tables_to};

use std::alloc::AllocError;
use text_core::push_number;
use tt_core::{Cell, Spec, row};

/// The character of a cell.
fn character(cell: Cell) -> u8
    ensures { result ≡ character_of cell }
{
    match cell {
        Cell::Zero => b'0',
        Cell::One => b'1',
        Cell::Free => b'-',
    }
}

/// Appends the cells of an output.
#[tactic(auto, using(crate::proofs::Written::cells))]
fn push_cells(text: &mut Vec<u8>, spec: &Spec, h: u32) -> Result<(), AllocError>
    requires from { 1 ≤ h }
    requires to { h ≤ length spec.now.on }
    ensures { OnOk result (text.new.items ≡ text.old.items ++ cells_to spec.now h (2 ^ spec.now.n)) }
{
    for t in 0..1u32 << spec.n() {
        text.push(character(row(spec, h, t)))?;
    }
    Ok(())
}

/// Appends the tables, a line for each output.
#[tactic(auto, using(crate::proofs::Written::tables))]
pub fn push_tables(text: &mut Vec<u8>, spec: &Spec) -> Result<(), AllocError>
    ensures { OnOk result (text.new.items ≡ text.old.items ++ tables_to spec.now (length spec.now.on)) }
{
    for before in 0..spec.outputs() {
        push_cells(text, spec, before + 1)?;
        text.push(b'\n')?;
    }
    Ok(())
}

/// Appends a line of a word and a number. The only error is that memory runs out.
pub fn push_numbered(text: &mut Vec<u8>, word: &[u8], number: u32) -> Result<(), AllocError>
    ensures { OnOk result (text.new.items ≡ text.old.items ++ line_bytes (line (word.now ++ decimal number))) }
{
    text.extend_from_slice(word)?;
    push_number(text, number)?;
    text.extend_from_slice(b"\n")
}
