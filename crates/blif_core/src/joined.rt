//! The cover lines of tables that are AND or OR of all their inputs: one line for AND, and one for each input for
//! OR. Parities aren't written here.

ghost use Rattle.std.specs.Prelude.{◌≡◌, ◌-◌, ◌<◌, ◌∷◌, ◌++◌, OnOk, IfOk};
ghost use Rattle.std.specs.List.{flat_map};
ghost use Rattle.net_theory.specs.Whole.{ones as ones_of, dashes, single_ones};
ghost use Rattle.net_core.specs.Wholes.{whole_cover};
ghost use Rattle.blif_core.specs.Spelling as spelling;

use crate::spelling::push_row;
use net_core::{Connective, Whole};
use std::alloc::{AllocError, Global};

/// The cube with a `1` for each input.
#[tactic(auto, using(crate::proofs::JoinedRows::cubes))]
fn ones(alloc: Global, width: u32) -> Result<Vec<u8>, AllocError>
    ensures { IfOk result (λ cube. cube.items ≡ ones_of width) }
{
    Ok(vec![in alloc; b'1'; width as usize]?)
}

/// The cube whose only literal is the input with this index, counted from 0.
#[tactic(auto, using(crate::proofs::JoinedRows::cubes))]
fn single(alloc: Global, width: u32, index: u32) -> Result<Vec<u8>, AllocError>
    requires { index < width }
    ensures { IfOk result (λ cube. cube.items ≡ dashes index ++ 49 ∷ dashes (width - index - 1)) }
{
    let mut cube = vec![in alloc; b'-'; width as usize]?;
    cube[index as usize] = b'1';
    Ok(cube)
}

/// Adds the cover line of AND.
fn push_ones(text: &mut Vec<u8>, on: bool, width: u32) -> Result<(), AllocError>
    ensures { OnOk result (text.new.items ≡ text.old.items ++ spelling.row_text on (ones_of width)) }
{
    let cube = ones(*text.allocator(), width)?;
    push_row(text, on, &cube)
}

/// Adds the cover lines of OR.
#[tactic(auto, using(crate::proofs::JoinedRows::rows))]
fn push_singles(text: &mut Vec<u8>, on: bool, width: u32) -> Result<(), AllocError>
    ensures { OnOk result (text.new.items ≡ text.old.items ++ flat_map (spelling.row_text on) (single_ones width)) }
{
    for index in 0..width {
        let cube = single(*text.allocator(), width, index)?;
        push_row(text, on, &cube)?;
    }
    Ok(())
}

/// Adds the cover lines of AND or OR of all inputs.
pub fn push_joined(text: &mut Vec<u8>, whole: Whole) -> Result<(), AllocError>
    ensures { OnOk result (text.new.items ≡ text.old.items ++
        flat_map (spelling.row_text (whole_cover whole).on) (whole_cover whole).cubes) }
{
    match whole.connective {
        Connective::And => push_ones(text, whole.on, whole.width),
        Connective::Or => push_singles(text, whole.on, whole.width),
        Connective::Xor => Ok(()),
    }
}
