//! Cover lines (`1-0 1`).

ghost use Rattle.std.specs.Prelude.{◌≡◌};
ghost use Rattle.std.specs.List.{list_all};
ghost use Rattle.net_theory.specs.Cover.{is_cube as is_cube_of, is_cube_byte};
ghost use Rattle.blif_text.specs.Reading.{Gives};
ghost use Rattle.blif_text.specs.Words.{words_of};
ghost use Rattle.blif_text.specs.Rows.{bit_in as bit_in_of, cover_line_in as row_in_of, agrees as agrees_of, row_of};
ghost use Rattle.blif_text.specs.Found.{row_found};

use crate::reading::CoverTable;
use crate::words::next_word;
use net_document::{Cube, NetError};
use net_theory::MOST_CUBES;
use std::alloc::Global;

/// The bit that a word of the one byte `0` or `1` spells.
#[tactic(auto, unfolding(crate::specs::Rows::bit_in))]
fn bit_in(word: &[u8]) -> Option<bool>
    ensures { result ≡ bit_in_of word.now }
{
    match word {
        [b'1'] => Some(true),
        [b'0'] => Some(false),
        _ => None,
    }
}

/// Whether all bytes are `0`, `1` or `-`.
fn are_cube_bytes(bytes: &[u8]) -> bool
    ensures { result ≡ list_all is_cube_byte bytes.now }
{
    bytes
        .iter()
        .all(|byte| *byte == b'0' || *byte == b'1' || *byte == b'-')
}

/// Whether the bytes form a cube of `width` inputs.
fn is_cube(width: u32, bytes: &[u8]) -> bool
    ensures { result ≡ is_cube_of width bytes.now }
{
    bytes.len() == width as usize && are_cube_bytes(bytes)
}

/// The cube and the output value of a cover line, in a table of `width` inputs.
#[tactic(auto, unfolding(crate::specs::Rows::cover_line_in))]
fn cover_line_in(width: u32, text: &[u8]) -> Option<(&[u8], bool)>
    ensures { row_found result ≡ row_in_of width (words_of text.now) }
{
    let (first, rest) = next_word(text)?;
    let Some((value, rest)) = next_word(rest) else {
        if width != 0 {
            return None;
        }
        return Some((&[], bit_in(first)?));
    };
    if next_word(rest).is_some() || !is_cube(width, first) {
        return None;
    }
    Some((first, bit_in(value)?))
}

/// `one == other`, by cases as in the definition; for the prover.
fn agrees(one: bool, other: bool) -> bool
    ensures { result ≡ agrees_of one other }
{
    if one { other } else { !other }
}

/// Adds a cover line to a table.
#[tactic(auto, unfolding(crate::specs::Rows::row_of))]
pub fn take_cover_line(
    alloc: Global,
    line: u32,
    table: &mut CoverTable,
    text: &[u8],
) -> Result<(), NetError>
    ensures { Gives (λ _. table.new) result (row_of line table.old (words_of text.now)) }
{
    let Some((cube, on)) = cover_line_in(table.cover.width, text) else {
        return Err(NetError::Syntax(line));
    };
    if table.cover.cubes.len() >= MOST_CUBES {
        return Err(NetError::TooManyRows(line));
    }
    if !table.cover.cubes.is_empty() && !agrees(on, table.cover.on) {
        return Err(NetError::MixedCover(line));
    }
    table
        .cover
        .cubes
        .push(Cube::new(Vec::from_slice(alloc, cube)?))?;
    table.cover.on = on;
    Ok(())
}
