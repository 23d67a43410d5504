//! The cells of a table line, and the two words that hold them.
ghost use Rattle.std.specs.Prelude.{◌≡◌, ◌≤◌, [], ◌∷◌, ◌++◌, length, OnOk, OnErr};
ghost use Rattle.std.specs.List.{list_all};
ghost use Rattle.tt_core.specs.Cells.{is_cell, on_bit, care_bit, word_of};

use std::alloc::AllocError;

/// Whether each character of a table line is `0`, `1` or `-`.
pub fn are_cells(text: &[u8]) -> bool
    ensures { result ≡ list_all is_cell text.now }
{
    text.iter().all(|character| *character == b'0' || *character == b'1' || *character == b'-')
}

/// The values and the care set of a table line: bit t is that of row t. A row that isn't specified has
/// the value 0.
#[tactic(auto, using(crate::specs::CellWordLaws::growing), unfolding(crate::specs::Cells::word_of))]
pub(crate) fn row_words(text: &[u8]) -> (u64, u64)
    requires { length text.now ≤ 64 }
    ensures { result ≡ (word_of on_bit text.now, word_of care_bit text.now) }
{
    let mut on = 0u64;
    let mut care = 0u64;
    for (row, character) in text.iter().enumerate() {
        if *character == b'1' {
            on |= 1 << row;
        }
        if *character != b'-' {
            care |= 1 << row;
        }
    }
    (on, care)
}

/// Appends a word to each of two lists, or to neither if memory runs out.
pub(crate) fn push_both(
    on: &mut Vec<u64>,
    care: &mut Vec<u64>,
    values: u64,
    cares: u64,
) -> Result<(), AllocError>
    ensures values { OnOk result (on.new.items ≡ on.old.items ++ values ∷ []) }
    ensures cares { OnOk result (care.new.items ≡ care.old.items ++ cares ∷ []) }
    ensures values_unchanged { OnErr result (on.new.items ≡ on.old.items) }
    ensures cares_unchanged { OnErr result (care.new.items ≡ care.old.items) }
{
    on.push(values)?;
    if let Err(error) = care.push(cares) {
        on.pop();
        return Err(AllocError::from(error));
    }
    Ok(())
}
