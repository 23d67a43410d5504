//! Tables are read line by line: the header, and then rows until the text ends or a line begins
//! with a lower-case letter. The loop invariant is an equation: the grammar of the lines that are
//! left, given the words of the rows already read, is the grammar of the whole text. So each refusal
//! is the first error of the grammar.
ghost use Rattle.std.specs.Prelude.{◌≡◌, ◌+◌, ◌^◌, ◌<◌, ◌≤◌, List, [], ◌∷◌, ◌++◌, length, IfOk, OnOk, OnErr};
ghost use Rattle.std.proofs.Common.{drop};
ghost use Rattle.text_core.specs.Lines.{Line, lines_of};
ghost use Rattle.tt_core.specs.Cells.{on_bit, care_bit, word_of};
ghost use Rattle.tt_core.specs.Gives.{Gives};
ghost use Rattle.tt_core.specs.Used.{read_of};
ghost use Rattle.tt_core.specs.Tables.{inputs_of, end_of, tables_of};
ghost use Rattle.tt_core.specs.Spelling.{SpellsTables};
ghost use Rattle.tt_core.specs.Words.{Words, IsSpec, specification};
ghost use Rattle.chain_theory.specs.Limits.{most_outputs};

use crate::cells::{are_cells, push_both, row_words};
use crate::{MOST_INPUTS, MOST_OUTPUTS, Spec, SpecError};
use std::alloc::{AllocError, Global};
use text_core::{MOST_NUMBER, after, begins_lower, next_line, number_up_to};

/// What was read from a text: the specification, and the numbers of bytes and lines of its tables.
#[derive(Drop)]
pub struct Tables {
    /// The specification.
    pub spec: Spec,
    /// How many bytes were read. The bytes after them aren't checked.
    pub used: usize,
    /// How many lines were read, the header included.
    pub lines: u32,
}

/// The number of inputs in a header line, `text` without its LF; `ended` tells whether it has one.
/// None where the line isn't `inputs ` and a number of at most nine digits, or has no LF.
pub fn inputs(text: &[u8], ended: bool) -> Option<u32>
    ensures { result ≡ inputs_of (record { text = text.now; ended = ended }) }
{
    if !ended {
        return None;
    }
    number_up_to(MOST_NUMBER, after(b"inputs ", text)?)
}

/// Appends the output of a table line of `0`, `1` and `-` to the words of the outputs before it. An
/// error means that memory ran out; then nothing is appended.
#[tactic(auto, using(crate::specs::RowLaws::row_below))]
pub fn push_row(
    n: u32,
    on: &mut Vec<u64>,
    care: &mut Vec<u64>,
    text: &[u8],
) -> Result<(), AllocError>
    requires spec { IsSpec (record { n = n; on = on.old.items; care = care.old.items }) }
    requires room { length on.old.items < most_outputs }
    requires rows { length text.now ≡ 2 ^ n }
    ensures values { OnOk result (on.new.items ≡ on.old.items ++ word_of on_bit text.now ∷ []) }
    ensures cares { OnOk result (care.new.items ≡ care.old.items ++ word_of care_bit text.now ∷ []) }
    ensures spec { OnOk result (IsSpec (record { n = n; on = on.new.items; care = care.new.items })) }
    ensures values_unchanged { OnErr result (on.new.items ≡ on.old.items) }
    ensures cares_unchanged { OnErr result (care.new.items ≡ care.old.items) }
{
    let (values, cares) = row_words(text);
    push_both(on, care, values, cares)?;
    Ok(())
}

/// The tables that were read, or `NoOutput` where there is none.
fn finish(n: u32, on: Vec<u64>, care: Vec<u64>, used: usize) -> Result<Tables, SpecError>
    requires { IsSpec (record { n = n; on = on.items; care = care.items }) }
    ensures exact { (ls : List Line) → Gives (λ x. record { words = x.spec; rest = ls }) result
        (end_of (record { n = n; on = on.items; care = care.items }) ls) }
    ensures used { IfOk result (λ x. x.used ≡ used) }
    ensures lines { IfOk result (λ x. x.lines ≡ 1 + length x.spec.on) }
{
    if on.is_empty() {
        return Err(SpecError::NoOutput);
    }
    let lines = 1 + on.len() as u32;
    let spec = Spec::new(n, on, care);
    Ok(Tables { spec, used, lines })
}

/// Reads the header and the table lines as the grammar says.
#[tactic(auto, unfolding(crate::specs::Tables::rows_of), using(crate::specs::RowLaws::row_below))]
fn read(alloc: Global, bytes: &[u8]) -> Result<Tables, SpecError>
    ensures exact { Gives (read_of bytes.now) result (tables_of (lines_of bytes.now)) }
    ensures used { IfOk result (λ x. x.used ≤ length bytes.now) }
    ensures lines { IfOk result (λ x. x.lines ≡ 1 + length x.spec.on) }
    ensures whole { IfOk result (λ x. IsSpec x.spec) }
{
    let Some((text, ended, rest)) = next_line(bytes) else {
        return Err(SpecError::BadHeader(1));
    };
    let Some(n) = inputs(text, ended) else {
        return Err(SpecError::BadHeader(1));
    };
    if n > MOST_INPUTS {
        return Err(SpecError::TooManyInputs);
    }
    let mut on = Vec::new(alloc);
    let mut care = Vec::new(alloc);
    let mut left = rest;
    while let Some((text, ended, rest)) = next_line(left) {
        if begins_lower(text) {
            return finish(n, on, care, bytes.len() - left.len());
        }
        if on.len() == MOST_OUTPUTS {
            return Err(SpecError::TooManyOutputs);
        }
        let number = 2 + on.len() as u32;
        if !ended || text.is_empty() || !are_cells(text) {
            return Err(SpecError::BadRow(number));
        }
        if text.len() != 1 << n {
            return Err(SpecError::WrongLength(number));
        }
        push_row(n, &mut on, &mut care, text)?;
        left = rest;
    }
    finish(n, on, care, bytes.len() - left.len())
}

/// Reads a specification from the start of a text: the line `inputs N`, and a line for each output
/// with its cells for rows 0 to 2^N - 1, each `0`, `1` or `-` for a don't-care. The tables end with
/// the text, or before the first line that begins with a lower-case letter. Each line ends with LF.
/// There are at most six inputs, and one to eight outputs.
pub fn read_tables(alloc: Global, bytes: &[u8]) -> Result<Tables, SpecError>
    requires { length bytes.now < 2 ^ 31 }
    // The text spells what is read, character by character, and every spelling is read.
    ensures spelled { IfOk result (λ x.
        SpellsTables (specification x.spec) (lines_of bytes.now) (lines_of (drop x.used bytes.now))) }
    ensures read { (w : Words) (rest : List Line) → IsSpec w →
        SpellsTables (specification w) (lines_of bytes.now) rest →
        Gives (read_of bytes.now) result (Ok (record { words = w; rest = rest })) }

    // A text is refused exactly where the grammar finds an error, with the first one from the top.
    ensures exact { Gives (read_of bytes.now) result (tables_of (lines_of bytes.now)) }

    ensures used { IfOk result (λ x. x.used ≤ length bytes.now) }
    ensures lines { IfOk result (λ x. x.lines ≡ 1 + length x.spec.on) }
    ensures whole { IfOk result (λ x. IsSpec x.spec) }
{
    read(alloc, bytes)
}
