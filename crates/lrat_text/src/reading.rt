//! The reader of lines. It has the same parts as the grammar: each function returns what the definition of the
//! same name says, so the first fault from the left is reported.
ghost use Rattle.std.specs.Prelude.{◌≡◌, [], Ok, IfOk};
ghost use Rattle.text_core.specs.Items.{items_of, items_left};
ghost use Rattle.sat_theory.specs.Line as theory;
ghost use Rattle.sat_theory.specs.Line.{IsLine, HasClause};
ghost use Rattle.lrat_text.specs.Reading as spec;
ghost use Rattle.lrat_text.specs.Spelling.{line_body};
ghost use Rattle.lrat_text.specs.Values.{line_value};
ghost use Rattle.lrat_text.specs.Gives.{Gives};

use crate::numerals::{begins_minus, is_letter_d, next_id, next_literal};
use crate::repeats::{MARKS, comes_again};
use crate::{Line, LineError};
use cnf_core::Lit;
use std::alloc::{AllocError, Global};
use std::collections::HashSet;
use text_core::next_item;

/// The line, if nothing follows its last 0.
fn finish(line: Line, rest: Option<&[u8]>) -> Result<Line, LineError>
    ensures { Gives result (spec.end_of (line_value line) (items_left rest.entry)) }
{
    if rest.is_some() {
        return Err(LineError::NoEnd);
    }
    Ok(line)
}

/// An empty list with room for the hints of a text. Most hints take four bytes or more in a text, so the list
/// seldom has to grow.
fn room(alloc: Global, text: Option<&[u8]>) -> Result<Vec<u32>, AllocError>
    ensures { IfOk result (λ hints. hints.items ≡ []) }
{
    match text {
        Some(text) => Vec::with_capacity(alloc, text.len() / 4),
        None => Ok(Vec::new(alloc)),
    }
}

/// Reads the hints of an addition and finishes the line.
#[tactic(auto, unfolding(crate::specs::Reading::hints_of))]
fn hints_of(alloc: Global, id: u32, lits: Vec<Lit>, text: Option<&[u8]>) -> Result<Line, LineError>
    ensures { Gives result (spec.hints_of id lits.items [] (items_left text.entry)) }
{
    let mut hints = room(alloc, text)?;
    let mut left = text;
    while let Some(text) = left {
        if begins_minus(text) {
            return Err(LineError::RatHint);
        }
        let Some((entry, rest)) = next_id(text) else {
            return Err(LineError::BadNumber);
        };
        let Some(hint) = entry else {
            return finish(Line::Add { id, lits, hints }, rest);
        };
        hints.push(hint)?;
        left = rest;
    }
    Err(LineError::NoEnd)
}

/// Reads the literals of an addition, then its hints, and finishes the line.
#[tactic(auto, unfolding(crate::specs::Reading::lits_of))]
fn lits_of(alloc: Global, id: u32, text: &[u8]) -> Result<Line, LineError>
    ensures { Gives result (spec.lits_of id [] (items_of text.now)) }
{
    let mut lits = Vec::new(alloc);
    let mut marks = [false; MARKS];
    let mut seen = HashSet::new(alloc);
    let mut left = Some(text);
    while let Some(text) = left {
        let Some((entry, rest)) = next_literal(text) else {
            return Err(LineError::BadNumber);
        };
        let Some(lit) = entry else {
            return hints_of(alloc, id, lits, rest);
        };
        if comes_again(&mut marks, &mut seen, &lits, lit)? {
            return Err(LineError::RepeatedVariable);
        }
        lits.push(lit)?;
        left = rest;
    }
    Err(LineError::NoEnd)
}

/// Reads the ids of a deletion and finishes the line.
#[tactic(auto, unfolding(crate::specs::Reading::ids_of))]
fn ids_of(alloc: Global, id: u32, text: Option<&[u8]>) -> Result<Line, LineError>
    ensures { Gives result (spec.ids_of id [] (items_left text.entry)) }
{
    let mut ids = Vec::new(alloc);
    let mut left = text;
    while let Some(text) = left {
        let Some((entry, rest)) = next_id(text) else {
            return Err(LineError::BadNumber);
        };
        let Some(deleted) = entry else {
            return finish(Line::Delete { id, ids }, rest);
        };
        ids.push(deleted)?;
        left = rest;
    }
    Err(LineError::NoEnd)
}

/// Reads the text after the line's own id.
fn after_id(alloc: Global, id: u32, left: Option<&[u8]>) -> Result<Line, LineError>
    ensures { Gives result (spec.after_id id (items_left left.entry)) }
{
    let Some(text) = left else {
        return Err(LineError::NoEnd);
    };
    let (item, rest) = next_item(text);
    if is_letter_d(item) {
        return ids_of(alloc, id, rest);
    }
    lits_of(alloc, id, text)
}

/// Reads a line by the grammar.
fn read(alloc: Global, text: &[u8]) -> Result<Line, LineError>
    ensures { Gives result (spec.line_in text.now) }
{
    let Some((Some(id), rest)) = next_id(text) else {
        return Err(LineError::BadNumber);
    };
    after_id(alloc, id, rest)
}

/// Reads one line, without its LF. An addition is `ID literals 0 hints 0`, a deletion is `ID d ids
/// 0`; items are separated by one blank.
pub fn read_line(alloc: Global, line: &[u8]) -> Result<Line, LineError>
    // A line that is read can be written, and the text is its spelling.
    ensures is_line { IfOk result (λ l. IsLine (line_value l)) }
    ensures clause { IfOk result (λ l. HasClause (line_value l)) }
    ensures spelled { IfOk result (λ l. line.now ≡ line_body (line_value l)) }
    // The spelling of a line is read as that line.
    ensures read { (l : theory.Line) → IsLine l → line.now ≡ line_body l → Gives result (Ok l) }
    // The text is refused if and only if the grammar has a fault, with the first fault from the left.
    ensures exact { Gives result (spec.line_in line.now) }
{
    read(alloc, line)
}
