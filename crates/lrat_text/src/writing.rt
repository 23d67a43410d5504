//! The writer of lines, in the spelling of the grammar. A line is built in a buffer of its own and appended as a
//! whole, so the text is unchanged if memory runs out.
ghost use Rattle.std.specs.Prelude.{◌≡◌, ◌++◌, OnOk, OnErr};
ghost use Rattle.std.specs.List.{flat_map};
ghost use Rattle.sat_theory.specs.Line as theory;
ghost use Rattle.lrat_text.specs.Spelling.{id_item, literal_item, line_text};
ghost use Rattle.lrat_text.specs.Values.{line_value};

use crate::Line;
use cnf_core::Lit;
use itoa::Buffer;
use std::alloc::AllocError;
use text_core::push_number;

/// Appends ids, each followed by a blank.
fn push_ids(text: &mut Vec<u8>, ids: &[u32]) -> Result<(), AllocError>
    ensures { OnOk result (text.new.items ≡ text.old.items ++ flat_map id_item ids.now) }
{
    let mut buffer = Buffer::new();
    for id in ids {
        text.extend_from_slice(buffer.format(*id).as_bytes())?;
        text.push(b' ')?;
    }
    Ok(())
}

/// Appends literals, each followed by a blank.
fn push_lits(text: &mut Vec<u8>, lits: &[Lit]) -> Result<(), AllocError>
    ensures { OnOk result (text.new.items ≡ text.old.items ++ flat_map literal_item lits.now) }
{
    let mut buffer = Buffer::new();
    for lit in lits {
        text.extend_from_slice(buffer.format(lit.get()).as_bytes())?;
        text.push(b' ')?;
    }
    Ok(())
}

/// Appends an addition.
#[tactic(auto, using(crate::proofs::Written::written))]
fn push_addition(text: &mut Vec<u8>, id: u32, lits: &[Lit], hints: &[u32]) -> Result<(), AllocError>
    ensures { OnOk result (text.new.items ≡ text.old.items ++ line_text (theory.Add id lits.now hints.now)) }
{
    push_number(text, id)?;
    text.push(b' ')?;
    push_lits(text, lits)?;
    text.extend_from_slice(b"0 ")?;
    push_ids(text, hints)?;
    text.extend_from_slice(b"0\n")
}

/// Appends a deletion.
#[tactic(auto, using(crate::proofs::Written::written))]
fn push_deletion(text: &mut Vec<u8>, id: u32, ids: &[u32]) -> Result<(), AllocError>
    ensures { OnOk result (text.new.items ≡ text.old.items ++ line_text (theory.Delete id ids.now)) }
{
    push_number(text, id)?;
    text.extend_from_slice(b" d ")?;
    push_ids(text, ids)?;
    text.extend_from_slice(b"0\n")
}

/// Appends a line.
fn push_line(text: &mut Vec<u8>, line: &Line) -> Result<(), AllocError>
    ensures { OnOk result (text.new.items ≡ text.old.items ++ line_text (line_value line.now)) }
{
    match line {
        Line::Add { id, lits, hints } => push_addition(text, *id, lits, hints),
        Line::Delete { id, ids } => push_deletion(text, *id, ids),
    }
}

/// The room for a line whose numbers have at most seven characters: eight bytes for each number with its blank,
/// and 32 bytes for the id and the ends of the lists. For a longer line the buffer grows.
fn room(line: &Line) -> usize {
    let numbers = match line {
        Line::Add { lits, hints, .. } => lits.len().saturating_add(hints.len()),
        Line::Delete { ids, .. } => ids.len(),
    };
    numbers.saturating_add(4).saturating_mul(8)
}

/// Appends the spelling of a line, with its LF. `read_line` reads it again if the ids, literals and hints are in
/// their ranges and no variable occurs twice.
pub fn write_line(line: &Line, out: &mut Vec<u8>) -> Result<(), AllocError>
    ensures ok { OnOk result (out.new.items ≡ out.old.items ++ line_text (line_value line.now)) }
    ensures err { OnErr result (out.new.items ≡ out.old.items) }
{
    let mut text = Vec::with_capacity(*out.allocator(), room(line))?;
    push_line(&mut text, line)?;
    out.extend_from_slice(&text)
}
