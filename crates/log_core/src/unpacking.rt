//! Lists read from bytes. Any bytes spell a list, so reading needs no invariant of the array.
ghost use Rattle.std.specs.Prelude.{◌≡◌, length, IfOk};
ghost use Rattle.log_core.specs.Lists as spec;
ghost use Rattle.log_core.specs.Rows.{size_of, line_in};
ghost use Rattle.lrat_text.specs.Values.{line_value};

use crate::head::Head;
use crate::numbers::next_number;
use crate::steps::stepped;
use cnf_core::Lit;
use lrat_text::Line;
use std::alloc::{AllocError, Global};

/// The greatest variable.
const MOST_VARIABLE: u64 = sat_theory::MOST_VARIABLE as u64;

/// The ids that bytes spell, at most one for each byte.
#[tactic(auto, using(crate::proofs::Taken::taken))]
fn ids_of(alloc: Global, bytes: &[u8]) -> Result<Vec<u32>, AllocError>
    ensures { IfOk result (λ ids. ids.items ≡ spec.ids_of bytes.now) }
{
    let mut ids = Vec::with_capacity(alloc, bytes.len())?;
    let mut last = 0u32;
    let mut left = bytes;
    while let Some((number, rest)) = next_number(left) {
        last = stepped(last, number);
        ids.push(last)?;
        left = rest;
    }
    Ok(ids)
}

/// The literal that a number encodes, with its variable clamped to 1 to `MOST_VARIABLE`.
#[tactic(auto, unfolding(crate::specs::Lists::literal_at, crate::specs::Lists::variable_at))]
pub(crate) fn literal_at(number: u64) -> Lit
    ensures { result ≡ spec.literal_at number }
{
    let variable = (number / 2).min(MOST_VARIABLE).max(1) as u32;
    Lit::of(variable, number % 2 == 0)
}

/// The literals that bytes spell, at most one for each byte.
#[tactic(auto, using(crate::proofs::Taken::taken))]
fn literals_of(alloc: Global, bytes: &[u8]) -> Result<Vec<Lit>, AllocError>
    ensures { IfOk result (λ lits. lits.items ≡ spec.literals_of bytes.now) }
{
    let mut lits = Vec::with_capacity(alloc, bytes.len())?;
    let mut left = bytes;
    while let Some((number, rest)) = next_number(left) {
        lits.push(literal_at(number))?;
        left = rest;
    }
    Ok(lits)
}

/// The line that a head and its bytes spell.
pub(crate) fn line_in(alloc: Global, head: Head, bytes: &[u8]) -> Result<Line, AllocError>
    requires { length bytes.now ≡ size_of head }
    ensures { IfOk result (λ line. line_value line ≡ line_in head bytes.now) }
{
    match head {
        Head::Add { id, lits, hints: _ } => {
            let (prefix, back) = bytes.split_at(lits as usize);
            Ok(Line::Add {
                id,
                lits: literals_of(alloc, prefix)?,
                hints: ids_of(alloc, back)?,
            })
        }
        Head::Delete { id, ids: _ } => Ok(Line::Delete {
            id,
            ids: ids_of(alloc, bytes)?,
        }),
    }
}
