//! The log of a part as plain LRAT. In a certificate the log of a formula with the empty clause has no lines; other
//! checkers need one, which names that clause.
ghost use Rattle.std.specs.Prelude.{◌≡◌, ◌-◌, ◌<◌, ◌≤◌, length, IfOk};
ghost use Rattle.text_core.specs.Lines.{lines_of};
ghost use Rattle.cert_theory.specs.Spelling.{text_of};
ghost use Rattle.cmd_formula.specs.Dimacs.{empty_from, naming_by, lrat_text};
ghost use Rattle.cmd_formula.specs.LogLines.{log_lines};
ghost use Rattle.cmd_formula.specs.PlainLogs.{or_naming};
ghost use Rattle.chain_theory.specs.Limits.{most_steps};

use crate::lines::log_text;
use cnf_core::{Clause, Cnf};
use lrat_text::{Line, write_line};
use std::alloc::{AllocError, Global};

/// The number of the first empty clause, from 1 on.
#[tactic(auto, unfolding(crate::specs::Dimacs::empty_from))]
fn first_empty(clauses: &[Clause]) -> Option<u32>
    requires { length clauses.now < 2000000000 }
    ensures { result ≡ empty_from 1 clauses.now }
{
    let mut number = 1;
    let mut left = clauses;
    while let Some((clause, rest)) = left.split_first() {
        if clause.lits().is_empty() {
            return Some(number);
        }
        number += 1;
        left = rest;
    }
    None
}

/// The line that names the empty clause of a formula; nothing if it has none.
pub fn naming(alloc: Global, cnf: &Cnf) -> Result<Vec<u8>, AllocError>
    ensures { IfOk result (λ text. text.items ≡
        lrat_text (naming_by (length cnf.now.clauses) (empty_from 1 cnf.now.clauses))) }
{
    let mut text = Vec::new(alloc);
    let clauses = cnf.clauses();
    let Some(number) = first_empty(clauses) else {
        return Ok(text);
    };
    let mut hints = Vec::new(alloc);
    hints.push(number)?;
    let line = Line::Add {
        id: clauses.len() as u32 + 1,
        lits: Vec::new(alloc),
        hints,
    };
    write_line(&line, &mut text)?;
    Ok(text)
}

/// The log of a part over its formula, where the certificate has the part.
pub(crate) fn plain_text(
    alloc: Global,
    bytes: &[u8],
    size: u32,
    part: u32,
    cnf: &Cnf,
) -> Result<Vec<u8>, AllocError>
    requires { size ≤ most_steps }
    ensures { IfOk result (λ text. text.items ≡
        or_naming cnf.now (text_of (log_lines size (part - 1) (lines_of bytes.now)))) }
{
    let text = log_text(alloc, bytes, size, part)?;
    if text.is_empty() {
        return naming(alloc, cnf);
    }
    Ok(text)
}
