//! The writer of formulas in DIMACS: the line `p cnf VARIABLES CLAUSES`, and each clause on a line of its own.
ghost use Rattle.std.specs.Prelude.{◌≡◌, ◌++◌, OnOk};
ghost use Rattle.std.specs.List.{flat_map};
ghost use Rattle.lrat_text.specs.Spelling.{literal_item};
ghost use Rattle.cmd_formula.specs.Dimacs.{clause_text, dimacs_text};

use cnf_core::{Clause, Cnf, Lit};
use itoa::Buffer;
use std::alloc::AllocError;
use text_core::push_number;

/// Appends literals, each followed by a blank.
fn push_lits(text: &mut Vec<u8>, lits: &[Lit]) -> Result<(), AllocError>
    ensures { OnOk result (text.new.items ≡ text.old.items ++ flat_map literal_item lits.now) }
{
    let mut buffer = Buffer::new();
    for lit in lits {
        text.extend_from_slice(buffer.format(lit.get()).as_bytes())?;
        text.push(b' ')?;
    }
    Ok(())
}

/// Appends a clause.
#[tactic(auto, using(crate::proofs::Written::written))]
fn push_clause(text: &mut Vec<u8>, clause: &Clause) -> Result<(), AllocError>
    ensures { OnOk result (text.new.items ≡ text.old.items ++ clause_text clause.now) }
{
    push_lits(text, clause.lits())?;
    text.extend_from_slice(b"0\n")
}

/// Appends clauses.
fn push_clauses(text: &mut Vec<u8>, clauses: &[Clause]) -> Result<(), AllocError>
    ensures { OnOk result (text.new.items ≡ text.old.items ++ flat_map clause_text clauses.now) }
{
    for clause in clauses {
        push_clause(text, clause)?;
    }
    Ok(())
}

/// Appends a formula in DIMACS.
#[tactic(auto, using(crate::proofs::Written::written))]
pub fn push_dimacs(text: &mut Vec<u8>, cnf: &Cnf) -> Result<(), AllocError>
    ensures { OnOk result (text.new.items ≡ text.old.items ++ dimacs_text cnf.now) }
{
    let clauses = cnf.clauses();
    text.extend_from_slice(b"p cnf ")?;
    push_number(text, cnf.vars())?;
    text.extend_from_slice(b" ")?;
    push_number(text, clauses.len() as u32)?;
    text.extend_from_slice(b"\n")?;
    push_clauses(text, clauses)
}
