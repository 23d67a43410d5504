//! Formulas built clause by clause, and the pigeonhole formulas.
use crate::building::{clause, push_within};
use cnf_core::Cnf;
use std::alloc::{AllocError, Global};

/// Appends a number.
fn spell(alloc: Global, text: &mut String, number: i64) -> Result<(), AllocError> {
    text.push_str(format!(in alloc; "{number} ")?.as_str())
}

/// Appends these literals as an addition in the text format of logs.
fn spell_all(alloc: Global, text: &mut String, lits: &[i64]) -> Result<(), AllocError> {
    text.push_str("1 ")?;
    for lit in lits {
        spell(alloc, text, *lit)?;
    }
    text.push_str("0 0")
}

/// Adds the clause of these literals.
pub(crate) fn push(alloc: Global, cnf: &mut Cnf, lits: &[i64]) -> Result<(), AllocError> {
    let mut text = String::new(alloc);
    spell_all(alloc, &mut text, lits)?;
    push_within(cnf, clause(alloc, text.as_bytes()))
}

/// The variable that is true if a pigeon has a hole.
fn place(holes: u32, pigeon: u32, hole: u32) -> u32 {
    holes.wrapping_mul(pigeon).wrapping_add(hole)
}

/// Adds the clause that a pigeon has one of the holes.
fn push_pigeon(alloc: Global, cnf: &mut Cnf, holes: u32, pigeon: u32) -> Result<(), AllocError> {
    let mut lits = Vec::new(alloc);
    for hole in 1..=holes {
        lits.push(i64::from(place(holes, pigeon, hole)))?;
    }
    push(alloc, cnf, &lits)
}

/// Adds the clauses that no two pigeons share a hole.
fn push_hole(alloc: Global, cnf: &mut Cnf, holes: u32, hole: u32) -> Result<(), AllocError> {
    for pigeon in 0..=holes {
        for other in 0..pigeon {
            let first = -i64::from(place(holes, pigeon, hole));
            let second = -i64::from(place(holes, other, hole));
            push(alloc, cnf, &[first, second])?;
        }
    }
    Ok(())
}

/// Adds the clauses that each pigeon has a hole of its own.
fn push_pigeons(alloc: Global, cnf: &mut Cnf, holes: u32) -> Result<(), AllocError> {
    for pigeon in 0..=holes {
        push_pigeon(alloc, cnf, holes, pigeon)?;
    }
    for hole in 1..=holes {
        push_hole(alloc, cnf, holes, hole)?;
    }
    Ok(())
}

/// The pigeonhole formula: `holes` + 1 pigeons, at most 10, each in a hole of its own. It is unsatisfiable.
pub(crate) fn pigeons(alloc: Global, holes: u32) -> Result<Cnf, AllocError> {
    let holes = holes.min(9);
    let mut cnf = Cnf::new(alloc, holes * (holes + 1));
    push_pigeons(alloc, &mut cnf, holes)?;
    Ok(cnf)
}
