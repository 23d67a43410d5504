//! Formulas for the tests.
use cnf_core::{Clause, Cnf};
use lrat_text::{Line, read_line};
use std::alloc::{AllocError, Global};

/// The clause of the addition that a text spells; the empty clause if it spells none.
pub fn clause(alloc: Global, text: &[u8]) -> Clause {
    match read_line(alloc, text) {
        Ok(Line::Add { lits, .. }) => Clause::new(lits),
        _ => Clause::new(Vec::new(alloc)),
    }
}

/// Adds a clause over the formula's variables.
pub fn push_within(cnf: &mut Cnf, clause: Clause) -> Result<(), AllocError> {
    if clause.is_within(cnf.vars()) && cnf.clauses().len() < 9999 {
        cnf.push(clause)?;
    }
    Ok(())
}

/// The formula of some clauses over the variables 1 to `vars`.
pub fn formula(alloc: Global, vars: u32, clauses: &[&[u8]]) -> Result<Cnf, AllocError> {
    let mut cnf = Cnf::new(alloc, vars.min(99));
    for text in clauses {
        push_within(&mut cnf, clause(alloc, text))?;
    }
    Ok(cnf)
}
