//! The capacities that the clauses of a formula need, so that no list grows while they are added. No contract
//! depends on them: with other numbers, lists would grow.
use cnf_core::{Cnf, Lit};
use std::alloc::{AllocError, Global};

/// Spare capacity for later additions: an eighth more, and this number.
const FEW: usize = 8;

/// The numbers of clauses, of their literals, and of the clauses that watch each literal, by its code.
#[derive(Drop)]
pub(crate) struct Room {
    clauses: usize,
    literals: usize,
    watching: Vec<u32>,
}

impl Room {
    /// Counts for a formula whose clauses watch their first two literals.
    pub(crate) fn of(alloc: Global, cnf: &Cnf) -> Result<Room, AllocError> {
        let mut watching = vec![in alloc; 0; 2 * cnf.vars() as usize + 2]?;
        let mut literals: usize = 0;
        for clause in cnf.clauses() {
            let lits = clause.lits();
            literals = literals.saturating_add(lits.len());
            count_first_two(&mut watching, lits);
        }
        Ok(Room {
            clauses: cnf.clauses().len(),
            literals,
            watching,
        })
    }

    /// The capacity for clauses.
    pub(crate) fn clauses(&self) -> usize {
        with_more(self.clauses)
    }

    /// The capacity for literals.
    pub(crate) fn literals(&self) -> usize {
        with_more(self.literals)
    }

    /// The capacity of the watch list of a literal, by its code.
    pub(crate) fn watching(&self, code: usize) -> usize {
        match self.watching.get(code) {
            Some(0) => 0,
            Some(count) => (*count as usize).saturating_add(2),
            None => 0,
        }
    }
}

/// Counts the first two literals of a clause, if it has two.
fn count_first_two(watching: &mut [u32], lits: &[Lit]) {
    if lits.len() < 2 {
        return;
    }
    count(watching, lits[0].code());
    count(watching, lits[1].code());
}

/// Counts one more at a code.
fn count(watching: &mut [u32], code: usize) {
    if code < watching.len() {
        watching[code] = watching[code].saturating_add(1);
    }
}

/// A number with spare capacity.
fn with_more(count: usize) -> usize {
    count.saturating_add(count / 8).saturating_add(FEW)
}
