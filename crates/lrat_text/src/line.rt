//! Lines of a log as values. Contracts see them as the lines of the definitions (`line_value`).
use cnf_core::Lit;

/// A line of a refutation log.
#[derive(Drop)]
pub enum Line {
    /// Adds the clause of these literals with the id; the hints are the ids of the clauses that become
    /// unit, in the order of unit propagation, and last the id of the conflict.
    Add {
        id: u32,
        lits: Vec<Lit>,
        hints: Vec<u32>,
    },
    /// Removes the clauses with these ids. The line's own id has no meaning.
    Delete {
        id: u32,
        ids: Vec<u32>,
    },
}
