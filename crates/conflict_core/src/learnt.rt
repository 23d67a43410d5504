//! The result of the analysis of a conflict.
use cnf_core::Lit;

/// A clause that was learnt from a conflict.
#[derive(Drop)]
pub struct Learnt {
    /// Its literals: first the one of the conflict's level (the asserting literal), second the one of the
    /// others that became false last.
    pub lits: Vec<Lit>,
    /// `falsified_at` of the second literal, a trail position and not a level: the backjump keeps the levels
    /// that begin below it; 0 if the clause is unit.
    pub back: u32,
    /// The ids of the clauses from which it follows, in the order of a log's hints.
    pub hints: Vec<u32>,
}
