//! Solves the formula at the beginning of a text, in the format that `check` reads.
use crate::check::{Fault, formula};
use cdcl_core::{Cdcl, Solved};
use cnf_core::Cnf;
use log_core::Log;
use lrat_text::Line;
use sat_solve::Solver;
use std::alloc::{AllocError, Global};

/// The maximal number of clauses that the solver may learn.
const BUDGET: u32 = 10_000_000;

/// How a formula was decided.
#[derive(Clone, Copy, Debug)]
pub enum Answer {
    /// An assignment satisfies it.
    Satisfied,
    /// A log refutes it.
    Refuted,
    /// The budget is exhausted.
    Open,
}

/// The outcome of a search.
#[derive(Clone, Copy)]
pub struct SolveOutcome {
    /// How the formula was decided.
    pub answer: Answer,
    /// The number of conflicts, which are the additions of the log; 0 if the formula is satisfied.
    pub conflicts: u64,
    /// The number of hints of the log, one for each clause that a conflict analysis resolved.
    pub hints: u64,
}

/// The outcome that a log of the solver shows.
fn outcome_of(alloc: Global, answer: Answer, log: &Log) -> Result<SolveOutcome, AllocError> {
    let mut conflicts = 0u64;
    let mut hints = 0u64;
    let mut left = log.lines();
    while let Some(line) = left.next(alloc)? {
        if let Line::Add { hints: shown, .. } = &line {
            conflicts = conflicts.saturating_add(1);
            hints = hints.saturating_add(shown.len() as u64);
        }
    }
    Ok(SolveOutcome {
        answer,
        conflicts,
        hints,
    })
}

/// Solves a formula.
fn solve_cnf(alloc: Global, cnf: &Cnf) -> Result<SolveOutcome, AllocError> {
    match Cdcl::solve(alloc, cnf, BUDGET)? {
        Solved::Sat(_) => Ok(SolveOutcome {
            answer: Answer::Satisfied,
            conflicts: 0,
            hints: 0,
        }),
        Solved::Unsat(log) => outcome_of(alloc, Answer::Refuted, &log),
        Solved::Open(log) => outcome_of(alloc, Answer::Open, &log),
    }
}

/// Solves the formula at the beginning of a text.
pub fn solve_front(alloc: Global, text: &[u8]) -> Result<SolveOutcome, Fault> {
    let (cnf, _log) = formula(alloc, text)?;
    Ok(solve_cnf(alloc, &cnf)?)
}
