//! The implementation of `sat_solve::Solver`: a search, and whether its formula is decided already.
use crate::answering::conclude;
use crate::search::Search;
use cnf_core::{Cnf, Lit};
use sat_solve::{AssumptionResult, Cones, Solved, Solver};
use std::alloc::{AllocError, Global};
use std::marker::Model;

/// Whether the formula is decided already.
#[derive(Clone, Copy, Drop)]
pub(crate) enum SolverStatus {
    /// The formula has the empty clause.
    Empty,
    /// Not decided yet.
    Undecided,
    /// The log ends with the empty clause.
    Refuted,
    /// Memory ran out in a call under assumptions: the search can't be used any more.
    Failed,
}

/// A solver by conflict-driven clause learning. Contracts see its search and its status.
#[derive(Drop)]
pub struct Cdcl {
    search: Search,
    status: SolverStatus,
}

impl Model for Cdcl {
    ghost use Rattle.cdcl_core.specs.Solving.{Solving, FitsStatus};

    ghost Value = { Solving };

    ghost view = { λ c. record { search = c.search; status = c.status } };

    ghost invariant = { λ c. FitsStatus c.search c.status };
}

impl Solver for Cdcl {
    ghost use Rattle.std.specs.Prelude.{◌-◌, length};
    ghost use Rattle.cdcl_core.specs.Solving.{FitsStatusOf};

    ghost IsSolverOf = { λ f least s. FitsStatusOf f least s.search s.status };

    ghost vars_of = { λ s. s.search.trail.vars };

    ghost additions_of = { λ s. length s.search.clauses.clauses - s.search.given };

    fn new(alloc: Global, cnf: &Cnf, least: u32) -> Result<Cdcl, AllocError> {
        let mut search = Search::new(alloc, cnf, least)?;
        if cnf.has_empty() {
            return Ok(Cdcl {
                search,
                status: SolverStatus::Empty,
            });
        }
        if let Some(conflict) = search.begin()? {
            search.refute(conflict)?;
            return Ok(Cdcl {
                search,
                status: SolverStatus::Refuted,
            });
        }
        Ok(Cdcl {
            search,
            status: SolverStatus::Undecided,
        })
    }

    fn solve_assuming(
        &mut self,
        assumptions: &[Lit],
        cones: Cones,
        limit: u32,
    ) -> Result<AssumptionResult, AllocError> {
        match self.status {
            SolverStatus::Undecided => {}
            SolverStatus::Empty => return Ok(AssumptionResult::Refuted),
            SolverStatus::Refuted => return Ok(AssumptionResult::Refuted),
            SolverStatus::Failed => return Err(AllocError),
        }
        self.status = SolverStatus::Failed;
        match self.search.solve_assuming(assumptions, &cones, limit)? {
            None => {
                self.status = SolverStatus::Refuted;
                Ok(AssumptionResult::Refuted)
            }
            Some(outcome) => {
                self.status = SolverStatus::Undecided;
                Ok(outcome)
            }
        }
    }

    fn bit(&self, variable: u32) -> Option<bool> {
        if variable == 0 || variable > self.search.trail.vars() {
            return None;
        }
        let lit = Lit::of(variable, true);
        if self.search.trail.is_free(lit) {
            return None;
        }
        Some(self.search.trail.falsified_at(lit) == 0)
    }

    fn additions(&self) -> u32 {
        self.search.clauses.last().saturating_sub(self.search.given)
    }

    fn finish(self, alloc: Global, budget: u32) -> Result<Solved, AllocError> {
        let Cdcl { mut search, status } = self;
        conclude(&mut search, status, alloc, budget)
    }
}
