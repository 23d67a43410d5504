//! The trait of solvers, and what a solver answers.
use cnf_core::{Assign, Cnf, Lit};
use log_core::Log;
use std::alloc::{AllocError, Global};

/// The answer to a formula.
#[derive(Drop)]
pub enum Solved {
    /// The assignment satisfies it.
    Sat(Assign),
    /// The log refutes it.
    Unsat(Log),
    /// Undecided: the log holds and has reached the budget of additions.
    Open(Log),
}

/// The result of a call under assumptions. It is a hint: the contract promises only that the solver is still
/// one of its formula.
#[derive(Clone, Copy)]
pub enum AssumptionResult {
    /// The formula itself is refuted.
    Refuted,
    /// Unsatisfiable under the assumptions: one of them became false.
    Unsat,
    /// All assumptions are true and all decision variables have values, with no conflict.
    Sat,
    /// Undecided: the limit was reached.
    Limit,
}

/// Which variables a call under assumptions decides: tables by variable (index 0 is unused) with the fanins
/// of its gate and its rank. Indices beyond the end of a table read as 0, and variables that the formula
/// doesn't have count as 0, none.
#[derive(Clone, Copy)]
pub struct Cones<'a> {
    /// the first fanin: it becomes a decision variable once this variable is one and has a value; 0: none
    pub first: &'a [u32],
    /// the second fanin, likewise
    pub second: &'a [u32],
    /// among the decision variables without a value, one of greatest rank is decided first
    pub rank: &'a [u32],
}

/// An incremental solver of one formula in conjunctive normal form: calls under assumptions learn clauses of
/// it, `finish` decides it.
pub trait Solver: Drop {
    ghost use Rattle.std.specs.Prelude.{◌≡◌, ℕ, ◌+◌, ◌*◌, ◌^◌, ◌<◌, ◌≤◌, length, max, IfOk};
    ghost use Rattle.sat_theory.specs.Formula.{Formula, IsWithin, bits_of, Satisfies};
    ghost use Rattle.sat_theory.specs.Log.{additions, Refutes, ReachesBudget, KeepsHalf, BoundsLiveAdditions};
    ghost use Rattle.sat_theory.specs.Limits.{most_conflicts};
    ghost use Rattle.sat_solve.specs.Answering.{IfSat, IfUnsat, IfOpen, IfLogged, IsDecided, most_past};

    /// The formula that it solves, and the least number of additions of a log that leaves it undecided.
    ghost IsSolverOf: { Formula → ℕ → Self → Type 0 };

    /// The number of variables.
    ghost vars_of: { Self → ℕ };

    /// The number of additions of its log so far.
    ghost additions_of: { Self → ℕ };

    /// A solver of a formula. A log that leaves the formula undecided has at least `least` additions; up to
    /// half of these may be deleted at any time.
    fn new(alloc: Global, cnf: &Cnf, least: u32) -> Result<Self, AllocError>
    where
        Self: Sized,
        requires most { least ≤ most_conflicts }
        ensures solver { IfOk result (IsSolverOf cnf.now least) }
        ensures vars { IfOk result (λ s. vars_of s ≡ cnf.now.vars) }
        ensures few { IfOk result (λ s. additions_of s ≤ 1) };

    /// Solves under assumptions: decides the assumptions without a value in their order, and then only
    /// decision variables, those of the assumptions first (see `Cones`). It returns `Limit` at the first
    /// decision after `limit` conflicts, or after work that corresponds to that many.
    fn solve_assuming(
        &mut self,
        assumptions: &[Lit],
        cones: Cones,
        limit: u32,
    ) -> Result<AssumptionResult, AllocError>
        requires within { IsWithin (vars_of self.old) assumptions.now }
        ensures kept { (f : Formula) (least : ℕ) → IsSolverOf f least self.old →
            IfOk result (λ _. IsSolverOf f least self.new) }
        ensures vars { IfOk result (λ _. vars_of self.new ≡ vars_of self.old) }
        // Past the limit it learns at most one clause for each level, and the empty clause.
        ensures few { IfOk result (λ _. additions_of self.new ≤ additions_of self.old + limit + vars_of self.old + 2) };

    /// The value of a variable after the last call under assumptions; None if it has none, or the formula
    /// doesn't have the variable.
    fn bit(&self, variable: u32) -> Option<bool>;

    /// The number of additions of its log so far.
    fn additions(&self) -> u32
        ensures { result ≡ additions_of self.now };

    /// Decides the formula, or returns Open at the first decision after `budget` further learnt clauses, from
    /// 1 to 10,000,000; its log then has at least `least` additions.
    fn finish(self, alloc: Global, budget: u32) -> Result<Solved, AllocError>
    where
        Self: Sized,
        requires some { 0 < budget }
        requires most { budget ≤ most_conflicts }
        ensures bits { (f : Formula) (least : ℕ) → IsSolverOf f least self →
            IfOk result (λ s. IfSat s (λ bits. length bits ≡ f.vars)) }
        ensures sat { (f : Formula) (least : ℕ) → IsSolverOf f least self →
            IfOk result (λ s. IfSat s (λ bits. Satisfies (bits_of bits) f)) }
        ensures unsat { (f : Formula) (least : ℕ) → IsSolverOf f least self →
            IfOk result (λ s. IfUnsat s (Refutes f)) }
        ensures open { (f : Formula) (least : ℕ) → IsSolverOf f least self →
            IfOk result (λ s. IfOpen s (λ lines. ReachesBudget f lines (max least budget))) }
        // At the end of an open log at least half of its additions are live.
        ensures kept { (f : Formula) (least : ℕ) → IsSolverOf f least self →
            IfOk result (λ s. IfOpen s (KeepsHalf f)) }
        // At the end at most 3/4 of the additions, and vars + 2000 more, are live, and no clause of the formula is
        // deleted.
        ensures live_bounded { (f : Formula) (least : ℕ) → IsSolverOf f least self →
            IfOk result (λ s. IfLogged s (BoundsLiveAdditions f)) }
        // The budget bounds the log: it has fewer than `most_past` additions more.
        ensures few { (f : Formula) (least : ℕ) → IsSolverOf f least self →
            IfOk result (λ s. IfLogged s (λ lines.
            additions lines < max least (additions_of self + budget) + most_past f)) }
        // A budget of twice 3 to the number of variables decides every formula.
        ensures decides { (f : Formula) (least : ℕ) → IsSolverOf f least self → 2 * 3 ^ f.vars ≤ max least budget →
            IfOk result IsDecided };

    /// Decides a formula, or returns Open at the first decision after `budget` learnt clauses, from 1 to
    /// 10,000,000.
    fn solve(alloc: Global, cnf: &Cnf, budget: u32) -> Result<Solved, AllocError>
    where
        Self: Sized,
        requires some { 0 < budget }
        requires most { budget ≤ most_conflicts }
        ensures bits { IfOk result (λ s. IfSat s (λ bits. length bits ≡ cnf.now.vars)) }
        ensures sat { IfOk result (λ s. IfSat s (λ bits. Satisfies (bits_of bits) cnf.now)) }
        ensures unsat { IfOk result (λ s. IfUnsat s (Refutes cnf.now)) }
        ensures open { IfOk result (λ s. IfOpen s (λ lines. ReachesBudget cnf.now lines budget)) }
        // At the end of an open log at least half of its additions are live.
        ensures kept { IfOk result (λ s. IfOpen s (KeepsHalf cnf.now)) }
        // At the end at most 3/4 of the additions, and vars + 2000 more, are live, and no clause of the formula is
        // deleted.
        ensures live_bounded { IfOk result (λ s. IfLogged s (BoundsLiveAdditions cnf.now)) }
        // The budget bounds the log: it has at most `most_past` additions more.
        ensures few { IfOk result (λ s. IfLogged s (λ lines. additions lines ≤ budget + most_past cnf.now)) }
        // A budget of twice 3 to the number of variables decides every formula.
        ensures decides { 2 * 3 ^ cnf.now.vars ≤ budget → IfOk result IsDecided }
    {
        Self::new(alloc, cnf, budget)?.finish(alloc, budget)
    }
}
