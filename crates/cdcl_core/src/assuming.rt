//! Solving under assumptions: a search decides the assumptions and then only the decision variables of the
//! call (`Scope`). It learns clauses of the formula from conflicts as always, and gives up after a limit. SAT
//! sweeping of a circuit from its inputs on shows node equivalences this way by short logs (Kuehlmann,
//! Paruthi, Krohm and Ganai, "Robust Boolean reasoning for equivalence checking and functional property
//! verification", 2002).
//!
//! The choice of decisions is free: the invariants of a search hold whatever unassigned variable is decided.
//! A call leaves the trail as it is, and the next step of the search backtracks to level 0 first.
ghost use Rattle.std.specs.Prelude.{◌≡◌, ◌+◌, ◌-◌, ◌<◌, ◌≤◌, [], length, max, IsFalse, IfOk, IfSome, IfNone};
ghost use Rattle.sat_theory.specs.Formula.{Formula, IsWithin};
ghost use Rattle.cdcl_theory.specs.Propagation.{AllSettled};
ghost use Rattle.cdcl_theory.specs.Trails.{falsified_at as falsified_in};
ghost use Rattle.clause_db.specs.Stored.{live_in, IsStored};
ghost use Rattle.sat_theory.specs.Limits.{most_conflicts};

use crate::scope::{is_over_work, limit_work, next_assuming, open_assumptions};
use crate::search::Search;
use cnf_core::Lit;
use sat_solve::{AssumptionResult, Cones};
use std::alloc::AllocError;
use trail_core::Trail;

/// From this last id on, a call under assumptions makes no decision, so that ids are left for later searches.
const LAST_ID: u32 = 1_900_000_000;

/// Whether an assumption is false.
fn has_false_assumption(trail: &Trail, assumptions: &[Lit]) -> bool
    requires within { IsWithin trail.now.vars assumptions.now }
{
    for assumption in assumptions {
        if trail.falsified_at(*assumption) > 0 {
            return true;
        }
    }
    false
}

impl Search {
    ghost use Rattle.cdcl_core.specs.Searching.{IsSearching, HasWatchInvariant, IsLogged, HasRestarted, HasDecided};
    ghost use Rattle.cdcl_core.specs.SearchEnds.{HasRefuted};
    ghost use Rattle.cdcl_core.specs.Solving.{IsUnderWay};

    /// Backtracks to level 0.
    pub(crate) fn go_to_root(&mut self)
        requires searching { IsSearching self.old }
        requires visited { HasWatchInvariant self.old }
        ensures searching { IsSearching self.new }
        ensures visited { HasWatchInvariant self.new }
        ensures bottom { self.new.starts.items ≡ [] }
        ensures restarted { HasRestarted self.old self.new }
    {
        let Some(first) = self.starts.first() else {
            return;
        };
        let first = *first;
        self.backtrack_to_root(first);
    }

    /// Ends solving under assumptions: backtracks to level 0, and frees the decision variables.
    pub(crate) fn close(&mut self)
        requires searching { IsSearching self.old }
        requires visited { HasWatchInvariant self.old }
        ensures searching { IsSearching self.new }
        ensures visited { HasWatchInvariant self.new }
        ensures bottom { self.new.starts.items ≡ [] }
        ensures restarted { HasRestarted self.old self.new }
    {
        self.go_to_root();
        self.scope = None;
    }

    /// The number of additions that a log needs to leave the formula undecided after `budget` further ones.
    pub(crate) fn total_budget(&self, budget: u32) -> u32
        requires given { self.now.given ≤ length self.now.clauses.clauses }
        requires few { length self.now.clauses.clauses < 2950000000 }
        requires most { budget ≤ most_conflicts }
        requires least { self.now.least ≤ most_conflicts }
        ensures least { self.now.least ≤ result }
        ensures budget { budget ≤ result }
        ensures short { length self.now.clauses.clauses ≤ self.now.given + result }
        ensures room { self.now.given + result < 2970000000 }
        ensures total { result ≡ max self.now.least (length self.now.clauses.clauses - self.now.given + budget) }
    {
        let additions = self.clauses.last() - self.given;
        self.least.max(additions + budget)
    }

    /// Whether a call makes no further decision: the last id is at least `end`, or its work limit is reached.
    fn has_ended(&self, end: u32) -> bool
        ensures { IsFalse result → length self.now.clauses.clauses < end }
    {
        self.clauses.last() >= end || is_over_work(&self.scope, self.clause_scores.hints())
    }

    /// Makes a decision under assumptions if the last id is below `end`, or ends the call.
    fn decide_assuming(
        &mut self,
        assumptions: &[Lit],
        cones: &Cones,
        end: u32,
    ) -> Result<Option<AssumptionResult>, AllocError>
        requires searching { IsSearching self.old }
        requires settled { AllSettled (live_in self.old.clauses) (falsified_in self.old.trail) }
        requires visited { HasWatchInvariant self.old }
        requires all { self.old.head ≡ length self.old.trail.lits }
        requires within { IsWithin self.old.trail.vars assumptions.now }
        ensures searching { IfOk result (λ _. IsSearching self.new) }
        ensures visited { IfOk result (λ _. HasWatchInvariant self.new) }
        ensures decided { IfOk result (λ ended. IfNone ended (HasDecided self.old self.new)) }
        ensures under { IfOk result (λ ended. IfNone ended (length self.old.clauses.clauses < end)) }
        ensures same { IfOk result (λ ended. IfSome ended (λ _. self.new ≡
            record self.old { scope = self.new.scope })) }
    {
        if has_false_assumption(&self.trail, assumptions) {
            return Ok(Some(AssumptionResult::Unsat));
        }
        let Some(lit) = next_assuming(
            &mut self.scope,
            &self.trail,
            &self.decision_heap.phases,
            assumptions,
            cones,
        )?
        else {
            return Ok(Some(AssumptionResult::Sat));
        };
        if self.has_ended(end) {
            return Ok(Some(AssumptionResult::Limit));
        }
        self.starts.push(self.trail.len())?;
        self.trail.push(lit, 0)?;
        Ok(None)
    }

    /// Begins a call under assumptions, at level 0.
    fn begin_assuming(
        &mut self,
        assumptions: &[Lit],
        cones: &Cones,
        limit: u32,
    ) -> Result<(), AllocError>
        requires searching { IsSearching self.old }
        requires visited { HasWatchInvariant self.old }
        ensures searching { IfOk result (λ _. IsSearching self.new) }
        ensures visited { IfOk result (λ _. HasWatchInvariant self.new) }
        ensures bottom { IfOk result (λ _. self.new.starts.items ≡ []) }
        ensures restarted { IfOk result (λ _. HasRestarted self.old self.new) }
    {
        self.go_to_root();
        let alloc = *self.starts.allocator();
        open_assumptions(&mut self.scope, alloc, &self.trail, assumptions, cones)?;
        limit_work(&mut self.scope, self.clause_scores.hints(), limit);
        Ok(())
    }

    /// Solves under assumptions. The call ends at the first decision after `limit` conflicts, or after the
    /// work that corresponds to them; None: the formula is refuted.
    pub(crate) fn solve_assuming(
        &mut self,
        assumptions: &[Lit],
        cones: &Cones,
        limit: u32,
    ) -> Result<Option<AssumptionResult>, AllocError>
        requires under_way { IsUnderWay self.old }
        requires within { IsWithin self.old.trail.vars assumptions.now }
        ensures under_way { IfOk result (λ ended. IfSome ended (λ _. IsUnderWay self.new)) }
        ensures logged { (f : Formula) → IsLogged f self.old →
            IfOk result (λ ended. IfSome ended (λ _. IsLogged f self.new)) }
        ensures refuted { (f : Formula) → IsLogged f self.old →
            IfOk result (λ ended. IfNone ended (HasRefuted f self.new)) }
        ensures stored { IfOk result (λ ended. IfNone ended (IsStored self.new.clauses)) }
        ensures vars { IfOk result (λ _. self.new.trail.vars ≡ self.old.trail.vars) }
        ensures least { IfOk result (λ ended. IfSome ended (λ _. self.new.least ≡ self.old.least)) }
        ensures few { IfOk result (λ _.
            length self.new.clauses.clauses ≤ length self.old.clauses.clauses + limit + self.old.trail.vars + 2) }
        ensures given { IfOk result (λ _. self.new.given ≡ self.old.given) }
    {
        self.begin_assuming(assumptions, cones, limit)?;
        let end = LAST_ID.min(self.clauses.last().saturating_add(limit));
        self.solve_assuming_to(assumptions, cones, end)
    }

    /// The same from level 0, ending at the first decision for which the last id is at least `end`.
    fn solve_assuming_to(
        &mut self,
        assumptions: &[Lit],
        cones: &Cones,
        end: u32,
    ) -> Result<Option<AssumptionResult>, AllocError>
        requires under_way { IsUnderWay self.old }
        requires end { end ≤ LAST_ID }
        requires within { IsWithin self.old.trail.vars assumptions.now }
        ensures under_way { IfOk result (λ ended. IfSome ended (λ _. IsUnderWay self.new)) }
        ensures logged { (f : Formula) → IsLogged f self.old →
            IfOk result (λ ended. IfSome ended (λ _. IsLogged f self.new)) }
        ensures refuted { (f : Formula) → IsLogged f self.old →
            IfOk result (λ ended. IfNone ended (HasRefuted f self.new)) }
        ensures stored { IfOk result (λ ended. IfNone ended (IsStored self.new.clauses)) }
        ensures vars { IfOk result (λ _. self.new.trail.vars ≡ self.old.trail.vars) }
        ensures least { IfOk result (λ ended. IfSome ended (λ _. self.new.least ≡ self.old.least)) }
        ensures few { IfOk result (λ _.
            length self.new.clauses.clauses ≤
            max (length self.old.clauses.clauses + length self.old.starts.items) (end + self.old.trail.vars + 1) + 1) }
        ensures given { IfOk result (λ _. self.new.given ≡ self.old.given) }
    {
        loop {
            if let Some(conflict) = self.resolve_conflicts()? {
                self.refute(conflict)?;
                return Ok(None);
            }
            if let Some(outcome) = self.decide_assuming(assumptions, cones, end)? {
                return Ok(Some(outcome));
            }
        }
    }
}
