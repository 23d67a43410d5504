//! The answers of the solver, from the end of its search.
ghost use Rattle.std.specs.Prelude.{◌≡◌, ℕ, ◌+◌, ◌-◌, ◌*◌, ◌^◌, ◌<◌, ◌≤◌, [], length, max, Contains, IfOk};
ghost use Rattle.sat_theory.specs.Formula.{Formula, IsFormula, bits_of, Satisfies};
ghost use Rattle.sat_theory.specs.Log.{additions, Refutes, ReachesBudget, KeepsHalf, BoundsLiveAdditions};
ghost use Rattle.sat_theory.specs.Limits.{most_conflicts};
ghost use Rattle.sat_solve.specs.Answering.{IfSat, IfUnsat, IfOpen, IfLogged, IsDecided, most_past};
ghost use Rattle.clause_db.specs.Stored.{IsStored};
ghost use Rattle.cdcl_core.specs.Searching.{IsSearching, HasWatchInvariant, IsAccounted, IsLogged};
ghost use Rattle.cdcl_core.specs.SearchEnds.{HasRefuted, HasReachedBudget};
ghost use Rattle.cdcl_core.specs.Solving.{IsUnderWay, FitsStatus, FitsStatusOf};

use crate::search::{Search, SearchEnd};
use crate::solver::SolverStatus;
use log_core::Log;
use sat_solve::Solved;
use std::alloc::{AllocError, Global};
use std::mem;

/// Decides the formula of a search between calls, or leaves it undecided after `budget` further additions.
fn decide_rest(search: &mut Search, alloc: Global, budget: u32) -> Result<Solved, AllocError>
    requires under_way { IsUnderWay search.old }
    requires most { budget ≤ most_conflicts }
    ensures bits { (f : Formula) → IsLogged f search.old → IfOk result (λ s. IfSat s (λ bits. length bits ≡ f.vars)) }
    ensures sat { (f : Formula) → IsLogged f search.old → IsFormula f →
        IfOk result (λ s. IfSat s (λ bits. Satisfies (bits_of bits) f)) }
    ensures unsat { (f : Formula) → IsLogged f search.old → IfOk result (λ s. IfUnsat s (Refutes f)) }
    ensures open { (f : Formula) → IsLogged f search.old → (Contains f.clauses [] → ⊥) →
        IfOk result (λ s. IfOpen s (λ lines. ReachesBudget f lines (max search.old.least budget))) }
    ensures kept { (f : Formula) → IsLogged f search.old → IfOk result (λ s. IfOpen s (KeepsHalf f)) }
    ensures live_bounded { (f : Formula) → IsLogged f search.old →
        IfOk result (λ s. IfLogged s (BoundsLiveAdditions f)) }
    ensures decides { (f : Formula) → IsLogged f search.old → (Contains f.clauses [] → ⊥) →
        2 * 3 ^ f.vars ≤ max search.old.least budget → IfOk result IsDecided }
    ensures few { (f : Formula) → IsLogged f search.old →
        IfOk result (λ s. IfLogged s (λ lines. additions lines <
        max search.old.least (length search.old.clauses.clauses - search.old.given + budget) + most_past f)) }
{
    search.close();
    let total = search.total_budget(budget);
    answer(search, alloc, total)
}

/// The answer of a search, for each formula that it is a search of.
pub(crate) fn conclude(
    search: &mut Search,
    status: SolverStatus,
    alloc: Global,
    budget: u32,
) -> Result<Solved, AllocError>
    requires fits { FitsStatus search.old status }
    requires most { budget ≤ most_conflicts }
    ensures bits { (f : Formula) (least : ℕ) → FitsStatusOf f least search.old status →
        IfOk result (λ s. IfSat s (λ bits. length bits ≡ f.vars)) }
    ensures sat { (f : Formula) (least : ℕ) → FitsStatusOf f least search.old status →
        IfOk result (λ s. IfSat s (λ bits. Satisfies (bits_of bits) f)) }
    ensures unsat { (f : Formula) (least : ℕ) → FitsStatusOf f least search.old status →
        IfOk result (λ s. IfUnsat s (Refutes f)) }
    ensures open { (f : Formula) (least : ℕ) → FitsStatusOf f least search.old status →
        IfOk result (λ s. IfOpen s (λ lines. ReachesBudget f lines (max least budget))) }
    ensures kept { (f : Formula) (least : ℕ) → FitsStatusOf f least search.old status →
        IfOk result (λ s. IfOpen s (KeepsHalf f)) }
    ensures live_bounded { (f : Formula) (least : ℕ) → FitsStatusOf f least search.old status →
        IfOk result (λ s. IfLogged s (BoundsLiveAdditions f)) }
    ensures decides { (f : Formula) (least : ℕ) → FitsStatusOf f least search.old status →
        2 * 3 ^ f.vars ≤ max least budget → IfOk result IsDecided }
    ensures few { (f : Formula) (least : ℕ) → FitsStatusOf f least search.old status →
        IfOk result (λ s. IfLogged s (λ lines. additions lines <
        max least (length search.old.clauses.clauses - search.old.given + budget) + most_past f)) }
{
    match status {
        SolverStatus::Empty => Ok(Solved::Unsat(Log::new(alloc))),
        SolverStatus::Undecided => decide_rest(search, alloc, budget),
        SolverStatus::Refuted => Ok(Solved::Unsat(log_of(search, alloc)?)),
        SolverStatus::Failed => Err(AllocError),
    }
}

/// Runs a search from level 0, and returns its answer.
fn answer(search: &mut Search, alloc: Global, budget: u32) -> Result<Solved, AllocError>
    requires searching { IsSearching search.old }
    requires visited { HasWatchInvariant search.old }
    requires least { search.old.least ≤ budget }
    requires room { search.old.given + budget < 2970000000 }
    requires short { length search.old.clauses.clauses ≤ search.old.given + budget }
    requires starts { search.old.starts.items ≡ [] }
    ensures bits { (f : Formula) → IsLogged f search.old → IfOk result (λ s. IfSat s (λ bits. length bits ≡ f.vars)) }
    ensures sat { (f : Formula) → IsLogged f search.old → IsFormula f →
        IfOk result (λ s. IfSat s (λ bits. Satisfies (bits_of bits) f)) }
    ensures unsat { (f : Formula) → IsLogged f search.old → IfOk result (λ s. IfUnsat s (Refutes f)) }
    ensures open { (f : Formula) → IsLogged f search.old → (Contains f.clauses [] → ⊥) →
        IfOk result (λ s. IfOpen s (λ lines. ReachesBudget f lines budget)) }
    ensures kept { (f : Formula) → IsLogged f search.old → IfOk result (λ s. IfOpen s (KeepsHalf f)) }
    ensures live_bounded { (f : Formula) → IsLogged f search.old →
        IfOk result (λ s. IfLogged s (BoundsLiveAdditions f)) }
    ensures decides { (f : Formula) → IsLogged f search.old → (Contains f.clauses [] → ⊥) → 2 * 3 ^ f.vars ≤ budget →
        IfOk result IsDecided }
    ensures few { (f : Formula) → IsLogged f search.old →
        IfOk result (λ s. IfLogged s (λ lines. additions lines < budget + most_past f)) }
{
    match search.go_on(budget)? {
        SearchEnd::Satisfied => Ok(Solved::Sat(search.trail.assignment(alloc)?)),
        SearchEnd::Refuted => Ok(Solved::Unsat(log_of(search, alloc)?)),
        SearchEnd::BudgetReached => Ok(Solved::Open(log_of(search, alloc)?)),
    }
}

/// Takes the log of a search that has ended, after the deletions that its end needs.
fn log_of(search: &mut Search, alloc: Global) -> Result<Log, AllocError>
    requires stored { IsStored search.old.clauses }
    ensures refutes { (f : Formula) → HasRefuted f search.old → IfOk result (λ log. Refutes f log) }
    ensures spent { (f : Formula) (budget : ℕ) → HasReachedBudget f budget search.old → (Contains f.clauses [] → ⊥) →
        IfOk result (λ log. ReachesBudget f log budget) }
    ensures kept { (f : Formula) (budget : ℕ) → HasReachedBudget f budget search.old →
        IfOk result (λ log. KeepsHalf f log) }
    ensures live_bounded { (f : Formula) → IsAccounted f search.old → IfOk result (λ log. BoundsLiveAdditions f log) }
    ensures as_many { IfOk result (λ log. additions log ≡ additions search.old.lines) }
{
    search.meet_final_bound()?;
    Ok(mem::replace(&mut search.lines, Log::new(alloc)))
}
