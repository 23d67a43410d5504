//! The search (CDCL): it propagates, learns a clause from each conflict and backjumps to where that is unit,
//! and makes a decision where there is no conflict, until all variables have values, the empty clause
//! follows, or the budget is reached. Its invariant is `IsSearching`, that of the watches `HasWatchInvariant`.
ghost use Rattle.std.specs.Prelude.{◌≡◌, ◌+◌, ◌<◌, ◌≤◌, ◌↔◌, [], length, IsTrue, IfOk, OnOk, IfSome, IfNone};
ghost use Rattle.sat_theory.specs.Formula.{Formula};
ghost use Rattle.cdcl_theory.specs.Propagation.{AllSettled, IsFalsified};
ghost use Rattle.cdcl_theory.specs.Trails.{falsified_at as falsified_in};
ghost use Rattle.clause_db.specs.Stored.{live_in, IsStored};
ghost use Rattle.cdcl_core.specs.Levels.{IsFirstStart, IsLastStart};

use crate::clause_scores::ClauseScores;
use crate::deciding::DecisionHeap;
use crate::levels::drop_levels;
use crate::restarts::Restarts;
use crate::scope::{Scope, release_decisions};
use crate::units::push_units;
use crate::visiting::propagate_watched;
use clause_db::ClauseDb;
use cnf_core::Cnf;
use conflict_core::Analysis;
use log_core::Log;
use std::alloc::{AllocError, Global};
use trail_core::Trail;

/// The number of conflicts before the clauses of the formula are strengthened: short searches don't gain from
/// it.
const FIRST_CONFLICTS: u32 = 300;

/// Larger formulas aren't strengthened, and at most this many strengthened clauses are added, and no more than there
/// are clauses of the formula.
const MOST_STRENGTHENED: u32 = 400_000;

/// An id that no clause gets.
const NEVER: u32 = 4_294_967_295;

/// The state of a search: the clauses of the formula and the learnt ones, the trail, the starts of the
/// decision levels, and the log so far.
#[derive(Drop)]
pub(crate) struct Search {
    pub(crate) clauses: ClauseDb,
    pub(crate) trail: Trail,
    pub(crate) starts: Vec<usize>,
    pub(crate) analysis: Analysis,
    pub(crate) lines: Log,
    /// the number of clauses of the formula: greater ids are those of additions
    pub(crate) given: u32,
    /// the number of trail literals that are propagated
    pub(crate) head: usize,
    pub(crate) decision_heap: DecisionHeap,
    pub(crate) restarts: Restarts,
    pub(crate) clause_scores: ClauseScores,
    /// the additions that replace longer clauses of the formula
    pub(crate) shorter: Shorter,
    /// the number of deleted additions
    pub(crate) deleted: u32,
    /// a log that leaves the formula undecided has at least this many additions
    pub(crate) least: u32,
    /// the decision variables under assumptions; None before the first such call and after the last one
    pub(crate) scope: Option<Scope>,
}

/// The additions that replace clauses of the formula which they subsume: those with ids above `low` up to
/// `high`. No reduction deletes them; the deletions at the log's end (`meet_final_bound`) may.
#[derive(Clone, Copy, Drop)]
pub(crate) struct Shorter {
    pub(crate) low: u32,
    pub(crate) high: u32,
}

/// The end of a search.
pub(crate) enum SearchEnd {
    /// All variables have values, and no clause is falsified.
    Satisfied,
    /// The log ends with the empty clause.
    Refuted,
    /// The budget is reached, and a decision is due.
    BudgetReached,
}

impl Search {
    ghost use Rattle.cdcl_core.specs.Searching.{IsSearching, HasWatchInvariant, IsLogged, HasBegun, HasPropagated};
    ghost use Rattle.cdcl_core.specs.Searching.{HasBackjumped, HasRestarted, HasResolvedConflicts, HasDecided};
    ghost use Rattle.cdcl_core.specs.Searching.{HasRun};
    ghost use Rattle.cdcl_core.specs.SearchEnds.{Ends, HasRefuted};
    ghost use Rattle.cdcl_core.specs.Reduction.{IsBounded};

    /// A search over a formula, before its first step. A log that leaves the formula undecided has at least
    /// `least` additions.
    pub(crate) fn new(alloc: Global, cnf: &Cnf, least: u32) -> Result<Search, AllocError>
        ensures searching { IfOk result IsSearching }
        ensures logged { IfOk result (IsLogged cnf.now) }
        ensures clauses { IfOk result (λ s. length s.clauses.clauses ≡ length cnf.now.clauses) }
        ensures given { IfOk result (λ s. s.given ≡ length s.clauses.clauses) }
        ensures starts { IfOk result (λ s. s.starts.items ≡ []) }
        ensures head { IfOk result (λ s. s.head ≡ 0) }
        ensures least { IfOk result (λ s. s.least ≡ least) }
        ensures shorter { IfOk result (λ s. s.shorter.high ≡ 0) }
    {
        let vars = cnf.vars();
        let given = cnf.clauses().len() as u32;
        // The largest tables come last, so that little has to be freed where memory runs out.
        let clause_scores = ClauseScores::new(alloc, given, vars)?;
        let trail = Trail::new(alloc, vars)?;
        let decision_heap = DecisionHeap::new(alloc, vars)?;
        let analysis = Analysis::new(alloc, vars)?;
        let clauses = ClauseDb::new(alloc, cnf)?;
        Ok(Search {
            clauses,
            trail,
            starts: Vec::new(alloc),
            analysis,
            lines: Log::new(alloc),
            given,
            head: 0,
            decision_heap,
            restarts: Restarts::new(),
            clause_scores,
            shorter: Shorter { low: 0, high: 0 },
            deleted: 0,
            least,
            scope: None,
        })
    }

    /// Assigns the literals of unit clauses, which aren't watched, at level 0, and returns the id of a
    /// falsified one, if any. Propagation then finds what follows.
    #[tactic(auto, using(crate::proofs::Settling::searching_grown))]
    pub(crate) fn begin(&mut self) -> Result<Option<u32>, AllocError>
        requires searching { IsSearching self.old }
        requires starts { self.old.starts.items ≡ [] }
        requires head { self.old.head ≡ 0 }
        ensures searching { IfOk result (λ _. IsSearching self.new) }
        ensures begun { IfOk result (λ _. HasBegun self.old self.new) }
        ensures visited { IfOk result (λ found. IfNone found (HasWatchInvariant self.new)) }
        ensures conflict { IfOk result (λ found.
            IfSome found (IsFalsified (live_in self.new.clauses) (falsified_in self.new.trail))) }
    {
        push_units(&mut self.trail, &self.clauses)
    }

    /// Unit propagation by watched literals. Returns the id of a falsified clause, if any.
    fn propagate(&mut self) -> Result<Option<u32>, AllocError>
        requires searching { IsSearching self.old }
        requires visited { HasWatchInvariant self.old }
        ensures searching { IfOk result (λ _. IsSearching self.new) }
        ensures visited { IfOk result (λ _. HasWatchInvariant self.new) }
        ensures propagated { IfOk result (λ _. HasPropagated self.old self.new) }
        ensures all { IfOk result (λ found. IfNone found (self.new.head ≡ length self.new.trail.lits)) }
        ensures conflict { IfOk result (λ found.
            IfSome found (IsFalsified (live_in self.new.clauses) (falsified_in self.new.trail))) }
    {
        match propagate_watched(&mut self.trail, &mut self.clauses, self.head)? {
            Some(conflict) => Ok(Some(conflict)),
            None => {
                self.head = self.trail.len();
                Ok(None)
            }
        }
    }

    /// Learns a clause from a conflict in the last level, which begins at trail index `start`, backjumps to
    /// where the clause is unit, and assigns its literal.
    fn learn_and_backjump(&mut self, conflict: u32, start: usize) -> Result<(), AllocError>
        requires searching { IsSearching self.old }
        requires level { IsLastStart self.old.starts.items start }
        requires few { length self.old.clauses.clauses < 4000000000 }
        requires conflict { IsFalsified (live_in self.old.clauses) (falsified_in self.old.trail) conflict }
        requires visited { HasWatchInvariant self.old }
        ensures searching { OnOk result (IsSearching self.new) }
        ensures visited { OnOk result (HasWatchInvariant self.new) }
        ensures logged { (f : Formula) → IsLogged f self.old → OnOk result (IsLogged f self.new) }
        ensures backjumped { OnOk result (HasBackjumped self.old self.new) }
    {
        let alloc = *self.starts.allocator();
        let learnt = self
            .analysis
            .learn(alloc, &self.trail, &self.clauses, conflict, start)?;
        self.clause_scores.bump_antecedents(&learnt.hints);
        self.decision_heap.bump(self.analysis.touched());
        self.decision_heap
            .bump_reasons(&self.trail, &self.clauses, &learnt.lits[1..]);
        self.decision_heap.grow();
        let id = self.clauses.add(&learnt.lits)?;
        let end = drop_levels(&mut self.starts, learnt.back as usize);
        release_decisions(&mut self.scope, &self.trail, end);
        self.decision_heap.backtrack(&mut self.trail, end);
        let lit = learnt.lits[0];
        self.lines.add(id, &learnt.lits, &learnt.hints)?;
        self.trail.push(lit, id)?;
        self.head = end;
        Ok(())
    }

    /// Backtracks to level 0; the first level begins at trail index `first`.
    pub(crate) fn backtrack_to_root(&mut self, first: usize)
        requires searching { IsSearching self.old }
        requires visited { HasWatchInvariant self.old }
        requires level { IsFirstStart self.old.starts.items first }
        ensures searching { IsSearching self.new }
        ensures visited { HasWatchInvariant self.new }
        ensures bottom { self.new.starts.items ≡ [] }
        ensures restarted { HasRestarted self.old self.new }
    {
        release_decisions(&mut self.scope, &self.trail, first);
        self.decision_heap.backtrack(&mut self.trail, first);
        self.starts.clear();
        self.head = first;
    }

    /// Counts a conflict, and restarts if a run of conflicts ends with it.
    fn restart(&mut self)
        requires searching { IsSearching self.old }
        requires visited { HasWatchInvariant self.old }
        ensures searching { IsSearching self.new }
        ensures visited { HasWatchInvariant self.new }
        ensures restarted { HasRestarted self.old self.new }
    {
        if !self.restarts.count() {
            return;
        }
        let Some(first) = self.starts.first() else {
            return;
        };
        let first = *first;
        self.backtrack_to_root(first);
    }

    /// Propagates, and learns from each conflict, until there is none, or one at level 0, whose id it
    /// returns.
    pub(crate) fn resolve_conflicts(&mut self) -> Result<Option<u32>, AllocError>
        requires searching { IsSearching self.old }
        requires visited { HasWatchInvariant self.old }
        requires few { length self.old.clauses.clauses + length self.old.starts.items < 4000000000 }
        ensures searching { IfOk result (λ _. IsSearching self.new) }
        ensures logged { (f : Formula) → IsLogged f self.old → IfOk result (λ _. IsLogged f self.new) }
        ensures settled { IfOk result (λ _. HasResolvedConflicts self.old self.new) }
        ensures visited { IfOk result (λ _. HasWatchInvariant self.new) }
        ensures all { IfOk result (λ found. IfNone found (self.new.head ≡ length self.new.trail.lits)) }
        ensures none { IfOk result (λ found. IfNone found
            (AllSettled (live_in self.new.clauses) (falsified_in self.new.trail))) }
        ensures conflict { IfOk result (λ found.
            IfSome found (IsFalsified (live_in self.new.clauses) (falsified_in self.new.trail))) }
        ensures last { IfOk result (λ found. IfSome found (λ _. self.new.starts.items ≡ [])) }
    {
        while let Some(conflict) = self.propagate()? {
            let Some(start) = self.starts.last() else {
                return Ok(Some(conflict));
            };
            let start = *start;
            self.learn_and_backjump(conflict, start)?;
            self.subsume_recent()?;
            self.restart();
        }
        Ok(None)
    }

    /// Whether the log has at least `budget` additions.
    fn has_reached_budget(&self, budget: u32) -> bool
        ensures { IsTrue result ↔ (self.now.given + budget ≤ length self.now.clauses.clauses) }
    {
        u64::from(self.clauses.last()) >= u64::from(self.given) + u64::from(budget)
    }

    /// Makes a decision, which begins a level. If all variables have values the search ends with them, and if
    /// the budget is reached it ends undecided.
    fn decide(&mut self, budget: u32) -> Result<Option<SearchEnd>, AllocError>
        requires searching { IsSearching self.old }
        requires settled { AllSettled (live_in self.old.clauses) (falsified_in self.old.trail) }
        requires visited { HasWatchInvariant self.old }
        requires all { self.old.head ≡ length self.old.trail.lits }
        requires least { self.old.least ≤ budget }
        requires bounded { IsBounded self.old }
        ensures searching { IfOk result (λ ending. IfNone ending (IsSearching self.new)) }
        ensures visited { IfOk result (λ ending. IfNone ending (HasWatchInvariant self.new)) }
        ensures decided { IfOk result (λ ending. IfNone ending (HasDecided self.old self.new)) }
        ensures under { IfOk result (λ ending. IfNone ending
            (length self.old.clauses.clauses < self.old.given + budget)) }
        ensures clauses { IfOk result (λ _. self.new.clauses ≡ self.old.clauses) }
        ensures ended { (f : Formula) → IsLogged f self.old →
            IfOk result (λ ending. IfSome ending (Ends f budget self.new)) }
        ensures stored { IfOk result (λ _. IsStored self.new.clauses) }
    {
        let Some(lit) = self.decision_heap.pick_decision(&self.trail) else {
            return Ok(Some(SearchEnd::Satisfied));
        };
        if self.has_reached_budget(budget) {
            return Ok(Some(SearchEnd::BudgetReached));
        }
        self.starts.push(self.trail.len())?;
        self.trail.push(lit, 0)?;
        Ok(None)
    }

    /// Adds the empty clause, which a falsified clause at level 0 implies, to the log.
    pub(crate) fn refute(&mut self, conflict: u32) -> Result<(), AllocError>
        requires searching { IsSearching self.old }
        requires few { length self.old.clauses.clauses < 4000000000 }
        requires bottom { self.old.starts.items ≡ [] }
        requires conflict { IsFalsified (live_in self.old.clauses) (falsified_in self.old.trail) conflict }
        ensures refuted { (f : Formula) → IsLogged f self.old → OnOk result (HasRefuted f self.new) }
        ensures one { OnOk result (length self.new.clauses.clauses ≡ length self.old.clauses.clauses + 1) }
        ensures given { self.new.given ≡ self.old.given }
        ensures trail { self.new.trail ≡ self.old.trail }
        ensures stored { IsStored self.new.clauses }
    {
        let alloc = *self.starts.allocator();
        let hints = self
            .analysis
            .refute(alloc, &self.trail, &self.clauses, conflict)?;
        let id = self.clauses.add(&[])?;
        self.lines.add(id, &[], &hints)?;
        Ok(())
    }

    /// Whether the search is at level 0 and the last id is at least `pause`.
    fn is_paused(&self, pause: u32) -> bool
        ensures bottom { IsTrue result → self.now.starts.items ≡ [] }
        ensures due { IsTrue result → pause ≤ length self.now.clauses.clauses }
    {
        self.starts.is_empty() && self.clauses.last() >= pause
    }

    /// Decides and learns until the formula is decided, or a decision is due after at least `budget`
    /// additions. It pauses, and returns None, at level 0 once the last id is at least `pause`.
    fn run(&mut self, budget: u32, pause: u32) -> Result<Option<SearchEnd>, AllocError>
        requires searching { IsSearching self.old }
        requires visited { HasWatchInvariant self.old }
        requires least { self.old.least ≤ budget }
        requires room { self.old.given + budget < 2980000000 }
        requires short { length self.old.clauses.clauses + length self.old.starts.items ≤ self.old.given + budget +
            self.old.trail.vars + 1 }
        ensures searching { IfOk result (λ ending. IfNone ending (IsSearching self.new)) }
        ensures visited { IfOk result (λ ending. IfNone ending (HasWatchInvariant self.new)) }
        ensures bottom { IfOk result (λ ending. IfNone ending (self.new.starts.items ≡ [])) }
        ensures paused { IfOk result (λ ending. IfNone ending (pause ≤ length self.new.clauses.clauses)) }
        ensures run { IfOk result (λ ending. IfNone ending (HasRun budget self.old self.new)) }
        ensures logged { (f : Formula) → IsLogged f self.old →
            IfOk result (λ ending. IfNone ending (IsLogged f self.new)) }
        ensures ends { (f : Formula) → IsLogged f self.old →
            IfOk result (λ ending. IfSome ending (Ends f budget self.new)) }
        ensures few { IfOk result (λ _.
            length self.new.clauses.clauses ≤ self.old.given + budget + self.old.trail.vars + 2) }
        ensures stored { IfOk result (λ _. IsStored self.new.clauses) }
    {
        loop {
            if let Some(conflict) = self.resolve_conflicts()? {
                self.refute(conflict)?;
                return Ok(Some(SearchEnd::Refuted));
            }
            if self.is_paused(pause) {
                return Ok(None);
            }
            self.reduce_and_bound()?;
            if let Some(ending) = self.decide(budget)? {
                return Ok(Some(ending));
            }
        }
    }

    /// The id from which on the search pauses, once, to strengthen the clauses of the formula; none (`NEVER`) if
    /// the budget is small, if calls under assumptions have learnt clauses already, or if the formula is
    /// large.
    fn pause(&self, budget: u32) -> u32 {
        let has_assumed = self.clauses.last() > self.given;
        if budget <= FIRST_CONFLICTS || has_assumed || self.given > MOST_STRENGTHENED {
            return NEVER;
        }
        self.given.saturating_add(FIRST_CONFLICTS)
    }

    /// Decides and learns until the formula is decided, or a decision is due after at least `budget` additions.
    pub(crate) fn go_on(&mut self, budget: u32) -> Result<SearchEnd, AllocError>
        requires searching { IsSearching self.old }
        requires visited { HasWatchInvariant self.old }
        requires least { self.old.least ≤ budget }
        requires room { self.old.given + budget < 2970000000 }
        requires short { length self.old.clauses.clauses ≤ self.old.given + budget }
        requires starts { self.old.starts.items ≡ [] }
        ensures ends { (f : Formula) → IsLogged f self.old → IfOk result (Ends f budget self.new) }
        ensures few { IfOk result (λ _.
            length self.new.clauses.clauses ≤ self.old.given + budget + self.old.trail.vars + self.old.given + 2) }
        ensures stored { IfOk result (λ _. IsStored self.new.clauses) }
    {
        let pause = self.pause(budget);
        if let Some(ending) = self.run(budget, pause)? {
            return Ok(ending);
        }
        let before = self.clauses.last();
        // for the prover: strengthening happens once
        if self.shorter.high == 0 {
            let most = self.given.min(MOST_STRENGTHENED);
            if let Some(conflict) = self.strengthen(before + most)? {
                self.refute(conflict)?;
                return Ok(SearchEnd::Refuted);
            }
        }
        let shorter = self.clauses.last() - before;
        self.run_on(budget, shorter)
    }

    /// Decides and learns without a pause; the `shorter` strengthened clauses don't count towards the budget.
    fn run_on(&mut self, budget: u32, shorter: u32) -> Result<SearchEnd, AllocError>
        requires searching { IsSearching self.old }
        requires visited { HasWatchInvariant self.old }
        requires least { self.old.least ≤ budget }
        requires room { self.old.given + budget + shorter < 2980000000 }
        requires short { length self.old.clauses.clauses ≤ self.old.given + budget + shorter + self.old.trail.vars +
            1 }
        requires starts { self.old.starts.items ≡ [] }
        ensures ends { (f : Formula) → IsLogged f self.old → IfOk result (Ends f budget self.new) }
        ensures few { IfOk result (λ _.
            length self.new.clauses.clauses ≤ self.old.given + budget + shorter + self.old.trail.vars + 2) }
        ensures stored { IfOk result (λ _. IsStored self.new.clauses) }
    {
        match self.run(budget + shorter, NEVER)? {
            Some(ending) => Ok(ending),
            None => unreachable!(),
        }
    }
}
