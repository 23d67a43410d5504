//! Subsumption and strengthening of the formula's clauses by unit and binary clauses, learnt ones included
//! (self-subsuming resolution: Eén and Biere, "Effective preprocessing in SAT through variable and clause
//! elimination", 2005; as inprocessing: Järvisalo, Heule and Biere, "Inprocessing rules", 2012). It runs
//! once, at level 0, after a number of conflicts, so short searches don't pay for it.
//!
//! A strengthened clause is an addition of the log like any other: it follows by hints, and no live clause
//! subsumes it. The longer one is deleted from the search and stays in the log, which deletes no clause of
//! the formula. The answers about the formula rest on `AreCovered`: the search has each clause of the
//! formula, or an irredundant one that subsumes it. Meanwhile no variable has a value, so no clause is a
//! reason; unit clauses are assigned again at the end.
ghost use Rattle.std.specs.Prelude.{◌≡◌, ℕ, ◌+◌, ◌<◌, ◌≤◌, [], length, IsTrue, IfOk, IfSome, IfNone, OnOk};
ghost use Rattle.sat_theory.specs.Formula.{Formula, IsClause, IsWithin};
ghost use Rattle.sat_theory.specs.Holding.{among, HintsHold};
ghost use Rattle.sat_theory.specs.Log.{IsUnsubsumed};
ghost use Rattle.cdcl_theory.specs.Propagation.{IsFalsified};
ghost use Rattle.cdcl_theory.specs.Trails.{falsified_at as falsified_in};
ghost use Rattle.clause_db.specs.Stored.{live_in, added};
ghost use Rattle.subsume_core.specs.Units.{IsUnitsOf};

use crate::scope::release_decisions;
use crate::search::{Search, Shorter};
use clause_db::ClauseDb;
use cnf_core::Lit;
use std::alloc::{AllocError, Global};
use subsume_core::{
    Finder, LitFlags, Simplification, Units, contains_all, holds, is_unsubsumed, keep_others,
};

/// The data structures for strengthening.
#[derive(Drop)]
pub(crate) struct Work {
    pub(crate) finder: Finder,
    pub(crate) units: Units,
    pub(crate) marks: LitFlags,
    pub(crate) rest: Vec<Lit>,
    pub(crate) known: Vec<Lit>,
}

/// The data structures for strengthening the clauses 1 to `given`.
fn work_on(alloc: Global, clauses: &ClauseDb, given: u32) -> Result<Work, AllocError>
    ensures { IfOk result (λ w. IsUnitsOf clauses.now w.units) }
{
    Ok(Work {
        finder: Finder::new(alloc, clauses, given)?,
        units: Units::new(alloc, clauses)?,
        marks: LitFlags::new(alloc, clauses.vars())?,
        rest: Vec::new(alloc),
        known: Vec::new(alloc),
    })
}

impl Search {
    ghost use Rattle.cdcl_core.specs.Searching.{IsSearching, HasWatchInvariant, IsLogged, HasRestarted};
    ghost use Rattle.cdcl_core.specs.Strengthening.{IsUnassigned, KeepsLimits, IsStrengthening, HasStrengthened};
    ghost use Rattle.cdcl_core.specs.Strengthening.{CanReplace, HasRemoved, HasAdded};

    /// Unassigns all variables, those of level 0 too.
    fn unassign_all(&mut self)
        requires searching { IsSearching self.old }
        requires bottom { self.old.starts.items ≡ [] }
        ensures unassigned { IsUnassigned self.new }
        ensures restarted { HasRestarted self.old self.new }
    {
        release_decisions(&mut self.scope, &self.trail, 0);
        self.decision_heap.backtrack(&mut self.trail, 0);
        self.head = 0;
    }

    /// Adds an irredundant clause that follows by hints and that no live clause subsumes.
    fn add_shorter(&mut self, lits: &[Lit], hints: &[u32]) -> Result<(), AllocError>
        requires unassigned { IsUnassigned self.old }
        requires clause { IsClause lits.now }
        requires within { IsWithin self.old.clauses.vars lits.now }
        requires some { 0 < length lits.now }
        requires hold { HintsHold (live_in self.old.clauses) (among lits.now) hints.now }
        requires new { IsUnsubsumed (live_in self.old.clauses) lits.now }
        requires few { length self.old.clauses.clauses < 4000000000 }
        requires high { self.old.shorter.high ≡ length self.old.clauses.clauses }
        ensures unassigned { OnOk result (IsUnassigned self.new) }
        ensures clauses { OnOk result (self.new.clauses ≡ added self.old.clauses lits.now) }
        ensures added { OnOk result (HasAdded self.old self.new) }
        ensures logged { (f : Formula) → IsLogged f self.old → OnOk result (IsLogged f self.new) }
    {
        let id = self.clauses.add(lits)?;
        self.lines.add(id, lits, hints)?;
        self.shorter = Shorter {
            low: self.shorter.low,
            high: id,
        };
        self.clause_scores.note_shorter()?;
        Ok(())
    }

    /// Whether a clause of the formula may be deleted, since another irredundant clause `by` subsumes it.
    fn can_replace(&self, by: u32, id: u32) -> bool
        ensures { IsTrue result → CanReplace self.now by id }
    {
        if by == id || id > self.given || !self.is_irredundant(by) {
            return false;
        }
        if !self.clauses.live(id) || !self.clauses.live(by) {
            return false;
        }
        contains_all(self.clauses.arranged(id), self.clauses.arranged(by))
    }

    /// Deletes a clause of the formula from the search, but not from the log, if the clause `by` subsumes it.
    fn remove_subsumed(&mut self, id: u32, by: u32)
        requires unassigned { IsUnassigned self.old }
        ensures unassigned { IsUnassigned self.new }
        ensures aside { HasRemoved self.old self.new }
        ensures logged { (f : Formula) → IsLogged f self.old → IsLogged f self.new }
    {
        if !self.can_replace(by, id) {
            return;
        }
        self.clauses.delete(id);
    }

    /// Replaces a clause of the formula by the shorter one that the finder found, if the tests succeed and
    /// the last id is below `end`.
    fn replace(&mut self, work: &mut Work, id: u32, end: u32) -> Result<(), AllocError>
        requires strengthening { IsStrengthening self.old work.old.units }
        requires end { end ≤ 4000000000 }
        ensures strengthening { OnOk result (IsStrengthening self.new work.new.units) }
        ensures strengthened { OnOk result (HasStrengthened end self.old self.new) }
        ensures low { OnOk result (self.new.shorter.low ≡ self.old.shorter.low) }
        ensures logged { (f : Formula) → IsLogged f self.old → OnOk result (IsLogged f self.new) }
    {
        let last = self.clauses.last();
        if last >= end || !self.clauses.live(id) {
            return Ok(());
        }
        keep_others(
            self.clauses.arranged(id),
            work.finder.gone(),
            &mut work.rest,
        )?;
        if work.rest.is_empty() {
            return Ok(());
        }
        if !is_unsubsumed(&self.clauses, &work.units, &mut work.marks, &work.rest) {
            return Ok(());
        }
        let hints = work.finder.hints();
        if !holds(&self.clauses, &work.rest, hints, &mut work.known)? {
            return Ok(());
        }
        self.add_shorter(&work.rest, hints)?;
        work.units.note(&work.rest);
        work.finder.note(&work.rest, last + 1)?;
        self.remove_subsumed(id, last + 1);
        Ok(())
    }

    /// Subsumes or strengthens one clause of the formula.
    fn strengthen_one(&mut self, work: &mut Work, id: u32, end: u32) -> Result<(), AllocError>
        requires strengthening { IsStrengthening self.old work.old.units }
        requires end { end ≤ 4000000000 }
        ensures strengthening { OnOk result (IsStrengthening self.new work.new.units) }
        ensures strengthened { OnOk result (HasStrengthened end self.old self.new) }
        ensures low { OnOk result (self.new.shorter.low ≡ self.old.shorter.low) }
        ensures logged { (f : Formula) → IsLogged f self.old → OnOk result (IsLogged f self.new) }
    {
        match work.finder.find(&self.clauses, id)? {
            Simplification::Nothing => Ok(()),
            Simplification::Subsumed(by) => {
                self.remove_subsumed(id, by);
                Ok(())
            }
            Simplification::Shorter => self.replace(work, id, end),
        }
    }

    /// Subsumes or strengthens all clauses of the formula.
    fn strengthen_all(&mut self, work: &mut Work, end: u32) -> Result<(), AllocError>
        requires strengthening { IsStrengthening self.old work.old.units }
        requires end { end ≤ 4000000000 }
        ensures strengthening { OnOk result (IsStrengthening self.new work.new.units) }
        ensures strengthened { OnOk result (HasStrengthened end self.old self.new) }
        ensures low { OnOk result (self.new.shorter.low ≡ self.old.shorter.low) }
        ensures logged { (f : Formula) → IsLogged f self.old → OnOk result (IsLogged f self.new) }
    {
        for turn in 0..work.finder.turns() {
            let id = work.finder.at(turn);
            self.strengthen_one(work, id, end)?;
        }
        Ok(())
    }

    /// Makes the data structures, and subsumes or strengthens all clauses.
    fn strengthen_unassigned(&mut self, end: u32) -> Result<(), AllocError>
        requires unassigned { IsUnassigned self.old }
        requires full { (id : ℕ) → live_in self.old.clauses id ≡ Some [] → ⊥ }
        requires high { self.old.shorter.high ≡ length self.old.clauses.clauses }
        requires end { end ≤ 4000000000 }
        ensures unassigned { OnOk result (IsUnassigned self.new) }
        ensures strengthened { OnOk result (HasStrengthened end self.old self.new) }
        ensures low { OnOk result (self.new.shorter.low ≡ self.old.shorter.low) }
        ensures logged { (f : Formula) → IsLogged f self.old → OnOk result (IsLogged f self.new) }
    {
        let alloc = *self.starts.allocator();
        let mut work = work_on(alloc, &self.clauses, self.given)?;
        self.strengthen_all(&mut work, end)?;
        Ok(())
    }

    /// Sets where the ids of strengthened clauses begin.
    fn begin_shorter(&mut self)
        requires unassigned { IsUnassigned self.old }
        requires first { self.old.shorter.high ≡ 0 }
        ensures unassigned { IsUnassigned self.new }
        ensures clauses { self.new.clauses ≡ self.old.clauses }
        ensures limits { KeepsLimits self.old self.new }
        ensures low { self.new.shorter.low ≡ length self.new.clauses.clauses }
        ensures high { self.new.shorter.high ≡ length self.new.clauses.clauses }
        ensures logged { (f : Formula) → IsLogged f self.old → IsLogged f self.new }
    {
        let last = self.clauses.last();
        self.shorter = Shorter {
            low: last,
            high: last,
        };
    }

    /// Strengthens the clauses of the formula, by additions with ids up to `end`, and assigns the unit
    /// clauses at level 0 again. It returns the id of a falsified clause, if there is one.
    pub(crate) fn strengthen(&mut self, end: u32) -> Result<Option<u32>, AllocError>
        requires searching { IsSearching self.old }
        requires visited { HasWatchInvariant self.old }
        requires bottom { self.old.starts.items ≡ [] }
        requires first { self.old.shorter.high ≡ 0 }
        requires end { end ≤ 4000000000 }
        ensures searching { IfOk result (λ _. IsSearching self.new) }
        ensures bottom { IfOk result (λ _. self.new.starts.items ≡ []) }
        ensures visited { IfOk result (λ found. IfNone found (HasWatchInvariant self.new)) }
        ensures conflict { IfOk result (λ found.
            IfSome found (IsFalsified (live_in self.new.clauses) (falsified_in self.new.trail))) }
        ensures strengthened { IfOk result (λ _. HasStrengthened end self.old self.new) }
        ensures low { IfOk result (λ _. self.new.shorter.low ≡ length self.old.clauses.clauses) }
        ensures logged { (f : Formula) → IsLogged f self.old → IfOk result (λ _. IsLogged f self.new) }
    {
        self.unassign_all();
        self.begin_shorter();
        self.strengthen_unassigned(end)?;
        self.clauses.compact();
        self.begin()
    }
}
