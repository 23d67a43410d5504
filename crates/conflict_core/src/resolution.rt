//! Resolution from a conflict back over the trail. The marked literals are the current resolvent, and each
//! step resolves it with the reason of one of its literals. `IsResolution` says that the marked literals are all
//! false, and that their clause follows by the ids used. Every step keeps this wherever it is made; the order
//! of the steps, the choice of literals and the end of the resolution are proved elsewhere. The marked literals
//! are listed too, so that the marks are cleared in linear time.
ghost use Rattle.std.specs.Prelude.{◌≡◌, ℤ, ◌+◌, ◌<◌, ◌≤◌, ◌∷◌, [], length, slice_index_or, IsSome, IfOk, OnOk};
ghost use Rattle.std.specs.Prelude.{IfSome};
ghost use Rattle.std.specs.Prelude.{IfNone};
ghost use Rattle.sat_theory.specs.Formula.{variable as variable_of, opposite as opposite_of, IsClause, IsWithin};
ghost use Rattle.cdcl_theory.specs.Propagation.{IsFalsified};
ghost use Rattle.cdcl_theory.specs.Trails.{TrailState, IsTrail, IsExplained, HasReason, falsified_at as falsified_in};
ghost use Rattle.clause_db.specs.Stored.{live_in};
ghost use Rattle.trail_core.specs.Values.{IsOver};
ghost use Rattle.conflict_core.specs.Markings.{AreMarked, IsMarkedBy, IsListed, IsMarkedClause, NoneMarked};
ghost use Rattle.conflict_core.specs.Markings.{IsLastMarked, IsReplaced, StayBelow, OnlyBelow, AreFewer, HasRoom};
ghost use Rattle.conflict_core.specs.Markings.{IsClear, AreOthers};
ghost use Rattle.conflict_core.specs.Learning.{IsResolutionOf, HaveReasons};

use crate::marks::LitSet;
use clause_db::ClauseDb;
use cnf_core::Lit;
use std::alloc::{AllocError, Global};
use trail_core::Trail;

/// The current resolvent of a conflict analysis: its literals are marked.
#[derive(Drop)]
pub(crate) struct Resolution {
    pub(crate) marks: LitSet,
    /// the literals marked since the conflict
    pub(crate) touched: Vec<Lit>,
    /// the ids of the clauses used, from the conflict on
    pub(crate) hints: Vec<u32>,
}

impl Resolution {
    /// Room for the literals of the variables 1 to `vars`.
    pub(crate) fn new(alloc: Global, vars: u32) -> Result<Resolution, AllocError>
        ensures clear { IfOk result (λ w. IsClear vars w.marks) }
        ensures touched { IfOk result (λ w. w.touched.items ≡ []) }
    {
        Ok(Resolution {
            marks: LitSet::new(alloc, vars)?,
            touched: Vec::new(alloc),
            hints: Vec::new(alloc),
        })
    }

    /// Marks a literal if it is false.
    #[tactic(auto, using(crate::proofs::Gathering::marking_one))]
    fn mark(&mut self, trail: &Trail, lit: Lit) -> Result<(), AllocError>
        requires over { IsOver trail.now.vars lit }
        requires listed { IsListed trail.now.vars self.old.marks self.old.touched.items }
        ensures marked { OnOk result (AreMarked (falsified_in trail.now) (lit ∷ []) self.old.marks self.new.marks) }
        ensures listed { OnOk result (IsListed trail.now.vars self.new.marks self.new.touched.items) }
        ensures hints { self.new.hints ≡ self.old.hints }
        ensures room { length self.new.marks ≡ length self.old.marks }
    {
        if trail.falsified_at(lit) == 0 || self.marks.has(lit) {
            return Ok(());
        }
        self.marks.set(lit);
        self.touched.push(lit)?;
        Ok(())
    }

    /// Marks the false literals of a clause.
    #[tactic(auto, using(crate::proofs::Gathering::marking_all))]
    fn mark_falsified(&mut self, trail: &Trail, lits: &[Lit]) -> Result<(), AllocError>
        requires clause { IsClause lits.now }
        requires within { IsWithin trail.now.vars lits.now }
        requires listed { IsListed trail.now.vars self.old.marks self.old.touched.items }
        ensures marked { OnOk result (AreMarked (falsified_in trail.now) lits.now self.old.marks self.new.marks) }
        ensures listed { OnOk result (IsListed trail.now.vars self.new.marks self.new.touched.items) }
        ensures hints { self.new.hints ≡ self.old.hints }
        ensures room { length self.new.marks ≡ length self.old.marks }
    {
        for lit in lits {
            self.mark(trail, *lit)?;
        }
        Ok(())
    }

    /// Marks the false literals of a live clause. They are read in the clause's stored order, from memory
    /// that propagation has just read.
    #[tactic(auto, using(crate::proofs::Gathering::marking_clause))]
    fn mark_clause(&mut self, trail: &Trail, clauses: &ClauseDb, id: u32) -> Result<(), AllocError>
        requires vars { clauses.now.vars ≡ trail.now.vars }
        requires live { IsSome (live_in clauses.now id) }
        requires listed { IsListed trail.now.vars self.old.marks self.old.touched.items }
        ensures marked { OnOk result (IsMarkedBy (live_in clauses.now) (falsified_in trail.now) id self.old.marks
            self.new.marks) }
        ensures listed { OnOk result (IsListed trail.now.vars self.new.marks self.new.touched.items) }
        ensures hints { self.new.hints ≡ self.old.hints }
        ensures room { length self.new.marks ≡ length self.old.marks }
    {
        self.mark_falsified(trail, clauses.arranged(id))?;
        Ok(())
    }

    /// Starts with a falsified clause: marks its literals.
    pub(crate) fn begin(
        &mut self,
        trail: &Trail,
        clauses: &ClauseDb,
        conflict: u32,
    ) -> Result<(), AllocError>
        requires whole { IsTrail trail.now }
        requires clear { IsClear trail.now.vars self.old.marks }
        requires vars { clauses.now.vars ≡ trail.now.vars }
        requires conflict { IsFalsified (live_in clauses.now) (falsified_in trail.now) conflict }
        ensures resolution { OnOk result (IsResolutionOf (live_in clauses.now) trail.now self.new) }
        ensures marked { OnOk result (IsMarkedClause (live_in clauses.now) self.new.marks conflict) }
        ensures room { length self.new.marks ≡ length self.old.marks }
    {
        self.touched.clear();
        self.hints.clear();
        self.mark_clause(trail, clauses, conflict)?;
        self.hints.push(conflict)?;
        Ok(())
    }

    /// Resolves with the reason of the true literal at a trail index: the other literals of the reason
    /// replace its opposite.
    pub(crate) fn resolve(
        &mut self,
        trail: &Trail,
        clauses: &ClauseDb,
        trail_index: usize,
    ) -> Result<(), AllocError>
        requires vars { clauses.now.vars ≡ trail.now.vars }
        requires inside { trail_index < length trail.now.lits }
        requires reason { HasReason (live_in clauses.now) trail.now trail_index }
        requires resolution { IsResolutionOf (live_in clauses.now) trail.now self.old }
        ensures resolution { OnOk result (IsResolutionOf (live_in clauses.now) trail.now self.new) }
        ensures replaced { OnOk result (IsReplaced trail.now trail_index self.old.marks self.new.marks) }
        ensures room { length self.new.marks ≡ length self.old.marks }
    {
        let lit = trail.at(trail_index);
        let id = trail.reason(lit);
        self.marks.unset(lit.opposite());
        self.mark_clause(trail, clauses, id)?;
        self.hints.push(id)?;
        Ok(())
    }

    /// Resolves with the reasons of all marked literals whose opposites are at the trail indices from `low`
    /// to `high`, last first.
    pub(crate) fn resolve_down(
        &mut self,
        trail: &Trail,
        clauses: &ClauseDb,
        low: usize,
        high: usize,
    ) -> Result<(), AllocError>
        requires vars { clauses.now.vars ≡ trail.now.vars }
        requires inside { high ≤ length trail.now.lits }
        requires order { low ≤ high }
        requires reasons { HaveReasons (live_in clauses.now) trail.now low }
        requires resolution { IsResolutionOf (live_in clauses.now) trail.now self.old }
        requires none { NoneMarked trail.now self.old.marks high (length trail.now.lits) }
        ensures resolution { OnOk result (IsResolutionOf (live_in clauses.now) trail.now self.new) }
        ensures none { OnOk result (NoneMarked trail.now self.new.marks low (length trail.now.lits)) }
        ensures others { OnOk result (StayBelow trail.now low self.old.marks self.new.marks) }
        ensures room { length self.new.marks ≡ length self.old.marks }
    {
        let mut trail_index = high;
        while trail_index > low {
            trail_index -= 1;
            if !self.marks.has(trail.at(trail_index).opposite()) {
                continue;
            }
            self.resolve(trail, clauses, trail_index)?;
        }
        Ok(())
    }

    /// The last trail index from `low` to `high` with a marked literal.
    fn last_marked(&self, trail: &Trail, low: usize, high: usize) -> Option<usize>
        requires room { HasRoom trail.now.vars self.now.marks }
        requires inside { high ≤ length trail.now.lits }
        ensures some { IfSome result (IsLastMarked trail.now self.now.marks low high) }
        ensures none { IfNone result (NoneMarked trail.now self.now.marks low high) }
    {
        let mut trail_index = high;
        while trail_index > low {
            trail_index -= 1;
            if self.marks.has(trail.at(trail_index).opposite()) {
                return Some(trail_index);
            }
        }
        None
    }

    /// Resolves until one literal of the level that begins at trail index `start` is left (the first UIP),
    /// and returns its trail index. Each index of the level is read at most twice.
    pub(crate) fn resolve_to_uip(
        &mut self,
        trail: &Trail,
        clauses: &ClauseDb,
        start: usize,
    ) -> Result<usize, AllocError>
        requires vars { clauses.now.vars ≡ trail.now.vars }
        requires reasons { HaveReasons (live_in clauses.now) trail.now (start + 1) }
        requires resolution { IsResolutionOf (live_in clauses.now) trail.now self.old }
        requires some { NoneMarked trail.now self.old.marks start (length trail.now.lits) → ⊥ }
        ensures resolution { IfOk result (λ top. IsResolutionOf (live_in clauses.now) trail.now self.new) }
        ensures last { IfOk result (IsLastMarked trail.now self.new.marks start (length trail.now.lits)) }
        ensures alone { IfOk result (NoneMarked trail.now self.new.marks start) }
        ensures room { length self.new.marks ≡ length self.old.marks }
    {
        let Some(mut top) = self.last_marked(trail, start, trail.len()) else {
            unreachable!()
        };
        while let Some(other) = self.last_marked(trail, start, top) {
            self.resolve_down(trail, clauses, other + 1, top + 1)?;
            top = other;
        }
        Ok(top)
    }

    /// Resolves a literal away if it is marked, was falsified before trail index `start`, and isn't the
    /// opposite of a decision.
    pub(crate) fn resolve_away(
        &mut self,
        trail: &Trail,
        clauses: &ClauseDb,
        start: usize,
        lit: Lit,
    ) -> Result<(), AllocError>
        requires vars { clauses.now.vars ≡ trail.now.vars }
        requires explained { IsExplained (live_in clauses.now) trail.now }
        requires over { variable_of lit ≤ trail.now.vars }
        requires resolution { IsResolutionOf (live_in clauses.now) trail.now self.old }
        ensures resolution { OnOk result (IsResolutionOf (live_in clauses.now) trail.now self.new) }
        ensures below { OnOk result (OnlyBelow trail.now start self.old.marks self.new.marks) }
        ensures room { length self.new.marks ≡ length self.old.marks }
    {
        if !self.marks.has(lit) {
            return Ok(());
        }
        let trail_index = trail.falsified_at(lit) as usize - 1;
        if trail_index >= start || trail.reason(lit.opposite()) == 0 {
            return Ok(());
        }
        self.resolve(trail, clauses, trail_index)
    }

    /// Removes each marked literal whose opposite is in a binary clause with `first`, by resolution with that
    /// clause, which is the hint. Only clauses whose blocking literal is the opposite of a marked literal are
    /// read: in a binary clause the blocking literal is the other literal. No contract says so; were it
    /// otherwise, a literal could stay that might go, and none would be removed wrongly.
    pub(crate) fn minimise_with_binaries(
        &mut self,
        clauses: &ClauseDb,
        first: Lit,
    ) -> Result<(), AllocError>
        requires over { variable_of first ≤ clauses.now.vars }
        requires room { HasRoom clauses.now.vars self.old.marks }
        ensures resolution { (t : TrailState) → IsTrail t → IsResolutionOf (live_in clauses.now) t self.old →
            OnOk result (IsResolutionOf (live_in clauses.now) t self.new) }
        ensures fewer { OnOk result (AreFewer self.old.marks self.new.marks) }
        ensures room { length self.new.marks ≡ length self.old.marks }
    {
        // for the prover: always true after `resolve_to_uip`
        if !self.marks.has(first) {
            return Ok(());
        }
        let watches = clauses.watching(first);
        for index in 0..watches.len() {
            let lit = watches[index].blocker.opposite();
            if !self.marks.has(lit) {
                continue;
            }
            let lits = clauses.arranged_at(first, index);
            let count = lits.len();
            if count != 2 {
                continue;
            }
            self.marks.unset(lit);
            self.hints.push(clauses.id_at(first, index))?;
        }
        Ok(())
    }

    /// Clears all marks, moves the marked literals into `others` except the one whose opposite is at trail
    /// index `top`, and returns that one.
    pub(crate) fn gather_others(
        &mut self,
        trail: &Trail,
        top: usize,
        others: &mut Vec<Lit>,
    ) -> Result<Lit, AllocError>
        requires inside { top < length trail.now.lits }
        requires listed { IsListed trail.now.vars self.old.marks self.old.touched.items }
        ensures first { IfOk result (λ first. (d : ℤ) → opposite_of (slice_index_or trail.now.lits top d) ≡ first) }
        ensures over { IfOk result (IsOver trail.now.vars) }
        ensures others { IfOk result (λ first. AreOthers trail.now.vars self.old.marks first others.new.items) }
        ensures clear { OnOk result (IsClear trail.now.vars self.new.marks) }
        ensures touched { self.new.touched ≡ self.old.touched }
        ensures hints { self.new.hints ≡ self.old.hints }
        ensures room { length self.new.marks ≡ length self.old.marks }
    {
        let first = trail.at(top).opposite();
        others.clear();
        self.marks.unset(first);
        self.marks.take(&self.touched, others)?;
        Ok(first)
    }
}
