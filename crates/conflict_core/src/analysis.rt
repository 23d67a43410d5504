//! The learnt clause, and why a log may add it. Resolution goes back over the conflict's level to
//! its first unique implication point (first UIP); minimisation and binary clauses remove further
//! literals by resolution too; the marked literals that are left form the clause. It follows by the
//! hints: this is the invariant of the resolution (`IsResolution`). One literal of the level is left, and
//! the position of the next one is the backjump target (`IsLearnt`).
ghost use Rattle.std.specs.Prelude.{◌≡◌, ℕ, ℤ, ◌+◌, ◌<◌, ◌≤◌, ◌∷◌, [], length, slice_index_or, reverse, All, IfOk};
ghost use Rattle.std.specs.Prelude.{OnOk};
ghost use Rattle.std.specs.List.Sorted.{IsPermutation};
ghost use Rattle.sat_theory.specs.Formula.{IsWithin};
ghost use Rattle.sat_theory.specs.Holding.{among, HintsHold};
ghost use Rattle.cdcl_theory.specs.Propagation.{IsClosed, IsFalsified};
ghost use Rattle.cdcl_theory.specs.Trails.{IsExplained, falsified_at as falsified_in};
ghost use Rattle.clause_db.specs.Stored.{live_in};
ghost use Rattle.conflict_core.specs.Markings.{HasRoom, HasFalsifiedAt, OnlyBelow};
ghost use Rattle.conflict_core.specs.Learning.{IsReady, IsResolutionOf, HaveReasons, IsConflict, IsMovedToFront};
ghost use Rattle.conflict_core.specs.Learning.{IsLearnt};

use crate::Learnt;
use crate::redundancy::Redundancy;
use crate::resolution::Resolution;
use clause_db::ClauseDb;
use cnf_core::Lit;
use std::alloc::{AllocError, Global};
use trail_core::Trail;

/// The tables of the conflict analysis, reused for each conflict.
#[derive(Drop)]
pub struct Analysis {
    resolution: Resolution,
    redundancy: Redundancy,
    /// the literals of the learnt clause that became false below the conflict's level
    lower: Vec<Lit>,
}

impl Analysis {
    /// Room for the literals of the variables 1 to `vars`.
    pub fn new(alloc: Global, vars: u32) -> Result<Analysis, AllocError>
        ensures { IfOk result (IsReady vars) }
    {
        Ok(Analysis {
            resolution: Resolution::new(alloc, vars)?,
            redundancy: Redundancy::new(alloc, vars)?,
            lower: Vec::new(alloc),
        })
    }

    /// The literals that the last call of `learn` marked, those of the learnt clause among them.
    pub fn touched(&self) -> &[Lit]
        ensures within { (vars : ℕ) → IsReady vars self.now → IsWithin vars result.now }
    {
        &self.resolution.touched
    }

    /// Resolves away literals that reasons imply from others of the clause, among those falsified before
    /// trail index `start` (clause minimisation).
    fn minimise(
        &mut self,
        trail: &Trail,
        clauses: &ClauseDb,
        start: usize,
    ) -> Result<(), AllocError>
        requires vars { clauses.now.vars ≡ trail.now.vars }
        requires explained { IsExplained (live_in clauses.now) trail.now }
        requires room { length self.old.redundancy.verdicts.items ≡ trail.now.vars + 1 }
        requires resolution { IsResolutionOf (live_in clauses.now) trail.now self.old.resolution }
        ensures resolution { OnOk result (IsResolutionOf (live_in clauses.now) trail.now self.new.resolution) }
        ensures below { OnOk result (OnlyBelow trail.now start self.old.resolution.marks self.new.resolution.marks) }
        ensures room { length self.new.redundancy.verdicts.items ≡ length self.old.redundancy.verdicts.items }
        ensures marks { length self.new.resolution.marks ≡ length self.old.resolution.marks }
    {
        self.redundancy.find(
            trail,
            clauses,
            &self.resolution.marks,
            &self.resolution.touched,
            start,
        )?;
        while let Some(lit) = self.redundancy.pop() {
            self.resolution.resolve_away(trail, clauses, start, lit)?;
        }
        Ok(())
    }

    /// Clears the marks that an interrupted analysis left.
    fn clear(&mut self)
        ensures { (vars : ℕ) → HasRoom vars self.old.resolution.marks → length self.old.redundancy.verdicts.items ≡
            vars + 1 → IsReady vars self.new }
    {
        self.resolution.touched.clear();
        self.resolution.marks.clear();
    }

    /// Resolves from a conflict back to the first UIP of its level, minimises, and gathers the clause. If
    /// memory runs out, marks are left over.
    fn first_uip_clause(
        &mut self,
        alloc: Global,
        trail: &Trail,
        clauses: &ClauseDb,
        conflict: u32,
        start: usize,
    ) -> Result<Learnt, AllocError>
        requires ready { IsReady trail.now.vars self.old }
        requires vars { clauses.now.vars ≡ trail.now.vars }
        requires conflict { IsConflict (live_in clauses.now) trail.now start conflict }
        ensures learnt { IfOk result (λ l. IsLearnt (live_in clauses.now) trail.now start l.lits.items l.back
            l.hints.items) }
        ensures ready { OnOk result (IsReady trail.now.vars self.new) }
        ensures marks { length self.new.resolution.marks ≡ length self.old.resolution.marks }
        ensures verdicts { length self.new.redundancy.verdicts.items ≡ length self.old.redundancy.verdicts.items }
    {
        self.resolution.begin(trail, clauses, conflict)?;
        let top = self.resolution.resolve_to_uip(trail, clauses, start)?;
        let marked_count = self.resolution.touched.len();
        self.minimise(trail, clauses, start)?;
        self.resolution
            .minimise_with_binaries(clauses, trail.at(top).opposite())?;
        let first = self.resolution.gather_others(trail, top, &mut self.lower)?;
        self.resolution.touched.truncate(marked_count);
        let back = last_falsified(trail, &self.lower);
        move_to_front(trail, &mut self.lower, back);
        put_older_half_first(trail, &mut self.lower, back);
        let lits = joined(alloc, first, &self.lower)?;
        let hints = reversed(alloc, &self.resolution.hints)?;
        Ok(Learnt { lits, back, hints })
    }

    /// Learns the minimised first-UIP clause from one that is falsified in the level that begins at trail
    /// index `start`. Even if memory runs out, it is ready for the next conflict.
    pub fn learn(
        &mut self,
        alloc: Global,
        trail: &Trail,
        clauses: &ClauseDb,
        conflict: u32,
        start: usize,
    ) -> Result<Learnt, AllocError>
        requires ready { IsReady trail.now.vars self.old }
        requires vars { clauses.now.vars ≡ trail.now.vars }
        requires level { start < length trail.now.lits }
        requires closed { IsClosed (live_in clauses.now) (falsified_in trail.now) start }
        requires reasons { HaveReasons (live_in clauses.now) trail.now (start + 1) }
        requires explained { IsExplained (live_in clauses.now) trail.now }
        requires conflict { IsFalsified (live_in clauses.now) (falsified_in trail.now) conflict }
        ensures learnt { IfOk result (λ l. IsLearnt (live_in clauses.now) trail.now start l.lits.items l.back
            l.hints.items) }
        ensures ready { IsReady trail.now.vars self.new }
    {
        let learnt = self.first_uip_clause(alloc, trail, clauses, conflict, start);
        if learnt.is_err() {
            self.clear();
        }
        learnt
    }

    /// Resolves from a conflict back over the whole trail, and gathers the hints. If memory runs out, marks
    /// are left over.
    fn refutation_hints(
        &mut self,
        alloc: Global,
        trail: &Trail,
        clauses: &ClauseDb,
        conflict: u32,
    ) -> Result<Vec<u32>, AllocError>
        requires ready { IsReady trail.now.vars self.old }
        requires vars { clauses.now.vars ≡ trail.now.vars }
        requires reasons { HaveReasons (live_in clauses.now) trail.now 0 }
        requires conflict { IsFalsified (live_in clauses.now) (falsified_in trail.now) conflict }
        ensures hints { IfOk result (λ hints. HintsHold (live_in clauses.now) (among []) hints.items) }
        ensures marks { length self.new.resolution.marks ≡ length self.old.resolution.marks }
        ensures verdicts { length self.new.redundancy.verdicts.items ≡ length self.old.redundancy.verdicts.items }
    {
        let end = trail.len();
        self.resolution.begin(trail, clauses, conflict)?;
        self.resolution.resolve_down(trail, clauses, 0, end)?;
        reversed(alloc, &self.resolution.hints)
    }

    /// The hints of the empty clause, from a clause that is falsified at level 0.
    pub fn refute(
        &mut self,
        alloc: Global,
        trail: &Trail,
        clauses: &ClauseDb,
        conflict: u32,
    ) -> Result<Vec<u32>, AllocError>
        requires ready { IsReady trail.now.vars self.old }
        requires vars { clauses.now.vars ≡ trail.now.vars }
        requires reasons { HaveReasons (live_in clauses.now) trail.now 0 }
        requires conflict { IsFalsified (live_in clauses.now) (falsified_in trail.now) conflict }
        ensures hints { IfOk result (λ hints. HintsHold (live_in clauses.now) (among []) hints.items) }
        ensures ready { IsReady trail.now.vars self.new }
    {
        let hints = self.refutation_hints(alloc, trail, clauses, conflict);
        self.clear();
        hints
    }
}

/// The greatest position of some literals, where the last one became false; 0 if there is none.
fn last_falsified(trail: &Trail, lits: &[Lit]) -> u32
    requires { IsWithin trail.now.vars lits.now }
    ensures all { All (λ m. falsified_in trail.now m ≤ result) lits.now }
    ensures there { 0 < result → HasFalsifiedAt (falsified_in trail.now) lits.now result }
{
    let mut back = 0;
    for lit in lits {
        back = back.max(trail.falsified_at(*lit));
    }
    back
}

/// Swaps the first literal at position `back`, if there is one, to the front.
fn move_to_front(trail: &Trail, lits: &mut Vec<Lit>, back: u32)
    requires { IsWithin trail.now.vars lits.old.items }
    ensures { IsMovedToFront (falsified_in trail.now) back lits.old.items lits.new.items }
{
    for index in 0..lits.len() {
        if trail.falsified_at(lits[index]) == back {
            lits.swap(0, index);
            return;
        }
    }
}

/// Puts the literals at positions up to half of `back` before the others; the first literal stays in front. A
/// clause that needs another watch takes the first literal that isn't false, and one that became false early
/// is, once unassigned, free for long.
fn put_older_half_first(trail: &Trail, lits: &mut Vec<Lit>, back: u32)
    requires { IsWithin trail.now.vars lits.old.items }
    ensures order { IsPermutation lits.old.items lits.new.items }
    ensures head { (d : ℤ) → slice_index_or lits.new.items 0 d ≡ slice_index_or lits.old.items 0 d }
{
    let mut older = 1;
    for index in 1..lits.len() {
        if trail.falsified_at(lits[index]) <= back / 2 {
            lits.swap(older, index);
            older += 1;
        }
    }
}

/// One literal followed by others.
fn joined(alloc: Global, first: Lit, others: &[Lit]) -> Result<Vec<Lit>, AllocError>
    ensures { IfOk result (λ v. v.items ≡ first ∷ others.now) }
{
    let mut lits = Vec::with_capacity(alloc, others.len() + 1)?;
    lits.push(first)?;
    lits.extend_from_slice(others)?;
    Ok(lits)
}

/// The ids in reverse order.
fn reversed(alloc: Global, ids: &[u32]) -> Result<Vec<u32>, AllocError>
    ensures { IfOk result (λ v. v.items ≡ reverse ids.now) }
{
    ids.iter().rev().copied().collect(alloc)
}
