//! Reduction of the clause database (reduceDB): learnt clauses are removed from the search, and the log gets
//! a deletion. The reason of a true literal stays, so that all that is learnt later can be derived. At most
//! half of the additions, or of `least`, are ever deleted, so a log that leaves the formula undecided keeps
//! half of its additions live (`half` of `IsLog`). `clause_scores` chooses the clauses. If still too many are live
//! at a decision, learnt clauses are deleted in the order of ids (`IsBounded`). At the end of a search no
//! reason is needed any more, and further additions are deleted in the order of ids until the log's end has
//! few enough.
ghost use Rattle.std.specs.Prelude.{◌≡◌, ◌+◌, ◌*◌, ◌<◌, ◌↔◌, length, IsTrue, IsFalse, IsSome, OnOk};
ghost use Rattle.sat_theory.specs.Formula.{Formula, IsWithin};
ghost use Rattle.sat_theory.specs.Log.{BoundsLiveAdditions};
ghost use Rattle.clause_db.specs.Stored.{live_in, IsStored};
ghost use Rattle.cdcl_core.specs.Reduction.{NoneImplied, SomeImplied};
ghost use Rattle.sat_theory.specs.Limits.{slack};

use crate::search::Search;
use cnf_core::Lit;
use std::alloc::AllocError;
use trail_core::Trail;

/// A log may have four times as many additions as deleted ones, variables and this number together.
const SLACK: u64 = sat_theory::SLACK as u64;

/// If too many clauses are live, at least this many are deleted in one scan (if deletable), so that scans are
/// rare.
const LEAST_DELETED: usize = 1000;

/// Whether the additions, without the `standing` irredundant ones, are more than four times the deleted ones,
/// the variables and the slack together.
fn exceeds(last: u32, given: u32, standing: u32, deleted: u32, vars: u32) -> bool
    ensures { IsTrue result ↔ (given + standing + 4 * (deleted + vars + slack) < last) }
{
    let bound = 4 * (u64::from(deleted) + u64::from(vars) + SLACK);
    u64::from(last) > u64::from(given) + u64::from(standing) + bound
}

/// Whether one of `lits` is true with this clause as its reason.
fn has_implied(trail: &Trail, lits: &[Lit], id: u32) -> bool
    requires { IsWithin trail.now.vars lits.now }
    ensures none { IsFalse result → NoneImplied trail.now lits.now (length lits.now) id }
    ensures some { IsTrue result → SomeImplied trail.now id }
{
    for index in 0..lits.len() {
        let lit = lits[index];
        if trail.falsified_at(lit.opposite()) > 0 && trail.reason(lit) == id {
            return true;
        }
    }
    false
}

impl Search {
    ghost use Rattle.cdcl_core.specs.Searching.{IsSearching, HasWatchInvariant, IsAccounted, IsIrredundant, IsLogged};
    ghost use Rattle.cdcl_core.specs.Reduction.{with_deletion, IsPending, IsReason, IsNoReason, HasHalf, MayDelete};
    ghost use Rattle.cdcl_core.specs.Reduction.{ExceedsFinalBound, ExceedsBound, IsBounded, IsUndeletable};
    ghost use Rattle.cdcl_core.specs.Reduction.{HasDeletedOne, HasReduced, MoreDeleted};

    /// Whether a live clause is the reason of a true literal (is locked).
    fn is_reason(&self, id: u32) -> bool
        requires searching { IsSearching self.now }
        requires live { IsSome (live_in self.now.clauses id) }
        ensures none { IsFalse result → IsNoReason self.now id }
        ensures reason { IsTrue result → IsReason self.now id }
    {
        has_implied(&self.trail, self.clauses.arranged(id), id)
    }

    /// Whether, after one more deletion, at least half of all additions, or of `least`, are still not
    /// deleted.
    fn has_half(&self) -> bool
        ensures { IsTrue result ↔ HasHalf self.now }
    {
        let both = 2 * (u64::from(self.deleted) + 1);
        both <= u64::from(self.least)
            || u64::from(self.clauses.last()) >= u64::from(self.given) + both
    }

    /// Whether a clause is one of the formula, or replaces one.
    pub(crate) fn is_irredundant(&self, id: u32) -> bool
        ensures { IsTrue result ↔ IsIrredundant self.now id }
    {
        id <= self.given || (self.shorter.low < id && id <= self.shorter.high)
    }

    /// Whether a clause may be deleted.
    fn may_delete(&self, id: u32) -> bool
        requires searching { IsSearching self.now }
        ensures may { IsTrue result → MayDelete self.now id }
        ensures stays { IsFalse result → HasHalf self.now → IsSome (live_in self.now.clauses id) →
            IsUndeletable self.now id }
    {
        if self.is_irredundant(id) || !self.has_half() || !self.clauses.live(id) {
            return false;
        }
        !self.is_reason(id)
    }

    /// Deletes a learnt clause from the search, and adds its id to `gone`, the ids that the next line of the
    /// log deletes.
    fn delete_one(&mut self, id: u32, gone: &mut Vec<u32>) -> Result<(), AllocError>
        requires live { IsSome (live_in self.old.clauses id) }
        requires learnt { self.old.given < id }
        requires half { HasHalf self.old }
        requires stored { IsStored self.old.clauses }
        ensures lost { OnOk result (HasDeletedOne id self.old self.new) }
        ensures stored { OnOk result (IsStored self.new.clauses) }
        ensures pending { (f : Formula) → IsPending f self.old gone.old.items →
            OnOk result (IsPending f self.new gone.new.items) }
    {
        gone.push(id)?;
        self.clauses.delete(id);
        self.deleted += 1;
        Ok(())
    }

    /// Adds a line to the log that deletes the ids of `gone`, if there are any.
    fn log_deletion(&mut self, gone: &[u32]) -> Result<(), AllocError>
        ensures lines { OnOk result (self.new.lines ≡
            with_deletion self.old.lines (length self.old.clauses.clauses) gone.now) }
        ensures same { OnOk result (self.new ≡ record self.old { lines = self.new.lines }) }
    {
        if gone.is_empty() {
            return Ok(());
        }
        self.lines.delete(self.clauses.last(), gone)?;
        Ok(())
    }

    /// Deletes those clauses of `ids` that may be deleted.
    pub(crate) fn delete_learnt(&mut self, ids: &[u32]) -> Result<(), AllocError>
        requires searching { IsSearching self.old }
        requires visited { HasWatchInvariant self.old }
        ensures searching { OnOk result (IsSearching self.new) }
        ensures visited { OnOk result (HasWatchInvariant self.new) }
        ensures reduced { OnOk result (HasReduced self.old self.new) }
        ensures logged { (f : Formula) → IsLogged f self.old → OnOk result (IsLogged f self.new) }
    {
        let mut gone = Vec::new(*self.starts.allocator());
        for id in ids {
            if !self.may_delete(*id) {
                continue;
            }
            self.delete_one(*id, &mut gone)?;
        }
        self.log_deletion(&gone)?;
        Ok(())
    }

    /// Records activity and LBD of the clause learnt last, and deletes recent ones that it subsumes.
    pub(crate) fn subsume_recent(&mut self) -> Result<(), AllocError>
        requires searching { IsSearching self.old }
        requires visited { HasWatchInvariant self.old }
        ensures searching { OnOk result (IsSearching self.new) }
        ensures visited { OnOk result (HasWatchInvariant self.new) }
        ensures reduced { OnOk result (HasReduced self.old self.new) }
        ensures logged { (f : Formula) → IsLogged f self.old → OnOk result (IsLogged f self.new) }
    {
        let contained = self.note_last()?;
        self.delete_learnt(&contained)?;
        Ok(())
    }

    /// Records the clause learnt last, and returns the ids of recent ones that it subsumes.
    fn note_last(&mut self) -> Result<Vec<u32>, AllocError>
        requires searching { IsSearching self.old }
        ensures { self.new ≡ record self.old { clause_scores = self.new.clause_scores } }
    {
        let alloc = *self.starts.allocator();
        let last = self.clauses.last();
        if !self.clauses.live(last) {
            return Ok(Vec::new(alloc));
        }
        let lits = self.clauses.arranged(last);
        self.clause_scores.note(&self.trail, &self.starts, lits)?;
        self.clause_scores
            .subsumed_by_last(alloc, &self.clauses, lits)
    }

    /// Deletes the less active candidates if a reduction is due, and frees their memory.
    fn reduce_db(&mut self) -> Result<(), AllocError>
        requires searching { IsSearching self.old }
        requires visited { HasWatchInvariant self.old }
        ensures searching { OnOk result (IsSearching self.new) }
        ensures visited { OnOk result (HasWatchInvariant self.new) }
        ensures reduced { OnOk result (HasReduced self.old self.new) }
        ensures logged { (f : Formula) → IsLogged f self.old → OnOk result (IsLogged f self.new) }
    {
        let less_active = self.due_deletions()?;
        self.delete_learnt(&less_active)?;
        if less_active.is_empty() {
            return Ok(());
        }
        self.clauses.compact();
        Ok(())
    }

    /// The ids of the clauses to delete, if a reduction is due.
    fn due_deletions(&mut self) -> Result<Vec<u32>, AllocError>
        ensures { self.new ≡ record self.old { clause_scores = self.new.clause_scores } }
    {
        let alloc = *self.starts.allocator();
        if !self.clause_scores.is_due() {
            return Ok(Vec::new(alloc));
        }
        self.clause_scores.less_active(alloc, &self.clauses)
    }

    /// Whether more additions are live than the end of the log may have. Irredundant ones don't count.
    fn exceeds_bound(&self) -> bool
        ensures { IsTrue result ↔ ExceedsBound self.now }
    {
        let standing = self.shorter.high.saturating_sub(self.shorter.low);
        exceeds(
            self.clauses.last(),
            self.given,
            standing,
            self.deleted,
            self.clauses.vars(),
        )
    }

    /// Deletes learnt clauses that are no reasons, in the order of ids, until few enough are live.
    fn delete_to_bound(&mut self) -> Result<(), AllocError>
        requires searching { IsSearching self.old }
        requires visited { HasWatchInvariant self.old }
        ensures searching { OnOk result (IsSearching self.new) }
        ensures visited { OnOk result (HasWatchInvariant self.new) }
        ensures reduced { OnOk result (HasReduced self.old self.new) }
        ensures logged { (f : Formula) → IsLogged f self.old → OnOk result (IsLogged f self.new) }
        ensures bounded { OnOk result (IsBounded self.new) }
    {
        let mut gone = Vec::new(*self.starts.allocator());
        for index in self.given..self.clauses.last() {
            let id = index + 1;
            if gone.len() >= LEAST_DELETED && !self.exceeds_bound() {
                continue;
            }
            if !self.may_delete(id) {
                continue;
            }
            self.delete_one(id, &mut gone)?;
        }
        self.log_deletion(&gone)?;
        Ok(())
    }

    /// Reduces the clause database if that is due, and deletes further clauses if too many are live.
    pub(crate) fn reduce_and_bound(&mut self) -> Result<(), AllocError>
        requires searching { IsSearching self.old }
        requires visited { HasWatchInvariant self.old }
        ensures searching { OnOk result (IsSearching self.new) }
        ensures visited { OnOk result (HasWatchInvariant self.new) }
        ensures reduced { OnOk result (HasReduced self.old self.new) }
        ensures logged { (f : Formula) → IsLogged f self.old → OnOk result (IsLogged f self.new) }
        ensures bounded { OnOk result (IsBounded self.new) }
    {
        self.reduce_db()?;
        if !self.exceeds_bound() {
            return Ok(());
        }
        self.delete_to_bound()?;
        self.clauses.compact();
        Ok(())
    }

    /// Whether more additions are live than the end of the log may have.
    fn exceeds_final_bound(&self) -> bool
        ensures { IsTrue result ↔ ExceedsFinalBound self.now }
    {
        u64::from(self.clauses.last())
            > u64::from(self.given)
                + 4 * (u64::from(self.deleted) + u64::from(self.clauses.vars()) + SLACK)
    }

    /// Deletes additions in the order of ids until few enough are live.
    fn delete_to_final_bound(&mut self, gone: &mut Vec<u32>) -> Result<(), AllocError>
        requires stored { IsStored self.old.clauses }
        ensures lines { OnOk result (self.new.lines ≡ self.old.lines) }
        ensures least { OnOk result (self.new.least ≡ self.old.least) }
        ensures pending { (f : Formula) → IsPending f self.old gone.old.items →
            OnOk result (IsPending f self.new gone.new.items) }
        ensures meet_final_bound { (f : Formula) → IsPending f self.old gone.old.items →
            OnOk result (ExceedsFinalBound self.new → ⊥) }
    {
        for index in self.given..self.clauses.last() {
            let id = index + 1;
            if !self.clauses.live(id) {
                continue;
            }
            if !self.exceeds_final_bound() {
                return Ok(());
            }
            self.delete_one(id, gone)?;
        }
        Ok(())
    }

    /// Deletes additions until the log's end has few enough live ones. Reasons and irredundant clauses may be
    /// among them, so this ends the search.
    pub(crate) fn meet_final_bound(&mut self) -> Result<(), AllocError>
        requires stored { IsStored self.old.clauses }
        ensures gone { OnOk result (MoreDeleted self.old.lines self.new.lines) }
        ensures least { OnOk result (self.new.least ≡ self.old.least) }
        ensures accounted { (f : Formula) → IsAccounted f self.old → OnOk result (IsAccounted f self.new) }
        ensures live_bounded { (f : Formula) → IsAccounted f self.old →
            OnOk result (BoundsLiveAdditions f self.new.lines) }
    {
        let mut gone = Vec::new(*self.starts.allocator());
        self.delete_to_final_bound(&mut gone)?;
        self.log_deletion(&gone)?;
        Ok(())
    }
}
