//! Clauses with their ids and watched literals. The literals of each clause are stored once, the two watched
//! ones first; contracts see them in the order of their codes, so replacing a watched literal doesn't change
//! the clause for them. Beyond what contracts see, each entry of a watch list has a blocking literal and the
//! arena position of the clause, where contracts see its id. The invariant of `Watches` relates positions and
//! ids. So `compact` moves literals, and contracts see no change. `add` and `rewatch_at` state their effect as an
//! equation on what contracts see (`added`, `rewatched`), so the facts that the solver needs about watches
//! are laws about these.
ghost use Rattle.std.specs.Prelude.{◌≡◌, ◌≢◌, ℕ, ◌+◌, ◌<◌, ◌≤◌, ◌⊎◌, ◌↔◌, ℤ, Some, IsTrue, IsSome, IfOk, OnOk, OnErr};
ghost use Rattle.std.specs.Prelude.{List, [], ◌∷◌, map, length, slice_index_or, Contains, All, AllPairs};
ghost use Rattle.sat_theory.specs.Formula.{variable as variable_of, IsClause, IsWithin};
ghost use Rattle.sat_theory.specs.State.{by_id, without};
ghost use Rattle.clause_db.specs.Watching.{list_of, pair_at, pair_of};
ghost use Rattle.clause_db.specs.Stored.{live_in, Watches as WatchesOf, IsLong, IsStored, none_stored, added};
ghost use Rattle.clause_db.specs.Stored.{all_added, rewatched};
ghost use Rattle.clause_db.specs.Sorted.{sorted};
ghost use Rattle.clause_db.specs.Moving.{IsMovable};
ghost use Rattle.clause_db.specs.Blockers.{IsLiteralOf, AreBeside};
ghost use Rattle.clause_db.specs.Deleting.{IsDeleted};

use crate::lists::Watch;
use crate::room::Room;
use crate::watches::Watches;
use cnf_core::{Cnf, Lit};
use std::alloc::{AllocError, Global};
use std::marker::Model;

/// Clauses over the variables of one formula, by their ids 1, 2 and so on. Each clause of at least two
/// literals watches two of them. Contracts see the variables, a list with an entry for each id given so far
/// (its clause, if that is live), the watched pairs, and for each literal a list of ids.
#[derive(Drop)]
pub struct ClauseDb {
    vars: u32,
    /// by id, from 1 on: whether the clause is live
    live: Vec<bool>,
    watches: Watches,
}

impl Model for ClauseDb {
    ghost use Rattle.std.specs.Prelude.{length, ◌≡◌};
    ghost use Rattle.clause_db.specs.Stored.{Stored, IsStored};
    ghost use Rattle.clause_db.specs.Blockers.{AreBlockers};
    ghost use Rattle.clause_db.specs.Arranging.{shown};

    ghost Value = { Stored };

    ghost view = { λ c. shown c.vars c.live.items c.watches };

    ghost invariant = { λ c. IsStored (shown c.vars c.live.items c.watches)
        × AreBlockers (shown c.vars c.live.items c.watches) c.watches.rows
        × (length c.live.items ≡ length c.watches.arena) };
}

#[tactic(auto, using(crate::proofs::Databases::databases))]
impl ClauseDb {
    /// The clauses of a formula, under their ids there. Each watches its first two literals. The literals of
    /// all clauses, and two header words for each clause, are at most 2,147,483,647; more count as running
    /// out of memory.
    pub fn new(alloc: Global, cnf: &Cnf) -> Result<ClauseDb, AllocError>
        ensures all { IfOk result (λ c. c ≡ all_added (none_stored cnf.now.vars) cnf.now.clauses) }
        ensures clauses { IfOk result (λ c. live_in c ≡ by_id (map sorted cnf.now.clauses)) }
        ensures watches { IfOk result (λ c. (id : ℕ) (clause : List ℤ) → by_id cnf.now.clauses id ≡ Some clause
            → pair_at c.watches id ≡ pair_of clause) }
        ensures whole { IfOk result (λ c. IsStored c) }
    {
        let room = Room::of(alloc, cnf)?;
        let mut clauses = ClauseDb::none(alloc, cnf.vars(), &room)?;
        for clause in cnf.clauses() {
            clauses.add(clause.lits())?;
        }
        Ok(clauses)
    }

    fn none(alloc: Global, vars: u32, room: &Room) -> Result<ClauseDb, AllocError>
        requires { vars < 1000000000 }
        ensures { IfOk result (λ c. c ≡ none_stored vars) }
    {
        Ok(ClauseDb {
            vars,
            live: Vec::with_capacity(alloc, room.clauses())?,
            watches: Watches::none(alloc, vars, room)?,
        })
    }

    /// Adds a clause over the variables of the formula, and returns its id, 1 + the last one. It watches its
    /// first two literals. The literals of all clauses, and two header words for each id given so far, are at
    /// most 2,147,483,647; more count as running out of memory. Those of a deleted clause count until
    /// `compact`.
    pub fn add(&mut self, lits: &[Lit]) -> Result<u32, AllocError>
        requires clause { IsClause lits.now }
        requires variables { IsWithin self.old.vars lits.now }
        requires few { length self.old.clauses < 4000000000 }
        ensures ok { OnOk result (self.new ≡ added self.old lits.now) }
        ensures id { IfOk result (λ id. id ≡ length self.old.clauses + 1) }
        ensures err { OnErr result (self.new ≡ self.old) }
        ensures whole { IsStored self.new }
    {
        self.live.push(true)?;
        let id = self.live.len() as u32;
        match self.watches.add(lits, id) {
            Ok(()) => Ok(id),
            Err(error) => {
                self.live.pop();
                Err(error)
            }
        }
    }

    /// The literals of a live clause in their stored order: the two watched ones, if any, come first.
    pub fn arranged(&self, id: u32) -> &[Lit]
        requires live { IsSome (live_in self.now id) }
        ensures value { live_in self.now id ≡ Some (sorted result.now) }
        ensures long { (clause : List ℤ) → live_in self.now id ≡ Some clause → length result.now ≡ length clause }
        ensures same { (clause : List ℤ) → live_in self.now id ≡ Some clause → (l : ℤ) →
            Contains result.now l ↔ Contains clause l }
        ensures front { IsLong self.now id → (2 ≤ length result.now) ×
            (pair_of result.now ≡ pair_at self.now.watches id) }
        ensures clause { IsClause result.now }
        ensures over { IsWithin self.now.vars result.now }
        ensures whole { IsStored self.now }
    {
        self.watches.block(id)
    }

    /// The literals of the clause at an index in the watch list of a literal of the formula's
    /// variables, in the order of `arranged`: the two that it watches come first.
    pub fn arranged_at(&self, lit: Lit, index: usize) -> &[Lit]
        requires over { variable_of lit ≤ self.now.vars }
        requires inside { index < length (list_of self.now.watches lit) }
        ensures same { (clause : List ℤ) → live_in self.now (slice_index_or (list_of self.now.watches lit) index 0) ≡
            Some clause → (l : ℤ) → Contains result.now l ↔ Contains clause l }
        ensures front { (2 ≤ length result.now) ×
            (pair_of result.now ≡ pair_at self.now.watches (slice_index_or (list_of self.now.watches lit) index 0)) }
        ensures clause { IsClause result.now }
        ensures over { IsWithin self.now.vars result.now }
        ensures whole { IsStored self.now }
    {
        self.watches.entry_block(lit, index)
    }

    /// Whether the clause with this id is live.
    pub fn live(&self, id: u32) -> bool
        ensures { IsTrue result ↔ IsSome (live_in self.now id) }
    {
        if id == 0 {
            return false;
        }
        match self.live.get(id as usize - 1) {
            Some(live) => *live,
            None => false,
        }
    }

    /// The number of variables of the formula.
    pub fn vars(&self) -> u32
        ensures value { result ≡ self.now.vars }
        ensures whole { IsStored self.now }
    {
        self.vars
    }

    /// The last id given; 0 if there is none.
    pub fn last(&self) -> u32
        ensures value { result ≡ length self.now.clauses }
        ensures whole { IsStored self.now }
    {
        self.live.len() as u32
    }

    /// The two literals that a clause of two or more watches.
    pub fn watched(&self, id: u32) -> (Lit, Lit)
        requires { IsLong self.now id }
        ensures first { WatchesOf self.now id result.0 }
        ensures second { WatchesOf self.now id result.1 }
        ensures differ { result.0 ≢ result.1 }
        ensures only { (l : ℤ) → WatchesOf self.now id l → (l ≡ result.0) ⊎ (l ≡ result.1) }
        ensures of_clause { (clause : List ℤ) → live_in self.now id ≡ Some clause → Contains clause result.0 ×
            Contains clause result.1 }
        ensures whole { IsStored self.now }
    {
        let pair = self.watches.pair(id);
        (pair.first, pair.second)
    }

    /// The watch list of a literal of the formula's variables: for each clause that watches it an entry with
    /// a blocking literal of the clause. `id_at` reads the ids.
    pub fn watching(&self, lit: Lit) -> &[Watch]
        requires { variable_of lit ≤ self.now.vars }
        ensures exact { (id : ℕ) → Contains (list_of self.now.watches lit) id ↔ WatchesOf self.now id lit }
        ensures once { AllPairs (λ a b. a ≢ b) (list_of self.now.watches lit) }
        ensures long { length result.now ≡ length (list_of self.now.watches lit) }
        ensures beside { AreBeside self.now lit result.now }
        ensures over { All (λ w. variable_of w.blocker ≤ self.now.vars) result.now }
        ensures whole { IsStored self.now }
    {
        self.watches.list(lit)
    }

    /// The id at an index in the watch list of a literal of the formula's variables.
    pub fn id_at(&self, lit: Lit, index: usize) -> u32
        requires over { variable_of lit ≤ self.now.vars }
        requires inside { index < length (list_of self.now.watches lit) }
        ensures value { slice_index_or (list_of self.now.watches lit) index 0 ≡ result }
        ensures whole { IsStored self.now }
    {
        self.watches.id_at(lit, index)
    }

    /// Makes `by`, a literal of the clause at an index in the watch list of `lit`, the blocking literal of
    /// that entry. Contracts see no change.
    pub fn set_blocker(&mut self, lit: Lit, index: usize, by: Lit)
        requires over { variable_of lit ≤ self.old.vars }
        requires inside { index < length (list_of self.old.watches lit) }
        requires there { IsLiteralOf self.old (slice_index_or (list_of self.old.watches lit) index 0) by }
        ensures same { self.new ≡ self.old }
        ensures whole { IsStored self.new }
    {
        self.watches.set(lit, index, by);
    }

    /// Makes the clause at an index in the watch list of `from` watch `to`, another one of its literals,
    /// instead of `from`. In that list the last entry takes its place; in the list of `to` it is appended.
    ///
    /// place: the index of `to` in `arranged`; if it isn't there, it is searched for.
    pub fn rewatch_at(
        &mut self,
        from: Lit,
        index: usize,
        to: Lit,
        place: usize,
    ) -> Result<(), AllocError>
        requires movable { IsMovable self.old (slice_index_or (list_of self.old.watches from) index 0) from to index }
        ensures ok { OnOk result (self.new ≡ rewatched self.old
            (slice_index_or (list_of self.old.watches from) index 0) from to index) }
        ensures err { OnErr result (self.new ≡ self.old) }
        ensures whole { IsStored self.new }
    {
        self.watches.move_to(from, index, to, place)?;
        Ok(())
    }

    /// Deletes a live clause. Its id is never reused. In its watch lists the last entry takes its place.
    /// `compact` frees the memory of its literals.
    pub fn delete(&mut self, id: u32)
        requires { IsSome (live_in self.old id) }
        ensures live { live_in self.new ≡ without (live_in self.old) (id ∷ []) }
        ensures deleted { IsDeleted id self.old self.new }
        ensures whole { IsStored self.new }
    {
        if self.arranged(id).len() < 2 {
            self.watches.empty(id);
            self.live[id as usize - 1] = false;
            return;
        }
        let (first, second) = self.watched(id);
        let index = self.find(first, id);
        let place = self.find(second, id);
        self.watches.leave(id, first, index, second, place);
        self.live[id as usize - 1] = false;
    }

    /// Frees the memory of deleted clauses, in place. Contracts see no change.
    pub fn compact(&mut self)
        ensures same { self.new ≡ self.old }
        ensures whole { IsStored self.new }
    {
        self.watches.compact();
    }

    /// As `rewatch_at`, for an unknown index: makes a clause that watches `from` watch `to`, another one of
    /// its literals, instead.
    pub fn rewatch(&mut self, id: u32, from: Lit, to: Lit) -> Result<(), AllocError>
        requires from { WatchesOf self.old id from }
        requires there { (clause : List ℤ) → live_in self.old id ≡ Some clause → Contains clause to }
        requires other { WatchesOf self.old id to → ⊥ }
        ensures ok { OnOk result ((index : ℕ) × IsMovable self.old id from to index ×
            (self.new ≡ rewatched self.old id from to index)) }
        ensures err { OnErr result (self.new ≡ self.old) }
        ensures whole { IsStored self.new }
    {
        let index = self.find(from, id);
        self.rewatch_at(from, index, to, 0)?;
        Ok(())
    }

    /// The index of a clause in the watch list of a literal that it watches.
    fn find(&self, lit: Lit, id: u32) -> usize
        requires { WatchesOf self.now id lit }
        ensures inside { result < length (list_of self.now.watches lit) }
        ensures there { slice_index_or (list_of self.now.watches lit) result 0 ≡ id }
    {
        // for the prover: brings in the invariant of the lists
        let _last = self.last();
        let count = self.watching(lit).len();
        let mut index = 0;
        while index + 1 < count && !self.watches.stands_at(lit, index, id) {
            index += 1;
        }
        index
    }
}
