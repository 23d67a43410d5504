//! The live clauses by their ids, in a hash map, with an occurrence index. Contracts see only the map. The
//! invariant of the type is that each live clause is in one list of the index, so that a search in the lists of
//! its literals finds it.
ghost use Rattle.std.specs.Prelude.{◌≡◌, ◌<◌, ◌-◌, ◌^◌, ◌↔◌, length, true, false, [], ◌∷◌, IfOk, OnOk, OnErr, IsTrue};
ghost use Rattle.std.specs.Prelude.{All, Any, ℤ};
ghost use Rattle.std.specs.Option.{option_copied};
ghost use Rattle.std.specs.FinMap as map;
ghost use Rattle.sat_theory.specs.State.{with_clause, without, by_id};
ghost use Rattle.sat_theory.specs.Log.{IsUnsubsumed};
ghost use Rattle.lrat_check.specs.Live.{live_at};
ghost use Rattle.lrat_check.specs.OccurrenceIndex.{entries_of, HasLiteral, IsInside, NamesInside, IsInsideBy};
ghost use Rattle.lrat_check.specs.OccurrenceIndex.{EntersInside};
ghost use Rattle.lrat_check.specs.Slots.{AreSlots};

use crate::index::{Entry, OccurrenceIndex};
use crate::slots::Among;
use cnf_core::{Clause, Lit};
use std::alloc::{AllocError, Global};
use std::collections::HashMap;
use std::marker::Model;

/// Clauses by their ids. Ids are hashed with a fixed seed, so the author of a log can make look-ups slow.
#[derive(Drop)]
pub(crate) struct Clauses {
    live: HashMap<u32, Clause>,
    index: OccurrenceIndex,
}

impl Model for Clauses {
    ghost use Rattle.std.specs.Prelude.{nat_eq};
    ghost use Rattle.std.specs.HashMap.{get};
    ghost use Rattle.std.specs.FinMap as map;
    ghost use Rattle.lrat_check.specs.Live.{Live, live_code};
    ghost use Rattle.lrat_check.specs.OccurrenceIndex.{IsIndexed};

    ghost Value = { Live };

    ghost coded = { live_code };

    ghost view = { λ s. map.from_entries s.live.entries };

    ghost invariant = { λ s. IsIndexed (get nat_eq s.live) s.index };
}

impl Clauses {
    /// No clauses, with room for `count`.
    pub(crate) fn new(
        alloc: Global,
        index: OccurrenceIndex,
        count: usize,
    ) -> Result<Clauses, AllocError>
        ensures { IfOk result (λ s. s ≡ map.empty) }
    {
        Ok(Clauses {
            live: HashMap::with_capacity(alloc, count)?,
            index,
        })
    }

    /// The clauses of a list, with the ids 1, 2 and so on.
    #[tactic(auto, using(crate::proofs::Loaded::loaded))]
    pub(crate) fn of(
        alloc: Global,
        index: OccurrenceIndex,
        list: Vec<Clause>,
    ) -> Result<Clauses, AllocError>
        requires { length list.items < 2 ^ 32 - 1 }
        ensures { IfOk result (λ s. live_at s ≡ by_id list.items) }
    {
        let mut clauses = Clauses::new(alloc, index, list.len())?;
        let mut left = list;
        while let Some(clause) = left.pop() {
            clauses.insert(left.len() as u32 + 1, clause)?;
        }
        Ok(clauses)
    }

    /// The clause with an id, in expected constant time.
    pub(crate) fn get(&self, id: u32) -> Option<&Clause>
        ensures { option_copied result ≡ live_at self.now id }
    {
        self.live.get(&id)
    }

    /// Inserts a clause with an id.
    pub(crate) fn insert(&mut self, id: u32, clause: Clause) -> Result<(), AllocError>
        ensures ok { OnOk result (live_at self.new ≡ with_clause (live_at self.old) id clause) }
        ensures err { OnErr result (self.new ≡ self.old) }
    {
        self.index.add(id, clause.lits())?;
        self.live.insert(id, clause)?;
        Ok(())
    }

    /// Removes the clause with an id.
    pub(crate) fn remove(&mut self, id: u32)
        ensures { live_at self.new ≡ without (live_at self.old) (id ∷ []) }
    {
        let Some(clause) = self.live.remove(&id) else {
            return;
        };
        self.index.forget(id, clause.lits(), &self.live);
    }

    /// Whether no live clause has all its literals among `lits`. With an index only the clauses in the lists of
    /// `lits` are compared, since each live clause is in the list of one of its own literals; otherwise all are.
    pub(crate) fn is_unsubsumed(&self, lits: &[Lit]) -> bool
        ensures new { result ≡ true → IsUnsubsumed (live_at self.now) lits.now }
        ensures old { result ≡ false → IsUnsubsumed (live_at self.now) lits.now → ⊥ }
    {
        let among = Among::of(lits);
        !self.has_inside(self.index.others(), &among) && !self.is_headed(&self.index, &among)
    }

    /// Whether the list of one of the literals of `among` has an entry of a live clause inside `among`.
    fn is_headed(&self, index: &OccurrenceIndex, among: &Among) -> bool
        requires { AreSlots among.now.slots among.now.lits.now }
        ensures { IsTrue result ↔ Any (λ (l : ℤ). EntersInside (live_at self.now) among.now.lits.now
            (entries_of index.now l)) among.now.lits.now }
    {
        among
            .lits
            .iter()
            .any(|lit| self.enters_inside(index.entries_of(*lit), among))
    }

    /// Whether one of `entries` is of a live clause with all its literals in `among`.
    #[tactic(auto, unfolding(crate::specs::OccurrenceIndex::EntersInside))]
    fn enters_inside(&self, entries: &[Entry], among: &Among) -> bool
        requires { AreSlots among.now.slots among.now.lits.now }
        ensures { IsTrue result ↔ EntersInside (live_at self.now) among.now.lits.now entries.now }
    {
        entries.iter().any(|entry| self.is_inside_by(entry, among))
    }

    /// Whether `entry` is of a live clause inside `among`. Its second literal is tested first, so that few
    /// clauses are read.
    fn is_inside_by(&self, entry: &Entry, among: &Among) -> bool
        requires { AreSlots among.now.slots among.now.lits.now }
        ensures { IsTrue result ↔ IsInsideBy (live_at self.now) among.now.lits.now entry.now }
    {
        among.has(entry.other) && self.is_id_inside(entry.id, among)
    }

    /// Whether one of `ids` is of a live clause with all its literals in `among`.
    #[tactic(auto, unfolding(crate::specs::OccurrenceIndex::NamesInside))]
    fn has_inside(&self, ids: &[u32], among: &Among) -> bool
        requires { AreSlots among.now.slots among.now.lits.now }
        ensures { IsTrue result ↔ NamesInside (live_at self.now) among.now.lits.now ids.now }
    {
        ids.iter().any(|id| self.is_id_inside(*id, among))
    }

    /// Whether `id` is of a live clause inside `among`.
    fn is_id_inside(&self, id: u32, among: &Among) -> bool
        requires { AreSlots among.now.slots among.now.lits.now }
        ensures { IsTrue result ↔ IsInside (live_at self.now) among.now.lits.now id }
    {
        let Some(clause) = self.get(id) else {
            return false;
        };
        is_inside(clause.lits(), among)
    }
}

/// Whether all literals of `clause` are in `among`.
fn is_inside(clause: &[Lit], among: &Among) -> bool
    requires { AreSlots among.now.slots among.now.lits.now }
    ensures { IsTrue result ↔ All (HasLiteral among.now.lits.now) clause.now }
{
    clause.iter().all(|lit| among.has(*lit))
}
