//! The watch list of a literal: for each clause that watches it a blocking literal, and the arena position
//! where its literals begin. Both are in one struct, so lists can't differ in length, and a visit needs no
//! table of starts. While clauses are moved, entries have ids instead of starts.
ghost use Rattle.std.specs.Prelude.{◌≡◌, ◌-◌, ◌<◌, ◌∷◌, [], ◌++◌, length, take, map, slice_index_or, slice_set, All};
ghost use Rattle.std.specs.Prelude.{IfOk, OnOk, OnErr};
ghost use Rattle.std.specs.List.{swap_remove};
ghost use Rattle.clause_db.specs.Lists.{no_watch, blocked_by, named, placed, IsDirect, IsNamed};

use crate::arena::Arena;
use cnf_core::Lit;
use std::alloc::{AllocError, Global};
use std::marker::Model;

/// An entry of a watch list: a clause that watches the literal.
#[derive(Clone, Copy)]
pub struct Watch {
    /// The blocking literal, one of the clause's: while it is true, the clause is.
    pub blocker: Lit,
    /// the arena position where its literals begin
    pub(crate) start: u32,
}

/// The watch list of a literal. Contracts see its entries.
#[derive(Drop)]
pub(crate) struct WatchList {
    entries: Vec<Watch>,
}

impl Model for WatchList {
    ghost use Rattle.clause_db.specs.Lists.{WatchEntries};

    ghost Value = { WatchEntries };

    ghost view = { λ l. l.entries.items };
}

#[tactic(auto, using(crate::proofs::WatchEntries::entries))]
impl WatchList {
    /// The empty list, with capacity for `room` entries.
    pub(crate) fn none(alloc: Global, room: usize) -> Result<WatchList, AllocError>
        ensures { IfOk result (λ list. list ≡ []) }
    {
        let entries = Vec::with_capacity(alloc, room)?;
        Ok(WatchList { entries })
    }

    pub(crate) fn entries(&self) -> &[Watch]
        ensures { result.now ≡ self.now }
    {
        &self.entries
    }

    /// The entry at an index.
    pub(crate) fn at(&self, index: usize) -> Watch
        requires { index < length self.now }
        ensures { slice_index_or self.now index no_watch ≡ result }
    {
        self.entries[index]
    }

    pub(crate) fn push(&mut self, watch: Watch) -> Result<(), AllocError>
        ensures ok { OnOk result (self.new ≡ self.old ++ watch ∷ []) }
        ensures err { OnErr result (self.new ≡ self.old) }
    {
        self.entries.push(watch)?;
        Ok(())
    }

    /// Removes the last entry.
    pub(crate) fn take_last(&mut self)
        ensures { self.new ≡ take (length self.old - 1) self.old }
    {
        self.entries.pop();
    }

    /// Removes the entry at an index; the last one takes its place.
    pub(crate) fn take_out(&mut self, index: usize)
        requires { index < length self.old }
        ensures { self.new ≡ swap_remove self.old index no_watch }
    {
        self.entries.swap_remove(index);
    }

    /// Replaces the blocking literal of the entry at an index.
    pub(crate) fn set(&mut self, index: usize, blocker: Lit)
        requires { index < length self.old }
        ensures { self.new ≡ slice_set self.old index (blocked_by (slice_index_or self.old index no_watch) blocker) }
    {
        self.entries[index].blocker = blocker;
    }

    /// Replaces the start of each clause by its id.
    pub(crate) fn put_ids(&mut self, arena: &Arena)
        requires { All (IsDirect arena.now) self.old }
        ensures { self.new ≡ map (named arena.now.starts) self.old }
    {
        ids_for_starts(&mut self.entries, arena);
    }

    /// Replaces the id of each clause by its start.
    pub(crate) fn put_starts(&mut self, arena: &Arena)
        requires { All (IsNamed arena.now) self.old }
        ensures { self.new ≡ map (placed arena.now.starts) self.old }
    {
        starts_for_ids(&mut self.entries, arena);
    }
}

fn ids_for_starts(entries: &mut [Watch], arena: &Arena)
    requires { All (IsDirect arena.now) entries.old }
    ensures { entries.new ≡ map (named arena.now.starts) entries.old }
{
    for index in 0..entries.len() {
        let id = arena.id(entries[index].start);
        entries[index].start = id;
    }
}

fn starts_for_ids(entries: &mut [Watch], arena: &Arena)
    requires { All (IsNamed arena.now) entries.old }
    ensures { entries.new ≡ map (placed arena.now.starts) entries.old }
{
    for index in 0..entries.len() {
        let start = arena.start(entries[index].start as usize - 1);
        entries[index].start = start;
    }
}
