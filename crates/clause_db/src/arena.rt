//! The clause arena: lists of literals in one vector, one after another. Each list has two entries before it,
//! its id (1 + its index) and its length, both encoded as literals whose variable is 1 + the number. So a
//! list and its id are read by the position where it begins, with no table. The invariant: the ranges lie in
//! the vector, one after another with at least two entries between them, and the ids are right. Swapping
//! literals of one list leaves ids, lengths and all other lists unchanged. An emptied list leaves a gap until
//! `pack` moves the lists after it down, list by list; the invariant holds after each.
ghost use Rattle.std.specs.Prelude.{◌≡◌, [], ◌∷◌, ◌++◌, ◌<◌, ◌+◌, ◌-◌, ◌^◌, length, take, slice_index_or, slice_set};
ghost use Rattle.std.specs.Prelude.{IfOk, OnOk, OnErr};
ghost use Rattle.std.specs.List.{swap};
ghost use Rattle.sat_theory.specs.Formula.{variable as variable_of};
ghost use Rattle.clause_db.specs.Arranging.{block_at};
ghost use Rattle.clause_db.specs.ArenaRanges.{id_in, end_before, IsStart, KeepsIds, AreIds};

use crate::room::Room;
use cnf_core::Lit;
use std::alloc::{AllocError, Global};
use std::marker::Model;

/// Lists of literals, one after another in one vector, without an allocation for each. Contracts see the
/// lists, and where each begins.
#[derive(Drop)]
pub(crate) struct Arena {
    row: Vec<Lit>,
    starts: Vec<u32>,
}

impl Model for Arena {
    ghost use Rattle.clause_db.specs.ArenaRanges.{ArenaState, ranges_of, lists_in, AreLaid};

    ghost Value = { ArenaState };

    ghost view = { λ b. record {
      lists = lists_in b.row.items (ranges_of b.row.items b.starts.items);
      starts = b.starts.items;
    } };

    ghost invariant = { λ b. AreLaid b.row.items b.starts.items };
}

impl Arena {
    pub(crate) fn none(alloc: Global, room: &Room) -> Result<Arena, AllocError>
        ensures { IfOk result (λ arena. arena ≡ record { lists = []; starts = [] }) }
    {
        let places = room
            .literals()
            .saturating_add(room.clauses().saturating_mul(2));
        let row = Vec::with_capacity(alloc, places)?;
        let starts = Vec::with_capacity(alloc, room.clauses())?;
        Ok(Arena { row, starts })
    }

    /// Appends a list. A vector of more than 2,147,483,647 entries is an error too; each list takes two
    /// entries more than it has literals.
    pub(crate) fn push(&mut self, lits: &[Lit]) -> Result<(), AllocError>
        ensures ok { OnOk result (self.new.lists ≡ self.old.lists ++ lits.now ∷ []) }
        ensures kept { OnOk result (KeepsIds self.old self.new (length self.old.lists)) }
        ensures err { OnErr result (self.new ≡ self.old) }
    {
        let start = self.row.len() + 2;
        if start + lits.len() > i32::MAX as usize {
            return Err(AllocError);
        }
        let id = self.starts.len() + 1;
        self.row.push(written(id))?;
        self.row.push(written(lits.len()))?;
        self.row.extend_from_slice(lits)?;
        self.starts.push(start as u32)?;
        Ok(())
    }

    /// Removes the last list.
    pub(crate) fn pop(&mut self)
        ensures lists { self.new.lists ≡ take (length self.old.lists - 1) self.old.lists }
        ensures kept { KeepsIds self.old self.new (length self.old.lists - 1) }
    {
        if let Some(start) = self.starts.pop() {
            self.row.truncate(start as usize - 2);
        }
    }

    /// Empties the list at an index.
    pub(crate) fn empty(&mut self, index: usize)
        requires { index < length self.old.lists }
        ensures lists { self.new.lists ≡ slice_set self.old.lists index [] }
        ensures starts { self.new.starts ≡ self.old.starts }
    {
        let start = self.starts[index] as usize;
        self.row[start - 1] = written(0);
    }

    /// Moves each list to begin two entries after the end of the one before it, and frees the rest. The ids
    /// stay, and the positions where lists begin change.
    pub(crate) fn pack(&mut self)
        ensures lists { self.new.lists ≡ self.old.lists }
        ensures ids { AreIds self.new }
    {
        let mut end = 0;
        for index in 0..self.count() {
            end = self.move_down(index, end);
        }
        self.cut(end);
    }

    /// The number of lists.
    fn count(&self) -> usize
        ensures { result ≡ length self.now.lists }
    {
        self.starts.len()
    }

    /// Moves the list at an index, with the two entries before it, down to `end`, the end of the list before
    /// it, and returns its new end.
    fn move_down(&mut self, index: usize, end: usize) -> usize
        requires inside { index < length self.old.lists }
        requires before { end ≡ end_before self.old index }
        ensures lists { self.new.lists ≡ self.old.lists }
        ensures end { result ≡ end_before self.new (index + 1) }
    {
        let start = self.starts[index] as usize;
        let past = start + self.row[start - 1].variable() as usize - 1;
        if start == end + 2 {
            return past;
        }
        self.row.copy_within(start - 2..past, end);
        self.starts[index] = end as u32 + 2;
        end + 2 + (past - start)
    }

    /// Frees the entries after the last list, which ends at `end`.
    fn cut(&mut self, end: usize)
        requires { end ≡ end_before self.old (length self.old.lists) }
        ensures lists { self.new.lists ≡ self.old.lists }
        ensures ids { AreIds self.new }
    {
        self.row.truncate(end);
    }

    /// The list at an index.
    pub(crate) fn get(&self, index: usize) -> &[Lit]
        requires { index < length self.now.lists }
        ensures { result.now ≡ slice_index_or self.now.lists index [] }
    {
        self.read(self.start(index))
    }

    /// The position where the list at an index begins.
    pub(crate) fn start(&self, index: usize) -> u32
        requires { index < length self.now.lists }
        ensures there { slice_index_or self.now.starts index 0 ≡ result }
        ensures id { id_in self.now.starts result ≡ index + 1 }
    {
        self.starts[index]
    }

    /// The id of the list that begins at `start`.
    pub(crate) fn id(&self, start: u32) -> u32
        requires { IsStart self.now start }
        ensures { id_in self.now.starts start ≡ result }
    {
        self.row[start as usize - 2].variable() - 1
    }

    /// The list that begins at `start`.
    pub(crate) fn read(&self, start: u32) -> &[Lit]
        requires { IsStart self.now start }
        ensures { result.now ≡ block_at self.now.lists (id_in self.now.starts start) }
    {
        let start = start as usize;
        let count = self.row[start - 1].variable() as usize - 1;
        &self.row[start..start + count]
    }

    /// Exchanges two literals of the list that begins at `start`.
    pub(crate) fn exchange(&mut self, start: u32, low: usize, high: usize)
        requires there { IsStart self.old start }
        requires order { low < high }
        requires places { high < length (block_at self.old.lists (id_in self.old.starts start)) }
        ensures lists { self.new.lists ≡ slice_set self.old.lists (id_in self.old.starts start - 1)
            (swap (block_at self.old.lists (id_in self.old.starts start)) low high) }
        ensures starts { self.new.starts ≡ self.old.starts }
    {
        let start = start as usize;
        self.row.swap(start + low, start + high);
    }
}

/// A number encoded as a literal.
fn written(number: usize) -> Lit
    requires { number < 2 ^ 31 - 1 }
    ensures { variable_of result ≡ number + 1 }
{
    Lit::of(number as u32 + 1, true)
}
