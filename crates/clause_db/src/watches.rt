//! The watch lists. A clause watches the first two literals of its stored order, so no pair is kept, and an
//! entry of a watch list has the arena position of its clause, which the invariant relates to the table of
//! starts. Moving a watch reads its entry once: a push to one list, a swap of two literals, and a removal
//! from another list. The push comes first, since it alone can run out of memory. While literals move in the
//! arena, entries have ids instead of starts.
ghost use Rattle.std.specs.Prelude.{◌≡◌, ◌≢◌, ◌⊎◌, ◌↔◌, ℤ, IsTrue, ◌+◌, ◌-◌, ◌*◌, ◌<◌, ◌≤◌, [], length, take, map};
ghost use Rattle.std.specs.Prelude.{All};
ghost use Rattle.std.specs.Prelude.{Contains, pos, slice_index_or, slice_set, replicate, IfOk, OnOk, OnErr};
ghost use Rattle.std.specs.List.{swap_remove};
ghost use Rattle.cdcl_theory.specs.Codes.{code_of};
ghost use Rattle.clause_db.specs.Watching.{watch_list_in, pair_of, with_id, with_ids, watching_moved};
ghost use Rattle.clause_db.specs.Blockers.{row_of, with_row, with_blocker, with_blockers, rows_moved, other_watch};
ghost use Rattle.clause_db.specs.Arranging.{block_at, watching_of, arranged_more, ArePermuted, IsNoneOf};
ghost use Rattle.clause_db.specs.Deleting.{arranged_left, arranged_without};
ghost use Rattle.clause_db.specs.Lists.{blockers_of, named, placed, AreDirect, AreNamed};

use crate::arena::Arena;
use crate::lists::{Watch, WatchList};
use crate::room::Room;
use cnf_core::Lit;
use std::alloc::{AllocError, Global};
use std::marker::Model;

/// The two watched literals of a clause; if it has fewer, the literal 1 replaces a missing one.
#[derive(Clone, Copy)]
pub(crate) struct WatchedPair {
    pub(crate) first: Lit,
    pub(crate) second: Lit,
}

/// The literals of each clause, by its id (it watches the first two), and the watch list of each literal, by
/// its code.
#[derive(Drop)]
pub(crate) struct Watches {
    arena: Arena,
    lists: Vec<WatchList>,
}

impl Model for Watches {
    ghost use Rattle.clause_db.specs.Arranging.{Arranged};

    ghost Value = { Arranged };

    ghost use Rattle.clause_db.specs.Lists.{lists_of, rows_of, AreDirect};

    ghost view = { λ w. record {
      arena = w.arena.lists;
      lists = lists_of w.arena.starts w.lists.items;
      rows = rows_of w.lists.items;
    } };

    ghost invariant = { λ w. AreDirect w.arena w.lists.items };
}

#[tactic(auto, using(crate::proofs::WatchEntries::listing))]
impl Watches {
    /// No clauses, and an empty list for each literal of the variables 1 to `vars`.
    pub(crate) fn none(alloc: Global, vars: u32, room: &Room) -> Result<Watches, AllocError>
        requires { vars < 1000000000 }
        ensures { IfOk result (λ w. w ≡ record {
          arena = [];
          lists = replicate (2 * vars + 2) [];
          rows = replicate (2 * vars + 2) [];
        }) }
    {
        let mut lists = Vec::with_capacity(alloc, 2 * vars as usize + 2)?;
        for code in 0..2 * vars as usize + 2 {
            lists.push(WatchList::none(alloc, room.watching(code))?)?;
        }
        Ok(Watches {
            arena: Arena::none(alloc, room)?,
            lists,
        })
    }

    /// The literals of the clause with this id, the watched ones first.
    pub(crate) fn block(&self, id: u32) -> &[Lit]
        requires some { 0 < id }
        requires given { id ≤ length self.now.arena }
        ensures { result.now ≡ block_at self.now.arena id }
    {
        self.arena.get(id as usize - 1)
    }

    /// The watched literals of the clause with this id.
    pub(crate) fn pair(&self, id: u32) -> WatchedPair
        requires some { 0 < id }
        requires given { id ≤ length self.now.arena }
        ensures { result ≡ pair_of (block_at self.now.arena id) }
    {
        first_two(self.block(id))
    }

    /// The watch list of a literal. Contracts see its length and the blocking literals.
    pub(crate) fn list(&self, lit: Lit) -> &[Watch]
        requires { code_of lit < length self.now.lists }
        ensures long { length result.now ≡ length (watch_list_in self.now.lists lit) }
        ensures blockers { blockers_of result.now ≡ row_of self.now.rows lit }
    {
        self.lists[lit.code()].entries()
    }

    /// The id at an index in a watch list.
    pub(crate) fn id_at(&self, lit: Lit, index: usize) -> u32
        requires room { code_of lit < length self.now.lists }
        requires inside { index < length (watch_list_in self.now.lists lit) }
        ensures { slice_index_or (watch_list_in self.now.lists lit) index 0 ≡ result }
    {
        let watch = self.lists[lit.code()].at(index);
        self.arena.id(watch.start)
    }

    /// Whether an id is at an index in a watch list. It compares the starts, so no clause is read.
    pub(crate) fn stands_at(&self, lit: Lit, index: usize, id: u32) -> bool
        requires room { code_of lit < length self.now.lists }
        requires inside { index < length (watch_list_in self.now.lists lit) }
        requires some { 0 < id }
        requires given { id ≤ length self.now.arena }
        ensures { IsTrue result ↔ (slice_index_or (watch_list_in self.now.lists lit) index 0 ≡ id) }
    {
        let watch = self.lists[lit.code()].at(index);
        watch.start == self.arena.start(id as usize - 1)
    }

    /// The literals of the clause at an index in a watch list.
    pub(crate) fn entry_block(&self, lit: Lit, index: usize) -> &[Lit]
        requires room { code_of lit < length self.now.lists }
        requires inside { index < length (watch_list_in self.now.lists lit) }
        ensures { result.now ≡ block_at self.now.arena (slice_index_or (watch_list_in self.now.lists lit) index 0) }
    {
        let watch = self.lists[lit.code()].at(index);
        self.arena.read(watch.start)
    }

    /// Appends an id to a watch list, with a blocking literal.
    fn push(&mut self, lit: Lit, id: u32, blocker: Lit) -> Result<(), AllocError>
        requires room { code_of lit < length self.old.lists }
        requires some { 0 < id }
        requires given { id ≤ length self.old.arena }
        ensures ok { OnOk result (self.new ≡ record self.old {
          lists = with_id self.old.lists lit id;
          rows = with_blocker self.old.rows lit blocker;
        }) }
        ensures err { OnErr result (self.new ≡ self.old) }
    {
        let start = self.arena.start(id as usize - 1);
        self.lists[lit.code()].push(Watch { blocker, start })?;
        Ok(())
    }

    /// Removes the last entry of a watch list.
    fn take_last(&mut self, lit: Lit)
        requires { code_of lit < length self.old.lists }
        ensures { self.new ≡ record self.old {
          lists =
              slice_set self.old.lists (code_of lit) (take (length (watch_list_in self.old.lists lit) - 1)
              (watch_list_in self.old.lists lit));
          rows = with_row self.old.rows lit (take (length (row_of self.old.rows lit) - 1) (row_of self.old.rows lit));
        } }
    {
        self.lists[lit.code()].take_last();
    }

    /// Appends an id to the watch lists of a clause's first two literals, if it has two; each is
    /// the blocking literal in the list of the other.
    fn push_both(&mut self, lits: &[Lit], id: u32) -> Result<(), AllocError>
        requires rooms { All (λ l. code_of l < length self.old.lists) lits.now }
        requires some { 0 < id }
        requires given { id ≤ length self.old.arena }
        ensures ok { OnOk result (self.new ≡ record self.old {
          lists = with_ids self.old.lists lits.now id;
          rows = with_blockers self.old.rows lits.now;
        }) }
        ensures err { OnErr result (self.new ≡ self.old) }
    {
        if lits.len() < 2 {
            return Ok(());
        }
        let first = lits[0];
        let second = lits[1];
        self.push(first, id, second)?;
        match self.push(second, id, first) {
            Ok(()) => Ok(()),
            Err(error) => {
                self.take_last(first);
                Err(error)
            }
        }
    }

    /// Adds the clause of the next id, which watches its first two literals.
    pub(crate) fn add(&mut self, lits: &[Lit], id: u32) -> Result<(), AllocError>
        requires rooms { All (λ l. code_of l < length self.old.lists) lits.now }
        requires next { id ≡ length self.old.arena + 1 }
        ensures ok { OnOk result (self.new ≡ arranged_more self.old lits.now id) }
        ensures err { OnErr result (self.new ≡ self.old) }
    {
        self.arena.push(lits)?;
        match self.push_both(lits, id) {
            Ok(()) => Ok(()),
            Err(error) => {
                self.arena.pop();
                Err(error)
            }
        }
    }

    /// Replaces the blocking literal at an index in a watch list.
    pub(crate) fn set(&mut self, lit: Lit, index: usize, by: Lit)
        requires room { code_of lit < length self.old.lists }
        requires beside { index < length (row_of self.old.rows lit) }
        ensures { self.new ≡ record self.old {
          rows =
              with_row self.old.rows lit (slice_set (row_of self.old.rows lit) index by);
        } }
    {
        self.lists[lit.code()].set(index, by);
    }

    /// Makes a clause watch `to`, another one of its literals, instead of `from`, in whose watch list it is
    /// at an index. The two are swapped; `to` is looked for at `place` first. The blocking literal of the new
    /// entry is the other watched literal.
    pub(crate) fn move_to(
        &mut self,
        from: Lit,
        index: usize,
        to: Lit,
        place: usize,
    ) -> Result<(), AllocError>
        requires rooms { (code_of from < length self.old.lists) × (code_of to < length self.old.lists) }
        requires inside { index < length (watch_list_in self.old.lists from) }
        requires id { (0 < slice_index_or (watch_list_in self.old.lists from) index 0) ×
            (slice_index_or (watch_list_in self.old.lists from) index 0 ≤ length self.old.arena) }
        requires two { 2 ≤ length (block_at self.old.arena
            (slice_index_or (watch_list_in self.old.lists from) index 0)) }
        requires apart { from ≢ to }
        requires there { Contains (block_at self.old.arena
            (slice_index_or (watch_list_in self.old.lists from) index 0)) to }
        requires other { IsNoneOf (pair_of (block_at self.old.arena
            (slice_index_or (watch_list_in self.old.lists from) index 0))) to }
        ensures ok { OnOk result (watching_of self.new ≡
            watching_moved (watching_of self.old) (slice_index_or (watch_list_in self.old.lists from) index 0) from to
            index) }
        ensures rows { OnOk result (self.new.rows ≡
            rows_moved self.old.rows from to index
            (other_watch (pair_of (block_at self.old.arena
            (slice_index_or (watch_list_in self.old.lists from) index 0))) from)) }
        ensures order { OnOk result (ArePermuted self.old.arena self.new.arena) }
        ensures err { OnErr result (self.new ≡ self.old) }
    {
        let start = self.lists[from.code()].at(index).start;
        let block = self.arena.read(start);
        let low = place_of_watch(block, from);
        let blocker = block[1 - low];
        let high = place_of(block, to, place);
        self.lists[to.code()].push(Watch { blocker, start })?;
        self.arena.exchange(start, low, high);
        self.lists[from.code()].take_out(index);
        Ok(())
    }

    /// Removes an id from two watch lists, at the indices `index` and `place`, and empties its literals.
    pub(crate) fn leave(&mut self, id: u32, one: Lit, index: usize, other: Lit, place: usize)
        requires some { 0 < id }
        requires given { id ≤ length self.old.arena }
        requires rooms { (code_of one < length self.old.lists) × (code_of other < length self.old.lists) }
        requires apart { one ≢ other }
        requires inside { (index < length (watch_list_in self.old.lists one)) ×
            (place < length (watch_list_in self.old.lists other)) }
        ensures { self.new ≡ arranged_without (arranged_left (arranged_left self.old one index) other place) id }
    {
        self.take_out(one, index);
        self.take_out(other, place);
        self.empty(id);
    }

    /// Empties the literals of an id.
    pub(crate) fn empty(&mut self, id: u32)
        requires some { 0 < id }
        requires given { id ≤ length self.old.arena }
        ensures { self.new ≡ arranged_without self.old id }
    {
        self.arena.empty(id as usize - 1);
    }

    /// Frees the memory of emptied lists. The others may move, so entries have the ids of their clauses
    /// meanwhile, and then the new starts.
    pub(crate) fn compact(&mut self)
        ensures { self.new ≡ self.old }
    {
        all_ids_for_starts(&mut self.lists, &self.arena);
        self.arena.pack();
        all_starts_for_ids(&mut self.lists, &self.arena);
    }

    /// Removes the entry at an index from a watch list.
    fn take_out(&mut self, lit: Lit, index: usize)
        requires room { code_of lit < length self.old.lists }
        requires inside { index < length (watch_list_in self.old.lists lit) }
        ensures { self.new ≡ record self.old {
          lists =
              slice_set self.old.lists (code_of lit) (swap_remove (watch_list_in self.old.lists lit) index 0);
          rows =
              with_row self.old.rows lit (swap_remove (row_of self.old.rows lit) index (pos 1));
        } }
    {
        self.lists[lit.code()].take_out(index);
    }
}

/// Replaces starts by ids, in each entry of all watch lists.
fn all_ids_for_starts(lists: &mut [WatchList], arena: &Arena)
    requires { AreDirect arena.now lists.old }
    ensures { lists.new ≡ map (map (named arena.now.starts)) lists.old }
{
    for index in 0..lists.len() {
        lists[index].put_ids(arena);
    }
}

/// Replaces ids by starts, in each entry of all watch lists.
fn all_starts_for_ids(lists: &mut [WatchList], arena: &Arena)
    requires { AreNamed arena.now lists.old }
    ensures { lists.new ≡ map (map (placed arena.now.starts)) lists.old }
{
    for index in 0..lists.len() {
        lists[index].put_starts(arena);
    }
}

/// The first two literals; 1 replaces a missing one.
fn first_two(lits: &[Lit]) -> WatchedPair
    ensures { result ≡ pair_of lits.now }
{
    WatchedPair {
        first: literal_at(lits, 0),
        second: literal_at(lits, 1),
    }
}

fn literal_at(lits: &[Lit], index: usize) -> Lit
    ensures { result ≡ slice_index_or lits.now index (pos 1) }
{
    match lits.get(index) {
        Some(lit) => *lit,
        None => Lit::new(1),
    }
}

/// The index of a watched literal: 0 where it is the first, else 1.
fn place_of_watch(lits: &[Lit], lit: Lit) -> usize
    requires { 0 < length lits.now }
    ensures front { result < 2 }
    ensures found { (result ≡ 0) × ((pair_of lits.now).first ≡ lit) ⊎ (result ≡ 1) ×
        ((pair_of lits.now).first ≢ lit) }
{
    usize::from(lits[0] != lit)
}

/// The index of a literal in a list that has it. It is looked for at `hint` first.
fn place_of(lits: &[Lit], lit: Lit, hint: usize) -> usize
    requires { Contains lits.now lit }
    ensures inside { result < length lits.now }
    ensures there { (d : ℤ) → slice_index_or lits.now result d ≡ lit }
{
    if hint < lits.len() && lits[hint] == lit {
        return hint;
    }
    find(lits, lit)
}

/// The first index of a literal in a list that has it.
fn find(lits: &[Lit], lit: Lit) -> usize
    requires { Contains lits.now lit }
    ensures inside { result < length lits.now }
    ensures there { (d : ℤ) → slice_index_or lits.now result d ≡ lit }
{
    let mut place = 0;
    while place + 1 < lits.len() && lits[place] != lit {
        place += 1;
    }
    place
}
