//! Occurrence lists (clauses by their literals), to find out whether a clause is subsumed. Each clause is in the
//! list of one of its literals (one-watch subsumption), so a clause that subsumes another one is in a list of
//! that one's literals. An entry has a second literal of its clause beside the id, so that most clauses that
//! don't subsume are skipped without being read. The entry of a clause is removed with the clause. Ids that are
//! in no literal's list are cleaned up from time to time, at an amortised constant cost.
ghost use Rattle.std.specs.Prelude.{◌≡◌, ◌+◌, ◌*◌, ◌<◌, ℤ, [], ◌∷◌, ◌++◌, false, length, filter, slice_set};
ghost use Rattle.std.specs.Prelude.{slice_index_or, nat_eq, OnOk, OnErr, IfSome, Any, Contains};
ghost use Rattle.std.specs.HashMap.{get};
ghost use Rattle.cnf_core.specs.Codes.{code_of};
ghost use Rattle.lrat_check.specs.OccurrenceIndex.{entries_of as entries_of_lit, is_live, has_other_id, with_entry};
ghost use Rattle.lrat_check.specs.OccurrenceIndex.{IsFound, KeepsFound, KeepsLive, DropsEntries};

use cnf_core::{Clause, Lit};
use std::alloc::{AllocError, Global};
use std::collections::HashMap;
use std::marker::Model;

/// A clause's id, and one of its literals.
#[derive(Clone, Copy)]
pub(crate) struct Entry {
    pub(crate) id: u32,
    pub(crate) other: Lit,
}

/// A list of entries.
#[derive(Drop)]
pub(crate) struct Entries {
    entries: Vec<Entry>,
}

impl Model for Entries {
    ghost use Rattle.std.specs.Prelude.{List};
    ghost use Rattle.lrat_check.specs.declared.index.Entry.{Entry};

    ghost Value = { List Entry };

    ghost view = { λ e. e.entries.items };
}

impl Entries {
    fn new(alloc: Global) -> Entries
        ensures { result ≡ [] }
    {
        Entries {
            entries: Vec::new(alloc),
        }
    }

    fn push(&mut self, entry: Entry) -> Result<(), AllocError>
        ensures ok { OnOk result (self.new ≡ self.old ++ entry ∷ []) }
        ensures err { OnErr result (self.new ≡ self.old) }
    {
        self.entries.push(entry)?;
        Ok(())
    }

    fn len(&self) -> usize
        ensures { result ≡ length self.now }
    {
        self.entries.len()
    }

    pub(crate) fn get(&self) -> &[Entry]
        ensures { result.now ≡ self.now }
    {
        &self.entries
    }

    /// Removes the entries with an id.
    fn drop_id(&mut self, id: u32)
        ensures { self.new ≡ filter (has_other_id id) self.old }
    {
        self.entries.retain(|entry| entry.id != id);
    }
}

/// A list of ids.
#[derive(Drop)]
pub(crate) struct Ids {
    ids: Vec<u32>,
}

impl Model for Ids {
    ghost use Rattle.std.specs.Prelude.{List, ℕ};

    ghost Value = { List ℕ };

    ghost view = { λ i. i.ids.items };
}

impl Ids {
    fn new(alloc: Global) -> Ids
        ensures { result ≡ [] }
    {
        Ids {
            ids: Vec::new(alloc),
        }
    }

    fn push(&mut self, id: u32) -> Result<(), AllocError>
        ensures ok { OnOk result (self.new ≡ self.old ++ id ∷ []) }
        ensures err { OnErr result (self.new ≡ self.old) }
    {
        self.ids.push(id)?;
        Ok(())
    }

    pub(crate) fn get(&self) -> &[u32]
        ensures { result.now ≡ self.now }
    {
        &self.ids
    }

    /// Removes the ids that aren't live.
    fn sweep(&mut self, live: &HashMap<u32, Clause>)
        ensures { self.new ≡ filter (is_live (get nat_eq live.now)) self.old }
    {
        self.ids.retain(|id| live.contains_key(id));
    }
}

/// The occurrence index: each clause has an entry in the list of one of its literals, the one whose list was
/// shortest when the clause was added. In an index without lists, the id of each clause is in `others`.
#[derive(Drop)]
pub(crate) struct OccurrenceIndex {
    heads: Vec<Entries>,
    others: Ids,
    dead: usize,
}

impl Model for OccurrenceIndex {
    ghost use Rattle.lrat_check.specs.OccurrenceIndex.{Lists};

    ghost Value = { Lists };

    ghost view = { λ i. record { heads = i.heads.items; others = i.others } };
}

impl OccurrenceIndex {
    /// An empty index without lists for literals.
    pub(crate) fn new(alloc: Global) -> OccurrenceIndex {
        OccurrenceIndex {
            heads: Vec::new(alloc),
            others: Ids::new(alloc),
            dead: 0,
        }
    }

    /// An empty index with lists for the literals of the variables 1 to `vars`.
    pub(crate) fn by_literals(alloc: Global, vars: u32) -> Result<OccurrenceIndex, AllocError> {
        let codes = 2 * vars as usize + 2;
        let mut index = OccurrenceIndex::new(alloc);
        index.heads.reserve(codes)?;
        for _ in 0..codes {
            index.heads.push(Entries::new(alloc))?;
        }
        Ok(index)
    }

    /// The entries in the list of a literal.
    pub(crate) fn entries_of(&self, lit: Lit) -> &[Entry]
        ensures { result.now ≡ entries_of_lit self.now lit }
    {
        match self.heads.get(lit.code()) {
            Some(entries) => entries.get(),
            None => &[],
        }
    }

    /// The ids that are in no literal's list.
    pub(crate) fn others(&self) -> &[u32]
        ensures { result.now ≡ self.now.others }
    {
        self.others.get()
    }

    /// Adds the entry of a clause to a list, in one step for each of its literals.
    #[tactic(auto, using(crate::proofs::Found::finding))]
    pub(crate) fn add(&mut self, id: u32, lits: &[Lit]) -> Result<(), AllocError>
        ensures found { OnOk result (IsFound self.new id lits.now) }
        ensures kept { OnOk result (KeepsFound self.old self.new) }
        ensures err { OnErr result (self.new ≡ self.old) }
    {
        let Some(place) = self.shortest(lits) else {
            return self.others.push(id);
        };
        let Some(other) = other_than(lits, place) else {
            return self.others.push(id);
        };
        push_at(&mut self.heads, place, Entry { id, other })
    }

    /// Removes the entry of a clause that was removed, in one step for each entry in the lists of its literals.
    /// If more clauses have been removed than are live, the removed ids are deleted from `others`, in one step
    /// for each.
    pub(crate) fn forget(&mut self, id: u32, lits: &[Lit], live: &HashMap<u32, Clause>)
        requires { is_live (get nat_eq live.now) id ≡ false }
        ensures { KeepsLive (get nat_eq live.now) self.old self.new }
    {
        drop_entries(&mut self.heads, id, lits);
        self.dead = self.dead.saturating_add(1);
        if self.dead / 2 <= live.len() {
            return;
        }
        self.dead = 0;
        self.others.sweep(live);
    }

    /// The index of the shortest list among those of the literals.
    fn shortest(&self, lits: &[Lit]) -> Option<usize>
        ensures head { IfSome result (λ place. Any (λ (l : ℤ). code_of l ≡ place) lits.now) }
        ensures within { IfSome result (λ place. place < length self.now.heads) }
    {
        let mut best: Option<(usize, usize)> = None;
        for lit in lits {
            let place = lit.code();
            let Some(entries) = self.heads.get(place) else {
                continue;
            };
            if let Some((_, least)) = best {
                if least <= entries.len() {
                    continue;
                }
            }
            best = Some((place, entries.len()));
        }
        best.map(|(place, _)| place)
    }
}

/// The last of `lits`, or the first one if the list at `place` is that of the last.
fn other_than(lits: &[Lit], place: usize) -> Option<Lit>
    ensures { IfSome result (λ l. Contains lits.now l) }
{
    let first = lits.first()?;
    let last = lits.last()?;
    if last.code() == place {
        return Some(*first);
    }
    Some(*last)
}

/// Removes the entries with an id from the lists of literals.
#[tactic(auto, using(crate::proofs::Swept::sweeping))]
fn drop_entries(lists: &mut Vec<Entries>, id: u32, lits: &[Lit])
    ensures { DropsEntries id lists.old.items lists.new.items }
{
    for lit in lits {
        let place = lit.code();
        if place >= lists.len() {
            continue;
        }
        drop_at(lists, place, id);
    }
}

/// Removes the entries with an id from the list at `place`.
fn drop_at(lists: &mut Vec<Entries>, place: usize, id: u32)
    requires { place < length lists.old.items }
    ensures { lists.new.items ≡ slice_set lists.old.items place
        (filter (has_other_id id) (slice_index_or lists.old.items place [])) }
{
    let entries = &mut lists[place];
    entries.drop_id(id);
}

/// Adds an entry to the list at `place`.
fn push_at(heads: &mut Vec<Entries>, place: usize, entry: Entry) -> Result<(), AllocError>
    requires { place < length heads.old.items }
    ensures ok { OnOk result (heads.new.items ≡ with_entry heads.old.items place entry) }
    ensures err { OnErr result (heads.new.items ≡ heads.old.items) }
{
    let entries = &mut heads[place];
    entries.push(entry)
}
