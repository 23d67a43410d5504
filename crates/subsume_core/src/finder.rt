//! Finds clauses that unit and binary clauses subsume or strengthen. The contracts promise nothing: each
//! result is tested where it is used, so a wrong guess costs time and never soundness.
//!
//! The literals of the current clause are marked. A unit or binary clause with marked literals alone subsumes
//! it. One whose literals are all marked except the opposite of a marked literal clears the mark of that
//! literal. The clause of the literals that are still marked at the end follows by all clauses used, from the
//! last one back to the first, and then the current clause itself: besides the literal whose mark it cleared,
//! each needs only one that was still marked then, so one that is kept or whose own hint comes before.
ghost use Rattle.std.specs.Prelude.{◌≤◌};

use crate::marks::LitFlags;
use clause_db::ClauseDb;
use cnf_core::Lit;
use std::alloc::{AllocError, Global};

/// From this number of literals on, clauses are treated as equally long.
const LONG: usize = 64;

/// Longer clauses are skipped: the tests of a result compare each literal with each.
const MOST_LITERALS: usize = 500;

/// The number of binary clauses read before the finder gives up.
const MOST_WORK: usize = 50_000_000;

/// The result for one clause.
#[derive(Clone, Copy)]
pub enum Simplification {
    Nothing,
    /// the id of a clause that subsumes it
    Subsumed(u32),
    /// it follows without some of its literals (`Finder::gone`), by hints (`Finder::hints`)
    Shorter,
}

/// A binary clause, by one of its literals: the other literal, and the id.
#[derive(Clone, Copy)]
struct Binary {
    other: Lit,
    id: u32,
}

/// Finds clauses that unit and binary clauses subsume or strengthen.
#[derive(Drop)]
pub struct Finder {
    /// the ids of the given clauses by increasing length
    order: Vec<u32>,
    /// the number of those with at most two literals
    short: usize,
    /// by literal, the id of its first unit clause; 0 if there is none
    units: Vec<u32>,
    /// by literal, the binary clauses with this literal
    binaries: Vec<Vec<Binary>>,
    /// the literals of the current clause that aren't removed yet
    marks: LitFlags,
    gone: Vec<Lit>,
    hints: Vec<u32>,
    /// the number of binary clauses that may still be read
    work: usize,
}

impl Finder {
    /// A finder for the clauses 1 to `given`.
    pub fn new(alloc: Global, clauses: &ClauseDb, given: u32) -> Result<Finder, AllocError> {
        let room = 2 * clauses.vars() as usize + 2;
        let mut finder = Finder {
            order: by_length(alloc, clauses, given)?,
            short: count_short(clauses, given),
            units: vec![in alloc; 0u32; room]?,
            binaries: binaries(alloc, room)?,
            marks: LitFlags::new(alloc, clauses.vars())?,
            gone: Vec::new(alloc),
            hints: Vec::new(alloc),
            work: MOST_WORK,
        };
        finder.note_all(clauses)?;
        Ok(finder)
    }

    /// Records all live unit and binary clauses, those added to the given ones too.
    fn note_all(&mut self, clauses: &ClauseDb) -> Result<(), AllocError> {
        for before in 0..clauses.last() {
            let id = before + 1;
            if clauses.live(id) {
                self.note(clauses.arranged(id), id)?;
            }
        }
        Ok(())
    }

    /// Records a unit or binary clause that was added; other clauses are ignored.
    pub fn note(&mut self, lits: &[Lit], id: u32) -> Result<(), AllocError> {
        match lits.len() {
            1 => self.note_unit(lits[0], id),
            2 => {
                self.note_binary(lits[0], lits[1], id)?;
                self.note_binary(lits[1], lits[0], id)?;
            }
            _ => {}
        }
        Ok(())
    }

    fn note_unit(&mut self, lit: Lit, id: u32) {
        let code = lit.code();
        if code < self.units.len() && self.units[code] == 0 {
            self.units[code] = id;
        }
    }

    fn note_binary(&mut self, lit: Lit, other: Lit, id: u32) -> Result<(), AllocError> {
        let code = lit.code();
        if code < self.binaries.len() {
            self.binaries[code].push(Binary { other, id })?;
        }
        Ok(())
    }

    /// The number of turns: one for each given clause, and a second one for those of at most two literals.
    pub fn turns(&self) -> usize {
        self.order.len().saturating_add(self.short)
    }

    /// The id of the clause to look at in a turn: all given ones by increasing length, then those of at most
    /// two literals again, since longer clauses may have become unit meanwhile; 0 beyond the last turn.
    pub fn at(&self, turn: usize) -> u32 {
        let count = self.order.len();
        if turn < count {
            return number_at(&self.order, turn);
        }
        number_at(&self.order, turn - count)
    }

    /// Finds out whether unit and binary clauses subsume or strengthen a clause.
    pub fn find(&mut self, clauses: &ClauseDb, id: u32) -> Result<Simplification, AllocError> {
        self.gone.clear();
        self.hints.clear();
        if !clauses.live(id) {
            return Ok(Simplification::Nothing);
        }
        let lits = clauses.arranged(id);
        if lits.len() > MOST_LITERALS {
            return Ok(Simplification::Nothing);
        }
        self.marks.set_all(lits, true);
        let found = self.find_marked(clauses, id, lits);
        self.marks.set_all(lits, false);
        found
    }

    /// The literals to remove from the clause for which `find` last returned `Shorter`.
    pub fn gone(&self) -> &[Lit] {
        &self.gone
    }

    /// The hints by which it follows without them.
    pub fn hints(&self) -> &[u32] {
        &self.hints
    }

    /// Looks at the literals of a clause, which are marked. Marks are only cleared, so a second pass would
    /// find no more.
    fn find_marked(
        &mut self,
        clauses: &ClauseDb,
        id: u32,
        lits: &[Lit],
    ) -> Result<Simplification, AllocError> {
        let other = self.look_at_each(clauses, id, lits)?;
        if other != 0 {
            return Ok(Simplification::Subsumed(other));
        }
        self.conclude(id)
    }

    /// The result for a clause that isn't subsumed.
    fn conclude(&mut self, id: u32) -> Result<Simplification, AllocError> {
        if self.gone.is_empty() {
            return Ok(Simplification::Nothing);
        }
        self.hints.reverse();
        self.hints.push(id)?;
        Ok(Simplification::Shorter)
    }

    /// Looks at each literal of a clause once, and returns the id of a clause that subsumes it; 0 if none was
    /// found.
    fn look_at_each(
        &mut self,
        clauses: &ClauseDb,
        id: u32,
        lits: &[Lit],
    ) -> Result<u32, AllocError> {
        for lit in lits {
            if self.work == 0 {
                return Ok(0);
            }
            let inside = self.inside(clauses, id, *lit);
            if inside != 0 {
                return Ok(inside);
            }
            if self.gone.len().saturating_add(1) < lits.len() {
                self.drop_literal(clauses, id, *lit)?;
            }
            self.count_work(*lit);
        }
        Ok(0)
    }

    /// Counts the binary clauses that were read for a literal.
    fn count_work(&mut self, lit: Lit) {
        let count = self.count(lit).saturating_add(self.count(lit.opposite()));
        self.work = self.work.saturating_sub(count);
    }

    /// The number of binary clauses of a literal.
    fn count(&self, lit: Lit) -> usize {
        match self.binaries.get(lit.code()) {
            Some(row) => row.len(),
            None => 0,
        }
    }

    /// Removes a literal from the clause if a clause with its opposite allows it.
    fn drop_literal(&mut self, clauses: &ClauseDb, id: u32, lit: Lit) -> Result<(), AllocError> {
        let by = self.inside(clauses, id, lit.opposite());
        if by == 0 {
            return Ok(());
        }
        self.marks.set(lit, false);
        self.gone.push(lit)?;
        self.hints.push(by)?;
        Ok(())
    }

    /// The id of a live unit or binary clause of a literal, other than the clause `id`, whose other literal
    /// is marked; 0 if there is none.
    fn inside(&self, clauses: &ClauseDb, id: u32, lit: Lit) -> u32 {
        let unit = number_at(&self.units, lit.code());
        if unit != id && clauses.live(unit) {
            return unit;
        }
        let Some(row) = self.binaries.get(lit.code()) else {
            return 0;
        };
        for binary in row {
            if self.marks.has(binary.other) && binary.id != id && clauses.live(binary.id) {
                return binary.id;
            }
        }
        0
    }
}

/// The number at an index; 0 beyond the end.
fn number_at(numbers: &[u32], index: usize) -> u32 {
    match numbers.get(index) {
        Some(number) => *number,
        None => 0,
    }
}

/// A number of empty lists.
fn binaries(alloc: Global, count: usize) -> Result<Vec<Vec<Binary>>, AllocError> {
    let mut binaries = Vec::with_capacity(alloc, count)?;
    for _row in 0..count {
        binaries.push(Vec::new(alloc))?;
    }
    Ok(binaries)
}

/// The ids 1 to `given`, by increasing length of their clauses (counting sort).
fn by_length(alloc: Global, clauses: &ClauseDb, given: u32) -> Result<Vec<u32>, AllocError> {
    let mut places = places(alloc, clauses, given)?;
    let mut order = vec![in alloc; 0u32; given as usize]?;
    for before in 0..given {
        let id = before + 1;
        let length = length_of(clauses, id);
        if length < places.len() {
            let place = places[length];
            places[length] = place.saturating_add(1);
            if place < order.len() {
                order[place] = id;
            }
        }
    }
    Ok(order)
}

/// The number of clauses among 1 to `given` with at most two literals.
fn count_short(clauses: &ClauseDb, given: u32) -> usize {
    let mut short: usize = 0;
    for before in 0..given {
        if length_of(clauses, before + 1) <= 2 {
            short = short.saturating_add(1);
        }
    }
    short
}

/// By length, the number of shorter clauses among 1 to `given`: where those of this length begin in the
/// order.
fn places(alloc: Global, clauses: &ClauseDb, given: u32) -> Result<Vec<usize>, AllocError> {
    let mut places = vec![in alloc; 0usize; LONG + 2]?;
    for before in 0..given {
        let length = length_of(clauses, before + 1);
        if length + 1 < places.len() {
            places[length + 1] = places[length + 1].saturating_add(1);
        }
    }
    add_up(&mut places);
    Ok(places)
}

/// Replaces each number by the sum up to it.
fn add_up(numbers: &mut [usize]) {
    let mut sum: usize = 0;
    for index in 0..numbers.len() {
        sum = sum.saturating_add(numbers[index]);
        numbers[index] = sum;
    }
}

/// The number of literals of a clause, at most `LONG`; 0 if it isn't live.
fn length_of(clauses: &ClauseDb, id: u32) -> usize
    ensures { result ≤ LONG }
{
    if !clauses.live(id) {
        return 0;
    }
    let count = clauses.arranged(id).len();
    if count < LONG { count } else { LONG }
}
