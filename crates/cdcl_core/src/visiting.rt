//! Propagation by watched literals: only the clauses that watch a false literal are visited (Moskewicz and
//! others, "Chaff", 2001). A visited clause keeps its watch if its other watched literal is or becomes true,
//! and otherwise watches another literal that isn't false. `ClauseDb::arranged_at` gives its literals: the
//! two watched ones first, and the search for a replacement goes over the rest. Each entry of a watch list
//! has a blocking literal of its clause: while that is true, the clause isn't even read (Sörensson and Eén,
//! "MiniSat 2.1", 2008).
ghost use Rattle.std.specs.Prelude.{◌≡◌, ℕ, ℤ, ◌<◌, ◌≤◌, ◌⊎◌, List, [], length, slice_index_or, All, IfOk, IfSome};
ghost use Rattle.std.specs.Prelude.{IfNone};
ghost use Rattle.sat_theory.specs.Formula.{variable as variable_of, IsWithin};
ghost use Rattle.cdcl_theory.specs.Propagation.{AllSettled, IsFalsified};
ghost use Rattle.cdcl_theory.specs.Trails.{IsTrail, falsified_at as falsified_in};
ghost use Rattle.clause_db.specs.Watching.{list_of, pair_of};
ghost use Rattle.clause_db.specs.Stored.{live_in, Watches, IsStored};
ghost use Rattle.cdcl_core.specs.WatchInvariant.{HasTrueAt, KeepsWatchInvariant};
ghost use Rattle.cdcl_core.specs.Visiting.{AreFalse, AreTrue, IsFate, IsRest};

use clause_db::{ClauseDb, Watch};
use cnf_core::Lit;
use std::alloc::AllocError;
use trail_core::Trail;

/// The outcome of a visit of a clause.
pub(crate) enum Visited {
    /// It has a true literal, and keeps its watch.
    Kept,
    /// It watches another literal.
    Moved,
    /// All its literals are false.
    Falsified(u32),
}

/// A literal that a clause can watch instead, and its index in `arranged_at`.
#[derive(Clone, Copy)]
struct Replacement {
    place: usize,
    lit: Lit,
}

/// The other one of a clause's two watched literals.
fn other_watch(lits: &[Lit], lit: Lit) -> Lit
    requires two { 2 ≤ length lits.now }
    requires one { (lit ≡ (pair_of lits.now).first) ⊎ (lit ≡ (pair_of lits.now).second) }
    ensures watched { (result ≡ (pair_of lits.now).first) ⊎ (result ≡ (pair_of lits.now).second) }
    ensures only { (l : ℤ) → (l ≡ (pair_of lits.now).first) ⊎ (l ≡ (pair_of lits.now).second) → (l ≡ lit) ⊎
        (l ≡ result) }
{
    lits[usize::from(lits[0] == lit)]
}

/// The first literal from index `low` on that isn't false, and its index: a replacement watch.
fn find_replacement(trail: &Trail, lits: &[Lit], low: usize) -> Option<Replacement>
    requires within { IsWithin trail.now.vars lits.now }
    requires inside { low ≤ length lits.now }
    ensures place { IfSome result (λ p. (low ≤ p.place) × (p.place < length lits.now)) }
    ensures lit { IfSome result (λ p. (d : ℤ) → slice_index_or lits.now p.place d ≡ p.lit) }
    ensures up { IfSome result (λ p. falsified_in trail.now p.lit ≡ 0) }
    ensures none { IfNone result (AreFalse trail.now lits.now low (length lits.now)) }
{
    for place in low..lits.len() {
        let lit = lits[place];
        if trail.falsified_at(lit) == 0 {
            return Some(Replacement { place, lit });
        }
    }
    None
}

/// Visits the clause at an index in the watch list of a false literal.
fn visit(
    trail: &mut Trail,
    clauses: &mut ClauseDb,
    falsified: Lit,
    index: usize,
) -> Result<Visited, AllocError>
    requires whole { IsTrail trail.old }
    requires stored { IsStored clauses.old }
    requires vars { clauses.old.vars ≡ trail.old.vars }
    requires over { variable_of falsified ≤ trail.old.vars }
    requires falsified { 0 < falsified_in trail.old falsified }
    requires inside { index < length (list_of clauses.old.watches falsified) }
    ensures whole { IsTrail trail.new }
    ensures stored { IsStored clauses.new }
    ensures visit { IfOk result (IsFate clauses.old clauses.new trail.old trail.new falsified index) }
{
    let lits = clauses.arranged_at(falsified, index);
    let other = other_watch(lits, falsified);
    if trail.falsified_at(other.opposite()) > 0 {
        clauses.set_blocker(falsified, index, other);
        return Ok(Visited::Kept);
    }
    if let Some(found) = find_replacement(trail, lits, 2) {
        clauses.rewatch_at(falsified, index, found.lit, found.place)?;
        return Ok(Visited::Moved);
    }
    let id = clauses.id_at(falsified, index);
    if trail.falsified_at(other) > 0 {
        return Ok(Visited::Falsified(id));
    }
    trail.push(other, id)?;
    Ok(Visited::Kept)
}

/// The first index from `from` on whose blocking literal isn't true.
fn first_unblocked(trail: &Trail, watches: &[Watch], from: usize) -> Option<usize>
    requires within { All (λ w. variable_of w.blocker ≤ trail.now.vars) watches.now }
    ensures some { IfSome result (λ k. (from ≤ k) × (k < length watches.now) × AreTrue trail.now watches.now from k) }
    ensures none { IfNone result (AreTrue trail.now watches.now from (length watches.now)) }
{
    for index in from..watches.len() {
        if trail.falsified_at(watches[index].blocker.opposite()) == 0 {
            return Some(index);
        }
    }
    None
}

/// Visits all clauses that watch a false literal, except those whose blocking literal is true. It stops at a
/// falsified clause and returns its id.
fn visit_watching(
    trail: &mut Trail,
    clauses: &mut ClauseDb,
    falsified: Lit,
) -> Result<Option<u32>, AllocError>
    requires whole { IsTrail trail.old }
    requires stored { IsStored clauses.old }
    requires vars { clauses.old.vars ≡ trail.old.vars }
    requires over { variable_of falsified ≤ trail.old.vars }
    requires falsified { 0 < falsified_in trail.old falsified }
    ensures whole { IsTrail trail.new }
    ensures stored { IsStored clauses.new }
    ensures rest { IfOk result (λ _. IsRest clauses.old clauses.new trail.old trail.new) }
    ensures visited { IfOk result (λ found. IfNone found ((id : ℕ) → Watches clauses.new id falsified →
        HasTrueAt clauses.new (falsified_in trail.new) id)) }
    ensures conflict { IfOk result (λ found. IfSome found
        (IsFalsified (live_in clauses.new) (falsified_in trail.new))) }
{
    let mut index = 0;
    while let Some(next) = first_unblocked(trail, clauses.watching(falsified), index) {
        match visit(trail, clauses, falsified, next)? {
            Visited::Kept => index = next + 1,
            Visited::Moved => {
                index = next;
                continue;
            }
            Visited::Falsified(id) => return Ok(Some(id)),
        }
    }
    Ok(None)
}

/// Propagates the trail literals from index `from` on, until all are propagated or a live clause is
/// falsified; it returns the id of that clause.
pub(crate) fn propagate_watched(
    trail: &mut Trail,
    clauses: &mut ClauseDb,
    from: usize,
) -> Result<Option<u32>, AllocError>
    requires whole { IsTrail trail.old }
    requires stored { IsStored clauses.old }
    requires vars { clauses.old.vars ≡ trail.old.vars }
    requires low { from ≤ length trail.old.lits }
    ensures whole { IsTrail trail.new }
    ensures stored { IsStored clauses.new }
    ensures rest { IfOk result (λ _. IsRest clauses.old clauses.new trail.old trail.new) }
    ensures all { (starts : List ℕ) → All (λ s. s ≤ from) starts →
        KeepsWatchInvariant clauses.old (falsified_in trail.old) starts from →
        IfOk result (λ found. IfNone found (KeepsWatchInvariant clauses.new (falsified_in trail.new) starts
        (length trail.new.lits))) }
    ensures some { (starts : List ℕ) → All (λ s. s ≤ from) starts →
        KeepsWatchInvariant clauses.old (falsified_in trail.old) starts from →
        IfOk result (λ found. IfSome found (λ _.
        KeepsWatchInvariant clauses.new (falsified_in trail.new) starts from)) }
    ensures settled { KeepsWatchInvariant clauses.old (falsified_in trail.old) [] from →
        IfOk result (λ found. IfNone found (AllSettled (live_in clauses.new) (falsified_in trail.new))) }
    ensures conflict { IfOk result (λ found. IfSome found
        (IsFalsified (live_in clauses.new) (falsified_in trail.new))) }
{
    let mut head = from;
    while head < trail.len() {
        let falsified = trail.at(head).opposite();
        if let Some(conflict) = visit_watching(trail, clauses, falsified)? {
            return Ok(Some(conflict));
        }
        head += 1;
    }
    Ok(None)
}
