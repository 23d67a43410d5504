//! Whether no live clause subsumes a list of literals. A live clause of at least two literals that did would
//! watch one of the list's literals, and so be in its watch list; a unit clause is flagged; and no live
//! clause is empty. So only the watch lists and flags of the list's literals are read. The list's literals
//! are marked meanwhile: a clause inside the list has only marked literals.
ghost use Rattle.std.specs.Prelude.{◌≡◌, ℕ, ℤ, ◌≤◌, List, [], true, Some, All, IsTrue};
ghost use Rattle.sat_theory.specs.Formula.{variable as variable_of, IsWithin};
ghost use Rattle.sat_theory.specs.Log.{IsUnsubsumed};
ghost use Rattle.cdcl_theory.specs.Codes.{marked_in};
ghost use Rattle.clause_db.specs.Stored.{live_in};
ghost use Rattle.subsume_core.specs.Units.{IsUnitsOf};
ghost use Rattle.subsume_core.specs.Inside.{NoneWatching, IsApart};

use crate::marks::LitFlags;
use crate::units::Units;
use clause_db::ClauseDb;
use cnf_core::Lit;

/// Whether no live clause subsumes a list, given that no live clause is empty. `marks` is scratch space, with
/// no mark set.
pub fn is_unsubsumed(clauses: &ClauseDb, units: &Units, marks: &mut LitFlags, lits: &[Lit]) -> bool
    requires units { IsUnitsOf clauses.now units.now }
    requires within { IsWithin clauses.now.vars lits.now }
    requires some { (id : ℕ) → live_in clauses.now id ≡ Some [] → ⊥ }
    ensures { IsTrue result → IsUnsubsumed (live_in clauses.now) lits.now }
{
    marks.set_all(lits, true);
    let is_unsubsumed = is_unsubsumed_by(clauses, units, marks, lits);
    marks.set_all(lits, false);
    is_unsubsumed
}

/// The same, with the list's literals marked.
fn is_unsubsumed_by(clauses: &ClauseDb, units: &Units, marks: &LitFlags, lits: &[Lit]) -> bool
    requires units { IsUnitsOf clauses.now units.now }
    requires within { IsWithin clauses.now.vars lits.now }
    requires some { (id : ℕ) → live_in clauses.now id ≡ Some [] → ⊥ }
    ensures { IsTrue result → IsUnsubsumed (live_in clauses.now) lits.now }
{
    if !marks.covers(lits) {
        return false;
    }
    are_apart(clauses, units, marks, lits)
}

/// The same, given that all literals of the list are marked.
fn are_apart(clauses: &ClauseDb, units: &Units, marks: &LitFlags, lits: &[Lit]) -> bool
    requires units { IsUnitsOf clauses.now units.now }
    requires within { IsWithin clauses.now.vars lits.now }
    requires some { (id : ℕ) → live_in clauses.now id ≡ Some [] → ⊥ }
    requires marked { All (λ l. marked_in marks.now l ≡ true) lits.now }
    ensures { IsTrue result → IsUnsubsumed (live_in clauses.now) lits.now }
{
    // for the prover: brings in the invariant of the clauses
    let _last = clauses.last();
    for lit in lits {
        if !is_apart(clauses, units, marks, *lit) {
            return false;
        }
    }
    true
}

/// Whether a literal is no unit clause, and each clause that watches it has an unmarked literal. Then none of
/// these is inside a list whose literals are all marked.
fn is_apart(clauses: &ClauseDb, units: &Units, marks: &LitFlags, lit: Lit) -> bool
    requires { variable_of lit ≤ clauses.now.vars }
    ensures { (lits : List ℤ) → All (λ l. marked_in marks.now l ≡ true) lits → IsTrue result →
        IsApart clauses.now units.now lits lit }
{
    if units.has(lit) {
        return false;
    }
    none_watching(clauses, marks, lit)
}

/// Whether each clause that watches a literal has an unmarked literal.
fn none_watching(clauses: &ClauseDb, marks: &LitFlags, lit: Lit) -> bool
    requires { variable_of lit ≤ clauses.now.vars }
    ensures { (lits : List ℤ) → All (λ l. marked_in marks.now l ≡ true) lits → IsTrue result →
        NoneWatching clauses.now lits lit }
{
    let count = clauses.watching(lit).len();
    for index in 0..count {
        if marks.covers(clauses.arranged_at(lit, index)) {
            return false;
        }
    }
    true
}
