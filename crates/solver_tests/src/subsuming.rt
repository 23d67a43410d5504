//! Clauses that unit and binary clauses subsume or shorten.
ghost use Rattle.std.specs.Prelude.{◌≡◌, ℕ, ◌≤◌, [], Some, IfSome};
ghost use Rattle.sat_theory.specs.Formula.{variable as variable_of};
ghost use Rattle.clause_db.specs.Stored.{live_in};
ghost use Rattle.subsume_core.specs.Units.{IsUnitsOf};

use crate::building::formula;
use clause_db::ClauseDb;
use cnf_core::Lit;
use std::alloc::{AllocError, Global};
use subsume_core::{
    Finder, LitFlags, Simplification, Units, contains_all, holds, is_unsubsumed, keep_others,
};

/// The clauses with which all tests here begin.
const CLAUSES: &[&[u8]] = &[b"1 1 2 0 0", b"2 -1 2 3 0 0", b"3 1 2 3 0 0", b"4 -2 0 0"];

/// The literals of numbers from -9 to 9; 0 and others are skipped.
fn literals(alloc: Global, numbers: &[i32]) -> Result<Vec<Lit>, AllocError> {
    let mut lits = Vec::new(alloc);
    for number in numbers {
        if (-9..=9).contains(number) && *number != 0 {
            lits.push(Lit::new(*number))?;
        }
    }
    Ok(lits)
}

fn are(lits: &[Lit], numbers: &[i32]) -> bool {
    if lits.len() != numbers.len() {
        return false;
    }
    for place in 0..lits.len() {
        if lits[place].get() != numbers[place] {
            return false;
        }
    }
    true
}

/// The clauses in the order of the turns, with an entry beyond the last turn.
const ORDER: &[u32] = &[4, 1, 2, 3, 4, 1, 2, 3, 0];

/// Whether the finder has its turns in this order.
fn comes_in_order(finder: &Finder) -> bool {
    for turn in 0..ORDER.len() {
        if finder.at(turn) != ORDER[turn] {
            return false;
        }
    }
    finder.turns() == 6
}

/// By clause, the one that subsumes it or 0, the literals that are removed, and the hints for that.
const FOUND: &[(&str, u32, u32, &[i32], &[u32])] = &[
    (
        "a clause whose second literal is false",
        1,
        0,
        &[2],
        &[4, 1],
    ),
    (
        "one whose complements are false or removed",
        2,
        0,
        &[-1, 2],
        &[4, 1, 2],
    ),
    ("a subsumed clause", 3, 1, &[], &[]),
    ("a unit clause", 4, 0, &[], &[]),
];

/// The id of the clause that was found to subsume another one; 0 for other results.
fn subsuming(found: Simplification) -> u32 {
    match found {
        Simplification::Subsumed(other) => other,
        _ => 0,
    }
}

/// The first row that isn't the finder's result; empty if all are.
fn wrongly_found(finder: &mut Finder, clauses: &ClauseDb) -> Result<&'static str, AllocError> {
    for &(name, id, other, gone, hints) in FOUND {
        let found = subsuming(finder.find(clauses, id)?);
        if found != other || !are(finder.gone(), gone) || finder.hints() != hints {
            return Ok(name);
        }
    }
    Ok("")
}

/// Whether an added unit clause is found to subsume the second clause.
fn finds_added(finder: &mut Finder, clauses: &mut ClauseDb) -> Result<bool, AllocError> {
    if clauses.vars() != 3 || clauses.last() != 4 {
        return Ok(false);
    }
    let id = clauses.add(&[Lit::new(3)])?;
    finder.note(&[Lit::new(3)], id)?;
    Ok(subsuming(finder.find(clauses, 2)?) == 5)
}

/// What the finder has wrong: its turns, its results, or the result after an addition; empty if nothing.
fn wrong_finding(alloc: Global, clauses: &mut ClauseDb) -> Result<&'static str, AllocError> {
    let mut finder = Finder::new(alloc, clauses, 4)?;
    if !comes_in_order(&finder) {
        return Ok("the order of the clauses");
    }
    let wrong = wrongly_found(&mut finder, clauses)?;
    if !wrong.is_empty() {
        return Ok(wrong);
    }
    if !finds_added(&mut finder, clauses)? {
        return Ok("a clause that an added unit clause subsumes");
    }
    Ok("")
}

/// The same for a database of these clauses.
fn wrong_finding_of_four(alloc: Global) -> Result<&'static str, AllocError> {
    let mut clauses = ClauseDb::new(alloc, &formula(alloc, 3, CLAUSES)?)?;
    let wrong = wrong_finding(alloc, &mut clauses);
    drop(clauses);
    wrong
}

#[test]
fn clauses_are_subsumed_or_strengthened(rt: HostRuntime) {
    let wrong = wrong_finding_of_four(rt.alloc()).unwrap_or("out of memory");
    assert!(rt; wrong.is_empty(), "{wrong}");
}

/// Lists of literals with hints, and whether they follow by these.
const HINTED: &[(&str, &[i32], &[u32], bool)] = &[
    ("all hints in order", &[3], &[4, 1, 2], true),
    ("a hint that isn't unit yet", &[3], &[1, 4, 2], false),
    ("no conflict", &[3], &[4, 1], false),
    ("an unknown id", &[3], &[4, 9, 2], false),
    ("no hint", &[3], &[], false),
    ("a second literal, with its hints", &[2, 3], &[1, 2], true),
    ("a second literal, without conflict", &[2, 3], &[1], false),
];

/// What `holds` returns for a list of literals over these clauses.
fn is_held(alloc: Global, numbers: &[i32], hints: &[u32]) -> Result<bool, AllocError> {
    let clauses = ClauseDb::new(alloc, &formula(alloc, 3, CLAUSES)?)?;
    let mut known = Vec::new(alloc);
    let lits = literals(alloc, numbers)?;
    let held = holds(&clauses, &lits, hints, &mut known);
    drop(clauses);
    held
}

#[test]
fn hints_derive_a_clause_only_in_their_order(rt: HostRuntime) -> Result<(), AllocError> {
    for &(name, numbers, hints, yes) in HINTED {
        let held = is_held(rt.alloc(), numbers, hints)?;
        assert!(rt; held == yes, "{name}");
    }
    Ok(())
}

/// The literal of a number, if the clauses have its variable.
fn over(clauses: &ClauseDb, number: i32) -> Option<Lit>
    ensures { IfSome result (λ l. variable_of l ≤ clauses.now.vars) }
{
    if !(-9..=9).contains(&number) || number == 0 {
        return None;
    }
    let lit = Lit::new(number);
    if lit.variable() > clauses.vars() {
        return None;
    }
    Some(lit)
}

/// Pairs of literals, and whether no clause subsumes them.
const PAIRS: &[(&str, i32, i32, bool)] = &[
    ("a new pair", 1, 3, true),
    ("a clause", 1, 2, false),
    ("a clause in another order", 2, 1, false),
    ("a pair with a unit clause", 1, -2, false),
];

/// Whether no live clause subsumes a pair.
fn is_new_pair(
    clauses: &ClauseDb,
    units: &Units,
    marks: &mut LitFlags,
    one: i32,
    other: i32,
) -> bool
    requires units { IsUnitsOf clauses.now units.now }
    requires some { (id : ℕ) → live_in clauses.now id ≡ Some [] → ⊥ }
{
    let Some(one) = over(clauses, one) else {
        return false;
    };
    let Some(other) = over(clauses, other) else {
        return false;
    };
    is_unsubsumed(clauses, units, marks, &[one, other])
}

/// The first pair for which `is_unsubsumed` returns something else; empty if there is none.
fn wrongly_new(clauses: &ClauseDb, units: &Units, marks: &mut LitFlags) -> &'static str
    requires units { IsUnitsOf clauses.now units.now }
    requires some { (id : ℕ) → live_in clauses.now id ≡ Some [] → ⊥ }
{
    for &(name, one, other, yes) in PAIRS {
        if is_new_pair(clauses, units, marks, one, other) != yes {
            return name;
        }
    }
    ""
}

/// Whether no live clause subsumes a unit clause, until it is added.
fn comes(
    clauses: &mut ClauseDb,
    units: &mut Units,
    marks: &mut LitFlags,
    lit: Lit,
) -> Result<bool, AllocError>
    requires units { IsUnitsOf clauses.old units.old }
    requires some { (id : ℕ) → live_in clauses.old id ≡ Some [] → ⊥ }
    requires over { variable_of lit ≤ clauses.old.vars }
{
    let new = is_unsubsumed(clauses, units, marks, &[lit]);
    if clauses.last() > 9 {
        return Ok(false);
    }
    clauses.add(&[lit])?;
    units.note(&[lit]);
    Ok(new && !is_unsubsumed(clauses, units, marks, &[lit]))
}

/// What is wrong for a database of these clauses: one of the pairs, or that; empty if nothing.
fn are_new(alloc: Global) -> Result<&'static str, AllocError> {
    let cnf = formula(alloc, 3, CLAUSES)?;
    if cnf.has_empty() {
        return Ok("the formula");
    }
    let mut clauses = ClauseDb::new(alloc, &cnf)?;
    let mut units = Units::new(alloc, &clauses)?;
    let mut marks = LitFlags::new(alloc, 3)?;
    let Some(lit) = over(&clauses, 3) else {
        return Ok("the literal");
    };
    let wrong = wrongly_new(&clauses, &units, &mut marks);
    if !wrong.is_empty() {
        return Ok(wrong);
    }
    if !comes(&mut clauses, &mut units, &mut marks, lit)? {
        return Ok("a unit clause before and after it is added");
    }
    Ok("")
}

#[test]
fn clauses_are_unsubsumed_until_they_are_added(rt: HostRuntime) {
    let wrong = are_new(rt.alloc()).unwrap_or("out of memory");
    assert!(rt; wrong.is_empty(), "{wrong}");
}

/// Whether a list without some of its literals is right, and inside the list.
fn is_kept(alloc: Global) -> Result<bool, AllocError> {
    let lits = literals(alloc, &[-1, 2, 3])?;
    let gone = literals(alloc, &[3, -1])?;
    let mut kept = literals(alloc, &[7])?;
    keep_others(&lits, &gone, &mut kept)?;
    let inside = contains_all(&lits, &kept) && !contains_all(&kept, &lits);
    Ok(inside && are(&kept, &[2]))
}

#[test]
fn a_strengthened_clause_lacks_the_removed_literals_alone(rt: HostRuntime) {
    assert!(rt; matches!(is_kept(rt.alloc()), Ok(true)));
}
