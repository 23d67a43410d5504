//! The clause database: clauses by their ids, and the literals that they watch.
ghost use Rattle.std.specs.Prelude.{◌≡◌, ℤ, ◌≤◌, List, Some, Contains, IsTrue, IfSome};
ghost use Rattle.sat_theory.specs.Formula.{variable as variable_of};
ghost use Rattle.clause_db.specs.Stored.{live_in, IsLong};

use crate::building::formula;
use clause_db::ClauseDb;
use cnf_core::Lit;
use std::alloc::{AllocError, Global};

fn are(lits: &[Lit], numbers: &[i32]) -> bool {
    if lits.len() != numbers.len() {
        return false;
    }
    for place in 0..lits.len() {
        if lits[place].get() != numbers[place] {
            return false;
        }
    }
    true
}

/// Whether a clause is live and has its literals in this order, the watched ones first.
fn stands(clauses: &ClauseDb, id: u32, numbers: &[i32]) -> bool {
    clauses.live(id) && are(clauses.arranged(id), numbers)
}

/// The database of some clauses over three variables.
fn database(alloc: Global, clauses: &[&[u8]]) -> Result<ClauseDb, AllocError> {
    ClauseDb::new(alloc, &formula(alloc, 3, clauses)?)
}

/// The literals of each id, in their stored order.
const HELD: &[(&str, u32, &[i32])] = &[
    ("a tautology's distinct literals", 1, &[-2, 1]),
    ("the empty clause", 2, &[]),
    ("the added clause", 3, &[3]),
];

/// The first row that isn't so: the clauses have these ids, and their literals this order; empty if all are so.
fn wrongly_held(clauses: &ClauseDb) -> &'static str {
    for &(name, id, numbers) in HELD {
        if !stands(clauses, id, numbers) {
            return name;
        }
    }
    if clauses.live(0) || clauses.live(4) || clauses.live(4294967295) {
        return "an id that no clause has";
    }
    ""
}

/// The first thing that isn't so, if two clauses have the ids 1 and 2, and an added one the next id.
fn wrong_id(clauses: &mut ClauseDb) -> Result<&'static str, AllocError> {
    if clauses.vars() != 3 || clauses.last() != 2 {
        return Ok("the ids of the first two clauses");
    }
    let id = clauses.add(&[Lit::new(3)])?;
    if id != 3 || clauses.last() != 3 {
        return Ok("the id of the added clause");
    }
    Ok(wrongly_held(clauses))
}

/// The same for a database of two clauses.
fn wrongly_counted(alloc: Global) -> Result<&'static str, AllocError> {
    let mut clauses = database(alloc, &[b"1 -2 1 0 0", b"2 0 0"])?;
    let wrong = wrong_id(&mut clauses);
    drop(clauses);
    wrong
}

#[test]
fn clauses_are_numbered_from_one_on(rt: HostRuntime) {
    let wrong = wrongly_counted(rt.alloc()).unwrap_or("out of memory");
    assert!(rt; wrong.is_empty(), "{wrong}");
}

/// The literal of a number, if the formula has its variable.
fn over(clauses: &ClauseDb, number: i32) -> Option<Lit>
    ensures { IfSome result (λ l. variable_of l ≤ clauses.now.vars) }
{
    if !(-9..=9).contains(&number) || number == 0 {
        return None;
    }
    let lit = Lit::new(number);
    if lit.variable() > clauses.vars() {
        return None;
    }
    Some(lit)
}

/// Whether the clauses with these ids watch a literal, with these blocking literals.
fn watching(clauses: &ClauseDb, number: i32, ids: &[u32], beside: &[i32]) -> bool {
    let Some(lit) = over(clauses, number) else {
        return false;
    };
    let watches = clauses.watching(lit);
    if watches.len() != ids.len() || ids.len() != beside.len() {
        return false;
    }
    for index in 0..watches.len() {
        let id = clauses.id_at(lit, index);
        if id != ids[index] || watches[index].blocker.get() != beside[index] {
            return false;
        }
    }
    true
}

/// The clauses 1, 2, 3 and 1, 3 and 1, 2.
const THREE: &[&[u8]] = &[b"1 1 2 3 0 0", b"2 1 3 0 0", b"3 1 2 0 0"];

/// Whether a clause is live and has two literals or more.
fn is_long(clauses: &ClauseDb, id: u32) -> bool
    ensures { IsTrue result → IsLong clauses.now id }
{
    clauses.live(id) && clauses.arranged(id).len() >= 2
}

/// The literal at an index of a live clause.
fn literal_at(clauses: &ClauseDb, id: u32, place: usize) -> Option<Lit>
    ensures { IfSome result (λ l. (clause : List ℤ) → live_in clauses.now id ≡ Some clause → Contains clause l) }
{
    if !clauses.live(id) || clauses.arranged(id).len() <= place {
        return None;
    }
    Some(clauses.arranged(id)[place])
}

/// Whether a clause watches these two literals.
fn watches(clauses: &ClauseDb, id: u32, one: i32, other: i32) -> bool {
    if !is_long(clauses, id) {
        return false;
    }
    let (first, second) = clauses.watched(id);
    first.get() == one && second.get() == other
}

/// Makes a clause watch its literal at an index instead of the watched literal `from`, or instead of its
/// second one if `from` isn't the first. Returns false if it watches that literal already.
fn rewatch(clauses: &mut ClauseDb, id: u32, from: i32, place: usize) -> Result<bool, AllocError> {
    if !is_long(clauses, id) {
        return Ok(false);
    }
    let Some(to) = literal_at(clauses, id, place) else {
        return Ok(false);
    };
    let (first, second) = clauses.watched(id);
    if first == to || second == to {
        return Ok(false);
    }
    if first.get() == from {
        clauses.rewatch(id, first, to)?;
        return Ok(true);
    }
    clauses.rewatch(id, second, to)?;
    Ok(true)
}

/// Literals, each with the clauses that watch it and their blocking literals.
const FIRST: &[(&str, i32, &[u32], &[i32])] = &[
    ("1 at first", 1, &[1, 2, 3], &[2, 3, 2]),
    ("2 at first", 2, &[1, 3], &[1, 1]),
    ("3 at first", 3, &[2], &[1]),
    ("-1 at first", -1, &[], &[]),
];

/// The same after the first clause watches 3 instead of 1.
const THEN: &[(&str, i32, &[u32], &[i32])] = &[
    ("1 then", 1, &[3, 2], &[2, 3]),
    ("2 then", 2, &[1, 3], &[1, 1]),
    ("3 then", 3, &[2, 1], &[1, 2]),
];

/// The first row whose watch list isn't that; empty if all are.
fn wrongly_watching(
    clauses: &ClauseDb,
    rows: &[(&'static str, i32, &[u32], &[i32])],
) -> &'static str {
    for &(name, number, ids, beside) in rows {
        if !watching(clauses, number, ids, beside) {
            return name;
        }
    }
    ""
}

/// The first thing that isn't so, if clauses watch their first two literals, the first one then watches 3 instead of
/// 1, and a second replacement by the same literal is refused.
fn wrong_watch(clauses: &mut ClauseDb) -> Result<&'static str, AllocError> {
    let first = wrongly_watching(clauses, FIRST);
    if !first.is_empty() {
        return Ok(first);
    }
    if !rewatch(clauses, 1, 1, 2)? {
        return Ok("a replacement");
    }
    if rewatch(clauses, 1, 1, 0)? {
        return Ok("a second replacement by the same literal");
    }
    if !stands(clauses, 1, &[3, 2, 1]) || !watches(clauses, 1, 3, 2) {
        return Ok("the order of the literals then");
    }
    Ok(wrongly_watching(clauses, THEN))
}

/// The same for a database of these three clauses.
fn wrong_watch_of_three(alloc: Global) -> Result<&'static str, AllocError> {
    let mut clauses = database(alloc, THREE)?;
    let wrong = wrong_watch(&mut clauses);
    drop(clauses);
    wrong
}

#[test]
fn clauses_watch_their_first_two_literals_and_then_another(rt: HostRuntime) {
    let wrong = wrong_watch_of_three(rt.alloc()).unwrap_or("out of memory");
    assert!(rt; wrong.is_empty(), "{wrong}");
}
