//! Trails under assignments and backtracking.
ghost use Rattle.std.specs.Prelude.{◌≤◌, IfSome};
ghost use Rattle.sat_theory.specs.Formula.{variable as variable_of};

use cnf_core::Lit;
use std::alloc::{AllocError, Global};
use trail_core::Trail;

/// The literal of a number, if the trail has its variable.
fn over(trail: &Trail, number: i32) -> Option<Lit>
    ensures { IfSome result (λ l. variable_of l ≤ trail.now.vars) }
{
    if !(-9..=9).contains(&number) || number == 0 {
        return None;
    }
    let lit = Lit::new(number);
    if lit.variable() > trail.vars() {
        return None;
    }
    Some(lit)
}

/// Pushes a literal if the trail has its variable and that has no value. Returns whether it did.
fn push_free(trail: &mut Trail, number: i32, reason: u32) -> Result<bool, AllocError> {
    let Some(lit) = over(trail, number) else {
        return Ok(false);
    };
    if !trail.is_free(lit) {
        return Ok(false);
    }
    trail.push(lit, reason)?;
    Ok(true)
}

/// Whether literals have these positions: 1 + the trail index at which each became false, 0 if it isn't
/// false.
fn falsified_at(trail: &Trail, places: &[(i32, u32)]) -> bool {
    for &(number, falsified_at) in places {
        let Some(lit) = over(trail, number) else {
            return false;
        };
        if trail.falsified_at(lit) != falsified_at {
            return false;
        }
    }
    true
}

/// Literals with their reasons, and whether they can be pushed.
const PUSHED: &[(&str, i32, u32, bool)] = &[
    ("pushing 2", 2, 0, true),
    ("pushing -1", -1, 7, true),
    ("pushing 1, which is false", 1, 8, false),
    ("pushing 4, which is no variable", 4, 9, false),
];

/// The first row that isn't so: exactly the literals that can be pushed are; empty if all are so.
fn wrongly_pushed(trail: &mut Trail) -> Result<&'static str, AllocError> {
    for &(name, number, reason, pushed) in PUSHED {
        if push_free(trail, number, reason)? != pushed {
            return Ok(name);
        }
    }
    Ok("")
}

/// The positions of the literals after that.
const FALSIFIED: &[(i32, u32)] = &[(1, 2), (-1, 0), (2, 0), (-2, 1), (3, 0), (-3, 0)];

/// The assignment after that.
const BITS: &[bool] = &[false, true, false];

/// Whether the trail has the assignment and the positions of the pushed literals.
fn reports(alloc: Global, trail: &Trail) -> Result<bool, AllocError> {
    let assign = trail.assignment(alloc)?;
    let reported = assign.bits() == BITS;
    drop(assign);
    Ok(reported && falsified_at(trail, FALSIFIED))
}

/// Whether backtracking leaves the first literal.
fn goes_back(trail: &mut Trail) -> bool {
    if trail.len() != 2 || trail.at(1).get() != -1 {
        return false;
    }
    trail.pop();
    trail.len() == 1 && falsified_at(trail, &[(1, 0)])
}

/// What is wrong after assignments and after backtracking; empty if nothing.
fn wrong_trail(alloc: Global, trail: &mut Trail) -> Result<&'static str, AllocError> {
    let wrong = wrongly_pushed(trail)?;
    if !wrong.is_empty() {
        return Ok(wrong);
    }
    if !reports(alloc, trail)? {
        return Ok("the assignment and the positions");
    }
    if !goes_back(trail) {
        return Ok("backtracking");
    }
    Ok("")
}

/// The same for a trail of three variables.
fn wrong_trail_of_three(alloc: Global) -> Result<&'static str, AllocError> {
    let mut trail = Trail::new(alloc, 3)?;
    let wrong = wrong_trail(alloc, &mut trail);
    drop(trail);
    wrong
}

#[test]
fn trails_have_the_pushed_literals_until_they_are_popped(rt: HostRuntime) {
    let wrong = wrong_trail_of_three(rt.alloc()).unwrap_or("out of memory");
    assert!(rt; wrong.is_empty(), "{wrong}");
}
