//! Tests of `plain`, which computes the definitions, on formulas and lines of logs.
ghost use Rattle.std.specs.Prelude.{◌-◌, ◌^◌, IfOk};
ghost use Rattle.sat_theory.specs.Formula.{IsWithin};

use sat_theory::plain::{PlainClause, PlainState, literal_value, satisfies};
use std::alloc::{AllocError, Global};

/// A list of literals as a vector; none of them is -2^31.
fn vector(alloc: Global, lits: &[i32]) -> Result<Vec<i32>, AllocError>
    ensures { IfOk result (λ v. IsWithin (2 ^ 31 - 1) v.items) }
{
    let mut kept = Vec::new(alloc);
    for lit in lits {
        if *lit > i32::MIN {
            kept.push(*lit)?;
        }
    }
    Ok(kept)
}

/// The variables 1 and 2, and all four clauses over both.
fn contradiction(alloc: Global) -> Result<PlainState, AllocError> {
    let mut state = PlainState::new(alloc, 2);
    for (id, lits) in [(1, [1, 2]), (2, [-1, 2]), (3, [1, -2]), (4, [-1, -2])] {
        state.add(id, vector(alloc, &lits)?)?;
    }
    Ok(state)
}

/// 1 or 2, and 2 unless 1.
fn two_clauses(alloc: Global) -> Result<Vec<PlainClause>, AllocError> {
    let mut clauses = Vec::new(alloc);
    for lits in [[1, 2], [-1, 2]] {
        clauses.push(PlainClause::new(1, vector(alloc, &lits)?))?;
    }
    Ok(clauses)
}

#[test]
fn clauses_are_satisfied_by_their_models_alone(rt: HostRuntime) -> Result<(), AllocError> {
    let alloc = rt.alloc();
    let clauses = two_clauses(alloc)?;
    for (bits, yes) in [
        ([false, false], false),
        ([false, true], true),
        ([true, false], false),
        ([true, true], true),
    ] {
        assert!(rt; satisfies(&bits, &clauses) == yes, "{bits:?}");
    }
    assert!(rt; literal_value(&[true], 1) && !literal_value(&[true], -1));
    Ok(())
}

/// Ids, literals and hints, and whether they make an addition that holds.
const ADDITIONS: &[(u32, i32, &[u32], bool)] = &[
    (5, 2, &[1, 2], true),
    (5, 2, &[2, 1], true),
    (5, 2, &[2], false),
    (5, 2, &[], false),
    (5, 2, &[3, 4], false),
    (5, 2, &[9], false),
    (5, 2, &[1, 1], false),
    (4, 2, &[1, 2], false),
    (5, 3, &[1, 2], false),
    (u32::MAX, -2, &[3, 4], true),
];

#[test]
fn additions_hold_by_new_ids_and_unit_propagation(rt: HostRuntime) -> Result<(), AllocError> {
    let alloc = rt.alloc();
    let state = contradiction(alloc)?;
    for &(id, lit, hints, yes) in ADDITIONS {
        let holds = state.addition_holds(alloc, id, &[lit], hints)?;
        assert!(rt; holds == yes, "{id} {lit} {hints:?}");
    }
    Ok(())
}

/// Ids, and whether a deletion of them holds.
const DELETIONS: &[(&[u32], bool)] = &[
    (&[7], false),
    (&[1, 1], false),
    (&[1, 4], true),
    (&[], true),
];

#[test]
fn deletions_hold_for_distinct_live_ids(rt: HostRuntime) -> Result<(), AllocError> {
    let state = contradiction(rt.alloc())?;
    for &(ids, yes) in DELETIONS {
        assert!(rt; state.deletion_holds(ids) == yes, "{ids:?}");
    }
    Ok(())
}
