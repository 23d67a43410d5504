//! Literals, clauses, formulas and assignments that satisfy them.
use crate::building::formula;
use cnf_core::{Assign, Cnf, Lit, satisfied};
use std::alloc::{AllocError, Global};

/// Bits of three variables, and whether they satisfy (1 or not 2) and (2 or 3).
const ASSIGNMENTS: &[([bool; 3], bool)] = &[
    ([false, false, false], false),
    ([false, false, true], true),
    ([false, true, false], false),
    ([false, true, true], false),
    ([true, false, false], false),
    ([true, false, true], true),
    ([true, true, false], true),
    ([true, true, true], true),
];

/// Whether bits satisfy a formula.
fn satisfies(alloc: Global, cnf: &Cnf, bits: &[bool; 3]) -> Result<bool, AllocError> {
    let assign = Assign::new(Vec::from_slice(alloc, bits)?);
    let well = cnf.vars() == 3 && satisfied(cnf, &assign);
    drop(assign);
    Ok(well)
}

/// Whether an assignment satisfies that formula exactly if `yes`.
fn is_judged(alloc: Global, bits: &[bool; 3], yes: bool) -> Result<bool, AllocError> {
    let cnf = formula(alloc, 3, &[b"1 1 -2 0 0", b"2 2 3 0 0"])?;
    let well = satisfies(alloc, &cnf, bits)? == yes && !cnf.has_empty();
    drop(cnf);
    Ok(well)
}

/// Whether a formula with the empty clause is found to have it.
fn is_empty(alloc: Global) -> Result<bool, AllocError> {
    Ok(formula(alloc, 2, &[b"1 -2 0 0", b"2 0 0"])?.has_empty())
}

#[test]
fn formulas_are_satisfied_by_their_models_alone(rt: HostRuntime) {
    for (bits, yes) in ASSIGNMENTS {
        let judged = is_judged(rt.alloc(), bits, *yes);
        assert!(rt; matches!(judged, Ok(true)), "{bits:?}");
    }
}

#[test]
fn the_empty_clause_is_found_in_a_formula(rt: HostRuntime) {
    assert!(rt; matches!(is_empty(rt.alloc()), Ok(true)));
}

/// DIMACS numbers of literals, each with its variable, whether it is positive, and its table index.
const LITERALS: &[(i32, u32, bool, usize)] = &[
    (1, 1, true, 2),
    (-1, 1, false, 3),
    (-7, 7, false, 15),
    (2147483647, 2147483647, true, 4294967294),
];

/// Whether the literal of a number has these properties.
fn reports(number: i32, variable: u32, positive: bool, place: usize) -> bool {
    if number == 0 || number == i32::MIN {
        return false;
    }
    let lit = Lit::new(number);
    let other = lit.opposite();
    let reported = lit.get() == number && lit.variable() == variable && lit.code() == place;
    let signs = lit.is_positive() == positive && other.is_positive() != positive;
    reported && signs && other.opposite() == lit
}

#[test]
fn literals_have_opposites_and_numbers(rt: HostRuntime) {
    for &(number, variable, positive, place) in LITERALS {
        assert!(rt; reports(number, variable, positive, place), "{number}");
    }
}
