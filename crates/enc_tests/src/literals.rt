//! Small formulas, literal by literal.
use crate::formulas::{formula, numbers_of};
use cnf_core::Cnf;
use settings::Method;
use std::alloc::Global;

/// Whether there is a formula of `vars` variables whose last clauses are `wanted`; with `all`, these are all
/// its clauses.
fn ends_with(alloc: Global, formula: Option<Cnf>, vars: u32, all: bool, wanted: &[i32]) -> bool {
    let Some(cnf) = formula else {
        return false;
    };
    let Ok(numbers) = numbers_of(alloc, &cnf) else {
        return false;
    };
    if cnf.vars() != vars || numbers.len() < wanted.len() {
        return false;
    }
    let prefix = numbers.len() - wanted.len();
    (prefix == 0 || !all) && &numbers[prefix..] == wanted
}

/// The clauses for NOT over AND with one step: it drives the output and has its values, it has a pair and its
/// operator's values, and no other operator; then the constraints.
const NOT_BY_AND: &[i32] = &[
    3, 0, -3, 1, 0, -3, -2, 0, 8, 0, -8, 1, -4, 0, -8, -1, 4, 0, -8, 2, -7, 0, -8, -2, 7, 0, 4, 5,
    6, 7, 0, 4, 5, -6, 7, 0, 4, 5, -6, -7, 0, 4, -5, 6, 7, 0, 4, -5, 6, -7, 0, 4, -5, -6, 7, 0, 4,
    -5, -6, -7, 0, -4, 5, 6, 7, 0, -4, 5, 6, -7, 0, -4, 5, -6, 7, 0, -4, 5, -6, -7, 0, -4, -5, 6,
    7, 0, -4, -5, 6, -7, 0, -4, -5, -6, 7, 0, -4, -5, -6, -7, 0, 3, 0, -8, 4, 0, -8, -7, 0,
];

/// The same for MSV: it has operands, which have values, instead of a pair.
const NOT_BY_AND_SELECTED: &[i32] = &[
    3, 0, -3, 1, 0, -3, -2, 0, 8, 0, 9, 0, -8, -10, 0, -8, 11, 0, -9, -12, 0, -9, 13, 0, 1, 10, 12,
    -4, 0, 1, 10, -12, -5, 0, 1, -10, 12, -6, 0, 1, -10, -12, -7, 0, -1, 10, 12, 4, 0, -1, 10, -12,
    5, 0, -1, -10, 12, 6, 0, -1, -10, -12, 7, 0, 2, 11, 13, -4, 0, 2, 11, -13, -5, 0, 2, -11, 13,
    -6, 0, 2, -11, -13, -7, 0, -2, 11, 13, 4, 0, -2, 11, -13, 5, 0, -2, -11, 13, 6, 0, -2, -11,
    -13, 7, 0, 4, 5, 6, 7, 0, 4, 5, -6, 7, 0, 4, 5, -6, -7, 0, 4, -5, 6, 7, 0, 4, -5, 6, -7, 0, 4,
    -5, -6, 7, 0, 4, -5, -6, -7, 0, -4, 5, 6, 7, 0, -4, 5, 6, -7, 0, -4, 5, -6, 7, 0, -4, 5, -6,
    -7, 0, -4, -5, 6, 7, 0, -4, -5, 6, -7, 0, -4, -5, -6, 7, 0, -4, -5, -6, -7, 0, 3, 0, -8, -9, 4,
    0, -8, -9, -7, 0,
];

/// The clauses for one step without inputs or outputs: it has operands, of which there are none, and its
/// operator's values at theirs; then the constraints: it is read, its operator is no projection and no
/// constant, and it is 0.
const NO_INPUT: &[i32] = &[
    0, 0, 1, 6, 7, -2, 0, 1, 6, -7, -3, 0, 1, -6, 7, -4, 0, 1, -6, -7, -5, 0, -1, 6, 7, 2, 0, -1,
    6, -7, 3, 0, -1, -6, 7, 4, 0, -1, -6, -7, 5, 0, 0, 2, 3, 4, 5, 0, 2, 3, -4, -5, 0, 2, -3, 4,
    -5, 0, -2, -3, -4, -5, 0, -1, 0,
];

/// The constraints for XOR over all operators: no operator is a projection or a constant, x2 isn't read twice
/// if x1 wasn't read, and row 0 is 0.
const XOR_CUTS: &[i32] = &[
    5, 0, 6, 7, 8, 9, 0, 6, 7, -8, -9, 0, 6, -7, 8, -9, 0, -6, -7, -8, -9, 0, -10, 6, 0, -10, -9,
    0, -11, 6, 0, -11, -9, 0, -6, 7, -8, 9, 10, 11, 0, -6, -7, 8, 9, 10, 11, 0, -11, 0, -1, 5, 0,
];

/// Those for two outputs over an operator and its complement, whose operands can't be exchanged: each step is
/// read or drives an output, equal operands are no projection, and pairs never decrease.
const TWO_CUTS: &[i32] = &[
    9, 11, 29, 30, 31, 32, 33, 0, 10, 12, 0, -21, 13, -16, 0, -22, 13, -16, 0, -25, 17, -20, 0,
    -26, 17, -20, 0, -29, 17, -20, 0, -22, -25, 0, -23, -25, 0, -23, -26, 0, -24, -25, 0, -24, -26,
    0,
];

/// Formulas with the number of variables, whether all their clauses follow, and their last clauses.
const WRITTEN: &[(&str, Method, &[u8], &[u8], u32, u32, bool, &[i32])] = &[
    (
        "ssv: NOT by AND",
        Method::Ssv,
        b"inputs 1\n10\n",
        b"0001",
        1,
        8,
        true,
        NOT_BY_AND,
    ),
    (
        "select: NOT by AND",
        Method::Select,
        b"inputs 1\n10\n",
        b"0001",
        1,
        13,
        true,
        NOT_BY_AND_SELECTED,
    ),
    (
        "plain: no input, no step",
        Method::Plain,
        b"inputs 0\n1\n",
        b"all",
        0,
        0,
        true,
        &[],
    ),
    (
        "plain: no input, a step has no pair",
        Method::Plain,
        b"inputs 0\n1\n",
        b"all",
        1,
        5,
        true,
        &[0],
    ),
    (
        "select: no input, a step has no operands",
        Method::Select,
        b"inputs 0\n1\n",
        b"all",
        1,
        7,
        true,
        NO_INPUT,
    ),
    (
        "plain: live outputs need a step",
        Method::Plain,
        b"inputs 2\n0110\n1001\n",
        b"all",
        0,
        0,
        true,
        &[0, 0],
    ),
    (
        "select: live outputs need a step",
        Method::Select,
        b"inputs 2\n0110\n1001\n",
        b"all",
        0,
        0,
        true,
        &[0, 0],
    ),
    (
        "ssv: trivial outputs need no clause",
        Method::Ssv,
        b"inputs 2\n0011\n0--1\n----\n",
        b"nand",
        0,
        0,
        true,
        &[],
    ),
    (
        "select: trivial outputs need no clause",
        Method::Select,
        b"inputs 2\n0011\n0--1\n----\n",
        b"nand",
        0,
        0,
        true,
        &[],
    ),
    (
        "ssv: the cuts of XOR come last",
        Method::Ssv,
        b"inputs 2\n0110\n",
        b"all",
        1,
        12,
        false,
        XOR_CUTS,
    ),
    (
        "ssv: the cuts of two outputs come last",
        Method::Ssv,
        b"inputs 2\n0-10\n1100\n",
        b"0010,1101",
        2,
        33,
        false,
        TWO_CUTS,
    ),
];

#[test]
fn small_formulas_have_these_clauses(rt: HostRuntime) {
    for &(name, method, tables, basis, r, vars, all, numbers) in WRITTEN {
        let formula = formula(rt.alloc(), method, tables, basis, r, 0);
        let written = ends_with(rt.alloc(), formula, vars, all, numbers);
        assert!(rt; written, "{name}");
    }
}

#[test]
fn plain_formulas_have_no_cuts(rt: HostRuntime) {
    let formula = formula(rt.alloc(), Method::Plain, b"inputs 1\n10\n", b"0001", 1, 0);
    let prefix = &NOT_BY_AND[..101];
    let written = ends_with(rt.alloc(), formula, 8, true, prefix);
    assert!(rt; written);
}
