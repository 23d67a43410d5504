//! Operators by their truth tables (words of four digits), and bases: their closure properties and
//! their texts.
use op_basis::{Basis, BasisError, Op, read_basis, read_operator, write_basis, write_operator};
use std::alloc::Global;

/// Whether an operator is written as `word`.
fn is_written(alloc: Global, op: Op, word: &[u8]) -> bool {
    let mut out = Vec::new(alloc);
    write_operator(op, &mut out).is_ok() && out.as_slice() == word
}

/// Whether an operator has the values `values` at (0,0), (0,1), (1,0), (1,1).
fn has_values(op: Op, values: [bool; 4]) -> bool {
    let [at_00, at_01, at_10, at_11] = values;
    op.apply(false, false) == at_00
        && op.apply(false, true) == at_01
        && op.apply(true, false) == at_10
        && op.apply(true, true) == at_11
}

/// Whether `word` is read as the operator `number`, which has the values `values` and is written as
/// `word`. None: the word is refused.
fn is_operator(alloc: Global, word: &[u8], number: Option<u8>, values: [bool; 4]) -> bool {
    match read_operator(word) {
        Some(op) => {
            number == Some(op.get()) && has_values(op, values) && is_written(alloc, op, word)
        }
        None => number.is_none(),
    }
}

/// Words with their operators and their values.
const OPERATORS: &[(&str, Option<u8>, [bool; 4])] = &[
    ("0001", Some(1), [false, false, false, true]),
    ("0010", Some(2), [false, false, true, false]),
    ("0110", Some(6), [false, true, true, false]),
    ("0111", Some(7), [false, true, true, true]),
    ("1000", Some(8), [true, false, false, false]),
    ("1001", Some(9), [true, false, false, true]),
    ("1100", Some(12), [true, true, false, false]),
    ("1110", Some(14), [true, true, true, false]),
    ("011", None, [false; 4]),
    ("01101", None, [false; 4]),
    ("0120", None, [false; 4]),
    ("", None, [false; 4]),
];

#[test]
fn operators_have_the_values_of_their_words(rt: HostRuntime) {
    for &(word, number, values) in OPERATORS {
        assert!(rt;
            is_operator(rt.alloc(), word.as_bytes(), number, values),
            "{word}"
        );
    }
}

/// Whether a basis is written as `text`.
fn is_text(alloc: Global, basis: Basis, text: &[u8]) -> bool {
    if basis.get() == 0 {
        return false;
    }
    let mut out = Vec::new(alloc);
    write_basis(basis, &mut out).is_ok() && out.as_slice() == text
}

/// Whether the basis that `word` names has the properties `tests` (closed under exchanged operands,
/// negation, constants, polarity and reapplication), and is written as `text`.
fn is_basis(alloc: Global, word: &[u8], tests: [bool; 5], text: &[u8]) -> bool {
    let Ok(basis) = read_basis(word) else {
        return false;
    };
    let [swap, negation, constants, polarity, reapply] = tests;
    is_text(alloc, basis, text)
        && basis.swap_closed() == swap
        && basis.has_negation() == negation
        && basis.const_closed() == constants
        && basis.polarity_closed() == polarity
        && basis.reapply_closed() == reapply
}

/// Bases by their words, their five properties, and their texts.
const BASES: &[(&str, [bool; 5], &str)] = &[
    ("all", [true; 5], "all"),
    ("u2", [true; 5], "u2"),
    ("bench", [true, true, true, false, false], "bench"),
    ("nand", [true, true, true, false, false], "nand"),
    ("0001", [true, false, true, false, true], "0001"),
    ("1001,0110", [true, false, false, true, false], "0110,1001"),
    ("0010", [false; 5], "0010"),
    (
        "0010,0001,0000",
        [false, false, false, false, true],
        "0000,0001,0010",
    ),
    ("0011", [false, false, true, false, true], "0011"),
    ("0010,1000", [false, true, true, false, false], "0010,1000"),
    ("1010", [false, true, true, false, true], "1010"),
    ("1010,0101", [false, true, true, true, true], "0101,1010"),
    ("0010,0100", [true, false, false, false, false], "0010,0100"),
    ("0110", [true, false, false, false, true], "0110"),
    ("1000", [true, true, true, false, false], "1000"),
    ("0000,1111", [true, false, true, true, true], "0000,1111"),
    ("1010,1100", [true, true, true, false, true], "1010,1100"),
    ("1110", [true, true, true, false, false], "nand"),
];

/// At least one basis for each of the fourteen combinations of the five properties that occur. An
/// independent program found these combinations among all 65535 bases.
#[test]
fn bases_have_their_five_properties(rt: HostRuntime) {
    for &(word, tests, text) in BASES {
        let well = is_basis(rt.alloc(), word.as_bytes(), tests, text.as_bytes());
        assert!(rt; well, "{word}");
    }
}

/// Texts that aren't bases, and their errors.
const REFUSALS: &[(&str, BasisError)] = &[
    ("nor", BasisError::UnknownName),
    ("All", BasisError::UnknownName),
    ("nand,0110", BasisError::UnknownName),
    ("x", BasisError::UnknownName),
    ("0110,nand", BasisError::BadOperator),
    ("011", BasisError::BadOperator),
    ("01101", BasisError::BadOperator),
    ("0120", BasisError::BadOperator),
    (" 0110", BasisError::BadOperator),
    ("0110,0110,0120", BasisError::Repeated),
    ("0110,0120,0110", BasisError::BadOperator),
    ("", BasisError::Empty),
    (",", BasisError::Empty),
    ("0110,", BasisError::Empty),
    ("0110,,0120", BasisError::Empty),
    ("0110,1001,0110,", BasisError::Repeated),
];

#[test]
fn words_that_name_no_basis_are_refused(rt: HostRuntime) {
    for &(word, refusal) in REFUSALS {
        assert!(rt;
            read_basis(word.as_bytes()).err() == Some(refusal),
            "{word}"
        );
    }
}

#[test]
fn bases_contain_their_operators(rt: HostRuntime) {
    let nand = Basis::new(16384);
    assert!(rt; nand.contains(Op::new(14)) && !nand.contains(Op::new(13)));
}
