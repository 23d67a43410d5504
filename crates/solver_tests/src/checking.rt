//! Tests of the checker: which lines it accepts, and which fault it reports.
use crate::building::{clause, formula};
use lrat_check::{CheckError, Checker};
use lrat_text::read_line;
use std::alloc::{AllocError, Global};

/// A checker of some clauses, with or without an occurrence index.
fn checker(
    alloc: Global,
    indexed: bool,
    vars: u32,
    clauses: &[&[u8]],
) -> Result<Checker, AllocError> {
    let cnf = formula(alloc, vars, clauses)?;
    if indexed {
        Checker::indexed(alloc, cnf)
    } else {
        Checker::new(alloc, cnf)
    }
}

/// The variables 1 and 2, and all four clauses over both.
const CONTRADICTION: [&[u8]; 4] = [b"1 1 2 0 0", b"2 -1 2 0 0", b"3 1 -2 0 0", b"4 -1 -2 0 0"];

/// Whether a checker of the contradiction returns `expected` for its first line.
fn is_answer_of(
    alloc: Global,
    indexed: bool,
    text: &[u8],
    expected: Result<(), CheckError>,
) -> Result<bool, AllocError> {
    let mut checker = checker(alloc, indexed, 2, &CONTRADICTION)?;
    match read_line(alloc, text) {
        Ok(line) => Ok(checker.feed(line) == expected),
        Err(_) => Ok(false),
    }
}

/// As `is_answer_of`, with an index and without one.
fn is_answer(
    alloc: Global,
    text: &[u8],
    expected: Result<(), CheckError>,
) -> Result<bool, AllocError> {
    Ok(is_answer_of(alloc, false, text, expected)? && is_answer_of(alloc, true, text, expected)?)
}

/// Lines that the checker of the contradiction accepts.
const HOLDING: &[&str] = &[
    "5 2 0 1 2 0",
    "5 2 0 2 1 0",
    "5 -2 0 3 4 0",
    "5 2 1 0 1 0",
    "4294967295 2 0 1 2 0",
    "5 d 1 0",
    "1 d 4 2 1 3 0",
    "1 d 0",
];

#[test]
fn lines_that_hold_are_accepted(rt: HostRuntime) -> Result<(), AllocError> {
    for &text in HOLDING {
        let holds = is_answer(rt.alloc(), text.as_bytes(), Ok(()))?;
        assert!(rt; holds, "{text}");
    }
    Ok(())
}

/// Lines that it refuses, and why.
const FAULTS: &[(&str, CheckError)] = &[
    ("5 2 0 2 0", CheckError::NoConflict),
    ("5 2 0 3 4 0", CheckError::NotUnit(3)),
    ("5 2 0 9 0", CheckError::UnknownId(9)),
    ("4 2 0 1 2 0", CheckError::IdNotGreater(4)),
    ("5 3 0 1 2 0", CheckError::UnknownVariable(3)),
    ("5 d 7 0", CheckError::UnknownDelete(7)),
    ("5 d 1 1 0", CheckError::UnknownDelete(1)),
    // no hint, one too many, a repeated one, and the line's own id
    ("5 2 0 0", CheckError::NoConflict),
    ("5 0 0", CheckError::NoConflict),
    ("5 2 0 1 2 3 0", CheckError::NotUnit(2)),
    ("5 2 0 1 1 0", CheckError::NoConflict),
    ("5 2 0 5 0", CheckError::UnknownId(5)),
    ("5 2 0 4294967295 0", CheckError::UnknownId(4294967295)),
    ("5 0 1 2 0", CheckError::NotUnit(1)),
    (
        "5 2147483647 0 1 0",
        CheckError::UnknownVariable(2147483647),
    ),
    // the first of several
    ("4 3 0 9 0", CheckError::IdNotGreater(4)),
    ("5 -7 3 0 9 0", CheckError::UnknownVariable(7)),
    ("5 2 0 1 9 0", CheckError::UnknownId(9)),
    ("5 d 4 9 4 0", CheckError::UnknownDelete(9)),
];

#[test]
fn the_first_fault_of_a_line_is_reported(rt: HostRuntime) -> Result<(), AllocError> {
    for &(text, fault) in FAULTS {
        let reported = is_answer(rt.alloc(), text.as_bytes(), Err(fault))?;
        assert!(rt; reported, "{text}");
    }
    Ok(())
}

/// Whether a checker of the contradiction returns the expected result for each line of a log, and is refuted after
/// exactly the lines that are marked so.
fn is_log(
    alloc: Global,
    indexed: bool,
    lines: &[(&[u8], Result<(), CheckError>, bool)],
) -> Result<bool, AllocError> {
    let mut checker = checker(alloc, indexed, 2, &CONTRADICTION)?;
    for &(text, answer, refuted) in lines {
        let Ok(line) = read_line(alloc, text) else {
            return Ok(false);
        };
        if checker.feed(line) != answer || checker.refuted() != refuted {
            return Ok(false);
        }
    }
    Ok(true)
}

/// The formula is refuted, and the log goes on after that.
const REFUTATION: [(&[u8], Result<(), CheckError>, bool); 8] = [
    (b"5 2 0 1 2 0", Ok(()), false),
    (b"5 1 0 1 3 0", Err(CheckError::IdNotGreater(5)), false),
    (b"6 0 5 3 0", Err(CheckError::NoConflict), false),
    (b"6 0 5 3 4 0", Ok(()), true),
    (b"7 0 6 0", Ok(()), true),
    (b"8 d 5 6 0", Ok(()), true),
    (b"8 1 0 5 3 0", Err(CheckError::UnknownId(5)), true),
    (b"8 0 7 0", Ok(()), true),
];

/// A deleted clause can't be a hint, and can't be deleted again.
const DELETION: [(&[u8], Result<(), CheckError>, bool); 5] = [
    (b"5 d 1 0", Ok(()), false),
    (b"5 2 0 1 2 0", Err(CheckError::UnknownId(1)), false),
    (b"5 d 1 0", Err(CheckError::UnknownDelete(1)), false),
    (b"5 d 2 1 0", Err(CheckError::UnknownDelete(1)), false),
    (b"5 -2 0 3 4 0", Ok(()), false),
];

#[test]
fn logs_continue_after_refusals_and_refutations(rt: HostRuntime) -> Result<(), AllocError> {
    for (name, indexed, lines) in [
        ("a refutation", false, REFUTATION.as_slice()),
        ("a refutation, indexed", true, REFUTATION.as_slice()),
        ("deletions", false, DELETION.as_slice()),
        ("deletions, indexed", true, DELETION.as_slice()),
    ] {
        let well = is_log(rt.alloc(), indexed, lines)?;
        assert!(rt; well, "{name}");
    }
    Ok(())
}

/// Whether a checker of some clauses is refuted at once; if it isn't, the empty clause is unsubsumed.
fn is_refuted(
    alloc: Global,
    indexed: bool,
    vars: u32,
    clauses: &[&[u8]],
) -> Result<bool, AllocError> {
    let checker = checker(alloc, indexed, vars, clauses)?;
    Ok(checker.refuted() && !checker.is_unsubsumed(&[]))
}

#[test]
fn a_formula_with_the_empty_clause_is_refuted(rt: HostRuntime) -> Result<(), AllocError> {
    for (name, indexed, clauses, refuted) in [
        (
            "the empty clause",
            false,
            [b"1 1 0 0" as &[u8], b"2 0 0"].as_slice(),
            true,
        ),
        (
            "the empty clause, indexed",
            true,
            [b"1 1 0 0" as &[u8], b"2 0 0"].as_slice(),
            true,
        ),
        ("no clause", false, [].as_slice(), false),
        (
            "a unit clause, indexed",
            true,
            [b"1 1 0 0" as &[u8]].as_slice(),
            false,
        ),
    ] {
        let reported = is_refuted(rt.alloc(), indexed, 2, clauses)?;
        assert!(rt; reported == refuted, "{name}");
    }
    Ok(())
}

/// The first row that isn't so: whether its clause is unsubsumed in a checker; empty if all are so.
fn first_wrong(
    alloc: Global,
    checker: &Checker,
    rows: &[(&'static str, &[u8], bool)],
) -> &'static str {
    for &(name, text, new) in rows {
        if checker.is_unsubsumed(clause(alloc, text).lits()) != new {
            return name;
        }
    }
    ""
}

/// Clauses, and whether they are unsubsumed by `1 2` and `-1 3`.
const NEW: [(&str, &[u8], bool); 8] = [
    ("a clause", b"1 1 2 0 0", false),
    ("a clause and a literal", b"1 2 1 3 0 0", false),
    ("a clause in another order", b"1 3 -1 0 0", false),
    ("literals of both", b"1 1 3 0 0", true),
    ("a complement", b"1 -1 2 0 0", true),
    ("a part of a clause", b"1 1 0 0", true),
    ("the resolvent", b"1 2 3 0 0", true),
    ("the empty clause", b"1 0 0", true),
];

/// The same after `2 3` was added.
const NO_LONGER_NEW: [(&str, &[u8], bool); 3] = [
    ("the added clause", b"1 2 3 0 0", false),
    ("the added clause and a literal", b"1 3 2 -1 0 0", false),
    ("literals of both, after the addition", b"1 1 3 0 0", true),
];

/// The same after both it and `1 2` were deleted.
const NEW_AGAIN: [(&str, &[u8], bool); 3] = [
    ("the deleted clause", b"1 2 3 0 0", true),
    ("both deleted clauses", b"1 1 2 3 0 0", true),
    ("the clause that is left", b"1 3 2 -1 0 0", false),
];

/// Feeds a line to a checker. Returns the first row that isn't so then; empty if all are so.
fn wrong_after(
    alloc: Global,
    checker: &mut Checker,
    line: &[u8],
    rows: &[(&'static str, &[u8], bool)],
) -> &'static str {
    let Ok(line) = read_line(alloc, line) else {
        return "a line that can't be read";
    };
    if checker.feed(line).is_err() {
        return "a line that isn't accepted";
    }
    first_wrong(alloc, checker, rows)
}

/// The first row that isn't so, where clauses are unsubsumed, then subsumed, and then unsubsumed again.
fn wrongly_new(alloc: Global, indexed: bool) -> Result<&'static str, AllocError> {
    let mut checker = checker(alloc, indexed, 3, &[b"1 1 2 0 0", b"2 -1 3 0 0"])?;
    let first = first_wrong(alloc, &checker, &NEW);
    if !first.is_empty() {
        return Ok(first);
    }
    let added = wrong_after(alloc, &mut checker, b"3 2 3 0 1 2 0", &NO_LONGER_NEW);
    if !added.is_empty() {
        return Ok(added);
    }
    Ok(wrong_after(alloc, &mut checker, b"3 d 1 3 0", &NEW_AGAIN))
}

#[test]
fn clauses_are_unsubsumed_until_added_and_after_deletion(
    rt: HostRuntime,
) -> Result<(), AllocError> {
    for (name, indexed) in [("without an index", false), ("with an index", true)] {
        let wrong = wrongly_new(rt.alloc(), indexed)?;
        assert!(rt; wrong.is_empty(), "{name}: {wrong}");
    }
    Ok(())
}
