//! The solver on formulas of increasing difficulty: its answers, the number of learnt clauses, and each log
//! fed to the checker.
use crate::building::formula;
use crate::pigeons::{pigeons, push};
use cdcl_core::{Cdcl, Solved};
use cnf_core::Cnf;
use log_core::{Log, write_log};
use lrat_check::Checker;
use lrat_text::{Line, read_line, write_line};
use sat_solve::Solver;
use std::alloc::{AllocError, Global};

/// The numbers of clauses that the lines of a log add and delete, and of lines that the checker rejects.
#[derive(Clone, Copy)]
struct Counts {
    added: u64,
    deleted: u64,
    refused: u64,
}

impl Counts {
    /// Counts a line.
    fn count(&mut self, line: &Line) {
        match line {
            Line::Add { .. } => self.added = self.added.saturating_add(1),
            Line::Delete { ids, .. } => {
                self.deleted = self.deleted.saturating_add(ids.len() as u64)
            }
        }
    }

    /// Counts a rejected line.
    fn judge(&mut self, taken: bool) {
        self.refused = self.refused.saturating_add(u64::from(!taken));
    }
}

/// Whether the checker accepts a line of a text.
fn is_fed(alloc: Global, checker: &mut Checker, text: &[u8]) -> bool {
    let Some((_, body)) = text.split_last() else {
        return false;
    };
    let Ok(line) = read_line(alloc, body) else {
        return false;
    };
    checker.feed(line).is_ok()
}

/// Whether the checker accepts a line after it is written and read again.
fn is_taken(alloc: Global, checker: &mut Checker, line: &Line) -> Result<bool, AllocError> {
    let mut text = Vec::new(alloc);
    write_line(line, &mut text)?;
    Ok(is_fed(alloc, checker, &text))
}

/// Feeds the lines of a log to the checker, and counts them.
fn count_lines(alloc: Global, checker: &mut Checker, log: &Log) -> Result<Counts, AllocError> {
    let mut counts = Counts {
        added: 0,
        deleted: 0,
        refused: 0,
    };
    let mut left = log.lines();
    'lines: while let Some(line) = left.next(alloc)? {
        let taken = is_taken(alloc, checker, &line);
        counts.count(&line);
        drop(line);
        counts.judge(taken?);
    }
    Ok(counts)
}

/// The expected answer to a pigeonhole formula.
#[derive(Clone, Copy)]
struct ExpectedPigeons {
    holes: u32,
    budget: u32,
    /// None: either answer is right
    refuted: Option<bool>,
    /// None: any number of learnt clauses is right
    added: Option<u64>,
}

/// An expected answer.
#[derive(Clone, Copy)]
enum Expected {
    /// These bits satisfy the formula.
    Bits(&'static [bool]),
    /// A log refutes it, with this number of lines, if given.
    Refuted(Option<usize>),
    /// The formula is undecided, and the log has one line, which begins like this.
    Learnt(&'static [u8]),
    Pigeons(ExpectedPigeons),
}

/// Whether these bits are the answer.
fn has_bits(solved: &Solved, bits: &[bool]) -> bool {
    match solved {
        Solved::Sat(assign) => assign.bits() == bits,
        _ => false,
    }
}

/// Whether the answer is a log that refutes the formula, with `lines` lines if given.
fn is_refuted(
    alloc: Global,
    checker: &mut Checker,
    solved: &Solved,
    lines: Option<usize>,
) -> Result<bool, AllocError> {
    let Solved::Unsat(log) = solved else {
        return Ok(false);
    };
    let counts = count_lines(alloc, checker, log)?;
    let long = match lines {
        Some(lines) => log.len() == lines,
        None => true,
    };
    Ok(long && counts.refused == 0 && checker.refuted())
}

/// Whether the formula is undecided, with a log of one line, which begins like this.
fn is_learnt(alloc: Global, solved: &Solved, begin: &[u8]) -> Result<bool, AllocError> {
    let Solved::Open(log) = solved else {
        return Ok(false);
    };
    let mut text = Vec::new(alloc);
    write_log(log, &mut text)?;
    Ok(log.len() == 1 && text.starts_with(begin))
}

/// Whether the log of a pigeonhole formula with these counts keeps half of its additions live if the formula
/// is undecided, and no more live additions than a log may have at its end.
fn is_thrifty(counts: Counts, holes: u32, refuted: bool) -> bool {
    let live = counts.added.saturating_sub(counts.deleted);
    let vars = u64::from(holes).saturating_mul(u64::from(holes).saturating_add(1));
    let most = counts.added.saturating_mul(3);
    (refuted || live >= counts.deleted)
        && live.saturating_mul(4)
            <= most
                .saturating_add(vars.saturating_mul(4))
                .saturating_add(8000)
}

/// Whether the counts of a log are as expected of a pigeonhole formula.
fn fits(counts: Counts, refuted: bool, expected: ExpectedPigeons) -> bool {
    let end = match expected.refuted {
        Some(end) => end == refuted,
        None => true,
    };
    let added = match expected.added {
        Some(added) => counts.added == added,
        None => true,
    };
    let enough = refuted || counts.added >= u64::from(expected.budget);
    end && added && enough && counts.refused == 0 && is_thrifty(counts, expected.holes, refuted)
}

/// Whether the log of a pigeonhole formula is as expected.
fn is_right(
    alloc: Global,
    checker: &mut Checker,
    log: &Log,
    refuted: bool,
    expected: ExpectedPigeons,
) -> Result<bool, AllocError> {
    let counts = count_lines(alloc, checker, log)?;
    Ok(checker.refuted() == refuted && fits(counts, refuted, expected))
}

/// Whether the answer to a pigeonhole formula is as expected.
fn is_expected_pigeons(
    alloc: Global,
    checker: &mut Checker,
    solved: &Solved,
    expected: ExpectedPigeons,
) -> Result<bool, AllocError> {
    match solved {
        Solved::Sat(_) => Ok(false),
        Solved::Unsat(log) => is_right(alloc, checker, log, true, expected),
        Solved::Open(log) => is_right(alloc, checker, log, false, expected),
    }
}

/// Whether an answer is as expected, and this checker accepts its log.
fn is_expected(
    alloc: Global,
    checker: &mut Checker,
    solved: &Solved,
    expected: &Expected,
) -> Result<bool, AllocError> {
    match expected {
        Expected::Bits(bits) => Ok(has_bits(solved, bits)),
        Expected::Refuted(lines) => is_refuted(alloc, checker, solved, *lines),
        Expected::Learnt(begin) => is_learnt(alloc, solved, begin),
        Expected::Pigeons(pigeons) => is_expected_pigeons(alloc, checker, solved, *pigeons),
    }
}

/// Whether an answer is as expected, and a checker for the formula accepts its log.
fn is_checked(
    alloc: Global,
    cnf: Cnf,
    solved: &Solved,
    expected: &Expected,
) -> Result<bool, AllocError> {
    let mut checker = Checker::new(alloc, cnf)?;
    let well = is_expected(alloc, &mut checker, solved, expected);
    drop(checker);
    well
}

/// The answer within a budget of 1 to 1000000; other budgets count as 1.
fn answer(alloc: Global, cnf: &Cnf, budget: u32) -> Result<Solved, AllocError> {
    if budget == 0 || budget > 1000000 {
        return Cdcl::solve(alloc, cnf, 1);
    }
    Cdcl::solve(alloc, cnf, budget)
}

/// Whether a formula has the expected answer within a budget.
fn is_answered(
    alloc: Global,
    cnf: Cnf,
    budget: u32,
    expected: &Expected,
) -> Result<bool, AllocError> {
    let Ok(solved) = answer(alloc, &cnf, budget) else {
        drop(cnf);
        return Err(AllocError);
    };
    let well = is_checked(alloc, cnf, &solved, expected);
    drop(solved);
    well
}

/// The variables 1 and 2, and all four clauses over both.
const CONTRADICTION: &[&[u8]] = &[b"1 1 2 0 0", b"2 -1 2 0 0", b"3 1 -2 0 0", b"4 -1 -2 0 0"];

/// The encoding of one conjunction step that negates its input. It is unsatisfiable.
const NEGATION: &[&[u8]] = &[
    b"1 3 0 0",
    b"1 -3 1 0 0",
    b"1 -3 -2 0 0",
    b"1 8 0 0",
    b"1 -8 1 -4 0 0",
    b"1 -8 -1 4 0 0",
    b"1 -8 2 -7 0 0",
    b"1 -8 -2 7 0 0",
    b"1 4 5 6 7 0 0",
    b"1 4 5 -6 7 0 0",
    b"1 4 5 -6 -7 0 0",
    b"1 4 -5 6 7 0 0",
    b"1 4 -5 6 -7 0 0",
    b"1 4 -5 -6 7 0 0",
    b"1 4 -5 -6 -7 0 0",
    b"1 -4 5 6 7 0 0",
    b"1 -4 5 6 -7 0 0",
    b"1 -4 5 -6 7 0 0",
    b"1 -4 5 -6 -7 0 0",
    b"1 -4 -5 6 7 0 0",
    b"1 -4 -5 6 -7 0 0",
    b"1 -4 -5 -6 7 0 0",
    b"1 -4 -5 -6 -7 0 0",
];

/// The conflict after the decisions 1 and 5 resolves to -3, -2 and -1, of which -1 makes -2 redundant.
const IMPLIED: &[&[u8]] = &[
    b"1 -1 2 0 0",
    b"2 -5 3 0 0",
    b"3 -1 -2 -3 4 0 0",
    b"4 -3 -4 0 0",
];

/// The same, and 3 implies 1, so -1 is removed too.
const SHORTENED: &[&[u8]] = &[
    b"1 -1 2 0 0",
    b"2 -5 3 0 0",
    b"3 -1 -2 -3 4 0 0",
    b"4 -3 -4 0 0",
    b"5 -3 1 0 0",
];

/// The same with 2 added to the last clause, so -1 stays.
const NOT_SHORTENED: &[&[u8]] = &[
    b"1 -1 2 0 0",
    b"2 -5 3 0 0",
    b"3 -1 -2 -3 4 0 0",
    b"4 -3 -4 0 0",
    b"5 -3 1 2 0 0",
];

/// Formulas, each with its name, its number of variables, its clauses, and its answer within a budget of one.
const FORMULAS: &[(&str, u32, &[&[u8]], Expected)] = &[
    (
        "satisfied",
        2,
        &[b"1 1 2 0 0", b"2 -1 0 0"],
        Expected::Bits(&[false, true]),
    ),
    ("no variable", 0, &[], Expected::Bits(&[])),
    ("no clause", 2, &[], Expected::Bits(&[true, true])),
    (
        "a variable in no clause",
        3,
        &[b"1 1 0 0", b"2 3 0 0"],
        Expected::Bits(&[true, true, true]),
    ),
    (
        "contradiction",
        2,
        CONTRADICTION,
        Expected::Refuted(Some(2)),
    ),
    ("negation", 8, NEGATION, Expected::Refuted(None)),
    (
        "units that conflict",
        1,
        &[b"1 1 0 0", b"2 -1 0 0"],
        Expected::Refuted(Some(1)),
    ),
    (
        "the empty clause",
        2,
        &[b"1 1 2 0 0", b"2 0 0"],
        Expected::Refuted(Some(0)),
    ),
    (
        "the empty clause alone",
        0,
        &[b"1 0 0"],
        Expected::Refuted(Some(0)),
    ),
    ("implied", 5, IMPLIED, Expected::Learnt(b"5 -3 -1 0 ")),
    ("shortened", 5, SHORTENED, Expected::Learnt(b"6 -3 0 5 ")),
    (
        "not shortened",
        5,
        NOT_SHORTENED,
        Expected::Learnt(b"6 -3 -1 0 "),
    ),
];

/// Whether these clauses have the expected answer within a budget of one.
fn are_answered(
    alloc: Global,
    vars: u32,
    clauses: &[&[u8]],
    expected: &Expected,
) -> Result<bool, AllocError> {
    is_answered(alloc, formula(alloc, vars, clauses)?, 1, expected)
}

#[test]
fn small_formulas_are_answered_within_one_conflict(rt: HostRuntime) {
    for (name, vars, clauses, expected) in FORMULAS {
        let answered = are_answered(rt.alloc(), *vars, clauses, expected);
        assert!(rt; matches!(answered, Ok(true)), "{name}");
    }
}

/// Whether a pigeonhole formula has the expected answer.
fn are_expected_pigeons(alloc: Global, expected: ExpectedPigeons) -> Result<bool, AllocError> {
    let cnf = pigeons(alloc, expected.holes)?;
    is_answered(alloc, cnf, expected.budget, &Expected::Pigeons(expected))
}

/// Pigeonhole formulas: the number of holes, the budget, whether it is enough, and the number of additions.
///
/// If a number of additions is given, an independent program that takes the same steps makes as many: this
/// tests scores, phases, restarts and the order of watched literals, about which no contract says anything.
const PIGEONS: &[(&str, u32, u32, bool, Option<u64>)] = &[
    ("three holes, budget 1", 3, 1, false, None),
    ("three holes", 3, 1000000, true, None),
    ("four holes, budget 3", 4, 3, false, None),
    ("four holes", 4, 1000000, true, Some(33)),
    ("five holes", 5, 1000000, true, None),
    ("six holes", 6, 1000000, true, Some(391)),
];

#[test]
fn pigeonhole_formulas_are_refuted_or_use_up_the_budget(rt: HostRuntime) {
    for &(name, holes, budget, refuted, added) in PIGEONS {
        let expected = ExpectedPigeons {
            holes,
            budget,
            refuted: Some(refuted),
            added,
        };
        let reported = are_expected_pigeons(rt.alloc(), expected);
        assert!(rt; matches!(reported, Ok(true)), "{name}");
    }
}

#[test]
fn the_log_of_ten_pigeons_is_accepted(rt: HostRuntime) {
    // refuted or not
    let expected = ExpectedPigeons {
        holes: 9,
        budget: 20000,
        refuted: None,
        added: None,
    };
    assert!(rt; matches!(are_expected_pigeons(rt.alloc(), expected), Ok(true)));
}

/// Adds the clauses that the first of some variables is true, that each variable implies the next one, and
/// that the last one is false; the implications in reverse order.
fn push_row(alloc: Global, cnf: &mut Cnf, vars: u32) -> Result<(), AllocError> {
    for left in 1..vars {
        let from = i64::from(vars - left);
        push(alloc, cnf, &[-from, from + 1])?;
    }
    push(alloc, cnf, &[1])?;
    push(alloc, cnf, &[-i64::from(vars)])
}

/// Whether a chain of 4000 variables, each implying the next one, from a true to a false one, is refuted by a
/// log of one line.
fn is_followed(alloc: Global) -> Result<bool, AllocError> {
    let mut cnf = Cnf::new(alloc, 4000);
    push_row(alloc, &mut cnf, 4000)?;
    is_answered(alloc, cnf, 1, &Expected::Refuted(Some(1)))
}

#[test]
fn a_chain_of_4000_implications_is_refuted_by_one_line(rt: HostRuntime) {
    assert!(rt; matches!(is_followed(rt.alloc()), Ok(true)));
}
