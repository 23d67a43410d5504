//! The log of one subproblem, line by line.
use cert_file::{LogEnd, SubproblemError, SubproblemReader, SubproblemStep};
use cnf_core::{Clause, Cnf};
use lrat_check::CheckError;
use lrat_text::{Line, read_line};
use std::alloc::{AllocError, Global};

/// The clauses 1: `1 2`, 2: `-1 2` and 3: `-2`, as lines that add them.
const CLAUSES: &[&[u8]] = &[b"1 1 2 0 0", b"2 -1 2 0 0", b"3 -2 0 0"];

/// Adds the clause of a line, if it has one within the variables.
fn push(alloc: Global, cnf: &mut Cnf, line: &[u8]) -> Result<(), AllocError> {
    let Ok(Line::Add { lits, .. }) = read_line(alloc, line) else {
        return Ok(());
    };
    let clause = Clause::new(lits);
    if clause.is_within(cnf.vars()) && cnf.clauses().len() < 9 {
        cnf.push(clause)?;
    }
    Ok(())
}

/// The formula of the clauses.
fn formula(alloc: Global) -> Result<Cnf, AllocError> {
    let mut cnf = Cnf::new(alloc, 2);
    for line in CLAUSES {
        push(alloc, &mut cnf, line)?;
    }
    Ok(cnf)
}

/// A reader of a log over the clauses.
fn reader(alloc: Global, conflicts: u32, end: LogEnd) -> Result<SubproblemReader, AllocError> {
    SubproblemReader::new(alloc, formula(alloc)?, conflicts, end)
}

/// Whether a log continues.
fn is_more(step: &SubproblemStep) -> bool {
    match step {
        SubproblemStep::More(_) => true,
        SubproblemStep::Done => false,
    }
}

/// Whether the log continues after the second of two lines.
fn second(
    alloc: Global,
    reader: SubproblemReader,
    first: &[u8],
    line: &[u8],
) -> Result<bool, SubproblemError> {
    match reader.feed(alloc, first, true)? {
        SubproblemStep::More(reader) => Ok(is_more(&reader.feed(alloc, line, true)?)),
        SubproblemStep::Done => Err(SubproblemError::Syntax),
    }
}

/// How a log ends, how many additions an open one needs, two lines, and whether the log continues after them.
const LOGS: &[(
    &str,
    LogEnd,
    u32,
    &[u8],
    &[u8],
    Result<bool, SubproblemError>,
)] = &[
    (
        "refuted",
        LogEnd::Refuted,
        9,
        b"4 0 3 1 2 0",
        b"done",
        Ok(false),
    ),
    (
        "refuted without the empty clause",
        LogEnd::Refuted,
        9,
        b"4 2 0 1 2 0",
        b"done",
        Err(SubproblemError::NotRefuted),
    ),
    (
        "open with enough additions",
        LogEnd::Open,
        1,
        b"4 2 0 1 2 0",
        b"done",
        Ok(false),
    ),
    (
        "open with too few additions",
        LogEnd::Open,
        2,
        b"4 2 0 1 2 0",
        b"done",
        Err(SubproblemError::TooShort),
    ),
    (
        "open with the empty clause",
        LogEnd::Open,
        1,
        b"4 0 3 1 2 0",
        b"done",
        Err(SubproblemError::EmptyClauseDerived),
    ),
    (
        "open with a clause that isn't new",
        LogEnd::Open,
        1,
        b"4 2 0 1 2 0",
        b"5 2 0 4 0",
        Err(SubproblemError::NotNew),
    ),
    (
        "refuted, with one line more",
        LogEnd::Refuted,
        1,
        b"4 2 0 1 2 0",
        b"5 2 0 4 0",
        Ok(true),
    ),
    (
        "refuted, with a line that doesn't hold",
        LogEnd::Refuted,
        1,
        b"4 2 0 1 2 0",
        b"5 0 9 0",
        Err(SubproblemError::StepRefused(CheckError::UnknownId(9))),
    ),
    (
        "refuted, with a line that isn't one of a log",
        LogEnd::Refuted,
        1,
        b"4 2 0 1 2 0",
        b"refuted",
        Err(SubproblemError::Syntax),
    ),
];

/// Whether a log of two lines has this answer.
fn is_read(
    alloc: Global,
    end: LogEnd,
    conflicts: u32,
    first: &[u8],
    line: &[u8],
    answer: Result<bool, SubproblemError>,
) -> bool {
    let Ok(reader) = reader(alloc, conflicts, end) else {
        return false;
    };
    let ended = reader.ended();
    second(alloc, reader, first, line) == answer && ended == end
}

#[test]
fn logs_of_subproblems_are_accepted_or_refused_by_line(rt: HostRuntime) {
    for &(name, end, conflicts, first, line, answer) in LOGS {
        assert!(rt;
            is_read(rt.alloc(), end, conflicts, first, line, answer),
            "{name}"
        );
    }
}
