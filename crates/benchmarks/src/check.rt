//! Checks a refutation log. The inputs are written by `bench/make_log.py`.
ghost use Rattle.std.specs.Prelude.{◌<◌, IfSome};

use cnf_core::{Clause, Cnf};
use lrat_check::{CheckError, Checker};
use lrat_text::{Line, LineError, read_line};
use std::alloc::{AllocError, Global};
use text_core::{after, next_item, next_line, number_up_to};

/// Why a log wasn't checked to its end.
#[derive(Clone, Copy, Debug)]
pub enum Fault {
    /// The formula is malformed.
    Formula,
    /// A line can't be parsed.
    Unread(LineError),
    /// A line is refused.
    Refused(CheckError),
    /// Out of memory.
    Memory,
}

impl From<AllocError> for Fault {
    fn from(_error: AllocError) -> Fault {
        Fault::Memory
    }
}

impl From<LineError> for Fault {
    fn from(error: LineError) -> Fault {
        Fault::Unread(error)
    }
}

impl From<CheckError> for Fault {
    fn from(error: CheckError) -> Fault {
        Fault::Refused(error)
    }
}

/// The numbers of the line `formula VARS CLAUSES`.
fn header(text: &[u8]) -> Option<(u32, u32)>
    ensures { IfSome result (λ x. (x.0 < 1000000000) × (x.1 < 1000000000)) }
{
    let (vars, rest) = next_item(after(b"formula ", text)?);
    let (clauses, end) = next_item(rest?);
    if end.is_some() {
        return None;
    }
    Some((count_in(vars)?, count_in(clauses)?))
}

/// A number of at most nine digits.
fn count_in(text: &[u8]) -> Option<u32>
    ensures { IfSome result (λ n. n < 1000000000) }
{
    number_up_to(999_999_999, text)
}

/// Adds a clause, which is written as an addition without hints.
fn add(alloc: Global, cnf: &mut Cnf, text: &[u8]) -> Result<(), Fault> {
    let Line::Add { lits, .. } = read_line(alloc, text)? else {
        return Err(Fault::Formula);
    };
    let clause = Clause::new(lits);
    if !clause.is_within(cnf.vars()) || cnf.clauses().len() >= 1_000_000_000 {
        return Err(Fault::Formula);
    }
    cnf.push(clause)?;
    Ok(())
}

/// The formula at the beginning of a text, and the rest of the text.
pub fn formula(alloc: Global, text: &[u8]) -> Result<(Cnf, &[u8]), Fault> {
    let Some((first, _, rest)) = next_line(text) else {
        return Err(Fault::Formula);
    };
    let Some((vars, clauses)) = header(first) else {
        return Err(Fault::Formula);
    };
    let mut cnf = Cnf::new(alloc, vars);
    let mut left = rest;
    for _ in 0..clauses {
        let Some((line, _, rest)) = next_line(left) else {
            return Err(Fault::Formula);
        };
        add(alloc, &mut cnf, line)?;
        left = rest;
    }
    Ok((cnf, left))
}

/// Feeds the lines of a log to the checker; each line must hold.
fn feed_all(alloc: Global, checker: &mut Checker, log: &[u8]) -> Result<(), Fault> {
    let mut left = log;
    while let Some((line, _, rest)) = next_line(left) {
        checker.feed(read_line(alloc, line)?)?;
        left = rest;
    }
    Ok(())
}

/// Whether the log after a formula refutes it; each of its lines must hold.
pub fn check(alloc: Global, text: &[u8]) -> Result<bool, Fault> {
    let (cnf, log) = formula(alloc, text)?;
    let mut checker = Checker::new(alloc, cnf)?;
    feed_all(alloc, &mut checker, log)?;
    Ok(checker.refuted())
}
