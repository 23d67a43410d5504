//! Counts the additions of a log whose clause is new, with a checker that keeps lists of clauses by literals.
use crate::check::{Fault, formula};
use lrat_check::Checker;
use lrat_text::{Line, read_line};
use std::alloc::Global;
use text_core::next_line;

/// The number of additions of a log, and of those with a new clause.
#[derive(Clone, Copy)]
pub struct Counted {
    /// The additions with a new clause.
    pub new: u64,
    /// All additions.
    pub additions: u64,
}

impl Counted {
    /// Counts one more addition.
    fn count(&mut self, is_unsubsumed: bool) {
        self.additions = self.additions.saturating_add(1);
        self.new = self.new.saturating_add(u64::from(is_unsubsumed));
    }
}

/// Feeds one line, which must hold, and counts it if it is an addition.
fn feed_line(
    alloc: Global,
    checker: &mut Checker,
    counted: &mut Counted,
    text: &[u8],
) -> Result<(), Fault> {
    let line = read_line(alloc, text)?;
    if let Line::Add { lits, .. } = &line {
        counted.count(checker.is_unsubsumed(lits));
    }
    Ok(checker.feed(line)?)
}

/// Counts the additions of a log; each of its lines must hold.
fn count_log(alloc: Global, checker: &mut Checker, log: &[u8]) -> Result<Counted, Fault> {
    let mut counted = Counted {
        new: 0,
        additions: 0,
    };
    let mut left = log;
    while let Some((line, _, rest)) = next_line(left) {
        feed_line(alloc, checker, &mut counted, line)?;
        left = rest;
    }
    Ok(counted)
}

/// Counts the additions of the log after a formula; each of its lines must hold.
pub fn count_new(alloc: Global, text: &[u8]) -> Result<Counted, Fault> {
    let (cnf, log) = formula(alloc, text)?;
    let mut checker = Checker::indexed(alloc, cnf)?;
    count_log(alloc, &mut checker, log)
}
