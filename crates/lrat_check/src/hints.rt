//! Unit propagation along the hints, from the left. The falsified literals are marked, and a hint is checked by
//! how many literals of its clause aren't. The loop follows the definition `hints_fault` step by step, so its
//! result is exact.
ghost use Rattle.std.specs.Prelude.{◌≡◌, length};
ghost use Rattle.lrat_check.specs.Live.{live_at};
ghost use Rattle.lrat_check.specs.LiteralMarks.{marked, HaveStamps};
ghost use Rattle.lrat_check.specs.Hints.{outside, hints_fault, error_in};
ghost use Rattle.lrat_check.specs.Scan.{Finds};

use crate::CheckError;
use crate::clauses::Clauses;
use crate::marks::LiteralMarks;
use cnf_core::Lit;

/// How many literals of a clause aren't falsified.
#[derive(Clone, Copy)]
pub(crate) enum Scan {
    /// None.
    Conflict,
    /// Only this one.
    Unit(Lit),
    /// Two or more.
    Many,
}

/// Counts the literals of a clause that aren't marked.
fn scan_clause(marks: &LiteralMarks, clause: &[Lit]) -> Scan
    ensures { Finds clause.now (outside (marked marks.now) clause.now) result }
{
    let mut found: Option<Lit> = None;
    for lit in clause {
        if marks.has(*lit) {
            continue;
        }
        if found.is_some() {
            return Scan::Many;
        }
        found = Some(*lit);
    }
    match found {
        None => Scan::Conflict,
        Some(lit) => Scan::Unit(lit),
    }
}

/// Propagates along `hints` from the set of the marked literals, and marks the literals that join it.
#[tactic(auto, unfolding(crate::specs::Hints::hints_fault))]
pub(crate) fn check_hints(
    clauses: &Clauses,
    marks: &mut LiteralMarks,
    hints: &[u32],
) -> Result<(), CheckError>
    requires { HaveStamps marks.old (live_at clauses.now) }
    ensures exact { error_in result ≡ hints_fault (live_at clauses.now) (marked marks.old) hints.now }
    ensures room { length marks.new.stamps ≡ length marks.old.stamps }
{
    let mut left = hints;
    while let Some((hint, after)) = left.split_first() {
        let Some(clause) = clauses.get(*hint) else {
            return Err(CheckError::UnknownId(*hint));
        };
        match scan_clause(marks, clause.lits()) {
            Scan::Many => return Err(CheckError::NotUnit(*hint)),
            Scan::Conflict => {
                if after.is_empty() {
                    return Ok(());
                }
                return Err(CheckError::NotUnit(*hint));
            }
            Scan::Unit(lit) => marks.add(lit.opposite()),
        }
        left = after;
    }
    Err(CheckError::NoConflict)
}
