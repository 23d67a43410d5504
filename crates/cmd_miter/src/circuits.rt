//! The miter of two circuits, and the log of their comparison, which rest on `equiv` of `equiv_core`.
ghost use Rattle.std.specs.Prelude.{◌≡◌, ◌≤◌, [], IfOk, IfErr};
ghost use Rattle.sat_theory.specs.Limits.{most_conflicts};
ghost use Rattle.net_theory.specs.Circuit.{IsProper};
ghost use Rattle.equiv_theory.specs.Miter.{miter as miter_of};
ghost use Rattle.equiv_theory.specs.Counterexample.{HaveSameInterface};
ghost use Rattle.equiv_core.specs.Limits.{IsSmall};
ghost use Rattle.equiv_run.specs.CircuitAnswers.{IsOther};
ghost use Rattle.cmd_formula.specs.Dimacs.{dimacs_text, lrat_text, plain_log};
ghost use Rattle.cmd_formula.specs.PlainLogs.{or_naming};
ghost use Rattle.cmd_miter.specs.MiterReport.{IsFormulaOf, IsLogged};

use cmd_formula::{naming, push_dimacs};
use equiv_core::{EquivError, EquivResult, equiv, miter};
use equiv_run::{CompareError, Compared, EquivOutcome};
use log_core::{Log, write_log};
use net_core::Circuit;
use progress::Silent;
use sat_solve::Solver;
use std::alloc::{AllocError, Global};

/// The miter of two circuits of one interface, in DIMACS.
fn formula_text(alloc: Global, first: &Circuit, second: &Circuit) -> Result<Vec<u8>, AllocError>
    requires first { IsProper first.now }
    requires second { IsProper second.now }
    requires interface { HaveSameInterface first.now second.now }
    requires small { IsSmall first.now.net }
    ensures { IfOk result (λ text. text.items ≡ dimacs_text (miter_of first.now.net second.now.net)) }
{
    let cnf = miter(alloc, first, second)?;
    let mut text = Vec::new(alloc);
    push_dimacs(&mut text, &cnf)?;
    Ok(text)
}

/// The miter of two circuits, in DIMACS. The comparison with the least budget tells whether they have one interface.
pub(crate) fn write_formula<S: Solver>(
    alloc: Global,
    first: &Circuit,
    second: &Circuit,
) -> Result<Vec<u8>, CompareError>
    requires first { IsProper first.now }
    requires second { IsProper second.now }
    requires small { IsSmall first.now.net }
    requires other { IsSmall second.now.net }
    ensures formula { IfOk result (λ text. IsFormulaOf first.now second.now text.items) }
    ensures refused { IfErr result (IsOther first.now second.now) }
{
    match equiv::<S, Silent>(alloc, first, second, 1, &Silent) {
        Ok(_) => Ok(formula_text(alloc, first, second)?),
        Err(EquivError::DifferentInterface) => Err(CompareError::DifferentInterface),
        Err(EquivError::Memory) => Err(CompareError::Memory),
    }
}

/// The line that names the empty clause of the miter of two circuits; nothing if it has none.
fn naming_text(alloc: Global, first: &Circuit, second: &Circuit) -> Result<Vec<u8>, AllocError>
    requires first { IsProper first.now }
    requires second { IsProper second.now }
    requires interface { HaveSameInterface first.now second.now }
    requires small { IsSmall first.now.net }
    ensures { IfOk result (λ text. text.items ≡ or_naming (miter_of first.now.net second.now.net) []) }
{
    let cnf = miter(alloc, first, second)?;
    naming(alloc, &cnf)
}

/// The lines of a log of the miter of two circuits; where it has none, the line that names the miter's empty clause.
fn lines_or_naming(
    alloc: Global,
    first: &Circuit,
    second: &Circuit,
    log: &Log,
) -> Result<Vec<u8>, AllocError>
    requires first { IsProper first.now }
    requires second { IsProper second.now }
    requires interface { HaveSameInterface first.now second.now }
    requires small { IsSmall first.now.net }
    ensures { IfOk result (λ text. text.items ≡
        or_naming (miter_of first.now.net second.now.net) (lrat_text log.now)) }
{
    let mut text = Vec::new(alloc);
    write_log(log, &mut text)?;
    if text.is_empty() {
        return naming_text(alloc, first, second);
    }
    Ok(text)
}

/// A log of the miter of two circuits as plain LRAT.
fn log_text(
    alloc: Global,
    first: &Circuit,
    second: &Circuit,
    log: &Log,
) -> Result<Vec<u8>, AllocError>
    requires first { IsProper first.now }
    requires second { IsProper second.now }
    requires interface { HaveSameInterface first.now second.now }
    requires small { IsSmall first.now.net }
    ensures { IfOk result (λ text. text.items ≡
        lrat_text (plain_log (miter_of first.now.net second.now.net) log.now)) }
{
    let text = lines_or_naming(alloc, first, second, log)?;
    Ok(text)
}

/// The log of the comparison of two circuits as plain LRAT; nothing where they differ.
#[tactic(auto, using(crate::proofs::Plain::logging))]
pub(crate) fn write_circuit_log<S: Solver>(
    alloc: Global,
    first: &Circuit,
    second: &Circuit,
    conflicts: u32,
) -> Result<Compared, CompareError>
    requires first { IsProper first.now }
    requires second { IsProper second.now }
    requires small { IsSmall first.now.net }
    requires other { IsSmall second.now.net }
    requires budget { (1 ≤ conflicts) × (conflicts ≤ most_conflicts) }
    ensures logged { IfOk result (λ c. IsLogged conflicts first.now second.now c.text.items c.outcome) }
    ensures refused { IfErr result (IsOther first.now second.now) }
{
    match equiv::<S, Silent>(alloc, first, second, conflicts, &Silent) {
        Ok(EquivResult::Equal(log)) => {
            let text = log_text(alloc, first, second, &log)?;
            Ok(Compared {
                text,
                outcome: EquivOutcome::Equal,
            })
        }
        Ok(EquivResult::Differ { .. }) => {
            Ok(Compared {
                text: Vec::new(alloc),
                outcome: EquivOutcome::Differ,
            })
        }
        Ok(EquivResult::Undecided(log)) => {
            let text = log_text(alloc, first, second, &log)?;
            Ok(Compared {
                text,
                outcome: EquivOutcome::Undecided,
            })
        }
        Err(EquivError::DifferentInterface) => Err(CompareError::DifferentInterface),
        Err(EquivError::Memory) => Err(CompareError::Memory),
    }
}
