//! The miter of the netlists of two texts, and the log of their comparison.
ghost use Rattle.std.specs.Prelude.{◌≤◌, ◌<◌, ◌^◌, length, IfOk, IfErr};
ghost use Rattle.sat_theory.specs.Limits.{most_conflicts};
ghost use Rattle.net_theory.specs.Limits.{most_of_two};
ghost use Rattle.net_document.specs.Format.{IsCircuitOfText};
ghost use Rattle.blif_core.specs.Blif.{blif_format};
ghost use Rattle.equiv_run.specs.CircuitAnswers.{IsFirstRefused, IsSecondRefused};
ghost use Rattle.equiv_run.specs.Two.{IsTwoRefused};
ghost use Rattle.cmd_miter.specs.MiterReport.{IsMiterText, IsLogText};

use crate::circuits::{write_circuit_log, write_formula};
use blif_core::{Circuit, NetError, read_blif};
use equiv_run::{CompareError, Compared};
use sat_solve::Solver;
use std::alloc::Global;

/// Reads the first netlist.
fn read_first(alloc: Global, bytes: &[u8]) -> Result<Circuit, CompareError>
    requires { length bytes.now < 2 ^ 31 }
    ensures circuit { IfOk result (IsCircuitOfText blif_format bytes.now) }
    ensures refused { IfErr result (IsFirstRefused bytes.now) }
{
    match read_blif(alloc, bytes) {
        Ok(circuit) => Ok(circuit),
        Err(NetError::Memory) => Err(CompareError::Memory),
        Err(error) => Err(CompareError::First(error)),
    }
}

/// Reads the second netlist.
fn read_second(alloc: Global, bytes: &[u8]) -> Result<Circuit, CompareError>
    requires { length bytes.now < 2 ^ 31 }
    ensures circuit { IfOk result (IsCircuitOfText blif_format bytes.now) }
    ensures refused { IfErr result (IsSecondRefused bytes.now) }
{
    match read_blif(alloc, bytes) {
        Ok(circuit) => Ok(circuit),
        Err(NetError::Memory) => Err(CompareError::Memory),
        Err(error) => Err(CompareError::Second(error)),
    }
}

/// The miter of two netlists in DIMACS, each of a text of its own.
pub(crate) fn miter_text<S: Solver>(
    alloc: Global,
    first: &[u8],
    second: &[u8],
) -> Result<Vec<u8>, CompareError>
    requires first { length first.now ≤ most_of_two }
    requires second { length second.now ≤ most_of_two }
    ensures answer { IfOk result (λ text. IsMiterText first.now second.now text.items) }
    ensures refused { IfErr result (IsTwoRefused first.now second.now) }
{
    let one = read_first(alloc, first)?;
    let other = read_second(alloc, second)?;
    let text = write_formula::<S>(alloc, &one, &other)?;
    Ok(text)
}

/// The log of the comparison of two netlists as plain LRAT, each of a text of its own, and how they compare.
pub(crate) fn miter_log<S: Solver>(
    alloc: Global,
    first: &[u8],
    second: &[u8],
    conflicts: u32,
) -> Result<Compared, CompareError>
    requires first { length first.now ≤ most_of_two }
    requires second { length second.now ≤ most_of_two }
    requires budget { (1 ≤ conflicts) × (conflicts ≤ most_conflicts) }
    ensures answer { IfOk result (λ c. IsLogText conflicts first.now second.now c.text.items c.outcome) }
    ensures refused { IfErr result (IsTwoRefused first.now second.now) }
{
    let one = read_first(alloc, first)?;
    let other = read_second(alloc, second)?;
    let compared = write_circuit_log::<S>(alloc, &one, &other, conflicts)?;
    Ok(compared)
}
