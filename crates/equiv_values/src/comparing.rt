//! The comparison of two circuits, whose differences are told by names.
ghost use Rattle.std.specs.Prelude.{◌≤◌, IfOk, IfErr};
ghost use Rattle.sat_theory.specs.Limits.{most_conflicts};
ghost use Rattle.net_theory.specs.Circuit.{IsProper};
ghost use Rattle.equiv_core.specs.Limits.{IsSmall};
ghost use Rattle.equiv_run.specs.CircuitAnswers.{IsCircuitAnswer, IsOther};
ghost use Rattle.equiv_values.specs.Named.{IsNamedCircuitAnswer};
ghost use Rattle.equiv_values.specs.Told.{told_text};

use crate::differing::told_difference;
use equiv_run::{CompareError, Compared, EquivOutcome, compare_circuits};
use net_core::Circuit;
use progress::Tell;
use sat_solve::Solver;
use std::alloc::{AllocError, Global};

/// The comparison of two circuits, and what is told of a difference.
#[derive(Drop)]
pub struct ComparedNamed {
    /// The result.
    pub compared: Compared,
    /// The values of a counterexample by names: of the output or next state that differs in both circuits, and of each
    /// input and latch; None if no difference was found.
    pub told: Option<Vec<u8>>,
}

/// What is told of the answer for two circuits.
#[tactic(auto, using(crate::specs::DifferingLaws::telling))]
fn told_of(
    alloc: Global,
    compared: Compared,
    first: &Circuit,
    second: &Circuit,
    conflicts: u32,
) -> Result<ComparedNamed, AllocError>
    requires first { IsProper first.now }
    requires second { IsProper second.now }
    requires answer { IsCircuitAnswer conflicts first.now second.now compared.text.items compared.outcome }
    ensures { IfOk result (λ c. IsNamedCircuitAnswer conflicts first.now second.now c.compared.text.items
        (told_text c) c.compared.outcome) }
{
    match compared.outcome {
        EquivOutcome::Equal | EquivOutcome::Undecided => Ok(ComparedNamed {
            compared,
            told: None,
        }),
        EquivOutcome::Differ => {
            let told = told_difference(alloc, &compared.text, first, second)?;
            Ok(ComparedNamed {
                compared,
                told: Some(told),
            })
        }
    }
}

/// Compares two circuits as `compare_circuits` does, and tells a difference by names.
pub fn compare_named<S: Solver, T: Tell>(
    alloc: Global,
    first: &Circuit,
    second: &Circuit,
    conflicts: u32,
    tell: &T,
) -> Result<ComparedNamed, CompareError>
    requires first { IsProper first.now }
    requires second { IsProper second.now }
    requires small { IsSmall first.now.net }
    requires other { IsSmall second.now.net }
    requires budget { (1 ≤ conflicts) × (conflicts ≤ most_conflicts) }
    ensures reported { IfOk result (λ c. IsNamedCircuitAnswer conflicts first.now second.now c.compared.text.items
        (told_text c) c.compared.outcome) }
    ensures refused { IfErr result (IsOther first.now second.now) }
{
    let compared = compare_circuits::<S, T>(alloc, first, second, conflicts, tell)?;
    let named = told_of(alloc, compared, first, second, conflicts)?;
    Ok(named)
}
