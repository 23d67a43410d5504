//! Reads two netlists and compares them.
ghost use Rattle.std.specs.Prelude.{◌≡◌, ◌≤◌, ◌<◌, ◌^◌, length, None, Err, IfOk, IfErr};
ghost use Rattle.sat_theory.specs.Limits.{most_conflicts};
ghost use Rattle.net_theory.specs.Circuit.{IsProper};
ghost use Rattle.net_document.specs.Format.{IsCircuitOfText};
ghost use Rattle.blif_core.specs.Blif.{blif_format};
ghost use Rattle.equiv_core.specs.Limits.{IsSmall};
ghost use Rattle.equiv_run.specs.declared.answer.CompareError.TheVariants.{NoSecond};
ghost use Rattle.equiv_run.specs.Split.{split_of};
ghost use Rattle.equiv_run.specs.Pairs.{IsAnswer, IsRefusedPair};
ghost use Rattle.net_theory.specs.Limits.{most_of_two};
ghost use Rattle.equiv_run.specs.CircuitAnswers.{IsCircuitAnswer, IsOther, IsFirstRefused, IsSecondRefused};

use crate::answer::{CompareError, Compared, EquivOutcome};
use crate::splitting::split;
use crate::writing::{differ_text, logged_text_of};
use blif_core::{Circuit, NetError, read_blif};
use equiv_core::{EquivError, EquivResult, equiv};
use progress::Tell;
use sat_solve::Solver;
use std::alloc::Global;

/// Reads the first netlist.
pub(crate) fn read_first(alloc: Global, bytes: &[u8]) -> Result<Circuit, CompareError>
    requires { length bytes.now < 2 ^ 31 }
    ensures circuit { IfOk result (IsCircuitOfText blif_format bytes.now) }
    ensures refused { IfErr result (IsFirstRefused bytes.now) }
{
    match read_blif(alloc, bytes) {
        Ok(circuit) => Ok(circuit),
        Err(NetError::Memory) => Err(CompareError::Memory),
        Err(error) => Err(CompareError::First(error)),
    }
}

/// Reads the second netlist.
pub(crate) fn read_second(alloc: Global, bytes: &[u8]) -> Result<Circuit, CompareError>
    requires { length bytes.now < 2 ^ 31 }
    ensures circuit { IfOk result (IsCircuitOfText blif_format bytes.now) }
    ensures refused { IfErr result (IsSecondRefused bytes.now) }
{
    match read_blif(alloc, bytes) {
        Ok(circuit) => Ok(circuit),
        Err(NetError::Memory) => Err(CompareError::Memory),
        Err(error) => Err(CompareError::Second(error)),
    }
}

/// Compares two circuits, and writes the answer.
#[tactic(auto, // for the prover
using(crate::specs::CircuitAnswers::answer_equal, crate::specs::CircuitAnswers::answer_differ, // for the prover
crate::specs::CircuitAnswers::answer_undecided), unfolding(crate::specs::Texts::equal_text, // for the prover
crate::specs::Texts::undecided_text))]
pub fn compare_circuits<S: Solver, T: Tell>(
    alloc: Global,
    first: &Circuit,
    second: &Circuit,
    conflicts: u32,
    tell: &T,
) -> Result<Compared, CompareError>
    requires first { IsProper first.now }
    requires second { IsProper second.now }
    requires small { IsSmall first.now.net }
    requires other { IsSmall second.now.net }
    requires budget { (1 ≤ conflicts) × (conflicts ≤ most_conflicts) }
    ensures reported { IfOk result (λ c. IsCircuitAnswer conflicts first.now second.now c.text.items c.outcome) }
    ensures refused { IfErr result (IsOther first.now second.now) }
{
    match equiv::<S, T>(alloc, first, second, conflicts, tell) {
        Ok(EquivResult::Equal(log)) => {
            let text = logged_text_of(alloc, b"equal\n", &log)?;
            Ok(Compared {
                text,
                outcome: EquivOutcome::Equal,
            })
        }
        Ok(EquivResult::Differ { sink, at }) => {
            let text = differ_text(
                alloc,
                &first.outputs,
                &first.latches,
                sink as usize,
                at.bits(),
            )?;
            Ok(Compared {
                text,
                outcome: EquivOutcome::Differ,
            })
        }
        Ok(EquivResult::Undecided(log)) => {
            let text = logged_text_of(alloc, b"undecided\n", &log)?;
            Ok(Compared {
                text,
                outcome: EquivOutcome::Undecided,
            })
        }
        Err(EquivError::DifferentInterface) => Err(CompareError::DifferentInterface),
        Err(EquivError::Memory) => Err(CompareError::Memory),
    }
}

/// Decides with the solver `S` whether two BLIF netlists are equivalent that stand one after the other in at most
/// 33,554,432 bytes (32 MiB). The first ends with the first line `.end`. The budget is 1 to 10,000,000
/// `conflicts`: a pair of signals or a sink that is given up counts with its conflict limit, and in the last
/// search each learnt clause counts.
///
/// A text that isn't two netlists is refused with its first fault: no second netlist, the first fault of the
/// first, the first fault of the second, whose lines are numbered from 1, or different interfaces. Two netlists of
/// one interface are refused only if memory runs out. `NoSecond` is answered before any memory is allocated. `tell`
/// hears of each gate that is compared.
pub fn compare_texts<S: Solver, T: Tell>(
    alloc: Global,
    bytes: &[u8],
    conflicts: u32,
    tell: &T,
) -> Result<Compared, CompareError>
    requires small { length bytes.now ≤ most_of_two }
    requires budget { (1 ≤ conflicts) × (conflicts ≤ most_conflicts) }
    ensures answer { IfOk result (λ c. IsAnswer conflicts bytes.now c.text.items c.outcome) }
    ensures refused { IfErr result (IsRefusedPair bytes.now) }
    ensures second { split_of bytes.now ≡ None → result ≡ Err NoSecond }
{
    let Some(place) = split(bytes) else {
        return Err(CompareError::NoSecond);
    };
    let (front, after) = bytes.split_at(place);
    let first = read_first(alloc, front)?;
    let second = read_second(alloc, after)?;
    let compared = compare_circuits::<S, T>(alloc, &first, &second, conflicts, tell)?;
    Ok(compared)
}
