//! The values of two circuits.
ghost use Rattle.std.specs.Prelude.{◌≡◌, length, IfOk, IfErr};
ghost use Rattle.net_theory.specs.Circuit.{IsProper};
ghost use Rattle.equiv_theory.specs.Counterexample.{HaveSameInterface};
ghost use Rattle.equiv_run.specs.CircuitAnswers.{IsOther};
ghost use Rattle.cmd_at.specs.AtReport.{IsCircuitText, IsCircuitValued};

use crate::interface::same_interface;
use crate::writing::write_values;
use equiv_run::CompareError;
use equiv_values::{same_bits, sink_bits};
use net_core::Circuit;
use std::alloc::{AllocError, Global};

/// What given bits of the sources say of two netlists.
#[derive(Drop)]
pub enum Valued {
    /// The text of their values.
    Text(Vec<u8>),
    /// Nothing: they have so many sources, and the bits are more or fewer.
    Miscounted(u32),
}

/// The text of the values of two circuits of one interface.
#[tactic(auto, using(crate::proofs::Counting::counting))]
fn circuits_text(
    alloc: Global,
    first: &Circuit,
    second: &Circuit,
    bits: &[bool],
) -> Result<Vec<u8>, AllocError>
    requires first { IsProper first.now }
    requires second { IsProper second.now }
    requires interface { HaveSameInterface first.now second.now }
    requires long { length bits.now ≡ first.now.net.sources }
    ensures { IfOk result (λ text. IsCircuitText first.now second.now bits.now text.items) }
{
    let ones = sink_bits(alloc, &first.net, bits)?;
    let others = sink_bits(alloc, &second.net, bits)?;
    let same = same_bits(&ones, &others);
    let text = write_values(alloc, first, same, bits, &ones, &others)?;
    Ok(text)
}

/// The values of two circuits under `bits`, one for each source.
#[tactic(auto, using(crate::proofs::Counting::counting))]
pub(crate) fn value_circuits(
    alloc: Global,
    first: &Circuit,
    second: &Circuit,
    bits: &[bool],
) -> Result<Valued, CompareError>
    requires first { IsProper first.now }
    requires second { IsProper second.now }
    ensures valued { IfOk result (IsCircuitValued first.now second.now bits.now) }
    ensures refused { IfErr result (IsOther first.now second.now) }
{
    if !same_interface(first, second) {
        return Err(CompareError::DifferentInterface);
    }
    let count = first.net.sources();
    if bits.len() != count as usize {
        return Ok(Valued::Miscounted(count));
    }
    let text = circuits_text(alloc, first, second, bits)?;
    Ok(Valued::Text(text))
}
