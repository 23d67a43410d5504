//! The names of a difference.
ghost use Rattle.std.specs.Prelude.{◌≡◌, ◌≢◌, ℕ, ◌+◌, ◌≤◌, ◌<◌, ◌++◌, length, false, slice_index_or, Some};
ghost use Rattle.std.specs.Prelude.{IfOk, OnOk, IfSome, IfNone};
ghost use Rattle.net_theory.specs.Circuit.{IsProper, sources_of};
ghost use Rattle.equiv_theory.specs.Counterexample.{HaveSameInterface};
ghost use Rattle.equiv_run.specs.CircuitAnswers.{AreDifferent};
ghost use Rattle.equiv_values.specs.DifferingLaws.{DifferUnder, TellsUnder, TellsPlace};
ghost use Rattle.equiv_values.specs.Named.{named_text, AreNamedDifferent};

use crate::lines::{push_sink, push_sources};
use crate::simulating::sink_bits;
use crate::spelled::spelled_bits;
use net_core::Circuit;
use std::alloc::{AllocError, Global};

/// The first index at which two lists of equal length differ.
fn first_other(first: &[bool], second: &[bool]) -> Option<usize>
    requires { length first.now ≡ length second.now }
    ensures below { IfSome result (λ i. i < length first.now) }
    ensures other { IfSome result (λ i. slice_index_or first.now i false ≢ slice_index_or second.now i false) }
    ensures least { IfSome result (λ i. (j : ℕ) → j < i →
        slice_index_or first.now j false ≡ slice_index_or second.now j false) }
    ensures same { IfNone result ((j : ℕ) → j < length first.now →
        slice_index_or first.now j false ≡ slice_index_or second.now j false) }
{
    for i in 0..first.len() {
        if first[i] != second[i] {
            return Some(i);
        }
    }
    None
}

/// Appends the lines with names: the sink that differs, counted from 1, with its two values, and the bits of the
/// sources.
#[tactic(auto, unfolding(crate::specs::Named::named_text))]
fn push_named(
    text: &mut Vec<u8>,
    circuit: &Circuit,
    sink: usize,
    bits: &[bool],
    one: bool,
    other: bool,
) -> Result<(), AllocError>
    requires sink { (1 ≤ sink) × (sink ≤ length circuit.now.outputs + length circuit.now.latches) }
    requires sources { length circuit.now.inputs ≤ length bits.now }
    ensures { OnOk result (text.new.items ≡ text.old.items ++ named_text (sources_of circuit.now) circuit.now.outputs
        circuit.now.latches sink bits.now one other) }
{
    text.extend_from_slice(b"differ ")?;
    push_sink(text, &circuit.outputs, &circuit.latches, sink, one, other)?;
    push_sources(text, circuit, bits)?;
    Ok(())
}

/// The lines with names for values of the sinks, which differ somewhere.
#[tactic(auto, using(crate::specs::DifferingLaws::placing))]
fn told_values(
    alloc: Global,
    circuit: &Circuit,
    bits: &[bool],
    ones: &[bool],
    others: &[bool],
) -> Result<Vec<u8>, AllocError>
    requires sources { length circuit.now.inputs ≤ length bits.now }
    requires sinks { length ones.now ≡ length circuit.now.outputs + length circuit.now.latches }
    requires others { length ones.now ≡ length others.now }
    requires differ { ((j : ℕ) → j < length ones.now →
        slice_index_or ones.now j false ≡ slice_index_or others.now j false) → ⊥ }
    ensures { IfOk result (λ told. TellsPlace circuit.now bits.now ones.now others.now told.items) }
{
    let Some(index) = first_other(ones, others) else {
        unreachable!()
    };
    let mut told = Vec::new(alloc);
    push_named(
        &mut told,
        circuit,
        index + 1,
        bits,
        ones[index],
        others[index],
    )?;
    Ok(told)
}

/// The lines with names for a counterexample.
#[tactic(auto, using(crate::specs::DifferingLaws::simulating))]
fn told_under(
    alloc: Global,
    first: &Circuit,
    second: &Circuit,
    bits: &[bool],
) -> Result<Vec<u8>, AllocError>
    requires first { IsProper first.now }
    requires second { IsProper second.now }
    requires interface { HaveSameInterface first.now second.now }
    requires differ { DifferUnder first.now second.now bits.now }
    ensures { IfOk result (λ told. TellsUnder first.now second.now bits.now told.items) }
{
    let ones = sink_bits(alloc, &first.net, bits)?;
    let others = sink_bits(alloc, &second.net, bits)?;
    told_values(alloc, first, bits, &ones, &others)
}

/// The lines with names for the answer that two circuits differ.
pub(crate) fn told_difference(
    alloc: Global,
    text: &[u8],
    first: &Circuit,
    second: &Circuit,
) -> Result<Vec<u8>, AllocError>
    requires first { IsProper first.now }
    requires second { IsProper second.now }
    requires differ { AreDifferent first.now second.now text.now }
    ensures { IfOk result (λ told. AreNamedDifferent first.now second.now text.now (Some told.items)) }
{
    let count = first.net.sources() as usize;
    let bits = spelled_bits(alloc, text, count)?;
    let told = told_under(alloc, first, second, &bits)?;
    Ok(told)
}
