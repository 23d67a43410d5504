//! The text of the values.
ghost use Rattle.std.specs.Prelude.{◌≡◌, ◌++◌, ◌+◌, ◌≤◌, length, OnOk, IfOk};
ghost use Rattle.net_theory.specs.Circuit.{sources_of};
ghost use Rattle.equiv_run.specs.Texts.{characters, bits_text};
ghost use Rattle.cmd_at.specs.AtText.{head_text, sink_lines, values_text};

use equiv_values::{character, push_sink, push_sources};
use net_core::{Circuit, Latch, Name};
use std::alloc::{AllocError, Global};

/// Appends bits as characters.
#[tactic(auto, using(equiv_run::specs::TextLaws::bits))]
fn push_characters(text: &mut Vec<u8>, bits: &[bool]) -> Result<(), AllocError>
    ensures { OnOk result (text.new.items ≡ text.old.items ++ characters bits.now) }
{
    let mut left = bits;
    while let Some((bit, rest)) = left.split_first() {
        text.push(character(*bit))?;
        left = rest;
    }
    Ok(())
}

/// Appends bits as characters, or `-` where there are none.
#[tactic(auto, using(equiv_run::specs::TextLaws::some_bits, equiv_run::specs::TextLaws::no_bits))]
fn push_bits(text: &mut Vec<u8>, bits: &[bool]) -> Result<(), AllocError>
    ensures { OnOk result (text.new.items ≡ text.old.items ++ bits_text bits.now) }
{
    if bits.is_empty() {
        text.push(b'-')?;
        return Ok(());
    }
    push_characters(text, bits)
}

/// Appends the first line: whether the values are the same, and the bits.
#[tactic(auto, unfolding(crate::specs::AtText::head_text))]
fn push_head(text: &mut Vec<u8>, same: bool, bits: &[bool]) -> Result<(), AllocError>
    ensures { OnOk result (text.new.items ≡ text.old.items ++ head_text same bits.now) }
{
    if same {
        text.extend_from_slice(b"equal at ")?;
    } else {
        text.extend_from_slice(b"differ at ")?;
    }
    push_bits(text, bits)?;
    text.extend_from_slice(b"\n")?;
    Ok(())
}

/// Appends the lines of all sinks.
#[tactic(auto, using(crate::proofs::Lines::of_sinks))]
fn push_sinks(
    text: &mut Vec<u8>,
    outputs: &[Name],
    latches: &[Latch],
    ones: &[bool],
    others: &[bool],
) -> Result<(), AllocError>
    requires { length ones.now ≤ length outputs.now + length latches.now }
    ensures { OnOk result (text.new.items ≡ text.old.items ++
        sink_lines outputs.now latches.now 0 ones.now others.now) }
{
    let mut before = 0;
    let mut left = ones;
    let mut right = others;
    while let Some((one, rest)) = left.split_first() {
        let Some((other, after)) = right.split_first() else {
            return Ok(());
        };
        push_sink(text, outputs, latches, before + 1, *one, *other)?;
        before += 1;
        left = rest;
        right = after;
    }
    Ok(())
}

/// The text of the values `ones` and `others` of the sinks of two circuits, of which `circuit` is the first, under the
/// values `bits` of its sources.
pub(crate) fn write_values(
    alloc: Global,
    circuit: &Circuit,
    same: bool,
    bits: &[bool],
    ones: &[bool],
    others: &[bool],
) -> Result<Vec<u8>, AllocError>
    requires sources { length circuit.now.inputs ≤ length bits.now }
    requires sinks { length ones.now ≤ length circuit.now.outputs + length circuit.now.latches }
    ensures { IfOk result (λ text. text.items ≡ values_text (sources_of circuit.now) circuit.now.outputs
        circuit.now.latches same bits.now ones.now others.now) }
{
    let mut text = Vec::new(alloc);
    push_head(&mut text, same, bits)?;
    push_sources(&mut text, circuit, bits)?;
    push_sinks(&mut text, &circuit.outputs, &circuit.latches, ones, others)?;
    Ok(text)
}
