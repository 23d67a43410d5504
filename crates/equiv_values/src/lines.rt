//! The lines of sources and sinks.
ghost use Rattle.std.specs.Prelude.{◌≡◌, ◌++◌, ◌+◌, ◌≤◌, length, map, OnOk};
ghost use Rattle.net_theory.specs.Document.{latch_output};
ghost use Rattle.net_theory.specs.Circuit.{sources_of};
ghost use Rattle.equiv_run.specs.Texts.{character as character_of, sink_text};
ghost use Rattle.equiv_values.specs.Lines.{source_line, source_lines, sink_line};

use net_core::{Circuit, Latch, Name};
use std::alloc::AllocError;

/// A bit as a character.
pub fn character(bit: bool) -> u8
    ensures { result ≡ character_of bit }
{
    if bit { b'1' } else { b'0' }
}

/// Appends the line of a source.
#[tactic(auto, unfolding(crate::specs::Lines::source_line))]
fn push_source(text: &mut Vec<u8>, name: &Name, bit: bool) -> Result<(), AllocError>
    ensures { OnOk result (text.new.items ≡ text.old.items ++ source_line name.now bit) }
{
    text.extend_from_slice(name.get())?;
    text.extend_from_slice(b"=")?;
    text.push(character(bit))?;
    text.extend_from_slice(b"\n")?;
    Ok(())
}

/// Appends the lines of inputs.
#[tactic(auto, using(crate::specs::LineLaws::of_sources))]
fn push_inputs(text: &mut Vec<u8>, names: &[Name], bits: &[bool]) -> Result<(), AllocError>
    ensures { OnOk result (text.new.items ≡ text.old.items ++ source_lines names.now bits.now) }
{
    let mut left = names;
    let mut right = bits;
    while let Some((name, rest)) = left.split_first() {
        let Some((bit, after)) = right.split_first() else {
            return Ok(());
        };
        push_source(text, name, *bit)?;
        left = rest;
        right = after;
    }
    Ok(())
}

/// Appends the lines of latches.
#[tactic(auto, using(crate::specs::LineLaws::of_sources))]
fn push_latches(text: &mut Vec<u8>, latches: &[Latch], bits: &[bool]) -> Result<(), AllocError>
    ensures { OnOk result (text.new.items ≡ text.old.items ++
        source_lines (map latch_output latches.now) bits.now) }
{
    let mut left = latches;
    let mut right = bits;
    while let Some((latch, rest)) = left.split_first() {
        let Some((bit, after)) = right.split_first() else {
            return Ok(());
        };
        push_source(text, &latch.output, *bit)?;
        left = rest;
        right = after;
    }
    Ok(())
}

/// Appends the lines of all sources of a circuit.
#[tactic(auto, using(crate::specs::LineLaws::joined))]
pub fn push_sources(text: &mut Vec<u8>, circuit: &Circuit, bits: &[bool]) -> Result<(), AllocError>
    requires { length circuit.now.inputs ≤ length bits.now }
    ensures { OnOk result (text.new.items ≡ text.old.items ++ source_lines (sources_of circuit.now) bits.now) }
{
    let (front, back) = bits.split_at(circuit.inputs.len());
    push_inputs(text, &circuit.inputs, front)?;
    push_latches(text, &circuit.latches, back)?;
    Ok(())
}

/// Appends the name of a sink, counted from 1.
#[tactic(auto, unfolding(equiv_run::specs::Texts::sink_text))]
fn push_name(
    text: &mut Vec<u8>,
    outputs: &[Name],
    latches: &[Latch],
    sink: usize,
) -> Result<(), AllocError>
    requires { (1 ≤ sink) × (sink ≤ length outputs.now + length latches.now) }
    ensures { OnOk result (text.new.items ≡ text.old.items ++ sink_text outputs.now latches.now sink) }
{
    if sink <= outputs.len() {
        text.extend_from_slice(b"output ")?;
        return text.extend_from_slice(outputs[sink - 1].get());
    }
    text.extend_from_slice(b"latch ")?;
    let latch = &latches[sink - 1 - outputs.len()];
    text.extend_from_slice(latch.output.get())
}

/// Appends the line of a sink.
#[tactic(auto, unfolding(crate::specs::Lines::sink_line))]
pub fn push_sink(
    text: &mut Vec<u8>,
    outputs: &[Name],
    latches: &[Latch],
    sink: usize,
    one: bool,
    other: bool,
) -> Result<(), AllocError>
    requires { (1 ≤ sink) × (sink ≤ length outputs.now + length latches.now) }
    ensures { OnOk result (text.new.items ≡ text.old.items ++
        sink_line outputs.now latches.now sink one other) }
{
    push_name(text, outputs, latches, sink)?;
    text.extend_from_slice(b": ")?;
    text.push(character(one))?;
    text.extend_from_slice(b" and ")?;
    text.push(character(other))?;
    text.extend_from_slice(b"\n")?;
    Ok(())
}
