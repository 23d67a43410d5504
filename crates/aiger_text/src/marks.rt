//! Which literals are outputs or next states, and which gates are therefore listed as their complements.

ghost use Rattle.std.specs.Prelude.{◌≡◌, ◌<◌, ◌≤◌, map, slice_set, IfOk};
ghost use Rattle.aiger_text.specs.Limits.{most_variables};
ghost use Rattle.aiger_text.specs.Meaning as spec;

use crate::file::{AigFile, AigGate, AigLatch};
use std::alloc::{AllocError, Global};

/// The bit at a place, or false beyond the end.
pub fn bit_at(bits: &[bool], place: usize) -> bool
    ensures { result ≡ spec.bit_at bits.now place }
{
    match bits.get(place) {
        Some(bit) => *bit,
        None => false,
    }
}

/// Sets the bit at a place, if there is one.
#[tactic(auto, using(crate::proofs::Numbered::sets))]
fn set_bit(bits: &mut Vec<bool>, place: usize, bit: bool)
    ensures { bits.new.items ≡ slice_set bits.old.items place bit }
{
    if place < bits.len() {
        bits[place] = bit;
    }
}

/// Sets the bits of some literals.
#[tactic(auto, unfolding(crate::specs::Meaning::with_marks))]
fn mark_literals(marks: &mut Vec<bool>, literals: &[u32])
    ensures { marks.new.items ≡ spec.with_marks marks.old.items literals.now }
{
    let mut left = literals;
    while let Some((literal, rest)) = left.split_first() {
        set_bit(marks, *literal as usize, true);
        left = rest;
    }
}

/// Sets the bits of the next states of latches.
#[tactic(auto, unfolding(crate::specs::Meaning::with_marks))]
fn mark_nexts(marks: &mut Vec<bool>, latches: &[AigLatch])
    ensures { marks.new.items ≡ spec.with_marks marks.old.items (map spec.next_of latches.now) }
{
    let mut left = latches;
    while let Some((latch, rest)) = left.split_first() {
        set_bit(marks, latch.next as usize, true);
        left = rest;
    }
}

/// By literal, whether it is an output or a next state.
pub fn marks_of(alloc: Global, file: &AigFile) -> Result<Vec<bool>, AllocError>
    requires { file.now.variables ≤ most_variables }
    ensures { IfOk result (λ marks. marks.items ≡ spec.marks_of file.now) }
{
    let mut marks = vec![in alloc; false; file.variables as usize * 2 + 2]?;
    mark_literals(&mut marks, &file.outputs);
    mark_nexts(&mut marks, &file.latches);
    Ok(marks)
}

/// Whether the complement of a literal, but not the literal, is an output or a next state.
fn is_turned(marks: &[bool], literal: u32) -> bool
    ensures { result ≡ spec.is_turned marks.now literal }
{
    bit_at(marks, literal as usize + 1) && !bit_at(marks, literal as usize)
}

/// Sets the bits of the gates that are listed as their complements.
#[tactic(auto, unfolding(crate::specs::Meaning::with_turns))]
fn turn_gates(turns: &mut Vec<bool>, marks: &[bool], gates: &[AigGate])
    ensures { turns.new.items ≡ spec.with_turns marks.now turns.old.items gates.now }
{
    let mut left = gates;
    while let Some((gate, rest)) = left.split_first() {
        set_bit(
            turns,
            gate.literal as usize / 2,
            is_turned(marks, gate.literal),
        );
        left = rest;
    }
}

/// By variable, whether it is a gate that is listed as its complement.
pub fn turns_of(alloc: Global, marks: &[bool], file: &AigFile) -> Result<Vec<bool>, AllocError>
    requires variables { file.now.variables ≤ most_variables }
    requires marks { marks.now ≡ spec.marks_of file.now }
    ensures { IfOk result (λ turns. turns.items ≡ spec.turns_of file.now) }
{
    let mut turns = vec![in alloc; false; file.variables as usize + 1]?;
    turn_gates(&mut turns, marks, &file.gates);
    Ok(turns)
}
