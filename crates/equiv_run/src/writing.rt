//! The texts of the three answers.
ghost use Rattle.std.specs.Prelude.{◌≡◌, ◌++◌, ◌+◌, ◌≤◌, length, OnOk, IfOk};
ghost use Rattle.equiv_run.specs.Texts.{logged_text, characters, bits_text as bits_text_of, sink_text};
ghost use Rattle.equiv_run.specs.Texts.{differ_text as differ_text_of};

use log_core::{Log, write_log};
use net_core::{Latch, Name};
use std::alloc::{AllocError, Global};

/// The keyword `word` with its LF, the lines of a log, and `done`.
#[tactic(auto, unfolding(crate::specs::Texts::log_text))]
pub(crate) fn logged_text_of(alloc: Global, word: &[u8], log: &Log) -> Result<Vec<u8>, AllocError>
    ensures { IfOk result (λ text. text.items ≡ logged_text word.now log.now) }
{
    let mut text = Vec::new(alloc);
    text.extend_from_slice(word)?;
    write_log(log, &mut text)?;
    text.extend_from_slice(b"done\n")?;
    Ok(text)
}

/// Appends bits as characters.
#[tactic(auto, using(crate::specs::TextLaws::bits))]
fn push_characters(text: &mut Vec<u8>, bits: &[bool]) -> Result<(), AllocError>
    ensures { OnOk result (text.new.items ≡ text.old.items ++ characters bits.now) }
{
    let mut left = bits;
    while let Some((bit, rest)) = left.split_first() {
        let byte = if *bit { b'1' } else { b'0' };
        text.push(byte)?;
        left = rest;
    }
    Ok(())
}

/// Appends bits as characters, or `-` where there are none.
#[tactic(auto, using(crate::specs::TextLaws::some_bits, crate::specs::TextLaws::no_bits))]
fn push_bits(text: &mut Vec<u8>, bits: &[bool]) -> Result<(), AllocError>
    ensures { OnOk result (text.new.items ≡ text.old.items ++ bits_text_of bits.now) }
{
    if bits.is_empty() {
        text.push(b'-')?;
        return Ok(());
    }
    push_characters(text, bits)
}

/// Appends the name of a sink, counted from 1.
#[tactic(auto, unfolding(crate::specs::Texts::sink_text))]
fn push_sink(
    text: &mut Vec<u8>,
    outputs: &[Name],
    latches: &[Latch],
    sink: usize,
) -> Result<(), AllocError>
    requires { (1 ≤ sink) × (sink ≤ length outputs.now + length latches.now) }
    ensures { OnOk result (text.new.items ≡ text.old.items ++ sink_text outputs.now latches.now sink) }
{
    if sink <= outputs.len() {
        text.extend_from_slice(b"output ")?;
        return text.extend_from_slice(outputs[sink - 1].get());
    }
    text.extend_from_slice(b"latch ")?;
    let latch = &latches[sink - 1 - outputs.len()];
    text.extend_from_slice(latch.output.get())
}

/// The answer that two netlists differ at `sink`, counted from 1, under the values `at` of the sources.
#[tactic(auto, unfolding(crate::specs::Texts::differ_text))]
pub(crate) fn differ_text(
    alloc: Global,
    outputs: &[Name],
    latches: &[Latch],
    sink: usize,
    bits: &[bool],
) -> Result<Vec<u8>, AllocError>
    requires { (1 ≤ sink) × (sink ≤ length outputs.now + length latches.now) }
    ensures { IfOk result (λ text. text.items ≡ differ_text_of outputs.now latches.now sink bits.now) }
{
    let mut text = Vec::new(alloc);
    text.extend_from_slice(b"differ ")?;
    push_sink(&mut text, outputs, latches, sink)?;
    text.extend_from_slice(b"\nat ")?;
    push_bits(&mut text, bits)?;
    text.extend_from_slice(b"\n")?;
    Ok(text)
}
