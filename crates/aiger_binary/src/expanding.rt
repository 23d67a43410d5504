//! The ASCII text of a binary one.

ghost use Rattle.std.specs.Prelude.{◌≡◌, ◌++◌, true, OnOk, IfOk};
ghost use Rattle.text_core.specs.Lines.{line_bytes};
ghost use Rattle.aiger_binary.specs.Ascii as spec;
ghost use Rattle.aiger_binary.specs.Cut.{line_of, cut_of};
ghost use Rattle.aiger_binary.specs.Header.{is_packed as is_packed_by};
ghost use Rattle.aiger_binary.specs.Low.{AreLow};

use crate::cutting::{FirstLine, first_line};
use crate::gates::push_gates;
use crate::header::{Counts, counts_in, is_packed};
use crate::sections::{push_inputs, push_latches, push_line, push_outputs, push_tail};
use std::alloc::{AllocError, Global};
use text_core::after;

/// Whether a text is in the binary form, by its first three bytes.
pub fn is_binary(bytes: &[u8]) -> bool
    ensures { result ≡ spec.is_binary bytes.now }
{
    after(b"aig", bytes).is_some()
}

/// Adds a text with the first word of the ASCII form.
#[tactic(auto, using(crate::proofs::Ends::ends))]
fn push_renamed(out: &mut Vec<u8>, text: &[u8]) -> Result<(), AllocError>
    ensures { OnOk result (out.new.items ≡ out.old.items ++ spec.renamed text.now) }
{
    out.extend_from_slice(b"aag")?;
    if text.len() > 3 {
        out.extend_from_slice(&text[3..])?;
    }
    Ok(())
}

/// Adds the lines of inputs, latches, outputs, gates and symbols.
#[tactic(auto, using(crate::proofs::Headers::sums))]
fn push_sections(out: &mut Vec<u8>, counts: Counts, bytes: &[u8]) -> Result<(), AllocError>
    requires low { AreLow counts }
    requires packed { is_packed_by counts ≡ true }
    ensures { OnOk result (out.new.items ≡ spec.joined (spec.sections_in counts
        (spec.stage (spec.inputs_in 1 counts.inputs out.old.items) bytes.now))) }
{
    push_inputs(out, counts.inputs)?;
    let outputs = push_latches(out, 1 + counts.inputs, counts.latches, bytes)?;
    let gates = push_outputs(out, counts.outputs, outputs)?;
    let first = 1 + counts.inputs + counts.latches;
    let symbols = push_gates(out, first, counts.gates, gates)?;
    push_tail(out, symbols)
}

/// The header's line with its LF, by the first word of the ASCII form.
fn header_line(alloc: Global, header: FirstLine) -> Result<Vec<u8>, AllocError>
    ensures { IfOk result (λ t.
        t.items ≡ spec.renamed (line_bytes (line_of header.entry.text.now header.entry.ended))) }
{
    let mut line = Vec::new(alloc);
    push_line(&mut line, header.text, header.ended)?;
    let mut text = Vec::new(alloc);
    push_renamed(&mut text, &line)?;
    Ok(text)
}

/// The ASCII text of a binary one whose header has these counts.
fn ascii_with(alloc: Global, counts: Counts, header: FirstLine) -> Result<Vec<u8>, AllocError>
    requires { AreLow counts }
    ensures { IfOk result (λ t. t.items ≡ spec.ascii_with counts
        (cut_of header.entry.text.now header.entry.ended header.entry.rest.now)) }
{
    if !is_packed(counts) {
        return Ok(Vec::new(alloc));
    }
    let mut text = header_line(alloc, header)?;
    push_sections(&mut text, counts, header.rest)?;
    Ok(text)
}

/// A text with the first word of the ASCII form.
fn renamed(alloc: Global, bytes: &[u8]) -> Result<Vec<u8>, AllocError>
    ensures { IfOk result (λ t. t.items ≡ spec.renamed bytes.now) }
{
    let mut text = Vec::new(alloc);
    push_renamed(&mut text, bytes)?;
    Ok(text)
}

/// The ASCII text that a binary one stands for (the AIGER 1.9 report). Where the binary text is faulty it is a text
/// with a fault in the line of the same content: it ends before a gate whose fanins aren't below it, or are cut off.
/// Takes time linear in the text, and in the counts of its header, which are at most 2,097,152.
#[tactic(auto, unfolding(crate::specs::Ascii::ascii_of))]
pub fn ascii_text(alloc: Global, bytes: &[u8]) -> Result<Vec<u8>, AllocError>
    ensures { IfOk result (λ t. t.items ≡ spec.ascii_of bytes.now) }
{
    let header = first_line(bytes);
    if !header.ended {
        return renamed(alloc, bytes);
    }
    match counts_in(header.text) {
        Some(counts) => ascii_with(alloc, counts, header),
        None => renamed(alloc, bytes),
    }
}
