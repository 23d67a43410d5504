//! The plain text, and the sections, of a text.

ghost use Rattle.std.specs.Prelude.{◌≡◌, IfOk};
ghost use Rattle.text_core.specs.Lines.{lines_of};
ghost use Rattle.aiger_binary.specs.Ascii.{ascii_in};
ghost use Rattle.aiger_sections.specs.Plain as spec;

use crate::header::{
    Sections, header_numbers, is_sectioned, line_count, push_plain_header, sections_by,
};
use crate::lines::push_lines;
use aiger_binary::{ascii_text, is_binary};
use std::alloc::{AllocError, Global};
use text_core::next_line;

/// The ASCII text of a text in either form.
fn ascii_of(alloc: Global, bytes: &[u8]) -> Result<Vec<u8>, AllocError>
    ensures { IfOk result (λ t. t.items ≡ ascii_in bytes.now) }
{
    if is_binary(bytes) {
        ascii_text(alloc, bytes)
    } else {
        Vec::from_slice(alloc, bytes)
    }
}

/// The plain text of a text whose header has the numbers, and is followed by `rest`.
#[tactic(auto, using(crate::proofs::Numbers::totals))]
fn plain_with(
    alloc: Global,
    bytes: &[u8],
    rest: &[u8],
    numbers: &[u32],
) -> Result<Vec<u8>, AllocError>
    ensures { IfOk result (λ t. t.items ≡ spec.plain_with bytes.now (lines_of rest.now) numbers.now) }
{
    let sections = sections_by(numbers);
    if !is_sectioned(sections) {
        return Vec::from_slice(alloc, bytes);
    }
    let mut text = Vec::new(alloc);
    push_plain_header(&mut text, numbers)?;
    push_lines(&mut text, sections, line_count(numbers), rest)?;
    Ok(text)
}

/// The plain text of an ASCII text.
#[tactic(auto, unfolding(crate::specs::Plain::plain_of))]
pub(crate) fn plain_of(alloc: Global, bytes: &[u8]) -> Result<Vec<u8>, AllocError>
    ensures { IfOk result (λ t. t.items ≡ spec.plain_of bytes.now) }
{
    let Some((text, ended, rest)) = next_line(bytes) else {
        return Vec::from_slice(alloc, bytes);
    };
    if !ended {
        return Vec::from_slice(alloc, bytes);
    }
    let numbers = header_numbers(alloc, text)?;
    plain_with(alloc, bytes, rest, &numbers)
}

/// The plain text of a text in either form: bad states and constraints are further outputs, after the outputs. A text
/// without them is its own plain text, or its ASCII text if it is binary. The lines of a faulty text keep their faults.
/// Takes time linear in the text, and in the counts of a binary header.
pub fn plain_text(alloc: Global, bytes: &[u8]) -> Result<Vec<u8>, AllocError>
    ensures { IfOk result (λ t. t.items ≡ spec.plain_in bytes.now) }
{
    let text = ascii_of(alloc, bytes)?;
    plain_of(alloc, &text)
}

/// The sections of an ASCII text.
#[tactic(auto, unfolding(crate::specs::Plain::sections_of))]
pub(crate) fn sections_of(alloc: Global, bytes: &[u8]) -> Result<Sections, AllocError>
    ensures { IfOk result (λ s. s ≡ spec.sections_of bytes.now) }
{
    let Some((text, _, _)) = next_line(bytes) else {
        return Ok(sections_by(&[]));
    };
    let numbers = header_numbers(alloc, text)?;
    Ok(sections_by(&numbers))
}

/// How many outputs, bad states and constraints a text in either form has, by its header; 0 where it has none.
pub fn sections(alloc: Global, bytes: &[u8]) -> Result<Sections, AllocError>
    ensures { IfOk result (λ s. s ≡ spec.sections_in bytes.now) }
{
    let text = ascii_of(alloc, bytes)?;
    sections_of(alloc, &text)
}

/// Whether two texts have as many outputs, bad states and constraints.
#[tactic(auto, unfolding(crate::specs::Plain::are_same))]
pub fn same_sections(first: Sections, second: Sections) -> bool
    ensures { result ≡ spec.are_same first second }
{
    first.outputs == second.outputs
        && first.bads == second.bads
        && first.constraints == second.constraints
}
