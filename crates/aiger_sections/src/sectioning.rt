//! The outputs of a plain text in the sections of another text.

ghost use Rattle.std.specs.Prelude.{◌≡◌, false, true, IfOk};
ghost use Rattle.aiger_binary.specs.Ascii.{is_binary as is_binary_of};
ghost use Rattle.aiger_sections.specs.Plain as spec;

use crate::header::{Sections, header_numbers};
use crate::texts::{plain_of, same_sections, sections, sections_of};
use aiger_binary::is_binary;
use std::alloc::{AllocError, Global};
use text_core::{MOST_NUMBER, next_item, next_line, number_up_to, push_number};

/// Adds the header of the plain text, with the outputs in sections. Counts of 0 at the end are left out. Nothing is
/// promised of what is written: `sectioned` tests it.
fn push_header(
    alloc: Global,
    out: &mut Vec<u8>,
    sections: Sections,
    text: &[u8],
) -> Result<(), AllocError> {
    let numbers = header_numbers(alloc, text)?;
    out.extend_from_slice(b"aag")?;
    for place in 0..numbers.len() {
        out.push(b' ')?;
        push_number(
            out,
            if place == 3 {
                sections.outputs
            } else {
                numbers[place]
            },
        )?;
    }
    if sections.bads > 0 || sections.constraints > 0 {
        out.push(b' ')?;
        push_number(out, sections.bads)?;
    }
    if sections.constraints > 0 {
        out.push(b' ')?;
        push_number(out, sections.constraints)?;
    }
    out.push(b'\n')?;
    Ok(())
}

/// Adds the key of the output at a position.
fn push_output(out: &mut Vec<u8>, sections: Sections, position: u32) -> Result<(), AllocError> {
    if position < sections.outputs {
        out.push(b'o')?;
        return push_number(out, position);
    }
    let further = position - sections.outputs;
    if further < sections.bads {
        out.push(b'b')?;
        return push_number(out, further);
    }
    out.push(b'c')?;
    push_number(out, further - sections.bads)
}

/// Adds the text of a line: that of an output's symbol with the key of its section.
fn push_text(out: &mut Vec<u8>, sections: Sections, text: &[u8]) -> Result<(), AllocError> {
    let (key, _) = next_item(text);
    let Some((letter, digits)) = key.split_first() else {
        return out.extend_from_slice(text);
    };
    let position = number_up_to(MOST_NUMBER, digits);
    match position {
        Some(position) => {
            if *letter != b'o' {
                return out.extend_from_slice(text);
            }
            push_output(out, sections, position)?;
        }
        None => return out.extend_from_slice(text),
    }
    if key.len() < text.len() {
        out.extend_from_slice(&text[key.len()..])?;
    }
    Ok(())
}

/// Adds the lines after the header.
fn push_lines(out: &mut Vec<u8>, sections: Sections, bytes: &[u8]) -> Result<(), AllocError> {
    let mut left = bytes;
    while let Some((text, _, rest)) = next_line(left) {
        push_text(out, sections, text)?;
        out.push(b'\n')?;
        left = rest;
    }
    Ok(())
}

/// Bytes that may be the plain text with its outputs in sections.
fn guess(alloc: Global, sections: Sections, text: &[u8]) -> Result<Vec<u8>, AllocError> {
    let mut out = Vec::new(alloc);
    if let Some((header, _, rest)) = next_line(text) {
        push_header(alloc, &mut out, sections, header)?;
        push_lines(&mut out, sections, rest)?;
    }
    Ok(out)
}

/// Whether a text is the plain text of an ASCII text.
fn is_plain(alloc: Global, bytes: &[u8], text: &[u8]) -> Result<bool, AllocError>
    ensures { IfOk result (λ same. same ≡ true → spec.plain_of bytes.now ≡ text.now) }
{
    let plain = plain_of(alloc, bytes)?;
    Ok(plain.as_slice() == text)
}

/// Whether an ASCII text has the sections.
#[tactic(auto, using(crate::proofs::Fitting::fitting))]
fn has_sections(alloc: Global, bytes: &[u8], wanted: Sections) -> Result<bool, AllocError>
    ensures { IfOk result (λ same. same ≡ true → spec.sections_of bytes.now ≡ wanted) }
{
    let found = sections_of(alloc, bytes)?;
    Ok(same_sections(found, wanted))
}

/// The text whose plain text is `text`, with the sections of `given`, in the ASCII form. That it is one is tested, on
/// each text. A plain text of as many outputs as `given` has outputs, bad states and constraints always has one; where
/// there is none, the error is as if memory ran out, so that no other text is ever written.
#[tactic(auto, using(crate::proofs::Fitting::fitting))]
pub fn sectioned(alloc: Global, given: &[u8], text: &[u8]) -> Result<Vec<u8>, AllocError>
    ensures plain { IfOk result (λ t. spec.plain_in t.items ≡ text.now) }
    ensures sections { IfOk result (λ t. spec.sections_in t.items ≡ spec.sections_in given.now) }
    ensures form { IfOk result (λ t. is_binary_of t.items ≡ false) }
{
    let wanted = sections(alloc, given)?;
    let bytes = guess(alloc, wanted, text)?;
    let binary = is_binary(&bytes);
    let stands = is_plain(alloc, &bytes, text)?;
    let placed = has_sections(alloc, &bytes, wanted)?;
    if !binary && stands && placed {
        return Ok(bytes);
    }
    Err(AllocError)
}
