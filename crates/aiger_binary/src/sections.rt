//! The lines of inputs, latches, outputs and symbols.

ghost use Rattle.std.specs.Prelude.{◌≡◌, ◌+◌, ◌≤◌, ◌++◌, [], OnOk, IfOk};
ghost use Rattle.text_core.specs.Lines.{line_bytes, lines_of};
ghost use Rattle.aiger_binary.specs.Ascii as spec;
ghost use Rattle.aiger_binary.specs.Cut.{line_of};
ghost use Rattle.aiger_binary.specs.Header.{most_count};

use crate::cutting::first_line;
use std::alloc::AllocError;
use text_core::{next_line, push_number};

/// Adds a line, with its LF if one ends it.
pub(crate) fn push_line(out: &mut Vec<u8>, text: &[u8], ended: bool) -> Result<(), AllocError>
    ensures { OnOk result (out.new.items ≡
        out.old.items ++ line_bytes (line_of text.now ended)) }
{
    out.extend_from_slice(text)?;
    if ended {
        out.push(b'\n')?;
    }
    Ok(())
}

/// Adds the lines of inputs.
#[tactic(auto, using(crate::proofs::OneMore::inputs))]
pub(crate) fn push_inputs(out: &mut Vec<u8>, count: u32) -> Result<(), AllocError>
    requires { count ≤ most_count }
    ensures { OnOk result (out.new.items ≡ spec.inputs_in 1 count out.old.items) }
{
    let mut variable = 1;
    let mut left = count;
    while left > 0 {
        push_number(out, variable * 2)?;
        out.push(b'\n')?;
        variable += 1;
        left -= 1;
    }
    Ok(())
}

/// Adds the next line of the bytes, after the literal of a latch, and returns what is left.
#[tactic(auto, unfolding(crate::specs::Ascii::lined))]
fn push_latch<'a>(out: &mut Vec<u8>, variable: u32, bytes: &'a [u8]) -> Result<&'a [u8], AllocError>
    requires { variable ≤ most_count }
    ensures { IfOk result (λ rest. spec.stage out.new.items rest.now ≡
        spec.lined (spec.latch_start variable) out.old.items bytes.now) }
{
    if bytes.is_empty() {
        return Ok(bytes);
    }
    let line = first_line(bytes);
    push_number(out, variable * 2)?;
    out.push(b' ')?;
    push_line(out, line.text, line.ended)?;
    Ok(line.rest)
}

/// Adds the lines of latches, and returns the bytes that are left.
#[tactic(auto, using(crate::proofs::OneMore::latches))]
pub(crate) fn push_latches<'a>(
    out: &mut Vec<u8>,
    first: u32,
    count: u32,
    bytes: &'a [u8],
) -> Result<&'a [u8], AllocError>
    requires { first + count ≤ most_count + 1 }
    ensures { IfOk result (λ rest. spec.stage out.new.items rest.now ≡
        spec.latches_in first count (spec.stage out.old.items bytes.now)) }
{
    let mut variable = first;
    let mut left = count;
    let mut rest = bytes;
    while left > 0 {
        rest = push_latch(out, variable, rest)?;
        variable += 1;
        left -= 1;
    }
    Ok(rest)
}

/// Adds the next line of the bytes, and returns what is left.
#[tactic(auto, unfolding(crate::specs::Ascii::lined))]
fn push_output<'a>(out: &mut Vec<u8>, bytes: &'a [u8]) -> Result<&'a [u8], AllocError>
    ensures { IfOk result (λ rest. spec.stage out.new.items rest.now ≡ spec.lined [] out.old.items bytes.now) }
{
    if bytes.is_empty() {
        return Ok(bytes);
    }
    let line = first_line(bytes);
    push_line(out, line.text, line.ended)?;
    Ok(line.rest)
}

/// Adds the lines of outputs, and returns the bytes that are left.
#[tactic(auto, using(crate::proofs::OneMore::outputs))]
pub(crate) fn push_outputs<'a>(
    out: &mut Vec<u8>,
    count: u32,
    bytes: &'a [u8],
) -> Result<&'a [u8], AllocError>
    ensures { IfOk result (λ rest. spec.stage out.new.items rest.now ≡
        spec.outputs_in count (spec.stage out.old.items bytes.now)) }
{
    let mut left = count;
    let mut rest = bytes;
    while left > 0 {
        rest = push_output(out, rest)?;
        left -= 1;
    }
    Ok(rest)
}

/// Whether a text begins with a digit.
fn begins_digit(text: &[u8]) -> bool
    ensures { result ≡ spec.begins_digit text.now }
{
    match text.first() {
        Some(byte) => byte.is_ascii_digit(),
        None => false,
    }
}

/// Whether a line begins the comment; it isn't the symbol of a constraint.
fn begins_comment(text: &[u8]) -> bool
    ensures { result ≡ spec.begins_comment text.now }
{
    match text.split_first() {
        Some((byte, rest)) => *byte == b'c' && !begins_digit(rest),
        None => false,
    }
}

/// Adds the lines of symbols, and that of the comment.
#[tactic(auto, unfolding(crate::specs::Ascii::tail_of))]
pub(crate) fn push_tail(out: &mut Vec<u8>, bytes: &[u8]) -> Result<(), AllocError>
    ensures { OnOk result (out.new.items ≡ out.old.items ++ spec.tail_of (lines_of bytes.now)) }
{
    let mut left = bytes;
    while let Some((text, ended, rest)) = next_line(left) {
        if begins_comment(text) {
            out.push(b'c')?;
            out.push(b'\n')?;
            return Ok(());
        }
        push_line(out, text, ended)?;
        left = rest;
    }
    Ok(())
}
