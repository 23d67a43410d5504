//! The parser's loop over the lines of a text.

ghost use Rattle.std.specs.Prelude.{◌≡◌, ◌<◌, ◌≤◌, ◌^◌, ◌+◌, length, IfOk};
ghost use Rattle.text_core.specs.Lines.{lines_of};
ghost use Rattle.aiger_text.specs.Reading.{Gives};
ghost use Rattle.aiger_text.specs.Valid.{IsAig};
ghost use Rattle.aiger_text.specs.Limits.{most_variables};
ghost use Rattle.aiger_text.specs.Statements as spec;

use crate::file::{AigFile, Counts};
use crate::header::header_of;
use crate::statements::take_line;
use net_core::NetError;
use std::alloc::Global;
use text_core::next_line;

/// The file before the first line after the header.
fn nothing(alloc: Global, counts: Counts) -> AigFile
    ensures { result ≡ spec.nothing counts }
{
    AigFile {
        variables: counts.variables,
        inputs: Vec::new(alloc),
        latches: Vec::new(alloc),
        outputs: Vec::new(alloc),
        gates: Vec::new(alloc),
        symbols: Vec::new(alloc),
    }
}

/// Whether there are as many inputs, latches, outputs and gates as the header says.
#[tactic(auto, unfolding(crate::specs::Statements::is_full))]
fn is_full(counts: Counts, file: &AigFile) -> bool
    ensures { result ≡ spec.is_full counts file.now }
{
    counts.inputs as usize <= file.inputs.len()
        && counts.latches as usize <= file.latches.len()
        && counts.outputs as usize <= file.outputs.len()
        && counts.gates as usize <= file.gates.len()
}

/// Whether a text is `c`.
fn is_mark(text: &[u8]) -> bool
    ensures { result ≡ spec.is_mark text.now }
{
    match text {
        [byte] => *byte == b'c',
        _ => false,
    }
}

/// Whether a line begins the comment.
#[tactic(auto, unfolding(crate::specs::Statements::is_comment))]
fn is_comment(counts: Counts, file: &AigFile, text: &[u8], ended: bool) -> bool
    ensures { result ≡ spec.is_comment counts file.now (record { text = text.now; ended = ended }) }
{
    is_full(counts, file) && ended && is_mark(text)
}

/// The file, if it is full at line `line`, after the last one.
fn closed(line: u32, counts: Counts, file: AigFile) -> Result<AigFile, NetError>
    ensures { Gives (λ f. f) result (spec.closed line counts file) }
{
    if is_full(counts, &file) {
        Ok(file)
    } else {
        Err(NetError::Syntax(line))
    }
}

/// The file, line by line after the header.
#[tactic(auto, unfolding(crate::specs::Statements::steps))]
fn read_lines(alloc: Global, counts: Counts, bytes: &[u8]) -> Result<AigFile, NetError>
    requires size { length bytes.now < 2 ^ 31 }
    requires few { counts.variables ≤ most_variables }
    ensures { Gives (λ f. f) result (spec.steps 2 counts (spec.nothing counts) (lines_of bytes.now)) }
{
    let mut file = nothing(alloc, counts);
    let mut number = 2;
    let mut left = bytes;
    while let Some((text, ended, rest)) = next_line(left) {
        if is_comment(counts, &file, text, ended) {
            return Ok(file);
        }
        take_line(alloc, number, counts, &mut file, text, ended)?;
        number += 1;
        left = rest;
    }
    closed(number, counts, file)
}

/// The counts of the header.
#[tactic(auto, using(crate::specs::FileLaws::headers), unfolding(crate::specs::Statements::begun))]
fn begin(alloc: Global, text: &[u8], ended: bool) -> Result<Counts, NetError>
    ensures counts { Gives (λ c. c) result (spec.begun (record { text = text.now; ended = ended })) }
    ensures few { IfOk result (λ c. c.variables ≤ most_variables) }
{
    if !ended {
        return Err(NetError::Syntax(1));
    }
    let counts = header_of(alloc, b"aag ", text)?;
    Ok(counts)
}

/// The file that a text spells.
#[tactic(auto, unfolding(crate::specs::Statements::file_of))]
fn read_file(alloc: Global, bytes: &[u8]) -> Result<AigFile, NetError>
    requires { length bytes.now < 2 ^ 31 }
    ensures { Gives (λ f. f) result (spec.file_of bytes.now) }
{
    let Some((text, ended, rest)) = next_line(bytes) else {
        return Err(NetError::Syntax(1));
    };
    let counts = begin(alloc, text, ended)?;
    read_lines(alloc, counts, rest)
}

/// Parses the ASCII form of AIGER (the AIGER 1.9 report).
///
/// Lines are checked in order, and the first fault is reported with its line; where lines are missing it is the line
/// after the last one. More than 1,048,576 variables or outputs, bad states, constraints, justice and fairness
/// properties aren't supported: the error has the letter of the count in the header. Whether each literal that is read
/// is defined, and once, isn't checked here.
#[tactic(auto, using(crate::specs::FileLaws::files))]
pub fn read_ascii(alloc: Global, bytes: &[u8]) -> Result<AigFile, NetError>
    requires { length bytes.now < 2 ^ 31 }
    ensures file { Gives (λ f. f) result (spec.file_of bytes.now) }
    ensures aig { IfOk result IsAig }
{
    let file = read_file(alloc, bytes)?;
    Ok(file)
}
