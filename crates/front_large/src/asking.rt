//! What words ask for that may name files.
ghost use Rattle.std.specs.Prelude.{◌≡◌, nat_le, length, is_some, IfOk, IfErr};
ghost use Rattle.command_line.specs.CommandLine.{spelled, command_of};
ghost use Rattle.file_words.specs.Lines.{line_value};
ghost use Rattle.front_core.specs.Asked.{IsNotPlain};
ghost use Rattle.front_large.specs.LargeAsked as spec;

use crate::large::Large;
use crate::words::large_in;
use command_line::read_words;
use file_words::{FileLine, read_line};
use std::alloc::{AllocError, Global};

/// A line whose words ask for a large question.
#[derive(Drop)]
pub struct LargeLine {
    /// The line, with its files.
    pub line: FileLine,
    /// The question.
    pub asked: Large,
}

/// Whether words are a command line as they are.
#[tactic(auto, using(crate::proofs::Reading::reading))]
fn is_plain(words: &Vec<String>) -> bool
    ensures { result ≡ is_some (command_of (spelled words.now)) }
{
    match read_words(words) {
        Ok(_) => true,
        Err(_) => false,
    }
}

/// Whether a line names at most one file to read.
#[tactic(auto, using(crate::proofs::Questions::counting))]
fn is_few(line: &FileLine) -> bool
    ensures { result ≡ nat_le (length (line_value line.now).operands) 1 }
{
    line.operands.len() <= 1
}

/// Whether a line names no other files than are read and written.
fn fits(line: &FileLine) -> bool
    ensures { result ≡ spec.fits (line_value line.now) }
{
    if !is_few(line) {
        return false;
    }
    line.certificate.is_none()
}

/// What words ask for that are no command line as they are; None if they ask for no large question.
#[tactic(auto, using(crate::proofs::Questions::asking))]
fn large_of_line(alloc: Global, words: &Vec<String>) -> Result<Option<LargeLine>, AllocError>
    requires { IsNotPlain (spelled words.now) }
    ensures { IfOk result (λ found. spec.IsLargeOf (spelled words.now) found) }
{
    let Some(line) = read_line(alloc, words)? else {
        return Ok(None);
    };
    let Some(asked) = large_in(alloc, &line.words)? else {
        return Ok(None);
    };
    if !fits(&line) {
        return Ok(None);
    }
    Ok(Some(LargeLine { line, asked }))
}

/// What words ask for; None if they ask for no large question. Words that are a command line as they are ask for none.
#[tactic(auto, using(crate::proofs::Questions::plainness))]
pub(crate) fn large_line(
    alloc: Global,
    words: &Vec<String>,
) -> Result<Option<LargeLine>, AllocError>
    ensures found { IfOk result (λ found. spec.IsLargeOf (spelled words.now) found) }
    ensures other { IfErr result (λ _. IsNotPlain (spelled words.now)) }
{
    if is_plain(words) {
        return Ok(None);
    }
    large_of_line(alloc, words)
}
