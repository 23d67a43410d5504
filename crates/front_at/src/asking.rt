//! What words ask for that may name files.
ghost use Rattle.std.specs.Prelude.{◌≡◌, ◌==◌, length, map, is_some, Bool, Vec, IfOk, IfErr};
ghost use Rattle.std.specs.Global.{Global};
ghost use Rattle.std.specs.Option.{option_map};
ghost use Rattle.std.specs.String.{string_bytes};
ghost use Rattle.command_line.specs.CommandLine.{spelled, command_of};
ghost use Rattle.command_line.specs.Options.{is_word as is_word_of};
ghost use Rattle.file_words.specs.Lines.{line_value};
ghost use Rattle.front_core.specs.Asked.{IsNotPlain};
ghost use Rattle.front_at.specs.AtAsked as spec;

use cmd_at::read_bits;
use command_line::read_words;
use file_words::{FileLine, read_line};
use std::alloc::{AllocError, Global};

/// A line whose words ask for values.
#[derive(Drop)]
pub struct AtLine {
    /// The line, with its files.
    pub line: FileLine,
    /// The bits of the sources.
    pub bits: Vec<bool>,
}

/// Whether two words are the same.
fn is_word(word: &[u8], name: &[u8]) -> bool
    ensures { result ≡ is_word_of word.now name.now }
{
    word == name
}

/// Whether a command and its option are `equiv --at`.
fn names_values(name: &String, option: &String) -> bool
    ensures { result ≡ spec.names_values (string_bytes name.now) (string_bytes option.now) }
{
    if !is_word(name.as_bytes(), b"equiv") {
        return false;
    }
    is_word(option.as_bytes(), b"--at")
}

/// The bits that a command with one option asks for.
fn bits_for(
    alloc: Global,
    name: &String,
    option: &String,
    word: &String,
) -> Result<Option<Vec<bool>>, AllocError>
    ensures { IfOk result (λ found. option_map (λ (bits : Vec Bool Global). bits.items) found ≡
        spec.bits_for (string_bytes name.now) (string_bytes option.now) (string_bytes word.now)) }
{
    if !names_values(name, option) {
        return Ok(None);
    }
    read_bits(alloc, word.as_bytes())
}

/// The bits that the words of a line without files ask for.
#[tactic(auto, using(crate::proofs::Questions::reading))]
fn bits_asked(alloc: Global, words: &[String]) -> Result<Option<Vec<bool>>, AllocError>
    ensures { IfOk result (λ found. option_map (λ (bits : Vec Bool Global). bits.items) found ≡
        spec.at_in (map string_bytes words.now)) }
{
    let Some((name, options)) = words.split_first() else {
        return Ok(None);
    };
    let Some((option, values)) = options.split_first() else {
        return Ok(None);
    };
    let Some((word, rest)) = values.split_first() else {
        return Ok(None);
    };
    if !rest.is_empty() {
        return Ok(None);
    }
    bits_for(alloc, name, option, word)
}

/// Whether words are a command line as they are.
#[tactic(auto, using(crate::proofs::Questions::plains))]
fn is_plain(words: &Vec<String>) -> bool
    ensures { result ≡ is_some (command_of (spelled words.now)) }
{
    match read_words(words) {
        Ok(_) => true,
        Err(_) => false,
    }
}

/// Whether a line names two files to read.
#[tactic(auto, using(crate::proofs::Questions::counting))]
fn are_two(line: &FileLine) -> bool
    ensures { result ≡ (length (line_value line.now).operands == 2) }
{
    line.operands.len() == 2
}

/// Whether a line names no other files than are read and written.
fn fits(line: &FileLine) -> bool
    ensures { result ≡ spec.fits (line_value line.now) }
{
    if !are_two(line) {
        return false;
    }
    line.certificate.is_none()
}

/// What words ask for that are no command line as they are; None if they ask for no values.
#[tactic(auto, using(crate::proofs::Questions::asking))]
fn at_of_line(alloc: Global, words: &Vec<String>) -> Result<Option<AtLine>, AllocError>
    requires { IsNotPlain (spelled words.now) }
    ensures { IfOk result (λ found. spec.IsAtOf (spelled words.now) found) }
{
    let Some(line) = read_line(alloc, words)? else {
        return Ok(None);
    };
    let Some(bits) = bits_asked(alloc, &line.words)? else {
        return Ok(None);
    };
    if !fits(&line) {
        return Ok(None);
    }
    Ok(Some(AtLine { line, bits }))
}

/// What words ask for; None if they ask for no values. Words that are a command line as they are ask for none.
#[tactic(auto, using(crate::proofs::Questions::plainness))]
pub(crate) fn at_line(alloc: Global, words: &Vec<String>) -> Result<Option<AtLine>, AllocError>
    ensures found { IfOk result (λ found. spec.IsAtOf (spelled words.now) found) }
    ensures other { IfErr result (λ _. IsNotPlain (spelled words.now)) }
{
    if is_plain(words) {
        return Ok(None);
    }
    at_of_line(alloc, words)
}
