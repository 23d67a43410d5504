//! Sorts the words of a command line.
ghost use Rattle.std.specs.Prelude.{◌≡◌, ◌++◌, ◌∷◌, [], map, IfOk, OnOk};
ghost use Rattle.std.specs.Option.{option_map};
ghost use Rattle.std.specs.String.{string_bytes};
ghost use Rattle.command_line.specs.CommandLine.{spelled};
ghost use Rattle.file_words.specs.Sorting as spec;
ghost use Rattle.file_words.specs.Lines.{line_value};

use crate::formats::take_format;
use crate::line::{FileLine, Next};
use std::alloc::{AllocError, Global};

/// Whether two words are the same.
pub(crate) fn is_word(word: &[u8], other: &[u8]) -> bool
    ensures { result ≡ spec.is_same word.now other.now }
{
    word == other
}

/// Whether a word is the name of an option.
#[tactic(auto, unfolding(crate::specs::Sorting::is_option))]
fn is_option(word: &[u8]) -> bool
    ensures { result ≡ spec.is_option word.now }
{
    let Some((first, rest)) = word.split_first() else {
        return false;
    };
    *first == b'-' && !rest.is_empty()
}

/// Whether two files have the same name.
pub fn is_same(file: &str, other: &str) -> bool
    ensures { result ≡ spec.is_same file.now other.now }
{
    is_word(file.as_bytes(), other.as_bytes())
}

/// Whether a file is standard input or output.
pub fn is_standard(file: &str) -> bool
    ensures { result ≡ spec.is_standard file.now }
{
    is_word(file.as_bytes(), b"-")
}

/// Appends a copy of a word.
pub(crate) fn push_word(
    alloc: Global,
    words: &mut Vec<String>,
    word: &str,
) -> Result<(), AllocError>
    ensures { OnOk result (map string_bytes words.new.items ≡ map string_bytes words.old.items ++ word.now ∷ []) }
{
    words.push(String::from_str(alloc, word)?)?;
    Ok(())
}

/// Takes the value of `-o`.
fn take_output(alloc: Global, line: &mut FileLine, word: &str) -> Result<(), AllocError>
    ensures { OnOk result (line_value line.new ≡
        spec.output_taken (line_value line.old).output (line_value line.old) word.now) }
{
    if line.output.is_some() {
        line.next = Next::Nothing;
        return Ok(());
    }
    line.output = Some(String::from_str(alloc, word)?);
    line.next = Next::Word;
    Ok(())
}

/// Takes the value of `--certificate`.
fn take_certificate(alloc: Global, line: &mut FileLine, word: &str) -> Result<(), AllocError>
    ensures { OnOk result (line_value line.new ≡
        spec.certificate_taken (line_value line.old).certificate (line_value line.old) word.now) }
{
    if line.certificate.is_some() {
        line.next = Next::Nothing;
        return Ok(());
    }
    line.certificate = Some(String::from_str(alloc, word)?);
    line.next = Next::Word;
    Ok(())
}

/// Takes an option's name, an operand, or `--`.
fn take_word(alloc: Global, line: &mut FileLine, word: &str) -> Result<(), AllocError>
    ensures { OnOk result (line_value line.new ≡ spec.word_taken (line_value line.old) word.now) }
{
    if is_word(word.as_bytes(), b"--") {
        line.next = Next::Operand;
        return Ok(());
    }
    if is_word(word.as_bytes(), b"-o") {
        line.next = Next::Output;
        return Ok(());
    }
    if is_word(word.as_bytes(), b"--certificate") {
        line.next = Next::Certificate;
        return Ok(());
    }
    if is_option(word.as_bytes()) {
        line.next = Next::Value;
        push_word(alloc, &mut line.words, word)?;
        return Ok(());
    }
    push_word(alloc, &mut line.operands, word)?;
    Ok(())
}

/// Takes the next word.
fn take(alloc: Global, line: &mut FileLine, word: &str) -> Result<(), AllocError>
    ensures { OnOk result (line_value line.new ≡ spec.stepped (line_value line.old) word.now) }
{
    match line.next {
        Next::Word => take_word(alloc, line, word)?,
        Next::Value => {
            line.next = Next::Word;
            push_word(alloc, &mut line.words, word)?;
        }
        Next::Output => take_output(alloc, line, word)?,
        Next::Certificate => take_certificate(alloc, line, word)?,
        Next::Operand => push_word(alloc, &mut line.operands, word)?,
        Next::Nothing => {}
    }
    Ok(())
}

/// The line before its options: the command's name.
fn first_line(alloc: Global, name: &str) -> Result<FileLine, AllocError>
    ensures { IfOk result (λ line. line_value line ≡ spec.first_line name.now) }
{
    let mut words = Vec::new(alloc);
    push_word(alloc, &mut words, name)?;
    Ok(FileLine {
        words,
        operands: Vec::new(alloc),
        output: None,
        certificate: None,
        next: Next::Word,
    })
}

/// Takes words, one after the other.
#[tactic(auto, unfolding(crate::specs::Sorting::sorted))]
fn take_all(alloc: Global, line: &mut FileLine, words: &[String]) -> Result<(), AllocError>
    ensures { OnOk result (line_value line.new ≡ spec.sorted (line_value line.old) (map string_bytes words.now)) }
{
    let mut left = words;
    while let Some((word, rest)) = left.split_first() {
        take(alloc, line, word.as_str())?;
        left = rest;
    }
    Ok(())
}

/// Whether a line may end here.
fn is_whole(next: Next) -> bool
    ensures { result ≡ spec.is_whole next }
{
    match next {
        Next::Word | Next::Operand => true,
        Next::Value | Next::Output | Next::Certificate | Next::Nothing => false,
    }
}

/// The words of a command line, sorted; None if there is no word, a value is missing, or `-o` or
/// `--certificate` is named twice. With a file of `improve` whose name ends with `.bench`, the words get
/// `--format bench` if they name no format.
#[tactic(auto, unfolding(crate::specs::Sorting::file_line))]
pub fn read_line(alloc: Global, words: &Vec<String>) -> Result<Option<FileLine>, AllocError>
    ensures { IfOk result (λ found. option_map line_value found ≡ spec.file_line (spelled words.now)) }
{
    let Some((name, options)) = words.split_first() else {
        return Ok(None);
    };
    let mut line = first_line(alloc, name.as_str())?;
    take_all(alloc, &mut line, options)?;
    if !is_whole(line.next) {
        return Ok(None);
    }
    take_format(alloc, &mut line)?;
    Ok(Some(line))
}
