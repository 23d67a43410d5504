//! What words ask for whose first is `formula`.
ghost use Rattle.std.specs.Prelude.{◌≡◌, nat_le, length, map, IfOk};
ghost use Rattle.std.specs.Option.{option_map};
ghost use Rattle.std.specs.String.{string_bytes};
ghost use Rattle.command_line.specs.CommandLine.{spelled};
ghost use Rattle.command_line.specs.Options.{is_word as is_word_of};
ghost use Rattle.file_io.specs.Texts.{text_in};
ghost use Rattle.file_words.specs.Lines.{line_value};
ghost use Rattle.front_core.specs.Asked.{first_in};
ghost use Rattle.cmd_formula.specs.WordValues.{asked_value};
ghost use Rattle.front_formula.specs.FormulaAsked as spec;

use cmd_formula::{FormulaWords, read_words};
use file_words::{FileLine, is_standard};
use front_core::is_apart;
use std::alloc::{AllocError, Global};

/// Whether two words are the same.
fn is_word(word: &[u8], name: &[u8]) -> bool
    ensures { result ≡ is_word_of word.now name.now }
{
    word == name
}

/// Whether the first word is `formula`.
pub(crate) fn names_formula(words: &Vec<String>) -> bool
    ensures { result ≡ spec.names_formula (spelled words.now) }
{
    let Some((name, _)) = words.split_first() else {
        return false;
    };
    is_word(name.as_bytes(), b"formula")
}

/// What the words of a line without files ask for.
pub(crate) fn part_asked(alloc: Global, line: &FileLine) -> Result<Option<FormulaWords>, AllocError>
    ensures { IfOk result (λ asked. option_map asked_value asked ≡ spec.part_asked (line_value line.now).words) }
{
    let Some((_, options)) = line.words.split_first() else {
        return Ok(None);
    };
    read_words(alloc, options)
}

/// Whether the first of some files is one that isn't standard input.
pub(crate) fn reads_plain_file(files: &[String]) -> bool
    ensures { result ≡ spec.is_plain_file (first_in (map string_bytes files.now)) }
{
    let Some((file, _)) = files.split_first() else {
        return false;
    };
    !is_standard(file.as_str())
}

/// Whether the file of the log, if it is named, fits those that are read and written.
fn log_fits(log: &Option<String>, files: &[String], output: &Option<String>) -> bool
    ensures { result ≡ spec.log_fits (option_map string_bytes log.now) (first_in (map string_bytes files.now))
        (option_map string_bytes output.now) }
{
    let Some(file) = log else {
        return true;
    };
    if is_standard(file.as_str()) {
        return false;
    }
    if !reads_plain_file(files) {
        return false;
    }
    is_apart(file, output)
}

/// Whether a line names at most one file to read.
#[tactic(auto, using(crate::proofs::Counting::counting))]
fn is_few(line: &FileLine) -> bool
    ensures { result ≡ nat_le (length (line_value line.now).operands) 1 }
{
    line.operands.len() <= 1
}

/// Whether a line names no other files than the command reads and writes.
pub(crate) fn fits(line: &FileLine, asked: &FormulaWords) -> bool
    ensures { result ≡ spec.fits (line_value line.now) (asked_value asked.now) }
{
    if !is_few(line) {
        return false;
    }
    if line.certificate.is_some() {
        return false;
    }
    log_fits(&asked.log, &line.operands, &line.output)
}

/// The name of the file of the log.
pub(crate) fn log_of(asked: &FormulaWords) -> Option<&str>
    ensures { text_in result ≡ (asked_value asked.now).log }
{
    match &asked.log {
        None => None,
        Some(file) => Some(file.as_str()),
    }
}
