//! Whether the words of a line ask for the miter of two netlists.
ghost use Rattle.std.specs.Prelude.{◌≡◌, map, Some, IfSome};
ghost use Rattle.std.specs.Option.{option_map};
ghost use Rattle.std.specs.String.{string_bytes};
ghost use Rattle.command_line.specs.CommandLine.{IsAskable, IsBudget};
ghost use Rattle.file_words.specs.Lines.{line_value};
ghost use Rattle.front_core.specs.Asked.{first_in, second_in, is_apart as is_apart_of};
ghost use Rattle.front_formula.specs.FormulaAsked.{is_plain_file};
ghost use Rattle.front_formula.specs.MiterAsked as spec;
ghost use Rattle.front_formula.specs.MiterValues.{picked_value};

use crate::asking::reads_plain_file;
use crate::picking::MiterWords;
use command_line::{Command, read_words};
use file_words::{FileLine, is_same, is_standard};
use front_core::{fits, is_apart, pair_budget};

/// Whether the second of some files is one that isn't standard input.
fn reads_plain_second(files: &[String]) -> bool
    ensures { result ≡ is_plain_file (second_in (map string_bytes files.now)) }
{
    let Some((_, others)) = files.split_first() else {
        return false;
    };
    let Some((file, _)) = others.split_first() else {
        return false;
    };
    !is_standard(file.as_str())
}

/// Whether the first two files are plain ones.
fn are_plain_files(files: &[String]) -> bool
    ensures { result ≡ spec.are_plain_files (map string_bytes files.now) }
{
    if !reads_plain_file(files) {
        return false;
    }
    reads_plain_second(files)
}

/// Whether a file isn't the first of some files.
fn is_apart_from_first(file: &String, files: &[String]) -> bool
    ensures { result ≡ is_apart_of (string_bytes file.now) (first_in (map string_bytes files.now)) }
{
    let Some((first, _)) = files.split_first() else {
        return true;
    };
    !is_same(file.as_str(), first.as_str())
}

/// Whether a file isn't the second of some files.
fn is_apart_from_second(file: &String, files: &[String]) -> bool
    ensures { result ≡ is_apart_of (string_bytes file.now) (second_in (map string_bytes files.now)) }
{
    let Some((_, others)) = files.split_first() else {
        return true;
    };
    let Some((second, _)) = others.split_first() else {
        return true;
    };
    !is_same(file.as_str(), second.as_str())
}

/// Whether a file is neither of the two netlists.
fn is_unread(file: &String, files: &[String]) -> bool
    ensures { result ≡ spec.is_unread (string_bytes file.now) (map string_bytes files.now) }
{
    if !is_apart_from_first(file, files) {
        return false;
    }
    is_apart_from_second(file, files)
}

/// Whether a file isn't standard output, nor one that the line names to be written or read.
fn is_own_file(file: &String, line: &FileLine) -> bool
    ensures { result ≡ spec.is_own_file (string_bytes file.now) (line_value line.now) }
{
    if is_standard(file.as_str()) {
        return false;
    }
    if !is_apart(file, &line.output) {
        return false;
    }
    if !is_apart(file, &line.certificate) {
        return false;
    }
    is_unread(file, &line.operands)
}

/// Whether the file of `--formula` is named and fits those of the line.
fn formula_fits(formula: &Option<String>, line: &FileLine) -> bool
    ensures { result ≡ spec.formula_fits (option_map string_bytes formula.now) (line_value line.now) }
{
    match formula {
        None => false,
        Some(file) => is_own_file(file, line),
    }
}

/// Whether the file of `--log`, if it is named, fits that of `--formula` and those of the line.
fn miter_log_fits(log: &Option<String>, formula: &Option<String>, line: &FileLine) -> bool
    ensures { result ≡ spec.miter_log_fits (option_map string_bytes log.now) (option_map string_bytes formula.now)
        (line_value line.now) }
{
    let Some(file) = log else {
        return true;
    };
    if !is_own_file(file, line) {
        return false;
    }
    is_apart(file, formula)
}

/// Whether both files fit.
fn outputs_fit(words: &MiterWords, line: &FileLine) -> bool
    ensures { result ≡ spec.outputs_fit (picked_value words.now) (line_value line.now) }
{
    if !formula_fits(&words.formula, line) {
        return false;
    }
    miter_log_fits(&words.log, &words.formula, line)
}

/// Whether all files are such as a miter needs.
fn fits_miter(words: &MiterWords, line: &FileLine) -> bool
    ensures { result ≡ spec.fits_miter (picked_value words.now) (line_value line.now) }
{
    if !words.good {
        return false;
    }
    if !are_plain_files(&line.operands) {
        return false;
    }
    outputs_fit(words, line)
}

/// The budget of a comparison of the two files that a line names.
fn budget_of(command: &Command, line: &FileLine) -> Option<u32>
    requires { IsAskable command.now }
    ensures exact { result ≡ spec.budget_for (Some command.now) (line_value line.now) }
    ensures budget { IfSome result IsBudget }
{
    if !fits(command, line) {
        return None;
    }
    pair_budget(command, line)
}

/// The budget of the comparison, if the words of a line ask for a miter.
#[tactic(auto, using(crate::proofs::Pairs::budgets))]
pub(crate) fn miter_budget(words: &MiterWords, line: &FileLine) -> Option<u32>
    ensures exact { result ≡ spec.miter_budget (picked_value words.now) (line_value line.now) }
    ensures budget { IfSome result IsBudget }
{
    if !fits_miter(words, line) {
        return None;
    }
    match read_words(&words.own) {
        Ok(command) => budget_of(&command, line),
        Err(_) => None,
    }
}
