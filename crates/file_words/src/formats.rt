//! The format of a netlist, by the end of its file's name.
ghost use Rattle.std.specs.Prelude.{◌≡◌, map, OnOk};
ghost use Rattle.std.specs.String.{string_bytes};
ghost use Rattle.command_line.specs.CommandLine.{is_named as is_named_of};
ghost use Rattle.file_words.specs.Formats as spec;
ghost use Rattle.file_words.specs.Lines.{line_value};
ghost use Rattle.file_words.specs.Sorting.{formatted};

use crate::line::FileLine;
use crate::sorting::{is_word, push_word};
use std::alloc::{AllocError, Global};

/// Whether a word ends with a text that isn't empty.
#[tactic(auto, unfolding(crate::specs::Formats::ends_with))]
pub fn ends_with(word: &[u8], end: &[u8]) -> bool
    ensures { result ≡ spec.ends_with word.now end.now }
{
    let mut left = word;
    while let Some((_, rest)) = left.split_first() {
        if is_word(left, end) {
            return true;
        }
        left = rest;
    }
    false
}

/// Whether an option is named, where names and values alternate.
#[tactic(auto, unfolding(command_line::specs::CommandLine::word_after))]
fn is_named(name: &[u8], words: &[String]) -> bool
    ensures { result ≡ is_named_of name.now (map string_bytes words.now) }
{
    let mut left = words;
    while let Some((found, after)) = left.split_first() {
        let Some((_, rest)) = after.split_first() else {
            return false;
        };
        if is_word(name, found.as_bytes()) {
            return true;
        }
        left = rest;
    }
    false
}

/// Whether the first of some files is in BENCH by its name.
fn names_bench(files: &[String]) -> bool
    ensures { result ≡ spec.names_bench (map string_bytes files.now) }
{
    let Some((file, _)) = files.split_first() else {
        return false;
    };
    ends_with(file.as_bytes(), b".bench")
}

/// Whether words are those of `improve` without `--format`, and the file is in BENCH by its name.
fn wants_bench(words: &[String], files: &[String]) -> bool
    ensures { result ≡ spec.wants_bench (map string_bytes words.now) (map string_bytes files.now) }
{
    let Some((name, options)) = words.split_first() else {
        return false;
    };
    if !is_word(name.as_bytes(), b"improve") {
        return false;
    }
    if is_named(b"--format", options) {
        return false;
    }
    names_bench(files)
}

/// Appends the words `--format bench`, if the file of `improve` is in BENCH by its name and no format is named.
pub(crate) fn take_format(alloc: Global, line: &mut FileLine) -> Result<(), AllocError>
    ensures { OnOk result (line_value line.new ≡ formatted (line_value line.old)) }
{
    if !wants_bench(&line.words, &line.operands) {
        return Ok(());
    }
    push_word(alloc, &mut line.words, "--format")?;
    push_word(alloc, &mut line.words, "bench")?;
    Ok(())
}
