//! The words of a line without formats.
ghost use Rattle.std.specs.Prelude.{◌≡◌, ◌++◌, ◌∷◌, [], map, codes, IfOk, OnOk};
ghost use Rattle.std.specs.Option.{option_map};
ghost use Rattle.std.specs.String.{string_bytes};
ghost use Rattle.command_line.specs.CommandLine.{spelled};
ghost use Rattle.file_words.specs.Lines.{line_value};
ghost use Rattle.format_words.specs.FormatsAsked as spec;

use crate::asking::{FormatsAsked, is_word, word_after};
use file_words::FileLine;
use std::alloc::{AllocError, Global};

/// Appends a copy of a word.
pub fn push_word(alloc: Global, words: &mut Vec<String>, word: &str) -> Result<(), AllocError>
    ensures { OnOk result (map string_bytes words.new.items ≡ map string_bytes words.old.items ++ word.now ∷ []) }
{
    words.push(String::from_str(alloc, word)?)?;
    Ok(())
}

/// Appends copies of words.
pub fn push_words(alloc: Global, words: &mut Vec<String>, more: &[String]) -> Result<(), AllocError>
    ensures { OnOk result (map string_bytes words.new.items ≡
        map string_bytes words.old.items ++ map string_bytes more.now) }
{
    let mut left = more;
    while let Some((word, rest)) = left.split_first() {
        push_word(alloc, words, word.as_str())?;
        left = rest;
    }
    Ok(())
}

/// Appends pairs of a name and a value without the first pair of this name.
#[tactic(auto, unfolding(crate::specs::FormatsAsked::without))]
fn push_without(
    alloc: Global,
    words: &mut Vec<String>,
    option: &[u8],
    options: &[String],
) -> Result<(), AllocError>
    ensures { OnOk result (map string_bytes words.new.items ≡
        map string_bytes words.old.items ++ spec.without option.now (map string_bytes options.now)) }
{
    let mut left = options;
    while let Some((name, after)) = left.split_first() {
        let Some((word, rest)) = after.split_first() else {
            return push_word(alloc, words, name.as_str());
        };
        if is_word(option, name.as_bytes()) {
            return push_words(alloc, words, rest);
        }
        push_word(alloc, words, name.as_str())?;
        push_word(alloc, words, word.as_str())?;
        left = rest;
    }
    Ok(())
}

/// Appends the options of a comparison by names without this and without a format.
fn push_unmatched(
    alloc: Global,
    words: &mut Vec<String>,
    options: &[String],
) -> Result<(), AllocError>
    ensures { OnOk result (map string_bytes words.new.items ≡ map string_bytes words.old.items ++
        spec.without (codes "--format") (spec.without (codes "--match") (map string_bytes options.now))) }
{
    let mut bare = Vec::new(alloc);
    push_without(alloc, &mut bare, b"--match", options)?;
    push_without(alloc, words, b"--format", &bare)
}

/// Appends the options without those that are read here.
fn push_options(
    alloc: Global,
    words: &mut Vec<String>,
    asked: FormatsAsked,
    options: &[String],
) -> Result<(), AllocError>
    ensures { OnOk result (map string_bytes words.new.items ≡
        map string_bytes words.old.items ++ spec.plain_options asked (map string_bytes options.now)) }
{
    match asked {
        FormatsAsked::Match(_) => push_unmatched(alloc, words, options),
        FormatsAsked::Own | FormatsAsked::ImproveAiger | FormatsAsked::Compare(_) => {
            push_without(alloc, words, b"--format", options)
        }
    }
}

/// Appends a name and its value, if there is one.
fn push_option(
    alloc: Global,
    words: &mut Vec<String>,
    name: &str,
    value: &Option<String>,
) -> Result<(), AllocError>
    ensures { OnOk result (map string_bytes words.new.items ≡
        map string_bytes words.old.items ++ spec.option_words name.now (option_map string_bytes value.now)) }
{
    let Some(word) = value else {
        return Ok(());
    };
    push_word(alloc, words, name)?;
    push_word(alloc, words, word.as_str())
}

/// Appends the words of the outputs and of the files that are read.
fn push_files(alloc: Global, words: &mut Vec<String>, line: &FileLine) -> Result<(), AllocError>
    ensures { OnOk result (map string_bytes words.new.items ≡
        map string_bytes words.old.items ++ spec.file_words_of (line_value line.now)) }
{
    push_option(alloc, words, "-o", &line.output)?;
    push_option(alloc, words, "--certificate", &line.certificate)?;
    push_word(alloc, words, "--")?;
    push_words(alloc, words, &line.operands)
}

/// Appends the basis of AND gates with complements, if none is named.
pub fn push_basis(
    alloc: Global,
    words: &mut Vec<String>,
    options: &[String],
) -> Result<(), AllocError>
    ensures { OnOk result (map string_bytes words.new.items ≡
        map string_bytes words.old.items ++ spec.basis_words (map string_bytes options.now)) }
{
    if word_after(b"--basis", options).is_some() {
        return Ok(());
    }
    push_word(alloc, words, "--basis")?;
    push_word(alloc, words, "u2")
}

/// Appends the words of `improve` of AIGER: those of `improve` of BLIF over gates that AIGER can express.
fn push_aiger(alloc: Global, words: &mut Vec<String>, options: &[String]) -> Result<(), AllocError>
    ensures { OnOk result (map string_bytes words.new.items ≡
        map string_bytes words.old.items ++
        spec.extra_words FormatsAsked.ImproveAiger (map string_bytes options.now)) }
{
    push_word(alloc, words, "--format")?;
    push_word(alloc, words, "blif")?;
    push_basis(alloc, words, options)
}

/// Appends the words that stand for a format.
fn push_extra(
    alloc: Global,
    words: &mut Vec<String>,
    asked: FormatsAsked,
    options: &[String],
) -> Result<(), AllocError>
    ensures { OnOk result (map string_bytes words.new.items ≡
        map string_bytes words.old.items ++ spec.extra_words asked (map string_bytes options.now)) }
{
    match asked {
        FormatsAsked::ImproveAiger => push_aiger(alloc, words, options),
        FormatsAsked::Own | FormatsAsked::Compare(_) | FormatsAsked::Match(_) => Ok(()),
    }
}

/// The words of a line without formats.
pub(crate) fn rebuilt(
    alloc: Global,
    asked: FormatsAsked,
    line: &FileLine,
) -> Result<Vec<String>, AllocError>
    ensures { IfOk result (λ words. spelled words ≡ spec.rebuilt asked (line_value line.now)) }
{
    let mut words = Vec::new(alloc);
    let Some((name, options)) = line.words.split_first() else {
        return Ok(words);
    };
    push_word(alloc, &mut words, name.as_str())?;
    push_options(alloc, &mut words, asked, options)?;
    push_extra(alloc, &mut words, asked, options)?;
    push_files(alloc, &mut words, line)?;
    Ok(words)
}

/// Whether `--format` is named.
fn names_format(words: &[String]) -> bool
    ensures { result ≡ spec.names_format (map string_bytes words.now) }
{
    let Some((_, options)) = words.split_first() else {
        return false;
    };
    word_after(b"--format", options).is_some()
}

/// Whether the words of a line change.
pub(crate) fn rebuilds(asked: FormatsAsked, words: &[String]) -> bool
    ensures { result ≡ spec.rebuilds asked (map string_bytes words.now) }
{
    match asked {
        FormatsAsked::Own => false,
        FormatsAsked::ImproveAiger => true,
        FormatsAsked::Compare(_) => names_format(words),
        FormatsAsked::Match(_) => true,
    }
}
