//! The words of a line of `equiv`: those that the program reads, and the files of `--formula` and `--log`.
ghost use Rattle.std.specs.Prelude.{◌≡◌, ◌++◌, ◌∷◌, [], map, IfOk, OnOk};
ghost use Rattle.std.specs.Option.{option_map};
ghost use Rattle.std.specs.String.{string_bytes};
ghost use Rattle.command_line.specs.Options.{is_word as is_word_of};
ghost use Rattle.file_io.specs.Texts.{text_in};
ghost use Rattle.file_words.specs.Lines.{line_value};
ghost use Rattle.front_formula.specs.MiterAsked as spec;
ghost use Rattle.front_formula.specs.MiterValues.{picked_value};

use file_words::FileLine;
use std::alloc::{AllocError, Global};

/// The words of a line, apart.
#[derive(Drop)]
pub(crate) struct MiterWords {
    /// The command's name and the options that the program reads.
    pub(crate) own: Vec<String>,
    /// The file of `--formula`.
    pub(crate) formula: Option<String>,
    /// The file of `--log`.
    pub(crate) log: Option<String>,
    /// Whether no file was named twice.
    pub(crate) good: bool,
}

/// Whether two words are the same.
fn is_word(word: &[u8], name: &[u8]) -> bool
    ensures { result ≡ is_word_of word.now name.now }
{
    word == name
}

/// Appends a copy of a word.
fn push_word(alloc: Global, words: &mut Vec<String>, word: &str) -> Result<(), AllocError>
    ensures { OnOk result (map string_bytes words.new.items ≡ map string_bytes words.old.items ++ word.now ∷ []) }
{
    words.push(String::from_str(alloc, word)?)?;
    Ok(())
}

/// Takes the value of `--formula`.
fn take_formula(alloc: Global, words: &mut MiterWords, value: &str) -> Result<(), AllocError>
    ensures { OnOk result (picked_value words.new ≡ spec.formula_taken (picked_value words.old) value.now) }
{
    if words.formula.is_some() {
        words.good = false;
        return Ok(());
    }
    words.formula = Some(String::from_str(alloc, value)?);
    Ok(())
}

/// Takes the value of `--log`.
fn take_log(alloc: Global, words: &mut MiterWords, value: &str) -> Result<(), AllocError>
    ensures { OnOk result (picked_value words.new ≡ spec.log_taken (picked_value words.old) value.now) }
{
    if words.log.is_some() {
        words.good = false;
        return Ok(());
    }
    words.log = Some(String::from_str(alloc, value)?);
    Ok(())
}

/// Takes an option that the program reads.
fn take_own(
    alloc: Global,
    words: &mut MiterWords,
    name: &str,
    value: &str,
) -> Result<(), AllocError>
    ensures { OnOk result (picked_value words.new ≡ spec.own_taken (picked_value words.old) name.now value.now) }
{
    push_word(alloc, &mut words.own, name)?;
    push_word(alloc, &mut words.own, value)?;
    Ok(())
}

/// Takes an option.
#[tactic(auto, unfolding(crate::specs::MiterAsked::taken))]
fn take(
    alloc: Global,
    words: &mut MiterWords,
    name: &String,
    value: &String,
) -> Result<(), AllocError>
    ensures { OnOk result (picked_value words.new ≡
        spec.taken (picked_value words.old) (string_bytes name.now) (string_bytes value.now)) }
{
    if is_word(name.as_bytes(), b"--formula") {
        take_formula(alloc, words, value.as_str())?;
        return Ok(());
    }
    if is_word(name.as_bytes(), b"--log") {
        take_log(alloc, words, value.as_str())?;
        return Ok(());
    }
    take_own(alloc, words, name.as_str(), value.as_str())?;
    Ok(())
}

/// Takes all options.
#[tactic(auto, unfolding(crate::specs::MiterAsked::taken_all))]
fn take_all(alloc: Global, words: &mut MiterWords, options: &[String]) -> Result<(), AllocError>
    ensures { OnOk result (picked_value words.new ≡
        spec.taken_all (picked_value words.old) (map string_bytes options.now)) }
{
    let mut left = options;
    while let Some((name, after)) = left.split_first() {
        let Some((value, rest)) = after.split_first() else {
            words.good = false;
            return Ok(());
        };
        take(alloc, words, name, value)?;
        left = rest;
    }
    Ok(())
}

/// Picks the words of a line apart, which begin with the name of the command.
fn pick_words(alloc: Global, words: &[String]) -> Result<MiterWords, AllocError>
    ensures { IfOk result (λ found. picked_value found ≡ spec.picked (map string_bytes words.now)) }
{
    let mut found = MiterWords {
        own: Vec::new(alloc),
        formula: None,
        log: None,
        good: true,
    };
    let Some((name, options)) = words.split_first() else {
        found.good = false;
        return Ok(found);
    };
    push_word(alloc, &mut found.own, name.as_str())?;
    take_all(alloc, &mut found, options)?;
    Ok(found)
}

/// Picks the words of a line apart.
pub(crate) fn pick(alloc: Global, line: &FileLine) -> Result<MiterWords, AllocError>
    ensures { IfOk result (λ found. picked_value found ≡ spec.picked (line_value line.now).words) }
{
    pick_words(alloc, &line.words)
}

/// The name of a file, if there is one.
fn name_in(file: &Option<String>) -> Option<&str>
    ensures { text_in result ≡ option_map string_bytes file.now }
{
    match file {
        None => None,
        Some(file) => Some(file.as_str()),
    }
}

/// The name of the file of `--formula`.
pub(crate) fn formula_of(words: &MiterWords) -> Option<&str>
    ensures { text_in result ≡ (picked_value words.now).formula }
{
    name_in(&words.formula)
}

/// The name of the file of `--log`.
pub(crate) fn log_of(words: &MiterWords) -> Option<&str>
    ensures { text_in result ≡ (picked_value words.now).log }
{
    name_in(&words.log)
}
