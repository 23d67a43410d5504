//! The words of the command after its name: `--size R`, `--part P` and `--log FILE`, each at most once, in any order.
ghost use Rattle.std.specs.Prelude.{◌≡◌, map, IfOk, OnOk};
ghost use Rattle.std.specs.Option.{option_map};
ghost use Rattle.std.specs.String.{string_bytes};
ghost use Rattle.cmd_formula.specs.Words as spec;
ghost use Rattle.cmd_formula.specs.WordValues.{asked_value};

use crate::parts::PartAsked;
use std::alloc::{AllocError, Global};
use text_core::{MOST_NUMBER, number_up_to};

/// What the words ask for.
#[derive(Drop)]
pub struct FormulaWords {
    /// The size.
    pub size: Option<u32>,
    /// The part of the size.
    pub part: Option<u32>,
    /// The file for the log.
    pub log: Option<String>,
    /// Whether all words could be read.
    pub good: bool,
}

impl FormulaWords {
    /// The part that is asked for: the first one if none is named.
    pub fn asked(&self) -> PartAsked
        ensures size { result.size ≡ self.now.size }
        ensures part { result.part ≡ spec.part_or_first self.now.part }
    {
        PartAsked {
            size: self.size,
            part: match self.part {
                Some(part) => part,
                None => 1,
            },
        }
    }
}

/// Takes the value of `--size`.
fn take_size(asked: &mut FormulaWords, value: &[u8])
    ensures { asked_value asked.new ≡ spec.sized (asked_value asked.old) (spec.number_in value.now) }
{
    match number_up_to(MOST_NUMBER, value) {
        Some(size) if asked.size.is_none() => asked.size = Some(size),
        _ => asked.good = false,
    }
}

/// Takes the value of `--part`.
fn take_part(asked: &mut FormulaWords, value: &[u8])
    ensures { asked_value asked.new ≡ spec.parted (asked_value asked.old) (spec.number_in value.now) }
{
    match number_up_to(MOST_NUMBER, value) {
        Some(part) if asked.part.is_none() => asked.part = Some(part),
        _ => asked.good = false,
    }
}

/// Takes the value of `--log`.
fn take_log(alloc: Global, asked: &mut FormulaWords, value: &str) -> Result<(), AllocError>
    ensures { OnOk result (asked_value asked.new ≡ spec.logged (asked_value asked.old) value.now) }
{
    if asked.log.is_some() {
        asked.good = false;
        return Ok(());
    }
    asked.log = Some(String::from_str(alloc, value)?);
    Ok(())
}

/// Whether two words are the same.
fn is_word(word: &[u8], other: &[u8]) -> bool
    ensures { result ≡ spec.is_same word.now other.now }
{
    word == other
}

/// Takes an option.
#[tactic(auto, unfolding(crate::specs::Words::taken))]
fn take(
    alloc: Global,
    asked: &mut FormulaWords,
    name: &String,
    value: &String,
) -> Result<(), AllocError>
    ensures { OnOk result (asked_value asked.new ≡
        spec.taken (asked_value asked.old) (string_bytes name.now) (string_bytes value.now)) }
{
    if is_word(name.as_bytes(), b"--size") {
        take_size(asked, value.as_bytes());
        return Ok(());
    }
    if is_word(name.as_bytes(), b"--part") {
        take_part(asked, value.as_bytes());
        return Ok(());
    }
    if is_word(name.as_bytes(), b"--log") {
        take_log(alloc, asked, value.as_str())?;
        return Ok(());
    }
    asked.good = false;
    Ok(())
}

/// Takes all options.
#[tactic(auto, unfolding(crate::specs::Words::asked_from))]
fn take_all(alloc: Global, asked: &mut FormulaWords, words: &[String]) -> Result<(), AllocError>
    ensures { OnOk result (asked_value asked.new ≡
        spec.asked_from (asked_value asked.old) (map string_bytes words.now)) }
{
    let mut left = words;
    while let Some((name, after)) = left.split_first() {
        let Some((value, rest)) = after.split_first() else {
            asked.good = false;
            return Ok(());
        };
        take(alloc, asked, name, value)?;
        left = rest;
    }
    Ok(())
}

/// Reads the words after the name of the command; None if they aren't its options.
pub fn read_words(alloc: Global, words: &[String]) -> Result<Option<FormulaWords>, AllocError>
    ensures { IfOk result (λ asked. option_map asked_value asked ≡ spec.asked_in (map string_bytes words.now)) }
{
    let mut asked = FormulaWords {
        size: None,
        part: None,
        log: None,
        good: true,
    };
    take_all(alloc, &mut asked, words)?;
    if asked.good {
        Ok(Some(asked))
    } else {
        Ok(None)
    }
}
