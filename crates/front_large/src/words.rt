//! The words of a line without files: options of the front alone, and those of a command.
ghost use Rattle.std.specs.Prelude.{◌≡◌, ◌++◌, ◌∷◌, [], map, Some, IfOk, IfSome, OnOk};
ghost use Rattle.std.specs.String.{string_bytes};
ghost use Rattle.settings.specs.Synth.{IsInRange};
ghost use Rattle.command_line.specs.CommandLine.{spelled, IsAskable};
ghost use Rattle.front_large.specs.LargeWords as spec;
ghost use Rattle.front_large.specs.LargeValues.{given_value};

use crate::bytes::bytes_in;
use crate::large::Large;
use cmd_part::PartOfSearch;
use command_line::{Command, SynthSettings, read_words};
use settings::MOST_STEPS;
use std::alloc::{AllocError, Global};
use text_core::{MOST_NUMBER, number_up_to};

/// The words so far: those of a command, and the values of the options of the front alone.
#[derive(Drop)]
pub struct LargeWords {
    /// The command's name and its own options.
    pub words: Vec<String>,
    /// The value of `--size`.
    pub size: Option<u32>,
    /// The value of `--part`.
    pub part: Option<u32>,
    /// The value of `--most-bytes`.
    pub most: Option<u64>,
    /// Whether all options could be read, each at most once.
    pub good: bool,
}

/// Whether two words are the same.
fn is_word(word: &[u8], other: &[u8]) -> bool
    ensures { result ≡ spec.is_same word.now other.now }
{
    word == other
}

/// Appends a copy of a word.
fn push_word(alloc: Global, words: &mut Vec<String>, word: &str) -> Result<(), AllocError>
    ensures { OnOk result (map string_bytes words.new.items ≡ map string_bytes words.old.items ++ word.now ∷ []) }
{
    words.push(String::from_str(alloc, word)?)?;
    Ok(())
}

/// Takes the value of `--size`.
fn take_size(given: &mut LargeWords, value: &[u8])
    ensures { given_value given.new ≡ spec.sized (given_value given.old) (spec.size_in value.now) }
{
    match number_up_to(MOST_STEPS, value) {
        Some(size) if given.size.is_none() => given.size = Some(size),
        _ => given.good = false,
    }
}

/// Takes the value of `--part`.
fn take_part(given: &mut LargeWords, value: &[u8])
    ensures { given_value given.new ≡ spec.parted (given_value given.old) (spec.part_in value.now) }
{
    match number_up_to(MOST_NUMBER, value) {
        Some(part) if given.part.is_none() => given.part = Some(part),
        _ => given.good = false,
    }
}

/// Takes the value of `--most-bytes`.
fn take_most(given: &mut LargeWords, value: &[u8])
    ensures { given_value given.new ≡ spec.bounded (given_value given.old) (spec.most_in value.now) }
{
    match bytes_in(value) {
        Some(most) if given.most.is_none() => given.most = Some(most),
        _ => given.good = false,
    }
}

/// Takes an option.
#[tactic(auto, unfolding(crate::specs::LargeWords::taken))]
fn take(
    alloc: Global,
    given: &mut LargeWords,
    name: &String,
    value: &String,
) -> Result<(), AllocError>
    ensures { OnOk result (given_value given.new ≡
        spec.taken (given_value given.old) (string_bytes name.now) (string_bytes value.now)) }
{
    if is_word(name.as_bytes(), b"--size") {
        take_size(given, value.as_bytes());
        return Ok(());
    }
    if is_word(name.as_bytes(), b"--part") {
        take_part(given, value.as_bytes());
        return Ok(());
    }
    if is_word(name.as_bytes(), b"--most-bytes") {
        take_most(given, value.as_bytes());
        return Ok(());
    }
    push_word(alloc, &mut given.words, name.as_str())?;
    push_word(alloc, &mut given.words, value.as_str())?;
    Ok(())
}

/// Takes all options.
#[tactic(auto, unfolding(crate::specs::LargeWords::given_from))]
fn take_all(alloc: Global, given: &mut LargeWords, words: &[String]) -> Result<(), AllocError>
    ensures { OnOk result (given_value given.new ≡
        spec.given_from (given_value given.old) (map string_bytes words.now)) }
{
    let mut left = words;
    while let Some((name, after)) = left.split_first() {
        let Some((value, rest)) = after.split_first() else {
            given.good = false;
            return Ok(());
        };
        take(alloc, given, name, value)?;
        left = rest;
    }
    Ok(())
}

/// The words before their options: the command's name.
fn first_given(alloc: Global, name: &String) -> Result<LargeWords, AllocError>
    ensures { IfOk result (λ given. given_value given ≡ spec.first_given (string_bytes name.now)) }
{
    let mut words = Vec::new(alloc);
    push_word(alloc, &mut words, name.as_str())?;
    Ok(LargeWords {
        words,
        size: None,
        part: None,
        most: None,
        good: true,
    })
}

/// The number of a part: the first one if none is named.
fn part_or_first(part: Option<u32>) -> u32
    ensures { result ≡ spec.part_or_first part }
{
    match part {
        Some(part) => part,
        None => 1,
    }
}

/// The part of this number, of a size that the settings allow.
fn part_at(settings: SynthSettings, size: u32, part: u32) -> Option<Large>
    requires { IsInRange settings }
    ensures exact { result ≡ spec.part_at settings size part }
    ensures ready { IfSome result spec.IsReady }
{
    if part < 1 {
        return None;
    }
    if settings.max < size {
        return None;
    }
    Some(Large::Part(PartOfSearch {
        settings,
        size,
        before: part - 1,
    }))
}

/// A part of a search under these settings, if a size is named that they allow, and nothing else.
fn part_for(settings: SynthSettings, given: &LargeWords) -> Option<Large>
    requires { IsInRange settings }
    ensures exact { result ≡ spec.part_for settings (given_value given.now) }
    ensures ready { IfSome result spec.IsReady }
{
    let Some(size) = given.size else {
        return None;
    };
    if given.most.is_some() {
        return None;
    }
    part_at(settings, size, part_or_first(given.part))
}

/// The most bytes of a certificate, if they are named, and nothing else.
fn most_for(given: &LargeWords) -> Option<u64>
    ensures { result ≡ spec.most_for (given_value given.now) }
{
    let Some(most) = given.most else {
        return None;
    };
    if given.size.is_some() {
        return None;
    }
    if given.part.is_some() {
        return None;
    }
    Some(most)
}

/// The question about a certificate of the fewest steps.
fn steps_for(given: &LargeWords) -> Option<Large>
    ensures exact { result ≡ spec.steps_by (spec.most_for (given_value given.now)) }
    ensures ready { IfSome result spec.IsReady }
{
    match most_for(given) {
        Some(most) => Some(Large::Steps(most)),
        None => None,
    }
}

/// The question about a certificate of the fewest levels.
fn levels_for(given: &LargeWords) -> Option<Large>
    ensures exact { result ≡ spec.levels_by (spec.most_for (given_value given.now)) }
    ensures ready { IfSome result spec.IsReady }
{
    match most_for(given) {
        Some(most) => Some(Large::Levels(most)),
        None => None,
    }
}

/// What the options of the front ask of a command.
fn large_for(command: &Command, given: &LargeWords) -> Option<Large>
    requires { IsAskable command.now }
    ensures exact { result ≡ spec.large_for (Some command.now) (given_value given.now) }
    ensures ready { IfSome result spec.IsReady }
{
    match command {
        Command::Synth(settings) => part_for(*settings, given),
        Command::Recheck => steps_for(given),
        Command::RecheckDepth => levels_for(given),
        Command::Agree | Command::LeastDepth(_) | Command::Equiv(_) => None,
        Command::Improve { .. } | Command::Gen { .. } => None,
    }
}

/// What words of a command and options ask for.
#[tactic(auto, using(crate::proofs::Reading::reading))]
fn large_of(given: &LargeWords) -> Option<Large>
    ensures exact { result ≡ spec.large_of (given_value given.now) }
    ensures ready { IfSome result spec.IsReady }
{
    if !given.good {
        return None;
    }
    match read_words(&given.words) {
        Ok(command) => large_for(&command, given),
        Err(_) => None,
    }
}

/// What the words of a line without files ask for, if it is such a question.
pub fn large_in(alloc: Global, words: &Vec<String>) -> Result<Option<Large>, AllocError>
    ensures exact { IfOk result (λ found. found ≡ spec.large_in (spelled words.now)) }
    ensures ready { IfOk result (λ found. IfSome found spec.IsReady) }
{
    let Some((name, options)) = words.split_first() else {
        return Ok(None);
    };
    let mut given = first_given(alloc, name)?;
    take_all(alloc, &mut given, options)?;
    Ok(large_of(&given))
}
