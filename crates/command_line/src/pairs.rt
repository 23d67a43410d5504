//! The words after a command: names and values alternate.
ghost use Rattle.std.specs.Prelude.{◌≡◌, ℕ, List, map};
ghost use Rattle.std.specs.Borrow.{Bor};
ghost use Rattle.std.specs.Option.{option_map};
ghost use Rattle.std.specs.String.{string_bytes};
ghost use Rattle.command_line.specs.Options.{options_of, is_word as is_word_of};
ghost use Rattle.command_line.specs.CommandLine as spec;

use crate::table::{OptionKind, takes};

/// Whether two words are the same.
pub(crate) fn is_word(word: &[u8], name: &[u8]) -> bool
    ensures { result ≡ is_word_of word.now name.now }
{
    word == name
}

/// The word after a name; None if the name doesn't occur.
#[tactic(auto, unfolding(crate::specs::CommandLine::word_after))]
pub(crate) fn word_after<'a>(name: &[u8], words: &'a [String]) -> Option<&'a [u8]>
    ensures { option_map (λ (x : Bor (List ℕ)). x.now) result ≡
        spec.word_after name.now (map string_bytes words.now) }
{
    let mut left = words;
    while let Some((found, after)) = left.split_first() {
        let Some((word, rest)) = after.split_first() else {
            return None;
        };
        if is_word(name, found.as_bytes()) {
            return Some(word.as_bytes());
        }
        left = rest;
    }
    None
}

/// Whether a name occurs among pairs.
fn is_named(name: &[u8], words: &[String]) -> bool
    ensures { result ≡ spec.is_named name.now (map string_bytes words.now) }
{
    word_after(name, words).is_some()
}

/// Whether names and values alternate, the command takes each option that is named, and none occurs twice.
#[tactic(auto, unfolding(crate::specs::CommandLine::are_options))]
pub(crate) fn are_options(kind: OptionKind, words: &[String]) -> bool
    ensures { result ≡ spec.are_options (options_of kind) (map string_bytes words.now) }
{
    let mut left = words;
    while let Some((name, after)) = left.split_first() {
        let Some((_, rest)) = after.split_first() else {
            return false;
        };
        if !takes(kind, name.as_bytes()) || is_named(name.as_bytes(), rest) {
            return false;
        }
        left = rest;
    }
    true
}
