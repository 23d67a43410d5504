//! The words of a logical line. A line is scanned once for each use; no list of its words is stored.

ghost use Rattle.std.specs.Prelude.{◌≡◌, ◌<◌, ◌++◌, length, IfSome, OnOk};
ghost use Rattle.net_theory.specs.Document.{is_same};
ghost use Rattle.blif_text.specs.Words.{words_of, has_long as has_long_of};
ghost use Rattle.blif_text.specs.Walks.{words_in};
ghost use Rattle.blif_text.specs.Statements.{are_names as are_names_of};

use net_document::{Name, is_blank, is_long_word, is_name};
use std::alloc::AllocError;

/// The first word of a text and the rest after it; None if the text has no word.
#[tactic(auto, using(text_core::specs::Splits::splits), unfolding(crate::specs::Words::words_from))]
pub fn next_word(text: &[u8]) -> Option<(&[u8], &[u8])>
    ensures words { words_of text.now ≡ words_in result }
    ensures shorter { IfSome result (λ x. length x.1.now < length text.now) }
{
    let mut start = text;
    let mut at = 0;
    let mut left = text;
    while let Some((byte, rest)) = left.split_first() {
        if !is_blank(*byte) {
            at += 1;
            left = rest;
            continue;
        }
        if at > 0 {
            let (word, _) = start.split_at(at);
            return Some((word, rest));
        }
        start = rest;
        left = rest;
    }
    if at == 0 {
        return None;
    }
    Some((start, left))
}

/// `word == this`, as a separate function; for the prover.
pub fn is_word(word: &[u8], this: &[u8]) -> bool
    ensures { result ≡ is_same word.now this.now }
{
    word == this
}

/// Whether some word has more than 1,024 bytes.
#[tactic(auto, unfolding(crate::specs::Words::has_long))]
pub fn has_long(text: &[u8]) -> bool
    ensures { result ≡ has_long_of (words_of text.now) }
{
    let mut left = text;
    while let Some((word, rest)) = next_word(left) {
        if is_long_word(word) {
            return true;
        }
        left = rest;
    }
    false
}

/// The number of words.
pub fn count_words(text: &[u8]) -> usize
    ensures { result ≡ length (words_of text.now) }
{
    let mut count: usize = 0;
    let mut left = text;
    while let Some((_, rest)) = next_word(left) {
        count += 1;
        left = rest;
    }
    count
}

/// Whether all words are names.
#[tactic(auto, unfolding(crate::specs::Statements::are_names))]
pub fn are_names(text: &[u8]) -> bool
    ensures { result ≡ are_names_of (words_of text.now) }
{
    let mut left = text;
    while let Some((word, rest)) = next_word(left) {
        if !is_name(word) {
            return false;
        }
        left = rest;
    }
    true
}

/// Adds the words of a text to `names`.
pub fn add_words(names: &mut Vec<Name>, text: &[u8]) -> Result<(), AllocError>
    ensures { OnOk result (names.new.items ≡ names.old.items ++ words_of text.now) }
{
    let mut left = text;
    while let Some((word, rest)) = next_word(left) {
        names.push(Name::of(*names.allocator(), word)?)?;
        left = rest;
    }
    Ok(())
}
