//! The keywords of statements, with a variant for all other words.

ghost use Rattle.std.specs.Prelude.{◌≡◌};
ghost use Rattle.blif_text.specs.Statements.{keyword_of as keyword_of_word};

use crate::words::is_word;

/// The keyword of a BLIF statement, its first word.
#[derive(Clone, Copy)]
pub enum BlifKeyword {
    /// `.model`
    Model,
    /// `.inputs`
    Inputs,
    /// `.outputs`
    Outputs,
    /// `.clock`
    Clock,
    /// `.names`
    Names,
    /// `.latch`
    Latch,
    /// `.end`
    End,
    /// Any other word. Such statements aren't supported.
    Unknown,
}

/// The keyword of a word that begins with a dot.
#[tactic(auto, unfolding(crate::specs::Statements::keyword_of))]
pub fn keyword_of(word: &[u8]) -> BlifKeyword
    ensures { result ≡ keyword_of_word word.now }
{
    if is_word(word, b".model") {
        BlifKeyword::Model
    } else if is_word(word, b".inputs") {
        BlifKeyword::Inputs
    } else if is_word(word, b".outputs") {
        BlifKeyword::Outputs
    } else if is_word(word, b".clock") {
        BlifKeyword::Clock
    } else if is_word(word, b".names") {
        BlifKeyword::Names
    } else if is_word(word, b".latch") {
        BlifKeyword::Latch
    } else if is_word(word, b".end") {
        BlifKeyword::End
    } else {
        BlifKeyword::Unknown
    }
}
