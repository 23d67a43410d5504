//! The words of a command line.
ghost use Rattle.std.specs.Prelude.{◌≡◌, IfOk, IsErrOf, All};
ghost use Rattle.std.specs.Str.{IsUtf8};
ghost use Rattle.std.specs.String.{string_bytes};
ghost use Rattle.text_core.specs.Items.{items_of};
ghost use Rattle.command_line.specs.CommandLine.{spelled};
ghost use Rattle.batsokemi_c.specs.Called.{AreWords};

use std::alloc::{AllocError, Global};
use text_core::next_item;

/// Why a command line can't be split into words.
#[derive(Clone, Copy)]
enum WordsFault {
    /// A word isn't UTF-8.
    NotText,
    /// Out of memory.
    Memory,
}

impl From<AllocError> for WordsFault {
    ghost use Rattle.std.specs.Prelude.{◌≡◌};
    ghost use Rattle.batsokemi_c.specs.declared.words.WordsFault.TheVariants.{Memory};

    ghost from_gives = { λ _ e. e ≡ Memory };

    fn from(_: AllocError) -> WordsFault {
        WordsFault::Memory
    }
}

/// One word.
fn word_of(alloc: Global, item: &[u8]) -> Result<String, WordsFault>
    ensures word { IfOk result (λ word. string_bytes word ≡ item.now) }
    ensures not_text { IsErrOf result WordsFault.NotText → IsUtf8 item.now → ⊥ }
{
    let Ok(text) = std::str::from_utf8(item) else {
        return Err(WordsFault::NotText);
    };
    Ok(String::from_str(alloc, text)?)
}

/// The words, which single blanks separate, if all are UTF-8.
fn items_in(alloc: Global, command: &[u8]) -> Result<Vec<String>, WordsFault>
    ensures words { IfOk result (λ words. spelled words ≡ items_of command.now) }
    ensures not_text { IsErrOf result WordsFault.NotText → All IsUtf8 (items_of command.now) → ⊥ }
{
    let mut words = Vec::new(alloc);
    let mut left = Some(command);
    while let Some(text) = left {
        let (item, rest) = next_item(text);
        let word = match word_of(alloc, item) {
            Ok(word) => word,
            Err(fault) => return Err(fault),
        };
        if words.push(word).is_err() {
            return Err(WordsFault::Memory);
        }
        left = rest;
    }
    Ok(words)
}

/// The words of a command line; no words if one of them isn't UTF-8.
pub fn words_of(alloc: Global, command: &[u8]) -> Result<Vec<String>, AllocError>
    ensures { IfOk result (λ words. AreWords command.now (spelled words)) }
{
    match items_in(alloc, command) {
        Ok(words) => Ok(words),
        Err(WordsFault::NotText) => Ok(Vec::new(alloc)),
        Err(WordsFault::Memory) => Err(AllocError),
    }
}
