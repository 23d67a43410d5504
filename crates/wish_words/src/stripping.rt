//! The words of a line without wishes.
ghost use Rattle.std.specs.Prelude.{◌≡◌, ◌++◌, ◌∷◌, map, IfOk, OnOk};
ghost use Rattle.std.specs.String.{string_bytes};
ghost use Rattle.command_line.specs.CommandLine.{spelled};
ghost use Rattle.wish_words.specs.WishWords as spec;

use format_words::{is_word, push_basis, push_word, push_words};
use std::alloc::{AllocError, Global};

/// Appends pairs of a name and a value without the first pair of this name.
#[tactic(auto, unfolding(crate::specs::WishWords::without))]
fn push_without(
    alloc: Global,
    words: &mut Vec<String>,
    option: &[u8],
    options: &[String],
) -> Result<(), AllocError>
    ensures { OnOk result (map string_bytes words.new.items ≡
        map string_bytes words.old.items ++ spec.without option.now (map string_bytes options.now)) }
{
    let mut left = options;
    while let Some((name, after)) = left.split_first() {
        let Some((word, rest)) = after.split_first() else {
            return push_word(alloc, words, name.as_str());
        };
        if is_word(option, name.as_bytes()) {
            return push_words(alloc, words, rest);
        }
        push_word(alloc, words, name.as_str())?;
        push_word(alloc, words, word.as_str())?;
        left = rest;
    }
    Ok(())
}

/// Pairs of a name and a value without those of wishes.
fn without_wishes(alloc: Global, options: &[String]) -> Result<Vec<String>, AllocError>
    ensures { IfOk result (λ words. spelled words ≡ spec.without_wishes (map string_bytes options.now)) }
{
    let mut bare = Vec::new(alloc);
    push_without(alloc, &mut bare, b"--levels", options)?;
    let mut plain = Vec::new(alloc);
    push_without(alloc, &mut plain, b"--covers", &bare)?;
    let mut words = Vec::new(alloc);
    push_without(alloc, &mut words, b"--only", &plain)?;
    Ok(words)
}

/// Appends the options without wishes.
fn push_plain(
    alloc: Global,
    words: &mut Vec<String>,
    aiger: bool,
    options: &[String],
) -> Result<(), AllocError>
    ensures { OnOk result (map string_bytes words.new.items ≡
        map string_bytes words.old.items ++ spec.plain_options aiger (map string_bytes options.now)) }
{
    let bare = without_wishes(alloc, options)?;
    if !aiger {
        return push_words(alloc, words, &bare);
    }
    push_without(alloc, words, b"--format", &bare)?;
    push_basis(alloc, words, options)
}

/// The words of a line without wishes.
pub(crate) fn plain_words(
    alloc: Global,
    name: &str,
    aiger: bool,
    options: &[String],
) -> Result<Vec<String>, AllocError>
    ensures { IfOk result (λ words. spelled words ≡
        name.now ∷ spec.plain_options aiger (map string_bytes options.now)) }
{
    let mut words = Vec::new(alloc);
    push_word(alloc, &mut words, name)?;
    push_plain(alloc, &mut words, aiger, options)?;
    Ok(words)
}
