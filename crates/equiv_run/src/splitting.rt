//! Where the first of two texts ends. The scan over the lines keeps only whether the first word of the current
//! logical line is `.end`: a continued line ends with a blank, so a word never spans two lines.
ghost use Rattle.std.specs.Prelude.{◌≡◌, ◌≤◌, length, IfSome, IfNone};
ghost use Rattle.blif_text.specs.Words.{words_of};
ghost use Rattle.equiv_run.specs.Split.{first_ends, is_known_end, or_first, split_of, IsSplit, HasNoEnd};

use blif_text::next_word;
use net_document::{content_of, without_last};
use text_core::next_line;

/// Whether the first word of a text is `.end`; None if it has no word.
#[tactic(auto, using(crate::specs::ScanLaws::first_word))]
fn first_word(text: &[u8]) -> Option<bool>
    ensures { result ≡ first_ends (words_of text.now) }
{
    let (word, _) = next_word(text)?;
    Some(word == b".end".as_slice())
}

/// `first` if it is known, else whether the first word of `text` is `.end`.
fn first_of(first: Option<bool>, text: &[u8]) -> Option<bool>
    ensures { result ≡ or_first first (first_ends (words_of text.now)) }
{
    match first {
        Some(_) => first,
        None => first_word(text),
    }
}

/// Whether the first word is known to be `.end`.
fn is_end(first: Option<bool>) -> bool
    ensures { result ≡ is_known_end first }
{
    match first {
        Some(ends) => ends,
        None => false,
    }
}

/// The length of a BLIF text up to the end of its first logical line whose first word is `.end`, where the first
/// of two texts ends. None if there is no such line.
pub fn split(bytes: &[u8]) -> Option<usize>
    ensures exact { result ≡ split_of bytes.now }
    ensures place { IfSome result (IsSplit bytes.now) }
    ensures within { IfSome result (λ place. place ≤ length bytes.now) }
    ensures none { IfNone result (HasNoEnd bytes.now) }
{
    let mut first = None;
    let mut left = bytes;
    while let Some((line, ended, rest)) = next_line(left) {
        let said = content_of(line, ended);
        left = rest;
        let Some(front) = without_last(b'\\', said) else {
            if is_end(first_of(first, said)) {
                return Some(bytes.len() - left.len());
            }
            first = None;
            continue;
        };
        first = first_of(first, front);
    }
    if is_end(first) {
        Some(bytes.len())
    } else {
        None
    }
}
