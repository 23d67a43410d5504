//! Names, and the limits of lines and words.
ghost use Rattle.std.specs.Prelude.{◌≡◌};
ghost use Rattle.net_theory.specs.Document.{is_name as is_name_of, is_name_byte as is_name_byte_of};
ghost use Rattle.net_document.specs.Limits.{is_long_line as is_long_line_of, is_long_word as is_long_word_of};

use net_theory::{MOST_LINE_BYTES, MOST_NAME_BYTES};

/// Whether a line of `size` bytes is too long.
pub fn is_long_line(size: usize) -> bool
    ensures { result ≡ is_long_line_of size }
{
    size > MOST_LINE_BYTES
}

/// Whether a word is too long.
pub fn is_long_word(word: &[u8]) -> bool
    ensures { result ≡ is_long_word_of word.now }
{
    word.len() > MOST_NAME_BYTES
}

/// Whether a byte can be part of a name.
fn is_name_byte(byte: u8) -> bool
    ensures { result ≡ is_name_byte_of byte }
{
    byte >= 33 && byte <= 126 && byte != b'#'
}

/// Whether `bytes` form a name.
#[tactic(auto, unfolding(net_theory::specs::Document::is_name))]
pub fn is_name(bytes: &[u8]) -> bool
    ensures { result ≡ is_name_of bytes.now }
{
    let Some((first, rest)) = bytes.split_first() else {
        return false;
    };
    let mut byte = *first;
    let mut left = rest;
    while let Some((next, rest)) = left.split_first() {
        if !is_name_byte(byte) {
            return false;
        }
        byte = *next;
        left = rest;
    }
    is_name_byte(byte) && byte != b'\\'
}
