//! The bits of the sources as a word of a command line.
ghost use Rattle.std.specs.Prelude.{◌≡◌, Bool, Vec, IfOk};
ghost use Rattle.std.specs.Global.{Global};
ghost use Rattle.std.specs.Option.{option_map};
ghost use Rattle.command_line.specs.Options.{is_word as is_word_of};
ghost use Rattle.cmd_at.specs.AtBits as spec;

use equiv_values::bits_of;
use std::alloc::{AllocError, Global};

/// Whether two words are the same.
fn is_word(word: &[u8], name: &[u8]) -> bool
    ensures { result ≡ is_word_of word.now name.now }
{
    word == name
}

/// Whether a byte is `0` or `1`.
fn is_bit(byte: u8) -> bool
    ensures { result ≡ spec.is_bit byte }
{
    byte == b'0' || byte == b'1'
}

/// Whether each byte of a word is `0` or `1`.
#[tactic(auto, unfolding(crate::specs::AtBits::are_bits))]
fn are_bits(word: &[u8]) -> bool
    ensures { result ≡ spec.are_bits word.now }
{
    let mut left = word;
    while let Some((byte, rest)) = left.split_first() {
        if !is_bit(*byte) {
            return false;
        }
        left = rest;
    }
    true
}

/// The bits that a word spells, each by `0` or `1`, or none by `-`; None if it spells none.
pub fn read_bits(alloc: Global, word: &[u8]) -> Result<Option<Vec<bool>>, AllocError>
    ensures { IfOk result (λ found.
        option_map (λ (bits : Vec Bool Global). bits.items) found ≡ spec.bits_in word.now) }
{
    if is_word(word, b"-") {
        return Ok(Some(Vec::new(alloc)));
    }
    if is_word(word, b"") {
        return Ok(None);
    }
    if !are_bits(word) {
        return Ok(None);
    }
    let bits = bits_of(alloc, word)?;
    Ok(Some(bits))
}
