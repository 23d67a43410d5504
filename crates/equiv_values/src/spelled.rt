//! Bits that are spelled as characters.
ghost use Rattle.std.specs.Prelude.{◌≡◌, ◌+◌, ◌≤◌, length, map, IfOk};
ghost use Rattle.equiv_values.specs.Spelled as spec;

use std::alloc::{AllocError, Global};

/// The bits of a word of zeros and ones.
pub fn bits_of(alloc: Global, word: &[u8]) -> Result<Vec<bool>, AllocError>
    ensures { IfOk result (λ bits. bits.items ≡ map spec.is_one word.now) }
{
    let mut bits = Vec::new(alloc);
    let mut left = word;
    while let Some((byte, rest)) = left.split_first() {
        bits.push(*byte == b'1')?;
        left = rest;
    }
    Ok(bits)
}

/// The `count` bits at the end of the answer `differ`, before its last LF.
pub(crate) fn spelled_bits(
    alloc: Global,
    text: &[u8],
    count: usize,
) -> Result<Vec<bool>, AllocError>
    requires { count + 1 ≤ length text.now }
    ensures { IfOk result (λ bits. bits.items ≡ spec.spelled_bits text.now count) }
{
    let (_, end) = text.split_at(text.len() - (count + 1));
    let (word, _) = end.split_at(count);
    bits_of(alloc, word)
}
