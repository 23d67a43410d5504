//! Decimal numbers, read and written. A number has one spelling: no sign, no leading 0.
ghost use Rattle.std.specs.Prelude.{◌≡◌, ◌++◌, OnOk, OnErr, decimal};
ghost use Rattle.text_core.specs.Numbers as spec;

use itoa::Buffer;
use std::alloc::AllocError;

/// The greatest number of a text: nine digits, so that sums of a few of them fit in 32 bits.
pub const MOST_NUMBER: u32 = 999_999_999;

/// The number that the whole text spells: decimal digits, no sign, no leading 0. None if it spells no number,
/// or one above `limit`.
#[tactic(auto, unfolding(crate::specs::Numbers::number_from))]
pub fn number_up_to(limit: u32, text: &[u8]) -> Option<u32>
    ensures { result ≡ spec.number_up_to limit text.now }
{
    if let [] | [b'0', _, ..] = text {
        return None;
    }
    let mut value = 0u32;
    let mut left = text;
    while let Some((byte, rest)) = left.split_first() {
        if !byte.is_ascii_digit() {
            return None;
        }
        let next = u64::from(value) * 10 + u64::from(*byte - b'0');
        if next > u64::from(limit) {
            return None;
        }
        value = next as u32;
        left = rest;
    }
    Some(value)
}

/// Appends a number in decimal digits.
pub fn push_number(out: &mut Vec<u8>, n: u32) -> Result<(), AllocError>
    ensures ok { OnOk result (out.new.items ≡ out.old.items ++ decimal n) }
    ensures err { OnErr result (out.new.items ≡ out.old.items) }
{
    let mut buffer = Buffer::new();
    out.extend_from_slice(buffer.format(n).as_bytes())
}
