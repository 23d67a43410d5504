//! A number of bytes that an option names.
ghost use Rattle.std.specs.Prelude.{◌≡◌};
ghost use Rattle.front_large.specs.LargeWords as spec;

use cmd_recheck::MOST_OF_LONG;

/// The number of bytes that a word spells: decimal digits, no sign, no leading 0. None if it spells no number, or
/// one above the most that may be asked for.
#[tactic(auto, unfolding(text_core::specs::Numbers::number_from))]
pub(crate) fn bytes_in(word: &[u8]) -> Option<u64>
    ensures { result ≡ spec.most_in word.now }
{
    if let [] | [b'0', _, ..] = word {
        return None;
    }
    let mut value = 0u64;
    let mut left = word;
    while let Some((byte, rest)) = left.split_first() {
        if !byte.is_ascii_digit() {
            return None;
        }
        let next = value * 10 + u64::from(*byte - b'0');
        if next > MOST_OF_LONG {
            return None;
        }
        value = next;
        left = rest;
    }
    Some(value)
}
