//! The number at the start of a text: its digits and the blank after them are read in one pass. The definitions
//! first split off the item and then read its number, with the same result.
ghost use Rattle.std.specs.Prelude.{◌≡◌, ℕ, ◌+◌, ◌<◌, ◌≤◌, [], ◌∷◌, length, Some, None, IfNone, IfSome};
ghost use Rattle.text_core.specs.Items.{items_left, size_left};
ghost use Rattle.text_core.specs.Numbers.{number_from, number_up_to};
ghost use Rattle.lrat_text.specs.Numerals.{first_of, after_first};

/// The number whose digits end at the next blank, and the text after the blank.
#[tactic(auto, using(crate::proofs::Prefixes::prefixes))]
fn digits(limit: u32, text: &[u8]) -> Option<(u32, Option<&[u8]>)>
    ensures none { IfNone result (number_from limit 0 (first_of text.now) ≡ None) }
    ensures number { IfSome result (λ x. number_from limit 0 (first_of text.now) ≡ Some x.0) }
    ensures within { IfSome result (λ x. x.0 ≤ limit) }
    ensures rest { IfSome result (λ x. after_first text.now ≡ items_left x.1) }
    ensures shorter { IfSome result (λ x. size_left x.1 < length text.now + 1) }
{
    let mut value = 0u32;
    let mut left = text;
    while let Some((byte, rest)) = left.split_first() {
        if *byte == b' ' {
            return Some((value, Some(rest)));
        }
        if !byte.is_ascii_digit() {
            return None;
        }
        let next = u64::from(value) * 10 + u64::from(*byte - b'0');
        if next > u64::from(limit) {
            return None;
        }
        value = next as u32;
        left = rest;
    }
    Some((value, None))
}

/// The text after the item 0, whose digit was read already; None if the item goes on.
#[tactic(auto, using(crate::proofs::Prefixes::prefixes))]
fn after_zero(text: &[u8]) -> Option<Option<&[u8]>>
    ensures none { IfNone result ((limit : ℕ) → number_up_to limit (48 ∷ first_of text.now) ≡ None) }
    ensures zero { IfSome result (λ rest. first_of text.now ≡ []) }
    ensures rest { IfSome result (λ rest. after_first text.now ≡ items_left rest) }
    ensures shorter { IfSome result (λ rest. size_left rest < length text.now + 1) }
{
    let Some((byte, rest)) = text.split_first() else {
        return Some(None);
    };
    if *byte == b' ' {
        return Some(Some(rest));
    }
    None
}

/// The number that the first item of a text spells, if it is at most `limit`, and the text after the item's
/// blank.
#[tactic(auto, using(crate::proofs::Prefixes::prefixes))]
pub(crate) fn next_number(limit: u32, text: &[u8]) -> Option<(u32, Option<&[u8]>)>
    ensures none { IfNone result (number_up_to limit (first_of text.now) ≡ None) }
    ensures number { IfSome result (λ x. number_up_to limit (first_of text.now) ≡ Some x.0) }
    ensures within { IfSome result (λ x. x.0 ≤ limit) }
    ensures rest { IfSome result (λ x. after_first text.now ≡ items_left x.1) }
    ensures shorter { IfSome result (λ x. size_left x.1 < length text.now + 1) }
{
    let (first, others) = text.split_first()?;
    if *first == b' ' {
        return None;
    }
    if *first == b'0' {
        let Some(rest) = after_zero(others) else {
            return None;
        };
        return Some((0, rest));
    }
    digits(limit, text)
}
