//! Numbers within a range at the start of a text: no plus sign, no leading 0, not too many digits.
ghost use Rattle.std.specs.Prelude.{◌≡◌, ◌+◌, ◌<◌, length, None, Some, IfNone, IfSome};
ghost use Rattle.text_core.specs.Items.{items_left, size_left};
ghost use Rattle.text_core.specs.Numbers.{number_up_to as number_up_to_of};
ghost use Rattle.lrat_text.specs.Numerals as spec;
ghost use Rattle.lrat_text.specs.Numerals.{first_of, after_first};
ghost use Rattle.sat_theory.specs.Limits.{most_variable};

use crate::numbers::next_number;
use cnf_core::Lit;
use sat_theory::{MOST_ID, MOST_VARIABLE};

/// The id that the first item of a text spells, or None for the 0 that ends a list, and the text after the
/// item's blank; None as a whole if the item isn't a number in the range.
#[tactic(auto, using(crate::proofs::Entries::entries))]
pub(crate) fn next_id(text: &[u8]) -> Option<(Option<u32>, Option<&[u8]>)>
    ensures none { IfNone result (spec.id_in (first_of text.now) ≡ None) }
    ensures id { IfSome result (λ x. spec.id_in (first_of text.now) ≡ Some x.0) }
    ensures rest { IfSome result (λ x. after_first text.now ≡ items_left x.1) }
    ensures shorter { IfSome result (λ x. size_left x.1 < length text.now + 1) }
{
    let Some((id, rest)) = next_number(MOST_ID, text) else {
        return None;
    };
    if id == 0 {
        return Some((None, rest));
    }
    Some((Some(id), rest))
}

/// The number after the minus sign of a literal, and the text after it.
#[tactic(auto, using(crate::proofs::Entries::entries))]
fn after_minus(text: &[u8]) -> Option<&[u8]>
    ensures none { IfNone result (spec.literal_in (first_of text.now) ≡
        spec.positive (number_up_to_of most_variable (first_of text.now))) }
    ensures literal { IfSome result (λ digits. spec.literal_in (first_of text.now) ≡
        spec.negative (number_up_to_of most_variable (first_of digits.now))) }
    ensures rest { IfSome result (λ digits. after_first text.now ≡ after_first digits.now) }
    ensures shorter { IfSome result (λ digits. length digits.now < length text.now) }
{
    let (first, digits) = text.split_first()?;
    if *first != b'-' {
        return None;
    }
    Some(digits)
}

/// The literal that the first item of a text spells, with the same results as `next_id`.
#[tactic(auto, using(crate::proofs::Entries::entries))]
pub(crate) fn next_literal(text: &[u8]) -> Option<(Option<Lit>, Option<&[u8]>)>
    ensures none { IfNone result (spec.literal_in (first_of text.now) ≡ None) }
    ensures literal { IfSome result (λ x. spec.literal_in (first_of text.now) ≡ Some x.0) }
    ensures rest { IfSome result (λ x. after_first text.now ≡ items_left x.1) }
    ensures shorter { IfSome result (λ x. size_left x.1 < length text.now + 1) }
{
    if let Some(digits) = after_minus(text) {
        let Some((variable, rest)) = next_number(MOST_VARIABLE, digits) else {
            return None;
        };
        if variable == 0 {
            return None;
        }
        let lit = Lit::new(variable as i32);
        return Some((Some(lit.opposite()), rest));
    }
    let Some((variable, rest)) = next_number(MOST_VARIABLE, text) else {
        return None;
    };
    if variable == 0 {
        return Some((None, rest));
    }
    Some((Some(Lit::new(variable as i32)), rest))
}

/// Whether the first item of a text begins with a minus sign.
#[tactic(auto, using(crate::proofs::Entries::entries))]
pub(crate) fn begins_minus(text: &[u8]) -> bool
    ensures { result ≡ spec.begins_minus (first_of text.now) }
{
    let Some((first, _)) = text.split_first() else {
        return false;
    };
    *first == b'-'
}

/// Whether an item is the letter d.
pub(crate) fn is_letter_d(item: &[u8]) -> bool
    ensures { result ≡ spec.is_letter_d item.now }
{
    matches!(item, [b'd'])
}
