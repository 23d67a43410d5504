//! The symbols of outputs, bad states and constraints, as those of the outputs of the plain text.

ghost use Rattle.std.specs.Prelude.{◌≡◌, ◌∷◌, ◌++◌, ◌+◌, ◌≤◌, Some, IfSome, OnOk};
ghost use Rattle.aiger_sections.specs.Plain as spec;
ghost use Rattle.text_core.specs.Limits.{most_number};
ghost use Rattle.aiger_sections.specs.Header.{total as total_of};

use crate::header::Sections;
use std::alloc::AllocError;
use text_core::{MOST_NUMBER, next_item, number_up_to, push_number};

/// Consecutive outputs of the plain text: the first, and how many there are.
#[derive(Clone, Copy)]
pub struct Places {
    pub first: u32,
    pub count: u32,
}

/// Which outputs of the plain text the symbols of a letter name.
#[tactic(auto, using(crate::proofs::Numbers::sums), unfolding(crate::specs::Plain::places_of))]
fn places_of(sections: Sections, letter: u8) -> Option<Places>
    requires { total_of sections ≤ most_number }
    ensures exact { result ≡ spec.places_of sections letter }
    ensures low { IfSome result (λ p. p.first + p.count ≤ most_number) }
{
    let first = sections.outputs;
    match letter {
        b'o' => Some(Places {
            first: 0,
            count: first,
        }),
        b'b' => Some(Places {
            first,
            count: sections.bads,
        }),
        b'c' => Some(Places {
            first: first + sections.bads,
            count: sections.constraints,
        }),
        _ => None,
    }
}

/// Adds a letter and digits.
fn push_key(out: &mut Vec<u8>, letter: u8, digits: &[u8]) -> Result<(), AllocError>
    ensures { OnOk result (out.new.items ≡ out.old.items ++ letter ∷ digits.now) }
{
    out.push(letter)?;
    out.extend_from_slice(digits)
}

/// Adds the key of the output at a position.
fn push_key_at(
    out: &mut Vec<u8>,
    letter: u8,
    digits: &[u8],
    places: Places,
) -> Result<(), AllocError>
    requires { places.first + places.count ≤ most_number }
    ensures { OnOk result (out.new.items ≡
        out.old.items ++ spec.key_by letter digits.now (Some places)) }
{
    let Some(position) = number_up_to(MOST_NUMBER, digits) else {
        return push_key(out, letter, digits);
    };
    if position < places.count {
        out.push(b'o')?;
        return push_number(out, places.first + position);
    }
    push_key(out, b'b', digits)
}

/// Adds the key of the plain text.
#[tactic(auto, unfolding(crate::specs::Plain::plain_key))]
fn push_plain_key(out: &mut Vec<u8>, sections: Sections, key: &[u8]) -> Result<(), AllocError>
    requires { total_of sections ≤ most_number }
    ensures { OnOk result (out.new.items ≡ out.old.items ++ spec.plain_key sections key.now) }
{
    let Some((letter, digits)) = key.split_first() else {
        return Ok(());
    };
    match places_of(sections, *letter) {
        Some(places) => push_key_at(out, *letter, digits, places),
        None => push_key(out, *letter, digits),
    }
}

/// Adds the text of a symbol of the plain text.
#[tactic(auto, using(crate::proofs::Keys::keys), unfolding(crate::specs::Plain::plain_symbol))]
pub(crate) fn push_symbol(
    out: &mut Vec<u8>,
    sections: Sections,
    text: &[u8],
) -> Result<(), AllocError>
    requires { total_of sections ≤ most_number }
    ensures { OnOk result (out.new.items ≡ out.old.items ++ spec.plain_symbol sections text.now) }
{
    let (key, _) = next_item(text);
    push_plain_key(out, sections, key)?;
    if key.len() < text.len() {
        out.extend_from_slice(&text[key.len()..])?;
    }
    Ok(())
}
