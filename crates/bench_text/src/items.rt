//! The items (tokens) of a line. A line is scanned once for each use; no list of its items is stored.

ghost use Rattle.std.specs.Prelude.{◌≡◌, ◌<◌, [], ◌∷◌, length, IfSome};
ghost use Rattle.net_theory.specs.Document.{is_same};
ghost use Rattle.bench_text.specs.Items.{is_mark as is_mark_of, is_mark_item as is_mark_item_of, items_of};
ghost use Rattle.blif_text.specs.Words.{has_long as has_long_of};
ghost use Rattle.bench_text.specs.Walks.{items_in};

use net_document::{is_blank, is_long_word};

/// Whether a byte is `(`, `)`, `,` or `=`.
fn is_mark(byte: u8) -> bool
    ensures { result ≡ is_mark_of byte }
{
    byte == b'(' || byte == b')' || byte == b',' || byte == b'='
}

/// The first item of a text and the rest after it; None if the text has no item.
#[tactic(auto, using(text_core::specs::Splits::splits), unfolding(crate::specs::Items::items_from))]
pub fn next_item(text: &[u8]) -> Option<(&[u8], &[u8])>
    ensures items { items_of text.now ≡ items_in result }
    ensures shorter { IfSome result (λ x. length x.1.now < length text.now) }
{
    let mut start = text;
    let mut at = 0;
    let mut left = text;
    while let Some((byte, rest)) = left.split_first() {
        if !is_blank(*byte) && !is_mark(*byte) {
            at += 1;
            left = rest;
            continue;
        }
        if at > 0 {
            let (word, _) = start.split_at(at);
            return Some((word, left));
        }
        if is_mark(*byte) {
            let (mark, _) = left.split_at(1);
            return Some((mark, rest));
        }
        start = rest;
        left = rest;
    }
    if at == 0 {
        return None;
    }
    Some((start, left))
}

/// Whether an item is a punctuation mark.
pub fn is_mark_item(item: &[u8]) -> bool
    ensures { result ≡ is_mark_item_of item.now }
{
    match item {
        [byte] => is_mark(*byte),
        _ => false,
    }
}

/// Whether `item` is the mark `mark`.
pub fn is_item(item: &[u8], mark: u8) -> bool
    ensures { result ≡ is_same item.now (mark ∷ []) }
{
    match item {
        [byte] => *byte == mark,
        _ => false,
    }
}

/// Whether some item has more than 1,024 bytes.
#[tactic(auto, unfolding(blif_text::specs::Words::has_long))]
pub fn has_long(text: &[u8]) -> bool
    ensures { result ≡ has_long_of (items_of text.now) }
{
    let mut left = text;
    while let Some((item, rest)) = next_item(left) {
        if is_long_word(item) {
            return true;
        }
        left = rest;
    }
    false
}
