//! Items of a line, one at a time.
ghost use Rattle.std.specs.Prelude.{◌≡◌, ◌+◌, ◌<◌, ◌∷◌, length};
ghost use Rattle.text_core.specs.Items.{items_of, items_left, size_left};

/// The first item of a text, and the text after its blank; None if no blank follows: the item is then the
/// last one. The empty text has one item, which is empty.
#[tactic(auto, using(crate::specs::Splits::splits), unfolding(crate::specs::Items::split_from))]
pub fn next_item(text: &[u8]) -> (&[u8], Option<&[u8]>)
    ensures items { items_of text.now ≡ result.0.now ∷ items_left result.1 }
    ensures shorter { size_left result.1 < length text.now + 1 }
{
    let mut at = 0;
    let mut left = text;
    while let Some((byte, rest)) = left.split_first() {
        if *byte == b' ' {
            let (item, _) = text.split_at(at);
            return (item, Some(rest));
        }
        at += 1;
        left = rest;
    }
    (text, None)
}
