//! Lines of a text, one at a time.
ghost use Rattle.std.specs.Prelude.{◌≡◌, ◌+◌, ◌<◌, [], ◌∷◌, length, if◌then◌else◌, IfNone, IfSome};
ghost use Rattle.text_core.specs.Lines.{lines_of};
ghost use Rattle.text_core.specs.Rest.{IsRest};

/// The first line without its LF, whether an LF ends it, and the text after it; None if the text is empty.
/// A CR is a byte like any other.
#[tactic(auto, using(crate::specs::Splits::splits), unfolding(crate::specs::Lines::lines_from))]
pub fn next_line(bytes: &[u8]) -> Option<(&[u8], bool, &[u8])>
    ensures none { IfNone result (lines_of bytes.now ≡ []) }
    ensures some { IfSome result (λ x.
        lines_of bytes.now ≡ record { text = x.0.now; ended = x.1 } ∷ lines_of x.2.now) }
    ensures size { IfSome result (λ x.
        length bytes.now ≡ length x.0.now + (if x.1 then 1 else 0) + length x.2.now) }
    ensures rest { IfSome result (λ x. IsRest bytes.now x.2.now) }
    ensures shorter { IfSome result (λ x. length x.2.now < length bytes.now) }
{
    let mut at = 0;
    let mut left = bytes;
    while let Some((byte, rest)) = left.split_first() {
        if *byte == b'\n' {
            let (text, _) = bytes.split_at(at);
            return Some((text, true, rest));
        }
        at += 1;
        left = rest;
    }
    if bytes.is_empty() {
        return None;
    }
    Some((bytes, false, left))
}
