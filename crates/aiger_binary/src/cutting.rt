//! The first line of a text.

ghost use Rattle.std.specs.Prelude.{◌≡◌};
ghost use Rattle.aiger_binary.specs.Cut as spec;

/// A line without its LF, whether an LF ends it, and the bytes after it.
#[derive(Clone, Copy)]
pub(crate) struct FirstLine<'a> {
    pub(crate) text: &'a [u8],
    pub(crate) ended: bool,
    pub(crate) rest: &'a [u8],
}

/// The first line.
#[tactic(auto, using(text_core::specs::Splits::splits), unfolding(crate::specs::Cut::cut_from))]
pub(crate) fn first_line(bytes: &[u8]) -> FirstLine<'_>
    ensures { spec.cut_of result.text.now result.ended result.rest.now ≡ spec.cut_first bytes.now }
{
    let mut at = 0;
    let mut left = bytes;
    while let Some((byte, rest)) = left.split_first() {
        if *byte == b'\n' {
            let (text, _) = bytes.split_at(at);
            return FirstLine {
                text,
                ended: true,
                rest,
            };
        }
        at += 1;
        left = rest;
    }
    FirstLine {
        text: bytes,
        ended: false,
        rest: left,
    }
}
