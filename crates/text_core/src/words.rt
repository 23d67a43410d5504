//! Words at the start of a text.
ghost use Rattle.std.specs.Prelude.{◌≡◌};
ghost use Rattle.std.specs.Option.{option_copied};
ghost use Rattle.text_core.specs.Words as spec;

/// The text after `word` if the text begins with `word`; else None.
#[tactic(auto, unfolding(crate::specs::Words::after))]
pub fn after<'a>(word: &[u8], text: &'a [u8]) -> Option<&'a [u8]>
    ensures { option_copied result ≡ spec.after word.now text.now }
{
    let mut wanted = word;
    let mut left = text;
    while let Some((byte, others)) = wanted.split_first() {
        let (first, rest) = left.split_first()?;
        if *byte != *first {
            return None;
        }
        wanted = others;
        left = rest;
    }
    Some(left)
}

/// Whether the first byte of a text is one of `a` to `z`.
pub fn begins_lower(text: &[u8]) -> bool
    ensures { result ≡ spec.begins_lower text.now }
{
    match text.first() {
        Some(byte) => byte.is_ascii_lowercase(),
        None => false,
    }
}
