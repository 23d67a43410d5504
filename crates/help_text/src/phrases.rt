//! Parts of lines on wrong words.

use crate::options::Row;
use crate::pages::push_allowed;
use crate::pen::{Part, push_parts, push_quoted};
use std::alloc::AllocError;

/// Appends the values that an option takes, after the word that leads to them.
pub(crate) fn push_takes(
    text: &mut Vec<u8>,
    row: &Row,
    lead: &'static [u8],
) -> Result<(), AllocError> {
    push_parts(text, &[Part::Text(row.name), Part::Text(lead)])?;
    push_allowed(text, row.allowed)
}

/// Appends a word in quotes.
pub(crate) fn push_word(
    text: &mut Vec<u8>,
    before: &'static [u8],
    word: &[u8],
    after: &'static [u8],
) -> Result<(), AllocError> {
    push_parts(text, &[Part::Text(before), Part::Text(b"'")])?;
    push_quoted(text, word)?;
    push_parts(text, &[Part::Text(b"'"), Part::Text(after)])
}
