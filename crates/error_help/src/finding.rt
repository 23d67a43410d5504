//! Lines of a text by their number.

use text_core::next_line;

/// A line of a text.
#[derive(Clone, Copy)]
pub(crate) struct Line<'a> {
    /// Its bytes, without LF.
    pub(crate) bytes: &'a [u8],
    /// Whether it has an LF.
    pub(crate) is_ended: bool,
}

/// The line with a number, from 1; None if the text ends before.
pub(crate) fn line_of(text: &[u8], number: u32) -> Option<Line<'_>> {
    let mut left = text;
    for at in 0..number {
        let (bytes, is_ended, rest) = next_line(left)?;
        if at.saturating_add(1) == number {
            return Some(Line { bytes, is_ended });
        }
        left = rest;
    }
    None
}
