//! The lines that a stage is handed.

/// A line of a text.
#[derive(Clone, Copy)]
pub struct TextLine<'a> {
    /// Its bytes, without the LF.
    pub text: &'a [u8],
    /// Whether an LF ends it.
    pub ended: bool,
    /// The number of the line in the text, from 1 on.
    pub number: u32,
}
