//! Two netlists in one text, one after the other.

use crate::explaining::Input;
use crate::tokens::{Separators, goes_on, next_token, without_comment};
use text_core::next_line;

/// Two netlists of one text.
#[derive(Clone, Copy)]
pub struct Halves<'a> {
    /// The first.
    pub first: Input<'a>,
    /// The second.
    pub second: Input<'a>,
}

/// How much of a text its first netlist is.
#[derive(Clone, Copy)]
struct Length {
    bytes: usize,
    lines: u32,
}

/// The first word of a line without its comment; empty if there is none.
fn first_word(words: &[u8]) -> &[u8] {
    let (word, _) = next_token(Separators::Blanks, words);
    word
}

/// Whether a text has but blanks and comments.
pub(crate) fn is_blank(text: &[u8]) -> bool {
    let mut left = text;
    for _ in 0..text.len() {
        let Some((line, _, rest)) = next_line(left) else {
            break;
        };
        if !first_word(without_comment(line)).is_empty() {
            return false;
        }
        left = rest;
    }
    true
}

/// The first netlist of a text, up to the first line that begins with `.end`; the whole text if there is none.
fn first_length(text: &[u8]) -> Length {
    let mut left = text;
    let mut lines: u32 = 0;
    let mut is_inside = false;
    let mut is_end = false;
    for _ in 0..text.len() {
        let Some((line, _, rest)) = next_line(left) else {
            break;
        };
        let words = without_comment(line);
        is_end = is_end || (!is_inside && first_word(words) == b".end".as_slice());
        is_inside = goes_on(words);
        lines = lines.saturating_add(1);
        left = rest;
        if is_end && !is_inside {
            break;
        }
    }
    Length {
        bytes: text.len().saturating_sub(left.len()),
        lines,
    }
}

/// The two netlists of one text.
pub fn halves_of(input: Input<'_>) -> Halves<'_> {
    let Some(text) = input.bytes else {
        let second = Input {
            name: input.name,
            bytes: None,
            before: None,
            most_bytes: None,
        };
        return Halves {
            first: input,
            second,
        };
    };
    let length = first_length(text);
    let (first, second) = text.split_at(length.bytes.min(text.len()));
    Halves {
        first: Input::of(input.name, Some(first)),
        second: Input {
            name: input.name,
            bytes: Some(second),
            before: Some(length.lines),
            most_bytes: None,
        },
    }
}
