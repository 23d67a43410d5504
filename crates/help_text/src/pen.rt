//! Texts of literals and numbers, words that are wrapped, and what is quoted.

use itoa::Buffer;
use std::alloc::AllocError;
use text_core::{next_item, push_number};

/// A part of a text.
#[derive(Clone, Copy)]
pub enum Part {
    /// Literal bytes.
    Text(&'static [u8]),
    /// A number.
    Number(u32),
    /// A number of bytes, of lines or of anything else that is counted in memory.
    Count(usize),
}

/// The most bytes of what is quoted.
const MOST_QUOTED: usize = 60;

/// The columns of a page.
const COLUMNS: usize = 100;

/// Appends a number as its digits.
fn push_count(text: &mut Vec<u8>, count: usize) -> Result<(), AllocError> {
    let mut buffer = Buffer::new();
    text.extend_from_slice(buffer.format(count).as_bytes())
}

/// Appends parts, one after the other.
pub fn push_parts(text: &mut Vec<u8>, parts: &[Part]) -> Result<(), AllocError> {
    for part in parts {
        match part {
            Part::Text(bytes) => text.extend_from_slice(bytes)?,
            Part::Number(number) => push_number(text, *number)?,
            Part::Count(count) => push_count(text, *count)?,
        }
    }
    Ok(())
}

/// A digit of base 16.
fn digit_of(value: u8) -> u8 {
    if value < 10 {
        b'0'.saturating_add(value)
    } else {
        b'a'.saturating_add(value.saturating_sub(10))
    }
}

/// Appends a byte that may be unprintable: as `\x09`, if it is.
fn push_shown(text: &mut Vec<u8>, byte: u8) -> Result<(), AllocError> {
    if byte >= b' ' && byte != b'\\' && byte < 127 {
        return Ok(text.push(byte)?);
    }
    if byte == b'\\' {
        return text.extend_from_slice(b"\\\\");
    }
    text.extend_from_slice(b"\\x")?;
    text.push(digit_of(byte / 16))?;
    Ok(text.push(digit_of(byte % 16))?)
}

/// Appends what stands somewhere, for people: at most 60 bytes of it, the unprintable ones escaped.
pub fn push_quoted(text: &mut Vec<u8>, bytes: &[u8]) -> Result<(), AllocError> {
    let count = bytes.len().min(MOST_QUOTED);
    for byte in &bytes[..count] {
        push_shown(text, *byte)?;
    }
    if count < bytes.len() {
        text.extend_from_slice(b"..")?;
    }
    Ok(())
}

/// Appends blanks.
pub(crate) fn push_blanks(text: &mut Vec<u8>, count: usize) -> Result<(), AllocError> {
    for _ in 0..count {
        text.push(b' ')?;
    }
    Ok(())
}

/// Appends words, with a new line before each that would go beyond the last column. Text stands at `column` already,
/// and new lines begin at `margin`. Ends the line.
pub(crate) fn push_wrapped(
    text: &mut Vec<u8>,
    words: &[u8],
    column: usize,
    margin: usize,
) -> Result<(), AllocError> {
    let mut at = column;
    let mut left = words;
    for _ in 0..words.len() {
        if left.is_empty() {
            break;
        }
        let (word, rest) = next_item(left);
        if at > margin && at.saturating_add(word.len()) >= COLUMNS {
            text.push(b'\n')?;
            push_blanks(text, margin)?;
            at = margin;
        } else if at > margin {
            text.push(b' ')?;
        }
        text.extend_from_slice(word)?;
        at = at.saturating_add(word.len()).saturating_add(1);
        left = rest.unwrap_or(b"");
    }
    Ok(text.push(b'\n')?)
}
