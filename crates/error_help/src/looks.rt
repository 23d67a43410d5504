//! What a text seems to be, where that isn't what a command reads.

use crate::expected::Subject;
use text_core::{after, next_line};

/// Whether a text begins with a word.
fn begins(word: &[u8], text: &[u8]) -> bool {
    after(word, text).is_some()
}

/// Whether a text begins with a word and a digit.
pub(crate) fn begins_counted(word: &[u8], text: &[u8]) -> bool {
    let Some(rest) = after(word, text) else {
        return false;
    };
    match rest.first() {
        Some(byte) => byte.is_ascii_digit(),
        None => false,
    }
}

/// Whether a text is in AIGER by its first word.
fn begins_aiger(text: &[u8]) -> bool {
    begins_counted(b"aag ", text) || begins_counted(b"aig ", text)
}

/// Whether a line isn't empty, nor a comment.
fn says_something(line: &[u8]) -> bool {
    match line.first() {
        Some(byte) => *byte != b'#' && *byte != b'\r',
        None => false,
    }
}

/// The first line that isn't empty, nor a comment; an empty one if there is none.
fn first_line(text: &[u8]) -> &[u8] {
    let mut left = text;
    for _ in 0..text.len() {
        let Some((line, _, rest)) = next_line(left) else {
            break;
        };
        if says_something(line) {
            return line;
        }
        left = rest;
    }
    b""
}

/// Whether a line is one of BENCH.
fn is_bench(line: &[u8]) -> bool {
    begins(b"INPUT", line)
        || begins(b"OUTPUT", line)
        || begins(b"input(", line)
        || begins(b"output(", line)
}

/// What a text seems to be by its first line.
fn seen_in(text: &[u8]) -> Option<Subject> {
    if begins_aiger(text) {
        return Some(Subject::Aiger);
    }
    if begins_counted(b"inputs ", text) {
        return Some(Subject::Tables);
    }
    if begins_counted(b"chains ", text) {
        return Some(Subject::Certificate);
    }
    let line = first_line(text);
    if begins(b".", line) {
        return Some(Subject::Blif);
    }
    if is_bench(line) {
        return Some(Subject::Bench);
    }
    None
}

/// What is said of a text that seems to be this.
fn said_of(seen: Subject) -> &'static [u8] {
    match seen {
        Subject::Tables | Subject::Question => b"; it looks like truth tables",
        Subject::Certificate | Subject::Depth => b"; it looks like a certificate",
        Subject::Blif => b"; it looks like BLIF",
        Subject::Bench => b"; it looks like BENCH",
        Subject::Aiger => b"; it looks like AIGER",
        Subject::Pair => b"",
    }
}

/// What a text is in whose first line is that of what is read.
fn first_part(subject: Subject) -> Subject {
    match subject {
        Subject::Question => Subject::Tables,
        Subject::Depth => Subject::Certificate,
        other => other,
    }
}

/// Whether lines of what is read end with LF alone.
fn is_strict(subject: Subject) -> bool {
    match first_part(subject) {
        Subject::Tables | Subject::Certificate => true,
        _ => false,
    }
}

/// Whether the first line of a text ends with CR LF.
fn has_cr(text: &[u8]) -> bool {
    match next_line(text) {
        Some((line, _, _)) => match line.last() {
            Some(byte) => *byte == b'\r',
            None => false,
        },
        None => false,
    }
}

/// A remark on a text in which a fault was found, as what is read; empty if there is nothing to say.
pub(crate) fn remark_on(subject: Subject, text: &[u8]) -> &'static [u8] {
    if begins(b"\x1f\x8b", text) {
        return b"; it looks compressed";
    }
    if begins(b"\xef\xbb\xbf", text) {
        return b"; it begins with a byte order mark";
    }
    if let Some(seen) = seen_in(text) {
        if seen != first_part(subject) {
            return said_of(seen);
        }
    }
    if is_strict(subject) && has_cr(text) {
        return b"; its lines end with CR LF, and not with LF alone";
    }
    b""
}
