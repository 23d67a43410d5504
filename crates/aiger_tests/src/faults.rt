//! Tests that faulty texts are refused with the right error.

use aiger_text::{NetError, read_ascii};
use std::alloc::Global;

/// The name of an error, and its line.
fn fault(error: &NetError) -> (&'static str, u32) {
    match error {
        NetError::Syntax(line) => ("Syntax", *line),
        NetError::NotSupported(line, _) => ("NotSupported", *line),
        NetError::NameTooLong(line) => ("NameTooLong", *line),
        _ => ("another", 0),
    }
}

/// Whether `text` is refused with the error `word` at line `line`; 0 for no error.
pub(crate) fn is_refused(alloc: Global, text: &[u8], word: &str, line: u32) -> bool {
    if text.len() > 100_000 {
        return false;
    }
    let error = match read_ascii(alloc, text) {
        Ok(file) => {
            drop(file);
            return line == 0;
        }
        Err(error) => error,
    };
    let (reported, at) = fault(&error);
    let is_right = reported == word && at == line;
    drop(error);
    is_right
}

/// Texts, with the error and its line.
const TEXTS: &[(&str, &[u8], &str, u32)] = &[
    ("no text", b"", "Syntax", 1),
    ("an empty file", b"aag 0 0 0 0 0\n", "", 0),
    ("no LF after the header", b"aag 0 0 0 0 0", "Syntax", 1),
    ("four counts", b"aag 0 0 0 0\n", "Syntax", 1),
    ("nine counts", b"aag 0 0 0 0 0 0 0 0 0\n", "", 0),
    ("ten counts", b"aag 0 0 0 0 0 0 0 0 0 0\n", "Syntax", 1),
    ("a leading 0", b"aag 00 0 0 0 0\n", "Syntax", 1),
    ("two blanks", b"aag 0  0 0 0 0\n", "Syntax", 1),
    ("a CR", b"aag 0 0 0 0 0\r\n", "Syntax", 1),
    ("the binary form", b"aig 0 0 0 0 0\n", "Syntax", 1),
    (
        "more inputs than variables",
        b"aag 1 2 0 0 0\n2\n4\n",
        "Syntax",
        1,
    ),
    (
        "too many variables",
        b"aag 2097153 0 0 0 0\n",
        "NotSupported",
        1,
    ),
    (
        "too many inputs and latches",
        b"aag 1048577 1048576 1 0 0\n",
        "NotSupported",
        1,
    ),
    (
        "too many outputs",
        b"aag 0 0 0 1048577 0\n",
        "NotSupported",
        1,
    ),
    (
        "more than nine digits",
        b"aag 1000000000 0 0 0 0\n",
        "Syntax",
        1,
    ),
    ("a bad state", b"aag 1 1 0 0 0 1\n2\n2\n", "NotSupported", 1),
    (
        "a constraint",
        b"aag 1 1 0 0 0 0 1\n2\n2\n",
        "NotSupported",
        1,
    ),
    (
        "a justice property",
        b"aag 1 1 0 0 0 0 0 1\n2\n1\n2\n",
        "NotSupported",
        1,
    ),
    (
        "a fairness constraint",
        b"aag 1 1 0 0 0 0 0 0 1\n2\n2\n",
        "NotSupported",
        1,
    ),
    ("NAND", b"aag 3 2 0 1 1\n2\n4\n7\n6 2 4\n", "", 0),
    (
        "gates out of order",
        b"aag 4 2 0 1 2\n2\n4\n8\n8 6 2\n6 2 4\n",
        "",
        0,
    ),
    (
        "an input with a complement",
        b"aag 3 2 0 1 1\n3\n4\n7\n6 2 4\n",
        "Syntax",
        2,
    ),
    (
        "a constant as an input",
        b"aag 3 2 0 1 1\n0\n4\n7\n6 2 4\n",
        "Syntax",
        2,
    ),
    (
        "an input above the variables",
        b"aag 3 2 0 1 1\n2\n8\n7\n6 2 4\n",
        "Syntax",
        3,
    ),
    (
        "an output above the variables",
        b"aag 3 2 0 1 1\n2\n4\n8\n6 2 4\n",
        "Syntax",
        4,
    ),
    (
        "a gate with a complement",
        b"aag 3 2 0 1 1\n2\n4\n7\n7 2 4\n",
        "Syntax",
        5,
    ),
    (
        "a gate with one fanin",
        b"aag 3 2 0 1 1\n2\n4\n7\n6 2\n",
        "Syntax",
        5,
    ),
    (
        "a gate with three fanins",
        b"aag 3 2 0 1 1\n2\n4\n7\n6 2 4 4\n",
        "Syntax",
        5,
    ),
    ("a missing gate", b"aag 3 2 0 1 1\n2\n4\n7\n", "Syntax", 5),
    ("a sign", b"aag 3 2 0 1 1\n2\n4\n7\n6 -2 4\n", "Syntax", 5),
    (
        "latches with each reset",
        b"aag 3 0 3 0 0\n2 4 0\n4 6 1\n6 2 6\n",
        "",
        0,
    ),
    ("a reset of 2", b"aag 2 0 2 0 0\n2 2\n4 4 2\n", "Syntax", 3),
    (
        "symbols and a comment",
        b"aag 1 1 0 1 0\n2\n3\ni0 a\no0 y z\nc\nany\xff text",
        "",
        0,
    ),
    (
        "a symbol's position",
        b"aag 1 1 0 1 0\n2\n3\ni1 a\n",
        "Syntax",
        4,
    ),
    (
        "a symbol without a name",
        b"aag 1 1 0 1 0\n2\n3\ni0\n",
        "Syntax",
        4,
    ),
    (
        "a symbol of a bad state",
        b"aag 1 1 0 1 0\n2\n3\nb0 a\n",
        "Syntax",
        4,
    ),
    (
        "a name that a gate has",
        b"aag 1 1 0 1 0\n2\n3\ni0 &4\n",
        "NotSupported",
        4,
    ),
    (
        "a comment before the gates",
        b"aag 3 2 0 1 1\n2\n4\n7\nc\n",
        "Syntax",
        5,
    ),
    ("a comment without an LF", b"aag 0 0 0 0 0\nc", "Syntax", 2),
];

#[test]
fn faults_have_their_lines(rt: HostRuntime) {
    for &(name, text, word, line) in TEXTS {
        assert!(rt; is_refused(rt.alloc(), text, word, line), "{name}");
    }
}

/// A text that is cut after each byte.
const WHOLE: &[u8] =
    b"aag 5 2 1 1 2\n2\n4\n6 9 1\n11\n8 6 2\n10 9 4\ni0 a\ni1 b\nl0 q\no0 y\nc\nend\n";

/// How many of the texts that begin `text`, and are shorter, are accepted.
fn accepted_prefixes(alloc: Global, text: &[u8]) -> u32 {
    let mut count: u32 = 0;
    if text.len() > 1000 {
        return count;
    }
    for size in 0..text.len() {
        let (prefix, _) = text.split_at(size);
        if is_refused(alloc, prefix, "", 0) {
            count = count.saturating_add(1);
        }
    }
    count
}

#[test]
fn texts_are_cut_after_the_gates_alone(rt: HostRuntime) {
    // after the last gate, after each symbol, and in the comment's five places
    assert!(rt; accepted_prefixes(rt.alloc(), WHOLE) == 9, "cuts");
}
