//! Tests of the binary form: what it stands for, its faults, texts that are cut off, and what is packed.

use crate::faults::is_refused;
use aiger_binary::{ascii_text, is_binary};
use aiger_pack::pack;
use std::alloc::{AllocError, Global};
use text_core::push_number;

/// Whether a binary text stands for `text`.
fn stands_for(alloc: Global, bytes: &[u8], text: &[u8]) -> Result<bool, AllocError> {
    let made = ascii_text(alloc, bytes)?;
    Ok(is_binary(bytes) && made.as_slice() == text)
}

/// Binary texts, and the ASCII texts that they stand for, as `aigtoaig` of the AIGER tools makes them.
const PAIRS: &[(&str, &[u8], &[u8])] = &[
    ("an empty file", b"aig 0 0 0 0 0\n", b"aag 0 0 0 0 0\n"),
    (
        "NAND",
        b"aig 3 2 0 1 1\n7\n\x02\x02",
        b"aag 3 2 0 1 1\n2\n4\n7\n6 4 2\n",
    ),
    (
        "a toggle with an enable",
        b"aig 6 2 1 2 3\n12\n6\n7\n\x01\x02\x04\x02\x01\x02",
        b"aag 6 2 1 2 3\n2\n4\n6 12\n6\n7\n8 7 5\n10 6 4\n12 11 9\n",
    ),
    (
        "latches with each reset",
        b"aig 3 0 3 0 0\n4\n6 1\n2 6\n",
        b"aag 3 0 3 0 0\n2 4\n4 6 1\n6 2 6\n",
    ),
    (
        "symbols and a comment",
        b"aig 1 1 0 1 0\n3\ni0 a\no0 y\nc\nany\xff text",
        b"aag 1 1 0 1 0\n2\n3\ni0 a\no0 y\nc\n",
    ),
    (
        "a comment as ABC's &write begins it",
        b"aig 1 1 0 1 0\n3\ni0 a\ncn\x00\x00\x00\x02m\x00\nby ABC",
        b"aag 1 1 0 1 0\n2\n3\ni0 a\nc\n",
    ),
    (
        "a bad state, and the symbol of a constraint",
        b"aig 1 1 0 0 0 1 1\n3\n2\nb0 p\nc0 q\nc\n",
        b"aag 1 1 0 0 0 1 1\n2\n3\n2\nb0 p\nc0 q\nc\n",
    ),
    (
        "a number with a last byte of 0",
        b"aig 3 2 0 1 1\n7\n\x82\x80\x80\x00\x02",
        b"aag 3 2 0 1 1\n2\n4\n7\n6 4 2\n",
    ),
    (
        "an LF as a number",
        b"aig 6 5 0 1 1\n12\n\x0a\x02",
        b"aag 6 5 0 1 1\n2\n4\n6\n8\n10\n12\n12 2 0\n",
    ),
];

#[test]
fn binary_texts_stand_for_ascii_texts(rt: HostRuntime) -> Result<(), AllocError> {
    for &(name, bytes, text) in PAIRS {
        let is_right = stands_for(rt.alloc(), bytes, text)?;
        assert!(rt; is_right, "{name}");
    }
    Ok(())
}

/// Whether a binary text is refused with an error at a line; line 0 for no error.
fn is_fault(alloc: Global, bytes: &[u8], word: &str, line: u32) -> Result<bool, AllocError> {
    let text = ascii_text(alloc, bytes)?;
    Ok(is_refused(alloc, &text, word, line))
}

/// Binary texts, with the error and the line that it has in the ASCII form.
const FAULTS: &[(&str, &[u8], &str, u32)] = &[
    ("NAND", b"aig 3 2 0 1 1\n7\n\x02\x02", "", 0),
    ("the word alone", b"aig", "Syntax", 1),
    ("another word", b"aigs 0 0 0 0 0\n", "Syntax", 1),
    ("no LF after the header", b"aig 0 0 0 0 0", "Syntax", 1),
    ("four counts", b"aig 0 0 0 0\n", "Syntax", 1),
    ("nine counts", b"aig 0 0 0 0 0 0 0 0 0\n", "", 0),
    ("a leading 0", b"aig 00 0 0 0 0\n", "Syntax", 1),
    (
        "a variable that is nothing",
        b"aig 4 2 0 1 1\n7\n\x02\x02",
        "Syntax",
        1,
    ),
    (
        "more than the variables",
        b"aig 2 2 0 1 1\n7\n\x02\x02",
        "Syntax",
        1,
    ),
    (
        "too many variables",
        b"aig 2097153 2097153 0 0 0\n",
        "NotSupported",
        1,
    ),
    (
        "counts whose sum has more than 32 bits",
        b"aig 2 4294967295 0 0 3\n",
        "Syntax",
        1,
    ),
    ("bad states", b"aig 0 0 0 0 0 1\n1\n", "NotSupported", 1),
    (
        "a latch with a literal",
        b"aig 1 0 1 0 0\n2 0 1\n",
        "Syntax",
        2,
    ),
    ("a missing latch", b"aig 1 0 1 0 0\n", "Syntax", 2),
    ("a reset of 3", b"aig 1 0 1 0 0\n0 3\n", "Syntax", 2),
    (
        "an output above the variables",
        b"aig 1 1 0 1 0\n4\n",
        "Syntax",
        3,
    ),
    (
        "a first fanin that is the gate",
        b"aig 3 2 0 1 1\n7\n\x00\x02",
        "Syntax",
        5,
    ),
    (
        "a first fanin below 0",
        b"aig 3 2 0 1 1\n7\n\x07\x00",
        "Syntax",
        5,
    ),
    (
        "a second fanin below 0",
        b"aig 3 2 0 1 1\n7\n\x02\x05",
        "Syntax",
        5,
    ),
    (
        "a number of five bytes",
        b"aig 3 2 0 1 1\n7\n\x82\x80\x80\x80\x00\x02",
        "Syntax",
        5,
    ),
    (
        "a number that has more than 32 bits",
        b"aig 3 2 0 1 1\n7\n\xff\xff\xff\xff\xff\xff\x0f\x02",
        "Syntax",
        5,
    ),
    (
        "a fault before a fault",
        b"aig 3 2 0 1 1\n9\n\x00\x02",
        "Syntax",
        4,
    ),
    (
        "a fault in the second gate",
        b"aig 4 2 0 1 2\n7\n\x02\x02\x00\x02",
        "Syntax",
        6,
    ),
    (
        "a symbol's position",
        b"aig 1 1 0 1 0\n3\ni1 a\n",
        "Syntax",
        4,
    ),
];

#[test]
fn binary_faults_have_the_lines_of_the_ascii_form(rt: HostRuntime) -> Result<(), AllocError> {
    for &(name, bytes, word, line) in FAULTS {
        let is_right = is_fault(rt.alloc(), bytes, word, line)?;
        assert!(rt; is_right, "{name}");
    }
    Ok(())
}

/// A binary text that is cut after each byte.
const WHOLE: &[u8] = b"aig 5 2 1 1 2\n10\n9\n\x02\x02\x01\x02";

/// How many of the texts that begin `bytes`, with at least the word, and are shorter, are accepted.
fn accepted_cuts(alloc: Global, bytes: &[u8]) -> Result<u32, AllocError> {
    let mut count: u32 = 0;
    for size in 3..bytes.len().max(3) {
        let (cut, _) = bytes.split_at(size);
        let text = ascii_text(alloc, cut)?;
        if is_refused(alloc, &text, "", 0) {
            count = count.saturating_add(1);
        }
    }
    Ok(count)
}

#[test]
fn binary_texts_that_are_cut_are_refused(rt: HostRuntime) -> Result<(), AllocError> {
    let count = accepted_cuts(rt.alloc(), WHOLE)?;
    assert!(rt; count == 0, "cuts");
    Ok(())
}

/// Whether `pack` makes `bytes` of a text.
fn is_packed(alloc: Global, text: &[u8], bytes: &[u8]) -> Result<bool, AllocError> {
    let packed = pack(alloc, text)?;
    Ok(packed.as_slice() == bytes)
}

/// Texts, and what is packed: the binary form, or a copy where there is none.
const PACKED: &[(&str, &[u8], &[u8])] = &[
    (
        "NAND",
        b"aag 3 2 0 1 1\n2\n4\n7\n6 4 2\n",
        b"aig 3 2 0 1 1\n7\n\x02\x02",
    ),
    (
        "a latch and symbols",
        b"aag 3 1 1 1 1\n2\n4 6 1\n7\n6 4 3\ni0 a\nl0 q\no0 y\n",
        b"aig 3 1 1 1 1\n6 1\n7\n\x02\x01i0 a\nl0 q\no0 y\n",
    ),
    (
        "a gate with the greater fanin second",
        b"aag 3 2 0 1 1\n2\n4\n7\n6 2 4\n",
        b"aag 3 2 0 1 1\n2\n4\n7\n6 2 4\n",
    ),
    ("no file", b"aag 1 0\n", b"aag 1 0\n"),
];

#[test]
fn texts_are_packed(rt: HostRuntime) -> Result<(), AllocError> {
    for &(name, text, bytes) in PACKED {
        let is_right = is_packed(rt.alloc(), text, bytes)?;
        assert!(rt; is_right, "{name}");
    }
    Ok(())
}

/// The text of AND of the first two of 64 inputs: its literal, 130, is 126 above its first fanin, and the text of an
/// AND of constants, whose numbers have two bytes.
fn wide_text(alloc: Global) -> Result<Vec<u8>, AllocError> {
    let mut text = Vec::new(alloc);
    text.extend_from_slice(b"aag 66 64 0 1 2\n")?;
    for variable in 1..65u32 {
        push_number(&mut text, variable * 2)?;
        text.push(b'\n')?;
    }
    text.extend_from_slice(b"132\n130 4 2\n132 1 0\n")?;
    Ok(text)
}

#[test]
fn numbers_of_two_bytes_are_packed(rt: HostRuntime) -> Result<(), AllocError> {
    let text = wide_text(rt.alloc())?;
    let bytes = b"aig 66 64 0 1 2\n132\n\x7e\x02\x83\x01\x01".as_slice();
    let is_right = is_packed(rt.alloc(), &text, bytes)?;
    assert!(rt; is_right, "two bytes");
    Ok(())
}
