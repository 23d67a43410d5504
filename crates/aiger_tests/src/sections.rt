//! Tests of bad states and invariant constraints: the plain text in which they are outputs, its faults, texts that are
//! cut off, and what is written back into sections.

use crate::faults::is_refused;
use aiger_pack::pack;
use aiger_sections::{plain_text, sectioned};
use std::alloc::{AllocError, Global};

/// Whether a text has the plain text `plain`.
fn has_plain(alloc: Global, text: &[u8], plain: &[u8]) -> Result<bool, AllocError> {
    let made = plain_text(alloc, text)?;
    Ok(made.as_slice() == plain)
}

/// Texts, and their plain texts.
const PLAIN: &[(&str, &[u8], &[u8])] = &[
    (
        "no sections",
        b"aag 1 1 0 1 0 0 0\n2\n3\no0 y\n",
        b"aag 1 1 0 1 0 0 0\n2\n3\no0 y\n",
    ),
    (
        "a bad state",
        b"aag 1 1 0 0 0 1\n2\n3\nb0 p\n",
        b"aag 1 1 0 1 0\n2\n3\no0 p\n",
    ),
    (
        "an output, a bad state and a constraint",
        b"aag 2 2 0 1 0 1 1\n2\n4\n2\n5\n3\ni0 a\no0 y\nb0 p q\nc0 r\nc\nend\n",
        b"aag 2 2 0 3 0\n2\n4\n2\n5\n3\ni0 a\no0 y\no1 p q\no2 r\nc\nend\n",
    ),
    (
        "a constraint alone, as yosys writes the counts",
        b"aag 1 1 0 0 0 0 1 0 0\n2\n3\nc0 p\n",
        b"aag 1 1 0 1 0 0 0 0 0\n2\n3\no0 p\n",
    ),
    (
        "the binary form",
        b"aig 3 2 0 0 1 1 1\n7\n2\n\x02\x02b0 p\nc0 q\nc any",
        b"aag 3 2 0 2 1\n2\n4\n7\n2\n6 4 2\no0 p\no1 q\nc\n",
    ),
    (
        "more than a header can say",
        b"aag 1 1 0 1 0 999999999\n2\n",
        b"aag 1 1 0 1 0 999999999\n2\n",
    ),
];

#[test]
fn bad_states_and_constraints_become_outputs(rt: HostRuntime) -> Result<(), AllocError> {
    for &(name, text, plain) in PLAIN {
        let is_right = has_plain(rt.alloc(), text, plain)?;
        assert!(rt; is_right, "{name}");
    }
    Ok(())
}

/// Whether a text is refused with an error at a line; line 0 for no error.
fn is_fault(alloc: Global, text: &[u8], word: &str, line: u32) -> Result<bool, AllocError> {
    let plain = plain_text(alloc, text)?;
    Ok(is_refused(alloc, &plain, word, line))
}

/// Texts, with the error and its line.
const FAULTS: &[(&str, &[u8], &str, u32)] = &[
    ("a bad state", b"aag 1 1 0 0 0 1\n2\n3\nb0 p\n", "", 0),
    ("no lines", b"aag 1 1 0 0 0 2\n2\n3\n", "Syntax", 4),
    ("above M", b"aag 1 1 0 0 0 1\n2\n4\n", "Syntax", 3),
    ("two literals", b"aag 1 1 0 0 0 1\n2\n2 3\n", "Syntax", 3),
    ("a leading 0", b"aag 1 1 0 0 0 01\n2\n3\n", "Syntax", 1),
    (
        "ten counts",
        b"aag 1 1 0 0 0 1 0 0 0 0\n2\n3\n",
        "Syntax",
        1,
    ),
    (
        "ten digits",
        b"aag 1 1 0 0 0 4294967297\n2\n3\n",
        "Syntax",
        1,
    ),
    (
        "more than a header can say",
        b"aag 1 1 0 1 0 999999999\n2\n3\n3\n",
        "NotSupported",
        1,
    ),
    (
        "too many in all",
        b"aag 1 1 0 1 0 1048575 1\n2\n3\n",
        "NotSupported",
        1,
    ),
    (
        "a justice property",
        b"aag 1 1 0 0 0 1 0 1\n2\n3\n1\n2\n",
        "NotSupported",
        1,
    ),
    (
        "a fairness constraint",
        b"aag 1 1 0 0 0 1 0 0 1\n2\n3\n2\n",
        "NotSupported",
        1,
    ),
    (
        "a symbol of a second bad state",
        b"aag 1 1 0 0 0 1\n2\n3\nb1 p\n",
        "Syntax",
        4,
    ),
    (
        "a symbol of a second constraint",
        b"aag 1 1 0 0 0 0 1\n2\n3\nc1 p\n",
        "Syntax",
        4,
    ),
    (
        "an output's symbol for a bad state",
        b"aag 1 1 0 0 0 1\n2\n3\no0 p\n",
        "Syntax",
        4,
    ),
    (
        "a symbol without a name",
        b"aag 1 1 0 0 0 1\n2\n3\nb0\n",
        "Syntax",
        4,
    ),
    (
        "a name that a gate has",
        b"aag 1 1 0 0 0 1\n2\n3\nb0 &4\n",
        "NotSupported",
        4,
    ),
    ("a binary bad state", b"aig 0 0 0 0 0 1\n1\n", "", 0),
    ("no binary lines", b"aig 0 0 0 0 0 2\n1\n", "Syntax", 3),
];

#[test]
fn faults_keep_their_lines(rt: HostRuntime) -> Result<(), AllocError> {
    for &(name, text, word, line) in FAULTS {
        let is_right = is_fault(rt.alloc(), text, word, line)?;
        assert!(rt; is_right, "{name}");
    }
    Ok(())
}

/// A text that is cut after each byte.
const WHOLE: &[u8] = b"aag 3 1 1 0 1 1 1\n2\n4 6 1\n7\n3\n6 4 2\nb0 p\nc0 q\nc\nend\n";

/// How many of the texts that begin `text`, and are shorter, are accepted.
fn accepted_cuts(alloc: Global, text: &[u8]) -> Result<u32, AllocError> {
    let mut count: u32 = 0;
    for size in 0..text.len() {
        let (cut, _) = text.split_at(size);
        let plain = plain_text(alloc, cut)?;
        if is_refused(alloc, &plain, "", 0) {
            count = count.saturating_add(1);
        }
    }
    Ok(count)
}

#[test]
fn sections_are_cut_after_the_gates_alone(rt: HostRuntime) -> Result<(), AllocError> {
    let count = accepted_cuts(rt.alloc(), WHOLE)?;
    // after the gate, after each symbol, and in the comment's four places
    assert!(rt; count == 7, "cuts");
    Ok(())
}

/// Whether the plain text `text` in the sections of `given` is `answer`, and `bytes` in the binary form.
fn is_placed(
    alloc: Global,
    given: &[u8],
    text: &[u8],
    answer: &[u8],
    bytes: &[u8],
) -> Result<bool, AllocError> {
    let placed = sectioned(alloc, given, text)?;
    let packed = pack(alloc, &placed)?;
    Ok(placed.as_slice() == answer && packed.as_slice() == bytes)
}

/// Texts, plain texts, those in the sections of the first, and their binary forms.
const PLACED: &[(&str, &[u8], &[u8], &[u8], &[u8])] = &[
    (
        "no sections",
        b"aag 1 1 0 1 0 0 0\n2\n3\n",
        b"aag 1 1 0 1 0\n2\n3\no0 y\n",
        b"aag 1 1 0 1 0\n2\n3\no0 y\n",
        b"aig 1 1 0 1 0\n3\no0 y\n",
    ),
    (
        "an output, a bad state and a constraint",
        b"aag 3 2 0 1 1 1 1\n2\n4\n2\n7\n3\n6 4 2\n",
        b"aag 3 2 0 3 1\n2\n4\n2\n7\n3\n6 4 2\ni0 a\no0 y\no1 p\no2 r\n",
        b"aag 3 2 0 1 1 1 1\n2\n4\n2\n7\n3\n6 4 2\ni0 a\no0 y\nb0 p\nc0 r\n",
        b"aig 3 2 0 1 1 1 1\n2\n7\n3\n\x02\x02i0 a\no0 y\nb0 p\nc0 r\n",
    ),
    (
        "a bad state of a binary text",
        b"aig 1 1 0 0 0 1 0 0 0\n3\n",
        b"aag 1 1 0 1 0\n2\n3\n",
        b"aag 1 1 0 0 0 1\n2\n3\n",
        b"aig 1 1 0 0 0 1\n3\n",
    ),
    (
        "a constraint alone",
        b"aag 1 1 0 0 0 0 1\n2\n3\n",
        b"aag 1 1 0 1 0\n2\n3\no0 p\n",
        b"aag 1 1 0 0 0 0 1\n2\n3\nc0 p\n",
        b"aig 1 1 0 0 0 0 1\n3\nc0 p\n",
    ),
];

#[test]
fn outputs_return_to_their_sections(rt: HostRuntime) {
    for &(name, given, text, answer, bytes) in PLACED {
        let is = is_placed(rt.alloc(), given, text, answer, bytes);
        assert!(rt; matches!(is, Ok(true)), "{name}");
    }
}
