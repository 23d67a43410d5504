//! Lines, items, words and numbers of texts.
use std::alloc::Global;
use text_core::{after, begins_lower, next_item, next_line, number_up_to, push_number};

/// Texts with their first lines, whether these end with an LF, and the rest.
const LINES: &[(&str, &[u8], Option<(&[u8], bool, &[u8])>)] = &[
    (
        "a line and a rest",
        b"inputs 3\n01\n",
        Some((b"inputs 3", true, b"01\n")),
    ),
    ("two empty lines", b"\n\n", Some((b"", true, b"\n"))),
    ("a line without an LF", b"0110", Some((b"0110", false, b""))),
    (
        "a CR before the LF",
        b"01\r\nx",
        Some((b"01\r", true, b"x")),
    ),
    ("the empty text", b"", None),
];

/// Texts with their first items, and what comes after the blank.
const ITEMS: &[(&str, &[u8], &[u8], Option<&[u8]>)] = &[
    ("three items", b"x3 x1 x2", b"x3", Some(b"x1 x2")),
    ("one item", b"x3", b"x3", None),
    ("the empty text", b"", b"", None),
    ("an empty item", b" 1", b"", Some(b"1")),
    ("a tab and a last blank", b"1\t2 ", b"1\t2", Some(b"")),
];

/// Words, texts, and the rest of the text after the word, if the text begins with it.
const AFTER: &[(&str, &[u8], &[u8], Option<&[u8]>)] = &[
    ("a letter", b"x", b"x10", Some(b"10")),
    ("a word and a blank", b"inputs ", b"inputs 3", Some(b"3")),
    ("a text that is too short", b"inputs ", b"inputs", None),
    ("another case", b"inputs ", b"Inputs 3", None),
    ("the empty word", b"", b"3", Some(b"3")),
];

/// Texts, and whether they begin with a lower-case letter.
const BEGINNINGS: &[(&str, bool)] = &[
    ("chain 1", true),
    ("z", true),
    ("0110", false),
    ("", false),
    ("Chain", false),
    ("-a", false),
];

#[test]
fn lines_and_items_end_where_they_should(rt: HostRuntime) {
    for &(name, bytes, line) in LINES {
        assert!(rt; next_line(bytes) == line, "{name}");
    }
    for &(name, text, item, rest) in ITEMS {
        assert!(rt; next_item(text) == (item, rest), "{name}");
    }
}

#[test]
fn beginnings_of_texts_are_recognized(rt: HostRuntime) {
    for &(name, word, text, rest) in AFTER {
        assert!(rt; after(word, text) == rest, "{name}");
    }
    for &(text, begins) in BEGINNINGS {
        assert!(rt; begins_lower(text.as_bytes()) == begins, "{text}");
    }
}

/// The greatest number allowed, texts, and their numbers.
const NUMBERS: &[(u32, &str, Option<u32>)] = &[
    (999_999_999, "0", Some(0)),
    (999_999_999, "3", Some(3)),
    (999_999_999, "999999999", Some(999_999_999)),
    (999_999_999, "1000000000", None),
    (999_999_999, "007", None),
    (999_999_999, "00", None),
    (999_999_999, "", None),
    (999_999_999, "+1", None),
    (999_999_999, "1 ", None),
    (999_999_999, "1a", None),
    (4_294_967_295, "4294967295", Some(4_294_967_295)),
    (4_294_967_295, "4294967296", None),
    (4_294_967_295, "99999999999999999999999999", None),
    (0, "0", Some(0)),
    (0, "1", None),
];

/// Whether two numbers are appended to a text.
fn are_pushed(alloc: Global) -> bool {
    let Ok(mut out) = Vec::from_slice(alloc, b"x") else {
        return false;
    };
    push_number(&mut out, 10).is_ok()
        && push_number(&mut out, 4_294_967_295).is_ok()
        && out.as_slice() == b"x104294967295".as_slice()
}

#[test]
fn numbers_have_no_leading_zero_and_a_limit(rt: HostRuntime) {
    for &(limit, text, number) in NUMBERS {
        assert!(rt;
            number_up_to(limit, text.as_bytes()) == number,
            "{text} up to {limit}"
        );
    }
}

#[test]
fn numbers_are_appended_in_decimal(rt: HostRuntime) {
    assert!(rt; are_pushed(rt.alloc()));
}
