//! Tests of the text format of logs: which lines are read and written, and which fault is reported.
use lrat_text::{LineError, read_line, write_line};
use std::alloc::{AllocError, Global};

/// Whether a line, whose text ends with an LF, is read, and is written as the same text.
fn is_written_again(alloc: Global, text: &[u8]) -> Result<bool, AllocError> {
    let Some((_, body)) = text.split_last() else {
        return Ok(false);
    };
    let Ok(line) = read_line(alloc, body) else {
        return Ok(false);
    };
    let mut out = vec![in alloc; b'x']?;
    write_line(&line, &mut out)?;
    let (_, written) = out.split_at(1);
    Ok(written == text)
}

/// Lines, with their LFs.
const LINES: &[&str] = &[
    "5 2 0 1 2 0\n",
    "6 0 5 3 4 0\n",
    "5 0 0\n",
    "5 d 7 0\n",
    "5 d 1 1 0\n",
    "5 d 0\n",
    "4294967295 -2147483647 2147483646 0 1 4294967295 0\n",
    "1 d 4294967295 0\n",
];

#[test]
fn lines_are_written_as_they_are_read(rt: HostRuntime) -> Result<(), AllocError> {
    let alloc = rt.alloc();
    for &text in LINES {
        let again = is_written_again(alloc, text.as_bytes())?;
        assert!(rt; again, "{text}");
    }
    Ok(())
}

/// Why a text isn't a line; None if it is one.
fn fault_of(alloc: Global, text: &[u8]) -> Option<LineError> {
    read_line(alloc, text).err()
}

/// Texts that aren't lines, and why.
const FAULTS: &[(&str, LineError)] = &[
    ("5 2 -2 0 1 0", LineError::RepeatedVariable),
    ("5 2 0 -1 0", LineError::RatHint),
    ("5 2 0 1", LineError::NoEnd),
    ("5 x 0 1 0", LineError::BadNumber),
    // numbers and their ranges
    ("", LineError::BadNumber),
    ("0 2 0 1 0", LineError::BadNumber),
    ("05 2 0 1 0", LineError::BadNumber),
    ("-5 2 0 1 0", LineError::BadNumber),
    ("4294967296 2 0 1 0", LineError::BadNumber),
    ("5 2147483648 0 1 0", LineError::BadNumber),
    ("5 -2147483648 0 1 0", LineError::BadNumber),
    ("5 -0 0 1 0", LineError::BadNumber),
    ("5 +2 0 1 0", LineError::BadNumber),
    ("5 2 0 4294967296 0", LineError::BadNumber),
    ("5 d -1 0", LineError::BadNumber),
    ("5 2 d 0", LineError::BadNumber),
    ("d 5 0", LineError::BadNumber),
    // empty items
    ("5  2 0 1 0", LineError::BadNumber),
    ("5 2 0 1 ", LineError::BadNumber),
    (" 5 2 0 1 0", LineError::BadNumber),
    ("5\t2 0 1 0", LineError::BadNumber),
    // ends
    ("5", LineError::NoEnd),
    ("5 2", LineError::NoEnd),
    ("5 2 0", LineError::NoEnd),
    ("5 d", LineError::NoEnd),
    ("5 2 0 1 0 ", LineError::NoEnd),
    ("5 2 0 1 0 0", LineError::NoEnd),
    ("5 2 0 0 0", LineError::NoEnd),
    ("5 d 1 0 x", LineError::NoEnd),
    // the first of several
    ("5 2 2 x", LineError::RepeatedVariable),
    ("5 x 2 2", LineError::BadNumber),
    ("5 2 0 -x 0 0", LineError::RatHint),
    ("5 2 0 1 -1 0 0", LineError::RatHint),
];

#[test]
fn the_leftmost_fault_of_a_line_is_reported(rt: HostRuntime) {
    for &(text, error) in FAULTS {
        let reported = fault_of(rt.alloc(), text.as_bytes());
        assert!(rt; reported == Some(error), "{text}");
    }
}
