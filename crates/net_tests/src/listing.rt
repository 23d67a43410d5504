//! Tests of the lines of BLIF texts: what they list, and which fault is reported. No contract states these rules
//! one by one.

use crate::refusals::reports;
use blif_text::{Listed, read_listed};
use net_core::{Body, NetError};
use std::alloc::Global;

/// Whether `counts` inputs, outputs, clocks, latches and tables are listed.
fn lists(listed: &Listed, counts: [usize; 5]) -> bool {
    let document = &listed.document;
    let ends = document.inputs.len() == counts[0] && document.outputs.len() == counts[1];
    let latches = document.clocks.len() == counts[2] && document.latches.len() == counts[3];
    ends && latches && document.tables.len() == counts[4]
}

/// The number of cover lines of all tables.
fn cover_lines(listed: &Listed) -> usize {
    let mut lines: usize = 0;
    for table in &listed.document.tables {
        if let Body::Cubes(cover) = &table.body {
            lines = lines.wrapping_add(cover.cubes.len());
        }
    }
    lines
}

/// Whether the parser's result lists `counts` of each kind, and `lines` cover lines if these are counted.
pub fn has_counts(
    read: Result<Listed, NetError>,
    counts: [usize; 5],
    lines: Option<usize>,
) -> bool {
    match read {
        Ok(listed) => {
            let counted = match lines {
                Some(lines) => cover_lines(&listed) == lines,
                None => true,
            };
            let well = counted && lists(&listed, counts);
            drop(listed);
            well
        }
        Err(error) => {
            drop(error);
            false
        }
    }
}

/// Whether the parser's result is the error `word` at `line`.
pub fn has_fault(read: Result<Listed, NetError>, word: &str, line: u32) -> bool {
    let error = match read {
        Ok(listed) => {
            drop(listed);
            return false;
        }
        Err(error) => error,
    };
    let reported = reports(&error, word, line);
    drop(error);
    reported
}

/// Whether `text` lists `counts` of each kind, and `lines` cover lines.
fn is_listed(alloc: Global, text: &[u8], counts: [usize; 5], lines: usize) -> bool {
    if text.len() > 100_000 {
        return false;
    }
    has_counts(read_listed(alloc, text), counts, Some(lines))
}

/// Whether `text` is refused with the error `word` at `line`.
fn is_refused(alloc: Global, text: &[u8], word: &str, line: u32) -> bool {
    if text.len() > 100_000 {
        return false;
    }
    has_fault(read_listed(alloc, text), word, line)
}

/// Texts with the numbers of inputs, outputs, clocks, latches, tables and cover lines that they list.
const LISTED: &[(&str, [usize; 5], usize)] = &[
    // continued lines, comments and CR
    (".inputs a\\\nb\n", [2, 0, 0, 0, 0], 0),
    (".inputs a \\ # c\n b\n", [2, 0, 0, 0, 0], 0),
    (".inputs a \\\r\nb\r\n", [2, 0, 0, 0, 0], 0),
    (".inputs a \\", [1, 0, 0, 0, 0], 0),
    // models and ends
    ("", [0, 0, 0, 0, 0], 0),
    ("\n# a\n\n.model m\n.end\n", [0, 0, 0, 0, 0], 0),
    // tables
    (
        ".names a b y\n1- 1\n-1 1\n.names z\n1\n",
        [0, 0, 0, 0, 2],
        3,
    ),
    // latches
    (
        ".latch d q\n.latch d r 2\n.latch d s re c\n.latch d t as c 3\n",
        [0, 0, 0, 4, 0],
        0,
    ),
    (".clock c\n.latch d q re c\n", [0, 0, 1, 1, 0], 0),
];

#[test]
fn signals_tables_and_cubes_of_blif_lines_are_listed(rt: HostRuntime) {
    for &(text, counts, lines) in LISTED {
        assert!(rt;
            is_listed(rt.alloc(), text.as_bytes(), counts, lines),
            "{text}"
        );
    }
}

/// Texts and their first faults.
const FAULTS: &[(&str, &str, u32)] = &[
    // continued lines, comments and CR
    (".inputs a # \\\nb\n", "Syntax", 2),
    (".inputs a\r", "Syntax", 1),
    // models and ends
    (".model m n\n", "Syntax", 1),
    (".inputs a\n.model m\n", "Syntax", 2),
    (".model m\n.model n\n", "NotSupported", 2),
    (".model m\n.end\n.model n\n", "NotSupported", 3),
    (".end\n.model n\n", "Syntax", 2),
    (".end\n.subckt x\n", "Syntax", 2),
    (".subckt x\n", "NotSupported", 1),
    // tables
    (".names y\n1 1\n", "Syntax", 2),
    (".names a y\n1 1\n0 0\n", "MixedCover", 3),
    (".names a y\n1 1\n.inputs a\n0 1\n", "Syntax", 4),
    (".names\n", "Syntax", 1),
    // latches
    (".latch d q 4\n", "Syntax", 1),
    (".latch d q re\n", "Syntax", 1),
    (".latch d q re c 1 1\n", "Syntax", 1),
    (
        ".names c\n.latch d q re c\n.latch d r re e\n.names e\n",
        "NotSupported",
        2,
    ),
];

#[test]
fn first_faults_of_blif_texts_are_reported_with_their_lines(rt: HostRuntime) {
    for &(text, word, line) in FAULTS {
        assert!(rt;
            is_refused(rt.alloc(), text.as_bytes(), word, line),
            "{text}"
        );
    }
}
