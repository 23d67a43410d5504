//! Tests of the lines of BENCH texts: what they list, and which fault is reported.

use crate::listing::{has_counts, has_fault};
use bench_text::read_listed;
use std::alloc::{AllocError, Global};

/// Whether `text` lists `counts` inputs, outputs, clocks, latches and tables.
fn is_listed(alloc: Global, text: &[u8], counts: [usize; 5]) -> bool {
    if text.len() > 100_000 {
        return false;
    }
    has_counts(read_listed(alloc, text), counts, None)
}

/// Whether `text` is refused with the error `word` at `line`.
fn is_refused(alloc: Global, text: &[u8], word: &str, line: u32) -> bool {
    if text.len() > 100_000 {
        return false;
    }
    has_fault(read_listed(alloc, text), word, line)
}

/// Texts with the numbers of inputs, outputs, clocks, latches and tables that they list.
const LISTED: &[(&str, [usize; 5])] = &[
    ("", [0, 0, 0, 0, 0]),
    ("# a comment\n\n \t\nINPUT(a)\nOUTPUT(a)", [1, 1, 0, 0, 0]),
    (
        "input(a)\nOutput(y)\ny = Nor ( a , a )\nq = dff(y)\n",
        [1, 1, 0, 1, 1],
    ),
    ("y = BUF(a)\nz=not(y)\nINPUT = OR(z)\n", [0, 0, 0, 0, 3]),
    ("y = AND(a)\n", [0, 0, 0, 0, 1]),
    ("INPUT(a[0])\n", [1, 0, 0, 0, 0]),
    (
        "INPUT(a)\r\n\tq\t=\tDFF\t(\ta\t)\t\r\ny=xnor(a,q,a)# three\r\n",
        [1, 0, 0, 1, 1],
    ),
];

#[test]
fn signals_and_gates_of_bench_lines_are_listed(rt: HostRuntime) {
    for &(text, counts) in LISTED {
        assert!(rt; is_listed(rt.alloc(), text.as_bytes(), counts), "{text}");
    }
}

/// Texts and their first faults.
const FAULTS: &[(&str, &str, u32)] = &[
    ("INPUT(a)\nOUTPUT(y)\ny = LUT(a)\n", "NotSupported", 3),
    ("y = Lut 0x8 (a\n", "NotSupported", 1),
    ("y = vdd\n", "NotSupported", 1),
    ("y = GND\n", "NotSupported", 1),
    ("y = vdd(a)\n", "Syntax", 1),
    ("INPUT()\n", "Syntax", 1),
    ("y = AND()\n", "Syntax", 1),
    ("y = AND(a,,b)\n", "Syntax", 1),
    ("y = AND(a, b) c\n", "Syntax", 1),
    ("y = NOT(a, b)\n", "Syntax", 1),
    ("q = DFF(a, b)\n", "Syntax", 1),
    ("INPUT(a, b)\n", "Syntax", 1),
    ("INPUT a\n", "Syntax", 1),
    ("INPUT\n", "Syntax", 1),
    ("y = MUX(a, b)\n", "Syntax", 1),
    ("y AND(a)\n", "Syntax", 1),
    ("= AND(a)\n", "Syntax", 1),
    ("y = \n", "Syntax", 1),
    ("INPUT(a\\)\n", "Syntax", 1),
];

#[test]
fn first_faults_of_bench_texts_are_reported_with_their_lines(rt: HostRuntime) {
    for &(text, word, line) in FAULTS {
        assert!(rt;
            is_refused(rt.alloc(), text.as_bytes(), word, line),
            "{text}"
        );
    }
}

/// A gate of `operands` operands.
fn gate(alloc: Global, operands: u32) -> Result<Vec<u8>, AllocError> {
    let mut text = Vec::from_slice(alloc, b"y = AND(a")?;
    for _operand in 1..operands {
        text.extend_from_slice(b", a")?;
    }
    text.extend_from_slice(b")\n")?;
    Ok(text)
}

/// An input whose name has `bytes` bytes.
fn input(alloc: Global, bytes: u32) -> Result<Vec<u8>, AllocError> {
    let mut text = Vec::from_slice(alloc, b"INPUT(")?;
    for _byte in 0..bytes {
        text.push(b'a')?;
    }
    text.extend_from_slice(b")\n")?;
    Ok(text)
}

/// Whether a gate of `operands` operands is accepted, and a gate of one more is too wide.
fn is_widest(alloc: Global, operands: u32) -> Result<bool, AllocError> {
    let listed = is_listed(alloc, &gate(alloc, operands)?, [0, 0, 0, 0, 1]);
    let wider = gate(alloc, operands.saturating_add(1))?;
    Ok(listed && is_refused(alloc, &wider, "TooWide", 1))
}

/// Whether a name of `bytes` bytes is accepted, and a name of one more is too long.
fn is_longest(alloc: Global, bytes: u32) -> Result<bool, AllocError> {
    let listed = is_listed(alloc, &input(alloc, bytes)?, [1, 0, 0, 0, 0]);
    let longer = input(alloc, bytes.saturating_add(1))?;
    Ok(listed && is_refused(alloc, &longer, "NameTooLong", 1))
}

#[test]
fn gates_have_at_most_256_operands_and_names_1024_bytes(rt: HostRuntime) {
    let widest = matches!(is_widest(rt.alloc(), 256), Ok(true));
    let longest = matches!(is_longest(rt.alloc(), 1024), Ok(true));
    assert!(rt; widest && longest);
}
