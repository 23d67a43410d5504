//! Limits of tables, netlists and certificates at their values and one past them, and netlists that depend on
//! themselves.
use crate::running::{Seen, reported};
use std::alloc::{AllocError, Global};

/// Appends `byte`, `count` times.
fn push_bytes(text: &mut Vec<u8>, byte: u8, count: usize) -> Result<(), AllocError> {
    let length = text.len().saturating_add(count);
    text.resize(length, byte)
}

/// A text: the first of `ends`, then `byte` repeated `count` times, then the second of `ends`.
fn long(alloc: Global, ends: Ends, byte: u8, count: usize) -> Result<Vec<u8>, AllocError> {
    let mut text = Vec::from_slice(alloc, ends.0)?;
    push_bytes(&mut text, byte, count)?;
    text.extend_from_slice(ends.1)?;
    Ok(text)
}

const BLIF: &str = "improve --cap 0";

const BENCH: &str = "improve --cap 0 --format bench";

/// The texts before and after something long.
type Ends = (&'static [u8], &'static [u8]);

/// The texts before and after a name, or a comment, that may be long.
const NAME: Ends = (b".model l\n.inputs a ", b"\n.outputs a\n.end\n");

const COMMENT: Ends = (b".model l\n#", b"\n.inputs a\n.outputs a\n.end\n");

const BENCH_NAME: Ends = (b"INPUT(a)\nINPUT(", b")\nOUTPUT(a)\n");

const BENCH_COMMENT: Ends = (b"INPUT(a)\n#", b"\nOUTPUT(a)\n");

/// Nothing before or after.
const BARE: Ends = (b"", b"");

/// A table of `width` inputs, all of them a, with one cube without literals.
fn wide(alloc: Global, width: usize) -> Result<Vec<u8>, AllocError> {
    let mut text = Vec::from_slice(alloc, b".inputs a\n.outputs y\n.names")?;
    for _ in 0..width {
        text.extend_from_slice(b" a")?;
    }
    text.extend_from_slice(b" y\n")?;
    push_bytes(&mut text, b'-', width)?;
    text.extend_from_slice(b" 1\n.end\n")?;
    Ok(text)
}

/// An AND of `operands` operands, all of them a.
fn wide_gate(alloc: Global, operands: usize) -> Result<Vec<u8>, AllocError> {
    let mut text = Vec::from_slice(alloc, b"INPUT(a)\nOUTPUT(y)\ny = AND(a")?;
    for _ in 1..operands {
        text.extend_from_slice(b", a")?;
    }
    text.extend_from_slice(b")\n")?;
    Ok(text)
}

/// Appends the row of a number below 4,096 as a cube.
fn push_row(text: &mut Vec<u8>, row: u32) -> Result<(), AllocError> {
    for bit in 0..12u32 {
        text.push(b'0' + ((row >> bit) & 1) as u8)?;
    }
    text.extend_from_slice(b" 1\n")?;
    Ok(())
}

/// A table of twelve inputs with `count` rows, the first 4,096 all different.
fn rows(alloc: Global, count: usize) -> Result<Vec<u8>, AllocError> {
    let mut text = Vec::from_slice(
        alloc,
        b".inputs a b c d e f g h i j k l\n.outputs y\n.names a b c d e f g h i j k l y\n",
    )?;
    for row in 0..count {
        push_row(&mut text, (row % 4_096) as u32)?;
    }
    Ok(text)
}

/// Appends a gate that reads the gate with this number, which is below the greatest.
fn push_gate(alloc: Global, text: &mut Vec<u8>, gate: usize) -> Result<(), AllocError> {
    let table = format!(in alloc; ".names a g{} g{}\n11 1\n", gate, gate.saturating_add(1))?;
    text.extend_from_slice(table.as_bytes())
}

/// Appends the line that makes the gate with this number the output.
fn push_output(alloc: Global, text: &mut Vec<u8>, gate: usize) -> Result<(), AllocError> {
    let line = format!(in alloc; ".outputs g{}\n", gate)?;
    text.extend_from_slice(line.as_bytes())
}

/// A chain of gates, each reading the one before it.
fn ladder(alloc: Global, gates: usize) -> Result<Vec<u8>, AllocError> {
    let mut text = Vec::from_slice(alloc, b".inputs a g0\n")?;
    for gate in 0..gates {
        push_gate(alloc, &mut text, gate)?;
    }
    push_output(alloc, &mut text, gates)?;
    Ok(text)
}

/// A text.
#[derive(Clone, Copy)]
enum Made {
    /// This text.
    Text(&'static str),
    /// A text with this byte, repeated this number of times.
    Long(Ends, u8, usize),
    /// A table with this number of inputs.
    Inputs(usize),
    /// A gate in BENCH with this number of operands.
    Operands(usize),
    /// A table with this number of rows.
    Rows(usize),
    /// A netlist with this number of gates.
    Gates(usize),
}

/// The bytes of a text.
fn bytes_of(alloc: Global, text: Made) -> Result<Vec<u8>, AllocError> {
    match text {
        Made::Text(text) => Vec::from_slice(alloc, text.as_bytes()),
        Made::Long(ends, byte, length) => long(alloc, ends, byte, length),
        Made::Inputs(count) => wide(alloc, count),
        Made::Operands(count) => wide_gate(alloc, count),
        Made::Rows(count) => rows(alloc, count),
        Made::Gates(count) => ladder(alloc, count),
    }
}

/// Whether a run ended with this status and these notes. A refusal writes no output.
fn is_answer(seen: &Seen, status: u8, note: &str) -> bool {
    let out = seen.out.written().is_empty() == (status != 0);
    out && seen.status == status && seen.note.written() == note.as_bytes()
}

/// Whether a run on a text without faults ends with this status and these notes.
fn notes(alloc: Global, line: &str, text: Made, status: u8, note: &str) -> bool {
    let Ok(text) = bytes_of(alloc, text) else {
        return false;
    };
    match reported(alloc, line, &text) {
        Ok(seen) => is_answer(&seen, status, note),
        Err(_) => false,
    }
}

/// The report on a netlist without gates.
const EMPTY: &str = "gates 0 -> 0\nsettled\n";

/// Names, command lines, texts, the status, and the notes.
type Runs = &'static [(&'static str, &'static str, Made, u8, &'static str)];

const LIMITS: Runs = &[
    (
        "tables of the most bytes",
        "synth",
        Made::Long(BARE, b'0', 65_536),
        2,
        "error: BadHeader 1\n",
    ),
    (
        "tables of a byte more",
        "synth",
        Made::Long(BARE, b'0', 65_537),
        3,
        "error: TooLong\n",
    ),
    (
        "BLIF: a name of the most bytes",
        BLIF,
        Made::Long(NAME, b'n', 1_024),
        0,
        EMPTY,
    ),
    (
        "BLIF: a name of a byte more",
        BLIF,
        Made::Long(NAME, b'n', 1_025),
        3,
        "error: NameTooLong 2\n",
    ),
    (
        "BLIF: a line of the most bytes",
        BLIF,
        Made::Long(COMMENT, b'#', 1_048_575),
        0,
        EMPTY,
    ),
    (
        "BLIF: a line of a byte more",
        BLIF,
        Made::Long(COMMENT, b'#', 1_048_576),
        3,
        "error: LineTooLong 2\n",
    ),
    (
        "BENCH: a name of the most bytes",
        BENCH,
        Made::Long(BENCH_NAME, b'n', 1_024),
        0,
        EMPTY,
    ),
    (
        "BENCH: a name of a byte more",
        BENCH,
        Made::Long(BENCH_NAME, b'n', 1_025),
        3,
        "error: NameTooLong 2\n",
    ),
    (
        "BENCH: a line of the most bytes",
        BENCH,
        Made::Long(BENCH_COMMENT, b'#', 1_048_575),
        0,
        EMPTY,
    ),
    (
        "BENCH: a line of a byte more",
        BENCH,
        Made::Long(BENCH_COMMENT, b'#', 1_048_576),
        3,
        "error: LineTooLong 2\n",
    ),
    (
        "the most inputs of a table",
        BLIF,
        Made::Inputs(256),
        0,
        EMPTY,
    ),
    (
        "one input more",
        BLIF,
        Made::Inputs(257),
        3,
        "error: TooWide 3\n",
    ),
    (
        "the most operands of a gate",
        BENCH,
        Made::Operands(256),
        0,
        "gates 255 -> 254\nsettled\n",
    ),
    (
        "one operand more",
        BENCH,
        Made::Operands(257),
        3,
        "error: TooWide 3\n",
    ),
    (
        "the most rows of a table",
        BLIF,
        Made::Rows(4_096),
        0,
        "gates 49151 -> 49151\nsettled\n",
    ),
    (
        "one row more",
        BLIF,
        Made::Rows(4_097),
        3,
        "error: TooManyRows 4100\n",
    ),
];

#[test]
fn texts_at_their_limits_are_read_and_longer_ones_refused(rt: HostRuntime) {
    for &(name, line, text, status, note) in LIMITS {
        assert!(rt; notes(rt.alloc(), line, text, status, note), "{name}");
    }
}

/// The same for the number of gates, which takes the longest, and the result for a thousand blocks.
const GATES: Runs = &[
    (
        "the most gates",
        BLIF,
        Made::Gates(100_000),
        0,
        "gates 100000 -> 100000\nsettled\n",
    ),
    (
        "one gate more",
        BLIF,
        Made::Gates(100_001),
        3,
        "error: TooManyGates 100001\n",
    ),
    (
        "a thousand blocks",
        "gen --blocks 1000 --run improve",
        Made::Text(""),
        0,
        "gates 3333 -> 1999\nsettled\n",
    ),
];

#[test]
fn netlists_of_100000_gates_are_read_and_larger_ones_refused(rt: HostRuntime) {
    for &(name, line, text, status, note) in GATES {
        assert!(rt; notes(rt.alloc(), line, text, status, note), "{name}");
    }
}

/// Lines, netlists with a loop or with one name for two, the status, and what is reported on the notes.
const LOOPS: Runs = &[
    (
        "BLIF: a gate that reads itself",
        "improve",
        Made::Text(".inputs a\n.outputs n\n.names a n n\n11 1\n"),
        2,
        "error: Cycle n\n",
    ),
    (
        "BLIF: a latch that reads itself",
        "improve",
        Made::Text(".inputs a\n.outputs q\n.latch q q 0\n"),
        0,
        "gates 0 -> 0\nsettled\n",
    ),
    (
        "BLIF: a latch and a gate of one name",
        "improve",
        Made::Text(".inputs a\n.outputs q\n.latch a q 0\n.names a q\n1 1\n"),
        2,
        "error: DrivenTwice q\n",
    ),
    (
        "BLIF: a continued line that doesn't go on",
        "improve",
        Made::Text(".inputs a\\ b\n"),
        2,
        "error: Syntax 1\n",
    ),
    (
        "BENCH: a gate that reads itself",
        "improve --format bench",
        Made::Text("INPUT(a)\nOUTPUT(y)\ny = AND(y, a)\n"),
        2,
        "error: Cycle y\n",
    ),
    (
        "BENCH: an input listed twice",
        "improve --format bench",
        Made::Text("INPUT(a)\nINPUT(a)\nOUTPUT(a)\n"),
        2,
        "error: DrivenTwice a\n",
    ),
    (
        "BENCH: a latch that reads itself",
        "improve --format bench",
        Made::Text("INPUT(a)\nOUTPUT(q)\nq = DFF(q)\n"),
        0,
        "gates 0 -> 0\nsettled\n",
    ),
    (
        "BENCH: a latch and a gate of one name",
        "improve --format bench",
        Made::Text("INPUT(a)\nOUTPUT(q)\nq = DFF(a)\nq = NOT(a)\n"),
        2,
        "error: DrivenTwice q\n",
    ),
];

#[test]
fn cycles_and_names_of_two_drivers_are_refused(rt: HostRuntime) {
    for &(name, line, text, status, note) in LOOPS {
        assert!(rt; notes(rt.alloc(), line, text, status, note), "{name}");
    }
}
