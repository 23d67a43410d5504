//! Runs of each command in memory, as tables: the input, the status, and what is written.
use crate::running::{Seen, reported, reports};
use std::alloc::{AllocError, Global};

const XOR: &str = "inputs 2\n0110\nchain 1\nx3 x1 x2 0110\nout x3\nend\n";

/// A certificate that XOR needs one step.
const ONE: &str =
    "chains 1\ninputs 2\n0110\nbasis all\nmethod ssv\nconflicts 100000\nmax 16\nsize 0\nrefuted\ndone\nchain 1\nx3 x1 x2 0110\nout x3\nminimum 1\nend\n";

/// A certificate that NOT has no chain of at most one step over AND, by the symmetry-breaking constraints.
const NONE: &str =
    "chains 1\ninputs 1\n10\nbasis 0001\nmethod ssv\nconflicts 100000\nmax 1\nsize 0\nrefuted\ndone\nsize 1\nrefuted\n27 -5 0 4 25 26 22 20 0\n28 0 4 25 26 27 18 16 0\ndone\nnone 1\nend\n";

/// The same certificate without one of the hints, and without its last line.
const REFUSED: &str =
    "chains 1\ninputs 1\n10\nbasis 0001\nmethod ssv\nconflicts 100000\nmax 1\nsize 0\nrefuted\ndone\nsize 1\nrefuted\n27 -5 0 4 25 22 20 0\n";

const CUT: &str =
    "chains 1\ninputs 1\n10\nbasis 0001\nmethod ssv\nconflicts 100000\nmax 1\nsize 0\nrefuted\ndone\nsize 1\nrefuted\n27 -5 0 4 25 26 22 20 0\n28 0 4 25 26 27 18 16 0\ndone\n";

/// A netlist whose gate q is dangling, and the same without it.
const TWO: &str =
    ".model x\n.inputs a b\n.outputs p\n.names a b p\n10 1\n.names a b q\n01 1\n.end\n";

const ONE_LEFT: &str = ".model x\n.inputs a b\n.outputs p\n.names a b p\n10 1\n.end\n";

/// XOR of two inputs by three gates, and by one.
const THREE_GATES: &str =
    ".model s\n.inputs a b\n.outputs y\n.names a b p\n10 1\n.names a b q\n01 1\n.names p q y\n1- 1\n-1 1\n.end\n";

const ONE_GATE: &str = ".model s\n.inputs a b\n.outputs y\n.names a b y\n01 1\n10 1\n.end\n";

/// The generator's first block.
const BLOCK: &str =
    ".model gen\n.inputs a0 b0\n.outputs y0\n.names a0 b0 p0\n10 1\n.names a0 b0 q0\n01 1\n.names p0 q0 y0\n1- 1\n-1 1\n.end\n";

/// Command lines, inputs, the status, the output and the notes.
const RUNS: &[(&str, &str, u8, &str, &str)] = &[
    ("agree", XOR, 0, "agrees\n", ""),
    (
        "agree",
        "inputs 2\n0110\nchain 1\nx3 x1 x2 0111\nout x3\nend\n",
        8,
        "differs 1 3\n",
        "",
    ),
    ("agree", "", 2, "", "error: BadHeader 1\n"),
    ("agree", "inputs 7\n0\n", 3, "", "error: TooManyInputs\n"),
    (
        "agree",
        "inputs 2\n0110\nchain 1\nx3 x3 x1 0110\nout x3\nend\n",
        2,
        "",
        "error: ForwardPlace 4\n",
    ),
    (
        "agree",
        "inputs 1\n01\nchain 0\nout x1\nend\n\n",
        2,
        "",
        "error: BadEnd 6\n",
    ),
    ("recheck", ONE, 0, "minimum 1\n", ""),
    ("recheck", NONE, 0, "none 1\n", ""),
    (
        "recheck",
        REFUSED,
        8,
        "",
        "error: StepRefused 13 NotUnit 22\n",
    ),
    ("recheck", CUT, 2, "", "error: Syntax 16\n"),
    ("synth", "inputs 2\n0110\n", 0, ONE, ""),
    (
        "synth --method plain",
        "inputs 2\n0--1\n",
        0,
        "chains 1\ninputs 2\n0--1\nbasis all\nmethod plain\nconflicts 100000\nmax 16\nchain 0\nout x1\nminimum 0\nend\n",
        "",
    ),
    (
        "synth --basis 0001 --max 1",
        "inputs 1\n01\nend\n",
        2,
        "",
        "error: BadRow 3\n",
    ),
    (
        "synth --max 17",
        "inputs 2\n0110\n",
        1,
        "",
        "error: Usage\n",
    ),
    ("", XOR, 1, "", "error: Usage\n"),
    (
        "improve --cap 0",
        TWO,
        0,
        ONE_LEFT,
        "gates 2 -> 1\nsettled\n",
    ),
    (
        "improve",
        THREE_GATES,
        0,
        ONE_GATE,
        "gates 3 -> 1\nsettled\n",
    ),
    (
        "improve --rounds 1",
        THREE_GATES,
        0,
        ONE_GATE,
        "gates 3 -> 1\nstopped\n",
    ),
    (
        "improve",
        ".model u\n.inputs a\n.outputs y\n.end\n",
        2,
        "",
        "error: Undriven y\n",
    ),
    (
        "improve --cap 8",
        ".model s\n.subckt half a=a\n.end\n",
        2,
        "",
        "error: NotSupported 2 .subckt\n",
    ),
    ("improve --cap 9", TWO, 1, "", "error: Usage\n"),
    (
        "improve --format bench",
        "INPUT(a)\nINPUT(b)\nINPUT(c)\nOUTPUT(y)\ny = nand(a, b, c)\n",
        0,
        "INPUT(a)\nINPUT(b)\nINPUT(c)\nOUTPUT(y)\ng1 = AND(a, b)\ny = NAND(g1, c)\n",
        "gates 2 -> 2\nsettled\n",
    ),
    (
        "improve --format bench",
        "INPUT(a)\nOUTPUT(y)\ny = LUT(a)\n",
        2,
        "",
        "error: NotSupported 3 LUT\n",
    ),
    (
        "improve --format bench --basis all",
        TWO,
        1,
        "",
        "error: Usage\n",
    ),
    ("gen --blocks 1", "unread", 0, BLOCK, ""),
    ("gen --blocks 0", "unread", 1, "", "error: Usage\n"),
    (
        "gen --run improve --blocks 1",
        "unread",
        0,
        ".model gen\n.inputs a0 b0\n.outputs y0\n.names a0 b0 y0\n01 1\n10 1\n.end\n",
        "gates 3 -> 1\nsettled\n",
    ),
];

#[test]
fn commands_write_these_outputs_and_notes(rt: HostRuntime) {
    for &(line, input, status, out, note) in RUNS {
        let well = reports(rt.alloc(), line, input.as_bytes(), status, out, note);
        assert!(rt; well, "{line} {input}");
    }
}

/// AND of two inputs, and a constant 0.
const AND: &str = ".model p\n.inputs a b\n.outputs y\n.names a b y\n11 1\n.end\n";

const ZERO: &str = ".model q\n.inputs a b\n.outputs y\n.names y\n.end\n";

/// The concatenation of two texts.
fn joined(alloc: Global, first: &str, second: &str) -> Result<String, AllocError> {
    let mut both = String::from_str(alloc, first)?;
    both.push_str(second)?;
    Ok(both)
}

/// Whether `equiv` on two texts ends with `status`, and writes `out` and `note`.
fn are_judged(alloc: Global, first: &str, second: &str, status: u8, out: &str, note: &str) -> bool {
    match joined(alloc, first, second) {
        Ok(input) => reports(alloc, "equiv", input.as_bytes(), status, out, note),
        Err(_) => false,
    }
}

/// Two netlists, the status, the output and the notes.
const PAIRS: &[(&str, &str, u8, &str, &str)] = &[
    (AND, ZERO, 8, "differ output y\nat 11\n", ""),
    (
        AND,
        ".model q\n.inputs b a\n.outputs y\n.names y\n.end\n",
        8,
        "",
        "error: DifferentInterface\n",
    ),
    (".model p\n.inputs a\n", "", 2, "", "error: NoSecond\n"),
    (
        AND,
        ".model q\n.outputs y\n.end\n",
        2,
        "",
        "error: Second Undriven y\n",
    ),
    (
        ".model p\n.outputs y\n",
        ZERO,
        2,
        "",
        "error: First NotSupported 3 .model\n",
    ),
];

#[test]
fn equiv_reports_differences_and_refusals(rt: HostRuntime) {
    for &(first, second, status, out, note) in PAIRS {
        let well = are_judged(rt.alloc(), first, second, status, out, note);
        assert!(rt; well, "{first} {second}");
    }
}

/// XOR of six inputs in two orders: no nodes are equivalent but the inputs and the output.
const ROW: &str =
    ".inputs a b c d e f\n.outputs y\n.names a b p\n10 1\n01 1\n.names p c q\n10 1\n01 1\n.names q d r\n10 1\n01 1\n.names r e s\n10 1\n01 1\n.names s f y\n10 1\n01 1\n.end\n";

const OTHER_ROW: &str =
    ".inputs a b c d e f\n.outputs y\n.names f b p\n10 1\n01 1\n.names p d q\n10 1\n01 1\n.names q a r\n10 1\n01 1\n.names r e s\n10 1\n01 1\n.names s c y\n10 1\n01 1\n.end\n";

/// Whether the output of a run is `word` and then a log, with empty notes.
fn is_log(seen: &Seen, status: u8, word: &str) -> bool {
    let out = seen.out.written();
    let log = out.starts_with(word.as_bytes()) && out.ends_with(b"done\n");
    seen.status == status && log && seen.note.written().is_empty()
}

/// Whether the output of an `equiv` command line on two texts is `word` and then a log, with empty notes.
fn reports_log(
    alloc: Global,
    line: &str,
    first: &str,
    second: &str,
    status: u8,
    word: &str,
) -> bool {
    let Ok(input) = joined(alloc, first, second) else {
        return false;
    };
    match reported(alloc, line, input.as_bytes()) {
        Ok(seen) => is_log(&seen, status, word),
        Err(_) => false,
    }
}

/// Command lines of `equiv`, two netlists, the status, and the word before the log.
const LOGS: &[(&str, &str, &str, u8, &str)] = &[
    ("equiv", THREE_GATES, ONE_GATE, 0, "equal\n"),
    ("equiv", ROW, OTHER_ROW, 0, "equal\n"),
    ("equiv --conflicts 1", ROW, OTHER_ROW, 4, "undecided\n"),
];

#[test]
fn equiv_writes_a_log_of_equal_and_undecided_netlists(rt: HostRuntime) {
    for &(line, first, second, status, word) in LOGS {
        let well = reports_log(rt.alloc(), line, first, second, status, word);
        assert!(rt; well, "{line} {word}");
    }
}
