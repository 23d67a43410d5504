//! Fault injection: for every command, each read, each write and each call of the notes fails in its turn.
use crate::running::{Fails, Seen, reported, reports, run_on};
use std::alloc::{AllocError, Global};

const XOR: &str = "inputs 2\n0110\nchain 1\nx3 x1 x2 0110\nout x3\nend\n";

const AND_OF_THREE: &str = "inputs 3\n00000001\n";

/// A certificate that NOT has no chain of at most one step over AND.
const NONE: &str =
    "chains 1\ninputs 1\n10\nbasis 0001\nmethod ssv\nconflicts 100000\nmax 1\nsize 0\nrefuted\ndone\nsize 1\nrefuted\n27 -5 0 4 25 26 22 20 0\n28 0 4 25 26 27 18 16 0\ndone\nnone 1\nend\n";

/// XOR of two inputs by three gates.
const THREE_GATES: &str =
    ".model s\n.inputs a b\n.outputs y\n.names a b p\n10 1\n.names a b q\n01 1\n.names p q y\n1- 1\n-1 1\n.end\n";

/// The same of gates in BENCH.
const GATES: &str =
    "INPUT(a)\nINPUT(b)\nOUTPUT(y)\nn = NAND(a, b)\np = NAND(a, n)\nq = NAND(b, n)\ny = NAND(p, q)\n";

/// AND twice, the second time as NOR of complements.
const SAME: &str =
    ".model s\n.inputs a b\n.outputs y\n.names a b y\n11 1\n.end\n.model t\n.inputs a b\n.outputs y\n.names a p\n0 1\n.names b q\n0 1\n.names p q y\n00 1\n.end\n";

/// A netlist, and one that differs from it.
const TWO: &str =
    ".model s\n.inputs a b\n.outputs y\n.names a b p\n10 1\n.names a b q\n01 1\n.names p q y\n1- 1\n-1 1\n.end\n.model t\n.inputs a b\n.outputs y\n.names y\n.end\n";

/// A port whose calls fail.
#[derive(Clone, Copy)]
enum Port {
    Reads,
    Writes,
    Notes,
}

/// A run in which one call of a port fails.
fn failing(
    alloc: Global,
    line: &str,
    input: &[u8],
    port: Port,
    call: u64,
) -> Result<Seen, AllocError> {
    let at = Fails::At(call);
    match port {
        Port::Reads => run_on(alloc, line, input, at, Fails::None, Fails::None),
        Port::Writes => run_on(alloc, line, input, Fails::None, at, Fails::None),
        Port::Notes => run_on(alloc, line, input, Fails::None, Fails::None, at),
    }
}

/// Whether a call that failed was reported, and the right part of the whole text was written: nothing if it was
/// a read, a prefix if it was a write, and the whole text if it was a call of the notes.
fn leaves(seen: &Seen, port: Port, whole: &[u8]) -> bool {
    match port {
        Port::Reads => seen.is(5, b"", b"error: ReadFault\n"),
        Port::Writes => {
            let out = seen.out.written();
            whole.starts_with(out) && seen.is(6, out, b"error: WriteFault\n")
        }
        Port::Notes => seen.status == 6 && seen.out.written() == whole,
    }
}

/// How many calls of a port a run with this status makes; None if the failure of a call isn't reported, or leaves
/// other output than it has to.
fn calls_of(
    alloc: Global,
    line: &str,
    input: &[u8],
    port: Port,
    whole: &[u8],
    status: u8,
) -> Option<u64> {
    for call in 1..1_000u64 {
        let Ok(seen) = failing(alloc, line, input, port, call) else {
            return None;
        };
        if seen.status == status {
            return Some(call - 1);
        }
        if !leaves(&seen, port, whole) {
            return None;
        }
    }
    None
}

/// Whether a run calls a port if `some`, and not otherwise, and each failure is reported and leaves the right
/// output.
fn makes(alloc: Global, run: (&str, &[u8], u8), whole: &[u8], port: Port, some: bool) -> bool {
    match calls_of(alloc, run.0, run.1, port, whole, run.2) {
        Some(calls) => (calls > 0) == some,
        None => false,
    }
}

/// Whether each failure of a call in a run is reported and leaves the right output. The run writes, and reads and
/// writes notes as given.
fn withstands(alloc: Global, run: (&str, &[u8], u8), reads: bool, notes: bool) -> bool {
    let Ok(seen) = reported(alloc, run.0, run.1) else {
        return false;
    };
    let whole = seen.out.written();
    makes(alloc, run, whole, Port::Writes, true)
        && makes(alloc, run, whole, Port::Reads, reads)
        && makes(alloc, run, whole, Port::Notes, notes)
}

/// Every command with an input that has an answer, the status, and whether the command reads and writes notes.
const RUNS: &[(&str, &str, u8, bool, bool)] = &[
    ("agree", XOR, 0, true, false),
    ("synth", AND_OF_THREE, 0, true, false),
    ("recheck", NONE, 0, true, false),
    ("improve", THREE_GATES, 0, true, true),
    ("improve --format bench", GATES, 0, true, true),
    ("equiv", TWO, 8, true, false),
    ("equiv", SAME, 0, true, false),
    ("gen --blocks 1000", "", 0, false, false),
    ("gen --blocks 3 --run improve", "", 0, false, true),
];

#[test]
fn each_call_that_fails_is_reported(rt: HostRuntime) {
    for &(line, input, status, reads, notes) in RUNS {
        let run = (line, input.as_bytes(), status);
        assert!(rt; withstands(rt.alloc(), run, reads, notes), "{line}");
    }
}

/// Whether the output of `synth`, if its write with this number fails, is what it wrote before: whole pieces, of
/// which the last is the header or a section, or nothing.
fn leaves_pieces(alloc: Global, call: u64, end: &str) -> bool {
    match failing(alloc, "synth", AND_OF_THREE.as_bytes(), Port::Writes, call) {
        Ok(seen) => seen.status == 6 && seen.out.written().ends_with(end.as_bytes()),
        Err(_) => false,
    }
}

/// Numbers of calls that fail, and the end of what was written.
const PIECES: &[(u64, &str)] = &[
    (2, "\nmax 16\n"),
    (3, "\nmax 16\nsize 0\nrefuted\ndone\n"),
    (4, "\ndone\n"),
];

#[test]
fn a_certificate_whose_write_fails_ends_with_a_whole_piece(rt: HostRuntime) {
    for &(call, end) in PIECES {
        assert!(rt; leaves_pieces(rt.alloc(), call, end), "call {call}");
    }
}

/// A text that is longer than one read.
fn long(alloc: Global, prefix: &str) -> Result<Vec<u8>, AllocError> {
    let mut text = Vec::from_slice(alloc, prefix.as_bytes())?;
    for _ in 0..5_000u32 {
        text.push(b'\n')?;
    }
    Ok(text)
}

/// Whether a run on a refused text makes three reads, the last of which finds the end, and each failure is
/// reported.
fn is_read_on(alloc: Global, line: &str, prefix: &str) -> bool {
    match long(alloc, prefix) {
        Ok(text) => calls_of(alloc, line, &text, Port::Reads, b"", 2) == Some(3),
        Err(_) => false,
    }
}

/// Command lines, and the beginnings of texts that they refuse.
const LONG: &[(&str, &str)] = &[
    ("agree", "inputs 2\n0110\nchain 1\nx3 x3 x1 0110\n"),
    ("synth", "inputs 2\n012\n"),
    ("recheck", "chains 2\n"),
    ("recheck", "chains 1\ninputs 1\n1\n"),
    ("recheck --depth yes", "depths 2\n"),
    ("improve", ".model u\n.inputs a\n.outputs y\n.end\n"),
    ("equiv", ".model u\n"),
];

#[test]
fn reads_that_fail_after_a_refused_line_are_reported(rt: HostRuntime) {
    for &(line, prefix) in LONG {
        assert!(rt; is_read_on(rt.alloc(), line, prefix), "{line} {prefix}");
    }
}

/// Whether a run keeps its status if its first hundred calls of the notes fail, and the notes stay empty.
fn keeps_status(alloc: Global, line: &str, input: &[u8], status: u8) -> bool {
    let notes = Fails::UpTo(100);
    match run_on(alloc, line, input, Fails::None, Fails::None, notes) {
        Ok(seen) => seen.status == status && seen.note.written().is_empty(),
        Err(_) => false,
    }
}

/// Command lines, inputs and statuses.
const STATUSES: &[(&str, &str, u8)] = &[
    ("agree", XOR, 0),
    (
        "agree",
        "inputs 2\n0110\nchain 1\nx3 x3 x1 0110\nout x3\nend\n",
        2,
    ),
    ("improve", ".model u\n.inputs a\n.outputs y\n.end\n", 2),
    ("improve --format bench", "INPUT(a)\nOUTPUT(y)\n", 2),
    ("recheck", "chains 1\n", 2),
    ("equiv", TWO, 8),
    ("equiv", SAME, 0),
    ("equiv", ".model u\n", 2),
    ("gen --blocks 2", "", 0),
    ("gen --blocks 10001", "", 1),
    ("synth --max 17", "", 1),
];

#[test]
fn notes_that_fail_change_no_other_status(rt: HostRuntime) {
    for &(line, input, status) in STATUSES {
        let well = keeps_status(rt.alloc(), line, input.as_bytes(), status);
        assert!(rt; well, "{line}");
    }
}

/// The number of the line after a text, counted by its line feeds.
fn line_after(text: &[u8]) -> u32 {
    let mut line = 1;
    for byte in text {
        if *byte == b'\n' && line < 1_000 {
            line += 1;
        }
    }
    line
}

/// Whether a certificate that is truncated to `length` bytes is refused at the line where it ends.
fn is_cut_off(alloc: Global, length: usize) -> bool {
    let (prefix, _) = NONE.as_bytes().split_at(length.min(NONE.len()));
    match format!(in alloc; "error: Syntax {}\n", line_after(prefix)) {
        Ok(note) => reports(alloc, "recheck", prefix, 2, "", note.as_str()),
        Err(_) => false,
    }
}

#[test]
fn certificates_that_are_cut_off_end_too_early(rt: HostRuntime) {
    for length in 0..NONE.len() {
        assert!(rt; is_cut_off(rt.alloc(), length), "{length}");
    }
}
