//! Lines after error lines, as a table.

use error_help::{Input, Inputs, Subject, halves_of, push_explained};
use std::alloc::Global;

/// Whether this is the line after an error line; none if it is empty.
fn is_line(
    alloc: Global,
    subject: Subject,
    error_line: &str,
    inputs: &Inputs,
    wanted: &str,
) -> bool {
    let mut line = Vec::new(alloc);
    match push_explained(&mut line, subject, error_line.as_bytes(), inputs) {
        Ok(is_there) => { is_there != wanted.is_empty() && line.as_slice() == wanted.as_bytes() }
        Err(_) => false,
    }
}

/// The same, where both inputs are of this text.
fn is_explained(
    alloc: Global,
    subject: Subject,
    error_line: &str,
    text: &str,
    wanted: &str,
) -> bool {
    let first = Input::of(b"a", Some(text.as_bytes()));
    let second = Input::of(b"b", Some(text.as_bytes()));
    let inputs = Inputs {
        first,
        second,
        first_format: Subject::Blif,
        second_format: Subject::Blif,
    };
    is_line(alloc, subject, error_line, &inputs, wanted)
}

/// The same of two netlists, of which the first has this format and text, and the second another text in BLIF.
fn is_of_format(
    alloc: Global,
    format: Subject,
    error_line: &str,
    text: &str,
    wanted: &str,
) -> bool {
    let first = Input::of(b"a", Some(text.as_bytes()));
    let second = Input::of(b"b", Some(NETLIST.as_bytes()));
    let inputs = Inputs {
        first,
        second,
        first_format: format,
        second_format: Subject::Blif,
    };
    is_line(alloc, Subject::Pair, error_line, &inputs, wanted)
}

const NETLIST: &str =
    ".inputs a b\n.outputs y \\\nz\n.subckt x\n.names a b y\n11 1\n.names q y\n1 1\n.names a \\\nb z\n";

const GATES: &str = "INPUT(a)\nOUTPUT(y)\ny = AND(a, b)\ny = OR(a, a)";

/// What is read, the error line, the text, and the line after it.
const LINES: &[(Subject, &str, &str, &str)] = &[
    (
        Subject::Blif,
        "error: NotSupported 4 .subckt",
        NETLIST,
        "a:4: .subckt: a netlist of one model without hierarchy is read; yosys: flatten; techmap\n",
    ),
    (
        Subject::Blif,
        "error: Undriven q",
        NETLIST,
        "a:7: q: an input, a table or gate, or a latch drives each name that is read\n",
    ),
    (
        Subject::Blif,
        "error: DrivenTwice y",
        NETLIST,
        "a:7: y: a name is driven once: by an input, a table or gate, or a latch\n",
    ),
    (
        Subject::Blif,
        "error: Cycle z",
        NETLIST,
        "a:9: z: tables and gates form no loop; a latch breaks one\n",
    ),
    (
        Subject::Blif,
        "error: TooManyGates 101873",
        NETLIST,
        "a: 101873 gates; at most 100000\n",
    ),
    (
        Subject::Blif,
        "error: CannotExpress y",
        NETLIST,
        "a: gates over --basis can't make this gate, as `improve --cap 0` names it; allow more operators\n",
    ),
    (
        Subject::Bench,
        "error: DrivenTwice y",
        GATES,
        "a:4: y: a name is driven once: by an input, a table or gate, or a latch\n",
    ),
    (
        Subject::Aiger,
        "error: Syntax 3",
        "aag 3 2 0 1 1\n2\n3\n7\n6 4 2\n",
        "a:3: 3: `aag M I L O A`, then inputs, latches, outputs, gates and symbols (batsokemi help aiger)\n",
    ),
    (
        Subject::Aiger,
        "error: Syntax 1",
        ".model a\n",
        "a:1: .model a: `aag M I L O A`, then inputs, latches, outputs, gates and symbols (batsokemi help aiger); \
         it looks like BLIF\n",
    ),
    (
        Subject::Aiger,
        "error: Syntax 5",
        "aig 3 2 0 1 1\n7\n2",
        "a:5: `aag M I L O A`, then inputs, latches, outputs, gates and symbols (batsokemi help aiger)\n",
    ),
    (
        Subject::Blif,
        "error: Syntax 1",
        "aag 3 2 0 1 1\n2\n",
        "a:1: aag 3 2 0 1 1: a statement as `.names a b y`, or a line of its table as `1- 1` (batsokemi help blif); \
         it looks like AIGER\n",
    ),
    (
        Subject::Certificate,
        "error: Syntax 1",
        "chains 1\r\n",
        "a:1: chains 1\\x0d: a line of a certificate in its one spelling (batsokemi help certificates); \
         its lines end with CR LF, and not with LF alone\n",
    ),
    (
        Subject::Pair,
        "error: Second Undriven q",
        NETLIST,
        "b:7: q: an input, a table or gate, or a latch drives each name that is read\n",
    ),
    (
        Subject::Pair,
        "error: Second NoLatch q",
        NETLIST,
        "b: q: a latch with this output, as the other netlist has one\n",
    ),
    (
        Subject::Pair,
        "error: SourceCount 3",
        NETLIST,
        "a: 3 inputs and latches; --at has one bit for each of them\n",
    ),
    (
        Subject::Tables,
        "error: TooManyInputs",
        "inputs 7\n",
        "a:1: inputs 7: at most 6 inputs\n",
    ),
    (
        Subject::Tables,
        "error: NoOutput",
        "inputs 2\n",
        "a:2: the text ends before this line: a row for each output comes after the line `inputs N`\n",
    ),
    (Subject::Tables, "error: Other 2", "inputs 2\n", ""),
    (Subject::Tables, "minimum 2", "inputs 2\n", ""),
];

#[test]
fn a_line_says_where_and_what(rt: HostRuntime) {
    for &(subject, error_line, text, wanted) in LINES {
        assert!(rt;
            is_explained(rt.alloc(), subject, error_line, text, wanted),
            "{error_line}"
        );
    }
}

/// The format of the first of two netlists, the error line, its text, and the line after it.
const FORMATS: &[(Subject, &str, &str, &str)] = &[
    (
        Subject::Bench,
        "error: First Syntax 2",
        GATES,
        "a:2: OUTPUT(y): `INPUT(a)`, `OUTPUT(y)` or `y = AND(a, b)` (batsokemi help bench)\n",
    ),
    (
        Subject::Bench,
        "error: First Undriven b",
        GATES,
        "a:3: b: an input, a table or gate, or a latch drives each name that is read\n",
    ),
    (
        Subject::Aiger,
        "error: First Syntax 1",
        "aag 3 2\n",
        "a:1: aag 3 2: `aag M I L O A`, then inputs, latches, outputs, gates and symbols (batsokemi help aiger)\n",
    ),
    (
        Subject::Blif,
        "error: First Syntax 1",
        "aag 3 2\n",
        "a:1: aag 3 2: a statement as `.names a b y`, or a line of its table as `1- 1` (batsokemi help blif); \
         it looks like AIGER\n",
    ),
    (
        Subject::Blif,
        "error: DifferentInterface",
        ".inputs a c\n",
        "a:1: c: b has no input of this name\n",
    ),
    (
        Subject::Bench,
        "error: DifferentInterface",
        GATES,
        "b:1: b: a has no input of this name\n",
    ),
    (
        Subject::Aiger,
        "error: DifferentInterface",
        "aag 3 2 0 1 1\n2\n4\n6\n6 4 2\ni0 a\n",
        "a:3: i1: b has no input of this name\n",
    ),
];

#[test]
fn a_line_speaks_of_the_format(rt: HostRuntime) {
    for &(format, error_line, text, wanted) in FORMATS {
        assert!(rt;
            is_of_format(rt.alloc(), format, error_line, text, wanted),
            "{error_line}"
        );
    }
}

/// Whether this is the line after an error line of two netlists in one text.
fn is_of_halves(alloc: Global, error_line: &str, text: &str, wanted: &str) -> bool {
    let halves = halves_of(Input::of(b"a", Some(text.as_bytes())));
    let inputs = Inputs {
        first: halves.first,
        second: halves.second,
        first_format: Subject::Blif,
        second_format: Subject::Blif,
    };
    is_line(alloc, Subject::Pair, error_line, &inputs, wanted)
}

/// The error line, the text of two netlists, and the line after it.
const HALVES: &[(&str, &str, &str)] = &[
    (
        "error: DifferentInterface",
        ".inputs a\n.end # all\n\n# nothing\n",
        "a: nothing comes after its first netlist: equiv compares two files, or two netlists in one text\n",
    ),
    (
        "error: DifferentInterface",
        ".inputs a \\\n.end\n.end\n.inputs a .end\n.outputs y\n",
        "a:5: y: the other netlist has no output of this name\n",
    ),
    (
        "error: Second Syntax 2",
        ".inputs a\n.end\n.inputs a\nb\n",
        "a:4: b: a statement as `.names a b y`, or a line of its table as `1- 1` (batsokemi help blif)\n",
    ),
    (
        "error: Second Undriven q",
        ".inputs q\n.end\n.names q y\n1 1\n",
        "a:3: q: an input, a table or gate, or a latch drives each name that is read\n",
    ),
];

#[test]
fn a_line_speaks_of_both_halves(rt: HostRuntime) {
    for &(error_line, text, wanted) in HALVES {
        assert!(rt;
            is_of_halves(rt.alloc(), error_line, text, wanted),
            "{error_line}"
        );
    }
}

/// Whether this is the line after two texts in AIGER of different interfaces.
fn is_of_aigers(alloc: Global, first: &str, second: &str, wanted: &str) -> bool {
    let inputs = Inputs {
        first: Input::of(b"a", Some(first.as_bytes())),
        second: Input::of(b"b", Some(second.as_bytes())),
        first_format: Subject::Aiger,
        second_format: Subject::Aiger,
    };
    is_line(
        alloc,
        Subject::Pair,
        "error: DifferentInterface",
        &inputs,
        wanted,
    )
}

/// Two texts, and the line.
const AIGERS: &[(&str, &str, &str)] = &[
    (
        "aag 1 1 0 0 0 1\n2\n2\nb0 p\n",
        "aag 1 1 0 0 0 1\n2\n2\nb0 q\n",
        "a:3: p: b has no output of this name\n",
    ),
    (
        "aag 1 1 0 0 0 1\n2\n2\nb0 p\n",
        "aag 1 1 0 1 0\n2\n2\no0 p\n",
        "b:1: other numbers of outputs, bad states and constraints than in a\n",
    ),
];

#[test]
fn a_line_speaks_of_sections(rt: HostRuntime) {
    for &(first, second, wanted) in AIGERS {
        assert!(rt; is_of_aigers(rt.alloc(), first, second, wanted), "{wanted}");
    }
}

/// Whether the line after a text that is too long names the limit that was asked for.
fn is_of_limit(alloc: Global) -> bool {
    let mut input = Input::of(b"a", None);
    input.most_bytes = Some(10);
    let inputs = Inputs {
        first: input,
        second: input,
        first_format: Subject::Blif,
        second_format: Subject::Blif,
    };
    is_line(
        alloc,
        Subject::Certificate,
        "error: TooLong",
        &inputs,
        "a: at most 10 bytes are read, as --most-bytes says\n",
    )
}

#[test]
fn a_line_names_the_limit(rt: HostRuntime) {
    assert!(rt; is_of_limit(rt.alloc()));
}
