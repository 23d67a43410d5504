//! Truth tables that are read or refused, their symmetric inputs, and their live (nontrivial) outputs.
use std::alloc::Global;
use tt_core::{
    Cell, Out, Spec, SpecError, Tables, are_cells, inputs, live_spec, push_row, read_tables, row,
    symmetric, trivial,
};

/// The cell of output `h` on row `t`, as it is written; `?` where there is none.
fn character(tables: &Tables, h: u32, t: u32) -> u8 {
    if h < 1 || h > tables.spec.outputs() || tables.spec.n() > 6 || t >= 1 << tables.spec.n() {
        return b'?';
    }
    match row(&tables.spec, h, t) {
        Cell::Zero => b'0',
        Cell::One => b'1',
        Cell::Free => b'-',
    }
}

/// Whether the first cells of output `h` are `cells`.
fn has_cells(tables: &Tables, h: u32, cells: &[u8]) -> bool {
    for (t, cell) in cells.iter().enumerate() {
        if t >= 64 || character(tables, h, t as u32) != *cell {
            return false;
        }
    }
    true
}

/// Whether tables have `widths` inputs and outputs, and end after `used` bytes.
fn has_widths(tables: &Tables, widths: (u32, u32), used: usize) -> bool {
    let (n, outputs) = widths;
    let spec = tables.spec.n() == n && tables.spec.outputs() == outputs;
    spec && tables.used == used && tables.lines.checked_sub(1) == Some(outputs)
}

/// Whether `used` bytes of `text` are read, with `widths` inputs and outputs and the cells `cells`
/// of output `h`.
fn is_read(
    alloc: Global,
    text: &[u8],
    widths: (u32, u32),
    used: usize,
    h: u32,
    cells: &[u8],
) -> bool {
    if text.len() > 1000 {
        return false;
    }
    let Ok(tables) = read_tables(alloc, text) else {
        return false;
    };
    has_widths(&tables, widths, used) && has_cells(&tables, h, cells)
}

/// Texts with their numbers of inputs and outputs, where the tables end, and the cells of one output.
const TABLES: &[(&str, &[u8], u32, u32, usize, u32, &[u8])] = &[
    ("XOR", b"inputs 2\n0110\n", 2, 1, 14, 1, b"0110"),
    (
        "a full adder's sum",
        b"inputs 3\n01101001\n00010111\n",
        3,
        2,
        27,
        1,
        b"01101001",
    ),
    (
        "a full adder's carry",
        b"inputs 3\n01101001\n00010111\n",
        3,
        2,
        27,
        2,
        b"00010111",
    ),
    ("don't-cares", b"inputs 2\n0--1\n", 2, 1, 14, 1, b"0--1"),
    ("no input", b"inputs 0\n1\n-\n", 0, 2, 13, 2, b"-"),
    (
        "eight outputs",
        b"inputs 1\n00\n01\n10\n11\n0-\n1-\n-0\n--\n",
        1,
        8,
        33,
        7,
        b"-0",
    ),
    // the tables end before a line that begins with a lower-case letter
    (
        "a chain after the tables",
        b"inputs 2\n0110\nchain 1\nx3 x1 x2 0110\n",
        2,
        1,
        14,
        1,
        b"0110",
    ),
    (
        "a lower-case letter after the tables",
        b"inputs 2\n0110\nz",
        2,
        1,
        14,
        1,
        b"0110",
    ),
    (
        "six inputs",
        b"inputs 6\n0000000000000000000000000000000100000000000000000000000000000001\n",
        6,
        1,
        74,
        1,
        b"0000000000000000000000000000000100000000000000000000000000000001",
    ),
];

#[test]
fn tables_are_read_up_to_their_end(rt: HostRuntime) {
    for &(name, text, n, outputs, used, h, cells) in TABLES {
        let read = is_read(rt.alloc(), text, (n, outputs), used, h, cells);
        assert!(rt; read, "{name}");
    }
}

/// The error of a text; None where it is read.
fn refusal_of(alloc: Global, text: &[u8]) -> Option<SpecError> {
    if text.len() > 1000 {
        return None;
    }
    read_tables(alloc, text).err()
}

/// Texts and their errors.
const REFUSALS: &[(&str, SpecError)] = &[
    ("", SpecError::BadHeader(1)),
    ("\n0110\n", SpecError::BadHeader(1)),
    ("inputs 2", SpecError::BadHeader(1)),
    ("inputs 02\n0110\n", SpecError::BadHeader(1)),
    ("inputs  2\n0110\n", SpecError::BadHeader(1)),
    ("inputs 2 \n0110\n", SpecError::BadHeader(1)),
    ("inputs 2\r\n0110\n", SpecError::BadHeader(1)),
    ("inputs -1\n0110\n", SpecError::BadHeader(1)),
    ("inputs 1000000000\n0110\n", SpecError::BadHeader(1)),
    ("Inputs 2\n0110\n", SpecError::BadHeader(1)),
    ("inputs 7\n0\n", SpecError::TooManyInputs),
    ("inputs 999999999\nx\n", SpecError::TooManyInputs),
    ("inputs 2\n", SpecError::NoOutput),
    ("inputs 2\nchain 1\n", SpecError::NoOutput),
    ("inputs 2\n0110", SpecError::BadRow(2)),
    ("inputs 2\n011", SpecError::BadRow(2)),
    ("inputs 2\n\n", SpecError::BadRow(2)),
    ("inputs 2\n0110\n\n", SpecError::BadRow(3)),
    ("inputs 2\n011x\n", SpecError::BadRow(2)),
    ("inputs 2\n0110\n01x\n", SpecError::BadRow(3)),
    ("inputs 2\n 0110\n", SpecError::BadRow(2)),
    ("inputs 2\n011\n", SpecError::WrongLength(2)),
    ("inputs 2\n0110\n1001\n01100\n", SpecError::WrongLength(4)),
    (
        "inputs 0\n0\n0\n0\n0\n0\n0\n0\n0\n01x",
        SpecError::TooManyOutputs,
    ),
];

#[test]
fn the_first_fault_of_tables_is_reported_with_its_line(rt: HostRuntime) {
    for &(text, refusal) in REFUSALS {
        assert!(rt;
            refusal_of(rt.alloc(), text.as_bytes()) == Some(refusal),
            "{text}"
        );
    }
}

/// Whether a specification has two inputs and the words `on` and `care`.
fn has_words(spec: &Spec, on: &[u64], care: &[u64]) -> bool {
    spec.n() == 2 && spec.on() == on && spec.care() == care
}

/// Whether a specification without outputs can be built.
fn are_kept(alloc: Global) -> bool {
    let spec = Spec::new(2, Vec::new(alloc), Vec::new(alloc));
    has_words(&spec, &[], &[]) && spec.outputs() == 0
}

/// Whether header lines and table lines are distinguished from other lines.
fn are_reported() -> bool {
    inputs(b"inputs 2", true) == Some(2)
        && inputs(b"inputs 2", false).is_none()
        && are_cells(b"01-1")
        && !are_cells(b"01x1")
}

/// Whether a row of two inputs is stored as the words `on` and `care`.
fn is_row(alloc: Global, text: &[u8; 4], on: u64, care: u64) -> bool {
    let mut values = Vec::new(alloc);
    let mut cares = Vec::new(alloc);
    push_row(2, &mut values, &mut cares, text).is_ok()
        && values.as_slice() == [on].as_slice()
        && cares.as_slice() == [care].as_slice()
}

#[test]
fn header_lines_and_rows_are_told_apart(rt: HostRuntime) {
    assert!(rt; are_reported());
}

#[test]
fn a_specification_may_have_no_outputs(rt: HostRuntime) {
    assert!(rt; are_kept(rt.alloc()));
}

#[test]
fn a_row_is_stored_as_values_and_cares(rt: HostRuntime) {
    assert!(rt; is_row(rt.alloc(), b"01-1", 10, 11));
}

/// Whether the tables of `text` are reported as symmetric in the inputs p and q exactly where
/// `wanted`.
fn is_symmetric(alloc: Global, text: &[u8], p: u32, q: u32, wanted: bool) -> bool {
    if text.len() > 1000 {
        return false;
    }
    match read_tables(alloc, text) {
        Ok(tables) if p >= 1 && p < q && q <= tables.spec.n() => {
            symmetric(&tables.spec, p, q) == wanted
        }
        _ => false,
    }
}

/// Truth tables, two inputs, and whether these may be exchanged.
const EXCHANGES: &[(&str, &[u8], u32, u32, bool)] = &[
    ("XOR", b"inputs 2\n0110\n", 1, 2, true),
    ("AND NOT", b"inputs 2\n0010\n", 1, 2, false),
    (
        "a don't-care that allows it",
        b"inputs 2\n0--1\n",
        1,
        2,
        true,
    ),
    (
        "a don't-care that doesn't",
        b"inputs 2\n0-11\n",
        1,
        2,
        false,
    ),
    ("XOR and AND NOT", b"inputs 2\n0110\n0010\n", 1, 2, false),
    ("the median, 1 and 3", b"inputs 3\n00010111\n", 1, 3, true),
    (
        "AND of the first two, 1 and 2",
        b"inputs 3\n00000011\n",
        1,
        2,
        true,
    ),
    (
        "AND of the first two, 2 and 3",
        b"inputs 3\n00000011\n",
        2,
        3,
        false,
    ),
    (
        "AND of the first two, 1 and 3",
        b"inputs 3\n00000011\n",
        1,
        3,
        false,
    ),
];

#[test]
fn inputs_are_symmetric_where_the_tables_allow_it(rt: HostRuntime) {
    for &(name, text, p, q, wanted) in EXCHANGES {
        assert!(rt; is_symmetric(rt.alloc(), text, p, q, wanted), "{name}");
    }
}

/// Whether the specification of the live outputs has the same inputs and the words `on` and `care`.
fn is_part(alloc: Global, spec: &Spec, on: &[u64], care: &[u64]) -> bool {
    match live_spec(alloc, spec) {
        Ok(live) => live.on() == on && live.care() == care && live.n() == spec.n(),
        Err(_) => false,
    }
}

/// Whether `outs` are the trivial outputs among four.
fn are_trivial(spec: &Spec, outs: &[Option<Out>; 4]) -> bool {
    spec.outputs() == 4
        && trivial(spec, 1) == outs[0]
        && trivial(spec, 2) == outs[1]
        && trivial(spec, 3) == outs[2]
        && trivial(spec, 4) == outs[3]
}

/// Whether `outs` are the trivial outputs among four, and the others have the words `on` and
/// `care`.
fn is_live_part(
    alloc: Global,
    text: &[u8],
    outs: &[Option<Out>; 4],
    on: &[u64],
    care: &[u64],
) -> bool {
    if text.len() > 1000 {
        return false;
    }
    match read_tables(alloc, text) {
        Ok(tables) => are_trivial(&tables.spec, outs) && is_part(alloc, &tables.spec, on, care),
        Err(_) => false,
    }
}

/// Truth tables of four outputs, their trivial outputs, and the words of the others.
const LIVE: &[(&str, &[u8], [Option<Out>; 4], &[u64], &[u64])] = &[
    (
        "inputs and don't-cares beside two gates",
        b"inputs 2\n0--1\n0110\n----\n0001\n",
        [Some(Out::Place(1)), None, Some(Out::Zero), None],
        &[6, 8],
        &[15, 15],
    ),
    (
        "constants and an input twice beside a NOT",
        b"inputs 2\n11-1\n0101\n1100\n-10-\n",
        [
            Some(Out::One),
            Some(Out::Place(2)),
            None,
            Some(Out::Place(2)),
        ],
        &[3],
        &[15],
    ),
    (
        "constants without inputs",
        b"inputs 0\n0\n1\n-\n1\n",
        [
            Some(Out::Zero),
            Some(Out::One),
            Some(Out::Zero),
            Some(Out::One),
        ],
        &[],
        &[],
    ),
];

#[test]
fn trivial_outputs_are_left_out(rt: HostRuntime) {
    for (name, text, outs, on, care) in LIVE {
        assert!(rt; is_live_part(rt.alloc(), text, outs, on, care), "{name}");
    }
}
