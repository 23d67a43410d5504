//! The literal definitions of `chain_theory::plain` on a full adder: the sum and the carry of three bits, in
//! five steps.
use chain_theory::plain::{PlainStep, agrees, place_level, place_value};
use chain_theory::{Cell, Out};

const FULL_ADDER: &[PlainStep] = &[
    PlainStep {
        j: 1,
        k: 2,
        op: 0b0110,
    },
    PlainStep {
        j: 3,
        k: 4,
        op: 0b0110,
    },
    PlainStep {
        j: 1,
        k: 2,
        op: 0b0001,
    },
    PlainStep {
        j: 3,
        k: 4,
        op: 0b0001,
    },
    PlainStep {
        j: 6,
        k: 7,
        op: 0b0111,
    },
];

fn cell(character: u8) -> Cell {
    match character {
        b'0' => Cell::Zero,
        b'1' => Cell::One,
        _ => Cell::Free,
    }
}

/// The cells of two truth tables of three inputs, as `plain` takes them.
fn cells(tables: &[u8; 16]) -> [Cell; 16] {
    let mut cells = [Cell::Free; 16];
    for (at, character) in tables.iter().enumerate() {
        cells[at] = cell(*character);
    }
    cells
}

/// Whether the full adder has the sum and the carry of `row`, and its first input.
fn is_row(row: u32) -> bool {
    let sum = (row & 1) + ((row >> 1) & 1) + ((row >> 2) & 1);
    place_value(3, FULL_ADDER, row, 5) == (sum & 1 == 1)
        && place_value(3, FULL_ADDER, row, 8) == (sum > 1)
        && place_value(3, FULL_ADDER, row, 1) == (row > 3)
}

#[test]
fn a_full_adder_adds(rt: HostRuntime) {
    for row in 0..8u32 {
        assert!(rt; is_row(row), "{row}");
    }
}

/// Places and their levels.
const LEVELS: &[(u32, u32)] = &[(1, 0), (3, 0), (4, 1), (5, 2), (6, 1), (7, 2), (8, 3)];

#[test]
fn a_full_adder_has_three_levels(rt: HostRuntime) {
    for &(place, level) in LEVELS {
        assert!(rt; place_level(3, FULL_ADDER, place) == level, "x{place}");
    }
}

const BOTH: [Out; 2] = [Out::Place(5), Out::Place(8)];

const CONSTANTS: [Out; 2] = [Out::Zero, Out::One];

/// Two outs, their tables, and whether the chain implements the tables.
const TABLES: &[(&str, [Out; 2], &[u8; 16], bool)] = &[
    ("sum and carry", BOTH, b"0110100100010111", true),
    ("one cell changed", BOTH, b"0110100100010110", false),
    (
        "the changed cell a don't-care",
        BOTH,
        b"011010010001011-",
        true,
    ),
    (
        "a changed cell of the sum",
        BOTH,
        b"0010100100010111",
        false,
    ),
    ("that cell a don't-care", BOTH, b"0-10100100010111", true),
    ("carry and sum", BOTH, b"0001011101101001", false),
    (
        "constants with don't-cares",
        CONSTANTS,
        b"00-0000-111-1111",
        true,
    ),
    (
        "constants with a wrong cell",
        CONSTANTS,
        b"0000000111111111",
        false,
    ),
];

#[test]
fn a_full_adder_agrees_with_its_tables(rt: HostRuntime) {
    for &(name, outs, tables, wanted) in TABLES {
        assert!(rt;
            agrees(3, FULL_ADDER, &outs, &cells(tables)) == wanted,
            "{name}"
        );
    }
}
