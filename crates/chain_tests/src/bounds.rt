//! Lower bounds on the steps of truth tables.
use bound_core::lower_bound;
use std::alloc::Global;
use tt_core::read_tables;

/// The exclusive or of six inputs.
const XOR_6: &[u8] =
    b"inputs 6\n0110100110010110100101100110100110010110011010010110100110010110\n";

/// x1 and x2 and x3 together, and x4 and x5 and x6 together.
const APART_3: &[u8] =
    b"inputs 6\n0000000000000000000000000000000000000000000000000000000011111111\n0000000100000001000000010000000100000001000000010000000100000001\n";

/// A 1 on row 56 alone.
const ROW_6: &[u8] =
    b"inputs 6\n0000000000000000000000000000000000000000000000000000000010000000\n";

/// The lower bound of the tables of `text`; None where the text is refused.
fn bound_of(alloc: Global, text: &[u8]) -> Option<u32> {
    if text.len() > 1000 {
        return None;
    }
    let tables = read_tables(alloc, text).ok()?;
    Some(lower_bound(&tables.spec))
}

/// Truth tables, and their lower bounds.
const BOUNDS: &[(&str, &[u8], u32)] = &[
    // the number of inputs less 1
    ("XOR of 2", b"inputs 2\n0110\n", 1),
    ("XOR of 3", b"inputs 3\n01101001\n", 2),
    ("XOR of 4", b"inputs 4\n0110100110010110\n", 3),
    (
        "XOR of 5",
        b"inputs 5\n01101001100101101001011001101001\n",
        4,
    ),
    ("XOR of 6", XOR_6, 5),
    // constants and inputs need no step, a complement needs one
    (
        "constants and inputs",
        b"inputs 2\n0000\n1111\n0011\n0101\n",
        0,
    ),
    ("constants without inputs", b"inputs 0\n1\n0\n", 0),
    ("a complement", b"inputs 1\n10\n", 1),
    // equal outputs are counted once, and different outputs twice
    ("equal outputs", b"inputs 2\n0110\n0110\n", 1),
    ("an output and its complement", b"inputs 2\n0110\n1001\n", 2),
    ("XOR, an input and AND", b"inputs 2\n0110\n0011\n0001\n", 2),
    (
        "sum and carry of three bits",
        b"inputs 3\n01101001\n00010111\n",
        2,
    ),
    // six inputs less two outputs
    ("two outputs of disjoint supports", APART_3, 4),
    ("a minterm of 6 inputs", ROW_6, 5),
    // no input is used, and outputs that may be equal are counted once
    ("don't-cares that leave an input", b"inputs 2\n0--1\n", 0),
    ("don't-cares that leave a constant", b"inputs 2\n-11-\n", 0),
    (
        "don't-cares that leave one output",
        b"inputs 2\n0110\n011-\n",
        1,
    ),
];

#[test]
fn outputs_and_their_supports_bound_the_steps(rt: HostRuntime) {
    for &(name, text, bound) in BOUNDS {
        assert!(rt; bound_of(rt.alloc(), text) == Some(bound), "{name}");
    }
}
