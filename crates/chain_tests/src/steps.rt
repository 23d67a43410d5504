//! Truth tables with their least chains, or the numbers of steps of these.
use chain_core::{Chain, first_difference, write_chain};
use op_basis::read_basis;
use std::alloc::Global;
use step_core::{least_chain, nth_chain, refutes};
use tt_core::read_tables;

/// Whether a chain is written as `text`.
fn is_written(alloc: Global, chain: &Chain, text: &[u8]) -> bool {
    let mut reported = Vec::new(alloc);
    write_chain(chain, &mut reported).is_ok() && reported.as_slice() == text
}

/// Whether the least chain for tables over a basis, of at most one step, is `wanted`. An empty text: there is
/// none.
fn has(alloc: Global, basis: &[u8], tables: &[u8], wanted: &[u8]) -> bool {
    if tables.len() > 100_000 {
        return false;
    }
    let Ok(basis) = read_basis(basis) else {
        return false;
    };
    let Ok(tables) = read_tables(alloc, tables) else {
        return false;
    };
    match least_chain(alloc, &tables.spec, basis, 1) {
        Ok(Some(chain)) => is_written(alloc, &chain, wanted),
        Ok(None) => wanted.is_empty(),
        Err(_) => false,
    }
}

/// Bases, truth tables, and their least chains of at most one step. An empty text: there is none.
const ONE_STEP: &[(&str, &[u8], &[u8], &[u8])] = &[
    (
        "no step",
        b"nand",
        b"inputs 2\n0000\n1111\n0101\n0--1\n",
        b"chain 0\nout 0\nout 1\nout x2\nout x1\n",
    ),
    (
        "one step, and an output that needs none",
        b"all",
        b"inputs 2\n0110\n0011\n",
        b"chain 1\nx3 x1 x2 0110\nout x3\nout x1\n",
    ),
    (
        "a negation over NAND",
        b"nand",
        b"inputs 2\n1010\n",
        b"chain 1\nx3 x2 x2 1110\nout x3\n",
    ),
    // though an operator on two inputs would do
    (
        "a negation over all operators",
        b"all",
        b"inputs 2\n1010\n",
        b"chain 1\nx3 x2 x2 1000\nout x3\n",
    ),
    // since the basis needs it
    (
        "operands in the other order",
        b"0010",
        b"inputs 2\n0100\n",
        b"chain 1\nx3 x2 x1 0010\nout x3\n",
    ),
    (
        "outputs that can be the same step",
        b"bench",
        b"inputs 3\n0-0001-1\n0000-101\n",
        b"chain 1\nx4 x1 x3 0001\nout x4\nout x4\n",
    ),
    ("XOR over NAND", b"nand", b"inputs 2\n0110\n", b""),
    ("two outputs", b"all", b"inputs 2\n0110\n0111\n", b""),
    ("XOR of three", b"all", b"inputs 3\n01101001\n", b""),
    (
        "the last input of six",
        b"all",
        b"inputs 6\n0000000000000000000000000000000001010101010101010101010101010101\n",
        b"chain 1\nx7 x1 x6 0001\nout x7\n",
    ),
];

#[test]
fn least_chains_of_at_most_one_step_are_found(rt: HostRuntime) {
    for &(name, basis, tables, wanted) in ONE_STEP {
        assert!(rt; has(rt.alloc(), basis, tables, wanted), "{name}");
    }
}

/// Whether the least chain for tables over a basis, of at most `most` steps, has the wanted number of steps.
/// None: there is no such chain.
fn needs(alloc: Global, basis: &[u8], tables: &[u8], most: u32, wanted: Option<u32>) -> bool {
    if tables.len() > 100_000 || most > 6 {
        return false;
    }
    let Ok(basis) = read_basis(basis) else {
        return false;
    };
    let Ok(tables) = read_tables(alloc, tables) else {
        return false;
    };
    match (least_chain(alloc, &tables.spec, basis, most), wanted) {
        (Ok(Some(chain)), Some(count)) => chain.steps().len() as u32 == count,
        (Ok(None), None) => true,
        _ => false,
    }
}

/// Bases, truth tables, the bound on the steps, and the size of the least chain (TAOCP 7.1.2 has most of these
/// sizes).
const FEWEST: &[(&str, &[u8], &[u8], u32, Option<u32>)] = &[
    (
        "XOR over NAND, three steps",
        b"nand",
        b"inputs 2\n0110\n",
        3,
        None,
    ),
    ("XOR over NAND", b"nand", b"inputs 2\n0110\n", 4, Some(4)),
    (
        "a half adder",
        b"all",
        b"inputs 2\n0110\n0001\n",
        2,
        Some(2),
    ),
    ("XOR of three", b"all", b"inputs 3\n01101001\n", 4, Some(2)),
    (
        "a multiplexer, two steps",
        b"all",
        b"inputs 3\n01010011\n",
        2,
        None,
    ),
    ("a multiplexer", b"all", b"inputs 3\n01010011\n", 3, Some(3)),
    (
        "the majority of three, three steps",
        b"all",
        b"inputs 3\n00010111\n",
        3,
        None,
    ),
    (
        "the majority of three",
        b"all",
        b"inputs 3\n00010111\n",
        4,
        Some(4),
    ),
    (
        "a full adder, four steps",
        b"all",
        b"inputs 3\n01101001\n00010111\n",
        4,
        None,
    ),
    (
        "a full adder",
        b"all",
        b"inputs 3\n01101001\n00010111\n",
        5,
        Some(5),
    ),
];

#[test]
fn least_chains_have_their_known_sizes(rt: HostRuntime) {
    for &(name, basis, tables, most, wanted) in FEWEST {
        assert!(rt; needs(rt.alloc(), basis, tables, most, wanted), "{name}");
    }
}

/// Whether the search by read sets, of so many tests, refutes that a chain over a basis of exactly `steps` steps
/// implements the tables, or doesn't, as wanted.
fn answers(
    alloc: Global,
    basis: &[u8],
    tables: &[u8],
    steps: u32,
    work: u32,
    wanted: bool,
) -> bool {
    if tables.len() > 100_000 || steps > 7 {
        return false;
    }
    let Ok(basis) = read_basis(basis) else {
        return false;
    };
    let Ok(tables) = read_tables(alloc, tables) else {
        return false;
    };
    match refutes(alloc, &tables.spec, basis, steps, work) {
        Ok(refuted) => refuted == wanted,
        Err(_) => false,
    }
}

/// Bases, truth tables, a size, the most tests, and whether the size is refuted: one step less than the least chain has
/// is, the least size isn't, and without a test nothing is.
const REFUTED: &[(&str, &[u8], &[u8], u32, u32, bool)] = &[
    (
        "XOR over NAND, three steps",
        b"nand",
        b"inputs 2\n0110\n",
        3,
        10_000,
        true,
    ),
    (
        "XOR over NAND, four steps",
        b"nand",
        b"inputs 2\n0110\n",
        4,
        10_000,
        false,
    ),
    (
        "XOR over NAND, no test",
        b"nand",
        b"inputs 2\n0110\n",
        3,
        0,
        false,
    ),
    (
        "a multiplexer, two steps",
        b"all",
        b"inputs 3\n01010011\n",
        2,
        10_000,
        true,
    ),
    (
        "a multiplexer, three steps",
        b"all",
        b"inputs 3\n01010011\n",
        3,
        10_000,
        false,
    ),
    (
        "a full adder, four steps",
        b"all",
        b"inputs 3\n01101001\n00010111\n",
        4,
        100_000,
        true,
    ),
    (
        "a full adder, five steps",
        b"all",
        b"inputs 3\n01101001\n00010111\n",
        5,
        100_000,
        false,
    ),
    // both outputs depend on all inputs, so they are in one component, in which three steps read four inputs
    (
        "AND and XOR of five, three steps and few tests",
        b"all",
        b"inputs 5\n00000000000000000000000000000001\n01101001100101101001011001101001\n",
        3,
        40,
        true,
    ),
    // each needs a step of its own
    (
        "eight outputs, seven steps and no test",
        b"all",
        b"inputs 3\n00010001\n01110111\n00000011\n00111111\n00000101\n01011111\n01100110\n00111100\n",
        7,
        0,
        true,
    ),
    (
        "a full adder, no test",
        b"all",
        b"inputs 3\n01101001\n00010111\n",
        4,
        0,
        false,
    ),
];

#[test]
fn sizes_below_the_least_are_refuted(rt: HostRuntime) {
    for &(name, basis, tables, steps, work, wanted) in REFUTED {
        assert!(rt;
            answers(rt.alloc(), basis, tables, steps, work, wanted),
            "{name}"
        );
    }
}

/// Whether there is a chain number `number`, from 0, of at most `most` steps, and it implements the tables.
fn has_after(alloc: Global, basis: &[u8], tables: &[u8], most: u32, number: u32) -> bool {
    if tables.len() > 100_000 || most > 6 {
        return false;
    }
    let Ok(basis) = read_basis(basis) else {
        return false;
    };
    let Ok(tables) = read_tables(alloc, tables) else {
        return false;
    };
    match nth_chain(alloc, &tables.spec, basis, most, number) {
        Ok(Some(chain)) => {
            chain.steps().len() as u32 <= most
                && chain.n() == tables.spec.n()
                && chain.outs().len() as u32 == tables.spec.outputs()
                && first_difference(&chain, &tables.spec).is_none()
        }
        _ => false,
    }
}

#[test]
fn a_multiplexer_has_several_chains_but_no_million(rt: HostRuntime) {
    // a multiplexer
    for number in 0..3u32 {
        let has = has_after(rt.alloc(), b"all", b"inputs 3\n01010011\n", 3, number);
        assert!(rt; has, "{number}");
    }
    assert!(rt; !has_after(rt.alloc(), b"all", b"inputs 3\n01010011\n", 3, 1_000_000));
}
