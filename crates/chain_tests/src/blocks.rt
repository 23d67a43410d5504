//! Chain blocks read, refused and written, and the values of their chains.
use chain_core::{
    Basis, Chain, ChainError, first_difference, first_outside, read_chain, write_chain,
};
use std::alloc::Global;
use tt_core::{Spec, read_tables};

/// The sum and the carry of three bits in five steps.
const FULL_ADDER: &[u8] = b"chain 5\nx4 x1 x2 0110\nx5 x1 x2 0001\nx6 x4 x3 0110\nx7 x4 x3 0001\n\
    x8 x5 x7 0111\nout x6\nout x8\n";

/// An input, a negation by two equal operands, and the constants.
const MIXED: &[u8] = b"chain 2\nx2 x1 x1 1110\nx3 x2 x1 0010\nout 1\nout x3\nout 0\nout x1\n";

/// The greatest number of steps that a chain may have, and one more.
const SIXTEEN_STEPS: &str = "chain 16\n\
    x3 x1 x2 0110\nx4 x1 x3 0110\nx5 x1 x4 0110\nx6 x1 x5 0110\n\
    x7 x1 x6 0110\nx8 x1 x7 0110\nx9 x1 x8 0110\nx10 x1 x9 0110\n\
    x11 x1 x10 0110\nx12 x1 x11 0110\nx13 x1 x12 0110\nx14 x1 x13 0110\n\
    x15 x1 x14 0110\nx16 x1 x15 0110\nx17 x1 x16 0110\nx18 x1 x17 0110\n\
    out x18\n";

const SEVENTEEN_STEPS: &str = "chain 17\n\
    x3 x1 x2 0110\nx4 x1 x3 0110\nx5 x1 x4 0110\nx6 x1 x5 0110\n\
    x7 x1 x6 0110\nx8 x1 x7 0110\nx9 x1 x8 0110\nx10 x1 x9 0110\n\
    x11 x1 x10 0110\nx12 x1 x11 0110\nx13 x1 x12 0110\nx14 x1 x13 0110\n\
    x15 x1 x14 0110\nx16 x1 x15 0110\nx17 x1 x16 0110\nx18 x1 x17 0110\n\
    x19 x1 x18 0110\n\
    out x19\n";

/// Whether `difference` is the first output and row on which the chain of `block` differs from
/// `spec`. None: the chain implements `spec`.
fn is_difference(alloc: Global, spec: &Spec, block: &[u8], difference: Option<(u32, u32)>) -> bool {
    let (inputs, outputs) = (spec.n(), spec.outputs());
    if block.len() > 1000 || inputs > 6 || outputs > 8 {
        return false;
    }
    match read_chain(alloc, block, 1, inputs, outputs) {
        Ok((chain, _)) => first_difference(&chain, spec) == difference,
        Err(_) => false,
    }
}

/// The same for truth tables as a text.
fn differs_at(alloc: Global, tables: &[u8], block: &[u8], difference: Option<(u32, u32)>) -> bool {
    if tables.len() > 1000 {
        return false;
    }
    match read_tables(alloc, tables) {
        Ok(tables) => is_difference(alloc, &tables.spec, block, difference),
        Err(_) => false,
    }
}

const ONE_XOR: &[u8] = b"chain 1\nx3 x1 x2 0110\nout x3\n";

const ONE_OR: &[u8] = b"chain 1\nx3 x1 x2 0111\nout x3\n";

const XOR_TWICE: &[u8] = b"chain 1\nx3 x1 x2 0110\nout x3\nout x3\n";

/// Truth tables, blocks, and the first output and row on which they differ.
const DIFFERENCES: &[(&str, &[u8], &[u8], Option<(u32, u32)>)] = &[
    ("XOR", b"inputs 2\n0110\n", ONE_XOR, None),
    ("OR for XOR", b"inputs 2\n0110\n", ONE_OR, Some((1, 3))),
    (
        "OR where a don't-care allows it",
        b"inputs 2\n011-\n",
        ONE_OR,
        None,
    ),
    (
        "a constant for XOR",
        b"inputs 2\n0110\n",
        b"chain 0\nout 1\n",
        Some((1, 0)),
    ),
    (
        "a wrong second output",
        b"inputs 2\n0110\n0010\n",
        XOR_TWICE,
        Some((2, 1)),
    ),
    (
        "a wrong first output",
        b"inputs 2\n0111\n0010\n",
        XOR_TWICE,
        Some((1, 3)),
    ),
    (
        "a full adder",
        b"inputs 3\n01101001\n00010111\n",
        FULL_ADDER,
        None,
    ),
    (
        "constants, a negation and an input",
        b"inputs 1\n11\n10\n00\n01\n",
        MIXED,
        None,
    ),
];

#[test]
fn the_first_difference_is_found(rt: HostRuntime) {
    for &(name, tables, block, difference) in DIFFERENCES {
        assert!(rt; differs_at(rt.alloc(), tables, block, difference), "{name}");
    }
}

/// The number of bytes of a block for two inputs and one output that begins at line 4 of `text`.
fn taken(alloc: Global, text: &[u8]) -> Result<usize, ChainError> {
    if text.len() > 1000 {
        return Err(ChainError::Memory);
    }
    let (_, used) = read_chain(alloc, text, 4, 2, 1)?;
    Ok(used)
}

/// The errors of the first line, of the first step's line and of the output's line after it.
const BAD_COUNT: Result<usize, ChainError> = Err(ChainError::BadCount(4));

const BAD_STEP: Result<usize, ChainError> = Err(ChainError::BadStep(5));

const FORWARD: Result<usize, ChainError> = Err(ChainError::ForwardPlace(5));

const BAD_OUT: Result<usize, ChainError> = Err(ChainError::BadOut(6));

/// Texts for two inputs and one output, with the first line numbered 4, and the number of bytes read
/// or the error.
const READ: &[(&str, Result<usize, ChainError>)] = &[
    ("chain 1\nx3 x1 x2 0110\nout x3\nend\n", Ok(29)),
    ("chain 1\nx3 x2 x2 1110\nout x2\n", Ok(29)),
    ("chain 0\nout 0\n", Ok(14)),
    ("chain 0\nout 0\nout 1", Ok(14)),
    // the whole text
    (SIXTEEN_STEPS, Ok(258)),
    ("", BAD_COUNT),
    ("chain 1", BAD_COUNT),
    ("chain 17", BAD_COUNT),
    ("chain\nout x1\n", BAD_COUNT),
    ("chain \nout x1\n", BAD_COUNT),
    ("chain 01\nx3 x1 x2 0110\nout x3\n", BAD_COUNT),
    ("chain  1\nx3 x1 x2 0110\nout x3\n", BAD_COUNT),
    ("Chain 1\nx3 x1 x2 0110\nout x3\n", BAD_COUNT),
    ("chain 1\r\nx3 x1 x2 0110\nout x3\n", BAD_COUNT),
    ("chain 1000000000\n", BAD_COUNT),
    ("chain 999999999\n", Err(ChainError::TooManySteps(4))),
    (SEVENTEEN_STEPS, Err(ChainError::TooManySteps(4))),
    ("chain 2\n", BAD_STEP),
    ("chain 2\nx3 x1 x2 0110\n", Err(ChainError::BadStep(6))),
    (
        "chain 2\nx3 x1 x2 0110\nout x3\n",
        Err(ChainError::BadStep(6)),
    ),
    ("chain 1\nx3 x1 x2 0110", BAD_STEP),
    ("chain 1\nx3 x3 x2 0110", BAD_STEP),
    ("chain 1\nx4 x1 x2 0110\nout x3\n", BAD_STEP),
    ("chain 1\nx4 x3 x2 0110\nout x3\n", BAD_STEP),
    ("chain 1\nx3 x0 x2 0110\nout x3\n", BAD_STEP),
    ("chain 1\nx3 x3 x0 0110\nout x3\n", BAD_STEP),
    ("chain 1\nx3 x1  x2 0110\nout x3\n", BAD_STEP),
    ("chain 1\nx3 x1 x2 0110 \nout x3\n", BAD_STEP),
    ("chain 1\nx3 x1 x2 011\nout x3\n", BAD_STEP),
    ("chain 1\nx3 x1 x2 0120\nout x3\n", BAD_STEP),
    ("chain 1\nx3 x01 x2 0110\nout x3\n", BAD_STEP),
    ("chain 1\nx3 x1000000000 x2 0110\nout x3\n", BAD_STEP),
    ("chain 1\nx3 x999999999 x2 0110\nout x3\n", FORWARD),
    ("chain 1\nx3 x3 x2 0110\nout x3\n", FORWARD),
    (
        "chain 2\nx3 x1 x2 0110\nx4 x1 x5 0110\n",
        Err(ChainError::ForwardPlace(6)),
    ),
    ("chain 0\n", Err(ChainError::BadOut(5))),
    ("chain 1\nx3 x1 x2 0110\n", BAD_OUT),
    ("chain 1\nx3 x1 x2 0110\nend\n", BAD_OUT),
    ("chain 1\nx3 x1 x2 0110\nout x4\n", BAD_OUT),
    ("chain 1\nx3 x1 x2 0110\nout x0\n", BAD_OUT),
    ("chain 1\nx3 x1 x2 0110\nout 2\n", BAD_OUT),
    ("chain 1\nx3 x1 x2 0110\nout x3", BAD_OUT),
];

#[test]
fn blocks_are_read_or_refused_at_the_first_fault(rt: HostRuntime) {
    for &(text, wanted) in READ {
        assert!(rt; taken(rt.alloc(), text.as_bytes()) == wanted, "{text}");
    }
}

/// Whether a chain is appended to a text as `block`.
fn is_written(alloc: Global, chain: &Chain, block: &[u8]) -> bool {
    let Ok(mut text) = Vec::from_slice(alloc, b"x") else {
        return false;
    };
    if write_chain(chain, &mut text).is_err() {
        return false;
    }
    match text.as_slice().split_first() {
        Some((_, written)) => written == block,
        None => false,
    }
}

/// Whether the chain of `block` is written as `block`.
fn is_written_again(alloc: Global, block: &[u8], n: u32, outputs: u32) -> bool {
    if block.len() > 1000 || n > 6 || outputs > 8 {
        return false;
    }
    match read_chain(alloc, block, 1, n, outputs) {
        Ok((chain, _)) => is_written(alloc, &chain, block),
        Err(_) => false,
    }
}

/// Blocks with their numbers of inputs and outputs.
const WRITTEN: &[(&str, &[u8], u32, u32)] = &[
    ("a full adder", FULL_ADDER, 3, 2),
    ("constants, a negation and an input", MIXED, 1, 4),
    ("no step and no output", b"chain 0\n", 6, 0),
];

#[test]
fn blocks_are_written_as_they_are_read(rt: HostRuntime) {
    for &(name, block, n, outputs) in WRITTEN {
        assert!(rt; is_written_again(rt.alloc(), block, n, outputs), "{name}");
    }
}

/// Whether `place` is the first of a block's chain whose operator isn't in the basis `bits`;
/// `widths` are its inputs and outputs.
fn is_outside_at(
    alloc: Global,
    block: &[u8],
    widths: (u32, u32),
    bits: u16,
    place: Option<u32>,
) -> bool {
    let (n, outputs) = widths;
    if block.len() > 1000 || n > 6 || outputs > 8 {
        return false;
    }
    match read_chain(alloc, block, 1, n, outputs) {
        Ok((chain, _)) => first_outside(&chain, Basis::new(bits)) == place,
        Err(_) => false,
    }
}

/// Blocks with their numbers of inputs and outputs, bases by their bits, and the first places
/// outside them. The full adder has the operators 6, 1, 6, 1 and 7, and the mixed chain 14 and 2.
const OUTSIDE: &[(&str, &[u8], (u32, u32), u16, Option<u32>)] = &[
    (
        "a full adder, all operators",
        FULL_ADDER,
        (3, 2),
        65535,
        None,
    ),
    (
        "a full adder, its operators",
        FULL_ADDER,
        (3, 2),
        2 + 64 + 128,
        None,
    ),
    ("a full adder, no OR", FULL_ADDER, (3, 2), 2 + 64, Some(8)),
    ("a full adder, XOR alone", FULL_ADDER, (3, 2), 64, Some(5)),
    (
        "a full adder, NAND alone",
        FULL_ADDER,
        (3, 2),
        16384,
        Some(4),
    ),
    (
        "NAND and AND NOT, NAND alone",
        MIXED,
        (1, 4),
        16384,
        Some(3),
    ),
    (
        "no step, no operator",
        b"chain 0\nout x1\n",
        (1, 1),
        0,
        None,
    ),
];

#[test]
fn the_first_place_outside_a_basis_is_found(rt: HostRuntime) {
    for &(name, block, widths, bits, place) in OUTSIDE {
        let found = is_outside_at(rt.alloc(), block, widths, bits, place);
        assert!(rt; found, "{name}");
    }
}
