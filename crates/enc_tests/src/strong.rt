//! The stronger formulas by their numbers of variables and clauses and their checksums, which another program made, and
//! the chains that their solutions spell.
use crate::chains::{self, Case, bits_of, decoded_by, is_chain_of};
use crate::formulas::{LIGHTS, THREE, XOR, formula_by, is_like};
use chain_core::Chain;
use cnf_core::{Assign, Cnf};
use enc_strong::{Strong, StrongFence};
use op_basis::read_basis;
use std::alloc::Global;
use tt_core::read_tables;

/// The formula of a size, or of the fence with this index, for tables and a basis in texts.
fn strong_formula(
    alloc: Global,
    tables: &[u8],
    basis: &[u8],
    r: u32,
    fence: Option<usize>,
) -> Option<Cnf> {
    if tables.len() > 1000 || r > 16 {
        return None;
    }
    let (Ok(read), Ok(basis)) = (read_tables(alloc, tables), read_basis(basis)) else {
        return None;
    };
    match fence {
        None => formula_by(alloc, &Strong, &read.spec, basis, r, 0),
        Some(which) => formula_by(alloc, &StrongFence, &read.spec, basis, r, which),
    }
}

/// The majority of the second input and the complements of the others.
const MAJORITY: &[u8] = b"inputs 3\n10110010\n";

/// Formulas of sizes and of fences, with the numbers of variables and clauses and the checksums of another program.
const SUMS: &[(&str, &[u8], &[u8], u32, Option<usize>, u32, usize, u32)] = &[
    ("one output", LIGHTS, b"all", 3, None, 157, 3721, 4048646189),
    (
        "first fence of one output",
        LIGHTS,
        b"all",
        3,
        Some(0),
        132,
        1829,
        1648785671,
    ),
    (
        "second fence of one output",
        LIGHTS,
        b"all",
        3,
        Some(1),
        142,
        2462,
        22478931,
    ),
    (
        "three outputs",
        THREE,
        b"0001,0110,1000",
        3,
        None,
        208,
        4659,
        1974526838,
    ),
    (
        "first fence of three outputs",
        THREE,
        b"0001,0110,1000",
        3,
        Some(0),
        183,
        2399,
        797026037,
    ),
    (
        "second fence of three outputs",
        THREE,
        b"0001,0110,1000",
        3,
        Some(1),
        182,
        2244,
        452681807,
    ),
    (
        "third fence of three outputs",
        THREE,
        b"0001,0110,1000",
        3,
        Some(2),
        193,
        3185,
        2099757771,
    ),
    (
        "inputs exchanged with complements",
        MAJORITY,
        b"all",
        3,
        None,
        88,
        1356,
        2480571824,
    ),
    (
        "the same in a fence",
        MAJORITY,
        b"all",
        3,
        Some(1),
        78,
        895,
        4198320329,
    ),
    (
        "no complements in the basis",
        MAJORITY,
        b"bench",
        3,
        None,
        88,
        1313,
        1989105324,
    ),
    ("NAND alone", XOR, b"nand", 4, None, 86, 1066, 717816366),
    (
        "third fence of NAND alone",
        XOR,
        b"nand",
        4,
        Some(2),
        70,
        568,
        2362236032,
    ),
];

#[test]
fn stronger_formulas_have_the_checksums_of_another_program(rt: HostRuntime) {
    for &(name, tables, basis, r, fence, vars, clauses, sum) in SUMS {
        let formula = strong_formula(rt.alloc(), tables, basis, r, fence);
        let alike = is_like(rt.alloc(), formula, vars, clauses, sum);
        assert!(rt; alike, "{name}");
    }
}

/// The chain that bits spell in the first subproblem of one step.
fn decoded(alloc: Global, case: &Case, in_fence: bool, bits: &[u8]) -> Option<Chain> {
    if case.tables.len() > 1000 {
        return None;
    }
    let (Ok(read), Ok(basis), Ok(bits)) = (
        read_tables(alloc, case.tables),
        read_basis(case.basis),
        bits_of(alloc, bits),
    ) else {
        return None;
    };
    let assign = Assign::new(bits);
    if in_fence {
        return decoded_by(alloc, &StrongFence, &read.spec, basis, &assign);
    }
    decoded_by(alloc, &Strong, &read.spec, basis, &assign)
}

/// XOR differs on all four edges: the last four bits say that its step does.
const BITS: &[u8] = b"0110101100011111";

#[test]
fn solutions_of_stronger_formulas_spell_their_chains(rt: HostRuntime) {
    for in_fence in [false, true] {
        let chain = decoded(rt.alloc(), &chains::XOR, in_fence, BITS);
        assert!(rt; is_chain_of(&chains::XOR, chain), "in a fence: {in_fence}");
    }
}
