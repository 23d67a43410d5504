//! Moves over the graph of a net: pairs are shared, and polarities chosen so that the gates stay within a basis. No
//! contract states how many gates are left; the numbers are the least ones, derived by hand.

use bench_core::read_bench;
use cdcl_core::Cdcl;
use net_core::Net;
use op_basis::Basis;
use restructure::Moves;
use std::alloc::{AllocError, Global};

/// A smaller net by moves of little work, if they find one.
fn moved(alloc: Global, net: &Net, basis: Basis) -> Result<Option<Net>, AllocError> {
    let mut moves = Moves::new(alloc, net, basis, 1)?;
    moves.run(net, 100_000)?;
    moves.smaller::<Cdcl>(net, basis)
}

/// The number of gates that moves leave of a BENCH text, with operators of a basis; None where they leave it as it
/// is.
fn gates_left(alloc: Global, text: &str, basis: u16) -> Option<usize> {
    if text.len() > 1000 {
        return None;
    }
    let Ok(circuit) = read_bench(alloc, text.as_bytes()) else {
        return None;
    };
    match moved(alloc, &circuit.net, Basis::new(basis)) {
        Ok(Some(net)) => Some(net.gates().len()),
        Ok(None) => None,
        Err(_) => None,
    }
}

/// All operators, those of gates in BENCH, and NAND alone.
const ALL: u16 = 65_535;

const BENCH: u16 = 17_346;

const NAND: u16 = 16_384;

/// Netlists, the basis, and the number of gates that moves leave.
const MOVED: &[(&str, &str, u16, Option<usize>)] = &[
    (
        "parities of three share a pair",
        "INPUT(a)\nINPUT(b)\nINPUT(c)\nINPUT(d)\nOUTPUT(y)\nOUTPUT(z)\n\
            p = XOR(b, c)\ny = XOR(a, p)\nq = XOR(a, d)\nz = XOR(q, b)\n",
        ALL,
        Some(3),
    ),
    (
        "NANDs of three share a pair, which becomes an AND",
        "INPUT(a)\nINPUT(b)\nINPUT(c)\nINPUT(d)\nOUTPUT(y)\nOUTPUT(z)\n\
            p = NAND(b, c)\nq = NAND(p, p)\ny = NAND(a, q)\n\
            r = NAND(a, d)\nt = NAND(r, r)\nz = NAND(t, b)\n",
        BENCH,
        Some(3),
    ),
    (
        "a NOT after an AND goes into a NAND",
        "INPUT(a)\nINPUT(b)\nINPUT(c)\nOUTPUT(y)\np = AND(a, b)\nn = NOT(p)\ny = AND(n, c)\n",
        BENCH,
        Some(2),
    ),
    (
        "one NOT of an input stays",
        "INPUT(a)\nINPUT(b)\nOUTPUT(y)\nOUTPUT(z)\nn = NOT(a)\ny = AND(n, b)\n\
            m = NOT(a)\nz = NAND(b, m)\n",
        BENCH,
        Some(3),
    ),
    (
        "XOR by four NANDs stays over NAND",
        "INPUT(a)\nINPUT(b)\nOUTPUT(y)\nn = NAND(a, b)\np = NAND(a, n)\nq = NAND(b, n)\n\
            y = NAND(p, q)\n",
        NAND,
        None,
    ),
];

#[test]
fn moves_leave_the_fewest_gates_of_a_basis(rt: HostRuntime) {
    for &(name, text, basis, wanted) in MOVED {
        assert!(rt; gates_left(rt.alloc(), text, basis) == wanted, "{name}");
    }
}
