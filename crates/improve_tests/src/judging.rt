//! Nets that may replace another one, compared under all assignments, or by the miter of both.

use blif_core::{Circuit, read_blif};
use cdcl_core::Cdcl;
use move_check::judged;
use op_basis::Basis;
use std::alloc::Global;

/// The circuit of a short text.
fn circuit(alloc: Global, text: &[u8]) -> Option<Circuit> {
    if text.len() > 1000 {
        return None;
    }
    match read_blif(alloc, text) {
        Ok(circuit) => Some(circuit),
        Err(_) => None,
    }
}

/// The number of gates of a net that may replace the other one; None where it may not, or a text is no
/// netlist.
fn left(alloc: Global, net: &[u8], candidate: &[u8], basis: u16) -> Option<usize> {
    let net = circuit(alloc, net)?;
    let candidate = circuit(alloc, candidate)?;
    match judged::<Cdcl>(alloc, &net.net, &candidate.net, Basis::new(basis), 1000) {
        Ok(Some(better)) => Some(better.gates().len()),
        _ => None,
    }
}

/// XOR by three gates.
const LONG: &[u8] =
    b".inputs a b\n.outputs y\n.names a b p\n10 1\n.names a b q\n01 1\n.names p q y\n1- 1\n-1 1\n.end\n";

/// XOR by one gate, beside a dangling gate.
const SHORT: &[u8] =
    b".inputs a b\n.outputs y\n.names a b y\n10 1\n01 1\n.names a b p\n11 1\n.end\n";

/// OR.
const OTHER: &[u8] = b".inputs a b\n.outputs y\n.names a b y\n1- 1\n-1 1\n.end\n";

/// XOR by three gates of 13 inputs, too many to compare under all assignments.
const MANY: &[u8] =
    b".inputs a b c d e f g h i j k l m\n.outputs y\n.names a b p\n10 1\n.names a b q\n01 1\n.names p q y\n1- 1\n-1 1\n.end\n";

/// XOR by one gate.
const MANY_SHORT: &[u8] =
    b".inputs a b c d e f g h i j k l m\n.outputs y\n.names a b y\n10 1\n01 1\n.end\n";

/// OR.
const MANY_OTHER: &[u8] =
    b".inputs a b c d e f g h i j k l m\n.outputs y\n.names a b y\n1- 1\n-1 1\n.end\n";

/// A net, another one, the basis, and the number of gates if the other one may replace it.
const JUDGED: &[(&str, &[u8], &[u8], u16, Option<usize>)] = &[
    ("a smaller one", LONG, SHORT, 64, Some(1)),
    ("one beyond the basis", LONG, SHORT, 16_384, None),
    ("one that isn't equivalent", LONG, OTHER, 128, None),
    ("a larger one", SHORT, LONG, 65_535, None),
    ("a smaller one, by a miter", MANY, MANY_SHORT, 64, Some(1)),
    (
        "one that isn't equivalent, by a miter",
        MANY,
        MANY_OTHER,
        128,
        None,
    ),
];

#[test]
fn equivalent_nets_of_no_more_gates_may_replace_a_net(rt: HostRuntime) {
    for &(name, net, candidate, basis, wanted) in JUDGED {
        assert!(rt; left(rt.alloc(), net, candidate, basis) == wanted, "{name}");
    }
}
