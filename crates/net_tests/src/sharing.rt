//! Tests of the sharing of pairs: how many gates it leaves. No contract states this. The counts were derived by
//! hand: they are the least ones of AND and XOR gates of two operands.

use crate::xags::{circuit, has_net};
use share_core::share;
use std::alloc::{AllocError, Global};
use xag_core::from_net;

/// Whether the graph of a netlist has `gates` gates, and sharing leaves `left` of them and the same values.
fn is_shared(alloc: Global, text: &str, gates: usize, left: usize) -> Result<bool, AllocError> {
    let Some(circuit) = circuit(alloc, text) else {
        return Ok(false);
    };
    let xag = from_net(alloc, &circuit.net, false)?;
    let shared = share(alloc, &xag)?;
    let counts = xag.gates().len() == gates && shared.gates().len() == left;
    Ok(counts && has_net(alloc, &circuit.net, &shared, left)?)
}

/// Netlists, the gates of their graphs, and those that sharing leaves.
const SHARED: &[(&str, &str, usize, usize)] = &[
    (
        "two ANDs of three with a common pair",
        "INPUT(a)\nINPUT(b)\nINPUT(c)\nINPUT(d)\nOUTPUT(y)\nOUTPUT(z)\n\
            p = AND(b, c)\ny = AND(a, p)\nq = AND(a, d)\nz = AND(q, b)\n",
        4,
        3,
    ),
    (
        "two NORs of three with a common pair",
        "INPUT(a)\nINPUT(b)\nINPUT(c)\nINPUT(d)\nOUTPUT(y)\nOUTPUT(z)\n\
            p = OR(b, c)\ny = NOR(a, p)\nq = OR(a, d)\nz = NOR(q, b)\n",
        4,
        3,
    ),
    (
        "two parities of three with a common pair, one of them complemented",
        "INPUT(a)\nINPUT(b)\nINPUT(c)\nINPUT(d)\nOUTPUT(y)\nOUTPUT(z)\n\
            p = XOR(b, c)\ny = XOR(a, p)\nq = XNOR(a, d)\nz = XOR(q, b)\n",
        4,
        3,
    ),
    (
        "two parities of four with three common operands",
        "INPUT(a)\nINPUT(b)\nINPUT(c)\nINPUT(d)\nINPUT(e)\nOUTPUT(y)\nOUTPUT(z)\n\
            p = XOR(a, b)\nq = XOR(c, d)\ny = XOR(p, q)\n\
            r = XOR(a, c)\nt = XOR(b, e)\nz = XOR(r, t)\n",
        6,
        4,
    ),
    (
        "a parity of six and one of four of its operands",
        "INPUT(a)\nINPUT(b)\nINPUT(c)\nINPUT(d)\nINPUT(e)\nINPUT(f)\nOUTPUT(y)\nOUTPUT(z)\n\
            p = XOR(a, b)\nq = XOR(p, e)\nr = XOR(q, c)\nt = XOR(r, f)\ny = XOR(t, d)\n\
            u = XOR(a, c)\nv = XOR(b, d)\nz = XOR(u, v)\n",
        8,
        5,
    ),
    (
        "two trees of the same AND",
        "INPUT(a)\nINPUT(b)\nINPUT(c)\nINPUT(d)\nOUTPUT(y)\nOUTPUT(z)\n\
            p = AND(a, b)\nq = AND(c, d)\ny = AND(p, q)\n\
            r = AND(a, c)\nt = AND(r, b)\nz = AND(t, d)\n",
        6,
        3,
    ),
    (
        "a repeated operand of an AND, and one that cancels in an XOR",
        "INPUT(a)\nINPUT(b)\nINPUT(c)\nOUTPUT(y)\nOUTPUT(z)\n\
            p = AND(a, b)\nq = AND(a, c)\ny = AND(p, q)\n\
            r = XOR(a, b)\nt = XOR(a, c)\nz = XOR(r, t)\n",
        6,
        3,
    ),
    (
        "a two-bit adder has nothing to share",
        "INPUT(a)\nINPUT(b)\nINPUT(c)\nINPUT(d)\nOUTPUT(s)\nOUTPUT(t)\nOUTPUT(k)\n\
            s = XOR(a, c)\ng = AND(a, c)\np = XOR(b, d)\nt = XOR(p, g)\n\
            h = AND(b, d)\ni = AND(p, g)\nk = OR(h, i)\n",
        7,
        7,
    ),
];

#[test]
fn pairs_of_operands_are_shared(rt: HostRuntime) {
    for &(name, text, gates, left) in SHARED {
        let shared = is_shared(rt.alloc(), text, gates, left);
        assert!(rt; matches!(shared, Ok(true)), "{name}");
    }
}
