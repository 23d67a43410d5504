//! Tests of XAGs: how many gates a netlist has as a graph, and as the net made of that. No contract states this.
//! The counts were derived by hand.

use crate::tables::digit;
use bench_core::read_bench;
use net_core::{Circuit, Net, values};
use std::alloc::{AllocError, Global};
use xag_core::{Xag, from_net, into_net};

/// The circuit of a BENCH text.
pub fn circuit(alloc: Global, text: &str) -> Option<Circuit> {
    if text.len() > 1000 {
        return None;
    }
    match read_bench(alloc, text.as_bytes()) {
        Ok(circuit) => Some(circuit),
        Err(error) => {
            drop(error);
            None
        }
    }
}

/// The values of the sinks of a net, as digits, where the bits of `row` are the values of the sources.
fn sink_values(alloc: Global, net: &Net, row: u32) -> Result<Vec<u8>, AllocError> {
    let mut digits = Vec::new(alloc);
    let mut bits = vec![in alloc; false; net.sources() as usize]?;
    for (index, bit) in bits.iter_mut().enumerate() {
        *bit = (row >> (index % 32)) & 1 == 1;
    }
    let mut nodes = vec![in alloc; false; net.sources() as usize + net.gates().len()]?;
    values(net, &bits, &mut nodes);
    for sink in net.sinks() {
        digits.push(digit(*sink, &nodes))?;
    }
    Ok(digits)
}

/// Whether two nets have the same values under all assignments; false for nets of more than six sources.
fn are_equivalent(alloc: Global, net: &Net, other: &Net) -> Result<bool, AllocError> {
    if net.sources() > 6 || other.sources() != net.sources() {
        return Ok(false);
    }
    for row in 0..64u32 {
        if sink_values(alloc, net, row)? != sink_values(alloc, other, row)? {
            return Ok(false);
        }
    }
    Ok(true)
}

/// Whether the net of a graph has `gates` gates, and the values of the net `net`.
pub fn has_net(alloc: Global, net: &Net, xag: &Xag, gates: usize) -> Result<bool, AllocError> {
    let made = into_net(alloc, xag)?;
    Ok(made.gates().len() == gates && are_equivalent(alloc, net, &made)?)
}

/// Whether a netlist becomes a graph of `gates` gates, and that a net of `left` gates.
fn is_converted(alloc: Global, text: &str, gates: usize, left: usize) -> Result<bool, AllocError> {
    let Some(circuit) = circuit(alloc, text) else {
        return Ok(false);
    };
    let xag = from_net(alloc, &circuit.net, false)?;
    Ok(xag.gates().len() == gates && has_net(alloc, &circuit.net, &xag, left)?)
}

/// Netlists, the gates of their graphs, and those of the nets made of these.
const CONVERTED: &[(&str, &str, usize, usize)] = &[
    (
        "a NOT is an edge of the graph",
        "INPUT(a)\nOUTPUT(y)\ny = NOT(a)\n",
        0,
        1,
    ),
    (
        "AND, NAND and XOR, XNOR share their gates",
        "INPUT(a)\nINPUT(b)\nOUTPUT(w)\nOUTPUT(x)\nOUTPUT(y)\nOUTPUT(z)\n\
            w = AND(a, b)\nx = NAND(b, a)\ny = XOR(a, b)\nz = XNOR(b, a)\n",
        2,
        4,
    ),
    (
        "NOR and AND of complements are one gate",
        "INPUT(a)\nINPUT(b)\nOUTPUT(y)\nOUTPUT(z)\ny = NOR(a, b)\n\
            n = NOT(a)\nm = NOT(b)\nz = AND(n, m)\n",
        1,
        1,
    ),
    (
        "constants and dangling gates go",
        "INPUT(a)\nINPUT(b)\nOUTPUT(x)\nOUTPUT(y)\nOUTPUT(z)\nn = NOT(a)\nd = XOR(a, b)\n\
            x = AND(a, n)\ny = OR(a, n)\nz = XOR(a, x)\n",
        0,
        0,
    ),
    (
        "a full adder",
        "INPUT(a)\nINPUT(b)\nINPUT(c)\nOUTPUT(s)\nOUTPUT(k)\np = XOR(a, b)\ns = XOR(p, c)\n\
            q = AND(a, b)\nr = AND(p, c)\nk = OR(q, r)\n",
        5,
        5,
    ),
    (
        "two multiplexers with a common product",
        "INPUT(s)\nINPUT(a)\nINPUT(b)\nINPUT(c)\nOUTPUT(y)\nOUTPUT(z)\nn = NOT(s)\n\
            p = AND(s, a)\nq = AND(n, b)\ny = OR(p, q)\n\
            r = NAND(a, s)\nt = NAND(n, c)\nz = NAND(r, t)\n",
        5,
        5,
    ),
    (
        "XOR by four NANDs isn't recognized",
        "INPUT(a)\nINPUT(b)\nOUTPUT(y)\nn = NAND(a, b)\np = NAND(a, n)\nq = NAND(b, n)\n\
            y = NAND(p, q)\n",
        4,
        4,
    ),
];

#[test]
fn netlists_become_xags_without_nots_and_equal_gates(rt: HostRuntime) {
    for &(name, text, gates, left) in CONVERTED {
        let converted = is_converted(rt.alloc(), text, gates, left);
        assert!(rt; matches!(converted, Ok(true)), "{name}");
    }
}
