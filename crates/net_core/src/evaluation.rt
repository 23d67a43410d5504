//! Simulation of a net under one assignment of its sources.

ghost use Rattle.std.specs.Prelude.{◌≡◌, ℕ, ◌+◌, ◌≤◌, ◌<◌, length};
ghost use Rattle.net_theory.specs.Net.{IsSigBelow, AreGates, bit_of, sig_value, values_of, value, end_of};

use crate::net::Net;
use net_theory::{Gate, Sig};

/// The value of a signal; `nodes` holds the bits of the nodes, node 1 first.
fn sig_bit(nodes: &[bool], sig: Sig) -> bool
    requires { IsSigBelow (length nodes.now + 1) sig }
    ensures { result ≡ sig_value (bit_of nodes.now) sig }
{
    match sig {
        Sig::Zero => false,
        Sig::One => true,
        Sig::Node(node) => nodes[node as usize - 1],
    }
}

/// Writes the bits of the sources.
fn sources_into(sources: &[bool], nodes: &mut [bool])
    requires { length sources.now ≤ length nodes.old }
    ensures { (p : ℕ) → p ≤ length sources.now → bit_of nodes.new p ≡ bit_of sources.now p }
{
    for i in 0..sources.len() {
        nodes[i] = sources[i];
    }
}

/// Writes the bit of each gate, in topological order.
fn gates_into(sources: usize, gates: &[Gate], nodes: &mut [bool])
    requires gates { AreGates sources gates.now }
    requires room { length nodes.old ≡ sources + length gates.now }
    ensures { bit_of nodes.new ≡ values_of (bit_of nodes.old) sources gates.now }
{
    let mut node = sources;
    let mut left = gates;
    while let Some((gate, rest)) = left.split_first() {
        let a = sig_bit(nodes, gate.a);
        let b = sig_bit(nodes, gate.b);
        nodes[node] = gate.op.apply(a, b);
        node += 1;
        left = rest;
    }
}

/// Simulates the net: writes the value of each node to `nodes`, node 1 first, where the sources have the bits
/// `sources`. Both slices have exactly one element per source, or per node.
pub fn values(net: &Net, sources: &[bool], nodes: &mut [bool])
    requires sources { length sources.now ≡ net.now.sources }
    requires nodes { length nodes.old ≡ net.now.sources + length net.now.gates }
    ensures { (p : ℕ) → 1 ≤ p → p < end_of net.now → bit_of nodes.new p ≡ value net.now (bit_of sources.now) p }
{
    sources_into(sources, nodes);
    gates_into(sources.len(), net.gates(), nodes);
}
