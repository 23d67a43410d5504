//! The values of a net's sinks, by simulation.
ghost use Rattle.std.specs.Prelude.{◌≡◌, ◌↔◌, ℕ, ◌+◌, ◌≤◌, ◌<◌, map, length, All, IfOk, IsTrue};
ghost use Rattle.net_theory.specs.Net.{IsSigBelow, bit_of, sig_value, sink_values, value, end_of};

use net_core::{Net, Sig, values};
use std::alloc::{AllocError, Global};

/// The value of `sig`, given the values `nodes` of the nodes, node 1 first.
fn signal_bit(nodes: &[bool], sig: Sig) -> bool
    requires { IsSigBelow (length nodes.now + 1) sig }
    ensures { result ≡ sig_value (bit_of nodes.now) sig }
{
    match sig {
        Sig::Zero => false,
        Sig::One => true,
        Sig::Node(node) => nodes[node as usize - 1],
    }
}

/// The values of `signals`, given the values `nodes` of the nodes.
fn signal_bits(alloc: Global, nodes: &[bool], signals: &[Sig]) -> Result<Vec<bool>, AllocError>
    requires { All (IsSigBelow (length nodes.now + 1)) signals.now }
    ensures { IfOk result (λ bits. bits.items ≡ map (sig_value (bit_of nodes.now)) signals.now) }
{
    let mut bits = Vec::new(alloc);
    let mut left = signals;
    while let Some((signal, rest)) = left.split_first() {
        bits.push(signal_bit(nodes, *signal))?;
        left = rest;
    }
    Ok(bits)
}

/// The values of a net's nodes, node 1 first, given the values `sources` of the sources.
fn node_bits(alloc: Global, net: &Net, sources: &[bool]) -> Result<Vec<bool>, AllocError>
    requires { length sources.now ≡ net.now.sources }
    ensures long { IfOk result (λ bits. length bits.items + 1 ≡ end_of net.now) }
    ensures values { IfOk result (λ bits. (p : ℕ) → 1 ≤ p → p < end_of net.now →
        bit_of bits.items p ≡ value net.now (bit_of sources.now) p) }
{
    let count = net.sources() as usize + net.gates().len();
    let mut nodes = vec![in alloc; false; count]?;
    values(net, sources, &mut nodes);
    Ok(nodes)
}

/// The values of a net's sinks, given the values `sources` of the sources.
pub fn sink_bits(alloc: Global, net: &Net, sources: &[bool]) -> Result<Vec<bool>, AllocError>
    requires { length sources.now ≡ net.now.sources }
    ensures { IfOk result (λ bits. bits.items ≡ sink_values net.now (bit_of sources.now)) }
{
    let nodes = node_bits(alloc, net, sources)?;
    let bits = signal_bits(alloc, &nodes, net.sinks())?;
    Ok(bits)
}

/// Whether two bits are equal.
fn same_bit(first: bool, second: bool) -> bool
    ensures { IsTrue result ↔ (first ≡ second) }
{
    first == second
}

/// Whether two lists have the same bits.
pub fn same_bits(first: &[bool], second: &[bool]) -> bool
    ensures { IsTrue result ↔ (first.now ≡ second.now) }
{
    let mut left = first;
    let mut right = second;
    while let Some((bit, bits)) = left.split_first() {
        let Some((other, others)) = right.split_first() else {
            return false;
        };
        if !same_bit(*bit, *other) {
            return false;
        }
        left = bits;
        right = others;
    }
    right.is_empty()
}
