//! Simulation of two nets: the first sink at which they differ for given values of the sources.
ghost use Rattle.std.specs.Prelude.{◌≡◌, ◌≢◌, ℕ, ◌+◌, ◌≤◌, ◌<◌, false, map, length, slice_index_or, All, IfOk};
ghost use Rattle.std.specs.Prelude.{IfSome};
ghost use Rattle.std.specs.Prelude.{IfNone};
ghost use Rattle.net_theory.specs.Net.{IsSigBelow, bit_of, sig_value, sink_values, value, end_of};
ghost use Rattle.equiv_theory.specs.Counterexample.{AreComparable, DifferAt, DifferFirstAt};

use net_core::{Net, Sig, values};
use std::alloc::{AllocError, Global};

/// The value of `sig`, given the values `nodes` of the nodes, node 1 first.
fn signal_bit(nodes: &[bool], sig: Sig) -> bool
    requires { IsSigBelow (length nodes.now + 1) sig }
    ensures { result ≡ sig_value (bit_of nodes.now) sig }
{
    match sig {
        Sig::Zero => false,
        Sig::One => true,
        Sig::Node(node) => nodes[node as usize - 1],
    }
}

/// The values of `signals`, given the values `nodes` of the nodes.
fn signal_bits(alloc: Global, nodes: &[bool], signals: &[Sig]) -> Result<Vec<bool>, AllocError>
    requires { All (IsSigBelow (length nodes.now + 1)) signals.now }
    ensures { IfOk result (λ bits. bits.items ≡ map (sig_value (bit_of nodes.now)) signals.now) }
{
    let mut bits = Vec::new(alloc);
    let mut left = signals;
    while let Some((signal, rest)) = left.split_first() {
        bits.push(signal_bit(nodes, *signal))?;
        left = rest;
    }
    Ok(bits)
}

/// The values of a net's nodes, node 1 first, given the values `sources` of the sources.
fn node_bits(alloc: Global, net: &Net, sources: &[bool]) -> Result<Vec<bool>, AllocError>
    requires { length sources.now ≡ net.now.sources }
    ensures long { IfOk result (λ bits. length bits.items + 1 ≡ end_of net.now) }
    ensures values { IfOk result (λ bits. (p : ℕ) → 1 ≤ p → p < end_of net.now →
        bit_of bits.items p ≡ value net.now (bit_of sources.now) p) }
{
    let count = net.sources() as usize + net.gates().len();
    let mut nodes = vec![in alloc; false; count]?;
    values(net, sources, &mut nodes);
    Ok(nodes)
}

/// The values of a net's sinks, given the values `sources` of the sources.
fn sink_bits(alloc: Global, net: &Net, sources: &[bool]) -> Result<Vec<bool>, AllocError>
    requires { length sources.now ≡ net.now.sources }
    ensures { IfOk result (λ bits. bits.items ≡ sink_values net.now (bit_of sources.now)) }
{
    let nodes = node_bits(alloc, net, sources)?;
    let bits = signal_bits(alloc, &nodes, net.sinks())?;
    Ok(bits)
}

/// The first index at which two lists of equal length differ.
fn first_other(first: &[bool], second: &[bool]) -> Option<usize>
    requires { length first.now ≡ length second.now }
    ensures below { IfSome result (λ i. i < length first.now) }
    ensures other { IfSome result (λ i. slice_index_or first.now i false ≢ slice_index_or second.now i false) }
    ensures least { IfSome result (λ i. (j : ℕ) → j < i →
        slice_index_or first.now j false ≡ slice_index_or second.now j false) }
    ensures same { IfNone result ((j : ℕ) → j < length first.now →
        slice_index_or first.now j false ≡ slice_index_or second.now j false) }
{
    for i in 0..first.len() {
        if first[i] != second[i] {
            return Some(i);
        }
    }
    None
}

/// The first sink, counted from 0, whose values in the two nets differ, given the values `sources` of the sources.
#[tactic(auto, // for the prover
using(crate::specs::SinkLaws::found_first, crate::specs::SinkLaws::found_none, crate::specs::SinkLaws::sinks_long))]
pub(crate) fn first_difference(
    alloc: Global,
    first: &Net,
    second: &Net,
    sources: &[bool],
) -> Result<Option<usize>, AllocError>
    requires comparable { AreComparable first.now second.now }
    requires sources { length sources.now ≡ first.now.sources }
    ensures differ { IfOk result (λ x. IfSome x (DifferFirstAt first.now second.now (bit_of sources.now))) }
    ensures same { IfOk result (λ x. IfNone x ((i : ℕ) → DifferAt first.now second.now (bit_of sources.now) i → ⊥)) }
{
    let ones = sink_bits(alloc, first, sources)?;
    let others = sink_bits(alloc, second, sources)?;
    Ok(first_other(&ones, &others))
}
