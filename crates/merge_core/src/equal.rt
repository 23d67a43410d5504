//! The pass over the gates. `nodes` maps each old node to its new signal.
ghost use Rattle.std.specs.Prelude.{◌≡◌, ◌+◌, ◌≤◌, ◌<◌, ◌^◌, length, IfOk, OnOk, IfSome, vec_len};
ghost use Rattle.net_theory.specs.Net.{IsSigBelow, IsGateAt, end_of};
ghost use Rattle.net_theory.specs.Implements.{Implements};
ghost use Rattle.net_theory.specs.Moving.{sources_stay};
ghost use Rattle.net_core.specs.Marks.{nodes_of, kept};
ghost use Rattle.merge_core.specs.Merging.{HaveOperatorsOf, IsMerged};
ghost use Rattle.merge_core.specs.Reduction.{reduced};
ghost use Rattle.merge_core.specs.Representatives.{AreRepresentatives};

use crate::representatives::representatives_of;
use net_core::{Gate, Net, Sig, moved, moved_sinks, start_nodes};
use std::alloc::{AllocError, Global};

/// Handles the gate `node`: its node is mapped to the new signal of its representative, or else the gate is
/// appended with its operands mapped.
fn reduce_gate(
    sources: u32,
    node: usize,
    gate: &Gate,
    representative: Option<Sig>,
    nodes: &mut [Sig],
    gates: &mut Vec<Gate>,
) -> Result<(), AllocError>
    requires gate { IsGateAt node gate.now }
    requires representative { IfSome representative (IsSigBelow node) }
    requires within { node < length nodes.old }
    requires room { sources + 1 + vec_len gates.old ≤ node }
    requires small { node < 2 ^ 31 }
    ensures reduced { OnOk result (kept nodes.new gates.new.items ≡
        reduced sources (kept nodes.old gates.old.items) node gate.now representative) }
    ensures count { length nodes.new ≡ length nodes.old }
{
    match representative {
        Some(sig) => {
            nodes[node] = moved(nodes, sig);
        }
        None => {
            let next = Sig::Node(sources + 1 + gates.len() as u32);
            gates.push(Gate {
                op: gate.op,
                a: moved(nodes, gate.a),
                b: moved(nodes, gate.b),
            })?;
            nodes[node] = next;
        }
    }
    Ok(())
}

/// Handles the gates of a net in order and maps their nodes.
fn reduce_gates(
    alloc: Global,
    net: &Net,
    representatives: &[Option<Sig>],
    nodes: &mut [Sig],
) -> Result<Vec<Gate>, AllocError>
    requires representatives { AreRepresentatives net.now representatives.now }
    requires start { nodes_of nodes.old ≡ sources_stay net.now.sources }
    requires count { length nodes.old ≡ end_of net.now }
    ensures { IfOk result (λ gates. IsMerged net.now (end_of net.now) (kept nodes.new gates.items)) }
{
    let sources = net.sources();
    let mut gates = Vec::new(alloc);
    let mut node = sources as usize + 1;
    let mut left = net.gates();
    while let Some((gate, rest)) = left.split_first() {
        reduce_gate(
            sources,
            node,
            gate,
            representatives[node],
            nodes,
            &mut gates,
        )?;
        node += 1;
        left = rest;
    }
    Ok(gates)
}

/// The net of the kept gates, with the sinks mapped.
fn reduce_in(
    alloc: Global,
    net: &Net,
    representatives: &[Option<Sig>],
    nodes: &mut [Sig],
) -> Result<Net, AllocError>
    requires representatives { AreRepresentatives net.now representatives.now }
    requires start { nodes_of nodes.old ≡ sources_stay net.now.sources }
    requires count { length nodes.old ≡ end_of net.now }
    ensures implements { IfOk result (Implements net.now) }
    ensures operators { IfOk result (λ merged. HaveOperatorsOf net.now merged.gates) }
{
    let gates = reduce_gates(alloc, net, representatives, nodes)?;
    let sinks = moved_sinks(alloc, nodes, net.sinks())?;
    Ok(Net::new(net.sources(), gates, sinks))
}

/// Functional reduction: of functionally equal nodes the first is kept, and the fanouts of the others read it
/// instead, or a constant with that value. A collision of hashes may leave two equal nodes. A net of more than 12
/// sources is copied unchanged.
///
/// The result implements the net, and each of its gates has the operator of a gate of the net.
pub fn functional_reduction(alloc: Global, net: &Net) -> Result<Net, AllocError>
    ensures implements { IfOk result (Implements net.now) }
    ensures operators { IfOk result (λ merged. HaveOperatorsOf net.now merged.gates) }
{
    let representatives = representatives_of(alloc, net)?;
    let sources = net.sources();
    let count = sources + 1 + net.gates().len() as u32;
    let mut nodes = start_nodes(alloc, sources, count)?;
    reduce_in(alloc, net, &representatives, &mut nodes)
}
