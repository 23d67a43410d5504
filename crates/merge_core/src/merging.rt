//! The pass over the gates. `nodes` maps each old node to its new signal. The hash table holds the keys of the
//! kept gates in insertion order, so that the index of a key is the index of its gate.
ghost use Rattle.std.specs.Prelude.{◌≡◌, ◌+◌, ◌≤◌, ◌<◌, ◌^◌, length, IfOk, OnOk, vec_len};
ghost use Rattle.net_theory.specs.Net.{IsGateAt, end_of};
ghost use Rattle.net_theory.specs.Implements.{Implements};
ghost use Rattle.net_theory.specs.Moving.{sources_stay};
ghost use Rattle.net_core.specs.Marks.{nodes_of, kept};
ghost use Rattle.merge_core.specs.Merging.{HaveDistinctKeys, AreKeys, HaveOperatorsOf, IsFoundOrAppended};
ghost use Rattle.merge_core.specs.Merging.{IsStrashStep};
ghost use Rattle.merge_core.specs.Merging.{IsMerged};

use crate::key::{StrashKey, key_of};
use indexmap::IndexSet;
use net_core::{Gate, Net, Sig, moved, moved_sinks, start_nodes};
use std::alloc::{AllocError, Global};

/// The index of the gate with the key of `gate`, which is appended if there is none.
fn index_of(
    gate: &Gate,
    keys: &mut IndexSet<StrashKey>,
    gates: &mut Vec<Gate>,
) -> Result<u32, AllocError>
    requires keys { AreKeys keys.old.keys gates.old.items }
    requires room { vec_len gates.old < 2 ^ 31 }
    ensures keys { OnOk result (AreKeys keys.new.keys gates.new.items) }
    ensures put { IfOk result (λ index. IsFoundOrAppended gate.now gates.old.items gates.new.items index) }
{
    let (index, is_new) = keys.insert_full(key_of(gate))?;
    if !is_new {
        return Ok(index as u32);
    }
    gates.push(*gate)?;
    Ok(index as u32)
}

/// Merges the gate `node`: with its operands mapped it is appended, or its node is mapped to the structurally
/// equal gate.
fn merge_gate(
    sources: u32,
    node: usize,
    gate: &Gate,
    keys: &mut IndexSet<StrashKey>,
    gates: &mut Vec<Gate>,
    nodes: &mut [Sig],
) -> Result<(), AllocError>
    requires gate { IsGateAt node gate.now }
    requires within { node < length nodes.old }
    requires room { sources + 1 + vec_len gates.old ≤ node }
    requires small { node < 2 ^ 31 }
    requires keys { AreKeys keys.old.keys gates.old.items }
    ensures keys { OnOk result (AreKeys keys.new.keys gates.new.items) }
    ensures step { OnOk result (IsStrashStep sources node gate.now (kept nodes.old gates.old.items)
        (kept nodes.new gates.new.items)) }
{
    let moved = Gate {
        op: gate.op,
        a: moved(nodes, gate.a),
        b: moved(nodes, gate.b),
    };
    let index = index_of(&moved, keys, gates)?;
    nodes[node] = Sig::Node(sources + 1 + index);
    Ok(())
}

/// Merges the gates of a net in order and maps their nodes.
fn merge_gates(alloc: Global, net: &Net, nodes: &mut [Sig]) -> Result<Vec<Gate>, AllocError>
    requires start { nodes_of nodes.old ≡ sources_stay net.now.sources }
    requires count { length nodes.old ≡ end_of net.now }
    ensures merged { IfOk result (λ gates. IsMerged net.now (end_of net.now) (kept nodes.new gates.items)) }
    ensures apart { IfOk result (λ gates. HaveDistinctKeys gates.items) }
{
    let sources = net.sources();
    let mut keys = IndexSet::new(alloc);
    let mut gates = Vec::new(alloc);
    let mut node = sources as usize + 1;
    let mut left = net.gates();
    while let Some((gate, rest)) = left.split_first() {
        merge_gate(sources, node, gate, &mut keys, &mut gates, nodes)?;
        node += 1;
        left = rest;
    }
    Ok(gates)
}

/// The net of the kept gates, with the sinks mapped.
fn merge_in(alloc: Global, net: &Net, nodes: &mut [Sig]) -> Result<Net, AllocError>
    requires start { nodes_of nodes.old ≡ sources_stay net.now.sources }
    requires count { length nodes.old ≡ end_of net.now }
    ensures implements { IfOk result (Implements net.now) }
    ensures operators { IfOk result (λ merged. HaveOperatorsOf net.now merged.gates) }
    ensures apart { IfOk result (λ merged. HaveDistinctKeys merged.gates) }
{
    let gates = merge_gates(alloc, net, nodes)?;
    let sinks = moved_sinks(alloc, nodes, net.sinks())?;
    Ok(Net::new(net.sources(), gates, sinks))
}

/// Structural hashing: of structurally equal gates the first is kept, and the fanouts of the others read it
/// instead.
///
/// The result implements the net, and each of its gates has the operator of a gate of the net.
pub fn strash(alloc: Global, net: &Net) -> Result<Net, AllocError>
    ensures implements { IfOk result (Implements net.now) }
    ensures operators { IfOk result (λ merged. HaveOperatorsOf net.now merged.gates) }
    ensures apart { IfOk result (λ merged. HaveDistinctKeys merged.gates) }
{
    let sources = net.sources();
    let count = sources + 1 + net.gates().len() as u32;
    let mut nodes = start_nodes(alloc, sources, count)?;
    merge_in(alloc, net, &mut nodes)
}
