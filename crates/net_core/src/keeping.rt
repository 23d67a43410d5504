//! Copying the marked gates of a net, in order: `nodes` maps each old node to its new signal, and each marked
//! gate is appended with its operands mapped.

ghost use Rattle.std.specs.Prelude.{◌≡◌, ◌+◌, ◌<◌, ◌^◌, length, map, All, OnOk, IfOk, vec_len};
ghost use Rattle.net_theory.specs.Net.{IsSigBelow, IsGateAt};
ghost use Rattle.net_theory.specs.Moving.{sources_stay, moved as moved_of, with_kept, kept_after, marked_count};
ghost use Rattle.net_core.specs.Marks.{set_of, nodes_of, kept, AreAt};

use net_theory::{Gate, Sig};
use std::alloc::{AllocError, Global};

/// Maps an old signal to its new one; constants stay.
pub fn moved(nodes: &[Sig], sig: Sig) -> Sig
    requires { IsSigBelow (length nodes.now) sig }
    ensures { result ≡ moved_of (nodes_of nodes.now) sig }
{
    match sig {
        Sig::Node(node) => nodes[node as usize],
        _ => sig,
    }
}

/// Copies the gate `node`.
fn keep_gate(
    sources: u32,
    node: usize,
    gate: &Gate,
    nodes: &mut [Sig],
    gates: &mut Vec<Gate>,
) -> Result<(), AllocError>
    requires gate { IsGateAt node gate.now }
    requires within { node < length nodes.old }
    requires room { sources + vec_len gates.old < 2 ^ 31 }
    ensures kept { OnOk result (kept nodes.new gates.new.items ≡
        with_kept sources (kept nodes.old gates.old.items) node gate.now) }
    ensures count { OnOk result (vec_len gates.new ≡ vec_len gates.old + 1) }
{
    let next = Sig::Node(sources + 1 + gates.len() as u32);
    gates.push(Gate {
        op: gate.op,
        a: moved(nodes, gate.a),
        b: moved(nodes, gate.b),
    })?;
    nodes[node] = next;
    Ok(())
}

/// Appends copies of the marked gates to `new`, in order. The first gate is the node `first`; `nodes` maps all
/// nodes below it, and gets the new nodes of the copied gates.
pub fn keep_gates(
    sources: u32,
    marks: &[bool],
    first: usize,
    gates: &[Gate],
    nodes: &mut [Sig],
    new: &mut Vec<Gate>,
) -> Result<(), AllocError>
    requires gates { AreAt first gates.now }
    requires marks { length marks.now ≡ first + length gates.now }
    requires nodes { length nodes.old ≡ first + length gates.now }
    requires room { sources + vec_len new.old + marked_count (set_of marks.now) first gates.now < 2 ^ 31 }
    ensures { OnOk result (kept nodes.new new.new.items ≡
        kept_after (set_of marks.now) sources (kept nodes.old new.old.items) first gates.now) }
{
    let mut node = first;
    let mut left = gates;
    while let Some((gate, rest)) = left.split_first() {
        if marks[node] {
            keep_gate(sources, node, gate, nodes, new)?;
            node += 1;
            left = rest;
            continue;
        }
        node += 1;
        left = rest;
    }
    Ok(())
}

/// The new signal of a node before any gate is copied: a source keeps its node.
fn start_node(sources: u32, node: u32) -> Sig
    ensures { result ≡ sources_stay sources node }
{
    if node <= sources {
        Sig::Node(node)
    } else {
        Sig::Zero
    }
}

/// The map of `count` nodes before any gate is copied: sources keep their nodes.
pub fn start_nodes(alloc: Global, sources: u32, count: u32) -> Result<Vec<Sig>, AllocError>
    requires { sources < count }
    ensures nodes { IfOk result (λ nodes. nodes_of nodes.items ≡ sources_stay sources) }
    ensures count { IfOk result (λ nodes. vec_len nodes ≡ count) }
{
    let mut nodes = Vec::new(alloc);
    for node in 0..count {
        nodes.push(start_node(sources, node))?;
    }
    Ok(nodes)
}

/// The new signals of the sinks.
pub fn moved_sinks(alloc: Global, nodes: &[Sig], sinks: &[Sig]) -> Result<Vec<Sig>, AllocError>
    requires { All (IsSigBelow (length nodes.now)) sinks.now }
    ensures { IfOk result (λ new. new.items ≡ map (moved_of (nodes_of nodes.now)) sinks.now) }
{
    let mut new = Vec::new(alloc);
    for sink in sinks {
        new.push(moved(nodes, *sink))?;
    }
    Ok(new)
}
