//! The definitions of windows, computed plainly: by passes over all nodes of a net. A set of nodes is a word
//! with a bit for each node; all nets here have fewer than 64.

ghost use Rattle.std.specs.Prelude.{◌≡◌};
ghost use Rattle.net_theory.specs.Net.{end_of as end_of_net};

use net_core::{Gate, Net, Sig};

/// The gate at `node`, if there is one.
pub fn gate_of(net: &Net, node: u32) -> Option<&Gate> {
    let first = net.sources() + 1;
    if node < first {
        return None;
    }
    net.gates().get((node - first) as usize)
}

/// The first number after the nodes.
pub fn end_of(net: &Net) -> u32
    ensures { result ≡ end_of_net net.now }
{
    let sources = net.sources();
    sources + 1 + net.gates().len() as u32
}

/// The set with `node` alone.
pub fn only(node: u32) -> u64 {
    1u64 << (node % 64)
}

/// Whether `node` is in `nodes`.
pub fn has(nodes: u64, node: u32) -> bool {
    (nodes >> (node % 64)) & 1 == 1
}

/// The greatest node of a set; 0 if it is empty.
pub fn greatest(nodes: u64) -> u32 {
    63u32.saturating_sub(nodes.leading_zeros())
}

/// Whether `list` has the elements of `nodes`, ascending.
pub fn are(list: &[u32], nodes: u64) -> bool {
    let mut left = nodes;
    for node in list {
        if left == 0 || left.trailing_zeros() != *node {
            return false;
        }
        left &= left.wrapping_sub(1);
    }
    left == 0
}

/// The set with the node of a signal; empty for a constant.
fn node_of(sig: Sig) -> u64 {
    match sig {
        Sig::Node(node) => only(node),
        _ => 0,
    }
}

/// The fanins of the gate at `node`.
pub fn operands(net: &Net, node: u32) -> u64 {
    match gate_of(net, node) {
        Some(gate) => node_of(gate.a) | node_of(gate.b),
        None => 0,
    }
}

/// The gates of a net.
pub fn gates_of(net: &Net) -> u64 {
    let mut gates = 0;
    for node in net.sources() + 1..end_of(net) {
        gates |= only(node);
    }
    gates
}

/// The fanins of `gates`.
fn read_by(net: &Net, gates: u64) -> u64 {
    let mut read = 0;
    for node in 0..end_of(net) {
        if has(gates, node) {
            read |= operands(net, node);
        }
    }
    read
}

/// A window of `count` gates by greedy growth: again and again the greatest gate is taken that
/// isn't taken yet and is the root, the partner or a fanin of one that is. The empty set, if there
/// are too few.
pub fn taken(net: &Net, root: u32, partner: u64, count: u32) -> u64 {
    let gates = gates_of(net);
    let mut taken = 0;
    for _taken in 0..count {
        let next = (only(root) | partner | read_by(net, taken)) & gates & !taken;
        if next == 0 {
            return 0;
        }
        taken |= only(greatest(next));
    }
    taken
}

/// The inputs of `gates`.
pub fn inputs(net: &Net, gates: u64) -> u64 {
    read_by(net, gates) & !gates
}

/// The outputs of `gates`.
pub fn outputs(net: &Net, gates: u64) -> u64 {
    let mut seen = read_by(net, gates_of(net) & !gates);
    for sink in net.sinks() {
        seen |= node_of(*sink);
    }
    seen & gates
}

/// All partners of a root, without a bound: gates that share a fanin with it.
pub fn sharing(net: &Net, root: u32) -> u64 {
    let own = operands(net, root);
    let mut found = 0;
    for gate in 0..root {
        if operands(net, gate) & own != 0 {
            found |= only(gate);
        }
    }
    found
}
