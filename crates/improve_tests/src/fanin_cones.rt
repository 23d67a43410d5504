//! Leaves, care rows and values of nodes of a net, computed plainly: by simulation of the whole net under one
//! assignment after the other.

use crate::plain::{end_of, gate_of, gates_of, greatest, has, inputs, only, operands, outputs};
use net_core::{Net, Sig};

/// The bit of a signal, where `ones` are the nodes whose bit is 1.
pub fn bit_of(ones: u64, sig: Sig) -> bool {
    match sig {
        Sig::Zero => false,
        Sig::One => true,
        Sig::Node(node) => has(ones, node),
    }
}

/// The bit of a gate, where `ones` are the nodes whose bit is 1; 0 where no gate is at `node`.
fn gate_bit(net: &Net, ones: u64, node: u32) -> bool {
    match gate_of(net, node) {
        Some(gate) => gate.op.apply(bit_of(ones, gate.a), bit_of(ones, gate.b)),
        None => false,
    }
}

/// The nodes whose bit is 1, where those of `given` have their bit in `ones`; other sources are 0.
pub fn values(net: &Net, given: u64, ones: u64) -> u64 {
    let mut all = ones;
    for node in 0..end_of(net) {
        if !has(given, node) && gate_bit(net, all, node) {
            all |= only(node);
        }
    }
    all
}

/// The leaves of the fanin cone of `nodes`: the greatest leaf that is a gate is expanded again and again, as
/// long as there are at most twelve.
pub fn leaves(net: &Net, nodes: u64) -> u64 {
    let gates = gates_of(net);
    let mut leaves = nodes;
    for _node in 0..end_of(net) {
        let gate = greatest(leaves & gates);
        let next = (leaves & !only(gate)) | operands(net, gate);
        if gate == 0 || next.count_ones() > 12 {
            break;
        }
        leaves = next;
    }
    leaves
}

/// The number of rows of `nodes`.
pub fn rows_of(nodes: u64) -> u32 {
    1u32 << (nodes.count_ones() % 32)
}

/// The nodes to which `row` gives 1; the last node has the last bit.
pub fn ones_of(nodes: u64, row: u32) -> u64 {
    let mut ones = 0;
    let mut digits = u64::from(row);
    for back in 0..64u32 {
        let node = 63 - back;
        if !has(nodes, node) {
            continue;
        }
        ones |= (digits % 2) << node;
        digits /= 2;
    }
    ones
}

/// The row of `nodes`, where `ones` are the nodes whose bit is 1.
pub fn row_of(ones: u64, nodes: u64) -> u32 {
    let mut row = 0u32;
    for node in 0..64u32 {
        if !has(nodes, node) {
            continue;
        }
        row = row.wrapping_mul(2).wrapping_add(u32::from(has(ones, node)));
    }
    row
}

/// The care rows of `nodes`, a bit for each.
pub fn care_rows(net: &Net, nodes: u64) -> u64 {
    let leaves = leaves(net, nodes);
    let mut care = 0;
    for row in 0..rows_of(leaves) {
        let ones = values(net, leaves, ones_of(leaves, row));
        care |= only(row_of(ones, nodes));
    }
    care
}

/// The rows of the inputs on which an output is 1, a bit for each.
fn on_rows(net: &Net, inputs: u64, output: u32) -> u64 {
    let mut on = 0;
    for row in 0..rows_of(inputs) {
        if has(values(net, inputs, ones_of(inputs, row)), output) {
            on |= only(row);
        }
    }
    on
}

/// Whether `on` are the values of the outputs of `gates` on the rows `rows`.
fn are_values(net: &Net, gates: u64, rows: u64, on: &[u64]) -> bool {
    let mut left = outputs(net, gates);
    for word in on {
        let output = left.trailing_zeros();
        if left == 0 || *word != on_rows(net, inputs(net, gates), output) & rows {
            return false;
        }
        left &= left.wrapping_sub(1);
    }
    left == 0
}

/// Whether `on` are the values of the outputs of `gates` on the rows `rows`, and `care` these rows.
pub fn are_words(net: &Net, gates: u64, rows: u64, on: &[u64], care: &[u64]) -> bool {
    for word in care {
        if *word != rows {
            return false;
        }
    }
    on.len() == care.len() && are_values(net, gates, rows, on)
}
