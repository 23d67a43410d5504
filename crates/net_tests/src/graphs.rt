//! Tests of topological orders of graphs.

use graph_core::{Fanins, visit_all};
use std::alloc::{AllocError, Global};

/// The fanins of the nodes of a graph.
fn fanins_of(alloc: Global, graph: &[&[u32]]) -> Result<Vec<Fanins>, AllocError> {
    let mut reads = Vec::new(alloc);
    for nodes in graph {
        reads.push(Fanins::new(Vec::from_slice(alloc, nodes)?))?;
    }
    Ok(reads)
}

/// Whether the graph has the topological order `order`; None means that a node is on a cycle.
fn is_ordered(alloc: Global, graph: &[&[u32]], order: Option<&[u32]>) -> Result<bool, AllocError> {
    let reads = fanins_of(alloc, graph)?;
    if reads.len() > 8 {
        return Ok(false);
    }
    match visit_all(alloc, &reads)? {
        Some(nodes) => Ok(order == Some(nodes.as_slice())),
        None => Ok(order.is_none()),
    }
}

/// Graphs by the fanins of each node, and their orders.
const GRAPHS: &[(&str, &[&[u32]], Option<&[u32]>)] = &[
    ("a chain", &[&[1], &[2], &[]], Some(&[2, 1, 0])),
    (
        "a node with two fanouts",
        &[&[2, 1], &[], &[1]],
        Some(&[1, 2, 0]),
    ),
    ("a cycle", &[&[1], &[0]], None),
    ("no node", &[], Some(&[])),
];

#[test]
fn fanins_come_first_unless_there_is_a_cycle(rt: HostRuntime) {
    for &(name, graph, order) in GRAPHS {
        let ordered = is_ordered(rt.alloc(), graph, order);
        assert!(rt; matches!(ordered, Ok(true)), "{name}");
    }
}
