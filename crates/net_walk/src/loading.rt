//! Graphs that change in place, from graphs that don't, and back.

use crate::fanouts::small;
use crate::graph::Graph;
use crate::marks::Marks;
use rows::{at, put};
use std::alloc::{AllocError, Global};
use xag_core::{Builder, Xag};

/// The literal of an old one, by the literals of the nodes.
pub fn moved(literals: &[u32], literal: u32) -> u32 {
    at(literals, literal >> 1) ^ (literal & 1)
}

/// The literals of the constant and the sources.
fn given_literals(alloc: Global, sources: u32) -> Result<Vec<u32>, AllocError> {
    let mut literals = Vec::with_capacity(alloc, (sources as usize).saturating_add(1))?;
    for node in 0..=sources {
        literals.push(node.wrapping_mul(2))?;
    }
    Ok(literals)
}

/// Lets the sinks read literals.
fn set_sinks(graph: &mut Graph, xag: &Xag, literals: &[u32]) {
    let mut node = graph.sink_node(0);
    for sink in xag.sinks() {
        graph.set_sink(node, moved(literals, *sink));
        node = node.saturating_add(1);
    }
}

/// Removes gates that nothing reads.
pub fn remove_dangling(alloc: Global, graph: &mut Graph) -> Result<(), AllocError> {
    let gates = Vec::from_slice(alloc, graph.live())?;
    for node in &gates {
        graph.remove(*node)?;
    }
    Ok(())
}

/// The graph as one that changes in place.
pub fn load(alloc: Global, xag: &Xag) -> Result<Graph, AllocError> {
    let sinks = small(xag.sinks().len());
    let mut graph = Graph::new(alloc, xag.sources(), sinks)?;
    let nothing = Marks::new(alloc);
    let mut literals = given_literals(alloc, xag.sources())?;
    for gate in xag.gates() {
        let first = moved(&literals, gate.first);
        let second = moved(&literals, gate.second);
        let literal = graph.create(first, second, gate.is_xor, &nothing)?;
        literals.push(literal)?;
    }
    set_sinks(&mut graph, xag, &literals);
    remove_dangling(alloc, &mut graph)?;
    Ok(graph)
}

/// The gates in topological order.
pub fn in_order(alloc: Global, graph: &Graph, gates: &[u32]) -> Result<Vec<u32>, AllocError> {
    let mut keyed = Vec::with_capacity(alloc, gates.len())?;
    for node in gates {
        keyed.push((graph.level(*node), *node))?;
    }
    keyed.sort()?;
    let mut order = Vec::with_capacity(alloc, gates.len())?;
    for (_level, node) in &keyed {
        order.push(*node)?;
    }
    Ok(order)
}

/// The graph as one that doesn't change.
pub fn store(alloc: Global, graph: &Graph) -> Result<Xag, AllocError> {
    let mut literals = vec![in alloc; 0u32; graph.nodes() as usize]?;
    for node in 0..=graph.sources() {
        put(&mut literals, node, node.wrapping_mul(2));
    }
    let mut builder = Builder::new(alloc, graph.sources(), graph.live().len())?;
    for node in &in_order(alloc, graph, graph.live())? {
        let gate = graph.gate(*node);
        let first = moved(&literals, gate.first);
        let second = moved(&literals, gate.second);
        let literal = builder.gate(first, second, gate.is_xor)?;
        put(&mut literals, *node, literal);
    }
    let mut sinks = Vec::with_capacity(alloc, graph.sinks() as usize)?;
    for sink in 0..graph.sinks() {
        sinks.push(moved(&literals, graph.sink(sink)))?;
    }
    builder.finish(alloc, &sinks)
}
