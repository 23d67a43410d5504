//! The nodes of both nets in one array, by the variables of their miter: the shared sources, then the gates of the
//! first net, then those of the second. Node 0 is the constant 0, so every signal is a node with a complement bit.

use net_core::{Gate, Net, Op, Sig};
use std::alloc::{AllocError, Global};

/// A signal: a node, complemented if `complemented` holds.
#[derive(Clone, Copy)]
pub(crate) struct Edge {
    pub variable: u32,
    pub complemented: bool,
}

/// A gate: its operator and its operand nodes. The entry of a source means nothing.
#[derive(Clone, Copy)]
pub(crate) struct NodeGate {
    pub op: Op,
    pub a: u32,
    pub b: u32,
}

/// The nodes of two nets.
#[derive(Drop)]
pub(crate) struct Nodes {
    /// The gates, by variable.
    pub nodes: Vec<NodeGate>,
    pub sources: u32,
    /// The last node of the first net.
    pub first_end: u32,
    /// The number after the last node.
    end: u32,
    /// The sinks of the first net, and those of the second.
    pub first_sinks: Vec<Edge>,
    pub second_sinks: Vec<Edge>,
}

/// The numbering of one net's nodes: its gates come after the `before` gates of the other net.
#[derive(Clone, Copy)]
struct NodeNumbering {
    sources: u32,
    before: u32,
}

impl NodeNumbering {
    /// The signal as a node with a complement bit.
    fn edge(self, sig: Sig) -> Edge {
        match sig {
            Sig::Zero => Edge {
                variable: 0,
                complemented: false,
            },
            Sig::One => Edge {
                variable: 0,
                complemented: true,
            },
            Sig::Node(place) => Edge {
                variable: self.variable(place),
                complemented: false,
            },
        }
    }

    /// The variable of a node of the net.
    fn variable(self, place: u32) -> u32 {
        if place <= self.sources {
            return place;
        }
        place.saturating_add(self.before)
    }

    /// The gate over the common numbering. An operand that is the constant 1 becomes node 0, complemented.
    fn node(self, gate: &Gate) -> NodeGate {
        let a = self.edge(gate.a);
        let b = self.edge(gate.b);
        NodeGate {
            op: complemented(gate.op, a.complemented, b.complemented, false),
            a: a.variable,
            b: b.variable,
        }
    }
}

/// The operator with its operands and its value complemented as `a`, `b` and `value` say.
pub(crate) fn complemented(op: Op, a: bool, b: bool, value: bool) -> Op {
    Op::with_values(
        op.apply(a, b) != value,
        op.apply(a, !b) != value,
        op.apply(!a, b) != value,
        op.apply(!a, !b) != value,
    )
}

/// Appends gates.
fn push_nodes(
    nodes: &mut Vec<NodeGate>,
    numbering: NodeNumbering,
    gates: &[Gate],
) -> Result<(), AllocError> {
    for gate in gates {
        nodes.push(numbering.node(gate))?;
    }
    Ok(())
}

/// The signals of sinks.
fn edges(alloc: Global, numbering: NodeNumbering, sinks: &[Sig]) -> Result<Vec<Edge>, AllocError> {
    let mut edges = Vec::with_capacity(alloc, sinks.len())?;
    for sink in sinks {
        edges.push(numbering.edge(*sink))?;
    }
    Ok(edges)
}

/// The sources and the gates of both nets, by variable.
fn rows(
    alloc: Global,
    first: &Net,
    second: &Net,
    numberings: (NodeNumbering, NodeNumbering),
) -> Result<Vec<NodeGate>, AllocError> {
    let none = NodeGate {
        op: Op::with_values(false, false, false, false),
        a: 0,
        b: 0,
    };
    let mut nodes = vec![in alloc; none; first.sources() as usize + 1]?;
    push_nodes(&mut nodes, numberings.0, first.gates())?;
    push_nodes(&mut nodes, numberings.1, second.gates())?;
    Ok(nodes)
}

impl Nodes {
    /// The nodes of two nets with equally many sources.
    pub(crate) fn new(alloc: Global, first: &Net, second: &Net) -> Result<Nodes, AllocError> {
        let sources = first.sources();
        let before = first.gates().len() as u32;
        let one = NodeNumbering { sources, before: 0 };
        let other = NodeNumbering { sources, before };
        let nodes = rows(alloc, first, second, (one, other))?;
        let first_sinks = edges(alloc, one, first.sinks())?;
        let second_sinks = edges(alloc, other, second.sinks())?;
        Ok(Nodes {
            nodes,
            sources,
            first_end: sources + before,
            end: sources + before + second.gates().len() as u32 + 1,
            first_sinks,
            second_sinks,
        })
    }

    /// The number of nodes, with node 0.
    pub(crate) fn count(&self) -> usize {
        self.nodes.len()
    }

    /// The first gate.
    pub(crate) fn first_gate(&self) -> u32 {
        self.sources.saturating_add(1)
    }

    /// The number after the last node.
    pub(crate) fn end(&self) -> u32 {
        self.end
    }

    /// The nodes of the two signals of a sink.
    pub(crate) fn sink(&self, sink: usize) -> (u32, u32) {
        match (self.first_sinks.get(sink), self.second_sinks.get(sink)) {
            (Some(one), Some(other)) => (one.variable, other.variable),
            _ => (0, 0),
        }
    }

    /// The gate at a node; None for a source.
    pub(crate) fn gate(&self, variable: u32) -> Option<NodeGate> {
        if variable <= self.sources {
            return None;
        }
        self.nodes.get(variable as usize).copied()
    }

    /// Whether two nodes are gates of one net.
    pub(crate) fn are_of_one_net(&self, x: u32, y: u32) -> bool {
        let least = x.min(y);
        least > self.sources && (x <= self.first_end) == (y <= self.first_end)
    }
}
