//! The graph, with its invariant: operands are constants, sources or gates below their gate.
ghost use Rattle.std.specs.Prelude.{◌≡◌, IfOk};
ghost use Rattle.xag_core.specs.Xag.{IsXag};

use rows::put;
use std::alloc::{AllocError, Global};
use std::marker::Model;

/// A gate: AND, or XOR where `is_xor`, of two literals.
#[derive(Clone, Copy, PartialEq, Eq)]
pub struct XagGate {
    pub first: u32,
    pub second: u32,
    pub is_xor: bool,
}

/// A graph: node 0 is the constant 0, the nodes 1 to `sources` are the sources, and the gates follow in
/// topological order. Sinks are literals. It has fewer than 2^31 nodes. With `keeps_order`, gates that remain
/// keep their order when the graph is rebuilt; otherwise they come in the order of a depth-first traversal
/// from the sinks. That order is a heuristic: nothing is proved about it, and the view doesn't show
/// `keeps_order`.
#[derive(Drop)]
pub struct Xag {
    pub(crate) sources: u32,
    pub(crate) gates: Vec<XagGate>,
    pub(crate) sinks: Vec<u32>,
    pub(crate) keeps_order: bool,
}

impl Model for Xag {
    ghost use Rattle.xag_core.specs.Xag as xag;
    ghost use Rattle.xag_core.specs.Xag.{IsXag};

    ghost Value = { xag.Xag };

    ghost view = { λ x. record { sources = x.sources; gates = x.gates.items; sinks = x.sinks.items } };

    ghost invariant = { λ x. IsXag (record { sources = x.sources; gates = x.gates.items; sinks = x.sinks.items }) };
}

impl Xag {
    /// The number of sources.
    pub fn sources(&self) -> u32
        ensures sources { result ≡ self.now.sources }
        ensures xag { IsXag self.now }
    {
        self.sources
    }

    /// The gates in topological order.
    pub fn gates(&self) -> &[XagGate]
        ensures gates { result.now ≡ self.now.gates }
        ensures xag { IsXag self.now }
    {
        &self.gates
    }

    /// The sinks, as literals.
    pub fn sinks(&self) -> &[u32]
        ensures sinks { result.now ≡ self.now.sinks }
        ensures xag { IsXag self.now }
    {
        &self.sinks
    }

    /// A copy.
    pub fn copied(&self, alloc: Global) -> Result<Xag, AllocError>
        ensures { IfOk result (λ copy. copy ≡ self.now) }
    {
        let sources = self.sources;
        let gates = Vec::from_slice(alloc, &self.gates)?;
        let sinks = Vec::from_slice(alloc, &self.sinks)?;
        Ok(Xag {
            sources,
            gates,
            sinks,
            keeps_order: self.keeps_order,
        })
    }

    /// The same graph, with or without the order of its gates kept when it is rebuilt. Nothing is proved
    /// about that order.
    pub fn with_order(self, keeps_order: bool) -> Xag
        ensures { result ≡ self }
    {
        let Xag {
            sources,
            gates,
            sinks,
            keeps_order: _,
        } = self;
        Xag {
            sources,
            gates,
            sinks,
            keeps_order,
        }
    }

    /// The number of nodes: the constant, the sources and the gates.
    pub fn nodes(&self) -> u32 {
        self.sources + 1 + self.gates.len() as u32
    }

    /// Whether the node is a gate.
    pub fn is_gate(&self, node: u32) -> bool {
        node > self.sources && node < self.nodes()
    }

    /// The gate at a node; for any other node AND of the constant 0.
    pub fn gate(&self, node: u32) -> XagGate {
        match self
            .gates
            .get(node.wrapping_sub(self.sources).wrapping_sub(1) as usize)
        {
            Some(gate) => *gate,
            None => XagGate {
                first: 0,
                second: 0,
                is_xor: false,
            },
        }
    }
}

/// Marks the nodes that sinks read.
pub(crate) fn mark_sinks(xag: &Xag, marks: &mut [bool]) {
    for sink in xag.sinks() {
        put(marks, sink >> 1, true);
    }
}
