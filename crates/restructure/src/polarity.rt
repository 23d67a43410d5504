//! A graph as a net with a given set of operators. Which gates are complemented (their polarity) is chosen so
//! that most gates have one of the operators: with AND, OR and their complements a gate has to read both
//! operands with the same polarity, which relates the polarities of two nodes. Where that is impossible, an
//! operand goes through a NOT gate.

use crate::parities::Parities;
use net_core::{Net, Op, Sig};
use op_basis::Basis;
use rows::{at, bit_at, put};
use std::alloc::{AllocError, Global};
use xag_core::{NetBuilder, Xag, XagGate, operator};

/// The growing net. By nodes of the graph: whether each is complemented, its node in the net, and the net's
/// node for its complement, 0 where there is none.
#[derive(Drop)]
struct Making {
    net: NetBuilder,
    allowed: Basis,
    complemented: Vec<bool>,
    net_nodes: Vec<u32>,
    opposites: Vec<u32>,
}

/// Which nodes are complemented.
fn complemented_nodes(alloc: Global, xag: &Xag) -> Result<Vec<bool>, AllocError> {
    let mut parities = Parities::new(alloc, xag.nodes())?;
    for source in 1..=xag.sources() {
        parities.unite(0, source.wrapping_mul(2));
    }
    for sink in xag.sinks() {
        parities.unite(0, *sink);
    }
    for gate in xag.gates() {
        if !gate.is_xor {
            parities.unite(gate.first, gate.second);
        }
    }
    let mut complemented = Vec::with_capacity(alloc, xag.nodes() as usize)?;
    for node in 0..xag.nodes() {
        complemented.push(parities.first(node.wrapping_mul(2)) & 1 == 1)?;
    }
    Ok(complemented)
}

/// An operator that complements a node read as both operands, if one is allowed; else NOT of the first
/// operand.
fn negation(allowed: Basis) -> Op {
    for word in [12, 10, 14, 8] {
        if allowed.contains(Op::new(word)) {
            return Op::new(word);
        }
    }
    Op::new(12)
}

impl Making {
    /// Whether a literal is the complement of the net's node for its node.
    fn is_complemented(&self, literal: u32) -> bool {
        bit_at(&self.complemented, literal >> 1) != (literal & 1 == 1)
    }

    /// The net's node for a node, or for its complement.
    fn net_node_of(&mut self, node: u32, is_opposite: bool) -> Result<u32, AllocError> {
        let net_node = at(&self.net_nodes, node);
        if !is_opposite {
            return Ok(net_node);
        }
        let known = at(&self.opposites, node);
        if known != 0 {
            return Ok(known);
        }
        let opposite = self.net.append(negation(self.allowed), net_node, net_node)?;
        put(&mut self.opposites, node, opposite);
        Ok(opposite)
    }

    /// Which operands of a gate go through a NOT gate so that its operator is allowed; none where that
    /// doesn't help.
    fn opposed(&self, gate: XagGate, all: bool) -> (bool, bool) {
        let first = self.is_complemented(gate.first);
        let second = self.is_complemented(gate.second);
        for (a, b) in [(false, false), (false, true), (true, false), (true, true)] {
            let op = operator(gate, first != a, second != b, all);
            if self.allowed.contains(op) {
                return (a, b);
            }
        }
        (false, false)
    }

    /// Appends the gate of a node.
    fn append(&mut self, node: u32, gate: XagGate) -> Result<(), AllocError> {
        let all = bit_at(&self.complemented, node);
        let (a, b) = self.opposed(gate, all);
        let first = self.net_node_of(gate.first >> 1, a)?;
        let second = self.net_node_of(gate.second >> 1, b)?;
        let op = operator(
            gate,
            self.is_complemented(gate.first) != a,
            self.is_complemented(gate.second) != b,
            all,
        );
        let net_node = self.net.append(op, first, second)?;
        put(&mut self.net_nodes, node, net_node);
        Ok(())
    }

    /// The signal of a sink.
    fn sink(&mut self, literal: u32) -> Result<Sig, AllocError> {
        if literal >> 1 == 0 {
            return Ok(if literal == 0 { Sig::Zero } else { Sig::One });
        }
        let is_opposite = self.is_complemented(literal);
        Ok(Sig::Node(self.net_node_of(literal >> 1, is_opposite)?))
    }
}

/// A net without gates, for a graph.
fn begun(alloc: Global, xag: &Xag, allowed: Basis) -> Result<Making, AllocError> {
    let complemented = complemented_nodes(alloc, xag)?;
    let mut net_nodes = Vec::with_capacity(alloc, xag.nodes() as usize)?;
    for node in 0..xag.nodes() {
        net_nodes.push(node)?;
    }
    let opposites = vec![in alloc; 0u32; xag.nodes() as usize]?;
    let net = NetBuilder::new(alloc, xag.sources())?;
    Ok(Making {
        net,
        allowed,
        complemented,
        net_nodes,
        opposites,
    })
}

/// The net of a graph, gate by gate, with NOT gates before the gates that need them. Its operators are in
/// `allowed` where polarities and NOT gates allow that.
pub(crate) fn net_within(alloc: Global, xag: &Xag, allowed: Basis) -> Result<Net, AllocError> {
    let mut making = begun(alloc, xag, allowed)?;
    let mut node = xag.sources().wrapping_add(1);
    for gate in xag.gates() {
        making.append(node, *gate)?;
        node = node.wrapping_add(1);
    }
    let mut signals = Vec::with_capacity(alloc, xag.sinks().len())?;
    for sink in xag.sinks() {
        signals.push(making.sink(*sink)?)?;
    }
    let Making {
        net,
        allowed: _,
        complemented: _,
        net_nodes: _,
        opposites: _,
    } = making;
    net.finish(alloc, &signals)
}
