//! An XOR-AND graph that changes in place. Node 0 is the constant 0, then come the sources, then a node for each sink,
//! which reads one literal, and then the gates. A literal is 2 * node + 1 where it complements its node, and 2 * node
//! otherwise. Of an XOR gate only the first operand may be complemented.
//!
//! Each gate has a level above those of its operands, so that levels give a topological order. Levels only rise: they
//! bound a search and needn't be least.

use crate::fanouts::{Fanouts, NONE, small};
use rows::{Random, at, entry, put};
use std::alloc::{AllocError, Global};
use xag_core::XagGate;

/// Fewer nodes than this, so that two links of each fit into a word.
const MOST_NODES: u32 = 0x4000_0000;

/// What a node without operands counts as.
const NO_GATE: XagGate = XagGate {
    first: 0,
    second: 0,
    is_xor: false,
};

/// The graph. `live` has the gates in any order, and `places` their places there; `free` has the nodes of removed
/// gates. `most_levels` is a limit of levels, NONE for none, and `required` has the required times under it.
#[derive(Drop)]
pub struct Graph {
    pub(crate) alloc: Global,
    sources: u32,
    sinks: u32,
    gates: Vec<XagGate>,
    pub(crate) levels: Vec<u32>,
    places: Vec<u32>,
    live: Vec<u32>,
    free: Vec<u32>,
    pub(crate) fanouts: Fanouts,
    pub(crate) waiting: Vec<u32>,
    pub(crate) readers: Vec<u32>,
    pub(crate) rising: Vec<u32>,
    pub(crate) most_levels: u32,
    pub(crate) required: Vec<u32>,
}

/// A gate without complements that can be moved, its operands in order.
pub fn ordered(first: u32, second: u32, is_xor: bool) -> XagGate {
    let low = first.min(second);
    let high = first.max(second);
    let turn = if is_xor { high & 1 } else { 0 };
    XagGate {
        first: low ^ turn,
        second: high ^ turn,
        is_xor,
    }
}

/// The literal that a gate in order is, where it depends on at most one node; else NONE.
pub fn folded(gate: XagGate) -> u32 {
    let (low, high) = (gate.first, gate.second);
    if gate.is_xor {
        if low >> 1 == high >> 1 {
            return (low ^ high) & 1;
        }
        return if low >> 1 == 0 { high ^ low } else { NONE };
    }
    if low == 0 || low ^ 1 == high {
        return 0;
    }
    if low == 1 || low == high { high } else { NONE }
}

impl Graph {
    /// A graph without gates, whose sinks read the constant 0.
    pub fn new(alloc: Global, sources: u32, sinks: u32) -> Result<Graph, AllocError> {
        let mut graph = Graph {
            alloc,
            sources,
            sinks,
            gates: Vec::new(alloc),
            levels: Vec::new(alloc),
            places: Vec::new(alloc),
            live: Vec::new(alloc),
            free: Vec::new(alloc),
            fanouts: Fanouts::new(alloc),
            waiting: Vec::new(alloc),
            readers: Vec::new(alloc),
            rising: Vec::new(alloc),
            most_levels: NONE,
            required: Vec::new(alloc),
        };
        for _node in 0..sources.saturating_add(sinks).saturating_add(1) {
            graph.push_node()?;
        }
        for sink in 0..sinks {
            let node = graph.sink_node(sink);
            graph.fanouts.link(0, node.wrapping_mul(2));
        }
        Ok(graph)
    }

    /// Adds a node that isn't a gate yet.
    fn push_node(&mut self) -> Result<(), AllocError> {
        if self.nodes() >= MOST_NODES {
            return Err(AllocError);
        }
        self.gates.push(NO_GATE)?;
        self.levels.push(0)?;
        self.places.push(NONE)?;
        self.required.push(NONE)?;
        self.fanouts.push()
    }

    /// The number of nodes, removed gates among them.
    pub fn nodes(&self) -> u32 {
        small(self.gates.len())
    }

    /// The number of sources.
    pub fn sources(&self) -> u32 {
        self.sources
    }

    /// The number of sinks.
    pub fn sinks(&self) -> u32 {
        self.sinks
    }

    /// The number of gates.
    pub fn size(&self) -> u32 {
        small(self.live.len())
    }

    /// The gates, in any order.
    pub fn live(&self) -> &[u32] {
        &self.live
    }

    /// The node of a sink.
    pub fn sink_node(&self, sink: u32) -> u32 {
        self.sources.saturating_add(sink).saturating_add(1)
    }

    /// Whether the node is a sink's.
    pub fn is_sink(&self, node: u32) -> bool {
        node > self.sources && node <= self.sources.saturating_add(self.sinks)
    }

    /// Whether the node is a gate, and not a removed one.
    pub fn is_gate(&self, node: u32) -> bool {
        entry(&self.places, node, NONE) != NONE
    }

    /// The gate of a node. A sink's reads its literal and the constant 0.
    pub fn gate(&self, node: u32) -> XagGate {
        entry(&self.gates, node, NO_GATE)
    }

    /// The literal of a sink.
    pub fn sink(&self, sink: u32) -> u32 {
        self.gate(self.sink_node(sink)).first
    }

    /// The level of a node.
    pub fn level(&self, node: u32) -> u32 {
        at(&self.levels, node)
    }

    /// How often a node is read.
    pub fn reads(&self, node: u32) -> u32 {
        self.fanouts.reads(node)
    }

    /// A random gate; the constant's node where there is none.
    pub fn drawn(&self, random: &mut Random) -> u32 {
        at(&self.live, random.below(self.size()))
    }

    /// A random reader of a node, if it is a gate; else NONE.
    pub fn drawn_reader(&self, node: u32, random: &mut Random) -> u32 {
        let reader = self.fanouts.drawn(node, random);
        if self.is_gate(reader) { reader } else { NONE }
    }

    /// The literal of a gate that is there already, other than `except`; NONE where there is none.
    pub fn find(&self, gate: XagGate, except: u32) -> u32 {
        let (first, second) = (gate.first >> 1, gate.second >> 1);
        let node = if self.reads(first) < self.reads(second) {
            first
        } else {
            second
        };
        let mut link = self.fanouts.first_of(node);
        for _reader in 0..self.reads(node) {
            let reader = link >> 1;
            let known = self.same(reader, gate);
            if known != NONE && reader != except {
                return known;
            }
            link = self.fanouts.after(link);
            if link == NONE {
                break;
            }
        }
        NONE
    }

    /// The literal of a node that is the gate, up to its complement; else NONE.
    fn same(&self, node: u32, gate: XagGate) -> u32 {
        let known = self.gate(node);
        let turn = known.first ^ gate.first;
        let is_same = known.is_xor == gate.is_xor
            && known.second == gate.second
            && (turn == 0 || (gate.is_xor && turn == 1));
        if is_same && self.is_gate(node) {
            node.wrapping_mul(2) | turn
        } else {
            NONE
        }
    }

    /// A node for a new gate.
    fn new_node(&mut self) -> Result<u32, AllocError> {
        match self.free.pop() {
            Some(node) => Ok(node),
            None => {
                let node = self.nodes();
                self.push_node()?;
                Ok(node)
            }
        }
    }

    /// Appends a gate in order, whether or not it is there, and returns its node.
    pub fn append(&mut self, gate: XagGate) -> Result<u32, AllocError> {
        let node = self.new_node()?;
        put(&mut self.gates, node, gate);
        let place = self.size();
        put(&mut self.places, node, place);
        self.live.push(node)?;
        let level = self.level_over(gate);
        put(&mut self.levels, node, level);
        put(&mut self.required, node, NONE);
        self.link(node, gate);
        Ok(node)
    }

    /// The level that a gate needs.
    pub(crate) fn level_over(&self, gate: XagGate) -> u32 {
        self.level(gate.first >> 1)
            .max(self.level(gate.second >> 1))
            .saturating_add(1)
    }

    /// A gate becomes a reader of its operands.
    fn link(&mut self, node: u32, gate: XagGate) {
        self.fanouts.link(gate.first >> 1, node.wrapping_mul(2));
        self.fanouts
            .link(gate.second >> 1, node.wrapping_mul(2) | 1);
    }

    /// A gate is no longer a reader of its operands.
    pub(crate) fn unlink(&mut self, node: u32, gate: XagGate) {
        self.fanouts.unlink(gate.first >> 1, node.wrapping_mul(2));
        self.fanouts
            .unlink(gate.second >> 1, node.wrapping_mul(2) | 1);
    }

    /// Lets a sink read a literal.
    pub fn set_sink(&mut self, node: u32, literal: u32) {
        let link = node.wrapping_mul(2);
        let old = self.gate(node).first >> 1;
        self.fanouts.unlink(old, link);
        put(
            &mut self.gates,
            node,
            XagGate {
                first: literal,
                ..NO_GATE
            },
        );
        self.fanouts.link(literal >> 1, link);
    }

    /// Lets a gate be another one, in order, raises the levels above it, and lowers the required times below it.
    pub(crate) fn set_gate(&mut self, node: u32, gate: XagGate) -> Result<(), AllocError> {
        let old = self.gate(node);
        self.unlink(node, old);
        put(&mut self.gates, node, gate);
        self.link(node, gate);
        self.raise_levels(node)?;
        self.lower_required(node)
    }

    /// Raises the levels of a gate and of those that depend on it, as far as they need it.
    fn raise_levels(&mut self, node: u32) -> Result<(), AllocError> {
        self.rising.clear();
        self.rising.push(node)?;
        let most = u64::from(self.nodes()).saturating_mul(16);
        for _raised in 0..most {
            let Some(next) = self.rising.pop() else {
                break;
            };
            let level = self.level_over(self.gate(next));
            if self.is_gate(next) && level > self.level(next) {
                put(&mut self.levels, next, level);
                self.push_readers(next)?;
            }
        }
        Ok(())
    }

    /// The readers of a node wait for their levels.
    fn push_readers(&mut self, node: u32) -> Result<(), AllocError> {
        let mut link = self.fanouts.first_of(node);
        for _reader in 0..self.reads(node) {
            if link == NONE {
                break;
            }
            self.rising.push(link >> 1)?;
            link = self.fanouts.after(link);
        }
        Ok(())
    }

    /// Takes a gate off the list.
    pub(crate) fn delist(&mut self, node: u32) -> Result<(), AllocError> {
        let place = entry(&self.places, node, NONE);
        put(&mut self.places, node, NONE);
        let Some(last) = self.live.pop() else {
            return Ok(());
        };
        if last != node {
            put(&mut self.live, place, last);
            put(&mut self.places, last, place);
        }
        self.free.push(node)?;
        Ok(())
    }
}
