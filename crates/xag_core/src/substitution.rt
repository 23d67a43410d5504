//! A pending substitution: a change of a graph that isn't made yet, with new gates, and nodes that literals
//! replace.

use crate::xag::{Xag, XagGate};
use std::alloc::{AllocError, Global};

/// No literal.
pub const NONE: u32 = 0xFFFF_FFFF;

/// New gates, numbered after the nodes of the graph, and for some nodes of the graph the literals that
/// replace them. Both may name new nodes.
#[derive(Drop)]
pub struct Substitution {
    pub(crate) first: u32,
    pub(crate) gates: Vec<XagGate>,
    pub(crate) substituted: Vec<(u32, u32)>,
}

impl Substitution {
    /// No change of the graph.
    pub fn new(alloc: Global, xag: &Xag) -> Substitution {
        Substitution {
            first: xag.nodes(),
            gates: Vec::new(alloc),
            substituted: Vec::new(alloc),
        }
    }

    /// Appends a gate and returns its literal. Fails as if out of memory at 2^31 nodes.
    pub fn gate(&mut self, gate: XagGate) -> Result<u32, AllocError> {
        let node = u64::from(self.first) + self.gates.len() as u64;
        if node >= 0x8000_0000 {
            return Err(AllocError);
        }
        self.gates.push(gate)?;
        Ok(node as u32 * 2)
    }

    /// Substitutes `literal` for `node` in all its fanouts.
    pub fn substitute(&mut self, node: u32, literal: u32) -> Result<(), AllocError> {
        self.substituted.push((node, literal))?;
        Ok(())
    }

    /// The gate at a node, of the graph or new.
    pub(crate) fn gate_at(&self, xag: &Xag, node: u32) -> XagGate {
        if node < self.first {
            return xag.gate(node);
        }
        match self.gates.get((node - self.first) as usize) {
            Some(gate) => *gate,
            None => xag.gate(0),
        }
    }
}
