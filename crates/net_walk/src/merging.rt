//! A literal takes the place of a gate: its readers read the literal, and what then is a constant, an operand or
//! another gate is replaced too. Gates that nothing reads are removed.
//!
//! A gate is compared with others only once its operands are settled, and its twin reads the same operands: so
//! nothing is replaced by what depends on it.

use crate::fanouts::{NONE, small};
use crate::graph::{Graph, folded, ordered};
use rows::at;
use std::alloc::AllocError;

/// A literal that reads another node in the place of `old`.
fn rerouted(operand: u32, old: u32, literal: u32) -> u32 {
    if operand >> 1 == old {
        literal ^ (operand & 1)
    } else {
        operand
    }
}

impl Graph {
    /// The literal of a gate, appended unless it is there, and is not one of `avoided`.
    pub fn create(
        &mut self,
        first: u32,
        second: u32,
        is_xor: bool,
        avoided: &crate::marks::Marks,
    ) -> Result<u32, AllocError> {
        let gate = ordered(first, second, is_xor);
        let simple = folded(gate);
        if simple != NONE {
            return Ok(simple);
        }
        let known = self.find(gate, NONE);
        if known != NONE && !avoided.has(known >> 1) {
            return Ok(known);
        }
        let node = self.append(gate)?;
        Ok(node.wrapping_mul(2))
    }

    /// One reader of a node reads a literal in its place.
    fn reroute(&mut self, reader: u32, old: u32, literal: u32) -> Result<(), AllocError> {
        let gate = self.gate(reader);
        if self.is_sink(reader) {
            self.set_sink(reader, rerouted(gate.first, old, literal));
            return self.lower_required(reader);
        }
        let next = ordered(
            rerouted(gate.first, old, literal),
            rerouted(gate.second, old, literal),
            gate.is_xor,
        );
        self.set_gate(reader, next)?;
        self.waiting.push(reader)?;
        Ok(())
    }

    /// All readers of a node read a literal in its place; the gates among them wait to be simplified.
    fn redirect(&mut self, old: u32, literal: u32) -> Result<(), AllocError> {
        self.fanouts.list(old, &mut self.readers)?;
        for index in 0..self.readers.len() {
            let reader = at(&self.readers, small(index));
            self.reroute(reader, old, literal)?;
        }
        Ok(())
    }

    /// The literal that a gate is without a gate of its own; NONE where it needs one.
    fn simpler(&self, node: u32) -> u32 {
        let gate = self.gate(node);
        let simple = folded(gate);
        if simple != NONE {
            return simple;
        }
        self.find(gate, node)
    }

    /// Simplifies the gates that wait.
    fn settle(&mut self) -> Result<(), AllocError> {
        let most = u64::from(self.nodes()).saturating_mul(16);
        for _settled in 0..most {
            let Some(node) = self.waiting.pop() else {
                break;
            };
            if self.is_gate(node) {
                let literal = self.simpler(node);
                if literal != NONE && literal >> 1 != node {
                    self.redirect(node, literal)?;
                    self.remove(node)?;
                }
            }
        }
        self.waiting.clear();
        Ok(())
    }

    /// A literal takes the place of a gate.
    pub fn replace(&mut self, node: u32, literal: u32) -> Result<(), AllocError> {
        if !self.is_gate(node) || literal >> 1 == node {
            return Ok(());
        }
        self.fanouts.hold(literal >> 1);
        self.redirect(node, literal)?;
        self.settle()?;
        self.remove(node)?;
        self.fanouts.release(literal >> 1);
        self.remove(literal >> 1)
    }

    /// Removes a gate that nothing reads, and those that nothing reads then.
    pub fn remove(&mut self, node: u32) -> Result<(), AllocError> {
        self.readers.clear();
        self.readers.push(node)?;
        let most = u64::from(self.nodes()).saturating_mul(4);
        for _removed in 0..most {
            let Some(next) = self.readers.pop() else {
                break;
            };
            if self.is_gate(next) && self.reads(next) == 0 {
                let gate = self.gate(next);
                self.unlink(next, gate);
                self.delist(next)?;
                self.readers.push(gate.first >> 1)?;
                self.readers.push(gate.second >> 1)?;
            }
        }
        Ok(())
    }
}
