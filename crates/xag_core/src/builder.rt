//! Graphs that grow gate by gate, with structural hashing: a gate that exists isn't made again, and gates
//! with a constant operand, or with the same operand twice, aren't made at all. XOR gates read their operands
//! uncomplemented.
ghost use Rattle.std.specs.Prelude.{◌≡◌, ◌+◌, OnOk, IfOk, length};
ghost use Rattle.xag_core.specs.Xag.{IsGrownXag, HasSinks, IsLiteralBelow};

use crate::xag::{Xag, XagGate};
use rows::{at, put};
use std::alloc::{AllocError, Global};
use std::marker::Model;

/// The gates so far, and a table of them by the hash of their operands (open addressing; 0 for a free
/// slot, else the node).
#[derive(Drop)]
pub struct Builder {
    sources: u32,
    gates: Vec<XagGate>,
    slots: Vec<u32>,
}

impl Model for Builder {
    ghost use Rattle.xag_core.specs.Xag as xag;
    ghost use Rattle.xag_core.specs.Xag.{IsGrownXag};

    ghost Value = { xag.GrownXag };

    ghost view = { λ b. record { sources = b.sources; gates = b.gates.items } };

    ghost invariant = { λ b. IsGrownXag (record { sources = b.sources; gates = b.gates.items }) };
}

/// The size of the hash table: the least power of two from 16 on that is greater than twice `gates`, at most
/// 2^31.
fn table_size(gates: usize) -> usize {
    let mut size = 16;
    for _doubled in 0..27 {
        if size / 2 > gates {
            return size;
        }
        size = size.wrapping_mul(2);
    }
    size
}

/// A hash of a gate: multiplicative hashing by 2^64 divided by the golden ratio.
fn hash_of(gate: XagGate) -> u32 {
    let pair = u64::from(gate.first).wrapping_shl(32) | u64::from(gate.second);
    let complemented = if gate.is_xor { !pair } else { pair };
    let mixed = (complemented ^ (complemented >> 29)).wrapping_mul(0x9E37_79B9_7F4A_7C15);
    ((mixed >> 32) & 0xFFFF_FFFF) as u32
}

impl Builder {
    /// The graph of `sources` sources without gates, with a table for about `gates` gates.
    pub fn new(alloc: Global, sources: u32, gates: usize) -> Result<Builder, AllocError>
        ensures { IfOk result (λ builder. builder.sources ≡ sources) }
    {
        if sources >= 0x8000_0000 {
            return Err(AllocError);
        }
        let slots = vec![in alloc; 0u32; table_size(gates)]?;
        Ok(Builder {
            sources,
            gates: Vec::new(alloc),
            slots,
        })
    }

    /// The number of gates.
    pub fn size(&self) -> usize {
        self.gates.len()
    }

    /// The slot that holds the gate, or a free one for it; where the table is full, a number beyond its end.
    fn slot_of(&self, gate: XagGate) -> u32 {
        let mask = (self.slots.len() as u64).wrapping_sub(1);
        let mut slot = u64::from(hash_of(gate)) & mask;
        for _tried in 0..self.slots.len() {
            let place = (slot & 0xFFFF_FFFF) as u32;
            let node = at(&self.slots, place);
            if node == 0 || self.has(node, gate) {
                return place;
            }
            slot = slot.wrapping_add(1) & mask;
        }
        u32::MAX
    }

    /// Whether the node is this gate.
    fn has(&self, node: u32, gate: XagGate) -> bool {
        let index = node.wrapping_sub(self.sources).wrapping_sub(1) as usize;
        match self.gates.get(index) {
            Some(other) => *other == gate,
            None => false,
        }
    }

    /// The literal itself; 0 where its node isn't in the graph.
    fn within(&self, literal: u32) -> u32
        ensures { IsLiteralBelow (self.now.sources + 1 + length self.now.gates) result }
    {
        let nodes = u64::from(self.sources) + 1 + self.gates.len() as u64;
        if u64::from(literal) < 2 * nodes {
            literal
        } else {
            0
        }
    }

    /// The literal of the gate, which is appended unless it exists.
    fn hashed(&mut self, first: u32, second: u32, is_xor: bool) -> Result<u32, AllocError>
        ensures { OnOk result (self.new.sources ≡ self.old.sources) }
    {
        let gate = XagGate {
            first,
            second,
            is_xor,
        };
        let slot = self.slot_of(gate);
        let known = at(&self.slots, slot);
        if known != 0 {
            return Ok(known.wrapping_mul(2));
        }
        let node = self.append(gate)?;
        put(&mut self.slots, slot, node);
        Ok(node.wrapping_mul(2))
    }

    /// Appends a gate, with 0 for an operand that isn't in the graph. Fails as if out of memory at 2^31
    /// nodes.
    #[tactic(auto, using(crate::proofs::Growing::grown_push))]
    fn append(&mut self, gate: XagGate) -> Result<u32, AllocError>
        ensures { OnOk result (self.new.sources ≡ self.old.sources) }
    {
        let first = self.within(gate.first);
        let second = self.within(gate.second);
        let node = u64::from(self.sources) + 1 + self.gates.len() as u64;
        if node >= 0x8000_0000 {
            return Err(AllocError);
        }
        self.gates.push(XagGate {
            first,
            second,
            is_xor: gate.is_xor,
        })?;
        Ok(node as u32)
    }

    /// XOR of two literals: complements go to the result.
    fn xor(&mut self, first: u32, second: u32) -> Result<u32, AllocError>
        ensures { OnOk result (self.new.sources ≡ self.old.sources) }
    {
        let complemented = (first ^ second) & 1;
        let low = (first | 1).min(second | 1) ^ 1;
        let high = (first | 1).max(second | 1) ^ 1;
        if low == high {
            return Ok(complemented);
        }
        if low == 0 {
            return Ok(high ^ complemented);
        }
        Ok(self.hashed(low, high, true)? ^ complemented)
    }

    /// AND of two literals.
    fn and(&mut self, first: u32, second: u32) -> Result<u32, AllocError>
        ensures { OnOk result (self.new.sources ≡ self.old.sources) }
    {
        let low = first.min(second);
        let high = first.max(second);
        if low == 0 || low ^ 1 == high {
            return Ok(0);
        }
        if low == 1 || low == high {
            return Ok(high);
        }
        self.hashed(low, high, false)
    }

    /// The literal of AND, or XOR where `is_xor`, of two literals. A literal whose node isn't in the graph
    /// counts as the constant 0.
    pub fn gate(&mut self, first: u32, second: u32, is_xor: bool) -> Result<u32, AllocError>
        ensures { OnOk result (self.new.sources ≡ self.old.sources) }
    {
        let first = self.within(first);
        let second = self.within(second);
        if is_xor {
            self.xor(first, second)
        } else {
            self.and(first, second)
        }
    }

    /// The sinks, with 0 for a literal whose node isn't in the graph.
    fn sinks_within(&self, alloc: Global, literals: &[u32]) -> Result<Vec<u32>, AllocError>
        ensures { IfOk result (λ sinks. HasSinks self.now literals.now sinks.items) }
    {
        let mut sinks = Vec::with_capacity(alloc, literals.len())?;
        for literal in literals {
            sinks.push(self.within(*literal))?;
        }
        Ok(sinks)
    }

    /// The graph with these sinks. A literal whose node isn't in the graph counts as the constant 0.
    pub fn finish(self, alloc: Global, literals: &[u32]) -> Result<Xag, AllocError>
        ensures sources { IfOk result (λ xag. xag.sources ≡ self.sources) }
        ensures sinks { IfOk result (λ xag. length xag.sinks ≡ length literals.now) }
    {
        let sinks = self.sinks_within(alloc, literals)?;
        let Builder {
            sources,
            gates,
            slots: _,
        } = self;
        Ok(Xag {
            sources,
            gates,
            sinks,
            keeps_order: false,
        })
    }
}
