//! A target's maximal fanout-free cone (MFFC: the gates that are read by nothing else), and how many gates a change of
//! the target adds or keeps: the exact gain, before anything is changed.

use crate::change::Change;
use crate::choices::Choices;
use crate::small_net::{Gate, NONE, SmallNet, literal_of, small};
use crate::strash::gate_over;
use rows::{at, bit_at, put, raise};
use std::alloc::{AllocError, Global};

/// The gates of the MFFC, the target first, falling.
#[derive(Drop)]
pub struct Mffc {
    reads: Vec<u32>,
    is_counted: bool,
    dereferenced: Vec<u32>,
    gates: Vec<u32>,
    needed: Vec<bool>,
}

/// The cost of what isn't allowed.
pub const TOO_MANY: u32 = 0xFFFF_FFFF;

impl Mffc {
    /// No target's.
    pub fn new(alloc: Global) -> Mffc {
        Mffc {
            reads: Vec::new(alloc),
            is_counted: false,
            dereferenced: Vec::new(alloc),
            gates: Vec::new(alloc),
            needed: Vec::new(alloc),
        }
    }

    /// The number of gates.
    pub fn count(&self) -> u32 {
        small(self.gates.len())
    }

    /// The net is another one from now on.
    pub fn forget(&mut self) {
        self.is_counted = false;
    }

    /// Makes room for the signals of a net.
    fn clear(&mut self, net: &SmallNet) -> Result<(), AllocError> {
        if !self.is_counted {
            net.count_reads(&mut self.reads)?;
            self.is_counted = true;
        }
        self.dereferenced.clear();
        self.dereferenced.resize(net.signals() as usize, 0)?;
        self.needed.clear();
        self.needed.resize(net.signals() as usize, false)?;
        self.gates.clear();
        Ok(())
    }

    /// Takes a gate, where all its readers are taken.
    fn take(&mut self, net: &SmallNet, signal: u32, is_target: bool) -> Result<(), AllocError> {
        let dereferenced = at(&self.dereferenced, signal);
        if is_target || (dereferenced > 0 && dereferenced == at(&self.reads, signal)) {
            self.gates.push(signal)?;
            let gate = net.gate(signal);
            raise(&mut self.dereferenced, gate.first);
            raise(&mut self.dereferenced, gate.second);
        }
        Ok(())
    }

    /// Finds the MFFC of a target.
    pub fn find(&mut self, net: &SmallNet, target: u32) -> Result<(), AllocError> {
        self.clear(net)?;
        for step in 0..target.saturating_sub(net.inputs()) {
            self.take(net, target.wrapping_sub(step), step == 0)?;
        }
        Ok(())
    }

    /// Unmarks what `referenced` marked.
    fn unmark(&mut self, net: &SmallNet) {
        for signal in &self.gates {
            let gate = net.gate(*signal);
            put(&mut self.needed, *signal, false);
            put(&mut self.needed, gate.first, false);
            put(&mut self.needed, gate.second, false);
        }
    }

    /// How many of the gates have to stay, where three signals are read.
    fn referenced(&mut self, net: &SmallNet, first: u32, second: u32, third: u32) -> u32 {
        put(&mut self.needed, first, true);
        put(&mut self.needed, second, true);
        put(&mut self.needed, third, true);
        let mut count = 0u32;
        for signal in &self.gates {
            if bit_at(&self.needed, *signal) {
                count = count.saturating_add(1);
                let gate = net.gate(*signal);
                put(&mut self.needed, gate.first, true);
                put(&mut self.needed, gate.second, true);
            }
        }
        self.unmark(net);
        put(&mut self.needed, first, false);
        put(&mut self.needed, second, false);
        put(&mut self.needed, third, false);
        count
    }

    /// How many gates a gate in the place of the target costs. It may be there already; the target itself is no change.
    fn added_by_gate(&mut self, net: &SmallNet, choices: &Choices, target: u32, gate: Gate) -> u32 {
        let known = net.find(gate, choices.absorbs());
        if known == NONE {
            return self
                .referenced(net, gate.first, gate.second, NONE)
                .saturating_add(1);
        }
        if known >> 1 == target {
            return TOO_MANY;
        }
        self.referenced(net, known >> 1, NONE, NONE)
    }

    /// How many gates a change costs, new ones and those of the MFFC that have to stay.
    pub fn added(&mut self, net: &SmallNet, choices: &Choices, target: u32, change: Change) -> u32 {
        match change {
            Change::Literal(literal) => self.referenced(net, literal >> 1, NONE, NONE),
            Change::One(gate) => self.added_by_gate(net, choices, target, gate),
            Change::Two(inner, outer, beside) => {
                let known = net.find(inner, choices.absorbs());
                if known == NONE {
                    return self
                        .referenced(net, inner.first, inner.second, beside)
                        .saturating_add(2);
                }
                if known >> 1 == target {
                    return TOO_MANY;
                }
                let gate = gate_over(outer, literal_of(beside, 0), known);
                self.added_by_gate(net, choices, target, gate)
            }
        }
    }
}
