//! The rows of a window's inputs that occur, as far as a cut below them shows it: the inputs that are highest are
//! expanded into their operands, while the cut is small, and all assignments of the cut are simulated.

use crate::fanouts::{NONE, small};
use crate::graph::Graph;
use crate::patterns::{input_word, word_count};
use rows::{at, bit_at, put};
use std::alloc::{AllocError, Global};
use xag_core::{complement_mask, word_at};

/// The most nodes of a cut.
const MOST_LEAVES: usize = 12;

/// So many nodes are expanded at most.
const MOST_EXPANDED: u32 = 80;

/// The cut, the nodes between it and the inputs, highest first, and the values of both; `slots` has the place of each
/// node's values.
#[derive(Drop)]
pub struct Reachable {
    leaves: Vec<u32>,
    expanded: Vec<u32>,
    values: Vec<u64>,
    slots: Vec<u32>,
    occurs: Vec<bool>,
}

impl Reachable {
    /// No cut yet.
    pub fn new(alloc: Global) -> Reachable {
        Reachable {
            leaves: Vec::new(alloc),
            expanded: Vec::new(alloc),
            values: Vec::new(alloc),
            slots: Vec::new(alloc),
            occurs: Vec::new(alloc),
        }
    }

    /// The place of the highest gate of the cut; NONE where there is no gate.
    fn highest(&self, graph: &Graph) -> u32 {
        let mut best = NONE;
        let mut level = 0;
        let mut place = 0u32;
        for leaf in &self.leaves {
            if graph.is_gate(*leaf) && (best == NONE || graph.level(*leaf) > level) {
                best = place;
                level = graph.level(*leaf);
            }
            place = place.saturating_add(1);
        }
        best
    }

    /// Whether a node has to join the cut for its reader to leave it.
    fn is_new(&self, node: u32) -> bool {
        node != 0 && !self.leaves.contains(&node)
    }

    /// Expands the highest gate of the cut. False where the cut would be too large.
    fn expand(&mut self, graph: &Graph) -> Result<bool, AllocError> {
        let place = self.highest(graph);
        if place == NONE {
            return Ok(false);
        }
        let node = at(&self.leaves, place);
        let gate = graph.gate(node);
        let (first, second) = (gate.first >> 1, gate.second >> 1);
        let added = usize::from(self.is_new(first)).saturating_add(usize::from(self.is_new(
            second,
        )));
        if self.leaves.len().saturating_add(added) > MOST_LEAVES + 1 {
            return Ok(false);
        }
        self.expanded.push(node)?;
        if let Some(last) = self.leaves.pop() {
            put(&mut self.leaves, place, last);
        }
        for operand in [first, second] {
            if self.is_new(operand) {
                self.leaves.push(operand)?;
            }
        }
        Ok(true)
    }

    /// Finds a cut below the inputs.
    fn cut(&mut self, graph: &Graph, inputs: &[u32]) -> Result<(), AllocError> {
        self.leaves.clear();
        self.leaves.extend_from_slice(inputs)?;
        self.expanded.clear();
        for _expanded in 0..MOST_EXPANDED {
            if !self.expand(graph)? {
                break;
            }
        }
        Ok(())
    }

    /// Gives a node the next place of values.
    fn take_slot(&mut self, node: u32, slot: u32) {
        put(&mut self.slots, node, slot);
    }

    /// Gives the leaves all assignments.
    fn assign(&mut self, words: u32) -> Result<(), AllocError> {
        self.values.clear();
        self.values.resize(words as usize, 0)?;
        for place in 0..small(self.leaves.len()) {
            let leaf = at(&self.leaves, place);
            self.take_slot(leaf, place.saturating_add(1));
            for word in 0..words {
                self.values.push(input_word(place, word))?;
            }
        }
        Ok(())
    }

    /// One word of a literal.
    fn word(&self, literal: u32, word: u32, words: u32) -> u64 {
        let slot = u64::from(at(&self.slots, literal >> 1));
        let place = slot
            .wrapping_mul(u64::from(words))
            .wrapping_add(u64::from(word));
        word_at(&self.values, place as usize) ^ complement_mask(literal)
    }

    /// Simulates one gate.
    fn simulate_gate(
        &mut self,
        graph: &Graph,
        node: u32,
        slot: u32,
        words: u32,
    ) -> Result<(), AllocError> {
        let gate = graph.gate(node);
        for word in 0..words {
            let first = self.word(gate.first, word, words);
            let second = self.word(gate.second, word, words);
            let value = if gate.is_xor {
                first ^ second
            } else {
                first & second
            };
            self.values.push(value)?;
        }
        self.take_slot(node, slot);
        Ok(())
    }

    /// Simulates the nodes between the cut and the inputs.
    fn simulate(&mut self, graph: &Graph, words: u32) -> Result<(), AllocError> {
        if self.slots.len() < graph.nodes() as usize {
            self.slots.resize(graph.nodes() as usize, 0)?;
        }
        put(&mut self.slots, 0, 0);
        self.assign(words)?;
        let leaves = small(self.leaves.len());
        let count = small(self.expanded.len());
        for step in 0..count {
            let node = at(&self.expanded, count.saturating_sub(step).saturating_sub(1));
            let slot = leaves.saturating_add(step).saturating_add(1);
            self.simulate_gate(graph, node, slot, words)?;
        }
        Ok(())
    }

    /// The inputs' values in one row of the cut, as a number.
    fn row_of(&self, inputs: &[u32], row: u32, words: u32) -> u32 {
        let mut number = 0u32;
        let mut place = 0u32;
        for input in inputs {
            let word = self.word(input.wrapping_mul(2), row >> 6, words);
            let bit = (word.wrapping_shr(row & 63) & 1) as u32;
            number |= bit.wrapping_shl(place);
            place = place.saturating_add(1);
        }
        number
    }

    /// Marks the rows of the inputs that occur.
    fn mark(&mut self, inputs: &[u32], words: u32) -> Result<(), AllocError> {
        let count = small(inputs.len());
        self.occurs.clear();
        self.occurs
            .resize(1u32.wrapping_shl(count) as usize, false)?;
        let leaves = small(self.leaves.len());
        for row in 0..1u32.wrapping_shl(leaves) {
            let number = self.row_of(inputs, row, words);
            put(&mut self.occurs, number, true);
        }
        Ok(())
    }

    /// Lists the rows of the inputs that occur, ascending: bit k of a row is the value of input k.
    pub fn rows_of(
        &mut self,
        graph: &Graph,
        inputs: &[u32],
        rows: &mut Vec<u32>,
    ) -> Result<(), AllocError> {
        rows.clear();
        self.cut(graph, inputs)?;
        let words = word_count(small(self.leaves.len()));
        self.simulate(graph, words)?;
        self.mark(inputs, words)?;
        for row in 0..small(self.occurs.len()) {
            if bit_at(&self.occurs, row) {
                rows.push(row)?;
            }
        }
        Ok(())
    }
}
