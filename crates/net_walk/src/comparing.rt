//! Whether two small nets are equal in all rows, with some of the rows in which they differ.

use crate::patterns::{input_word, word_count};
use chain_walk::SmallNet;
use rows::at;
use std::alloc::{AllocError, Global};
use xag_core::{complement_mask, word_at};

/// So many words are compared at a time.
const BLOCK: u32 = 16;

/// So many rows in which the nets differ are listed.
const MOST_ROWS: usize = 64;

/// The words of a net's signals in one block.
#[derive(Drop)]
struct Values {
    words: Vec<u64>,
}

/// A comparison, and what it uses again.
#[derive(Drop)]
pub struct Comparison {
    first: Values,
    second: Values,
    differing: Vec<u32>,
}

impl Values {
    /// No words yet.
    fn new(alloc: Global) -> Values {
        Values {
            words: Vec::new(alloc),
        }
    }

    /// One word of a literal.
    fn word(&self, literal: u32, place: u32) -> u64 {
        let index = (literal >> 1).wrapping_mul(BLOCK).wrapping_add(place);
        word_at(&self.words, index as usize) ^ complement_mask(literal)
    }

    /// Simulates the inputs in the block that begins at a word.
    fn begin(&mut self, net: &SmallNet, begin: u32) -> Result<(), AllocError> {
        self.words.clear();
        self.words.resize(BLOCK as usize, 0)?;
        for input in 0..net.inputs() {
            for place in 0..BLOCK {
                self.words
                    .push(input_word(input, begin.wrapping_add(place)))?;
            }
        }
        Ok(())
    }

    /// Simulates a net in the block that begins at a word.
    fn simulate(&mut self, net: &SmallNet, begin: u32) -> Result<(), AllocError> {
        self.begin(net, begin)?;
        for gate in net.gates() {
            let masks = gate.operator.masks();
            for place in 0..BLOCK {
                let first = self.word(gate.first.wrapping_mul(2), place);
                let second = self.word(gate.second.wrapping_mul(2), place);
                self.words.push(masks.at(first, second))?;
            }
        }
        Ok(())
    }
}

impl Comparison {
    /// Nothing is compared yet.
    pub fn new(alloc: Global) -> Comparison {
        Comparison {
            first: Values::new(alloc),
            second: Values::new(alloc),
            differing: Vec::new(alloc),
        }
    }

    /// Some of the rows in which the nets differ.
    pub fn differing(&self) -> &[u32] {
        &self.differing
    }

    /// The rows of one word in which outputs differ.
    fn difference(&self, one: &SmallNet, other: &SmallNet, place: u32) -> u64 {
        let mut difference = 0;
        for (first, second) in one.outputs().iter().zip(other.outputs().iter()) {
            difference |= self.first.word(*first, place) ^ self.second.word(*second, place);
        }
        difference
    }

    /// Notes the rows of a word.
    fn note(&mut self, difference: u64, word: u32) -> Result<(), AllocError> {
        for bit in 0..64 {
            if difference.wrapping_shr(bit) & 1 == 1 && self.differing.len() < MOST_ROWS {
                self.differing
                    .push(word.wrapping_mul(64).wrapping_add(bit))?;
            }
        }
        Ok(())
    }

    /// Compares two nets in the words that there are of a block.
    fn compare_block(
        &mut self,
        one: &SmallNet,
        other: &SmallNet,
        begin: u32,
        end: u32,
    ) -> Result<(), AllocError> {
        self.first.simulate(one, begin)?;
        self.second.simulate(other, begin)?;
        for place in 0..BLOCK.min(end.saturating_sub(begin)) {
            let difference = self.difference(one, other, place);
            if difference != 0 {
                self.note(difference, begin.saturating_add(place))?;
            }
        }
        Ok(())
    }

    /// Whether two nets of the same inputs, six at least, have the same outputs in all rows.
    pub fn are_equal(&mut self, one: &SmallNet, other: &SmallNet) -> Result<bool, AllocError> {
        self.differing.clear();
        let words = word_count(one.inputs());
        for block in 0..words.div_ceil(BLOCK) {
            if self.differing.len() >= MOST_ROWS {
                break;
            }
            self.compare_block(one, other, block.wrapping_mul(BLOCK), words)?;
        }
        Ok(self.differing.is_empty())
    }
}
