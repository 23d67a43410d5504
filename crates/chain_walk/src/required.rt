//! The function required of a gate, or of the inner one of two gates: its on-set and off-set.

use crate::operator::Operator;
use crate::small_net::word_at;
use std::alloc::{AllocError, Global};

/// The rows in which a value has to be 1, and those in which it has to be 0.
#[derive(Drop)]
pub struct Required {
    on: Vec<u64>,
    off: Vec<u64>,
}

/// How the value of an inner gate decides the outer one's, where the other operand is fixed: by the outer gate's values
/// at 0 and 1 of the inner one.
#[derive(Clone, Copy)]
struct Half {
    at_0: u32,
    at_1: u32,
}

impl Half {
    /// Of the required rows, those in which the inner value has to be 1.
    fn on(self, on: u64, off: u64) -> u64 {
        match (self.at_0, self.at_1) {
            (0, 1) => on,
            (1, 0) => off,
            _ => 0,
        }
    }

    /// The required rows that no inner value serves.
    fn unserved(self, on: u64, off: u64) -> u64 {
        match (self.at_0, self.at_1) {
            (0, 0) => on,
            (1, 1) => off,
            _ => 0,
        }
    }
}

impl Required {
    /// Nothing is required yet.
    pub fn new(alloc: Global) -> Required {
        Required {
            on: Vec::new(alloc),
            off: Vec::new(alloc),
        }
    }

    /// How many words there are.
    pub fn words(&self) -> u32 {
        crate::small_net::small(self.on.len())
    }

    /// The rows of one word in which the value has to be 1.
    pub fn on(&self, word: u32) -> u64 {
        word_at(&self.on, word)
    }

    /// The rows of one word in which the value has to be 0.
    pub fn off(&self, word: u32) -> u64 {
        word_at(&self.off, word)
    }

    /// The function `row` where `care` says that it matters.
    pub fn set(&mut self, row: &[u64], care: &[u64]) -> Result<(), AllocError> {
        self.on.clear();
        self.off.clear();
        for (value, matters) in row.iter().zip(care.iter()) {
            self.on.push(*value & *matters)?;
            self.off.push(!*value & *matters)?;
        }
        Ok(())
    }

    /// The function required of h where `outer` is an operator of `row` and h. False where no h serves.
    pub fn set_inner(
        &mut self,
        outer: Operator,
        required: &Required,
        row: &[u64],
    ) -> Result<bool, AllocError> {
        self.on.clear();
        self.off.clear();
        let low = Half {
            at_0: outer.at_00(),
            at_1: outer.at_01(),
        };
        let high = Half {
            at_0: outer.at_10(),
            at_1: outer.at_11(),
        };
        for (word, value) in row.iter().enumerate() {
            let place = crate::small_net::small(word);
            let (on, off) = (required.on(place), required.off(place));
            let unserved = (low.unserved(on, off) & !*value) | (high.unserved(on, off) & *value);
            if unserved != 0 {
                return Ok(false);
            }
            self.on
                .push((low.on(on, off) & !*value) | (high.on(on, off) & *value))?;
            self.off
                .push((low.on(off, on) & !*value) | (high.on(off, on) & *value))?;
        }
        Ok(true)
    }

    /// Whether the value has to be 1 somewhere.
    pub fn has_on(&self) -> bool {
        self.on.iter().any(|word| *word != 0)
    }

    /// Whether the value has to be 0 somewhere.
    pub fn has_off(&self) -> bool {
        self.off.iter().any(|word| *word != 0)
    }

    /// Whether `row`, complemented where `complemented` is odd, is the required function.
    pub fn is_matched_by(&self, row: &[u64], complemented: u32) -> bool {
        let mask = if complemented & 1 == 1 { u64::MAX } else { 0 };
        for (word, value) in row.iter().enumerate() {
            let place = crate::small_net::small(word);
            let literal = *value ^ mask;
            if (self.on(place) & !literal) | (self.off(place) & literal) != 0 {
                return false;
            }
        }
        true
    }
}
