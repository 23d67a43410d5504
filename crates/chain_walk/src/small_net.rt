//! Small nets of gates with two operands, with the values of each signal in a row of words.
//!
//! Signal 0 is the constant 0, the signals 1 to `inputs` are the inputs, and the gates follow, each after its operands.
//! A literal is 2 * signal, or 2 * signal + 1 for the complement. Which assignments the rows stand for is the caller's
//! affair. Reading any signal is allowed: beyond the last one values are 0.

use crate::operator::Operator;
use rows::{entry, put};
use std::alloc::{AllocError, Global};

/// No signal, and no literal.
pub const NONE: u32 = 0xFFFF_FFFF;

/// A gate: an operator of two signals.
#[derive(Clone, Copy, PartialEq, Eq)]
pub struct Gate {
    pub first: u32,
    pub second: u32,
    pub operator: Operator,
}

/// A net, its outputs as literals.
#[derive(Drop)]
pub struct SmallNet {
    inputs: u32,
    words: u32,
    gates: Vec<Gate>,
    outputs: Vec<u32>,
    values: Vec<u64>,
}

/// A number of things in memory, for which 32 bits suffice.
pub fn small(number: usize) -> u32 {
    (number as u64 & 0xFFFF_FFFF) as u32
}

/// The literal of a signal, complemented where `turned` is odd.
pub fn literal_of(signal: u32, complemented: u32) -> u32 {
    signal.wrapping_mul(2) | (complemented & 1)
}

/// The word at an index; 0 beyond the end.
pub fn word_at(row: &[u64], index: u32) -> u64 {
    entry(row, index, 0)
}

impl Gate {
    /// The gate with the lower operand first.
    fn in_order(self) -> Gate {
        if self.first <= self.second {
            return self;
        }
        Gate {
            first: self.second,
            second: self.first,
            operator: self.operator.swapped(),
        }
    }
}

impl SmallNet {
    /// A net without gates, whose inputs have the value 0 in 64 * `words` rows.
    pub fn new(alloc: Global, inputs: u32, words: u32) -> Result<SmallNet, AllocError> {
        let values = u64::from(inputs)
            .saturating_add(1)
            .saturating_mul(u64::from(words));
        Ok(SmallNet {
            inputs,
            words,
            gates: Vec::new(alloc),
            outputs: Vec::new(alloc),
            values: vec![in alloc; 0u64; values as usize]?,
        })
    }

    /// The number of inputs.
    pub fn inputs(&self) -> u32 {
        self.inputs
    }

    /// How many words a signal has.
    pub fn words(&self) -> u32 {
        self.words
    }

    /// The gates, each after its operands.
    pub fn gates(&self) -> &[Gate] {
        &self.gates
    }

    /// The number of gates.
    pub fn size(&self) -> u32 {
        small(self.gates.len())
    }

    /// The outputs, as literals.
    pub fn outputs(&self) -> &[u32] {
        &self.outputs
    }

    /// The number of signals: the constant, the inputs and the gates.
    pub fn signals(&self) -> u32 {
        self.first_gate().saturating_add(self.size())
    }

    /// The first signal that is a gate's.
    pub fn first_gate(&self) -> u32 {
        self.inputs.saturating_add(1)
    }

    /// Whether the signal is a gate's.
    pub fn is_gate(&self, signal: u32) -> bool {
        signal > self.inputs && signal < self.signals()
    }

    /// The gate of a signal; for others one of constants.
    pub fn gate(&self, signal: u32) -> Gate {
        let other = Gate {
            first: 0,
            second: 0,
            operator: Operator::new(0),
        };
        entry(&self.gates, signal.wrapping_sub(self.first_gate()), other)
    }

    /// The place of a signal's first word.
    fn place(&self, signal: u32) -> u32 {
        signal.wrapping_mul(self.words)
    }

    /// One word of a signal.
    pub fn word(&self, signal: u32, word: u32) -> u64 {
        word_at(&self.values, self.place(signal).wrapping_add(word))
    }

    /// The words of a signal.
    pub fn row(&self, signal: u32) -> &[u64] {
        let first = self.place(signal) as usize;
        let end = first.wrapping_add(self.words as usize);
        self.values.get(first..end).unwrap_or(&[])
    }

    /// Sets one word of an input. Gates that are there already don't follow.
    pub fn set_word(&mut self, signal: u32, word: u32, value: u64) {
        let place = self.place(signal).wrapping_add(word);
        put(&mut self.values, place, value);
    }

    /// Appends a gate, whatever its operands, and returns its signal.
    pub fn push(&mut self, gate: Gate) -> Result<u32, AllocError> {
        let signal = self.signals();
        let (first, second) = (self.place(gate.first), self.place(gate.second));
        let masks = gate.operator.masks();
        for word in 0..self.words {
            let left = word_at(&self.values, first.wrapping_add(word));
            let right = word_at(&self.values, second.wrapping_add(word));
            self.values.push(masks.at(left, right))?;
        }
        self.gates.push(gate)?;
        Ok(signal)
    }

    /// Appends a gate that has the values of `signal` in `other`.
    pub fn push_copy(
        &mut self,
        gate: Gate,
        other: &SmallNet,
        signal: u32,
    ) -> Result<u32, AllocError> {
        let own = self.signals();
        self.values.extend_from_slice(other.row(signal))?;
        self.gates.push(gate)?;
        Ok(own)
    }

    /// The literal of a gate that is there already, up to the order of operands and, where `turned`, the complement;
    /// else NONE.
    pub fn find(&self, gate: Gate, complemented: bool) -> u32 {
        let sought = gate.in_order();
        let ends = sought.first ^ sought.second;
        for (index, other) in self.gates.iter().enumerate() {
            if other.first ^ other.second != ends {
                continue;
            }
            let known = other.in_order();
            if known.first == sought.first {
                let signal = self.first_gate().wrapping_add(small(index));
                if known.operator == sought.operator {
                    return literal_of(signal, 0);
                }
                if complemented && known.operator == sought.operator.complemented() {
                    return literal_of(signal, 1);
                }
            }
        }
        NONE
    }

    /// Appends an output.
    pub fn push_output(&mut self, literal: u32) -> Result<(), AllocError> {
        self.outputs.push(literal)?;
        Ok(())
    }

    /// Makes this the part of `other` below a signal, inputs at least, without outputs.
    pub fn restart(&mut self, other: &SmallNet, signal: u32) -> Result<(), AllocError> {
        let end = signal.max(other.first_gate());
        self.inputs = other.inputs;
        self.words = other.words;
        self.outputs.clear();
        self.values.clear();
        let values = other.place(end) as usize;
        self.values
            .extend_from_slice(other.values.get(..values).unwrap_or(&[]))?;
        self.gates.clear();
        let gates = end.wrapping_sub(other.first_gate()) as usize;
        self.gates
            .extend_from_slice(other.gates.get(..gates).unwrap_or(&[]))?;
        Ok(())
    }

    /// Makes this a copy of `other`.
    pub fn copy_from(&mut self, other: &SmallNet) -> Result<(), AllocError> {
        self.restart(other, other.signals())?;
        self.outputs.extend_from_slice(&other.outputs)?;
        Ok(())
    }

    /// How often each signal is read, by gates and outputs.
    pub fn count_reads(&self, reads: &mut Vec<u32>) -> Result<(), AllocError> {
        reads.clear();
        reads.resize(self.signals() as usize, 0)?;
        for gate in &self.gates {
            rows::raise(reads, gate.first);
            rows::raise(reads, gate.second);
        }
        count_outputs(&self.outputs, reads);
        Ok(())
    }

    /// Sets an output.
    pub fn set_output(&mut self, index: usize, literal: u32) {
        if let Some(output) = self.outputs.get_mut(index) {
            *output = literal;
        }
    }

    /// Puts a gate, with the values of `signal`, into the place of `target`.
    pub fn move_gate(&mut self, signal: u32, target: u32, gate: Gate) {
        let (from, to) = (self.place(signal), self.place(target));
        for word in 0..self.words {
            let value = word_at(&self.values, from.wrapping_add(word));
            put(&mut self.values, to.wrapping_add(word), value);
        }
        let index = target.wrapping_sub(self.first_gate());
        put(&mut self.gates, index, gate);
    }

    /// Cuts the net off after so many signals, and renames the signals that outputs read.
    pub fn shorten(&mut self, signals: u32, moved: &[u32]) {
        let gates = signals.saturating_sub(self.first_gate());
        self.gates.truncate(gates as usize);
        let end = self.place(signals) as usize;
        self.values.truncate(end);
        for output in self.outputs.iter_mut() {
            *output = literal_of(rows::at(moved, *output >> 1), *output);
        }
    }

    /// Complements a gate's operator and values.
    pub fn complement_gate(&mut self, signal: u32) {
        let gate = self.gate(signal);
        let complemented = Gate {
            operator: gate.operator.complemented(),
            ..gate
        };
        let index = signal.wrapping_sub(self.first_gate());
        put(&mut self.gates, index, complemented);
        for word in 0..self.words {
            let value = self.word(signal, word);
            self.set_word(signal, word, !value);
        }
    }

    /// Complements what a gate reads of a signal.
    pub fn complement_operand(&mut self, reader: u32, signal: u32) {
        let gate = self.gate(reader);
        let mut operator = gate.operator;
        if gate.first == signal {
            operator = operator.first_complemented();
        }
        if gate.second == signal {
            operator = operator.second_complemented();
        }
        let complemented = Gate { operator, ..gate };
        let index = reader.wrapping_sub(self.first_gate());
        put(&mut self.gates, index, complemented);
    }
}

/// Counts the outputs as reads.
fn count_outputs(outputs: &[u32], reads: &mut [u32]) {
    for output in outputs {
        rows::raise(reads, output >> 1);
    }
}
