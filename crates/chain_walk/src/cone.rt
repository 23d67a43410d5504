//! A gate's transitive fanout, and the rows in which an output shows a change of the gate (the complement of its
//! observability don't-cares): the gate is complemented and the change simulated.

use crate::small_net::{Gate, SmallNet, word_at};
use rows::{bit_at, put};
use std::alloc::{AllocError, Global};

/// The transitive fanout of a target, and its values where the target has its complement's. `observed`
/// has the rows in which an output that matters there changes.
#[derive(Drop)]
pub struct Cone {
    depends: Vec<bool>,
    differs: Vec<bool>,
    flipped: Vec<u64>,
    observed: Vec<u64>,
}

/// The values of a signal where the target is complemented.
fn changed_row<'a>(
    net: &'a SmallNet,
    flipped: &'a [u64],
    differs: &'a [bool],
    signal: u32,
) -> &'a [u64] {
    if !bit_at(differs, signal) {
        return net.row(signal);
    }
    let first = signal.wrapping_mul(net.words()) as usize;
    let end = first.wrapping_add(net.words() as usize);
    flipped.get(first..end).unwrap_or(&[])
}

impl Cone {
    /// Nothing depends on anything yet.
    pub fn new(alloc: Global) -> Cone {
        Cone {
            depends: Vec::new(alloc),
            differs: Vec::new(alloc),
            flipped: Vec::new(alloc),
            observed: Vec::new(alloc),
        }
    }

    /// Whether the signal is the target or depends on it.
    pub fn has(&self, signal: u32) -> bool {
        bit_at(&self.depends, signal)
    }

    /// The rows in which a change of the target is observed at an output.
    pub fn observed(&self) -> &[u64] {
        &self.observed
    }

    /// Makes room for the signals of a net.
    fn clear(&mut self, net: &SmallNet) -> Result<(), AllocError> {
        let signals = net.signals() as usize;
        self.depends.clear();
        self.depends.resize(signals, false)?;
        self.differs.clear();
        self.differs.resize(signals, false)?;
        self.observed.clear();
        self.observed.resize(net.words() as usize, 0)?;
        let room = u64::from(net.signals()).saturating_mul(u64::from(net.words())) as usize;
        if self.flipped.len() < room {
            self.flipped.resize(room, 0)?;
        }
        Ok(())
    }

    /// Complements the target.
    fn complement_target(&mut self, net: &SmallNet, target: u32) {
        put(&mut self.depends, target, true);
        put(&mut self.differs, target, true);
        let place = target.wrapping_mul(net.words());
        for word in 0..net.words() {
            put(
                &mut self.flipped,
                place.wrapping_add(word),
                !net.word(target, word),
            );
        }
    }

    /// The values of a gate over changed operands. Says whether they are others.
    fn compute(&mut self, net: &SmallNet, signal: u32, gate: Gate) -> bool {
        let masks = gate.operator.masks();
        let place = signal.wrapping_mul(net.words()) as usize;
        let Some((before, behind)) = self.flipped.split_at_mut_checked(place) else {
            return false;
        };
        let first = changed_row(net, before, &self.differs, gate.first);
        let second = changed_row(net, before, &self.differs, gate.second);
        let mut change = 0;
        for (word, slot) in (0..net.words()).zip(behind.iter_mut()) {
            let value = masks.at(word_at(first, word), word_at(second, word));
            change |= value ^ net.word(signal, word);
            *slot = value;
        }
        change != 0
    }

    /// Carries the change to one gate.
    fn carry_to(&mut self, net: &SmallNet, signal: u32) {
        let gate = net.gate(signal);
        if !self.has(gate.first) && !self.has(gate.second) {
            return;
        }
        put(&mut self.depends, signal, true);
        if bit_at(&self.differs, gate.first) || bit_at(&self.differs, gate.second) {
            let is_other = self.compute(net, signal, gate);
            put(&mut self.differs, signal, is_other);
        }
    }

    /// Adds the rows in which a changed signal matters as the output `index`.
    fn observe_output(&mut self, net: &SmallNet, care: &[u64], index: u32, signal: u32) {
        let place = index.wrapping_mul(net.words());
        let changed = changed_row(net, &self.flipped, &self.differs, signal);
        for (word, slot) in (0..net.words()).zip(self.observed.iter_mut()) {
            let change = word_at(changed, word) ^ net.word(signal, word);
            *slot |= change & word_at(care, place.wrapping_add(word));
        }
    }

    /// Finds the rows in which the outputs show the target.
    fn observe_outputs(&mut self, net: &SmallNet, care: &[u64]) {
        for (index, output) in net.outputs().iter().enumerate() {
            if bit_at(&self.differs, output >> 1) {
                self.observe_output(net, care, crate::small_net::small(index), output >> 1);
            }
        }
    }

    /// Complements a target and carries the change on to the outputs, which matter in the rows of `care`, so many words
    /// for each output.
    pub fn flip(&mut self, net: &SmallNet, target: u32, care: &[u64]) -> Result<(), AllocError> {
        self.clear(net)?;
        self.complement_target(net, target);
        for signal in target.saturating_add(1)..net.signals() {
            self.carry_to(net, signal);
        }
        self.observe_outputs(net, care);
        Ok(())
    }
}
