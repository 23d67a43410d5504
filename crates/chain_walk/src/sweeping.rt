//! What a net costs, and the removal of gates that nothing reads.

use crate::choices::Choices;
use crate::small_net::{Gate, SmallNet, literal_of};
use rows::{at, bit_at, put};
use std::alloc::AllocError;

/// Whether complements of outputs cost a gate, where the basis absorbs other complements.
#[derive(Clone, Copy, PartialEq, Eq)]
pub enum OutputComplements {
    /// They cost nothing.
    Free,
    /// The complement of an input costs a gate, and so does a gate that is an output with and without complement.
    Counted,
}

/// What a sweep uses again.
#[derive(Drop)]
pub struct Sweep {
    live: Vec<bool>,
    moved: Vec<u32>,
}

/// Marks the signals that outputs read.
fn mark_outputs(outputs: &[u32], live: &mut [bool]) {
    for output in outputs {
        put(live, output >> 1, true);
    }
}

/// 1 where the output at `index` needs a gate that no other output pays for.
fn extra_gate(net: &SmallNet, outputs: &[u32], index: usize, literal: u32) -> u32 {
    let earlier = outputs.get(..index).unwrap_or(&[]);
    let complemented = literal & 1 == 1 && literal > 1 && !earlier.contains(&literal);
    u32::from(complemented && (!net.is_gate(literal >> 1) || outputs.contains(&(literal ^ 1))))
}

/// How many gates a net costs.
pub fn cost_of(net: &SmallNet, complements: OutputComplements) -> u32 {
    let mut cost = net.size();
    if complements == OutputComplements::Free {
        return cost;
    }
    for (index, literal) in net.outputs().iter().enumerate() {
        cost = cost.saturating_add(extra_gate(net, net.outputs(), index, *literal));
    }
    cost
}

impl Sweep {
    /// Nothing is marked yet.
    pub fn new(alloc: std::alloc::Global) -> Sweep {
        Sweep {
            live: Vec::new(alloc),
            moved: Vec::new(alloc),
        }
    }

    /// Marks the signals that lead to outputs, and says whether each gate does.
    fn mark(&mut self, net: &SmallNet) -> Result<bool, AllocError> {
        self.live.clear();
        self.live.resize(net.signals() as usize, false)?;
        mark_outputs(net.outputs(), &mut self.live);
        let mut all = true;
        for step in 0..net.size() {
            let signal = net.signals().wrapping_sub(step).wrapping_sub(1);
            if bit_at(&self.live, signal) {
                let gate = net.gate(signal);
                put(&mut self.live, gate.first, true);
                put(&mut self.live, gate.second, true);
            } else {
                all = false;
            }
        }
        Ok(all)
    }

    /// The gate over the signals as they are after the sweep.
    fn moved_gate(&self, gate: Gate) -> Gate {
        Gate {
            first: at(&self.moved, gate.first),
            second: at(&self.moved, gate.second),
            operator: gate.operator,
        }
    }

    /// Begins with the signals that stay where they are.
    fn begin(&mut self, net: &SmallNet) -> Result<(), AllocError> {
        self.moved.clear();
        for signal in 0..net.first_gate() {
            self.moved.push(signal)?;
        }
        Ok(())
    }

    /// Moves the marked gates to the front; those behind them are left for `SmallNet::shorten`.
    fn close_up(&mut self, net: &mut SmallNet) -> Result<u32, AllocError> {
        let mut next = net.first_gate();
        for signal in net.first_gate()..net.signals() {
            self.moved.push(next)?;
            if bit_at(&self.live, signal) {
                let gate = self.moved_gate(net.gate(signal));
                net.move_gate(signal, next, gate);
                next = next.saturating_add(1);
            }
        }
        Ok(next)
    }

    /// Removes the gates that lead to no output.
    pub fn sweep(&mut self, net: &mut SmallNet) -> Result<(), AllocError> {
        if self.mark(net)? {
            return Ok(());
        }
        self.begin(net)?;
        let signals = self.close_up(net)?;
        net.shorten(signals, &self.moved);
        Ok(())
    }
}

/// Complements a gate, and in its readers the operand.
fn complement_signal(net: &mut SmallNet, signal: u32) {
    net.complement_gate(signal);
    for reader in signal..net.signals() {
        net.complement_operand(reader, signal);
    }
}

/// The outputs' literals after a gate was complemented.
fn complement_outputs(net: &mut SmallNet, signal: u32) {
    for index in 0..net.outputs().len() {
        let literal = match net.outputs().get(index) {
            Some(literal) => *literal,
            None => 0,
        };
        if literal >> 1 == signal {
            net.set_output(index, literal ^ 1);
        }
    }
}

/// A gate for the complement of a signal, or the signal itself complemented, where no output reads it as it is.
fn remove_complement(
    net: &mut SmallNet,
    choices: &Choices,
    index: usize,
) -> Result<(), AllocError> {
    let literal = match net.outputs().get(index) {
        Some(literal) => *literal,
        None => 0,
    };
    if literal & 1 == 0 || literal <= 1 {
        return Ok(());
    }
    let signal = literal >> 1;
    if net.is_gate(signal) && !net.outputs().contains(&(literal ^ 1)) {
        complement_signal(net, signal);
        complement_outputs(net, signal);
        return Ok(());
    }
    let other = crate::strash::negated(net, choices, signal)?;
    net.set_output(index, literal_of(other, 0));
    Ok(())
}

/// Makes each output a signal without complement, or a constant.
pub fn remove_output_complements(net: &mut SmallNet, choices: &Choices) -> Result<(), AllocError> {
    for index in 0..net.outputs().len() {
        remove_complement(net, choices, index)?;
    }
    Ok(())
}
