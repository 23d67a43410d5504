//! The net with a gate replaced: the gates outside the target's cone, the new gates, and the rest of the cone
//! over them. That order is a topological one, since nothing outside the cone reads it.

use crate::change::Change;
use crate::choices::Choices;
use crate::cone::Cone;
use crate::small_net::{Gate, NONE, SmallNet, literal_of};
use crate::strash::{create_gate, uncomplemented};
use rows::{at, bit_at, put};
use std::alloc::{AllocError, Global};

/// Where the signals of the old net are in the new one, as literals. A signal is `plain` where its gate is a new signal
/// of its own, without complement, so that a gate over plain signals needn't be sought.
#[derive(Drop)]
pub struct Rebuild {
    moved: Vec<u32>,
    plain: Vec<bool>,
}

impl Rebuild {
    /// Nothing is moved yet.
    pub fn new(alloc: Global) -> Rebuild {
        Rebuild {
            moved: Vec::new(alloc),
            plain: Vec::new(alloc),
        }
    }

    /// The new literal of an old one; NONE where there is none.
    fn literal(&self, old: u32) -> u32 {
        let moved = rows::entry(&self.moved, old >> 1, NONE);
        if moved == NONE {
            NONE
        } else {
            moved ^ (old & 1)
        }
    }

    /// The new literal of an old signal.
    fn signal(&self, old: u32) -> u32 {
        rows::entry(&self.moved, old, NONE)
    }

    /// Begins with the signals below a target, which stay.
    fn begin(&mut self, net: &SmallNet, target: u32) -> Result<(), AllocError> {
        self.moved.clear();
        for signal in 0..target {
            self.moved.push(literal_of(signal, 0))?;
        }
        self.moved.resize(net.signals() as usize, NONE)?;
        self.plain.clear();
        self.plain.resize(target as usize, true)?;
        self.plain.resize(net.signals() as usize, false)?;
        Ok(())
    }

    /// Notes a gate that is a signal of its own.
    fn map_to(&mut self, old: u32, new: u32) {
        put(&mut self.moved, old, literal_of(new, 0));
        put(&mut self.plain, old, true);
    }

    /// The gate over the new signals of plain operands.
    fn plain_gate(&self, gate: Gate) -> Gate {
        Gate {
            first: at(&self.moved, gate.first) >> 1,
            second: at(&self.moved, gate.second) >> 1,
            operator: gate.operator,
        }
    }

    /// Copies the gates outside the cone that are behind the target, with their values.
    fn copy_outside(
        &mut self,
        net: &SmallNet,
        cone: &Cone,
        target: u32,
        next: &mut SmallNet,
    ) -> Result<(), AllocError> {
        for signal in target.saturating_add(1)..net.signals() {
            if !cone.has(signal) {
                let gate = self.plain_gate(net.gate(signal));
                let new = next.push_copy(gate, net, signal)?;
                self.map_to(signal, new);
            }
        }
        Ok(())
    }

    /// The new literal of a change.
    fn make(
        &self,
        choices: &Choices,
        change: Change,
        next: &mut SmallNet,
    ) -> Result<u32, AllocError> {
        match change {
            Change::Literal(literal) => Ok(self.literal(literal)),
            Change::One(gate) => self.make_gate(choices, gate, next),
            Change::Two(inner, outer, beside) => {
                let literal = self.make_gate(choices, inner, next)?;
                create_gate(next, choices, outer, self.signal(beside), literal)
            }
        }
    }

    /// The new literal of a gate over old signals.
    fn make_gate(
        &self,
        choices: &Choices,
        gate: Gate,
        next: &mut SmallNet,
    ) -> Result<u32, AllocError> {
        create_gate(
            next,
            choices,
            gate.operator,
            self.signal(gate.first),
            self.signal(gate.second),
        )
    }

    /// Moves one gate of the cone.
    fn move_gate(
        &mut self,
        net: &SmallNet,
        choices: &Choices,
        signal: u32,
        next: &mut SmallNet,
    ) -> Result<(), AllocError> {
        let gate = net.gate(signal);
        if bit_at(&self.plain, gate.first) && bit_at(&self.plain, gate.second) {
            let new = next.push(self.plain_gate(gate))?;
            self.map_to(signal, new);
            return Ok(());
        }
        let fresh = next.signals();
        let literal = self.make_gate(choices, gate, next)?;
        put(&mut self.moved, signal, literal);
        put(&mut self.plain, signal, literal == literal_of(fresh, 0));
        Ok(())
    }

    /// Moves the gates of the cone after the target.
    fn move_cone(
        &mut self,
        net: &SmallNet,
        choices: &Choices,
        cone: &Cone,
        target: u32,
        next: &mut SmallNet,
    ) -> Result<(), AllocError> {
        for signal in target.saturating_add(1)..net.signals() {
            if cone.has(signal) {
                self.move_gate(net, choices, signal, next)?;
            }
        }
        Ok(())
    }

    /// Moves the outputs. False where one can't be made.
    fn move_outputs(
        &mut self,
        net: &SmallNet,
        choices: &Choices,
        next: &mut SmallNet,
    ) -> Result<bool, AllocError> {
        for output in net.outputs() {
            let mut literal = self.literal(*output);
            if !choices.absorbs() {
                literal = uncomplemented(next, choices, literal)?;
            }
            if literal == NONE {
                return Ok(false);
            }
            next.push_output(literal)?;
        }
        Ok(true)
    }

    /// Makes `next` the net with the target replaced, whose cone is `cone`. Gates that nothing reads are
    /// left in it. False where the basis can't make it.
    pub fn rebuild(
        &mut self,
        net: &SmallNet,
        choices: &Choices,
        cone: &Cone,
        target: u32,
        change: Change,
        next: &mut SmallNet,
    ) -> Result<bool, AllocError> {
        next.restart(net, target)?;
        self.begin(net, target)?;
        self.copy_outside(net, cone, target, next)?;
        let root = self.make(choices, change, next)?;
        put(&mut self.moved, target, root);
        self.move_cone(net, choices, cone, target, next)?;
        self.move_outputs(net, choices, next)
    }
}
