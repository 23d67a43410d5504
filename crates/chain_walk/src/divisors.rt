//! The divisors: signals outside a target's fanout, which its replacement may read.

use crate::cone::Cone;
use crate::row_sets::{RowSets, first_members, without_lowest};
use crate::small_net::{SmallNet, small};
use rows::{Random, at, bit_at, entry, put, raise};
use std::alloc::{AllocError, Global};

/// Up to so many signals of a net all are divisors.
const ALL_SIGNALS: u32 = 64;

/// About so many divisors of a larger net are taken, near the target.
const SAMPLED: u32 = 48;

/// A random walk from the target or a divisor has so many steps.
const WALK_STEPS: u32 = 4;

/// The divisors as a set of some signals: all, or those near the target. These stay, with their row sets, while the net
/// is the same and all. And the readers of each signal, one list after another.
#[derive(Drop)]
pub struct Divisors {
    signals: Vec<u32>,
    all: u64,
    sets: RowSets,
    is_whole: bool,
    listed: Vec<u32>,
    marked: Vec<bool>,
    starts: Vec<u32>,
    readers: Vec<u32>,
}

impl Divisors {
    /// No divisors.
    pub fn new(alloc: Global) -> Divisors {
        Divisors {
            signals: Vec::new(alloc),
            all: 0,
            sets: RowSets::new(alloc),
            is_whole: false,
            listed: Vec::new(alloc),
            marked: Vec::new(alloc),
            starts: Vec::new(alloc),
            readers: Vec::new(alloc),
        }
    }

    /// The signals that sets are of: member k is the k-th one.
    pub fn signals(&self) -> &[u32] {
        &self.signals
    }

    /// The set of the divisors.
    pub fn all(&self) -> u64 {
        self.all
    }

    /// The divisors one by one, as they were listed.
    pub fn listed(&self) -> &[u32] {
        &self.listed
    }

    /// Makes the row sets of a word.
    pub fn prepare(&mut self, net: &SmallNet, word: u32) {
        self.sets.prepare(net, &self.signals, word);
    }

    /// The row sets of a word, which were made.
    pub fn sets(&self, word: u32) -> &[u64] {
        self.sets.of_word(word)
    }

    /// The net is another one from now on.
    pub fn forget(&mut self) {
        self.is_whole = false;
    }

    /// Lists the divisors one by one.
    pub fn list_all(&mut self) -> Result<(), AllocError> {
        self.listed.clear();
        let mut left = self.all;
        for _member in 0..self.all.count_ones() {
            self.listed.push(at(&self.signals, left.trailing_zeros()))?;
            left = without_lowest(left);
        }
        Ok(())
    }

    /// Takes all signals of a net.
    fn take_net(&mut self, net: &SmallNet) -> Result<(), AllocError> {
        self.signals.clear();
        for signal in 0..net.signals() {
            self.signals.push(signal)?;
        }
        self.is_whole = true;
        self.sets.clear(net.words())
    }

    /// Makes all signals outside the cone divisors.
    fn take_all(&mut self, net: &SmallNet, cone: &Cone) -> Result<(), AllocError> {
        if !self.is_whole {
            self.take_net(net)?;
        }
        self.all = 0;
        for signal in 1..net.signals() {
            if !cone.has(signal) {
                self.all |= 1u64.wrapping_shl(signal);
            }
        }
        Ok(())
    }

    /// Takes a signal, unless it is in the cone or taken.
    fn take(&mut self, cone: &Cone, signal: u32) -> Result<(), AllocError> {
        if signal != 0 && !cone.has(signal) && !bit_at(&self.marked, signal) {
            put(&mut self.marked, signal, true);
            self.signals.push(signal)?;
        }
        Ok(())
    }

    /// Counts the readers of each signal, at the place after its own.
    fn count_readers(&mut self, net: &SmallNet) -> Result<(), AllocError> {
        self.starts.clear();
        self.starts
            .resize((net.signals() as usize).saturating_add(2), 0)?;
        for gate in net.gates() {
            raise(&mut self.starts, gate.first.saturating_add(2));
            raise(&mut self.starts, gate.second.saturating_add(2));
        }
        Ok(())
    }

    /// Where each signal's list begins, at the place after its own.
    fn sum_up(&mut self) {
        let mut sum = 0u32;
        for start in self.starts.iter_mut() {
            sum = sum.saturating_add(*start);
            *start = sum;
        }
    }

    /// Puts a reader at the end of a signal's list.
    fn put_reader(&mut self, signal: u32, reader: u32) {
        let place = at(&self.starts, signal.saturating_add(1));
        put(&mut self.readers, place, reader);
        raise(&mut self.starts, signal.saturating_add(1));
    }

    /// Lists the readers of each signal.
    fn list_readers(&mut self, net: &SmallNet) -> Result<(), AllocError> {
        self.count_readers(net)?;
        self.sum_up();
        self.readers.clear();
        self.readers
            .resize((net.size() as usize).saturating_mul(2), 0)?;
        for signal in net.first_gate()..net.signals() {
            let gate = net.gate(signal);
            self.put_reader(gate.first, signal);
            self.put_reader(gate.second, signal);
        }
        Ok(())
    }

    /// A random neighbour of a signal, an operand twice as often as a reader; the signal itself where there is none.
    fn neighbour(&self, net: &SmallNet, signal: u32, random: &mut Random) -> u32 {
        if net.is_gate(signal) && random.below(3) < 2 {
            let gate = net.gate(signal);
            return if random.below(2) == 0 {
                gate.first
            } else {
                gate.second
            };
        }
        let start = at(&self.starts, signal);
        let end = at(&self.starts, signal.saturating_add(1));
        let index = start.saturating_add(random.below(end.saturating_sub(start)));
        if index < end {
            entry(&self.readers, index, signal)
        } else {
            signal
        }
    }

    /// Where a short walk begins: at the target for the first ones, then at a divisor.
    fn origin(&self, target: u32, step: u32, random: &mut Random) -> u32 {
        if step < SAMPLED {
            return target;
        }
        let index = random.below(small(self.signals.len()));
        entry(&self.signals, index, target)
    }

    /// Takes signals near the target, those on short random walks.
    fn sample(
        &mut self,
        net: &SmallNet,
        cone: &Cone,
        target: u32,
        random: &mut Random,
    ) -> Result<(), AllocError> {
        self.marked.clear();
        self.marked.resize(net.signals() as usize, false)?;
        self.list_readers(net)?;
        let gate = net.gate(target);
        self.take(cone, gate.first)?;
        self.take(cone, gate.second)?;
        let mut signal = target;
        for step in 0..SAMPLED.saturating_mul(5) {
            if self.signals.len() >= SAMPLED as usize {
                break;
            }
            if step % WALK_STEPS == 0 {
                signal = self.origin(target, step, random);
            }
            signal = self.neighbour(net, signal, random);
            self.take(cone, signal)?;
        }
        Ok(())
    }

    /// Lists the divisors of a target, whose cone is `cone`.
    pub fn list(
        &mut self,
        net: &SmallNet,
        cone: &Cone,
        target: u32,
        random: &mut Random,
    ) -> Result<(), AllocError> {
        if net.signals() <= ALL_SIGNALS {
            return self.take_all(net, cone);
        }
        self.is_whole = false;
        self.signals.clear();
        self.sample(net, cone, target, random)?;
        self.all = first_members(small(self.signals.len()));
        self.sets.clear(net.words())
    }
}
