//! A limit of levels: which level a node may have, lest a path to a sink gets longer than the limit (its required
//! time). A window may become another net if no output of it comes later than what reads it outside allows.
//!
//! While the graph changes, levels only rise and required times only fall, so that both are on the safe side; `time`
//! makes them exact again. Without a limit nothing is done.

use crate::fanouts::NONE;
use crate::graph::Graph;
use crate::growing::Window;
use crate::loading::in_order;
use crate::marks::Marks;
use chain_walk::SmallNet;
use rows::{at, entry, put};
use std::alloc::{AllocError, Global};

/// The levels of a small net's signals, of which the inputs' are those in the graph, and the latest levels of its
/// outputs.
#[derive(Drop)]
pub struct Timing {
    levels: Vec<u32>,
    latest: Vec<u32>,
    inputs: usize,
}

impl Timing {
    /// No window is timed yet.
    pub fn new(alloc: Global) -> Timing {
        Timing {
            levels: Vec::new(alloc),
            latest: Vec::new(alloc),
            inputs: 0,
        }
    }

    /// Times a window.
    pub fn begin(&mut self, graph: &Graph, window: &Window) -> Result<(), AllocError> {
        self.levels.clear();
        self.levels.push(0)?;
        for input in &window.inputs {
            self.levels.push(graph.level(*input))?;
        }
        self.inputs = self.levels.len();
        self.latest.clear();
        for output in &window.outputs {
            self.latest.push(graph.latest(*output, &window.inside))?;
        }
        Ok(())
    }

    /// Whether a small net in the window's place makes no path too long.
    pub fn fits(&mut self, net: &SmallNet) -> Result<bool, AllocError> {
        self.levels.truncate(self.inputs);
        for gate in net.gates() {
            let below = at(&self.levels, gate.first).max(at(&self.levels, gate.second));
            self.levels.push(below.saturating_add(1))?;
        }
        for (output, latest) in net.outputs().iter().zip(self.latest.iter()) {
            if at(&self.levels, *output >> 1) > *latest {
                return Ok(false);
            }
        }
        Ok(true)
    }
}

impl Graph {
    /// Whether there is a limit of levels.
    pub fn is_limited(&self) -> bool {
        self.most_levels != NONE
    }

    /// The required time of a node, for a sink one more than that of what it reads; NONE where nothing reads it.
    fn required(&self, node: u32) -> u32 {
        entry(&self.required, node, NONE)
    }

    /// The latest level at which what reads a node from outside a window allows it.
    fn latest(&self, node: u32, inside: &Marks) -> u32 {
        let mut latest = NONE;
        let mut link = self.fanouts.first_of(node);
        for _reader in 0..self.reads(node) {
            if link == NONE {
                break;
            }
            if !inside.has(link >> 1) {
                latest = latest.min(self.required(link >> 1).saturating_sub(1));
            }
            link = self.fanouts.after(link);
        }
        latest
    }

    /// Lowers the required time of a gate.
    fn require(&mut self, node: u32, time: u32) -> Result<(), AllocError> {
        if self.is_gate(node) && self.required(node) > time {
            put(&mut self.required, node, time);
            self.rising.push(node)?;
        }
        Ok(())
    }

    /// Lowers the required times below a gate or a sink, as far as it needs that.
    pub(crate) fn lower_required(&mut self, node: u32) -> Result<(), AllocError> {
        if !self.is_limited() {
            return Ok(());
        }
        self.rising.clear();
        self.rising.push(node)?;
        let most = u64::from(self.nodes()).saturating_mul(16);
        for _lowered in 0..most {
            let Some(next) = self.rising.pop() else {
                break;
            };
            let gate = self.gate(next);
            let time = self.required(next).saturating_sub(1);
            self.require(gate.first >> 1, time)?;
            self.require(gate.second >> 1, time)?;
        }
        Ok(())
    }

    /// Requires the sinks by the limit, and one level earlier where a NOT gate comes between.
    fn require_sinks(&mut self) -> Result<(), AllocError> {
        let mut read = Marks::new(self.alloc);
        read.clear(self.nodes())?;
        for sink in 0..self.sinks() {
            let literal = self.sink(sink);
            if literal & 1 == 0 {
                read.add(literal >> 1);
            }
        }
        for sink in 0..self.sinks() {
            let literal = self.sink(sink);
            let turned = u32::from(literal & 1 == 1 && read.has(literal >> 1));
            let time = self.most_levels.saturating_add(1).saturating_sub(turned);
            let node = self.sink_node(sink);
            put(&mut self.required, node, time);
            self.require(literal >> 1, time.saturating_sub(1))?;
        }
        Ok(())
    }

    /// Makes the levels and the required times exact.
    pub fn time(&mut self) -> Result<(), AllocError> {
        let order = in_order(self.alloc, self, self.live())?;
        for node in &order {
            let level = self.level_over(self.gate(*node));
            put(&mut self.levels, *node, level);
            put(&mut self.required, *node, NONE);
        }
        self.require_sinks()?;
        for node in order.iter().rev() {
            let gate = self.gate(*node);
            let time = self.required(*node).saturating_sub(1);
            self.require(gate.first >> 1, time)?;
            self.require(gate.second >> 1, time)?;
        }
        self.rising.clear();
        Ok(())
    }

    /// Limits the levels.
    pub fn limit_levels(&mut self, most: u32) -> Result<(), AllocError> {
        self.most_levels = most;
        if self.is_limited() {
            self.time()
        } else {
            Ok(())
        }
    }

    /// Whether no path is too long, by the levels as they are.
    pub fn is_within_limit(&self) -> bool {
        for sink in 0..self.sinks() {
            let latest = self.required(self.sink_node(sink)).saturating_sub(1);
            if self.level(self.sink(sink) >> 1) > latest {
                return false;
            }
        }
        true
    }
}
