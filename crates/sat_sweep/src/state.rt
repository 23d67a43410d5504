//! The state of a sweep, apart from the solver.

use crate::classes::CandidateClasses;
use crate::cones::ConeRows;
use crate::nodes::{Edge, Nodes};
use crate::patience::Patience;
use crate::patterns::Patterns;
use crate::strash::StrashTable;
use net_core::Net;
use rows::{entry, put};
use sat_solve::Solver;
use std::alloc::{AllocError, Global};

/// The nodes, their simulation, the merged ones, and the conflicts spent.
#[derive(Drop)]
pub(crate) struct SweepState {
    pub nodes: Nodes,
    pub patterns: Patterns,
    pub cones: ConeRows,
    pub patience: Patience,
    classes: CandidateClasses,
    strash: StrashTable,
    /// The representative of each node: itself if it wasn't merged.
    same: Vec<Edge>,
    /// Whether a node is in the fanin cone of an open sink.
    needed: Vec<bool>,
    /// Whether a sink is still open: not known to be equal, and not left to the search after the sweep.
    open: Vec<bool>,
    spent: u32,
    budget: u32,
}

/// Makes each node its own representative.
fn own_representatives(alloc: Global, count: u32) -> Result<Vec<Edge>, AllocError> {
    let mut same = Vec::with_capacity(alloc, count as usize)?;
    for variable in 0..count {
        same.push(Edge {
            variable,
            complemented: false,
        })?;
    }
    Ok(same)
}

impl SweepState {
    /// The initial state for two nets with equally many sources: random assignments are simulated.
    pub(crate) fn new(
        alloc: Global,
        first: &Net,
        second: &Net,
        budget: u32,
    ) -> Result<SweepState, AllocError> {
        let nodes = Nodes::new(alloc, first, second)?;
        let count = nodes.count();
        let sinks = nodes.first_sinks.len();
        let patterns = Patterns::new(alloc, &nodes)?;
        let cones = ConeRows::new(alloc, &nodes)?;
        let classes = CandidateClasses::new(alloc, &patterns, nodes.end())?;
        let same = own_representatives(alloc, nodes.end())?;
        Ok(SweepState {
            nodes,
            patterns,
            cones,
            patience: Patience::new(),
            classes,
            strash: StrashTable::new(alloc),
            same,
            needed: vec![in alloc; false; count]?,
            open: vec![in alloc; true; sinks]?,
            spent: 0,
            budget,
        })
    }

    /// Begins a round: marks the nodes in the cones of open sinks as needed, empties the hash table and the
    /// candidate lists, lists the constant and the sources, and resets the counters of `patience`.
    pub(crate) fn begin_round(&mut self) {
        self.patience = Patience::new();
        self.needed.fill(false);
        self.need_sinks();
        self.need_cones();
        self.strash.clear();
        self.classes.clear();
        for variable in 0..=self.nodes.sources {
            self.classes.push(variable);
        }
    }

    /// Marks the signals of the open sinks as needed.
    fn need_sinks(&mut self) {
        for (sink, open) in self.open.iter().enumerate() {
            if !*open {
                continue;
            }
            let (one, other) = self.nodes.sink(sink);
            put(&mut self.needed, one, true);
            put(&mut self.needed, other, true);
        }
    }

    /// Marks the operands of needed gates as needed, from the last gate down.
    fn need_cones(&mut self) {
        for variable in (self.nodes.sources..self.nodes.end()).rev() {
            if !entry(&self.needed, variable, false) {
                continue;
            }
            if let Some(node) = self.nodes.gate(variable) {
                put(&mut self.needed, node.a, true);
                put(&mut self.needed, node.b, true);
            }
        }
    }

    /// Whether a node is in the fanin cone of an open sink.
    pub(crate) fn is_needed(&self, variable: u32) -> bool {
        entry(&self.needed, variable, false)
    }

    /// The representative of a node.
    fn representative(&self, variable: u32) -> Edge {
        let itself = Edge {
            variable,
            complemented: false,
        };
        entry(&self.same, variable, itself)
    }

    /// Whether a node was merged into another one.
    pub(crate) fn is_merged(&self, variable: u32) -> bool {
        self.representative(variable).variable != variable
    }

    /// Path compression: replaces the representative of `variable` by that one's representative.
    pub(crate) fn follow(&mut self, variable: u32) {
        let edge = self.representative(variable);
        let root = self.representative(edge.variable);
        if root.variable != edge.variable {
            let other = Edge {
                variable: root.variable,
                complemented: edge.complemented != root.complemented,
            };
            self.merge(variable, other);
        }
    }

    /// Lists a node as a candidate, unless it was merged.
    pub(crate) fn list(&mut self, variable: u32) {
        if !self.is_merged(variable) {
            self.classes.push(variable);
        }
    }

    /// The representative of the first gate that is structurally equal to the gate `variable`, if it is another
    /// gate.
    pub(crate) fn strash_equal(&mut self, variable: u32) -> Result<Option<u32>, AllocError> {
        let Some(node) = self.nodes.gate(variable) else {
            return Ok(None);
        };
        let a = self.representative(node.a);
        let b = self.representative(node.b);
        let owner = self.strash.owner(variable, node, a, b)?;
        if owner == variable {
            return Ok(None);
        }
        Ok(Some(self.representative(owner).variable))
    }

    /// The first listed node that may be equal or complementary to `variable`.
    pub(crate) fn candidate(&self, variable: u32) -> Option<u32> {
        self.classes.candidate(&self.patterns, variable)
    }

    /// Whether two nodes may be equal or complementary.
    pub(crate) fn may_be_equal(&self, x: u32, y: u32) -> bool {
        self.patterns.signature_of(x) == self.patterns.signature_of(y)
    }

    /// The signal that `x` equals if the two are equal or complementary: `y`, complemented if the polarities
    /// differ.
    pub(crate) fn as_other(&self, x: u32, y: u32) -> Edge {
        Edge {
            variable: y,
            complemented: self.patterns.are_complementary(x, y),
        }
    }

    /// Merges `x` into `y`, which is its own representative.
    pub(crate) fn merge(&mut self, x: u32, y: Edge) {
        put(&mut self.same, x, y);
        self.cones.merge(x, y.variable);
    }

    /// Simulates the solver's current assignment. Returns whether a sink differs near it.
    pub(crate) fn learn<S: Solver>(&mut self, solver: &S) -> bool {
        self.patterns.learn(&self.nodes, solver);
        self.patterns.is_different(&self.nodes)
    }

    /// Charges the conflict limit of a query that was given up.
    pub(crate) fn spend(&mut self, conflicts: u32) {
        self.spent = self.spent.saturating_add(conflicts);
    }

    /// Whether a pair is within one net: two gates of it, or a gate and the constant.
    pub(crate) fn is_within_net(&self, x: u32, y: u32) -> bool {
        y == 0 || self.nodes.are_of_one_net(x, y)
    }

    /// The conflicts that count against the budget.
    pub(crate) fn spent(&self) -> u32 {
        self.spent
    }

    /// Whether the budget is spent.
    pub(crate) fn is_spent(&self) -> bool {
        self.spent >= self.budget
    }

    /// The conflict limit `limit`, cut to what is left of the budget.
    pub(crate) fn most_of(&self, limit: u32) -> u32 {
        limit.min(self.budget.saturating_sub(self.spent))
    }

    /// The number of sinks.
    pub(crate) fn sinks(&self) -> usize {
        self.open.len()
    }

    /// Whether a sink is open.
    fn is_open(&self, sink: usize) -> bool {
        self.open.get(sink).copied().unwrap_or(false)
    }

    /// Whether the two signals of a sink are merged, with equal polarity.
    fn is_sink_merged(&self, sink: usize) -> bool {
        let (Some(one), Some(other)) = (
            self.nodes.first_sinks.get(sink),
            self.nodes.second_sinks.get(sink),
        ) else {
            return false;
        };
        let first = self.representative(one.variable);
        let second = self.representative(other.variable);
        let complemented = (one.complemented != first.complemented)
            != (other.complemented != second.complemented);
        first.variable == second.variable && !complemented
    }

    /// Whether a sink is visited: it is open and, with `merged_only`, its two signals are merged.
    pub(crate) fn is_asked(&self, sink: usize, merged_only: bool) -> bool {
        self.is_open(sink) && (!merged_only || self.is_sink_merged(sink))
    }

    /// Closes a sink.
    pub(crate) fn close(&mut self, sink: usize) {
        if sink < self.open.len() {
            self.open[sink] = false;
        }
    }

    /// Whether some sink is open.
    pub(crate) fn has_open(&self) -> bool {
        self.open.iter().any(|open| *open)
    }
}
