//! The decision variables of the solver's questions: deciding a variable makes its fanins decision variables too.
//! These are the operands of a gate, the two signals of a sink's difference, or the representative alone if the
//! node was merged. The last open variable is decided first, so a gate comes before its operands, and all open
//! gates of the second net before the nodes of the first that they were merged with. So a question explores the
//! fanin cones of a pair down to what the two share, and no further.

use crate::nodes::Nodes;
use rows::put;
use sat_solve::Cones;
use std::alloc::{AllocError, Global};

/// The fanins and the rank of each variable, as `sat_solve::Cones` takes them.
#[derive(Drop)]
pub(crate) struct ConeRows {
    first: Vec<u32>,
    second: Vec<u32>,
    /// The variable's own number: of the open variables the last one is decided first.
    rank: Vec<u32>,
}

impl ConeRows {
    /// The fanins of the nodes, and of the sinks' differences, whose variables come after the nodes.
    pub(crate) fn new(alloc: Global, nodes: &Nodes) -> Result<ConeRows, AllocError> {
        let room = nodes.count().saturating_add(nodes.first_sinks.len());
        let mut rows = ConeRows {
            first: Vec::with_capacity(alloc, room)?,
            second: Vec::with_capacity(alloc, room)?,
            rank: Vec::with_capacity(alloc, room)?,
        };
        rows.push_nodes(nodes)?;
        rows.push_differences(nodes)?;
        Ok(rows)
    }

    /// Appends the fanins of the next variable.
    fn push(&mut self, first: u32, second: u32) -> Result<(), AllocError> {
        self.first.push(first)?;
        self.second.push(second)?;
        let variable = self.rank.len().min(u32::MAX as usize) as u32;
        self.rank.push(variable)?;
        Ok(())
    }

    /// Appends the fanins of the nodes. Sources have none.
    fn push_nodes(&mut self, nodes: &Nodes) -> Result<(), AllocError> {
        for (variable, node) in nodes.nodes.iter().enumerate() {
            if variable <= nodes.sources as usize {
                self.push(0, 0)?;
            } else {
                self.push(node.a, node.b)?;
            }
        }
        Ok(())
    }

    /// Appends the fanins of the sinks' differences.
    fn push_differences(&mut self, nodes: &Nodes) -> Result<(), AllocError> {
        for (one, other) in nodes.first_sinks.iter().zip(nodes.second_sinks.iter()) {
            self.push(one.variable, other.variable)?;
        }
        Ok(())
    }

    /// Replaces the fanins of a merged node by its representative.
    pub(crate) fn merge(&mut self, variable: u32, representative: u32) {
        put(&mut self.first, variable, representative);
        put(&mut self.second, variable, 0);
    }

    /// The arrays as the solver takes them.
    pub(crate) fn rows(&self) -> Cones<'_> {
        Cones {
            first: &self.first,
            second: &self.second,
            rank: &self.rank,
        }
    }
}
