//! Sets of nodes that are emptied in constant time: a node is a member if its stamp is the set's.

use rows::{at, put};
use std::alloc::{AllocError, Global};

/// A set of nodes.
#[derive(Drop)]
pub struct Marks {
    stamps: Vec<u32>,
    stamp: u32,
}

impl Marks {
    /// The empty set, of no node.
    pub fn new(alloc: Global) -> Marks {
        Marks {
            stamps: Vec::new(alloc),
            stamp: 1,
        }
    }

    /// Empties the set, and makes room for nodes below `nodes`.
    pub fn clear(&mut self, nodes: u32) -> Result<(), AllocError> {
        if self.stamps.len() < nodes as usize {
            self.stamps.resize(nodes as usize, 0)?;
        }
        if self.stamp == u32::MAX {
            for stamp in self.stamps.iter_mut() {
                *stamp = 0;
            }
            self.stamp = 0;
        }
        self.stamp = self.stamp.saturating_add(1);
        Ok(())
    }

    /// Whether the node is a member.
    pub fn has(&self, node: u32) -> bool {
        at(&self.stamps, node) == self.stamp
    }

    /// Adds a node.
    pub fn add(&mut self, node: u32) {
        put(&mut self.stamps, node, self.stamp);
    }

    /// Removes a node.
    pub fn remove(&mut self, node: u32) {
        put(&mut self.stamps, node, 0);
    }
}
