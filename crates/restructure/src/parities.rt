//! Classes of nodes that are equal up to complement (union-find with parities), for the choice of polarities.

use rows::{at, put};
use std::alloc::{AllocError, Global};

/// For each node a literal of an earlier node of its class that equals it; its own literal where it is the
/// first of its class.
#[derive(Drop)]
pub(crate) struct Parities {
    above: Vec<u32>,
}

impl Parities {
    /// Each of `nodes` nodes in a class of its own.
    pub(crate) fn new(alloc: Global, nodes: u32) -> Result<Parities, AllocError> {
        let mut above = Vec::with_capacity(alloc, nodes as usize)?;
        for node in 0..nodes {
            above.push(node.wrapping_mul(2))?;
        }
        Ok(Parities { above })
    }

    /// The literal of the first node of the class that equals the given literal. Paths are halved on the way.
    pub(crate) fn first(&mut self, literal: u32) -> u32 {
        let mut here = literal;
        for _step in 0..self.above.len() {
            let node = here >> 1;
            let parent = at(&self.above, node);
            if parent >> 1 == node {
                return here;
            }
            let next = at(&self.above, parent >> 1) ^ (parent & 1);
            put(&mut self.above, node, next);
            here = next ^ (here & 1);
        }
        here
    }

    /// Makes two literals equal, unless their nodes are in one class already.
    pub(crate) fn unite(&mut self, one: u32, other: u32) {
        let a = self.first(one);
        let b = self.first(other);
        if a >> 1 == b >> 1 {
            return;
        }
        let low = a.min(b);
        let high = a.max(b);
        put(&mut self.above, high >> 1, low ^ (high & 1));
    }
}
