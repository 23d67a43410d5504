//! Candidate classes: nodes that may be equal or complementary, because they had one signature after the first
//! simulation. A class lists its nodes in order, and only those that were visited and not merged. Nodes that a
//! later assignment tells apart stay in one list, but their signatures differ.

use crate::patterns::Patterns;
use indexmap::IndexSet;
use rows::{entry, put};
use std::alloc::{AllocError, Global};

/// Not a node: the end of a list.
const NONE: u32 = u32::MAX;

/// The candidate classes, each a linked list of nodes.
#[derive(Drop)]
pub(crate) struct CandidateClasses {
    /// The class of each node.
    class: Vec<u32>,
    /// The first and the last node of each class.
    heads: Vec<u32>,
    lasts: Vec<u32>,
    /// The next node of the same class, by node.
    next: Vec<u32>,
}

/// Puts each node into the class of its signature. Classes are numbered in the order of their first nodes. Returns
/// the class of each node and the number of classes.
fn number(alloc: Global, patterns: &Patterns, count: u32) -> Result<(Vec<u32>, usize), AllocError> {
    let mut signatures = IndexSet::with_capacity(alloc, count as usize)?;
    let mut class = Vec::with_capacity(alloc, count as usize)?;
    for variable in 0..count {
        let (index, _) = signatures.insert_full(patterns.signature_of(variable))?;
        class.push(index as u32)?;
    }
    Ok((class, signatures.len()))
}

impl CandidateClasses {
    /// The classes of `count` nodes, each with an empty list.
    pub(crate) fn new(
        alloc: Global,
        patterns: &Patterns,
        count: u32,
    ) -> Result<CandidateClasses, AllocError> {
        let (class, classes) = number(alloc, patterns, count)?;
        Ok(CandidateClasses {
            class,
            heads: vec![in alloc; NONE; classes]?,
            lasts: vec![in alloc; NONE; classes]?,
            next: vec![in alloc; NONE; count as usize]?,
        })
    }

    /// Empties all lists.
    pub(crate) fn clear(&mut self) {
        self.heads.fill(NONE);
        self.lasts.fill(NONE);
        self.next.fill(NONE);
    }

    /// Appends a node to the list of its class.
    pub(crate) fn push(&mut self, variable: u32) {
        let class = entry(&self.class, variable, NONE);
        let last = entry(&self.lasts, class, NONE);
        if last == NONE {
            put(&mut self.heads, class, variable);
        } else {
            put(&mut self.next, last, variable);
        }
        put(&mut self.lasts, class, variable);
    }

    /// The first node in the list of `variable`'s class that still has its signature.
    pub(crate) fn candidate(&self, patterns: &Patterns, variable: u32) -> Option<u32> {
        let signature = patterns.signature_of(variable);
        let mut node = entry(&self.heads, entry(&self.class, variable, NONE), NONE);
        for _turn in 0..self.next.len() {
            if node == NONE {
                return None;
            }
            if patterns.signature_of(node) == signature {
                return Some(node);
            }
            node = entry(&self.next, node, NONE);
        }
        None
    }
}
