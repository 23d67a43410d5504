//! The fanout of each node as a doubly linked list, so that a reader comes and goes in constant time. A link is
//! 2 * reader + operand, the operand being 0 or 1; a reader of both operands stands in the list twice.

use rows::{Random, at, entry, put, raise};
use std::alloc::{AllocError, Global};

/// No link, no node and no literal.
pub const NONE: u32 = 0xFFFF_FFFF;

/// A random reader is one of the first so many.
const MOST_DRAWN: u32 = 64;

/// A number of things in memory, for which 32 bits suffice.
pub fn small(number: usize) -> u32 {
    (number as u64 & 0xFFFF_FFFF) as u32
}

/// For each node its first link and how often it is read; for each link its neighbours.
#[derive(Drop)]
pub struct Fanouts {
    first: Vec<u32>,
    reads: Vec<u32>,
    next: Vec<u32>,
    previous: Vec<u32>,
}

impl Fanouts {
    /// The fanouts of no node.
    pub fn new(alloc: Global) -> Fanouts {
        Fanouts {
            first: Vec::new(alloc),
            reads: Vec::new(alloc),
            next: Vec::new(alloc),
            previous: Vec::new(alloc),
        }
    }

    /// Adds a node that nothing reads.
    pub fn push(&mut self) -> Result<(), AllocError> {
        self.first.push(NONE)?;
        self.reads.push(0)?;
        for _operand in 0..2 {
            self.next.push(NONE)?;
            self.previous.push(NONE)?;
        }
        Ok(())
    }

    /// How often a node is read or held.
    pub fn reads(&self, node: u32) -> u32 {
        at(&self.reads, node)
    }

    /// Counts a read that has no link.
    pub fn hold(&mut self, node: u32) {
        raise(&mut self.reads, node);
    }

    /// Takes back a read that has no link.
    pub fn release(&mut self, node: u32) {
        let left = at(&self.reads, node).saturating_sub(1);
        put(&mut self.reads, node, left);
    }

    /// Puts a link into a node's list.
    pub fn link(&mut self, node: u32, link: u32) {
        let after = entry(&self.first, node, NONE);
        put(&mut self.next, link, after);
        put(&mut self.previous, link, NONE);
        if after != NONE {
            put(&mut self.previous, after, link);
        }
        put(&mut self.first, node, link);
        raise(&mut self.reads, node);
    }

    /// Takes a link out of a node's list.
    pub fn unlink(&mut self, node: u32, link: u32) {
        let after = entry(&self.next, link, NONE);
        let before = entry(&self.previous, link, NONE);
        if before == NONE {
            put(&mut self.first, node, after);
        } else {
            put(&mut self.next, before, after);
        }
        if after != NONE {
            put(&mut self.previous, after, before);
        }
        self.release(node);
    }

    /// A node's first link; NONE where there is none.
    pub fn first_of(&self, node: u32) -> u32 {
        entry(&self.first, node, NONE)
    }

    /// The link after another one; NONE at the end.
    pub fn after(&self, link: u32) -> u32 {
        entry(&self.next, link, NONE)
    }

    /// Lists the readers of a node.
    pub fn list(&self, node: u32, readers: &mut Vec<u32>) -> Result<(), AllocError> {
        readers.clear();
        let mut link = self.first_of(node);
        for _reader in 0..self.reads(node) {
            if link == NONE {
                break;
            }
            readers.push(link >> 1)?;
            link = self.after(link);
        }
        Ok(())
    }

    /// A random reader of a node, one of the first few; NONE where there is none.
    pub fn drawn(&self, node: u32, random: &mut Random) -> u32 {
        let mut link = self.first_of(node);
        for _skipped in 0..random.below(self.reads(node).min(MOST_DRAWN)) {
            let after = self.after(link);
            if after == NONE {
                break;
            }
            link = after;
        }
        if link == NONE { NONE } else { link >> 1 }
    }
}
