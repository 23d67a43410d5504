//! Structural hashing over representatives: two gates are structurally equal if they have one operator on the same
//! representatives, up to the order of the operands and up to complements.

use crate::nodes::{Edge, NodeGate, complemented};
use indexmap::IndexSet;
use op_basis::swapped;
use std::alloc::{AllocError, Global};

/// The key of a gate in the hash table: its operator, complemented so that its value at (0,0) is 0, and its
/// operands, the lesser first.
#[derive(Clone, Copy, PartialEq, Eq, Hash)]
struct EdgeKey {
    word: u8,
    low: u32,
    high: u32,
}

/// The key of a gate whose operands have the representatives `a` and `b`.
fn key_of(node: NodeGate, a: Edge, b: Edge) -> EdgeKey {
    let op = complemented(node.op, a.complemented, b.complemented, false);
    let sorted = if a.variable <= b.variable {
        op
    } else {
        swapped(op)
    };
    let begun = complemented(sorted, false, false, sorted.apply(false, false));
    EdgeKey {
        word: begun.get(),
        low: a.variable.min(b.variable),
        high: a.variable.max(b.variable),
    }
}

/// The hash table of the gates visited so far.
#[derive(Drop)]
pub(crate) struct StrashTable {
    strash: IndexSet<EdgeKey>,
    /// The first gate with each key.
    owners: Vec<u32>,
}

impl StrashTable {
    /// An empty table.
    pub(crate) fn new(alloc: Global) -> StrashTable {
        StrashTable {
            strash: IndexSet::new(alloc),
            owners: Vec::new(alloc),
        }
    }

    /// Removes all keys.
    pub(crate) fn clear(&mut self) {
        self.strash.clear();
        self.owners.clear();
    }

    /// The first gate with the key of the gate `variable`. If there was none, it is that gate itself, which is
    /// added.
    pub(crate) fn owner(
        &mut self,
        variable: u32,
        node: NodeGate,
        a: Edge,
        b: Edge,
    ) -> Result<u32, AllocError> {
        let (index, is_new) = self.strash.insert_full(key_of(node, a, b))?;
        if is_new {
            self.owners.push(variable)?;
            return Ok(variable);
        }
        Ok(self.owners.get(index).copied().unwrap_or(variable))
    }
}
