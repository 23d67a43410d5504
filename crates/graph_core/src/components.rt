//! Strongly connected components, numbered in the order in which Tarjan's algorithm completes them: a fanin in
//! another component has a smaller number, and nodes on a cycle have the same number. Nothing is proved about
//! the numbers; `cycles.rt` checks them.

use crate::visiting::{Fanins, fanins_of};
use std::alloc::{AllocError, Global};

/// A node on the stack of the search, and the index of its next fanin.
#[derive(Clone, Copy)]
struct Call {
    node: u32,
    at: usize,
}

/// The state of Tarjan's algorithm. An index or a number of 0 isn't assigned yet.
#[derive(Drop)]
struct ComponentSearch {
    indices: Vec<u32>,
    lows: Vec<u32>,
    numbers: Vec<u32>,
    open: Vec<u32>,
    calls: Vec<Call>,
    next_index: u32,
    next_number: u32,
}

/// `cells[at]`, or 0 if out of range.
fn cell(cells: &[u32], at: u32) -> u32 {
    cells.get(at as usize).copied().unwrap_or(0)
}

/// Sets `cells[at]`, if in range.
fn write(cells: &mut [u32], at: u32, value: u32) {
    if (at as usize) < cells.len() {
        cells[at as usize] = value;
    }
}

/// Sets `cells[at]` to the minimum of itself and `value`.
fn lower(cells: &mut [u32], at: u32, value: u32) {
    let least = cell(cells, at).min(value);
    write(cells, at, least);
}

impl ComponentSearch {
    /// The state before any node is entered.
    fn new(alloc: Global, count: usize) -> Result<ComponentSearch, AllocError> {
        Ok(ComponentSearch {
            indices: vec![in alloc; 0; count]?,
            lows: vec![in alloc; 0; count]?,
            numbers: vec![in alloc; 0; count]?,
            open: Vec::new(alloc),
            calls: Vec::new(alloc),
            next_index: 1,
            next_number: 1,
        })
    }

    /// Enters a node.
    fn enter(&mut self, node: u32) -> Result<(), AllocError> {
        write(&mut self.indices, node, self.next_index);
        write(&mut self.lows, node, self.next_index);
        self.next_index = self.next_index.saturating_add(1);
        self.open.push(node)?;
        Ok(())
    }

    /// Numbers a component: the open nodes from the last one back to `first`.
    fn close(&mut self, first: u32) {
        while let Some(node) = self.open.pop() {
            write(&mut self.numbers, node, self.next_number);
            if node == first {
                break;
            }
        }
        self.next_number = self.next_number.saturating_add(1);
    }

    /// Leaves `node` after all its fanins.
    fn leave(&mut self, node: u32) {
        let low = cell(&self.lows, node);
        if low == cell(&self.indices, node) {
            self.close(node);
        }
        if let Some(caller) = self.calls.last().copied() {
            lower(&mut self.lows, caller.node, low);
        }
    }

    /// Handles `read`, the next fanin of the node of `call`.
    fn look(&mut self, call: Call, read: u32) -> Result<(), AllocError> {
        self.calls.push(Call {
            node: call.node,
            at: call.at.saturating_add(1),
        })?;
        if cell(&self.indices, read) == 0 {
            self.calls.push(Call { node: read, at: 0 })?;
        } else if cell(&self.numbers, read) == 0 {
            lower(&mut self.lows, call.node, cell(&self.indices, read));
        }
        Ok(())
    }

    /// One step of the call on top of the stack. Returns false if the stack is empty.
    fn step(&mut self, graph: &[Fanins]) -> Result<bool, AllocError> {
        let Some(call) = self.calls.pop() else {
            return Ok(false);
        };
        if call.at == 0 {
            self.enter(call.node)?;
        }
        match fanins_of(graph, call.node).get(call.at) {
            Some(read) => self.look(call, *read)?,
            None => self.leave(call.node),
        }
        Ok(true)
    }

    /// Searches from `root`, which wasn't visited yet.
    fn search(&mut self, graph: &[Fanins], root: u32) -> Result<(), AllocError> {
        self.calls.push(Call { node: root, at: 0 })?;
        for _ in 0..u64::MAX {
            if !self.step(graph)? {
                break;
            }
        }
        Ok(())
    }
}

/// The component number of each node.
pub fn component_numbers(alloc: Global, graph: &[Fanins]) -> Result<Vec<u32>, AllocError> {
    let mut search = ComponentSearch::new(alloc, graph.len())?;
    for root in 0..u32::try_from(graph.len()).unwrap_or(0) {
        if cell(&search.indices, root) == 0 {
            search.search(graph, root)?;
        }
    }
    let ComponentSearch {
        indices: _,
        lows: _,
        numbers,
        open: _,
        calls: _,
        next_index: _,
        next_number: _,
    } = search;
    Ok(numbers)
}
