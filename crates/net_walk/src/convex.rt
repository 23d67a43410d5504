//! A window is convex if no path leaves it and comes back. From its inputs the search goes down to its least level; the
//! nodes there that lead from the window to an input join it.

use crate::graph::Graph;
use crate::growing::{LEAST_GATES, MOST_GATES, Window};
use crate::loading::in_order;
use crate::marks::Marks;
use std::alloc::{AllocError, Global};

/// So many nodes are visited at most.
const MOST_VISITED: usize = 300;

/// So often gates may join.
const ROUNDS: u32 = 6;

/// So many gates may be more than a window grows to.
const MOST_JOINING: usize = 10;

/// What a search uses again.
#[derive(Drop)]
pub struct Closure {
    visited: Marks,
    nodes: Vec<u32>,
}

/// The least level of a window's gates.
fn least_level(graph: &Graph, gates: &[u32]) -> u32 {
    let mut least = u32::MAX;
    for node in gates {
        least = least.min(graph.level(*node));
    }
    least
}

impl Closure {
    /// Nothing is visited yet.
    pub fn new(alloc: Global) -> Closure {
        Closure {
            visited: Marks::new(alloc),
            nodes: Vec::new(alloc),
        }
    }

    /// Visits a gate above the window's least level.
    fn visit(
        &mut self,
        graph: &Graph,
        window: &Window,
        least: u32,
        node: u32,
    ) -> Result<(), AllocError> {
        if graph.is_gate(node)
            && graph.level(node) > least
            && !window.inside.has(node)
            && !self.visited.has(node)
        {
            self.visited.add(node);
            self.nodes.push(node)?;
        }
        Ok(())
    }

    /// Visits what is below the inputs. False where that is too much.
    fn descend(&mut self, graph: &Graph, window: &Window) -> Result<bool, AllocError> {
        self.visited.clear(graph.nodes())?;
        self.nodes.clear();
        let least = least_level(graph, &window.gates);
        for input in &window.inputs {
            self.visit(graph, window, least, *input)?;
        }
        for index in 0..MOST_VISITED {
            let Some(node) = self.nodes.get(index).copied() else {
                return Ok(true);
            };
            let gate = graph.gate(node);
            self.visit(graph, window, least, gate.first >> 1)?;
            self.visit(graph, window, least, gate.second >> 1)?;
        }
        Ok(false)
    }

    /// Adds those that were visited and depend on the window. Says whether there were any.
    fn join(
        &mut self,
        alloc: Global,
        graph: &Graph,
        window: &mut Window,
    ) -> Result<bool, AllocError> {
        let before = window.gates.len();
        let order = in_order(alloc, graph, &self.nodes)?;
        for node in &order {
            let gate = graph.gate(*node);
            if window.inside.has(gate.first >> 1) || window.inside.has(gate.second >> 1) {
                window.add(*node)?;
            }
        }
        Ok(window.gates.len() > before)
    }

    /// Makes a window convex. False where it is too large then, or too small.
    pub fn close(
        &mut self,
        alloc: Global,
        graph: &Graph,
        window: &mut Window,
    ) -> Result<bool, AllocError> {
        for _round in 0..ROUNDS {
            window.list_inputs(graph)?;
            if !self.descend(graph, window)? {
                return Ok(false);
            }
            if !self.join(alloc, graph, window)? {
                let gates = window.gates.len();
                return Ok(gates >= LEAST_GATES && window.input_count() <= window.most_inputs);
            }
            if window.gates.len() > MOST_GATES.saturating_add(MOST_JOINING) {
                return Ok(false);
            }
        }
        Ok(false)
    }
}
