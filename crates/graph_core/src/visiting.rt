//! Topological order: the order in which a depth-first search finishes the nodes (postorder). The stack is on
//! the heap.

ghost use Rattle.std.specs.Prelude.{◌≡◌, ℕ, ◌<◌, ◌^◌, [], length, slice_index_or, Some, None, Option, IfOk};
ghost use Rattle.std.specs.Option.{option_map};
ghost use Rattle.graph_core.specs.Visit.{visit, order_of};
ghost use Rattle.graph_core.specs.Frames.{reported};

use indexmap::IndexSet;
use std::alloc::{AllocError, Global};
use std::marker::Model;

/// The fanins of a node: the nodes that it reads, in the order of its inputs.
#[derive(Drop)]
pub struct Fanins(Vec<u32>);

impl Model for Fanins {
    ghost use Rattle.std.specs.Prelude.{List, ℕ};

    ghost Value = { List ℕ };

    ghost view = { λ r. r.0.items };
}

impl Fanins {
    /// The list of these fanins.
    pub fn new(nodes: Vec<u32>) -> Fanins
        ensures { result ≡ nodes.items }
    {
        Fanins(nodes)
    }

    /// The fanins.
    pub fn get(&self) -> &[u32]
        ensures { result.now ≡ self.now }
    {
        &self.0
    }
}

/// The fanins of `node`; none if the graph has no such node.
pub fn fanins_of(graph: &[Fanins], node: u32) -> &[u32]
    ensures { result.now ≡ slice_index_or graph.now node [] }
{
    if (node as usize) < graph.len() {
        graph[node as usize].get()
    } else {
        &[]
    }
}

/// A node on the stack: its fanins that aren't visited yet, and how many nodes deep the search may still go below
/// it.
#[derive(Drop)]
struct VisitFrame<'a> {
    node: u32,
    left: &'a [u32],
    depth: usize,
}

impl<'a> Model for VisitFrame<'a> {
    ghost use Rattle.graph_core.specs.Frames as frames;

    ghost Value = { frames.Entered };

    ghost view = { λ f. record { node = f.node; left = f.left.now; depth = f.depth } };
}

/// Visits `node`. Returns false if there is a path of more than `depth` nodes; then `order` is meaningless.
#[tactic(auto, using(crate::proofs::Visits::visits))]
fn visit_from(
    alloc: Global,
    graph: &[Fanins],
    depth: usize,
    order: &mut IndexSet<u32>,
    node: u32,
) -> Result<bool, AllocError>
    ensures { IfOk result (λ is_done. reported is_done order.new.keys ≡ visit graph.now depth order.old.keys node) }
{
    if order.contains(&node) {
        return Ok(true);
    }
    if depth == 0 {
        return Ok(false);
    }
    let mut stack = Vec::new(alloc);
    stack.push(VisitFrame {
        node,
        left: fanins_of(graph, node),
        depth: depth - 1,
    })?;
    while let Some(frame) = stack.pop() {
        let VisitFrame { node, left, depth } = frame;
        let Some((next, rest)) = left.split_first() else {
            order.insert(node)?;
            continue;
        };
        stack.push(VisitFrame {
            node,
            left: rest,
            depth,
        })?;
        if order.contains(next) {
            continue;
        }
        if depth == 0 {
            return Ok(false);
        }
        stack.push(VisitFrame {
            node: *next,
            left: fanins_of(graph, *next),
            depth: depth - 1,
        })?;
    }
    Ok(true)
}

/// The elements of `set` in the order of their insertion.
fn in_order(alloc: Global, set: &IndexSet<u32>) -> Result<Vec<u32>, AllocError>
    ensures { IfOk result (λ list. list.items ≡ set.now.keys) }
{
    set.iter().copied().collect(alloc)
}

/// A topological order of all nodes, each after its fanins: the postorder of a depth-first search that starts from
/// the nodes in order. None if some node is on a cycle.
#[tactic(auto, using(crate::proofs::Visits::orders))]
pub fn visit_all(alloc: Global, graph: &[Fanins]) -> Result<Option<Vec<u32>>, AllocError>
    requires { length graph.now < 2 ^ 32 }
    ensures { IfOk result (λ order. option_map (λ nodes. nodes.items) order ≡ order_of graph.now) }
{
    let mut order = IndexSet::new(alloc);
    for node in 0..graph.len() as u32 {
        if !visit_from(alloc, graph, graph.len(), &mut order, node)? {
            return Ok(None);
        }
    }
    Ok(Some(in_order(alloc, &order)?))
}
