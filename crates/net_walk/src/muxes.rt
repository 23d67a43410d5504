//! Multiplexers of four that read the same two selects share the four products of these: `s ? (t ? a : b) : (t ? c :
//! d)` takes nine gates of its own, and seven with the products, so that three such trees gain. No smaller step does:
//! the first tree alone gets larger.

use crate::fanouts::NONE;
use crate::graph::Graph;
use crate::loading::in_order;
use crate::marks::Marks;
use std::alloc::{AllocError, Global};

/// So many trees have to share their products.
const LEAST_TREES: u32 = 3;

/// A multiplexer: the select, as a literal without complement, what is chosen where it is 1 and where it is 0, and
/// which node it reads twice, if any.
#[derive(Clone, Copy)]
struct Mux {
    select: u32,
    at_1: u32,
    at_0: u32,
    twice: u32,
}

/// Two multiplexers below a third: the lower and the higher select, and the data by their values, the lower one's
/// first.
#[derive(Clone, Copy)]
struct Tree {
    low: u32,
    high: u32,
    at_00: u32,
    at_01: u32,
    at_10: u32,
    at_11: u32,
}

/// The multiplexer with its select without complement.
fn upright(select: u32, at_1: u32, at_0: u32, twice: u32) -> Mux {
    let is_turned = select & 1 == 1;
    Mux {
        select: select & !1,
        at_1: if is_turned { at_0 } else { at_1 },
        at_0: if is_turned { at_1 } else { at_0 },
        twice,
    }
}

/// Whether the node is a gate of a kind that is read once.
fn is_private(graph: &Graph, node: u32, is_xor: bool) -> bool {
    graph.is_gate(node) && graph.reads(node) == 1 && graph.gate(node).is_xor == is_xor
}

/// The operand of a gate at 0 or 1, and the other one.
fn operands(graph: &Graph, node: u32, place: u32) -> (u32, u32) {
    let gate = graph.gate(node);
    if place == 0 {
        (gate.first, gate.second)
    } else {
        (gate.second, gate.first)
    }
}

/// The multiplexer that an AND of two complemented ANDs is.
fn mux_of_ands(graph: &Graph, node: u32) -> Option<Mux> {
    let gate = graph.gate(node);
    let (one, other) = (gate.first >> 1, gate.second >> 1);
    if gate.first & gate.second & 1 == 0
        || !is_private(graph, one, false)
        || !is_private(graph, other, false)
    {
        return None;
    }
    for places in 0..4u32 {
        let (select, at_1) = operands(graph, one, places & 1);
        let (opposite, at_0) = operands(graph, other, places >> 1);
        if select ^ 1 == opposite {
            return Some(upright(select, at_1 ^ 1, at_0 ^ 1, NONE));
        }
    }
    None
}

/// What an XOR with a literal without complement leaves; NONE where that isn't an operand.
fn left_of(graph: &Graph, literal: u32, operand: u32) -> u32 {
    let gate = graph.gate(literal >> 1);
    let turn = literal & 1;
    if gate.first >> 1 == operand >> 1 {
        return gate.second ^ (gate.first & 1) ^ turn;
    }
    if gate.second >> 1 == operand >> 1 {
        return gate.first ^ (gate.second & 1) ^ turn;
    }
    NONE
}

/// The multiplexer that an XOR of `at_0` with an AND of the select and `at_0` XOR another is, for one place of the
/// AND and one of the select.
fn mux_at(graph: &Graph, node: u32, places: u32) -> Option<Mux> {
    let (product, other) = operands(graph, node, places & 1);
    let turn = (product ^ other) & 1;
    let at_0 = other & !1;
    if !is_private(graph, product >> 1, false) {
        return None;
    }
    let (select, difference) = operands(graph, product >> 1, places >> 1);
    if !is_private(graph, difference >> 1, true) {
        return None;
    }
    let at_1 = left_of(graph, difference, at_0);
    if at_1 == NONE {
        return None;
    }
    Some(upright(select, at_1 ^ turn, at_0 ^ turn, at_0 >> 1))
}

/// The multiplexer that a gate is.
fn mux_of(graph: &Graph, node: u32) -> Option<Mux> {
    if !graph.is_gate(node) {
        return None;
    }
    if !graph.gate(node).is_xor {
        return mux_of_ands(graph, node);
    }
    for places in 0..4u32 {
        let found = mux_at(graph, node, places);
        if found.is_some() {
            return found;
        }
    }
    None
}

/// The multiplexer that a literal is, if nothing but another multiplexer reads it.
fn private_mux(graph: &Graph, reader: Mux, literal: u32) -> Option<Mux> {
    let node = literal >> 1;
    let reads = if reader.twice == node { 2 } else { 1 };
    if graph.reads(node) != reads {
        return None;
    }
    let mux = mux_of(graph, node)?;
    let turn = literal & 1;
    Some(Mux {
        at_1: mux.at_1 ^ turn,
        at_0: mux.at_0 ^ turn,
        ..mux
    })
}

/// The tree at a gate.
fn tree_at(graph: &Graph, node: u32) -> Option<Tree> {
    let top = mux_of(graph, node)?;
    if top.at_1 >> 1 == top.at_0 >> 1 {
        return None;
    }
    let one = private_mux(graph, top, top.at_1)?;
    let zero = private_mux(graph, top, top.at_0)?;
    if one.select != zero.select || one.select == top.select {
        return None;
    }
    let is_low = top.select < one.select;
    Some(Tree {
        low: top.select.min(one.select),
        high: top.select.max(one.select),
        at_00: zero.at_0,
        at_01: if is_low { zero.at_1 } else { one.at_0 },
        at_10: if is_low { one.at_0 } else { zero.at_1 },
        at_11: one.at_1,
    })
}

/// The trees that share no gate, as ((low, high), node), the highest first.
fn trees(alloc: Global, graph: &Graph) -> Result<Vec<((u32, u32), u32)>, AllocError> {
    let mut found = Vec::new(alloc);
    let mut used = Marks::new(alloc);
    used.clear(graph.nodes())?;
    let order = in_order(alloc, graph, graph.live())?;
    for node in order.iter().rev() {
        if used.has(*node) {
            continue;
        }
        if let Some(tree) = tree_at(graph, *node) {
            mark_parts(graph, *node, &mut used);
            found.push(((tree.low, tree.high), *node))?;
        }
    }
    Ok(found)
}

/// Marks the two lower multiplexers of a tree.
fn mark_parts(graph: &Graph, node: u32, used: &mut Marks) {
    if let Some(top) = mux_of(graph, node) {
        used.add(top.at_1 >> 1);
        used.add(top.at_0 >> 1);
    }
}

/// The OR of two literals.
fn or(graph: &mut Graph, first: u32, second: u32, nothing: &Marks) -> Result<u32, AllocError> {
    Ok(graph.create(first ^ 1, second ^ 1, false, nothing)? ^ 1)
}

/// A data literal where the selects have the values that two bits say.
fn chosen(
    graph: &mut Graph,
    tree: Tree,
    low: u32,
    high: u32,
    data: u32,
    nothing: &Marks,
) -> Result<u32, AllocError> {
    let first = tree.low ^ low ^ 1;
    let second = tree.high ^ high ^ 1;
    let product = graph.create(first, second, false, nothing)?;
    graph.create(product, data, false, nothing)
}

/// Puts the sum of products into a tree's place.
fn decode(graph: &mut Graph, node: u32, tree: Tree, nothing: &Marks) -> Result<(), AllocError> {
    let at_00 = chosen(graph, tree, 0, 0, tree.at_00, nothing)?;
    let at_01 = chosen(graph, tree, 0, 1, tree.at_01, nothing)?;
    let at_10 = chosen(graph, tree, 1, 0, tree.at_10, nothing)?;
    let at_11 = chosen(graph, tree, 1, 1, tree.at_11, nothing)?;
    let low = or(graph, at_00, at_01, nothing)?;
    let high = or(graph, at_10, at_11, nothing)?;
    let all = or(graph, low, high, nothing)?;
    graph.replace(node, all)
}

/// How many of the trees from a place on have the same selects.
fn group_size(trees: &[((u32, u32), u32)], begin: usize) -> u32 {
    let rest = trees.get(begin..).unwrap_or(&[]);
    let (low, high) = selects_of(rest);
    let mut size = 0u32;
    for ((other_low, other_high), _node) in rest {
        if *other_low != low || *other_high != high {
            break;
        }
        size = size.saturating_add(1);
    }
    size
}

/// The selects of the first tree.
fn selects_of(trees: &[((u32, u32), u32)]) -> (u32, u32) {
    match trees.first() {
        Some((selects, _node)) => *selects,
        None => (NONE, NONE),
    }
}

/// Decodes a group of trees.
fn decode_group(
    graph: &mut Graph,
    group: &[((u32, u32), u32)],
    nothing: &Marks,
) -> Result<(), AllocError> {
    for (_selects, node) in group {
        if let Some(tree) = tree_at(graph, *node) {
            decode(graph, *node, tree, nothing)?;
        }
    }
    Ok(())
}

/// Lets multiplexers of four with the same selects share the products of these, where that makes the graph smaller.
pub fn decode_muxes(alloc: Global, graph: &mut Graph) -> Result<(), AllocError> {
    let mut found = trees(alloc, graph)?;
    found.sort()?;
    let nothing = Marks::new(alloc);
    let mut begin = 0usize;
    for _group in 0..found.len() {
        let size = group_size(&found, begin);
        let end = begin.saturating_add(size as usize);
        if size >= LEAST_TREES {
            decode_group(graph, found.get(begin..end).unwrap_or(&[]), &nothing)?;
        }
        begin = end;
    }
    crate::loading::remove_dangling(alloc, graph)
}
