//! The first node on a cycle. The component numbers are checked: they may never rise from a node to a fanin.
//! Then a node whose fanins all have smaller numbers is on no cycle; any other node is decided by a search of
//! all nodes that it reaches.

ghost use Rattle.std.specs.Prelude.{◌≡◌, ℕ, ◌+◌, ◌≤◌, ◌<◌, ◌^◌, ◌↔◌, true, length, IsTrue, IfNone, OnOk, IfOk};
ghost use Rattle.std.specs.Prelude.{slice_index, slice_get, nat_eq};
ghost use Rattle.std.specs.List.{IsDistinct};
ghost use Rattle.graph_core.specs.Visit.{has_ended};
ghost use Rattle.graph_core.specs.VisitLaws.{IsClosedGraph, HasPath};
ghost use Rattle.graph_core.specs.Cycles.{added, NeverRises, IsFirstCyclicNode, AreReached};

use crate::components::component_numbers;
use crate::visiting::{Fanins, fanins_of};
use indexmap::IndexSet;
use std::alloc::{AllocError, Global};

/// Whether all nodes of `reads` have numbers below `number`.
fn are_below(numbers: &[u32], reads: &[u32], number: u32) -> bool
    ensures { IsTrue result → ((u : ℕ) → has_ended reads.now u ≡ true → slice_index numbers.now u < number) }
{
    for read in reads {
        if number_of(numbers, *read) >= number {
            return false;
        }
    }
    true
}

/// Whether all nodes of `reads` have numbers of at most `number`.
fn are_within(numbers: &[u32], reads: &[u32], number: u32) -> bool
    ensures { IsTrue result → ((u : ℕ) → has_ended reads.now u ≡ true → slice_index numbers.now u ≤ number) }
{
    for read in reads {
        if number_of(numbers, *read) > number {
            return false;
        }
    }
    true
}

/// The number of `node`, or 0 if it has none.
fn number_of(numbers: &[u32], node: u32) -> u32
    ensures { result ≡ slice_index numbers.now node }
{
    if (node as usize) < numbers.len() {
        numbers[node as usize]
    } else {
        0
    }
}

/// Whether no node has a smaller number than one of its fanins.
fn never_rises(graph: &[Fanins], numbers: &[u32]) -> bool
    requires { length graph.now < 2 ^ 32 }
    ensures { IsTrue result → NeverRises graph.now numbers.now }
{
    for node in 0..graph.len() as u32 {
        if !are_within(numbers, fanins_of(graph, node), number_of(numbers, node)) {
            return false;
        }
    }
    true
}

/// Whether all fanins of `node` have smaller numbers, so that it is on no cycle.
fn is_apart(graph: &[Fanins], numbers: &[u32], node: u32) -> bool
    requires { NeverRises graph.now numbers.now }
    ensures { IsTrue result → HasPath graph.now node node → ⊥ }
{
    are_below(numbers, fanins_of(graph, node), number_of(numbers, node))
}

/// Adds `nodes` to `set`, each once.
#[tactic(auto, unfolding(crate::specs::Cycles::added))]
fn add_all(set: &mut IndexSet<u32>, nodes: &[u32]) -> Result<(), AllocError>
    ensures { OnOk result (set.new.keys ≡ added set.old.keys nodes.now) }
{
    let mut left = nodes;
    while let Some((node, rest)) = left.split_first() {
        set.insert(*node)?;
        left = rest;
    }
    Ok(())
}

/// The element of `set` at index `at`.
fn node_at(set: &IndexSet<u32>, at: usize) -> Option<u32>
    ensures is { result ≡ slice_get set.now.keys at }
    ensures end { IfNone result (length set.now.keys ≤ at) }
    ensures once { IsDistinct nat_eq set.now.keys }
    ensures small { length set.now.keys < 2 ^ 63 }
{
    if at < set.len() {
        set.get_index(at).copied()
    } else {
        None
    }
}

/// All nodes that `node` reaches, by one or more edges.
#[tactic(auto, using(crate::proofs::CycleLemmas::searches))]
fn reached(alloc: Global, graph: &[Fanins], node: u32) -> Result<IndexSet<u32>, AllocError>
    requires { IsClosedGraph graph.now (length graph.now) }
    ensures { IfOk result (λ set. AreReached graph.now node set.keys) }
{
    let mut set = IndexSet::new(alloc);
    add_all(&mut set, fanins_of(graph, node))?;
    let mut at: usize = 0;
    while let Some(next) = node_at(&set, at) {
        add_all(&mut set, fanins_of(graph, next))?;
        at += 1;
    }
    Ok(set)
}

/// Whether `node` reaches itself, by a search.
fn reaches_itself(alloc: Global, graph: &[Fanins], node: u32) -> Result<bool, AllocError>
    requires { IsClosedGraph graph.now (length graph.now) }
    ensures { IfOk result (λ answer. IsTrue answer ↔ HasPath graph.now node node) }
{
    let set = reached(alloc, graph, node)?;
    Ok(set.contains(&node))
}

/// The first node (of the least index) that is on a cycle; None if the graph is acyclic.
#[tactic(auto, using(crate::proofs::CycleLemmas::firsts))]
pub fn first_cyclic(alloc: Global, graph: &[Fanins]) -> Result<Option<u32>, AllocError>
    requires small { length graph.now < 2 ^ 32 }
    requires closed { IsClosedGraph graph.now (length graph.now) }
    ensures { IfOk result (λ first. IsFirstCyclicNode graph.now first) }
{
    let numbers = component_numbers(alloc, graph)?;
    let are_numbers_good = never_rises(graph, &numbers);
    for node in 0..graph.len() as u32 {
        if are_numbers_good && is_apart(graph, &numbers, node) {
            continue;
        }
        if reaches_itself(alloc, graph, node)? {
            return Ok(Some(node));
        }
    }
    Ok(None)
}
