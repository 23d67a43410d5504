//! Marks on the nodes of a net: the transitive fanin of a window's inputs, and all other nodes outside the
//! window. They also tell which nodes may be inputs of a window.

ghost use Rattle.std.specs.Prelude.{◌≡◌, ℕ, ◌<◌, ◌&&◌, not, true, length, IfOk};
ghost use Rattle.net_theory.specs.Net.{end_of};
ghost use Rattle.net_theory.specs.Reach.{reach};
ghost use Rattle.net_core.specs.Marks.{set_of, no_marks};
ghost use Rattle.window_theory.specs.Nodes.{among};
ghost use Rattle.window_theory.specs.Window.{IsOutsideFanout};
ghost use Rattle.subst_core.specs.Lists.{AllBelow, AreUnmarked};
ghost use Rattle.subst_core.specs.Placing.{with_nodes};

use net_core::{Net, mark_reached};
use std::alloc::{AllocError, Global};

/// Marks the nodes.
fn mark_nodes(marks: &mut [bool], nodes: &[u32])
    requires { AllBelow (length marks.old) nodes.now }
    ensures { set_of marks.new ≡ with_nodes (set_of marks.old) nodes.now }
{
    let mut left = nodes;
    while let Some((node, rest)) = left.split_first() {
        marks[*node as usize] = true;
        left = rest;
    }
}

/// Marks the nodes and their transitive fanin, where nothing is marked yet.
pub(crate) fn mark_early(marks: &mut [bool], net: &Net, nodes: &[u32])
    requires none { set_of marks.old ≡ no_marks }
    requires count { length marks.old ≡ end_of net.now }
    requires below { AllBelow (end_of net.now) nodes.now }
    ensures { set_of marks.new ≡ reach net.now (among nodes.now) }
{
    mark_nodes(marks, nodes);
    mark_reached(marks, net);
}

/// Complements all marks.
fn turn(marks: &mut [bool])
    ensures { (p : ℕ) → p < length marks.old → set_of marks.new p ≡ not (set_of marks.old p) }
{
    for mark in marks.iter_mut() {
        *mark = !*mark;
    }
}

/// Complements all marks, but leaves `nodes` unmarked.
pub(crate) fn mark_others(marks: &mut [bool], nodes: &[u32])
    requires { AllBelow (length marks.old) nodes.now }
    ensures { (p : ℕ) → p < length marks.old →
        set_of marks.new p ≡ (not (set_of marks.old p) && not (among nodes.now p)) }
{
    mark_nodes(marks, nodes);
    turn(marks);
}

/// Whether none of the nodes is marked.
fn are_unmarked(marks: &[bool], nodes: &[u32]) -> bool
    requires { AllBelow (length marks.now) nodes.now }
    ensures yes { result ≡ true → AreUnmarked (set_of marks.now) nodes.now }
    ensures no { AreUnmarked (set_of marks.now) nodes.now → result ≡ true }
{
    let mut left = nodes;
    while let Some((node, rest)) = left.split_first() {
        if marks[*node as usize] {
            return false;
        }
        left = rest;
    }
    true
}

/// Whether the nodes don't depend on the gates; no mark is set yet.
fn are_apart_by(marks: &mut [bool], net: &Net, gates: &[u32], nodes: &[u32]) -> bool
    requires none { set_of marks.old ≡ no_marks }
    requires count { length marks.old ≡ end_of net.now }
    requires gates { AllBelow (end_of net.now) gates.now }
    requires nodes { AllBelow (end_of net.now) nodes.now }
    ensures yes { result ≡ true → (p : ℕ) → among nodes.now p ≡ true → IsOutsideFanout net.now gates.now p }
    ensures no { ((p : ℕ) → among nodes.now p ≡ true → IsOutsideFanout net.now gates.now p) → result ≡ true }
{
    let _gates = net.gates(); // for the prover: brings the net's invariant into the proof
    mark_early(marks, net, nodes);
    are_unmarked(marks, gates)
}

/// Whether the nodes don't depend on the gates: none is one of the gates or in their transitive fanout. No
/// other nodes may be inputs of a window of these gates. It visits the whole net once.
pub fn are_apart(alloc: Global, net: &Net, gates: &[u32], nodes: &[u32]) -> Result<bool, AllocError>
    requires gates { AllBelow (end_of net.now) gates.now }
    requires nodes { AllBelow (end_of net.now) nodes.now }
    ensures yes { IfOk result (λ answer. answer ≡ true → (p : ℕ) → among nodes.now p ≡ true →
        IsOutsideFanout net.now gates.now p) }
    ensures no { IfOk result (λ answer. ((p : ℕ) → among nodes.now p ≡ true → IsOutsideFanout net.now gates.now p) →
        answer ≡ true) }
{
    let count = net.sources() as usize + 1 + net.gates().len();
    let mut marks = vec![in alloc; false; count]?;
    Ok(are_apart_by(&mut marks, net, gates, nodes))
}
