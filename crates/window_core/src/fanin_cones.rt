//! The bounded fanin cone of some nodes: as long as the greatest leaf is a gate, and at most 12 leaves
//! result, its fanins replace it. Gates are expanded from the greatest down, so the leaves stay below all of
//! them.

ghost use Rattle.std.specs.Prelude.{◌≡◌, ℕ, ◌+◌, ◌≤◌, ◌<◌, true, false, List, ◌∷◌, [], ◌++◌, length, reverse};
ghost use Rattle.std.specs.Prelude.{if◌then◌else◌, IfSome, IfNone, IfOk};
ghost use Rattle.net_theory.specs.Net.{end_of};
ghost use Rattle.window_theory.specs.Nodes.{among, IsRising};
ghost use Rattle.window_theory.specs.Paths.{IsGate};
ghost use Rattle.window_theory.specs.FaninCone.{ExpandsTo, IsFullyExpanded};
ghost use Rattle.window_core.specs.Rising.{put_sig as put_sig_in};
ghost use Rattle.window_core.specs.Expanding.{AreAbove, AreLeavesOrGates, IsInFanin, IsExpanded, leaves_after};
ghost use Rattle.window_core.specs.Expanding.{gate_nodes, same_node as same_node_of};
ghost use Rattle.net_theory.specs.Limits.{most_leaves};

use crate::ascending::{has, put_sig};
use crate::growing::gate_at;
use lane_sim::{Cone, MOST_LEAVES};
use net_core::{Gate, Net, Sig};
use std::alloc::{AllocError, Global};

/// The leaves and gates for which there is room from the start; few fanin cones have more gates.
const ROOM: usize = 16;

/// Whether a signal names a node that isn't among `nodes`.
fn is_new(nodes: &[u32], sig: Sig) -> bool
    requires { IsRising nodes.now }
    ensures { length (put_sig_in sig nodes.now) ≡ length nodes.now + (if result then 1 else 0) }
{
    match sig {
        Sig::Node(node) => !has(nodes, node),
        _ => false,
    }
}

/// Whether two signals name one node.
fn same_node(a: Sig, b: Sig) -> bool
    ensures { result ≡ same_node_of a b }
{
    match a {
        Sig::Node(a) => match b {
            Sig::Node(b) => a == b,
            _ => false,
        },
        _ => false,
    }
}

/// For the prover: `a && !b`, by cases as its clause has it.
fn and_not(a: bool, b: bool) -> bool
    ensures { result ≡ (if a then (if b then false else true) else false) }
{
    a && !b
}

/// For the prover: `usize::from(holds)`, by cases as its clause has it.
fn one_if(holds: bool) -> usize
    ensures { result ≡ (if holds then 1 else 0) }
{
    if holds { 1 } else { 0 }
}

/// How many leaves there are once the gate at the leaf after `prefix` is expanded.
fn count_leaves_after(prefix: &[u32], gate: &Gate) -> usize
    requires { IsRising prefix.now }
    ensures { result ≡ length (leaves_after prefix.now gate.now) }
{
    let first = is_new(prefix, gate.a);
    let second = is_new(prefix, gate.b);
    let other = and_not(second, same_node(gate.a, gate.b));
    prefix.len() + one_if(first) + one_if(other)
}

/// Whether expanding the greatest leaf gives more than 12 leaves.
fn is_too_much(leaves: &[u32], gate: &Gate) -> bool
    requires { IsRising leaves.now }
    ensures yes { result ≡ true → (prefix : List ℕ) (p : ℕ) → leaves.now ≡ prefix ++ p ∷ [] →
        most_leaves < length (leaves_after prefix gate.now) }
    ensures no { result ≡ false → (prefix : List ℕ) (p : ℕ) → leaves.now ≡ prefix ++ p ∷ [] →
        length (leaves_after prefix gate.now) ≤ most_leaves }
{
    match leaves.split_last() {
        Some((_last, prefix)) => count_leaves_after(prefix, gate) > MOST_LEAVES,
        None => false,
    }
}

/// The greatest leaf, if it is a gate.
fn last_gate(net: &Net, leaves: &[u32]) -> Option<u32>
    requires rising { IsRising leaves.now }
    requires within { (p : ℕ) → among leaves.now p ≡ true → p < end_of net.now }
    ensures some { IfSome result (λ p. (prefix : List ℕ) × (leaves.now ≡ prefix ++ p ∷ []) × IsGate net.now p) }
    ensures none { IfNone result (IsFullyExpanded net.now leaves.now) }
{
    let Some((last, _prefix)) = leaves.split_last() else {
        return None;
    };
    if *last <= net.sources() {
        return None;
    }
    Some(*last)
}

/// Expands the greatest leaf, if it is a gate and not too many leaves result. Returns whether it was
/// expanded.
fn expand(
    net: &Net,
    leaves: &mut Vec<u32>,
    gates: &mut Vec<(u32, Gate)>,
) -> Result<bool, AllocError>
    requires rising { IsRising leaves.old.items }
    requires within { (p : ℕ) → among leaves.old.items p ≡ true → p < end_of net.now }
    ensures expanded { IfOk result (λ more. more ≡ true →
        IsExpanded net.now leaves.old.items leaves.new.items gates.old.items gates.new.items) }
    ensures last { IfOk result (λ more. more ≡ false → IsFullyExpanded net.now leaves.old.items) }
    ensures leaves { IfOk result (λ more. more ≡ false → leaves.new.items ≡ leaves.old.items) }
    ensures gates { IfOk result (λ more. more ≡ false → gates.new.items ≡ gates.old.items) }
{
    let Some(node) = last_gate(net, leaves) else {
        return Ok(false);
    };
    let gate = gate_at(net, node);
    if is_too_much(leaves, gate) {
        return Ok(false);
    }
    leaves.pop();
    put_sig(leaves, gate.a)?;
    put_sig(leaves, gate.b)?;
    gates.push((
        node,
        Gate {
            op: gate.op,
            a: gate.a,
            b: gate.b,
        },
    ))?;
    Ok(true)
}

/// The cone of these leaves and gates; the gates were expanded from the greatest on.
fn cone_of(net: &Net, leaves: Vec<u32>, gates: Vec<(u32, Gate)>) -> Cone
    requires { AreAbove net.now leaves.items (reverse gates.items) }
    ensures { result ≡ record { leaves = leaves.items; gates = reverse gates.items } }
{
    let _sources = net.sources(); // for the prover: brings the net's invariant into the proof
    let mut rising = gates;
    rising.reverse();
    Cone::new(leaves, rising)
}

/// The fanin cone of some nodes. Its leaves are those that the nodes expand to, and its gates are among the
/// nodes and their transitive fanin.
pub fn fanin_cone(alloc: Global, net: &Net, nodes: &[u32]) -> Result<Cone, AllocError>
    requires rising { IsRising nodes.now }
    requires few { length nodes.now ≤ most_leaves }
    requires within { (p : ℕ) → among nodes.now p ≡ true → p < end_of net.now }
    ensures leaves { IfOk result (λ cone. ExpandsTo net.now nodes.now cone.leaves) }
    ensures gates { IfOk result (λ cone. AreAbove net.now cone.leaves cone.gates) }
    ensures covered { IfOk result (λ cone. AreLeavesOrGates cone.leaves cone.gates nodes.now) }
    ensures in_fanin { IfOk result (λ cone. (p : ℕ) → among (gate_nodes cone.gates) p ≡ true →
        IsInFanin net.now nodes.now p) }
{
    let _sources = net.sources(); // for the prover: brings the net's invariant into the proof
    let mut leaves = Vec::with_capacity(alloc, ROOM)?;
    leaves.extend_from_slice(nodes)?;
    let mut gates = Vec::with_capacity(alloc, ROOM)?;
    while expand(net, &mut leaves, &mut gates)? {}
    Ok(cone_of(net, leaves, gates))
}
