//! Which gates a window has. It grows greedily by the greatest candidate: the root, the partner, or a fanin
//! of a gate that is taken. Each candidate that isn't taken is below the gate that was taken last, so the
//! search needn't look among the gates that are taken.

ghost use Rattle.std.specs.Prelude.{◌≡◌, ℕ, true, [], length, IfSome, IfNone, IfOk};
ghost use Rattle.net_theory.specs.Net.{IsNet};
ghost use Rattle.window_theory.specs.Paths.{IsGate};
ghost use Rattle.window_theory.specs.Window.{IsGrowthCandidate, IsGreatestCandidate, AreTaken, IsWindow};
ghost use Rattle.window_theory.specs.Window as window;
ghost use Rattle.window_theory.specs.Nodes.{among};
ghost use Rattle.window_core.specs.Gates.{IsGateOf, IsGreater, IsGreaterIn, IsGreaterSig, IsSought};
ghost use Rattle.window_core.specs.Gates.{bound_of as bound_of_taken};

use crate::shape::MOST_GATES_OF_WINDOW;
use net_core::{Gate, Net, Sig};
use std::alloc::{AllocError, Global};

/// The gate at a node.
pub fn gate_at(net: &Net, node: u32) -> &Gate
    requires { IsGate net.now node }
    ensures gate { IsGateOf net.now node result.now }
    ensures net { IsNet net.now }
{
    &net.gates()[(node - net.sources() - 1) as usize]
}

/// The greater of `best` and `node` where `node` is below `bound`, and else `best`.
fn greater(bound: u32, best: u32, node: u32) -> u32
    ensures { IsGreater bound best node result }
{
    if best < node && node < bound {
        node
    } else {
        best
    }
}

/// The greater of `best` and `node` where there is one below `bound`, and else `best`.
fn greater_in(bound: u32, best: u32, node: Option<u32>) -> u32
    ensures { IsGreaterIn bound best node result }
{
    match node {
        Some(node) => greater(bound, best, node),
        None => best,
    }
}

/// The greater of `best` and the node that `sig` names where that is below `bound`, and else `best`.
fn greater_sig(bound: u32, best: u32, sig: Sig) -> u32
    ensures { IsGreaterSig bound best sig result }
{
    match sig {
        Sig::Node(node) => greater(bound, best, node),
        _ => best,
    }
}

/// The least of the gates that are taken; before any is taken, the first number after the nodes.
fn bound_of(net: &Net, taken: &[u32]) -> u32
    ensures { result ≡ bound_of_taken net.now taken.now }
{
    match taken.split_first() {
        Some((least, _)) => *least,
        None => net.sources() + 1 + net.gates().len() as u32,
    }
}

/// The greatest node below the bound that is the root, the partner or a fanin of a gate that is taken; where
/// no gate is, the last source.
fn greatest(net: &Net, root: u32, partner: Option<u32>, taken: &[u32], bound: u32) -> u32
    requires { (p : ℕ) → among taken.now p ≡ true → IsGate net.now p }
    ensures { IsSought net.now root partner taken.now bound [] result }
{
    let first = greater(bound, net.sources(), root);
    let mut best = greater_in(bound, first, partner);
    let mut left = taken;
    while let Some((node, rest)) = left.split_first() {
        let gate = gate_at(net, *node);
        let first = greater_sig(bound, best, gate.a);
        best = greater_sig(bound, first, gate.b);
        left = rest;
    }
    best
}

/// The greatest gate that can be taken.
fn next_gate(net: &Net, root: u32, partner: Option<u32>, taken: &[u32]) -> Option<u32>
    requires { AreTaken net.now root partner taken.now }
    ensures some { IfSome result (λ p. IsGreatestCandidate net.now root partner taken.now p) }
    ensures none { IfNone result ((p : ℕ) → IsGrowthCandidate net.now root partner taken.now p → ⊥) }
{
    let bound = bound_of(net, taken);
    let best = greatest(net, root, partner, taken, bound);
    if best == net.sources() {
        return None;
    }
    Some(best)
}

/// The gates that a root, a partner or none, and a count take; None where there are fewer than `count`. They
/// are ascending: each gate taken is below those taken before it.
pub fn take_gates(
    alloc: Global,
    net: &Net,
    root: u32,
    partner: Option<u32>,
    count: u32,
) -> Result<Option<Vec<u32>>, AllocError>
    ensures some { IfOk result (λ answer. IfSome answer (λ taken. AreTaken net.now root partner taken.items)) }
    ensures count { IfOk result (λ answer. IfSome answer (λ taken. length taken.items ≡ count)) }
    ensures none { IfOk result (λ answer. IfNone answer ((w : window.Window) → IsWindow net.now root partner count w →
        ⊥)) }
{
    let mut taken = Vec::with_capacity(alloc, MOST_GATES_OF_WINDOW)?;
    for _taken in 0..count {
        let Some(node) = next_gate(net, root, partner, &taken) else {
            return Ok(None);
        };
        taken.insert(0, node)?;
    }
    Ok(Some(taken))
}
