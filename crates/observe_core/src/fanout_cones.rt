//! The fanout cone of a window (its transitive fanout, at most 16 gates), its side inputs, its outputs, and
//! whether the window is directly observable.

ghost use Rattle.std.specs.Prelude.{◌≡◌, ℕ, true, false, List, [], ◌⊎◌, IfOk, OnOk};
ghost use Rattle.net_theory.specs.Reach.{is_node};
ghost use Rattle.window_theory.specs.Nodes.{among, IsRising, AreJust};
ghost use Rattle.window_theory.specs.Paths.{IsGate};
ghost use Rattle.window_theory.specs.Window.{IsReadBy, IsInput, Belongs};
ghost use Rattle.window_core.specs.Fanouts.{AreFanouts};
ghost use Rattle.observe_theory.specs.FanoutCone.{IsFanoutCone};
ghost use Rattle.observe_core.specs.Following.{HasFanoutCone};
ghost use Rattle.observe_core.specs.Kept.{IsBoth, HasSome};

use crate::next_fanout::next_follower;
use crate::shape::{FanoutCone, MOST_GATES_IN_BOTH, MOST_OF_FANOUT_CONE};
use std::alloc::{AllocError, Global};
use window_core::{
    Fanouts, Gate, Net, Sig, Window, all_inputs, all_outputs, fanouts_of, gate_at, has, put,
};

/// Takes the least follower of the gates so far, as long as there is one, at most `MOST_OF_FANOUT_CONE` times.
fn take_fanout_cone(
    net: &Net,
    fanouts: &Fanouts,
    all: &mut Vec<u32>,
    fanout_cone: &mut Vec<u32>,
) -> Result<(), AllocError>
    requires index { AreFanouts net.now fanouts.now }
    requires rising { IsRising all.old.items }
    requires gates { (p : ℕ) → among all.old.items p ≡ true → IsGate net.now p }
    requires none { fanout_cone.old.items ≡ [] }
    ensures { OnOk result (HasFanoutCone net.now all.old.items all.new.items fanout_cone.new.items) }
{
    let _sources = net.sources(); // for the prover: brings the net's invariant into the proof
    for _taken in 0..MOST_OF_FANOUT_CONE {
        let node = next_follower(net, fanouts, all);
        if node == 0 {
            return Ok(());
        }
        put(all, node)?;
        fanout_cone.push(node)?;
    }
    Ok(())
}

/// The nodes of `nodes` that aren't in `gates`. `nodes` is ascending.
fn nodes_outside(alloc: Global, nodes: &[u32], gates: &[u32]) -> Result<Vec<u32>, AllocError>
    requires { IsRising nodes.now }
    ensures { IfOk result (λ kept. AreJust (IsBoth (λ p. among gates.now p ≡ false) nodes.now) kept.items) }
{
    let mut kept = Vec::new(alloc);
    let mut left = nodes;
    while let Some((node, rest)) = left.split_first() {
        if has(gates, *node) {
            left = rest;
            continue;
        }
        kept.push(*node)?;
        left = rest;
    }
    Ok(kept)
}

/// Whether a signal names a node.
fn names(sig: Sig, node: u32) -> bool
    ensures { result ≡ is_node node sig }
{
    match sig {
        Sig::Node(named) => named == node,
        _ => false,
    }
}

/// Whether a gate reads a node.
fn reads(gate: &Gate, node: u32) -> bool
    ensures yes { result ≡ true → (is_node node gate.now.a ≡ true) ⊎ (is_node node gate.now.b ≡ true) }
    ensures first { result ≡ false → is_node node gate.now.a ≡ false }
    ensures second { result ≡ false → is_node node gate.now.b ≡ false }
{
    names(gate.a, node) || names(gate.b, node)
}

/// Whether some of `gates` reads `node`.
fn is_read_by(net: &Net, gates: &[u32], node: u32) -> bool
    requires { (p : ℕ) → among gates.now p ≡ true → IsGate net.now p }
    ensures yes { result ≡ true → IsReadBy net.now gates.now node }
    ensures no { IsReadBy net.now gates.now node → result ≡ true }
{
    let mut left = gates;
    while let Some((gate, rest)) = left.split_first() {
        if reads(gate_at(net, *gate), node) {
            return true;
        }
        left = rest;
    }
    false
}

/// The nodes of `nodes` that some of `gates` reads. `nodes` is ascending.
fn nodes_read(
    alloc: Global,
    net: &Net,
    nodes: &[u32],
    gates: &[u32],
) -> Result<Vec<u32>, AllocError>
    requires rising { IsRising nodes.now }
    requires gates { (p : ℕ) → among gates.now p ≡ true → IsGate net.now p }
    ensures { IfOk result (λ kept. AreJust (IsBoth (IsReadBy net.now gates.now) nodes.now) kept.items) }
{
    let mut kept = Vec::new(alloc);
    let mut left = nodes;
    while let Some((node, rest)) = left.split_first() {
        if is_read_by(net, gates, *node) {
            kept.push(*node)?;
            left = rest;
            continue;
        }
        left = rest;
    }
    Ok(kept)
}

/// Whether the lists have a node in common.
fn has_some(gates: &[u32], nodes: &[u32]) -> bool
    ensures yes { result ≡ true → HasSome gates.now nodes.now }
    ensures no { HasSome gates.now nodes.now → result ≡ true }
{
    let mut left = nodes;
    while let Some((node, rest)) = left.split_first() {
        if has(gates, *node) {
            return true;
        }
        left = rest;
    }
    false
}

/// The side inputs: the inputs of all gates that the fanout cone's gates read.
fn side_inputs_of(
    alloc: Global,
    net: &Net,
    all: &[u32],
    gates: &[u32],
) -> Result<Vec<u32>, AllocError>
    requires all { (p : ℕ) → among all.now p ≡ true → IsGate net.now p }
    requires gates { (p : ℕ) → among gates.now p ≡ true → IsGate net.now p }
    ensures { IfOk result (λ side_inputs. (inputs : List ℕ) × AreJust (IsInput net.now all.now) inputs ×
        AreJust (IsBoth (IsReadBy net.now gates.now) inputs) side_inputs.items) }
{
    let inputs = all_inputs(alloc, net, all)?;
    nodes_read(alloc, net, &inputs, gates)
}

/// The fanout cone of a window with these gates; `all` are its gates and the window's.
fn fanout_cone_of(
    alloc: Global,
    net: &Net,
    fanouts: &Fanouts,
    window: &Window,
    all: &[u32],
    gates: Vec<u32>,
) -> Result<FanoutCone, AllocError>
    requires index { AreFanouts net.now fanouts.now }
    requires belongs { Belongs net.now window.now }
    requires fanout_cone { HasFanoutCone net.now window.now.gates all.now gates.items }
    ensures { IfOk result (λ fanout_cone. IsFanoutCone net.now window.now fanout_cone) }
{
    let own = window.gates();
    let side_inputs = side_inputs_of(alloc, net, all, &gates)?;
    let outputs = all_outputs(alloc, net, fanouts, all)?;
    let cone_outputs = nodes_outside(alloc, &outputs, own)?;
    let directly_observable = has_some(own, &outputs);
    Ok(FanoutCone {
        gates,
        side_inputs,
        cone_outputs,
        directly_observable,
    })
}

/// The fanout cone of a window, by the index of the net.
pub fn fanout_cone_by(
    alloc: Global,
    net: &Net,
    fanouts: &Fanouts,
    window: &Window,
) -> Result<FanoutCone, AllocError>
    requires index { AreFanouts net.now fanouts.now }
    requires belongs { Belongs net.now window.now }
    ensures { IfOk result (λ fanout_cone. IsFanoutCone net.now window.now fanout_cone) }
{
    let _sources = net.sources(); // for the prover: brings the net's invariant into the proof
    let mut all = Vec::with_capacity(alloc, MOST_GATES_IN_BOTH)?;
    all.extend_from_slice(window.gates())?;
    let mut gates = Vec::with_capacity(alloc, MOST_OF_FANOUT_CONE)?;
    take_fanout_cone(net, fanouts, &mut all, &mut gates)?;
    fanout_cone_of(alloc, net, fanouts, window, &all, gates)
}

/// As `fanout_cone_by`, but with an index of its own, made for this one call.
pub fn fanout_cone(alloc: Global, net: &Net, window: &Window) -> Result<FanoutCone, AllocError>
    requires { Belongs net.now window.now }
    ensures { IfOk result (λ fanout_cone. IsFanoutCone net.now window.now fanout_cone) }
{
    let fanouts = fanouts_of(alloc, net)?;
    fanout_cone_by(alloc, net, &fanouts, window)
}
