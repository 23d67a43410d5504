//! The gates of a window's fanout cone, with constants for the window's outputs.

ghost use Rattle.std.specs.Prelude.{◌≡◌, ℕ, ◌≤◌, true, [], length, if◌then◌else◌, IfOk, OnOk};
ghost use Rattle.net_theory.specs.declared.data.Sig.TheVariants as sigs;
ghost use Rattle.net_theory.specs.declared.data.Gate.{Gate as GateValue};
ghost use Rattle.window_theory.specs.Nodes.{among};
ghost use Rattle.window_theory.specs.Paths.{IsGate};
ghost use Rattle.window_core.specs.Gates.{IsGateOf};
ghost use Rattle.observe_core.specs.Putting.{put_node as put_node_of, put_sig as put_sig_of, put_gate as put_gate_of};
ghost use Rattle.observe_core.specs.Putting.{HasPut, ArePutGates};
ghost use Rattle.chain_theory.specs.Limits.{most_outputs};

use std::alloc::{AllocError, Global};
use window_core::{Gate, Net, Sig, gate_at};

/// The constant signal of a bit.
fn constant(bit: bool) -> Sig
    ensures { result ≡ (if bit then sigs.One else sigs.Zero) }
{
    if bit { Sig::One } else { Sig::Zero }
}

/// The node, or the constant that replaces it: the first output has the most significant of the bits.
#[tactic(auto, unfolding(crate::specs::Putting::put_node))]
fn put_node(outputs: &[u32], bits: u32, node: u32) -> Sig
    requires { length outputs.now ≤ most_outputs }
    ensures { result ≡ put_node_of outputs.now bits node }
{
    let mut left = outputs;
    while let Some((output, rest)) = left.split_first() {
        if node == *output {
            return constant((bits >> rest.len()) & 1 == 1);
        }
        left = rest;
    }
    Sig::Node(node)
}

/// The signal, or the constant that replaces it.
fn put_sig(outputs: &[u32], bits: u32, sig: Sig) -> Sig
    requires { length outputs.now ≤ most_outputs }
    ensures { result ≡ put_sig_of outputs.now bits sig }
{
    match sig {
        Sig::Node(node) => put_node(outputs, bits, node),
        _ => sig,
    }
}

/// The gate at a node, with its operands replaced.
fn put_gate(net: &Net, outputs: &[u32], bits: u32, node: u32) -> Gate
    requires few { length outputs.now ≤ most_outputs }
    requires gate { IsGate net.now node }
    ensures { (g : GateValue) × IsGateOf net.now node g × (result ≡ put_gate_of outputs.now bits g) }
{
    let gate = gate_at(net, node);
    Gate {
        op: gate.op,
        a: put_sig(outputs, bits, gate.a),
        b: put_sig(outputs, bits, gate.b),
    }
}

/// Appends the gates of the fanout cone, with constants for the outputs.
fn put_fanout_cone(
    net: &Net,
    outputs: &[u32],
    bits: u32,
    fanout_cone: &[u32],
    gates: &mut Vec<(u32, Gate)>,
) -> Result<(), AllocError>
    requires few { length outputs.now ≤ most_outputs }
    requires fanout_cone { (p : ℕ) → among fanout_cone.now p ≡ true → IsGate net.now p }
    ensures { OnOk result (HasPut net.now outputs.now bits fanout_cone.now [] gates.old.items gates.new.items) }
{
    let mut left = fanout_cone;
    while let Some((node, rest)) = left.split_first() {
        gates.push((*node, put_gate(net, outputs, bits, *node)))?;
        left = rest;
    }
    Ok(())
}

/// The gates of the fanout cone, with constants for the outputs.
pub(crate) fn put_gates(
    alloc: Global,
    net: &Net,
    outputs: &[u32],
    bits: u32,
    fanout_cone: &[u32],
) -> Result<Vec<(u32, Gate)>, AllocError>
    requires few { length outputs.now ≤ most_outputs }
    requires fanout_cone { (p : ℕ) → among fanout_cone.now p ≡ true → IsGate net.now p }
    ensures { IfOk result (λ gates. ArePutGates net.now outputs.now bits fanout_cone.now gates.items) }
{
    let mut gates = Vec::with_capacity(alloc, fanout_cone.len())?;
    put_fanout_cone(net, outputs, bits, fanout_cone, &mut gates)?;
    Ok(gates)
}
