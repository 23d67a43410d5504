//! Nets for tests, written as constants.

ghost use Rattle.std.specs.Prelude.{◌+◌, ◌<◌, ◌^◌, IsTrue, All, length};
ghost use Rattle.net_theory.specs.Net.{IsSigBelow, IsGateAt, AreGates};

use net_core::{Gate, Net, Op, Sig};
use std::alloc::{AllocError, Global};

/// A net as a constant: for each gate its operator's truth table, below 16, and its operands.
pub struct Plan {
    pub sources: u32,
    pub gates: &'static [(u8, Sig, Sig)],
    pub sinks: &'static [Sig],
}

/// The gate with the operator `op` on `a` and `b`.
pub fn gate(op: u8, a: Sig, b: Sig) -> Gate {
    Gate {
        op: Op::new(op % 16),
        a,
        b,
    }
}

/// Whether a signal is a constant or a node below `node`.
fn is_below(node: u32, sig: Sig) -> bool
    ensures { IsTrue result → IsSigBelow node sig }
{
    match sig {
        Sig::Node(p) => 1 <= p && p < node,
        _ => true,
    }
}

/// Whether the operands of a gate are below `node`.
fn is_gate_at(node: u32, gate: &Gate) -> bool
    ensures { IsTrue result → IsGateAt node gate.now }
{
    // for the prover: brings the operator's invariant into the proof
    let _word = gate.op.get();
    is_below(node, gate.a) && is_below(node, gate.b)
}

/// Whether each gate's operands are below the gate.
fn are_gates(sources: u32, gates: &[Gate]) -> bool
    requires { sources + length gates.now < 2 ^ 31 }
    ensures { IsTrue result → AreGates sources gates.now }
{
    let mut left = gates;
    while let Some((gate, rest)) = left.split_last() {
        if !is_gate_at(sources + 1 + rest.len() as u32, gate) {
            return false;
        }
        left = rest;
    }
    true
}

/// Whether all sinks are constants or nodes below `node`.
fn are_sinks(node: u32, sinks: &[Sig]) -> bool
    ensures { IsTrue result → All (IsSigBelow node) sinks.now }
{
    sinks.iter().all(|sink| is_below(node, *sink))
}

/// The net with the given gates and sinks, if they make one.
pub fn net_of(sources: u32, gates: Vec<Gate>, sinks: Vec<Sig>) -> Option<Net> {
    if sources > 1000 || gates.len() > 1000 || !are_gates(sources, &gates) {
        return None;
    }
    if !are_sinks(sources + 1 + gates.len() as u32, &sinks) {
        return None;
    }
    Some(Net::new(sources, gates, sinks))
}

/// The gates of a plan.
fn planned_gates(alloc: Global, rows: &[(u8, Sig, Sig)]) -> Result<Vec<Gate>, AllocError> {
    let mut gates = Vec::new(alloc);
    for &(op, a, b) in rows {
        gates.push(gate(op, a, b))?;
    }
    Ok(gates)
}

/// The net of a plan, if it is valid.
pub fn planned(alloc: Global, plan: &Plan) -> Option<Net> {
    let Ok(gates) = planned_gates(alloc, plan.gates) else {
        return None;
    };
    let Ok(sinks) = Vec::from_slice(alloc, plan.sinks) else {
        return None;
    };
    net_of(plan.sources, gates, sinks)
}

/// Whether `gates` are those of `rows`.
fn are_planned(gates: &[Gate], rows: &[(u8, Sig, Sig)]) -> bool {
    let mut left = rows;
    for made in gates {
        let Some((&(op, a, b), rest)) = left.split_first() else {
            return false;
        };
        if *made != gate(op, a, b) {
            return false;
        }
        left = rest;
    }
    left.is_empty()
}

/// Whether a net is that of a plan.
pub fn is_planned(net: &Net, plan: &Plan) -> bool {
    net.sources() == plan.sources
        && are_planned(net.gates(), plan.gates)
        && net.sinks() == plan.sinks
}
