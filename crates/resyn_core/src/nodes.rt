//! The range of a net's gates.
ghost use Rattle.std.specs.Prelude.{◌≡◌, ◌+◌, true, false};
ghost use Rattle.net_theory.specs.Net.{end_of};
ghost use Rattle.window_theory.specs.Paths.{IsGate};

use net_core::Net;

/// The first gate.
pub fn first_node(net: &Net) -> u32
    ensures { result ≡ net.now.sources + 1 }
{
    // for the prover: brings the bound on the net's size into the proof
    let _gates = net.gates();
    net.sources() + 1
}

/// The first number after the nodes.
pub fn end_node(net: &Net) -> u32
    ensures { result ≡ end_of net.now }
{
    let gates = net.gates();
    net.sources() + 1 + gates.len() as u32
}

/// Whether a node is a gate.
#[tactic(auto, using(crate::specs::ResynthesizedLaws::gates))]
pub fn has_gate(net: &Net, node: u32) -> bool
    ensures gate { result ≡ true → IsGate net.now node }
    ensures none { result ≡ false → IsGate net.now node → ⊥ }
{
    first_node(net) <= node && node < end_node(net)
}
