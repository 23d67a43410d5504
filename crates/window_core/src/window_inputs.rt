//! The inputs of a set of gates: their fanins outside.

ghost use Rattle.std.specs.Prelude.{◌≡◌, ℕ, true, IfOk, OnOk};
ghost use Rattle.window_theory.specs.Nodes.{among, IsRising, AreJust};
ghost use Rattle.window_theory.specs.Paths.{IsGate};
ghost use Rattle.window_theory.specs.Window.{IsInput};
ghost use Rattle.window_core.specs.Rising.{put_outside};

use crate::ascending::{has, put};
use crate::growing::gate_at;
use crate::shape::MOST_GATES_OF_WINDOW;
use net_core::{Net, Sig};
use std::alloc::{AllocError, Global};

/// Adds the node that `sig` names to `inputs`, unless it is one of `gates`.
fn put_outside(inputs: &mut Vec<u32>, gates: &[u32], sig: Sig) -> Result<(), AllocError>
    requires { IsRising inputs.old.items }
    ensures { OnOk result (inputs.new.items ≡ put_outside gates.now sig inputs.old.items) }
{
    if let Sig::Node(node) = sig {
        if !has(gates, node) {
            put(inputs, node)?;
        }
    }
    Ok(())
}

/// The fanins of `gates` outside, ascending.
pub fn all_inputs(alloc: Global, net: &Net, gates: &[u32]) -> Result<Vec<u32>, AllocError>
    requires { (p : ℕ) → among gates.now p ≡ true → IsGate net.now p }
    ensures { IfOk result (λ inputs. AreJust (IsInput net.now gates.now) inputs.items) }
{
    let mut inputs = Vec::with_capacity(alloc, 2 * MOST_GATES_OF_WINDOW)?;
    let mut left = gates;
    while let Some((node, rest)) = left.split_first() {
        let gate = gate_at(net, *node);
        put_outside(&mut inputs, gates, gate.a)?;
        put_outside(&mut inputs, gates, gate.b)?;
        left = rest;
    }
    Ok(inputs)
}
